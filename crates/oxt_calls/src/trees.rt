//! Small trees, and what is read, copied and taken of them.

use oxt_grammar::field::Field;
use oxt_grammar::kind::Kind;
use oxt_lines::lines::Lines;
use oxt_lines::nodes::{first_expression, named, node, statement_at};
use oxt_lines::source::outline_of;
use oxt_lines::stopped::{Stopped, all_well};
use oxt_lines::table::Table;
use oxt_names::ids::NodeIds;
use oxt_names::name::Name;
use oxt_tree::tree::{Node, Part};
use oxt_valid::pointer::{below, below_index};
use std::alloc::Global;

/// The calls on trees.
pub fn print_trees(alloc: Global, table: &Table, lines: &mut Lines) -> Result<(), Stopped> {
    all_well(&[
        copied(alloc, table, "a.b;", lines),
        copied(alloc, table, "({ [a.b]: c });", lines),
        bound(alloc, table, lines),
        numbers_and_texts(alloc, lines),
        wrapped(alloc, lines),
        unwrapped(alloc, lines),
        taken(alloc, lines),
        pointers(alloc, lines),
    ])
}

// ---- copies

fn copied(alloc: Global, table: &Table, name: &str, lines: &mut Lines) -> Result<(), Stopped> {
    let program = table.tree(alloc, name)?;
    match first_expression(&program.root) {
        Some(expression) => print_copy(alloc, expression, lines),
        None => Err(Stopped::NoTree),
    }
}

/// The node and its copy, whose numbers begin with 10.
fn print_copy(alloc: Global, node: &Node, lines: &mut Lines) -> Result<(), Stopped> {
    let mut ids = NodeIds { next: 10 };
    print_outline(alloc, node, "a tree", lines)?;
    let copy = node.clone_node(alloc, &mut ids)?;
    print_outline(alloc, &copy, "clone_node from the number 10 on", lines)?;
    lines.numbers("the next number", &[ids.next]);
    Ok(())
}

/// A line with the nodes of the tree.
fn print_outline(
    alloc: Global,
    node: &Node,
    label: &str,
    lines: &mut Lines,
) -> Result<(), Stopped> {
    let text = outline_of(alloc, node)?;
    lines.text(label, text.as_str());
    Ok(())
}

// ---- names that a pattern binds

fn bound(alloc: Global, table: &Table, lines: &mut Lines) -> Result<(), Stopped> {
    let program = table.tree(alloc, "let { a, b: [c = d], ...e } = f;")?;
    match first_pattern(&program.root) {
        Some(pattern) => print_bound(alloc, pattern, lines),
        None => Err(Stopped::NoTree),
    }
}

/// The pattern of the first declarator of the first statement.
fn first_pattern(program: &Node) -> Option<&Node> {
    match statement_at(program, 0)?.list(Field::Declarations).first() {
        Some(Part::Node(declarator)) => declarator.child(Field::Id),
        _ => None,
    }
}

fn print_bound(alloc: Global, pattern: &Node, lines: &mut Lines) -> Result<(), Stopped> {
    let names = pattern.bound_names(alloc)?;
    lines.begin("bound_names of { a, b: [c = d], ...e }, each with its node");
    for bound in &names {
        lines.value(bound.name.as_str());
        lines.number_value(bound.node.0);
    }
    lines.end();
    Ok(())
}

fn numbers_and_texts(alloc: Global, lines: &mut Lines) -> Result<(), Stopped> {
    let mut ids = NodeIds { next: 1 };
    let first = ids.fresh()?;
    lines.numbers("fresh from 1 on, and the next number", &[first.0, ids.next]);
    let name = Name::from_string(String::from_str(alloc, "k")?)?;
    let shared = name.share()?;
    lines.texts("from_string of k, share", &[name.as_str(), shared.as_str()]);
    Ok(())
}

// ---- wrappers

/// `INNER!`.
fn non_null(alloc: Global, inner: Node) -> Result<Node, Stopped> {
    let parts = vec![in alloc; Part::Node(inner)]?;
    Ok(node(Kind::TSNonNullExpression, 6, parts))
}

/// `a!`.
fn wrapper(alloc: Global) -> Result<Node, Stopped> {
    let inner = named(alloc, Kind::IdentifierReference, 2, "a")?;
    non_null(alloc, inner)
}

fn wrapped(alloc: Global, lines: &mut Lines) -> Result<(), Stopped> {
    let mut part = Part::Node(wrapper(alloc)?);
    print_wrapper(&part, lines)?;
    take_inside(alloc, &mut part);
    lines.texts(
        "a taken out of a!: the part, seen",
        &[part_kind(&part), part_kind(part.seen())],
    );
    Ok(())
}

/// What is known of a wrapper.
fn print_wrapper(part: &Part, lines: &mut Lines) -> Result<(), Stopped> {
    let Part::Node(node) = part else {
        return Err(Stopped::NoTree);
    };
    let answers = [node.is_typescript_syntax(), node.is_mere_declaration()];
    lines.answers("a! is_typescript_syntax, is_mere_declaration", &answers);
    let kinds = [
        node.kind.name(),
        node.get_inner_expression().kind.name(),
        part_kind(part.seen()),
    ];
    lines.texts("its kind, get_inner_expression, seen", &kinds);
    Ok(())
}

/// Takes the expression that stands inside the wrapper.
fn take_inside(alloc: Global, part: &mut Part) {
    if let Part::Node(node) = part {
        drop(node.get_inner_expression_mut().take_expression(alloc));
    }
}

/// The name of the kind of the node that the part is.
fn part_kind(part: &Part) -> &'static str {
    match part {
        Part::Node(node) => node.kind.name(),
        Part::Nothing => "null",
        _ => "-",
    }
}

fn unwrapped(alloc: Global, lines: &mut Lines) -> Result<(), Stopped> {
    let inner = wrapper(alloc)?.into_inner_expression();
    lines.text("into_inner_expression of a!", inner.kind.name());
    Ok(())
}

// ---- taking

fn taken(alloc: Global, lines: &mut Lines) -> Result<(), Stopped> {
    let mut place = named(alloc, Kind::IdentifierReference, 2, "a")?;
    let expression = place.take_expression(alloc);
    print_taken(
        "take_expression, and what is left",
        &expression,
        &place,
        lines,
    );
    let statement = place.take_statement(alloc);
    print_taken(
        "take_statement, and what is left",
        &statement,
        &place,
        lines,
    );
    taken_part(alloc, place, lines)
}

/// The kind of what was taken, and the kind and the number of what is left.
fn print_taken(label: &str, taken: &Node, left: &Node, lines: &mut Lines) {
    lines.begin(label);
    lines.value(taken.kind.name());
    lines.value(left.kind.name());
    lines.number_value(left.id.0);
    lines.end();
}

fn taken_part(alloc: Global, inner: Node, lines: &mut Lines) -> Result<(), Stopped> {
    let mut part = Part::Node(inner);
    let taken = part.take();
    lines.texts(
        "take of a part, and what is left",
        &[part_kind(&taken), part_kind(&part)],
    );
    let statement = node(Kind::ExpressionStatement, 7, vec![in alloc; part]?);
    lines.answers(
        "a statement with what is left lacks its expression",
        &[statement.lacks(Field::Expression)],
    );
    Ok(())
}

fn pointers(alloc: Global, lines: &mut Lines) -> Result<(), Stopped> {
    let inner = below(alloc, "init", "")?;
    let index = below_index(alloc, 10, inner.as_str())?;
    let place = below(alloc, "body", index.as_str())?;
    lines.text("init, below it 10, below it body", place.as_str());
    Ok(())
}
