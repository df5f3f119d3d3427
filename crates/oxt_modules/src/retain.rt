//! Takes out of a program what of its imports and exports stands for nothing at run time.

use crate::due::is_export_due;
use crate::removed::{is_kept, is_listing, is_removed};
use oxt_grammar::field::Field;
use oxt_grammar::kind::Kind;
use oxt_grammar::word::Word;
use oxt_names::ids::{NodeId, NodeIds, OutOfMemory, Span};
use oxt_names::name::Name;
use oxt_options::Module;
use oxt_options::plan::Plan;
use oxt_tree::fields::place_of;
use oxt_tree::tree::{Node, Part};
use std::alloc::Global;
use std::vec;

/// Removes from a program what of its imports and exports stands for nothing at run time: those of types alone, the
/// specifiers that the plan does not keep, an `import =` that it does not keep, and exports of erased declarations. Where one
/// was removed and no import or export is left, `export {}` is put last, so that the program stays a module. A file of
/// definitions loses all its code. For CommonJS the program becomes strict.
///
/// With `only_remove_type_imports` an import that loses its specifiers stays, for what its module does.
///
/// `program` is a node of kind `Program`, and `module` is what it is written for.
///
/// # Errors
///
/// `OutOfMemory` for want of memory or of numbers alone. The program may then only be dropped.
pub fn retain_modules(
    program: &mut Node,
    plan: &Plan,
    only_remove_type_imports: bool,
    module: Module,
    ids: &mut NodeIds,
) -> Result<(), OutOfMemory> {
    if program.is_definition_file() {
        empty(program);
    } else {
        retain_body(program, plan, only_remove_type_imports, ids)?;
    }
    match module {
        Module::CommonJs => make_strict(program, ids),
        _ => Ok(()),
    }
}

/// Does so with the statements of the program, which is no file of definitions.
fn retain_body(
    program: &mut Node,
    plan: &Plan,
    all: bool,
    ids: &mut NodeIds,
) -> Result<(), OutOfMemory> {
    let number = ids.fresh()?;
    let is_due = is_export_due(program, plan, all);
    match field_mut(program, Field::Body) {
        Some(Part::List(statements)) => {
            retain_statements(plan, all, statements);
            if is_due {
                push_export(number, statements)?;
            }
            Ok(())
        }
        _ => Ok(()),
    }
}

/// Puts the directive `use strict` first, unless one of the directives says so.
fn make_strict(program: &mut Node, ids: &mut NodeIds) -> Result<(), OutOfMemory> {
    if is_strict(program.list(Field::Directives)) {
        return Ok(());
    }
    let directive = use_strict(*program.parts.allocator(), ids)?;
    match field_mut(program, Field::Directives) {
        Some(Part::List(directives)) => {
            directives.insert(0, directive)?;
            Ok(())
        }
        _ => Ok(()),
    }
}

/// Whether one of the directives is `use strict`.
fn is_strict(directives: &[Part]) -> bool {
    directives.iter().any(is_use_strict)
}

/// Whether the part is the directive `use strict`.
fn is_use_strict(part: &Part) -> bool {
    match part {
        Part::Node(node) => node.holds_text(Field::Value, "use strict"),
        _ => false,
    }
}

/// The directive `use strict`.
fn use_strict(alloc: Global, ids: &mut NodeIds) -> Result<Part, OutOfMemory> {
    let text = Name::new(alloc, "use strict")?;
    let parts = vec![in alloc; Part::Text(text)]?;
    Ok(Part::Node(Node {
        kind: Kind::Directive,
        id: ids.fresh()?,
        span: Span::NONE,
        parts,
    }))
}

/// Puts `export {}` of that number behind the statements.
fn push_export(number: NodeId, statements: &mut Vec<Part>) -> Result<(), OutOfMemory> {
    let alloc = *statements.allocator();
    statements.push(export_nothing(alloc, number)?)?;
    Ok(())
}

/// Removes all code from a program.
fn empty(program: &mut Node) {
    let alloc = *program.parts.allocator();
    put_field(program, Field::Body, Part::List(Vec::new(alloc)));
    put_field(program, Field::Directives, Part::List(Vec::new(alloc)));
    put_field(program, Field::Hashbang, Part::Nothing);
}

/// Puts the part into the field of that name, if the node has such a field.
fn put_field(node: &mut Node, field: Field, part: Part) {
    if let Some(place) = field_mut(node, field) {
        *place = part;
    }
}

/// The field of that name, if the node has such a field.
fn field_mut<'a>(node: &'a mut Node, field: Field) -> Option<&'a mut Part> {
    match place_of(node.kind.rows(), field) {
        Some(place) => node.parts.get_mut(place),
        None => None,
    }
}

/// Removes the statements that go, and of those that stay the specifiers that are not kept.
fn retain_statements(plan: &Plan, all: bool, statements: &mut Vec<Part>) {
    statements.retain(|part| !is_removed(plan, all, part));
    for part in statements.iter_mut() {
        trim_statement(plan, part);
    }
}

/// Drops the specifiers of an import or an export that are not kept.
fn trim_statement(plan: &Plan, part: &mut Part) {
    if let Part::Node(node) = part {
        if is_listing(node.kind) {
            trim_list(plan, node);
        }
    }
}

/// Drops the specifiers that are not kept, and the braces of an import with the last of them.
fn trim_list(plan: &Plan, node: &mut Node) {
    let is_import = node.kind.is(Kind::ImportDeclaration);
    if let Some(field) = field_mut(node, Field::Specifiers) {
        retain_kept(plan, field);
        if is_import && is_empty_list(field) {
            *field = Part::Nothing;
        }
    }
}

/// Retains the elements of a list that are kept.
fn retain_kept(plan: &Plan, list: &mut Part) {
    if let Part::List(parts) = list {
        parts.retain(|part| is_kept(plan, part));
    }
}

/// Whether it is a list without elements.
fn is_empty_list(part: &Part) -> bool {
    match part {
        Part::List(parts) => parts.is_empty(),
        _ => false,
    }
}

/// `export {}`, with that number.
fn export_nothing(alloc: Global, number: NodeId) -> Result<Part, OutOfMemory> {
    let parts = vec![in alloc; Part::Word(Word::Value), Part::List(Vec::new(alloc))]?;
    Ok(Part::Node(Node {
        kind: Kind::ExportNamedDeclaration,
        id: number,
        span: Span::NONE,
        parts,
    }))
}
