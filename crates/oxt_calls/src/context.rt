//! The context of a walk: the nodes around, what was found, names that are made and their nodes.
ghost use Rattle.std.specs.Prelude.{◌≡◌, ◌<◌, ℕ, [], IfOk, None, OnOk, length};
ghost use Rattle.oxt_stores.specs.Frame.{frames};
ghost use Rattle.oxt_injector.specs.Pending.{pending};

use crate::both::print_twice;
use crate::keys::print_keys_in;
use oxt_ctx::ancestor::AncestorRecord;
use oxt_ctx::bound::BindingNodes;
use oxt_ctx::context::TraverseCtx;
use oxt_ctx::maybe::MaybeBoundIdentifier;
use oxt_ctx::text::get_var_name_from_node;
use oxt_ctx::uid::{create_uid_var, create_uid_var_based_on_node, create_uid_var_with_init};
use oxt_grammar::field::Field;
use oxt_grammar::kind::Kind;
use oxt_lines::lines::Lines;
use oxt_lines::nodes::{first_expression, literal};
use oxt_lines::source::push_declaration;
use oxt_lines::stopped::{Stopped, all_well};
use oxt_lines::table::Table;
use oxt_names::diagnostic::{DiagnosticKind, OxcDiagnostic};
use oxt_names::flags::{ReferenceFlags, ScopeFlags, SymbolFlags};
use oxt_names::ids::{NodeId, NodeIds};
use oxt_names::name::Name;
use oxt_names::uid::UidNames;
use oxt_options::options::Module;
use oxt_options::plan::Plan;
use oxt_options::state::TransformState;
use oxt_scoping::scoping::Scoping;
use oxt_stores::bound::BoundIdentifier;
use oxt_tree::tree::Node;
use std::alloc::Global;

/// The calls of contexts.
pub fn print_context(alloc: Global, table: &Table, lines: &mut Lines) -> Result<(), Stopped> {
    all_well(&[
        print_calls(alloc, Calls::All, lines),
        variables(alloc, table, lines),
        print_text_of(alloc, table, "the text of _a1", "_a1;", lines),
        print_text_of(alloc, table, "the text of a.b()", "a.b();", lines),
        print_text_of(
            alloc,
            table,
            "the text of new (a.b())()",
            "new (a.b())();",
            lines,
        ),
        print_text_of(alloc, table, "the text of a!", "a!;", lines),
    ])?;
    lines.heading("the texts of strings");
    all_well(&[
        print_text_of(alloc, table, "x$_1", "the string x$_1", lines),
        print_text_of(alloc, table, "1x", "the string 1x", lines),
        print_text_of(alloc, table, "a b", "the string a b", lines),
        print_text_of(alloc, table, "nothing", "the string nothing", lines),
    ])
}

/// The table of a program in which nothing is declared.
fn empty_table(alloc: Global) -> Result<Scoping, Stopped> {
    Ok(Scoping::new(alloc, ScopeFlags::Top, UidNames::new(alloc))?)
}

/// Goes into the first list of statements.
fn open_list(ctx: &mut TraverseCtx) -> Result<(), Stopped>
    requires { frames ctx.old.declarations ≡ [] }
    ensures { OnOk result (length (frames ctx.new.declarations) ≡ 1) }
{
    ctx.var_declarations.record_entering_statements()?;
    Ok(())
}

/// A context of that table, in no list of statements. Numbers begin with 10.
pub fn of_table(alloc: Global, scoping: Scoping) -> TraverseCtx
    ensures depth { frames result.declarations ≡ [] }
    ensures pending { (n : ℕ) → pending result.injector n ≡ None }
{
    let state = TransformState {
        module: Module::Preserve,
        set_public_class_fields: false,
        definition: false,
        is_class_properties_plugin_enabled: false,
    };
    TraverseCtx::new(
        alloc,
        scoping,
        Plan::empty(alloc),
        state,
        NodeIds { next: 10 },
    )
}

/// What is called in a context of its own.
#[derive(Clone, Copy)]
pub enum Calls<'a> {
    /// What is known of the nodes around, and names that are made.
    All,
    /// The makers of variables, one by the text of the node.
    Variables(&'a Node),
    /// The makers of what keys and constructors of classes become, with that key.
    Keys(&'a Node),
    /// A hook of two passes.
    Both,
}

/// Makes the calls in a context in which nothing is declared.
pub fn print_calls(alloc: Global, calls: Calls<'_>, lines: &mut Lines) -> Result<(), Stopped> {
    let table = empty_table(alloc)?;
    print_calls_by(alloc, table, calls, lines)
}

fn print_calls_by(
    alloc: Global,
    table: Scoping,
    calls: Calls<'_>,
    lines: &mut Lines,
) -> Result<(), Stopped> {
    let mut ctx = of_table(alloc, table);
    let outcome = print_calls_in(alloc, calls, &mut ctx, lines);
    drop(ctx);
    outcome
}

fn print_calls_in(
    alloc: Global,
    calls: Calls<'_>,
    ctx: &mut TraverseCtx,
    lines: &mut Lines,
) -> Result<(), Stopped>
    requires { frames ctx.old.declarations ≡ [] }
{
    open_list(ctx)?;
    match calls {
        Calls::All => print_in(alloc, ctx, lines),
        Calls::Variables(member) => three_variables(alloc, member, ctx, lines),
        Calls::Keys(key) => print_keys_in(alloc, key, ctx, lines),
        Calls::Both => print_twice(alloc, ctx, lines),
    }
}

fn print_in(alloc: Global, ctx: &mut TraverseCtx, lines: &mut Lines) -> Result<(), Stopped> {
    nodes_around(alloc, ctx, lines)?;
    found(alloc, ctx, lines)?;
    made_names(ctx, lines)?;
    own_name(alloc, ctx, lines)?;
    read_back(ctx, lines)?;
    free_name(ctx, lines)
}

// ---- nodes around

fn nodes_around(alloc: Global, ctx: &mut TraverseCtx, lines: &mut Lines) -> Result<(), Stopped> {
    let root = ctx.scoping.root_scope_id();
    ctx.scoping
        .open_scope(NodeId(2), root, ScopeFlags::StrictMode)?;
    go_in(alloc, ctx)?;
    print_around(
        ctx,
        "in a class 2, which opens a scope, and its body 3: parent, scope",
        lines,
    );
    lines.texts(
        "ancestor 1, ancestor 2",
        &[class_name(ctx, 1), class_name(ctx, 2)],
    );
    let left = left_node(ctx);
    print_around(ctx, "out of the body: parent, scope", lines);
    let lefts = [left, left_node(ctx), left_node(ctx)];
    print_around(ctx, "out of the class: parent, scope", lines);
    lines.options("pop_ancestor, three times", &lefts);
    Ok(())
}

/// Goes into a class that opens a scope, and into its body, which opens none.
fn go_in(alloc: Global, ctx: &mut TraverseCtx) -> Result<(), Stopped> {
    let class = AncestorRecord {
        kind: Kind::ClassDeclaration,
        node: NodeId(2),
        scope: ctx.scoping.scope_of(NodeId(2)),
        class_name: Some(Name::new(alloc, "C")?),
    };
    ctx.push_ancestor(class)?;
    let body = AncestorRecord {
        kind: Kind::ClassBody,
        node: NodeId(3),
        scope: None,
        class_name: None,
    };
    ctx.push_ancestor(body)?;
    Ok(())
}

/// A line with the number of the parent, and the current scope.
fn print_around(ctx: &TraverseCtx, label: &str, lines: &mut Lines) {
    let parent = ctx.parent().map(|entry| entry.node.0);
    lines.options(label, &[parent, Some(ctx.current_scope_id().0)]);
}

/// The name of the class at that level.
fn class_name(ctx: &TraverseCtx, level: usize) -> &str {
    match ctx.ancestor(level) {
        Some(entry) => match &entry.class_name {
            Some(name) => name.as_str(),
            None => "no name",
        },
        None => "-",
    }
}

/// Leaves a node, and gives its number.
fn left_node(ctx: &mut TraverseCtx) -> Option<u64> {
    ctx.pop_ancestor().map(|entry| entry.node.0)
}

fn found(alloc: Global, ctx: &mut TraverseCtx, lines: &mut Lines) -> Result<(), Stopped> {
    let diagnostic = OxcDiagnostic {
        kind: DiagnosticKind::AmbientModuleNested,
        span: None,
    };
    ctx.error(diagnostic)?;
    for diagnostic in &ctx.diagnostics {
        let line = diagnostic.line(alloc)?;
        lines.begin("error");
        lines.value(line.as_str());
    }
    Ok(())
}

// ---- names that are made

/// A made name in the current scope.
fn made_name(ctx: &mut TraverseCtx) -> Result<BoundIdentifier, Stopped>
    ensures { IfOk result (λ bound. bound.symbol_id.0 < length ctx.new.scoping.symbols) }
{
    let scope = ctx.current_scope_id();
    Ok(ctx.generate_uid("x", scope, SymbolFlags::BlockScopedVariable)?)
}

fn made_names(ctx: &mut TraverseCtx, lines: &mut Lines) -> Result<(), Stopped> {
    let bound = made_name(ctx)?;
    lines.text("generate_uid of x", bound.name.as_str());
    uses(&bound, ctx, lines)?;
    bindings(&bound, ctx, lines)
}

/// Lines with the nodes that use the name.
fn uses(bound: &BoundIdentifier, ctx: &mut TraverseCtx, lines: &mut Lines) -> Result<(), Stopped>
    requires { bound.now.symbol_id.0 < length ctx.old.scoping.symbols }
{
    let expression = bound.create_read_expression(ctx)?;
    print_name("create_read_expression", &expression, lines);
    let reference = bound.create_read_reference(ctx)?;
    print_name("create_read_reference", &reference, lines);
    let target = bound.create_write_target(ctx)?;
    print_name("create_write_target", &target, lines);
    Ok(())
}

/// Lines with the nodes that bind the name.
fn bindings(
    bound: &BoundIdentifier,
    ctx: &mut TraverseCtx,
    lines: &mut Lines,
) -> Result<(), Stopped> {
    let pattern = bound.create_binding_pattern(ctx)?;
    print_name("create_binding_pattern", &pattern, lines);
    let identifier = bound.create_binding_identifier(ctx)?;
    print_name("create_binding_identifier", &identifier, lines);
    Ok(())
}

/// A line with the node's kind, its number and its name.
fn print_name(label: &str, node: &Node, lines: &mut Lines) {
    lines.begin(label);
    lines.value(node.kind.name());
    lines.number_value(node.id.0);
    if let Some(part) = node.field(Field::Name) {
        lines.value(part.as_text().unwrap_or("-"));
    }
    lines.end();
}

fn own_name(alloc: Global, ctx: &mut TraverseCtx, lines: &mut Lines) -> Result<(), Stopped> {
    let name = Name::new(alloc, "y")?;
    let scope = ctx.current_scope_id();
    let bound = ctx.generate_binding(&name, scope, SymbolFlags::BlockScopedVariable)?;
    lines.text("generate_binding of y", bound.name.as_str());
    Ok(())
}

// ---- uses that are read back

fn read_back(ctx: &mut TraverseCtx, lines: &mut Lines) -> Result<(), Stopped> {
    let bound = made_name(ctx)?;
    lines.numbers("generate_uid of x again: its symbol", &[bound.symbol_id.0]);
    let made = ctx.create_ident_expr(&bound.name, Some(bound.symbol_id), ReferenceFlags::Read)?;
    used_again(&made, ctx, lines)
}

fn free_name(ctx: &mut TraverseCtx, lines: &mut Lines) -> Result<(), Stopped> {
    let made = ctx.create_unbound_ident_expr("babelHelpers", ReferenceFlags::Read)?;
    used_again(&made, ctx, lines)
}

/// Reads what a use means, and uses it again.
fn used_again(made: &Node, ctx: &mut TraverseCtx, lines: &mut Lines) -> Result<(), Stopped> {
    let read = MaybeBoundIdentifier::from_identifier_reference(made, ctx)?;
    lines.begin("from_identifier_reference");
    lines.value(read.name.as_str());
    lines.option_value(read.symbol_id.map(|symbol| symbol.0));
    lines.end();
    let again = read.create_expression(ReferenceFlags::Write, ctx)?;
    print_name("create_expression", &again, lines);
    Ok(())
}

// ---- variables

fn variables(alloc: Global, table: &Table, lines: &mut Lines) -> Result<(), Stopped> {
    let program = table.tree(alloc, "a.b;")?;
    match first_expression(&program.root) {
        Some(member) => print_calls(alloc, Calls::Variables(member), lines),
        None => Err(Stopped::NoTree),
    }
}

fn three_variables(
    alloc: Global,
    member: &Node,
    ctx: &mut TraverseCtx,
    lines: &mut Lines,
) -> Result<(), Stopped>
    requires { length (frames ctx.old.declarations) ≡ 1 }
{
    plain_variable(ctx, lines)?;
    variable_with_init(alloc, ctx, lines)?;
    variable_for_node(member, ctx, lines)?;
    print_variables(alloc, ctx, lines)
}

fn plain_variable(ctx: &mut TraverseCtx, lines: &mut Lines) -> Result<(), Stopped>
    requires { length (frames ctx.old.declarations) ≡ 1 }
    ensures { OnOk result (length (frames ctx.new.declarations) ≡ 1) }
{
    let bound = create_uid_var("k", ctx)?;
    lines.text("create_uid_var of k", bound.name.as_str());
    Ok(())
}

fn variable_with_init(
    alloc: Global,
    ctx: &mut TraverseCtx,
    lines: &mut Lines,
) -> Result<(), Stopped>
    requires { length (frames ctx.old.declarations) ≡ 1 }
    ensures { OnOk result (length (frames ctx.new.declarations) ≡ 1) }
{
    let bound = create_uid_var_with_init("k", literal(alloc, 1)?, ctx)?;
    lines.text("create_uid_var_with_init of k, 1", bound.name.as_str());
    Ok(())
}

fn variable_for_node(member: &Node, ctx: &mut TraverseCtx, lines: &mut Lines) -> Result<(), Stopped>
    requires { length (frames ctx.old.declarations) ≡ 1 }
    ensures { OnOk result (length (frames ctx.new.declarations) ≡ 1) }
{
    let bound = create_uid_var_based_on_node(member, ctx)?;
    lines.text("create_uid_var_based_on_node of a.b", bound.name.as_str());
    Ok(())
}

/// A line with the statement of the variables.
fn print_variables(alloc: Global, ctx: &mut TraverseCtx, lines: &mut Lines) -> Result<(), Stopped>
    requires { length (frames ctx.old.declarations) ≡ 1 }
{
    let (by_var, _by_let) = ctx.var_declarations.get_var_statement(&mut ctx.ids)?;
    let mut text = String::new(alloc);
    if let Some(statement) = &by_var {
        push_declaration(&mut text, statement)?;
    }
    lines.text("the list begins with", text.as_str());
    Ok(())
}

// ---- texts of expressions

/// A line with the text of the first expression.
fn print_text_of(
    alloc: Global,
    table: &Table,
    label: &str,
    name: &str,
    lines: &mut Lines,
) -> Result<(), Stopped> {
    let program = table.tree(alloc, name)?;
    match first_expression(&program.root) {
        Some(expression) => print_var_name(alloc, label, expression, lines),
        None => Err(Stopped::NoTree),
    }
}

fn print_var_name(
    alloc: Global,
    label: &str,
    expression: &Node,
    lines: &mut Lines,
) -> Result<(), Stopped> {
    let name = get_var_name_from_node(alloc, expression)?;
    lines.text(label, name.as_str());
    Ok(())
}
