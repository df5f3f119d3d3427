//! What blocks of namespaces export besides blocks.
ghost use Rattle.std.specs.Prelude.{◌≡◌, ◌<◌, OnOk, length};
ghost use Rattle.oxt_lower.specs.Context.{but_table_of};

use crate::facts::name_of;
use crate::members::take_field;
use crate::namespace_call::member_on;
use oxt_ctx::context::TraverseCtx;
use oxt_ctx::nodes::{assignment, make, statement};
use oxt_declares::dropped::{is_dropped, part_is_dropped};
use oxt_grammar::field::Field;
use oxt_grammar::kind::Kind;
use oxt_names::flags::ReferenceFlags;
use oxt_names::ids::{NodeIds, OutOfMemory};
use oxt_options::plan::Plan;
use oxt_stores::bound::BoundIdentifier;
use oxt_tree::bound::BoundName;
use oxt_tree::fields::place_of;
use oxt_tree::tree::{Node, Part};
use std::alloc::Global;
use std::vec;

/// Whether nothing stands for the statement of a block: it is of types alone, exports such a declaration,
/// or is an `export as namespace`, or an `import =` that the plan does not keep.
pub fn vanishes(node: &Node, plan: &Plan) -> bool {
    match node.kind {
        Kind::TSNamespaceExportDeclaration => true,
        Kind::TSImportEqualsDeclaration => !plan.keeps(node.id),
        Kind::ExportDeclaration => exports_dropped(node),
        _ => node.is_type_only() || is_dropped(node),
    }
}

/// Whether what the export declares stands for nothing at run time.
fn exports_dropped(node: &Node) -> bool {
    match node.field(Field::Declaration) {
        Some(part) => part_is_dropped(part),
        None => false,
    }
}

/// The statements that stand for an export in the block whose function has that parameter: the
/// declaration, and what puts its names.
pub fn export_statements(
    export: &mut Node,
    base: &BoundIdentifier,
    ctx: &mut TraverseCtx,
) -> Result<Vec<Part>, OutOfMemory>
    requires { base.now.symbol_id.0 < length ctx.old.scoping.symbols }
    ensures frame { OnOk result (ctx.new ≡ but_table_of ctx.old ctx.new) }
    ensures symbols_stay { OnOk result
        (length ctx.new.scoping.symbols ≡ length ctx.old.scoping.symbols) }
{
    let alloc = *export.parts.allocator();
    match take_field(export, Field::Declaration) {
        Part::Node(declaration) => declaration_statements(alloc, declaration, base, ctx),
        _ => Ok(Vec::new(alloc)),
    }
}

/// The declaration, and what puts its names.
fn declaration_statements(
    alloc: Global,
    mut declaration: Node,
    base: &BoundIdentifier,
    ctx: &mut TraverseCtx,
) -> Result<Vec<Part>, OutOfMemory>
    requires { base.now.symbol_id.0 < length ctx.old.scoping.symbols }
    ensures frame { OnOk result (ctx.new ≡ but_table_of ctx.old ctx.new) }
    ensures symbols_stay { OnOk result
        (length ctx.new.scoping.symbols ≡ length ctx.old.scoping.symbols) }
{
    if is_plain(&declaration) {
        put_values(&mut declaration, base, ctx)?;
        return Ok(vec![in alloc; Part::Node(declaration)]?);
    }
    let names = names_of(alloc, &declaration)?;
    if names.is_empty() {
        return Ok(vec![in alloc; Part::Node(declaration)]?);
    }
    let puts = puts_of(alloc, names, base, ctx)?;
    Ok(vec![in alloc; Part::Node(declaration), Part::Node(puts)]?)
}

/// Whether it declares variables, all by bare names.
fn is_plain(declaration: &Node) -> bool {
    declaration.kind.is(Kind::VariableDeclaration)
        && declaration
            .list(Field::Declarations)
            .iter()
            .all(|declarator| has_bare_name(declarator))
}

/// Whether the declarator has a bare name.
fn has_bare_name(declarator: &Part) -> bool {
    match declarator.field(Field::Id) {
        Some(id) => id.is_kind(Kind::BindingIdentifier),
        None => false,
    }
}

/// Puts the values of the variables where they are set.
fn put_values(
    declaration: &mut Node,
    base: &BoundIdentifier,
    ctx: &mut TraverseCtx,
) -> Result<(), OutOfMemory>
    requires { base.now.symbol_id.0 < length ctx.old.scoping.symbols }
    ensures frame { OnOk result (ctx.new ≡ but_table_of ctx.old ctx.new) }
    ensures symbols_stay { OnOk result
        (length ctx.new.scoping.symbols ≡ length ctx.old.scoping.symbols) }
{
    match place_of(declaration.kind.rows(), Field::Declarations) {
        Some(place) if place < declaration.parts.len() => {
            put_each(&mut declaration.parts[place], base, ctx)
        }
        _ => Ok(()),
    }
}

/// Does so for each declarator of the list that the part is.
fn put_each(
    declarators: &mut Part,
    base: &BoundIdentifier,
    ctx: &mut TraverseCtx,
) -> Result<(), OutOfMemory>
    requires { base.now.symbol_id.0 < length ctx.old.scoping.symbols }
    ensures frame { OnOk result (ctx.new ≡ but_table_of ctx.old ctx.new) }
    ensures symbols_stay { OnOk result
        (length ctx.new.scoping.symbols ≡ length ctx.old.scoping.symbols) }
{
    if let Part::List(declarators) = declarators {
        for declarator in declarators.iter_mut() {
            put_in(declarator, base, ctx)?;
        }
    }
    Ok(())
}

/// Does so for the declarator.
fn put_in(
    declarator: &mut Part,
    base: &BoundIdentifier,
    ctx: &mut TraverseCtx,
) -> Result<(), OutOfMemory>
    requires { base.now.symbol_id.0 < length ctx.old.scoping.symbols }
    ensures frame { OnOk result (ctx.new ≡ but_table_of ctx.old ctx.new) }
    ensures symbols_stay { OnOk result
        (length ctx.new.scoping.symbols ≡ length ctx.old.scoping.symbols) }
{
    match declarator {
        Part::Node(node) => put_value(node, base, ctx),
        _ => Ok(()),
    }
}

/// `x = base.x = value` for `x = value`; a declarator without a value stays.
fn put_value(
    declarator: &mut Node,
    base: &BoundIdentifier,
    ctx: &mut TraverseCtx,
) -> Result<(), OutOfMemory>
    requires { base.now.symbol_id.0 < length ctx.old.scoping.symbols }
    ensures frame { OnOk result (ctx.new ≡ but_table_of ctx.old ctx.new) }
    ensures symbols_stay { OnOk result
        (length ctx.new.scoping.symbols ≡ length ctx.old.scoping.symbols) }
{
    let alloc = *declarator.parts.allocator();
    let name = name_of(declarator)?;
    match take_field(declarator, Field::Init) {
        Part::Node(value) => {
            let target = member_on(alloc, base, &name, ctx)?;
            let put = assignment(alloc, target, value, &mut ctx.ids)?;
            set_field(declarator, Field::Init, Part::Node(put));
            Ok(())
        }
        _ => Ok(()),
    }
}

/// Puts the part into the field of that name, if the node has such a field.
fn set_field(node: &mut Node, field: Field, part: Part) {
    if let Some(place) = place_of(node.kind.rows(), field) {
        if place < node.parts.len() {
            node.parts[place] = part;
        }
    }
}

/// The names that the declaration binds.
fn names_of(alloc: Global, declaration: &Node) -> Result<Vec<BoundName>, OutOfMemory> {
    if declaration.kind.is(Kind::VariableDeclaration) {
        names_of_each(alloc, declaration.list(Field::Declarations))
    } else {
        names_in(alloc, declaration.field(Field::Id))
    }
}

/// The names that the declarators bind.
fn names_of_each(alloc: Global, declarators: &[Part]) -> Result<Vec<BoundName>, OutOfMemory> {
    let mut names = Vec::new(alloc);
    for declarator in declarators {
        let mut more = names_in(alloc, declarator.field(Field::Id))?;
        names.append(&mut more)?;
    }
    Ok(names)
}

/// The names that the pattern binds, if there is one.
fn names_in(alloc: Global, pattern: Option<&Part>) -> Result<Vec<BoundName>, OutOfMemory> {
    match pattern {
        Some(Part::Node(pattern)) => pattern.bound_names(alloc),
        _ => Ok(Vec::new(alloc)),
    }
}

/// The statement that puts the names: a sequence where there are several.
fn puts_of(
    alloc: Global,
    names: Vec<BoundName>,
    base: &BoundIdentifier,
    ctx: &mut TraverseCtx,
) -> Result<Node, OutOfMemory>
    requires { base.now.symbol_id.0 < length ctx.old.scoping.symbols }
    ensures frame { OnOk result (ctx.new ≡ but_table_of ctx.old ctx.new) }
    ensures symbols_stay { OnOk result
        (length ctx.new.scoping.symbols ≡ length ctx.old.scoping.symbols) }
{
    let mut puts = Vec::new(alloc);
    for name in names {
        let put = put_of(alloc, &name, base, ctx)?;
        puts.push(Part::Node(put))?;
    }
    let whole = in_turn(puts, &mut ctx.ids)?;
    statement(alloc, whole, &mut ctx.ids)
}

/// `base.x = x`.
fn put_of(
    alloc: Global,
    name: &BoundName,
    base: &BoundIdentifier,
    ctx: &mut TraverseCtx,
) -> Result<Node, OutOfMemory>
    requires { base.now.symbol_id.0 < length ctx.old.scoping.symbols }
    ensures frame { OnOk result (ctx.new ≡ but_table_of ctx.old ctx.new) }
    ensures symbols_stay { OnOk result
        (length ctx.new.scoping.symbols ≡ length ctx.old.scoping.symbols) }
{
    let target = member_on(alloc, base, &name.name, ctx)?;
    let symbol = ctx.scoping.symbol_of(name.node);
    let value = ctx.create_ident_expr(&name.name, symbol, ReferenceFlags::Read)?;
    assignment(alloc, target, value, &mut ctx.ids)
}

/// The expressions one after the other: a single one, or a sequence.
fn in_turn(mut expressions: Vec<Part>, ids: &mut NodeIds) -> Result<Node, OutOfMemory> {
    if expressions.len() == 1 {
        if let Some(Part::Node(expression)) = expressions.pop() {
            return Ok(expression);
        }
    }
    let alloc = *expressions.allocator();
    let parts = vec![in alloc; Part::List(expressions)]?;
    make(Kind::SequenceExpression, parts, ids)
}
