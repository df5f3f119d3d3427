//! The variable that stands for a declaration `import a = ..`.
ghost use Rattle.std.specs.Prelude.{◌≡◌, OnOk};
ghost use Rattle.oxt_erase.specs.Context.{but_table_of};

use crate::parts::take_node;
use oxt_ctx::context::TraverseCtx;
use oxt_ctx::nodes::{declaration, make};
use oxt_grammar::field::Field;
use oxt_grammar::kind::Kind;
use oxt_grammar::word::Word;
use oxt_names::flags::ReferenceFlags;
use oxt_names::ids::{NodeIds, OutOfMemory, Span};
use oxt_names::name::Name;
use oxt_tree::tree::{Node, Part};
use std::alloc::Global;
use std::vec;

/// Puts a variable in the place of a declaration `import a = ..` that the plan keeps.
pub fn lower_alias(node: &mut Node, ctx: &mut TraverseCtx) -> Result<(), OutOfMemory>
    ensures frame { OnOk result (ctx.new ≡ but_table_of ctx.old ctx.new) }
{
    if node.kind.is(Kind::TSImportEqualsDeclaration) && ctx.plan.keeps(node.id) {
        put_variable(node, ctx)
    } else {
        Ok(())
    }
}

/// Puts the variable in the place of the declaration.
fn put_variable(node: &mut Node, ctx: &mut TraverseCtx) -> Result<(), OutOfMemory>
    ensures frame { OnOk result (ctx.new ≡ but_table_of ctx.old ctx.new) }
{
    let alloc = *node.parts.allocator();
    let name = name_of(alloc, node)?;
    if let Some(reference) = take_node(node, Field::ModuleReference) {
        *node = variable(alloc, &name, reference, ctx)?;
    }
    Ok(())
}

/// The name of the declaration; the empty one where it has none.
fn name_of(alloc: Global, declaration: &Node) -> Result<Name, OutOfMemory> {
    match declaration.child(Field::Id) {
        Some(id) => Name::new(alloc, id.text(Field::Name).unwrap_or("")),
        None => Name::new(alloc, ""),
    }
}

/// The declaration of a variable of that name for a module that is required, or for a dotted name.
fn variable(
    alloc: Global,
    name: &Name,
    mut reference: Node,
    ctx: &mut TraverseCtx,
) -> Result<Node, OutOfMemory>
    ensures frame { OnOk result (ctx.new ≡ but_table_of ctx.old ctx.new) }
{
    if reference.kind.is(Kind::TSExternalModuleReference) {
        let value = required(alloc, &mut reference, ctx)?;
        declaration(alloc, Word::Const, name, value, &mut ctx.ids)
    } else {
        open_name(&mut reference)?;
        declaration(alloc, Word::Var, name, Some(reference), &mut ctx.ids)
    }
}

/// `require("m")` for the module that the reference names.
fn required(
    alloc: Global,
    reference: &mut Node,
    ctx: &mut TraverseCtx,
) -> Result<Option<Node>, OutOfMemory>
    ensures frame { OnOk result (ctx.new ≡ but_table_of ctx.old ctx.new) }
{
    match take_node(reference, Field::Expression) {
        Some(specifier) => {
            let callee = ctx.create_unbound_ident_expr("require", ReferenceFlags::Read)?;
            let call = call_of(alloc, callee, specifier, &mut ctx.ids)?;
            Ok(Some(call))
        }
        None => Ok(None),
    }
}

/// A call with one argument.
fn call_of(
    alloc: Global,
    callee: Node,
    argument: Node,
    ids: &mut NodeIds,
) -> Result<Node, OutOfMemory> {
    let arguments = vec![in alloc; Part::Node(argument)]?;
    let parts = vec![in alloc;
        Part::Node(callee),
        Part::Nothing,
        Part::List(arguments),
        Part::Flag(false),
        Part::Flag(false),
    ]?;
    make(Kind::CallExpression, parts, ids)
}

/// Makes an expression of a dotted name: each dot becomes a member, which keeps the number that the
/// dotted name has. Another name is an expression already.
fn open_name(name: &mut Node) -> Result<(), OutOfMemory> {
    if !name.kind.is(Kind::TSQualifiedName) {
        return Ok(());
    }
    if let Some(Part::Node(left)) = name.parts.first_mut() {
        open_name(left)?;
    }
    become_member(name)
}

/// Makes a member of a dotted name whose left side is an expression.
fn become_member(name: &mut Node) -> Result<(), OutOfMemory> {
    name.kind = Kind::StaticMemberExpression;
    name.span = Span::NONE;
    name.parts.push(Part::Flag(false))?;
    if let Some(Part::Node(property)) = name.parts.get_mut(1) {
        property.span = Span::NONE;
    }
    Ok(())
}
