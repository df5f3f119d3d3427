//! What metadata writes for types, as expressions.
//!
//! For the type `shapes.Square` of a module, for example:
//!
//! ```js
//! typeof shapes === "undefined" || typeof shapes.Square === "undefined" ? Object : shapes.Square
//! ```
ghost use Rattle.std.specs.Prelude.{◌≡◌, OnOk, length};
ghost use Rattle.oxt_stores.specs.Frame.{frames};

use crate::names::use_of;
use oxt_ctx::context::TraverseCtx;
use oxt_ctx::maybe::MaybeBoundIdentifier;
use oxt_ctx::nodes::{alternative, array, make, member, property_name, string_literal, void_zero};
use oxt_declares::class::parameters_of;
use oxt_grammar::kind::Kind;
use oxt_metadata::name::{node_numbered, path_of, root_of};
use oxt_metadata::typing::{Typing, parameter_typing, rest_of, typed, typing_in};
use oxt_names::flags::ReferenceFlags;
use oxt_names::ids::{NodeId, NodeIds, OutOfMemory};
use oxt_names::name::Name;
use oxt_options::metadata::{GlobalName, MetadataType};
use oxt_tree::tree::{Node, Part};
use std::alloc::Global;
use std::vec;

/// What is written for the type.
pub fn type_expression(typing: Typing, ctx: &mut TraverseCtx) -> Result<Node, OutOfMemory>
    ensures around { OnOk result (ctx.new.ancestors ≡ ctx.old.ancestors) }
    ensures depth { OnOk result
        (length (frames ctx.new.declarations) ≡ length (frames ctx.old.declarations)) }
{
    match typed(&ctx.plan, typing) {
        MetadataType::Reference { name, .. } => reference_expression(name, typing, ctx),
        MetadataType::Global(name) => global_expression(name, ctx),
        MetadataType::Undefined => void_zero(ctx.memory(), &mut ctx.ids),
    }
}

/// The global name.
fn global_expression(name: GlobalName, ctx: &mut TraverseCtx) -> Result<Node, OutOfMemory>
    ensures around { OnOk result (ctx.new.ancestors ≡ ctx.old.ancestors) }
    ensures depth { OnOk result
        (length (frames ctx.new.declarations) ≡ length (frames ctx.old.declarations)) }
{
    ctx.create_unbound_ident_expr(name.as_str(), ReferenceFlags::Read)
}

/// The list of what is written for the types of the parameters of the method, that of the rest last.
pub fn parameters_expression(method: &Node, ctx: &mut TraverseCtx) -> Result<Node, OutOfMemory>
    ensures around { OnOk result (ctx.new.ancestors ≡ ctx.old.ancestors) }
    ensures depth { OnOk result
        (length (frames ctx.new.declarations) ≡ length (frames ctx.old.declarations)) }
{
    let mut types = Vec::new(ctx.memory());
    push_types(parameters_of(method), &mut types, ctx)?;
    if let Some(rest) = rest_of(method) {
        let last = type_expression(typing_in(rest), ctx)?;
        types.push(Part::Node(last))?;
    }
    array(ctx.memory(), types, &mut ctx.ids)
}

/// Appends what is written for the types of these parameters.
fn push_types(
    parameters: &[Part],
    types: &mut Vec<Part>,
    ctx: &mut TraverseCtx,
) -> Result<(), OutOfMemory>
    ensures around { OnOk result (ctx.new.ancestors ≡ ctx.old.ancestors) }
    ensures depth { OnOk result
        (length (frames ctx.new.declarations) ≡ length (frames ctx.old.declarations)) }
{
    for parameter in parameters {
        let next = type_expression(parameter_typing(parameter), ctx)?;
        types.push(Part::Node(next))?;
    }
    Ok(())
}

/// What the dotted name of that number in the type means, if it is there when the code runs, and else `Object`.
fn reference_expression(
    number: NodeId,
    typing: Typing,
    ctx: &mut TraverseCtx,
) -> Result<Node, OutOfMemory>
    ensures around { OnOk result (ctx.new.ancestors ≡ ctx.old.ancestors) }
    ensures depth { OnOk result
        (length (frames ctx.new.declarations) ≡ length (frames ctx.old.declarations)) }
{
    match name_in(typing, number) {
        Some(name) => {
            let root = MaybeBoundIdentifier::from_identifier_reference(root_of(name), ctx)?;
            let path = path_of(ctx.memory(), name)?;
            guarded(&root, path.as_slice(), ctx)
        }
        None => void_zero(ctx.memory(), &mut ctx.ids),
    }
}

/// The name of that number in the type, if it is an annotation.
fn name_in(typing: Typing<'_>, number: NodeId) -> Option<&Node> {
    match typing {
        Typing::Annotation(annotation) => node_numbered(annotation, number),
        Typing::Global(_) | Typing::Undefined => None,
    }
}

/// `test ? Object : name`, where the test is that the name is not there.
fn guarded(
    root: &MaybeBoundIdentifier,
    path: &[Name],
    ctx: &mut TraverseCtx,
) -> Result<Node, OutOfMemory>
    ensures around { OnOk result (ctx.new.ancestors ≡ ctx.old.ancestors) }
    ensures depth { OnOk result
        (length (frames ctx.new.declarations) ≡ length (frames ctx.old.declarations)) }
{
    let alloc = ctx.memory();
    let test = missing(root, path, ctx)?;
    let object = global_expression(GlobalName::Object, ctx)?;
    let name = dotted(root, path, ctx)?;
    let parts = vec![in alloc; Part::Node(test), Part::Node(object), Part::Node(name)]?;
    make(Kind::ConditionalExpression, parts, &mut ctx.ids)
}

/// The test that one of the names, from the first on, is not there.
fn missing(
    root: &MaybeBoundIdentifier,
    path: &[Name],
    ctx: &mut TraverseCtx,
) -> Result<Node, OutOfMemory>
    ensures around { OnOk result (ctx.new.ancestors ≡ ctx.old.ancestors) }
    ensures depth { OnOk result
        (length (frames ctx.new.declarations) ≡ length (frames ctx.old.declarations)) }
{
    let mut test = is_undefined(root, &[], ctx)?;
    for place in 0..path.len() {
        test = or_undefined(test, root, path.split_at(place + 1).0, ctx)?;
    }
    Ok(test)
}

/// `test || typeof name === "undefined"`.
fn or_undefined(
    test: Node,
    root: &MaybeBoundIdentifier,
    path: &[Name],
    ctx: &mut TraverseCtx,
) -> Result<Node, OutOfMemory>
    ensures around { OnOk result (ctx.new.ancestors ≡ ctx.old.ancestors) }
    ensures depth { OnOk result
        (length (frames ctx.new.declarations) ≡ length (frames ctx.old.declarations)) }
{
    let next = is_undefined(root, path, ctx)?;
    alternative(ctx.memory(), test, next, &mut ctx.ids)
}

/// `typeof name === "undefined"`.
fn is_undefined(
    root: &MaybeBoundIdentifier,
    path: &[Name],
    ctx: &mut TraverseCtx,
) -> Result<Node, OutOfMemory>
    ensures around { OnOk result (ctx.new.ancestors ≡ ctx.old.ancestors) }
    ensures depth { OnOk result
        (length (frames ctx.new.declarations) ≡ length (frames ctx.old.declarations)) }
{
    let name = dotted(root, path, ctx)?;
    let alloc = ctx.memory();
    let kind = type_of(alloc, name, &mut ctx.ids)?;
    let text = undefined_text(alloc, &mut ctx.ids)?;
    same(alloc, kind, text, &mut ctx.ids)
}

/// `"undefined"`.
fn undefined_text(alloc: Global, ids: &mut NodeIds) -> Result<Node, OutOfMemory> {
    let undefined = Name::new(alloc, "undefined")?;
    string_literal(alloc, &undefined, ids)
}

/// `one === other`.
fn same(alloc: Global, one: Node, other: Node, ids: &mut NodeIds) -> Result<Node, OutOfMemory> {
    let operator = Name::new(alloc, "===")?;
    let parts = vec![in alloc; Part::Text(operator), Part::Node(one), Part::Node(other)]?;
    make(Kind::BinaryExpression, parts, ids)
}

/// `typeof value`.
fn type_of(alloc: Global, value: Node, ids: &mut NodeIds) -> Result<Node, OutOfMemory> {
    let operator = Name::new(alloc, "typeof")?;
    let parts = vec![in alloc; Part::Text(operator), Part::Node(value)]?;
    make(Kind::UnaryExpression, parts, ids)
}

/// The name with these names behind the first one.
fn dotted(
    root: &MaybeBoundIdentifier,
    path: &[Name],
    ctx: &mut TraverseCtx,
) -> Result<Node, OutOfMemory>
    ensures around { OnOk result (ctx.new.ancestors ≡ ctx.old.ancestors) }
    ensures depth { OnOk result
        (length (frames ctx.new.declarations) ≡ length (frames ctx.old.declarations)) }
{
    let mut value = use_of(root, ReferenceFlags::Read, ctx)?;
    for name in path {
        value = property_of(value, name, ctx)?;
    }
    Ok(value)
}

/// `value.name`.
fn property_of(value: Node, name: &Name, ctx: &mut TraverseCtx) -> Result<Node, OutOfMemory>
    ensures around { OnOk result (ctx.new.ancestors ≡ ctx.old.ancestors) }
    ensures depth { OnOk result
        (length (frames ctx.new.declarations) ≡ length (frames ctx.old.declarations)) }
{
    let alloc = ctx.memory();
    let property = property_name(alloc, name, &mut ctx.ids)?;
    member(alloc, value, property, &mut ctx.ids)
}
