//! The calls that apply decorators.
ghost use Rattle.std.specs.Prelude.{◌≡◌, OnOk, length};
ghost use Rattle.oxt_stores.specs.Frame.{frames};

use crate::parts::{as_node, parameters_mut, take_list};
use oxt_ctx::context::TraverseCtx;
use oxt_ctx::helper::{Helper, helper_call_expr};
use oxt_ctx::nodes::{array, member, number_literal, property_name};
use oxt_ctx::parts::take_node;
use oxt_grammar::field::Field;
use oxt_names::ids::{NodeIds, OutOfMemory};
use oxt_names::name::Name;
use oxt_tree::tree::{Node, Part};
use std::alloc::Global;
use std::vec;

/// `babelHelpers.decorate([decorators], operands)`.
pub fn decorate_call(
    decorators: Vec<Part>,
    mut operands: Vec<Node>,
    ctx: &mut TraverseCtx,
) -> Result<Node, OutOfMemory>
    ensures around { OnOk result (ctx.new.ancestors ≡ ctx.old.ancestors) }
    ensures depth { OnOk result
        (length (frames ctx.new.declarations) ≡ length (frames ctx.old.declarations)) }
{
    let list = array(ctx.memory(), decorators, &mut ctx.ids)?;
    operands.insert(0, list)?;
    helper_call_expr(Helper::Decorate, operands, ctx)
}

/// Takes the decorators of the node: the expressions of each.
pub fn take_decorators(alloc: Global, node: &mut Node) -> Result<Vec<Part>, OutOfMemory> {
    let mut expressions = Vec::new(alloc);
    for decorator in take_list(alloc, node, Field::Decorators) {
        push_expression(&mut expressions, decorator)?;
    }
    Ok(expressions)
}

/// Appends the expression of the decorator.
fn push_expression(expressions: &mut Vec<Part>, decorator: Part) -> Result<(), OutOfMemory> {
    if let Some(mut node) = as_node(decorator) {
        if let Some(expression) = take_node(&mut node, Field::Expression) {
            expressions.push(Part::Node(expression))?;
        }
    }
    Ok(())
}

/// Appends what the decorators of the parameters of the method give, which it takes:
/// `babelHelpers.decorateParam(place, decorator)` for each.
pub fn push_parameter_decorators(
    decorators: &mut Vec<Part>,
    method: &mut Node,
    ctx: &mut TraverseCtx,
) -> Result<(), OutOfMemory>
    ensures around { OnOk result (ctx.new.ancestors ≡ ctx.old.ancestors) }
    ensures depth { OnOk result
        (length (frames ctx.new.declarations) ≡ length (frames ctx.old.declarations)) }
{
    match parameters_mut(method) {
        Some(parameters) => push_each(decorators, parameters.as_mut_slice(), ctx),
        None => Ok(()),
    }
}

/// Does so for those parameters.
fn push_each(
    decorators: &mut Vec<Part>,
    parameters: &mut [Part],
    ctx: &mut TraverseCtx,
) -> Result<(), OutOfMemory>
    ensures around { OnOk result (ctx.new.ancestors ≡ ctx.old.ancestors) }
    ensures depth { OnOk result
        (length (frames ctx.new.declarations) ≡ length (frames ctx.old.declarations)) }
{
    for place in 0..parameters.len() {
        push_parameter(decorators, place as u64, &mut parameters[place], ctx)?;
    }
    Ok(())
}

/// Does so for the parameter at that place.
fn push_parameter(
    decorators: &mut Vec<Part>,
    place: u64,
    parameter: &mut Part,
    ctx: &mut TraverseCtx,
) -> Result<(), OutOfMemory>
    ensures around { OnOk result (ctx.new.ancestors ≡ ctx.old.ancestors) }
    ensures depth { OnOk result
        (length (frames ctx.new.declarations) ≡ length (frames ctx.old.declarations)) }
{
    match parameter {
        Part::Node(node) => {
            let applied = take_decorators(ctx.memory(), node)?;
            push_applied(decorators, place, applied, ctx)
        }
        _ => Ok(()),
    }
}

/// Appends the calls of those decorators of the parameter at that place.
fn push_applied(
    decorators: &mut Vec<Part>,
    place: u64,
    applied: Vec<Part>,
    ctx: &mut TraverseCtx,
) -> Result<(), OutOfMemory>
    ensures around { OnOk result (ctx.new.ancestors ≡ ctx.old.ancestors) }
    ensures depth { OnOk result
        (length (frames ctx.new.declarations) ≡ length (frames ctx.old.declarations)) }
{
    for decorator in applied {
        push_parameter_call(decorators, place, decorator, ctx)?;
    }
    Ok(())
}

/// Appends the call of that decorator of the parameter.
fn push_parameter_call(
    decorators: &mut Vec<Part>,
    place: u64,
    decorator: Part,
    ctx: &mut TraverseCtx,
) -> Result<(), OutOfMemory>
    ensures around { OnOk result (ctx.new.ancestors ≡ ctx.old.ancestors) }
    ensures depth { OnOk result
        (length (frames ctx.new.declarations) ≡ length (frames ctx.old.declarations)) }
{
    let alloc = ctx.memory();
    if let Some(decorator) = as_node(decorator) {
        let number = number_literal(alloc, place, &mut ctx.ids)?;
        let arguments = vec![in alloc; number, decorator]?;
        let call = helper_call_expr(Helper::DecorateParam, arguments, ctx)?;
        decorators.push(Part::Node(call))?;
    }
    Ok(())
}

/// `class.prototype`.
pub fn prototype_of(alloc: Global, class: Node, ids: &mut NodeIds) -> Result<Node, OutOfMemory> {
    let name = Name::new(alloc, "prototype")?;
    let property = property_name(alloc, &name, ids)?;
    member(alloc, class, property, ids)
}
