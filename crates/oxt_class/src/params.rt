//! Parameters of a constructor that are properties of the object too.
ghost use Rattle.std.specs.Prelude.{◌≡◌, OnOk, length};
ghost use Rattle.oxt_stores.specs.Frame.{frames};
ghost use Rattle.oxt_ctx.specs.Made.{but_names_of};

use crate::elements::{is_constructor, parameters_mut, put_into};
use oxt_ctx::context::TraverseCtx;
use oxt_ctx::nodes::{assignment, member, property_name, statement, this_expression};
use oxt_ctx::parts::put_field;
use oxt_fields::class::{is_property, parameters_of};
use oxt_grammar::field::Field;
use oxt_names::flags::ReferenceFlags;
use oxt_names::ids::OutOfMemory;
use oxt_names::name::Name;
use oxt_tree::tree::{Node, Part};
use std::alloc::Global;

/// Puts the parameters of the constructor that are properties on the object, behind its call of `super`
/// where it has one, and clears what makes them properties. Does nothing to another method.
///
/// # Errors
///
/// `OutOfMemory` for want of memory or of numbers alone.
pub fn transform_class_constructor(
    constructor: &mut Node,
    ctx: &mut TraverseCtx,
) -> Result<(), OutOfMemory>
    ensures frame { OnOk result (ctx.new ≡ but_names_of ctx.old ctx.new) }
    ensures depth { OnOk result
        (length (frames ctx.new.declarations) ≡ length (frames ctx.old.declarations)) }
{
    if !is_constructor(constructor) {
        return Ok(());
    }
    let mut puts = take_puts(constructor, ctx)?;
    put_into(constructor, &mut puts)
}

/// The statements that put the parameters of the constructor on the object, which are no properties then.
pub fn take_puts(constructor: &mut Node, ctx: &mut TraverseCtx) -> Result<Vec<Part>, OutOfMemory>
    ensures frame { OnOk result (ctx.new ≡ but_names_of ctx.old ctx.new) }
    ensures depth { OnOk result
        (length (frames ctx.new.declarations) ≡ length (frames ctx.old.declarations)) }
{
    let puts = convert_constructor_params(parameters_of(constructor), ctx)?;
    if let Some(params) = parameters_mut(constructor) {
        clear_properties(params.as_mut_slice());
    }
    Ok(puts)
}

/// The statements `this.x = x;` for the parameters that are properties, in order.
///
/// # Errors
///
/// `OutOfMemory` for want of memory or of numbers alone.
pub fn convert_constructor_params(
    params: &[Part],
    ctx: &mut TraverseCtx,
) -> Result<Vec<Part>, OutOfMemory>
    ensures frame { OnOk result (ctx.new ≡ but_names_of ctx.old ctx.new) }
    ensures depth { OnOk result
        (length (frames ctx.new.declarations) ≡ length (frames ctx.old.declarations)) }
{
    let mut puts = Vec::new(ctx.memory());
    for param in params {
        push_put(&mut puts, param, ctx)?;
    }
    Ok(puts)
}

/// Appends the statement of the parameter, if it is a property.
fn push_put(puts: &mut Vec<Part>, param: &Part, ctx: &mut TraverseCtx) -> Result<(), OutOfMemory>
    ensures frame { OnOk result (ctx.new ≡ but_names_of ctx.old ctx.new) }
    ensures depth { OnOk result
        (length (frames ctx.new.declarations) ≡ length (frames ctx.old.declarations)) }
{
    if let Some(pattern) = property_pattern(param) {
        let put = parameter_put(pattern, ctx)?;
        puts.push(Part::Node(put))?;
    }
    Ok(())
}

/// The name of the parameter, if it is a property.
pub fn property_pattern(param: &Part) -> Option<&Node> {
    match param {
        Part::Node(node) if is_property(node) => node.child(Field::Pattern),
        _ => None,
    }
}

/// `this.x = x;`.
fn parameter_put(pattern: &Node, ctx: &mut TraverseCtx) -> Result<Node, OutOfMemory>
    ensures frame { OnOk result (ctx.new ≡ but_names_of ctx.old ctx.new) }
    ensures depth { OnOk result
        (length (frames ctx.new.declarations) ≡ length (frames ctx.old.declarations)) }
{
    let alloc = ctx.memory();
    let name = name_of(alloc, pattern)?;
    let this = this_expression(alloc, &mut ctx.ids)?;
    let property = property_name(alloc, &name, &mut ctx.ids)?;
    let target = member(alloc, this, property, &mut ctx.ids)?;
    let symbol = ctx.scoping.symbol_of(pattern.id);
    let value = ctx.create_ident_expr(&name, symbol, ReferenceFlags::Read)?;
    let put = assignment(alloc, target, value, &mut ctx.ids)?;
    statement(alloc, put, &mut ctx.ids)
}

/// The name that the node binds.
pub fn name_of(alloc: Global, pattern: &Node) -> Result<Name, OutOfMemory> {
    match pattern.field(Field::Name) {
        Some(Part::Text(name)) => name.share(),
        _ => Name::new(alloc, ""),
    }
}

/// Clears what makes parameters properties.
fn clear_properties(params: &mut [Part]) {
    for param in params.iter_mut() {
        clear_property(param);
    }
}

/// Clears what makes the parameter a property.
fn clear_property(param: &mut Part) {
    if let Part::Node(node) = param {
        if is_property(node) {
            put_field(node, Field::Accessibility, Part::Nothing);
            put_field(node, Field::Readonly, Part::Flag(false));
            put_field(node, Field::Override, Part::Flag(false));
        }
    }
}
