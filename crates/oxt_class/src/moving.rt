//! Fields with a value that move out of their places.
ghost use Rattle.std.specs.Prelude.{◌≡◌, ◌<◌, OnOk, length};
ghost use Rattle.oxt_stores.specs.Frame.{frames};
ghost use Rattle.oxt_ctx.specs.Made.{but_names_of};

use crate::keys::{leave_key, member_at, member_at_variable, take_waiting};
use oxt_ctx::block::static_block;
use oxt_ctx::context::TraverseCtx;
use oxt_ctx::nodes::{assignment, statement};
use oxt_ctx::parts::{child_mut, take_node};
use oxt_fields::fate::{Fate, fate_of};
use oxt_fields::rules::FieldRules;
use oxt_grammar::field::Field;
use oxt_names::ids::{NodeId, OutOfMemory};
use oxt_tree::tree::{Node, Part};
use std::alloc::Global;
use std::vec;

/// What a class is, and what has been taken out of its elements.
#[derive(Drop)]
pub struct Moving {
    /// Where memory comes from.
    pub alloc: Global,
    /// The number of the class.
    pub class: NodeId,
    /// Whether private instance fields move too.
    pub hoists_private: bool,
    /// Whether empty fields are dropped.
    pub drops_empty: bool,
    /// The statements for the constructor.
    pub puts: Vec<Part>,
    /// The keys that wait for a key further on.
    pub waiting: Vec<Part>,
}

/// Moves the fields among the elements that move.
pub fn move_each(
    elements: &mut [Part],
    moving: &mut Moving,
    ctx: &mut TraverseCtx,
) -> Result<(), OutOfMemory>
    requires { 0 < length (frames ctx.old.declarations) }
    ensures frame { OnOk result (ctx.new ≡ but_names_of ctx.old ctx.new) }
    ensures depth { OnOk result
        (length (frames ctx.new.declarations) ≡ length (frames ctx.old.declarations)) }
{
    for element in elements.iter_mut() {
        move_element(element, moving, ctx)?;
    }
    Ok(())
}

/// Moves the element, or takes keys that wait into its key.
fn move_element(
    element: &mut Part,
    moving: &mut Moving,
    ctx: &mut TraverseCtx,
) -> Result<(), OutOfMemory>
    requires { 0 < length (frames ctx.old.declarations) }
    ensures frame { OnOk result (ctx.new ≡ but_names_of ctx.old ctx.new) }
    ensures depth { OnOk result
        (length (frames ctx.new.declarations) ≡ length (frames ctx.old.declarations)) }
{
    match element {
        Part::Node(node) => move_node(node, moving, ctx),
        _ => Ok(()),
    }
}

/// Moves the element, or takes keys that wait into its key.
fn move_node(
    element: &mut Node,
    moving: &mut Moving,
    ctx: &mut TraverseCtx,
) -> Result<(), OutOfMemory>
    requires { 0 < length (frames ctx.old.declarations) }
    ensures frame { OnOk result (ctx.new ≡ but_names_of ctx.old ctx.new) }
    ensures depth { OnOk result
        (length (frames ctx.new.declarations) ≡ length (frames ctx.old.declarations)) }
{
    let alloc = moving.alloc;
    match fate_by_plan(element, moving, ctx) {
        Fate::Moves { has_temporary, .. } => move_field(element, has_temporary, moving, ctx),
        Fate::LeavesKey => leave_key(alloc, element, &mut moving.waiting),
        _ => take_waiting(alloc, element, &mut moving.waiting, &mut ctx.ids),
    }
}

/// What becomes of the element.
fn fate_by_plan(element: &Node, moving: &Moving, ctx: &TraverseCtx) -> Fate {
    let rules = FieldRules {
        moves: true,
        drops_empty: moving.drops_empty,
        legacy: false,
        emits_metadata: false,
        plan: &ctx.plan,
    };
    fate_of(rules, moving.hoists_private, element)
}

/// Takes the value out of the field, and puts it on the object elsewhere: where the field is static in a
/// static block in its place, and else in the constructor.
fn move_field(
    field: &mut Node,
    has_temporary: bool,
    moving: &mut Moving,
    ctx: &mut TraverseCtx,
) -> Result<(), OutOfMemory>
    requires { 0 < length (frames ctx.old.declarations) }
    ensures frame { OnOk result (ctx.new ≡ but_names_of ctx.old ctx.new) }
    ensures depth { OnOk result
        (length (frames ctx.new.declarations) ≡ length (frames ctx.old.declarations)) }
{
    match take_node(field, Field::Value) {
        Some(value) => {
            let put = put_of(field, value, has_temporary, moving, ctx)?;
            place_put(field, put, moving, ctx)
        }
        None => Ok(()),
    }
}

/// The statement that puts the value of the field on the object.
fn put_of(
    field: &mut Node,
    value: Node,
    has_temporary: bool,
    moving: &mut Moving,
    ctx: &mut TraverseCtx,
) -> Result<Node, OutOfMemory>
    requires { 0 < length (frames ctx.old.declarations) }
    ensures frame { OnOk result (ctx.new ≡ but_names_of ctx.old ctx.new) }
    ensures depth { OnOk result
        (length (frames ctx.new.declarations) ≡ length (frames ctx.old.declarations)) }
{
    let alloc = moving.alloc;
    let target = match child_mut(field, Field::Key) {
        Some(key) if has_temporary => member_at_variable(alloc, key, &mut moving.waiting, ctx)?,
        Some(key) => member_at(alloc, key, ctx)?,
        None => return statement(alloc, value, &mut ctx.ids),
    };
    let put = assignment(alloc, target, value, &mut ctx.ids)?;
    statement(alloc, put, &mut ctx.ids)
}

/// Puts the statement of the field in its place or among those for the constructor.
fn place_put(
    field: &mut Node,
    put: Node,
    moving: &mut Moving,
    ctx: &mut TraverseCtx,
) -> Result<(), OutOfMemory>
    ensures frame { OnOk result (ctx.new ≡ but_names_of ctx.old ctx.new) }
    ensures depth { OnOk result
        (length (frames ctx.new.declarations) ≡ length (frames ctx.old.declarations)) }
{
    if field.flag(Field::Static) {
        let statements = vec![in moving.alloc; Part::Node(put)]?;
        *field = static_block(statements, moving.class, ctx)?;
        Ok(())
    } else {
        moving.puts.push(Part::Node(put))?;
        Ok(())
    }
}
