//! The keys of fields that move.
ghost use Rattle.std.specs.Prelude.{◌≡◌, ◌<◌, OnOk, length};
ghost use Rattle.oxt_stores.specs.Frame.{frames};
ghost use Rattle.oxt_ctx.specs.Made.{but_names_of};

use crate::elements::is_named_constructor;
use oxt_ctx::context::TraverseCtx;
use oxt_ctx::keys::{copy_key, create_computed_key_temp_var};
use oxt_ctx::nodes::{computed, member, private_member, sequence, this_expression};
use oxt_ctx::parts::{child_mut, put_field};
use oxt_grammar::field::Field;
use oxt_grammar::kind::Kind;
use oxt_names::ids::{NodeIds, OutOfMemory};
use oxt_tree::tree::{Node, Part};
use std::alloc::Global;
use std::mem;

/// The member of `this` that a field with that key is. The key is copied.
pub fn member_at(alloc: Global, key: &Node, ctx: &mut TraverseCtx) -> Result<Node, OutOfMemory>
    ensures frame { OnOk result (ctx.new ≡ but_names_of ctx.old ctx.new) }
    ensures depth { OnOk result
        (length (frames ctx.new.declarations) ≡ length (frames ctx.old.declarations)) }
{
    let this = this_expression(alloc, &mut ctx.ids)?;
    let copy = copy_key(key, ctx)?;
    if key.kind.is(Kind::IdentifierName) {
        member(alloc, this, copy, &mut ctx.ids)
    } else if key.kind.is(Kind::PrivateIdentifier) {
        private_member(alloc, this, copy, &mut ctx.ids)
    } else {
        computed(alloc, this, copy, &mut ctx.ids)
    }
}

/// The member of `this` that a field is whose key is put into a variable first, by an expression that
/// waits. A literal stays in the place of the key.
pub fn member_at_variable(
    alloc: Global,
    key: &mut Node,
    waiting: &mut Vec<Part>,
    ctx: &mut TraverseCtx,
) -> Result<Node, OutOfMemory>
    requires { 0 < length (frames ctx.old.declarations) }
    ensures frame { OnOk result (ctx.new ≡ but_names_of ctx.old ctx.new) }
    ensures depth { OnOk result
        (length (frames ctx.new.declarations) ≡ length (frames ctx.old.declarations)) }
{
    let (put, read) = create_computed_key_temp_var(key.take_expression(alloc), ctx)?;
    waiting.push(Part::Node(put))?;
    let this = this_expression(alloc, &mut ctx.ids)?;
    computed(alloc, this, read, &mut ctx.ids)
}

/// Puts the key of the element behind the expressions that wait. A literal stays in its place.
pub fn leave_key(
    alloc: Global,
    element: &mut Node,
    waiting: &mut Vec<Part>,
) -> Result<(), OutOfMemory> {
    if let Some(key) = child_mut(element, Field::Key) {
        waiting.push(Part::Node(key.take_expression(alloc)))?;
    }
    Ok(())
}

/// Puts the expressions that wait, if any, in front of the key of the element, if it is an accessor or a
/// method whose key is an expression. They then wait no more.
pub fn take_waiting(
    alloc: Global,
    element: &mut Node,
    waiting: &mut Vec<Part>,
    ids: &mut NodeIds,
) -> Result<(), OutOfMemory> {
    if waiting.is_empty() || !takes_keys(element) {
        return Ok(());
    }
    leave_key(alloc, element, waiting)?;
    let key = sequence(mem::replace(waiting, Vec::new(alloc)), ids)?;
    put_field(element, Field::Key, key);
    put_field(element, Field::Computed, Part::Flag(true));
    Ok(())
}

/// Whether the element is an accessor, or a method other than a constructor, and its key is an expression.
fn takes_keys(element: &Node) -> bool {
    is_method(element) && has_expression_key(element)
}

/// Whether the element is an accessor, or a method other than a constructor.
fn is_method(element: &Node) -> bool {
    if element.kind.is(Kind::MethodDefinition) {
        !is_named_constructor(element)
    } else {
        element.kind.is(Kind::AccessorProperty)
    }
}

/// Whether the key of the element is an expression.
fn has_expression_key(element: &Node) -> bool {
    !element.holds_kind(Field::Key, Kind::IdentifierName)
        && !element.holds_kind(Field::Key, Kind::PrivateIdentifier)
}
