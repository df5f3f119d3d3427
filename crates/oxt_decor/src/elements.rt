//! The calls that apply the decorators of elements.
//!
//! Before:
//!
//! ```ts
//! class Shape {
//!     @noted static draw(@checked size) {}
//!     @watched [key()] = 1;
//! }
//! ```
//!
//! After:
//!
//! ```js
//! var _key;
//! class Shape {
//!     static draw(size) {}
//!     [_key = key()] = 1;
//! }
//! babelHelpers.decorate([noted, babelHelpers.decorateParam(0, checked)], Shape, "draw", null);
//! babelHelpers.decorate([watched], Shape.prototype, _key, void 0);
//! ```
ghost use Rattle.std.specs.Prelude.{◌≡◌, ◌<◌, OnOk, length};
ghost use Rattle.oxt_stores.specs.Frame.{frames};

use crate::calls::{decorate_call, prototype_of, push_parameter_decorators, take_decorators};
use crate::frame::ClassFrame;
use crate::key::key_of_call;
use crate::metadata::{MethodMetadata, push_field_metadata, push_method_metadata};
use crate::stand_in::show_key;
use oxt_ctx::context::TraverseCtx;
use oxt_ctx::nodes::{null_literal, statement, void_zero};
use oxt_grammar::field::Field;
use oxt_names::flags::ReferenceFlags;
use oxt_names::ids::OutOfMemory;
use oxt_tree::tree::{Node, Part};
use std::vec;

/// Takes the decorators of the method and of its parameters into a call, with that metadata last, if it has any and is no
/// constructor.
pub fn leave_method(
    frame: &mut ClassFrame,
    method: &mut Node,
    metadata: Option<MethodMetadata>,
    ctx: &mut TraverseCtx,
) -> Result<(), OutOfMemory>
    requires { 0 < length (frames ctx.old.declarations) }
    ensures around { OnOk result (ctx.new.ancestors ≡ ctx.old.ancestors) }
    ensures depth { OnOk result
        (length (frames ctx.new.declarations) ≡ length (frames ctx.old.declarations)) }
{
    if method.holds_text(Field::Kind, "constructor") {
        return Ok(());
    }
    let decorators = method_decorators(method, metadata, ctx)?;
    if decorators.is_empty() {
        return Ok(());
    }
    let descriptor = null_literal(ctx.memory(), &mut ctx.ids)?;
    push_call(frame, method, decorators, descriptor, ctx)
}

/// The decorators of the method and of its parameters, which it loses, with that metadata last; none where it has no
/// decorators.
fn method_decorators(
    method: &mut Node,
    metadata: Option<MethodMetadata>,
    ctx: &mut TraverseCtx,
) -> Result<Vec<Part>, OutOfMemory>
    ensures around { OnOk result (ctx.new.ancestors ≡ ctx.old.ancestors) }
    ensures depth { OnOk result
        (length (frames ctx.new.declarations) ≡ length (frames ctx.old.declarations)) }
{
    let mut decorators = element_decorators(method, ctx)?;
    if decorators.is_empty() {
        return Ok(decorators);
    }
    if let Some(metadata) = metadata {
        push_method_metadata(&mut decorators, metadata, ctx)?;
    }
    Ok(decorators)
}

/// The decorators of the method and of its parameters, which it loses.
fn element_decorators(method: &mut Node, ctx: &mut TraverseCtx) -> Result<Vec<Part>, OutOfMemory>
    ensures around { OnOk result (ctx.new.ancestors ≡ ctx.old.ancestors) }
    ensures depth { OnOk result
        (length (frames ctx.new.declarations) ≡ length (frames ctx.old.declarations)) }
{
    let mut decorators = take_decorators(ctx.memory(), method)?;
    push_parameter_decorators(&mut decorators, method, ctx)?;
    Ok(decorators)
}

/// Takes the decorators of the field into a call, with its type last, if it has any.
pub fn leave_field(
    frame: &mut ClassFrame,
    field: &mut Node,
    written: Option<Node>,
    ctx: &mut TraverseCtx,
) -> Result<(), OutOfMemory>
    requires { 0 < length (frames ctx.old.declarations) }
    ensures around { OnOk result (ctx.new.ancestors ≡ ctx.old.ancestors) }
    ensures depth { OnOk result
        (length (frames ctx.new.declarations) ≡ length (frames ctx.old.declarations)) }
{
    show_key(field, &frame.stand_ins);
    let mut decorators = take_decorators(ctx.memory(), field)?;
    if decorators.is_empty() {
        return Ok(());
    }
    push_field_metadata(&mut decorators, written, ctx)?;
    let descriptor = void_zero(ctx.memory(), &mut ctx.ids)?;
    push_call(frame, field, decorators, descriptor, ctx)
}

/// Appends the call of the element to those of its class.
fn push_call(
    frame: &mut ClassFrame,
    element: &mut Node,
    decorators: Vec<Part>,
    descriptor: Node,
    ctx: &mut TraverseCtx,
) -> Result<(), OutOfMemory>
    requires { 0 < length (frames ctx.old.declarations) }
    ensures around { OnOk result (ctx.new.ancestors ≡ ctx.old.ancestors) }
    ensures depth { OnOk result
        (length (frames ctx.new.declarations) ≡ length (frames ctx.old.declarations)) }
{
    let operands = operands_of(frame, element, descriptor, ctx)?;
    let call = decorate_call(decorators, operands, ctx)?;
    let call = statement(ctx.memory(), call, &mut ctx.ids)?;
    frame.calls.push(Part::Node(call))?;
    Ok(())
}

/// What the call of the element has behind its decorators: what has the element, its key and its descriptor.
fn operands_of(
    frame: &mut ClassFrame,
    element: &mut Node,
    descriptor: Node,
    ctx: &mut TraverseCtx,
) -> Result<Vec<Node>, OutOfMemory>
    requires { 0 < length (frames ctx.old.declarations) }
    ensures around { OnOk result (ctx.new.ancestors ≡ ctx.old.ancestors) }
    ensures depth { OnOk result
        (length (frames ctx.new.declarations) ≡ length (frames ctx.old.declarations)) }
{
    let target = target_of(frame, element.flag(Field::Static), ctx)?;
    let key = key_of_call(element, ctx)?;
    Ok(vec![in ctx.memory(); target, key, descriptor]?)
}

/// What has the element: the class, or what its objects inherit from.
fn target_of(
    frame: &mut ClassFrame,
    is_static: bool,
    ctx: &mut TraverseCtx,
) -> Result<Node, OutOfMemory>
    ensures around { OnOk result (ctx.new.ancestors ≡ ctx.old.ancestors) }
    ensures depth { OnOk result
        (length (frames ctx.new.declarations) ≡ length (frames ctx.old.declarations)) }
{
    let class = frame.create_use(ReferenceFlags::Read, ctx)?;
    if is_static {
        Ok(class)
    } else {
        prototype_of(ctx.memory(), class, &mut ctx.ids)
    }
}
