//! The keys of decorated elements.
ghost use Rattle.std.specs.Prelude.{◌≡◌, ◌<◌, OnOk, length};
ghost use Rattle.oxt_stores.specs.Frame.{frames};

use crate::names::text_of;
use oxt_ctx::bound::BindingNodes;
use oxt_ctx::context::TraverseCtx;
use oxt_ctx::keys::copy_key;
use oxt_ctx::nodes::{assignment, string_literal};
use oxt_ctx::parts::{child_mut, put_field};
use oxt_ctx::uid::create_uid_var_based_on_node;
use oxt_grammar::field::Field;
use oxt_grammar::kind::Kind;
use oxt_names::ids::OutOfMemory;
use oxt_names::name::Name;
use oxt_tree::tree::{Node, Part};
use std::alloc::Global;

/// What the call of the element has for its key: the text of a name, the empty text for a private one, a copy of a
/// literal, and else a variable that is declared in the innermost list, into which the element puts its key.
pub fn key_of_call(element: &mut Node, ctx: &mut TraverseCtx) -> Result<Node, OutOfMemory>
    requires { 0 < length (frames ctx.old.declarations) }
    ensures around { OnOk result (ctx.new.ancestors ≡ ctx.old.ancestors) }
    ensures depth { OnOk result
        (length (frames ctx.new.declarations) ≡ length (frames ctx.old.declarations)) }
{
    let alloc = ctx.memory();
    match element.child(Field::Key) {
        Some(key) if is_written_twice(key) => written(alloc, key, ctx),
        _ => kept(alloc, element, ctx),
    }
}

/// Whether the key can be written once more.
fn is_written_twice(key: &Node) -> bool {
    is_name(key)
        || key.kind.is(Kind::StringLiteral)
        || key.kind.is(Kind::NumericLiteral)
        || key.kind.is(Kind::NullLiteral)
        || (key.kind.is(Kind::TemplateLiteral) && key.list(Field::Expressions).is_empty())
}

/// Whether the key is a name, which may be private.
pub fn is_name(key: &Node) -> bool {
    key.kind.is(Kind::IdentifierName) || key.kind.is(Kind::PrivateIdentifier)
}

/// Such a key once more, as an expression.
fn written(alloc: Global, key: &Node, ctx: &mut TraverseCtx) -> Result<Node, OutOfMemory>
    ensures around { OnOk result (ctx.new.ancestors ≡ ctx.old.ancestors) }
    ensures depth { OnOk result
        (length (frames ctx.new.declarations) ≡ length (frames ctx.old.declarations)) }
{
    if key.kind.is(Kind::IdentifierName) {
        string_literal(alloc, &text_of(alloc, key)?, &mut ctx.ids)
    } else if key.kind.is(Kind::PrivateIdentifier) {
        string_literal(alloc, &Name::new(alloc, "")?, &mut ctx.ids)
    } else {
        copy_key(key, ctx)
    }
}

/// Puts the key of the element into a variable, which is read.
fn kept(alloc: Global, element: &mut Node, ctx: &mut TraverseCtx) -> Result<Node, OutOfMemory>
    requires { 0 < length (frames ctx.old.declarations) }
    ensures around { OnOk result (ctx.new.ancestors ≡ ctx.old.ancestors) }
    ensures depth { OnOk result
        (length (frames ctx.new.declarations) ≡ length (frames ctx.old.declarations)) }
{
    put_field(element, Field::Computed, Part::Flag(true));
    match child_mut(element, Field::Key) {
        Some(key) => keep(alloc, key, ctx),
        None => string_literal(alloc, &Name::new(alloc, "")?, &mut ctx.ids),
    }
}

/// Puts the key into a variable, which is read.
fn keep(alloc: Global, key: &mut Node, ctx: &mut TraverseCtx) -> Result<Node, OutOfMemory>
    requires { 0 < length (frames ctx.old.declarations) }
    ensures around { OnOk result (ctx.new.ancestors ≡ ctx.old.ancestors) }
    ensures depth { OnOk result
        (length (frames ctx.new.declarations) ≡ length (frames ctx.old.declarations)) }
{
    let variable = create_uid_var_based_on_node(key, ctx)?;
    let target = variable.create_write_target(ctx)?;
    let value = key.take_expression(alloc);
    *key = assignment(alloc, target, value, &mut ctx.ids)?;
    variable.create_read_expression(ctx)
}
