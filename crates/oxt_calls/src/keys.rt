//! Keys of class elements that are kept in variables, and constructors that are made.
ghost use Rattle.std.specs.Prelude.{◌≡◌, OnOk, length};
ghost use Rattle.oxt_stores.specs.Frame.{frames};

use crate::context::{Calls, print_calls};
use oxt_ctx::constructor::create_class_constructor;
use oxt_ctx::context::TraverseCtx;
use oxt_ctx::keys::{create_computed_key_temp_var, key_needs_temp_var};
use oxt_lines::lines::Lines;
use oxt_lines::nodes::{first_expression, literal, statements};
use oxt_lines::source::{outline_of, push_declaration};
use oxt_lines::stopped::Stopped;
use oxt_lines::table::Table;
use oxt_tree::tree::Node;
use std::alloc::Global;

/// The calls with the key `a.b`.
pub fn print_keys(alloc: Global, table: &Table, lines: &mut Lines) -> Result<(), Stopped> {
    let program = table.tree(alloc, "a.b;")?;
    match first_expression(&program.root) {
        Some(key) => print_calls(alloc, Calls::Keys(key), lines),
        None => Err(Stopped::NoTree),
    }
}

/// The same in a context.
pub fn print_keys_in(
    alloc: Global,
    key: &Node,
    ctx: &mut TraverseCtx,
    lines: &mut Lines,
) -> Result<(), Stopped>
    requires { length (frames ctx.old.declarations) ≡ 1 }
{
    print_needs(alloc, key, ctx, lines)?;
    kept_key(alloc, key, ctx, lines)?;
    constructor(alloc, "a constructor of a class", false, ctx, lines)?;
    constructor(alloc, "that of a derived class", true, ctx, lines)?;
    print_lets(alloc, ctx, lines)
}

/// A line that says of two keys whether they are kept.
fn print_needs(
    alloc: Global,
    key: &Node,
    ctx: &TraverseCtx,
    lines: &mut Lines,
) -> Result<(), Stopped> {
    let number = literal(alloc, 1)?;
    let answers = [
        key_needs_temp_var(key, ctx),
        key_needs_temp_var(&number, ctx),
    ];
    lines.answers("key_needs_temp_var of a.b, 1", &answers);
    Ok(())
}

/// Lines with the key as it is kept, and as it is read.
fn kept_key(
    alloc: Global,
    key: &Node,
    ctx: &mut TraverseCtx,
    lines: &mut Lines,
) -> Result<(), Stopped>
    requires { length (frames ctx.old.declarations) ≡ 1 }
    ensures { OnOk result (length (frames ctx.new.declarations) ≡ 1) }
{
    let key = key.clone_node(alloc, &mut ctx.ids)?;
    let (put, read) = create_computed_key_temp_var(key, ctx)?;
    print_outline(alloc, "create_computed_key_temp_var of a.b", &put, lines)?;
    print_outline(alloc, "and where it is read", &read, lines)
}

/// A line with a constructor of one statement.
fn constructor(
    alloc: Global,
    label: &str,
    is_derived: bool,
    ctx: &mut TraverseCtx,
    lines: &mut Lines,
) -> Result<(), Stopped>
    requires { length (frames ctx.old.declarations) ≡ 1 }
    ensures { OnOk result (length (frames ctx.new.declarations) ≡ 1) }
{
    let scope = ctx.scoping.root_scope_id();
    let body = statements(alloc, b"s")?;
    let made = create_class_constructor(body, is_derived, scope, ctx)?;
    print_outline(alloc, label, &made, lines)
}

/// A line with the nodes.
fn print_outline(
    alloc: Global,
    label: &str,
    node: &Node,
    lines: &mut Lines,
) -> Result<(), Stopped> {
    let text = outline_of(alloc, node)?;
    lines.text(label, text.as_str());
    Ok(())
}

/// A line with the statement of the variables.
fn print_lets(alloc: Global, ctx: &mut TraverseCtx, lines: &mut Lines) -> Result<(), Stopped>
    requires { length (frames ctx.old.declarations) ≡ 1 }
{
    let (_by_var, by_let) = ctx.var_declarations.get_var_statement(&mut ctx.ids)?;
    let mut text = String::new(alloc);
    if let Some(statement) = &by_let {
        push_declaration(&mut text, statement)?;
    }
    lines.text("the list begins with", text.as_str());
    Ok(())
}
