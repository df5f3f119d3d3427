//! The statements that put the members of an enum.
ghost use Rattle.std.specs.Prelude.{◌≡◌, ◌<◌, OnOk, length};
ghost use Rattle.oxt_lower.specs.Context.{but_table_of};

use crate::constant::constant_literal;
use crate::members::{Member, Value};
use crate::syntax;
use oxt_ctx::bound::BindingNodes;
use oxt_ctx::context::TraverseCtx;
use oxt_ctx::nodes::{
    assignment, computed, number_literal, returned, statement, string_literal, sum,
};
use oxt_names::constant::ConstantValue;
use oxt_names::ids::OutOfMemory;
use oxt_names::name::Name;
use oxt_stores::bound::BoundIdentifier;
use oxt_tree::tree::{Node, Part};
use std::alloc::Global;

/// The statements of the function of an enum: one for each member, and the one that returns the enum.
pub fn function_statements(
    alloc: Global,
    members: Vec<Member>,
    parameter: &BoundIdentifier,
    ctx: &mut TraverseCtx,
) -> Result<Vec<Part>, OutOfMemory>
    requires { parameter.now.symbol_id.0 < length ctx.old.scoping.symbols }
    ensures frame { OnOk result (ctx.new ≡ but_table_of ctx.old ctx.new) }
    ensures symbols_stay { OnOk result
        (length ctx.new.scoping.symbols ≡ length ctx.old.scoping.symbols) }
{
    let mut statements = Vec::new(alloc);
    for member in members {
        push_statement(&mut statements, alloc, member, parameter, ctx)?;
    }
    let made = return_statement(alloc, parameter, ctx)?;
    statements.push(Part::Node(made))?;
    Ok(statements)
}

/// Puts the statement of the member behind the others.
fn push_statement(
    statements: &mut Vec<Part>,
    alloc: Global,
    member: Member,
    parameter: &BoundIdentifier,
    ctx: &mut TraverseCtx,
) -> Result<(), OutOfMemory>
    requires { parameter.now.symbol_id.0 < length ctx.old.scoping.symbols }
    ensures frame { OnOk result (ctx.new ≡ but_table_of ctx.old ctx.new) }
    ensures symbols_stay { OnOk result
        (length ctx.new.scoping.symbols ≡ length ctx.old.scoping.symbols) }
{
    let made = member_statement(alloc, member, parameter, ctx)?;
    statements.push(Part::Node(made))?;
    Ok(())
}

/// `return E;`.
fn return_statement(
    alloc: Global,
    parameter: &BoundIdentifier,
    ctx: &mut TraverseCtx,
) -> Result<Node, OutOfMemory>
    requires { parameter.now.symbol_id.0 < length ctx.old.scoping.symbols }
    ensures frame { OnOk result (ctx.new ≡ but_table_of ctx.old ctx.new) }
    ensures symbols_stay { OnOk result
        (length ctx.new.scoping.symbols ≡ length ctx.old.scoping.symbols) }
{
    let object = parameter.create_read_expression(ctx)?;
    returned(alloc, object, &mut ctx.ids)
}

/// The statement that puts the member: by its name, and by its value where that is no text.
fn member_statement(
    alloc: Global,
    member: Member,
    parameter: &BoundIdentifier,
    ctx: &mut TraverseCtx,
) -> Result<Node, OutOfMemory>
    requires { parameter.now.symbol_id.0 < length ctx.old.scoping.symbols }
    ensures frame { OnOk result (ctx.new ≡ but_table_of ctx.old ctx.new) }
    ensures symbols_stay { OnOk result
        (length ctx.new.scoping.symbols ≡ length ctx.old.scoping.symbols) }
{
    let Member { name, value } = member;
    let is_text = is_text_value(&value);
    let value = value_node(alloc, value, parameter, ctx)?;
    let put = put(alloc, &name, value, parameter, ctx)?;
    let whole = if is_text {
        put
    } else {
        reverse_put(alloc, &name, put, parameter, ctx)?
    };
    statement(alloc, whole, &mut ctx.ids)
}

/// Whether the value is a text: a constant that is one, or what is one by its syntax.
fn is_text_value(value: &Value) -> bool {
    match value {
        Value::Constant(ConstantValue::Text(_)) => true,
        Value::Constant(ConstantValue::Number(_)) => false,
        Value::After(_) => false,
        Value::Written(node) => syntax::is_text(node),
    }
}

/// The value.
fn value_node(
    alloc: Global,
    value: Value,
    parameter: &BoundIdentifier,
    ctx: &mut TraverseCtx,
) -> Result<Node, OutOfMemory>
    requires { parameter.now.symbol_id.0 < length ctx.old.scoping.symbols }
    ensures frame { OnOk result (ctx.new ≡ but_table_of ctx.old ctx.new) }
    ensures symbols_stay { OnOk result
        (length ctx.new.scoping.symbols ≡ length ctx.old.scoping.symbols) }
{
    match value {
        Value::Constant(constant) => constant_literal(alloc, &constant, &mut ctx.ids),
        Value::After(last) => successor(alloc, &last, parameter, ctx),
        Value::Written(node) => Ok(node),
    }
}

/// `1 + E["last"]`.
fn successor(
    alloc: Global,
    last: &Name,
    parameter: &BoundIdentifier,
    ctx: &mut TraverseCtx,
) -> Result<Node, OutOfMemory>
    requires { parameter.now.symbol_id.0 < length ctx.old.scoping.symbols }
    ensures frame { OnOk result (ctx.new ≡ but_table_of ctx.old ctx.new) }
    ensures symbols_stay { OnOk result
        (length ctx.new.scoping.symbols ≡ length ctx.old.scoping.symbols) }
{
    let one = number_literal(alloc, 1, &mut ctx.ids)?;
    let before = element(alloc, last, parameter, ctx)?;
    sum(alloc, one, before, &mut ctx.ids)
}

/// `E["x"]`.
fn element(
    alloc: Global,
    name: &Name,
    parameter: &BoundIdentifier,
    ctx: &mut TraverseCtx,
) -> Result<Node, OutOfMemory>
    requires { parameter.now.symbol_id.0 < length ctx.old.scoping.symbols }
    ensures frame { OnOk result (ctx.new ≡ but_table_of ctx.old ctx.new) }
    ensures symbols_stay { OnOk result
        (length ctx.new.scoping.symbols ≡ length ctx.old.scoping.symbols) }
{
    let object = parameter.create_read_expression(ctx)?;
    let key = string_literal(alloc, name, &mut ctx.ids)?;
    computed(alloc, object, key, &mut ctx.ids)
}

/// `E["x"] = value`.
fn put(
    alloc: Global,
    name: &Name,
    value: Node,
    parameter: &BoundIdentifier,
    ctx: &mut TraverseCtx,
) -> Result<Node, OutOfMemory>
    requires { parameter.now.symbol_id.0 < length ctx.old.scoping.symbols }
    ensures frame { OnOk result (ctx.new ≡ but_table_of ctx.old ctx.new) }
    ensures symbols_stay { OnOk result
        (length ctx.new.scoping.symbols ≡ length ctx.old.scoping.symbols) }
{
    let target = element(alloc, name, parameter, ctx)?;
    assignment(alloc, target, value, &mut ctx.ids)
}

/// `E[put] = "x"`.
fn reverse_put(
    alloc: Global,
    name: &Name,
    put: Node,
    parameter: &BoundIdentifier,
    ctx: &mut TraverseCtx,
) -> Result<Node, OutOfMemory>
    requires { parameter.now.symbol_id.0 < length ctx.old.scoping.symbols }
    ensures frame { OnOk result (ctx.new ≡ but_table_of ctx.old ctx.new) }
    ensures symbols_stay { OnOk result
        (length ctx.new.scoping.symbols ≡ length ctx.old.scoping.symbols) }
{
    let object = parameter.create_read_expression(ctx)?;
    let target = computed(alloc, object, put, &mut ctx.ids)?;
    let text = string_literal(alloc, name, &mut ctx.ids)?;
    assignment(alloc, target, text, &mut ctx.ids)
}
