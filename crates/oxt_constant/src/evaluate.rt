//! The constant of an expression.
ghost use Rattle.std.specs.Prelude.{◌≡◌, IfOk, codes, option_map};
ghost use Rattle.oxt_constant.specs.Operands.{operand_view};
ghost use Rattle.oxt_constant.specs.Evaluated.{all_of, binary_of, constant, constant_views, each_seen, seen, seen_in, template_of, unary_of};
ghost use Rattle.oxt_names.specs.Constant.{constant_view};
ghost use Rattle.oxt_tree.specs.Fields.{elements, named, text_in};
ghost use Rattle.oxt_tree.specs.View.{docs_in, node_doc, part_doc};
ghost use Rattle.oxt_grammar.specs.Keys.{key_of};

use crate::form::{Form, form_of};
use crate::leaf::{after_dot, bare, in_brackets, number_of, string_of};
use crate::meanings::Meanings;
use crate::meter::TextMeter;
use crate::operand::{Operand, settled, shared};
use crate::parts::{binary, template, unary};
use oxt_grammar::field::Field;
use oxt_names::constant::ConstantValue;
use oxt_names::ids::OutOfMemory;
use oxt_tree::fields::place_of;
use oxt_tree::tree::{Node, Part};
use std::alloc::Global;

/// The constant of the expression, if it has one. What is written of texts on the way to it is counted.
///
/// # Errors
///
/// Fails only where memory runs out, or where more bytes of text would be written than may be.
pub fn constant_of<M: Meanings>(
    alloc: Global,
    env: &M,
    written: &mut TextMeter,
    node: &Node,
) -> Result<Option<ConstantValue>, OutOfMemory>
    ensures { IfOk result
        (λ value. option_map constant_view value ≡ constant (M.env env.now) (node_doc node.now)) }
{
    settled(operand_of(alloc, env, written, node)?)
}

/// The constant of the expression, as an operand.
#[cycle(constant)]
fn operand_of<M: Meanings>(
    alloc: Global,
    env: &M,
    written: &mut TextMeter,
    node: &Node,
) -> Result<Option<Operand>, OutOfMemory>
    ensures { IfOk result
        (λ value. option_map operand_view value ≡ constant (M.env env.now) (node_doc node.now)) }
{
    match form_of(node.kind) {
        Form::Number => Ok(shared(number_of(node))),
        Form::String => Ok(shared(string_of(alloc, node)?)),
        Form::Template => of_template(alloc, env, written, node),
        Form::Parentheses => of_field(alloc, env, written, node, Field::Expression),
        Form::Unary => of_unary(alloc, env, written, node),
        Form::Binary => of_binary(alloc, env, written, node),
        Form::Name => meant(bare(env, node)),
        Form::Static => meant(after_dot(env, node)),
        Form::Computed => meant(in_brackets(env, node)),
        Form::Other => Ok(None),
    }
}

/// The constant of the field of that name.
#[cycle(constant)]
fn of_field<M: Meanings>(
    alloc: Global,
    env: &M,
    written: &mut TextMeter,
    node: &Node,
    field: Field,
) -> Result<Option<Operand>, OutOfMemory>
    ensures { IfOk result
        (λ value. option_map operand_view value
        ≡ (seen_in (M.env env.now) node.now (key_of field)).one) }
{
    match place_of(node.kind.rows(), field) {
        Some(place) => match node.parts.get(place) {
            Some(part) => of_part(alloc, env, written, part),
            None => Ok(None),
        },
        None => Ok(None),
    }
}

/// The constant of the part.
#[cycle(constant)]
fn of_part<M: Meanings>(
    alloc: Global,
    env: &M,
    written: &mut TextMeter,
    part: &Part,
) -> Result<Option<Operand>, OutOfMemory>
    ensures { IfOk result
        (λ value. option_map operand_view value ≡ constant (M.env env.now) (part_doc part.now)) }
{
    match part {
        Part::Node(node) => operand_of(alloc, env, written, node),
        _ => Ok(None),
    }
}

/// The same, for others to share.
#[cycle(constant)]
fn constant_of_part<M: Meanings>(
    alloc: Global,
    env: &M,
    written: &mut TextMeter,
    part: &Part,
) -> Result<Option<ConstantValue>, OutOfMemory>
    ensures { IfOk result
        (λ value. option_map constant_view value ≡ constant (M.env env.now) (part_doc part.now)) }
{
    settled(of_part(alloc, env, written, part)?)
}

/// The constant of an expression with an operator and one operand.
#[cycle(constant)]
fn of_unary<M: Meanings>(
    alloc: Global,
    env: &M,
    written: &mut TextMeter,
    node: &Node,
) -> Result<Option<Operand>, OutOfMemory>
    ensures { IfOk result
        (λ value. option_map operand_view value
        ≡ unary_of (seen_in (M.env env.now) node.now (codes "argument")).one (text_in (named (codes "operator") node.now.kind (docs_in node.now.parts.items)))) }
{
    match of_field(alloc, env, written, node, Field::Argument)? {
        Some(operand) => Ok(unary(node, &operand)),
        None => Ok(None),
    }
}

/// The constant of an expression with an operator and two operands.
#[cycle(constant)]
fn of_binary<M: Meanings>(
    alloc: Global,
    env: &M,
    written: &mut TextMeter,
    node: &Node,
) -> Result<Option<Operand>, OutOfMemory>
    ensures { IfOk result
        (λ value. option_map operand_view value
        ≡ binary_of (seen_in (M.env env.now) node.now (codes "left")).one (seen_in (M.env env.now) node.now (codes "right")).one (text_in (named (codes "operator") node.now.kind (docs_in node.now.parts.items)))) }
{
    let left = match of_field(alloc, env, written, node, Field::Left)? {
        Some(left) => left,
        None => return Ok(None),
    };
    match of_field(alloc, env, written, node, Field::Right)? {
        Some(right) => binary(alloc, written, node, left, &right),
        None => Ok(None),
    }
}

/// The constant of a template.
#[cycle(constant)]
fn of_template<M: Meanings>(
    alloc: Global,
    env: &M,
    written: &mut TextMeter,
    node: &Node,
) -> Result<Option<Operand>, OutOfMemory>
    ensures { IfOk result
        (λ value. option_map operand_view value
        ≡ template_of (elements (named (codes "quasis") node.now.kind (docs_in node.now.parts.items))) (seen_in (M.env env.now) node.now (codes "expressions")).all) }
{
    match all_in_field(alloc, env, written, node, Field::Expressions)? {
        Some(values) => template(alloc, written, node, &values),
        None => Ok(None),
    }
}

/// The constants of the elements of the list in the field of that name, if all have one.
#[cycle(constant)]
fn all_in_field<M: Meanings>(
    alloc: Global,
    env: &M,
    written: &mut TextMeter,
    node: &Node,
    field: Field,
) -> Result<Option<Vec<ConstantValue>>, OutOfMemory>
    ensures { IfOk result
        (λ values. option_map (λ vs. constant_views vs.items) values
        ≡ (seen_in (M.env env.now) node.now (key_of field)).all) }
{
    match place_of(node.kind.rows(), field) {
        Some(place) => match node.parts.get(place) {
            Some(part) => all_in_part(alloc, env, written, part),
            None => Ok(None),
        },
        None => Ok(None),
    }
}

/// The constants of the elements of the list, if all have one.
#[cycle(constant)]
fn all_in_part<M: Meanings>(
    alloc: Global,
    env: &M,
    written: &mut TextMeter,
    part: &Part,
) -> Result<Option<Vec<ConstantValue>>, OutOfMemory>
    ensures { IfOk result
        (λ values. option_map (λ vs. constant_views vs.items) values
        ≡ (seen (M.env env.now) (part_doc part.now)).all) }
{
    match part {
        Part::List(parts) => all_of(alloc, env, written, parts),
        _ => Ok(None),
    }
}

/// The constants of the parts, if all have one.
#[cycle(constant)]
#[tactic(auto, using(crate::proofs::All::steps))]
fn all_of<M: Meanings>(
    alloc: Global,
    env: &M,
    written: &mut TextMeter,
    parts: &[Part],
) -> Result<Option<Vec<ConstantValue>>, OutOfMemory>
    ensures { IfOk result
        (λ values. option_map (λ vs. constant_views vs.items) values
        ≡ all_of (each_seen (M.env env.now) (docs_in parts.now))) }
{
    let mut values = Vec::new(alloc);
    for part in parts {
        match constant_of_part(alloc, env, written, part)? {
            Some(value) => values.push(value)?,
            None => return Ok(None),
        }
    }
    Ok(Some(values))
}

/// The constant that a name means.
fn meant(value: Option<&ConstantValue>) -> Result<Option<Operand>, OutOfMemory>
    ensures { IfOk result
        (λ copy. option_map operand_view copy
        ≡ option_map (λ value. constant_view value.now) value.entry) }
{
    match value {
        Some(value) => Ok(Some(Operand::Shared(value.share()?))),
        None => Ok(None),
    }
}
