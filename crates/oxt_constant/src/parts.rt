//! The constants of expressions whose parts have been evaluated.
ghost use Rattle.std.specs.Prelude.{◌≡◌, ◌++◌, IfOk, OnOk, Some, codes, drop, option_map, string_bytes};
ghost use Rattle.oxt_constant.specs.Evaluated.{binary_of, constant_views, first_spelling, template_of, template_text, unary_of};
ghost use Rattle.oxt_constant.specs.Operands.{operand_view};
ghost use Rattle.oxt_tree.specs.Fields.{elements, field_of, named, text_in};
ghost use Rattle.oxt_tree.specs.View.{docs_in, part_doc};

use crate::meter::TextMeter;
use crate::operand::{Operand, apply_before, apply_between, push_constant, push_text};
use crate::operator::{BinaryOperator, UnaryOperator};
use oxt_grammar::field::Field;
use oxt_names::constant::ConstantValue;
use oxt_names::ids::OutOfMemory;
use oxt_tree::tree::{Node, Part};
use std::alloc::Global;

/// What the operator of the node makes of the operand.
pub fn unary(node: &Node, operand: &Operand) -> Option<Operand>
    ensures { option_map operand_view result
        ≡ unary_of (Some (operand_view operand.now)) (text_in (named (codes "operator") node.now.kind (docs_in node.now.parts.items))) }
{
    match node.text(Field::Operator) {
        Some(operator) => match UnaryOperator::find(operator) {
            Some(operator) => apply_before(operator, operand),
            None => None,
        },
        None => None,
    }
}

/// What the operator of the node makes of the operands.
pub fn binary(
    alloc: Global,
    written: &mut TextMeter,
    node: &Node,
    left: Operand,
    right: &Operand,
) -> Result<Option<Operand>, OutOfMemory>
    ensures { IfOk result
        (λ value. option_map operand_view value
        ≡ binary_of (Some (operand_view left)) (Some (operand_view right.now)) (text_in (named (codes "operator") node.now.kind (docs_in node.now.parts.items)))) }
{
    match node.text(Field::Operator) {
        Some(operator) => match BinaryOperator::find(operator) {
            Some(operator) => apply_between(alloc, written, operator, left, right),
            None => Ok(None),
        },
        None => Ok(None),
    }
}

/// The constant of a template with those constants between its texts.
pub fn template(
    alloc: Global,
    written: &mut TextMeter,
    node: &Node,
    values: &[ConstantValue],
) -> Result<Option<Operand>, OutOfMemory>
    ensures { IfOk result
        (λ value. option_map operand_view value
        ≡ template_of (elements (named (codes "quasis") node.now.kind (docs_in node.now.parts.items))) (Some (constant_views values.now))) }
{
    match template_text(alloc, written, node.list(Field::Quasis), values)? {
        Some(text) => Ok(Some(Operand::Made(text))),
        None => Ok(None),
    }
}

/// The texts of a template, each with the text of the constant behind it.
#[tactic(auto, using(crate::proofs::Templates::steps))]
fn template_text(
    alloc: Global,
    written: &mut TextMeter,
    quasis: &[Part],
    values: &[ConstantValue],
) -> Result<Option<String>, OutOfMemory>
    ensures { IfOk result
        (λ text. option_map string_bytes text
        ≡ template_text (docs_in quasis.now) (constant_views values.now)) }
{
    let mut text = String::new(alloc);
    for (i, quasi) in quasis.iter().enumerate() {
        match cooked(quasi) {
            Some(cooked) => push_piece(alloc, written, &mut text, cooked, values, i)?,
            None => return Ok(None),
        }
    }
    Ok(Some(text))
}

/// Appends the text, and that of the constant at the place, if there is one.
#[tactic(auto, using(crate::proofs::Templates::spellings))]
fn push_piece(
    alloc: Global,
    written: &mut TextMeter,
    text: &mut String,
    cooked: &str,
    values: &[ConstantValue],
    place: usize,
) -> Result<(), OutOfMemory>
    ensures { OnOk result
        (string_bytes text.new
        ≡ string_bytes text.old ++ (cooked.now ++ first_spelling (constant_views (drop place values.now)))) }
{
    push_text(written, cooked, text)?;
    if place < values.len() {
        push_constant(alloc, written, &values[place], text)?;
    }
    Ok(())
}

/// The text of an element of a template as it is meant.
fn cooked(quasi: &Part) -> Option<&str>
    ensures { option_map (λ text. text.now) result
        ≡ text_in (field_of (codes "cooked") (part_doc quasi.now)) }
{
    match quasi {
        Part::Node(element) => element.text(Field::Cooked),
        _ => None,
    }
}
