//! The constants of expressions while they are put together: a text that was made for a chain of `+` grows, and is not
//! copied at each of them.
ghost use Rattle.std.specs.Prelude.{◌≡◌, ◌++◌, IfOk, OnOk, option_map, string_bytes};
ghost use Rattle.oxt_constant.specs.Operands.{numbers_in, operand_view};
ghost use Rattle.oxt_constant.specs.Operations.{binary_constant, joined, text_binary, unary_constant};
ghost use Rattle.oxt_names.specs.Constant.{constant_view, integer, spelling};

use crate::integer::apply_binary;
use crate::meter::TextMeter;
use crate::operator::{BinaryOperator, UnaryOperator};
use oxt_names::constant::ConstantValue;
use oxt_names::ids::OutOfMemory;
use oxt_names::name::Name;
use std::alloc::Global;

/// The constant of an expression.
#[derive(Drop)]
pub enum Operand {
    /// One that others may share.
    Shared(ConstantValue),
    /// A text that was made, and that nothing shares.
    Made(String),
}

/// The operand as a constant that others may share.
pub fn settled(operand: Option<Operand>) -> Result<Option<ConstantValue>, OutOfMemory>
    ensures { IfOk result
        (λ value. option_map constant_view value ≡ option_map operand_view operand) }
{
    match operand {
        Some(Operand::Shared(value)) => Ok(Some(value)),
        Some(Operand::Made(text)) => Ok(Some(ConstantValue::Text(Name::from_string(text)?))),
        None => Ok(None),
    }
}

/// The constant as an operand.
pub fn shared(value: Option<ConstantValue>) -> Option<Operand>
    ensures { option_map operand_view result ≡ option_map constant_view value }
{
    match value {
        Some(value) => Some(Operand::Shared(value)),
        None => None,
    }
}

/// What the operator makes of the operand, if that is a constant.
pub fn apply_before(operator: UnaryOperator, operand: &Operand) -> Option<Operand>
    ensures { option_map operand_view result ≡ unary_constant operator (operand_view operand.now) }
{
    match operand {
        Operand::Shared(value) => shared(operator.apply(value)),
        Operand::Made(_) => None,
    }
}

/// What the operator makes of the operands, if that is a constant. The bytes of a text are counted before they are
/// written.
#[tactic(auto, using(crate::proofs::Operators::numbers_or_texts))]
pub fn apply_between(
    alloc: Global,
    written: &mut TextMeter,
    operator: BinaryOperator,
    left: Operand,
    right: &Operand,
) -> Result<Option<Operand>, OutOfMemory>
    ensures { IfOk result
        (λ value. option_map operand_view value
        ≡ binary_constant operator (operand_view left) (operand_view right.now)) }
{
    match both_numbers(&left, right) {
        Some(numbers) => Ok(number(apply_binary(operator, numbers.0, numbers.1))),
        None => apply_to_text(alloc, written, operator, left, right),
    }
}

/// Both numbers, where both operands are numbers.
fn both_numbers(left: &Operand, right: &Operand) -> Option<(i64, i64)>
    ensures { result ≡ numbers_in (operand_view left.now) (operand_view right.now) }
{
    match left {
        Operand::Shared(ConstantValue::Number(a)) => match right {
            Operand::Shared(ConstantValue::Number(b)) => Some((*a, *b)),
            _ => None,
        },
        _ => None,
    }
}

/// The number as an operand.
fn number(number: Option<i64>) -> Option<Operand>
    ensures { option_map operand_view result ≡ option_map integer number }
{
    match number {
        Some(number) => Some(Operand::Shared(ConstantValue::Number(number))),
        None => None,
    }
}

/// What the operator makes of two operands one of which is a text: only `+` joins them.
fn apply_to_text(
    alloc: Global,
    written: &mut TextMeter,
    operator: BinaryOperator,
    left: Operand,
    right: &Operand,
) -> Result<Option<Operand>, OutOfMemory>
    ensures { IfOk result
        (λ value. option_map operand_view value
        ≡ text_binary operator (operand_view left) (operand_view right.now)) }
{
    match operator {
        BinaryOperator::Add => Ok(Some(join(alloc, written, left, right)?)),
        _ => Ok(None),
    }
}

/// The texts of both, one after the other.
fn join(
    alloc: Global,
    written: &mut TextMeter,
    left: Operand,
    right: &Operand,
) -> Result<Operand, OutOfMemory>
    ensures { IfOk result
        (λ value. operand_view value ≡ joined (operand_view left) (operand_view right.now)) }
{
    let mut text = growing(alloc, written, left)?;
    push_operand(alloc, written, right, &mut text)?;
    Ok(Operand::Made(text))
}

/// The text of the operand, to be continued.
fn growing(alloc: Global, written: &mut TextMeter, operand: Operand) -> Result<String, OutOfMemory>
    ensures { IfOk result (λ text. string_bytes text ≡ spelling (operand_view operand)) }
{
    match operand {
        Operand::Shared(value) => copied(alloc, written, &value),
        Operand::Made(text) => Ok(text),
    }
}

/// A copy of the text of the constant.
fn copied(
    alloc: Global,
    written: &mut TextMeter,
    value: &ConstantValue,
) -> Result<String, OutOfMemory>
    ensures { IfOk result (λ text. string_bytes text ≡ spelling (constant_view value.now)) }
{
    let mut text = String::new(alloc);
    push_constant(alloc, written, value, &mut text)?;
    Ok(text)
}

/// Appends the text of the operand.
fn push_operand(
    alloc: Global,
    written: &mut TextMeter,
    operand: &Operand,
    text: &mut String,
) -> Result<(), OutOfMemory>
    ensures { OnOk result
        (string_bytes text.new ≡ string_bytes text.old ++ spelling (operand_view operand.now)) }
{
    match operand {
        Operand::Shared(value) => push_constant(alloc, written, value, text),
        Operand::Made(made) => push_text(written, made.as_str(), text),
    }
}

/// Appends the text of the constant: of a number, its decimal digits.
pub fn push_constant(
    alloc: Global,
    written: &mut TextMeter,
    value: &ConstantValue,
    text: &mut String,
) -> Result<(), OutOfMemory>
    ensures { OnOk result
        (string_bytes text.new ≡ string_bytes text.old ++ spelling (constant_view value.now)) }
{
    match value {
        ConstantValue::Number(number) => {
            let digits = number.to_string(alloc)?;
            push_text(written, digits.as_str(), text)
        }
        ConstantValue::Text(name) => push_text(written, name.as_str(), text),
    }
}

/// Appends the text, once its bytes are counted.
pub fn push_text(written: &mut TextMeter, piece: &str, text: &mut String) -> Result<(), OutOfMemory>
    ensures { OnOk result (string_bytes text.new ≡ string_bytes text.old ++ piece.now) }
{
    written.count(piece.len())?;
    text.push_str(piece)?;
    Ok(())
}
