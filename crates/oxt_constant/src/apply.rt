//! What operators make of constants.
ghost use Rattle.std.specs.Prelude.{◌≡◌, IfOk, option_map};
ghost use Rattle.oxt_constant.specs.Operations.{binary_constant, joined, text_binary, unary_constant};
ghost use Rattle.oxt_names.specs.Constant.{constant_view, integer};

use crate::integer;
use crate::operator::{BinaryOperator, UnaryOperator};
use oxt_names::constant::ConstantValue;
use oxt_names::ids::OutOfMemory;
use oxt_names::name::Name;
use std::alloc::Global;

impl UnaryOperator {
    /// What the operator makes of a constant, if that is a constant.
    pub fn apply(self, operand: &ConstantValue) -> Option<ConstantValue>
        ensures { option_map constant_view result
            ≡ unary_constant self (constant_view operand.now) }
    {
        match operand {
            ConstantValue::Number(number) => as_value(integer::apply_unary(self, *number)),
            ConstantValue::Text(_) => None,
        }
    }
}

impl BinaryOperator {
    /// What the operator makes of two constants, if that is a constant.
    pub fn apply(
        self,
        alloc: Global,
        left: &ConstantValue,
        right: &ConstantValue,
    ) -> Result<Option<ConstantValue>, OutOfMemory>
        ensures { IfOk result
            (λ value. option_map constant_view value
            ≡ binary_constant self (constant_view left.now) (constant_view right.now)) }
    {
        match left {
            ConstantValue::Number(a) => match right {
                ConstantValue::Number(b) => Ok(as_value(integer::apply_binary(self, *a, *b))),
                ConstantValue::Text(_) => apply_to_text(alloc, self, left, right),
            },
            ConstantValue::Text(_) => apply_to_text(alloc, self, left, right),
        }
    }
}

/// The number as a constant.
fn as_value(number: Option<i64>) -> Option<ConstantValue>
    ensures { option_map constant_view result ≡ option_map integer number }
{
    match number {
        Some(number) => Some(ConstantValue::Number(number)),
        None => None,
    }
}

/// What the operator makes of two constants one of which is a text: only `+` joins them.
fn apply_to_text(
    alloc: Global,
    operator: BinaryOperator,
    left: &ConstantValue,
    right: &ConstantValue,
) -> Result<Option<ConstantValue>, OutOfMemory>
    ensures { IfOk result
        (λ value. option_map constant_view value
        ≡ text_binary operator (constant_view left.now) (constant_view right.now)) }
{
    match operator {
        BinaryOperator::Add => Ok(Some(join(alloc, left, right)?)),
        _ => Ok(None),
    }
}

/// The texts of both, one after the other.
fn join(
    alloc: Global,
    left: &ConstantValue,
    right: &ConstantValue,
) -> Result<ConstantValue, OutOfMemory>
    ensures { IfOk result
        (λ value. constant_view value
        ≡ joined (constant_view left.now) (constant_view right.now)) }
{
    let mut text = String::new(alloc);
    left.push_to(alloc, &mut text)?;
    right.push_to(alloc, &mut text)?;
    Ok(ConstantValue::Text(Name::from_string(text)?))
}
