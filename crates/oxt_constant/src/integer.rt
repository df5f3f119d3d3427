//! Whole numbers as enum constants: JavaScript's, as far as its numbers hold each of them exactly.
ghost use Rattle.std.specs.Prelude.{◌≡◌, ◌*◌, ◌%◌, ◌/◌, ◌^◌, ◌<◌, pos};
ghost use Rattle.oxt_constant.specs.Integer.{bounded, difference, kept, number_binary, number_unary, power, product, quotient, remainder, rounded_down, shift_count, signed, signed_32, signs_differ, sum, to_int32, to_uint32};
ghost use Rattle.oxt_names.specs.Constant.{is_negative};

use crate::operator::{BinaryOperator, UnaryOperator};

/// The largest whole number up to which JavaScript's numbers hold each one exactly.
pub const LARGEST: u64 = 9_007_199_254_740_991;

/// The number that the operator makes of a number, where it makes a constant.
pub fn apply_unary(operator: UnaryOperator, number: i64) -> Option<i64>
    ensures { result ≡ number_unary operator number }
{
    match operator {
        UnaryOperator::Plus => Some(number),
        UnaryOperator::Minus => signed(!is_negative(number), number.unsigned_abs()),
        UnaryOperator::BitwiseNot => Some(-to_int32(number) - 1),
    }
}

/// The number that the operator makes of two numbers, where it makes a constant.
pub fn apply_binary(operator: BinaryOperator, left: i64, right: i64) -> Option<i64>
    ensures { result ≡ number_binary operator left right }
{
    match operator {
        BinaryOperator::Add => sum(left, right),
        BinaryOperator::Subtract => difference(left, right),
        BinaryOperator::Multiply => product(left, right),
        BinaryOperator::Divide => quotient(left, right),
        BinaryOperator::Remainder => remainder(left, right),
        BinaryOperator::Power => power(left, right),
        BinaryOperator::ShiftLeft => Some(shift_left(left, right)),
        BinaryOperator::ShiftRight => Some(shift_right(left, right)),
        BinaryOperator::ShiftRightUnsigned => Some(shift_right_unsigned(left, right)),
        BinaryOperator::BitwiseAnd => Some(signed_32(to_uint32(left) & to_uint32(right))),
        BinaryOperator::BitwiseOr => Some(signed_32(to_uint32(left) | to_uint32(right))),
        BinaryOperator::BitwiseXor => Some(signed_32(to_uint32(left) ^ to_uint32(right))),
    }
}

/// The constant with that sign and size; minus zero and sizes past the largest are none.
pub fn signed(is_negative: bool, size: u64) -> Option<i64>
    ensures { result ≡ signed is_negative size }
{
    if size > LARGEST {
        return None;
    }
    let number = size as i64;
    if !is_negative {
        Some(number)
    } else if number == 0 {
        None
    } else {
        Some(-number)
    }
}

/// The number as a constant.
fn kept(number: i64) -> Option<i64>
    ensures { result ≡ kept number }
{
    signed(is_negative(number), number.unsigned_abs())
}

/// The sum of two numbers.
fn sum(left: i64, right: i64) -> Option<i64>
    ensures { result ≡ sum left right }
{
    match left.checked_add(right) {
        Some(number) => kept(number),
        None => None,
    }
}

/// The first number less the second.
fn difference(left: i64, right: i64) -> Option<i64>
    ensures { result ≡ difference left right }
{
    match left.checked_sub(right) {
        Some(number) => kept(number),
        None => None,
    }
}

/// Whether the number is below zero.
#[tactic(auto, using(crate::proofs::Signs::below_zero))]
fn is_negative(number: i64) -> bool
    ensures { result ≡ is_negative number }
{
    number < 0
}

/// Whether just one of the numbers is below zero.
fn signs_differ(left: i64, right: i64) -> bool
    ensures { result ≡ signs_differ left right }
{
    if is_negative(left) {
        !is_negative(right)
    } else {
        is_negative(right)
    }
}

/// The product of two numbers.
fn product(left: i64, right: i64) -> Option<i64>
    ensures { result ≡ product left right }
{
    match left.unsigned_abs().checked_mul(right.unsigned_abs()) {
        Some(size) => signed(signs_differ(left, right), size),
        None => None,
    }
}

/// The first number divided by the second, where that is exact.
fn quotient(left: i64, right: i64) -> Option<i64>
    ensures { result ≡ quotient left right }
{
    let divisor = right.unsigned_abs();
    if divisor == 0 {
        return None;
    }
    let size = left.unsigned_abs();
    if size % divisor == 0 {
        signed(signs_differ(left, right), size / divisor)
    } else {
        None
    }
}

/// What a division of the first number by the second leaves, with the sign of the first.
fn remainder(left: i64, right: i64) -> Option<i64>
    ensures { result ≡ remainder left right }
{
    let divisor = right.unsigned_abs();
    if divisor == 0 {
        None
    } else {
        signed(is_negative(left), left.unsigned_abs() % divisor)
    }
}

/// ToUint32: the residue modulo 2 ^ 32.
fn to_uint32(number: i64) -> u32
    ensures { result ≡ to_uint32 number }
{
    number.rem_euclid(1 << 32) as u32
}

/// The residue from -2 ^ 31 on that a residue from 0 on stands for.
fn signed_32(residue: u32) -> i64
    ensures { result ≡ signed_32 residue }
{
    if residue < 1 << 31 {
        residue as i64
    } else {
        residue as i64 - (1 << 32)
    }
}

/// ToInt32: the residue modulo 2 ^ 32 that lies from -2 ^ 31 to 2 ^ 31 - 1.
fn to_int32(number: i64) -> i64
    ensures { result ≡ to_int32 number }
{
    signed_32(to_uint32(number))
}

/// How far a shift by the number goes: its lowest five bits.
fn shift_count(number: i64) -> u32
    ensures value { result ≡ shift_count number }
    ensures bound { result < 32 }
{
    to_uint32(number) % 32
}

/// The first number, shifted to the left by the second, in 32 bits.
fn shift_left(left: i64, right: i64) -> i64
    ensures { result ≡ signed_32 ((to_uint32 left * 2 ^ shift_count right) % 2 ^ 32) }
{
    let shifted = (to_uint32(left) as u64) << shift_count(right);
    signed_32((shifted % (1 << 32)) as u32)
}

/// The first number in 32 bits, shifted to the right by the second; its sign stays.
fn shift_right(left: i64, right: i64) -> i64
    ensures { result ≡ rounded_down (to_int32 left) (2 ^ shift_count right) }
{
    to_int32(left) >> shift_count(right)
}

/// The first number in 32 bits without a sign, shifted to the right by the second.
fn shift_right_unsigned(left: i64, right: i64) -> i64
    ensures { result ≡ pos (to_uint32 left / 2 ^ shift_count right) }
{
    (to_uint32(left) >> shift_count(right)) as i64
}

/// The first number to the power of the second, where that is not negative.
#[tactic(auto, unfolding(crate::specs::Integer::power))]
fn power(left: i64, right: i64) -> Option<i64>
    ensures { result ≡ power left right }
{
    if is_negative(right) {
        return None;
    }
    let exponent = right.unsigned_abs();
    match size_of_power(left.unsigned_abs(), exponent) {
        Some(size) => signed(is_negative(left) && exponent % 2 == 1, size),
        None => None,
    }
}

/// The size to that power, where it is not past the largest.
#[tactic(auto, using(crate::proofs::Powers::small_power))]
fn size_of_power(size: u64, exponent: u64) -> Option<u64>
    ensures { result ≡ bounded (size ^ exponent) }
{
    if exponent == 0 {
        Some(1)
    } else if size < 2 {
        Some(size)
    } else {
        size_of_growing_power(size, exponent)
    }
}

/// The size to that power, where it is not past the largest: a size of 2 or more passes it within
/// 53 multiplications.
#[tactic(auto, using(crate::proofs::Powers::power_more))]
fn size_of_growing_power(size: u64, exponent: u64) -> Option<u64>
    requires { 1 < size }
    ensures { result ≡ bounded (size ^ exponent) }
{
    let mut product = 1;
    for turn in 0..exponent {
        if product > LARGEST / size {
            return None;
        }
        product *= size;
    }
    Some(product)
}
