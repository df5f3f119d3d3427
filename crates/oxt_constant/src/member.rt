//! The constant of a member of an enum, by its initializer or by the member before it.
ghost use Rattle.std.specs.Prelude.{◌≡◌, IfOk, codes, option_map};
ghost use Rattle.oxt_constant.specs.Following.{before_view, following, is_largest, is_wide, member_constant};
ghost use Rattle.oxt_names.specs.Constant.{constant_view};
ghost use Rattle.oxt_tree.specs.Fields.{named};
ghost use Rattle.oxt_tree.specs.View.{docs_in};

use crate::evaluate::constant_of;
use crate::integer::{LARGEST, apply_binary};
use crate::meanings::Meanings;
use crate::meter::TextMeter;
use crate::operator::BinaryOperator;
use oxt_grammar::field::Field;
use oxt_names::constant::ConstantValue;
use oxt_names::ids::OutOfMemory;
use oxt_tree::tree::{Node, Part};
use std::alloc::Global;

/// What stands before a member in its block.
#[derive(Drop)]
pub enum Before {
    /// Nothing.
    Front,
    /// A member, with its constant if it has one.
    Behind(Option<ConstantValue>),
}

/// The constant of a member, if it has one: that of its initializer; without one the number after
/// that of the member before, or 0 at the front. What is written of texts on the way to it is counted.
///
/// # Errors
///
/// Fails only where memory runs out, or where more bytes of text would be written than may be.
pub fn member_constant<M: Meanings>(
    alloc: Global,
    env: &M,
    written: &mut TextMeter,
    before: &Before,
    member: &Node,
) -> Result<Option<ConstantValue>, OutOfMemory>
    ensures { IfOk result
        (λ value. option_map constant_view value
        ≡ member_constant (M.env env.now) (before_view before.now) (named (codes "initializer") member.now.kind (docs_in member.now.parts.items))) }
{
    match member.field(Field::Initializer) {
        None => Ok(following(before)),
        Some(Part::Nothing) => Ok(following(before)),
        Some(Part::Node(initializer)) => constant_of(alloc, env, written, initializer),
        _ => Ok(None),
    }
}

/// Whether the member has no initializer and stands after the largest constant, so that it has no
/// constant.
pub fn is_wide(before: &Before, member: &Node) -> bool
    ensures { result
        ≡ is_wide (before_view before.now) (named (codes "initializer") member.now.kind (docs_in member.now.parts.items)) }
{
    match before {
        Before::Behind(Some(ConstantValue::Number(number))) => {
            member.lacks(Field::Initializer) && is_largest(*number)
        }
        _ => false,
    }
}

/// The constant of a member without initializer.
fn following(before: &Before) -> Option<ConstantValue>
    ensures { option_map constant_view result ≡ following (before_view before.now) }
{
    match before {
        Before::Front => Some(ConstantValue::Number(0)),
        Before::Behind(Some(ConstantValue::Number(number))) => {
            match apply_binary(BinaryOperator::Add, *number, 1) {
                Some(next) => Some(ConstantValue::Number(next)),
                None => None,
            }
        }
        _ => None,
    }
}

/// Whether the number is the largest.
fn is_largest(number: i64) -> bool
    ensures { result ≡ is_largest number }
{
    0 < number && number.unsigned_abs() == LARGEST
}
