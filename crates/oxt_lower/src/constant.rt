//! The constants of members as they are written.
ghost use Rattle.std.specs.Prelude.{◌≡◌};
ghost use Rattle.oxt_names.specs.Constant.{is_negative};

use oxt_ctx::nodes::{negative, number_literal, string_literal};
use oxt_names::constant::ConstantValue;
use oxt_names::ids::{NodeIds, OutOfMemory};
use oxt_tree::tree::Node;
use std::alloc::Global;

/// The literal of a constant.
pub fn constant_literal(
    alloc: Global,
    constant: &ConstantValue,
    ids: &mut NodeIds,
) -> Result<Node, OutOfMemory> {
    match constant {
        ConstantValue::Number(number) => integer_literal(alloc, *number, ids),
        ConstantValue::Text(text) => string_literal(alloc, text, ids),
    }
}

/// The literal of a whole number, with a minus in front of it where it is negative.
fn integer_literal(alloc: Global, number: i64, ids: &mut NodeIds) -> Result<Node, OutOfMemory> {
    let size = number_literal(alloc, number.unsigned_abs(), ids)?;
    if is_negative(number) {
        negative(alloc, size, ids)
    } else {
        Ok(size)
    }
}

/// Whether the number is negative.
fn is_negative(number: i64) -> bool
    ensures { result ≡ is_negative number }
{
    number < 0
}
