//! The constants of enum members.
ghost use Rattle.std.specs.Prelude.{◌≡◌, ◌++◌, IfOk, OnOk, string_bytes};
ghost use Rattle.oxt_names.specs.Constant.{constant_view, spelling};

use crate::ids::OutOfMemory;
use crate::name::Name;
use std::alloc::Global;

/// The constant of an enum member.
#[derive(Drop)]
pub enum ConstantValue {
    /// A whole number.
    Number(i64),
    /// A text.
    Text(Name),
}

impl ConstantValue {
    /// The same constant; a text is not copied.
    pub fn share(&self) -> Result<ConstantValue, OutOfMemory>
        ensures { IfOk result (λ value. constant_view value ≡ constant_view self.now) }
    {
        match self {
            ConstantValue::Number(number) => Ok(ConstantValue::Number(*number)),
            ConstantValue::Text(name) => Ok(ConstantValue::Text(name.share()?)),
        }
    }

    /// Appends the constant's text: of a number, its decimal digits.
    pub fn push_to(&self, alloc: Global, text: &mut String) -> Result<(), OutOfMemory>
        ensures { OnOk result
            (string_bytes text.new
            ≡ string_bytes text.old ++ spelling (constant_view self.now)) }
    {
        match self {
            ConstantValue::Number(number) => {
                let digits = number.to_string(alloc)?;
                text.push_str(digits.as_str())?;
            }
            ConstantValue::Text(name) => text.push_str(name.as_str())?,
        }
        Ok(())
    }
}
