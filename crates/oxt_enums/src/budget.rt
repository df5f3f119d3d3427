//! How much text the constants of the members of a tree take.
ghost use Rattle.std.specs.Prelude.{◌≡◌, ◌+◌, ◌≤◌, OnOk};
ghost use Rattle.oxt_constant.specs.Metered.{most_text};
ghost use Rattle.oxt_enums.specs.Held.{held_by};
ghost use Rattle.oxt_enums.specs.Tables.{value_view};

use oxt_constant::meter::TextMeter;
use oxt_names::constant::ConstantValue;
use oxt_names::ids::OutOfMemory;

/// What the constants of the members took so far.
#[derive(Drop)]
pub struct TextBudget {
    /// The bytes of their texts: of each member its own, even where another has the same.
    pub held: TextMeter,
    /// The bytes that were written to make texts.
    pub written: TextMeter,
}

impl TextBudget {
    /// Nothing so far.
    pub fn new() -> TextBudget
        ensures { result.held.bytes ≡ 0 }
    {
        TextBudget {
            held: TextMeter::new(),
            written: TextMeter::new(),
        }
    }
}

/// Counts the text of the constant of one more member.
///
/// # Errors
///
/// Only where the texts of all would hold more than [`oxt_constant::meter::MOST_TEXT`] bytes.
pub fn hold(held: &mut TextMeter, value: &Option<ConstantValue>) -> Result<(), OutOfMemory>
    ensures counted { OnOk result (held.new.bytes ≡ held.old.bytes + held_by (value_view value.now)) }
    ensures within { OnOk result (held.new.bytes ≤ most_text) }
{
    held.count(text_size(value))
}

/// How many bytes the text of the constant has.
fn text_size(value: &Option<ConstantValue>) -> usize
    ensures { result ≡ held_by (value_view value.now) }
{
    match value {
        Some(ConstantValue::Text(name)) => name.as_str().len(),
        _ => 0,
    }
}
