//! Whether every number of a value is in range.
ghost use Rattle.std.specs.Prelude.{◌≡◌};
ghost use Rattle.json.specs.Value.{value_view, items_view, members_view};
ghost use Rattle.oxt_json.specs.Data.{in_range, items_in_range, members_in_range};

use crate::number;
use json::Value;

/// Whether every number in the value is in range.
#[cycle(range)]
pub fn is_in_range(value: &Value<'_>) -> bool
    ensures { result ≡ in_range (value_view value.now) }
{
    match value {
        Value::Null => true,
        Value::Bool(_) => true,
        Value::Number(text) => number::is_in_range(text),
        Value::String(_) => true,
        Value::Array(items) => are_items_in_range(items),
        Value::Object(members) => are_members_in_range(members),
    }
}

#[cycle(range)]
#[tactic(auto, using(crate::proofs::Ranges::items_more, crate::proofs::Ranges::items_none, crate::proofs::Ranges::items_done))]
fn are_items_in_range(items: &[Value<'_>]) -> bool
    ensures { result ≡ items_in_range (items_view items.now) }
{
    for item in items {
        if !is_in_range(item) {
            return false;
        }
    }
    true
}

#[cycle(range)]
#[tactic(auto, using(crate::proofs::Ranges::members_more, crate::proofs::Ranges::members_none, crate::proofs::Ranges::members_done))]
fn are_members_in_range(members: &[(&str, Value<'_>)]) -> bool
    ensures { result ≡ members_in_range (members_view members.now) }
{
    for member in members {
        if !is_in_range(&member.1) {
            return false;
        }
    }
    true
}
