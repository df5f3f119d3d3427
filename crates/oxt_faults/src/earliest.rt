//! Of names that would be captured, the one at the node of the least number.
ghost use Rattle.std.specs.Prelude.{◌≡◌, Some, map, option_map};
ghost use Rattle.oxt_faults.specs.Earliest.{earlier, earliest, moved_view, of_word};
ghost use Rattle.oxt_faults.specs.Level.{found_view};

use crate::level::FoundWord;
use oxt_names::ids::NodeId;

/// A name that would mean something else once the fields of its class move.
#[derive(Clone, Copy)]
pub struct MovedName<'a> {
    /// The node at which it is.
    pub node: NodeId,
    /// Its spelling.
    pub name: &'a str,
}

/// The word, at its node.
pub fn of_word<'a>(found: Option<FoundWord>) -> Option<MovedName<'a>>
    ensures { option_map moved_view result ≡ option_map of_word (option_map found_view found) }
{
    let found = found?;
    Some(MovedName {
        node: found.node,
        name: found.word.as_str(),
    })
}

/// The one of two at the node of the lesser number, and the first of two at one node.
pub fn earlier<'a>(
    first: Option<MovedName<'a>>,
    other: Option<MovedName<'a>>,
) -> Option<MovedName<'a>>
    ensures { option_map moved_view result
        ≡ earlier (option_map moved_view first.entry) (option_map moved_view other.entry) }
{
    match (first, other) {
        (Some(first), Some(other)) => {
            if other.node.0 < first.node.0 {
                Some(other)
            } else {
                Some(first)
            }
        }
        (Some(first), None) => Some(first),
        (None, other) => other,
    }
}

/// The one at the node of the least number, and the first of those at one node.
#[tactic(auto, using(crate::proofs::Earliests::found_steps))]
pub fn earliest<'a>(found: &[MovedName<'a>]) -> Option<MovedName<'a>>
    ensures { option_map moved_view result ≡ earliest (map moved_view found.now) }
{
    let mut least = None;
    for name in found {
        least = earlier(least, Some(*name));
    }
    least
}
