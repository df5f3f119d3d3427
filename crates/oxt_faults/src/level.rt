//! The first word at the level of a piece of code.
ghost use Rattle.std.specs.Prelude.{◌≡◌, option_map};
ghost use Rattle.oxt_faults.specs.Level.{LevelWordAt, at_level, changed, found_at, found_view, level_word, level_words, moved_word, owns_await, sought};
ghost use Rattle.oxt_tree.specs.View.{doc_or_nil, docs_in, node_doc};

use crate::reach::{Reach, reach_of};
use crate::silent::{is_silent, silent_inside};
use crate::word::{Destination, LevelWord, word_at};
use oxt_grammar::field::Field;
use oxt_grammar::holds::Row;
use oxt_grammar::kind::Kind;
use oxt_names::ids::NodeId;
use oxt_search::first::{first_among, first_in};
use oxt_search::search::{Inside, Search, Visit};
use oxt_tree::tree::{Node, Part};

/// A word at the level of some code.
#[derive(Clone, Copy)]
pub struct FoundWord {
    /// The word.
    pub word: LevelWord,
    /// The number of the node that it is.
    pub node: NodeId,
}

/// What the search for such words knows of the nodes around a node.
#[derive(Clone, Copy)]
pub struct Around {
    /// What of the node stands at the level.
    pub reach: Reach,
    /// An async arrow gives `await` its own meaning.
    pub owns_await: bool,
}

/// The first word at the level of the node, where a node comes before those in it: a word that would mean something
/// else if the node stood in a function of its own. None stands in erased code, in a type, in a function that is no
/// arrow, nor in the methods, the values of fields and the static blocks of a class. `legacy` says that decorators have
/// their older meaning.
pub fn first_level_word(legacy: bool, node: &Node) -> Option<FoundWord>
    ensures { option_map found_view result ≡ level_word legacy (node_doc node.now) }
{
    let words = LevelWords {
        legacy,
        destination: Destination::Deeper,
    };
    first_in(&words, node, at_level())
}

/// The first word at the level of the parts, as of a body.
pub fn first_level_word_in(legacy: bool, parts: &[Part]) -> Option<FoundWord>
    ensures { option_map found_view result ≡ level_words legacy (docs_in parts.now) }
{
    let words = LevelWords {
        legacy,
        destination: Destination::Deeper,
    };
    first_among(&words, parts, at_level())
}

/// The first word at the level of the part, if there is one.
pub fn first_level_word_at(legacy: bool, part: Option<&Part>) -> Option<FoundWord>
    ensures { option_map found_view result ≡ level_word legacy (doc_or_nil part.entry) }
{
    match part {
        Some(Part::Node(node)) => first_level_word(legacy, node),
        Some(Part::List(parts)) => first_level_word_in(legacy, parts),
        _ => None,
    }
}

/// The first word at the level of the part that would mean something else where the part goes, if there is one.
pub fn first_moved_word(
    legacy: bool,
    destination: Destination,
    part: Option<&Part>,
) -> Option<FoundWord>
    ensures { option_map found_view result ≡ moved_word legacy destination (doc_or_nil part.entry) }
{
    let words = LevelWords {
        legacy,
        destination,
    };
    match part {
        Some(Part::Node(node)) => first_in(&words, node, at_level()),
        Some(Part::List(parts)) => first_among(&words, parts.as_slice(), at_level()),
        _ => None,
    }
}

/// Code at the level itself.
fn at_level() -> Around
    ensures { result ≡ at_level }
{
    Around {
        reach: Reach::Level,
        owns_await: false,
    }
}

/// The search for the words that would mean something else where the code goes.
#[derive(Clone, Copy)]
struct LevelWords {
    /// Decorators have their older meaning.
    legacy: bool,
    /// Where the code goes.
    destination: Destination,
}

impl Search for LevelWords {
    type State = Around;

    type Found = FoundWord;

    ghost Seen = { LevelWordAt };

    ghost view = { found_view };

    ghost sought = { λ search. sought search.legacy search.destination };

    fn visit(&self, node: &Node, around: Around) -> Visit<FoundWord, Around> {
        if is_silent(around.reach, node) {
            Visit {
                found: None,
                inside: silent_inside(self.legacy, around.reach, node, around),
            }
        } else {
            Visit {
                found: found_at(self.destination, around.owns_await, node),
                inside: Inside::ByField(Around {
                    reach: around.reach,
                    owns_await: owns_await(around.owns_await, node),
                }),
            }
        }
    }

    fn in_field(&self, around: Around, kind: Kind, row: &Row) -> Option<Around> {
        Some(Around {
            reach: reach_of(around.reach, kind, row),
            owns_await: around.owns_await,
        })
    }
}

/// The word that the node itself is, with its number, if it would mean something else there.
fn found_at(destination: Destination, owns_await: bool, node: &Node) -> Option<FoundWord>
    ensures { option_map found_view result
        ≡ found_at destination owns_await node.now.kind node.now.id.0 (docs_in node.now.parts.items) }
{
    let word = changed(destination, word_at(owns_await, node))?;
    Some(FoundWord {
        word,
        node: node.id,
    })
}

/// The word, if it would mean something else there.
fn changed(destination: Destination, word: Option<LevelWord>) -> Option<LevelWord>
    ensures { result ≡ changed destination word }
{
    let word = word?;
    if destination.changes(word) {
        Some(word)
    } else {
        None
    }
}

/// Whether `await` has a meaning of its own in the node: one around it gives it that, or it is an async arrow.
fn owns_await(own: bool, node: &Node) -> bool
    ensures { result ≡ owns_await own node.now.kind (docs_in node.now.parts.items) }
{
    own || (node.kind.is(Kind::ArrowFunctionExpression) && node.flag(Field::Async))
}
