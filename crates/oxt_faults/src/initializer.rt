//! The first word at the level of an initializer of a member of an enum that stays as written.
ghost use Rattle.std.specs.Prelude.{◌≡◌, IfOk, map, option_map};
ghost use Rattle.oxt_faults.specs.Initializers.{initializer_word, is_constant, is_written, least, lesser, own_word, sought};
ghost use Rattle.oxt_faults.specs.Level.{LevelWordAt, found_view};
ghost use Rattle.oxt_tree.specs.View.{docs_in, node_doc};

use crate::level::{FoundWord, first_level_word_at};
use oxt_declares::all::all_at_sites;
use oxt_declares::dropped::{inside_dropped, is_dropped};
use oxt_declares::sites::EnumSites;
use oxt_grammar::field::Field;
use oxt_grammar::holds::Row;
use oxt_grammar::kind::Kind;
use oxt_names::ids::{NodeId, OutOfMemory};
use oxt_scoping::scoping::Scoping;
use oxt_search::search::{Inside, Search, Visit};
use oxt_tree::tree::Node;
use std::alloc::Global;

/// The word of the least number, outside what is erased, that stands at the level of the initializer of a member of an
/// enum that has no constant: the initializer goes into a function, where the word would mean something else. The sites are
/// the enums of the program, and say whether decorators have their older meaning.
///
/// # Errors
///
/// Fails only where memory runs out.
pub fn first_initializer_word(
    alloc: Global,
    sites: &EnumSites,
    scoping: &Scoping,
) -> Result<Option<FoundWord>, OutOfMemory>
    ensures { IfOk result (λ found. option_map found_view found
        ≡ initializer_word sites.now.legacy scoping.now (node_doc sites.now.program.now)) }
{
    let search = Initializers {
        legacy: sites.legacy,
        scoping,
    };
    let words = all_at_sites(alloc, sites, &search, ())?;
    Ok(least(words.as_slice()))
}

/// The one of the least number.
#[tactic(auto, using(crate::proofs::Leasts::steps))]
fn least(words: &[FoundWord]) -> Option<FoundWord>
    ensures { option_map found_view result ≡ least (map found_view words.now) }
{
    let mut least = None;
    for word in words {
        least = lesser(least, *word);
    }
    least
}

/// The one of the lesser number.
fn lesser(least: Option<FoundWord>, word: FoundWord) -> Option<FoundWord>
    ensures { option_map found_view result ≡ lesser (option_map found_view least) (found_view word) }
{
    match least {
        Some(least) => {
            if word.node.0 < least.node.0 {
                Some(word)
            } else {
                Some(least)
            }
        }
        None => Some(word),
    }
}

/// The search for the first word of each such initializer.
#[derive(Clone, Copy)]
struct Initializers<'a> {
    /// Decorators have their older meaning.
    legacy: bool,
    /// The constants of the members.
    scoping: &'a Scoping,
}

impl<'a> Search for Initializers<'a> {
    type State = ();

    type Found = FoundWord;

    ghost Seen = { LevelWordAt };

    ghost view = { found_view };

    ghost sought = { λ search. sought search.legacy search.scoping.now };

    fn visit(&self, node: &Node, _state: ()) -> Visit<FoundWord, ()> {
        if is_dropped(node) {
            Visit {
                found: None,
                inside: inside_dropped(self.legacy, node, ()),
            }
        } else {
            Visit {
                found: own_word(self.legacy, self.scoping, node),
                inside: Inside::Alike(()),
            }
        }
    }

    fn in_field(&self, _state: (), _kind: Kind, _row: &Row) -> Option<()> {
        Some(())
    }
}

/// The first word at the level of the initializer of the node, if it is a member whose initializer stays as written.
fn own_word(legacy: bool, scoping: &Scoping, node: &Node) -> Option<FoundWord>
    ensures { option_map found_view result
        ≡ own_word legacy scoping.now node.now.kind node.now.id.0 (docs_in node.now.parts.items) }
{
    if is_written(scoping, node) {
        first_level_word_at(legacy, node.field(Field::Initializer))
    } else {
        None
    }
}

/// Whether the node is a member without constant.
fn is_written(scoping: &Scoping, node: &Node) -> bool
    ensures { result ≡ is_written scoping.now node.now.kind node.now.id.0 }
{
    node.kind.is(Kind::TSEnumMember) && !is_constant(scoping, node.id)
}

/// Whether the member of that number has a constant.
fn is_constant(scoping: &Scoping, member: NodeId) -> bool
    ensures { result ≡ is_constant scoping.now member.0 }
{
    match scoping.symbol_of(member) {
        Some(symbol) => scoping.get_enum_member_value(symbol).is_some(),
        None => false,
    }
}
