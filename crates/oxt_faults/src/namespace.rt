//! The first word at the level of the statements of a namespace.
ghost use Rattle.std.specs.Prelude.{◌≡◌, option_map};
ghost use Rattle.oxt_faults.specs.Level.{LevelWordAt, found_view};
ghost use Rattle.oxt_faults.specs.Namespaces.{namespace_word, sought};
ghost use Rattle.oxt_tree.specs.View.{node_doc};

use crate::level::{FoundWord, first_level_word_at};
use oxt_declares::dropped::{inside_dropped, is_dropped};
use oxt_grammar::field::Field;
use oxt_grammar::holds::Row;
use oxt_grammar::kind::Kind;
use oxt_search::first::first_in;
use oxt_search::search::{Inside, Search, Visit};
use oxt_tree::tree::Node;

/// The first word in the program, outside what is erased, that stands at the level of the statements of a namespace: they
/// go into a function, where the word would mean something else. What stands at the level of a namespace inside another
/// stands at the level of the outer one too. `legacy` says that decorators have their older meaning.
pub fn first_namespace_word(legacy: bool, program: &Node) -> Option<FoundWord>
    ensures { option_map found_view result ≡ namespace_word legacy (node_doc program.now) }
{
    first_in(&Namespaces { legacy }, program, ())
}

/// The search for the outermost namespaces, and for the first word of each.
#[derive(Clone, Copy)]
struct Namespaces {
    /// Decorators have their older meaning.
    legacy: bool,
}

impl Search for Namespaces {
    type State = ();

    type Found = FoundWord;

    ghost Seen = { LevelWordAt };

    ghost view = { found_view };

    ghost sought = { λ search. sought search.legacy };

    fn visit(&self, node: &Node, _state: ()) -> Visit<FoundWord, ()> {
        if is_dropped(node) {
            Visit {
                found: None,
                inside: inside_dropped(self.legacy, node, ()),
            }
        } else if node.kind.is(Kind::TSModuleBlock) {
            Visit {
                found: first_level_word_at(self.legacy, node.field(Field::Body)),
                inside: Inside::Skipped,
            }
        } else {
            Visit {
                found: None,
                inside: Inside::Alike(()),
            }
        }
    }

    fn in_field(&self, _state: (), _kind: Kind, _row: &Row) -> Option<()> {
        Some(())
    }
}
