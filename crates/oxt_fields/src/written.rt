//! Names that nothing writes to.
ghost use Rattle.std.specs.Prelude.{◌≡◌, ℕ, IfOk, option_map};
ghost use Rattle.oxt_fields.specs.Marks.{marked, marked_at};
ghost use Rattle.oxt_fields.specs.Written.{never_written, number_of};
ghost use Rattle.oxt_options.specs.Lists.{numbers_in};
ghost use Rattle.oxt_search.specs.All.{all_in};
ghost use Rattle.oxt_tree.specs.View.{node_doc};

use crate::steady::{mark_at, steady_symbols};
use oxt_grammar::holds::Row;
use oxt_grammar::kind::Kind;
use oxt_names::ids::{NodeId, OutOfMemory};
use oxt_scoping::scoping::Scoping;
use oxt_search::all::all_in;
use oxt_search::search::{Inside, Search, Visit};
use oxt_tree::tree::Node;
use std::alloc::Global;

/// The names of the program that nothing writes to, in the order of the text: those that mean a declared name, no member of
/// an enum, to which no reference of the source writes, erased code included.
///
/// # Errors
///
/// Fails only where memory runs out.
pub fn never_written_nodes(
    alloc: Global,
    program: &Node,
    scoping: &Scoping,
) -> Result<Vec<NodeId>, OutOfMemory>
    ensures { IfOk result (λ nodes. numbers_in nodes.items ≡ never_written scoping.now (node_doc program.now)) }
{
    let marks = steady_symbols(alloc, scoping)?;
    marked_nodes(alloc, program, scoping, marks.as_slice())
}

/// The names of the program that mean marked symbols.
fn marked_nodes(
    alloc: Global,
    program: &Node,
    scoping: &Scoping,
    marks: &[bool],
) -> Result<Vec<NodeId>, OutOfMemory>
    ensures { IfOk result (λ nodes. numbers_in nodes.items ≡ all_in (marked scoping.now marks.now) (node_doc program.now) tt) }
{
    all_in(alloc, &Marked { scoping, marks }, program, ())
}

/// The search for such names.
#[derive(Clone, Copy)]
struct Marked<'a, 'b> {
    /// What the names mean.
    scoping: &'a Scoping,
    /// Of each symbol whether it is marked.
    marks: &'b [bool],
}

impl<'a, 'b> Search for Marked<'a, 'b> {
    type State = ();

    type Found = NodeId;

    ghost Seen = { ℕ };

    ghost view = { number_of };

    ghost sought = { λ search. marked search.scoping.now search.marks.now };

    fn visit(&self, node: &Node, _state: ()) -> Visit<NodeId, ()> {
        Visit {
            found: marked_at(self.scoping, self.marks, node.kind, node.id),
            inside: Inside::Alike(()),
        }
    }

    fn in_field(&self, _state: (), _kind: Kind, _row: &Row) -> Option<()> {
        Some(())
    }
}

/// The node of that kind, if it is a name that means a marked symbol.
fn marked_at(scoping: &Scoping, marks: &[bool], kind: Kind, node: NodeId) -> Option<NodeId>
    ensures { option_map number_of result ≡ marked_at scoping.now marks.now kind node.0 }
{
    if kind.is(Kind::IdentifierReference) && mark_at(marks, scoping.meaning_of(node)) {
        Some(node)
    } else {
        None
    }
}
