//! The first name that would change its owner.
ghost use Rattle.std.specs.Prelude.{◌≡◌, IfOk, Some, option_map};
ghost use Rattle.oxt_faults.specs.AllCaptured.{all_captured, all_marked};
ghost use Rattle.oxt_faults.specs.Captured.{Capture, capture_view};
ghost use Rattle.oxt_faults.specs.Earliest.{earlier};
ghost use Rattle.oxt_faults.specs.Marks.{captured_symbols, has_mark, marked, marked_as, marked_at};
ghost use Rattle.oxt_fields.specs.Rules.{rules_view};
ghost use Rattle.oxt_options.specs.Facts.{is_in};
ghost use Rattle.oxt_search.specs.First.{first_in};
ghost use Rattle.oxt_tree.specs.View.{node_doc};

use crate::outside::{captured_symbols, mark_at};
use crate::written::first_written;
use oxt_declares::dropped::{inside_dropped, is_dropped};
use oxt_fields::rules::FieldRules;
use oxt_grammar::holds::Row;
use oxt_grammar::kind::Kind;
use oxt_names::ids::{NodeId, OutOfMemory, SymbolId};
use oxt_names::name::Name;
use oxt_options::nodes::NodeList;
use oxt_scoping::scoping::Scoping;
use oxt_search::first::first_in;
use oxt_search::search::{Inside, Search, Visit};
use oxt_tree::tree::Node;
use std::alloc::Global;

/// A name that would change its owner.
#[derive(Clone, Copy)]
pub struct CapturedName<'a> {
    /// The node that is the name.
    pub node: NodeId,
    /// Its spelling.
    pub name: &'a Name,
}

/// The first name in the program that would change its owner: one that is used as a value outside what is erased, or that
/// metadata writes as one, and that means a symbol of which no declaration emits code, but for those whose names are left out,
/// while a scope further out binds the same name to a symbol that does.
///
/// # Errors
///
/// Fails only where memory runs out.
pub fn first_captured<'a>(
    alloc: Global,
    rules: FieldRules,
    program: &Node,
    scoping: &'a Scoping,
    left_out: &NodeList,
) -> Result<Option<CapturedName<'a>>, OutOfMemory>
    ensures { IfOk result (λ found. option_map capture_view found
        ≡ all_captured (rules_view rules.entry) scoping.now (is_in left_out.now) (node_doc program.now)) }
{
    let marks = captured_symbols(alloc, scoping, left_out)?;
    let marked = marks.as_slice();
    if has_mark(marked) {
        Ok(first_by_marks(rules, program, scoping, marked))
    } else {
        Ok(None)
    }
}

/// Whether a symbol is marked. Where none is, no name means one.
fn has_mark(marks: &[bool]) -> bool
    ensures { result ≡ has_mark marks.now }
{
    marks.iter().any(|mark| *mark)
}

/// The first name in the program that means a marked symbol: one that is used as a value, or that metadata writes.
fn first_by_marks<'a>(
    rules: FieldRules,
    program: &Node,
    scoping: &'a Scoping,
    marks: &[bool],
) -> Option<CapturedName<'a>>
    ensures { option_map capture_view result
        ≡ all_marked (rules_view rules.entry) scoping.now marks.now (node_doc program.now) }
{
    let used = first_marked(rules.legacy, program, scoping, marks);
    let written = first_written(rules, program, scoping, marks);
    earlier(used, written)
}

/// The one of two at the node of the lesser number, and the first of two at one node.
fn earlier<'a>(
    first: Option<CapturedName<'a>>,
    other: Option<CapturedName<'a>>,
) -> Option<CapturedName<'a>>
    ensures { option_map capture_view result
        ≡ earlier (option_map capture_view first.entry) (option_map capture_view other.entry) }
{
    match (first, other) {
        (Some(first), Some(other)) => {
            if other.node.0 < first.node.0 {
                Some(other)
            } else {
                Some(first)
            }
        }
        (Some(first), None) => Some(first),
        (None, other) => other,
    }
}

/// The first name in the program, outside what is erased, that is used as a value and means a marked symbol.
fn first_marked<'a>(
    legacy: bool,
    program: &Node,
    scoping: &'a Scoping,
    marks: &[bool],
) -> Option<CapturedName<'a>>
    ensures { option_map capture_view result
        ≡ first_in (marked legacy scoping.now marks.now) (node_doc program.now) tt }
{
    let names = Marked {
        legacy,
        scoping,
        marks,
    };
    first_in(&names, program, ())
}

/// The search for such names.
#[derive(Clone, Copy)]
struct Marked<'a, 'b> {
    /// Decorators have their older meaning.
    legacy: bool,
    /// What the names mean.
    scoping: &'a Scoping,
    /// Of each symbol whether it is marked.
    marks: &'b [bool],
}

impl<'a, 'b> Search for Marked<'a, 'b> {
    type State = ();

    type Found = CapturedName<'a>;

    ghost Seen = { Capture };

    ghost view = { capture_view };

    ghost sought = { λ search. marked search.legacy search.scoping.now search.marks.now };

    fn visit(&self, node: &Node, _state: ()) -> Visit<CapturedName<'a>, ()> {
        if is_dropped(node) {
            Visit {
                found: None,
                inside: inside_dropped(self.legacy, node, ()),
            }
        } else {
            Visit {
                found: marked_at(node.id, self.scoping, self.marks),
                inside: Inside::Alike(()),
            }
        }
    }

    fn in_field(&self, _state: (), _kind: Kind, _row: &Row) -> Option<()> {
        Some(())
    }
}

/// The node, if the symbol that it means is marked.
fn marked_at<'a>(node: NodeId, scoping: &'a Scoping, marks: &[bool]) -> Option<CapturedName<'a>>
    ensures { option_map capture_view result ≡ marked_at scoping.now marks.now node.0 }
{
    name_of(node, scoping.value_meaning_of(node)?, scoping, marks)
}

/// The node as a name of the symbol, if that is marked.
pub fn name_of<'a>(
    node: NodeId,
    symbol: SymbolId,
    scoping: &'a Scoping,
    marks: &[bool],
) -> Option<CapturedName<'a>>
    ensures { option_map capture_view result ≡ marked_as scoping.now marks.now node.0 (Some symbol) }
{
    if mark_at(marks, symbol) && scoping.has_symbol(symbol) {
        let name = scoping.symbol_name(symbol);
        Some(CapturedName { node, name })
    } else {
        None
    }
}
