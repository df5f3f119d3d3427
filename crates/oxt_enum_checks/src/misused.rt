//! The first bare name of a member that stands where its value cannot.
ghost use Rattle.std.specs.Prelude.{◌≡◌, ℕ, false, option_map};
ghost use Rattle.oxt_enum_checks.specs.Misused.{HasNoMember, HasNoWrittenMember, is_member, is_misused, is_misused_as, is_misused_use, misused, misused_at, names_element, number_of, sought};
ghost use Rattle.oxt_scopes.specs.Stack.{number_at};
ghost use Rattle.oxt_scoping.specs.Scoped.{live_at};
ghost use Rattle.oxt_tree.specs.View.{node_doc};

use bitflags::Flags;
use oxt_declares::dropped::{inside_dropped, is_dropped};
use oxt_grammar::holds::Row;
use oxt_grammar::kind::Kind;
use oxt_names::flags::{ReferenceFlags, SymbolFlags};
use oxt_names::ids::{NodeId, ReferenceId, SymbolId};
use oxt_scoping::entry::Reference;
use oxt_scoping::scoping::Scoping;
use oxt_search::first::first_in;
use oxt_search::search::{Inside, Search, Visit};
use oxt_tree::tree::Node;

/// The first bare name in the program, outside what is erased and outside types, that means a member of an enum
/// and is written, or names an element of JSX. Under `legacy` the decorators of a field with `declare` are not erased.
#[tactic(auto, using(crate::proofs::Numbers::number_of_found))]
pub fn first_misused(program: &Node, scoping: &Scoping, legacy: bool) -> Option<NodeId>
    ensures { number_at result ≡ misused legacy scoping.now (node_doc program.now) }
{
    if !has_members(scoping) {
        return None;
    }
    first_in(&Misuses { scoping, legacy }, program, false)
}

/// The search for such names. What is handed down is whether a name there names an element.
#[derive(Clone, Copy)]
struct Misuses<'a> {
    /// What the names mean.
    scoping: &'a Scoping,
    /// Whether decorators have TypeScript's older meaning.
    legacy: bool,
}

impl<'a> Search for Misuses<'a> {
    type State = bool;

    type Found = NodeId;

    ghost Seen = { ℕ };

    ghost view = { number_of };

    ghost sought = { λ misuses. sought misuses.legacy misuses.scoping.now };

    fn visit(&self, node: &Node, is_element: bool) -> Visit<NodeId, bool> {
        if is_dropped(node) {
            Visit {
                found: None,
                inside: inside_dropped(self.legacy, node, false),
            }
        } else {
            Visit {
                found: misused_at(node.id, self.scoping, is_element),
                inside: Inside::Alike(names_element(node.kind)),
            }
        }
    }

    fn in_field(&self, is_element: bool, _kind: Kind, _row: &Row) -> Option<bool> {
        Some(is_element)
    }
}

/// The node of that number, if it is such a name.
fn misused_at(node: NodeId, scoping: &Scoping, is_element: bool) -> Option<NodeId>
    ensures { option_map number_of result ≡ misused_at scoping.now is_element node.0 }
{
    if is_misused(node, scoping, is_element) {
        Some(node)
    } else {
        None
    }
}

/// Whether a name in a node of the kind names an element of JSX, or is the first part of such a name.
fn names_element(kind: Kind) -> bool
    ensures { result ≡ names_element kind }
{
    kind.is(Kind::JSXOpeningElement)
        || kind.is(Kind::JSXClosingElement)
        || kind.is(Kind::JSXMemberExpression)
}

/// Whether the node of that number is such a name.
fn is_misused(node: NodeId, scoping: &Scoping, is_element: bool) -> bool
    ensures { result ≡ is_misused scoping.now node.0 is_element }
{
    match scoping.value_use_of(node) {
        Some(reference) => is_misused_as(scoping, reference, is_element),
        None => false,
    }
}

/// Whether a name that is used so is such a name.
fn is_misused_as(scoping: &Scoping, reference: Reference, is_element: bool) -> bool
    ensures { result ≡ is_misused_as scoping.now is_element reference }
{
    (is_element || reference.flags.contains(ReferenceFlags::Write))
        && is_member(scoping, reference.symbol)
}

/// Whether a name that means a member of an enum is written. Where none is, no bare name is misused but an element of JSX. So an
/// answer that one is may be given freely.
pub fn has_written_member(scoping: &Scoping) -> bool
    ensures { result ≡ false → HasNoWrittenMember scoping.now }
{
    for number in 0..scoping.reference_count() {
        if is_written_member(scoping, ReferenceId(number as u64)) {
            return true;
        }
    }
    false
}

/// Whether the reference is there, means a member of an enum, and writes.
fn is_written_member(scoping: &Scoping, reference: ReferenceId) -> bool
    ensures { result ≡ is_misused_use scoping.now false (live_at scoping.now.references reference.0) }
{
    if scoping.has_reference(reference) {
        is_misused_as(scoping, *scoping.get_reference(reference), false)
    } else {
        false
    }
}

/// Whether it is the symbol of a member of an enum.
pub fn is_member(scoping: &Scoping, symbol: Option<SymbolId>) -> bool
    ensures { result ≡ is_member scoping.now symbol }
{
    match symbol {
        Some(symbol) => {
            scoping.has_symbol(symbol)
                && scoping
                    .symbol_flags(symbol)
                    .contains(SymbolFlags::EnumMember)
        }
        None => false,
    }
}

/// Whether a symbol is that of a member of an enum. A program without members is done with at once: nothing of it can be
/// wrong with a member. So an answer that it has some may be given freely, and is where symbols have no more numbers.
pub fn has_members(scoping: &Scoping) -> bool
    ensures { result ≡ false → HasNoMember scoping.now }
{
    for number in 0..u64::MAX {
        let symbol = SymbolId(number);
        if !scoping.has_symbol(symbol) {
            return false;
        }
        if is_member(scoping, Some(symbol)) {
            return true;
        }
    }
    true
}
