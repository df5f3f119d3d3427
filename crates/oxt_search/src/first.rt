//! The first that nodes give.
ghost use Rattle.std.specs.Prelude.{◌≡◌, map, option_map};
ghost use Rattle.oxt_search.specs.All.{all_at, all_below, all_in, given_in};
ghost use Rattle.oxt_search.specs.First.{first, first_among, first_in};
ghost use Rattle.oxt_grammar.specs.Field.{row_view};
ghost use Rattle.oxt_grammar.specs.Keys.{key_of};
ghost use Rattle.oxt_tree.specs.View.{doc_of_part, docs_in, node_doc, part_doc};
ghost use Rattle.std.specs.List.{slice_get};

use crate::search::{Inside, Search, Visit, holds_nodes};
use oxt_grammar::field::Field;
use oxt_grammar::holds::Row;
use oxt_grammar::kind::Kind;
use oxt_tree::fields::place_of;
use oxt_tree::tree::{Node, Part};

/// The first that the node or one in it gives, where a node comes before those in its fields, and these in the
/// order of the rows of its kind.
#[cycle(first)]
pub fn first_in<S: Search>(search: &S, node: &Node, state: S::State) -> Option<S::Found>
    ensures { option_map S.view result ≡ first_in (S.sought search.now) (node_doc node.now) state }
{
    let Visit { found, inside } = search.visit(node, state);
    if let Some(found) = found {
        return Some(found);
    }
    match inside {
        Inside::Skipped => None,
        Inside::Alike(state) => first_among(search, node.parts.as_slice(), state),
        Inside::ByField(state) => first_below(
            search,
            node.kind,
            node.kind.rows(),
            node.parts.as_slice(),
            state,
        ),
        Inside::Only(field, state) => first_alone(
            search,
            node.kind.rows(),
            node.parts.as_slice(),
            field,
            state,
        ),
    }
}

/// The first that the parts give, one after the other, each reached in that state.
#[tactic(auto, using(crate::proofs::Firsts::among_more, crate::proofs::Firsts::among_done))]
#[cycle(first)]
pub fn first_among<S: Search>(search: &S, parts: &[Part], state: S::State) -> Option<S::Found>
    ensures { option_map S.view result ≡ first_among (S.sought search.now) (docs_in parts.now) state }
{
    for i in 0..parts.len() {
        if let Some(found) = first_in_part(search, &parts[i], state) {
            return Some(found);
        }
    }
    None
}

/// The first that the part gives.
#[cycle(first)]
fn first_in_part<S: Search>(search: &S, part: &Part, state: S::State) -> Option<S::Found>
    ensures { option_map S.view result ≡ first (all_in (S.sought search.now) (part_doc part.now) state) }
{
    match part {
        Part::Node(node) => first_in(search, node, state),
        Part::List(parts) => first_among(search, parts.as_slice(), state),
        _ => None,
    }
}

/// The first that the fields of a node of that kind give, each reached in its own state.
#[tactic(auto, using(crate::proofs::Firsts::below_more, crate::proofs::Firsts::below_done))]
#[cycle(first)]
fn first_below<S: Search>(
    search: &S,
    kind: Kind,
    rows: &[Row],
    parts: &[Part],
    state: S::State,
) -> Option<S::Found>
    ensures { option_map S.view result
        ≡ first (all_below (S.sought search.now) (docs_in parts.now) kind (map row_view rows.now) state) }
{
    for i in 0..rows.len().min(parts.len()) {
        if let Some(found) = first_in_field(search, kind, &rows[i], &parts[i], state) {
            return Some(found);
        }
    }
    None
}

/// The first that a field of a node of that kind gives, unless it is left out.
#[tactic(auto, using(crate::proofs::Bare::first_of_bare))]
#[cycle(first)]
fn first_in_field<S: Search>(
    search: &S,
    kind: Kind,
    row: &Row,
    part: &Part,
    state: S::State,
) -> Option<S::Found>
    ensures { option_map S.view result ≡ first (given_in (all_in (S.sought search.now) (part_doc part.now))
        ((S.sought search.now).in_field state kind (row_view row.now))) }
{
    if !holds_nodes(part) {
        return None;
    }
    let state = search.in_field(state, kind, row)?;
    first_in_part(search, part, state)
}

/// The first that that field of a node with these rows and parts gives.
#[tactic(auto, using(crate::proofs::Alone::first_alone_steps))]
#[cycle(first)]
fn first_alone<S: Search>(
    search: &S,
    rows: &[Row],
    parts: &[Part],
    field: Field,
    state: S::State,
) -> Option<S::Found>
    ensures { option_map S.view result
        ≡ first (all_at (S.sought search.now) (docs_in parts.now) (map row_view rows.now) (key_of field) state) }
{
    match place_of(rows, field) {
        Some(place) => first_at(search, parts, place, state),
        None => None,
    }
}

/// The first that the part at that place gives.
#[cycle(first)]
fn first_at<S: Search>(
    search: &S,
    parts: &[Part],
    place: usize,
    state: S::State,
) -> Option<S::Found>
    ensures { option_map S.view result
        ≡ first (all_in (S.sought search.now) (doc_of_part (slice_get parts.now place)) state) }
{
    match parts.get(place) {
        Some(part) => first_in_part(search, part, state),
        None => None,
    }
}
