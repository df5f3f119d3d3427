//! All that nodes give.
ghost use Rattle.std.specs.Prelude.{◌≡◌, ◌++◌, IfOk, OnOk, map, option_map};
ghost use Rattle.oxt_search.specs.All.{all_among, all_at, all_below, all_in, given, given_in};
ghost use Rattle.oxt_grammar.specs.Field.{row_view};
ghost use Rattle.oxt_grammar.specs.Keys.{key_of};
ghost use Rattle.oxt_tree.specs.View.{doc_of_part, docs_in, node_doc, part_doc};
ghost use Rattle.std.specs.List.{slice_get};

use crate::search::{Inside, Search, Visit, holds_nodes};
use oxt_grammar::field::Field;
use oxt_grammar::holds::Row;
use oxt_grammar::kind::Kind;
use oxt_names::ids::OutOfMemory;
use oxt_tree::fields::place_of;
use oxt_tree::tree::{Node, Part};
use std::alloc::Global;

/// What the node and those in it give, where a node comes before those in its fields, and these in the order of
/// the rows of its kind.
///
/// # Errors
///
/// Fails only where memory runs out.
pub fn all_in<S: Search>(
    alloc: Global,
    search: &S,
    node: &Node,
    state: S::State,
) -> Result<Vec<S::Found>, OutOfMemory>
    ensures { IfOk result (λ v. map S.view v.items ≡ all_in (S.sought search.now) (node_doc node.now) state) }
{
    let mut out = Vec::new(alloc);
    push_all(search, node, state, &mut out)?;
    Ok(out)
}

/// Appends what the node and those in it give, in the same order.
///
/// # Errors
///
/// Fails only where memory runs out.
#[cycle(all)]
pub fn push_all<S: Search>(
    search: &S,
    node: &Node,
    state: S::State,
    out: &mut Vec<S::Found>,
) -> Result<(), OutOfMemory>
    ensures { OnOk result (map S.view out.new.items
        ≡ map S.view out.old.items ++ all_in (S.sought search.now) (node_doc node.now) state) }
{
    let Visit { found, inside } = search.visit(node, state);
    push_found::<S>(found, out)?;
    match inside {
        Inside::Skipped => Ok(()),
        Inside::Alike(state) => push_among(search, node.parts.as_slice(), state, out),
        Inside::ByField(state) => push_below(
            search,
            node.kind,
            node.kind.rows(),
            node.parts.as_slice(),
            state,
            out,
        ),
        Inside::Only(field, state) => push_alone(
            search,
            node.kind.rows(),
            node.parts.as_slice(),
            field,
            state,
            out,
        ),
    }
}

/// Appends what the node itself gives.
#[tactic(auto, using(crate::proofs::Alls::one_more))]
fn push_found<S: Search>(
    found: Option<S::Found>,
    out: &mut Vec<S::Found>,
) -> Result<(), OutOfMemory>
    ensures { OnOk result (map S.view out.new.items
        ≡ map S.view out.old.items ++ given (option_map S.view found)) }
{
    if let Some(found) = found {
        out.push(found)?;
    }
    Ok(())
}

/// Appends what the part gives.
#[cycle(all)]
fn push_part<S: Search>(
    search: &S,
    part: &Part,
    state: S::State,
    out: &mut Vec<S::Found>,
) -> Result<(), OutOfMemory>
    ensures { OnOk result (map S.view out.new.items
        ≡ map S.view out.old.items ++ all_in (S.sought search.now) (part_doc part.now) state) }
{
    match part {
        Part::Node(node) => push_all(search, node, state, out),
        Part::List(parts) => push_among(search, parts.as_slice(), state, out),
        _ => Ok(()),
    }
}

/// Appends what the parts give, one after the other, each reached in that state.
#[tactic(auto, using(crate::proofs::Alls::among_steps))]
#[cycle(all)]
pub fn push_among<S: Search>(
    search: &S,
    parts: &[Part],
    state: S::State,
    out: &mut Vec<S::Found>,
) -> Result<(), OutOfMemory>
    ensures { OnOk result (map S.view out.new.items
        ≡ map S.view out.old.items ++ all_among (S.sought search.now) (docs_in parts.now) state) }
{
    for i in 0..parts.len() {
        push_part(search, &parts[i], state, out)?;
    }
    Ok(())
}

/// Appends what the fields of a node of that kind give, each reached in its own state.
#[tactic(auto, using(crate::proofs::Alls::below_steps))]
#[cycle(all)]
fn push_below<S: Search>(
    search: &S,
    kind: Kind,
    rows: &[Row],
    parts: &[Part],
    state: S::State,
    out: &mut Vec<S::Found>,
) -> Result<(), OutOfMemory>
    ensures { OnOk result (map S.view out.new.items
        ≡ map S.view out.old.items
        ++ all_below (S.sought search.now) (docs_in parts.now) kind (map row_view rows.now) state) }
{
    for i in 0..rows.len().min(parts.len()) {
        push_field(search, kind, &rows[i], &parts[i], state, out)?;
    }
    Ok(())
}

/// Appends what a field of a node of that kind gives, unless it is left out.
#[tactic(auto, using(crate::proofs::Bare::all_of_bare))]
#[cycle(all)]
fn push_field<S: Search>(
    search: &S,
    kind: Kind,
    row: &Row,
    part: &Part,
    state: S::State,
    out: &mut Vec<S::Found>,
) -> Result<(), OutOfMemory>
    ensures { OnOk result (map S.view out.new.items ≡ map S.view out.old.items
        ++ given_in (all_in (S.sought search.now) (part_doc part.now))
        ((S.sought search.now).in_field state kind (row_view row.now))) }
{
    if !holds_nodes(part) {
        return Ok(());
    }
    match search.in_field(state, kind, row) {
        Some(state) => push_part(search, part, state, out),
        None => Ok(()),
    }
}

/// Appends what that field of a node with these rows and parts gives.
#[tactic(auto, using(crate::proofs::Alone::alone_steps))]
#[cycle(all)]
fn push_alone<S: Search>(
    search: &S,
    rows: &[Row],
    parts: &[Part],
    field: Field,
    state: S::State,
    out: &mut Vec<S::Found>,
) -> Result<(), OutOfMemory>
    ensures { OnOk result (map S.view out.new.items ≡ map S.view out.old.items
        ++ all_at (S.sought search.now) (docs_in parts.now) (map row_view rows.now) (key_of field) state) }
{
    match place_of(rows, field) {
        Some(place) => push_at(search, parts, place, state, out),
        None => Ok(()),
    }
}

/// Appends what the part at that place gives.
#[tactic(auto, using(crate::proofs::Alone::nothing_there))]
#[cycle(all)]
fn push_at<S: Search>(
    search: &S,
    parts: &[Part],
    place: usize,
    state: S::State,
    out: &mut Vec<S::Found>,
) -> Result<(), OutOfMemory>
    ensures { OnOk result (map S.view out.new.items ≡ map S.view out.old.items
        ++ all_in (S.sought search.now) (doc_of_part (slice_get parts.now place)) state) }
{
    match parts.get(place) {
        Some(part) => push_part(search, part, state, out),
        None => Ok(()),
    }
}
