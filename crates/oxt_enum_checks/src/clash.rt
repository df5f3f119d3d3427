//! Declarations of one name that do not merge: of each name of which a block of an enum or a namespace emits code, the later one
//! of the first two declarations that emit code and of which one alone is exported, or one is a block that does not merge with
//! the other.
ghost use Rattle.std.specs.Prelude.{◌≡◌, ◌++◌, ◌||◌, IfOk, OnOk, false, is_some, option_map};
ghost use Rattle.oxt_enum_checks.specs.Clash.{clash_among, clash_from, clash_with, clashes, emitted, emitted_as, least_clash, lesser, merges};
ghost use Rattle.oxt_enum_checks.specs.Sought.{declarations_of};
ghost use Rattle.oxt_enum_checks.specs.Places.{places_in};
ghost use Rattle.oxt_enum_checks.specs.Sort.{is_block};
ghost use Rattle.oxt_scoping.specs.Meant.{declared_symbol};

use crate::blocks::Block;
use crate::places::{Place, Places};
use crate::sort::{Sort, is_base, is_block, is_namespace, sort_of};
use oxt_names::ids::{NodeId, OutOfMemory};
use oxt_scoping::entry::Redeclaration;
use oxt_scoping::scoping::Scoping;
use std::alloc::Global;

/// A declaration that emits code.
#[derive(Clone, Copy)]
pub struct Emitted {
    /// What it is to blocks of its name.
    pub sort: Sort,
    /// Where it stands.
    pub place: Place,
}

/// The least of the numbers of the first clashes of the names of these blocks.
#[tactic(auto, using(crate::proofs::Clashes::least_steps))]
pub(crate) fn least_clash(
    alloc: Global,
    scoping: &Scoping,
    places: &Places,
    blocks: &[Block],
) -> Result<Option<NodeId>, OutOfMemory>
    ensures { IfOk result (λ found. option_map (λ node. node.0) found
        ≡ least_clash scoping.now (places_in places.now) blocks.now) }
{
    let mut least = None;
    for block in blocks {
        let declarations = declarations_by(scoping, block.name);
        let clash = clash_among(alloc, places, declarations)?;
        least = lesser(least, clash);
    }
    Ok(least)
}

/// The lesser one of two numbers, if there are two.
pub(crate) fn lesser(first: Option<NodeId>, other: Option<NodeId>) -> Option<NodeId>
    ensures { option_map (λ node. node.0) result
        ≡ lesser (option_map (λ node. node.0) first) (option_map (λ node. node.0) other) }
{
    match (first, other) {
        (Some(first), Some(other)) => Some(NodeId(first.0.min(other.0))),
        (None, other) => other,
        (first, None) => first,
    }
}

/// The declarations of the symbol that the node declares; none where it declares none.
#[tactic(auto, using(crate::proofs::Symbols::declarations_found))]
pub(crate) fn declarations_by(scoping: &Scoping, node: NodeId) -> &[Redeclaration]
    ensures { result.now ≡ declarations_of (declared_symbol scoping.now node.0) }
{
    match scoping.symbol_of(node) {
        Some(symbol) => scoping.symbol_redeclarations(symbol),
        None => &[],
    }
}

/// The first clash among the declarations.
fn clash_among(
    alloc: Global,
    places: &Places,
    declarations: &[Redeclaration],
) -> Result<Option<NodeId>, OutOfMemory>
    ensures { IfOk result (λ found. option_map (λ node. node.0) found
        ≡ clash_among (places_in places.now) declarations.now) }
{
    let emitted = all_emitted(alloc, places, declarations)?;
    Ok(first_clashing(emitted.as_slice()))
}

/// The declarations that emit code.
///
/// # Errors
///
/// Nothing but want of memory.
pub(crate) fn all_emitted(
    alloc: Global,
    places: &Places,
    declarations: &[Redeclaration],
) -> Result<Vec<Emitted>, OutOfMemory>
    ensures { IfOk result (λ emitting. emitting.items
        ≡ emitted (places_in places.now) declarations.now) }
{
    let mut emitting = Vec::new(alloc);
    push_emitted(places, declarations, &mut emitting)?;
    Ok(emitting)
}

/// Appends the declarations that emit code.
#[tactic(auto, using(crate::proofs::Clashes::emitted_steps))]
fn push_emitted(
    places: &Places,
    declarations: &[Redeclaration],
    out: &mut Vec<Emitted>,
) -> Result<(), OutOfMemory>
    ensures { OnOk result (out.new.items ≡ out.old.items
        ++ emitted (places_in places.now) declarations.now) }
{
    for declaration in declarations {
        push_declaration(places, declaration, out)?;
    }
    Ok(())
}

/// Appends the declaration, if it emits code.
fn push_declaration(
    places: &Places,
    declaration: &Redeclaration,
    out: &mut Vec<Emitted>,
) -> Result<(), OutOfMemory>
    ensures { OnOk result (out.new.items ≡ out.old.items
        ++ emitted_as declaration.now (places_in places.now declaration.now.node.0)) }
{
    match places.place_of(declaration.node) {
        Some(place) => push_placed(declaration, place, out),
        None => Ok(()),
    }
}

/// Appends the declaration at that place, if it emits code.
fn push_placed(
    declaration: &Redeclaration,
    place: Place,
    out: &mut Vec<Emitted>,
) -> Result<(), OutOfMemory>
    ensures { OnOk result (out.new.items ≡ out.old.items ++ emitted_as declaration.now (Some place)) }
{
    if declaration.emits {
        let sort = sort_of(declaration.flags);
        out.push(Emitted { sort, place })?;
    }
    Ok(())
}

/// The later one of the first two that clash. Behind a block with which all that follow merge there are
/// only such blocks, which merge with one another; so the search ends there.
#[tactic(auto, using(crate::proofs::Clashes::clash_steps))]
fn first_clashing(emitted: &[Emitted]) -> Option<NodeId>
    ensures { option_map (λ node. node.0) result ≡ clash_from false emitted.now }
{
    let mut after_base = false;
    for i in 0..emitted.len() {
        let one = emitted[i];
        let clash = clash_with(after_base, one, emitted.split_at(i + 1).1);
        if ends_with(clash, one.sort) {
            return clash;
        }
        after_base |= is_base(one.sort);
    }
    None
}

/// Whether the search ends with a declaration that has that clash and sort.
fn ends_with(clash: Option<NodeId>, sort: Sort) -> bool
    ensures { result ≡ (is_some clash || is_block sort) }
{
    clash.is_some() || is_block(sort)
}

/// The first of the later ones that clashes with that one.
fn clash_with(after_base: bool, one: Emitted, later: &[Emitted]) -> Option<NodeId>
    ensures { option_map (λ node. node.0) result ≡ clash_with after_base one later.now }
{
    match later.iter().find(|other| clashes(after_base, one, **other)) {
        Some(other) => Some(other.place.declaration),
        None => None,
    }
}

/// Whether a declaration clashes with a later one.
fn clashes(after_base: bool, one: Emitted, other: Emitted) -> bool
    ensures { result ≡ clashes after_base one other }
{
    one.place.is_exported != other.place.is_exported
        || ((is_block(one.sort) || is_block(other.sort))
            && !merges(after_base, one.sort, other.sort))
}

/// Whether a declaration merges with a later one, where one of the two is a block.
fn merges(after_base: bool, one: Sort, other: Sort) -> bool
    ensures { result ≡ merges after_base one other }
{
    (is_block(one) && is_block(other)) || (is_base(one) && is_namespace(other) && !after_base)
}
