//! The first blocks of symbols, of those declarations that are sought.
ghost use Rattle.std.specs.Prelude.{◌≡◌, ◌<◌, IfOk, Some, false, length, option_map, slice_get};
ghost use Rattle.std.specs.List.{list_any};
ghost use Rattle.oxt_enum_checks.specs.Sought.{HasNoBlock, emits, first_at, first_name, first_names, firsts_among, fits, has_block, is_emitting_block, is_first, is_sought, sought_blocks};
ghost use Rattle.oxt_enum_checks.specs.Places.{places_in};

use crate::blocks::Block;
use crate::places::Places;
use crate::sort::{is_block, sort_of};
use oxt_names::flags::SymbolFlags;
use oxt_names::ids::{NodeId, OutOfMemory, SymbolId};
use oxt_scoping::entry::Redeclaration;
use oxt_scoping::scoping::Scoping;
use std::alloc::Global;

/// Which declarations are looked for.
#[derive(Clone, Copy)]
pub enum Sought {
    /// All that emit code.
    Any,
    /// Those of them that are blocks.
    Block,
}

/// Those of the blocks that are the first of their symbols' declarations that are sought. `places` are the declarations of the
/// names of the program.
pub fn sought_blocks(
    alloc: Global,
    blocks: &[Block],
    scoping: &Scoping,
    places: &Places,
    sought: Sought,
) -> Result<Vec<Block>, OutOfMemory>
    ensures { IfOk result (λ found. found.items
        ≡ sought_blocks (places_in places.now) sought scoping.now blocks.now) }
{
    let firsts = first_names(alloc, scoping, places, sought)?;
    firsts_among(alloc, scoping, firsts.as_slice(), blocks)
}

/// Of each symbol the number of the name by which the first declaration that is sought declares it.
#[tactic(auto, using(crate::proofs::Symbols::finding_steps))]
fn first_names(
    alloc: Global,
    scoping: &Scoping,
    places: &Places,
    sought: Sought,
) -> Result<Vec<Option<u64>>, OutOfMemory>
    ensures { IfOk result (λ found. found.items
        ≡ first_names (places_in places.now) sought scoping.now.symbols) }
{
    let mut found = Vec::new(alloc);
    while scoping.has_symbol(SymbolId(found.len() as u64)) {
        let name = first_of(scoping, places, sought, SymbolId(found.len() as u64));
        found.push(name)?;
    }
    Ok(found)
}

/// The same of that symbol.
#[tactic(auto, using(crate::proofs::Symbols::first_so))]
fn first_of(scoping: &Scoping, places: &Places, sought: Sought, symbol: SymbolId) -> Option<u64>
    requires { symbol.0 < length scoping.now.symbols }
    ensures { option_map (λ y. first_name (places_in places.now) sought y.declarations) (slice_get scoping.now.symbols symbol.0) ≡ Some result }
{
    first_name(places, sought, scoping.symbol_redeclarations(symbol))
}

/// The number of the name by which the first of the declarations that is sought declares it.
fn first_name(places: &Places, sought: Sought, declarations: &[Redeclaration]) -> Option<u64>
    ensures { result ≡ first_name (places_in places.now) sought declarations.now }
{
    match declarations
        .iter()
        .find(|declaration| is_sought(places, sought, declaration))
    {
        Some(declaration) => Some(declaration.node.0),
        None => None,
    }
}

/// Whether the declaration is sought.
fn is_sought(places: &Places, sought: Sought, declaration: &Redeclaration) -> bool
    ensures { result ≡ is_sought (places_in places.now) sought declaration.now }
{
    emits(places, declaration) && fits(sought, declaration.flags)
}

/// Whether the declaration emits code. The name of a function expression, which no declaration
/// declares, does not count: what the function declares by that name hides it.
fn emits(places: &Places, declaration: &Redeclaration) -> bool
    ensures { result ≡ emits (places_in places.now) declaration.now }
{
    declaration.emits && places.place_of(declaration.node).is_some()
}

/// Whether a declaration with those flags is sought where it emits code.
fn fits(sought: Sought, flags: SymbolFlags) -> bool
    ensures { result ≡ fits sought flags }
{
    match sought {
        Sought::Any => true,
        Sought::Block => is_block(sort_of(flags)),
    }
}

/// Those of the blocks whose names `firsts` has for their symbols.
fn firsts_among(
    alloc: Global,
    scoping: &Scoping,
    firsts: &[Option<u64>],
    blocks: &[Block],
) -> Result<Vec<Block>, OutOfMemory>
    ensures { IfOk result (λ found. found.items ≡ firsts_among scoping.now firsts.now blocks.now) }
{
    Ok(
        blocks
            .iter()
            .copied()
            .filter(|block| is_first(scoping, firsts, block.name))
            .collect(alloc)?,
    )
}

/// Whether `firsts` has the name for the symbol that it declares.
fn is_first(scoping: &Scoping, firsts: &[Option<u64>], name: NodeId) -> bool
    ensures { result ≡ is_first scoping.now firsts.now name.0 }
{
    first_at(firsts, scoping.symbol_of(name)) == Some(name.0)
}

/// The name that `firsts` has for the symbol.
fn first_at(firsts: &[Option<u64>], symbol: Option<SymbolId>) -> Option<u64>
    ensures { result ≡ first_at firsts.now symbol }
{
    match symbol {
        Some(symbol) => firsts.get(symbol.0 as usize).copied().unwrap_or(None),
        None => None,
    }
}

/// Whether a block of an enum or a namespace emits code. In a program without one no declarations clash. So an answer that
/// it has one may be given freely, and is where symbols have no more numbers.
pub fn has_blocks(scoping: &Scoping) -> bool
    ensures { result ≡ false → HasNoBlock scoping.now }
{
    for number in 0..u64::MAX {
        let symbol = SymbolId(number);
        if !scoping.has_symbol(symbol) {
            return false;
        }
        if has_block(scoping, symbol) {
            return true;
        }
    }
    true
}

/// Whether one of the symbol's declarations is such a block.
#[tactic(auto, using(crate::proofs::Blockless::block_so))]
fn has_block(scoping: &Scoping, symbol: SymbolId) -> bool
    requires { symbol.0 < length scoping.now.symbols }
    ensures { result ≡ has_block (slice_get scoping.now.symbols symbol.0) }
{
    any_block(scoping.symbol_redeclarations(symbol))
}

/// Whether one of the declarations is.
fn any_block(declarations: &[Redeclaration]) -> bool
    ensures { result ≡ list_any is_emitting_block declarations.now }
{
    declarations.iter().any(|declaration| declaration.emits && is_block(sort_of(declaration.flags)))
}
