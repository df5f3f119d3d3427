//! Symbols that keep their values.
ghost use Rattle.std.specs.Prelude.{◌≡◌, ◌<◌, IfOk, length, option_map, slice_get};
ghost use Rattle.oxt_fields.specs.Marks.{mark_at, steady_symbols};
ghost use Rattle.oxt_fields.specs.Written.{is_steady, is_steady_by, is_written, writes};
ghost use Rattle.oxt_scoping.specs.Scoped.{live_at};

use bitflags::Flags;
use oxt_names::flags::{ReferenceFlags, SymbolFlags};
use oxt_names::ids::{OutOfMemory, ReferenceId, SymbolId};
use oxt_scoping::scoping::Scoping;
use std::alloc::Global;

/// Of each symbol whether it keeps its value: it is no member of an enum, and no reference to it writes.
#[tactic(auto, using(crate::proofs::Symbols::marking_steps))]
pub fn steady_symbols(alloc: Global, scoping: &Scoping) -> Result<Vec<bool>, OutOfMemory>
    ensures { IfOk result (λ marks. marks.items ≡ steady_symbols scoping.now) }
{
    let mut marks = Vec::new(alloc);
    while scoping.has_symbol(SymbolId(marks.len() as u64)) {
        let mark = is_steady(scoping, SymbolId(marks.len() as u64));
        marks.push(mark)?;
    }
    Ok(marks)
}

/// What is noted of the symbol, if there is one.
pub fn mark_at(marks: &[bool], symbol: Option<SymbolId>) -> bool
    ensures { result ≡ mark_at marks.now symbol }
{
    match symbol {
        Some(symbol) => marks.get(symbol.0 as usize).copied().unwrap_or(false),
        None => false,
    }
}

/// Whether the symbol keeps its value.
#[tactic(auto, using(crate::proofs::Symbols::steady_so))]
fn is_steady(scoping: &Scoping, symbol: SymbolId) -> bool
    requires { symbol.0 < length scoping.now.symbols }
    ensures { option_map (is_steady scoping.now.references) (slice_get scoping.now.symbols symbol.0) ≡ Some result }
{
    let flags = scoping.symbol_flags(symbol);
    let references = scoping.get_resolved_references(symbol);
    is_steady_by(scoping, flags, references)
}

/// Whether a symbol with these flags and references keeps its value.
fn is_steady_by(scoping: &Scoping, flags: SymbolFlags, references: &[ReferenceId]) -> bool
    ensures { result ≡ is_steady_by scoping.now.references flags references.now }
{
    !flags.contains(SymbolFlags::EnumMember) && !is_written(scoping, references)
}

/// Whether one of the references writes.
fn is_written(scoping: &Scoping, references: &[ReferenceId]) -> bool
    ensures { result ≡ is_written scoping.now.references references.now }
{
    references
        .iter()
        .any(|reference| is_writing(scoping, *reference))
}

/// Whether the reference is there and writes.
fn is_writing(scoping: &Scoping, reference: ReferenceId) -> bool
    ensures { result ≡ writes (live_at scoping.now.references reference.0) }
{
    if scoping.has_reference(reference) {
        scoping
            .get_reference(reference)
            .flags
            .contains(ReferenceFlags::Write)
    } else {
        false
    }
}
