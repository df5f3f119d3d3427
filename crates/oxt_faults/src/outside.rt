//! Symbols that emit code, and names that scopes further out bind to such.
ghost use Rattle.std.specs.Prelude.{◌≡◌, ◌<◌, IfOk, IfSome, Some, length, option_map, slice_get};
ghost use Rattle.oxt_faults.specs.Captured.{emits, emits_at, emits_beside, emits_from, emits_outside, is_captured};
ghost use Rattle.oxt_options.specs.Facts.{is_in};
ghost use Rattle.oxt_faults.specs.Marks.{captured_symbols, emitting_symbols, mark_at};

use oxt_names::ids::{OutOfMemory, ScopeId, SymbolId};
use oxt_options::nodes::NodeList;
use oxt_scoping::entry::Redeclaration;
use oxt_scoping::scoping::Scoping;
use std::alloc::Global;

/// Of each symbol whether no declaration of it emits code, but for those whose names are left out, while its name means one
/// that does in a scope further out.
pub fn captured_symbols(
    alloc: Global,
    scoping: &Scoping,
    left_out: &NodeList,
) -> Result<Vec<bool>, OutOfMemory>
    ensures { IfOk result (λ marks. marks.items ≡ captured_symbols scoping.now (is_in left_out.now)) }
{
    let emitting = emitting_symbols(alloc, scoping)?;
    captured_among(alloc, scoping, left_out, emitting.as_slice())
}

/// Of each symbol whether one of its declarations emits code.
#[tactic(auto, using(crate::proofs::Symbols::marking_steps))]
fn emitting_symbols(alloc: Global, scoping: &Scoping) -> Result<Vec<bool>, OutOfMemory>
    ensures { IfOk result (λ marks. marks.items ≡ emitting_symbols scoping.now) }
{
    let mut marks = Vec::new(alloc);
    while scoping.has_symbol(SymbolId(marks.len() as u64)) {
        let mark = is_emitting(scoping, SymbolId(marks.len() as u64));
        marks.push(mark)?;
    }
    Ok(marks)
}

/// Of each symbol whether it is captured, where that is known of each whether it emits code.
#[tactic(auto, using(crate::proofs::Symbols::marking_steps))]
fn captured_among(
    alloc: Global,
    scoping: &Scoping,
    left_out: &NodeList,
    emitting: &[bool],
) -> Result<Vec<bool>, OutOfMemory>
    requires { emitting.now ≡ emitting_symbols scoping.now }
    ensures { IfOk result (λ marks. marks.items ≡ captured_symbols scoping.now (is_in left_out.now)) }
{
    let mut marks = Vec::new(alloc);
    while scoping.has_symbol(SymbolId(marks.len() as u64)) {
        let mark = is_captured(scoping, left_out, emitting, SymbolId(marks.len() as u64));
        marks.push(mark)?;
    }
    Ok(marks)
}

/// What is noted of the symbol.
pub fn mark_at(marks: &[bool], symbol: SymbolId) -> bool
    ensures { result ≡ mark_at marks.now symbol }
{
    marks.get(symbol.0 as usize).copied().unwrap_or(false)
}

/// Whether one of the symbol's declarations emits code.
#[tactic(auto, using(crate::proofs::Symbols::emits_so))]
fn is_emitting(scoping: &Scoping, symbol: SymbolId) -> bool
    requires { symbol.0 < length scoping.now.symbols }
    ensures { option_map (λ y. emits y.declarations) (slice_get scoping.now.symbols symbol.0) ≡ Some result }
{
    emits(scoping.symbol_redeclarations(symbol))
}

/// Whether no declaration of the symbol emits code, but for those that are left out, while its name means one that does in
/// a scope further out.
fn is_captured(scoping: &Scoping, left_out: &NodeList, emitting: &[bool], symbol: SymbolId) -> bool
    requires number { symbol.0 < length scoping.now.symbols }
    requires marks { emitting.now ≡ emitting_symbols scoping.now }
    ensures { option_map (is_captured scoping.now (is_in left_out.now)) (slice_get scoping.now.symbols symbol.0) ≡ Some result }
{
    let name = scoping.symbol_name(symbol);
    let scope = scoping.symbol_scope_id(symbol);
    !emits_beside(left_out, scoping.symbol_redeclarations(symbol))
        && is_emitted_outside(scoping, emitting, scope, name.as_str())
}

/// Whether a scope further out than that one binds the name to a symbol that emits code.
fn is_emitted_outside(scoping: &Scoping, emitting: &[bool], scope: ScopeId, name: &str) -> bool
    requires number { scope.0 < length scoping.now.scopes }
    requires marks { emitting.now ≡ emitting_symbols scoping.now }
    ensures { result ≡ emits_outside scoping.now name.now scope }
{
    let around = scoping.scope_parent_id(scope);
    is_emitted_from(scoping, emitting, scope.0, around, name)
}

/// Whether a scope from that one outwards, through at most so many, binds the name to a symbol that
/// emits code.
fn is_emitted_from(
    scoping: &Scoping,
    emitting: &[bool],
    left: u64,
    scope: Option<ScopeId>,
    name: &str,
) -> bool
    requires number { IfSome scope (λ first. first.0 < length scoping.now.scopes) }
    requires marks { emitting.now ≡ emitting_symbols scoping.now }
    ensures { result ≡ emits_from left scoping.now name.now scope }
{
    if left == 0 {
        return false;
    }
    match scope {
        Some(scope) => {
            let around = scoping.scope_parent_id(scope);
            binds_emitted(scoping, emitting, scope, name)
                || is_emitted_from(scoping, emitting, left - 1, around, name)
        }
        None => false,
    }
}

/// Whether the scope binds the name to a symbol that emits code.
#[tactic(auto, using(crate::proofs::Symbols::emitting_mark))]
fn binds_emitted(scoping: &Scoping, emitting: &[bool], scope: ScopeId, name: &str) -> bool
    requires number { scope.0 < length scoping.now.scopes }
    requires marks { emitting.now ≡ emitting_symbols scoping.now }
    ensures { result ≡ emits_at scoping.now name.now scope }
{
    match scoping.get_binding(scope, name) {
        Some(symbol) => mark_at(emitting, symbol),
        None => false,
    }
}

/// Whether one of the declarations emits code and is none of those that are left out.
fn emits_beside(left_out: &NodeList, declarations: &[Redeclaration]) -> bool
    ensures { result ≡ emits_beside (is_in left_out.now) declarations.now }
{
    declarations.iter().any(|declaration| declaration.emits && !left_out.has(declaration.node))
}

/// Whether one of the declarations emits code.
pub fn emits(declarations: &[Redeclaration]) -> bool
    ensures { result ≡ emits declarations.now }
{
    declarations.iter().any(|declaration| declaration.emits)
}
