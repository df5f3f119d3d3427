//! Bare names that mean members of an enum.
ghost use Rattle.std.specs.Prelude.{◌≡◌, ◌<◌, Some, length, option_map, slice_get};
ghost use Rattle.oxt_enum_checks.specs.Around.{around_view};
ghost use Rattle.oxt_enum_checks.specs.Uses.{is_member_of, is_member_use, is_own_member, is_scope};

use crate::around::EnumAround;
use bitflags::Flags;
use oxt_names::flags::SymbolFlags;
use oxt_names::ids::{NodeId, ScopeId, SymbolId};
use oxt_scoping::scoping::Scoping;

/// Whether the node of that number is a bare name, used as a value, that means a member of the enum.
pub fn is_member_use(scoping: &Scoping, around: EnumAround, node: NodeId) -> bool
    ensures { result ≡ is_member_use scoping.now (around_view around.entry) node.0 }
{
    match scoping.value_use_of(node) {
        Some(reference) => is_member_of(scoping, around, reference.symbol),
        None => false,
    }
}

/// Whether the symbol is that of a member of the enum.
fn is_member_of(scoping: &Scoping, around: EnumAround, symbol: Option<SymbolId>) -> bool
    ensures { result ≡ is_member_of scoping.now (around_view around.entry) symbol }
{
    match symbol {
        Some(symbol) => scoping.has_symbol(symbol) && is_own_member(scoping, around, symbol),
        None => false,
    }
}

/// The same of a symbol that is there: the body in which the member stands is in the scope that declares the enum.
fn is_own_member(scoping: &Scoping, around: EnumAround, symbol: SymbolId) -> bool
    requires { symbol.0 < length scoping.now.symbols }
    ensures { option_map (is_own_member scoping.now (around_view around.entry)) (slice_get scoping.now.symbols symbol.0)
        ≡ Some result }
{
    let body = scoping.symbol_scope_id(symbol);
    scoping
        .symbol_flags(symbol)
        .contains(SymbolFlags::EnumMember)
        && is_scope(around.scope, scoping.scope_parent_id(body))
}

/// Whether it is that scope.
fn is_scope(scope: ScopeId, other: Option<ScopeId>) -> bool
    ensures { result ≡ is_scope scope.0 other }
{
    match other {
        Some(other) => other.0 == scope.0,
        None => false,
    }
}
