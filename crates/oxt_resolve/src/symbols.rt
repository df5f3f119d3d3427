//! The symbols of the table.
ghost use Rattle.std.specs.Prelude.{◌≡◌, ◌<◌, None, OnOk, length};
ghost use Rattle.oxt_declares.specs.Declarations.{declared_view};
ghost use Rattle.oxt_scopes.specs.Views.{opened_view, opened_views};
ghost use Rattle.oxt_resolve.specs.Resolved.{again_in, all_declared, declared_as, declared_in, with_declarations, with_declared};

use crate::flags::{joined, redeclared};
use crate::opening::scope_of_number;
use oxt_declares::declaration::Declaration;
use oxt_names::ids::{NodeId, OutOfMemory, ScopeId, SymbolId};
use oxt_names::name::Name;
use oxt_scopes::scopes::OpenedScope;
use oxt_scopes::standing::Standing;
use oxt_scoping::entry::Redeclaration;
use oxt_scoping::scoping::Scoping;
use std::alloc::Global;

/// Declares what the scopes declare.
pub fn declare_all(
    alloc: Global,
    table: &mut Scoping,
    scopes: &[OpenedScope],
) -> Result<(), OutOfMemory>
    ensures { OnOk result (table.new ≡ all_declared (opened_views scopes.now) table.old) }
{
    for scope in scopes {
        declare_each(alloc, table, scope)?;
    }
    Ok(())
}

/// Declares what the scope declares.
fn declare_each(alloc: Global, table: &mut Scoping, scope: &OpenedScope) -> Result<(), OutOfMemory>
    ensures { OnOk result (table.new ≡ with_declarations table.old (opened_view scope.now)) }
{
    let number = scope.number;
    let standing = scope.standing;
    for declaration in scope.declarations.as_slice() {
        declare(alloc, table, number, standing, declaration)?;
    }
    Ok(())
}

/// Declares the name in the scope of that number, which has that standing.
fn declare(
    alloc: Global,
    table: &mut Scoping,
    number: NodeId,
    standing: Standing,
    declaration: &Declaration,
) -> Result<(), OutOfMemory>
    ensures { OnOk result (table.new ≡ with_declared number.0 standing table.old (declared_view declaration.now)) }
{
    let scope = scope_of_number(table, number);
    let redeclaration = redeclared(standing, declaration);
    declare_in(alloc, table, scope, declaration.name, redeclaration)
}

/// Declares the name in the scope.
fn declare_in(
    alloc: Global,
    table: &mut Scoping,
    scope: ScopeId,
    name: &str,
    declaration: Redeclaration,
) -> Result<(), OutOfMemory>
    requires { scope.0 < length table.old.scopes }
    ensures { OnOk result (table.new ≡ declared_in scope name.now declaration table.old) }
{
    match table.get_binding(scope, name) {
        Some(symbol) => declare_again(table, symbol, declaration),
        None => declare_first(alloc, table, scope, name, declaration),
    }
}

/// Makes a symbol of the name, which the scope binds.
#[tactic(auto, using(crate::proofs::Steps::declared_is))]
fn declare_first(
    alloc: Global,
    table: &mut Scoping,
    scope: ScopeId,
    name: &str,
    declaration: Redeclaration,
) -> Result<(), OutOfMemory>
    requires { scope.0 < length table.old.scopes }
    ensures { OnOk result (table.new ≡ declared_as scope name.now declaration None table.old) }
{
    let name = Name::new(alloc, name)?;
    table.declare_symbol(&name, scope, declaration.flags, declaration)?;
    Ok(())
}

/// Adds the declaration to the symbol, and its flags to the symbol's.
fn declare_again(
    table: &mut Scoping,
    symbol: SymbolId,
    declaration: Redeclaration,
) -> Result<(), OutOfMemory>
    requires { symbol.0 < length table.old.symbols }
    ensures { OnOk result (table.new ≡ again_in symbol declaration table.old) }
{
    let flags = joined(table.symbol_flags(symbol), declaration.flags);
    table.declare_again(symbol, declaration)?;
    *table.symbol_flags_mut(symbol) = flags;
    Ok(())
}
