//! Entries by their places.
ghost use Rattle.std.specs.Prelude.{◌≡◌, ◌<◌, ◌++◌, ◌∷◌, [], IfOk, IfSome, OnErr, OnOk, Some, is_some, length, slice_get, string_bytes, vec_capacity, vec_len};
ghost use Rattle.std.specs.BTreeMap.{insert_entry};
ghost use Rattle.std.specs.Ordering.{nat_cmp};
ghost use Rattle.oxt_scoping.specs.Scoped.{at_node, bound_at, declared_again, deleted_at, forgotten_by, found_within, live_at, meant_at, meant_by, unbound_at, values_alone, with_before, with_body_at, with_value_at};
ghost use Rattle.oxt_names.specs.Constant.{constant_view};

use crate::entry::{Redeclaration, ScopeEntry, Slot, SymbolEntry};
use oxt_names::constant::ConstantValue;
use oxt_names::ids::{NodeId, OutOfMemory, ReferenceId, ScopeId, SymbolId};
use std::collections::BTreeMap;

/// The scope with that number.
pub fn scope_at(scopes: &[ScopeEntry], scope: ScopeId) -> &ScopeEntry
    requires { scope.0 < length scopes.now }
    ensures { slice_get scopes.now scope.0 ≡ Some result.now }
{
    &scopes[scope.0 as usize]
}

/// The symbol with that number.
pub fn symbol_at(symbols: &[SymbolEntry], symbol: SymbolId) -> &SymbolEntry
    requires { symbol.0 < length symbols.now }
    ensures { slice_get symbols.now symbol.0 ≡ Some result.now }
{
    &symbols[symbol.0 as usize]
}

/// The reference with that number.
pub fn slot_at(slots: &[Slot], reference: ReferenceId) -> &Slot
    requires { reference.0 < length slots.now }
    ensures { slice_get slots.now reference.0 ≡ Some result.now }
{
    &slots[reference.0 as usize]
}

/// Whether there is a reference with the number, and was not deleted.
pub fn is_live(slots: &[Slot], reference: ReferenceId) -> bool
    ensures { result ≡ is_some (live_at slots.now reference.0) }
{
    match slots.get(reference.0 as usize) {
        Some(slot) => slot.is_live,
        None => false,
    }
}

/// The symbol that the name is bound to in the innermost scope that has it, from that one outwards
/// through at most so many.
pub fn find_within(
    scopes: &[ScopeEntry],
    left: usize,
    scope: Option<ScopeId>,
    name: &str,
) -> Option<SymbolId>
    ensures { result ≡ found_within left scopes.now name.now scope }
{
    if left == 0 {
        return None;
    }
    let scope = scope?;
    if scope.0 as usize >= scopes.len() {
        return None;
    }
    let entry = scope_at(scopes, scope);
    match entry.binding(name) {
        Some(symbol) => Some(symbol),
        None => find_within(scopes, left - 1, entry.parent(), name),
    }
}

/// Binds the name to the symbol in the scope.
pub fn bind_in(
    scopes: &mut Vec<ScopeEntry>,
    scope: ScopeId,
    name: String,
    symbol: SymbolId,
) -> Result<(), OutOfMemory>
    requires { scope.0 < length scopes.old.items }
    ensures bound { OnOk result
        (scopes.new.items ≡ bound_at scope.0 (string_bytes name) symbol scopes.old.items) }
    ensures kept { OnErr result (scopes.new.items ≡ scopes.old.items) }
{
    let entry = &mut scopes[scope.0 as usize];
    entry.bind(name, symbol)
}

/// Binds the name to nothing in the scope.
pub fn unbind_in(scopes: &mut Vec<ScopeEntry>, scope: ScopeId, name: &str)
    requires { scope.0 < length scopes.old.items }
    ensures { scopes.new.items ≡ unbound_at scope.0 name.now scopes.old.items }
{
    let entry = &mut scopes[scope.0 as usize];
    entry.unbind(name);
}

/// Binds in each scope no longer what is a type alone, or ambient.
pub fn keep_values_in(scopes: &mut Vec<ScopeEntry>, symbols: &[SymbolEntry])
    ensures { scopes.new.items ≡ values_alone symbols.now scopes.old.items }
{
    for i in 0..scopes.len() {
        let entry = &mut scopes[i];
        entry.keep_values(symbols);
    }
}

/// Adds the declaration to the symbol.
pub fn declare_in(
    symbols: &mut Vec<SymbolEntry>,
    symbol: SymbolId,
    declaration: Redeclaration,
) -> Result<(), OutOfMemory>
    requires { symbol.0 < length symbols.old.items }
    ensures pushed { OnOk result
        (symbols.new.items ≡ declared_again symbol.0 declaration symbols.old.items) }
    ensures kept { OnErr result (symbols.new.items ≡ symbols.old.items) }
{
    let entry = &mut symbols[symbol.0 as usize];
    entry.push_declaration(declaration)
}

/// Adds the scope of a body to the symbol.
pub fn add_body_in(
    symbols: &mut Vec<SymbolEntry>,
    symbol: SymbolId,
    scope: ScopeId,
) -> Result<(), OutOfMemory>
    requires { symbol.0 < length symbols.old.items }
    ensures pushed { OnOk result (symbols.new.items ≡ with_body_at symbol.0 scope symbols.old.items) }
    ensures kept { OnErr result (symbols.new.items ≡ symbols.old.items) }
{
    let entry = &mut symbols[symbol.0 as usize];
    entry.push_body(scope)
}

/// Gives the symbol the constant.
pub fn set_value_in(symbols: &mut Vec<SymbolEntry>, symbol: SymbolId, value: ConstantValue)
    requires { symbol.0 < length symbols.old.items }
    ensures { symbols.new.items ≡ with_value_at symbol.0 (constant_view value) symbols.old.items }
{
    let entry = &mut symbols[symbol.0 as usize];
    entry.set_value(value);
}

/// Adds the reference to what means the symbol, if there is one.
pub fn refer_in(
    symbols: &mut Vec<SymbolEntry>,
    symbol: Option<SymbolId>,
    reference: ReferenceId,
) -> Result<(), OutOfMemory>
    requires { IfSome symbol (λ meant. meant.0 < length symbols.old.items) }
    ensures pushed { OnOk result
        (symbols.new.items ≡ meant_by reference symbol symbols.old.items) }
    ensures kept { OnErr result (symbols.new.items ≡ symbols.old.items) }
{
    match symbol {
        Some(symbol) => push_in(symbols, symbol, reference),
        None => Ok(()),
    }
}

/// Adds the reference to what means the symbol.
fn push_in(
    symbols: &mut Vec<SymbolEntry>,
    symbol: SymbolId,
    reference: ReferenceId,
) -> Result<(), OutOfMemory>
    requires { symbol.0 < length symbols.old.items }
    ensures pushed { OnOk result
        (symbols.new.items ≡ meant_by reference (Some symbol) symbols.old.items) }
    ensures kept { OnErr result (symbols.new.items ≡ symbols.old.items) }
{
    let entry = &mut symbols[symbol.0 as usize];
    entry.push_reference(reference)
}

/// Takes the reference out of what means the symbol, if there is one.
pub fn forget_in(symbols: &mut Vec<SymbolEntry>, symbol: Option<SymbolId>, reference: ReferenceId)
    ensures { symbols.new.items ≡ forgotten_by reference symbol symbols.old.items }
{
    match symbol {
        Some(symbol) => remove_in(symbols, symbol, reference),
        None => {}
    }
}

/// Takes the reference out of what means the symbol.
fn remove_in(symbols: &mut Vec<SymbolEntry>, symbol: SymbolId, reference: ReferenceId)
    ensures { symbols.new.items ≡ forgotten_by reference (Some symbol) symbols.old.items }
{
    if (symbol.0 as usize) < symbols.len() {
        let entry = &mut symbols[symbol.0 as usize];
        entry.remove_reference(reference);
    }
}

/// Deletes the reference, and says which symbol it means.
pub fn delete_in(slots: &mut Vec<Slot>, reference: ReferenceId) -> Option<SymbolId>
    requires { reference.0 < length slots.old.items }
    ensures symbol { result ≡ meant_at slots.old.items reference.0 }
    ensures deleted { slots.new.items ≡ deleted_at reference.0 slots.old.items }
{
    let slot = &mut slots[reference.0 as usize];
    slot.is_live = false;
    slot.reference.symbol
}

/// Puts the item at the end of the list, which has room for it.
pub fn push_reserved<T: Drop>(list: &mut Vec<T>, item: T)
    requires { vec_len list.old < vec_capacity list.old }
    ensures { list.new.items ≡ list.old.items ++ item ∷ [] }
{
    match list.push(item) {
        Ok(()) => {}
        Err(_) => {}
    }
}

/// What the table has at the node's number.
pub fn at_node<V: Copy>(table: &BTreeMap<u64, V>, node: NodeId) -> Option<V>
    ensures { result ≡ at_node node table.now.entries }
{
    table.get(&node.0).copied()
}

/// Puts the value at the node's number in the table, and says what it had there.
pub fn put_at<V: Copy>(
    table: &mut BTreeMap<u64, V>,
    node: NodeId,
    value: V,
) -> Result<Option<V>, OutOfMemory>
    ensures put { OnOk result (table.new.entries ≡ insert_entry nat_cmp table.old.entries node.0 value) }
    ensures undone { IfOk result (λ before. with_before node before table.new.entries ≡ table.old.entries) }
    ensures kept { OnErr result (table.new.entries ≡ table.old.entries) }
{
    let before = table.insert(node.0, value)?;
    Ok(before)
}

/// Leaves in the table what it had at the node's number before a value was put there.
pub fn put_back<V: Copy>(table: &mut BTreeMap<u64, V>, node: NodeId, before: Option<V>)
    ensures { table.new.entries ≡ with_before node before table.old.entries }
{
    match before {
        Some(value) => overwrite(table, node, value),
        None => {
            table.remove(&node.0);
        }
    }
}

/// Writes the value over what the table has at the node's number, if it has something there.
fn overwrite<V: Copy>(table: &mut BTreeMap<u64, V>, node: NodeId, value: V)
    ensures { table.new.entries ≡ with_before node (Some value) table.old.entries }
{
    if let Some(place) = table.get_mut(&node.0) {
        *place = value;
    }
}
