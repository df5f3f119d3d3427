//! Names with their symbols.

use oxt_names::ids::SymbolId;
use oxt_names::name::Name;

/// A name that is bound, and its symbol.
#[derive(Drop)]
pub struct BoundIdentifier {
    /// How it is spelled.
    pub name: Name,
    /// What it is bound to.
    pub symbol_id: SymbolId,
}
