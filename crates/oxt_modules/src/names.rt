//! What the table says of the names of imports and exports.
ghost use Rattle.std.specs.Prelude.{◌≡◌, option_map};
ghost use Rattle.oxt_modules.specs.Names.{is_declared_again, is_name_kept, is_type_name, is_used};
ghost use Rattle.oxt_modules.specs.Symbols.{IsAnswered, asked, table_of};
ghost use Rattle.oxt_scoping.specs.Meant.{declared_symbol};

use crate::symbols::{SymbolAnswers, Symbols};
use oxt_names::ids::NodeId;

/// What is asked of the symbol that the node declares; nothing where it declares none.
fn declared_by(symbols: &Symbols, node: NodeId) -> Option<SymbolAnswers>
    requires { IsAnswered symbols.now }
    ensures { result
        ≡ option_map (asked (table_of symbols.now).references) (declared_symbol (table_of symbols.now) node.0) }
{
    symbols.get(symbols.scoping.symbol_of(node))
}

/// Whether another declaration of the symbol that the node declares is more than a type.
#[tactic(auto, using(crate::proofs::Tables::again_found))]
pub fn is_declared_again(symbols: &Symbols, node: NodeId) -> bool
    requires { IsAnswered symbols.now }
    ensures { result ≡ is_declared_again (table_of symbols.now) node.0 }
{
    match declared_by(symbols, node) {
        Some(symbol) => symbol.declares_besides(node),
        None => false,
    }
}

/// Whether a value use means the symbol that the node declares.
#[tactic(auto, using(crate::proofs::Tables::use_found))]
pub fn is_used(symbols: &Symbols, node: NodeId) -> bool
    requires { IsAnswered symbols.now }
    ensures { result ≡ is_used (table_of symbols.now) node.0 }
{
    match declared_by(symbols, node) {
        Some(symbol) => symbol.is_used,
        None => false,
    }
}

/// Whether the program's scope binds the name to what emits no code.
#[tactic(auto, using(crate::proofs::Tables::emission_found))]
fn is_type_name(symbols: &Symbols, name: &str) -> bool
    requires { IsAnswered symbols.now }
    ensures { result ≡ is_type_name (table_of symbols.now) name.now }
{
    let root = symbols.scoping.root_scope_id();
    match symbols.get(symbols.scoping.get_binding(root, name)) {
        Some(symbol) => !symbol.emits,
        None => false,
    }
}

/// Whether an export of the name stays.
pub fn is_name_kept(symbols: &Symbols, name: &str) -> bool
    requires { IsAnswered symbols.now }
    ensures { result ≡ is_name_kept (table_of symbols.now) name.now }
{
    !is_type_name(symbols, name)
}
