//! The enum in which a node stands.
ghost use Rattle.std.specs.Prelude.{◌≡◌, option_map};
ghost use Rattle.oxt_enum_checks.specs.Around.{around_view, enum_in, symbol_of_name, within};
ghost use Rattle.oxt_tree.specs.View.{doc_or_nil, docs_in};

use oxt_grammar::field::Field;
use oxt_grammar::kind::Kind;
use oxt_names::ids::{ScopeId, SymbolId};
use oxt_names::name::Name;
use oxt_scoping::scoping::Scoping;
use oxt_tree::tree::{Node, Part};

/// An enum around a node.
#[derive(Clone, Copy)]
pub struct EnumAround<'a> {
    /// Its symbol.
    pub symbol: SymbolId,
    /// The scope that declares it.
    pub scope: ScopeId,
    /// Its name.
    pub name: &'a Name,
}

/// The symbol of the enum in which the fields of the node stand, which itself stands in that one.
pub fn within(scoping: &Scoping, node: &Node, around: Option<SymbolId>) -> Option<SymbolId>
    ensures { result ≡ within scoping.now node.now.kind (docs_in node.now.parts.items) around }
{
    if node.kind.is(Kind::TSEnumDeclaration) {
        symbol_of_name(scoping, node.field(Field::Id))
    } else {
        around
    }
}

/// The symbol that the node there names.
fn symbol_of_name(scoping: &Scoping, name: Option<&Part>) -> Option<SymbolId>
    ensures { result ≡ symbol_of_name scoping.now (doc_or_nil name.entry) }
{
    match name {
        Some(Part::Node(node)) => scoping.symbol_of(node.id),
        _ => None,
    }
}

/// The enum of the symbol.
pub fn enum_of<'a>(scoping: &'a Scoping, symbol: Option<SymbolId>) -> Option<EnumAround<'a>>
    ensures { option_map around_view result ≡ enum_in scoping.now.symbols symbol }
{
    let symbol = symbol?;
    if scoping.has_symbol(symbol) {
        Some(EnumAround {
            symbol,
            scope: scoping.symbol_scope_id(symbol),
            name: scoping.symbol_name(symbol),
        })
    } else {
        None
    }
}
