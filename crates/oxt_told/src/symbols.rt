//! The symbols that nodes declare, and their groups.
ghost use Rattle.std.specs.Prelude.{◌≡◌, ◌<◌, IfSome, Some, length, option_map, slice_get};
ghost use Rattle.oxt_told.specs.Source.{around, around_view};
ghost use Rattle.oxt_told.specs.Symbols.{first_node, group_of, named_symbol};
ghost use Rattle.oxt_tree.specs.View.{docs_in};
ghost use Rattle.oxt_scoping.specs.Meant.{declared_symbol, symbol_in as symbol_by};

use crate::members::EnumAround;
use oxt_grammar::field::Field;
use oxt_names::ids::{NodeId, SymbolId};
use oxt_scoping::entry::Redeclaration;
use oxt_scoping::scoping::Scoping;
use oxt_tree::tree::{Node, Part};

/// The symbol of the name that the declaration has.
pub fn named_symbol(scoping: &Scoping, node: &Node) -> Option<SymbolId>
    ensures live { IfSome result (λ symbol. symbol.0 < length scoping.now.symbols) }
    ensures symbol { symbol_by scoping.now.symbols result
        ≡ named_symbol scoping.now node.now.kind (docs_in node.now.parts.items) }
{
    match node.field(Field::Id) {
        Some(Part::Node(id)) => scoping.symbol_of(id.id),
        _ => None,
    }
}

/// The enum of that symbol around its block of that number.
pub fn around(scoping: &Scoping, symbol: SymbolId, block: NodeId) -> EnumAround<'_>
    requires { symbol.0 < length scoping.now.symbols }
    ensures { option_map (λ y. around y block.0) (slice_get scoping.now.symbols symbol.0)
        ≡ Some (around_view result) }
{
    EnumAround {
        name: scoping.symbol_name(symbol),
        group: group_of(scoping, symbol),
        block: block.0,
    }
}

/// The number of the first node that declares the symbol, by which its group goes.
pub fn group_of(scoping: &Scoping, symbol: SymbolId) -> Option<u64>
    requires { symbol.0 < length scoping.now.symbols }
    ensures { option_map (λ y. first_node y.declarations) (slice_get scoping.now.symbols symbol.0) ≡ Some result }
{
    first_node(scoping.symbol_redeclarations(symbol))
}

/// The number of the first of the nodes that declare a name.
fn first_node(declarations: &[Redeclaration]) -> Option<u64>
    ensures { result ≡ first_node declarations.now }
{
    match declarations.first() {
        Some(declaration) => Some(declaration.node.0),
        None => None,
    }
}

/// The group that the node declares.
#[tactic(auto, using(crate::proofs::Grouped::group_found, crate::proofs::Grouped::no_group))]
pub fn declared_group(scoping: &Scoping, node: NodeId) -> Option<u64>
    ensures { result ≡ group_of (declared_symbol scoping.now node.0) }
{
    match scoping.symbol_of(node) {
        Some(symbol) => group_of(scoping, symbol),
        None => None,
    }
}
