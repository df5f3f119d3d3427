//! Names that may be bound.
ghost use Rattle.std.specs.Prelude.{◌≡◌, ◌<◌, IfOk, IfSome, OnErr, OnOk, codes, length};
ghost use Rattle.oxt_tree.specs.Fields.{text_in};
ghost use Rattle.oxt_names.specs.Names.{name_bytes};
ghost use Rattle.oxt_tree.specs.View.{field_in, node_doc};
ghost use Rattle.oxt_ctx.specs.Made.{reference, with_use};
ghost use Rattle.oxt_ctx.specs.Meant.{or_empty, symbol_meant};

use crate::context::TraverseCtx;
use oxt_grammar::field::Field;
use oxt_names::flags::ReferenceFlags;
use oxt_names::ids::{NodeId, OutOfMemory, SymbolId};
use oxt_names::name::Name;
use oxt_scoping::scoping::Scoping;
use oxt_tree::tree::{Node, Part};
use std::alloc::Global;

/// A name, and the symbol that it is bound to, if any.
#[derive(Drop)]
pub struct MaybeBoundIdentifier {
    /// How it is spelled.
    pub name: Name,
    /// What it is bound to; none where it is free.
    pub symbol_id: Option<SymbolId>,
}

impl MaybeBoundIdentifier {
    /// The name that the node uses, and the symbol that it means there. A node without a name has the
    /// empty one.
    pub fn from_identifier_reference(
        ident: &Node,
        ctx: &TraverseCtx,
    ) -> Result<MaybeBoundIdentifier, OutOfMemory>
        ensures name { IfOk result (λ made. name_bytes made.name
            ≡ or_empty (text_in (field_in (codes "name") ident.now))) }
        ensures meaning { IfOk result (λ made. made.symbol_id ≡ symbol_meant ident.now.id ctx.now.scoping) }
        ensures live { IfOk result (λ made. IfSome made.symbol_id
            (λ meant. meant.0 < length ctx.now.scoping.symbols)) }
    {
        let name = name_of(ctx.memory(), ident)?;
        Ok(MaybeBoundIdentifier {
            name,
            symbol_id: symbol_meant(&ctx.scoping, ident.id),
        })
    }

    /// Makes a use of the name.
    pub fn create_expression(
        &self,
        flags: ReferenceFlags,
        ctx: &mut TraverseCtx,
    ) -> Result<Node, OutOfMemory>
        requires { IfSome self.now.symbol_id (λ meant. meant.0 < length ctx.old.scoping.symbols) }
        ensures made { IfOk result (λ made. node_doc made
            ≡ reference ctx.old.ids.next (name_bytes self.now.name)) }
        ensures entered { OnOk result (ctx.new ≡ with_use self.now.symbol_id flags ctx.old) }
        ensures symbols_stay { length ctx.new.scoping.symbols ≡ length ctx.old.scoping.symbols }
        ensures kept { OnErr result (ctx.new ≡ ctx.old) }
    {
        ctx.create_ident_expr(&self.name, self.symbol_id, flags)
    }
}

/// The name that the node is.
fn name_of(alloc: Global, ident: &Node) -> Result<Name, OutOfMemory>
    ensures { IfOk result (λ name. name_bytes name
        ≡ or_empty (text_in (field_in (codes "name") ident.now))) }
{
    match ident.field(Field::Name) {
        Some(Part::Text(name)) => name.share(),
        Some(Part::Word(word)) => Name::new(alloc, word.text()),
        _ => Name::new(alloc, ""),
    }
}

/// The symbol that the reference of the node means, where it has one that means a symbol of the table.
fn symbol_meant(scoping: &Scoping, node: NodeId) -> Option<SymbolId>
    ensures meant { result ≡ symbol_meant node scoping.now }
    ensures live { IfSome result (λ meant. meant.0 < length scoping.now.symbols) }
{
    let symbol = scoping.meaning_of(node)?;
    if scoping.has_symbol(symbol) {
        Some(symbol)
    } else {
        None
    }
}
