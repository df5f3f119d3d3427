//! What is known of a block of an enum.
ghost use Rattle.std.specs.Prelude.{◌<◌, IfOk, IfSome, length};

use crate::syntax::any_call;
use oxt_ctx::context::TraverseCtx;
use oxt_declares::names::{field_within, list_within};
use oxt_grammar::field::Field;
use oxt_names::ids::{NodeId, OutOfMemory, ScopeId, SymbolId};
use oxt_names::name::Name;
use oxt_scoping::scoping::Scoping;
use oxt_tree::tree::{Node, Part};
use std::alloc::Global;

/// What is known of a block of an enum.
#[derive(Drop)]
pub struct BlockFacts {
    /// How the enum is spelled.
    pub name: Name,
    /// Its symbol.
    pub symbol: Option<SymbolId>,
    /// Whether nothing of its name emits code before the block.
    pub is_first: bool,
    /// Whether it is declared by `let`: where it is exported, or not declared by the program.
    pub is_let: bool,
    /// Whether its call is pure: where no initializer of a member is itself a call or `new`.
    pub is_pure: bool,
}

impl BlockFacts {
    /// What is known of the block.
    pub fn of(
        declaration: &Node,
        is_exported: bool,
        ctx: &TraverseCtx,
    ) -> Result<BlockFacts, OutOfMemory>
        ensures live { IfOk result (λ block. IfSome block.symbol
            (λ enum. enum.0 < length ctx.now.scoping.symbols)) }
    {
        let name = name_of(declaration)?;
        let symbol = symbol_of(&ctx.scoping, declaration);
        Ok(BlockFacts {
            name,
            symbol,
            is_first: ctx.plan.is_first(declaration.id),
            is_let: is_exported || !is_top(&ctx.scoping, symbol),
            is_pure: !any_call(list_within(declaration, Field::Body, Field::Members)),
        })
    }
}

/// The name of what is declared; the empty one where it has none.
pub fn name_of(declaration: &Node) -> Result<Name, OutOfMemory> {
    let alloc = *declaration.parts.allocator();
    match field_within(declaration, Field::Id, Field::Name) {
        Some(part) => text_of(alloc, part),
        None => Name::new(alloc, ""),
    }
}

/// The text that the part is; the empty one where it is none.
pub fn text_of(alloc: Global, part: &Part) -> Result<Name, OutOfMemory> {
    match part {
        Part::Text(name) => name.share(),
        Part::Word(word) => Name::new(alloc, word.text()),
        _ => Name::new(alloc, ""),
    }
}

/// The symbol of what is declared.
pub fn symbol_of(scoping: &Scoping, declaration: &Node) -> Option<SymbolId>
    ensures live { IfSome result (λ enum. enum.0 < length scoping.now.symbols) }
{
    scoping.symbol_of(number_of(declaration.field(Field::Id)))
}

/// The number of the node, and 0 for anything else.
fn number_of(part: Option<&Part>) -> NodeId {
    match part {
        Some(Part::Node(node)) => node.id,
        _ => NodeId(0),
    }
}

/// The scope in which the enum is declared; the program's where that is not known.
pub fn home_of(scoping: &Scoping, symbol: Option<SymbolId>) -> ScopeId
    requires { IfSome symbol (λ enum. enum.0 < length scoping.now.symbols) }
{
    match symbol {
        Some(symbol) => scoping.symbol_scope_id(symbol),
        None => scoping.root_scope_id(),
    }
}

/// Whether the program itself declares the enum.
fn is_top(scoping: &Scoping, symbol: Option<SymbolId>) -> bool
    requires { IfSome symbol (λ enum. enum.0 < length scoping.now.symbols) }
{
    home_of(scoping, symbol).0 == scoping.root_scope_id().0
}
