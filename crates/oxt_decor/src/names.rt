//! Names that are kept over several hooks, and the scopes of classes.
ghost use Rattle.std.specs.Prelude.{◌≡◌, ◌<◌, IfSome, OnOk, length};
ghost use Rattle.oxt_stores.specs.Frame.{frames};

use oxt_ctx::block::scope_of_class;
use oxt_ctx::context::TraverseCtx;
use oxt_ctx::maybe::MaybeBoundIdentifier;
use oxt_grammar::field::Field;
use oxt_names::flags::{ReferenceFlags, SymbolFlags};
use oxt_names::ids::{NodeId, OutOfMemory, ScopeId, SymbolId};
use oxt_names::name::Name;
use oxt_scoping::scoping::Scoping;
use oxt_tree::tree::{Node, Part};
use std::alloc::Global;

/// The name that the class has, if it has one.
pub fn name_of_class(
    alloc: Global,
    class: &Node,
    scoping: &Scoping,
) -> Result<Option<MaybeBoundIdentifier>, OutOfMemory> {
    match class.child(Field::Id) {
        Some(binding) => Ok(Some(MaybeBoundIdentifier {
            name: text_of(alloc, binding)?,
            symbol_id: scoping.symbol_of(binding.id),
        })),
        None => Ok(None),
    }
}

/// The text of a node that is a name; the empty one of another.
pub fn text_of(alloc: Global, node: &Node) -> Result<Name, OutOfMemory> {
    match node.field(Field::Name) {
        Some(Part::Text(name)) => name.share(),
        _ => Name::new(alloc, ""),
    }
}

/// The same name once more.
pub fn shared(name: &MaybeBoundIdentifier) -> Result<MaybeBoundIdentifier, OutOfMemory> {
    Ok(MaybeBoundIdentifier {
        name: name.name.share()?,
        symbol_id: name.symbol_id,
    })
}

/// Makes a use of the name.
pub fn use_of(
    name: &MaybeBoundIdentifier,
    flags: ReferenceFlags,
    ctx: &mut TraverseCtx,
) -> Result<Node, OutOfMemory>
    ensures around { OnOk result (ctx.new.ancestors ≡ ctx.old.ancestors) }
    ensures depth { OnOk result
        (length (frames ctx.new.declarations) ≡ length (frames ctx.old.declarations)) }
{
    let symbol = live_symbol(name.symbol_id, &ctx.scoping);
    ctx.create_ident_expr(&name.name, symbol, flags)
}

/// The symbol, if there is one of the table.
pub fn live_symbol(symbol: Option<SymbolId>, scoping: &Scoping) -> Option<SymbolId>
    ensures live { IfSome result (λ meant. meant.0 < length scoping.now.symbols) }
{
    match symbol {
        Some(symbol) if scoping.has_symbol(symbol) => Some(symbol),
        _ => None,
    }
}

/// Makes a name of the text that is new, for the class of that number: it is bound in the scope of the class where
/// it stands on the class alone, and else around it.
pub fn made_name(
    text: &str,
    class: NodeId,
    is_inner: bool,
    ctx: &mut TraverseCtx,
) -> Result<MaybeBoundIdentifier, OutOfMemory>
    ensures around { OnOk result (ctx.new.ancestors ≡ ctx.old.ancestors) }
    ensures depth { OnOk result
        (length (frames ctx.new.declarations) ≡ length (frames ctx.old.declarations)) }
{
    let scope = home_of(class, is_inner, ctx);
    let bound = ctx.generate_uid(text, scope, SymbolFlags::Class)?;
    Ok(MaybeBoundIdentifier {
        name: bound.name,
        symbol_id: Some(bound.symbol_id),
    })
}

/// The scope of the class, or the one around it.
fn home_of(class: NodeId, is_inner: bool, ctx: &TraverseCtx) -> ScopeId
    ensures live { result.0 < length ctx.now.scoping.scopes }
{
    if is_inner {
        scope_of_class(class, ctx)
    } else {
        scope_around(class, ctx)
    }
}

/// The scope around that of the class.
fn scope_around(class: NodeId, ctx: &TraverseCtx) -> ScopeId
    ensures live { result.0 < length ctx.now.scoping.scopes }
{
    let scope = scope_of_class(class, ctx);
    match ctx.scoping.scope_parent_id(scope) {
        Some(parent) => parent,
        None => scope,
    }
}
