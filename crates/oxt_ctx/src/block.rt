//! Static blocks that are made.
ghost use Rattle.std.specs.Prelude.{◌≡◌, ◌+◌, ◌<◌, IfOk, OnOk, length};
ghost use Rattle.oxt_ctx.specs.Block.{block_flags, class_scope, static_block, with_block};
ghost use Rattle.oxt_tree.specs.View.{docs_in, node_doc};

use crate::context::TraverseCtx;
use crate::nodes::make;
use bitflags::Flags;
use oxt_grammar::kind::Kind;
use oxt_names::flags::ScopeFlags;
use oxt_names::ids::{NodeId, OutOfMemory, ScopeId};
use oxt_tree::tree::{Node, Part};
use std::vec;

/// A static block of these statements in the class of that number. Where memory runs out, a number may
/// have been used up.
pub fn static_block(
    statements: Vec<Part>,
    class: NodeId,
    ctx: &mut TraverseCtx,
) -> Result<Node, OutOfMemory>
    ensures made { IfOk result (λ made. node_doc made
        ≡ static_block ctx.old.ids.next (docs_in statements.items)) }
    ensures entered { OnOk result (ctx.new ≡ with_block class ctx.old) }
    ensures declarations { ctx.new.declarations ≡ ctx.old.declarations }
    ensures ancestors { ctx.new.ancestors ≡ ctx.old.ancestors }
{
    let alloc = ctx.memory();
    let parts = vec![in alloc; Part::List(statements)]?;
    let block = make(Kind::StaticBlock, parts, &mut ctx.ids)?;
    let around = scope_of_class(class, ctx);
    ctx.scoping.open_scope(block.id, around, block_flags())?;
    Ok(block)
}

/// The flags of the scope of a static block, which is always strict.
fn block_flags() -> ScopeFlags
    ensures { result ≡ block_flags }
{
    ScopeFlags::ClassStaticBlock.union(ScopeFlags::StrictMode)
}

/// The scope of the class of that number; the current one where it opens none.
pub fn scope_of_class(class: NodeId, ctx: &TraverseCtx) -> ScopeId
    ensures scope { result ≡ class_scope class ctx.now }
    ensures live { result.0 < length ctx.now.scoping.scopes }
{
    match ctx.scoping.scope_of(class) {
        Some(scope) => scope,
        None => ctx.current_scope_id(),
    }
}
