//! The block of an enum, and what stands in its place.
ghost use Rattle.std.specs.Prelude.{◌≡◌, ◌<◌, IfSome, OnOk, length};
ghost use Rattle.oxt_lower.specs.Context.{but_table_of};

use crate::facts::{BlockFacts, home_of};
use crate::function::block_call;
use crate::members::{Taken, members_in, take_members};
use crate::rename::IdentifierReferenceRename;
use oxt_ctx::context::TraverseCtx;
use oxt_ctx::nodes::{assignment, declaration, statement};
use oxt_grammar::word::Word;
use oxt_names::flags::ReferenceFlags;
use oxt_names::ids::OutOfMemory;
use oxt_tree::tree::Node;
use std::alloc::Global;

/// What stands in the place of the block, which is no longer used.
pub fn lower_block(
    block: &mut Node,
    is_exported: bool,
    ctx: &mut TraverseCtx,
) -> Result<Node, OutOfMemory>
    ensures frame { OnOk result (ctx.new ≡ but_table_of ctx.old ctx.new) }
{
    let alloc = *block.parts.allocator();
    let facts = BlockFacts::of(block, is_exported, ctx)?;
    let taken = members_of(alloc, block, &facts, ctx)?;
    block_statement(alloc, &facts, taken, ctx)
}

/// Takes the members of the block.
fn members_of(
    alloc: Global,
    block: &mut Node,
    facts: &BlockFacts,
    ctx: &mut TraverseCtx,
) -> Result<Taken, OutOfMemory>
    requires { IfSome facts.now.symbol (λ enum. enum.0 < length ctx.old.scoping.symbols) }
    ensures frame { OnOk result (ctx.new ≡ but_table_of ctx.old ctx.new) }
    ensures symbols_stay { OnOk result
        (length ctx.new.scoping.symbols ≡ length ctx.old.scoping.symbols) }
{
    let mut parts = take_members(block);
    let home = home_of(&ctx.scoping, facts.symbol);
    let mut renames = IdentifierReferenceRename::new(alloc, &facts.name, home, ctx);
    let members = members_in(alloc, &mut renames, &mut parts)?;
    let IdentifierReferenceRename { ids, made, .. } = renames;
    ctx.ids = ids;
    Ok(Taken {
        members,
        uses: made,
    })
}

/// What stands in the place of a block with these members.
fn block_statement(
    alloc: Global,
    block: &BlockFacts,
    taken: Taken,
    ctx: &mut TraverseCtx,
) -> Result<Node, OutOfMemory>
    requires { IfSome block.now.symbol (λ enum. enum.0 < length ctx.old.scoping.symbols) }
    ensures frame { OnOk result (ctx.new ≡ but_table_of ctx.old ctx.new) }
{
    let call = block_call(alloc, block, taken, ctx)?;
    enum_statement(alloc, block, call, ctx)
}

/// The statement that gives the enum that value: the first block of an enum declares it.
fn enum_statement(
    alloc: Global,
    block: &BlockFacts,
    value: Node,
    ctx: &mut TraverseCtx,
) -> Result<Node, OutOfMemory>
    requires { IfSome block.now.symbol (λ enum. enum.0 < length ctx.old.scoping.symbols) }
    ensures frame { OnOk result (ctx.new ≡ but_table_of ctx.old ctx.new) }
{
    if block.is_first {
        let keyword = if block.is_let { Word::Let } else { Word::Var };
        declaration(alloc, keyword, &block.name, Some(value), &mut ctx.ids)
    } else {
        enum_assignment(alloc, block, value, ctx)
    }
}

/// `E = value;`.
fn enum_assignment(
    alloc: Global,
    block: &BlockFacts,
    value: Node,
    ctx: &mut TraverseCtx,
) -> Result<Node, OutOfMemory>
    requires { IfSome block.now.symbol (λ enum. enum.0 < length ctx.old.scoping.symbols) }
    ensures frame { OnOk result (ctx.new ≡ but_table_of ctx.old ctx.new) }
{
    let target = ctx.create_ident_expr(&block.name, block.symbol, ReferenceFlags::Write)?;
    let put = assignment(alloc, target, value, &mut ctx.ids)?;
    statement(alloc, put, &mut ctx.ids)
}
