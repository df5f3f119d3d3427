//! Calls of helpers.
ghost use Rattle.std.specs.Prelude.{◌≡◌, IfOk, None, OnOk, map};
ghost use Rattle.oxt_ctx.specs.Helper.{helper_call, helper_name};
ghost use Rattle.oxt_ctx.specs.Made.{with_ids, with_use};
ghost use Rattle.oxt_names.specs.contracts.flags.ReferenceFlags;
ghost use Rattle.oxt_tree.specs.Doc.{docs_of};
ghost use Rattle.oxt_tree.specs.View.{docs_in, node_doc};

use crate::context::TraverseCtx;
use crate::nodes::{call, member, property_name};
use oxt_names::flags::ReferenceFlags;
use oxt_names::ids::OutOfMemory;
use oxt_names::name::Name;
use oxt_tree::tree::{Node, Part};
use std::alloc::Global;

/// A helper that runs with the code, a member of `babelHelpers`.
#[derive(Clone, Copy)]
pub enum Helper {
    /// Applies decorators to a class or to an element of it.
    Decorate,
    /// Makes a decorator of one of a parameter.
    DecorateParam,
    /// Makes a decorator that keeps a type.
    DecorateMetadata,
}

impl Helper {
    /// How it is called.
    pub fn name(self) -> &'static str
        ensures { result.now ≡ helper_name self }
    {
        match self {
            Helper::Decorate => "decorate",
            Helper::DecorateParam => "decorateParam",
            Helper::DecorateMetadata => "decorateMetadata",
        }
    }
}

/// The call of the helper with these arguments. The name `babelHelpers` is free. Where memory runs out, a
/// name and numbers may have been used up.
pub fn helper_call_expr(
    helper: Helper,
    arguments: Vec<Node>,
    ctx: &mut TraverseCtx,
) -> Result<Node, OutOfMemory>
    ensures made { IfOk result (λ made. node_doc made
        ≡ helper_call ctx.old.ids.next (helper_name helper) (docs_of (map node_doc arguments.items))) }
    ensures entered { OnOk result (ctx.new ≡ with_ids 3 (with_use None ReferenceFlags.Read ctx.old)) }
    ensures declarations { ctx.new.declarations ≡ ctx.old.declarations }
    ensures ancestors { ctx.new.ancestors ≡ ctx.old.ancestors }
{
    let alloc = ctx.memory();
    let helpers = ctx.create_unbound_ident_expr("babelHelpers", ReferenceFlags::Read)?;
    let name = Name::new(alloc, helper.name())?;
    let property = property_name(alloc, &name, &mut ctx.ids)?;
    let callee = member(alloc, helpers, property, &mut ctx.ids)?;
    call(alloc, callee, as_parts(alloc, arguments)?, &mut ctx.ids)
}

/// The nodes as parts.
fn as_parts(alloc: Global, nodes: Vec<Node>) -> Result<Vec<Part>, OutOfMemory>
    ensures { IfOk result (λ parts. docs_in parts.items ≡ docs_of (map node_doc nodes.items)) }
{
    let mut parts = Vec::with_capacity(alloc, nodes.len())?;
    for node in nodes {
        parts.push(Part::Node(node))?;
    }
    Ok(parts)
}
