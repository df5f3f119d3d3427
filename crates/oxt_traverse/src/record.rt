//! What is recorded of a node while its parts are walked.
ghost use Rattle.std.specs.Prelude.{◌≡◌, ◌<◌, IfOk, IfSome, OnErr, OnOk, Some, drop, length, option_map, slice_get};
ghost use Rattle.oxt_scoping.specs.Scoped.{at_node};
ghost use Rattle.oxt_tree.specs.Fields.{text_in};
ghost use Rattle.oxt_names.specs.Names.{name_bytes};
ghost use Rattle.oxt_tree.specs.View.{docs_in, part_doc};
ghost use Rattle.oxt_traverse.specs.Class.{bound_name, class_name};

use oxt_ctx::ancestor::AncestorRecord;
use oxt_ctx::context::TraverseCtx;
use oxt_grammar::field::Field;
use oxt_grammar::kind::Kind;
use oxt_names::ids::OutOfMemory;
use oxt_names::name::Name;
use oxt_tree::tree::{Node, Part};
use std::alloc::Global;

/// The record of the node as it stands.
fn record_of(node: &Node, ctx: &TraverseCtx) -> Result<AncestorRecord, OutOfMemory>
    ensures kind { IfOk result (λ made. made.kind ≡ node.now.kind) }
    ensures number { IfOk result (λ made. made.node ≡ node.now.id) }
    ensures scope { IfOk result (λ made. made.scope ≡ at_node node.now.id ctx.now.scoping.opened) }
    ensures live { IfOk result
        (λ made. IfSome made.scope (λ scope. scope.0 < length ctx.now.scoping.scopes)) }
    ensures name { IfOk result (λ made. option_map name_bytes made.class_name
        ≡ class_name node.now.kind (docs_in node.now.parts.items)) }
{
    let class_name = class_name(node)?;
    Ok(AncestorRecord {
        kind: node.kind,
        node: node.id,
        scope: ctx.scoping.scope_of(node.id),
        class_name,
    })
}

/// Goes into the node: it is recorded as it stands, with the scope that it opens and its name if it is a
/// class.
///
/// # Errors
///
/// `OutOfMemory` for want of memory alone; the context is then as it was.
pub fn go_into(node: &Node, ctx: &mut TraverseCtx) -> Result<(), OutOfMemory>
    ensures kind { OnOk result
        (option_map (λ made. made.kind) (slice_get ctx.new.ancestors 0) ≡ Some node.now.kind) }
    ensures number { OnOk result
        (option_map (λ made. made.node) (slice_get ctx.new.ancestors 0) ≡ Some node.now.id) }
    ensures scope { OnOk result (option_map (λ made. made.scope) (slice_get ctx.new.ancestors 0)
        ≡ Some (at_node node.now.id ctx.old.scoping.opened)) }
    ensures name { OnOk result
        (option_map (λ made. option_map name_bytes made.class_name) (slice_get ctx.new.ancestors 0)
        ≡ Some (class_name node.now.kind (docs_in node.now.parts.items))) }
    ensures around { OnOk result (drop 1 ctx.new.ancestors ≡ ctx.old.ancestors) }
    ensures rest { ctx.new ≡ record ctx.old { ancestors = ctx.new.ancestors } }
    ensures kept { OnErr result (ctx.new ≡ ctx.old) }
{
    let record = record_of(node, ctx)?;
    ctx.push_ancestor(record)
}

/// Leaves the node that was gone into last.
pub fn go_out(ctx: &mut TraverseCtx)
    ensures left { ctx.new ≡ record ctx.old { ancestors = drop 1 ctx.old.ancestors } }
{
    ctx.pop_ancestor();
}

/// The name of a class; none of another node.
fn class_name(node: &Node) -> Result<Option<Name>, OutOfMemory>
    ensures { IfOk result (λ name. option_map name_bytes name
        ≡ class_name node.now.kind (docs_in node.now.parts.items)) }
{
    if node.kind.is(Kind::ClassDeclaration) || node.kind.is(Kind::ClassExpression) {
        match node.field(Field::Id) {
            Some(binding) => bound_name(binding),
            None => Ok(None),
        }
    } else {
        Ok(None)
    }
}

/// The name that a binding binds; none of another part.
fn bound_name(part: &Part) -> Result<Option<Name>, OutOfMemory>
    ensures { IfOk result (λ name. option_map name_bytes name ≡ bound_name (part_doc part.now)) }
{
    match part {
        Part::Node(binding) => match binding.field(Field::Name) {
            Some(name) => text_of(*binding.parts.allocator(), name),
            None => Ok(None),
        },
        _ => Ok(None),
    }
}

/// The text that the part is, if it is one.
fn text_of(alloc: Global, part: &Part) -> Result<Option<Name>, OutOfMemory>
    ensures { IfOk result (λ name. option_map name_bytes name ≡ text_in (part_doc part.now)) }
{
    match part {
        Part::Text(name) => Ok(Some(name.share()?)),
        Part::Word(word) => Ok(Some(Name::new(alloc, word.text())?)),
        _ => Ok(None),
    }
}
