//! Copies of nodes.
ghost use Rattle.std.specs.Prelude.{◌≡◌, ◌+◌, ◌≤◌, IfOk, OnOk};
ghost use Rattle.std.specs.List.{range_with_len};
ghost use Rattle.oxt_tree.specs.Copies.{renumbered, each_renumbered, node_count, total_count, numbers_in};
ghost use Rattle.oxt_tree.specs.View.{docs_in, node_doc, part_doc};

use crate::tree::{Node, Part};
use oxt_names::ids::{NodeIds, OutOfMemory};
use std::alloc::Global;

impl Node {
    /// A copy with fresh numbers. Refused for want of memory or of numbers, some of which may then
    /// be used up.
    pub fn clone_node(&self, alloc: Global, ids: &mut NodeIds) -> Result<Node, OutOfMemory>
        ensures copied { IfOk result
            (λ copy. node_doc copy ≡ renumbered (node_doc self.now) ids.old.next) }
        ensures numbered { IfOk result
            (λ copy. numbers_in (node_doc copy)
            ≡ range_with_len ids.old.next (node_count (node_doc self.now))) }
        ensures used { OnOk result (ids.new.next ≡ ids.old.next + node_count (node_doc self.now)) }
        ensures risen { ids.old.next ≤ ids.new.next }
    {
        copy_node(alloc, self, ids)
    }
}

/// A copy of the node and its parts, with fresh numbers.
#[cycle(copy)]
fn copy_node(alloc: Global, node: &Node, ids: &mut NodeIds) -> Result<Node, OutOfMemory>
    ensures copied { IfOk result
        (λ copy. node_doc copy ≡ renumbered (node_doc node.now) ids.old.next) }
    ensures used { OnOk result (ids.new.next ≡ ids.old.next + node_count (node_doc node.now)) }
    ensures risen { ids.old.next ≤ ids.new.next }
{
    let id = ids.fresh()?;
    Ok(Node {
        kind: node.kind,
        id,
        span: node.span,
        parts: copy_parts(alloc, &node.parts, ids)?,
    })
}

/// A copy of the part, whose nodes get fresh numbers.
#[cycle(copy)]
fn copy_part(alloc: Global, part: &Part, ids: &mut NodeIds) -> Result<Part, OutOfMemory>
    ensures copied { IfOk result
        (λ copy. part_doc copy ≡ renumbered (part_doc part.now) ids.old.next) }
    ensures used { OnOk result (ids.new.next ≡ ids.old.next + node_count (part_doc part.now)) }
    ensures risen { ids.old.next ≤ ids.new.next }
{
    match part {
        Part::Nothing => Ok(Part::Nothing),
        Part::Flag(flag) => Ok(Part::Flag(*flag)),
        Part::Number(number) => Ok(Part::Number(*number)),
        Part::Text(name) => Ok(Part::Text(name.share()?)),
        Part::Word(word) => Ok(Part::Word(*word)),
        Part::Node(node) => Ok(Part::Node(copy_node(alloc, node, ids)?)),
        Part::List(parts) => Ok(Part::List(copy_parts(alloc, parts, ids)?)),
    }
}

/// Copies of the parts, whose nodes get fresh numbers.
#[cycle(copy)]
#[tactic(auto, using(crate::proofs::CopyLoop::copy_steps))]
fn copy_parts(alloc: Global, parts: &[Part], ids: &mut NodeIds) -> Result<Vec<Part>, OutOfMemory>
    ensures copied { IfOk result
        (λ copies. docs_in copies.items ≡ each_renumbered (docs_in parts.now) ids.old.next) }
    ensures used { OnOk result (ids.new.next ≡ ids.old.next + total_count (docs_in parts.now)) }
    ensures risen { ids.old.next ≤ ids.new.next }
{
    let mut copies = Vec::with_capacity(alloc, parts.len())?;
    for part in parts {
        copies.push(copy_part(alloc, part, ids)?)?;
    }
    Ok(copies)
}
