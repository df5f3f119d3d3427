//! The scopes of a tree.
ghost use Rattle.std.specs.Prelude.{◌≡◌, IfOk};
ghost use Rattle.oxt_tree.specs.View.{node_doc};
ghost use Rattle.oxt_scopes.specs.Nestings.{scopes_of};
ghost use Rattle.oxt_scopes.specs.Views.{opened_views};

use crate::standing::Standing;
use crate::walk::walked_of;
use oxt_declares::declaration::Declaration;
use oxt_declares::role::Role;
use oxt_names::ids::{NodeId, OutOfMemory};
use oxt_tree::tree::Node;
use std::alloc::Global;

/// A scope.
#[derive(Drop)]
pub struct OpenedScope<'a> {
    /// The number of the node that opens it; that of its body, of a block of an enum.
    pub number: NodeId,
    /// The number of the scope around it; none for the program.
    pub parent: Option<NodeId>,
    /// What the node is that opens it.
    pub role: Role,
    /// The standing of the node that opens it.
    pub standing: Standing,
    /// What it declares, in the order of the text.
    pub declarations: Vec<Declaration<'a>>,
}

/// The scopes of the tree, in the order of the text, each in front of those in it. `legacy` says whether decorators have
/// their older meaning.
///
/// # Errors
///
/// Fails only where memory runs out.
pub fn scopes_of<'a>(
    alloc: Global,
    program: &'a Node,
    legacy: bool,
) -> Result<Vec<OpenedScope<'a>>, OutOfMemory>
    ensures { IfOk result (λ v. opened_views v.items ≡ scopes_of legacy (node_doc program.now)) }
{
    let walked = walked_of(alloc, program, legacy)?;
    Ok(walked.scopes)
}
