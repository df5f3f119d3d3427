//! The owners of the names of a tree.
ghost use Rattle.std.specs.Prelude.{◌≡◌, IfOk};
ghost use Rattle.oxt_tree.specs.View.{docs_in, node_doc};
ghost use Rattle.oxt_declares.specs.RoleOf.{role_of};
ghost use Rattle.oxt_scopes.specs.OwnedViews.{owned_views};
ghost use Rattle.oxt_scopes.specs.Owners.{is_marked, owners_of, read};

use crate::usage::Usage;
use crate::walk::walked_of;
use crate::way::{Pass, Reading, Way};
use oxt_declares::role::Role;
use oxt_declares::role_of::role_of;
use oxt_grammar::field::Field;
use oxt_names::ids::{NodeId, OutOfMemory};
use oxt_tree::tree::Node;
use std::alloc::Global;

/// A name that is used, and its owner.
#[derive(Clone, Copy)]
pub struct OwnedName<'a> {
    /// The number of the node that is the name.
    pub node: NodeId,
    /// Its spelling.
    pub name: &'a str,
    /// The number of the node that opens the scope of the name's group; none where it is free.
    pub owner: Option<NodeId>,
    /// How the name is used.
    pub usage: Usage,
}

/// The names that the tree uses, in the order of the text, each with its owner.
///
/// # Errors
///
/// Fails only where memory runs out.
pub fn owners_of<'a>(alloc: Global, program: &'a Node) -> Result<Vec<OwnedName<'a>>, OutOfMemory>
    ensures { IfOk result (λ v. owned_views v.items ≡ owners_of (node_doc program.now)) }
{
    let walked = walked_of(alloc, program, false)?;
    Ok(walked.names)
}

/// How the fields of the node are read that is itself read that way.
#[inline(always)]
pub fn reading_of(node: &Node, way: Way) -> Reading
    ensures { result ≡ read (role_of node.now.kind) way node.now.kind (docs_in node.now.parts.items) }
{
    let role = role_of(node.kind);
    Reading {
        pass: Pass::Here,
        role,
        way,
        is_marked: is_marked(role, node),
    }
}

/// Whether the node is an import or an export of types alone, or an assignment by `=`.
fn is_marked(role: Role, node: &Node) -> bool
    ensures { result ≡ is_marked role node.now.kind (docs_in node.now.parts.items) }
{
    match role {
        Role::ExportList => node.is_type_only(),
        Role::Specifier => node.is_type_only(),
        Role::ImportEquals => node.is_type_only(),
        Role::Assignment => node.holds_text(Field::Operator, "="),
        _ => false,
    }
}
