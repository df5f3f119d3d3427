//! The nodes around the one that is being visited.

use oxt_grammar::kind::Kind;
use oxt_names::ids::{NodeId, ScopeId};
use oxt_names::name::Name;

/// What is known of a node around the one that is being visited.
#[derive(Drop)]
pub struct AncestorRecord {
    /// What the node is.
    pub kind: Kind,
    /// Its number.
    pub node: NodeId,
    /// The scope that it opens.
    pub scope: Option<ScopeId>,
    /// The name of a class, as it stood when the walk went into it; none of a nameless class and of
    /// any other node.
    pub class_name: Option<Name>,
}
