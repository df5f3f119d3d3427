//! The lists of which a plan is made.
ghost use Rattle.std.specs.Prelude.{◌≡◌};
ghost use Rattle.oxt_options.specs.Facts.{no_facts};
ghost use Rattle.oxt_options.specs.Lists.{facts_in};

use crate::metadata::MetadataType;
use oxt_names::constant::ConstantValue;
use oxt_names::ids::NodeId;
use std::alloc::Global;

/// The lists of which a plan is made, in any order.
#[derive(Drop)]
pub struct PlanLists {
    /// Import specifiers, `import =` and export specifiers that are kept.
    pub kept: Vec<NodeId>,
    /// Blocks of an enum or a namespace before which nothing of the name emits code.
    pub first: Vec<NodeId>,
    /// Blocks of enums that are dropped.
    pub dropped: Vec<NodeId>,
    /// Expressions that are inlined, with their constants.
    pub inlined: Vec<(NodeId, ConstantValue)>,
    /// References to names that nothing writes to.
    pub never_written: Vec<NodeId>,
    /// References that are read as the alias of a decorated class, with the class.
    pub aliases: Vec<(NodeId, NodeId)>,
    /// Type annotations of which metadata tells, with what it writes for them.
    pub metadata: Vec<(NodeId, MetadataType)>,
    /// The first names of the dotted names that it writes, with the class whose metadata that is.
    pub written: Vec<(NodeId, NodeId)>,
}

impl PlanLists {
    /// Empty lists.
    pub fn empty(alloc: Global) -> PlanLists
        ensures { facts_in result ≡ no_facts }
    {
        PlanLists {
            kept: Vec::new(alloc),
            first: Vec::new(alloc),
            dropped: Vec::new(alloc),
            inlined: Vec::new(alloc),
            never_written: Vec::new(alloc),
            aliases: Vec::new(alloc),
            metadata: Vec::new(alloc),
            written: Vec::new(alloc),
        }
    }
}
