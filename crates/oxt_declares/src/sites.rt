//! The outermost enums of a program.
ghost use Rattle.std.specs.Prelude.{◌≡◌, IfOk, map};
ghost use Rattle.oxt_declares.specs.DocSet.{doc_lists_prop};
ghost use Rattle.oxt_declares.specs.Sites.{enum_sites};
ghost use Rattle.oxt_tree.specs.View.{node_doc};

use crate::find::find_sites;
use oxt_names::ids::OutOfMemory;
use oxt_tree::tree::Node;
use std::alloc::Global;

/// The outermost enums, enum bodies and enum members of a program outside what is erased, in the order of the text.
#[derive(Drop)]
pub struct EnumSites<'a> {
    /// The program.
    pub program: &'a Node,
    /// Whether decorators have TypeScript's older meaning.
    pub legacy: bool,
    /// The nodes.
    pub nodes: Vec<&'a Node>,
    ghost complete: { map (λ site. node_doc site.now) nodes.items ≡ enum_sites legacy (node_doc program.now) } by { doc_lists_prop },
}

impl<'a> EnumSites<'a> {
    /// Those of the program.
    ///
    /// # Errors
    ///
    /// Fails only where memory runs out.
    pub fn of(alloc: Global, program: &'a Node, legacy: bool) -> Result<EnumSites<'a>, OutOfMemory>
        ensures whole { IfOk result (λ sites. node_doc sites.program.now ≡ node_doc program.now) }
        ensures older { IfOk result (λ sites. sites.legacy ≡ legacy) }
    {
        let nodes = find_sites(alloc, program, legacy)?;
        Ok(EnumSites {
            program,
            legacy,
            nodes,
        })
    }

    /// The nodes.
    pub fn as_slice(&self) -> &[&'a Node]
        ensures { map (λ site. node_doc site.now) result.now
            ≡ enum_sites self.now.legacy (node_doc self.now.program.now) }
    {
        self.nodes.as_slice()
    }
}
