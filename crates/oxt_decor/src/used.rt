//! The names that are used in the body of a class.
ghost use Rattle.std.specs.Prelude.{◌≡◌, IfOk};
ghost use Rattle.oxt_decor.specs.Named.{names_used};
ghost use Rattle.oxt_tree.specs.View.{node_doc};

use oxt_names::ids::OutOfMemory;
use oxt_tree::tree::Node;
use oxt_visit::visitor::VisitMut;
use oxt_visit::walk::visit_mut;
use std::alloc::Global;

/// A visitor that notes the numbers of the names that are used, and changes none.
#[derive(Drop)]
struct UsedNames {
    numbers: Vec<u64>,
}

impl VisitMut for UsedNames {
    ghost use Rattle.oxt_decor.specs.Named.{as_number, name_noted};
    ghost use Rattle.oxt_tree.specs.Doc.{Doc};
    ghost use Rattle.oxt_visit.specs.Reading.{same_list, same_node, whole};

    ghost Seen = { Doc };

    ghost read = { whole };

    ghost spare = { λ _ k i. 0 };

    ghost log = { λ names. as_number names.numbers.items };

    ghost trace = { name_noted };

    ghost by_fields = { same_node };

    ghost by_elements = { same_list };

    #[tactic(auto, using(crate::proofs::Numbers::one_noted))]
    fn visit_identifier_reference(&mut self, node: &mut Node) -> Result<(), OutOfMemory> {
        self.numbers.push(node.id.0)?;
        Ok(())
    }
}

/// The numbers of the names that are used in the body of a class, in the order of the text. The body is left as it
/// is.
#[tactic(auto, using(crate::proofs::Numbers::all_noted))]
pub fn used_names(alloc: Global, body: &mut Node) -> Result<Vec<u64>, OutOfMemory>
    ensures numbers { IfOk result (λ numbers. numbers.items ≡ names_used (node_doc body.old)) }
{
    let mut names = UsedNames {
        numbers: Vec::new(alloc),
    };
    visit_mut(&mut names, body)?;
    Ok(names.numbers)
}
