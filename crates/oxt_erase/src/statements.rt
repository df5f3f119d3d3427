//! Declarations and class elements that stand for nothing at run time.
ghost use Rattle.std.specs.Prelude.{◌≡◌, filter, not};
ghost use Rattle.oxt_tree.specs.View.{part_doc};
ghost use Rattle.oxt_declares.specs.Dropped.{is_dropped};

use oxt_declares::dropped::part_is_dropped;
use oxt_grammar::kind::Kind;
use oxt_tree::tree::{Node, Part};

/// Drops the elements of a list that stand for nothing at run time.
pub fn drop_erased(parts: &mut Vec<Part>)
    ensures { parts.new.items ≡ filter (λ part. not (is_dropped (part_doc part))) parts.old.items }
{
    parts.retain(|part| !part_is_dropped(part));
}

/// Drops the elements of the class that stand for nothing at run time.
pub fn drop_elements(class: &mut Node) {
    for part in class.parts.iter_mut() {
        drop_in_body(part);
    }
}

/// Does so where the part is the body of a class.
fn drop_in_body(part: &mut Part) {
    if let Part::Node(node) = part {
        if node.kind.is(Kind::ClassBody) {
            drop_in_lists(node);
        }
    }
}

/// Drops what stands for nothing of each list that the node holds.
fn drop_in_lists(node: &mut Node) {
    for part in node.parts.iter_mut() {
        drop_in_list(part);
    }
}

/// Does so where the part is a list.
fn drop_in_list(part: &mut Part) {
    if let Part::List(parts) = part {
        drop_erased(parts);
    }
}
