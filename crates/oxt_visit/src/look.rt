//! The free walk of a visitor that looks at a tree.
//!
//! Its hook is called for each expression in the order of the text, before its parts. What an expression is follows from the
//! place and the kind together.
ghost use Rattle.std.specs.Prelude.{◌≡◌};
ghost use Rattle.oxt_grammar.specs.Rows.{row_of};
ghost use Rattle.oxt_grammar.specs.declared.category.Category.TheVariants as category;
ghost use Rattle.oxt_tree.specs.View.{docs_in, node_doc, part_doc};
ghost use Rattle.oxt_visit.specs.Calls.{noted};
ghost use Rattle.oxt_visit.specs.Hooks.{expressions};
ghost use Rattle.oxt_visit.specs.Place.{place_of as place_held};
ghost use Rattle.oxt_visit.specs.Visits.{of_field, visits, visits_each, visits_fields, visits_inside};

use crate::place::{is_expression, place_of};
use crate::visitor::VisitJs;
use oxt_grammar::category::Category;
use oxt_grammar::holds::Holds;
use oxt_grammar::kind::Kind;
use oxt_tree::tree::{Node, Part};

/// Looks at the expression, and at what is in it.
pub fn visit_js<V: VisitJs>(visitor: &mut V, root: &Node)
    ensures { V.notes visitor.new ≡ noted V.note (V.notes visitor.old) (visits expressions (node_doc root.now) category.Expression) }
{
    look_at_node(visitor, root, Category::Expression);
}

/// Looks at the node that stands at that place, if it is an expression there, and at what is in it.
#[cycle(look)]
fn look_at_node<V: VisitJs>(visitor: &mut V, node: &Node, place: Category)
    ensures { V.notes visitor.new ≡ noted V.note (V.notes visitor.old) (visits expressions (node_doc node.now) place) }
{
    if is_expression(place, node.kind) {
        visitor.visit_expression(node);
    }
    look_at_fields(visitor, node.kind, &node.parts);
}

/// Looks at what the fields of a node of that kind hold.
#[cycle(look)]
fn look_at_fields<V: VisitJs>(visitor: &mut V, kind: Kind, parts: &[Part])
    ensures { V.notes visitor.new ≡ noted V.note (V.notes visitor.old) (visits_fields expressions (docs_in parts.now) (row_of kind)) }
{
    let rows = kind.rows();
    for i in 0..rows.len().min(parts.len()) {
        look_at_field(visitor, rows[i].holds, &parts[i]);
    }
}

/// Looks at what a field holds: at nothing where it holds no nodes.
#[cycle(look)]
fn look_at_field<V: VisitJs>(visitor: &mut V, holds: Holds, part: &Part)
    ensures { V.notes visitor.new ≡ noted V.note (V.notes visitor.old) (of_field (place_held holds) (visits expressions (part_doc part.now))) }
{
    if let Some(place) = place_of(holds) {
        look_at_part(visitor, part, place);
    }
}

/// Looks at the node or the nodes that the part is.
#[cycle(look)]
fn look_at_part<V: VisitJs>(visitor: &mut V, part: &Part, place: Category)
    ensures { V.notes visitor.new ≡ noted V.note (V.notes visitor.old) (visits expressions (part_doc part.now) place) }
{
    match part {
        Part::Node(node) => look_at_node(visitor, node, place),
        Part::List(parts) => look_at_elements(visitor, parts, place),
        _ => {}
    }
}

/// Looks at the elements of a list.
#[cycle(look)]
fn look_at_elements<V: VisitJs>(visitor: &mut V, parts: &[Part], place: Category)
    ensures { V.notes visitor.new ≡ noted V.note (V.notes visitor.old) (visits_each expressions (docs_in parts.now) place) }
{
    for part in parts {
        look_at_part(visitor, part, place);
    }
}
