//! The free walks of visitors that change a tree.
//!
//! A hook is called for each node of its sort in the order of the text, before its parts; then the walk goes into the parts of
//! what stands there. What an expression is follows from the place and the kind together; a name that is used is one wherever it
//! stands.
//!
//! Around the parts of each node that opens a scope, all of them, stand `enter_scope` and `leave_scope`: the decorators
//! and the heritage of a class are visited inside, and so is what a `switch` looks at. An enum opens its scope at its body.
//!
//! A walk makes the calls that are owed, in their order, and no others: each node is visited as it stands when the walk
//! comes to it, and what is owed behind it is owed of what the hook left. Where a visitor leaves all as it was, the calls are
//! those of the tree, and nothing of them depends on the visitor.
ghost use Rattle.std.specs.Prelude.{◌≡◌, OnOk};
ghost use Rattle.oxt_grammar.specs.Rows.{row_of};
ghost use Rattle.oxt_grammar.specs.declared.category.Category.TheVariants as category;
ghost use Rattle.oxt_tree.specs.Doc.{list};
ghost use Rattle.oxt_tree.specs.View.{docs_in, node_doc, part_doc};
ghost use Rattle.oxt_visit.specs.Calls.{HasCalled, HasLogged};
ghost use Rattle.oxt_visit.specs.Hooks.{expressions_and_scopes, used_names};
ghost use Rattle.oxt_visit.specs.Place.{place_of as place_held};
ghost use Rattle.oxt_visit.specs.Reading.{readings};
ghost use Rattle.oxt_visit.specs.Visits.{visits};
ghost use Rattle.oxt_visit.specs.Walks.{Keeps, TellsApart, Walks, WalksField, WalksFields, WalksInside};

use crate::place::place_of;
use crate::visitor::{VisitJsMut, VisitMut};
use crate::walker::{OfExpressions, OfNames, Walker};
use oxt_grammar::category::Category;
use oxt_grammar::holds::Holds;
use oxt_grammar::kind::Kind;
use oxt_names::ids::OutOfMemory;
use oxt_tree::tree::{Node, Part};

/// Visits the expression, and what is in it.
///
/// # Errors
///
/// `OutOfMemory` where a hook answers it. The tree and the visitor may then only be dropped.
pub fn visit_js_mut<V: VisitJsMut>(visitor: &mut V, root: &mut Node) -> Result<(), OutOfMemory>
    ensures kept { OnOk result (V.read (node_doc root.new) ≡ V.read (node_doc root.old)) }
    ensures steady { OnOk result (V.spare visitor.new ≡ V.spare visitor.old) }
    ensures called { OnOk result (HasCalled V.trace (V.log visitor.old) (V.log visitor.new) (λ calls. Walks expressions_and_scopes (Keeps V.read) category.Expression (node_doc root.old) calls (node_doc root.new))) }
    ensures watched { OnOk result (HasLogged (TellsApart V.read) V.trace (V.log visitor.old) (V.log visitor.new) (visits expressions_and_scopes (node_doc root.old) category.Expression)) }
{
    visit_node::<OfExpressions, V>(visitor, root, Category::Expression)
}

/// Visits what is in the statements, one after the other.
///
/// # Errors
///
/// `OutOfMemory` where a hook answers it. The tree and the visitor may then only be dropped.
pub fn visit_js_mut_statements<V: VisitJsMut>(
    visitor: &mut V,
    root: &mut Vec<Part>,
) -> Result<(), OutOfMemory>
    ensures kept { OnOk result (readings V.read (docs_in root.new.items) ≡ readings V.read (docs_in root.old.items)) }
    ensures steady { OnOk result (V.spare visitor.new ≡ V.spare visitor.old) }
    ensures called { OnOk result (HasCalled V.trace (V.log visitor.old) (V.log visitor.new) (λ calls. Walks expressions_and_scopes (Keeps V.read) category.Statement (list (docs_in root.old.items)) calls (list (docs_in root.new.items)))) }
    ensures watched { OnOk result (HasLogged (TellsApart V.read) V.trace (V.log visitor.old) (V.log visitor.new) (visits expressions_and_scopes (list (docs_in root.old.items)) category.Statement)) }
{
    visit_elements::<OfExpressions, V>(visitor, root, Category::Statement)
}

/// Visits the names that are used in the body of a class.
///
/// # Errors
///
/// `OutOfMemory` where a hook answers it. The tree and the visitor may then only be dropped.
pub fn visit_mut<V: VisitMut>(visitor: &mut V, root: &mut Node) -> Result<(), OutOfMemory>
    ensures kept { OnOk result (V.read (node_doc root.new) ≡ V.read (node_doc root.old)) }
    ensures steady { OnOk result (V.spare visitor.new ≡ V.spare visitor.old) }
    ensures called { OnOk result (HasCalled V.trace (V.log visitor.old) (V.log visitor.new) (λ calls. Walks used_names (Keeps V.read) category.ClassBody (node_doc root.old) calls (node_doc root.new))) }
    ensures watched { OnOk result (HasLogged (TellsApart V.read) V.trace (V.log visitor.old) (V.log visitor.new) (visits used_names (node_doc root.old) category.ClassBody)) }
{
    visit_node::<OfNames, V>(visitor, root, Category::ClassBody)
}

/// Visits the node that stands at that place, if it is one of the sort, and what is in it.
#[cycle(visit)]
fn visit_node<Sort, V: Walker<Sort>>(
    visitor: &mut V,
    node: &mut Node,
    place: Category,
) -> Result<(), OutOfMemory>
    ensures kept { OnOk result (V.read (node_doc node.new) ≡ V.read (node_doc node.old)) }
    ensures steady { OnOk result (V.spare visitor.new ≡ V.spare visitor.old) }
    ensures called { OnOk result (HasCalled V.trace (V.log visitor.old) (V.log visitor.new) (λ calls. Walks V.hooks (Keeps V.read) place (node_doc node.old) calls (node_doc node.new))) }
{
    if V::is_visited(place, node.kind) {
        visitor.visit(node)?;
    }
    visit_inside::<Sort, V>(visitor, node)
}

/// Visits what is in the node, in its scope if that is entered.
#[cycle(visit)]
fn visit_inside<Sort, V: Walker<Sort>>(visitor: &mut V, node: &mut Node) -> Result<(), OutOfMemory>
    ensures kept { OnOk result (V.read (node_doc node.new) ≡ V.read (node_doc node.old)) }
    ensures steady { OnOk result (V.spare visitor.new ≡ V.spare visitor.old) }
    ensures called { OnOk result (HasCalled V.trace (V.log visitor.old) (V.log visitor.new) (λ calls. WalksInside V.hooks (Keeps V.read) (node_doc node.old) calls (node_doc node.new))) }
{
    if V::is_entered(node.kind) {
        visitor.enter(node.kind, node.id)?;
        visit_fields::<Sort, V>(visitor, node.kind, &mut node.parts)?;
        visitor.leave(node.kind);
        Ok(())
    } else {
        visit_fields::<Sort, V>(visitor, node.kind, &mut node.parts)
    }
}

/// Visits what the fields of a node of that kind hold.
#[cycle(visit)]
fn visit_fields<Sort, V: Walker<Sort>>(
    visitor: &mut V,
    kind: Kind,
    parts: &mut Vec<Part>,
) -> Result<(), OutOfMemory>
    ensures kept { OnOk result (readings V.read (docs_in parts.new.items) ≡ readings V.read (docs_in parts.old.items)) }
    ensures steady { OnOk result (V.spare visitor.new ≡ V.spare visitor.old) }
    ensures called { OnOk result (HasCalled V.trace (V.log visitor.old) (V.log visitor.new) (λ calls. WalksFields V.hooks (Keeps V.read) (row_of kind) (docs_in parts.old.items) calls (docs_in parts.new.items))) }
{
    let rows = kind.rows();
    for i in 0..rows.len().min(parts.len()) {
        visit_field::<Sort, V>(visitor, rows[i].holds, &mut parts[i])?;
    }
    Ok(())
}

/// Visits what a field holds: nothing where it holds no nodes.
#[cycle(visit)]
fn visit_field<Sort, V: Walker<Sort>>(
    visitor: &mut V,
    holds: Holds,
    part: &mut Part,
) -> Result<(), OutOfMemory>
    ensures kept { OnOk result (V.read (part_doc part.new) ≡ V.read (part_doc part.old)) }
    ensures steady { OnOk result (V.spare visitor.new ≡ V.spare visitor.old) }
    ensures called { OnOk result (HasCalled V.trace (V.log visitor.old) (V.log visitor.new) (λ calls. WalksField V.hooks (Keeps V.read) (place_held holds) (part_doc part.old) calls (part_doc part.new))) }
{
    match place_of(holds) {
        Some(place) => visit_part::<Sort, V>(visitor, part, place),
        None => Ok(()),
    }
}

/// Visits the node or the nodes that the part is.
#[cycle(visit)]
fn visit_part<Sort, V: Walker<Sort>>(
    visitor: &mut V,
    part: &mut Part,
    place: Category,
) -> Result<(), OutOfMemory>
    ensures kept { OnOk result (V.read (part_doc part.new) ≡ V.read (part_doc part.old)) }
    ensures steady { OnOk result (V.spare visitor.new ≡ V.spare visitor.old) }
    ensures called { OnOk result (HasCalled V.trace (V.log visitor.old) (V.log visitor.new) (λ calls. Walks V.hooks (Keeps V.read) place (part_doc part.old) calls (part_doc part.new))) }
{
    match part {
        Part::Node(node) => visit_node::<Sort, V>(visitor, node, place),
        Part::List(parts) => visit_elements::<Sort, V>(visitor, parts, place),
        _ => Ok(()),
    }
}

/// Visits the elements of a list.
#[cycle(visit)]
fn visit_elements<Sort, V: Walker<Sort>>(
    visitor: &mut V,
    parts: &mut Vec<Part>,
    place: Category,
) -> Result<(), OutOfMemory>
    ensures kept { OnOk result (readings V.read (docs_in parts.new.items) ≡ readings V.read (docs_in parts.old.items)) }
    ensures steady { OnOk result (V.spare visitor.new ≡ V.spare visitor.old) }
    ensures called { OnOk result (HasCalled V.trace (V.log visitor.old) (V.log visitor.new) (λ calls. Walks V.hooks (Keeps V.read) place (list (docs_in parts.old.items)) calls (list (docs_in parts.new.items)))) }
{
    for i in 0..parts.len() {
        visit_part::<Sort, V>(visitor, &mut parts[i], place)?;
    }
    Ok(())
}
