//! The names in the fields of nodes.
ghost use Rattle.std.specs.Prelude.{◌≡◌, ◌++◌, OnOk};
ghost use Rattle.oxt_tree.specs.Bound.{bound_names};
ghost use Rattle.oxt_tree.specs.Fields.{elements, field_of, named};
ghost use Rattle.oxt_tree.specs.View.{doc_or_nil, docs_in, part_doc};
ghost use Rattle.oxt_declares.specs.Bare.{bare_views};
ghost use Rattle.oxt_declares.specs.Declares.{names_in_each};
ghost use Rattle.oxt_grammar.specs.Keys.{key_of};

use crate::bare::{BareName, push_names};
use oxt_grammar::field::Field;
use oxt_names::ids::OutOfMemory;
use oxt_tree::tree::{Node, Part};

/// What a field of the node in a field holds.
pub fn field_within<'a>(node: &'a Node, outer: Field, inner: Field) -> Option<&'a Part>
    ensures { doc_or_nil result
        ≡ field_of (key_of inner) (named (key_of outer) node.now.kind (docs_in node.now.parts.items)) }
{
    match node.field(outer) {
        Some(part) => part.field(inner),
        None => None,
    }
}

/// The list in a field of the node in a field.
pub fn list_within<'a>(node: &'a Node, outer: Field, inner: Field) -> &'a [Part]
    ensures { docs_in result.now
        ≡ elements (field_of (key_of inner) (named (key_of outer) node.now.kind (docs_in node.now.parts.items))) }
{
    match field_within(node, outer, inner) {
        Some(part) => part.elements(),
        None => &[],
    }
}

/// Appends the names that what may be a pattern binds.
pub fn push_names_of<'a>(
    part: Option<&'a Part>,
    names: &mut Vec<BareName<'a>>,
) -> Result<(), OutOfMemory>
    ensures { OnOk result (bare_views names.new.items
        ≡ bare_views names.old.items ++ bound_names (doc_or_nil part.entry)) }
{
    match part {
        Some(part) => push_names(part, names),
        None => Ok(()),
    }
}

/// Appends the names that the field of that name binds, in each of the nodes.
#[tactic(auto, using(crate::proofs::NameLoops::each_steps))]
pub fn push_from_each<'a>(
    field: Field,
    parts: &'a [Part],
    names: &mut Vec<BareName<'a>>,
) -> Result<(), OutOfMemory>
    ensures { OnOk result (bare_views names.new.items
        ≡ bare_views names.old.items ++ names_in_each (key_of field) (docs_in parts.now)) }
{
    for part in parts {
        push_field(field, part, names)?;
    }
    Ok(())
}

fn push_field<'a>(
    field: Field,
    part: &'a Part,
    names: &mut Vec<BareName<'a>>,
) -> Result<(), OutOfMemory>
    ensures { OnOk result (bare_views names.new.items
        ≡ bare_views names.old.items ++ bound_names (field_of (key_of field) (part_doc part.now))) }
{
    push_names_of(part.field(field), names)
}
