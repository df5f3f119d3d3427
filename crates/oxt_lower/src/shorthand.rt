//! Shorthand properties of which the value is renamed.
ghost use Rattle.std.specs.Prelude.{◌≡◌};
ghost use Rattle.oxt_lower.specs.Spare.{IsNoHeavier};
ghost use Rattle.oxt_tree.specs.Doc.{list};
ghost use Rattle.oxt_tree.specs.View.{docs_in, node_doc, part_doc};

use crate::rename::IdentifierReferenceRename;
use oxt_grammar::field::Field;
use oxt_grammar::kind::Kind;
use oxt_tree::tree::{Node, Part};

/// Opens the shorthand properties of the object, if it is one, whose values are renamed.
pub fn open_properties(renames: &IdentifierReferenceRename, node: &mut Node)
    ensures { IsNoHeavier (node_doc node.old) (node_doc node.new) }
{
    if node.kind.is(Kind::ObjectExpression) {
        open_each(renames, &mut node.parts);
    }
}

/// Opens those among the parts, and those in the lists among them.
#[cycle(shorthand)]
fn open_each(renames: &IdentifierReferenceRename, parts: &mut Vec<Part>)
    ensures { IsNoHeavier (list (docs_in parts.old.items)) (list (docs_in parts.new.items)) }
{
    for i in 0..parts.len() {
        open_part(renames, &mut parts[i]);
    }
}

/// Opens the property or the properties that the part is.
#[cycle(shorthand)]
fn open_part(renames: &IdentifierReferenceRename, part: &mut Part)
    ensures { IsNoHeavier (part_doc part.old) (part_doc part.new) }
{
    match part {
        Part::Node(property) => open_property(renames, property),
        Part::List(parts) => open_each(renames, parts),
        _ => {}
    }
}

/// Opens the property.
fn open_property(renames: &IdentifierReferenceRename, property: &mut Node)
    ensures { IsNoHeavier (node_doc property.old) (node_doc property.new) }
{
    if opens(renames, property) {
        set_shorthand(&mut property.parts);
    }
}

/// Whether the node is a property whose value is renamed.
fn opens(renames: &IdentifierReferenceRename, property: &Node) -> bool {
    if !property.kind.is(Kind::ObjectProperty) {
        return false;
    }
    match property.field(Field::Value) {
        Some(Part::Node(value)) => renames.is_renamed(value),
        _ => false,
    }
}

/// Makes the property no shorthand.
fn set_shorthand(parts: &mut Vec<Part>)
    ensures { IsNoHeavier (list (docs_in parts.old.items)) (list (docs_in parts.new.items)) }
{
    if SHORTHAND < parts.len() {
        parts[SHORTHAND] = Part::Flag(false);
    }
}

/// The place of the field `shorthand` of a property.
const SHORTHAND: usize = 4;
