//! Shorthand properties of which the value was renamed.

use oxt_grammar::field::Field;
use oxt_grammar::kind::Kind;
use oxt_tree::tree::{Node, Part};

/// Opens the shorthand properties in the node whose value is that name, which was made.
#[cycle(shorthand)]
pub fn open_shorthands(node: &mut Node, name: &str) {
    open_each(&mut node.parts, name);
    if is_renamed(node, name) {
        set_shorthand(&mut node.parts);
    }
}

/// Opens those in the parts.
#[cycle(shorthand)]
fn open_each(parts: &mut Vec<Part>, name: &str) {
    for i in 0..parts.len() {
        open_part(&mut parts[i], name);
    }
}

/// Opens those in the part.
#[cycle(shorthand)]
fn open_part(part: &mut Part, name: &str) {
    match part {
        Part::Node(node) => open_shorthands(node, name),
        Part::List(parts) => open_each(parts, name),
        _ => {}
    }
}

/// Whether the node is a property whose value is that name.
fn is_renamed(node: &Node, name: &str) -> bool {
    node.kind.is(Kind::ObjectProperty) && is_named(node.field(Field::Value), name)
}

/// Whether the part is a use of that name.
fn is_named(part: Option<&Part>, name: &str) -> bool {
    match part {
        Some(Part::Node(value)) => {
            value.kind.is(Kind::IdentifierReference) && value.holds_text(Field::Name, name)
        }
        _ => false,
    }
}

/// Makes the property no shorthand.
fn set_shorthand(parts: &mut Vec<Part>) {
    if SHORTHAND < parts.len() {
        parts[SHORTHAND] = Part::Flag(false);
    }
}

/// The place of the field `shorthand` of a property.
const SHORTHAND: usize = 4;
