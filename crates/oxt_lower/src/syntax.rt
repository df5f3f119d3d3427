//! What initializers are by their syntax.

use oxt_grammar::field::Field;
use oxt_grammar::kind::Kind;
use oxt_tree::tree::{Node, Part};

/// Whether the expression is a text whatever the names in it mean: a string, a template, or a sum of
/// which one side is such a text, through parentheses.
#[cycle(text)]
pub fn is_text(node: &Node) -> bool {
    if node.kind.is(Kind::ParenthesizedExpression) {
        text_at(&node.parts, 0)
    } else if is_sum(node) {
        text_at(&node.parts, 1) || text_at(&node.parts, 2)
    } else {
        node.kind.is(Kind::StringLiteral) || node.kind.is(Kind::TemplateLiteral)
    }
}

/// Whether the part at that place is such a text.
#[cycle(text)]
fn text_at(parts: &[Part], place: usize) -> bool {
    match parts.get(place) {
        Some(part) => part_is_text(part),
        None => false,
    }
}

/// Whether the part is such a text.
#[cycle(text)]
fn part_is_text(part: &Part) -> bool {
    match part {
        Part::Node(node) => is_text(node),
        _ => false,
    }
}

/// Whether the expression is `a + b`.
fn is_sum(node: &Node) -> bool {
    node.kind.is(Kind::BinaryExpression) && node.holds_text(Field::Operator, "+")
}

/// Whether the initializer of one of the members is itself a call or `new`.
pub fn any_call(members: &[Part]) -> bool {
    members.iter().any(|member| match member.field(Field::Initializer) {
        Some(initializer) => {
            initializer.is_kind(Kind::CallExpression) || initializer.is_kind(Kind::NewExpression)
        }
        None => false,
    })
}
