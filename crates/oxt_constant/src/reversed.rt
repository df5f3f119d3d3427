//! Whether a member of an enum can be looked up by its value: `enum E { A = 1, B = "b" }` gives `E[1]`, and nothing for "b".
ghost use Rattle.std.specs.Prelude.{◌≡◌, option_map};
ghost use Rattle.oxt_constant.specs.Reversed.{is_joining, is_reversed, is_text_constant, is_text_form, is_text_kind, some_text_form};
ghost use Rattle.oxt_names.specs.Constant.{constant_view};
ghost use Rattle.oxt_tree.specs.View.{docs_in, doc_or_nil, part_doc};

use oxt_grammar::field::Field;
use oxt_grammar::kind::Kind;
use oxt_names::constant::ConstantValue;
use oxt_tree::tree::{Node, Part};

/// Whether a member with that constant and initializer can be looked up by its value.
pub fn is_reversed(constant: Option<&ConstantValue>, initializer: Option<&Part>) -> bool
    ensures { result ≡ is_reversed (option_map (λ v. constant_view v.now) constant.entry)
        (doc_or_nil initializer.entry) }
{
    !is_text_constant(constant) && !has_text_form(initializer)
}

/// Whether the constant is a text.
fn is_text_constant(constant: Option<&ConstantValue>) -> bool
    ensures { result ≡ is_text_constant (option_map (λ v. constant_view v.now) constant.entry) }
{
    match constant {
        Some(ConstantValue::Text(_)) => true,
        _ => false,
    }
}

/// Whether it is a text by its form.
fn has_text_form(part: Option<&Part>) -> bool
    ensures { result ≡ is_text_form (doc_or_nil part.entry) }
{
    match part {
        Some(part) => is_text_form(part),
        None => false,
    }
}

/// Whether the part is a text by its form.
#[cycle(form)]
fn is_text_form(part: &Part) -> bool
    ensures { result ≡ is_text_form (part_doc part.now) }
{
    match part {
        Part::Node(node) => {
            is_text_kind(node.kind) || (is_joining(node) && some_text_form(&node.parts))
        }
        _ => false,
    }
}

/// Whether one of the parts is a text by its form.
#[cycle(form)]
#[tactic(auto, using(crate::proofs::TextForms::form_steps))]
fn some_text_form(parts: &[Part]) -> bool
    ensures { result ≡ some_text_form (docs_in parts.now) }
{
    for part in parts {
        if is_text_form(part) {
            return true;
        }
    }
    false
}

/// Whether nodes of the kind are texts.
fn is_text_kind(kind: Kind) -> bool
    ensures { result ≡ is_text_kind kind }
{
    kind.is(Kind::StringLiteral) || kind.is(Kind::TemplateLiteral)
}

/// Whether it is parentheses or an operation by `+`.
fn is_joining(node: &Node) -> bool
    ensures { result ≡ is_joining node.now.kind (docs_in node.now.parts.items) }
{
    node.kind.is(Kind::ParenthesizedExpression)
        || (node.kind.is(Kind::BinaryExpression) && node.holds_text(Field::Operator, "+"))
}
