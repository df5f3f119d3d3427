//! The text from which the name of a variable is made that holds an expression.
ghost use Rattle.std.specs.Prelude.{◌≡◌, ◌++◌, IfOk, OnOk, codes, option_map, string_bytes};
ghost use Rattle.std.specs.List.{list_all};
ghost use Rattle.oxt_tree.specs.Fields.{field_of, named, text_in};
ghost use Rattle.oxt_names.specs.Names.{name_bytes};
ghost use Rattle.oxt_tree.specs.View.{docs_in, node_doc};
ghost use Rattle.oxt_names.specs.Made.{is_digit};
ghost use Rattle.oxt_fields.specs.Text.{first_text, if_identifier, is_identifier, is_letter, is_read_inside, is_within_identifier, member_text, name_text, or_no_name, own_text};

use oxt_grammar::field::Field;
use oxt_grammar::kind::Kind;
use oxt_names::ids::OutOfMemory;
use oxt_names::name::Name;
use oxt_tree::tree::{Node, Part};
use std::alloc::Global;

/// The text of the expression: of a name the name, of `a.b` the text of `a` with `$b`, of a call or
/// `new` that of its callee, of a string its value where that is an ASCII identifier, of parentheses
/// that of their inside, and else `ref`.
pub fn get_var_name_from_node(alloc: Global, node: &Node) -> Result<Name, OutOfMemory>
    ensures { IfOk result (λ name. name_bytes name ≡ name_text (node_doc node.now)) }
{
    let mut text = String::new(alloc);
    push_text(&mut text, node)?;
    Name::from_string(text)
}

/// Appends the text of the expression.
#[cycle(text)]
pub fn push_text(text: &mut String, node: &Node) -> Result<(), OutOfMemory>
    ensures { OnOk result
        (string_bytes text.new ≡ string_bytes text.old ++ name_text (node_doc node.now)) }
{
    if is_read_inside(node.kind) {
        push_first(text, &node.parts)?;
        push_member(text, node)
    } else {
        text.push_str(own_text(node))?;
        Ok(())
    }
}

/// Appends the text of the first of the parts.
#[cycle(text)]
fn push_first(text: &mut String, parts: &[Part]) -> Result<(), OutOfMemory>
    ensures { OnOk result
        (string_bytes text.new ≡ string_bytes text.old ++ first_text (docs_in parts.now)) }
{
    match parts.first() {
        Some(Part::Node(inside)) => push_text(text, inside),
        _ => {
            text.push_str("ref")?;
            Ok(())
        }
    }
}

/// Appends what a member with a name has behind the text of its object.
fn push_member(text: &mut String, node: &Node) -> Result<(), OutOfMemory>
    ensures { OnOk result
        (string_bytes text.new ≡ string_bytes text.old
        ++ member_text node.now.kind (docs_in node.now.parts.items)) }
{
    if node.kind.is(Kind::StaticMemberExpression) {
        text.push_str("$")?;
        text.push_str(or_no_name(property_name(node)))?;
    }
    Ok(())
}

/// The name in the field `property`.
fn property_name(node: &Node) -> Option<&str>
    ensures { option_map (λ text. text.now) result
        ≡ text_in (field_of (codes "name") (named (codes "property") node.now.kind (docs_in node.now.parts.items))) }
{
    match node.field(Field::Property) {
        Some(Part::Node(property)) => property.text(Field::Name),
        _ => None,
    }
}

/// Whether the expression has the text of its first field.
fn is_read_inside(kind: Kind) -> bool
    ensures { result ≡ is_read_inside kind }
{
    kind.is(Kind::StaticMemberExpression)
        || (kind.is(Kind::CallExpression)
            || (kind.is(Kind::NewExpression) || kind.is(Kind::ParenthesizedExpression)))
}

/// The text of an expression that is read by itself.
fn own_text(node: &Node) -> &str
    ensures { result.now ≡ own_text node.now.kind (docs_in node.now.parts.items) }
{
    if node.kind.is(Kind::IdentifierReference) {
        or_no_name(node.text(Field::Name))
    } else if node.kind.is(Kind::StringLiteral) {
        if_identifier(node.text(Field::Value))
    } else {
        "ref"
    }
}

/// The text, where there is one; else `ref`.
pub fn or_no_name(text: Option<&str>) -> &str
    ensures { result.now ≡ or_no_name (option_map (λ t. t.now) text.entry) }
{
    match text {
        Some(text) => text,
        None => "ref",
    }
}

/// The text, where it is an ASCII identifier.
fn if_identifier(text: Option<&str>) -> &str
    ensures { result.now ≡ if_identifier (option_map (λ t. t.now) text.entry) }
{
    match text {
        Some(text) if is_identifier(text) => text,
        _ => "ref",
    }
}

/// Whether the text is an ASCII identifier.
fn is_identifier(text: &str) -> bool
    ensures { result ≡ is_identifier text.now }
{
    match text.as_bytes().split_first() {
        Some((first, others)) => is_letter(*first) && are_within_identifier(others),
        None => false,
    }
}

/// Whether each byte is one that an ASCII identifier may have behind its first.
fn are_within_identifier(bytes: &[u8]) -> bool
    ensures { result ≡ list_all is_within_identifier bytes.now }
{
    bytes.iter().all(|byte| is_within_identifier(*byte))
}

/// Whether the byte is an ASCII letter, `_`, `$` or a digit.
fn is_within_identifier(byte: u8) -> bool
    ensures { result ≡ is_within_identifier byte }
{
    is_letter(byte) || is_digit(byte)
}

/// Whether the byte is an ASCII letter, `_` or `$`.
fn is_letter(byte: u8) -> bool
    ensures { result ≡ is_letter byte }
{
    (b'a' <= byte && byte <= b'z')
        || ((b'A' <= byte && byte <= b'Z') || (byte == b'_' || byte == b'$'))
}

/// Whether the byte is an ASCII digit.
fn is_digit(byte: u8) -> bool
    ensures { result ≡ is_digit byte }
{
    b'0' <= byte && byte <= b'9'
}
