//! Where the values of accessors are stored.
ghost use Rattle.std.specs.Prelude.{◌≡◌, ◌++◌, IfOk, OnOk, option_map, string_bytes};
ghost use Rattle.oxt_fields.specs.Storage.{computed_key, is_literal, key_text, plain_key, storage_text, value_text, written_key};
ghost use Rattle.oxt_fields.specs.Text.{name_text};
ghost use Rattle.oxt_names.specs.Names.{name_bytes};
ghost use Rattle.oxt_tree.specs.View.{doc_or_nil, node_doc};

use crate::text::{or_no_name, push_text};
use oxt_grammar::field::Field;
use oxt_grammar::kind::Kind;
use oxt_names::ids::OutOfMemory;
use oxt_names::name::Name;
use oxt_tree::tree::{Node, Part};
use std::alloc::Global;

/// The private name under which the value of the accessor is stored, where its key needs no temporary: `_k_accessor_storage`
/// for the key `k`, and `_t_computed_accessor_storage` for a computed one with the text `t`.
///
/// # Errors
///
/// Fails only where memory runs out.
pub fn storage_text(alloc: Global, accessor: &Node) -> Result<Name, OutOfMemory>
    ensures { IfOk result (λ name. name_bytes name ≡ storage_text (node_doc accessor.now)) }
{
    let mut text = String::new(alloc);
    text.push_str("_")?;
    push_key(
        alloc,
        &mut text,
        accessor.flag(Field::Computed),
        accessor.field(Field::Key),
    )?;
    Name::from_string(text)
}

/// Appends the text of the key, and what stands behind it.
fn push_key(
    alloc: Global,
    text: &mut String,
    is_computed: bool,
    key: Option<&Part>,
) -> Result<(), OutOfMemory>
    ensures { OnOk result
        (string_bytes text.new ≡ string_bytes text.old ++ key_text is_computed (doc_or_nil key.entry)) }
{
    if is_computed {
        push_computed_key(text, key)
    } else {
        push_plain_key(alloc, text, key)
    }
}

/// Appends the text of the computed key, and what stands behind it.
fn push_computed_key(text: &mut String, key: Option<&Part>) -> Result<(), OutOfMemory>
    ensures { OnOk result
        (string_bytes text.new ≡ string_bytes text.old ++ computed_key (doc_or_nil key.entry)) }
{
    push_part_text(text, key)?;
    text.push_str("_computed_accessor_storage")?;
    Ok(())
}

/// Appends the text of the key, which is not computed, and what stands behind it.
fn push_plain_key(alloc: Global, text: &mut String, key: Option<&Part>) -> Result<(), OutOfMemory>
    ensures { OnOk result
        (string_bytes text.new ≡ string_bytes text.old ++ plain_key (doc_or_nil key.entry)) }
{
    push_written_key(alloc, text, key)?;
    text.push_str("_accessor_storage")?;
    Ok(())
}

/// Appends the text of the part as an expression.
fn push_part_text(text: &mut String, part: Option<&Part>) -> Result<(), OutOfMemory>
    ensures { OnOk result
        (string_bytes text.new ≡ string_bytes text.old ++ name_text (doc_or_nil part.entry)) }
{
    match part {
        Some(Part::Node(node)) => push_text(text, node),
        _ => {
            text.push_str("ref")?;
            Ok(())
        }
    }
}

/// Appends the text of the key, which is not computed.
fn push_written_key(alloc: Global, text: &mut String, key: Option<&Part>) -> Result<(), OutOfMemory>
    ensures { OnOk result
        (string_bytes text.new ≡ string_bytes text.old ++ written_key (doc_or_nil key.entry)) }
{
    match key {
        Some(Part::Node(node)) => push_written(alloc, text, node),
        _ => {
            text.push_str("ref")?;
            Ok(())
        }
    }
}

/// Appends the text of such a key: the name, the value of a literal, and else its text as an expression.
fn push_written(alloc: Global, text: &mut String, key: &Node) -> Result<(), OutOfMemory>
    ensures { OnOk result
        (string_bytes text.new ≡ string_bytes text.old ++ written_key (node_doc key.now)) }
{
    if key.kind.is(Kind::IdentifierName) || key.kind.is(Kind::PrivateIdentifier) {
        text.push_str(or_no_name(key.text(Field::Name)))?;
        Ok(())
    } else if is_literal(key) {
        push_value(alloc, text, key.field(Field::Value), key.text(Field::Raw))
    } else {
        push_text(text, key)
    }
}

/// Whether the key is a literal, where it is not computed.
fn is_literal(key: &Node) -> bool
    ensures { result ≡ is_literal (node_doc key.now) }
{
    key.kind.is(Kind::StringLiteral)
        || (key.kind.is(Kind::NumericLiteral) || key.kind.is(Kind::BigIntLiteral))
}

/// Appends the text of a literal: its value, and where that is no whole number what was written.
fn push_value(
    alloc: Global,
    text: &mut String,
    value: Option<&Part>,
    raw: Option<&str>,
) -> Result<(), OutOfMemory>
    ensures { OnOk result (string_bytes text.new ≡ string_bytes text.old
        ++ value_text (doc_or_nil value.entry) (option_map (λ t. t.now) raw.entry)) }
{
    match value {
        Some(Part::Number(number)) => {
            let digits = number.to_string(alloc)?;
            text.push_str(digits.as_str())?;
        }
        Some(Part::Text(value)) => text.push_str(value.as_str())?,
        Some(Part::Word(word)) => text.push_str(word.text())?,
        _ => text.push_str(or_no_name(raw))?,
    }
    Ok(())
}
