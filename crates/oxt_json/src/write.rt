//! A tree to bytes.
ghost use Rattle.std.specs.Prelude.{◌≡◌, ◌++◌, IfOk, OnOk, Some, map, codes};
ghost use Rattle.oxt_json.specs.Numbers.{DataFits, ItemsFit, MembersFit, MaybeFits};
ghost use Rattle.oxt_json.specs.Order.{order_of};
ghost use Rattle.oxt_json.specs.Slots.{name_at, key_at, offset_data, written, field_data, data_at, laid_node};
ghost use Rattle.oxt_json.specs.Spelled.{text_of, data_of, each_data, ReadsBack};
ghost use Rattle.oxt_json.specs.Tokens.{tokens_of, member_tokens, one_member};
ghost use Rattle.oxt_grammar.specs.Field.{row_view};
ghost use Rattle.oxt_grammar.specs.Keys.{key_of};
ghost use Rattle.oxt_grammar.specs.Kinds.{name_of};
ghost use Rattle.oxt_grammar.specs.Rows.{row_of};
ghost use Rattle.oxt_tree.specs.View.{docs_in, node_doc, part_doc};
ghost use Rattle.serde_json.specs.Data.{array, string};
ghost use Rattle.serde_json.specs.View.{items_of};
ghost use Rattle.serde_json.specs.Written.{IsInOrder};
ghost use Rattle.std.specs.Str.{IsUtf8};

use crate::order::order_of;
use crate::slot::Slot;
use json::Writer;
use oxt_grammar::holds::Row;
use oxt_grammar::kind::Kind;
use oxt_names::ids::{OutOfMemory, Span};
use oxt_tree::tree::{Node, Part, Program};
use std::alloc::Global;

/// The tree as compact JSON, with keys in the order of their bytes and without the fields that
/// stand at their default. Numbers of nodes are not written.
///
/// # Errors
///
/// Fails only where memory runs out.
pub fn write_tree(alloc: Global, program: &Program) -> Result<Vec<u8>, OutOfMemory>
    ensures text { IfOk result (λ bytes. bytes.items ≡ text_of (node_doc program.now.root)) }
    ensures utf8 { IfOk result (λ bytes. IsUtf8 bytes.items) }
    ensures in_order { IfOk result (λ bytes. IsInOrder bytes.items (data_of (node_doc program.now.root))) }
    ensures reads_back { IfOk result (λ bytes. ReadsBack bytes.items (data_of (node_doc program.now.root))) }
{
    let mut out = Writer::new(Vec::new(alloc));
    write_node(&program.root, &mut out)?;
    Ok(out.into_inner())
}

/// Writes the object of a node.
#[cycle(spelling)]
fn write_node(node: &Node, out: &mut Writer) -> Result<(), OutOfMemory>
    ensures before { out.new.before ≡ out.old.before }
    ensures tokens { OnOk result (out.new.tokens ≡ out.old.tokens ++ tokens_of (data_of (node_doc node.now))) }
    ensures numbers { OnOk result (DataFits (data_of (node_doc node.now))) }
{
    out.begin_object()?;
    write_members(node.kind, node.span, node.parts.as_slice(), out)
}

/// Writes the members of the object of a node, and closes it.
#[cycle(spelling)]
fn write_members(
    kind: Kind,
    span: Span,
    parts: &[Part],
    out: &mut Writer,
) -> Result<(), OutOfMemory>
    ensures before { out.new.before ≡ out.old.before }
    ensures tokens { OnOk result (out.new.tokens
        ≡ out.old.tokens ++ member_tokens (laid_node kind span.start span.end (docs_in parts.now) (order_of kind))) }
    ensures numbers { OnOk result (MembersFit (laid_node kind span.start span.end (docs_in parts.now) (order_of kind))) }
{
    for slot in order_of(kind) {
        write_slot(kind, span, parts, *slot, out)?;
    }
    out.end_object()?;
    Ok(())
}

/// Writes what stands at a slot of the object of a node.
#[cycle(spelling)]
fn write_slot(
    kind: Kind,
    span: Span,
    parts: &[Part],
    slot: Slot,
    out: &mut Writer,
) -> Result<(), OutOfMemory>
    ensures before { out.new.before ≡ out.old.before }
    ensures tokens { OnOk result (out.new.tokens
        ≡ out.old.tokens ++ one_member (key_at (row_of kind) slot) (data_at kind span.start span.end (docs_in parts.now) slot)) }
    ensures numbers { OnOk result (MaybeFits (data_at kind span.start span.end (docs_in parts.now) slot)) }
{
    match slot {
        Slot::Type => write_kind(kind, out),
        Slot::Start => write_offset("start", span.start, out),
        Slot::End => write_offset("end", span.end, out),
        Slot::Field(place) => write_field_at(kind.rows(), parts, place, out),
    }
}

/// Writes the field at a place. There is none without a row or without a part.
#[cycle(spelling)]
fn write_field_at(
    rows: &[Row],
    parts: &[Part],
    place: usize,
    out: &mut Writer,
) -> Result<(), OutOfMemory>
    ensures before { out.new.before ≡ out.old.before }
    ensures tokens { OnOk result (out.new.tokens
        ≡ out.old.tokens ++ one_member (name_at place (map row_view rows.now)) (field_data place (map row_view rows.now) (docs_in parts.now))) }
    ensures numbers { OnOk result (MaybeFits (field_data place (map row_view rows.now) (docs_in parts.now))) }
{
    let Some(row) = rows.get(place) else {
        return Ok(());
    };
    match parts.get(place) {
        Some(part) => write_field(row, part, out),
        None => Ok(()),
    }
}

/// Writes a field, unless it is left out.
#[cycle(spelling)]
fn write_field(row: &Row, part: &Part, out: &mut Writer) -> Result<(), OutOfMemory>
    ensures before { out.new.before ≡ out.old.before }
    ensures tokens { OnOk result (out.new.tokens
        ≡ out.old.tokens ++ one_member (key_of row.now.field) (written (row_view row.now) (part_doc part.now))) }
    ensures numbers { OnOk result (MaybeFits (written (row_view row.now) (part_doc part.now))) }
{
    if part.is_left_out(row) {
        return Ok(());
    }
    out.key(row.name())?;
    write_part(part, out)
}

/// Writes what a field or an element holds.
#[cycle(spelling)]
fn write_part(part: &Part, out: &mut Writer) -> Result<(), OutOfMemory>
    ensures before { out.new.before ≡ out.old.before }
    ensures tokens { OnOk result (out.new.tokens ≡ out.old.tokens ++ tokens_of (data_of (part_doc part.now))) }
    ensures numbers { OnOk result (DataFits (data_of (part_doc part.now))) }
{
    match part {
        Part::Nothing => out.null()?,
        Part::Flag(flag) => out.boolean(*flag)?,
        Part::Number(number) => out.u64(*number)?,
        Part::Text(name) => out.string(name.as_str())?,
        Part::Word(word) => out.string(word.text())?,
        Part::Node(node) => write_node(node, out)?,
        Part::List(parts) => write_list(parts.as_slice(), out)?,
    }
    Ok(())
}

/// Writes the array of a list.
#[cycle(spelling)]
fn write_list(parts: &[Part], out: &mut Writer) -> Result<(), OutOfMemory>
    ensures before { out.new.before ≡ out.old.before }
    ensures tokens { OnOk result (out.new.tokens ≡ out.old.tokens ++ tokens_of (array (items_of (each_data (docs_in parts.now))))) }
    ensures numbers { OnOk result (ItemsFit (items_of (each_data (docs_in parts.now)))) }
{
    out.begin_array()?;
    for part in parts {
        write_part(part, out)?;
    }
    out.end_array()?;
    Ok(())
}

/// Writes the kind of a node.
fn write_kind(kind: Kind, out: &mut Writer) -> Result<(), OutOfMemory>
    ensures before { out.new.before ≡ out.old.before }
    ensures tokens { OnOk result (out.new.tokens ≡ out.old.tokens ++ one_member (codes "type") (Some (string (name_of kind)))) }
{
    out.key("type")?;
    out.string(kind.name())?;
    Ok(())
}

/// Writes an offset into the source text, unless it is 0.
fn write_offset(name: &str, offset: u32, out: &mut Writer) -> Result<(), OutOfMemory>
    ensures before { out.new.before ≡ out.old.before }
    ensures tokens { OnOk result (out.new.tokens ≡ out.old.tokens ++ one_member name.now (offset_data offset)) }
    ensures numbers { MaybeFits (offset_data offset) }
{
    if offset == 0 {
        return Ok(());
    }
    out.key(name)?;
    out.u64(u64::from(offset))?;
    Ok(())
}
