//! Fields that only TypeScript has.

use oxt_declares::dropped::{is_droppable, part_is_dropped};
use oxt_declares::languages::is_language;
use oxt_grammar::category::Category;
use oxt_grammar::field::Field;
use oxt_grammar::holds::{Holds, Row};
use oxt_grammar::kind::Kind;
use oxt_grammar::word::Word;
use oxt_names::ids::{NodeId, OutOfMemory, Span};
use oxt_tree::fields::default_part;
use oxt_tree::tree::{Node, Part};
use std::alloc::Global;
use std::vec;

/// Sets the fields of the node that only TypeScript has to their defaults, names JavaScript as its language where it
/// has one, and puts an empty block in the place of an erased statement that has a field to itself.
/// Wrappers are left alone, which go as a whole, and so are the fields by which a list knows what it drops.
pub fn clear_types(node: &mut Node) -> Result<(), OutOfMemory> {
    if Category::Transparent.contains(node.kind) {
        return Ok(());
    }
    let alloc = *node.parts.allocator();
    set_defaults(
        alloc,
        is_droppable(node.kind),
        node.kind.rows(),
        &mut node.parts,
    )
}

/// Sets what the fields hold to their defaults, each by its row.
fn set_defaults(
    alloc: Global,
    droppable: bool,
    rows: &[Row],
    parts: &mut [Part],
) -> Result<(), OutOfMemory> {
    for i in 0..rows.len().min(parts.len()) {
        set_default(alloc, droppable, &rows[i], &mut parts[i])?;
    }
    Ok(())
}

/// Sets what a field holds to its default where only TypeScript has it, and to JavaScript where it
/// names a language, and houses an erased statement; a mark is left where a list may drop the node by it.
fn set_default(
    alloc: Global,
    droppable: bool,
    row: &Row,
    part: &mut Part,
) -> Result<(), OutOfMemory> {
    if droppable && is_mark(row) {
        return Ok(());
    }
    if row.presence.is_typescript() {
        *part = default_part(alloc, row.holds);
        Ok(())
    } else if is_language(row.holds) {
        *part = Part::Word(Word::Js);
        Ok(())
    } else {
        house(alloc, row.holds, part)
    }
}

/// Puts an empty block, or nothing, in the place of an erased statement that has a field to itself.
fn house(alloc: Global, holds: Holds, part: &mut Part) -> Result<(), OutOfMemory> {
    if part_is_dropped(part) {
        match holds {
            Holds::Node(Category::Statement) => {
                *part = Part::Node(empty_block(alloc, number_of(part))?);
            }
            Holds::NodeOrNull(Category::Statement) => *part = Part::Nothing,
            _ => {}
        }
    }
    Ok(())
}

/// The number of a node, and 0 for anything else.
fn number_of(part: &Part) -> NodeId {
    match part {
        Part::Node(node) => node.id,
        _ => NodeId(0),
    }
}

/// A block without statements.
fn empty_block(alloc: Global, id: NodeId) -> Result<Node, OutOfMemory> {
    let parts = vec![in alloc; Part::List(Vec::new(alloc))]?;
    Ok(Node {
        kind: Kind::BlockStatement,
        id,
        span: Span::NONE,
        parts,
    })
}

/// Whether a list knows by that field what it drops.
fn is_mark(row: &Row) -> bool {
    row.is(Field::Declare)
        || row.is(Field::ImportKind)
        || row.is(Field::ExportKind)
        || row.is(Field::Value)
}
