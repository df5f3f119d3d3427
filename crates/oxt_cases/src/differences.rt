//! Where words differ.

use crate::pieces::{Lines, Piece};
use crate::words::{facts_of_output, facts_with, put_grouped_item, put_item, word_by};
use oxt_facts::compare::{Difference, first_difference};
use oxt_facts::item::Item;
use oxt_facts::told::ToldNodes;
use oxt_names::ids::OutOfMemory;
use oxt_tree::tree::Node;
use std::alloc::Global;

/// Puts the place of the first item in which the word of the output differs from that of the source, the item of the
/// source and that of the output, a line each, with `-` where a word has ended; `same` where they do not differ. Where
/// the two differ in the group of their name alone, `owner` stands behind the place, and their lines have the groups.
///
/// # Errors
///
/// Fails only where memory runs out.
pub fn put_lines(
    alloc: Global,
    source: &Node,
    output: &Node,
    lines: &mut Lines,
) -> Result<(), OutOfMemory> {
    let facts = facts_of_output(alloc, source, output)?;
    let output = word_by(facts, output)?;
    put_against(alloc, source, output.as_slice(), lines)
}

/// Puts the lines where the word of the output is that.
fn put_against(
    alloc: Global,
    source: &Node,
    output: &[Item],
    lines: &mut Lines,
) -> Result<(), OutOfMemory> {
    let facts = facts_with(alloc, source, ToldNodes::new(alloc))?;
    let source = word_by(facts, source)?;
    put_first(alloc, source.as_slice(), output, lines)
}

/// Puts the lines of the first difference of two words.
fn put_first(
    alloc: Global,
    source: &[Item],
    output: &[Item],
    lines: &mut Lines,
) -> Result<(), OutOfMemory> {
    match first_difference(source, output) {
        Some(difference) => put_difference(alloc, &difference, lines),
        None => {
            lines.put(&[Piece::Text("same\n")]);
            Ok(())
        }
    }
}

/// Puts the lines of the difference.
fn put_difference(
    alloc: Global,
    difference: &Difference,
    lines: &mut Lines,
) -> Result<(), OutOfMemory> {
    let is_of_owners = difference.is_of_owners();
    let line = [
        Piece::Count(difference.index),
        Piece::If(is_of_owners, " owner"),
        Piece::Text("\n"),
    ];
    lines.put(&line);
    put_line(alloc, difference.source, is_of_owners, lines)?;
    put_line(alloc, difference.output, is_of_owners, lines)
}

/// Puts the line of an item, with its group or not.
fn put_line(
    alloc: Global,
    item: Option<&Item>,
    is_grouped: bool,
    lines: &mut Lines,
) -> Result<(), OutOfMemory> {
    match item {
        Some(item) if is_grouped => put_grouped_item(alloc, item, lines),
        Some(item) => put_item(alloc, item, lines),
        None => {
            lines.put(&[Piece::Text("-\n")]);
            Ok(())
        }
    }
}
