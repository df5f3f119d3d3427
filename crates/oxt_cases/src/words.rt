//! Words of trees.

use crate::items;
use crate::pieces::{Lines, Piece};
use crate::told::told_nodes;
use oxt_facts::facts::Facts;
use oxt_facts::item::Item;
use oxt_facts::told::ToldNodes;
use oxt_names::ids::OutOfMemory;
use oxt_names::uid::UidNames;
use oxt_options::options::TransformOptions;
use oxt_resolve::groups::groups_of;
use oxt_resolve::names::taken_names;
use oxt_tree::tree::Node;
use oxt_word::word::word_of;
use std::alloc::Global;

/// Puts the lines of the word of the tree, as that of a source.
///
/// # Errors
///
/// Fails only where memory runs out.
pub fn put_source(alloc: Global, source: &Node, lines: &mut Lines) -> Result<(), OutOfMemory> {
    let facts = Facts::of_source(alloc)?;
    put_word(alloc, facts, source, lines)
}

/// The same, where its nodes are told what they become under the options.
///
/// # Errors
///
/// Fails only where memory runs out.
pub fn put_told(
    alloc: Global,
    source: &Node,
    options: &TransformOptions,
    lines: &mut Lines,
) -> Result<(), OutOfMemory> {
    let facts = told_facts(alloc, source, options)?;
    put_word(alloc, facts, source, lines)
}

/// The same, where the lines of names have their groups.
///
/// # Errors
///
/// Fails only where memory runs out.
pub fn put_owned(
    alloc: Global,
    source: &Node,
    options: &TransformOptions,
    lines: &mut Lines,
) -> Result<(), OutOfMemory> {
    let facts = told_facts(alloc, source, options)?;
    let items = word_by(facts, source)?;
    put_grouped(alloc, items.as_slice(), lines)
}

/// What is known of the source, of whose nodes it is told what they become under the options.
fn told_facts(
    alloc: Global,
    source: &Node,
    options: &TransformOptions,
) -> Result<Facts, OutOfMemory> {
    let told = told_nodes(alloc, source, options)?;
    facts_with(alloc, source, told)
}

/// What is known of the source, of whose nodes that is told, and of whose names the groups are known.
///
/// # Errors
///
/// Fails only where memory runs out.
pub fn facts_with(alloc: Global, source: &Node, told: ToldNodes) -> Result<Facts, OutOfMemory> {
    let groups = groups_of(alloc, source, false)?;
    Facts::of_told_source(alloc, told, groups)
}

/// Puts the lines of the word of the output, as that of what was made of the source.
///
/// # Errors
///
/// Fails only where memory runs out.
pub fn put_output(
    alloc: Global,
    source: &Node,
    output: &Node,
    lines: &mut Lines,
) -> Result<(), OutOfMemory> {
    let facts = facts_of_output(alloc, source, output)?;
    put_word(alloc, facts, output, lines)
}

/// What is known of the output of the source.
///
/// # Errors
///
/// Fails only where memory runs out.
pub fn facts_of_output(alloc: Global, source: &Node, output: &Node) -> Result<Facts, OutOfMemory> {
    let names = taken_names(alloc, source)?;
    let facts = facts_by(alloc, &names, output);
    drop(names);
    facts
}

/// What is known of an output, where these names are made.
fn facts_by(alloc: Global, names: &UidNames, output: &Node) -> Result<Facts, OutOfMemory> {
    let groups = groups_of(alloc, output, false)?;
    Facts::of_output(alloc, names, groups, output)
}

/// The word of the tree of which that is known.
///
/// # Errors
///
/// Fails only where memory runs out.
pub fn word_by(facts: Facts, program: &Node) -> Result<Vec<Item>, OutOfMemory> {
    let items = word_of(&facts, program);
    drop(facts);
    items
}

/// Puts the lines of the word of the tree of which that is known.
fn put_word(
    alloc: Global,
    facts: Facts,
    program: &Node,
    lines: &mut Lines,
) -> Result<(), OutOfMemory> {
    let items = word_by(facts, program)?;
    put_items(alloc, items.as_slice(), lines)
}

/// Puts the lines of the items.
///
/// # Errors
///
/// Fails only where memory runs out.
pub fn put_items(alloc: Global, items: &[Item], lines: &mut Lines) -> Result<(), OutOfMemory> {
    let bytes = items::lines_of(alloc, items)?;
    lines.put(&[Piece::Text(text_of(bytes.as_slice()))]);
    Ok(())
}

/// Puts the line of an item.
///
/// # Errors
///
/// Fails only where memory runs out.
pub fn put_item(alloc: Global, item: &Item, lines: &mut Lines) -> Result<(), OutOfMemory> {
    let bytes = items::line_of(alloc, item)?;
    lines.put(&[Piece::Text(text_of(bytes.as_slice()))]);
    Ok(())
}

/// The text that the bytes are; empty where they are none.
fn text_of(bytes: &[u8]) -> &str {
    match str::from_utf8(bytes) {
        Ok(text) => text,
        Err(_) => "",
    }
}

/// Puts the lines of the items, each with the group of its name at the end of the array, if it has one.
///
/// # Errors
///
/// Fails only where memory runs out.
pub fn put_grouped(alloc: Global, items: &[Item], lines: &mut Lines) -> Result<(), OutOfMemory> {
    for item in items {
        put_grouped_item(alloc, item, lines)?;
    }
    Ok(())
}

/// Puts the line of an item, with the group of its name at the end of the array, if it has one.
///
/// # Errors
///
/// Fails only where memory runs out.
pub fn put_grouped_item(alloc: Global, item: &Item, lines: &mut Lines) -> Result<(), OutOfMemory> {
    match item.group {
        Some(group) => put_with_group(alloc, item, group, lines),
        None => put_item(alloc, item, lines),
    }
}

/// Puts the line of an item whose name has that group.
fn put_with_group(
    alloc: Global,
    item: &Item,
    group: u64,
    lines: &mut Lines,
) -> Result<(), OutOfMemory> {
    let bytes = items::line_of(alloc, item)?;
    put_joined(text_of(bytes.as_slice()), group, lines);
    Ok(())
}

/// Puts the line with that group at the end of its array.
fn put_joined(line: &str, group: u64, lines: &mut Lines) {
    match line.strip_suffix("]\n") {
        Some(front) => {
            let joined = [
                Piece::Text(front),
                Piece::Text(",{\"group\":"),
                Piece::Number(group),
                Piece::Text("}]\n"),
            ];
            lines.put(&joined);
        }
        None => lines.put(&[Piece::Text(line)]),
    }
}
