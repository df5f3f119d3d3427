//! Blocks of enums and namespaces.

use crate::pieces::{Lines, Piece};
use oxt_enum_checks::blocks::blocks_of;
use oxt_enum_checks::first::first_blocks;
use oxt_enum_checks::merges::merge_faults;
use oxt_enum_checks::places::Places;
use oxt_names::ids::{NodeId, OutOfMemory};
use oxt_resolve::resolve::resolve;
use oxt_scoping::scoping::Scoping;
use oxt_tree::tree::Node;
use std::alloc::Global;

/// Puts the number of each block before which nothing of its name emits code, a line each.
///
/// # Errors
///
/// Fails only where memory runs out.
pub fn put_first(alloc: Global, program: &Node, lines: &mut Lines) -> Result<(), OutOfMemory> {
    let scoping = resolve(alloc, program, false)?;
    let outcome = put_first_by(alloc, program, &scoping, lines);
    drop(scoping);
    outcome
}

/// The same, where that is the table of scopes.
fn put_first_by(
    alloc: Global,
    program: &Node,
    scoping: &Scoping,
    lines: &mut Lines,
) -> Result<(), OutOfMemory> {
    let first = first_of(alloc, program, scoping)?;
    for block in &first {
        put_number(block.0, lines);
    }
    Ok(())
}

/// The blocks before which nothing of their name emits code.
///
/// # Errors
///
/// Fails only where memory runs out.
pub fn first_of(
    alloc: Global,
    program: &Node,
    scoping: &Scoping,
) -> Result<Vec<NodeId>, OutOfMemory> {
    let blocks = blocks_of(alloc, program)?;
    let places = Places::of_tree(alloc, program)?;
    let first = first_blocks(alloc, blocks.as_slice(), scoping, &places);
    drop(places);
    first
}

/// Puts a number as a line.
fn put_number(number: u64, lines: &mut Lines) {
    lines.put(&[Piece::Number(number), Piece::Text("\n")]);
}

/// Puts the number of the first declaration that clashes with one before it, or `-`.
///
/// # Errors
///
/// Fails only where memory runs out.
pub fn put_clash(alloc: Global, program: &Node, lines: &mut Lines) -> Result<(), OutOfMemory> {
    let scoping = resolve(alloc, program, false)?;
    let outcome = put_clash_by(alloc, program, &scoping, lines);
    drop(scoping);
    outcome
}

/// The same, where that is the table of scopes.
fn put_clash_by(
    alloc: Global,
    program: &Node,
    scoping: &Scoping,
    lines: &mut Lines,
) -> Result<(), OutOfMemory> {
    let blocks = blocks_of(alloc, program)?;
    let places = Places::of_tree(alloc, program)?;
    let faults = merge_faults(alloc, blocks.as_slice(), scoping, &places);
    drop(places);
    match faults?.clash {
        Some(number) => put_number(number.0, lines),
        None => lines.put(&[Piece::Text("-\n")]),
    }
    Ok(())
}
