//! Places of nodes.

use oxt_lines::lines::Lines;
use oxt_lines::stopped::{Stopped, all_well};
use oxt_lines::table::Table;
use oxt_names::ids::NodeId;
use oxt_tree::tree::Node;
use oxt_valid::place_of::place_of;
use std::alloc::Global;

/// The places of a program, of a node in it, and of none.
pub fn print_places(alloc: Global, table: &Table, lines: &mut Lines) -> Result<(), Stopped> {
    let program = table.tree(alloc, "x;")?;
    all_well(&[
        print_place(
            alloc,
            &program.root,
            1,
            "the place of the program x;",
            lines,
        ),
        print_place(alloc, &program.root, 3, "the place of its name", lines),
        print_place(
            alloc,
            &program.root,
            4,
            "the place of a number that no node has",
            lines,
        ),
    ])
}

/// A line with the place of the node of that number.
fn print_place(
    alloc: Global,
    program: &Node,
    number: u64,
    label: &str,
    lines: &mut Lines,
) -> Result<(), Stopped> {
    match place_of(alloc, program, NodeId(number))? {
        Some(place) => lines.bracketed(label, place.as_str()),
        None => lines.text(label, "none"),
    }
    Ok(())
}
