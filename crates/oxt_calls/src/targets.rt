//! Wrappers around what is assigned to.

use oxt_check::beside::first_typescript_beside;
use oxt_check::targets::WrappedTargets;
use oxt_lines::lines::Lines;
use oxt_lines::stopped::{Stopped, all_well};
use oxt_lines::table::Table;
use oxt_names::ids::NodeId;
use oxt_tree::tree::Node;
use std::alloc::Global;

/// The wrappers that stay, and what is not plain beside them.
pub fn print_targets(alloc: Global, table: &Table, lines: &mut Lines) -> Result<(), Stopped> {
    all_well(&[
        of_text(
            alloc,
            table,
            "a wrapper around this is kept",
            "[, this as any] = this;",
            lines,
        ),
        of_text(
            alloc,
            table,
            "in a definition file none is",
            "[, this as any] = this; as definitions",
            lines,
        ),
        of_text(
            alloc,
            table,
            "around a name none is",
            "(x as any) = this;",
            lines,
        ),
    ])
}

fn of_text(
    alloc: Global,
    table: &Table,
    label: &str,
    name: &str,
    lines: &mut Lines,
) -> Result<(), Stopped> {
    let program = table.tree(alloc, name)?;
    lines.heading(label);
    of_program(alloc, &program.root, lines)
}

fn of_program(alloc: Global, program: &Node, lines: &mut Lines) -> Result<(), Stopped> {
    let targets = WrappedTargets::of(alloc, program, false)?;
    lines.numbers("len", &[targets.len() as u64]);
    lines.begin("the nodes that it has");
    for number in 1..10 {
        push_if_had(&targets, number, lines);
    }
    lines.end();
    print_place(alloc, &targets, program, lines)
}

/// Adds the number of the node, where it is one of the wrappers.
fn push_if_had(targets: &WrappedTargets, number: u64, lines: &mut Lines) {
    if targets.has(NodeId(number)) {
        lines.number_value(number);
    }
}

/// A line with the first place that is not plain beside the wrappers.
fn print_place(
    alloc: Global,
    targets: &WrappedTargets,
    program: &Node,
    lines: &mut Lines,
) -> Result<(), Stopped> {
    match first_typescript_beside(alloc, targets, program)? {
        Some(place) => lines.text("first_typescript_beside", place.as_str()),
        None => lines.text("first_typescript_beside", "none"),
    }
    Ok(())
}
