//! Places behind calls of `super`.

use oxt_fields::class::get_super_call_position;
use oxt_grammar::field::Field;
use oxt_lines::lines::Lines;
use oxt_lines::stopped::{Stopped, all_well};
use oxt_lines::table::Table;
use std::alloc::Global;

/// The places behind the call in a few lists of statements.
pub fn print_supers(alloc: Global, table: &Table, lines: &mut Lines) -> Result<(), Stopped> {
    lines.heading("the place behind super()");
    all_well(&[
        print_position(alloc, table, "f(); super(); g();", lines),
        print_position(alloc, table, "no statements", lines),
        print_position(alloc, table, "if (x) super();", lines),
    ])
}

/// A line with the place in the statements of the program of that name.
fn print_position(
    alloc: Global,
    table: &Table,
    name: &str,
    lines: &mut Lines,
) -> Result<(), Stopped> {
    let program = table.tree(alloc, name)?;
    let place = get_super_call_position(program.root.list(Field::Body));
    lines.numbers(name, &[place as u64]);
    Ok(())
}
