//! The walk of a small tree by the pass that does nothing.

use crate::context::of_table;
use oxt_ctx::context::TraverseCtx;
use oxt_lines::lines::Lines;
use oxt_lines::source::outline_of;
use oxt_lines::stopped::Stopped;
use oxt_lines::table::Table;
use oxt_resolve::resolve::resolve;
use oxt_scoping::scoping::Scoping;
use oxt_traverse::nothing::Nothing;
use oxt_tree::tree::{Node, Program};
use oxt_walk::walk::walk_program;
use std::alloc::Global;

/// The walk.
pub fn print_passes(alloc: Global, table: &Table, lines: &mut Lines) -> Result<(), Stopped> {
    let mut program = table.tree(alloc, "this; class C {}")?;
    walked(alloc, &mut program, lines)?;
    print_outline(
        alloc,
        "walked by the pass that does nothing",
        &program.root,
        lines,
    )
}

/// Walks the program by the pass that does nothing.
fn walked(alloc: Global, program: &mut Program, lines: &mut Lines) -> Result<(), Stopped> {
    print_outline(alloc, "a program", &program.root, lines)?;
    let table = resolve(alloc, &program.root, false)?;
    walk_by(alloc, table, program)
}

fn walk_by(alloc: Global, table: Scoping, program: &mut Program) -> Result<(), Stopped> {
    let mut ctx = of_table(alloc, table);
    let outcome = walk(program, &mut ctx);
    drop(ctx);
    outcome
}

fn walk(program: &mut Program, ctx: &mut TraverseCtx) -> Result<(), Stopped> {
    walk_program(&mut Nothing, &mut program.root, ctx)?;
    Ok(())
}

/// A line with the nodes.
fn print_outline(
    alloc: Global,
    label: &str,
    node: &Node,
    lines: &mut Lines,
) -> Result<(), Stopped> {
    let text = outline_of(alloc, node)?;
    lines.text(label, text.as_str());
    Ok(())
}
