//! Public calls that no row of a table reaches: those of trees and texts, sources and sinks, options, diagnostics and effect words; of
//! made names, tables of scopes, plans, constants, owners and members that are inlined; of the stores, the context of a walk, its
//! hooks and the passes. Each is made once, with ample memory, and what it answers is printed. Last come the hooks that run on a
//! tree with a node of each kind. Standard input has the trees
//! and texts on which they are made.
#![tactic(auto)]

mod both;
mod context;
mod diagnostics;
mod hooks;
mod inlines;
mod io;
mod keys;
mod names;
mod options;
mod owners;
mod passes;
mod places;
mod plans;
mod recorder;
mod scoping;
mod stores;
mod supers;
mod symbols;
mod targets;
mod texts;
mod trees;
mod visits;
mod words;

use crate::both::print_both;
use crate::context::print_context;
use crate::diagnostics::print_diagnostics;
use crate::hooks::print_hooks;
use crate::inlines::print_inlines;
use crate::io::print_io;
use crate::keys::print_keys;
use crate::names::print_names;
use crate::options::print_options;
use crate::owners::print_owners;
use crate::passes::print_passes;
use crate::places::print_places;
use crate::plans::print_plans;
use crate::scoping::print_scoping;
use crate::stores::print_stores;
use crate::supers::print_supers;
use crate::symbols::print_symbols;
use crate::targets::print_targets;
use crate::texts::print_texts;
use crate::trees::print_trees;
use crate::visits::print_visits;
use crate::words::print_words;
use anyhow::Result;
use oxt_io::{ReaderSource, Source};
use oxt_lines::lines::Lines;
use oxt_lines::stopped::{Stopped, all_well};
use oxt_lines::table::Table;
use std::alloc::Global;

fn main(rt: HostRuntime) -> Result<()> {
    let mut source = ReaderSource::new(rt.stdin());
    let lines = lines_of_calls(rt.alloc(), &mut source)?;
    let text = lines.as_str()?;
    print!(rt; "{text}")?;
    Ok(())
}

/// The lines of the calls, which are made on the trees and texts of the source.
fn lines_of_calls<S: Source>(alloc: Global, source: &mut S) -> Result<Lines> {
    let table = Table::read_from(alloc, source)?;
    let mut lines = Lines::new(alloc);
    print_all(alloc, &table, &mut lines)?;
    Ok(lines)
}

/// All sections.
fn print_all(alloc: Global, table: &Table, lines: &mut Lines) -> std::result::Result<(), Stopped> {
    all_well(&[
        print_of_trees(alloc, table, lines),
        print_of_names(alloc, table, lines),
        print_of_walks(alloc, table, lines),
    ])
}

/// The calls of trees and texts, sources and sinks, options, diagnostics and effect words.
fn print_of_trees(
    alloc: Global,
    table: &Table,
    lines: &mut Lines,
) -> std::result::Result<(), Stopped> {
    all_well(&[
        print_options(alloc, lines),
        print_diagnostics(alloc, lines),
        print_words(alloc, lines),
        print_io(alloc, lines),
        print_trees(alloc, table, lines),
        print_texts(alloc, table, lines),
        print_targets(alloc, table, lines),
        print_places(alloc, table, lines),
        print_visits(alloc, table, lines),
        print_supers(alloc, table, lines),
    ])
}

/// The calls of names, tables of scopes, plans, constants and owners.
fn print_of_names(
    alloc: Global,
    table: &Table,
    lines: &mut Lines,
) -> std::result::Result<(), Stopped> {
    all_well(&[
        print_names(alloc, table, lines),
        print_scoping(alloc, table, lines),
        print_plans(alloc, lines),
        print_symbols(alloc, table, lines),
        print_owners(alloc, table, lines),
        print_inlines(alloc, table, lines),
    ])
}

/// The calls of the stores, the context of a walk, its hooks and the passes.
fn print_of_walks(
    alloc: Global,
    table: &Table,
    lines: &mut Lines,
) -> std::result::Result<(), Stopped> {
    all_well(&[
        print_stores(alloc, lines),
        print_context(alloc, table, lines),
        print_keys(alloc, table, lines),
        print_passes(alloc, table, lines),
        print_both(alloc, table, lines),
        print_hooks(alloc, table, lines),
    ])
}
