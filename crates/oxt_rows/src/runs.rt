//! A run over a source and sinks that never fail, and the settings of an output beside those of its source.

use oxt_certificate::certificate::find_mismatch;
use oxt_certificate::expected::Expected;
use oxt_lines::lines::Lines;
use oxt_lines::stopped::Stopped;
use oxt_lines::table::Table;
use oxt_options::options::TransformOptions;
use oxt_options::plan::Plan;
use oxt_resolve::resolve::{Resolution, TreeNames, resolve_names};
use oxt_scoping::scoping::Scoping;
use oxt_transform::{Mismatch, SureSink, SureSource, run};
use oxt_tree::tree::Node;
use std::alloc::Global;

/// The run, and the settings.
pub fn print_runs(alloc: Global, table: &Table, lines: &mut Lines) -> Result<(), Stopped> {
    sure(alloc, table, lines)?;
    settings(alloc, table, lines)
}

fn sure(alloc: Global, table: &Table, lines: &mut Lines) -> Result<(), Stopped> {
    let text = table.text(alloc, "const x: number = 0;")?;
    let mut source = SureSource::new(alloc, text.as_slice())?;
    let status = status_of(alloc, &mut source);
    lines.numbers(
        "a run over a sure source and sure sinks: its status",
        &[u64::from(status)],
    );
    Ok(())
}

/// The status of a run over the source.
fn status_of(alloc: Global, source: &mut SureSource) -> u8 {
    let mut out = SureSink::new();
    let mut err = SureSink::new();
    run(alloc, &[], source, &mut out, &mut err).status()
}

fn settings(alloc: Global, table: &Table, lines: &mut Lines) -> Result<(), Stopped> {
    let program = table.tree(alloc, "nothing")?;
    let mut expected = expected_of(alloc, &program.root)?;
    let printed = print_settings(alloc, &mut expected, &program.root, lines);
    drop(expected);
    printed
}

/// The settings beside those that are expected, and beside those of a script.
fn print_settings(
    alloc: Global,
    expected: &mut Expected,
    root: &Node,
    lines: &mut Lines,
) -> Result<(), Stopped> {
    print_mismatch(
        alloc,
        "a module that stays TypeScript, beside a module",
        expected,
        root,
        lines,
    )?;
    expected.settings.script = true;
    print_mismatch(alloc, "beside a script", expected, root, lines)
}

/// What is expected of the output of a source, of which no specifier is kept.
fn expected_of(alloc: Global, root: &Node) -> Result<Expected, Stopped> {
    let Resolution { scoping, names } = resolve_names(alloc, root, false)?;
    let expected = expected_by(alloc, root, &scoping, names);
    drop(scoping);
    expected
}

/// The same, where that is the source's table, and these are its names.
fn expected_by(
    alloc: Global,
    root: &Node,
    scoping: &Scoping,
    names: TreeNames,
) -> Result<Expected, Stopped> {
    let options = TransformOptions::defaults(alloc)?;
    let plan = Plan::empty(alloc);
    let expected = Expected::of(alloc, root, scoping, names, &plan, &options);
    drop(plan);
    Ok(expected?)
}

/// A line with the place of the setting that is wrong.
fn print_mismatch(
    alloc: Global,
    label: &str,
    expected: &Expected,
    root: &Node,
    lines: &mut Lines,
) -> Result<(), Stopped> {
    let mismatch = find_mismatch(alloc, expected, root)?;
    lines.text(label, text_of(&mismatch));
    drop(mismatch);
    Ok(())
}

/// The place of the setting that is wrong, or what is wrong else.
fn text_of(mismatch: &Option<Mismatch>) -> &str {
    match mismatch {
        Some(Mismatch::Setting { place }) => place.as_str(),
        Some(_) => "another mismatch",
        None => "none",
    }
}
