//! The bench: runs each case of the table `cases.json` and tells which pass. Then it makes the public calls of runs that no case
//! reaches, those of certificates, faults and the passes one by one, each once, with ample memory, and prints what they
//! answer. Standard input has the trees and texts on which these are made.
#![tactic(auto)]

mod case;
mod check;
mod faults;
mod input;
mod runs;
mod walked;

ghost use Rattle.std.specs.Prelude.{◌≤◌, IfOk, length};

use crate::case::Case;
use crate::check::check;
use crate::faults::print_faults;
use crate::runs::print_runs;
use crate::walked::print_walked;
use anyhow::{Context, Result, ensure};
use oxt_io::{ReaderSource, Source};
use oxt_lines::lines::Lines;
use oxt_lines::stopped::Stopped;
use oxt_lines::table::Table;
use serde_json::Value;
use std::alloc::Global;
use std::fs;

fn main(rt: HostRuntime) -> Result<()> {
    let text = fs::read_to_string(&rt, "cases.json").context("cases.json is not there")?;
    let table = Value::from_str(rt.alloc(), text.as_str())?;
    run_cases(&rt, &table)?;
    let mut source = ReaderSource::new(rt.stdin());
    let lines = lines_of_calls(rt.alloc(), &mut source)?;
    let text = lines.as_str()?;
    print!(rt; "{text}")?;
    Ok(())
}

// Runs the cases of the table, all of which have to pass.
fn run_cases(rt: &(impl Print + AllocGlobal), table: &Value) -> Result<()> {
    let cases = table.as_array().context("the table is no list")?;
    let count = cases.len();
    let passed = count_passing(rt, cases.as_slice())?;
    println!(rt; "{count} cases, {passed} pass")?;
    ensure!(passed == count, "not all cases pass");
    Ok(())
}

// Runs the cases, prints a line for each, and answers how many pass.
fn count_passing(rt: &(impl Print + AllocGlobal), cases: &[Value]) -> Result<usize>
    ensures { IfOk result (λ n. n ≤ length cases.now) }
{
    let mut passed = 0;
    for value in cases {
        if passes(rt, value)? {
            passed += 1;
        }
    }
    Ok(passed)
}

// Runs one case and prints its line.
fn passes(rt: &(impl Print + AllocGlobal), value: &Value) -> Result<bool> {
    let case = Case::from_value(rt.alloc(), value)?;
    let name = case.name.as_str();
    match check(rt.alloc(), &case)? {
        None => {
            println!(rt; "pass {name}")?;
            Ok(true)
        }
        Some(difference) => {
            println!(rt; "FAIL {name}: {difference}")?;
            Ok(false)
        }
    }
}

// The lines of the calls, which are made on the trees and texts of the source.
fn lines_of_calls<S: Source>(alloc: Global, source: &mut S) -> Result<Lines> {
    let table = Table::read_from(alloc, source)?;
    let mut lines = Lines::new(alloc);
    print_calls(alloc, &table, &mut lines)?;
    Ok(lines)
}

// All sections.
fn print_calls(
    alloc: Global,
    table: &Table,
    lines: &mut Lines,
) -> std::result::Result<(), Stopped> {
    print_runs(alloc, table, lines)?;
    print_walked(alloc, table, lines)?;
    print_faults(alloc, lines)
}
