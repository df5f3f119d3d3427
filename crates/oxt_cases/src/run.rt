//! The run of all tables.

use crate::case::Case;
use crate::table::{TABLES, Table};
use crate::tally::Tally;
use anyhow::{Context, Result, ensure};
use serde_json::Value;
use std::alloc::Global;
use std::fs;

/// Runs each case of each table, prints a line for each, and the count at the end.
///
/// # Errors
///
/// One that names what a table lacks, or says that not all cases pass; or want of memory.
pub fn run_tables(rt: &HostRuntime) -> Result<()> {
    let mut tally = Tally::default();
    for table in &TABLES {
        run_table(rt, *table, &mut tally)?;
    }
    let Tally { cases, passed } = tally;
    println!(rt; "{cases} cases, {passed} pass")?;
    ensure!(tally.is_full(), "not all cases pass");
    Ok(())
}

/// Runs a table.
fn run_table(rt: &HostRuntime, table: Table, tally: &mut Tally) -> Result<()> {
    let value = table_in(rt, table.file())?;
    let outcome = run_rows(rt, table, &value, tally);
    drop(value);
    outcome
}

/// Runs the cases that the table's value lists.
fn run_rows(
    rt: &(impl Print + AllocGlobal),
    table: Table,
    value: &Value,
    tally: &mut Tally,
) -> Result<()> {
    let cases = value.as_array().context("a table is no list")?;
    run_cases(rt, table, cases.as_slice(), tally)
}

/// The table in that file.
fn table_in(rt: &HostRuntime, file: &str) -> Result<Value> {
    let text = fs::read_to_string(rt, file).context("a table is not there")?;
    Ok(Value::from_str(rt.alloc(), text.as_str())?)
}

/// Runs the cases of a table.
fn run_cases(
    rt: &(impl Print + AllocGlobal),
    table: Table,
    cases: &[Value],
    tally: &mut Tally,
) -> Result<()> {
    for row in cases {
        tally.count(passes(rt, table, row)?);
    }
    Ok(())
}

/// Runs one case and prints its line.
fn passes(rt: &(impl Print + AllocGlobal), table: Table, row: &Value) -> Result<bool> {
    let case = Case::from_value(rt.alloc(), row)?;
    let found = found_of(rt.alloc(), table, &case)?;
    tell(rt, &case, found.as_str())
}

/// What is found of a case.
fn found_of(alloc: Global, table: Table, case: &Case) -> Result<String> {
    let trees = case.trees(alloc)?;
    let lines = table.lines(alloc, &trees);
    drop(trees);
    lines
}

/// Prints the line of a case of which that is found.
fn tell(rt: &impl Print, case: &Case, found: &str) -> Result<bool> {
    let name = case.name;
    let wanted = case.wanted.as_str();
    if found == wanted {
        println!(rt; "pass {name}")?;
        return Ok(true);
    }
    println!(rt; "FAIL {name}: {found:?} in place of {wanted:?}")?;
    Ok(false)
}
