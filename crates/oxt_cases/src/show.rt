//! The lines of one table for what stands on standard input.

use crate::shown::{LIMIT, show_word};
use crate::table::Table;
use crate::trees::Trees;
use anyhow::{Result, bail};
use oxt_io::{ReaderSource, WriterSink, read_to_limit};
use serde_json::Value;
use std::alloc::Global;

/// Prints the lines of the table of that name.
///
/// # Errors
///
/// One that says that there is no such table, or that the input is none for it; or want of memory.
pub fn show(rt: &HostRuntime, word: &str) -> Result<()> {
    match Table::named(word) {
        Some(Table::Word) => show_source(rt),
        Some(table) => show_lines(rt, table),
        None => bail!("there is no table of that name"),
    }
}

/// Writes the word of the tree on standard input.
fn show_source(rt: &HostRuntime) -> Result<()> {
    let mut source = ReaderSource::new(rt.stdin());
    let mut out = WriterSink::new(rt.stdout());
    show_word(rt.alloc(), &mut source, &mut out)?;
    Ok(())
}

/// Prints the lines of another table.
fn show_lines(rt: &HostRuntime, table: Table) -> Result<()> {
    let trees = trees_on_input(rt, table)?;
    let lines = table.lines(rt.alloc(), &trees);
    drop(trees);
    let text = lines?;
    let text = text.as_str();
    print!(rt; "{text}")?;
    Ok(())
}

/// The trees on standard input: a tree alone, or an object with a `tree`, an `output` where the table compares two,
/// and options.
fn trees_on_input(rt: &HostRuntime, table: Table) -> Result<Trees> {
    let bytes = bytes_on_input(rt)?;
    match object_in(rt.alloc(), bytes.as_slice()) {
        Some(object) => trees_in(rt.alloc(), object),
        None if table.compares_two() => bail!("there is no output"),
        None => Trees::from_bytes(rt.alloc(), bytes.as_slice()),
    }
}

/// The trees of an object.
fn trees_in(alloc: Global, object: Value) -> Result<Trees> {
    let trees = Trees::from_value(alloc, &object);
    drop(object);
    trees
}

/// The object with a `tree` that the bytes spell, if they spell one.
fn object_in(alloc: Global, bytes: &[u8]) -> Option<Value> {
    match Value::from_slice(alloc, bytes) {
        Ok(value) if value.get("tree").is_some() => Some(value),
        _ => None,
    }
}

/// The bytes on standard input.
fn bytes_on_input(rt: &HostRuntime) -> Result<Vec<u8>> {
    let mut source = ReaderSource::new(rt.stdin());
    match read_to_limit(rt.alloc(), &mut source, LIMIT) {
        Ok(bytes) => Ok(bytes),
        Err(_) => bail!("the input is not read"),
    }
}
