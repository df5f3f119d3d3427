//! A case of the table.
//!
//! A case is an object of JSON. It has a `name` and may have `flags`, a list of words. Its input is
//! one of `tree` (any value, handed in as compact text), `bytes` (a text), `hex` (the digits of bytes
//! that are no text), `fill` (a `byte` and its `count`) and `nested` (so many `arrays` in one another,
//! between the texts `front` and `back`). With `step`, each call moves at most so many bytes; `failing`
//! lists the calls that fail, of `source`, `out` and `err`. Wanted are a `status` and the lines that
//! `out` and `err` take, if any, without their line feeds; `out_prefix` and `err_prefix` say how many
//! bytes of its line a sink takes that fails within it.
ghost use Rattle.std.specs.Prelude.{◌<◌};

use crate::input::input_bytes;
use anyhow::{Context, Result, ensure};
use oxt_transform::Name;
use serde_json::Value;
use std::alloc::{AllocError, Global};

// As many bytes a call as any buffer holds.
const ANY: u64 = 1 << 32;

/// What `run` is called with, and what it has to answer.
#[derive(Drop)]
pub struct Case {
    /// What the case shows.
    pub name: String,
    /// The words after the program's name.
    pub flags: Vec<Name>,
    /// All that the source holds.
    pub input: Vec<u8>,
    /// The most bytes that a call of the source or of a sink handles.
    pub step: usize,
    /// The calls that fail.
    pub failing: Failing,
    /// The answer.
    pub wanted: Wanted,
    ghost moves: { 0 < step },
}

/// The numbers of the calls that fail, the first being 1.
#[derive(Drop)]
pub struct Failing {
    pub source: Vec<u64>,
    pub out: Vec<u64>,
    pub err: Vec<u64>,
}

/// What has to come of a run.
#[derive(Drop)]
pub struct Wanted {
    pub status: u64,
    /// The bytes that the first sink takes.
    pub out: Vec<u8>,
    /// The bytes that the second sink takes.
    pub err: Vec<u8>,
}

impl Case {
    /// The case that a row of the table describes.
    ///
    /// # Errors
    ///
    /// One that names what the row lacks; or want of memory.
    pub fn from_value(alloc: Global, row: &Value) -> Result<Case> {
        let name = row.get("name").and_then(Value::as_str);
        let name = String::from_str(alloc, name.context("a case has no name")?)?;
        let step = number_or(row, "step", ANY) as usize;
        ensure!(step > 0, "{:?} moves no bytes", name.as_str());
        Ok(Case {
            flags: words(alloc, row.get("flags"))?,
            input: input_bytes(alloc, row)?,
            failing: Failing::from_value(alloc, row.get("failing"))?,
            wanted: Wanted::from_value(alloc, row)?,
            name,
            step,
        })
    }
}

impl Failing {
    // The calls that are named; none where nothing is.
    fn from_value(alloc: Global, failing: Option<&Value>) -> Result<Failing> {
        Ok(Failing {
            source: numbers(alloc, failing.and_then(|f| f.get("source")))?,
            out: numbers(alloc, failing.and_then(|f| f.get("out")))?,
            err: numbers(alloc, failing.and_then(|f| f.get("err")))?,
        })
    }
}

impl Wanted {
    fn from_value(alloc: Global, row: &Value) -> Result<Wanted> {
        let status = row.get("status").and_then(Value::as_u64);
        Ok(Wanted {
            status: status.context("a case has no status")?,
            out: line(alloc, row, "out", "out_prefix")?,
            err: line(alloc, row, "err", "err_prefix")?,
        })
    }
}

// The line under `key`, with its line feed, cut to the length under `prefix` where there is one.
fn line(alloc: Global, row: &Value, key: &str, prefix: &str) -> Result<Vec<u8>> {
    let mut bytes = Vec::new(alloc);
    if let Some(text) = row.get(key).and_then(Value::as_str) {
        bytes.extend_from_slice(text.as_bytes())?;
        bytes.push(b'\n')?;
    }
    bytes.truncate(number_or(row, prefix, ANY) as usize);
    Ok(bytes)
}

fn number_or(row: &Value, key: &str, default: u64) -> u64 {
    row.get(key).and_then(Value::as_u64).unwrap_or(default)
}

fn words(alloc: Global, list: Option<&Value>) -> Result<Vec<Name>> {
    let mut words = Vec::new(alloc);
    for value in items(list) {
        let word = value.as_str().context("a flag is no text")?;
        words.push(Name::new(alloc, word).map_err(|_| AllocError)?)?;
    }
    Ok(words)
}

fn numbers(alloc: Global, list: Option<&Value>) -> Result<Vec<u64>> {
    let mut numbers = Vec::new(alloc);
    for value in items(list) {
        numbers.push(value.as_u64().context("a call has no number")?)?;
    }
    Ok(numbers)
}

// The items of a list; none where there is no list.
fn items(list: Option<&Value>) -> &[Value] {
    match list.and_then(Value::as_array) {
        Some(items) => items.as_slice(),
        None => &[],
    }
}
