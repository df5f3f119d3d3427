//! A case of a table.
//!
//! A case is an object of JSON: a `name`, the `source` text that it stands for, its `tree`, the tree of an
//! `output` where the table compares two, `optimize` where the members of its enums are inlined, `moves` where
//! public fields are set by assignment, `drops` where empty ones are removed, `module` and `rewrite` as on the
//! command line, and `wanted`, a list with a value for each line that is wanted: a text, or what a line has as JSON.

use crate::pieces::{Lines, Piece};
use crate::trees::Trees;
use anyhow::{Context, Result};
use serde_json::Value;
use std::alloc::{AllocError, Global};

/// A case, and the lines that are wanted of it.
#[derive(Drop)]
pub struct Case<'a> {
    /// What the case shows.
    pub name: &'a str,
    /// The row of the table, which has the trees.
    row: &'a Value,
    /// The lines.
    pub wanted: String,
}

impl<'a> Case<'a> {
    /// The case that a row of the table describes.
    ///
    /// # Errors
    ///
    /// One that names what the row lacks; or want of memory.
    pub fn from_value(alloc: Global, row: &'a Value) -> Result<Case<'a>> {
        let name = row.get("name").and_then(Value::as_str);
        let name = name.context("a case has no name")?;
        let wanted = row.get("wanted").and_then(Value::as_array);
        let wanted = wanted.context("a case has no lines")?;
        Ok(Case {
            name,
            row,
            wanted: joined(alloc, wanted.as_slice())?,
        })
    }

    /// The trees of the case.
    ///
    /// # Errors
    ///
    /// One that says that a tree is none; or want of memory.
    pub fn trees(&self, alloc: Global) -> Result<Trees> {
        Trees::from_value(alloc, self.row)
    }
}

/// The values, a line each: a text as it is, and another value as JSON.
fn joined(alloc: Global, values: &[Value]) -> Result<String, AllocError> {
    let mut lines = Lines::new(alloc);
    for value in values {
        match value.as_str() {
            Some(text) => lines.put(&[Piece::Text(text)]),
            None => lines.put_json(value),
        }
        lines.put(&[Piece::Text("\n")]);
    }
    lines.into_string()
}
