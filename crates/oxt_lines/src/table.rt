//! The trees and the texts of standard input.

use crate::nodes::tree_of;
use crate::stopped::Stopped;
use oxt_io::{Source, read_to_limit};
use oxt_tree::tree::Program;
use serde_json::Value;
use std::alloc::Global;

// The most bytes of a table.
const LIMIT: usize = 65_536;

/// Trees by their names, which are mostly their source texts, and lists of rows.
#[derive(Drop)]
pub struct Table {
    value: Value,
}

impl Table {
    /// The table that the source holds.
    pub fn read_from<S: Source>(alloc: Global, source: &mut S) -> Result<Table, Stopped> {
        match read_to_limit(alloc, source, LIMIT) {
            Ok(bytes) => Table::read(alloc, bytes.as_slice()),
            Err(_) => Err(Stopped::NoInput),
        }
    }

    /// The table that the bytes spell.
    fn read(alloc: Global, bytes: &[u8]) -> Result<Table, Stopped> {
        match Value::from_slice(alloc, bytes) {
            Ok(value) => Ok(Table { value }),
            Err(_) => Err(Stopped::NoTree),
        }
    }

    /// The text of the tree of that name.
    pub fn text(&self, alloc: Global, name: &str) -> Result<Vec<u8>, Stopped> {
        match self.value.get(name) {
            Some(tree) => Ok(tree.to_vec(alloc)?),
            None => Err(Stopped::NoTree),
        }
    }

    /// The tree of that name.
    pub fn tree(&self, alloc: Global, name: &str) -> Result<Program, Stopped> {
        let text = self.text(alloc, name)?;
        tree_of(alloc, text.as_slice())
    }

    /// The list of that name.
    pub fn rows(&self, name: &str) -> &[Value] {
        match self.value.get(name).and_then(Value::as_array) {
            Some(list) => list.as_slice(),
            None => &[],
        }
    }
}
