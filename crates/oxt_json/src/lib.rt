//! Reads a tree from JSON: each document that the grammar allows, and of any other the place of
//! the first wrong value. Writes a tree as JSON, from which the same tree is read.
#![tactic(auto)]

mod head;
pub mod laws;
mod leaves;
mod misread;
mod nodes;
mod number;
mod order;
mod range;
pub mod read;
mod slot;
pub mod write;

pub use read::{ReadFault, read_tree};
pub use write::write_tree;
