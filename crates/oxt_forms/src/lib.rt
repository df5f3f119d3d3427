//! The forms by which effect words read a tree, and the items that a node has of its own.
#![tactic(auto)]

pub mod base;
pub mod forms;
pub mod made;
mod mentions;
pub mod passing;
pub mod put;
