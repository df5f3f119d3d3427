//! The effect word of a tree: a flat list of items that says what the code does.
#![tactic(auto)]

mod accessors;
mod calls;
mod class;
mod decorated;
mod enums;
mod modules;
mod moves;
mod namespaces;
mod ways;
pub mod word;
