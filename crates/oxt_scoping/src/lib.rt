//! The table of a program's scopes, symbols and references.
#![tactic(auto)]

pub mod entry;
mod places;
pub mod scoping;
