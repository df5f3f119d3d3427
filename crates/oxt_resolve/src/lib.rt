//! The table of a tree's scopes, symbols and references, the groups that its names mean and declare, and the names that it takes.
#![tactic(auto)]

mod enums;
mod firsts;
mod flags;
pub mod groups;
pub mod laws;
mod marks;
pub mod names;
mod opening;
pub mod resolve;
mod symbols;
mod uses;
