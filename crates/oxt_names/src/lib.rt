//! What stands below the tree and needs none: numbers of nodes, symbols, scopes and references, with their flags; shared texts;
//! the constants of enum members; made names, which no name of a source is; and diagnostics, with their lines.
#![tactic(auto)]

pub mod base;
pub mod constant;
pub mod diagnostic;
pub mod flags;
pub mod ids;
pub mod lines;
pub mod name;
mod short;
pub mod table;
pub mod uid;
