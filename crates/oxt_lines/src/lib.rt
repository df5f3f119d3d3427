//! What the programs that run tables share: the trees on which calls are made, and the lines that are printed of them.
#![tactic(auto)]

pub mod lines;
pub mod nodes;
pub mod source;
pub mod stopped;
pub mod table;
