//! Which nodes are trees of the grammar, and which of them are free of TypeScript; and the places of nodes, as JSON pointers.
#![tactic(auto)]

pub mod condition;
pub mod fits;
pub mod misfit;
pub mod place;
pub mod place_of;
pub mod plain;
pub mod pointer;
