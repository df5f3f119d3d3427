//! The statements that a transform inserts while it walks a tree: they wait, by the number of the statement beside which
//! they are to stand, until its list is left.
#![tactic(auto)]

pub mod injector;
pub mod law;
