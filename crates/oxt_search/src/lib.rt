//! Searches over the tree: the first that nodes give, and all that they give, in the order of the text.
#![tactic(auto)]

pub mod all;
pub mod first;
pub mod search;
