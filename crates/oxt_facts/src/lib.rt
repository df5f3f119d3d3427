//! The items of which effect words consist, the comparison of two words, and what is known and told of a tree that is
//! read.
#![tactic(auto)]

pub mod compare;
pub mod facts;
pub mod groups;
pub mod inside;
pub mod item;
mod met;
pub mod owners;
pub mod privates;
pub mod tags;
pub mod told;
