//! The constants of all members of the enums of a tree, and the blocks of its enums.
#![tactic(auto)]

pub mod blocks;
pub mod budget;
pub mod constants;
pub mod enums;
pub mod groups;
pub mod homes;
pub mod members;
pub mod names;
pub mod owners;
pub mod tables;
