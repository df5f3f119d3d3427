//! The scopes of a tree, each with what it declares, and the owner of each name that is used: by spelling and nesting alone.
#![tactic(auto)]

pub mod look;
pub mod owners;
pub mod scope;
pub mod scopes;
pub mod standing;
pub mod usage;
pub mod walk;
pub mod way;
