//! Visitors, whose hooks do not walk, and the free walks that call them.
#![tactic(auto)]

pub mod look;
mod place;
pub mod visitor;
pub mod walk;
mod walker;
