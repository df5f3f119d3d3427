//! The items of an effect word that no subtree gives: those of what is told of a node, and the rules and ways of reading one.
#![tactic(auto)]

pub mod accessors;
pub mod calls;
pub mod decorated;
pub mod enums;
pub mod gone;
pub mod metadata;
pub mod modules;
pub mod moves;
pub mod namespaces;
pub mod rule;
pub mod rule_of;
pub mod way;
