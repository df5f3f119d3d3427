//! What passes know and change while they walk a tree: the nodes around, the table of names, what
//! waits to be inserted, and the makers of names and of the nodes that are names; the hooks on nodes, and
//! the passes, which say what they do at which hook.
#![tactic(auto)]

pub mod accessor;
pub mod ancestor;
pub mod block;
pub mod bound;
pub mod constructor;
pub mod context;
pub mod functions;
pub mod helper;
pub mod hook;
pub mod keys;
mod makers;
pub mod maybe;
pub mod nodes;
pub mod parts;
pub mod pass;
pub mod text;
pub mod uid;
