//! Types erased from a tree, and `import =`, `export =` and the names of modules lowered, by passes over the one walk.
#![tactic(auto)]

mod alias;
pub mod extensions;
mod fields;
pub mod module;
mod opening;
mod parts;
pub mod pass;
mod statements;
