//! What is done to a program between its check and its test: the passes in their order, in one walk.
#![tactic(auto)]

mod plain_source;
pub mod rewrite;
pub mod typescript;
