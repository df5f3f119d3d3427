//! Enums and namespaces lowered to functions that make their objects.
#![tactic(auto)]

mod block;
mod constant;
mod facts;
mod function;
mod inline;
mod members;
pub mod namespace;
mod namespace_block;
mod namespace_call;
mod namespace_export;
mod namespace_list;
pub mod pass;
mod puts;
pub mod rename;
mod shorthand;
pub mod statement;
mod syntax;
