//! What the reading of a tree is told of it: of a source, the imports, exports and specifiers that go, the blocks of its
//! enums, their members, the bare names that mean members, the expressions that are inlined, the specifiers of modules that
//! are rewritten, the blocks of namespaces and what they export, classes and their elements, decorators, and whether it is made
//! strict; and of any tree the groups of its names.
#![tactic(auto)]

mod calls;
mod classes;
mod decorated;
mod extensions;
pub mod groups;
mod lowering;
mod members;
mod metadata;
mod modules;
mod namespaces;
mod properties;
mod seat;
mod strict;
mod symbols;
mod syntax;
mod tags;
pub mod told;
mod uses;
