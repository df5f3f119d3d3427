//! What metadata writes for the types of decorated classes and of their elements: a global name, `void 0`, or a name of the
//! source if that is there when the code runs.
#![tactic(auto)]

mod annotations;
mod events;
mod form;
mod join;
pub mod metadata;
pub mod name;
mod shape;
mod shapes;
mod sight;
mod site;
pub mod symbols;
mod types;
pub mod typing;

pub use metadata::Metadata;
