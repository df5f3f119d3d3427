//! Elements of classes that stand where they may not: what their classes are, and where their fields are lowered to, decides;
//! and names that would mean something else once the decorators of class declarations go behind these, where decorators have
//! their older meaning.
#![tactic(auto)]

mod calls;
mod class;
pub mod classes;
mod keys;
pub mod misplaced;
pub mod moved;
mod private;
mod refused;
mod rules;
mod station;
mod storages;
