//! What becomes of the elements of a class: which fields stay, go, or move into the constructor; the names that nothing
//! writes to, which a key may repeat; and what decorators of TypeScript's older meaning make of classes: where the alias of a
//! decorated class is set, whether a decorator asks for a private name, and where the values of accessors are stored.
#![tactic(auto)]

pub mod alias;
pub mod aliases;
pub mod class;
pub mod fate;
pub mod private_in;
pub mod rules;
pub mod statics;
mod steady;
pub mod storage;
pub mod text;
pub mod written;
