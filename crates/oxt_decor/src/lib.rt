//! Legacy decorators lowered: members and classes decorated by calls behind the class, with the metadata of their types, exports
//! put behind these, and accessors made of a private field, a getter and a setter.
#![tactic(auto)]

mod accessor;
pub mod alias;
mod calls;
mod class;
mod elements;
mod frame;
mod key;
pub mod legacy;
pub mod metadata;
mod names;
mod parts;
pub mod pass;
pub mod private_in;
mod shorthand;
mod stand_in;
mod statement;
mod types;
mod used;
