//! The constants of enum members, by their initializers, with JavaScript's operators.
#![tactic(auto)]

pub mod apply;
pub mod evaluate;
pub mod form;
pub mod integer;
pub mod leaf;
pub mod meanings;
pub mod member;
pub mod meter;
pub mod operand;
pub mod operator;
pub mod parts;
pub mod reversed;
