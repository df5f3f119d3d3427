//! Which expressions stand for a constant of a member of an enum whose members are inlined.
#![tactic(auto)]

pub mod constants;
pub mod inlined;
pub mod names;
pub mod seat;
pub mod target;
pub mod values;
