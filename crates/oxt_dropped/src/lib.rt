//! Which blocks of enums are dropped: those of enums whose members are inlined and whose names nothing needs any more.
#![tactic(auto)]

pub mod dropped;
mod needed;
