//! What the lowering of enums asks of a source: which blocks come first, which declarations do not merge, and which members
//! and bare names cannot be lowered.
#![tactic(auto)]

mod around;
pub mod blocks;
mod clash;
pub mod first;
mod late_base;
mod members;
pub mod merges;
pub mod misnamed;
pub mod misused;
pub mod places;
mod repeated;
pub mod shadowed;
mod shadows;
mod sort;
mod sought;
mod uses;
pub mod wide;
