//! What a transform puts aside while it walks a tree: the statements that wait beside one statement,
//! and the declarators that wait for the top of the lists that are being walked.
#![tactic(auto)]

pub mod bound;
pub mod declarations;
pub mod insertions;
mod make;
pub mod refused;
pub mod sparse;
