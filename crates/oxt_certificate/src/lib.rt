//! What is expected of the output for a source, and the test of an output.
#![tactic(auto)]

mod bound;
pub mod certificate;
mod decorators;
pub mod expected;
mod exports;
pub mod settings;

pub use certificate::Mismatch;
