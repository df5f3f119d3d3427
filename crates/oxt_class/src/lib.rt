//! The fields of classes lowered: moved into the constructor or static blocks, dropped where they are empty,
//! and parameters of the constructor put on the object.
#![tactic(auto)]

mod elements;
pub mod exit;
pub mod fields;
mod keys;
mod moving;
pub mod params;
pub mod pass;
pub mod properties;

pub use oxt_fields::class::get_super_call_position;
