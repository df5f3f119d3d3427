//! The one walk over a tree that runs the hooks of a pass.
#![tactic(auto)]

pub use oxt_ctx::hook::Hook;
pub use oxt_traverse::both::Both;
pub use oxt_traverse::traverse::Traverse;

pub mod walk;
