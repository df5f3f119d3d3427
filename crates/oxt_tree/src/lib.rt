//! The tree: nodes of one type, whose fields are those of the grammar; what they bind, copies of them, and which of them are TypeScript.
#![tactic(auto)]

pub mod bound;
pub mod copy;
pub mod fields;
pub mod inner;
pub mod inside;
pub mod syntax;
pub mod take;
pub mod tree;

pub use oxt_names::diagnostic::{DiagnosticKind, OxcDiagnostic};
pub use oxt_names::ids::{NodeId, NodeIds, OutOfMemory, Span};
pub use oxt_names::name::Name;
