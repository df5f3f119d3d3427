//! Why a program is refused, what is kept of it, which wrappers stay, and what its writer is told.
#![tactic(auto)]

pub mod beside;
mod capture;
pub mod check_program;
pub mod diagnose;
mod enums;
pub mod fault;
pub mod laws;
mod misplacement;
pub mod named;
mod push;
mod seat;
mod sight;
mod survey;
pub mod targets;
mod tell;
mod wrapped;

pub use check_program::check;
pub use diagnose::diagnostics_of;
pub use fault::{Fault, Mismatch, MisplacedKind};
pub use named::{
    ambient_module_nested, export_assignment_cannot_bed_used_in_esm,
    import_equals_cannot_be_used_in_esm, namespace_exporting_non_const, namespace_not_supported,
};
pub use oxt_options::lists::PlanLists;
pub use oxt_options::plan::Plan;
pub use oxt_options::{
    DecoratorOptions, Module, RewriteExtensionsMode, TransformOptions, TypeScriptOptions,
    parse_rewrite_import_extensions,
};
