//! What changes the lowering of a program: the options of a run, and the plan, which says what its check found out.
#![tactic(auto)]

pub mod lists;
pub mod metadata;
pub mod nodes;
pub mod options;
pub mod plan;
pub mod rewrite;
pub mod state;

pub use metadata::{GlobalName, MetadataType};
pub use options::{DecoratorOptions, Module, TransformOptions, TypeScriptOptions};
pub use rewrite::{RewriteExtensionsMode, parse_rewrite_import_extensions};
pub use state::TransformState;
