//! From the bytes of a TypeScript tree to those of a plain JavaScript tree, and the program's one call.
#![tactic(auto)]

pub mod fault;
pub mod program;
mod staying;
pub mod transform;

pub use fault::Fault;
pub use oxt_certificate::Mismatch;
pub use oxt_io::{
    Failed, MemorySink, MemorySource, ReaderSource, Sink, Source, SureSink, SureSource, WriterSink,
};
pub use oxt_names::ids::OutOfMemory;
pub use oxt_names::name::Name;
pub use oxt_options::{DecoratorOptions, Module, RewriteExtensionsMode, TypeScriptOptions};
pub use oxt_rewrite::typescript::TypeScript;
pub use program::{Outcome, run};
pub use transform::{TransformOptions, TransformerReturn, transform_text};
