//! What all passes know of the run.
ghost use Rattle.std.specs.Prelude.{◌≡◌};
ghost use Rattle.oxt_options.specs.Options.{state_of};

use crate::options::{Module, TransformOptions};

/// What all passes know of the run.
#[derive(Clone, Copy, PartialEq, Eq)]
pub struct TransformState {
    /// What the lowered program is written for.
    pub module: Module,
    /// Whether public fields are set by assignment in place of definition.
    pub set_public_class_fields: bool,
    /// Whether the program is a file of definitions.
    pub definition: bool,
    /// Whether another pass lowers fields of classes: never.
    pub is_class_properties_plugin_enabled: bool,
}

impl TransformState {
    /// What is known under these options of a program that is a file of definitions or not.
    pub fn new(options: &TransformOptions, definition: bool) -> TransformState
        ensures { result ≡ state_of options.now definition }
    {
        TransformState {
            module: options.module,
            set_public_class_fields: options.set_public_class_fields,
            definition,
            is_class_properties_plugin_enabled: false,
        }
    }
}
