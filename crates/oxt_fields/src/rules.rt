//! The rules by which fields are lowered.
ghost use Rattle.std.specs.Prelude.{◌≡◌};
ghost use Rattle.oxt_fields.specs.Rules.{rules_in, rules_view};
ghost use Rattle.oxt_options.specs.Options.{transform_view};

use oxt_options::options::TransformOptions;
use oxt_options::plan::Plan;

/// The rules by which fields are lowered.
#[derive(Clone, Copy)]
pub struct FieldRules<'a> {
    /// Whether public fields are set by assignment in place of definition.
    pub moves: bool,
    /// Whether fields without a value are dropped.
    pub drops_empty: bool,
    /// Whether decorators have their older meaning, and are lowered.
    pub legacy: bool,
    /// Whether metadata is emitted for what is decorated.
    pub emits_metadata: bool,
    /// What is known of the source.
    pub plan: &'a Plan,
}

impl<'a> FieldRules<'a> {
    /// The rules under these options, where the plan is that of the source.
    pub fn new(options: &TransformOptions, plan: &'a Plan) -> FieldRules<'a>
        ensures { rules_view result ≡ rules_in (transform_view options.now) plan.now }
    {
        let typescript = &options.typescript;
        FieldRules {
            moves: options.set_public_class_fields,
            drops_empty: !typescript.allow_declare_fields
                || typescript.remove_class_fields_without_initializer,
            legacy: options.decorator.legacy,
            emits_metadata: options.decorator.emits_metadata(),
            plan,
        }
    }
}
