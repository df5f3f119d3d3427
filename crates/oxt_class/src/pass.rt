//! The pass that lowers the fields of classes.
//!
//! Before:
//!
//! ```ts
//! class Point extends Shape {
//!     y = 2;
//!     label?: string;
//!     static origin = new Point(0);
//!     constructor(public x: number) { super(); }
//! }
//! ```
//!
//! After, where parameters alone are put on the object:
//!
//! ```js
//! class Point extends Shape {
//!     x;
//!     y = 2;
//!     label;
//!     static origin = new Point(0);
//!     constructor(x) { super(); this.x = x; }
//! }
//! ```
//!
//! After, where fields are set by assignment, and empty ones are dropped:
//!
//! ```js
//! class Point extends Shape {
//!     static { this.origin = new Point(0); }
//!     constructor(x) { super(); this.x = x; this.y = 2; }
//! }
//! ```
ghost use Rattle.std.specs.Prelude.{◌≡◌, ◌<◌, ◌||◌, OnOk, length, not};
ghost use Rattle.oxt_ctx.specs.Made.{but_names_of};
ghost use Rattle.oxt_options.specs.Options.{transform_view};
ghost use Rattle.oxt_stores.specs.Frame.{frames};

use crate::exit::transform_class_on_exit;
use crate::fields::transform_class_fields;
use crate::params::transform_class_constructor;
use crate::properties::add_parameter_property_fields;
use oxt_ctx::context::TraverseCtx;
use oxt_ctx::hook::Hook;
use oxt_ctx::pass::Pass;
use oxt_names::ids::OutOfMemory;
use oxt_options::TransformOptions;
use oxt_tree::tree::{Node, Part};

/// The pass that puts parameters which are properties on the object, moves the values of fields into the
/// constructor and static blocks, and drops empty fields.
#[derive(Clone, Copy)]
pub struct ClassFields {
    /// Whether fields are set by assignment in place of definition.
    pub moves: bool,
    /// Whether empty fields are dropped.
    pub drops_empty: bool,
}

impl ClassFields {
    /// The pass with these options.
    pub fn new(options: &TransformOptions) -> ClassFields
        ensures moves { result.moves ≡ (transform_view options.now).set_public_class_fields }
        ensures drops { result.drops_empty ≡ (not (transform_view options.now).typescript.allow_declare_fields
            || (transform_view options.now).typescript.remove_class_fields_without_initializer) }
    {
        let typescript = &options.typescript;
        ClassFields {
            moves: options.set_public_class_fields,
            drops_empty: !typescript.allow_declare_fields
                || typescript.remove_class_fields_without_initializer,
        }
    }

    /// Moves the fields of the class, or gives it those of the parameters that are properties.
    fn enter_class(self, class: &mut Node, ctx: &mut TraverseCtx) -> Result<(), OutOfMemory>
        requires { 0 < length (frames ctx.old.declarations) }
        ensures frame { OnOk result (ctx.new ≡ but_names_of ctx.old ctx.new) }
        ensures depth { OnOk result
            (length (frames ctx.new.declarations) ≡ length (frames ctx.old.declarations)) }
    {
        if self.moves {
            transform_class_fields(class, self.drops_empty, ctx)
        } else if self.drops_empty {
            Ok(())
        } else {
            add_parameter_property_fields(class, ctx)
        }
    }

    /// Puts the parameters of the constructor that are properties on the object, where its class was not
    /// given them with its fields.
    fn enter_method(self, method: &mut Node, ctx: &mut TraverseCtx) -> Result<(), OutOfMemory>
        ensures frame { OnOk result (ctx.new ≡ but_names_of ctx.old ctx.new) }
        ensures depth { OnOk result
            (length (frames ctx.new.declarations) ≡ length (frames ctx.old.declarations)) }
    {
        if self.moves {
            Ok(())
        } else {
            transform_class_constructor(method, ctx)
        }
    }
}

impl Pass for ClassFields {
    fn at_node(
        &mut self,
        hook: Hook,
        node: &mut Node,
        ctx: &mut TraverseCtx,
    ) -> Result<(), OutOfMemory> {
        match hook {
            Hook::EnterClass => (*self).enter_class(node, ctx),
            Hook::EnterMethodDefinition => (*self).enter_method(node, ctx),
            Hook::ExitClass => {
                transform_class_on_exit(node, self.drops_empty, ctx);
                Ok(())
            }
            _ => Ok(()),
        }
    }

    fn at_statements(
        &mut self,
        _hook: Hook,
        _statements: &mut Vec<Part>,
        _ctx: &mut TraverseCtx,
    ) -> Result<(), OutOfMemory> {
        Ok(())
    }
}
