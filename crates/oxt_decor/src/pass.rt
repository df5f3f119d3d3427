//! The pass that lowers decorators.
//!
//! Before:
//!
//! ```ts
//! @sealed export class Shape {
//!     @noted draw(@checked size: number) { return Shape; }
//! }
//! ```
//!
//! After:
//!
//! ```js
//! var _Shape;
//! let Shape = _Shape = class Shape {
//!     draw(size) { return _Shape; }
//! };
//! babelHelpers.decorate([noted, babelHelpers.decorateParam(0, checked)], Shape.prototype, "draw", null);
//! Shape = _Shape = babelHelpers.decorate([sealed], Shape);
//! export { Shape };
//! ```
ghost use Rattle.std.specs.Prelude.{◌≡◌, ◌<◌, OnOk, length};
ghost use Rattle.oxt_stores.specs.Frame.{frames};

use crate::legacy::LegacyDecorator;
use oxt_ctx::context::TraverseCtx;
use oxt_ctx::hook::Hook;
use oxt_ctx::pass::Pass;
use oxt_names::ids::OutOfMemory;
use oxt_options::options::DecoratorOptions;
use oxt_tree::tree::{Node, Part};
use std::alloc::Global;

/// The pass that lowers decorators where they have their older meaning. Where they have not, they stay.
#[derive(Drop)]
pub struct Decorator {
    /// Whether they have it.
    is_legacy: bool,
    /// The pass that lowers them.
    legacy: LegacyDecorator,
}

impl Decorator {
    /// The pass with these options, as it begins.
    pub fn new(alloc: Global, options: DecoratorOptions) -> Decorator
        ensures { result.is_legacy ≡ options.legacy }
    {
        Decorator {
            is_legacy: options.legacy,
            legacy: LegacyDecorator::new(alloc, options),
        }
    }

    /// Puts the calls of the class, which was left last, behind its statement.
    pub fn exit_class_at_end(
        &mut self,
        class: &mut Node,
        ctx: &mut TraverseCtx,
    ) -> Result<(), OutOfMemory>
        ensures around { OnOk result (ctx.new.ancestors ≡ ctx.old.ancestors) }
        ensures depth { OnOk result
            (length (frames ctx.new.declarations) ≡ length (frames ctx.old.declarations)) }
    {
        if self.is_legacy {
            self.legacy.exit_class_at_end(class, ctx)
        } else {
            Ok(())
        }
    }
}

impl Pass for Decorator {
    fn at_node(
        &mut self,
        hook: Hook,
        node: &mut Node,
        ctx: &mut TraverseCtx,
    ) -> Result<(), OutOfMemory> {
        if self.is_legacy {
            self.legacy.at_node(hook, node, ctx)
        } else {
            Ok(())
        }
    }

    fn at_statements(
        &mut self,
        _hook: Hook,
        _statements: &mut Vec<Part>,
        _ctx: &mut TraverseCtx,
    ) -> Result<(), OutOfMemory> {
        Ok(())
    }
}
