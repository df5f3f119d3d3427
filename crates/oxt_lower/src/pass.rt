//! The pass that lowers enums.
//!
//! Before:
//!
//! ```ts
//! enum Color { Red, Green = "green" }
//! const enum Size { Small = 1, Large = -Small }
//! paint(Color.Red, Size.Large as number);
//! ```
//!
//! After, where the members of enums with `const` are inlined:
//!
//! ```js
//! var Color = /* @__PURE__ */ function(Color) {
//!     Color[Color["Red"] = 0] = "Red";
//!     Color["Green"] = "green";
//!     return Color;
//! }(Color || {});
//! paint(Color.Red, -1);
//! ```

ghost use Rattle.std.specs.Prelude.{◌≡◌};

use crate::inline::inline_constant;
use crate::statement::{drop_blocks, lower_statement};
use oxt_ctx::context::TraverseCtx;
use oxt_ctx::hook::Hook;
use oxt_ctx::pass::Pass;
use oxt_names::ids::OutOfMemory;
use oxt_tree::tree::{Node, Part};

/// The pass that puts in the place of each block of an enum the call of a function that makes the
/// enum's object, and in the place of each expression that the plan inlines its constant. Blocks that the
/// plan drops go when their list is left, so that nothing is in their place. Blocks that are erased stay,
/// and so do enums that are not statements.
#[derive(Clone, Copy)]
pub struct TypeScriptEnum {
    /// Whether members of enums with `const` are inlined.
    pub optimize_const_enums: bool,
    /// Whether those of other enums are.
    pub optimize_enums: bool,
}

impl TypeScriptEnum {
    /// The pass with these options.
    pub fn new(optimize_const_enums: bool, optimize_enums: bool) -> TypeScriptEnum
        ensures const_enums { result.optimize_const_enums ≡ optimize_const_enums }
        ensures enums { result.optimize_enums ≡ optimize_enums }
    {
        TypeScriptEnum {
            optimize_const_enums,
            optimize_enums,
        }
    }

    /// Whether members of some enums are inlined.
    fn inlines(self) -> bool {
        self.optimize_const_enums || self.optimize_enums
    }
}

impl Pass for TypeScriptEnum {
    fn at_node(
        &mut self,
        hook: Hook,
        node: &mut Node,
        ctx: &mut TraverseCtx,
    ) -> Result<(), OutOfMemory> {
        match hook {
            Hook::EnterStatement => lower_statement(node, ctx),
            Hook::EnterExpression if self.inlines() => inline_constant(node, ctx),
            _ => Ok(()),
        }
    }

    fn at_statements(
        &mut self,
        hook: Hook,
        statements: &mut Vec<Part>,
        ctx: &mut TraverseCtx,
    ) -> Result<(), OutOfMemory> {
        match hook {
            Hook::ExitStatements if self.inlines() => drop_blocks(statements, &ctx.plan),
            _ => {}
        }
        Ok(())
    }
}
