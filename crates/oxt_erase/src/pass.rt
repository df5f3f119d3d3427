//! The pass that erases types.
//!
//! Before:
//!
//! ```ts
//! interface Shape { area(): number }
//! abstract class Square implements Shape {
//!     declare readonly tag: string;
//!     side!: number;
//!     area(this: Square): number { return (this.side as number) ** 2; }
//! }
//! ```
//!
//! After:
//!
//! ```js
//! class Square {
//!     side;
//!     area() { return this.side ** 2; }
//! }
//! ```

use crate::fields::clear_types;
use crate::opening::{open_target, open_wrapper};
use crate::statements::{drop_elements, drop_erased};
use oxt_ctx::context::TraverseCtx;
use oxt_ctx::hook::Hook;
use oxt_ctx::pass::Pass;
use oxt_names::ids::OutOfMemory;
use oxt_tree::tree::{Node, Part};

/// The pass that erases what stands for nothing at run time: declarations and class elements of
/// TypeScript alone, fields that only TypeScript has, and the wrappers around expressions, but for those
/// around targets that may not be assigned to. It puts nothing aside.
#[derive(Clone, Copy)]
pub struct TypeScriptAnnotations;

impl TypeScriptAnnotations {
    /// The pass.
    pub fn new() -> TypeScriptAnnotations {
        TypeScriptAnnotations
    }
}

impl Pass for TypeScriptAnnotations {
    fn at_node(
        &mut self,
        hook: Hook,
        node: &mut Node,
        _ctx: &mut TraverseCtx,
    ) -> Result<(), OutOfMemory> {
        erase(erased_at(hook), node)
    }

    fn at_statements(
        &mut self,
        hook: Hook,
        statements: &mut Vec<Part>,
        _ctx: &mut TraverseCtx,
    ) -> Result<(), OutOfMemory> {
        if is_entered(hook) {
            drop_erased(statements);
        }
        Ok(())
    }
}

/// What is erased of a node.
#[derive(Clone, Copy)]
enum Erased {
    /// The wrapper that it is.
    Wrapper,
    /// The wrapper that it is, if what is in it may be assigned to.
    TargetWrapper,
    /// Its fields that only TypeScript has.
    Fields,
    /// These, and the elements of the class that stand for nothing at run time.
    FieldsAndElements,
    /// Nothing.
    Nothing,
}

/// What is erased where the hook is run.
fn erased_at(hook: Hook) -> Erased {
    match hook {
        Hook::EnterExpression => Erased::Wrapper,
        Hook::EnterChainElement => Erased::Wrapper,
        Hook::EnterSimpleAssignmentTarget => Erased::TargetWrapper,
        Hook::EnterAssignmentTarget => Erased::TargetWrapper,
        Hook::EnterClass => Erased::FieldsAndElements,
        Hook::EnterProgram => Erased::Fields,
        Hook::EnterMethodDefinition => Erased::Fields,
        Hook::EnterAccessorProperty => Erased::Fields,
        Hook::EnterPropertyDefinition => Erased::Fields,
        Hook::EnterFunction => Erased::Fields,
        Hook::EnterArrowFunctionExpression => Erased::Fields,
        Hook::EnterVariableDeclarator => Erased::Fields,
        Hook::EnterCallExpression => Erased::Fields,
        Hook::EnterNewExpression => Erased::Fields,
        Hook::EnterTaggedTemplateExpression => Erased::Fields,
        Hook::EnterFormalParameter => Erased::Fields,
        Hook::EnterFormalParameterRest => Erased::Fields,
        Hook::EnterCatchParameter => Erased::Fields,
        Hook::EnterJsxOpeningElement => Erased::Fields,
        Hook::EnterIfStatement => Erased::Fields,
        Hook::EnterWhileStatement => Erased::Fields,
        Hook::EnterDoWhileStatement => Erased::Fields,
        Hook::EnterForStatement => Erased::Fields,
        Hook::EnterForInStatement => Erased::Fields,
        Hook::EnterForOfStatement => Erased::Fields,
        Hook::EnterImportDeclaration => Erased::Fields,
        Hook::EnterExportAllDeclaration => Erased::Fields,
        Hook::EnterExportFromDeclaration => Erased::Fields,
        _ => Erased::Nothing,
    }
}

/// Whether the hook is the one before the statements of a list.
fn is_entered(hook: Hook) -> bool {
    match hook {
        Hook::EnterStatements => true,
        _ => false,
    }
}

/// Erases that of the node.
fn erase(erased: Erased, node: &mut Node) -> Result<(), OutOfMemory> {
    match erased {
        Erased::Wrapper => open_wrapper(node),
        Erased::TargetWrapper => open_target(node),
        Erased::Fields => clear_types(node)?,
        Erased::FieldsAndElements => {
            clear_types(node)?;
            drop_elements(node);
        }
        Erased::Nothing => {}
    }
    Ok(())
}
