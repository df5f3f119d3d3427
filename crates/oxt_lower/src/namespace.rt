//! The pass that lowers namespaces.
//!
//! Before:
//!
//! ```ts
//! namespace Shapes {
//!     export const unit = 1;
//!     export namespace Round { export function circle(r: number) { return r * unit; } }
//! }
//! ```
//!
//! After:
//!
//! ```js
//! let Shapes;
//! (function(_Shapes) {
//!     const unit = _Shapes.unit = 1;
//!     let Round;
//!     (function(_Round) {
//!         function circle(r) { return r * unit; }
//!         _Round.circle = circle;
//!     })(Round || (Round = _Shapes.Round || (_Shapes.Round = {})));
//! })(Shapes || (Shapes = {}));
//! ```
ghost use Rattle.std.specs.Prelude.{◌≡◌, OnOk};
ghost use Rattle.oxt_lower.specs.Context.{but_table_of};

use crate::namespace_block::{exports_block, is_block, lower_alone, lower_exported};
use crate::namespace_list::{flatten, replace_by};
use oxt_ctx::context::TraverseCtx;
use oxt_ctx::hook::Hook;
use oxt_ctx::pass::Pass;
use oxt_grammar::field::Field;
use oxt_names::ids::OutOfMemory;
use oxt_options::TypeScriptOptions;
use oxt_tree::fields::place_of;
use oxt_tree::tree::{Node, Part};

/// The pass that puts in the place of each block of a namespace the call of a function that puts what the
/// block exports on the namespace's object. It does so for the whole program before its parts are walked,
/// so that what stands in the blocks is lowered as anything else. Blocks of types alone stay.
#[derive(Clone, Copy)]
pub struct TypeScriptNamespace;

impl TypeScriptNamespace {
    /// The pass. It is the same whatever the options are: those of namespaces decide only on what is
    /// reported.
    pub fn new(_options: &TypeScriptOptions) -> TypeScriptNamespace {
        TypeScriptNamespace
    }
}

impl Pass for TypeScriptNamespace {
    fn at_node(
        &mut self,
        hook: Hook,
        node: &mut Node,
        ctx: &mut TraverseCtx,
    ) -> Result<(), OutOfMemory> {
        match hook {
            Hook::EnterProgram => lower_program(node, ctx),
            _ => Ok(()),
        }
    }

    fn at_statements(
        &mut self,
        _hook: Hook,
        _statements: &mut Vec<Part>,
        _ctx: &mut TraverseCtx,
    ) -> Result<(), OutOfMemory> {
        Ok(())
    }
}

/// Lowers the namespaces of the program.
fn lower_program(program: &mut Node, ctx: &mut TraverseCtx) -> Result<(), OutOfMemory>
    ensures frame { OnOk result (ctx.new ≡ but_table_of ctx.old ctx.new) }
{
    match place_of(program.kind.rows(), Field::Body) {
        Some(place) if place < program.parts.len() => lower_body(&mut program.parts[place], ctx),
        _ => Ok(()),
    }
}

/// Lowers the namespaces in the body of the program.
fn lower_body(body: &mut Part, ctx: &mut TraverseCtx) -> Result<(), OutOfMemory>
    ensures frame { OnOk result (ctx.new ≡ but_table_of ctx.old ctx.new) }
{
    match body {
        Part::List(statements) => {
            lower_each(statements.as_mut_slice(), ctx)?;
            flatten(statements)
        }
        _ => Ok(()),
    }
}

/// Lowers the statements that are blocks of namespaces, or export one. A list stands in their places.
fn lower_each(statements: &mut [Part], ctx: &mut TraverseCtx) -> Result<(), OutOfMemory>
    ensures frame { OnOk result (ctx.new ≡ but_table_of ctx.old ctx.new) }
{
    for statement in statements.iter_mut() {
        lower_statement(statement, ctx)?;
    }
    Ok(())
}

/// Lowers the statement of the program.
fn lower_statement(statement: &mut Part, ctx: &mut TraverseCtx) -> Result<(), OutOfMemory>
    ensures frame { OnOk result (ctx.new ≡ but_table_of ctx.old ctx.new) }
{
    let statements = match statement {
        Part::Node(node) => statements_of(node, ctx)?,
        _ => None,
    };
    replace_by(statement, statements);
    Ok(())
}

/// What stands in the place of the statement of the program, if it is a block of a namespace or exports one.
fn statements_of(node: &mut Node, ctx: &mut TraverseCtx) -> Result<Option<Vec<Part>>, OutOfMemory>
    ensures frame { OnOk result (ctx.new ≡ but_table_of ctx.old ctx.new) }
{
    if is_block(node) {
        Ok(Some(lower_alone(node, false, ctx)?))
    } else if exports_block(node) {
        lower_exported(node, ctx)
    } else {
        Ok(None)
    }
}
