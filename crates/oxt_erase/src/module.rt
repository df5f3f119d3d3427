//! The pass that lowers `import =` and `export =`.
//!
//! Before:
//!
//! ```ts
//! import fs = require("fs");
//! import Stats = fs.Stats;
//! export = { read: fs.readFileSync, Stats };
//! ```
//!
//! After:
//!
//! ```js
//! const fs = require("fs");
//! var Stats = fs.Stats;
//! module.exports = { read: fs.readFileSync, Stats };
//! ```
ghost use Rattle.std.specs.Prelude.{◌≡◌, OnOk};
ghost use Rattle.oxt_erase.specs.Context.{but_table_of};

use crate::alias::lower_alias;
use crate::parts::take_node;
use oxt_ctx::context::TraverseCtx;
use oxt_ctx::hook::Hook;
use oxt_ctx::nodes::{assignment, member, property_name, statement};
use oxt_ctx::pass::Pass;
use oxt_grammar::field::Field;
use oxt_grammar::kind::Kind;
use oxt_names::flags::ReferenceFlags;
use oxt_names::ids::OutOfMemory;
use oxt_names::name::Name;
use oxt_options::Module;
use oxt_tree::tree::{Node, Part};
use std::alloc::Global;

/// The pass that puts a variable in the place of each `import =` that the plan keeps, and an assignment
/// in the place of each `export =`. An `import =` that the plan does not keep stays.
#[derive(Clone, Copy)]
pub struct TypeScriptModule {
    /// Whether unused imports are kept, but for those of types alone.
    pub only_remove_type_imports: bool,
    /// What the lowered program is written for.
    pub module: Module,
}

impl TypeScriptModule {
    /// The pass with these options.
    pub fn new(only_remove_type_imports: bool, module: Module) -> TypeScriptModule
        ensures imports { result.only_remove_type_imports ≡ only_remove_type_imports }
        ensures modules { result.«module» ≡ «module» }
    {
        TypeScriptModule {
            only_remove_type_imports,
            module,
        }
    }
}

impl Pass for TypeScriptModule {
    fn at_node(
        &mut self,
        hook: Hook,
        node: &mut Node,
        ctx: &mut TraverseCtx,
    ) -> Result<(), OutOfMemory> {
        match hook {
            Hook::EnterStatement => lower_export(node, ctx),
            Hook::EnterDeclaration => lower_alias(node, ctx),
            _ => Ok(()),
        }
    }

    fn at_statements(
        &mut self,
        _hook: Hook,
        _statements: &mut Vec<Part>,
        _ctx: &mut TraverseCtx,
    ) -> Result<(), OutOfMemory> {
        Ok(())
    }
}

/// Puts an assignment in the place of the statement, if it is `export = e`.
fn lower_export(node: &mut Node, ctx: &mut TraverseCtx) -> Result<(), OutOfMemory>
    ensures frame { OnOk result (ctx.new ≡ but_table_of ctx.old ctx.new) }
{
    if !node.kind.is(Kind::TSExportAssignment) {
        return Ok(());
    }
    if let Some(value) = take_node(node, Field::Expression) {
        *node = exports(*node.parts.allocator(), value, ctx)?;
    }
    Ok(())
}

/// `module.exports = value;`.
fn exports(alloc: Global, value: Node, ctx: &mut TraverseCtx) -> Result<Node, OutOfMemory>
    ensures frame { OnOk result (ctx.new ≡ but_table_of ctx.old ctx.new) }
{
    let object = ctx.create_unbound_ident_expr("module", ReferenceFlags::Read)?;
    let property = property_name(alloc, &Name::new(alloc, "exports")?, &mut ctx.ids)?;
    let target = member(alloc, object, property, &mut ctx.ids)?;
    let put = assignment(alloc, target, value, &mut ctx.ids)?;
    statement(alloc, put, &mut ctx.ids)
}
