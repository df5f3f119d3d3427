//! What is done to a program between its check and its test.
ghost use Rattle.std.specs.Prelude.{OnOk};
ghost use Rattle.oxt_options.specs.Options.{transform_view};
ghost use Rattle.oxt_rewrite.specs.Plain.{ComesBack};
ghost use Rattle.oxt_tree.specs.View.{node_doc};

use crate::plain_source::{is_left_alone, say_javascript};
use crate::typescript::lower_program;
use oxt_ctx::context::TraverseCtx;
use oxt_names::ids::OutOfMemory;
use oxt_options::TransformOptions;
use oxt_options::plan::Plan;
use oxt_options::state::TransformState;
use oxt_scoping::scoping::Scoping;
use oxt_tree::tree::Program;
use std::alloc::Global;

/// What the passes know of a source.
#[derive(Drop)]
pub struct Tables {
    pub scoping: Scoping,
    pub plan: Plan,
}

/// Lowers the program: walks over it with the passes. Of a plain program that the options leave as it is, only the
/// language is set.
///
/// # Errors
///
/// `OutOfMemory` for want of memory or of numbers alone. The program may then only be dropped.
pub fn rewrite(
    alloc: Global,
    program: &mut Program,
    options: &TransformOptions,
    tables: Tables,
) -> Result<(), OutOfMemory>
    ensures { OnOk result
        (ComesBack (transform_view options.now) (node_doc program.old.root) (node_doc program.new.root)) }
{
    if is_left_alone(options, &program.root) {
        say_javascript(&mut program.root);
        drop(tables);
        return Ok(());
    }
    walk(alloc, program, options, tables)
}

/// Walks over the program with the passes.
fn walk(
    alloc: Global,
    program: &mut Program,
    options: &TransformOptions,
    tables: Tables,
) -> Result<(), OutOfMemory> {
    let Tables { scoping, plan } = tables;
    let state = TransformState::new(options, false);
    let mut ctx = TraverseCtx::new(alloc, scoping, plan, state, program.ids);
    let walked = lower_program(&mut program.root, options, &mut ctx);
    program.ids = ctx.ids;
    drop(ctx);
    walked
}
