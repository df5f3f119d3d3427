//! The public passes, called one by one: what they make of a tree are the bytes of the one call.

use oxt_check::check;
use oxt_ctx::context::TraverseCtx;
use oxt_decor::pass::Decorator;
use oxt_json::write_tree;
use oxt_lines::lines::Lines;
use oxt_lines::nodes::tree_of;
use oxt_lines::stopped::Stopped;
use oxt_lines::table::Table;
use oxt_options::options::TransformOptions;
use oxt_options::state::TransformState;
use oxt_resolve::resolve::resolve;
use oxt_scoping::scoping::Scoping;
use oxt_transform::{TypeScript, transform_text};
use oxt_traverse::both::Both;
use oxt_tree::tree::Program;
use oxt_walk::walk::walk_program;
use std::alloc::Global;

/// What a walk over a tree by both passes leaves.
#[derive(Drop)]
struct Walked {
    /// The tree, written.
    bytes: Vec<u8>,
    /// Whether no statement waits beside another.
    is_nothing_left: bool,
    /// Whether no list of declarators is open.
    is_closed: bool,
}

/// A line for each tree.
pub fn print_walked(alloc: Global, table: &Table, lines: &mut Lines) -> Result<(), Stopped> {
    lines.heading(
        "read, resolved, checked, walked over and written: whether these are the bytes of the one call, nothing waits and no list is open",
    );
    let defaults = TransformOptions::defaults(alloc)?;
    print_case(alloc, table, "parameter properties", defaults, lines)?;
    let fields = with_fields(alloc)?;
    print_case(alloc, table, "keys of fields", fields, lines)?;
    let decorators = with_decorators(alloc, false)?;
    print_case(alloc, table, "decorators", decorators, lines)?;
    let metadata = with_decorators(alloc, true)?;
    print_case(alloc, table, "metadata", metadata, lines)
}

/// The options under which fields are set by assignment, and those without a value go.
fn with_fields(alloc: Global) -> Result<TransformOptions, Stopped> {
    let mut options = TransformOptions::defaults(alloc)?;
    options.set_public_class_fields = true;
    options.typescript.remove_class_fields_without_initializer = true;
    Ok(options)
}

/// The options under which decorators have their older meaning, with the metadata of types or without.
fn with_decorators(alloc: Global, has_metadata: bool) -> Result<TransformOptions, Stopped> {
    let mut options = TransformOptions::defaults(alloc)?;
    options.decorator.legacy = true;
    options.decorator.emit_decorator_metadata = has_metadata;
    Ok(options)
}

/// The line for the tree of that name.
fn print_case(
    alloc: Global,
    table: &Table,
    name: &str,
    options: TransformOptions,
    lines: &mut Lines,
) -> Result<(), Stopped> {
    let answers = answers_of(alloc, table, name, &options);
    drop(options);
    lines.answers(name, &answers?);
    Ok(())
}

/// Whether the walk over the tree of that name makes the bytes of the one call, nothing waits and no list is open.
fn answers_of(
    alloc: Global,
    table: &Table,
    name: &str,
    options: &TransformOptions,
) -> Result<[bool; 3], Stopped> {
    let text = table.text(alloc, name)?;
    let walked = walk_text(alloc, text.as_slice(), options)?;
    let is_same = is_made_of(alloc, text.as_slice(), options, walked.bytes.as_slice())?;
    Ok([is_same, walked.is_nothing_left, walked.is_closed])
}

/// Whether the one call makes those bytes of the text.
fn is_made_of(
    alloc: Global,
    text: &[u8],
    options: &TransformOptions,
    bytes: &[u8],
) -> Result<bool, Stopped> {
    match transform_text(alloc, text, options) {
        Ok(made) => {
            let is_same = made.text() == bytes;
            drop(made);
            Ok(is_same)
        }
        Err(fault) => {
            drop(fault);
            Err(Stopped::Walk)
        }
    }
}

/// Reads the tree that the text spells, and walks over it.
fn walk_text(alloc: Global, text: &[u8], options: &TransformOptions) -> Result<Walked, Stopped> {
    let mut program = tree_of(alloc, text)?;
    let scoping = resolve(alloc, &program.root, options.decorator.legacy)?;
    walk_resolved(alloc, &mut program, scoping, options)
}

/// Checks the program, whose table of names that is, and walks over it.
fn walk_resolved(
    alloc: Global,
    program: &mut Program,
    scoping: Scoping,
    options: &TransformOptions,
) -> Result<Walked, Stopped> {
    let mut ctx = context_of(alloc, program, scoping, options)?;
    let walked = walk_in(alloc, program, options, &mut ctx);
    drop(ctx);
    walked
}

/// The context of a walk over the program, which is checked.
fn context_of(
    alloc: Global,
    program: &Program,
    scoping: Scoping,
    options: &TransformOptions,
) -> Result<TraverseCtx, Stopped> {
    let state = TransformState::new(options, false);
    match check(alloc, program, &scoping, options) {
        Ok(plan) => Ok(TraverseCtx::new(alloc, scoping, plan, state, program.ids)),
        Err(fault) => {
            drop(fault);
            drop(scoping);
            Err(Stopped::Walk)
        }
    }
}

/// Walks over the program in that context, the pass of decorators first at each hook.
fn walk_in(
    alloc: Global,
    program: &mut Program,
    options: &TransformOptions,
    ctx: &mut TraverseCtx,
) -> Result<Walked, Stopped> {
    let mut passes = Both {
        first: Decorator::new(alloc, options.decorator),
        second: TypeScript::new(options),
    };
    let walked = walk_program(&mut passes, &mut program.root, ctx);
    drop(passes);
    walked?;
    Ok(Walked {
        bytes: write_tree(alloc, program)?,
        is_nothing_left: ctx.statement_injector.is_empty(),
        is_closed: ctx.var_declarations.depth() == 0,
    })
}
