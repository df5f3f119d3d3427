//! What is inlined of enums, and which of their blocks go.

use crate::plans::push_constant;
use oxt_dropped::dropped::dropped_blocks;
use oxt_inline::inlined::inlined_expressions;
use oxt_lines::lines::Lines;
use oxt_lines::stopped::{Stopped, all_well};
use oxt_lines::table::Table;
use oxt_metadata::symbols::NamedSymbols;
use oxt_modules::jsx::jsx_use;
use oxt_modules::kept::kept_nodes;
use oxt_names::constant::ConstantValue;
use oxt_names::ids::NodeId;
use oxt_options::options::TypeScriptOptions;
use oxt_resolve::resolve::resolve;
use oxt_scoping::scoping::Scoping;
use oxt_tree::tree::Node;
use std::alloc::Global;

/// Which enums are inlined.
#[derive(Clone, Copy)]
struct Choice {
    enums: bool,
    const_enums: bool,
}

/// What is found of an enum and a `const` enum, under each choice.
pub fn print_inlines(alloc: Global, table: &Table, lines: &mut Lines) -> Result<(), Stopped> {
    lines.heading(TREE);
    let program = table.tree(alloc, TREE)?;
    let scoping = resolve(alloc, &program.root, false)?;
    let printed = print_choices(alloc, &program.root, &scoping, lines);
    drop(scoping);
    printed
}

/// The name of the tree.
const TREE: &str = "enum E { A = 1 } const enum F { B = \"x\" } f(E.A, F.B, E);";

/// The four choices.
fn print_choices(
    alloc: Global,
    program: &Node,
    scoping: &Scoping,
    lines: &mut Lines,
) -> Result<(), Stopped> {
    all_well(&[
        print_choice(alloc, program, scoping, chosen(false, false), lines),
        print_choice(alloc, program, scoping, chosen(true, false), lines),
        print_choice(alloc, program, scoping, chosen(false, true), lines),
        print_choice(alloc, program, scoping, chosen(true, true), lines),
    ])
}

/// That choice.
fn chosen(enums: bool, const_enums: bool) -> Choice {
    Choice { enums, const_enums }
}

/// The lines under one choice.
fn print_choice(
    alloc: Global,
    program: &Node,
    scoping: &Scoping,
    choice: Choice,
    lines: &mut Lines,
) -> Result<(), Stopped> {
    lines.answers("enums, const enums", &[choice.enums, choice.const_enums]);
    let options = options_of(alloc, choice)?;
    let printed = print_under(alloc, program, scoping, &options, lines);
    drop(options);
    printed
}

/// A line with what is inlined under those options, and one with what goes.
fn print_under(
    alloc: Global,
    program: &Node,
    scoping: &Scoping,
    options: &TypeScriptOptions,
    lines: &mut Lines,
) -> Result<(), Stopped> {
    print_inlined(alloc, program, scoping, options, lines)?;
    print_dropped(alloc, program, scoping, options, lines)
}

/// The options of that choice.
fn options_of(alloc: Global, choice: Choice) -> Result<TypeScriptOptions, Stopped> {
    let mut options = TypeScriptOptions::defaults(alloc)?;
    options.optimize_enums = choice.enums;
    options.optimize_const_enums = choice.const_enums;
    Ok(options)
}

/// A line with the expressions that are inlined and their constants.
fn print_inlined(
    alloc: Global,
    program: &Node,
    scoping: &Scoping,
    options: &TypeScriptOptions,
    lines: &mut Lines,
) -> Result<(), Stopped> {
    let named = NamedSymbols::none(alloc);
    let found = inlined_beside(alloc, program, scoping, &named, options);
    drop(named);
    let inlined = found?;
    let printed = push_inlined(inlined.as_slice(), lines);
    drop(inlined);
    printed
}

/// The expressions that are inlined, where metadata names those symbols.
fn inlined_beside(
    alloc: Global,
    program: &Node,
    scoping: &Scoping,
    named: &NamedSymbols,
    options: &TypeScriptOptions,
) -> Result<Vec<(NodeId, ConstantValue)>, Stopped> {
    let jsx = jsx_use(alloc, program, false)?;
    let kept = kept_nodes(alloc, program, scoping, named, jsx, options)?;
    let inlined = inlined_expressions(alloc, program, scoping, &kept, options);
    drop(kept);
    Ok(inlined?)
}

/// A line with these expressions and their constants.
fn push_inlined(inlined: &[(NodeId, ConstantValue)], lines: &mut Lines) -> Result<(), Stopped> {
    lines.begin("inlined");
    for expression in inlined {
        lines.number_value(expression.0.0);
        push_constant(Some(&expression.1), lines);
    }
    lines.end();
    Ok(())
}

/// A line with the blocks that go.
fn print_dropped(
    alloc: Global,
    program: &Node,
    scoping: &Scoping,
    options: &TypeScriptOptions,
    lines: &mut Lines,
) -> Result<(), Stopped> {
    let named = NamedSymbols::none(alloc);
    let found = dropped_beside(alloc, program, scoping, &named, options);
    drop(named);
    let dropped = found?;
    push_dropped(dropped.as_slice(), lines);
    Ok(())
}

/// The blocks that go, where metadata names those symbols.
fn dropped_beside(
    alloc: Global,
    program: &Node,
    scoping: &Scoping,
    named: &NamedSymbols,
    options: &TypeScriptOptions,
) -> Result<Vec<NodeId>, Stopped> {
    let jsx = jsx_use(alloc, program, false)?;
    let kept = kept_nodes(alloc, program, scoping, named, jsx, options)?;
    let dropped = dropped_blocks(alloc, program, scoping, &kept, named, options, false);
    drop(kept);
    Ok(dropped?)
}

/// A line with these blocks.
fn push_dropped(dropped: &[NodeId], lines: &mut Lines) {
    lines.begin("dropped");
    for block in dropped {
        lines.number_value(block.0);
    }
    lines.end();
}
