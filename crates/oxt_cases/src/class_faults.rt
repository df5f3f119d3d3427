//! What stands in the way of lowering classes.

use crate::pieces::{Lines, Piece};
use crate::told::plan_of;
use oxt_class_checks::misplaced::{ClassFault, MisplacedElement, first_misplaced_element};
use oxt_faults::moved::{MovedName, first_moved_capture};
use oxt_fields::rules::FieldRules;
use oxt_names::ids::OutOfMemory;
use oxt_options::options::TransformOptions;
use oxt_resolve::resolve::resolve;
use oxt_scoping::scoping::Scoping;
use oxt_tree::tree::Node;
use std::alloc::Global;

/// Puts the first element of a class that cannot be lowered under the options, and the first name that would mean
/// something else once it has moved, a line each; `-` where there is none.
///
/// # Errors
///
/// Fails only where memory runs out.
pub fn put_lines(
    alloc: Global,
    program: &Node,
    options: &TransformOptions,
    lines: &mut Lines,
) -> Result<(), OutOfMemory> {
    let scoping = resolve(alloc, program, options.decorator.legacy)?;
    let outcome = put_by(alloc, program, &scoping, options, lines);
    drop(scoping);
    outcome
}

/// The same, where that is the table of scopes.
fn put_by(
    alloc: Global,
    program: &Node,
    scoping: &Scoping,
    options: &TransformOptions,
    lines: &mut Lines,
) -> Result<(), OutOfMemory> {
    let plan = plan_of(alloc, program, scoping, options)?;
    let rules = FieldRules::new(options, &plan);
    let outcome = put_found(alloc, program, scoping, rules, lines);
    drop(plan);
    outcome
}

/// Puts what is found in the program, which has that table of scopes, under the rules.
fn put_found(
    alloc: Global,
    program: &Node,
    scoping: &Scoping,
    rules: FieldRules,
    lines: &mut Lines,
) -> Result<(), OutOfMemory> {
    put_misplaced(first_misplaced_element(alloc, program, rules)?, lines);
    put_captured(first_moved_capture(alloc, program, scoping, rules)?, lines);
    Ok(())
}

/// Puts the line of the misplaced element.
fn put_misplaced(found: Option<MisplacedElement>, lines: &mut Lines) {
    match found {
        Some(MisplacedElement { fault, node }) => {
            let line = [
                Piece::Text("misplaced"),
                Piece::Word(word_of(fault)),
                Piece::Node(node),
                Piece::Text("\n"),
            ];
            lines.put(&line);
        }
        None => lines.put(&[Piece::Text("misplaced -\n")]),
    }
}

/// The word for a fault of a class.
fn word_of(fault: ClassFault) -> &'static str {
    match fault {
        ClassFault::Super => "super",
        ClassFault::Key => "key",
        ClassFault::Field => "field",
        ClassFault::Accessor => "accessor",
    }
}

/// Puts the line of the captured name.
fn put_captured(found: Option<MovedName>, lines: &mut Lines) {
    match found {
        Some(MovedName { name, node }) => {
            let line = [
                Piece::Text("captured"),
                Piece::Word(name),
                Piece::Node(node),
                Piece::Text("\n"),
            ];
            lines.put(&line);
        }
        None => lines.put(&[Piece::Text("captured -\n")]),
    }
}
