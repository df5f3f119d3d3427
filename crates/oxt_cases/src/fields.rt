//! What becomes of the elements of classes.

use crate::nodes::nodes_of;
use crate::pieces::{Lines, Piece};
use crate::told::plan_of;
use oxt_fields::class::{
    constructor_of, elements_of, get_super_call_position, is_derived, is_property, parameters_of,
    statements_of,
};
use oxt_fields::fate::{Fate, fate_of, hoists_private, moves_to_constructor};
use oxt_fields::rules::FieldRules;
use oxt_fields::written::never_written_nodes;
use oxt_grammar::field::Field;
use oxt_grammar::kind::Kind;
use oxt_names::ids::OutOfMemory;
use oxt_options::options::TransformOptions;
use oxt_options::plan::Plan;
use oxt_resolve::resolve::resolve;
use oxt_scoping::scoping::Scoping;
use oxt_tree::tree::{Node, Part};
use std::alloc::Global;

/// Puts a line for each class, with lines for its parameter properties and its fields, and one for the names that
/// nothing writes to: the numbers of their nodes.
///
/// Of a class stand its number, whether it is derived and whether its private fields may move, the number of its
/// constructor or `-`, and the place behind `super` there; of a property its number and its name; of an element that
/// does not stay as it is its number, `goes`, `key` where its key is computed all the same, or `moves`, whether that
/// is into the constructor, whether an empty field stays, and whether its key is kept.
///
/// # Errors
///
/// Fails only where memory runs out.
pub fn put_lines(
    alloc: Global,
    program: &Node,
    options: &TransformOptions,
    lines: &mut Lines,
) -> Result<(), OutOfMemory> {
    put_never_written(alloc, program, lines)?;
    put_classes(alloc, program, options, lines)
}

/// Puts the line of the names that nothing writes to.
fn put_never_written(alloc: Global, program: &Node, lines: &mut Lines) -> Result<(), OutOfMemory> {
    let scoping = resolve(alloc, program, false)?;
    let outcome = put_never_written_by(alloc, program, &scoping, lines);
    drop(scoping);
    outcome
}

/// The same, where that is the table of scopes.
fn put_never_written_by(
    alloc: Global,
    program: &Node,
    scoping: &Scoping,
    lines: &mut Lines,
) -> Result<(), OutOfMemory> {
    let nodes = never_written_nodes(alloc, program, scoping)?;
    lines.put(&[Piece::Text("never written")]);
    lines.put_nodes(nodes.as_slice());
    lines.put(&[Piece::Text("\n")]);
    Ok(())
}

/// Puts the lines of the classes.
fn put_classes(
    alloc: Global,
    program: &Node,
    options: &TransformOptions,
    lines: &mut Lines,
) -> Result<(), OutOfMemory> {
    let scoping = resolve(alloc, program, options.decorator.legacy)?;
    let plan = plan_of(alloc, program, &scoping, options);
    drop(scoping);
    put_classes_of(alloc, plan?, program, options, lines)
}

/// Puts the lines of the classes of a program that has that plan.
fn put_classes_of(
    alloc: Global,
    plan: Plan,
    program: &Node,
    options: &TransformOptions,
    lines: &mut Lines,
) -> Result<(), OutOfMemory> {
    let outcome = put_classes_by(alloc, FieldRules::new(options, &plan), program, lines);
    drop(plan);
    outcome
}

/// Puts the lines of the classes under the rules.
fn put_classes_by(
    alloc: Global,
    rules: FieldRules,
    program: &Node,
    lines: &mut Lines,
) -> Result<(), OutOfMemory> {
    let nodes = nodes_of(alloc, program)?;
    for node in &nodes {
        if is_class(node) {
            put_class(rules, node, lines);
        }
    }
    Ok(())
}

/// Whether the node is a class.
fn is_class(node: &Node) -> bool {
    node.kind.is(Kind::ClassDeclaration) || node.kind.is(Kind::ClassExpression)
}

/// Puts the lines of a class.
fn put_class(rules: FieldRules, class: &Node, lines: &mut Lines) {
    let elements = elements_of(class);
    let hoists = hoists_private(elements);
    let front = [
        Piece::Number(class.id.0),
        Piece::Text(" class"),
        Piece::If(is_derived(class), " derived"),
        Piece::If(hoists, " hoists"),
    ];
    lines.put(&front);
    put_constructor(constructor_of(elements), lines);
    put_elements(rules, hoists, elements, lines);
}

/// Puts the lines of the elements that do not stay as they are.
fn put_elements(rules: FieldRules, hoists: bool, elements: &[Part], lines: &mut Lines) {
    for element in elements {
        if let Part::Node(node) = element {
            put_fate(rules, hoists, node, lines);
        }
    }
}

/// Puts what stands of a constructor behind its class, and the lines of its properties.
fn put_constructor(constructor: Option<&Node>, lines: &mut Lines) {
    match constructor {
        Some(constructor) => {
            let place = get_super_call_position(statements_of(constructor));
            let line = [
                Piece::Node(constructor.id),
                Piece::Text(" "),
                Piece::Count(place),
                Piece::Text("\n"),
            ];
            lines.put(&line);
            put_properties(parameters_of(constructor), lines)
        }
        None => lines.put(&[Piece::Text(" -\n")]),
    }
}

/// Puts the lines of the parameters that are properties.
fn put_properties(parameters: &[Part], lines: &mut Lines) {
    for parameter in parameters {
        put_property(parameter, lines);
    }
}

/// Puts the line of a parameter that is a property.
fn put_property(parameter: &Part, lines: &mut Lines) {
    match parameter {
        Part::Node(node) if is_property(node) => {
            let line = [
                Piece::Number(node.id.0),
                Piece::Text(" property"),
                Piece::Word(name_of(node)),
                Piece::Text("\n"),
            ];
            lines.put(&line);
        }
        _ => {}
    }
}

/// The name of the parameter; `-` where it is none.
fn name_of(parameter: &Node) -> &str {
    match parameter.child(Field::Pattern) {
        Some(pattern) => pattern.text(Field::Name).unwrap_or("-"),
        None => "-",
    }
}

/// Puts the line of an element that does not stay as it is.
fn put_fate(rules: FieldRules, hoists: bool, node: &Node, lines: &mut Lines) {
    let number = node.id.0;
    match fate_of(rules, hoists, node) {
        Fate::Stays => {}
        Fate::Goes => lines.put(&[Piece::Number(number), Piece::Text(" goes\n")]),
        Fate::LeavesKey => lines.put(&[Piece::Number(number), Piece::Text(" key\n")]),
        Fate::Moves {
            stays,
            has_temporary,
        } => {
            let line = [
                Piece::Number(number),
                Piece::Text(" moves"),
                Piece::If(moves_to_constructor(rules, hoists, node), " in"),
                Piece::If(stays, " stays"),
                Piece::If(has_temporary, " kept"),
                Piece::Text("\n"),
            ];
            lines.put(&line);
        }
    }
}
