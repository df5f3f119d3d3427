//! The class declarations of a program.
ghost use Rattle.std.specs.Prelude.{◌≡◌, ◌++◌, IfOk, OnOk, [], codes, if◌then◌else◌, map};
ghost use Rattle.std.specs.List.{slice_get};
ghost use Rattle.oxt_class_checks.specs.Classes.{classes_among, classes_at, classes_in, class_itself};
ghost use Rattle.oxt_grammar.specs.Field.{row_view};
ghost use Rattle.oxt_grammar.specs.Keys.{key_of};
ghost use Rattle.oxt_grammar.specs.Rows.{row_of};
ghost use Rattle.oxt_tree.specs.View.{doc_of_part, docs_in, node_doc, part_doc};
ghost use Rattle.oxt_declares.specs.Dropped.{is_declared_field};

use oxt_declares::dropped::{is_declared_field, is_dropped};
use oxt_grammar::field::Field;
use oxt_grammar::holds::Row;
use oxt_grammar::kind::Kind;
use oxt_names::ids::OutOfMemory;
use oxt_tree::fields::place_of;
use oxt_tree::tree::{Node, Part};
use std::alloc::Global;

/// The class declarations in the program that are not erased where decorators have their older meaning, in the order of
/// the text: a class comes before those in it.
///
/// # Errors
///
/// Fails only where memory runs out.
pub fn class_declarations<'a>(
    alloc: Global,
    program: &'a Node,
) -> Result<Vec<&'a Node>, OutOfMemory>
    ensures { IfOk result (λ found. map (λ class. node_doc class.now) found.items
        ≡ classes_in (node_doc program.now)) }
{
    let mut out = Vec::new(alloc);
    push_classes(program, &mut out)?;
    Ok(out)
}

/// Appends those in the node.
#[cycle(classes)]
fn push_classes<'a>(node: &'a Node, out: &mut Vec<&'a Node>) -> Result<(), OutOfMemory>
    ensures { OnOk result (map (λ class. node_doc class.now) out.new.items
        ≡ map (λ class. node_doc class.now) out.old.items ++ classes_in (node_doc node.now)) }
{
    if is_dropped(node) {
        push_declared(node, out)
    } else {
        push_itself(node, out)?;
        push_among(node.parts.as_slice(), out)
    }
}

/// Appends the node itself, if it is a class declaration.
#[tactic(auto, using(crate::proofs::Declarations::one_more))]
fn push_itself<'a>(node: &'a Node, out: &mut Vec<&'a Node>) -> Result<(), OutOfMemory>
    ensures { OnOk result (map (λ class. node_doc class.now) out.new.items
        ≡ map (λ class. node_doc class.now) out.old.items ++ class_itself node.now.kind (node_doc node.now)) }
{
    if node.kind.is(Kind::ClassDeclaration) {
        out.push(node)?;
    }
    Ok(())
}

/// Appends those in the decorators of the node, which is erased, if it is a field that is only declared.
#[cycle(classes)]
fn push_declared<'a>(node: &'a Node, out: &mut Vec<&'a Node>) -> Result<(), OutOfMemory>
    ensures { OnOk result (map (λ class. node_doc class.now) out.new.items
        ≡ map (λ class. node_doc class.now) out.old.items
        ++ (if is_declared_field node.now.kind (docs_in node.now.parts.items)
        then classes_at (docs_in node.now.parts.items) (row_of node.now.kind) (codes "decorators") else [])) }
{
    if is_declared_field(node) {
        push_alone(
            node.kind.rows(),
            node.parts.as_slice(),
            Field::Decorators,
            out,
        )
    } else {
        Ok(())
    }
}

/// Appends those in that field of a node with these rows and parts.
#[tactic(auto, using(crate::proofs::Declarations::alone_steps))]
#[cycle(classes)]
fn push_alone<'a>(
    rows: &[Row],
    parts: &'a [Part],
    field: Field,
    out: &mut Vec<&'a Node>,
) -> Result<(), OutOfMemory>
    ensures { OnOk result (map (λ class. node_doc class.now) out.new.items
        ≡ map (λ class. node_doc class.now) out.old.items
        ++ classes_at (docs_in parts.now) (map row_view rows.now) (key_of field)) }
{
    match place_of(rows, field) {
        Some(place) => push_at(parts, place, out),
        None => Ok(()),
    }
}

/// Appends those in the part at that place.
#[tactic(auto, using(crate::proofs::Declarations::nothing_there))]
#[cycle(classes)]
fn push_at<'a>(parts: &'a [Part], place: usize, out: &mut Vec<&'a Node>) -> Result<(), OutOfMemory>
    ensures { OnOk result (map (λ class. node_doc class.now) out.new.items
        ≡ map (λ class. node_doc class.now) out.old.items
        ++ classes_in (doc_of_part (slice_get parts.now place))) }
{
    match parts.get(place) {
        Some(part) => push_part(part, out),
        None => Ok(()),
    }
}

/// Appends those in the part.
#[cycle(classes)]
fn push_part<'a>(part: &'a Part, out: &mut Vec<&'a Node>) -> Result<(), OutOfMemory>
    ensures { OnOk result (map (λ class. node_doc class.now) out.new.items
        ≡ map (λ class. node_doc class.now) out.old.items ++ classes_in (part_doc part.now)) }
{
    match part {
        Part::Node(node) => push_classes(node, out),
        Part::List(parts) => push_among(parts.as_slice(), out),
        _ => Ok(()),
    }
}

/// Appends those in the parts, one after the other.
#[tactic(auto, using(crate::proofs::Declarations::among_steps))]
#[cycle(classes)]
fn push_among<'a>(parts: &'a [Part], out: &mut Vec<&'a Node>) -> Result<(), OutOfMemory>
    ensures { OnOk result (map (λ class. node_doc class.now) out.new.items
        ≡ map (λ class. node_doc class.now) out.old.items ++ classes_among (docs_in parts.now)) }
{
    for i in 0..parts.len() {
        push_part(&parts[i], out)?;
    }
    Ok(())
}
