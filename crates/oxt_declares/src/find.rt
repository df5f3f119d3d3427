//! The search for the outermost enums, enum bodies and enum members of a program.
ghost use Rattle.std.specs.Prelude.{◌≡◌, ◌++◌, ◌∷◌, [], IfOk, OnOk, map};
ghost use Rattle.std.specs.List.{slice_get};
ghost use Rattle.oxt_grammar.specs.Field.{row_view};
ghost use Rattle.oxt_grammar.specs.Keys.{key_of};
ghost use Rattle.oxt_grammar.specs.Rows.{row_of};
ghost use Rattle.oxt_grammar.specs.declared.field.Field.TheVariants.{Decorators};
ghost use Rattle.oxt_declares.specs.Sites.{enum_sites, is_site, left_sites, sites_among, sites_at};
ghost use Rattle.oxt_tree.specs.View.{doc_of_part, docs_in, node_doc, part_doc};

use crate::dropped::{is_dropped, keeps_decorators};
use oxt_grammar::field::Field;
use oxt_grammar::holds::Row;
use oxt_grammar::kind::Kind;
use oxt_names::ids::OutOfMemory;
use oxt_tree::fields::place_of;
use oxt_tree::tree::{Node, Part};
use std::alloc::Global;

/// The enums, enum bodies and enum members of the program that stand in no other and outside what is erased, in the order
/// of the text. Under `legacy` the decorators of a field with `declare` are not erased.
///
/// # Errors
///
/// Fails only where memory runs out.
pub fn find_sites<'a>(
    alloc: Global,
    program: &'a Node,
    legacy: bool,
) -> Result<Vec<&'a Node>, OutOfMemory>
    ensures { IfOk result (λ found. map (λ site. node_doc site.now) found.items
        ≡ enum_sites legacy (node_doc program.now)) }
{
    let mut out = Vec::new(alloc);
    push_node(program, legacy, &mut out)?;
    Ok(out)
}

/// Whether nodes of the kind are enums, enum bodies or enum members.
fn is_site(kind: Kind) -> bool
    ensures { result ≡ is_site kind }
{
    kind.is(Kind::TSEnumDeclaration) || (kind.is(Kind::TSEnumBody) || kind.is(Kind::TSEnumMember))
}

/// Appends those in the node.
#[cycle(find)]
fn push_node<'a>(node: &'a Node, legacy: bool, out: &mut Vec<&'a Node>) -> Result<(), OutOfMemory>
    ensures { OnOk result (map (λ site. node_doc site.now) out.new.items
        ≡ map (λ site. node_doc site.now) out.old.items ++ enum_sites legacy (node_doc node.now)) }
{
    if is_dropped(node) {
        return push_left(node, legacy, out);
    }
    if is_site(node.kind) {
        push_site(node, out)
    } else {
        push_among(node.parts.as_slice(), legacy, out)
    }
}

/// Appends the node.
#[tactic(auto, using(crate::proofs::Finds::one_more))]
fn push_site<'a>(node: &'a Node, out: &mut Vec<&'a Node>) -> Result<(), OutOfMemory>
    ensures { OnOk result (map (λ site. node_doc site.now) out.new.items
        ≡ map (λ site. node_doc site.now) out.old.items ++ node_doc node.now ∷ []) }
{
    out.push(node)?;
    Ok(())
}

/// Appends those in what of an erased node is left: the decorators of a field with `declare`.
#[cycle(find)]
fn push_left<'a>(node: &'a Node, legacy: bool, out: &mut Vec<&'a Node>) -> Result<(), OutOfMemory>
    ensures { OnOk result (map (λ site. node_doc site.now) out.new.items
        ≡ map (λ site. node_doc site.now) out.old.items
        ++ left_sites legacy node.now.kind (docs_in node.now.parts.items)
        (sites_at legacy (docs_in node.now.parts.items) (row_of node.now.kind) (key_of Decorators))) }
{
    if keeps_decorators(legacy, node) {
        push_alone(
            node.kind.rows(),
            node.parts.as_slice(),
            Field::Decorators,
            legacy,
            out,
        )
    } else {
        Ok(())
    }
}

/// Appends those in that field of a node with these rows and parts.
#[tactic(auto, using(crate::proofs::Finds::alone_steps))]
#[cycle(find)]
fn push_alone<'a>(
    rows: &[Row],
    parts: &'a [Part],
    field: Field,
    legacy: bool,
    out: &mut Vec<&'a Node>,
) -> Result<(), OutOfMemory>
    ensures { OnOk result (map (λ site. node_doc site.now) out.new.items
        ≡ map (λ site. node_doc site.now) out.old.items
        ++ sites_at legacy (docs_in parts.now) (map row_view rows.now) (key_of field)) }
{
    match place_of(rows, field) {
        Some(place) => push_at(parts, place, legacy, out),
        None => Ok(()),
    }
}

/// Appends those in the part at that place.
#[tactic(auto, using(crate::proofs::Finds::nothing_there))]
#[cycle(find)]
fn push_at<'a>(
    parts: &'a [Part],
    place: usize,
    legacy: bool,
    out: &mut Vec<&'a Node>,
) -> Result<(), OutOfMemory>
    ensures { OnOk result (map (λ site. node_doc site.now) out.new.items
        ≡ map (λ site. node_doc site.now) out.old.items
        ++ enum_sites legacy (doc_of_part (slice_get parts.now place))) }
{
    match parts.get(place) {
        Some(part) => push_part(part, legacy, out),
        None => Ok(()),
    }
}

/// Appends those in the part.
#[cycle(find)]
fn push_part<'a>(part: &'a Part, legacy: bool, out: &mut Vec<&'a Node>) -> Result<(), OutOfMemory>
    ensures { OnOk result (map (λ site. node_doc site.now) out.new.items
        ≡ map (λ site. node_doc site.now) out.old.items ++ enum_sites legacy (part_doc part.now)) }
{
    match part {
        Part::Node(node) => push_node(node, legacy, out),
        Part::List(parts) => push_among(parts.as_slice(), legacy, out),
        _ => Ok(()),
    }
}

/// Appends those in the parts, one after the other.
#[tactic(auto, using(crate::proofs::Finds::among_steps))]
#[cycle(find)]
fn push_among<'a>(
    parts: &'a [Part],
    legacy: bool,
    out: &mut Vec<&'a Node>,
) -> Result<(), OutOfMemory>
    ensures { OnOk result (map (λ site. node_doc site.now) out.new.items
        ≡ map (λ site. node_doc site.now) out.old.items ++ sites_among legacy (docs_in parts.now)) }
{
    for i in 0..parts.len() {
        push_part(&parts[i], legacy, out)?;
    }
    Ok(())
}
