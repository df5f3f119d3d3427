//! Dotted names.
ghost use Rattle.std.specs.Prelude.{◌≡◌, ◌++◌, IfOk, OnOk, map, option_map};
ghost use Rattle.oxt_metadata.specs.DottedNames.{first_path, first_root, node_among, node_numbered, path, right_name, root, text_of};
ghost use Rattle.oxt_names.specs.Names.{name_bytes};
ghost use Rattle.oxt_tree.specs.View.{docs_in, node_doc, part_doc};

use oxt_grammar::field::Field;
use oxt_grammar::kind::Kind;
use oxt_names::ids::{NodeId, OutOfMemory};
use oxt_names::name::Name;
use oxt_tree::tree::{Node, Part};
use std::alloc::Global;

/// The first name of a dotted name: that of `a` in `a.b.c`; of a single name the name itself.
#[cycle(root)]
pub fn root_of(name: &Node) -> &Node
    ensures { node_doc result.now ≡ root (node_doc name.now) }
{
    if name.kind.is(Kind::TSQualifiedName) {
        first_root(&name.parts, name)
    } else {
        name
    }
}

/// That of the first of the parts; `outer` where that is no node.
#[cycle(root)]
fn first_root<'a>(parts: &'a [Part], outer: &'a Node) -> &'a Node
    ensures { node_doc result.now ≡ first_root (docs_in parts.now) (node_doc outer.now) }
{
    match parts.first() {
        Some(Part::Node(left)) => root_of(left),
        _ => outer,
    }
}

/// The names behind the first one: those of `b` and `c` in `a.b.c`.
///
/// # Errors
///
/// Fails only where memory runs out.
pub fn path_of(alloc: Global, name: &Node) -> Result<Vec<Name>, OutOfMemory>
    ensures { IfOk result (λ names. map name_bytes names.items ≡ path (node_doc name.now)) }
{
    let mut names = Vec::new(alloc);
    push_path(name, &mut names)?;
    Ok(names)
}

/// Appends the names behind the first one.
#[cycle(path)]
#[tactic(auto, using(crate::proofs::Dots::path_steps))]
fn push_path(name: &Node, names: &mut Vec<Name>) -> Result<(), OutOfMemory>
    ensures { OnOk result (map name_bytes names.new.items
        ≡ map name_bytes names.old.items ++ path (node_doc name.now)) }
{
    if name.kind.is(Kind::TSQualifiedName) {
        push_first(&name.parts, names)?;
        push_right(name, names)
    } else {
        Ok(())
    }
}

/// Appends those of the first of the parts.
#[cycle(path)]
#[tactic(auto, using(crate::proofs::Dots::path_steps))]
fn push_first(parts: &[Part], names: &mut Vec<Name>) -> Result<(), OutOfMemory>
    ensures { OnOk result (map name_bytes names.new.items
        ≡ map name_bytes names.old.items ++ first_path (docs_in parts.now)) }
{
    match parts.first() {
        Some(Part::Node(left)) => push_path(left, names),
        _ => Ok(()),
    }
}

/// Appends the last of the names.
#[tactic(auto, using(crate::proofs::Dots::path_steps))]
fn push_right(name: &Node, names: &mut Vec<Name>) -> Result<(), OutOfMemory>
    ensures { OnOk result (map name_bytes names.new.items
        ≡ map name_bytes names.old.items ++ right_name name.now.kind (docs_in name.now.parts.items)) }
{
    let alloc = *names.allocator();
    let text = match name.field(Field::Right) {
        Some(right) => text_of(right),
        None => "",
    };
    names.push(Name::new(alloc, text)?)?;
    Ok(())
}

/// The text of a name; no text of anything else.
fn text_of(part: &Part) -> &str
    ensures { result.now ≡ text_of (part_doc part.now) }
{
    match part {
        Part::Node(node) => text_of_name(node),
        _ => "",
    }
}

/// The same of a node.
pub fn text_of_name(name: &Node) -> &str
    ensures { result.now ≡ text_of (node_doc name.now) }
{
    match name.text(Field::Name) {
        Some(text) => text,
        None => "",
    }
}

/// The first node with that number in the node, which may be the node itself.
#[cycle(numbered)]
pub fn node_numbered(node: &Node, number: NodeId) -> Option<&Node>
    ensures { option_map (λ found. node_doc found.now) result ≡ node_numbered number.0 (node_doc node.now) }
{
    if node.id.0 == number.0 {
        Some(node)
    } else {
        node_among(&node.parts, number)
    }
}

/// The first one among the parts.
#[cycle(numbered)]
#[tactic(auto, using(crate::proofs::Dots::among_steps))]
fn node_among(parts: &[Part], number: NodeId) -> Option<&Node>
    ensures { option_map (λ found. node_doc found.now) result ≡ node_among number.0 (docs_in parts.now) }
{
    for part in parts {
        if let Some(found) = node_in(part, number) {
            return Some(found);
        }
    }
    None
}

/// The first one in the part.
#[cycle(numbered)]
fn node_in(part: &Part, number: NodeId) -> Option<&Node>
    ensures { option_map (λ found. node_doc found.now) result ≡ node_numbered number.0 (part_doc part.now) }
{
    match part {
        Part::Node(node) => node_numbered(node, number),
        Part::List(parts) => node_among(parts, number),
        _ => None,
    }
}
