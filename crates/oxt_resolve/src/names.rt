//! The names of the bindings and references of a tree.
ghost use Rattle.std.specs.Prelude.{◌≡◌, [], IfOk, OnOk, option_map, option_to_list};
ghost use Rattle.oxt_grammar.specs.Keys.{key_of};
ghost use Rattle.oxt_names.specs.Made.{all_added};
ghost use Rattle.oxt_resolve.specs.Names.{member_name, names, names_of_each, own_name};
ghost use Rattle.oxt_tree.specs.Fields.{named, text_in};
ghost use Rattle.oxt_tree.specs.View.{docs_in, node_doc, part_doc};

use oxt_grammar::field::Field;
use oxt_grammar::kind::Kind;
use oxt_names::ids::OutOfMemory;
use oxt_names::uid::UidNames;
use oxt_tree::tree::{Node, Part};
use std::alloc::Global;

/// The names of the bindings and references of a tree, also in code that is erased: those that are taken.
pub fn taken_names(alloc: Global, source: &Node) -> Result<UidNames, OutOfMemory>
    ensures { IfOk result (λ taken. taken ≡ all_added (names (node_doc source.now)) []) }
{
    let mut taken = UidNames::new(alloc);
    take_in_node(&mut taken, source)?;
    Ok(taken)
}

/// Takes the names of the node.
#[cycle(names)]
#[tactic(auto, using(crate::proofs::Additions::node_steps))]
fn take_in_node(taken: &mut UidNames, node: &Node) -> Result<(), OutOfMemory>
    ensures { OnOk result (taken.new ≡ all_added (names (node_doc node.now)) taken.old) }
{
    take_own_name(taken, node)?;
    take_in_each(taken, &node.parts)
}

/// Takes the names of the part.
#[cycle(names)]
fn take_in_part(taken: &mut UidNames, part: &Part) -> Result<(), OutOfMemory>
    ensures { OnOk result (taken.new ≡ all_added (names (part_doc part.now)) taken.old) }
{
    match part {
        Part::Node(node) => take_in_node(taken, node),
        Part::List(parts) => take_in_each(taken, parts),
        _ => Ok(()),
    }
}

/// Takes the names of each of the parts.
#[cycle(names)]
#[tactic(auto, using(crate::proofs::Additions::each_steps))]
fn take_in_each(taken: &mut UidNames, parts: &[Part]) -> Result<(), OutOfMemory>
    ensures { OnOk result (taken.new ≡ all_added (names_of_each (docs_in parts.now)) taken.old) }
{
    for part in parts {
        take_in_part(taken, part)?;
    }
    Ok(())
}

/// Takes the name that the node itself is or declares.
fn take_own_name(taken: &mut UidNames, node: &Node) -> Result<(), OutOfMemory>
    ensures { OnOk result
        (taken.new ≡ all_added (option_to_list (own_name node.now.kind (docs_in node.now.parts.items))) taken.old) }
{
    match own_name(node) {
        Some(name) => taken.take(name),
        None => Ok(()),
    }
}

/// The name that the node itself is or declares: a binding, a reference or an enum member.
fn own_name(node: &Node) -> Option<&str>
    ensures { option_map (λ name. name.now) result
        ≡ own_name node.now.kind (docs_in node.now.parts.items) }
{
    if node.kind.is(Kind::BindingIdentifier) || node.kind.is(Kind::IdentifierReference) {
        node.text(Field::Name)
    } else if node.kind.is(Kind::TSEnumMember) {
        match node.field(Field::Id) {
            Some(id) => member_name(id),
            None => None,
        }
    } else {
        None
    }
}

/// The name of an enum member by the part that stands for it.
fn member_name(part: &Part) -> Option<&str>
    ensures { option_map (λ name. name.now) result ≡ member_name (part_doc part.now) }
{
    let id = part.as_node()?;
    if id.kind.is(Kind::IdentifierName) {
        id.text(Field::Name)
    } else if id.kind.is(Kind::StringLiteral) {
        id.text(Field::Value)
    } else if id.kind.is(Kind::TemplateLiteral) {
        id.list(Field::Quasis)
            .first()?
            .as_node()?
            .text(Field::Cooked)
    } else {
        None
    }
}
