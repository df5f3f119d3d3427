//! Namespaces of types alone.
ghost use Rattle.std.specs.Prelude.{◌≡◌, codes};
ghost use Rattle.oxt_grammar.specs.Field.{row_view};
ghost use Rattle.oxt_tree.specs.View.{docs_in, node_doc, part_doc};
ghost use Rattle.oxt_declares.specs.TypesAlone.{all_of_types, each_of_types, export_of_types, is_of_types, may_export, namespace_of_types};
ghost use Rattle.oxt_tree.specs.Fields.{named};
ghost use Rattle.oxt_grammar.specs.Keys.{key_of};

use crate::role::Role;
use crate::role_of::role_of;
use oxt_grammar::field::Field;
use oxt_grammar::kind::Kind;
use oxt_tree::fields::place_of;
use oxt_tree::tree::{Node, Part};

/// Whether the part is a statement of types alone, or a list of such.
#[cycle(types)]
pub fn is_of_types(part: &Part) -> bool
    ensures { result ≡ is_of_types (part_doc part.now) }
{
    match part {
        Part::Node(node) => is_node_of_types(node),
        Part::List(parts) => all_of_types(parts),
        _ => false,
    }
}

/// Whether the node is a statement of types alone: a namespace, or what may stand in one.
#[cycle(types)]
pub fn is_node_of_types(node: &Node) -> bool
    ensures { result ≡ is_of_types (node_doc node.now) }
{
    match role_of(node.kind) {
        Role::Alias => true,
        Role::Interface => true,
        Role::Module => true,
        Role::ImportEquals => true,
        Role::Namespace => is_namespace_of_types(node),
        Role::Export => is_export_of_types(node),
        Role::ModuleBlock => is_field_of_types(node, Field::Body),
        _ => false,
    }
}

#[cycle(types)]
fn is_namespace_of_types(node: &Node) -> bool
    ensures { result ≡ namespace_of_types node.now.kind (docs_in node.now.parts.items) (each_of_types node.now) }
{
    if node.flag(Field::Declare) {
        return true;
    }
    is_field_of_types(node, Field::Body)
}

#[cycle(types)]
fn is_export_of_types(node: &Node) -> bool
    ensures { result ≡ export_of_types node.now.kind (docs_in node.now.parts.items) (each_of_types node.now) }
{
    if !may_export(node) {
        return false;
    }
    is_field_of_types(node, Field::Declaration)
}

fn may_export(node: &Node) -> bool
    ensures { result ≡ may_export (named (codes "declaration") node.now.kind (docs_in node.now.parts.items)) }
{
    node.holds_kind(Field::Declaration, Kind::TSTypeAliasDeclaration)
        || (node.holds_kind(Field::Declaration, Kind::TSInterfaceDeclaration)
            || node.holds_kind(Field::Declaration, Kind::TSNamespaceDeclaration))
}

#[cycle(types)]
#[tactic(auto, using(crate::proofs::TypeLoops::one_more, crate::proofs::TypeLoops::one_fails, crate::proofs::TypeLoops::no_more))]
fn all_of_types(parts: &[Part]) -> bool
    ensures { result ≡ all_of_types (docs_in parts.now) }
{
    for part in parts {
        if !is_of_types(part) {
            return false;
        }
    }
    true
}

#[cycle(types)]
fn is_field_of_types(node: &Node, field: Field) -> bool
    ensures { result ≡ each_of_types node.now (key_of field) }
{
    match place_of(node.kind.rows(), field) {
        Some(place) => match node.parts.get(place) {
            Some(part) => is_of_types(part),
            None => false,
        },
        None => false,
    }
}
