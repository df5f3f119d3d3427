//! What metadata writes for types.
ghost use Rattle.std.specs.Prelude.{◌≡◌};
ghost use Rattle.oxt_grammar.specs.Keys.{key_of};
ghost use Rattle.oxt_metadata.specs.Joins.{joined_type, object};
ghost use Rattle.oxt_metadata.specs.Sights.{sight_view};
ghost use Rattle.oxt_metadata.specs.Types.{dotted_type, is_readonly_array, joined_among, joined_at, joined_in, named_type, reference_type, single_type, type_at, type_of};
ghost use Rattle.oxt_tree.specs.View.{doc_or_nil, docs_in, node_doc, part_doc};

use crate::form::{Form, Join, form_of};
use crate::join::{Joined, joined_type, object, with_member};
use crate::name::root_of;
use crate::sight::Sight;
use crate::symbols::is_type_alone;
use oxt_grammar::field::Field;
use oxt_grammar::kind::Kind;
use oxt_options::metadata::{GlobalName, MetadataType};
use oxt_tree::fields::place_of;
use oxt_tree::tree::{Node, Part};

/// What metadata writes for the type, or for that of an annotation.
#[cycle(types)]
pub(crate) fn type_of(sight: Sight, node: &Node) -> MetadataType
    ensures { result ≡ type_of (sight_view sight.entry) (node_doc node.now) }
{
    match form_of(node) {
        Form::Written(written) => written,
        Form::Passed => type_at(sight, node, Field::TypeAnnotation),
        Form::Joined(join) => {
            joined_type(joined_at(sight, join, node, Field::Types, Joined::Nothing))
        }
        Form::Conditional => {
            let first = joined_at(sight, Join::Union, node, Field::TrueType, Joined::Nothing);
            joined_type(joined_at(sight, Join::Union, node, Field::FalseType, first))
        }
        Form::Reference => reference_type(sight, node.field(Field::TypeName)),
    }
}

/// What it writes for the type in that field.
#[cycle(types)]
#[tactic(auto, using(crate::proofs::Placed::type_steps))]
fn type_at(sight: Sight, node: &Node, field: Field) -> MetadataType
    ensures { result ≡ type_at (sight_view sight.entry) node.now (key_of field) }
{
    match place_of(node.kind.rows(), field) {
        Some(place) => match node.parts.get(place) {
            Some(part) => type_in(sight, part),
            None => object(),
        },
        None => object(),
    }
}

/// What it writes for the type that is the part.
#[cycle(types)]
fn type_in(sight: Sight, part: &Part) -> MetadataType
    ensures { result ≡ type_of (sight_view sight.entry) (part_doc part.now) }
{
    match part {
        Part::Node(node) => type_of(sight, node),
        _ => object(),
    }
}

/// What the members in that field make of what was joined before them.
#[cycle(types)]
#[tactic(auto, using(crate::proofs::Placed::joined_steps))]
fn joined_at(sight: Sight, join: Join, node: &Node, field: Field, joined: Joined) -> Joined
    ensures { result ≡ joined_at (sight_view sight.entry) join node.now (key_of field) joined }
{
    match place_of(node.kind.rows(), field) {
        Some(place) => match node.parts.get(place) {
            Some(part) => joined_in(sight, join, part, joined),
            None => joined,
        },
        None => joined,
    }
}

/// The same of a part: one member, or a list of such.
#[cycle(types)]
fn joined_in(sight: Sight, join: Join, part: &Part, joined: Joined) -> Joined
    ensures { result ≡ joined_in (sight_view sight.entry) (part_doc part.now) join joined }
{
    match part {
        Part::Node(node) => {
            let written = type_of(sight, node);
            with_member(sight.is_strict, join, joined, node, written)
        }
        Part::List(parts) => joined_among(sight, join, parts, joined),
        _ => joined,
    }
}

/// The same of several parts.
#[cycle(types)]
#[tactic(auto, using(crate::proofs::Unions::steps))]
fn joined_among(sight: Sight, join: Join, parts: &[Part], joined: Joined) -> Joined
    ensures { result ≡ joined_among (sight_view sight.entry) (docs_in parts.now) join joined }
{
    let mut joined = joined;
    for part in parts {
        joined = joined_in(sight, join, part, joined);
    }
    joined
}

/// What it writes for a type that is named so.
fn reference_type(sight: Sight, name: Option<&Part>) -> MetadataType
    ensures { result ≡ reference_type (sight_view sight.entry) (doc_or_nil name.entry) }
{
    match name {
        Some(Part::Node(name)) => named_type(sight, name),
        _ => object(),
    }
}

/// The same of a name: by what it means, or by what the first name in it does.
fn named_type(sight: Sight, name: &Node) -> MetadataType
    ensures { result ≡ named_type (sight_view sight.entry) (node_doc name.now) }
{
    if name.kind.is(Kind::IdentifierReference) {
        single_type(sight, name)
    } else {
        dotted_type(sight, name, root_of(name))
    }
}

/// The same of a single name: an enum by its shape, and the type of arrays that nothing writes to.
fn single_type(sight: Sight, name: &Node) -> MetadataType
    ensures { result ≡ single_type (sight_view sight.entry) (node_doc name.now) }
{
    match sight.shapes.of_name(name.id) {
        Some(shape) => MetadataType::Global(shape.name()),
        None if is_readonly_array(sight, name) => MetadataType::Global(GlobalName::Array),
        None => dotted_type(sight, name, name),
    }
}

/// Whether the name is the free `ReadonlyArray`.
fn is_readonly_array(sight: Sight, name: &Node) -> bool
    ensures { result ≡ is_readonly_array (sight_view sight.entry) (node_doc name.now) }
{
    sight.scoping.meaning_of(name.id).is_none() && name.holds_text(Field::Name, "ReadonlyArray")
}

/// What it writes for a name whose first name that is: nothing closer than `Object` where that is `this`, or means nothing but
/// types.
fn dotted_type(sight: Sight, name: &Node, root: &Node) -> MetadataType
    ensures { result ≡ dotted_type (sight_view sight.entry) (node_doc name.now) (node_doc root.now) }
{
    if root.kind.is(Kind::ThisExpression) || is_type_alone(sight.scoping, root.id) {
        object()
    } else {
        MetadataType::Reference {
            name: name.id,
            root: root.id,
        }
    }
}
