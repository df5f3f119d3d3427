//! What the values of the members of an enum have in common, as they are written.
ghost use Rattle.std.specs.Prelude.{◌≡◌};
ghost use Rattle.oxt_metadata.specs.Shapes.{joined_shape, member_shape, same_shape, shape_by, shape_from, shape_name, shape_of, written_shape};
ghost use Rattle.oxt_tree.specs.View.{docs_in, node_doc, part_doc};

use oxt_grammar::field::Field;
use oxt_grammar::kind::Kind;
use oxt_options::metadata::GlobalName;
use oxt_tree::tree::{Node, Part};

/// What the values of some members have in common.
#[derive(Clone, Copy)]
pub enum Shape {
    /// There are no members.
    Undecided,
    /// They are texts.
    Texts,
    /// They are numbers.
    Numbers,
    /// Nothing.
    Mixed,
}

impl Shape {
    /// What metadata writes for an enum of the shape.
    pub fn name(self) -> GlobalName
        ensures { result ≡ shape_name self }
    {
        match self {
            Shape::Texts => GlobalName::String,
            Shape::Numbers => GlobalName::Number,
            _ => GlobalName::Object,
        }
    }
}

/// The shape of the block of an enum.
pub fn shape_of(block: &Node) -> Shape
    ensures { result ≡ shape_of (node_doc block.now) }
{
    match block.field(Field::Body) {
        Some(body) => shape_among(body.list(Field::Members)),
        None => Shape::Undecided,
    }
}

/// The shape of these members.
#[tactic(auto, using(crate::proofs::Members::steps))]
fn shape_among(members: &[Part]) -> Shape
    ensures { result ≡ shape_from Shape.Undecided (docs_in members.now) }
{
    let mut shape = Shape::Undecided;
    for member in members {
        shape = joined_shape(shape, member_shape(member));
    }
    shape
}

/// What the values of members with that shape have in common with a value.
fn joined_shape(shape: Shape, value: Shape) -> Shape
    ensures { result ≡ joined_shape shape value }
{
    match shape {
        Shape::Undecided => value,
        Shape::Mixed => Shape::Mixed,
        _ if is_same(shape, value) => shape,
        _ => Shape::Mixed,
    }
}

/// Whether both are texts, or both are numbers.
fn is_same(one: Shape, other: Shape) -> bool
    ensures { result ≡ same_shape one other }
{
    match (one, other) {
        (Shape::Texts, Shape::Texts) => true,
        (Shape::Numbers, Shape::Numbers) => true,
        _ => false,
    }
}

/// The shape of the value of the member.
fn member_shape(member: &Part) -> Shape
    ensures { result ≡ member_shape (part_doc member.now) }
{
    match member.field(Field::Initializer) {
        Some(value) => written_shape(value),
        None => Shape::Numbers,
    }
}

/// The shape of a value that is written so: a number where nothing is.
fn written_shape(value: &Part) -> Shape
    ensures { result ≡ written_shape (part_doc value.now) }
{
    match value {
        Part::Node(node) => shape_by(node.kind),
        _ => Shape::Numbers,
    }
}

/// The shape of expressions of the kind.
fn shape_by(kind: Kind) -> Shape
    ensures { result ≡ shape_by kind }
{
    match kind {
        Kind::StringLiteral => Shape::Texts,
        Kind::TemplateLiteral => Shape::Texts,
        Kind::NumericLiteral => Shape::Numbers,
        Kind::UnaryExpression => Shape::Numbers,
        _ => Shape::Mixed,
    }
}
