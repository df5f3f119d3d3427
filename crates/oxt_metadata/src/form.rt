//! How metadata writes the forms of types.
ghost use Rattle.std.specs.Prelude.{◌≡◌};
ghost use Rattle.oxt_metadata.specs.Forms.{form_of, keyword_name, literal_name, literal_type, operator_form, predicate_type, signed_name, value_name};
ghost use Rattle.oxt_tree.specs.View.{doc_or_nil, docs_in, part_doc};

use oxt_grammar::field::Field;
use oxt_grammar::kind::Kind;
use oxt_options::metadata::{GlobalName, MetadataType};
use oxt_tree::tree::{Node, Part};

/// What the members of a type are joined to.
#[derive(Clone, Copy)]
pub(crate) enum Join {
    /// A union.
    Union,
    /// An intersection.
    Intersection,
}

/// How metadata writes a type.
#[derive(Clone, Copy)]
pub(crate) enum Form {
    /// By itself.
    Written(MetadataType),
    /// As the type in it.
    Passed,
    /// As what its members are joined to.
    Joined(Join),
    /// As the union of its two results.
    Conditional,
    /// By what it names.
    Reference,
}

/// How metadata writes the type.
pub(crate) fn form_of(node: &Node) -> Form
    ensures { result ≡ form_of node.now.kind (docs_in node.now.parts.items) }
{
    match node.kind {
        Kind::TSTypeAnnotation => Form::Passed,
        Kind::TSParenthesizedType => Form::Passed,
        Kind::JSDocNullableType => Form::Passed,
        Kind::JSDocNonNullableType => Form::Passed,
        Kind::TSTypeOperator => operator_form(node),
        Kind::TSUnionType => Form::Joined(Join::Union),
        Kind::TSIntersectionType => Form::Joined(Join::Intersection),
        Kind::TSConditionalType => Form::Conditional,
        Kind::TSTypeReference => Form::Reference,
        Kind::TSTypePredicate => Form::Written(predicate_type(node)),
        Kind::TSLiteralType => Form::Written(literal_type(node)),
        Kind::TSVoidKeyword => Form::Written(MetadataType::Undefined),
        Kind::TSUndefinedKeyword => Form::Written(MetadataType::Undefined),
        Kind::TSNullKeyword => Form::Written(MetadataType::Undefined),
        Kind::TSNeverKeyword => Form::Written(MetadataType::Undefined),
        kind => Form::Written(MetadataType::Global(keyword_name(kind))),
    }
}

/// How metadata writes a type with an operator: with `readonly` as the type behind that.
fn operator_form(node: &Node) -> Form
    ensures { result ≡ operator_form node.now.kind (docs_in node.now.parts.items) }
{
    if node.holds_text(Field::Operator, "readonly") {
        Form::Passed
    } else {
        Form::Written(MetadataType::Global(GlobalName::Object))
    }
}

/// What it writes for a predicate.
fn predicate_type(node: &Node) -> MetadataType
    ensures { result ≡ predicate_type node.now.kind (docs_in node.now.parts.items) }
{
    if node.flag(Field::Asserts) {
        MetadataType::Undefined
    } else {
        MetadataType::Global(GlobalName::Boolean)
    }
}

/// What it writes for the type of a literal.
fn literal_type(node: &Node) -> MetadataType
    ensures { result ≡ literal_type node.now.kind (docs_in node.now.parts.items) }
{
    match node.field(Field::Literal) {
        Some(literal) => MetadataType::Global(literal_name(literal)),
        None => MetadataType::Global(GlobalName::Object),
    }
}

/// What it writes for a literal.
fn literal_name(literal: &Part) -> GlobalName
    ensures { result ≡ literal_name (part_doc literal.now) }
{
    match literal {
        Part::Node(node) if node.kind.is(Kind::UnaryExpression) => {
            signed_name(node.field(Field::Argument))
        }
        Part::Node(node) => value_name(node.kind),
        _ => GlobalName::Object,
    }
}

/// What it writes for a literal of the kind, which has no sign.
fn value_name(kind: Kind) -> GlobalName
    ensures { result ≡ value_name kind }
{
    match kind {
        Kind::BooleanLiteral => GlobalName::Boolean,
        Kind::NumericLiteral => GlobalName::Number,
        Kind::BigIntLiteral => GlobalName::BigInt,
        Kind::StringLiteral => GlobalName::String,
        Kind::TemplateLiteral => GlobalName::String,
        _ => GlobalName::Object,
    }
}

/// What it writes for a literal with a sign: a number or a bigint as that, and anything else as a text.
fn signed_name(literal: Option<&Part>) -> GlobalName
    ensures { result ≡ signed_name (doc_or_nil literal.entry) }
{
    match literal {
        Some(part) if part.is_kind(Kind::NumericLiteral) => GlobalName::Number,
        Some(part) if part.is_kind(Kind::BigIntLiteral) => GlobalName::BigInt,
        _ => GlobalName::String,
    }
}

/// What it writes for types of the kind, which has no parts that count.
fn keyword_name(kind: Kind) -> GlobalName
    ensures { result ≡ keyword_name kind }
{
    match kind {
        Kind::TSFunctionType => GlobalName::Function,
        Kind::TSConstructorType => GlobalName::Function,
        Kind::TSArrayType => GlobalName::Array,
        Kind::TSTupleType => GlobalName::Array,
        Kind::TSBooleanKeyword => GlobalName::Boolean,
        Kind::TSStringKeyword => GlobalName::String,
        Kind::TSTemplateLiteralType => GlobalName::String,
        Kind::TSNumberKeyword => GlobalName::Number,
        Kind::TSBigIntKeyword => GlobalName::BigInt,
        Kind::TSSymbolKeyword => GlobalName::Symbol,
        _ => GlobalName::Object,
    }
}
