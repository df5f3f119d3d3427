//! The constants of expressions without parts that have to be evaluated before.
ghost use Rattle.std.specs.Prelude.{◌≡◌, IfOk, Some, codes, option_map};
ghost use Rattle.oxt_constant.specs.Evaluated.{access_of, literal_text, object_member, whole};
ghost use Rattle.std.specs.Option.{option_and_then};
ghost use Rattle.oxt_names.specs.Constant.{constant_view, string};
ghost use Rattle.oxt_tree.specs.Fields.{field_of, named, text_in};
ghost use Rattle.oxt_tree.specs.View.{docs_in, node_doc, part_doc};
ghost use Rattle.oxt_grammar.specs.Keys.{key_of};

use crate::integer::signed;
use crate::meanings::Meanings;
use oxt_grammar::field::Field;
use oxt_grammar::kind::Kind;
use oxt_names::constant::ConstantValue;
use oxt_names::ids::OutOfMemory;
use oxt_names::name::Name;
use oxt_tree::tree::{Node, Part};
use std::alloc::Global;

/// The number in the field `value`, where JavaScript's numbers hold it exactly.
pub fn number_of(node: &Node) -> Option<ConstantValue>
    ensures { option_map constant_view result
        ≡ whole (named (codes "value") node.now.kind (docs_in node.now.parts.items)) }
{
    match node.field(Field::Value) {
        Some(part) => whole_number(part),
        None => None,
    }
}

/// The number that the part is, where JavaScript's numbers hold it exactly.
fn whole_number(part: &Part) -> Option<ConstantValue>
    ensures { option_map constant_view result ≡ whole (part_doc part.now) }
{
    match part {
        Part::Number(number) => match signed(false, *number) {
            Some(number) => Some(ConstantValue::Number(number)),
            None => None,
        },
        _ => None,
    }
}

/// The text in the field `value`.
pub fn string_of(alloc: Global, node: &Node) -> Result<Option<ConstantValue>, OutOfMemory>
    ensures { IfOk result
        (λ value. option_map constant_view value
        ≡ option_map string (text_in (named (codes "value") node.now.kind (docs_in node.now.parts.items)))) }
{
    match node.field(Field::Value) {
        Some(part) => text_constant(alloc, part),
        None => Ok(None),
    }
}

/// The text that the part is; that of a tree is not copied.
fn text_constant(alloc: Global, part: &Part) -> Result<Option<ConstantValue>, OutOfMemory>
    ensures { IfOk result
        (λ value. option_map constant_view value ≡ option_map string (text_in (part_doc part.now))) }
{
    match part {
        Part::Text(name) => Ok(Some(ConstantValue::Text(name.share()?))),
        Part::Word(word) => Ok(Some(ConstantValue::Text(Name::new(alloc, word.text())?))),
        _ => Ok(None),
    }
}

/// The constant of the enum member that the bare name means.
pub fn bare<'a, M: Meanings>(env: &'a M, node: &Node) -> Option<&'a ConstantValue>
    ensures { option_map (λ value. constant_view value.now) result
        ≡ option_and_then ((M.env env.now).bare node.now.id.0) (text_in (named (codes "name") node.now.kind (docs_in node.now.parts.items))) }
{
    match node.text(Field::Name) {
        Some(name) => env.bare(node.id, name),
        None => None,
    }
}

/// The constant of the enum member after a dot.
pub fn after_dot<'a, M: Meanings>(env: &'a M, node: &Node) -> Option<&'a ConstantValue>
    ensures { option_map (λ value. constant_view value.now) result
        ≡ access_of (M.env env.now) (named (codes "optional") node.now.kind (docs_in node.now.parts.items)) (named (codes "object") node.now.kind (docs_in node.now.parts.items)) (text_in (field_of (codes "name") (named (codes "property") node.now.kind (docs_in node.now.parts.items)))) }
{
    match property_name(node) {
        Some(key) => access(env, node, key),
        None => None,
    }
}

/// The constant of the enum member in brackets.
pub fn in_brackets<'a, M: Meanings>(env: &'a M, node: &Node) -> Option<&'a ConstantValue>
    ensures { option_map (λ value. constant_view value.now) result
        ≡ access_of (M.env env.now) (named (codes "optional") node.now.kind (docs_in node.now.parts.items)) (named (codes "object") node.now.kind (docs_in node.now.parts.items)) (literal_text (named (codes "expression") node.now.kind (docs_in node.now.parts.items))) }
{
    match key_text(node) {
        Some(key) => access(env, node, key),
        None => None,
    }
}

/// The name after the dot.
fn property_name(node: &Node) -> Option<&str>
    ensures { option_map (λ name. name.now) result
        ≡ text_in (field_of (codes "name") (named (codes "property") node.now.kind (docs_in node.now.parts.items))) }
{
    match node.field(Field::Property) {
        Some(Part::Node(property)) => property.text(Field::Name),
        _ => None,
    }
}

/// The text in the brackets, if a literal text stands there.
fn key_text(node: &Node) -> Option<&str>
    ensures { option_map (λ text. text.now) result
        ≡ literal_text (named (codes "expression") node.now.kind (docs_in node.now.parts.items)) }
{
    match node.field(Field::Expression) {
        Some(Part::Node(key)) => literal(key),
        _ => None,
    }
}

/// The text of a literal text.
fn literal(node: &Node) -> Option<&str>
    ensures { option_map (λ text. text.now) result ≡ literal_text (node_doc node.now) }
{
    if node.kind.is(Kind::StringLiteral) {
        node.text(Field::Value)
    } else {
        None
    }
}

/// The constant of the member `key` of the enum that stands before it, unless the access is optional.
fn access<'a, M: Meanings>(env: &'a M, node: &Node, key: &str) -> Option<&'a ConstantValue>
    ensures { option_map (λ value. constant_view value.now) result
        ≡ access_of (M.env env.now) (named (codes "optional") node.now.kind (docs_in node.now.parts.items)) (named (codes "object") node.now.kind (docs_in node.now.parts.items)) (Some key.now) }
{
    if node.flag(Field::Optional) {
        return None;
    }
    match node.field(Field::Object) {
        Some(Part::Node(object)) => object_member(env, object, key),
        _ => None,
    }
}

/// The constant of the member `key` of the enum that a bare name means.
fn object_member<'a, M: Meanings>(env: &'a M, object: &Node, key: &str) -> Option<&'a ConstantValue>
    ensures { option_map (λ value. constant_view value.now) result
        ≡ object_member (M.env env.now) key.now (node_doc object.now) }
{
    if !object.kind.is(Kind::IdentifierReference) {
        return None;
    }
    match object.text(Field::Name) {
        Some(name) => env.member(object.id, name, key),
        None => None,
    }
}
