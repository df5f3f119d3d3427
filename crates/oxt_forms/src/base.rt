//! Objects that stand on a made name under a key.
ghost use Rattle.std.specs.Prelude.{◌≡◌, ◌&&◌, ◌||◌, codes};
ghost use Rattle.oxt_forms.specs.Forms.{same_text, within};
ghost use Rattle.oxt_forms.specs.Made.{base_in, base_key, base_name, base_object, is_base_again, is_base_choice, is_base_member, is_found_made_on, is_made_use, makes_base, makes_on};
ghost use Rattle.oxt_tree.specs.Fields.{field_of, is_kind, named};
ghost use Rattle.oxt_tree.specs.Inner.{seen};
ghost use Rattle.oxt_tree.specs.View.{docs_in, doc_or_nil, node_doc, part_doc};
ghost use Rattle.oxt_grammar.specs.Keys.{key_of};

use crate::forms::{assigns_to, holds_empty_object, is_choice, same_text, within};
use crate::made::holds_made_use;
use oxt_facts::facts::Facts;
use oxt_grammar::field::Field;
use oxt_grammar::kind::Kind;
use oxt_tree::tree::{Node, Part};

/// The field of that name of the part, through wrappers and parentheses.
fn within_part<'a>(part: &'a Part, field: Field) -> Option<&'a Part>
    ensures { doc_or_nil result ≡ seen (field_of (key_of field) (part_doc part.now)) }
{
    match part {
        Part::Node(node) => within(node, field),
        _ => None,
    }
}

/// Whether the part is `b.k` or `b["k"]` on a made name.
fn is_base_member(facts: &Facts, part: &Part) -> bool
    ensures { result ≡ is_base_member facts.now (part_doc part.now) }
{
    match part {
        Part::Node(node) => {
            has_base_key(node)
                && (!node.flag(Field::Optional) && holds_made_use(facts, node, Field::Object))
        }
        _ => false,
    }
}

/// Whether the node is a member whose key is a name or a text.
fn has_base_key(node: &Node) -> bool
    ensures { result ≡ (is_kind Kind.StaticMemberExpression (node_doc node.now)
        || (is_kind Kind.ComputedMemberExpression (node_doc node.now)
        && is_kind Kind.StringLiteral (within (codes "expression") node.now.kind (docs_in node.now.parts.items)))) }
{
    node.kind.is(Kind::StaticMemberExpression)
        || (node.kind.is(Kind::ComputedMemberExpression) && holds_text_literal(node))
}

/// Whether the key of the node is a text.
fn holds_text_literal(node: &Node) -> bool
    ensures { result ≡ is_kind Kind.StringLiteral
        (within (codes "expression") node.now.kind (docs_in node.now.parts.items)) }
{
    match within(node, Field::Expression) {
        Some(part) => part.is_kind(Kind::StringLiteral),
        None => false,
    }
}

/// The use `b` in `b.k`.
pub fn base_object(part: &Part) -> Option<&Part>
    ensures { doc_or_nil result ≡ base_object (part_doc part.now) }
{
    within_part(part, Field::Object)
}

/// The name in `b`.
fn base_name(part: &Part) -> Option<&Part>
    ensures { doc_or_nil result ≡ base_name (part_doc part.now) }
{
    match base_object(part) {
        Some(object) => object.field(Field::Name),
        None => None,
    }
}

/// The text `k` in `b.k` or `b["k"]`.
pub fn base_key(part: &Part) -> Option<&Part>
    ensures { doc_or_nil result ≡ base_key (part_doc part.now) }
{
    if part.is_kind(Kind::StaticMemberExpression) {
        static_key(part)
    } else {
        computed_key(part)
    }
}

/// The text `k` in `b.k`.
fn static_key(part: &Part) -> Option<&Part>
    ensures { doc_or_nil result
        ≡ field_of (codes "name") (field_of (codes "property") (part_doc part.now)) }
{
    match part.field(Field::Property) {
        Some(property) => property.field(Field::Name),
        None => None,
    }
}

/// The text `k` in `b["k"]`.
fn computed_key(part: &Part) -> Option<&Part>
    ensures { doc_or_nil result
        ≡ field_of (codes "value") (seen (field_of (codes "expression") (part_doc part.now))) }
{
    match within_part(part, Field::Expression) {
        Some(key) => key.field(Field::Value),
        None => None,
    }
}

/// Whether both are one text.
pub(crate) fn same_texts(a: Option<&Part>, b: Option<&Part>) -> bool
    ensures { result ≡ same_text (doc_or_nil a.entry) (doc_or_nil b.entry) }
{
    match a {
        Some(a) => match b {
            Some(b) => same_text(a, b),
            None => false,
        },
        None => false,
    }
}

/// Whether both are the same member of the same made name.
fn is_base_again(facts: &Facts, a: &Part, b: &Part) -> bool
    ensures { result ≡ is_base_again facts.now (part_doc a.now) (part_doc b.now) }
{
    is_base_member(facts, a)
        && (is_base_member(facts, b)
            && (same_texts(base_name(a), base_name(b)) && same_texts(base_key(a), base_key(b))))
}

/// Whether the part is `m = {}`.
fn makes_base(facts: &Facts, member: &Part, part: &Part) -> bool
    ensures { result ≡ makes_base facts.now (part_doc member.now) (part_doc part.now) }
{
    match part {
        Part::Node(node) => {
            node.kind.is(Kind::AssignmentExpression)
                && (node.holds_text(Field::Operator, "=")
                    && (assigns_base(facts, member, node)
                        && holds_empty_object(node, Field::Right)))
        }
        _ => false,
    }
}

/// Whether the assignment is to that member.
fn assigns_base(facts: &Facts, member: &Part, node: &Node) -> bool
    ensures { result ≡ is_base_again facts.now (part_doc member.now)
        (within (codes "left") node.now.kind (docs_in node.now.parts.items)) }
{
    match within(node, Field::Left) {
        Some(left) => is_base_again(facts, member, left),
        None => false,
    }
}

/// Whether the part is `m || (m = {})`.
fn is_base_choice(facts: &Facts, part: &Part) -> bool
    ensures { result ≡ is_base_choice facts.now (part_doc part.now) }
{
    match part {
        Part::Node(node) => {
            node.kind.is(Kind::LogicalExpression)
                && (node.holds_text(Field::Operator, "||") && makes_left_base(facts, node))
        }
        _ => false,
    }
}

/// Whether what stands on the right makes the member on the left.
fn makes_left_base(facts: &Facts, node: &Node) -> bool
    ensures { result ≡ makes_base facts.now
        (within (codes "left") node.now.kind (docs_in node.now.parts.items))
        (within (codes "right") node.now.kind (docs_in node.now.parts.items)) }
{
    match within(node, Field::Left) {
        Some(left) => match within(node, Field::Right) {
            Some(right) => makes_base(facts, left, right),
            None => false,
        },
        None => false,
    }
}

/// Whether the part is `x = m || (m = {})`.
fn makes_on(facts: &Facts, name: &Part, part: &Part) -> bool
    ensures { result ≡ makes_on facts.now (part_doc name.now) (part_doc part.now) }
{
    match part {
        Part::Node(node) => {
            node.kind.is(Kind::AssignmentExpression)
                && (node.holds_text(Field::Operator, "=")
                    && (assigns_to(name, node) && holds_base_choice(facts, node)))
        }
        _ => false,
    }
}

/// Whether the value of the assignment is `m || (m = {})`.
fn holds_base_choice(facts: &Facts, node: &Node) -> bool
    ensures { result ≡ is_base_choice facts.now
        (within (codes "right") node.now.kind (docs_in node.now.parts.items)) }
{
    match within(node, Field::Right) {
        Some(right) => is_base_choice(facts, right),
        None => false,
    }
}

/// Whether it is `x || (x = m || (m = {}))`, where m is a member of a made name.
pub fn is_found_made_on(facts: &Facts, node: &Node) -> bool
    ensures { result ≡ is_found_made_on facts.now node.now.kind (docs_in node.now.parts.items) }
{
    is_choice(facts, node) && makes_left_on(facts, node)
}

/// Whether what stands on the right makes the name on the left, on a member of a made name.
fn makes_left_on(facts: &Facts, node: &Node) -> bool
    ensures { result ≡ makes_on facts.now
        (within (codes "left") node.now.kind (docs_in node.now.parts.items))
        (within (codes "right") node.now.kind (docs_in node.now.parts.items)) }
{
    match within(node, Field::Left) {
        Some(left) => match within(node, Field::Right) {
            Some(right) => makes_on(facts, left, right),
            None => false,
        },
        None => false,
    }
}

/// The member m in `x || (x = m || (m = {}))`.
pub fn base_in(node: &Node) -> Option<&Part>
    ensures { doc_or_nil result ≡ base_in node.now.kind (docs_in node.now.parts.items) }
{
    match within(node, Field::Right) {
        Some(assignment) => base_of_assignment(assignment),
        None => None,
    }
}

/// The member m in `x = m || (m = {})`.
fn base_of_assignment(part: &Part) -> Option<&Part>
    ensures { doc_or_nil result ≡ seen (field_of (codes "left") (seen (field_of (codes "right") (part_doc part.now)))) }
{
    match within_part(part, Field::Right) {
        Some(choice) => within_part(choice, Field::Left),
        None => None,
    }
}
