//! What becomes of the fields of a class.
ghost use Rattle.std.specs.List.{list_any};
ghost use Rattle.std.specs.Prelude.{◌≡◌, codes, option_map};
ghost use Rattle.oxt_fields.specs.Fates.{assigned_fate, defined_fate, empty_fate, fate, field_fate, has_value, hoists_private, holds_call_key, is_alias, is_field, is_held, is_hoisting, is_kept_empty, is_moving, is_plain_template, is_private, is_repeated_kind, is_static, is_steady_kind, is_stored, keeps_as, keeps_empty, key_constant, moves_to_constructor, moving_fate, needs_call_temporary, needs_temporary, repeated_kinds, steady_kinds, stored_fate, unwrapped};
ghost use Rattle.oxt_fields.specs.Rules.{rules_view};
ghost use Rattle.oxt_names.specs.Constant.{constant_view};
ghost use Rattle.oxt_tree.specs.Fields.{named};
ghost use Rattle.oxt_tree.specs.View.{docs_in, node_doc, part_doc};

use crate::rules::FieldRules;
use oxt_declares::calls::is_called;
use oxt_declares::class::has_any;
use oxt_grammar::category::Category;
use oxt_grammar::field::Field;
use oxt_grammar::kind::Kind;
use oxt_names::constant::ConstantValue;
use oxt_tree::tree::{Node, Part};

/// What becomes of an element of a class.
#[derive(Clone, Copy)]
pub enum Fate {
    /// It stays as it is.
    Stays,
    /// It goes, and leaves nothing.
    Goes,
    /// It goes, but its key is still computed in its place.
    LeavesKey,
    /// It is set by assignment.
    Moves {
        /// Whether an empty field stays in its place.
        stays: bool,
        /// Whether its key is kept in a temporary.
        has_temporary: bool,
    },
}

/// What becomes of the element of a class, where `hoists` says whether private instance fields move too. All but fields
/// and accessors that become such stay, and so do fields that are only declared.
pub fn fate_of(rules: FieldRules, hoists: bool, node: &Node) -> Fate
    ensures { result ≡ fate (rules_view rules.entry) hoists (node_doc node.now) }
{
    if is_field(node) {
        field_fate(rules, hoists, node)
    } else if is_stored(rules, node.kind) {
        stored_fate(rules, hoists, node)
    } else {
        Fate::Stays
    }
}

/// What becomes of a field.
fn field_fate(rules: FieldRules, hoists: bool, node: &Node) -> Fate
    ensures { result ≡ field_fate (rules_view rules.entry) hoists node.now.kind (docs_in node.now.parts.items) }
{
    if rules.moves {
        assigned_fate(rules, hoists, node)
    } else {
        defined_fate(rules, node)
    }
}

/// Whether nodes of the kind are accessors that become private fields with a getter and a setter.
pub fn is_stored(rules: FieldRules, kind: Kind) -> bool
    ensures { result ≡ is_stored (rules_view rules.entry) kind }
{
    rules.legacy && kind.is(Kind::AccessorProperty)
}

/// What becomes of the private field of such an accessor: it moves as other private ones do.
fn stored_fate(rules: FieldRules, hoists: bool, node: &Node) -> Fate
    ensures { result ≡ stored_fate (rules_view rules.entry) hoists node.now.kind (docs_in node.now.parts.items) }
{
    if rules.moves && (hoists && (has_value(node) && !is_static(node))) {
        Fate::Moves {
            stays: true,
            has_temporary: false,
        }
    } else {
        Fate::Stays
    }
}

/// What becomes of a field where public fields are set by assignment.
fn assigned_fate(rules: FieldRules, hoists: bool, node: &Node) -> Fate
    ensures { result ≡ assigned_fate (rules_view rules.entry) hoists node.now.kind (docs_in node.now.parts.items) }
{
    if has_value(node) {
        moving_fate(rules, hoists, node)
    } else {
        empty_fate(rules, node)
    }
}

/// What becomes of a field with a value there.
fn moving_fate(rules: FieldRules, hoists: bool, node: &Node) -> Fate
    ensures { result ≡ moving_fate (rules_view rules.entry) hoists node.now.kind (docs_in node.now.parts.items) }
{
    let is_private = is_private(node);
    let is_instance = !is_static(node);
    if !is_private || (is_instance && hoists) {
        Fate::Moves {
            stays: is_instance && (is_private || !rules.drops_empty),
            has_temporary: !is_private && key_needs_temporary(rules, node),
        }
    } else {
        Fate::Stays
    }
}

/// What becomes of a field without a value there.
fn empty_fate(rules: FieldRules, node: &Node) -> Fate
    ensures { result ≡ empty_fate (rules_view rules.entry) node.now.kind (docs_in node.now.parts.items) }
{
    if is_private(node) || !rules.drops_empty {
        Fate::Stays
    } else if key_needs_temporary(rules, node) {
        Fate::LeavesKey
    } else {
        Fate::Goes
    }
}

/// What becomes of a field where fields are defined.
fn defined_fate(rules: FieldRules, node: &Node) -> Fate
    ensures { result ≡ defined_fate (rules_view rules.entry) node.now.kind (docs_in node.now.parts.items) }
{
    if rules.drops_empty
        && (!has_value(node) && (!is_private(node) && !is_kept_empty(rules, node)))
    {
        Fate::Goes
    } else {
        Fate::Stays
    }
}

/// Whether the element of a class is an instance field that moves into the constructor.
pub fn moves_to_constructor(rules: FieldRules, hoists: bool, node: &Node) -> bool
    ensures { result ≡ moves_to_constructor (rules_view rules.entry) hoists (node_doc node.now) }
{
    fate_of(rules, hoists, node).is_moving() && !is_static(node)
}

impl Fate {
    /// Whether it is set by assignment.
    pub fn is_moving(self) -> bool
        ensures { result ≡ is_moving self }
    {
        match self {
            Fate::Moves { .. } => true,
            _ => false,
        }
    }
}

/// Whether one of the elements is an instance field with a value, neither private nor only declared: then private instance
/// fields move too.
#[tactic(auto, using(oxt_tree::proofs::Lists::list_any_docs_in))]
pub fn hoists_private(elements: &[Part]) -> bool
    ensures { result ≡ hoists_private (docs_in elements.now) }
{
    is_any_hoisting(elements)
}

/// Whether one of the elements is such a field.
fn is_any_hoisting(elements: &[Part]) -> bool
    ensures { result ≡ list_any (λ part. is_hoisting (part_doc part)) elements.now }
{
    elements.iter().any(|element| is_hoisting(element))
}

/// Whether the element is such a field.
fn is_hoisting(element: &Part) -> bool
    ensures { result ≡ is_hoisting (part_doc element.now) }
{
    match element {
        Part::Node(node) => {
            is_field(node) && (!is_static(node) && (!is_private(node) && has_value(node)))
        }
        _ => false,
    }
}

/// Whether it is a field that is not only declared.
pub fn is_field(node: &Node) -> bool
    ensures { result ≡ is_field node.now.kind (docs_in node.now.parts.items) }
{
    node.kind.is(Kind::PropertyDefinition) && !node.flag(Field::Declare)
}

/// Whether the element is static.
pub fn is_static(node: &Node) -> bool
    ensures { result ≡ is_static node.now.kind (docs_in node.now.parts.items) }
{
    node.flag(Field::Static)
}

/// Whether the name of the element is private.
pub fn is_private(node: &Node) -> bool
    ensures { result ≡ is_private node.now.kind (docs_in node.now.parts.items) }
{
    node.holds_kind(Field::Key, Kind::PrivateIdentifier)
}

/// Whether the element has a value.
pub fn has_value(node: &Node) -> bool
    ensures { result ≡ has_value node.now.kind (docs_in node.now.parts.items) }
{
    !node.lacks(Field::Value)
}

/// Whether the key needs a temporary: an expression, but neither a literal nor a name that nothing writes to.
pub fn needs_temporary(rules: FieldRules, key: &Node) -> bool
    ensures { result ≡ needs_temporary (rules_view rules.entry) (node_doc key.now) }
{
    !is_steady_kind(key.kind) && !rules.plan.is_never_written(key.id)
}

/// Whether the key of the element needs a temporary.
fn key_needs_temporary(rules: FieldRules, node: &Node) -> bool
    ensures { result
        ≡ needs_temporary (rules_view rules.entry) (named (codes "key") node.now.kind (docs_in node.now.parts.items)) }
{
    match node.field(Field::Key) {
        Some(Part::Node(key)) => needs_temporary(rules, key),
        _ => false,
    }
}

/// Whether the key of the element keeps it, though it is empty and such are dropped: by itself, or for the call behind the
/// class.
fn is_kept_empty(rules: FieldRules, node: &Node) -> bool
    ensures { result ≡ is_kept_empty (rules_view rules.entry) node.now.kind (docs_in node.now.parts.items) }
{
    key_keeps_empty(rules, node) || holds_call_key(rules, node)
}

/// Whether the element gives a call behind its class, and its key needs a temporary for that, where decorators are lowered.
pub fn holds_call_key(rules: FieldRules, node: &Node) -> bool
    ensures { result ≡ holds_call_key (rules_view rules.entry) node.now.kind (docs_in node.now.parts.items) }
{
    rules.legacy && (is_called(node) && key_needs_call_temporary(rules, node))
}

/// Whether the key of the element needs a temporary for the call behind the class.
fn key_needs_call_temporary(rules: FieldRules, node: &Node) -> bool
    ensures { result
        ≡ needs_call_temporary (rules_view rules.entry) (named (codes "key") node.now.kind (docs_in node.now.parts.items)) }
{
    match node.field(Field::Key) {
        Some(Part::Node(key)) => needs_call_temporary(rules, key),
        _ => false,
    }
}

/// Whether the key of an element needs a temporary for the call behind its class: the call does not repeat it, once wrappers
/// are erased and constants are written in their places.
pub fn needs_call_temporary(rules: FieldRules, key: &Node) -> bool
    ensures { result ≡ needs_call_temporary (rules_view rules.entry) (node_doc key.now) }
{
    keeps_as(key_constant(rules, key), is_held(unwrapped(key)))
}

/// Whether the call behind a class does not repeat the key, once it is written so.
fn is_held(key: &Node) -> bool
    ensures { result ≡ is_held (node_doc key.now) }
{
    !(is_repeated_kind(key.kind) || is_plain_template(key))
}

/// Whether keys of the kind are repeated: names, and some literals.
fn is_repeated_kind(kind: Kind) -> bool
    ensures { result ≡ is_repeated_kind kind }
{
    repeated_kinds().iter().any(|other| kind.is(*other))
}

/// The kinds of such keys.
fn repeated_kinds() -> &'static [Kind]
    ensures { result.now ≡ repeated_kinds }
{
    &[
        Kind::IdentifierName,
        Kind::PrivateIdentifier,
        Kind::StringLiteral,
        Kind::NumericLiteral,
        Kind::NullLiteral,
    ]
}

/// Whether the key is a template without expressions.
fn is_plain_template(key: &Node) -> bool
    ensures { result ≡ is_plain_template key.now.kind (docs_in key.now.parts.items) }
{
    key.kind.is(Kind::TemplateLiteral) && !has_any(key.list(Field::Expressions))
}

/// Whether the key of the element keeps it, though it is empty and such are dropped.
fn key_keeps_empty(rules: FieldRules, node: &Node) -> bool
    ensures { result
        ≡ keeps_empty (rules_view rules.entry) (named (codes "key") node.now.kind (docs_in node.now.parts.items)) }
{
    match node.field(Field::Key) {
        Some(Part::Node(key)) => keeps_empty(rules, key),
        _ => false,
    }
}

/// Whether the key keeps its empty field: it needs a temporary once wrappers are erased and constants are written in their
/// places, or is an alias.
fn keeps_empty(rules: FieldRules, key: &Node) -> bool
    ensures { result ≡ keeps_empty (rules_view rules.entry) (node_doc key.now) }
{
    let written = unwrapped(key);
    keeps_as(
        key_constant(rules, key),
        needs_temporary(rules, written) || is_alias(rules, written),
    )
}

/// What a key is by its constant: whether that is negative; without one, as it is by itself.
fn keeps_as(constant: Option<&ConstantValue>, by_itself: bool) -> bool
    ensures { result ≡ keeps_as (option_map (λ value. constant_view value.now) constant.entry) by_itself }
{
    match constant {
        Some(ConstantValue::Text(_)) => false,
        Some(ConstantValue::Number(number)) => *number < 0,
        None => by_itself,
    }
}

/// Whether the key is a name that is read as the alias of a decorated class.
fn is_alias(rules: FieldRules, key: &Node) -> bool
    ensures { result ≡ is_alias (rules_view rules.entry) (node_doc key.now) }
{
    rules.plan.alias_of(key.id).is_some()
}

/// The constant of the key, or of what stands inside its wrappers and parentheses.
pub fn key_constant<'a>(rules: FieldRules<'a>, key: &Node) -> Option<&'a ConstantValue>
    ensures { option_map (λ value. constant_view value.now) result ≡ key_constant (rules_view rules.entry) (node_doc key.now) }
{
    match rules.plan.inlined(key.id) {
        Some(value) => Some(value),
        None => rules.plan.inlined(key.get_inner_expression().id),
    }
}

/// The key without the wrappers around it; parentheses stay that stand around all.
pub fn unwrapped(key: &Node) -> &Node
    ensures { node_doc result.now ≡ unwrapped (node_doc key.now) }
{
    if Category::Wrapper.contains(key.kind) {
        key.get_inner_expression()
    } else {
        key
    }
}

/// Whether keys of the kind can be written twice: names, and literals.
pub fn is_steady_kind(kind: Kind) -> bool
    ensures { result ≡ is_steady_kind kind }
{
    steady_kinds().iter().any(|other| kind.is(*other))
}

/// The kinds of such keys.
fn steady_kinds() -> &'static [Kind]
    ensures { result.now ≡ steady_kinds }
{
    &[
        Kind::IdentifierName,
        Kind::PrivateIdentifier,
        Kind::BooleanLiteral,
        Kind::NullLiteral,
        Kind::NumericLiteral,
        Kind::StringLiteral,
        Kind::BigIntLiteral,
        Kind::RegExpLiteral,
    ]
}
