//! The conditions on nodes beside what their fields hold.
ghost use Rattle.std.specs.Prelude.{◌≡◌, not, ◌&&◌, option_map, codes, count_by};
ghost use Rattle.std.specs.List.{list_any};
ghost use Rattle.oxt_valid.specs.Condition.{is_literal, key_fails, is_chain_link, chain_fails, template_fails, begins_with_text, is_plain_template, member_fails, is_default_export, is_constructor, is_static_constructor, is_constructor_with_body, constructors_fail, literal_fails, fault, fault_at, fault_of};
ghost use Rattle.oxt_tree.specs.Fields.{count};
ghost use Rattle.oxt_tree.specs.Inner.{seen};
ghost use Rattle.oxt_tree.specs.Fields.{named, field_of, elements, docs_list, is_nil, is_set, is_kind};
ghost use Rattle.oxt_tree.specs.View.{docs_in, field_in, part_doc};
ghost use Rattle.oxt_grammar.specs.Keys.{key_of};

use oxt_grammar::category::Category;
use oxt_grammar::context::{Condition, Setting};
use oxt_grammar::field::Field;
use oxt_grammar::kind::Kind;
use oxt_tree::fields::count;
use oxt_tree::tree::{Node, Part};

/// The field at which the node, whose fields fit their rows, fails to meet the condition of its
/// kind; none where it meets it.
pub fn fault(node: &Node, setting: Setting) -> Option<&'static str>
    ensures { option_map (λ t. t.now) result
        ≡ fault setting node.now.kind (docs_in node.now.parts.items) }
{
    match node.kind.condition() {
        Condition::Nothing => None,
        Condition::ElementKey => fault_at(Field::Computed, key_fails(node, Field::Key, true)),
        Condition::PlainKey => fault_at(Field::Computed, key_fails(node, Field::Key, false)),
        Condition::TargetKey => fault_at(Field::Computed, key_fails(node, Field::Name, false)),
        Condition::Number => fault_at(
            Field::Value,
            node.lacks(Field::Value) && node.lacks(Field::Raw),
        ),
        Condition::Chain => fault_at(Field::Expression, chain_fails(node)),
        Condition::Template => fault_at(Field::Quasis, template_fails(node)),
        Condition::EnumMember => fault_at(Field::Id, member_fails(node)),
        Condition::Constructors => fault_at(Field::Body, constructors_fail(node.list(Field::Body))),
        Condition::NamedDeclaration => fault_at(Field::Id, name_fails(node, setting)),
        Condition::LiteralType => fault_at(Field::Literal, literal_fails(node)),
    }
}

/// The field, where the condition fails.
fn fault_at(field: Field, fails: bool) -> Option<&'static str>
    ensures { option_map (λ t. t.now) result ≡ fault_at (key_of field) fails }
{
    if fails { Some(field.name()) } else { None }
}

/// Whether the key in that field and the node's flag `computed` do not go together.
fn key_fails(node: &Node, field: Field, is_element: bool) -> bool
    ensures { result
        ≡ key_fails is_element
        (field_in (key_of field) node.now)
        (field_in (codes "computed") node.now) }
{
    let is_computed = node.flag(Field::Computed);
    if node.holds_kind(field, Kind::IdentifierName) {
        is_computed
    } else if node.holds_kind(field, Kind::PrivateIdentifier) {
        is_computed || !is_element
    } else {
        !holds_literal(node, field) && !is_computed
    }
}

/// Whether the field holds a number, a whole number or a text.
fn holds_literal(node: &Node, field: Field) -> bool
    ensures { result ≡ is_literal (field_in (key_of field) node.now) }
{
    node.holds_kind(field, Kind::NumericLiteral)
        || node.holds_kind(field, Kind::BigIntLiteral)
        || node.holds_kind(field, Kind::StringLiteral)
}

/// Whether the `!` in a chain holds neither a call nor a member.
fn chain_fails(node: &Node) -> bool
    ensures { result ≡ chain_fails (field_in (codes "expression") node.now) }
{
    match node.field(Field::Expression) {
        Some(element) => {
            element.is_kind(Kind::TSNonNullExpression) && !is_chain_link(element.seen())
        }
        None => false,
    }
}

/// Whether a chain may go on from it.
fn is_chain_link(part: &Part) -> bool
    ensures { result ≡ is_chain_link (part_doc part.now) }
{
    part.is_kind(Kind::CallExpression) || part.is_in(Category::MemberExpression)
}

/// Whether the template's texts and expressions do not take turns.
fn template_fails(node: &Node) -> bool
    ensures { result
        ≡ template_fails
        (field_in (codes "quasis") node.now)
        (field_in (codes "expressions") node.now) }
{
    count(node.list(Field::Quasis)) != count(node.list(Field::Expressions)) + 1
}

/// Whether the name of an enum's member and its brackets do not go together.
fn member_fails(node: &Node) -> bool
    ensures { result
        ≡ member_fails (field_in (codes "id") node.now) (field_in (codes "computed") node.now) }
{
    let is_computed = node.flag(Field::Computed);
    match node.field(Field::Id) {
        Some(id) if id.is_kind(Kind::TemplateLiteral) => !(is_computed && is_plain_template(id)),
        Some(id) => id.is_kind(Kind::IdentifierName) && is_computed,
        None => false,
    }
}

/// Whether it is a template without expressions that has a text.
fn is_plain_template(part: &Part) -> bool
    ensures { result ≡ is_plain_template (part_doc part.now) }
{
    match part {
        Part::Node(template) => {
            count(template.list(Field::Expressions)) == 0
                && begins_with_text(template.list(Field::Quasis))
        }
        _ => false,
    }
}

/// Whether the first of the texts has one whose escapes are read.
fn begins_with_text(quasis: &[Part]) -> bool
    ensures { result ≡ begins_with_text (docs_in quasis.now) }
{
    match quasis.first() {
        Some(Part::Node(quasi)) => !quasi.lacks(Field::Cooked),
        _ => false,
    }
}

/// Whether the elements of a class have a static constructor, or two with a body.
#[tactic(auto, using(oxt_tree::proofs::Lists::searches))]
fn constructors_fail(elements: &[Part]) -> bool
    ensures { result ≡ constructors_fail (docs_list (docs_in elements.now)) }
{
    has_static_constructor(elements) || constructors_with_body(elements) > 1
}

/// Whether one of the elements is a static constructor.
fn has_static_constructor(elements: &[Part]) -> bool
    ensures { result ≡ list_any (λ element. is_static_constructor (part_doc element)) elements.now }
{
    elements
        .iter()
        .any(|element| is_static_constructor(element))
}

/// How many of the elements are constructors with a body.
fn constructors_with_body(elements: &[Part]) -> usize
    ensures { result
        ≡ count_by (λ element. is_constructor_with_body (part_doc element)) elements.now }
{
    elements
        .iter()
        .filter(|element| is_constructor_with_body(element))
        .count()
}

/// Whether it is a constructor.
fn is_constructor(part: &Part) -> bool
    ensures { result ≡ is_constructor (part_doc part.now) }
{
    match part.field(Field::Kind) {
        Some(kind) => kind.is_text("constructor") && part.is_kind(Kind::MethodDefinition),
        None => false,
    }
}

/// Whether it is a static constructor.
fn is_static_constructor(part: &Part) -> bool
    ensures { result ≡ is_static_constructor (part_doc part.now) }
{
    match part {
        Part::Node(element) => is_constructor(part) && element.flag(Field::Static),
        _ => false,
    }
}

/// Whether it is a constructor that has a body.
fn is_constructor_with_body(part: &Part) -> bool
    ensures { result ≡ is_constructor_with_body (part_doc part.now) }
{
    match part {
        Part::Node(element) => {
            is_constructor(part)
                && element.kind.is(Kind::MethodDefinition)
                && element.holds_kind(Field::Value, Kind::FunctionExpression)
        }
        _ => false,
    }
}

/// Whether a declaration lacks the name that it needs in that setting.
fn name_fails(node: &Node, setting: Setting) -> bool
    ensures { result
        ≡ (is_nil (field_in (codes "id") node.now) && not (is_default_export setting)) }
{
    node.lacks(Field::Id) && !is_default_export(setting)
}

/// Whether the node stands directly in a default export.
fn is_default_export(setting: Setting) -> bool
    ensures { result ≡ is_default_export setting }
{
    match setting {
        Setting::DefaultExport => true,
        Setting::NamedExport => false,
        Setting::Elsewhere => false,
    }
}

/// Whether the sign in a literal type stands before something other than a literal.
fn literal_fails(node: &Node) -> bool
    ensures { result ≡ literal_fails (field_in (codes "literal") node.now) }
{
    match node.field(Field::Literal) {
        Some(Part::Node(literal)) => {
            literal.kind.is(Kind::UnaryExpression) && !holds_literal(literal, Field::Argument)
        }
        _ => false,
    }
}
