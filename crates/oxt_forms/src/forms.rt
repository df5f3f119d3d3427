//! Tests that decide how a node is read.
ghost use Rattle.std.specs.Prelude.{◌≡◌, ◌<◌, ◌^◌, not, ◌&&◌, codes};
ghost use Rattle.oxt_tree.specs.Fields.{count, first};
ghost use Rattle.oxt_tree.specs.Inner.{seen};
ghost use Rattle.oxt_tree.specs.Fields.{elements, field_of, is_empty_list, is_kind, is_nil, is_set, is_text, named};
ghost use Rattle.oxt_tree.specs.View.{docs_in, doc_or_nil, node_doc, part_doc};
ghost use Rattle.oxt_forms.specs.Forms.{binding_of, is_argument, is_bare_list, is_bare_parameter, is_called, is_callable, is_bare_name, is_choice, is_empty_object, is_found, is_found_made, is_long, is_name_again, is_one, is_put, leaves_bare, makes, same_text, within};
ghost use Rattle.oxt_facts.specs.Told.{told_of};
ghost use Rattle.oxt_grammar.specs.Keys.{key_of};

use oxt_facts::facts::Facts;
use oxt_facts::item::Binding;
use oxt_facts::told::Told;
use oxt_grammar::category::Category;
use oxt_grammar::field::Field;
use oxt_grammar::kind::Kind;
use oxt_tree::fields::count;
use oxt_tree::tree::{Node, Part};

/// The field of that name, through wrappers and parentheses.
pub fn within<'a>(node: &'a Node, field: Field) -> Option<&'a Part>
    ensures { doc_or_nil result ≡ within (key_of field) node.now.kind (docs_in node.now.parts.items) }
{
    match node.field(field) {
        Some(part) => Some(part.seen()),
        None => None,
    }
}

/// Whether it is an assignment by `=` to a member of an object.
pub fn is_put(node: &Node) -> bool
    ensures { result ≡ is_put node.now.kind (docs_in node.now.parts.items) }
{
    node.holds_text(Field::Operator, "=")
        && match within(node, Field::Left) {
            Some(left) => left.is_in(Category::MemberExpression),
            None => false,
        }
}

/// Whether it is a sequence of two or more.
pub fn is_long(node: &Node) -> bool
    ensures { result ≡ is_long node.now.kind (docs_in node.now.parts.items) }
{
    1 < count(node.list(Field::Expressions))
}

/// Whether the list in the field of that name is empty.
pub fn lists_nothing(node: &Node, field: Field) -> bool
    ensures { result ≡ is_empty_list (named (key_of field) node.now.kind (docs_in node.now.parts.items)) }
{
    match node.field(field) {
        Some(Part::List(parts)) => parts.first().is_none(),
        _ => false,
    }
}

/// Whether it is `{}`.
pub(crate) fn is_empty_object(part: &Part) -> bool
    ensures { result ≡ is_empty_object (part_doc part.now) }
{
    match part {
        Part::Node(node) => node.kind.is(Kind::ObjectExpression)
            && lists_nothing(node, Field::Properties),
        _ => false,
    }
}

/// Whether both are texts, and one.
pub(crate) fn same_text(a: &Part, b: &Part) -> bool
    ensures { result ≡ same_text (part_doc a.now) (part_doc b.now) }
{
    match a {
        Part::Text(name) => b.is_text(name.as_str()),
        Part::Word(word) => b.is_text(word.text()),
        _ => false,
    }
}

/// Whether the fields of these names hold one text.
fn same_name(a: &Node, b: &Node) -> bool
    ensures { result ≡ same_text
        (named (codes "name") a.now.kind (docs_in a.now.parts.items))
        (named (codes "name") b.now.kind (docs_in b.now.parts.items)) }
{
    match a.field(Field::Name) {
        Some(x) => match b.field(Field::Name) {
            Some(y) => same_text(x, y),
            None => false,
        },
        None => false,
    }
}

/// Whether both are bare names, and one.
pub(crate) fn is_name_again(a: &Part, b: &Part) -> bool
    ensures { result ≡ is_name_again (part_doc a.now) (part_doc b.now) }
{
    match a {
        Part::Node(x) => match b {
            Part::Node(y) => {
                x.kind.is(Kind::IdentifierReference)
                    && (y.kind.is(Kind::IdentifierReference) && same_name(x, y))
            }
            _ => false,
        },
        _ => false,
    }
}

/// Whether it is `x = {}`.
fn makes(name: &Part, part: &Part) -> bool
    ensures { result ≡ makes (part_doc name.now) (part_doc part.now) }
{
    match part {
        Part::Node(node) => {
            node.kind.is(Kind::AssignmentExpression)
                && (node.holds_text(Field::Operator, "=")
                    && (assigns_to(name, node) && holds_empty_object(node, Field::Right)))
        }
        _ => false,
    }
}

/// Whether the assignment is to the name.
pub(crate) fn assigns_to(name: &Part, node: &Node) -> bool
    ensures { result ≡ is_name_again (part_doc name.now)
        (within (codes "left") node.now.kind (docs_in node.now.parts.items)) }
{
    match within(node, Field::Left) {
        Some(left) => is_name_again(name, left),
        None => false,
    }
}

/// Whether the field of that name holds `{}`.
pub(crate) fn holds_empty_object(node: &Node, field: Field) -> bool
    ensures { result
        ≡ is_empty_object (within (key_of field) node.now.kind (docs_in node.now.parts.items)) }
{
    match within(node, field) {
        Some(part) => is_empty_object(part),
        None => false,
    }
}

/// Whether it is a bare name that is read as one.
fn is_bare_name(facts: &Facts, part: &Part) -> bool
    ensures { result ≡ is_bare_name facts.now (part_doc part.now) }
{
    match part {
        Part::Node(node) => node.kind.is(Kind::IdentifierReference) && stays_bare(facts, node),
        _ => false,
    }
}

/// Whether what is told of the name leaves it a bare one, which may be a made one or mean another group.
fn stays_bare(facts: &Facts, node: &Node) -> bool
    ensures { result ≡ leaves_bare (told_of facts.now.told node.now.id.0) }
{
    match facts.told_of(node.id) {
        None => true,
        Some(Told::Alias(_)) => true,
        Some(Told::Inner(_)) => true,
        _ => false,
    }
}

/// Whether it is `x || ..` with such a name.
pub(crate) fn is_choice(facts: &Facts, node: &Node) -> bool
    ensures { result ≡ is_choice facts.now node.now.kind (docs_in node.now.parts.items) }
{
    node.holds_text(Field::Operator, "||")
        && match within(node, Field::Left) {
            Some(left) => is_bare_name(facts, left),
            None => false,
        }
}

/// Whether it is `x || {}`.
pub fn is_found(facts: &Facts, node: &Node) -> bool
    ensures { result ≡ is_found facts.now node.now.kind (docs_in node.now.parts.items) }
{
    is_choice(facts, node) && holds_empty_object(node, Field::Right)
}

/// Whether it is `x || (x = {})`.
pub fn is_found_made(facts: &Facts, node: &Node) -> bool
    ensures { result ≡ is_found_made facts.now node.now.kind (docs_in node.now.parts.items) }
{
    is_choice(facts, node) && makes_left(node)
}

/// Whether what stands on the right makes the name on the left.
fn makes_left(node: &Node) -> bool
    ensures { result ≡ makes (within (codes "left") node.now.kind (docs_in node.now.parts.items))
        (within (codes "right") node.now.kind (docs_in node.now.parts.items)) }
{
    match within(node, Field::Left) {
        Some(left) => match within(node, Field::Right) {
            Some(right) => makes(left, right),
            None => false,
        },
        None => false,
    }
}

/// Whether there is exactly one.
pub(crate) fn is_one(parts: &[Part]) -> bool
    ensures { result ≡ is_one (docs_in parts.now) }
{
    count(parts) == 1
}

/// Whether it is a parameter that is a bare name.
fn is_bare_parameter(part: &Part) -> bool
    ensures { result ≡ is_bare_parameter (part_doc part.now) }
{
    match part {
        Part::Node(node) => {
            node.holds_kind(Field::Pattern, Kind::BindingIdentifier)
                && (node.lacks(Field::Initializer) && lists_nothing(node, Field::Decorators))
        }
        _ => false,
    }
}

/// Whether the first is a parameter that is a bare name.
fn begins_bare(parts: &[Part]) -> bool
    ensures { result ≡ is_bare_parameter (first (docs_in parts.now)) }
{
    match parts.first() {
        Some(part) => is_bare_parameter(part),
        None => false,
    }
}

/// Whether these are exactly one parameter, a bare name.
fn is_bare_list(part: &Part) -> bool
    ensures { result ≡ is_bare_list (part_doc part.now) }
{
    match part {
        Part::Node(node) => {
            node.lacks(Field::Rest)
                && (is_one(node.list(Field::Items)) && begins_bare(node.list(Field::Items)))
        }
        _ => false,
    }
}

/// Whether the function has exactly one parameter, a bare name.
fn has_bare_list(node: &Node) -> bool
    ensures { result
        ≡ is_bare_list (named (codes "params") node.now.kind (docs_in node.now.parts.items)) }
{
    match node.field(Field::Params) {
        Some(params) => is_bare_list(params),
        None => false,
    }
}

/// Whether it is a nameless function expression, neither async nor a generator, with such a
/// parameter.
fn is_callable(part: &Part) -> bool
    ensures { result ≡ is_callable (part_doc part.now) }
{
    match part {
        Part::Node(node) => {
            node.kind.is(Kind::FunctionExpression)
                && (node.lacks(Field::Id)
                    && (!node.flag(Field::Async)
                        && (!node.flag(Field::Generator) && has_bare_list(node))))
        }
        _ => false,
    }
}

/// Whether these are one argument, which is no spread.
fn is_argument(parts: &[Part]) -> bool
    ensures { result ≡ is_argument (docs_in parts.now) }
{
    is_one(parts)
        && match parts.first() {
            Some(part) => !part.is_kind(Kind::SpreadElement),
            None => true,
        }
}

/// Whether a function is called where it stands: the call is not optional, and the function has one
/// parameter, a bare name, for its one argument.
pub fn is_called(node: &Node) -> bool
    ensures { result ≡ is_called node.now.kind (docs_in node.now.parts.items) }
{
    !node.flag(Field::Optional)
        && (is_argument(node.list(Field::Arguments))
            && match within(node, Field::Callee) {
                Some(callee) => is_callable(callee),
                None => false,
            })
}

/// What the declaration declares its names as.
pub fn binding_of(node: &Node) -> Binding
    ensures { result
        ≡ binding_of (named (codes "kind") node.now.kind (docs_in node.now.parts.items)) }
{
    if node.holds_text(Field::Kind, "let") {
        Binding::Let
    } else if node.holds_text(Field::Kind, "const") {
        Binding::Const
    } else if node.holds_text(Field::Kind, "using") {
        Binding::Using
    } else if node.holds_text(Field::Kind, "await using") {
        Binding::AwaitUsing
    } else {
        Binding::Var
    }
}
