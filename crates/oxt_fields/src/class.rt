//! The parts of a class and of its constructor.
ghost use Rattle.std.specs.Prelude.{◌≡◌, ◌<◌, IfSome, find, length, option_map};
ghost use Rattle.std.specs.List.{position_from};
ghost use Rattle.oxt_fields.specs.Classes.{constructor_in, elements_of, has_modifier, is_constructor, is_derived, is_property, is_super_call, is_super_statement, parameters_of, statements_of, super_call_position};
ghost use Rattle.oxt_grammar.specs.Keys.{key_of};
ghost use Rattle.oxt_tree.specs.Fields.{field_of};
ghost use Rattle.oxt_tree.specs.View.{doc_or_nil, docs_in, node_doc, part_doc};

use oxt_grammar::field::Field;
use oxt_grammar::kind::Kind;
use oxt_tree::tree::{Node, Part};

/// The elements of the class.
pub fn elements_of(class: &Node) -> &[Part]
    ensures { docs_in result.now ≡ elements_of (node_doc class.now) }
{
    match class.field(Field::Body) {
        Some(body) => body.list(Field::Body),
        None => &[],
    }
}

/// Whether the class extends another.
pub fn is_derived(class: &Node) -> bool
    ensures { result ≡ is_derived (node_doc class.now) }
{
    !class.lacks(Field::SuperClass)
}

/// The first of the elements that is a constructor with a body.
#[tactic(auto, using(crate::proofs::Elements::constructor_steps))]
pub fn constructor_of(elements: &[Part]) -> Option<&Node>
    ensures { option_map (λ node. node_doc node.now) result ≡ constructor_in (docs_in elements.now) }
{
    match find_constructor(elements) {
        Some(element) => element.as_node(),
        None => None,
    }
}

/// The first of the elements that is such.
fn find_constructor(elements: &[Part]) -> Option<&Part>
    ensures { option_map (λ part. part.now) result ≡ find (λ part. is_constructor (part_doc part)) elements.now }
{
    elements.iter().find(|element| is_constructor(element))
}

/// Whether the element is a constructor that has a body.
fn is_constructor(element: &Part) -> bool
    ensures { result ≡ is_constructor (part_doc element.now) }
{
    match element {
        Part::Node(node) => {
            node.kind.is(Kind::MethodDefinition)
                && (node.holds_text(Field::Kind, "constructor")
                    && node.holds_kind(Field::Value, Kind::FunctionExpression))
        }
        _ => false,
    }
}

/// The parameters of the method but for the one that takes the rest.
pub fn parameters_of(method: &Node) -> &[Part]
    ensures { docs_in result.now ≡ parameters_of (node_doc method.now) }
{
    match field_in(method.field(Field::Value), Field::Params) {
        Some(parameters) => parameters.list(Field::Items),
        None => &[],
    }
}

/// The statements of the method's body.
pub fn statements_of(method: &Node) -> &[Part]
    ensures { docs_in result.now ≡ statements_of (node_doc method.now) }
{
    match field_in(method.field(Field::Value), Field::Body) {
        Some(body) => body.list(Field::Statements),
        None => &[],
    }
}

/// What that field of the part holds, if there is one.
fn field_in(part: Option<&Part>, field: Field) -> Option<&Part>
    ensures { doc_or_nil result ≡ field_of (key_of field) (doc_or_nil part.entry) }
{
    match part {
        Some(part) => part.field(field),
        None => None,
    }
}

/// Whether the parameter is a property of its class too: it says how that is reached, and is a plain name.
pub fn is_property(parameter: &Node) -> bool
    ensures { result ≡ is_property (node_doc parameter.now) }
{
    parameter.kind.is(Kind::FormalParameter)
        && (has_modifier(parameter)
            && parameter.holds_kind(Field::Pattern, Kind::BindingIdentifier))
}

/// Whether the parameter says how the property of its name is reached.
fn has_modifier(parameter: &Node) -> bool
    ensures { result ≡ has_modifier parameter.now.kind (docs_in parameter.now.parts.items) }
{
    !parameter.lacks(Field::Accessibility)
        || (parameter.flag(Field::Readonly) || parameter.flag(Field::Override))
}

/// The place behind the first of the statements that is a bare call of `super`; the first place where none is.
#[tactic(auto, using(crate::proofs::Elements::position_steps))]
pub fn get_super_call_position(statements: &[Part]) -> usize
    ensures { result ≡ super_call_position (docs_in statements.now) }
{
    match find_super_call(statements) {
        Some(place) => place + 1,
        None => 0,
    }
}

/// The place of the first of the statements that is one.
fn find_super_call(statements: &[Part]) -> Option<usize>
    ensures place { result ≡ position_from (λ part. is_super_statement (part_doc part)) 0 statements.now }
    ensures within { IfSome result (λ place. place < length statements.now) }
{
    statements
        .iter()
        .position(|statement| is_super_statement(statement))
}

/// Whether the statement is a bare call of `super`.
fn is_super_statement(statement: &Part) -> bool
    ensures { result ≡ is_super_statement (part_doc statement.now) }
{
    match statement {
        Part::Node(node) => {
            node.kind.is(Kind::ExpressionStatement) && is_super_call(node.field(Field::Expression))
        }
        _ => false,
    }
}

/// Whether the expression is a call of `super`.
fn is_super_call(expression: Option<&Part>) -> bool
    ensures { result ≡ is_super_call (doc_or_nil expression.entry) }
{
    match expression {
        Some(Part::Node(node)) => {
            node.kind.is(Kind::CallExpression) && node.holds_kind(Field::Callee, Kind::Super)
        }
        _ => false,
    }
}
