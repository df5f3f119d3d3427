//! Nodes that are made, which have no place in a source text.
ghost use Rattle.std.specs.Prelude.{◌≡◌, ◌+◌, ◌≤◌, IfOk, OnOk, option_map};
ghost use Rattle.oxt_ctx.specs.Nodes.{access, alternative, array, assignment, call, computed, default_export, empty_object, export_list, made, member, negative, null_literal, number_literal, of_kind, private_member, private_name, property_name, returned, row, statement, string_literal, sum, this_expression, unary, variable, void_zero};
ghost use Rattle.oxt_ctx.specs.Made.{reference};
ghost use Rattle.oxt_stores.specs.Frame.{binding, declarator};
ghost use Rattle.oxt_grammar.specs.Words.{text_of};
ghost use Rattle.oxt_grammar.specs.declared.kind.Kind.TheVariants as kind;
ghost use Rattle.oxt_names.specs.Names.{name_bytes};
ghost use Rattle.oxt_tree.specs.View.{docs_in, node_doc};

use oxt_grammar::kind::Kind;
use oxt_grammar::word::Word;
use oxt_names::ids::{NodeIds, OutOfMemory, Span};
use oxt_names::name::Name;
use oxt_tree::tree::{Node, Part};
use std::alloc::Global;
use std::vec;

/// A node of these parts.
pub fn make(kind: Kind, parts: Vec<Part>, ids: &mut NodeIds) -> Result<Node, OutOfMemory>
    ensures made { IfOk result (λ node. node_doc node ≡ made kind ids.old.next (docs_in parts.items)) }
    ensures used { OnOk result (ids.new.next ≡ ids.old.next + 1) }
    ensures risen { ids.old.next ≤ ids.new.next }
{
    Ok(Node {
        kind,
        id: ids.fresh()?,
        span: Span::NONE,
        parts,
    })
}

/// A name that is used, of which the table of names does not know yet.
pub fn reference(alloc: Global, name: &Name, ids: &mut NodeIds) -> Result<Node, OutOfMemory>
    ensures made { IfOk result (λ node. node_doc node ≡ reference ids.old.next (name_bytes name.now)) }
    ensures used { OnOk result (ids.new.next ≡ ids.old.next + 1) }
    ensures risen { ids.old.next ≤ ids.new.next }
{
    let parts = vec![in alloc; Part::Text(name.share()?)]?;
    make(Kind::IdentifierReference, parts, ids)
}

/// A name that is bound.
pub fn binding(alloc: Global, name: &Name, ids: &mut NodeIds) -> Result<Node, OutOfMemory>
    ensures made { IfOk result (λ node. node_doc node ≡ binding ids.old.next (name_bytes name.now)) }
    ensures used { OnOk result (ids.new.next ≡ ids.old.next + 1) }
    ensures risen { ids.old.next ≤ ids.new.next }
{
    let parts = vec![in alloc; Part::Text(name.share()?)]?;
    make(Kind::BindingIdentifier, parts, ids)
}

/// The name of a property.
pub fn property_name(alloc: Global, name: &Name, ids: &mut NodeIds) -> Result<Node, OutOfMemory>
    ensures made { IfOk result (λ node. node_doc node ≡ property_name ids.old.next (name_bytes name.now)) }
    ensures used { OnOk result (ids.new.next ≡ ids.old.next + 1) }
    ensures risen { ids.old.next ≤ ids.new.next }
{
    let parts = vec![in alloc; Part::Text(name.share()?)]?;
    make(Kind::IdentifierName, parts, ids)
}

/// A text.
pub fn string_literal(alloc: Global, text: &Name, ids: &mut NodeIds) -> Result<Node, OutOfMemory>
    ensures made { IfOk result (λ node. node_doc node ≡ string_literal ids.old.next (name_bytes text.now)) }
    ensures used { OnOk result (ids.new.next ≡ ids.old.next + 1) }
    ensures risen { ids.old.next ≤ ids.new.next }
{
    let parts = vec![in alloc; Part::Text(text.share()?), Part::Nothing]?;
    make(Kind::StringLiteral, parts, ids)
}

/// A whole number.
pub fn number_literal(alloc: Global, value: u64, ids: &mut NodeIds) -> Result<Node, OutOfMemory>
    ensures made { IfOk result (λ node. node_doc node ≡ number_literal ids.old.next value) }
    ensures used { OnOk result (ids.new.next ≡ ids.old.next + 1) }
    ensures risen { ids.old.next ≤ ids.new.next }
{
    let parts = vec![in alloc; Part::Number(value), Part::Nothing]?;
    make(Kind::NumericLiteral, parts, ids)
}

/// `-e`.
pub fn negative(alloc: Global, operand: Node, ids: &mut NodeIds) -> Result<Node, OutOfMemory>
    ensures made { IfOk result (λ node. node_doc node ≡ negative ids.old.next (node_doc operand)) }
    ensures used { OnOk result (ids.new.next ≡ ids.old.next + 1) }
    ensures risen { ids.old.next ≤ ids.new.next }
{
    unary(alloc, "-", operand, ids)
}

/// The operator in front of the operand.
fn unary(
    alloc: Global,
    operator: &str,
    operand: Node,
    ids: &mut NodeIds,
) -> Result<Node, OutOfMemory>
    ensures made { IfOk result (λ node. node_doc node
        ≡ unary ids.old.next operator.now (node_doc operand)) }
    ensures used { OnOk result (ids.new.next ≡ ids.old.next + 1) }
    ensures risen { ids.old.next ≤ ids.new.next }
{
    let operator = Name::new(alloc, operator)?;
    let parts = vec![in alloc; Part::Text(operator), Part::Node(operand)]?;
    make(Kind::UnaryExpression, parts, ids)
}

/// `void 0`.
pub fn void_zero(alloc: Global, ids: &mut NodeIds) -> Result<Node, OutOfMemory>
    ensures made { IfOk result (λ node. node_doc node ≡ void_zero ids.old.next) }
    ensures used { OnOk result (ids.new.next ≡ ids.old.next + 2) }
    ensures risen { ids.old.next ≤ ids.new.next }
{
    let zero = number_literal(alloc, 0, ids)?;
    unary(alloc, "void", zero, ids)
}

/// `null`.
pub fn null_literal(alloc: Global, ids: &mut NodeIds) -> Result<Node, OutOfMemory>
    ensures made { IfOk result (λ node. node_doc node ≡ null_literal ids.old.next) }
    ensures used { OnOk result (ids.new.next ≡ ids.old.next + 1) }
    ensures risen { ids.old.next ≤ ids.new.next }
{
    make(Kind::NullLiteral, Vec::new(alloc), ids)
}

/// `this`.
pub fn this_expression(alloc: Global, ids: &mut NodeIds) -> Result<Node, OutOfMemory>
    ensures made { IfOk result (λ node. node_doc node ≡ this_expression ids.old.next) }
    ensures used { OnOk result (ids.new.next ≡ ids.old.next + 1) }
    ensures risen { ids.old.next ≤ ids.new.next }
{
    make(Kind::ThisExpression, Vec::new(alloc), ids)
}

/// `[elements]`.
pub fn array(alloc: Global, elements: Vec<Part>, ids: &mut NodeIds) -> Result<Node, OutOfMemory>
    ensures made { IfOk result (λ node. node_doc node ≡ array ids.old.next (docs_in elements.items)) }
    ensures used { OnOk result (ids.new.next ≡ ids.old.next + 1) }
    ensures risen { ids.old.next ≤ ids.new.next }
{
    let parts = vec![in alloc; Part::List(elements)]?;
    make(Kind::ArrayExpression, parts, ids)
}

/// These expressions in a row: one alone is itself.
pub fn sequence(mut expressions: Vec<Part>, ids: &mut NodeIds) -> Result<Part, OutOfMemory>
    ensures risen { ids.old.next ≤ ids.new.next }
{
    if expressions.len() > 1 {
        Ok(Part::Node(row(expressions, ids)?))
    } else {
        Ok(expressions.pop().unwrap_or(Part::Nothing))
    }
}

/// The sequence of these expressions.
fn row(expressions: Vec<Part>, ids: &mut NodeIds) -> Result<Node, OutOfMemory>
    ensures made { IfOk result (λ node. node_doc node ≡ row ids.old.next (docs_in expressions.items)) }
    ensures used { OnOk result (ids.new.next ≡ ids.old.next + 1) }
    ensures risen { ids.old.next ≤ ids.new.next }
{
    let alloc = *expressions.allocator();
    let parts = vec![in alloc; Part::List(expressions)]?;
    make(Kind::SequenceExpression, parts, ids)
}

/// `callee(arguments)`.
pub fn call(
    alloc: Global,
    callee: Node,
    arguments: Vec<Part>,
    ids: &mut NodeIds,
) -> Result<Node, OutOfMemory>
    ensures made { IfOk result (λ node. node_doc node
        ≡ call ids.old.next (node_doc callee) (docs_in arguments.items)) }
    ensures used { OnOk result (ids.new.next ≡ ids.old.next + 1) }
    ensures risen { ids.old.next ≤ ids.new.next }
{
    let parts = vec![in alloc;
        Part::Node(callee),
        Part::Nothing,
        Part::List(arguments),
        Part::Flag(false),
        Part::Flag(false),
    ]?;
    make(Kind::CallExpression, parts, ids)
}

/// `object.property`.
pub fn member(
    alloc: Global,
    object: Node,
    property: Node,
    ids: &mut NodeIds,
) -> Result<Node, OutOfMemory>
    ensures made { IfOk result (λ node. node_doc node
        ≡ member ids.old.next (node_doc object) (node_doc property)) }
    ensures used { OnOk result (ids.new.next ≡ ids.old.next + 1) }
    ensures risen { ids.old.next ≤ ids.new.next }
{
    access(alloc, Kind::StaticMemberExpression, object, property, ids)
}

/// `object[key]`.
pub fn computed(
    alloc: Global,
    object: Node,
    key: Node,
    ids: &mut NodeIds,
) -> Result<Node, OutOfMemory>
    ensures made { IfOk result (λ node. node_doc node
        ≡ computed ids.old.next (node_doc object) (node_doc key)) }
    ensures used { OnOk result (ids.new.next ≡ ids.old.next + 1) }
    ensures risen { ids.old.next ≤ ids.new.next }
{
    access(alloc, Kind::ComputedMemberExpression, object, key, ids)
}

/// A private name.
pub fn private_name(alloc: Global, name: &Name, ids: &mut NodeIds) -> Result<Node, OutOfMemory>
    ensures made { IfOk result (λ node. node_doc node ≡ private_name ids.old.next (name_bytes name.now)) }
    ensures used { OnOk result (ids.new.next ≡ ids.old.next + 1) }
    ensures risen { ids.old.next ≤ ids.new.next }
{
    let parts = vec![in alloc; Part::Text(name.share()?)]?;
    make(Kind::PrivateIdentifier, parts, ids)
}

/// `object.#field`.
pub fn private_member(
    alloc: Global,
    object: Node,
    field: Node,
    ids: &mut NodeIds,
) -> Result<Node, OutOfMemory>
    ensures made { IfOk result (λ node. node_doc node
        ≡ private_member ids.old.next (node_doc object) (node_doc field)) }
    ensures used { OnOk result (ids.new.next ≡ ids.old.next + 1) }
    ensures risen { ids.old.next ≤ ids.new.next }
{
    access(alloc, Kind::PrivateFieldExpression, object, field, ids)
}

/// A member of an object that is not optional.
fn access(
    alloc: Global,
    kind: Kind,
    object: Node,
    key: Node,
    ids: &mut NodeIds,
) -> Result<Node, OutOfMemory>
    ensures made { IfOk result (λ node. node_doc node
        ≡ access kind ids.old.next (node_doc object) (node_doc key)) }
    ensures used { OnOk result (ids.new.next ≡ ids.old.next + 1) }
    ensures risen { ids.old.next ≤ ids.new.next }
{
    let parts = vec![in alloc; Part::Node(object), Part::Node(key), Part::Flag(false)]?;
    make(kind, parts, ids)
}

/// `target = value`.
pub fn assignment(
    alloc: Global,
    target: Node,
    value: Node,
    ids: &mut NodeIds,
) -> Result<Node, OutOfMemory>
    ensures made { IfOk result (λ node. node_doc node
        ≡ assignment ids.old.next (node_doc target) (node_doc value)) }
    ensures used { OnOk result (ids.new.next ≡ ids.old.next + 1) }
    ensures risen { ids.old.next ≤ ids.new.next }
{
    let operator = Name::new(alloc, "=")?;
    let parts = vec![in alloc; Part::Text(operator), Part::Node(target), Part::Node(value)]?;
    make(Kind::AssignmentExpression, parts, ids)
}

/// `left + right`.
pub fn sum(alloc: Global, left: Node, right: Node, ids: &mut NodeIds) -> Result<Node, OutOfMemory>
    ensures made { IfOk result (λ node. node_doc node
        ≡ sum ids.old.next (node_doc left) (node_doc right)) }
    ensures used { OnOk result (ids.new.next ≡ ids.old.next + 1) }
    ensures risen { ids.old.next ≤ ids.new.next }
{
    let operator = Name::new(alloc, "+")?;
    let parts = vec![in alloc; Part::Text(operator), Part::Node(left), Part::Node(right)]?;
    make(Kind::BinaryExpression, parts, ids)
}

/// `left || right`.
pub fn alternative(
    alloc: Global,
    left: Node,
    right: Node,
    ids: &mut NodeIds,
) -> Result<Node, OutOfMemory>
    ensures made { IfOk result (λ node. node_doc node
        ≡ alternative ids.old.next (node_doc left) (node_doc right)) }
    ensures used { OnOk result (ids.new.next ≡ ids.old.next + 1) }
    ensures risen { ids.old.next ≤ ids.new.next }
{
    let operator = Name::new(alloc, "||")?;
    let parts = vec![in alloc; Part::Text(operator), Part::Node(left), Part::Node(right)]?;
    make(Kind::LogicalExpression, parts, ids)
}

/// `{}`.
pub fn empty_object(alloc: Global, ids: &mut NodeIds) -> Result<Node, OutOfMemory>
    ensures made { IfOk result (λ node. node_doc node ≡ empty_object ids.old.next) }
    ensures used { OnOk result (ids.new.next ≡ ids.old.next + 1) }
    ensures risen { ids.old.next ≤ ids.new.next }
{
    let parts = vec![in alloc; Part::List(Vec::new(alloc))]?;
    make(Kind::ObjectExpression, parts, ids)
}

/// `e;`.
pub fn statement(alloc: Global, expression: Node, ids: &mut NodeIds) -> Result<Node, OutOfMemory>
    ensures made { IfOk result (λ node. node_doc node ≡ statement ids.old.next (node_doc expression)) }
    ensures used { OnOk result (ids.new.next ≡ ids.old.next + 1) }
    ensures risen { ids.old.next ≤ ids.new.next }
{
    let parts = vec![in alloc; Part::Node(expression)]?;
    make(Kind::ExpressionStatement, parts, ids)
}

/// `return e;`.
pub fn returned(alloc: Global, expression: Node, ids: &mut NodeIds) -> Result<Node, OutOfMemory>
    ensures made { IfOk result (λ node. node_doc node ≡ returned ids.old.next (node_doc expression)) }
    ensures used { OnOk result (ids.new.next ≡ ids.old.next + 1) }
    ensures risen { ids.old.next ≤ ids.new.next }
{
    let parts = vec![in alloc; Part::Node(expression)]?;
    make(Kind::ReturnStatement, parts, ids)
}

/// The class that is declared as an expression, with the same number.
pub fn class_expression(mut class: Node) -> Node
    ensures { node_doc result ≡ of_kind kind.ClassExpression (node_doc class) }
{
    class.kind = Kind::ClassExpression;
    class
}

/// `export { local as name };`, without `as` where the names are the same.
pub fn export_list(
    alloc: Global,
    local: Node,
    name: &Name,
    ids: &mut NodeIds,
) -> Result<Node, OutOfMemory>
    ensures made { IfOk result (λ node. node_doc node
        ≡ export_list ids.old.next (node_doc local) (name_bytes name.now)) }
    ensures used { OnOk result (ids.new.next ≡ ids.old.next + 3) }
    ensures risen { ids.old.next ≤ ids.new.next }
{
    let exported = property_name(alloc, name, ids)?;
    let parts = vec![in alloc;
        Part::Word(Word::Value),
        Part::Node(local),
        Part::Node(exported),
    ]?;
    let specifier = make(Kind::ExportSpecifier, parts, ids)?;
    let specifiers = vec![in alloc; Part::Node(specifier)]?;
    let parts = vec![in alloc; Part::Word(Word::Value), Part::List(specifiers)]?;
    make(Kind::ExportNamedDeclaration, parts, ids)
}

/// `export default e;`.
pub fn default_export(
    alloc: Global,
    expression: Node,
    ids: &mut NodeIds,
) -> Result<Node, OutOfMemory>
    ensures made { IfOk result (λ node. node_doc node
        ≡ default_export ids.old.next (node_doc expression)) }
    ensures used { OnOk result (ids.new.next ≡ ids.old.next + 1) }
    ensures risen { ids.old.next ≤ ids.new.next }
{
    let parts = vec![in alloc; Part::Node(expression)]?;
    make(Kind::ExportDefaultDeclaration, parts, ids)
}

/// `keyword name = value;`, or without a value `keyword name;`.
pub fn declaration(
    alloc: Global,
    keyword: Word,
    name: &Name,
    value: Option<Node>,
    ids: &mut NodeIds,
) -> Result<Node, OutOfMemory>
    ensures made { IfOk result (λ node. node_doc node
        ≡ variable ids.old.next (text_of keyword) (name_bytes name.now) (option_map node_doc value)) }
    ensures used { OnOk result (ids.new.next ≡ ids.old.next + 3) }
    ensures risen { ids.old.next ≤ ids.new.next }
{
    let declared = declarator(alloc, name, value, ids)?;
    let parts = vec![in alloc;
        Part::Word(keyword),
        Part::List(vec![in alloc; Part::Node(declared)]?),
        Part::Flag(false),
    ]?;
    make(Kind::VariableDeclaration, parts, ids)
}

/// A declarator of that name, without a type.
fn declarator(
    alloc: Global,
    name: &Name,
    value: Option<Node>,
    ids: &mut NodeIds,
) -> Result<Node, OutOfMemory>
    ensures made { IfOk result (λ node. node_doc node
        ≡ declarator (ids.old.next + 1) (binding ids.old.next (name_bytes name.now)) (option_map node_doc value)) }
    ensures used { OnOk result (ids.new.next ≡ ids.old.next + 2) }
    ensures risen { ids.old.next ≤ ids.new.next }
{
    let pattern = binding(alloc, name, ids)?;
    let init = match value {
        Some(value) => Part::Node(value),
        None => Part::Nothing,
    };
    let parts = vec![in alloc; Part::Node(pattern), Part::Nothing, Part::Flag(false), init]?;
    make(Kind::VariableDeclarator, parts, ids)
}
