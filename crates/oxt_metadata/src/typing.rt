//! From what the metadata of a class and of its elements is written.
ghost use Rattle.std.specs.Prelude.{◌≡◌, option_map};
ghost use Rattle.oxt_grammar.specs.Keys.{key_of};
ghost use Rattle.oxt_metadata.specs.Typings.{design_of, function_field, is_awaited, method_design, rest_of, returned_by, returned_so, setter_design, typed, typing_in, typing_of, typing_view, written_or_object};
ghost use Rattle.oxt_options.specs.Metadata.{type_at};
ghost use Rattle.oxt_tree.specs.View.{doc_or_nil, docs_in, node_doc, part_doc};

use oxt_declares::class::parameters_of;
use oxt_grammar::field::Field;
use oxt_grammar::kind::Kind;
use oxt_options::metadata::{GlobalName, MetadataType};
use oxt_options::plan::Plan;
use oxt_tree::tree::{Node, Part};

/// From what a type is written.
#[derive(Clone, Copy)]
pub enum Typing<'a> {
    /// A type annotation.
    Annotation(&'a Node),
    /// A global name.
    Global(GlobalName),
    /// `void 0`.
    Undefined,
}

/// What is written for the type by the plan.
pub fn typed(plan: &Plan, typing: Typing) -> MetadataType
    ensures { result ≡ typed (type_at plan.now.metadata) (typing_view typing.entry) }
{
    match typing {
        Typing::Annotation(annotation) => written_or_object(plan.metadata_of(annotation.id)),
        Typing::Global(name) => MetadataType::Global(name),
        Typing::Undefined => MetadataType::Undefined,
    }
}

/// The type, or `Object` where there is none.
fn written_or_object(written: Option<MetadataType>) -> MetadataType
    ensures { result ≡ written_or_object written }
{
    match written {
        Some(written) => written,
        None => MetadataType::Global(GlobalName::Object),
    }
}

/// The type of what has that annotation: `Object` where it has none.
fn typing_of(annotation: Option<&Part>) -> Typing<'_>
    ensures { typing_view result ≡ typing_of (doc_or_nil annotation.entry) }
{
    match annotation {
        Some(Part::Node(node)) => Typing::Annotation(node),
        _ => Typing::Global(GlobalName::Object),
    }
}

/// The type of the field, the accessor or the parameter.
pub fn typing_in(node: &Node) -> Typing<'_>
    ensures { typing_view result ≡ typing_in (node_doc node.now) }
{
    typing_of(node.field(Field::TypeAnnotation))
}

/// The type of the parameter.
pub fn parameter_typing(parameter: &Part) -> Typing<'_>
    ensures { typing_view result ≡ typing_in (part_doc parameter.now) }
{
    typing_of(parameter.field(Field::TypeAnnotation))
}

/// The type of the element itself: that of a field or an accessor, of what a getter gives, of what a setter is given, and of
/// another method `Function`.
pub fn design_of(element: &Node) -> Typing<'_>
    ensures { typing_view result ≡ design_of (node_doc element.now) }
{
    if element.kind.is(Kind::MethodDefinition) {
        method_design(element)
    } else {
        typing_in(element)
    }
}

/// The same of a method.
fn method_design(method: &Node) -> Typing<'_>
    ensures { typing_view result ≡ method_design (node_doc method.now) }
{
    if method.holds_text(Field::Kind, "get") {
        typing_of(function_field(method, Field::ReturnType))
    } else if method.holds_text(Field::Kind, "set") {
        setter_design(parameters_of(method))
    } else {
        Typing::Global(GlobalName::Function)
    }
}

/// The same of a setter with these parameters.
fn setter_design(parameters: &[Part]) -> Typing<'_>
    ensures { typing_view result ≡ setter_design (docs_in parameters.now) }
{
    match parameters.first() {
        Some(parameter) => parameter_typing(parameter),
        None => Typing::Global(GlobalName::Object),
    }
}

/// The type of what the method returns; none of a getter or a setter.
pub fn returned_by(method: &Node) -> Option<Typing<'_>>
    ensures { option_map typing_view result ≡ returned_by (node_doc method.now) }
{
    if method.holds_text(Field::Kind, "get") || method.holds_text(Field::Kind, "set") {
        None
    } else if is_awaited(method) {
        Some(Typing::Global(GlobalName::Promise))
    } else {
        Some(returned_so(function_field(method, Field::ReturnType)))
    }
}

/// The same of one with that annotation: `void 0` where there is none.
fn returned_so(annotation: Option<&Part>) -> Typing<'_>
    ensures { typing_view result ≡ returned_so (doc_or_nil annotation.entry) }
{
    match annotation {
        Some(Part::Node(node)) => Typing::Annotation(node),
        _ => Typing::Undefined,
    }
}

/// Whether the method is async.
pub fn is_awaited(method: &Node) -> bool
    ensures { result ≡ is_awaited (node_doc method.now) }
{
    match function_field(method, Field::Async) {
        Some(part) => part.is_set(),
        None => false,
    }
}

/// The parameter of the method that takes the rest, if it has one.
pub fn rest_of(method: &Node) -> Option<&Node>
    ensures { option_map (λ node. node_doc node.now) result ≡ rest_of (node_doc method.now) }
{
    match function_field(method, Field::Params) {
        Some(parameters) => match parameters.field(Field::Rest) {
            Some(rest) => rest.as_node(),
            None => None,
        },
        None => None,
    }
}

/// That field of the function of the method.
pub fn function_field(method: &Node, field: Field) -> Option<&Part>
    ensures { doc_or_nil result ≡ function_field (key_of field) (node_doc method.now) }
{
    match method.field(Field::Value) {
        Some(function) => function.field(field),
        None => None,
    }
}
