//! What is told of the metadata of classes and of their elements.
ghost use Rattle.std.specs.Prelude.{◌≡◌, ◌++◌, IfOk, OnOk, option_map};
ghost use Rattle.oxt_facts.specs.Told.{metadata_view, type_view, types_view, undescribed};
ghost use Rattle.oxt_fields.specs.Rules.{rules_view};
ghost use Rattle.oxt_metadata.specs.Typings.{typing_view};
ghost use Rattle.oxt_told.specs.Metadata.{accessor_described, class_described, constructor_described, element_described, field_described, method_described, name_told, parameters_told, reference_told, rest_told, returned_told, simple_told, type_told, types_told, written_told};
ghost use Rattle.oxt_tree.specs.View.{docs_in, node_doc};

use crate::told::Source;
use oxt_declares::class::parameters_of;
use oxt_facts::told::{ToldMetadata, ToldReference, ToldType};
use oxt_fields::class::{constructor_of, elements_of};
use oxt_grammar::kind::Kind;
use oxt_metadata::name::{node_numbered, path_of, root_of, text_of_name};
use oxt_metadata::typing::{
    Typing, design_of, parameter_typing, rest_of, returned_by, typed, typing_in,
};
use oxt_names::ids::{NodeId, OutOfMemory};
use oxt_names::name::Name;
use oxt_options::metadata::MetadataType;
use oxt_tree::tree::{Node, Part};
use std::alloc::Global;

/// Of no metadata.
pub fn undescribed() -> ToldMetadata
    ensures { metadata_view result ≡ undescribed }
{
    ToldMetadata {
        design: None,
        parameters: None,
        returned: None,
    }
}

/// What is told of the metadata of the element, if metadata is emitted.
pub fn element_described(source: &Source, element: &Node) -> Result<ToldMetadata, OutOfMemory>
    ensures { IfOk result (λ told. metadata_view told
        ≡ element_described (rules_view source.now.rules) (node_doc element.now)) }
{
    if !source.rules.emits_metadata {
        Ok(undescribed())
    } else if element.kind.is(Kind::MethodDefinition) {
        method_described(source, element)
    } else if element.kind.is(Kind::AccessorProperty) {
        accessor_described(source, element)
    } else {
        field_described(source, element)
    }
}

/// The same of a method, which has that of its parameters and of what it returns.
fn method_described(source: &Source, method: &Node) -> Result<ToldMetadata, OutOfMemory>
    ensures { IfOk result (λ told. metadata_view told
        ≡ method_described (rules_view source.now.rules) (node_doc method.now)) }
{
    let design = type_told(source, design_of(method))?;
    let parameters = parameters_told(source, method)?;
    let returned = returned_told(source, method)?;
    Ok(ToldMetadata {
        design: Some(design),
        parameters: Some(parameters),
        returned,
    })
}

/// The same of an accessor, whose getter has no parameters.
fn accessor_described(source: &Source, accessor: &Node) -> Result<ToldMetadata, OutOfMemory>
    ensures { IfOk result (λ told. metadata_view told
        ≡ accessor_described (rules_view source.now.rules) (node_doc accessor.now)) }
{
    let design = type_told(source, design_of(accessor))?;
    Ok(ToldMetadata {
        design: Some(design),
        parameters: Some(Vec::new(source.alloc)),
        returned: None,
    })
}

/// The same of a field.
fn field_described(source: &Source, field: &Node) -> Result<ToldMetadata, OutOfMemory>
    ensures { IfOk result (λ told. metadata_view told
        ≡ field_described (rules_view source.now.rules) (node_doc field.now)) }
{
    let design = type_told(source, design_of(field))?;
    Ok(ToldMetadata {
        design: Some(design),
        parameters: None,
        returned: None,
    })
}

/// What is told of the metadata of the class itself, by its constructor, if metadata is emitted.
pub fn class_described(source: &Source, class: &Node) -> Result<ToldMetadata, OutOfMemory>
    ensures { IfOk result (λ told. metadata_view told
        ≡ class_described (rules_view source.now.rules) (node_doc class.now)) }
{
    match constructor_of(elements_of(class)) {
        Some(constructor) if source.rules.emits_metadata => {
            constructor_described(source, constructor)
        }
        _ => Ok(undescribed()),
    }
}

/// The same by that constructor.
fn constructor_described(source: &Source, method: &Node) -> Result<ToldMetadata, OutOfMemory>
    ensures { IfOk result (λ told. metadata_view told
        ≡ constructor_described (rules_view source.now.rules) (node_doc method.now)) }
{
    Ok(ToldMetadata {
        design: None,
        parameters: Some(parameters_told(source, method)?),
        returned: None,
    })
}

/// The type of what the method returns, if it has one.
fn returned_told(source: &Source, method: &Node) -> Result<Option<ToldType>, OutOfMemory>
    ensures { IfOk result (λ told. option_map type_view told
        ≡ returned_told (rules_view source.now.rules) (node_doc method.now)) }
{
    match returned_by(method) {
        Some(typing) => Ok(Some(type_told(source, typing)?)),
        None => Ok(None),
    }
}

/// The types of the parameters of the method, that of the rest last.
#[tactic(auto, using(crate::proofs::Typing::both_told))]
fn parameters_told(source: &Source, method: &Node) -> Result<Vec<ToldType>, OutOfMemory>
    ensures { IfOk result (λ told. types_view told
        ≡ parameters_told (rules_view source.now.rules) (node_doc method.now)) }
{
    let mut types = Vec::new(source.alloc);
    push_types(source, parameters_of(method), &mut types)?;
    push_rest(source, method, &mut types)?;
    Ok(types)
}

/// Appends the types of these parameters.
#[tactic(auto, using(crate::proofs::Typing::type_steps))]
fn push_types(
    source: &Source,
    parameters: &[Part],
    types: &mut Vec<ToldType>,
) -> Result<(), OutOfMemory>
    ensures { OnOk result (types_view types.new
        ≡ types_view types.old ++ types_told (rules_view source.now.rules) (docs_in parameters.now)) }
{
    for parameter in parameters {
        let told = type_told(source, parameter_typing(parameter))?;
        types.push(told)?;
    }
    Ok(())
}

/// Appends the type of the parameter of the method that takes the rest, if it has one.
#[tactic(auto, using(crate::proofs::Typing::rest_steps))]
fn push_rest(source: &Source, method: &Node, types: &mut Vec<ToldType>) -> Result<(), OutOfMemory>
    ensures { OnOk result (types_view types.new
        ≡ types_view types.old ++ rest_told (rules_view source.now.rules) (node_doc method.now)) }
{
    match rest_of(method) {
        Some(rest) => {
            let told = type_told(source, typing_in(rest))?;
            types.push(told)?;
            Ok(())
        }
        None => Ok(()),
    }
}

/// What is told of the type.
fn type_told(source: &Source, typing: Typing) -> Result<ToldType, OutOfMemory>
    ensures { IfOk result (λ told. type_view told
        ≡ type_told (rules_view source.now.rules) (typing_view typing.entry)) }
{
    let written = typed(source.rules.plan, typing);
    match typing {
        Typing::Annotation(annotation) => written_told(source.alloc, written, annotation),
        _ => simple_told(source.alloc, written),
    }
}

/// The same, where that is written for the annotation.
fn written_told(
    alloc: Global,
    written: MetadataType,
    annotation: &Node,
) -> Result<ToldType, OutOfMemory>
    ensures { IfOk result (λ told. type_view told ≡ written_told written (node_doc annotation.now)) }
{
    match written {
        MetadataType::Reference { name, .. } => reference_told(alloc, name, annotation),
        _ => simple_told(alloc, written),
    }
}

/// The same, where no name of the source is written.
fn simple_told(alloc: Global, written: MetadataType) -> Result<ToldType, OutOfMemory>
    ensures { IfOk result (λ told. type_view told ≡ simple_told written) }
{
    match written {
        MetadataType::Global(name) => Ok(ToldType::Global(Name::new(alloc, name.as_str())?)),
        _ => Ok(ToldType::Undefined),
    }
}

/// The same of the dotted name of that number in the annotation.
fn reference_told(alloc: Global, name: NodeId, annotation: &Node) -> Result<ToldType, OutOfMemory>
    ensures { IfOk result (λ told. type_view told ≡ reference_told name.0 (node_doc annotation.now)) }
{
    match node_numbered(annotation, name) {
        Some(name) => name_told(alloc, name),
        None => Ok(ToldType::Undefined),
    }
}

/// The same of the dotted name.
fn name_told(alloc: Global, name: &Node) -> Result<ToldType, OutOfMemory>
    ensures { IfOk result (λ told. type_view told ≡ name_told (node_doc name.now)) }
{
    let root = root_of(name);
    Ok(ToldType::Reference(ToldReference {
        root: root.id,
        name: Name::new(alloc, text_of_name(root))?,
        path: path_of(alloc, name)?,
    }))
}
