//! The parameter properties of classes, and the empty fields that are put for them.
ghost use Rattle.std.specs.Prelude.{◌≡◌, ◌++◌, ◌||◌, map, not, IfOk, OnOk, List, ℕ, option_map};
ghost use Rattle.std.specs.List.{list_any};
ghost use Rattle.oxt_fields.specs.Classes.{is_property};
ghost use Rattle.oxt_fields.specs.Rules.{rules_view};
ghost use Rattle.oxt_names.specs.Made.{added, is_among};
ghost use Rattle.oxt_told.specs.Classes.{empty_fields, free_names, has_properties, identifier_in, is_name, is_own, is_own_name, own_name, parameters_in, property_name, property_names};
ghost use Rattle.oxt_told.specs.Taken.{free_name};
ghost use Rattle.oxt_tree.specs.Bound.{bound_views};
ghost use Rattle.oxt_names.specs.Names.{name_bytes};
ghost use Rattle.oxt_tree.specs.View.{docs_in, doc_or_nil, node_doc, part_doc};

use crate::namespaces::node_names;
use oxt_fields::class::{is_property, parameters_of};
use oxt_fields::fate::{is_field, is_static};
use oxt_fields::rules::FieldRules;
use oxt_grammar::field::Field;
use oxt_grammar::kind::Kind;
use oxt_names::ids::OutOfMemory;
use oxt_names::name::Name;
use oxt_names::uid::UidNames;
use oxt_tree::bound::BoundName;
use oxt_tree::tree::{Node, Part};
use std::alloc::Global;

/// The parameters of the constructor, if there is one.
pub fn parameters_in(constructor: Option<&Node>) -> &[Part]
    ensures { docs_in result.now ≡ parameters_in (option_map (λ node. node_doc node.now) constructor.entry) }
{
    match constructor {
        Some(method) => parameters_of(method),
        None => &[],
    }
}

/// Whether one of the parameters is a property.
#[tactic(auto, using(oxt_tree::proofs::Lists::list_any_docs_in))]
pub fn has_properties(parameters: &[Part]) -> bool
    ensures { result ≡ has_properties (docs_in parameters.now) }
{
    is_any_property(parameters)
}

/// The same.
fn is_any_property(parameters: &[Part]) -> bool
    ensures { result ≡ list_any (λ parameter. is_property (part_doc parameter)) parameters.now }
{
    parameters
        .iter()
        .any(|parameter| is_part_property(parameter))
}

/// Whether the part is a parameter that is a property.
fn is_part_property(parameter: &Part) -> bool
    ensures { result ≡ is_property (part_doc parameter.now) }
{
    match parameter {
        Part::Node(node) => is_property(node),
        _ => false,
    }
}

/// The names of those of the parameters that are properties.
#[tactic(auto, using(crate::proofs::Elements::name_steps))]
pub fn property_names(alloc: Global, parameters: &[Part]) -> Result<Vec<BoundName>, OutOfMemory>
    ensures { IfOk result (λ names. bound_views names.items ≡ property_names (docs_in parameters.now)) }
{
    let mut names = Vec::new(alloc);
    for parameter in parameters {
        push_property(alloc, parameter, &mut names)?;
    }
    Ok(names)
}

/// Appends the name of the parameter, if that is a property.
#[tactic(auto, using(crate::proofs::Nested::names_appended))]
fn push_property(
    alloc: Global,
    parameter: &Part,
    names: &mut Vec<BoundName>,
) -> Result<(), OutOfMemory>
    ensures { OnOk result (bound_views names.new.items
        ≡ bound_views names.old.items ++ property_name (part_doc parameter.now)) }
{
    let mut more = property_name(alloc, parameter)?;
    names.append(&mut more)?;
    Ok(())
}

/// The name of the parameter, if that is a property.
fn property_name(alloc: Global, parameter: &Part) -> Result<Vec<BoundName>, OutOfMemory>
    ensures { IfOk result (λ names. bound_views names.items ≡ property_name (part_doc parameter.now)) }
{
    if is_part_property(parameter) {
        node_names(alloc, parameter.field(Field::Pattern))
    } else {
        Ok(Vec::new(alloc))
    }
}

/// The names of the empty fields that are put in front of the elements of a class for these properties.
pub fn empty_fields(
    alloc: Global,
    rules: FieldRules,
    elements: &[Part],
    properties: &[BoundName],
) -> Result<Vec<Name>, OutOfMemory>
    ensures { IfOk result (λ fields. map name_bytes fields.items
        ≡ empty_fields (rules_view rules.entry) (docs_in elements.now) (bound_views properties.now)) }
{
    if rules.moves || rules.drops_empty {
        return Ok(Vec::new(alloc));
    }
    free_names(alloc, rules, elements, properties)
}

/// The names of the properties that are not keys of these elements, each once.
#[tactic(auto, using(crate::proofs::Taking::free_steps))]
fn free_names(
    alloc: Global,
    rules: FieldRules,
    elements: &[Part],
    properties: &[BoundName],
) -> Result<Vec<Name>, OutOfMemory>
    ensures { IfOk result (λ fields. map name_bytes fields.items
        ≡ free_names (is_own_name (rules_view rules.entry) (docs_in elements.now)) (map (λ p. p.name) (bound_views properties.now))) }
{
    let mut taken = own_names(alloc, rules, elements)?;
    let mut fields = Vec::new(alloc);
    for property in properties {
        push_free(&property.name, &mut taken, &mut fields)?;
    }
    Ok(fields)
}

/// Appends the name, unless it is taken, and takes it.
#[tactic(auto, using(crate::proofs::Taking::no_name_put))]
fn push_free(name: &Name, taken: &mut UidNames, fields: &mut Vec<Name>) -> Result<(), OutOfMemory>
    ensures taken { OnOk result (taken.new ≡ added (name_bytes name.now) taken.old) }
    ensures fields { OnOk result (map name_bytes fields.new.items
        ≡ map name_bytes fields.old.items ++ free_name taken.old (name_bytes name.now)) }
{
    if take(name, taken)? {
        fields.push(name.share()?)?;
    }
    Ok(())
}

/// Takes the name, and whether it was free.
#[tactic(auto, using(crate::proofs::Taking::take_steps))]
fn take(name: &Name, taken: &mut UidNames) -> Result<bool, OutOfMemory>
    ensures free { IfOk result
        (λ is_free. is_free ≡ not (is_among (name_bytes name.now) taken.old)) }
    ensures taken { OnOk result (taken.new ≡ added (name_bytes name.now) taken.old) }
{
    if taken.has(name.as_str()) {
        return Ok(false);
    }
    taken.take(name.as_str())?;
    Ok(true)
}

/// The identifiers that are keys of what objects get as their own from these elements.
#[tactic(auto, using(crate::proofs::Taking::own_steps))]
fn own_names(alloc: Global, rules: FieldRules, elements: &[Part]) -> Result<UidNames, OutOfMemory>
    ensures { IfOk result (λ names. (t : List ℕ) → is_among t names
        ≡ is_own_name (rules_view rules.entry) (docs_in elements.now) t) }
{
    let mut names = UidNames::new(alloc);
    for element in elements {
        note(own_name(rules, element), &mut names)?;
    }
    Ok(names)
}

/// Adds the name, if there is one.
#[tactic(auto, using(crate::proofs::Taking::not_noted))]
fn note(name: Option<&str>, names: &mut UidNames) -> Result<(), OutOfMemory>
    ensures { OnOk result ((t : List ℕ) → is_among t names.new
        ≡ (is_among t names.old || is_name (option_map (λ name. name.now) name.entry) t)) }
{
    match name {
        Some(name) => names.take(name),
        None => Ok(()),
    }
}

/// The identifier that is the key of the element, if objects get that as their own.
fn own_name<'a>(rules: FieldRules, element: &'a Part) -> Option<&'a str>
    ensures { option_map (λ name. name.now) result ≡ own_name (rules_view rules.entry) (part_doc element.now) }
{
    match element {
        Part::Node(node) if is_own(rules, node) => identifier_in(node.field(Field::Key)),
        _ => None,
    }
}

/// Whether objects get the element as their own: an instance field without `declare`, or an instance accessor that stays one.
fn is_own(rules: FieldRules, node: &Node) -> bool
    ensures { result ≡ is_own (rules_view rules.entry) node.now.kind (docs_in node.now.parts.items) }
{
    !is_static(node) && ((!rules.legacy && node.kind.is(Kind::AccessorProperty)) || is_field(node))
}

/// The text of the key, if it is an identifier.
fn identifier_in(key: Option<&Part>) -> Option<&str>
    ensures { option_map (λ name. name.now) result ≡ identifier_in (doc_or_nil key.entry) }
{
    match key {
        Some(Part::Node(key)) if key.kind.is(Kind::IdentifierName) => key.text(Field::Name),
        _ => None,
    }
}
