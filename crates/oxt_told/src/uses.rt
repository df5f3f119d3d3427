//! What is told of decorators, and of names that are read as the alias of a class or as its inner name.
ghost use Rattle.std.specs.Prelude.{◌≡◌, ◌++◌, ℕ, IfOk, OnOk, Some, option_map};
ghost use Rattle.oxt_fields.specs.Classes.{parameters_of};
ghost use Rattle.oxt_fields.specs.Rules.{rules_view};
ghost use Rattle.oxt_fields.specs.Written.{number_of};
ghost use Rattle.oxt_options.specs.Lists.{numbers_in};
ghost use Rattle.oxt_grammar.specs.Keys.{key_of};
ghost use Rattle.oxt_search.specs.All.{all_among};
ghost use Rattle.oxt_told.specs.Source.{all_told};
ghost use Rattle.oxt_told.specs.Symbols.{group_of};
ghost use Rattle.oxt_told.specs.Tags.{class_symbol};
ghost use Rattle.oxt_told.specs.Uses.{alias_told, called_there, decorator_told, decorators_of, decorators_told, group_uses, has_decorators, in_annotations, in_called, in_element, in_elements, in_inside, in_parameters, in_part, in_types, inner_told, inner_uses, legacy_told, parameters_told, same_group, use_at, uses_told};
ghost use Rattle.oxt_tree.specs.Fields.{field_of};
ghost use Rattle.oxt_tree.specs.View.{docs_in, doc_or_nil, node_doc, part_doc};

use crate::decorated::tell_default;
use crate::groups::own_group;
use crate::lowering::Lowering;
use crate::symbols::{group_of, named_symbol};
use crate::tags::tag_at;
use crate::told::Source;
use oxt_declares::calls::is_called;
use oxt_facts::told::{Told, ToldNodes};
use oxt_fields::class::{elements_of, parameters_of};
use oxt_grammar::field::Field;
use oxt_grammar::holds::Row;
use oxt_grammar::kind::Kind;
use oxt_metadata::typing::function_field;
use oxt_names::ids::{NodeId, OutOfMemory};
use oxt_scoping::scoping::Scoping;
use oxt_search::all::{push_all, push_among};
use oxt_search::search::{Inside, Search, Visit};
use oxt_tree::tree::{Node, Part};

/// Tells what decorators make of the node, where they are called.
pub fn tell_legacy(source: &Source, node: &Node, told: &mut ToldNodes) -> Result<(), OutOfMemory>
    ensures { OnOk result (told.new ≡ all_told told.old
        (legacy_told source.now.scoping.now (rules_view source.now.rules) node.now.kind node.now.id.0
        (node_doc node.now))) }
{
    if source.rules.legacy {
        tell_called_there(source, node, told)
    } else {
        Ok(())
    }
}

/// Tells of the decorators of the node and of its parameters, of a name that is read as an alias, and of a default export of a
/// class with calls behind it.
fn tell_called_there(source: &Source, node: &Node, told: &mut ToldNodes) -> Result<(), OutOfMemory>
    ensures { OnOk result (told.new ≡ all_told told.old
        (called_there source.now.scoping.now (rules_view source.now.rules) node.now.kind node.now.id.0
        (node_doc node.now))) }
{
    if node.kind.is(Kind::IdentifierReference) {
        tell_alias(source, node.id, told)
    } else if node.kind.is(Kind::FormalParameters) {
        tell_parameters(node.list(Field::Items), told)
    } else if node.kind.is(Kind::ExportDefaultDeclaration) {
        tell_default(source, node.id, node.field(Field::Declaration), told)
    } else if has_decorators(node.kind) {
        tell_decorators(None, node.list(Field::Decorators), told)
    } else {
        Ok(())
    }
}

/// Whether nodes of the kind are classes or elements of classes that have decorators.
fn has_decorators(kind: Kind) -> bool
    ensures { result ≡ has_decorators kind }
{
    match kind {
        Kind::ClassDeclaration => true,
        Kind::ClassExpression => true,
        Kind::MethodDefinition => true,
        Kind::PropertyDefinition => true,
        Kind::AccessorProperty => true,
        _ => false,
    }
}

/// Tells of the name, if it is read as the alias of a class.
fn tell_alias(source: &Source, node: NodeId, told: &mut ToldNodes) -> Result<(), OutOfMemory>
    ensures { OnOk result (told.new ≡ all_told told.old
        (alias_told node.0 ((rules_view source.now.rules).alias node.0))) }
{
    match source.rules.plan.alias_of(node) {
        Some(class) => {
            let tag = tag_at(source.alloc, class.0, "a")?;
            told.tell(node, Told::Alias(tag))
        }
        None => Ok(()),
    }
}

/// Tells of the decorators of the parameters.
#[tactic(auto, using(crate::proofs::Applying::parameter_steps))]
fn tell_parameters(parameters: &[Part], told: &mut ToldNodes) -> Result<(), OutOfMemory>
    ensures { OnOk result (told.new ≡ all_told told.old (parameters_told 0 (docs_in parameters.now))) }
{
    for place in 0..parameters.len() {
        tell_parameter(place, &parameters[place], told)?;
    }
    Ok(())
}

/// Tells of the decorators of the parameter at that place.
fn tell_parameter(place: usize, parameter: &Part, told: &mut ToldNodes) -> Result<(), OutOfMemory>
    ensures { OnOk result (told.new ≡ all_told told.old
        (decorators_told (Some place) (decorators_of (part_doc parameter.now)))) }
{
    tell_decorators(Some(place as u64), parameter.list(Field::Decorators), told)
}

/// Tells of the decorators, which decorate the parameter at that place, if they decorate one.
#[tactic(auto, using(crate::proofs::Applying::decorator_steps))]
fn tell_decorators(
    place: Option<u64>,
    decorators: &[Part],
    told: &mut ToldNodes,
) -> Result<(), OutOfMemory>
    ensures { OnOk result (told.new ≡ all_told told.old (decorators_told place (docs_in decorators.now))) }
{
    for decorator in decorators {
        tell_decorator(place, decorator, told)?;
    }
    Ok(())
}

/// Tells of the decorator.
fn tell_decorator(
    place: Option<u64>,
    decorator: &Part,
    told: &mut ToldNodes,
) -> Result<(), OutOfMemory>
    ensures { OnOk result (told.new ≡ all_told told.old (decorator_told place (part_doc decorator.now))) }
{
    match decorator {
        Part::Node(node) => told.tell(node.id, Told::Applied(place)),
        _ => Ok(()),
    }
}

/// Tells of the uses that mean the inner name of the class, if that is decorated.
pub fn tell_inner(
    source: &Source,
    lowering: Lowering,
    class: &Node,
    told: &mut ToldNodes,
) -> Result<(), OutOfMemory>
    ensures { OnOk result (told.new ≡ all_told told.old
        (inner_told source.now.scoping.now lowering class.now.id.0 (node_doc class.now))) }
{
    if lowering.is_decorated {
        let group = class_group(source.scoping, class);
        let uses = inner_uses(source, group, lowering, class)?;
        tell_uses(class.id.0, uses.as_slice(), told)
    } else {
        Ok(())
    }
}

/// The group of the class's name.
#[tactic(auto, using(crate::proofs::Grouped::group_found, crate::proofs::Grouped::no_group))]
fn class_group(scoping: &Scoping, class: &Node) -> Option<u64>
    ensures { result ≡ group_of (class_symbol scoping.now (node_doc class.now)) }
{
    match named_symbol(scoping, class) {
        Some(symbol) => group_of(scoping, symbol),
        None => None,
    }
}

/// Tells that the uses mean that group.
#[tactic(auto, using(crate::proofs::Applying::use_steps))]
fn tell_uses(group: u64, uses: &[NodeId], told: &mut ToldNodes) -> Result<(), OutOfMemory>
    ensures { OnOk result (told.new ≡ all_told told.old (uses_told group (numbers_in uses.now))) }
{
    for node in uses {
        told.tell(*node, Told::Inner(group))?;
    }
    Ok(())
}

/// The uses that mean the inner name of the class, whose name has that group: those in what it extends, and those in decorators
/// and annotations of elements whose calls stand in it.
#[tactic(auto, using(crate::proofs::Applying::two_appended))]
fn inner_uses(
    source: &Source,
    group: Option<u64>,
    lowering: Lowering,
    class: &Node,
) -> Result<Vec<NodeId>, OutOfMemory>
    ensures { IfOk result (λ uses. numbers_in uses.items
        ≡ inner_uses (group_uses source.now.scoping.now group) lowering (node_doc class.now)) }
{
    let search = UseSearch {
        scoping: source.scoping,
        group,
    };
    let mut uses = Vec::new(source.alloc);
    push_part(&search, class.field(Field::SuperClass), &mut uses)?;
    push_inside(&search, lowering, class, &mut uses)?;
    Ok(uses)
}

/// Appends the uses in decorators and annotations of elements whose calls stand in the class.
#[tactic(auto, using(crate::proofs::Applying::none_more))]
fn push_inside(
    search: &UseSearch,
    lowering: Lowering,
    class: &Node,
    uses: &mut Vec<NodeId>,
) -> Result<(), OutOfMemory>
    ensures { OnOk result (numbers_in uses.new.items ≡ numbers_in uses.old.items
        ++ in_inside (group_uses search.now.scoping.now search.now.group) lowering (node_doc class.now)) }
{
    if lowering.is_inside {
        push_elements(search, elements_of(class), uses)
    } else {
        Ok(())
    }
}

/// Appends the uses in the part, if that is a node.
#[tactic(auto, using(crate::proofs::Applying::none_more))]
fn push_part(
    search: &UseSearch,
    part: Option<&Part>,
    uses: &mut Vec<NodeId>,
) -> Result<(), OutOfMemory>
    ensures { OnOk result (numbers_in uses.new.items ≡ numbers_in uses.old.items
        ++ in_part (group_uses search.now.scoping.now search.now.group) (doc_or_nil part.entry)) }
{
    match part {
        Some(Part::Node(node)) => push_all(search, node, (), uses),
        _ => Ok(()),
    }
}

/// Appends the uses in decorators of the elements that give calls, and of their parameters, and in their annotations.
#[tactic(auto, using(crate::proofs::Applying::element_steps))]
fn push_elements(
    search: &UseSearch,
    elements: &[Part],
    uses: &mut Vec<NodeId>,
) -> Result<(), OutOfMemory>
    ensures { OnOk result (numbers_in uses.new.items ≡ numbers_in uses.old.items
        ++ in_elements (group_uses search.now.scoping.now search.now.group) (docs_in elements.now)) }
{
    for element in elements {
        push_element(search, element, uses)?;
    }
    Ok(())
}

/// Appends those of the element, if it gives a call.
#[tactic(auto, using(crate::proofs::Applying::none_more))]
fn push_element(
    search: &UseSearch,
    element: &Part,
    uses: &mut Vec<NodeId>,
) -> Result<(), OutOfMemory>
    ensures { OnOk result (numbers_in uses.new.items ≡ numbers_in uses.old.items
        ++ in_element (group_uses search.now.scoping.now search.now.group) (part_doc element.now)) }
{
    match element {
        Part::Node(node) if is_called(node) => push_called(search, node, uses),
        _ => Ok(()),
    }
}

/// Appends those of the element, which gives a call.
#[tactic(auto, using(crate::proofs::Applying::both_appended))]
fn push_called(search: &UseSearch, node: &Node, uses: &mut Vec<NodeId>) -> Result<(), OutOfMemory>
    ensures { OnOk result (numbers_in uses.new.items ≡ numbers_in uses.old.items
        ++ in_called (group_uses search.now.scoping.now search.now.group) (node_doc node.now)) }
{
    push_decorators(search, node, uses)?;
    push_annotations(search, node, uses)
}

/// Appends the uses in the decorators of the element and of its parameters.
#[tactic(auto, using(crate::proofs::Applying::both_appended))]
fn push_decorators(
    search: &UseSearch,
    node: &Node,
    uses: &mut Vec<NodeId>,
) -> Result<(), OutOfMemory>
    ensures { OnOk result (numbers_in uses.new.items ≡ numbers_in uses.old.items
        ++ (all_among (group_uses search.now.scoping.now search.now.group) (decorators_of (node_doc node.now)) tt
        ++ in_parameters (group_uses search.now.scoping.now search.now.group) (parameters_of (node_doc node.now)))) }
{
    push_among(search, node.list(Field::Decorators), (), uses)?;
    push_parameters(search, parameters_of(node), uses)
}

/// Appends the uses in the annotations of which the metadata of the element tells.
#[tactic(auto, using(crate::proofs::Applying::four_appended))]
fn push_annotations(
    search: &UseSearch,
    node: &Node,
    uses: &mut Vec<NodeId>,
) -> Result<(), OutOfMemory>
    ensures { OnOk result (numbers_in uses.new.items ≡ numbers_in uses.old.items
        ++ in_annotations (group_uses search.now.scoping.now search.now.group) (node_doc node.now)) }
{
    push_part(search, node.field(Field::TypeAnnotation), uses)?;
    push_types(search, parameters_of(node), uses)?;
    let rest = part_field(function_field(node, Field::Params), Field::Rest);
    push_part(search, part_field(rest, Field::TypeAnnotation), uses)?;
    push_part(search, function_field(node, Field::ReturnType), uses)
}

/// What that field of the part holds, if there is one.
fn part_field(part: Option<&Part>, field: Field) -> Option<&Part>
    ensures { doc_or_nil result ≡ field_of (key_of field) (doc_or_nil part.entry) }
{
    match part {
        Some(part) => part.field(field),
        None => None,
    }
}

/// Appends the uses in the annotations of the parameters.
#[tactic(auto, using(crate::proofs::Applying::in_type_steps))]
fn push_types(
    search: &UseSearch,
    parameters: &[Part],
    uses: &mut Vec<NodeId>,
) -> Result<(), OutOfMemory>
    ensures { OnOk result (numbers_in uses.new.items ≡ numbers_in uses.old.items
        ++ in_types (group_uses search.now.scoping.now search.now.group) (docs_in parameters.now)) }
{
    for parameter in parameters {
        push_part(search, parameter.field(Field::TypeAnnotation), uses)?;
    }
    Ok(())
}

/// Appends the uses in decorators of the parameters.
#[tactic(auto, using(crate::proofs::Applying::in_parameter_steps))]
fn push_parameters(
    search: &UseSearch,
    parameters: &[Part],
    uses: &mut Vec<NodeId>,
) -> Result<(), OutOfMemory>
    ensures { OnOk result (numbers_in uses.new.items ≡ numbers_in uses.old.items
        ++ in_parameters (group_uses search.now.scoping.now search.now.group) (docs_in parameters.now)) }
{
    for parameter in parameters {
        push_among(search, parameter.list(Field::Decorators), (), uses)?;
    }
    Ok(())
}

/// The search for uses that mean a group.
#[derive(Clone, Copy)]
struct UseSearch<'a> {
    scoping: &'a Scoping,
    group: Option<u64>,
}

impl<'a> Search for UseSearch<'a> {
    type State = ();

    type Found = NodeId;

    ghost Seen = { ℕ };

    ghost view = { number_of };

    ghost sought = { λ search. group_uses search.scoping.now search.group };

    fn visit(&self, node: &Node, _state: ()) -> Visit<NodeId, ()> {
        Visit {
            found: self.use_at(node),
            inside: Inside::Alike(()),
        }
    }

    fn in_field(&self, _state: (), _kind: Kind, _row: &Row) -> Option<()> {
        Some(())
    }
}

impl<'a> UseSearch<'a> {
    /// The node, if it is such a use.
    fn use_at(&self, node: &Node) -> Option<NodeId>
        ensures { option_map number_of result ≡ use_at self.now.scoping.now self.now.group node.now.kind node.now.id.0 }
    {
        if node.kind.is(Kind::IdentifierReference)
            && same_group(self.group, own_group(self.scoping, node.kind, node.id))
        {
            Some(node.id)
        } else {
            None
        }
    }
}

/// Whether both groups are there, and are the same.
fn same_group(one: Option<u64>, other: Option<u64>) -> bool
    ensures { result ≡ same_group one other }
{
    match (one, other) {
        (Some(one), Some(other)) => one == other,
        _ => false,
    }
}
