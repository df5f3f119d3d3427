//! What is told of classes: of themselves, of their bodies what constructors put on objects, and of their elements.
ghost use Rattle.std.specs.Prelude.{◌≡◌, IfOk, OnOk, codes, false, option_map};
ghost use Rattle.std.specs.List.{list_any};
ghost use Rattle.oxt_facts.specs.Told.{gaining_view};
ghost use Rattle.oxt_fields.specs.Classes.{elements_of, is_derived};
ghost use Rattle.oxt_fields.specs.Fates.{moves_to_constructor};
ghost use Rattle.oxt_fields.specs.Rules.{rules_view};
ghost use Rattle.oxt_told.specs.Calls.{common_of, elements_told};
ghost use Rattle.oxt_told.specs.Classes.{body_told, class_told, gaining_of, gains_told, has_more, has_moving, is_class, is_gaining, parts_told, place_in};
ghost use Rattle.oxt_told.specs.Source.{all_told};
ghost use Rattle.oxt_told.specs.Symbols.{number_in};
ghost use Rattle.oxt_tree.specs.Fields.{field_of};
ghost use Rattle.oxt_tree.specs.View.{docs_in, node_doc, part_doc};

use crate::calls::{shared_of, tell_elements};
use crate::decorated::{lowering_of, tell_itself};
use crate::lowering::Lowering;
use crate::namespaces::with_groups;
use crate::properties::{empty_fields, has_properties, parameters_in, property_names};
use crate::tags::tag_if;
use crate::told::Source;
use crate::uses::tell_inner;
use oxt_facts::told::{Told, ToldClass, ToldNodes};
use oxt_fields::class::{
    constructor_of, elements_of, get_super_call_position, is_derived, statements_of,
};
use oxt_fields::fate::{hoists_private, moves_to_constructor};
use oxt_fields::rules::FieldRules;
use oxt_grammar::field::Field;
use oxt_grammar::kind::Kind;
use oxt_names::ids::OutOfMemory;
use oxt_tree::tree::{Node, Part};

/// Whether nodes of the kind are classes.
pub fn is_class(kind: Kind) -> bool
    ensures { result ≡ is_class kind }
{
    kind.is(Kind::ClassDeclaration) || kind.is(Kind::ClassExpression)
}

/// Tells of the class: of itself, of its body, of its elements, and of the uses of its inner name.
pub fn tell_class(source: &Source, class: &Node, told: &mut ToldNodes) -> Result<(), OutOfMemory>
    ensures { OnOk result (told.new ≡ all_told told.old
        (class_told source.now.scoping.now (rules_view source.now.rules) class.now.id.0 (node_doc class.now))) }
{
    tell_parts(source, lowering_of(source.rules, class), class, told)
}

/// The same, where decorators make that of it.
#[tactic(auto, using(crate::proofs::Loops::told_four))]
fn tell_parts(
    source: &Source,
    lowering: Lowering,
    class: &Node,
    told: &mut ToldNodes,
) -> Result<(), OutOfMemory>
    ensures { OnOk result (told.new ≡ all_told told.old
        (parts_told source.now.scoping.now (rules_view source.now.rules) lowering class.now.id.0 (node_doc class.now))) }
{
    tell_itself(source, lowering, class, told)?;
    tell_gains(source, lowering, class, told)?;
    tell_all_elements(source, lowering, class, told)?;
    tell_inner(source, lowering, class, told)
}

/// Tells of the elements of the class.
#[tactic(auto, using(crate::proofs::Callers::elements_by))]
fn tell_all_elements(
    source: &Source,
    lowering: Lowering,
    class: &Node,
    told: &mut ToldNodes,
) -> Result<(), OutOfMemory>
    ensures { OnOk result (told.new ≡ all_told told.old
        (elements_told (rules_view source.now.rules)
        (common_of source.now.scoping.now lowering class.now.id.0 (node_doc class.now)) false
        (elements_of (node_doc class.now)))) }
{
    let shared = shared_of(source, lowering, class)?;
    tell_elements(source, &shared, elements_of(class), told)
}

/// Tells of the class's body, if it has more in it than is written there.
fn tell_gains(
    source: &Source,
    lowering: Lowering,
    class: &Node,
    told: &mut ToldNodes,
) -> Result<(), OutOfMemory>
    ensures { OnOk result (told.new ≡ all_told told.old
        (gains_told source.now.scoping.now (rules_view source.now.rules) lowering class.now.id.0 (node_doc class.now))) }
{
    if has_more(source.rules, lowering, class) {
        tell_body(source, lowering, class, told)
    } else {
        Ok(())
    }
}

/// Whether the body of the class has more in it than is written there.
fn has_more(rules: FieldRules, lowering: Lowering, class: &Node) -> bool
    ensures { result ≡ has_more (rules_view rules.entry) lowering (elements_of (node_doc class.now)) }
{
    lowering.has_front || (lowering.is_inside || gains(rules, class))
}

/// Whether the class has parameter properties, or a field that moves into the constructor.
fn gains(rules: FieldRules, class: &Node) -> bool
    ensures { result ≡ is_gaining (rules_view rules.entry) (elements_of (node_doc class.now)) }
{
    is_gaining(rules, elements_of(class))
}

/// Tells of the class's body.
fn tell_body(
    source: &Source,
    lowering: Lowering,
    class: &Node,
    told: &mut ToldNodes,
) -> Result<(), OutOfMemory>
    ensures { OnOk result (told.new ≡ all_told told.old
        (body_told (number_in (field_of (codes "body") (node_doc class.now)))
        (gaining_of source.now.scoping.now (rules_view source.now.rules) lowering class.now.id.0
        (is_derived (node_doc class.now)) (elements_of (node_doc class.now))))) }
{
    match class.field(Field::Body) {
        Some(Part::Node(body)) => {
            let gains = class_gains(source, lowering, class)?;
            told.tell(body.id, Told::Gains(gains))
        }
        _ => Ok(()),
    }
}

/// What the body of the class has more than is written there.
fn class_gains(source: &Source, lowering: Lowering, class: &Node) -> Result<ToldClass, OutOfMemory>
    ensures { IfOk result (λ gains. gaining_view gains ≡ gaining_of source.now.scoping.now
        (rules_view source.now.rules) lowering class.now.id.0 (is_derived (node_doc class.now))
        (elements_of (node_doc class.now))) }
{
    gaining_of(
        source,
        lowering,
        class.id.0,
        is_derived(class),
        elements_of(class),
    )
}

/// Whether a class with these elements has parameter properties, or a field that moves into the constructor.
fn is_gaining(rules: FieldRules, elements: &[Part]) -> bool
    ensures { result ≡ is_gaining (rules_view rules.entry) (docs_in elements.now) }
{
    has_properties(parameters_in(constructor_of(elements))) || has_moving(rules, elements)
}

/// Whether one of the elements of a class is a field that moves into the constructor.
#[tactic(auto, using(oxt_tree::proofs::Lists::list_any_docs_in))]
fn has_moving(rules: FieldRules, elements: &[Part]) -> bool
    ensures { result ≡ has_moving (rules_view rules.entry) (docs_in elements.now) }
{
    is_any_moving(rules, hoists_private(elements), elements)
}

/// The same, where private fields of the class are hoisted or not.
fn is_any_moving(rules: FieldRules, hoists: bool, elements: &[Part]) -> bool
    ensures { result ≡ list_any (λ element. moves_to_constructor (rules_view rules.entry) hoists (part_doc element)) elements.now }
{
    elements
        .iter()
        .any(|element| is_moving(rules, hoists, element))
}

/// Whether the element is a field that moves into the constructor.
fn is_moving(rules: FieldRules, hoists: bool, element: &Part) -> bool
    ensures { result ≡ moves_to_constructor (rules_view rules.entry) hoists (part_doc element.now) }
{
    match element {
        Part::Node(node) => moves_to_constructor(rules, hoists, node),
        _ => false,
    }
}

/// What the body of the class of that number with these elements, which extends another or not, has more than is written there.
fn gaining_of(
    source: &Source,
    lowering: Lowering,
    number: u64,
    derives: bool,
    elements: &[Part],
) -> Result<ToldClass, OutOfMemory>
    ensures { IfOk result (λ gains. gaining_view gains ≡ gaining_of source.now.scoping.now
        (rules_view source.now.rules) lowering number derives (docs_in elements.now)) }
{
    let constructor = constructor_of(elements);
    let properties = property_names(source.alloc, parameters_in(constructor))?;
    Ok(ToldClass {
        gains: is_gaining(source.rules, elements),
        fields: empty_fields(source.alloc, source.rules, elements, properties.as_slice())?,
        properties: with_groups(source.alloc, source.scoping, properties.as_slice())?,
        place: place_in(constructor),
        has_constructor: constructor.is_some(),
        is_derived: derives,
        alias: tag_if(source.alloc, "a", lowering.has_front, number)?,
        has_calls: lowering.is_inside,
    })
}

/// How many statements of the constructor stand before what is put.
fn place_in(constructor: Option<&Node>) -> usize
    ensures { result ≡ place_in (option_map (λ node. node_doc node.now) constructor.entry) }
{
    match constructor {
        Some(method) => get_super_call_position(statements_of(method)),
        None => 0,
    }
}
