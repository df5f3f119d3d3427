//! The tests of the elements of classes.
ghost use Rattle.std.specs.Prelude.{◌≡◌};
ghost use Rattle.std.specs.List.{list_any};
ghost use Rattle.oxt_class_checks.specs.Rules.{fault_at, has_computed_key, has_property, is_called_fault, is_changed, is_displaced, is_field_fault, is_key_fault, is_plain_fault, is_super_fault, loses_key, takes_on, waits};
ghost use Rattle.oxt_class_checks.specs.Nodes.{some_node};
ghost use Rattle.oxt_fields.specs.Classes.{is_constructor, is_property};
ghost use Rattle.oxt_fields.specs.Rules.{rules_view};
ghost use Rattle.oxt_tree.specs.View.{docs_in, part_doc};

use crate::calls::calls_once;
use crate::class::{ClassFacts, has_decorators};
use crate::misplaced::ClassFault;
use oxt_fields::class::{is_property, parameters_of};
use oxt_fields::fate::{Fate, fate_of, holds_call_key, is_field, is_static, is_steady_kind};
use oxt_fields::rules::FieldRules;
use oxt_grammar::field::Field;
use oxt_grammar::kind::Kind;
use oxt_tree::tree::{Node, Part};

/// What is wrong with the place of the element, the first of what may be; the flag says whether it is refused as an accessor.
pub fn fault_at(
    rules: FieldRules,
    is_refused: bool,
    class: ClassFacts,
    node: &Node,
) -> Option<ClassFault>
    ensures { result ≡ fault_at (rules_view rules.entry) is_refused class node.now.kind (docs_in node.now.parts.items) }
{
    if is_super_fault(rules, class, node) {
        Some(ClassFault::Super)
    } else if is_key_fault(rules, class, node) {
        Some(ClassFault::Key)
    } else if is_field_fault(rules, class, node) {
        Some(ClassFault::Field)
    } else if is_refused {
        Some(ClassFault::Accessor)
    } else {
        None
    }
}

/// Whether the element is the constructor of a derived class and takes on properties or fields, but does not call `super`
/// once in a statement by itself.
fn is_super_fault(rules: FieldRules, class: ClassFacts, node: &Node) -> bool
    ensures { result
        ≡ is_super_fault (rules_view rules.entry) class node.now.kind (docs_in node.now.parts.items) }
{
    class.is_derived
        && (is_constructor(node) && (takes_on(class, node) && !calls_once(rules.legacy, node)))
}

/// Whether the element is a constructor that has a body.
fn is_constructor(node: &Node) -> bool
    ensures { result ≡ is_constructor (some_node node.now.kind (docs_in node.now.parts.items)) }
{
    node.kind.is(Kind::MethodDefinition)
        && (node.holds_text(Field::Kind, "constructor")
            && node.holds_kind(Field::Value, Kind::FunctionExpression))
}

/// Whether fields move into the constructor, or parameters of it are properties.
fn takes_on(class: ClassFacts, node: &Node) -> bool
    ensures { result ≡ takes_on class node.now.kind (docs_in node.now.parts.items) }
{
    class.has_moving || has_property(parameters_of(node))
}

/// Whether one of the parameters is a property.
#[tactic(auto, using(oxt_tree::proofs::Lists::list_any_docs_in))]
fn has_property(parameters: &[Part]) -> bool
    ensures { result ≡ has_property (docs_in parameters.now) }
{
    any_is_property(parameters)
}

/// The same, one parameter after another.
fn any_is_property(parameters: &[Part]) -> bool
    ensures { result ≡ list_any (λ part. is_property (part_doc part)) parameters.now }
{
    parameters
        .iter()
        .any(|parameter| part_is_property(parameter))
}

/// Whether the parameter is a property.
fn part_is_property(parameter: &Part) -> bool
    ensures { result ≡ is_property (part_doc parameter.now) }
{
    match parameter {
        Part::Node(node) => is_property(node),
        _ => false,
    }
}

/// Whether the element is a field with a computed key where public fields are set by assignment, in a class whose empty
/// fields are kept or that has decorators in it that are not lowered.
fn is_key_fault(rules: FieldRules, class: ClassFacts, node: &Node) -> bool
    ensures { result
        ≡ is_key_fault (rules_view rules.entry) class node.now.kind (docs_in node.now.parts.items) }
{
    rules.moves
        && (is_field(node)
            && (has_computed_key(node)
                && (!rules.drops_empty || (!rules.legacy && class.has_decorated))))
}

/// Whether the key of the element is neither a name nor a literal.
fn has_computed_key(node: &Node) -> bool
    ensures { result ≡ has_computed_key node.now.kind (docs_in node.now.parts.items) }
{
    match node.field(Field::Key) {
        Some(Part::Node(key)) => !is_steady_kind(key.kind),
        _ => false,
    }
}

/// Whether the element is a field that cannot be lowered with its decorators, or besides an `accessor`.
fn is_field_fault(rules: FieldRules, class: ClassFacts, node: &Node) -> bool
    ensures { result
        ≡ is_field_fault (rules_view rules.entry) class node.now.kind (docs_in node.now.parts.items) }
{
    if rules.legacy {
        is_called_fault(rules, class, node)
    } else {
        is_plain_fault(rules, class, node)
    }
}

/// Where decorators are lowered: whether the element is a field with decorators that goes into a static block, or whose key
/// waits, or is lost.
fn is_called_fault(rules: FieldRules, class: ClassFacts, node: &Node) -> bool
    ensures { result
        ≡ is_called_fault (rules_view rules.entry) class node.now.kind (docs_in node.now.parts.items) }
{
    let fate = fate_of(rules, class.hoists, node);
    is_field(node) && (has_decorators(node) && is_displaced(rules, class, fate, node))
}

/// Whether a field with that fate does so.
fn is_displaced(rules: FieldRules, class: ClassFacts, fate: Fate, node: &Node) -> bool
    ensures { result
        ≡ is_displaced (rules_view rules.entry) class fate node.now.kind (docs_in node.now.parts.items) }
{
    (fate.is_moving() && is_static(node)) || (waits(fate) || loses_key(rules, class, node))
}

/// Whether the key of a field with that fate is computed apart from it.
fn waits(fate: Fate) -> bool
    ensures { result ≡ waits fate }
{
    match fate {
        Fate::Stays => false,
        Fate::Goes => false,
        Fate::LeavesKey => true,
        Fate::Moves { has_temporary, .. } => has_temporary,
    }
}

/// Whether the field of a class declaration is dropped or moves, where its key is to be kept for the call of its decorators.
fn loses_key(rules: FieldRules, class: ClassFacts, node: &Node) -> bool
    ensures { result
        ≡ loses_key (rules_view rules.entry) class node.now.kind (docs_in node.now.parts.items) }
{
    class.is_declaration && (rules.moves && (rules.drops_empty && holds_call_key(rules, node)))
}

/// Whether the element is a field with decorators that does not stay as it is, or one that moves beside an `accessor` of
/// instances with a value.
fn is_plain_fault(rules: FieldRules, class: ClassFacts, node: &Node) -> bool
    ensures { result
        ≡ is_plain_fault (rules_view rules.entry) class node.now.kind (docs_in node.now.parts.items) }
{
    let fate = fate_of(rules, class.hoists, node);
    (has_decorators(node) && is_changed(fate)) || (class.has_assigned && fate.is_moving())
}

/// Whether a field with that fate does not stay as it is.
fn is_changed(fate: Fate) -> bool
    ensures { result ≡ is_changed fate }
{
    match fate {
        Fate::Stays => false,
        _ => true,
    }
}
