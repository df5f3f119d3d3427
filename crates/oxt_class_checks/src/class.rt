//! What the elements of a class have to know of it.
ghost use Rattle.std.specs.Prelude.{◌≡◌};
ghost use Rattle.std.specs.List.{list_any};
ghost use Rattle.oxt_class_checks.specs.Class.{class_facts, facts_of, has_decorators, is_class, is_any_assigned, is_any_decorated, is_any_moving, is_assigned_accessor, is_decorated};
ghost use Rattle.oxt_fields.specs.Fates.{moves_to_constructor};
ghost use Rattle.oxt_fields.specs.Rules.{rules_view};
ghost use Rattle.oxt_tree.specs.Doc.{list};
ghost use Rattle.oxt_tree.specs.Fields.{is_empty_list};
ghost use Rattle.oxt_tree.specs.View.{docs_in, part_doc};

use oxt_declares::dropped::is_dropped;
use oxt_fields::class::{elements_of, is_derived};
use oxt_fields::fate::{has_value, hoists_private, is_static, moves_to_constructor};
use oxt_fields::rules::FieldRules;
use oxt_grammar::field::Field;
use oxt_grammar::kind::Kind;
use oxt_tree::tree::{Node, Part};

/// What the elements of a class have to know of it.
#[derive(Clone, Copy)]
pub struct ClassFacts {
    /// It is a declaration.
    pub is_declaration: bool,
    /// It extends another.
    pub is_derived: bool,
    /// Its private instance fields with values move too.
    pub hoists: bool,
    /// A field of it moves into the constructor.
    pub has_moving: bool,
    /// An element of it that is not erased has decorators.
    pub has_decorated: bool,
    /// An `accessor` of its instances has a value.
    pub has_assigned: bool,
}

/// Whether nodes of the kind are classes.
pub fn is_class(kind: Kind) -> bool
    ensures { result ≡ is_class kind }
{
    kind.is(Kind::ClassDeclaration) || kind.is(Kind::ClassExpression)
}

/// The facts of the class.
pub fn class_facts(rules: FieldRules, class: &Node) -> ClassFacts
    ensures { result ≡ class_facts (rules_view rules.entry) class.now.kind (docs_in class.now.parts.items) }
{
    let is_declaration = class.kind.is(Kind::ClassDeclaration);
    let elements = elements_of(class);
    facts_of(
        rules,
        is_declaration,
        is_derived(class),
        hoists_private(elements),
        elements,
    )
}

/// The facts of a class with these elements.
fn facts_of(
    rules: FieldRules,
    is_declaration: bool,
    is_derived: bool,
    hoists: bool,
    elements: &[Part],
) -> ClassFacts
    ensures { result ≡ facts_of (rules_view rules.entry) is_declaration is_derived hoists (docs_in elements.now) }
{
    ClassFacts {
        is_declaration,
        is_derived,
        hoists,
        has_moving: is_any_moving(rules, hoists, elements),
        has_decorated: is_any_decorated(elements),
        has_assigned: is_any_assigned(elements),
    }
}

/// Whether one of the elements moves into the constructor.
#[tactic(auto, using(oxt_tree::proofs::Lists::list_any_docs_in))]
fn is_any_moving(rules: FieldRules, hoists: bool, elements: &[Part]) -> bool
    ensures { result ≡ is_any_moving (rules_view rules.entry) hoists (docs_in elements.now) }
{
    any_moves(rules, hoists, elements)
}

/// The same, one element after another.
fn any_moves(rules: FieldRules, hoists: bool, elements: &[Part]) -> bool
    ensures { result ≡ list_any (λ part. moves_to_constructor (rules_view rules.entry) hoists (part_doc part)) elements.now }
{
    elements
        .iter()
        .any(|element| part_moves(rules, hoists, element))
}

/// Whether the element moves into the constructor.
fn part_moves(rules: FieldRules, hoists: bool, element: &Part) -> bool
    ensures { result ≡ moves_to_constructor (rules_view rules.entry) hoists (part_doc element.now) }
{
    match element {
        Part::Node(node) => moves_to_constructor(rules, hoists, node),
        _ => false,
    }
}

/// Whether one of the elements that are not erased has decorators.
#[tactic(auto, using(oxt_tree::proofs::Lists::list_any_docs_in))]
fn is_any_decorated(elements: &[Part]) -> bool
    ensures { result ≡ is_any_decorated (docs_in elements.now) }
{
    any_is_decorated(elements)
}

/// The same, one element after another.
fn any_is_decorated(elements: &[Part]) -> bool
    ensures { result ≡ list_any (λ part. is_decorated (part_doc part)) elements.now }
{
    elements.iter().any(|element| is_decorated(element))
}

/// Whether the element is not erased, and has decorators.
fn is_decorated(element: &Part) -> bool
    ensures { result ≡ is_decorated (part_doc element.now) }
{
    match element {
        Part::Node(node) => !is_dropped(node) && has_decorators(node),
        _ => false,
    }
}

/// Whether the node has decorators.
pub fn has_decorators(node: &Node) -> bool
    ensures { result ≡ has_decorators node.now.kind (docs_in node.now.parts.items) }
{
    !is_empty(node.list(Field::Decorators))
}

/// Whether there are none.
fn is_empty(parts: &[Part]) -> bool
    ensures { result ≡ is_empty_list (list (docs_in parts.now)) }
{
    parts.first().is_none()
}

/// Whether one of the elements is an `accessor` of instances with a value.
#[tactic(auto, using(oxt_tree::proofs::Lists::list_any_docs_in))]
fn is_any_assigned(elements: &[Part]) -> bool
    ensures { result ≡ is_any_assigned (docs_in elements.now) }
{
    any_is_assigned(elements)
}

/// The same, one element after another.
fn any_is_assigned(elements: &[Part]) -> bool
    ensures { result ≡ list_any (λ part. is_assigned_accessor (part_doc part)) elements.now }
{
    elements.iter().any(|element| is_assigned_accessor(element))
}

/// Whether the element is an `accessor` of instances with a value.
fn is_assigned_accessor(element: &Part) -> bool
    ensures { result ≡ is_assigned_accessor (part_doc element.now) }
{
    match element {
        Part::Node(node) => {
            node.kind.is(Kind::AccessorProperty) && (!is_static(node) && has_value(node))
        }
        _ => false,
    }
}
