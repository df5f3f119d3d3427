//! What is known inside a class, and inside a block of an enum.
ghost use Rattle.std.specs.Prelude.{◌≡◌, ◌&&◌, IfOk, None, OnOk, codes, if◌then◌else◌, is_some, option_map};
ghost use Rattle.std.specs.List.{list_any};
ghost use Rattle.oxt_tree.specs.Fields.{elements, is_text, named};
ghost use Rattle.oxt_grammar.specs.Places.{same_kind};
ghost use Rattle.oxt_tree.specs.View.{docs_in, part_doc};
ghost use Rattle.oxt_facts.specs.Privates.{no_privates};
ghost use Rattle.oxt_facts.specs.Inside.{chosen_key, first_key, holds_key, inside, inside_class, is_told, known_or, last_key, made_key, made_name, private_key, private_name, privates_of, setter_name, stored_at, with_made, with_name};

use crate::facts::Facts;
use crate::privates::ClassPrivates;
use crate::told::Told;
use oxt_grammar::category::Category;
use oxt_grammar::field::Field;
use oxt_grammar::kind::Kind;
use oxt_names::ids::OutOfMemory;
use oxt_tree::tree::{Node, Part};

/// What is known inside the node, where that is more than around it: in a block of an enum that becomes a function, and in
/// the body of a class one of whose setters has a made name as its key, or which stands in such a class.
///
/// # Errors
///
/// Fails only where memory runs out.
pub fn inside(facts: &Facts, node: &Node) -> Result<Option<Facts>, OutOfMemory>
    ensures { IfOk result (λ more. known_or facts.now more
        ≡ inside facts.now node.now.id.0 node.now.kind (docs_in node.now.parts.items)) }
{
    match facts.told_of(node.id) {
        Some(Told::Block(block)) => Ok(Some(facts.in_block(block)?)),
        _ => inside_class(facts, node),
    }
}

/// What is known inside the node, where that is more than around it and the node may be the body of a class.
fn inside_class(facts: &Facts, node: &Node) -> Result<Option<Facts>, OutOfMemory>
    ensures { IfOk result (λ more. known_or facts.now more
        ≡ inside_class facts.now node.now.kind (docs_in node.now.parts.items)) }
{
    if !is_told(facts, node) {
        return Ok(None);
    }
    let mut class = ClassPrivates::new(facts.memory());
    add_each(facts, node.list(Field::Body), &mut class)?;
    Ok(Some(facts.in_class(class)?))
}

/// The made name for which the spelling stands, as a private name.
pub fn stored_at<'a>(facts: &Facts, part: &'a Part) -> Option<&'a str>
    ensures { option_map (λ made. made.now) result ≡ stored_at facts.now (part_doc part.now) }
{
    match part.as_text() {
        Some(name) => facts.stored_by(name),
        None => None,
    }
}

/// Whether something is known inside the node that is not known around it.
#[tactic(auto, using(oxt_tree::proofs::Lists::list_any_docs_in))]
fn is_told(facts: &Facts, node: &Node) -> bool
    ensures { result ≡ is_told facts.now node.now.kind (docs_in node.now.parts.items) }
{
    node.kind.is(Kind::ClassBody)
        && (!facts.is_outside() || has_made_setter(facts, node.list(Field::Body)))
}

/// Whether one of the elements is a setter whose key is a made name.
fn has_made_setter(facts: &Facts, elements: &[Part]) -> bool
    ensures { result ≡ list_any (λ part. is_some (setter_name facts.now (part_doc part))) elements.now }
{
    elements
        .iter()
        .any(|element| setter_name(facts, element).is_some())
}

/// Adds the private names of the elements and the made names that key their setters.
#[tactic(auto, using(crate::proofs::Elements::each_steps))]
fn add_each(facts: &Facts, elements: &[Part], class: &mut ClassPrivates) -> Result<(), OutOfMemory>
    ensures { OnOk result (class.new ≡ privates_of facts.now (docs_in elements.now) class.old) }
{
    for element in elements {
        add_element(facts, element, class)?;
    }
    Ok(())
}

/// Adds the private name of the element, and the made name that it is keyed by if it is a setter.
fn add_element(facts: &Facts, element: &Part, class: &mut ClassPrivates) -> Result<(), OutOfMemory>
    ensures { OnOk result (class.new ≡ with_made (setter_name facts.now (part_doc element.now))
        (with_name (private_name (part_doc element.now)) class.old)) }
{
    add_name(element, class)?;
    match setter_name(facts, element) {
        Some(made) => class.add_made(made),
        None => Ok(()),
    }
}

/// Adds the private name of the element.
fn add_name(element: &Part, class: &mut ClassPrivates) -> Result<(), OutOfMemory>
    ensures { OnOk result (class.new ≡ with_name (private_name (part_doc element.now)) class.old) }
{
    match private_name(element) {
        Some(name) => class.add_name(name),
        None => Ok(()),
    }
}

/// The private name that is the key of the element.
fn private_name(element: &Part) -> Option<&str>
    ensures { option_map (λ name. name.now) result ≡ private_name (part_doc element.now) }
{
    match element {
        Part::Node(node) => own_private(node),
        _ => None,
    }
}

/// The private name that is the key of the node.
fn own_private(node: &Node) -> Option<&str>
    ensures { option_map (λ name. name.now) result
        ≡ private_key (named (codes "key") node.now.kind (docs_in node.now.parts.items)) }
{
    match node.field(Field::Key) {
        Some(Part::Node(key)) if key.kind.is(Kind::PrivateIdentifier) => key
            .field(Field::Name)?
            .as_text(),
        _ => None,
    }
}

/// The made name that is the key of the element, if that is a setter.
fn setter_name<'a>(facts: &Facts, element: &'a Part) -> Option<&'a str>
    ensures { option_map (λ name. name.now) result ≡ setter_name facts.now (part_doc element.now) }
{
    match element {
        Part::Node(node) => own_setter(facts, node),
        _ => None,
    }
}

/// The made name that is the key of the node, if that is a setter.
fn own_setter<'a>(facts: &Facts, node: &'a Node) -> Option<&'a str>
    ensures { option_map (λ name. name.now) result
        ≡ (if same_kind node.now.kind Kind.MethodDefinition
        && is_text (codes "set") (named (codes "kind") node.now.kind (docs_in node.now.parts.items))
        then made_key facts.now (named (codes "key") node.now.kind (docs_in node.now.parts.items))
        else None) }
{
    if node.kind.is(Kind::MethodDefinition) && node.holds_text(Field::Kind, "set") {
        made_key(facts, node.field(Field::Key)?)
    } else {
        None
    }
}

/// The made name that the key is, inside wrappers and parentheses and as the last of a sequence.
#[cycle(keys)]
fn made_key<'a>(facts: &Facts, part: &'a Part) -> Option<&'a str>
    ensures { option_map (λ name. name.now) result ≡ made_key facts.now (part_doc part.now) }
{
    match part {
        Part::Node(node) => made_in(facts, node),
        Part::List(parts) => last_key(facts, parts),
        _ => None,
    }
}

/// The made name in the node.
#[cycle(keys)]
fn made_in<'a>(facts: &Facts, node: &'a Node) -> Option<&'a str>
    ensures { option_map (λ name. name.now) result
        ≡ chosen_key node.now.kind (first_key facts.now (docs_in node.now.parts.items))
        (made_name facts.now node.now.kind (docs_in node.now.parts.items)) }
{
    if holds_key(node.kind) {
        return first_key(facts, &node.parts);
    }
    made_name(facts, node)
}

/// The made name that is the first of the parts.
#[cycle(keys)]
fn first_key<'a>(facts: &Facts, parts: &'a [Part]) -> Option<&'a str>
    ensures { option_map (λ name. name.now) result ≡ first_key facts.now (docs_in parts.now) }
{
    match parts.first() {
        Some(part) => made_key(facts, part),
        None => None,
    }
}

/// The made name that is the last of the parts.
#[cycle(keys)]
#[tactic(auto, using(crate::proofs::Elements::last_steps))]
fn last_key<'a>(facts: &Facts, parts: &'a [Part]) -> Option<&'a str>
    ensures { option_map (λ name. name.now) result ≡ last_key facts.now (docs_in parts.now) }
{
    match parts.last() {
        Some(part) => made_key(facts, part),
        None => None,
    }
}

/// Whether a part of a node of the kind is the key.
fn holds_key(kind: Kind) -> bool
    ensures { result ≡ holds_key kind }
{
    Category::Transparent.contains(kind) || kind.is(Kind::SequenceExpression)
}

/// The name, if it is made.
fn made_name<'a>(facts: &Facts, node: &'a Node) -> Option<&'a str>
    ensures { option_map (λ name. name.now) result
        ≡ made_name facts.now node.now.kind (docs_in node.now.parts.items) }
{
    let name = node.field(Field::Name)?;
    if node.kind.is(Kind::IdentifierReference) && facts.is_made(name) {
        name.as_text()
    } else {
        None
    }
}
