//! The private names of a class: those of its elements, and those of the storages of its accessors.
ghost use Rattle.std.specs.Prelude.{◌≡◌, IfOk, OnOk, option_map};
ghost use Rattle.oxt_class_checks.specs.Storages.{has_plain_storage, has_reserved, is_any_reserved, is_reserved, is_reserved_in, keeps_key, own_private, own_storage, private_key, with_name, with_privates};
ghost use Rattle.oxt_fields.specs.Rules.{rules_view};
ghost use Rattle.oxt_tree.specs.View.{doc_or_nil, docs_in, node_doc, part_doc};

use oxt_declares::dropped::is_dropped;
use oxt_fields::fate::needs_temporary;
use oxt_fields::rules::FieldRules;
use oxt_fields::storage::storage_text;
use oxt_grammar::field::Field;
use oxt_grammar::kind::Kind;
use oxt_names::ids::OutOfMemory;
use oxt_names::uid::UidNames;
use oxt_tree::tree::{Node, Part};
use std::alloc::Global;

/// Whether one of the elements has a private name that is reserved, or a storage with such a name.
///
/// # Errors
///
/// Fails only where memory runs out.
#[tactic(auto, using(crate::proofs::Elements::reserved_steps))]
pub fn is_any_reserved(
    alloc: Global,
    rules: FieldRules,
    elements: &[Part],
) -> Result<bool, OutOfMemory>
    ensures { IfOk result (λ found. found ≡ is_any_reserved (rules_view rules.entry) (docs_in elements.now)) }
{
    for element in elements {
        if has_reserved(alloc, rules, element)? {
            return Ok(true);
        }
    }
    Ok(false)
}

/// Whether the element has.
fn has_reserved(alloc: Global, rules: FieldRules, element: &Part) -> Result<bool, OutOfMemory>
    ensures { IfOk result (λ found. found ≡ has_reserved (rules_view rules.entry) (part_doc element.now)) }
{
    match element {
        Part::Node(node) => node_has_reserved(alloc, rules, node),
        _ => Ok(false),
    }
}

/// Whether the node has.
fn node_has_reserved(alloc: Global, rules: FieldRules, node: &Node) -> Result<bool, OutOfMemory>
    ensures { IfOk result (λ found. found ≡ has_reserved (rules_view rules.entry) (node_doc node.now)) }
{
    if is_reserved_in(own_private(node)) {
        Ok(true)
    } else {
        has_reserved_storage(alloc, rules, node)
    }
}

/// Whether the node is an accessor whose storage has such a name, which follows from its key alone.
fn has_reserved_storage(alloc: Global, rules: FieldRules, node: &Node) -> Result<bool, OutOfMemory>
    ensures { IfOk result
        (λ found. found ≡ is_reserved_in (own_storage (rules_view rules.entry) (node_doc node.now))) }
{
    if has_plain_storage(rules, node) {
        let storage = storage_text(alloc, node)?;
        Ok(is_reserved(storage.as_str()))
    } else {
        Ok(false)
    }
}

/// Whether the node is an accessor whose storage has a name that follows from its key alone.
pub fn has_plain_storage(rules: FieldRules, node: &Node) -> bool
    ensures { result ≡ has_plain_storage (rules_view rules.entry) node.now.kind (docs_in node.now.parts.items) }
{
    node.kind.is(Kind::AccessorProperty) && !keeps_key(rules, node)
}

/// Whether the key of the element is kept in a temporary.
pub fn keeps_key(rules: FieldRules, node: &Node) -> bool
    ensures { result ≡ keeps_key (rules_view rules.entry) node.now.kind (docs_in node.now.parts.items) }
{
    match node.field(Field::Key) {
        Some(Part::Node(key)) => needs_temporary(rules, key),
        _ => false,
    }
}

/// Whether the text is such a name, if there is one.
fn is_reserved_in(text: Option<&str>) -> bool
    ensures { result ≡ is_reserved_in (option_map (λ text. text.now) text.entry) }
{
    match text {
        Some(text) => is_reserved(text),
        None => false,
    }
}

/// The end of the names of storages of accessors whose keys are computed.
const STORAGE_END: &str = "_computed_accessor_storage";

/// Whether the text may be the name of the storage of an accessor whose key is kept in a temporary.
fn is_reserved(text: &str) -> bool
    ensures { result ≡ is_reserved text.now }
{
    text.as_bytes().starts_with("__".as_bytes())
        && text.as_bytes().ends_with(STORAGE_END.as_bytes())
}

/// The private name of the element, if it is not erased.
fn own_private(node: &Node) -> Option<&str>
    ensures { option_map (λ name. name.now) result ≡ own_private (node_doc node.now) }
{
    if is_dropped(node) {
        None
    } else {
        private_key(node.field(Field::Key))
    }
}

/// The text of a key that is a private name.
fn private_key(key: Option<&Part>) -> Option<&str>
    ensures { option_map (λ name. name.now) result ≡ private_key (doc_or_nil key.entry) }
{
    match key {
        Some(Part::Node(key)) if key.kind.is(Kind::PrivateIdentifier) => key.text(Field::Name),
        _ => None,
    }
}

/// Adds the private names of the elements.
///
/// # Errors
///
/// Fails only where memory runs out.
#[tactic(auto, using(crate::proofs::Elements::private_steps))]
pub fn add_privates(elements: &[Part], names: &mut UidNames) -> Result<(), OutOfMemory>
    ensures { OnOk result (names.new ≡ with_privates (docs_in elements.now) names.old) }
{
    for element in elements {
        add_private(element, names)?;
    }
    Ok(())
}

/// Adds the private name of the element.
fn add_private(element: &Part, names: &mut UidNames) -> Result<(), OutOfMemory>
    ensures { OnOk result (names.new ≡ with_name (own_private (part_doc element.now)) names.old) }
{
    match element {
        Part::Node(node) => add_name(own_private(node), names),
        _ => Ok(()),
    }
}

/// Adds the name, if there is one.
fn add_name(name: Option<&str>, names: &mut UidNames) -> Result<(), OutOfMemory>
    ensures { OnOk result (names.new ≡ with_name (option_map (λ name. name.now) name.entry) names.old) }
{
    match name {
        Some(name) => names.take(name),
        None => Ok(()),
    }
}
