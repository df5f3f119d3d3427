//! Accessors and setters whose private names cannot be told from others once accessors are lowered.
//!
//! All classes are gone through once, since what is said of an accessor needs the names of those before it.
ghost use Rattle.std.specs.Prelude.{◌≡◌, ◌++◌, IfOk, OnOk};
ghost use Rattle.oxt_class_checks.specs.Refused.{is_accessor_refused, is_plain, is_setter, is_setter_refused, is_taken, number_if, own_refused, refused_accessors, refused_among, refused_each, refused_elements, refused_in, refused_one};
ghost use Rattle.oxt_class_checks.specs.Storages.{own_storage, with_name};
ghost use Rattle.oxt_fields.specs.Rules.{rules_view};
ghost use Rattle.oxt_options.specs.Lists.{numbers_in};
ghost use Rattle.oxt_fields.specs.Storage.{storage_text};
ghost use Rattle.oxt_fields.specs.Text.{is_letter, is_within_identifier};
ghost use Rattle.oxt_names.specs.Names.{name_bytes};
ghost use Rattle.oxt_tree.specs.View.{docs_in, node_doc, part_doc};

use crate::class::is_class;
use crate::keys::has_alias_key;
use crate::storages::{add_privates, has_plain_storage, is_any_reserved, keeps_key};
use oxt_declares::dropped::is_dropped;
use oxt_fields::class::elements_of;
use oxt_fields::rules::FieldRules;
use oxt_fields::storage::storage_text;
use oxt_grammar::field::Field;
use oxt_grammar::kind::Kind;
use oxt_names::ids::{NodeId, OutOfMemory};
use oxt_names::name::Name;
use oxt_names::uid::UidNames;
use oxt_options::nodes::NodeList;
use oxt_tree::tree::{Node, Part};
use std::alloc::Global;

/// The accessors and setters that are refused, where accessors are lowered; none else. Those in erased code are among them.
///
/// # Errors
///
/// Fails only where memory runs out.
pub fn refused_accessors(
    alloc: Global,
    program: &Node,
    rules: FieldRules,
) -> Result<NodeList, OutOfMemory>
    ensures { IfOk result (λ nodes. nodes ≡ refused_accessors (rules_view rules.entry) (node_doc program.now)) }
{
    let mut out = Vec::new(alloc);
    if rules.legacy {
        push_node(alloc, rules, program, &mut out)?;
    }
    NodeList::of(alloc, out)
}

/// Appends those of the classes in the node.
#[cycle(classes)]
fn push_node(
    alloc: Global,
    rules: FieldRules,
    node: &Node,
    out: &mut Vec<NodeId>,
) -> Result<(), OutOfMemory>
    ensures { OnOk result (numbers_in out.new.items
        ≡ numbers_in out.old.items ++ refused_in (rules_view rules.entry) (node_doc node.now)) }
{
    push_class(alloc, rules, node, out)?;
    push_each(alloc, rules, &node.parts, out)
}

/// Appends those of the classes in the part.
#[cycle(classes)]
fn push_part(
    alloc: Global,
    rules: FieldRules,
    part: &Part,
    out: &mut Vec<NodeId>,
) -> Result<(), OutOfMemory>
    ensures { OnOk result (numbers_in out.new.items
        ≡ numbers_in out.old.items ++ refused_in (rules_view rules.entry) (part_doc part.now)) }
{
    match part {
        Part::Node(node) => push_node(alloc, rules, node, out),
        Part::List(parts) => push_each(alloc, rules, parts, out),
        _ => Ok(()),
    }
}

/// Appends those of the classes in the parts.
#[cycle(classes)]
#[tactic(auto, using(crate::proofs::Elements::each_steps))]
fn push_each(
    alloc: Global,
    rules: FieldRules,
    parts: &[Part],
    out: &mut Vec<NodeId>,
) -> Result<(), OutOfMemory>
    ensures { OnOk result (numbers_in out.new.items
        ≡ numbers_in out.old.items ++ refused_each (rules_view rules.entry) (docs_in parts.now)) }
{
    for part in parts {
        push_part(alloc, rules, part, out)?;
    }
    Ok(())
}

/// Appends those of the node itself, if it is a class.
fn push_class(
    alloc: Global,
    rules: FieldRules,
    node: &Node,
    out: &mut Vec<NodeId>,
) -> Result<(), OutOfMemory>
    ensures { OnOk result (numbers_in out.new.items ≡ numbers_in out.old.items
        ++ own_refused (rules_view rules.entry) node.now.kind (docs_in node.now.parts.items)) }
{
    if is_class(node.kind) {
        push_elements(alloc, rules, elements_of(node), out)
    } else {
        Ok(())
    }
}

/// Appends those of a class with these elements.
fn push_elements(
    alloc: Global,
    rules: FieldRules,
    elements: &[Part],
    out: &mut Vec<NodeId>,
) -> Result<(), OutOfMemory>
    ensures { OnOk result (numbers_in out.new.items
        ≡ numbers_in out.old.items ++ refused_elements (rules_view rules.entry) (docs_in elements.now)) }
{
    let is_reserved = is_any_reserved(alloc, rules, elements)?;
    let mut names = UidNames::new(alloc);
    add_privates(elements, &mut names)?;
    push_among(alloc, rules, is_reserved, elements, &mut names, out)
}

/// Appends those of the elements, before which these names stand, and adds their storages to the names. The flag says
/// whether a private name of the class is reserved.
#[tactic(auto, using(crate::proofs::Elements::among_steps))]
fn push_among(
    alloc: Global,
    rules: FieldRules,
    is_reserved: bool,
    elements: &[Part],
    names: &mut UidNames,
    out: &mut Vec<NodeId>,
) -> Result<(), OutOfMemory>
    ensures { OnOk result (numbers_in out.new.items ≡ numbers_in out.old.items
        ++ refused_among (rules_view rules.entry) is_reserved names.old (docs_in elements.now)) }
{
    for element in elements {
        push_element(alloc, rules, is_reserved, element, names, out)?;
    }
    Ok(())
}

/// Appends the element, if it is refused, and adds its storage to the names.
fn push_element(
    alloc: Global,
    rules: FieldRules,
    is_reserved: bool,
    element: &Part,
    names: &mut UidNames,
    out: &mut Vec<NodeId>,
) -> Result<(), OutOfMemory>
    ensures pushed { OnOk result (numbers_in out.new.items ≡ numbers_in out.old.items
        ++ refused_one (rules_view rules.entry) is_reserved names.old (part_doc element.now)) }
    ensures added { OnOk result (names.new
        ≡ with_name (own_storage (rules_view rules.entry) (part_doc element.now)) names.old) }
{
    match element {
        Part::Node(node) => push_one(alloc, rules, is_reserved, node, names, out),
        _ => Ok(()),
    }
}

/// Appends the node, if it is refused, and adds its storage to the names.
fn push_one(
    alloc: Global,
    rules: FieldRules,
    is_reserved: bool,
    node: &Node,
    names: &mut UidNames,
    out: &mut Vec<NodeId>,
) -> Result<(), OutOfMemory>
    ensures pushed { OnOk result (numbers_in out.new.items ≡ numbers_in out.old.items
        ++ refused_one (rules_view rules.entry) is_reserved names.old (node_doc node.now)) }
    ensures added { OnOk result (names.new
        ≡ with_name (own_storage (rules_view rules.entry) (node_doc node.now)) names.old) }
{
    if node.kind.is(Kind::AccessorProperty) {
        let storage = storage_text(alloc, node)?;
        let is_refused = is_accessor_refused(rules, is_reserved, names, storage.as_str(), node);
        push_if(is_refused, node.id, out)?;
        add_storage(rules, node, storage, names)
    } else {
        push_if(is_setter_refused(rules, is_reserved, node), node.id, out)
    }
}

/// Appends the number, where that is so.
#[tactic(auto, using(crate::proofs::Elements::one_more))]
fn push_if(is_refused: bool, node: NodeId, out: &mut Vec<NodeId>) -> Result<(), OutOfMemory>
    ensures { OnOk result (numbers_in out.new.items ≡ numbers_in out.old.items ++ number_if is_refused node.0) }
{
    if is_refused {
        out.push(node)?;
    }
    Ok(())
}

/// Adds the storage of the accessor, if its name follows from its key alone.
fn add_storage(
    rules: FieldRules,
    node: &Node,
    storage: Name,
    names: &mut UidNames,
) -> Result<(), OutOfMemory>
    requires { name_bytes storage ≡ storage_text (node_doc node.now) }
    ensures { OnOk result (names.new
        ≡ with_name (own_storage (rules_view rules.entry) (node_doc node.now)) names.old) }
{
    if has_plain_storage(rules, node) {
        names.take(storage.as_str())
    } else {
        Ok(())
    }
}

/// Whether the accessor is refused, whose storage would have that name: it is no ASCII identifier, or is taken, or the key is
/// read as an alias where a name is reserved.
fn is_accessor_refused(
    rules: FieldRules,
    is_reserved: bool,
    names: &UidNames,
    storage: &str,
    node: &Node,
) -> bool
    ensures { result ≡ is_accessor_refused (rules_view rules.entry) is_reserved names.now storage.now
        node.now.kind (docs_in node.now.parts.items) }
{
    !is_plain(storage)
        || (is_taken(rules, is_reserved, names, storage, node)
            || (is_reserved && has_alias_key(rules, node)))
}

/// Whether each byte of the name is one that an ASCII identifier has.
fn is_plain(name: &str) -> bool
    ensures { result ≡ is_plain name.now }
{
    name.as_bytes()
        .iter()
        .all(|byte| is_within_identifier(*byte))
}

/// Whether the byte is an ASCII letter, `_`, `$` or a digit.
fn is_within_identifier(byte: u8) -> bool
    ensures { result ≡ is_within_identifier byte }
{
    is_letter(byte) || (b'0' <= byte && byte <= b'9')
}

/// Whether the byte is an ASCII letter, `_` or `$`.
fn is_letter(byte: u8) -> bool
    ensures { result ≡ is_letter byte }
{
    (b'a' <= byte && byte <= b'z')
        || ((b'A' <= byte && byte <= b'Z') || (byte == b'_' || byte == b'$'))
}

/// Whether the name of the storage is taken: by one of the names, or, where a temporary is in it, by a reserved one.
fn is_taken(
    rules: FieldRules,
    is_reserved: bool,
    names: &UidNames,
    storage: &str,
    node: &Node,
) -> bool
    ensures { result ≡ is_taken (rules_view rules.entry) is_reserved names.now storage.now
        node.now.kind (docs_in node.now.parts.items) }
{
    if keeps_key(rules, node) {
        is_reserved
    } else {
        names.has(storage)
    }
}

/// Whether the node is a setter whose key is read as an alias where a name is reserved.
fn is_setter_refused(rules: FieldRules, is_reserved: bool, node: &Node) -> bool
    ensures { result ≡ is_setter_refused (rules_view rules.entry) is_reserved
        node.now.kind (docs_in node.now.parts.items) }
{
    is_setter(node) && (is_reserved && has_alias_key(rules, node))
}

/// Whether the node is a setter that is not erased.
fn is_setter(node: &Node) -> bool
    ensures { result ≡ is_setter node.now.kind (docs_in node.now.parts.items) }
{
    node.kind.is(Kind::MethodDefinition)
        && (node.holds_text(Field::Kind, "set") && !is_dropped(node))
}
