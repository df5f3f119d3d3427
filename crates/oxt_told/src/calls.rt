//! What is told of the elements of a class: what becomes of each, and the call that it gives.
ghost use Rattle.std.specs.Prelude.{◌≡◌, IfOk, OnOk, Some, false, true, count_by, option_map};
ghost use Rattle.std.specs.BTreeMap.{insert_entry};
ghost use Rattle.std.specs.Ordering.{nat_cmp};
ghost use Rattle.oxt_facts.specs.Told.{accessing_view, calling_view, holder_view, moves, storage_view, use_view};
ghost use Rattle.oxt_fields.specs.Fates.{fate, needs_temporary};
ghost use Rattle.oxt_fields.specs.Rules.{rules_view};
ghost use Rattle.oxt_told.specs.Calls.{accessing_of, accessor_needs_tag, accessor_told, call_of, called_told, calling_of, common_of, common_view, element_by, element_told, elements_told, fate_told, field_told, gone_told, has_expression_key, holder_by, holder_of, is_last, is_method, is_waiting, key_in, method_needs_tag, moving_of, needs_tag, staying_needs_tag, storage_by, storage_of, takers, takers_behind, takes_keys, waits_behind, waits_last};
ghost use Rattle.oxt_told.specs.Source.{all_told};
ghost use Rattle.oxt_names.specs.Names.{name_bytes};
ghost use Rattle.oxt_tree.specs.View.{docs_in, node_doc, part_doc};

use crate::lowering::Lowering;
use crate::metadata::element_described;
use crate::tags::{callee, object_use, share_use, tag_of_key};
use crate::told::Source;
use oxt_declares::calls::is_called;
use oxt_facts::told::{
    Told, ToldAccessor, ToldCall, ToldElement, ToldField, ToldNodes, ToldObject, ToldStorage,
    ToldUse,
};
use oxt_fields::class::elements_of;
use oxt_fields::fate::{Fate, fate_of, hoists_private, needs_call_temporary, needs_temporary};
use oxt_fields::rules::FieldRules;
use oxt_fields::storage::storage_text;
use oxt_grammar::field::Field;
use oxt_grammar::kind::Kind;
use oxt_names::ids::{NodeId, OutOfMemory};
use oxt_names::name::Name;
use oxt_tree::tree::{Node, Part};
use std::alloc::Global;

/// What the elements of a class have in common.
#[derive(Drop)]
pub struct Shared {
    /// The name by which their calls call the class.
    pub callee: Option<ToldUse>,
    /// The name of the object on which its static accessors keep their values.
    pub object: Option<ToldUse>,
    /// Whether private instance fields move.
    pub hoists: bool,
    /// Whether the class's alias is kept in front of the keys that no later key takes.
    pub has_front: bool,
}

/// What the elements of the class have in common.
pub fn shared_of(source: &Source, lowering: Lowering, class: &Node) -> Result<Shared, OutOfMemory>
    ensures { IfOk result (λ shared. common_view shared
        ≡ common_of source.now.scoping.now lowering class.now.id.0 (node_doc class.now)) }
{
    Ok(Shared {
        callee: callee(source, lowering, class)?,
        object: object_use(source, lowering, class)?,
        hoists: hoists_private(elements_of(class)),
        has_front: lowering.has_front,
    })
}

/// Tells of the elements, which have that in common.
#[tactic(auto, using(crate::proofs::Callers::element_done))]
pub fn tell_elements(
    source: &Source,
    shared: &Shared,
    elements: &[Part],
    told: &mut ToldNodes,
) -> Result<(), OutOfMemory>
    ensures { OnOk result (told.new ≡ all_told told.old
        (elements_told (rules_view source.now.rules) (common_view shared.now) false (docs_in elements.now))) }
{
    let mut left = takers(elements);
    let mut waiting = false;
    for element in elements {
        left = takers_behind(element, left);
        let is_last = is_last(shared.has_front, left);
        tell_element(source, shared, waiting, is_last, element, told)?;
        waiting = waits_behind(source.rules, shared.hoists, waiting, element);
    }
    Ok(())
}

/// Whether the class's alias is kept in front of keys that wait where as many elements are left that take such.
fn is_last(has_front: bool, left: usize) -> bool
    ensures { result ≡ is_last has_front left }
{
    has_front && left == 0
}

/// How many of the elements take keys that wait in front of them.
#[tactic(auto, using(crate::proofs::Callers::takers_counted))]
fn takers(elements: &[Part]) -> usize
    ensures { result ≡ takers (docs_in elements.now) }
{
    count_takers(elements)
}

/// The same.
fn count_takers(elements: &[Part]) -> usize
    ensures { result ≡ count_by (λ element. takes_keys (part_doc element)) elements.now }
{
    elements
        .iter()
        .filter(|element| takes_keys(element))
        .count()
}

/// How many of as many elements that take keys are left behind the element.
fn takers_behind(element: &Part, left: usize) -> usize
    ensures { result ≡ takers_behind (part_doc element.now) left }
{
    if takes_keys(element) {
        left.saturating_sub(1)
    } else {
        left
    }
}

/// Whether keys wait behind the element, in front of which they wait or not.
fn waits_behind(rules: FieldRules, hoists: bool, waiting: bool, element: &Part) -> bool
    ensures { result ≡ waits_behind (rules_view rules.entry) hoists waiting (part_doc element.now) }
{
    !takes_keys(element) && (waiting || has_waiting_key(rules, hoists, element))
}

/// Whether the key of the element waits for a later key.
fn has_waiting_key(rules: FieldRules, hoists: bool, element: &Part) -> bool
    ensures { result ≡ is_waiting (fate (rules_view rules.entry) hoists (part_doc element.now)) }
{
    match element {
        Part::Node(node) => is_waiting(fate_of(rules, hoists, node)),
        _ => false,
    }
}

/// Whether the key of a field with that fate waits.
fn is_waiting(outcome: Fate) -> bool
    ensures { result ≡ is_waiting outcome }
{
    match outcome {
        Fate::Stays => false,
        Fate::Goes => false,
        Fate::LeavesKey => true,
        Fate::Moves { has_temporary, .. } => has_temporary,
    }
}

/// Whether the element takes the keys that wait in front of its own: it is a method or an accessor whose key is an expression.
fn takes_keys(element: &Part) -> bool
    ensures { result ≡ takes_keys (part_doc element.now) }
{
    match element {
        Part::Node(node) => node_takes_keys(node),
        _ => false,
    }
}

/// The same of a node.
fn node_takes_keys(node: &Node) -> bool
    ensures { result ≡ takes_keys (node_doc node.now) }
{
    (node.kind.is(Kind::AccessorProperty) || is_method(node)) && has_expression_key(node)
}

/// Whether the node is a method that is no constructor and has a body.
fn is_method(node: &Node) -> bool
    ensures { result ≡ is_method (node_doc node.now) }
{
    node.kind.is(Kind::MethodDefinition)
        && (!node.holds_text(Field::Kind, "constructor")
            && node.holds_kind(Field::Value, Kind::FunctionExpression))
}

/// Whether the key of the element is an expression.
fn has_expression_key(node: &Node) -> bool
    ensures { result ≡ has_expression_key (node_doc node.now) }
{
    !node.holds_kind(Field::Key, Kind::IdentifierName)
        && !node.holds_kind(Field::Key, Kind::PrivateIdentifier)
}

/// Tells of the element, in front of which keys wait or not, and whose own key is read behind the class's alias if it waits and
/// is one of the last.
fn tell_element(
    source: &Source,
    shared: &Shared,
    waiting: bool,
    is_last: bool,
    element: &Part,
    told: &mut ToldNodes,
) -> Result<(), OutOfMemory>
    ensures { OnOk result (told.new ≡ all_told told.old
        (element_told (rules_view source.now.rules) (common_view shared.now) waiting is_last (part_doc element.now))) }
{
    match element {
        Part::Node(node) => tell_node(source, shared, waiting, is_last, node, told),
        _ => Ok(()),
    }
}

/// The same of a node.
fn tell_node(
    source: &Source,
    shared: &Shared,
    waiting: bool,
    is_last: bool,
    node: &Node,
    told: &mut ToldNodes,
) -> Result<(), OutOfMemory>
    ensures { OnOk result (told.new ≡ all_told told.old
        (element_by (rules_view source.now.rules) (common_view shared.now) waiting is_last node.now.id.0
        (node_doc node.now))) }
{
    if node.kind.is(Kind::PropertyDefinition) {
        tell_field(source, shared, is_last, node, told)
    } else if node.kind.is(Kind::MethodDefinition) {
        tell_method(source, shared, waiting, node, told)
    } else if node.kind.is(Kind::AccessorProperty) {
        tell_accessor(source, shared, waiting, node, told)
    } else {
        Ok(())
    }
}

/// Tells of the method, if it gives a call.
fn tell_method(
    source: &Source,
    shared: &Shared,
    waiting: bool,
    node: &Node,
    told: &mut ToldNodes,
) -> Result<(), OutOfMemory>
    ensures { OnOk result (told.new ≡ all_told told.old (called_told node.now.id.0 true
        (call_of (rules_view source.now.rules) (option_map use_view shared.now.callee)
        (method_needs_tag (rules_view source.now.rules) waiting (node_doc node.now)) (node_doc node.now)))) }
{
    let needs_tag = method_needs_tag(source.rules, waiting, node);
    tell_call(source, shared, true, needs_tag, node, told)
}

/// Tells of the element, which stays or not, if it gives a call. Its key may have a temporary.
fn tell_call(
    source: &Source,
    shared: &Shared,
    stays: bool,
    has_temporary: bool,
    node: &Node,
    told: &mut ToldNodes,
) -> Result<(), OutOfMemory>
    ensures { OnOk result (told.new ≡ all_told told.old (called_told node.now.id.0 stays
        (call_of (rules_view source.now.rules) (option_map use_view shared.now.callee) has_temporary (node_doc node.now)))) }
{
    let call = call_of(source, shared, has_temporary, node)?;
    tell_called(node.id, stays, call, told)
}

/// Tells of the element of that number, which stays or not, and gives that call, if it gives one.
fn tell_called(
    node: NodeId,
    stays: bool,
    call: Option<ToldCall>,
    told: &mut ToldNodes,
) -> Result<(), OutOfMemory>
    ensures { OnOk result (told.new
        ≡ all_told told.old (called_told node.0 stays (option_map calling_view call))) }
{
    match call {
        Some(call) => told.tell(node, Told::Called(ToldElement { call, stays })),
        None => Ok(()),
    }
}

/// The call that the element gives, if its class has a name by which calls call it.
fn call_of(
    source: &Source,
    shared: &Shared,
    has_temporary: bool,
    node: &Node,
) -> Result<Option<ToldCall>, OutOfMemory>
    ensures { IfOk result (λ call. option_map calling_view call
        ≡ call_of (rules_view source.now.rules) (option_map use_view shared.now.callee) has_temporary (node_doc node.now)) }
{
    match &shared.callee {
        Some(callee) => call_by(source, callee, has_temporary, node),
        None => Ok(None),
    }
}

/// The same by that name.
fn call_by(
    source: &Source,
    callee: &ToldUse,
    has_temporary: bool,
    node: &Node,
) -> Result<Option<ToldCall>, OutOfMemory>
    ensures { IfOk result (λ call. option_map calling_view call
        ≡ call_of (rules_view source.now.rules) (Some (use_view callee.now)) has_temporary (node_doc node.now)) }
{
    if is_called(node) {
        Ok(Some(calling_of(source, callee, has_temporary, node)?))
    } else {
        Ok(None)
    }
}

/// The call by that name of the element, whose key may have a temporary of its own.
fn calling_of(
    source: &Source,
    callee: &ToldUse,
    has_temporary: bool,
    node: &Node,
) -> Result<ToldCall, OutOfMemory>
    ensures { IfOk result (λ call. calling_view call
        ≡ calling_of (rules_view source.now.rules) (use_view callee.now) has_temporary (node_doc node.now)) }
{
    Ok(ToldCall {
        class: share_use(callee)?,
        is_static: node.flag(Field::Static),
        is_private: node.holds_kind(Field::Key, Kind::PrivateIdentifier),
        is_field: node.kind.is(Kind::PropertyDefinition),
        tag: tag_of_key(source.alloc, "m", has_temporary, node.field(Field::Key))?,
        metadata: element_described(source, node)?,
    })
}

/// Whether the key of the call that the element gives needs a temporary.
fn needs_tag(rules: FieldRules, node: &Node) -> bool
    ensures { result ≡ needs_tag (rules_view rules.entry) (node_doc node.now) }
{
    match node.field(Field::Key) {
        Some(Part::Node(key)) => needs_call_temporary(rules, key),
        _ => false,
    }
}

/// The same of a method, in front of which keys wait or not: it has one too where it takes such.
fn method_needs_tag(rules: FieldRules, waiting: bool, node: &Node) -> bool
    ensures { result ≡ method_needs_tag (rules_view rules.entry) waiting (node_doc node.now) }
{
    (waiting && node_takes_keys(node)) || needs_tag(rules, node)
}

/// Whether the key of the element needs a temporary.
fn key_needs_temporary(rules: FieldRules, node: &Node) -> bool
    ensures { result ≡ needs_temporary (rules_view rules.entry) (key_in (node_doc node.now)) }
{
    match node.field(Field::Key) {
        Some(Part::Node(key)) => needs_temporary(rules, key),
        _ => false,
    }
}

/// Tells of the field, which may be only declared, and whose key is read behind the class's alias if it waits and is one of the
/// last.
fn tell_field(
    source: &Source,
    shared: &Shared,
    is_last: bool,
    node: &Node,
    told: &mut ToldNodes,
) -> Result<(), OutOfMemory>
    ensures { OnOk result (told.new ≡ all_told told.old
        (field_told (rules_view source.now.rules) (common_view shared.now) is_last node.now.id.0 (node_doc node.now))) }
{
    if node.flag(Field::Declare) {
        let needs_tag = needs_tag(source.rules, node);
        tell_call(source, shared, false, needs_tag, node, told)
    } else {
        let outcome = fate_of(source.rules, shared.hoists, node);
        tell_fate(source, shared, is_last, outcome, node, told)
    }
}

/// Tells of the field, which has that fate.
fn tell_fate(
    source: &Source,
    shared: &Shared,
    is_last: bool,
    outcome: Fate,
    node: &Node,
    told: &mut ToldNodes,
) -> Result<(), OutOfMemory>
    ensures { OnOk result (told.new ≡ all_told told.old
        (fate_told (rules_view source.now.rules) (option_map use_view shared.now.callee) is_last outcome node.now.id.0
        (node_doc node.now))) }
{
    match outcome {
        Fate::Stays => {
            let needs_tag = needs_tag(source.rules, node);
            tell_call(source, shared, true, needs_tag, node, told)
        }
        Fate::Goes => tell_going(source, shared, node, told),
        Fate::LeavesKey => told.tell(node.id, Told::LeavesKey(is_last)),
        Fate::Moves {
            stays,
            has_temporary,
        } => {
            let needs_tag = staying_needs_tag(source.rules, stays, node);
            let call = call_of(source, shared, needs_tag, node)?;
            let is_last = waits_last(has_temporary, is_last);
            tell_moving(
                source.alloc,
                stays,
                has_temporary,
                call,
                is_last,
                node,
                told,
            )
        }
    }
}

/// Whether the key of the call needs a temporary that the field gives, which may stay.
fn staying_needs_tag(rules: FieldRules, stays: bool, node: &Node) -> bool
    ensures { result ≡ staying_needs_tag (rules_view rules.entry) stays (node_doc node.now) }
{
    stays && needs_tag(rules, node)
}

/// Whether the key waits, and is one of the last.
fn waits_last(waits: bool, is_last: bool) -> bool
    ensures { result ≡ waits_last waits is_last }
{
    waits && is_last
}

/// Tells of the field, which goes, and may give a call.
fn tell_going(
    source: &Source,
    shared: &Shared,
    node: &Node,
    told: &mut ToldNodes,
) -> Result<(), OutOfMemory>
    ensures { OnOk result (told.new ≡ all_told told.old
        (gone_told node.now.id.0
        (call_of (rules_view source.now.rules) (option_map use_view shared.now.callee) false (node_doc node.now)))) }
{
    let call = call_of(source, shared, false, node)?;
    tell_gone(node.id, call, told)
}

/// Tells of the field of that number, which goes, and gives that call, if it gives one.
fn tell_gone(node: NodeId, call: Option<ToldCall>, told: &mut ToldNodes) -> Result<(), OutOfMemory>
    ensures { OnOk result (told.new
        ≡ all_told told.old (gone_told node.0 (option_map calling_view call))) }
{
    match call {
        Some(call) => told.tell(node, Told::Called(ToldElement { call, stays: false })),
        None => told.tell(node, Told::Gone),
    }
}

/// Tells of the field, which moves and may give a call.
fn tell_moving(
    alloc: Global,
    stays: bool,
    has_temporary: bool,
    call: Option<ToldCall>,
    is_last: bool,
    node: &Node,
    told: &mut ToldNodes,
) -> Result<(), OutOfMemory>
    ensures { OnOk result (told.new ≡ insert_entry nat_cmp told.old node.now.id.0
        (moves (moving_of stays has_temporary (option_map calling_view call) is_last (node_doc node.now)))) }
{
    let is_static = node.flag(Field::Static);
    let field = ToldField {
        is_static,
        stays,
        tag: tag_of_key(alloc, "k", has_temporary, node.field(Field::Key))?,
        call,
        is_last,
    };
    told.tell(node.id, Told::Moves(field))
}

/// Tells of the accessor, in front of which keys wait or not, where accessors are lowered.
fn tell_accessor(
    source: &Source,
    shared: &Shared,
    waiting: bool,
    node: &Node,
    told: &mut ToldNodes,
) -> Result<(), OutOfMemory>
    ensures { OnOk result (told.new ≡ all_told told.old
        (accessor_told (rules_view source.now.rules) (common_view shared.now) waiting node.now.id.0 (node_doc node.now))) }
{
    if source.rules.legacy {
        let needs_tag = accessor_needs_tag(source.rules, waiting, node);
        let call = call_of(source, shared, needs_tag, node)?;
        let accessor = accessing_of(source, shared, call, node)?;
        told.tell(node.id, Told::Accessor(accessor))
    } else {
        Ok(())
    }
}

/// Whether the key of the accessor's call needs a temporary: it has one too where its getter and its setter share one.
fn accessor_needs_tag(rules: FieldRules, waiting: bool, node: &Node) -> bool
    ensures { result ≡ accessor_needs_tag (rules_view rules.entry) waiting (node_doc node.now) }
{
    key_needs_temporary(rules, node) || method_needs_tag(rules, waiting, node)
}

/// What is told of the accessor, which may give that call.
fn accessing_of(
    source: &Source,
    shared: &Shared,
    call: Option<ToldCall>,
    node: &Node,
) -> Result<ToldAccessor, OutOfMemory>
    ensures { IfOk result (λ accessor. accessing_view accessor
        ≡ accessing_of (rules_view source.now.rules) (common_view shared.now) (option_map calling_view call) node.now.id.0
        (node_doc node.now)) }
{
    let (storage, object) = place_of(source, shared, node)?;
    Ok(ToldAccessor {
        is_static: node.flag(Field::Static),
        storage,
        object,
        value_group: node.id.0,
        moves: fate_of(source.rules, shared.hoists, node).is_moving(),
        call,
    })
}

/// Where the accessor keeps its value: the name of the field, and the object that has it.
fn place_of(
    source: &Source,
    shared: &Shared,
    node: &Node,
) -> Result<(ToldStorage, ToldObject), OutOfMemory>
    ensures storage { IfOk result (λ place. storage_view place.0
        ≡ storage_of (rules_view source.now.rules) (node_doc node.now)) }
    ensures object { IfOk result (λ place. holder_view place.1
        ≡ holder_of (option_map use_view shared.now.object) (node_doc node.now)) }
{
    let storage = storage_of(source.alloc, source.rules, node)?;
    let object = holder_of(shared, node)?;
    Ok((storage, object))
}

/// The name of the field in which the accessor keeps its value.
fn storage_of(alloc: Global, rules: FieldRules, node: &Node) -> Result<ToldStorage, OutOfMemory>
    ensures { IfOk result (λ storage. storage_view storage ≡ storage_of (rules_view rules.entry) (node_doc node.now)) }
{
    let has_temporary = key_needs_temporary(rules, node);
    let tag = tag_of_key(alloc, "k", has_temporary, node.field(Field::Key))?;
    storage_by(alloc, tag, node)
}

/// The same, where the value of its key is kept by that tag, if it is.
fn storage_by(alloc: Global, tag: Option<Name>, node: &Node) -> Result<ToldStorage, OutOfMemory>
    ensures { IfOk result (λ storage. storage_view storage
        ≡ storage_by (option_map name_bytes tag) (node_doc node.now)) }
{
    match tag {
        Some(tag) => Ok(ToldStorage::Kept(tag)),
        None => Ok(ToldStorage::Plain(storage_text(alloc, node)?)),
    }
}

/// The object on which the accessor keeps its value.
fn holder_of(shared: &Shared, node: &Node) -> Result<ToldObject, OutOfMemory>
    ensures { IfOk result (λ object. holder_view object
        ≡ holder_of (option_map use_view shared.now.object) (node_doc node.now)) }
{
    if node.flag(Field::Static) {
        holder_by(shared)
    } else {
        Ok(ToldObject::This)
    }
}

/// That of static accessors.
fn holder_by(shared: &Shared) -> Result<ToldObject, OutOfMemory>
    ensures { IfOk result (λ object. holder_view object ≡ holder_by (option_map use_view shared.now.object)) }
{
    match &shared.object {
        Some(name) => Ok(ToldObject::Use(share_use(name)?)),
        None => Ok(ToldObject::This),
    }
}
