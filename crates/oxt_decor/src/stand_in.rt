//! Fields that are only declared, but decorated.
//!
//! Such a field goes, but its decorators are applied, and its key is computed for that. While the class is walked a
//! private field without a value stands for it, which no other pass changes: it has the decorators of the field, and
//! behind them one more, whose expression lists the key and the value. The value is walked, though it goes, so that its
//! variables are declared as those of any value are.
//!
//! Before:
//!
//! ```ts
//! class Point {
//!     @noted declare [label()]: string = "point";
//! }
//! ```
//!
//! After, as its parts are walked:
//!
//! ```js
//! class Point {
//!     @noted @[label(), "point"] #;
//! }
//! ```
use crate::frame::ClassFrame;
use crate::parts::{as_node, elements_mut};
use oxt_ctx::nodes::{make, private_name};
use oxt_ctx::parts::{list_mut, put_field, take_node};
use oxt_declares::calls::is_called;
use oxt_grammar::field::Field;
use oxt_grammar::kind::Kind;
use oxt_names::ids::{NodeIds, OutOfMemory};
use oxt_names::name::Name;
use oxt_tree::tree::{Node, Part};
use std::alloc::Global;
use std::collections::HashSet;
use std::vec;

/// Puts the elements that stand for them in the places of the decorated fields of the class which are only declared,
/// if the class is a declaration.
pub fn put_stand_ins(
    alloc: Global,
    class: &mut Node,
    frame: &mut ClassFrame,
    ids: &mut NodeIds,
) -> Result<(), OutOfMemory> {
    match elements_mut(class) {
        Some(elements) if frame.is_declaration => {
            hide_each(alloc, elements.as_mut_slice(), &mut frame.stand_ins, ids)
        }
        _ => Ok(()),
    }
}

/// Does so among the elements, and notes their numbers.
fn hide_each(
    alloc: Global,
    elements: &mut [Part],
    stand_ins: &mut HashSet<u64>,
    ids: &mut NodeIds,
) -> Result<(), OutOfMemory> {
    for element in elements.iter_mut() {
        hide_part(alloc, element, stand_ins, ids)?;
    }
    Ok(())
}

/// Does so where the element is such a field.
fn hide_part(
    alloc: Global,
    element: &mut Part,
    stand_ins: &mut HashSet<u64>,
    ids: &mut NodeIds,
) -> Result<(), OutOfMemory> {
    match element {
        Part::Node(field) if is_hidden(field) => {
            stand_ins.insert(field.id.0)?;
            hide(alloc, field, ids)
        }
        _ => Ok(()),
    }
}

/// Whether the element is a decorated field that is only declared.
fn is_hidden(element: &Node) -> bool {
    element.kind.is(Kind::PropertyDefinition) && element.flag(Field::Declare) && is_called(element)
}

/// Makes the field one that stands for it.
fn hide(alloc: Global, field: &mut Node, ids: &mut NodeIds) -> Result<(), OutOfMemory> {
    let hidden = hidden_decorator(alloc, field, ids)?;
    if let Some(decorators) = list_mut(field, Field::Decorators) {
        decorators.push(Part::Node(hidden))?;
    }
    let name = Name::new(alloc, "")?;
    let key = private_name(alloc, &name, ids)?;
    put_field(field, Field::Key, Part::Node(key));
    put_field(field, Field::Declare, Part::Flag(false));
    Ok(())
}

/// Takes the key and the value of the field into a decorator.
fn hidden_decorator(
    alloc: Global,
    field: &mut Node,
    ids: &mut NodeIds,
) -> Result<Node, OutOfMemory> {
    let mut parts = Vec::new(alloc);
    push_taken(&mut parts, take_node(field, Field::Key))?;
    push_taken(&mut parts, take_node(field, Field::Value))?;
    let list = make(
        Kind::ArrayExpression,
        vec![in alloc; Part::List(parts)]?,
        ids,
    )?;
    make(Kind::Decorator, vec![in alloc; Part::Node(list)]?, ids)
}

/// Appends the node, if there is one.
fn push_taken(parts: &mut Vec<Part>, taken: Option<Node>) -> Result<(), OutOfMemory> {
    if let Some(node) = taken {
        parts.push(Part::Node(node))?;
    }
    Ok(())
}

/// Puts the key back into the field, if it stands for one.
pub fn show_key(field: &mut Node, stand_ins: &HashSet<u64>) {
    if stand_ins.contains(&field.id.0) {
        if let Some(key) = hidden_key(field) {
            put_field(field, Field::Key, Part::Node(key));
        }
    }
}

/// Takes the first of what the last of the decorators lists; the decorator goes.
fn hidden_key(field: &mut Node) -> Option<Node> {
    let mut decorator = as_node(list_mut(field, Field::Decorators)?.pop()?)?;
    let mut list = take_node(&mut decorator, Field::Expression)?;
    let parts = list_mut(&mut list, Field::Elements)?;
    parts.truncate(1);
    as_node(parts.pop()?)
}

/// Drops the elements of the class that stand for fields.
pub fn drop_stand_ins(class: &mut Node, stand_ins: &HashSet<u64>) {
    if stand_ins.is_empty() {
        return;
    }
    if let Some(elements) = elements_mut(class) {
        elements.retain(|element| !is_stand_in(element, stand_ins));
    }
}

/// Whether the element is one.
fn is_stand_in(element: &Part, stand_ins: &HashSet<u64>) -> bool {
    match element {
        Part::Node(node) => stand_ins.contains(&node.id.0),
        _ => false,
    }
}
