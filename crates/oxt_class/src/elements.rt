//! The elements of a class and the parts of its constructor, to be changed in their places.

use oxt_ctx::parts::{child_mut, list_mut};
use oxt_fields::class::{get_super_call_position, statements_of};
use oxt_grammar::field::Field;
use oxt_grammar::kind::Kind;
use oxt_names::ids::OutOfMemory;
use oxt_tree::tree::{Node, Part};
use std::mem;

/// The elements of the class.
pub fn elements_mut<'a>(class: &'a mut Node) -> Option<&'a mut Vec<Part>> {
    list_mut(child_mut(class, Field::Body)?, Field::Body)
}

/// The parameters of the method but for the one that takes the rest.
pub fn parameters_mut<'a>(method: &'a mut Node) -> Option<&'a mut Vec<Part>> {
    let function = child_mut(method, Field::Value)?;
    list_mut(child_mut(function, Field::Params)?, Field::Items)
}

/// The statements of the method's body.
fn statements_mut<'a>(method: &'a mut Node) -> Option<&'a mut Vec<Part>> {
    let function = child_mut(method, Field::Value)?;
    list_mut(child_mut(function, Field::Body)?, Field::Statements)
}

/// The place of the constructor among the elements.
pub fn constructor_place(elements: &[Part]) -> Option<usize> {
    elements
        .iter()
        .position(|element| holds_constructor(element))
}

/// Whether the element is a constructor that has a body.
fn holds_constructor(element: &Part) -> bool {
    match element {
        Part::Node(node) => is_constructor(node),
        _ => false,
    }
}

/// Whether the element is a constructor that has a body.
pub fn is_constructor(element: &Node) -> bool {
    is_named_constructor(element) && element.holds_kind(Field::Value, Kind::FunctionExpression)
}

/// Whether the element is a constructor, which may lack a body.
pub fn is_named_constructor(element: &Node) -> bool {
    element.kind.is(Kind::MethodDefinition) && element.holds_text(Field::Kind, "constructor")
}

/// Puts the statements into the constructor, behind its call of `super` where it has one.
pub fn put_into(constructor: &mut Node, puts: &mut Vec<Part>) -> Result<(), OutOfMemory> {
    let place = get_super_call_position(statements_of(constructor));
    match statements_mut(constructor) {
        Some(statements) => insert_all(statements, place, puts),
        None => Ok(()),
    }
}

/// Puts the others at the place in the statements; at their end where there are fewer.
fn insert_all(
    statements: &mut Vec<Part>,
    place: usize,
    puts: &mut Vec<Part>,
) -> Result<(), OutOfMemory> {
    let alloc = *statements.allocator();
    let before = mem::replace(statements, Vec::new(alloc));
    for statement in before {
        if statements.len() == place {
            statements.append(puts)?;
        }
        statements.push(statement)?;
    }
    statements.append(puts)?;
    Ok(())
}
