//! The empty fields of parameters that are properties.
ghost use Rattle.std.specs.Prelude.{◌≡◌, OnOk, length};
ghost use Rattle.oxt_stores.specs.Frame.{frames};
ghost use Rattle.oxt_ctx.specs.Made.{but_names_of};

use crate::elements::elements_mut;
use crate::params::{name_of, property_pattern};
use oxt_ctx::context::TraverseCtx;
use oxt_ctx::functions::field;
use oxt_ctx::nodes::property_name;
use oxt_fields::class::{constructor_of, elements_of, parameters_of};
use oxt_grammar::field::Field;
use oxt_grammar::kind::Kind;
use oxt_names::ids::{NodeIds, OutOfMemory};
use oxt_names::name::Name;
use oxt_tree::tree::{Node, Part};
use std::alloc::Global;
use std::collections::HashSet;
use std::mem;

/// Puts an empty field in front of the elements of the class for each parameter that is a property, unless
/// an instance field or accessor has that name already.
///
/// # Errors
///
/// `OutOfMemory` for want of memory or of numbers alone.
pub fn add_parameter_property_fields(
    class: &mut Node,
    ctx: &mut TraverseCtx,
) -> Result<(), OutOfMemory>
    ensures frame { OnOk result (ctx.new ≡ but_names_of ctx.old ctx.new) }
    ensures depth { OnOk result
        (length (frames ctx.new.declarations) ≡ length (frames ctx.old.declarations)) }
{
    let fields = property_fields(ctx.memory(), class, &mut ctx.ids)?;
    match elements_mut(class) {
        Some(elements) => put_first(elements, fields),
        None => Ok(()),
    }
}

/// Puts the fields in front of the elements.
fn put_first(elements: &mut Vec<Part>, mut fields: Vec<Part>) -> Result<(), OutOfMemory> {
    fields.append(elements)?;
    mem::swap(elements, &mut fields);
    Ok(())
}

/// The empty fields of the parameters that are properties.
fn property_fields(
    alloc: Global,
    class: &Node,
    ids: &mut NodeIds,
) -> Result<Vec<Part>, OutOfMemory> {
    let elements = elements_of(class);
    match constructor_of(elements) {
        Some(constructor) => {
            let mut taken = HashSet::new(alloc);
            take_names(elements, &mut taken)?;
            fields_of(alloc, parameters_of(constructor), &mut taken, ids)
        }
        None => Ok(Vec::new(alloc)),
    }
}

/// Notes the names that the instance fields and accessors among the elements have.
fn take_names<'a>(elements: &'a [Part], taken: &mut HashSet<&'a str>) -> Result<(), OutOfMemory> {
    for element in elements {
        if let Some(name) = field_name(element) {
            taken.insert(name)?;
        }
    }
    Ok(())
}

/// The name that the element has, if it is an instance field or accessor with a name.
fn field_name(element: &Part) -> Option<&str> {
    match element {
        Part::Node(node) if is_instance(node) => named_key(node.child(Field::Key)?),
        _ => None,
    }
}

/// The name that the key is, if it is one.
fn named_key(key: &Node) -> Option<&str> {
    if key.kind.is(Kind::IdentifierName) {
        key.text(Field::Name)
    } else {
        None
    }
}

/// The empty fields of those among the parameters that are properties of names that are not taken yet.
fn fields_of<'a>(
    alloc: Global,
    params: &'a [Part],
    taken: &mut HashSet<&'a str>,
    ids: &mut NodeIds,
) -> Result<Vec<Part>, OutOfMemory> {
    let mut fields = Vec::new(alloc);
    for param in params {
        push_field(&mut fields, taken, param, ids)?;
    }
    Ok(fields)
}

/// Appends the field of the parameter, if it is a property of a name that is not taken yet.
fn push_field<'a>(
    fields: &mut Vec<Part>,
    taken: &mut HashSet<&'a str>,
    param: &'a Part,
    ids: &mut NodeIds,
) -> Result<(), OutOfMemory> {
    if let Some(pattern) = property_pattern(param) {
        if taken.insert(pattern.text(Field::Name).unwrap_or(""))? {
            let alloc = *fields.allocator();
            let name = name_of(alloc, pattern)?;
            let field = empty_field(alloc, &name, ids)?;
            fields.push(Part::Node(field))?;
        }
    }
    Ok(())
}

/// Whether the element is an instance field that is not only declared, or an instance accessor.
fn is_instance(element: &Node) -> bool {
    if element.kind.is(Kind::PropertyDefinition) {
        !element.flag(Field::Declare) && !element.flag(Field::Static)
    } else {
        element.kind.is(Kind::AccessorProperty) && !element.flag(Field::Static)
    }
}

/// `name;`.
fn empty_field(alloc: Global, name: &Name, ids: &mut NodeIds) -> Result<Node, OutOfMemory> {
    let key = property_name(alloc, name, ids)?;
    field(alloc, key, false, None, ids)
}
