//! Accessors.
//!
//! Before:
//!
//! ```ts
//! class Shape {
//!     @noted accessor size = 1;
//!     static accessor [unit()] = 2;
//! }
//! ```
//!
//! After:
//!
//! ```js
//! var _unit;
//! class Shape {
//!     #_size_accessor_storage = 1;
//!     @noted get size() { return this.#_size_accessor_storage; }
//!     set size(value) { this.#_size_accessor_storage = value; }
//!     static #__unit_computed_accessor_storage = 2;
//!     static get [_unit = unit()]() { return Shape.#__unit_computed_accessor_storage; }
//!     static set [_unit](value) { Shape.#__unit_computed_accessor_storage = value; }
//! }
//! ```
ghost use Rattle.std.specs.Prelude.{◌≡◌, ◌<◌, OnOk, length};
ghost use Rattle.oxt_stores.specs.Frame.{frames};

use crate::class::put_name;
use crate::frame::ClassFrame;
use crate::key::is_name;
use crate::names::{made_name, use_of};
use crate::parts::{elements_mut, take_list};
use oxt_ctx::accessor::{create_getter, create_setter};
use oxt_ctx::block::scope_of_class;
use oxt_ctx::context::TraverseCtx;
use oxt_ctx::functions::field;
use oxt_ctx::keys::{copy_key, duplicate_expression, key_needs_temp_var};
use oxt_ctx::maybe::MaybeBoundIdentifier;
use oxt_ctx::nodes::{private_member, private_name, this_expression};
use oxt_ctx::parts::{child_mut, put_field, take_node};
use oxt_declares::calls::calls_any;
use oxt_declares::class::elements_of;
use oxt_fields::statics::has_static_accessor;
use oxt_fields::storage::storage_text;
use oxt_grammar::field::Field;
use oxt_grammar::kind::Kind;
use oxt_names::flags::ReferenceFlags;
use oxt_names::ids::{NodeIds, OutOfMemory};
use oxt_names::name::Name;
use oxt_tree::tree::{Node, Part};
use std::alloc::Global;
use std::mem;

/// Puts a private field, a getter and a setter in the place of each accessor of the class. A class without a name
/// that has a static one gets a name.
pub fn lower_accessors(
    class: &mut Node,
    frame: &mut ClassFrame,
    ctx: &mut TraverseCtx,
) -> Result<(), OutOfMemory>
    requires { 0 < length (frames ctx.old.declarations) }
    ensures around { OnOk result (ctx.new.ancestors ≡ ctx.old.ancestors) }
    ensures depth { OnOk result
        (length (frames ctx.new.declarations) ≡ length (frames ctx.old.declarations)) }
{
    if !elements_of(class)
        .iter()
        .any(|element| is_accessor(element))
    {
        return Ok(());
    }
    name_class(class, frame, ctx)?;
    match elements_mut(class) {
        Some(elements) => lower_each(elements, frame, ctx),
        None => Ok(()),
    }
}

/// Whether the element is an accessor.
fn is_accessor(element: &Part) -> bool {
    element.is_kind(Kind::AccessorProperty)
}

/// Gives the class a name, if it has none and a static accessor.
fn name_class(
    class: &mut Node,
    frame: &mut ClassFrame,
    ctx: &mut TraverseCtx,
) -> Result<(), OutOfMemory>
    ensures around { OnOk result (ctx.new.ancestors ≡ ctx.old.ancestors) }
    ensures depth { OnOk result
        (length (frames ctx.new.declarations) ≡ length (frames ctx.old.declarations)) }
{
    if frame.own.is_some() || !has_static_accessor(elements_of(class)) {
        return Ok(());
    }
    let name = inner_name(class, frame, ctx)?;
    put_name(class, &name, ctx)?;
    frame.made_inside = Some(name);
    Ok(())
}

/// A name for the class: that by which its calls name it, where it has calls and is not itself decorated.
fn inner_name(
    class: &Node,
    frame: &mut ClassFrame,
    ctx: &mut TraverseCtx,
) -> Result<MaybeBoundIdentifier, OutOfMemory>
    ensures around { OnOk result (ctx.new.ancestors ≡ ctx.old.ancestors) }
    ensures depth { OnOk result
        (length (frames ctx.new.declarations) ≡ length (frames ctx.old.declarations)) }
{
    if frame.is_declaration && (!frame.is_decorated && calls_any(elements_of(class))) {
        frame.made_around(ctx)
    } else {
        made_name("class", class.id, true, ctx)
    }
}

/// Does so among the elements of the class.
fn lower_each(
    elements: &mut Vec<Part>,
    frame: &ClassFrame,
    ctx: &mut TraverseCtx,
) -> Result<(), OutOfMemory>
    requires { 0 < length (frames ctx.old.declarations) }
    ensures around { OnOk result (ctx.new.ancestors ≡ ctx.old.ancestors) }
    ensures depth { OnOk result
        (length (frames ctx.new.declarations) ≡ length (frames ctx.old.declarations)) }
{
    let empty = Vec::new(*elements.allocator());
    for element in mem::replace(elements, empty) {
        lower_element(element, elements, frame, ctx)?;
    }
    Ok(())
}

/// Appends the element to the others, or what stands for it where it is an accessor.
fn lower_element(
    element: Part,
    elements: &mut Vec<Part>,
    frame: &ClassFrame,
    ctx: &mut TraverseCtx,
) -> Result<(), OutOfMemory>
    requires { 0 < length (frames ctx.old.declarations) }
    ensures around { OnOk result (ctx.new.ancestors ≡ ctx.old.ancestors) }
    ensures depth { OnOk result
        (length (frames ctx.new.declarations) ≡ length (frames ctx.old.declarations)) }
{
    match element {
        Part::Node(node) if node.kind.is(Kind::AccessorProperty) => {
            lower_accessor(node, elements, frame, ctx)
        }
        element => {
            elements.push(element)?;
            Ok(())
        }
    }
}

/// Appends what stands for the accessor.
fn lower_accessor(
    mut accessor: Node,
    elements: &mut Vec<Part>,
    frame: &ClassFrame,
    ctx: &mut TraverseCtx,
) -> Result<(), OutOfMemory>
    requires { 0 < length (frames ctx.old.declarations) }
    ensures around { OnOk result (ctx.new.ancestors ≡ ctx.old.ancestors) }
    ensures depth { OnOk result
        (length (frames ctx.new.declarations) ≡ length (frames ctx.old.declarations)) }
{
    let field = storage_text(ctx.memory(), &accessor)?;
    match take_node(&mut accessor, Field::Key) {
        Some(key) => {
            let keys = keys_of(key, field, ctx)?;
            push_lowered(accessor, keys, elements, frame, ctx)
        }
        None => Ok(()),
    }
}

/// The keys of what stands for an accessor.
#[derive(Drop)]
struct Keys {
    /// That of the getter.
    getter: Node,
    /// That of the setter.
    setter: Node,
    /// The name of the private field.
    field: Name,
}

/// The keys of what stands for an accessor with that key, where the field has that name unless the key is put into a
/// variable.
fn keys_of(key: Node, field: Name, ctx: &mut TraverseCtx) -> Result<Keys, OutOfMemory>
    requires { 0 < length (frames ctx.old.declarations) }
    ensures around { OnOk result (ctx.new.ancestors ≡ ctx.old.ancestors) }
    ensures depth { OnOk result
        (length (frames ctx.new.declarations) ≡ length (frames ctx.old.declarations)) }
{
    if is_name(&key) {
        let setter = copy_key(&key, ctx)?;
        Ok(Keys {
            getter: key,
            setter,
            field,
        })
    } else {
        computed_keys(key, field, ctx)
    }
}

/// The same of a key that is an expression.
fn computed_keys(key: Node, field: Name, ctx: &mut TraverseCtx) -> Result<Keys, OutOfMemory>
    requires { 0 < length (frames ctx.old.declarations) }
    ensures around { OnOk result (ctx.new.ancestors ≡ ctx.old.ancestors) }
    ensures depth { OnOk result
        (length (frames ctx.new.declarations) ≡ length (frames ctx.old.declarations)) }
{
    let alloc = ctx.memory();
    let is_kept = key_needs_temp_var(&key, ctx);
    let (getter, setter) = duplicate_expression(key, ctx)?;
    let field = stored_under(alloc, is_kept, &setter, field)?;
    Ok(Keys {
        getter,
        setter,
        field,
    })
}

/// The name of the private field, which is another where the key is put into that variable.
fn stored_under(
    alloc: Global,
    is_kept: bool,
    variable: &Node,
    field: Name,
) -> Result<Name, OutOfMemory> {
    if is_kept {
        kept_storage(alloc, variable)
    } else {
        Ok(field)
    }
}

/// The name of the private field of an accessor whose key is put into that variable.
fn kept_storage(alloc: Global, variable: &Node) -> Result<Name, OutOfMemory> {
    let mut text = String::new(alloc);
    text.push_str("_")?;
    text.push_str(variable.text(Field::Name).unwrap_or(""))?;
    text.push_str("_computed_accessor_storage")?;
    Name::from_string(text)
}

/// Appends what stands for the accessor, which has lost its key.
fn push_lowered(
    mut accessor: Node,
    keys: Keys,
    elements: &mut Vec<Part>,
    frame: &ClassFrame,
    ctx: &mut TraverseCtx,
) -> Result<(), OutOfMemory>
    ensures around { OnOk result (ctx.new.ancestors ≡ ctx.old.ancestors) }
    ensures depth { OnOk result
        (length (frames ctx.new.declarations) ≡ length (frames ctx.old.declarations)) }
{
    let Keys {
        getter,
        setter,
        field,
    } = keys;
    push_field(&mut accessor, &field, elements, &mut ctx.ids)?;
    push_getter(&mut accessor, getter, &field, elements, frame, ctx)?;
    push_setter(&accessor, setter, &field, elements, frame, ctx)
}

/// Appends the private field of that name, which gets the value of the accessor.
fn push_field(
    accessor: &mut Node,
    name: &Name,
    elements: &mut Vec<Part>,
    ids: &mut NodeIds,
) -> Result<(), OutOfMemory> {
    let alloc = *elements.allocator();
    let key = private_name(alloc, name, ids)?;
    let value = take_node(accessor, Field::Value);
    let kept = field(alloc, key, accessor.flag(Field::Static), value, ids)?;
    elements.push(Part::Node(kept))?;
    Ok(())
}

/// `object.#field`, where the object is the class or `this`.
fn storage_of(
    accessor: &Node,
    name: &Name,
    frame: &ClassFrame,
    ctx: &mut TraverseCtx,
) -> Result<Node, OutOfMemory>
    ensures around { OnOk result (ctx.new.ancestors ≡ ctx.old.ancestors) }
    ensures depth { OnOk result
        (length (frames ctx.new.declarations) ≡ length (frames ctx.old.declarations)) }
{
    let alloc = ctx.memory();
    let object = object_of(accessor, frame, ctx)?;
    let key = private_name(alloc, name, &mut ctx.ids)?;
    private_member(alloc, object, key, &mut ctx.ids)
}

/// The object that keeps the value of the accessor.
fn object_of(
    accessor: &Node,
    frame: &ClassFrame,
    ctx: &mut TraverseCtx,
) -> Result<Node, OutOfMemory>
    ensures around { OnOk result (ctx.new.ancestors ≡ ctx.old.ancestors) }
    ensures depth { OnOk result
        (length (frames ctx.new.declarations) ≡ length (frames ctx.old.declarations)) }
{
    match frame.name_inside() {
        Some(class) if accessor.flag(Field::Static) => use_of(class, ReferenceFlags::Read, ctx),
        _ => this_expression(ctx.memory(), &mut ctx.ids),
    }
}

/// Appends the getter, which has the number, the decorators and the type of the accessor.
fn push_getter(
    accessor: &mut Node,
    key: Node,
    field: &Name,
    elements: &mut Vec<Part>,
    frame: &ClassFrame,
    ctx: &mut TraverseCtx,
) -> Result<(), OutOfMemory>
    ensures around { OnOk result (ctx.new.ancestors ≡ ctx.old.ancestors) }
    ensures depth { OnOk result
        (length (frames ctx.new.declarations) ≡ length (frames ctx.old.declarations)) }
{
    let mut getter = getter_of(accessor, key, field, frame, ctx)?;
    getter.id = accessor.id;
    let decorators = take_list(ctx.memory(), accessor, Field::Decorators);
    put_field(&mut getter, Field::Decorators, Part::List(decorators));
    put_type(&mut getter, accessor);
    elements.push(Part::Node(getter))?;
    Ok(())
}

/// The getter, with that key, of the field of that name.
fn getter_of(
    accessor: &Node,
    key: Node,
    field: &Name,
    frame: &ClassFrame,
    ctx: &mut TraverseCtx,
) -> Result<Node, OutOfMemory>
    ensures around { OnOk result (ctx.new.ancestors ≡ ctx.old.ancestors) }
    ensures depth { OnOk result
        (length (frames ctx.new.declarations) ≡ length (frames ctx.old.declarations)) }
{
    let storage = storage_of(accessor, field, frame, ctx)?;
    let (is_static, is_computed) = (accessor.flag(Field::Static), accessor.flag(Field::Computed));
    let scope = scope_of_class(frame.class, ctx);
    create_getter(is_static, key, is_computed, storage, scope, ctx)
}

/// Makes the type of the accessor, which loses it, that of what the getter returns.
fn put_type(getter: &mut Node, accessor: &mut Node) {
    if let Some(annotation) = take_node(accessor, Field::TypeAnnotation) {
        if let Some(function) = child_mut(getter, Field::Value) {
            put_field(function, Field::ReturnType, Part::Node(annotation));
        }
    }
}

/// Appends the setter.
fn push_setter(
    accessor: &Node,
    key: Node,
    field: &Name,
    elements: &mut Vec<Part>,
    frame: &ClassFrame,
    ctx: &mut TraverseCtx,
) -> Result<(), OutOfMemory>
    ensures around { OnOk result (ctx.new.ancestors ≡ ctx.old.ancestors) }
    ensures depth { OnOk result
        (length (frames ctx.new.declarations) ≡ length (frames ctx.old.declarations)) }
{
    let storage = storage_of(accessor, field, frame, ctx)?;
    let (is_static, is_computed) = (accessor.flag(Field::Static), accessor.flag(Field::Computed));
    let scope = scope_of_class(frame.class, ctx);
    let setter = create_setter(is_static, key, is_computed, storage, scope, ctx)?;
    elements.push(Part::Node(setter))?;
    Ok(())
}
