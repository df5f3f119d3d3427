//! Classes with decorators, as they are left.
//!
//! Before:
//!
//! ```ts
//! @sealed class Shape {
//!     static unit = new Shape(1);
//!     constructor(@checked size) {}
//!     @noted draw() {}
//! }
//! ```
//!
//! After:
//!
//! ```js
//! var _Shape;
//! let Shape = class Shape {
//!     static { _Shape = this; }
//!     static unit = new _Shape(1);
//!     constructor(size) {}
//!     draw() {}
//! };
//! babelHelpers.decorate([noted], Shape.prototype, "draw", null);
//! Shape = _Shape = babelHelpers.decorate([sealed, babelHelpers.decorateParam(0, checked)], Shape);
//! ```
ghost use Rattle.std.specs.Prelude.{◌≡◌, ◌<◌, OnOk, length};
ghost use Rattle.oxt_stores.specs.Frame.{frames};

use crate::alias::ClassReferenceChanger;
use crate::calls::{decorate_call, push_parameter_decorators, take_decorators};
use crate::frame::ClassFrame;
use crate::metadata::push_constructor_metadata;
use crate::names::{live_symbol, use_of};
use crate::parts::elements_mut;
use crate::stand_in::drop_stand_ins;
use oxt_ctx::block::static_block;
use oxt_ctx::context::TraverseCtx;
use oxt_ctx::maybe::MaybeBoundIdentifier;
use oxt_ctx::nodes::{assignment, binding, statement, this_expression};
use oxt_ctx::parts::{child_mut, put_field};
use oxt_ctx::uid::create_uid_var;
use oxt_declares::class::is_constructor;
use oxt_grammar::field::Field;
use oxt_names::flags::ReferenceFlags;
use oxt_names::ids::{NodeId, OutOfMemory};
use oxt_stores::bound::BoundIdentifier;
use oxt_tree::tree::{Node, Part};
use std::vec;

/// What a class leaves for the hooks that follow.
#[derive(Drop)]
pub struct LeftClass {
    /// The calls that are to stand behind its statement.
    pub calls: Vec<Part>,
    /// What its statement becomes, where it is itself decorated.
    pub decorated: Option<DecoratedClass>,
}

/// What is known of a class that is itself decorated.
#[derive(Drop)]
pub struct DecoratedClass {
    /// The number of the class.
    pub class: NodeId,
    /// The name of its variable.
    pub name: MaybeBoundIdentifier,
    /// The name that its body uses, where the variable gives it its value.
    pub alias: Option<MaybeBoundIdentifier>,
}

/// Takes the decorators of the class and what was made for its elements. These are the types of the parameters of its
/// constructor, if metadata tells of them.
pub fn leave_class(
    class: &mut Node,
    frame: ClassFrame,
    types: Option<Node>,
    ctx: &mut TraverseCtx,
) -> Result<LeftClass, OutOfMemory>
    requires { 0 < length (frames ctx.old.declarations) }
    ensures around { OnOk result (ctx.new.ancestors ≡ ctx.old.ancestors) }
    ensures depth { OnOk result
        (length (frames ctx.new.declarations) ≡ length (frames ctx.old.declarations)) }
{
    drop_stand_ins(class, &frame.stand_ins);
    if frame.is_decorated {
        leave_decorated(class, frame, types, ctx)
    } else {
        leave_plain(class, frame, ctx)
    }
}

/// Does so for a class that is not itself decorated. One that has calls gets a name, if it has none.
fn leave_plain(
    class: &mut Node,
    mut frame: ClassFrame,
    ctx: &mut TraverseCtx,
) -> Result<LeftClass, OutOfMemory>
    ensures around { OnOk result (ctx.new.ancestors ≡ ctx.old.ancestors) }
    ensures depth { OnOk result
        (length (frames ctx.new.declarations) ≡ length (frames ctx.old.declarations)) }
{
    name_called(class, &mut frame, ctx)?;
    let calls = place_calls(class, frame, ctx)?;
    Ok(LeftClass {
        calls,
        decorated: None,
    })
}

/// Gives a class that has calls a name, if it has none.
fn name_called(
    class: &mut Node,
    frame: &mut ClassFrame,
    ctx: &mut TraverseCtx,
) -> Result<(), OutOfMemory>
    ensures around { OnOk result (ctx.new.ancestors ≡ ctx.old.ancestors) }
    ensures depth { OnOk result
        (length (frames ctx.new.declarations) ≡ length (frames ctx.old.declarations)) }
{
    if frame.calls.is_empty() || !class.lacks(Field::Id) {
        return Ok(());
    }
    let name = frame.name_around(ctx)?;
    put_name(class, &name, ctx)
}

/// Puts the name on the class.
pub fn put_name(
    class: &mut Node,
    name: &MaybeBoundIdentifier,
    ctx: &mut TraverseCtx,
) -> Result<(), OutOfMemory>
    ensures around { OnOk result (ctx.new.ancestors ≡ ctx.old.ancestors) }
    ensures depth { OnOk result
        (length (frames ctx.new.declarations) ≡ length (frames ctx.old.declarations)) }
{
    let name = binding(ctx.memory(), &name.name, &mut ctx.ids)?;
    put_field(class, Field::Id, Part::Node(name));
    Ok(())
}

/// Puts the calls of the elements into a static block at the end of the class, if they belong there; the calls that
/// do not.
fn place_calls(
    class: &mut Node,
    frame: ClassFrame,
    ctx: &mut TraverseCtx,
) -> Result<Vec<Part>, OutOfMemory>
    ensures around { OnOk result (ctx.new.ancestors ≡ ctx.old.ancestors) }
    ensures depth { OnOk result
        (length (frames ctx.new.declarations) ≡ length (frames ctx.old.declarations)) }
{
    let (calls, are_inside) = frame.into_calls();
    if calls.is_empty() || !are_inside {
        return Ok(calls);
    }
    let alloc = ctx.memory();
    let block = static_block(calls, class.id, ctx)?;
    if let Some(elements) = elements_mut(class) {
        elements.push(Part::Node(block))?;
    }
    Ok(Vec::new(alloc))
}

/// What a class that is itself decorated is called by.
#[derive(Drop)]
struct OwnNames {
    /// The name of its variable.
    name: MaybeBoundIdentifier,
    /// The name that its body uses.
    alias: Option<MaybeBoundIdentifier>,
}

/// Does so for a class that is itself decorated.
fn leave_decorated(
    class: &mut Node,
    mut frame: ClassFrame,
    types: Option<Node>,
    ctx: &mut TraverseCtx,
) -> Result<LeftClass, OutOfMemory>
    requires { 0 < length (frames ctx.old.declarations) }
    ensures around { OnOk result (ctx.new.ancestors ≡ ctx.old.ancestors) }
    ensures depth { OnOk result
        (length (frames ctx.new.declarations) ≡ length (frames ctx.old.declarations)) }
{
    let names = own_names(class, &mut frame, ctx)?;
    let own = names.call(class, types, ctx)?;
    leave_called(class, frame, names, own, ctx)
}

/// The names of the class, of which the alias is put in the place of the uses in its body.
fn own_names(
    class: &mut Node,
    frame: &mut ClassFrame,
    ctx: &mut TraverseCtx,
) -> Result<OwnNames, OutOfMemory>
    requires { 0 < length (frames ctx.old.declarations) }
    ensures around { OnOk result (ctx.new.ancestors ≡ ctx.old.ancestors) }
    ensures depth { OnOk result
        (length (frames ctx.new.declarations) ≡ length (frames ctx.old.declarations)) }
{
    let alias = rename_uses(class, frame, ctx)?;
    let name = frame.name_around(ctx)?;
    Ok(OwnNames { name, alias })
}

impl OwnNames {
    /// The statement that applies the decorators of the class, which it loses.
    fn call(
        &self,
        class: &mut Node,
        types: Option<Node>,
        ctx: &mut TraverseCtx,
    ) -> Result<Node, OutOfMemory>
        ensures around { OnOk result (ctx.new.ancestors ≡ ctx.old.ancestors) }
        ensures depth { OnOk result
            (length (frames ctx.new.declarations) ≡ length (frames ctx.old.declarations)) }
    {
        let decorators = own_decorators(class, types, ctx)?;
        own_call(decorators, &self.name, self.alias.as_ref(), ctx)
    }
}

/// Puts the calls of the elements where they belong, with the class's own call behind them.
fn leave_called(
    class: &mut Node,
    frame: ClassFrame,
    names: OwnNames,
    own: Node,
    ctx: &mut TraverseCtx,
) -> Result<LeftClass, OutOfMemory>
    ensures around { OnOk result (ctx.new.ancestors ≡ ctx.old.ancestors) }
    ensures depth { OnOk result
        (length (frames ctx.new.declarations) ≡ length (frames ctx.old.declarations)) }
{
    let (number, is_kept_inside) = (frame.class, frame.has_static_part);
    let calls = calls_with(class, frame, own, ctx)?;
    let OwnNames { name, alias } = names;
    let alias = keep_inside(class, alias, is_kept_inside, ctx)?;
    Ok(LeftClass {
        calls,
        decorated: Some(DecoratedClass {
            class: number,
            name,
            alias,
        }),
    })
}

/// The calls that are to stand behind the class, its own call last.
fn calls_with(
    class: &mut Node,
    frame: ClassFrame,
    own: Node,
    ctx: &mut TraverseCtx,
) -> Result<Vec<Part>, OutOfMemory>
    ensures around { OnOk result (ctx.new.ancestors ≡ ctx.old.ancestors) }
    ensures depth { OnOk result
        (length (frames ctx.new.declarations) ≡ length (frames ctx.old.declarations)) }
{
    let mut calls = place_calls(class, frame, ctx)?;
    calls.push(Part::Node(own))?;
    Ok(calls)
}

/// Renames the uses of the class in its body to a name that is made for them: none where its source has no such uses.
fn rename_uses(
    class: &mut Node,
    frame: &ClassFrame,
    ctx: &mut TraverseCtx,
) -> Result<Option<MaybeBoundIdentifier>, OutOfMemory>
    requires { 0 < length (frames ctx.old.declarations) }
    ensures around { OnOk result (ctx.new.ancestors ≡ ctx.old.ancestors) }
    ensures depth { OnOk result
        (length (frames ctx.new.declarations) ≡ length (frames ctx.old.declarations)) }
{
    match bound_inside(frame, ctx)? {
        Some(name) => rename_in_body(class, name, frame.has_alias, ctx),
        None => Ok(None),
    }
}

/// The name that stands on the class with what it is bound to, if there is one.
fn bound_inside(
    frame: &ClassFrame,
    ctx: &TraverseCtx,
) -> Result<Option<BoundIdentifier>, OutOfMemory> {
    match frame.name_inside() {
        Some(name) => bound(name, ctx),
        None => Ok(None),
    }
}

/// The name with what it is bound to, if it is.
fn bound(
    name: &MaybeBoundIdentifier,
    ctx: &TraverseCtx,
) -> Result<Option<BoundIdentifier>, OutOfMemory> {
    match live_symbol(name.symbol_id, &ctx.scoping) {
        Some(symbol_id) => Ok(Some(BoundIdentifier {
            name: name.name.share()?,
            symbol_id,
        })),
        None => Ok(None),
    }
}

/// Renames the uses of that name in the body of the class to one that is made for them. It is made too where it is
/// needed for uses that are gone.
fn rename_in_body(
    class: &mut Node,
    name: BoundIdentifier,
    is_needed: bool,
    ctx: &mut TraverseCtx,
) -> Result<Option<MaybeBoundIdentifier>, OutOfMemory>
    requires { 0 < length (frames ctx.old.declarations) }
    ensures around { OnOk result (ctx.new.ancestors ≡ ctx.old.ancestors) }
    ensures depth { OnOk result
        (length (frames ctx.new.declarations) ≡ length (frames ctx.old.declarations)) }
{
    let Some(body) = child_mut(class, Field::Body) else {
        return Ok(None);
    };
    let text = name.name.share()?;
    let changer = ClassReferenceChanger::new(name, ctx);
    match changer.get_class_alias_if_needed(body, ctx)? {
        Some(alias) => Ok(Some(unbound(alias))),
        None if is_needed => Ok(Some(unbound(create_uid_var(text.as_str(), ctx)?))),
        None => Ok(None),
    }
}

/// The name with what it is bound to, as one that may be free.
fn unbound(name: BoundIdentifier) -> MaybeBoundIdentifier {
    MaybeBoundIdentifier {
        name: name.name,
        symbol_id: Some(name.symbol_id),
    }
}

/// The decorators of the class and of the parameters of its constructor, which it loses, with the types of these last.
fn own_decorators(
    class: &mut Node,
    types: Option<Node>,
    ctx: &mut TraverseCtx,
) -> Result<Vec<Part>, OutOfMemory>
    ensures around { OnOk result (ctx.new.ancestors ≡ ctx.old.ancestors) }
    ensures depth { OnOk result
        (length (frames ctx.new.declarations) ≡ length (frames ctx.old.declarations)) }
{
    let mut decorators = take_decorators(ctx.memory(), class)?;
    push_constructor_decorators(&mut decorators, class, ctx)?;
    push_constructor_metadata(&mut decorators, types, ctx)?;
    Ok(decorators)
}

/// The statement that applies the decorators of the class: `name = alias = babelHelpers.decorate([decorators], name);`.
fn own_call(
    decorators: Vec<Part>,
    name: &MaybeBoundIdentifier,
    alias: Option<&MaybeBoundIdentifier>,
    ctx: &mut TraverseCtx,
) -> Result<Node, OutOfMemory>
    ensures around { OnOk result (ctx.new.ancestors ≡ ctx.old.ancestors) }
    ensures depth { OnOk result
        (length (frames ctx.new.declarations) ≡ length (frames ctx.old.declarations)) }
{
    let alloc = ctx.memory();
    let read = use_of(name, ReferenceFlags::Read, ctx)?;
    let call = decorate_call(decorators, vec![in alloc; read]?, ctx)?;
    let value = assigned(alias, call, ctx)?;
    let put = assigned(Some(name), value, ctx)?;
    statement(alloc, put, &mut ctx.ids)
}

/// Appends what the decorators of the parameters of the constructor of the class give, if it has one.
fn push_constructor_decorators(
    decorators: &mut Vec<Part>,
    class: &mut Node,
    ctx: &mut TraverseCtx,
) -> Result<(), OutOfMemory>
    ensures around { OnOk result (ctx.new.ancestors ≡ ctx.old.ancestors) }
    ensures depth { OnOk result
        (length (frames ctx.new.declarations) ≡ length (frames ctx.old.declarations)) }
{
    match constructor_mut(class) {
        Some(constructor) => push_parameter_decorators(decorators, constructor, ctx),
        None => Ok(()),
    }
}

/// `name = value`; the value alone where there is no name.
pub fn assigned(
    name: Option<&MaybeBoundIdentifier>,
    value: Node,
    ctx: &mut TraverseCtx,
) -> Result<Node, OutOfMemory>
    ensures around { OnOk result (ctx.new.ancestors ≡ ctx.old.ancestors) }
    ensures depth { OnOk result
        (length (frames ctx.new.declarations) ≡ length (frames ctx.old.declarations)) }
{
    match name {
        Some(name) => {
            let target = use_of(name, ReferenceFlags::Write, ctx)?;
            assignment(ctx.memory(), target, value, &mut ctx.ids)
        }
        None => Ok(value),
    }
}

/// The constructor of the class, to be changed in its place.
fn constructor_mut<'a>(class: &'a mut Node) -> Option<&'a mut Node> {
    let elements = elements_mut(class)?;
    let place = elements
        .iter()
        .position(|element| holds_constructor(element))?;
    match elements.get_mut(place) {
        Some(Part::Node(node)) => Some(node),
        _ => None,
    }
}

/// Whether the element is a constructor with a body.
fn holds_constructor(element: &Part) -> bool {
    match element {
        Part::Node(node) => is_constructor(node),
        _ => false,
    }
}

/// Gives the alias its value in a static block in front of the elements, if it belongs there; the alias where it
/// does not.
fn keep_inside(
    class: &mut Node,
    alias: Option<MaybeBoundIdentifier>,
    is_kept_inside: bool,
    ctx: &mut TraverseCtx,
) -> Result<Option<MaybeBoundIdentifier>, OutOfMemory>
    ensures around { OnOk result (ctx.new.ancestors ≡ ctx.old.ancestors) }
    ensures depth { OnOk result
        (length (frames ctx.new.declarations) ≡ length (frames ctx.old.declarations)) }
{
    match alias {
        Some(alias) if is_kept_inside => {
            put_alias_block(class, &alias, ctx)?;
            Ok(None)
        }
        alias => Ok(alias),
    }
}

/// Puts `static { alias = this; }` in front of the elements.
fn put_alias_block(
    class: &mut Node,
    alias: &MaybeBoundIdentifier,
    ctx: &mut TraverseCtx,
) -> Result<(), OutOfMemory>
    ensures around { OnOk result (ctx.new.ancestors ≡ ctx.old.ancestors) }
    ensures depth { OnOk result
        (length (frames ctx.new.declarations) ≡ length (frames ctx.old.declarations)) }
{
    let block = alias_block(class.id, alias, ctx)?;
    if let Some(elements) = elements_mut(class) {
        elements.insert(0, Part::Node(block))?;
    }
    Ok(())
}

/// `static { alias = this; }`, in the class of that number.
fn alias_block(
    class: NodeId,
    alias: &MaybeBoundIdentifier,
    ctx: &mut TraverseCtx,
) -> Result<Node, OutOfMemory>
    ensures around { OnOk result (ctx.new.ancestors ≡ ctx.old.ancestors) }
    ensures depth { OnOk result
        (length (frames ctx.new.declarations) ≡ length (frames ctx.old.declarations)) }
{
    let alloc = ctx.memory();
    let this = this_expression(alloc, &mut ctx.ids)?;
    let put = assigned(Some(alias), this, ctx)?;
    let put = statement(alloc, put, &mut ctx.ids)?;
    static_block(vec![in alloc; Part::Node(put)]?, class, ctx)
}
