//! The fields of a class that are set by assignment.
ghost use Rattle.std.specs.Prelude.{◌≡◌, ◌<◌, OnOk, length};
ghost use Rattle.oxt_stores.specs.Frame.{frames};
ghost use Rattle.oxt_ctx.specs.Made.{but_names_of};

use crate::elements::{constructor_place, elements_mut, put_into};
use crate::moving::{Moving, move_each};
use crate::params::take_puts;
use oxt_ctx::block::{scope_of_class, static_block};
use oxt_ctx::constructor::create_class_constructor;
use oxt_ctx::context::TraverseCtx;
use oxt_ctx::nodes::{make, sequence};
use oxt_fields::class::is_derived;
use oxt_fields::fate::hoists_private;
use oxt_grammar::kind::Kind;
use oxt_names::ids::{NodeId, NodeIds, OutOfMemory};
use oxt_tree::tree::{Node, Part};
use std::alloc::Global;
use std::vec;

/// Moves the values of the fields of the class: those of instance fields into the constructor, which is
/// made where it is needed, behind the parameters that are properties, and those of static fields into
/// static blocks in their places. Private static fields stay, and so do private instance fields where no
/// other instance field has a value. Keys that are computed once wait for the next key that is an
/// expression, or for a static block in front.
///
/// # Errors
///
/// `OutOfMemory` for want of memory or of numbers alone.
pub fn transform_class_fields(
    class: &mut Node,
    drop_empty: bool,
    ctx: &mut TraverseCtx,
) -> Result<(), OutOfMemory>
    requires { 0 < length (frames ctx.old.declarations) }
    ensures frame { OnOk result (ctx.new ≡ but_names_of ctx.old ctx.new) }
    ensures depth { OnOk result
        (length (frames ctx.new.declarations) ≡ length (frames ctx.old.declarations)) }
{
    let number = class.id;
    let derived = is_derived(class);
    match elements_mut(class) {
        Some(elements) => {
            let place = constructor_place(elements.as_slice());
            let moving = moved_out(elements, place, number, drop_empty, ctx)?;
            put_back(elements, place, moving, derived, ctx)
        }
        None => Ok(()),
    }
}

/// Takes out of the elements what moves. The constructor, if there is one, stands at that place.
fn moved_out(
    elements: &mut Vec<Part>,
    place: Option<usize>,
    class: NodeId,
    drops_empty: bool,
    ctx: &mut TraverseCtx,
) -> Result<Moving, OutOfMemory>
    requires { 0 < length (frames ctx.old.declarations) }
    ensures frame { OnOk result (ctx.new ≡ but_names_of ctx.old ctx.new) }
    ensures depth { OnOk result
        (length (frames ctx.new.declarations) ≡ length (frames ctx.old.declarations)) }
{
    let alloc = ctx.memory();
    let mut moving = Moving {
        alloc,
        class,
        hoists_private: hoists_private(elements.as_slice()),
        drops_empty,
        puts: parameter_puts(elements, place, ctx)?,
        waiting: Vec::new(alloc),
    };
    move_each(elements.as_mut_slice(), &mut moving, ctx)?;
    Ok(moving)
}

/// The statements for the parameters of the constructor that are properties, which are none then.
fn parameter_puts(
    elements: &mut Vec<Part>,
    place: Option<usize>,
    ctx: &mut TraverseCtx,
) -> Result<Vec<Part>, OutOfMemory>
    ensures frame { OnOk result (ctx.new ≡ but_names_of ctx.old ctx.new) }
    ensures depth { OnOk result
        (length (frames ctx.new.declarations) ≡ length (frames ctx.old.declarations)) }
{
    match element_at(elements, place) {
        Some(constructor) => take_puts(constructor, ctx),
        None => Ok(Vec::new(ctx.memory())),
    }
}

/// The element at the place, if there is one.
fn element_at<'a>(elements: &'a mut Vec<Part>, place: Option<usize>) -> Option<&'a mut Node> {
    match elements.get_mut(place?) {
        Some(Part::Node(node)) => Some(node),
        _ => None,
    }
}

/// Puts what was taken out into the constructor, which is made where there is none, and into a static
/// block behind it.
fn put_back(
    elements: &mut Vec<Part>,
    place: Option<usize>,
    moving: Moving,
    derived: bool,
    ctx: &mut TraverseCtx,
) -> Result<(), OutOfMemory>
    ensures frame { OnOk result (ctx.new ≡ but_names_of ctx.old ctx.new) }
    ensures depth { OnOk result
        (length (frames ctx.new.declarations) ≡ length (frames ctx.old.declarations)) }
{
    let Moving {
        alloc,
        class,
        mut puts,
        waiting,
        ..
    } = moving;
    if let Some(constructor) = element_at(elements, place) {
        put_into(constructor, &mut puts)?;
    }
    put_block(alloc, elements, waiting, class, ctx)?;
    put_constructor(elements, puts, derived, class, ctx)
}

/// Puts a static block of the expressions in front of the elements, if there are any.
fn put_block(
    alloc: Global,
    elements: &mut Vec<Part>,
    waiting: Vec<Part>,
    class: NodeId,
    ctx: &mut TraverseCtx,
) -> Result<(), OutOfMemory>
    ensures frame { OnOk result (ctx.new ≡ but_names_of ctx.old ctx.new) }
    ensures depth { OnOk result
        (length (frames ctx.new.declarations) ≡ length (frames ctx.old.declarations)) }
{
    if waiting.is_empty() {
        return Ok(());
    }
    let body = sequence_statement(alloc, waiting, &mut ctx.ids)?;
    let statements = vec![in alloc; Part::Node(body)]?;
    let block = static_block(statements, class, ctx)?;
    elements.insert(0, Part::Node(block))?;
    Ok(())
}

/// The statement of these expressions in a row.
fn sequence_statement(
    alloc: Global,
    expressions: Vec<Part>,
    ids: &mut NodeIds,
) -> Result<Node, OutOfMemory> {
    let expression = sequence(expressions, ids)?;
    let parts = vec![in alloc; expression]?;
    make(Kind::ExpressionStatement, parts, ids)
}

/// Puts a constructor of the statements in front of the elements, if there are any.
fn put_constructor(
    elements: &mut Vec<Part>,
    puts: Vec<Part>,
    derived: bool,
    class: NodeId,
    ctx: &mut TraverseCtx,
) -> Result<(), OutOfMemory>
    ensures frame { OnOk result (ctx.new ≡ but_names_of ctx.old ctx.new) }
    ensures depth { OnOk result
        (length (frames ctx.new.declarations) ≡ length (frames ctx.old.declarations)) }
{
    if puts.is_empty() {
        return Ok(());
    }
    let scope = scope_of_class(class, ctx);
    let constructor = create_class_constructor(puts, derived, scope, ctx)?;
    elements.insert(0, Part::Node(constructor))?;
    Ok(())
}
