//! The statements of classes that are themselves decorated.
//!
//! Before, where the class is left and its calls wait behind the statement:
//!
//! ```ts
//! export class Shape { static unit = new _Shape(1) }
//! ```
//!
//! After, with what is put behind those calls:
//!
//! ```js
//! let Shape = _Shape = class Shape { static unit = new _Shape(1) };
//! export { Shape };
//! ```
ghost use Rattle.std.specs.Prelude.{◌≡◌, OnOk, length};
ghost use Rattle.oxt_stores.specs.Frame.{frames};

use crate::class::{DecoratedClass, assigned};
use crate::names::use_of;
use oxt_ctx::context::TraverseCtx;
use oxt_ctx::maybe::MaybeBoundIdentifier;
use oxt_ctx::nodes::{declaration, default_export, export_list};
use oxt_ctx::parts::take_node;
use oxt_grammar::field::Field;
use oxt_grammar::kind::Kind;
use oxt_grammar::word::Word;
use oxt_names::flags::ReferenceFlags;
use oxt_names::ids::{NodeId, OutOfMemory};
use oxt_tree::tree::Node;

/// The number of the statement that the class is or that exports it.
pub fn statement_of(class: &Node, ctx: &TraverseCtx) -> NodeId {
    match ctx.parent() {
        Some(around) if is_export(around.kind) => around.node,
        _ => class.id,
    }
}

/// Whether nodes of the kind export a declaration.
fn is_export(kind: Kind) -> bool {
    kind.is(Kind::ExportDeclaration) || kind.is(Kind::ExportDefaultDeclaration)
}

/// Whether the statement is that class or exports it.
pub fn holds_class(statement: &Node, class: NodeId) -> bool {
    if is_export(statement.kind) {
        match statement.child(Field::Declaration) {
            Some(declaration) => declaration.id.0 == class.0,
            None => false,
        }
    } else {
        statement.id.0 == class.0
    }
}

/// Puts a variable whose value is the class in the place of the statement, which is the class or exports it. What
/// waits behind the statement waits behind the variable then, and the export behind that.
pub fn lower_statement(
    statement: &mut Node,
    decorated: &DecoratedClass,
    ctx: &mut TraverseCtx,
) -> Result<(), OutOfMemory>
    ensures around { OnOk result (ctx.new.ancestors ≡ ctx.old.ancestors) }
    ensures depth { OnOk result
        (length (frames ctx.new.declarations) ≡ length (frames ctx.old.declarations)) }
{
    let (kind, number) = (statement.kind, statement.id);
    match take_class(statement, ctx) {
        Some(class) => {
            *statement = variable_of(class, decorated, ctx)?;
            ctx.statement_injector
                .move_insertions(number, statement.id)?;
            put_export(kind, statement.id, &decorated.name, ctx)
        }
        None => Ok(()),
    }
}

/// Takes the class that the statement is or exports.
fn take_class(statement: &mut Node, ctx: &TraverseCtx) -> Option<Node> {
    if is_export(statement.kind) {
        take_node(statement, Field::Declaration)
    } else {
        Some(statement.take_statement(ctx.memory()))
    }
}

/// `let name = alias = class;`, where the class is an expression.
fn variable_of(
    mut class: Node,
    decorated: &DecoratedClass,
    ctx: &mut TraverseCtx,
) -> Result<Node, OutOfMemory>
    ensures around { OnOk result (ctx.new.ancestors ≡ ctx.old.ancestors) }
    ensures depth { OnOk result
        (length (frames ctx.new.declarations) ≡ length (frames ctx.old.declarations)) }
{
    class.kind = Kind::ClassExpression;
    let value = assigned(decorated.alias.as_ref(), class, ctx)?;
    declaration(
        ctx.memory(),
        Word::Let,
        &decorated.name.name,
        Some(value),
        &mut ctx.ids,
    )
}

/// Puts the export of the name last of all that waits behind the statement, where such was the kind of that which
/// stood there.
fn put_export(
    kind: Kind,
    statement: NodeId,
    name: &MaybeBoundIdentifier,
    ctx: &mut TraverseCtx,
) -> Result<(), OutOfMemory>
    ensures around { OnOk result (ctx.new.ancestors ≡ ctx.old.ancestors) }
    ensures depth { OnOk result
        (length (frames ctx.new.declarations) ≡ length (frames ctx.old.declarations)) }
{
    if !is_export(kind) {
        return Ok(());
    }
    let export = export_of(kind, name, ctx)?;
    match ctx.statement_injector.insert_after(statement, export) {
        Ok(()) => Ok(()),
        Err(_) => Err(OutOfMemory),
    }
}

/// `export { name };`, or where the kind is that of a default export `export default name;`.
fn export_of(
    kind: Kind,
    name: &MaybeBoundIdentifier,
    ctx: &mut TraverseCtx,
) -> Result<Node, OutOfMemory>
    ensures around { OnOk result (ctx.new.ancestors ≡ ctx.old.ancestors) }
    ensures depth { OnOk result
        (length (frames ctx.new.declarations) ≡ length (frames ctx.old.declarations)) }
{
    let read = use_of(name, ReferenceFlags::Read, ctx)?;
    if kind.is(Kind::ExportDeclaration) {
        export_list(ctx.memory(), read, &name.name, &mut ctx.ids)
    } else {
        default_export(ctx.memory(), read, &mut ctx.ids)
    }
}
