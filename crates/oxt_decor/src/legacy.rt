//! The pass that lowers decorators in their older meaning.
ghost use Rattle.std.specs.Prelude.{◌≡◌, ◌<◌, OnOk, [], length};
ghost use Rattle.oxt_stores.specs.Frame.{frames};

use crate::accessor::lower_accessors;
use crate::class::{DecoratedClass, leave_class};
use crate::elements::{leave_field, leave_method};
use crate::frame::ClassFrame;
use crate::metadata::LegacyDecoratorMetadata;
use crate::stand_in::put_stand_ins;
use crate::statement::{holds_class, lower_statement, statement_of};
use oxt_ctx::context::TraverseCtx;
use oxt_ctx::hook::Hook;
use oxt_ctx::pass::Pass;
use oxt_names::ids::OutOfMemory;
use oxt_options::options::DecoratorOptions;
use oxt_tree::tree::{Node, Part};
use std::alloc::Global;
use std::mem;

/// The pass that puts calls behind classes in the place of their decorators and of those of their elements, and
/// makes of each accessor a private field, a getter and a setter.
///
/// Accessors are lowered as their class is entered, before its fields move. A call is made as its element is left,
/// when wrappers are erased and constants are in their places. Types are read as classes and elements are entered, before their
/// annotations are erased.
#[derive(Drop)]
pub struct LegacyDecorator {
    /// Where memory comes from.
    alloc: Global,
    /// Whether the types of what is decorated are emitted.
    emits_metadata: bool,
    /// These types.
    metadata: LegacyDecoratorMetadata,
    /// The classes that are being walked, the innermost last.
    frames: Vec<ClassFrame>,
    /// The calls of the class that was left last, until they are put behind its statement.
    calls: Vec<Part>,
    /// The class that was left last where it is itself decorated, until its statement is left.
    decorated: Option<DecoratedClass>,
}

impl LegacyDecorator {
    /// The pass as it begins: it is in no class.
    pub fn new(alloc: Global, options: DecoratorOptions) -> LegacyDecorator
        ensures frames { result.frames.items ≡ [] }
        ensures calls { result.calls.items ≡ [] }
    {
        LegacyDecorator {
            alloc,
            emits_metadata: options.emits_metadata(),
            metadata: LegacyDecoratorMetadata::new(alloc, options),
            frames: Vec::new(alloc),
            calls: Vec::new(alloc),
            decorated: None,
        }
    }

    /// Notes what is known of the class, and lowers its accessors.
    fn enter(&mut self, class: &mut Node, ctx: &mut TraverseCtx) -> Result<(), OutOfMemory>
        requires { 0 < length (frames ctx.old.declarations) }
        ensures around { OnOk result (ctx.new.ancestors ≡ ctx.old.ancestors) }
        ensures depth { OnOk result
            (length (frames ctx.new.declarations) ≡ length (frames ctx.old.declarations)) }
    {
        let mut frame = ClassFrame::of(self.alloc, class, ctx)?;
        enter_elements(self.alloc, class, &mut frame, ctx)?;
        self.frames.push(frame)?;
        Ok(())
    }

    /// Takes the decorators of the method into a call, if its class is a declaration.
    fn leave_method(&mut self, method: &mut Node, ctx: &mut TraverseCtx) -> Result<(), OutOfMemory>
        requires { 0 < length (frames ctx.old.declarations) }
        ensures around { OnOk result (ctx.new.ancestors ≡ ctx.old.ancestors) }
        ensures depth { OnOk result
            (length (frames ctx.new.declarations) ≡ length (frames ctx.old.declarations)) }
    {
        let metadata = self.metadata.pop_method_metadata();
        match self.frames.last_mut() {
            Some(frame) if frame.is_declaration => leave_method(frame, method, metadata, ctx),
            _ => Ok(()),
        }
    }

    /// Takes the decorators of the field into a call, if its class is a declaration.
    fn leave_field(&mut self, field: &mut Node, ctx: &mut TraverseCtx) -> Result<(), OutOfMemory>
        requires { 0 < length (frames ctx.old.declarations) }
        ensures around { OnOk result (ctx.new.ancestors ≡ ctx.old.ancestors) }
        ensures depth { OnOk result
            (length (frames ctx.new.declarations) ≡ length (frames ctx.old.declarations)) }
    {
        let written = self.metadata.pop_field_metadata();
        match self.frames.last_mut() {
            Some(frame) if frame.is_declaration => leave_field(frame, field, written, ctx),
            _ => Ok(()),
        }
    }

    /// Takes the decorators of the class, and what was made for its elements.
    fn leave(&mut self, class: &mut Node, ctx: &mut TraverseCtx) -> Result<(), OutOfMemory>
        requires { 0 < length (frames ctx.old.declarations) }
        ensures around { OnOk result (ctx.new.ancestors ≡ ctx.old.ancestors) }
        ensures depth { OnOk result
            (length (frames ctx.new.declarations) ≡ length (frames ctx.old.declarations)) }
    {
        let types = self.metadata.pop_constructor_metadata();
        match self.frames.pop() {
            Some(frame) => {
                let left = leave_class(class, frame, types, ctx)?;
                self.calls = left.calls;
                self.decorated = left.decorated;
                Ok(())
            }
            None => Ok(()),
        }
    }

    /// Puts the calls of the class, which was left last, behind its statement.
    pub fn exit_class_at_end(
        &mut self,
        class: &mut Node,
        ctx: &mut TraverseCtx,
    ) -> Result<(), OutOfMemory>
        ensures around { OnOk result (ctx.new.ancestors ≡ ctx.old.ancestors) }
        ensures depth { OnOk result
            (length (frames ctx.new.declarations) ≡ length (frames ctx.old.declarations)) }
    {
        let calls = mem::replace(&mut self.calls, Vec::new(self.alloc));
        if calls.is_empty() {
            return Ok(());
        }
        let target = statement_of(class, ctx);
        match ctx.statement_injector.insert_many_after(target, calls) {
            Ok(()) => Ok(()),
            Err(_) => Err(OutOfMemory),
        }
    }

    /// Puts a variable in the place of the statement, if the class that was left last is itself decorated and
    /// stands there.
    fn leave_statement(
        &mut self,
        statement: &mut Node,
        ctx: &mut TraverseCtx,
    ) -> Result<(), OutOfMemory>
        ensures around { OnOk result (ctx.new.ancestors ≡ ctx.old.ancestors) }
        ensures depth { OnOk result
            (length (frames ctx.new.declarations) ≡ length (frames ctx.old.declarations)) }
    {
        match self.decorated.take() {
            Some(decorated) if holds_class(statement, decorated.class) => {
                lower_statement(statement, &decorated, ctx)
            }
            _ => Ok(()),
        }
    }
}

impl Pass for LegacyDecorator {
    fn at_node(
        &mut self,
        hook: Hook,
        node: &mut Node,
        ctx: &mut TraverseCtx,
    ) -> Result<(), OutOfMemory> {
        if self.emits_metadata {
            self.metadata.at_node(hook, node, ctx)?;
        }
        match hook {
            Hook::EnterClass => self.enter(node, ctx),
            Hook::ExitMethodDefinition => self.leave_method(node, ctx),
            Hook::ExitPropertyDefinition => self.leave_field(node, ctx),
            Hook::ExitClass => self.leave(node, ctx),
            Hook::ExitClassAtEnd => self.exit_class_at_end(node, ctx),
            Hook::ExitStatement => self.leave_statement(node, ctx),
            _ => Ok(()),
        }
    }

    fn at_statements(
        &mut self,
        _hook: Hook,
        _statements: &mut Vec<Part>,
        _ctx: &mut TraverseCtx,
    ) -> Result<(), OutOfMemory> {
        Ok(())
    }
}

/// Hides the fields of the class that are only declared, and lowers its accessors.
fn enter_elements(
    alloc: Global,
    class: &mut Node,
    frame: &mut ClassFrame,
    ctx: &mut TraverseCtx,
) -> Result<(), OutOfMemory>
    requires { 0 < length (frames ctx.old.declarations) }
    ensures around { OnOk result (ctx.new.ancestors ≡ ctx.old.ancestors) }
    ensures depth { OnOk result
        (length (frames ctx.new.declarations) ≡ length (frames ctx.old.declarations)) }
{
    put_stand_ins(alloc, class, frame, &mut ctx.ids)?;
    lower_accessors(class, frame, ctx)
}
