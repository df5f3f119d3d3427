//! What is known of the classes that are being walked.
ghost use Rattle.std.specs.Prelude.{◌≡◌, OnOk, length};
ghost use Rattle.oxt_stores.specs.Frame.{frames};

use crate::alias::has_alias;
use crate::names::{made_name, name_of_class, shared, use_of};
use oxt_ctx::context::TraverseCtx;
use oxt_ctx::maybe::MaybeBoundIdentifier;
use oxt_declares::calls::is_decorated;
use oxt_declares::class::elements_of;
use oxt_fields::private_in::holds_private_in;
use oxt_fields::statics::has_static_part;
use oxt_grammar::kind::Kind;
use oxt_names::flags::ReferenceFlags;
use oxt_names::ids::{NodeId, OutOfMemory};
use oxt_tree::tree::{Node, Part};
use std::alloc::Global;
use std::collections::HashSet;

/// What is known of a class that is being walked, and what was made for it so far.
#[derive(Drop)]
pub struct ClassFrame {
    /// The number of the class.
    pub class: NodeId,
    /// Whether its decorators are applied: whether it is a declaration.
    pub is_declaration: bool,
    /// Whether it is itself decorated.
    pub is_decorated: bool,
    /// Whether the calls of its elements go into a static block, for the private names in decorators.
    pub calls_inside: bool,
    /// Whether uses of it in its body are read as an alias, by the plan.
    pub has_alias: bool,
    /// Whether its source has a static field, block or accessor.
    pub has_static_part: bool,
    /// The name that it has in the source.
    pub own: Option<MaybeBoundIdentifier>,
    /// The name that was made to stand on it.
    pub made_inside: Option<MaybeBoundIdentifier>,
    /// The name that was made to name it from around it.
    pub made_around: Option<MaybeBoundIdentifier>,
    /// The numbers of the elements that stand for fields which are only declared.
    pub stand_ins: HashSet<u64>,
    /// The calls of its elements, in their order.
    pub calls: Vec<Part>,
}

impl ClassFrame {
    /// What is known of the class as it stands in the source.
    pub fn of(
        alloc: Global,
        class: &mut Node,
        ctx: &TraverseCtx,
    ) -> Result<ClassFrame, OutOfMemory> {
        let is_declaration = class.kind.is(Kind::ClassDeclaration);
        let is_decorated = is_declaration && is_decorated(class);
        let has_alias = is_decorated && has_alias(class, &ctx.plan)?;
        Ok(ClassFrame {
            class: class.id,
            is_declaration,
            is_decorated,
            calls_inside: is_declaration && holds_private_in(class),
            has_alias,
            has_static_part: has_static_part(elements_of(class)),
            own: name_of_class(alloc, class, &ctx.scoping)?,
            made_inside: None,
            made_around: None,
            stand_ins: HashSet::new(alloc),
            calls: Vec::new(alloc),
        })
    }

    /// The name by which the class is named from around it. A class without a name gets one, if it has none yet.
    pub fn name_around(
        &mut self,
        ctx: &mut TraverseCtx,
    ) -> Result<MaybeBoundIdentifier, OutOfMemory>
        ensures around { OnOk result (ctx.new.ancestors ≡ ctx.old.ancestors) }
        ensures depth { OnOk result
            (length (frames ctx.new.declarations) ≡ length (frames ctx.old.declarations)) }
    {
        match &self.own {
            Some(name) => shared(name),
            None => self.made_around(ctx),
        }
    }

    /// The calls of the elements, and whether they go into a static block.
    pub fn into_calls(self) -> (Vec<Part>, bool) {
        (self.calls, self.calls_inside)
    }

    /// The name that is made to name the class from around it.
    pub fn made_around(
        &mut self,
        ctx: &mut TraverseCtx,
    ) -> Result<MaybeBoundIdentifier, OutOfMemory>
        ensures around { OnOk result (ctx.new.ancestors ≡ ctx.old.ancestors) }
        ensures depth { OnOk result
            (length (frames ctx.new.declarations) ≡ length (frames ctx.old.declarations)) }
    {
        if let Some(name) = &self.made_around {
            return shared(name);
        }
        let name = made_name("default", self.class, false, ctx)?;
        self.made_around = Some(shared(&name)?);
        Ok(name)
    }

    /// The name that stands on the class, if there is one.
    pub fn name_inside(&self) -> Option<&MaybeBoundIdentifier> {
        match &self.own {
            Some(name) => Some(name),
            None => self.made_inside.as_ref(),
        }
    }

    /// Makes a use of the name by which the class is named from around it.
    pub fn create_use(
        &mut self,
        flags: ReferenceFlags,
        ctx: &mut TraverseCtx,
    ) -> Result<Node, OutOfMemory>
        ensures around { OnOk result (ctx.new.ancestors ≡ ctx.old.ancestors) }
        ensures depth { OnOk result
            (length (frames ctx.new.declarations) ≡ length (frames ctx.old.declarations)) }
    {
        let name = self.name_around(ctx)?;
        use_of(&name, flags, ctx)
    }
}
