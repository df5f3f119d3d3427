//! A pass as one list of hooks.
ghost use Rattle.std.specs.Prelude.{◌≡◌, Bool, List, [], OnOk, false, true};
ghost use Rattle.oxt_ctx.specs.Level.{IsOpen, IsOpenAt};
ghost use Rattle.oxt_ctx.specs.Ran.{HasRun};
ghost use Rattle.oxt_ctx.specs.Visits.{Visit};
ghost use Rattle.oxt_tree.specs.Doc.{list};
ghost use Rattle.oxt_tree.specs.View.{docs_in, node_doc};

use crate::context::TraverseCtx;
use crate::hook::Hook;
use oxt_names::ids::OutOfMemory;
use oxt_tree::tree::{Node, Part};

/// A pass that says in one list what it does at which hook. `oxt_traverse` makes a `Traverse` of each, which has the hooks by their
/// names, and promises what that one promises.
///
/// # Errors
///
/// `OutOfMemory` for want of memory or of numbers alone. The tree, the pass and the context may
/// then only be dropped.
pub trait Pass {
    ghost watches: { Bool } = { false };

    ghost log: { Self → List Visit } = { λ _. [] };

    ghost trace: { Visit → List Visit } = { λ _. [] };

    /// What the pass does at a node, by the hook. A list of declarators is open but at the hooks of the program.
    fn at_node(
        &mut self,
        hook: Hook,
        node: &mut Node,
        ctx: &mut TraverseCtx,
    ) -> Result<(), OutOfMemory>
        requires open { IsOpenAt hook ctx.old }
        ensures { OnOk result (HasRun (watches ≡ true) trace hook (node_doc node.old) (node_doc node.new) ctx.old ctx.new (log self.old) (log self.new)) };

    /// What the pass does at a list of statements, by the hook.
    fn at_statements(
        &mut self,
        hook: Hook,
        statements: &mut Vec<Part>,
        ctx: &mut TraverseCtx,
    ) -> Result<(), OutOfMemory>
        requires open { IsOpen ctx.old }
        ensures { OnOk result (HasRun (watches ≡ true) trace hook (list (docs_in statements.old.items)) (list (docs_in statements.new.items)) ctx.old ctx.new (log self.old) (log self.new)) };
}
