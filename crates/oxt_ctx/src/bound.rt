//! Nodes of names that are bound.
ghost use Rattle.std.specs.Prelude.{◌≡◌, ◌<◌, IfOk, List, OnErr, OnOk, Some, length, ℕ};
ghost use Rattle.oxt_names.specs.declared.ids.SymbolId.{SymbolId};
ghost use Rattle.oxt_stores.specs.Frame.{binding};
ghost use Rattle.oxt_names.specs.Names.{name_bytes};
ghost use Rattle.oxt_tree.specs.View.{node_doc};
ghost use Rattle.oxt_ctx.specs.Made.{reference, with_ids, with_use};

use crate::context::TraverseCtx;
use oxt_names::flags::ReferenceFlags;
use oxt_names::ids::OutOfMemory;
use oxt_stores::bound::BoundIdentifier;
use oxt_tree::tree::Node;

/// The nodes of a name that is bound. Where memory runs out the context is as before.
pub trait BindingNodes {
    /// How it is spelled.
    ghost spelling: { Self → List ℕ };

    /// What it is bound to.
    ghost meaning: { Self → SymbolId };

    /// An expression that reads it.
    fn create_read_expression(&self, ctx: &mut TraverseCtx) -> Result<Node, OutOfMemory>
        requires { (meaning self.now).0 < length ctx.old.scoping.symbols }
        ensures made { IfOk result (λ made. node_doc made ≡ reference ctx.old.ids.next (spelling self.now)) }
        ensures entered { OnOk result (ctx.new ≡ with_use (Some (meaning self.now)) ReferenceFlags.Read ctx.old) }
        ensures symbols_stay { length ctx.new.scoping.symbols ≡ length ctx.old.scoping.symbols }
        ensures kept { OnErr result (ctx.new ≡ ctx.old) };

    /// A name that reads it.
    fn create_read_reference(&self, ctx: &mut TraverseCtx) -> Result<Node, OutOfMemory>
        requires { (meaning self.now).0 < length ctx.old.scoping.symbols }
        ensures made { IfOk result (λ made. node_doc made ≡ reference ctx.old.ids.next (spelling self.now)) }
        ensures entered { OnOk result (ctx.new ≡ with_use (Some (meaning self.now)) ReferenceFlags.Read ctx.old) }
        ensures symbols_stay { length ctx.new.scoping.symbols ≡ length ctx.old.scoping.symbols }
        ensures kept { OnErr result (ctx.new ≡ ctx.old) };

    /// The target of a plain assignment to it.
    fn create_write_target(&self, ctx: &mut TraverseCtx) -> Result<Node, OutOfMemory>
        requires { (meaning self.now).0 < length ctx.old.scoping.symbols }
        ensures made { IfOk result (λ made. node_doc made ≡ reference ctx.old.ids.next (spelling self.now)) }
        ensures entered { OnOk result (ctx.new ≡ with_use (Some (meaning self.now)) ReferenceFlags.Write ctx.old) }
        ensures symbols_stay { length ctx.new.scoping.symbols ≡ length ctx.old.scoping.symbols }
        ensures kept { OnErr result (ctx.new ≡ ctx.old) };

    /// A pattern that binds it. The table of names stays as it is.
    fn create_binding_pattern(&self, ctx: &mut TraverseCtx) -> Result<Node, OutOfMemory>
        ensures made { IfOk result (λ made. node_doc made ≡ binding ctx.old.ids.next (spelling self.now)) }
        ensures used { OnOk result (ctx.new ≡ with_ids 1 ctx.old) }
        ensures kept { OnErr result (ctx.new ≡ ctx.old) };

    /// The name as it is bound. The table of names stays as it is.
    fn create_binding_identifier(&self, ctx: &mut TraverseCtx) -> Result<Node, OutOfMemory>
        ensures made { IfOk result (λ made. node_doc made ≡ binding ctx.old.ids.next (spelling self.now)) }
        ensures used { OnOk result (ctx.new ≡ with_ids 1 ctx.old) }
        ensures kept { OnErr result (ctx.new ≡ ctx.old) };
}

impl BindingNodes for BoundIdentifier {
    ghost spelling = { λ b. name_bytes b.name };

    ghost meaning = { λ b. b.symbol_id };

    fn create_read_expression(&self, ctx: &mut TraverseCtx) -> Result<Node, OutOfMemory> {
        ctx.create_ident_expr(&self.name, Some(self.symbol_id), ReferenceFlags::Read)
    }

    fn create_read_reference(&self, ctx: &mut TraverseCtx) -> Result<Node, OutOfMemory> {
        ctx.create_ident_expr(&self.name, Some(self.symbol_id), ReferenceFlags::Read)
    }

    fn create_write_target(&self, ctx: &mut TraverseCtx) -> Result<Node, OutOfMemory> {
        ctx.create_ident_expr(&self.name, Some(self.symbol_id), ReferenceFlags::Write)
    }

    fn create_binding_pattern(&self, ctx: &mut TraverseCtx) -> Result<Node, OutOfMemory> {
        ctx.create_binding(&self.name)
    }

    fn create_binding_identifier(&self, ctx: &mut TraverseCtx) -> Result<Node, OutOfMemory> {
        ctx.create_binding(&self.name)
    }
}
