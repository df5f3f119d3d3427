//! The context of a walk.
ghost use Rattle.std.specs.Prelude.{◌≡◌, ◌<◌, ◌+◌, ◌++◌, ◌∷◌, [], ℕ, IfOk, IfSome, None, OnErr, OnOk, drop, false, length, reverse, slice_get};
ghost use Rattle.std.specs.Option.{option_copied};
ghost use Rattle.oxt_stores.specs.Frame.{binding, frames};
ghost use Rattle.oxt_injector.specs.Pending.{pending};
ghost use Rattle.oxt_names.specs.Names.{name_bytes};
ghost use Rattle.oxt_tree.specs.View.{node_doc};
ghost use Rattle.oxt_names.specs.Made.{is_among};
ghost use Rattle.oxt_ctx.specs.Context.{current_scope, innermost_scope};
ghost use Rattle.oxt_ctx.specs.Made.{made_in, reference, with_binding, with_ids, with_taken, with_uid, with_use};

use crate::ancestor::AncestorRecord;
use crate::makers::{bind_anew, name_node, use_anew};
use oxt_grammar::kind::Kind;
use oxt_injector::injector::StatementInjectorStore;
use oxt_names::diagnostic::OxcDiagnostic;
use oxt_names::flags::{ReferenceFlags, SymbolFlags};
use oxt_names::ids::{NodeIds, OutOfMemory, ScopeId, SymbolId};
use oxt_names::name::Name;
use oxt_options::plan::Plan;
use oxt_options::state::TransformState;
use oxt_scoping::scoping::Scoping;
use oxt_stores::bound::BoundIdentifier;
use oxt_stores::declarations::VarDeclarationsStore;
use oxt_tree::tree::Node;
use std::alloc::Global;
use std::marker::Model;

/// What passes know and change while they walk a tree.
#[derive(Drop)]
pub struct TraverseCtx {
    alloc: Global,
    /// The table of names.
    pub scoping: Scoping,
    /// Where the numbers of made nodes come from.
    pub ids: NodeIds,
    /// The statements that are to stand beside others.
    pub statement_injector: StatementInjectorStore,
    /// The declarators that are to stand at the top of the lists that are being walked.
    pub var_declarations: VarDeclarationsStore,
    /// What the check of the program found out.
    pub plan: Plan,
    /// What is known of the run.
    pub state: TransformState,
    /// What was found so far, in the order in which it was found.
    pub diagnostics: Vec<OxcDiagnostic>,
    /// The nodes around the one that is being visited, the innermost last.
    around: Vec<AncestorRecord>,
}

impl Model for TraverseCtx {
    ghost use Rattle.std.specs.Coded.{codes};
    ghost use Rattle.std.specs.Prelude.{reverse};
    ghost use Rattle.oxt_stores.specs.contracts.declarations.VarDeclarationsStore as declarations;
    ghost use Rattle.oxt_injector.specs.contracts.injector.StatementInjectorStore as injector;
    ghost use Rattle.oxt_names.specs.contracts.name.Name as name;
    ghost use Rattle.oxt_ctx.specs.Context.{Context, IsScoped};

    ghost Value = { Context };

    ghost coded = { Prim.hlevel (codes, declarations.the_row.coded, injector.the_row.coded, name.the_row.coded) };

    ghost view = { λ c. record { scoping = c.scoping; ids = c.ids; injector = c.statement_injector; declarations = c.var_declarations; plan = c.plan; state = c.state; diagnostics = c.diagnostics.items; ancestors = reverse c.around.items } };

    ghost invariant = { λ c. IsScoped c.scoping (reverse c.around.items) };
}

impl TraverseCtx {
    /// The context in which the walk of a program begins: nothing waits, and nothing is around.
    pub fn new(
        alloc: Global,
        scoping: Scoping,
        plan: Plan,
        state: TransformState,
        ids: NodeIds,
    ) -> TraverseCtx
        ensures scoping { result.scoping ≡ scoping }
        ensures ids { result.ids ≡ ids }
        ensures pending { (n : ℕ) → pending result.injector n ≡ None }
        ensures frames { frames result.declarations ≡ [] }
        ensures plan { result.plan ≡ plan }
        ensures state { result.state ≡ state }
        ensures diagnostics { result.diagnostics ≡ [] }
        ensures ancestors { result.ancestors ≡ [] }
    {
        TraverseCtx {
            alloc,
            scoping,
            ids,
            statement_injector: StatementInjectorStore::new(alloc),
            var_declarations: VarDeclarationsStore::new(alloc),
            plan,
            state,
            diagnostics: Vec::new(alloc),
            around: Vec::new(alloc),
        }
    }

    /// The node directly around the one that is being visited; none of the program.
    pub fn parent(&self) -> Option<&AncestorRecord>
        ensures { option_copied result ≡ slice_get self.now.ancestors 0 }
    {
        self.ancestor(0)
    }

    /// The node that is so many levels further out than the parent; none above the program.
    pub fn ancestor(&self, level: usize) -> Option<&AncestorRecord>
        ensures { option_copied result ≡ slice_get self.now.ancestors level }
    {
        at_level(self.around.as_slice(), level)
    }

    /// Goes into a node.
    pub fn push_ancestor(&mut self, entry: AncestorRecord) -> Result<(), OutOfMemory>
        requires { IfSome entry.scope (λ scope. scope.0 < length self.old.scoping.scopes) }
        ensures pushed { OnOk result
            (self.new ≡ record self.old { ancestors = entry ∷ self.old.ancestors }) }
        ensures kept { OnErr result (self.new ≡ self.old) }
    {
        self.around.push(entry)?;
        Ok(())
    }

    /// Leaves the node that was gone into last; none where all were left.
    pub fn pop_ancestor(&mut self) -> Option<AncestorRecord>
        ensures popped { result ≡ slice_get self.old.ancestors 0 }
        ensures left { self.new ≡ record self.old { ancestors = drop 1 self.old.ancestors } }
    {
        self.around.pop()
    }

    /// The innermost scope around the node that is being visited.
    pub fn current_scope_id(&self) -> ScopeId
        ensures innermost { result ≡ current_scope self.now.ancestors }
        ensures live { result.0 < length self.now.scoping.scopes }
    {
        match innermost_scope(self.around.as_slice()) {
            Some(scope) => scope,
            None => self.scoping.root_scope_id(),
        }
    }

    /// Puts the diagnostic behind those that were found before.
    pub fn error(&mut self, diagnostic: OxcDiagnostic) -> Result<(), OutOfMemory>
        ensures found { OnOk result
            (self.new ≡ record self.old { diagnostics = self.old.diagnostics ++ diagnostic ∷ [] }) }
        ensures kept { OnErr result (self.new ≡ self.old) }
    {
        self.diagnostics.push(diagnostic)?;
        Ok(())
    }

    /// Makes a name of the text that differs from every name of the source and from every name made
    /// before, and binds it in the scope. Where memory runs out, a name may have been taken.
    pub fn generate_uid(
        &mut self,
        name: &str,
        scope: ScopeId,
        flags: SymbolFlags,
    ) -> Result<BoundIdentifier, OutOfMemory>
        requires { scope.0 < length self.old.scoping.scopes }
        ensures name { IfOk result (λ bound. name_bytes bound.name ≡ made_in name.now self.old) }
        ensures free { IfOk result (λ bound. is_among (name_bytes bound.name) self.old.scoping.taken ≡ false) }
        ensures symbol { IfOk result (λ bound. bound.symbol_id.0 ≡ length self.old.scoping.symbols) }
        ensures more { OnOk result (length self.new.scoping.symbols ≡ length self.old.scoping.symbols + 1) }
        ensures scopes_stay { length self.new.scoping.scopes ≡ length self.old.scoping.scopes }
        ensures bound { OnOk result (self.new ≡ with_uid name.now scope flags self.old) }
        ensures taken { OnErr result (self.new ≡ with_taken self.new.scoping.taken self.old) }
    {
        let made = self.scoping.generate_uid_name(name)?;
        self.generate_binding(&made, scope, flags)
    }

    /// Binds the name in the scope to a symbol of its own, which a fresh number declares.
    pub fn generate_binding(
        &mut self,
        name: &Name,
        scope: ScopeId,
        flags: SymbolFlags,
    ) -> Result<BoundIdentifier, OutOfMemory>
        requires { scope.0 < length self.old.scoping.scopes }
        ensures name { IfOk result (λ bound. name_bytes bound.name ≡ name_bytes name.now) }
        ensures symbol { IfOk result (λ bound. bound.symbol_id.0 ≡ length self.old.scoping.symbols) }
        ensures more { OnOk result (length self.new.scoping.symbols ≡ length self.old.scoping.symbols + 1) }
        ensures scopes_stay { length self.new.scoping.scopes ≡ length self.old.scoping.scopes }
        ensures bound { OnOk result (self.new ≡ with_binding (name_bytes name.now) scope flags self.old) }
        ensures kept { OnErr result (self.new ≡ self.old) }
    {
        bind_anew(&mut self.scoping, &mut self.ids, name, scope, flags)
    }

    /// Makes a use of the name, which means the symbol; without one the name is free.
    pub fn create_ident_expr(
        &mut self,
        name: &Name,
        symbol: Option<SymbolId>,
        flags: ReferenceFlags,
    ) -> Result<Node, OutOfMemory>
        requires { IfSome symbol (λ meant. meant.0 < length self.old.scoping.symbols) }
        ensures made { IfOk result (λ made. node_doc made ≡ reference self.old.ids.next (name_bytes name.now)) }
        ensures entered { OnOk result (self.new ≡ with_use symbol flags self.old) }
        ensures symbols_stay { length self.new.scoping.symbols ≡ length self.old.scoping.symbols }
        ensures kept { OnErr result (self.new ≡ self.old) }
    {
        use_anew(
            self.alloc,
            &mut self.scoping,
            &mut self.ids,
            name,
            symbol,
            flags,
        )
    }

    /// Makes a use of a name that is free.
    pub fn create_unbound_ident_expr(
        &mut self,
        name: &str,
        flags: ReferenceFlags,
    ) -> Result<Node, OutOfMemory>
        ensures made { IfOk result (λ made. node_doc made ≡ reference self.old.ids.next name.now) }
        ensures entered { OnOk result (self.new ≡ with_use None flags self.old) }
        ensures symbols_stay { length self.new.scoping.symbols ≡ length self.old.scoping.symbols }
        ensures kept { OnErr result (self.new ≡ self.old) }
    {
        let name = Name::new(self.alloc, name)?;
        self.create_ident_expr(&name, None, flags)
    }

    /// Makes a name that is bound. The table of names stays as it is.
    pub(crate) fn create_binding(&mut self, name: &Name) -> Result<Node, OutOfMemory>
        ensures made { IfOk result (λ made. node_doc made ≡ binding self.old.ids.next (name_bytes name.now)) }
        ensures used { OnOk result (self.new ≡ with_ids 1 self.old) }
        ensures kept { OnErr result (self.new ≡ self.old) }
    {
        let mut ids = self.ids;
        let id = ids.fresh()?;
        let node = name_node(self.alloc, Kind::BindingIdentifier, id, name)?;
        self.ids = ids;
        Ok(node)
    }

    /// Where memory comes from.
    pub fn memory(&self) -> Global {
        self.alloc
    }
}

/// The node at the level, counted from the end of the list.
fn at_level(around: &[AncestorRecord], level: usize) -> Option<&AncestorRecord>
    ensures { option_copied result ≡ slice_get (reverse around.now) level }
{
    if level < around.len() {
        around.get(around.len() - 1 - level)
    } else {
        None
    }
}

/// The scope of the last node that opens one.
fn innermost_scope(around: &[AncestorRecord]) -> Option<ScopeId>
    ensures { result ≡ innermost_scope (reverse around.now) }
{
    let mut rest = around;
    while let Some((last, before)) = rest.split_last() {
        if let Some(scope) = last.scope {
            return Some(scope);
        }
        rest = before;
    }
    None
}
