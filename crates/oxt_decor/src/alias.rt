//! Uses of a class in its own body, which are renamed where the class is decorated.
//!
//! Before, in the body of `class Shape`:
//!
//! ```js
//! static unit = make({ Shape }, Shape.size);
//! ```
//!
//! After:
//!
//! ```js
//! static unit = make({ Shape: _Shape }, _Shape.size);
//! ```
ghost use Rattle.std.specs.Prelude.{◌≡◌, ◌<◌, IfOk, OnOk, is_some, length};
ghost use Rattle.std.specs.List.{list_any};
ghost use Rattle.oxt_decor.specs.Named.{is_symbol, means, names_class};
ghost use Rattle.oxt_stores.specs.Frame.{frames};
ghost use Rattle.oxt_tree.specs.View.{node_doc};

use crate::shorthand::open_shorthands;
use crate::used::used_names;
use oxt_ctx::context::TraverseCtx;
use oxt_ctx::nodes::reference;
use oxt_ctx::parts::child_mut;
use oxt_ctx::uid::create_uid_var;
use oxt_grammar::field::Field;
use oxt_names::ids::{NodeId, NodeIds, OutOfMemory, SymbolId};
use oxt_names::name::Name;
use oxt_options::plan::Plan;
use oxt_scoping::scoping::Scoping;
use oxt_stores::bound::BoundIdentifier;
use oxt_tree::tree::Node;
use oxt_visit::visitor::VisitMut;
use oxt_visit::walk::visit_mut;
use std::collections::HashSet;

/// A visitor that puts another name, once it has one, in the place of the uses of a class.
#[derive(Drop)]
pub struct ClassReferenceChanger {
    /// The class.
    class: BoundIdentifier,
    /// The numbers of its uses.
    uses: HashSet<u64>,
    /// The name that they become.
    alias: Option<Name>,
    /// Where the numbers of made nodes come from.
    ids: NodeIds,
}

impl ClassReferenceChanger {
    /// For the class of that name. It knows of no uses yet.
    pub fn new(class_binding: BoundIdentifier, ctx: &TraverseCtx) -> ClassReferenceChanger
        ensures { result.class ≡ class_binding }
    {
        ClassReferenceChanger {
            class: class_binding,
            uses: HashSet::new(ctx.memory()),
            alias: None,
            ids: ctx.ids,
        }
    }

    /// Puts a name that is made for them, and declared in the innermost list, in the place of the uses of the class in
    /// the body: none exactly where the body does not name the class, and it is then left as it is.
    ///
    /// # Errors
    ///
    /// `OutOfMemory` for want of memory or of numbers alone.
    pub fn get_class_alias_if_needed(
        mut self,
        body: &mut Node,
        ctx: &mut TraverseCtx,
    ) -> Result<Option<BoundIdentifier>, OutOfMemory>
        requires { 0 < length (frames ctx.old.declarations) }
        ensures needed { IfOk result (λ alias. is_some alias
            ≡ names_class ctx.old.scoping self.class.symbol_id (node_doc body.old)) }
        ensures around { OnOk result (ctx.new.ancestors ≡ ctx.old.ancestors) }
        ensures depth { OnOk result
            (length (frames ctx.new.declarations) ≡ length (frames ctx.old.declarations)) }
    {
        self.rename_if_used(body, ctx)
    }

    /// Does so.
    fn rename_if_used(
        &mut self,
        body: &mut Node,
        ctx: &mut TraverseCtx,
    ) -> Result<Option<BoundIdentifier>, OutOfMemory>
        requires { 0 < length (frames ctx.old.declarations) }
        ensures needed { IfOk result (λ alias. is_some alias
            ≡ names_class ctx.old.scoping self.old.class.symbol_id (node_doc body.old)) }
        ensures around { OnOk result (ctx.new.ancestors ≡ ctx.old.ancestors) }
        ensures depth { OnOk result
            (length (frames ctx.new.declarations) ≡ length (frames ctx.old.declarations)) }
    {
        if self.find_uses(body, ctx)? {
            let alias = self.rename_uses(body, ctx)?;
            Ok(Some(alias))
        } else {
            Ok(None)
        }
    }

    /// Notes the uses of the class in its body; whether there are any.
    fn find_uses(&mut self, body: &mut Node, ctx: &TraverseCtx) -> Result<bool, OutOfMemory>
        ensures { IfOk result (λ is_used. is_used
            ≡ names_class ctx.now.scoping self.old.class.symbol_id (node_doc body.old)) }
    {
        let names = used_names(ctx.memory(), body)?;
        let is_used = is_any_use(&names, self.class.symbol_id, &ctx.scoping);
        if is_used {
            self.note_uses(&names, &ctx.scoping)?;
        }
        Ok(is_used)
    }

    /// Puts a name that is made for the class, and declared in the innermost list, in the place of the uses that are noted.
    fn rename_uses(
        &mut self,
        body: &mut Node,
        ctx: &mut TraverseCtx,
    ) -> Result<BoundIdentifier, OutOfMemory>
        requires { 0 < length (frames ctx.old.declarations) }
        ensures around { OnOk result (ctx.new.ancestors ≡ ctx.old.ancestors) }
        ensures depth { OnOk result
            (length (frames ctx.new.declarations) ≡ length (frames ctx.old.declarations)) }
    {
        let alias = create_uid_var(self.class.name.as_str(), ctx)?;
        self.put_alias(&alias.name, body, ctx)?;
        Ok(alias)
    }

    /// Notes which of the names are uses of the class.
    fn note_uses(&mut self, names: &[u64], scoping: &Scoping) -> Result<(), OutOfMemory> {
        for name in names {
            if means(NodeId(*name), self.class.symbol_id, scoping) {
                self.uses.insert(*name)?;
            }
        }
        Ok(())
    }

    /// Puts the name in the place of the uses.
    fn put_alias(
        &mut self,
        alias: &Name,
        body: &mut Node,
        ctx: &mut TraverseCtx,
    ) -> Result<(), OutOfMemory>
        ensures around { OnOk result (ctx.new.ancestors ≡ ctx.old.ancestors) }
        ensures depth { OnOk result
            (length (frames ctx.new.declarations) ≡ length (frames ctx.old.declarations)) }
    {
        self.alias = Some(alias.share()?);
        self.ids = ctx.ids;
        visit_mut(self, body)?;
        ctx.ids = self.ids;
        open_shorthands(body, alias.as_str());
        Ok(())
    }
}

impl VisitMut for ClassReferenceChanger {
    ghost use Rattle.std.specs.Prelude.{⊤, refl};

    ghost Seen = { ⊤ };

    ghost read = { λ _. tt };

    ghost spare = { λ _ k i. 0 };

    ghost by_fields = { λ k n b e ds es same. refl };

    ghost by_elements = { λ ds es same. refl };

    fn visit_identifier_reference(&mut self, node: &mut Node) -> Result<(), OutOfMemory> {
        if let Some(alias) = &self.alias {
            if self.uses.contains(&node.id.0) {
                *node = reference(*node.parts.allocator(), alias, &mut self.ids)?;
            }
        }
        Ok(())
    }
}

/// Whether a name in the body of the class is read as its alias by the plan. It may be gone when the class is left.
pub(crate) fn has_alias(class: &mut Node, plan: &Plan) -> Result<bool, OutOfMemory> {
    let alloc = *class.parts.allocator();
    let number = class.id;
    match child_mut(class, Field::Body) {
        Some(body) => {
            let names = used_names(alloc, body)?;
            Ok(names.iter().any(|name| is_alias(*name, number, plan)))
        }
        None => Ok(false),
    }
}

/// Whether the name of that number is read as the alias of that class.
fn is_alias(name: u64, class: NodeId, plan: &Plan) -> bool {
    match plan.alias_of(NodeId(name)) {
        Some(decorated) => decorated.0 == class.0,
        None => false,
    }
}

/// Whether one of the names of these numbers means the symbol, as a value.
fn is_any_use(names: &[u64], symbol: SymbolId, scoping: &Scoping) -> bool
    ensures { result ≡ list_any (means scoping.now symbol) names.now }
{
    names
        .iter()
        .any(|name| means(NodeId(*name), symbol, scoping))
}

/// Whether the name that is the node of that number means the symbol, as a value.
fn means(name: NodeId, symbol: SymbolId, scoping: &Scoping) -> bool
    ensures { result ≡ means scoping.now symbol name.0 }
{
    is_symbol(scoping.value_meaning_of(name), symbol)
}

/// Whether it is that symbol.
fn is_symbol(found: Option<SymbolId>, symbol: SymbolId) -> bool
    ensures { result ≡ is_symbol symbol found }
{
    match found {
        Some(found) => found.0 == symbol.0,
        None => false,
    }
}
