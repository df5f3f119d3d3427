//! Bare names of the members of an enum, which inside its function are members of its parameter.
//!
//! Before, in a block of `enum E` that has a member `a`:
//!
//! ```ts
//! b = f(a, { a }, (c = a) => c)
//! ```
//!
//! After:
//!
//! ```ts
//! b = f(E.a, { a: E.a }, (c = E.a) => c)
//! ```
ghost use Rattle.std.specs.Prelude.{◌≡◌, ◌<◌, ◌≤◌, IfOk, OnOk, length, nat_le, nat_lt, slice_get, true, ◌&&◌};
ghost use Rattle.oxt_lower.specs.Named.{is_here, is_member, is_member_of, means_member};
ghost use Rattle.oxt_lower.specs.Spare.{IsLight, spare_before};
ghost use Rattle.oxt_tree.specs.View.{node_doc};
ghost use Rattle.oxt_visit.specs.Weight.{weight};

use crate::facts::text_of;
use crate::shorthand::open_properties;
use bitflags::Flags;
use oxt_ctx::context::TraverseCtx;
use oxt_ctx::nodes::{member, property_name, reference};
use oxt_grammar::field::Field;
use oxt_grammar::kind::Kind;
use oxt_names::flags::SymbolFlags;
use oxt_names::ids::{NodeId, NodeIds, OutOfMemory, ScopeId, SymbolId};
use oxt_names::name::Name;
use oxt_scoping::scoping::Scoping;
use oxt_tree::tree::Node;
use oxt_visit::visitor::VisitJsMut;
use std::alloc::Global;

/// A visitor that puts in the place of each bare name of a member of an enum that member of the enum's
/// name. A shorthand property whose value is such a name is written out.
#[derive(Drop)]
pub struct IdentifierReferenceRename<'a> {
    /// What names mean.
    pub scoping: &'a Scoping,
    /// The scope in which the enum is declared.
    scope: ScopeId,
    /// How the enum is spelled.
    name: &'a Name,
    /// The first number that no node had before.
    first: u64,
    /// Where the numbers of made nodes come from.
    pub ids: NodeIds,
    /// The numbers of the names of the enum that were made, of which the table of names does not know yet.
    pub made: Vec<NodeId>,
}

impl<'a> IdentifierReferenceRename<'a> {
    /// A visitor for the initializers in an enum of that name, which is declared in that scope.
    pub fn new(
        alloc: Global,
        enum_name: &'a Name,
        enum_scope_id: ScopeId,
        ctx: &'a TraverseCtx,
    ) -> IdentifierReferenceRename<'a> {
        IdentifierReferenceRename {
            scoping: &ctx.scoping,
            scope: enum_scope_id,
            name: enum_name,
            first: ctx.ids.next,
            ids: ctx.ids,
            made: Vec::new(alloc),
        }
    }

    /// Puts the member in the place of its bare name.
    fn put_member(&mut self, node: &mut Node) -> Result<(), OutOfMemory>
        ensures light { OnOk result (IsLight self.old.ids.next (node_doc node.new)) }
        ensures first { self.new.first ≡ self.old.first }
    {
        let alloc = *node.parts.allocator();
        self.made.push(NodeId(self.ids.next))?;
        let name = name_of(alloc, node)?;
        *node = member_of(alloc, self.name, &name, &mut self.ids)?;
        Ok(())
    }

    /// Whether the node is a bare name of a member.
    pub fn is_renamed(&self, node: &Node) -> bool
        ensures heavy { result ≡ true → 3 ≤ weight (spare_before self.now.first) (node_doc node.now) }
        ensures behind { result ≡ true → self.now.first ≤ self.now.ids.next }
    {
        node.kind.is(Kind::IdentifierReference)
            && (self.is_old(node.id) && self.means_member(node.id))
    }

    /// Whether the node stood there before. What was made is not renamed again, so that a walk ends.
    fn is_old(&self, node: NodeId) -> bool
        ensures { result ≡ nat_lt node.0 self.now.first && nat_le self.now.first self.now.ids.next }
    {
        node.0 < self.first && self.first <= self.ids.next
    }

    /// Whether the name that is the node of that number means a member of the enum as a value.
    pub fn means_member(&self, node: NodeId) -> bool
        ensures { result ≡ means_member self.now.scoping.now self.now.scope node.0 }
    {
        self.is_member_of(self.scoping.value_meaning_of(node))
    }

    /// Whether the symbol is a member of the enum.
    fn is_member_of(&self, symbol: Option<SymbolId>) -> bool
        ensures { result ≡ is_member_of self.now.scoping.now self.now.scope symbol }
    {
        match symbol {
            Some(symbol) => self.scoping.has_symbol(symbol) && self.is_member(symbol),
            None => false,
        }
    }

    /// The same of a symbol of the table.
    fn is_member(&self, symbol: SymbolId) -> bool
        requires { symbol.0 < length self.now.scoping.now.symbols }
        ensures { result ≡ is_member self.now.scoping.now self.now.scope (slice_get self.now.scoping.now.symbols symbol.0) }
    {
        let body = self.scoping.symbol_scope_id(symbol);
        self.scoping
            .symbol_flags(symbol)
            .intersects(SymbolFlags::EnumMember)
            && self.is_here(self.scoping.scope_parent_id(body))
    }

    /// Whether that is the scope in which the enum is declared.
    fn is_here(&self, scope: Option<ScopeId>) -> bool
        ensures { result ≡ is_here self.now.scope scope }
    {
        match scope {
            Some(scope) => scope.0 == self.scope.0,
            None => false,
        }
    }
}

impl<'a> VisitJsMut for IdentifierReferenceRename<'a> {
    ghost use Rattle.std.specs.Prelude.{⊤, refl};
    ghost use Rattle.oxt_lower.specs.Spare.{spare_before};

    ghost Seen = { ⊤ };

    ghost read = { λ _. tt };

    ghost spare = { λ renames. spare_before renames.first };

    ghost by_fields = { λ k n b e ds es same. refl };

    ghost by_elements = { λ ds es same. refl };

    fn visit_expression(&mut self, node: &mut Node) -> Result<(), OutOfMemory> {
        if self.is_renamed(node) {
            self.put_member(node)
        } else {
            open_properties(self, node);
            Ok(())
        }
    }

    fn enter_scope(&mut self, _node: NodeId) -> Result<(), OutOfMemory> {
        Ok(())
    }

    fn leave_scope(&mut self) {}
}

/// `object.name`, of the names.
fn member_of(
    alloc: Global,
    object: &Name,
    name: &Name,
    ids: &mut NodeIds,
) -> Result<Node, OutOfMemory>
    ensures light { IfOk result (λ made. IsLight ids.old.next (node_doc made)) }
{
    let object = reference(alloc, object, ids)?;
    let property = property_name(alloc, name, ids)?;
    member(alloc, object, property, ids)
}

/// The name that the node is.
fn name_of(alloc: Global, node: &Node) -> Result<Name, OutOfMemory> {
    match node.field(Field::Name) {
        Some(part) => text_of(alloc, part),
        None => Name::new(alloc, ""),
    }
}
