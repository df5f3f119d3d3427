//! What one walk does for visitors of both sorts that change a tree.
ghost use Rattle.std.specs.Prelude.{◌≡◌, ◌≤◌, ◌++◌, ℕ, List, OnOk, true};
ghost use Rattle.oxt_grammar.specs.declared.category.Category.{Category};
ghost use Rattle.oxt_grammar.specs.declared.kind.Kind.{Kind};
ghost use Rattle.oxt_tree.specs.Doc.{Doc, Docs, list, node};
ghost use Rattle.oxt_tree.specs.View.{node_doc};
ghost use Rattle.oxt_visit.specs.Calls.{Call, entered, left, visited};
ghost use Rattle.oxt_visit.specs.Hooks.{Hooks, expressions_and_scopes, used_names};
ghost use Rattle.oxt_visit.specs.Reading.{readings};
ghost use Rattle.oxt_visit.specs.Weight.{weight};

use crate::place::{is_expression, opens_scope};
use crate::visitor::{VisitJsMut, VisitMut};
use oxt_grammar::category::Category;
use oxt_grammar::kind::Kind;
use oxt_names::ids::{NodeId, OutOfMemory};
use oxt_tree::tree::Node;

/// The sort of a `VisitJsMut`.
pub struct OfExpressions;

/// The sort of a `VisitMut`.
pub struct OfNames;

/// A visitor of a sort, which says for which nodes it is called.
pub trait Walker<Sort> {
    /// What is read of documents.
    ghost Seen: { Type 0 };

    /// How they are read.
    ghost read: { Doc → Seen };

    /// What a node has to spare, by its kind and number.
    ghost spare: { Self → Kind → ℕ → ℕ };

    /// What it has noted of the calls so far.
    ghost log: { Self → List Call };

    /// What it notes of a call.
    ghost trace: { Call → List Call };

    /// For which nodes hooks are called.
    ghost hooks: { Hooks };

    /// Whether a node of the kind is visited at that place.
    fn is_visited(place: Category, kind: Kind) -> bool
        ensures { result ≡ hooks.visits place kind };

    /// Whether the scopes of nodes of the kind are entered.
    fn is_entered(kind: Kind) -> bool
        ensures { result ≡ hooks.enters kind };

    /// At a node that is visited, before its parts.
    fn visit(&mut self, node: &mut Node) -> Result<(), OutOfMemory>
        ensures kept { OnOk result (read (node_doc node.new) ≡ read (node_doc node.old)) }
        ensures no_heavier { OnOk result (weight (spare self.old) (node_doc node.new) ≤ weight (spare self.old) (node_doc node.old)) }
        ensures steady { OnOk result (spare self.new ≡ spare self.old) }
        ensures logged { OnOk result (log self.new ≡ log self.old ++ trace (visited (node_doc node.old) (node_doc node.new))) };

    /// Before the parts of a node of that kind. It is called where the scopes of such nodes are entered.
    fn enter(&mut self, kind: Kind, node: NodeId) -> Result<(), OutOfMemory>
        ensures steady { OnOk result (spare self.new ≡ spare self.old) }
        ensures logged { OnOk result (hooks.enters kind ≡ true → log self.new ≡ log self.old ++ trace (entered node.0)) };

    /// After them.
    fn leave(&mut self, kind: Kind)
        ensures steady { spare self.new ≡ spare self.old }
        ensures logged { hooks.enters kind ≡ true → log self.new ≡ log self.old ++ trace left };

    /// The reading of a node follows from those of its fields.
    ghost by_fields: { (k : Kind) → (n b e : ℕ) → (ds es : Docs) → readings read ds ≡ readings read es → read (node k n b e ds) ≡ read (node k n b e es) };

    /// The reading of a list follows from those of its elements.
    ghost by_elements: { (ds es : Docs) → readings read ds ≡ readings read es → read (list ds) ≡ read (list es) };
}

impl<V: VisitJsMut> Walker<OfExpressions> for V {
    ghost Seen = { V.Seen };

    ghost read = { V.read };

    ghost spare = { V.spare };

    ghost log = { V.log };

    ghost trace = { V.trace };

    ghost hooks = { expressions_and_scopes };

    ghost by_fields = { V.by_fields };

    ghost by_elements = { V.by_elements };

    fn is_visited(place: Category, kind: Kind) -> bool {
        is_expression(place, kind)
    }

    fn is_entered(kind: Kind) -> bool {
        opens_scope(kind)
    }

    fn visit(&mut self, node: &mut Node) -> Result<(), OutOfMemory> {
        self.visit_expression(node)
    }

    fn enter(&mut self, _kind: Kind, node: NodeId) -> Result<(), OutOfMemory> {
        self.enter_scope(node)
    }

    fn leave(&mut self, _kind: Kind) {
        self.leave_scope();
    }
}

impl<V: VisitMut> Walker<OfNames> for V {
    ghost Seen = { V.Seen };

    ghost read = { V.read };

    ghost spare = { V.spare };

    ghost log = { V.log };

    ghost trace = { V.trace };

    ghost hooks = { used_names };

    ghost by_fields = { V.by_fields };

    ghost by_elements = { V.by_elements };

    fn is_visited(_place: Category, kind: Kind) -> bool {
        kind.is(Kind::IdentifierReference)
    }

    fn is_entered(_kind: Kind) -> bool {
        false
    }

    fn visit(&mut self, node: &mut Node) -> Result<(), OutOfMemory> {
        self.visit_identifier_reference(node)
    }

    fn enter(&mut self, _kind: Kind, _node: NodeId) -> Result<(), OutOfMemory> {
        Ok(())
    }

    fn leave(&mut self, _kind: Kind) {}
}
