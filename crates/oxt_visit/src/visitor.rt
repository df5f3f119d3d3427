//! What visitors do at the nodes of a tree.
ghost use Rattle.std.specs.Prelude.{◌≡◌, ◌≤◌, ◌++◌, ℕ, List, [], OnOk};
ghost use Rattle.oxt_grammar.specs.declared.kind.Kind.{Kind};
ghost use Rattle.oxt_tree.specs.Doc.{Doc, Docs, list, node};
ghost use Rattle.oxt_tree.specs.View.{node_doc};
ghost use Rattle.oxt_visit.specs.Calls.{Call, entered, left, visited};
ghost use Rattle.oxt_visit.specs.Reading.{readings};
ghost use Rattle.oxt_visit.specs.Weight.{weight};

use oxt_names::ids::{NodeId, OutOfMemory};
use oxt_tree::tree::Node;

/// A visitor that changes the expressions of a tree. Its hooks do not walk: a walk calls them, and goes into what stands there then.
///
/// A visitor names a reading of documents in which what its hooks change does not show. The reading of a node follows from
/// those of its fields, and so does that of a list from its elements; a walk then keeps it of the whole tree.
///
/// A walk ends, since hooks make no node heavier. A node weighs one, what its fields weigh, and what it has to spare: what a
/// hook may still put in its place. A visitor says by its kind and number what that is, and holds to it.
///
/// A visitor may name a log, and what each call of a hook adds to it: each hook then adds that. No hook has a body here, since
/// one that does nothing would be right for every visitor, and then a walk that calls no hook would be right too.
///
/// # Errors
///
/// `OutOfMemory` for want of memory or of numbers alone. The tree and the visitor may then only be dropped.
pub trait VisitJsMut {
    /// What is read of documents.
    ghost Seen: { Type 0 };

    /// How they are read.
    ghost read: { Doc → Seen };

    /// What a node has to spare, by its kind and number.
    ghost spare: { Self → Kind → ℕ → ℕ };

    /// What it has noted of the calls so far.
    ghost log: { Self → List Call } = { λ _. [] };

    /// What it notes of a call.
    ghost trace: { Call → List Call } = { λ _. [] };

    /// At an expression, before its parts. The expression may be changed or replaced.
    fn visit_expression(&mut self, node: &mut Node) -> Result<(), OutOfMemory>
        ensures kept { OnOk result (read (node_doc node.new) ≡ read (node_doc node.old)) }
        ensures no_heavier { OnOk result (weight (spare self.old) (node_doc node.new) ≤ weight (spare self.old) (node_doc node.old)) }
        ensures steady { OnOk result (spare self.new ≡ spare self.old) }
        ensures logged { OnOk result (log self.new ≡ log self.old ++ trace (visited (node_doc node.old) (node_doc node.new))) };

    /// Before the parts of a node that opens a scope.
    fn enter_scope(&mut self, node: NodeId) -> Result<(), OutOfMemory>
        ensures steady { OnOk result (spare self.new ≡ spare self.old) }
        ensures logged { OnOk result (log self.new ≡ log self.old ++ trace (entered node.0)) };

    /// After them.
    fn leave_scope(&mut self)
        ensures steady { spare self.new ≡ spare self.old }
        ensures logged { log self.new ≡ log self.old ++ trace left };

    /// The reading of a node follows from those of its fields.
    ghost by_fields: { (k : Kind) → (n b e : ℕ) → (ds es : Docs) → readings read ds ≡ readings read es → read (node k n b e ds) ≡ read (node k n b e es) };

    /// The reading of a list follows from those of its elements.
    ghost by_elements: { (ds es : Docs) → readings read ds ≡ readings read es → read (list ds) ≡ read (list es) };
}

/// A visitor that changes the names in a tree. Its hook does not walk: a walk calls it, and goes into what stands there then.
///
/// What it reads, has to spare and notes is as with [`VisitJsMut`].
///
/// # Errors
///
/// `OutOfMemory` for want of memory or of numbers alone. The tree and the visitor may then only be dropped.
pub trait VisitMut {
    /// What is read of documents.
    ghost Seen: { Type 0 };

    /// How they are read.
    ghost read: { Doc → Seen };

    /// What a node has to spare, by its kind and number.
    ghost spare: { Self → Kind → ℕ → ℕ };

    /// What it has noted of the calls so far.
    ghost log: { Self → List Call } = { λ _. [] };

    /// What it notes of a call.
    ghost trace: { Call → List Call } = { λ _. [] };

    /// At a name that is used. It may be changed or replaced.
    fn visit_identifier_reference(&mut self, node: &mut Node) -> Result<(), OutOfMemory>
        ensures kept { OnOk result (read (node_doc node.new) ≡ read (node_doc node.old)) }
        ensures no_heavier { OnOk result (weight (spare self.old) (node_doc node.new) ≤ weight (spare self.old) (node_doc node.old)) }
        ensures steady { OnOk result (spare self.new ≡ spare self.old) }
        ensures logged { OnOk result (log self.new ≡ log self.old ++ trace (visited (node_doc node.old) (node_doc node.new))) };

    /// The reading of a node follows from those of its fields.
    ghost by_fields: { (k : Kind) → (n b e : ℕ) → (ds es : Docs) → readings read ds ≡ readings read es → read (node k n b e ds) ≡ read (node k n b e es) };

    /// The reading of a list follows from those of its elements.
    ghost by_elements: { (ds es : Docs) → readings read ds ≡ readings read es → read (list ds) ≡ read (list es) };
}

/// A visitor that looks at the expressions of a tree. Its hook does not walk: a walk calls it.
///
/// A visitor may name what it has noted so far, and what a call makes of that. The hook has no body here, since one that
/// does nothing would be right for every visitor, and then a walk that calls no hook would be right too.
pub trait VisitJs {
    /// What is noted.
    ghost Notes: { Type 0 };

    /// What it has noted of the calls so far.
    ghost notes: { Self → Notes };

    /// What it has noted after a call, from what it had noted before.
    ghost note: { Notes → Call → Notes };

    /// At an expression, before its parts.
    fn visit_expression(&mut self, node: &Node)
        ensures noted { notes self.new ≡ note (notes self.old) (visited (node_doc node.now) (node_doc node.now)) };
}
