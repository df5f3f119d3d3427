//! What nodes say of the scopes of functions, namespaces and the program besides their kinds.
ghost use Rattle.std.specs.List.{list_any};
ghost use Rattle.std.specs.Prelude.{◌≡◌, ◌==◌, ◌++◌, IfOk, OnOk, Some, ℕ, codes, if◌then◌else◌};
ghost use Rattle.oxt_tree.specs.Fields.{docs_list, field_of, named};
ghost use Rattle.oxt_tree.specs.View.{doc_or_nil, docs_in, node_doc, part_doc};
ghost use Rattle.oxt_resolve.specs.Flags.{both};
ghost use Rattle.oxt_resolve.specs.Gathered.{at_number};
ghost use Rattle.oxt_resolve.specs.Marks.{accessor_flags, accessor_mark, each_marks, flags_in, has_function, has_use_strict, is_use_strict, mark_of, mark_views, marked, marks, marks_of, own_marks, says_strict, strict_mark};

use crate::flags::{both, no_flags};
use oxt_declares::names::field_within;
use oxt_declares::role::Role;
use oxt_declares::role_of::role_of;
use oxt_grammar::field::Field;
use oxt_grammar::kind::Kind;
use oxt_names::flags::ScopeFlags;
use oxt_names::ids::{NodeId, OutOfMemory};
use oxt_tree::tree::{Node, Part};
use std::alloc::Global;
use std::collections::HashMap;

/// That the scope of a node has flags besides those of its kind.
#[derive(Clone, Copy)]
pub struct Mark {
    /// The number of the node.
    pub node: NodeId,
    /// The flags.
    pub flags: ScopeFlags,
}

/// The flags that nodes give to scopes, by the numbers of the nodes that open these.
#[derive(Drop)]
pub struct Marks {
    flags: HashMap<u64, ScopeFlags>,
}

impl Marks {
    /// Those of the tree.
    ///
    /// # Errors
    ///
    /// Fails only where memory runs out.
    pub fn of(alloc: Global, program: &Node) -> Result<Marks, OutOfMemory>
        ensures { IfOk result (λ m. flags_in m ≡ marks_of (node_doc program.now)) }
    {
        let marks = marks_in(alloc, program)?;
        Marks::new(alloc, marks.as_slice())
    }

    /// The table of these marks.
    #[tactic(auto, using(crate::proofs::Gatherings::mark_froms))]
    fn new(alloc: Global, marks: &[Mark]) -> Result<Marks, OutOfMemory>
        ensures { IfOk result (λ m. flags_in m ≡ marked (mark_views marks.now)) }
    {
        let mut table = Marks {
            flags: HashMap::new(alloc),
        };
        for mark in marks {
            table.put(mark)?;
        }
        Ok(table)
    }

    /// Gives the scope the flags of the mark besides its others.
    fn put(&mut self, mark: &Mark) -> Result<(), OutOfMemory>
        ensures { OnOk result ((n : ℕ) → flags_in self.new n
            ≡ (if n == mark.now.node.0 then both (flags_in self.old n) mark.now.flags else flags_in self.old n)) }
    {
        let flags = both(self.flags_of(mark.node), mark.flags);
        put_flags(mark.node, flags, &mut self.flags)?;
        Ok(())
    }

    /// The flags that the scope of the node of that number has besides those of its kind.
    pub fn flags_of(&self, node: NodeId) -> ScopeFlags
        ensures { result ≡ flags_in self.now node.0 }
    {
        match self.flags.get(&node.0) {
            Some(flags) => *flags,
            None => no_flags(),
        }
    }
}

/// Puts the flags at that number.
fn put_flags(
    node: NodeId,
    flags: ScopeFlags,
    table: &mut HashMap<u64, ScopeFlags>,
) -> Result<(), OutOfMemory>
    ensures { OnOk result ((n : ℕ) → at_number n table.new.entries
        ≡ (if n == node.0 then Some flags else at_number n table.old.entries)) }
{
    table.insert(node.0, flags)?;
    Ok(())
}

/// The marks in the tree, in the order of the text.
fn marks_in(alloc: Global, program: &Node) -> Result<Vec<Mark>, OutOfMemory>
    ensures { IfOk result (λ v. mark_views v.items ≡ marks (node_doc program.now)) }
{
    let mut out = Vec::new(alloc);
    push_node(program, &mut out)?;
    Ok(out)
}

/// Appends the marks in the node.
#[cycle(marks)]
fn push_node(node: &Node, out: &mut Vec<Mark>) -> Result<(), OutOfMemory>
    ensures { OnOk result (mark_views out.new.items
        ≡ mark_views out.old.items ++ marks (node_doc node.now)) }
{
    let _span = node.span;
    push_own_marks(node, out)?;
    push_each(&node.parts, out)
}

/// Appends the marks in the part.
#[cycle(marks)]
fn push_part(part: &Part, out: &mut Vec<Mark>) -> Result<(), OutOfMemory>
    ensures { OnOk result (mark_views out.new.items
        ≡ mark_views out.old.items ++ marks (part_doc part.now)) }
{
    match part {
        Part::Node(node) => push_node(node, out),
        Part::List(parts) => push_each(parts, out),
        _ => Ok(()),
    }
}

/// Appends the marks in the parts.
#[cycle(marks)]
#[tactic(auto, using(crate::proofs::Walks::mark_steps))]
fn push_each(parts: &[Part], out: &mut Vec<Mark>) -> Result<(), OutOfMemory>
    ensures { OnOk result (mark_views out.new.items
        ≡ mark_views out.old.items ++ each_marks (docs_in parts.now)) }
{
    for part in parts {
        push_part(part, out)?;
    }
    Ok(())
}

/// Appends the marks of the node itself.
fn push_own_marks(node: &Node, out: &mut Vec<Mark>) -> Result<(), OutOfMemory>
    ensures { OnOk result (mark_views out.new.items
        ≡ mark_views out.old.items ++ own_marks node.now.kind node.now.id.0 (docs_in node.now.parts.items)) }
{
    let role = role_of(node.kind);
    push_strict(says_strict(role, node), node.id, out)?;
    if has_function(role, node.kind) {
        return push_accessor(node, out);
    }
    Ok(())
}

/// Appends that the scope of that number is strict, if it is.
#[tactic(auto, using(crate::proofs::Walks::one_mark))]
fn push_strict(is_strict: bool, node: NodeId, out: &mut Vec<Mark>) -> Result<(), OutOfMemory>
    ensures { OnOk result (mark_views out.new.items
        ≡ mark_views out.old.items ++ strict_mark is_strict node.0) }
{
    if is_strict {
        out.push(Mark {
            node,
            flags: ScopeFlags::StrictMode,
        })?;
    }
    Ok(())
}

/// Whether the node says that its scope is strict.
fn says_strict(role: Role, node: &Node) -> bool
    ensures { result ≡ says_strict role node.now.kind (docs_in node.now.parts.items) }
{
    match role {
        Role::Program => is_strict_program(node),
        Role::Function => is_strict_within(node),
        Role::FunctionExpression => is_strict_within(node),
        Role::Arrow => is_strict_within(node),
        Role::Namespace => is_strict_within(node),
        Role::Module => is_strict_within(node),
        _ => false,
    }
}

/// Whether it is a module, or says `use strict`.
fn is_strict_program(node: &Node) -> bool
    ensures { result ≡ says_strict Role.Program node.now.kind (docs_in node.now.parts.items) }
{
    node.holds_text(Field::SourceType, "module") || has_use_strict(node.field(Field::Directives))
}

/// Whether its body says `use strict`.
fn is_strict_within(node: &Node) -> bool
    ensures { result ≡ has_use_strict (field_of (codes "directives") (named (codes "body") node.now.kind (docs_in node.now.parts.items))) }
{
    has_use_strict(field_within(node, Field::Body, Field::Directives))
}

/// Whether `use strict` stands among the directives.
fn has_use_strict(directives: Option<&Part>) -> bool
    ensures { result ≡ has_use_strict (doc_or_nil directives.entry) }
{
    match directives {
        Some(part) => says_use_strict(part.elements()),
        None => false,
    }
}

/// Whether one of the directives is `use strict`.
#[tactic(auto, using(oxt_tree::proofs::Lists::searches))]
fn says_use_strict(directives: &[Part]) -> bool
    ensures { result ≡ list_any is_use_strict (docs_list (docs_in directives.now)) }
{
    is_any_use_strict(directives)
}

/// Whether one of the directives is `use strict`.
fn is_any_use_strict(directives: &[Part]) -> bool
    ensures { result ≡ list_any (λ directive. is_use_strict (part_doc directive)) directives.now }
{
    directives.iter().any(|directive| is_use_strict(directive))
}

fn is_use_strict(directive: &Part) -> bool
    ensures { result ≡ is_use_strict (part_doc directive.now) }
{
    match directive.field(Field::Value) {
        Some(value) => value.is_text("use strict"),
        None => false,
    }
}

/// Whether the node may be a constructor, a getter or a setter.
fn has_function(role: Role, kind: Kind) -> bool
    ensures { result ≡ has_function role kind }
{
    match role {
        Role::Method => true,
        _ => kind.is(Kind::ObjectProperty),
    }
}

/// Appends that the function of the node is that of a constructor, a getter or a setter, if it is.
fn push_accessor(node: &Node, out: &mut Vec<Mark>) -> Result<(), OutOfMemory>
    ensures { OnOk result (mark_views out.new.items
        ≡ mark_views out.old.items ++ accessor_mark node.now.kind (docs_in node.now.parts.items)) }
{
    match accessor_flags(node) {
        Some(flags) => push_flags(node.field(Field::Value), flags, out),
        None => Ok(()),
    }
}

/// The flags of the function of a constructor, a getter or a setter.
fn accessor_flags(node: &Node) -> Option<ScopeFlags>
    ensures { result ≡ accessor_flags (named (codes "kind") node.now.kind (docs_in node.now.parts.items)) }
{
    if node.holds_text(Field::Kind, "constructor") {
        Some(ScopeFlags::Constructor)
    } else if node.holds_text(Field::Kind, "get") {
        Some(ScopeFlags::GetAccessor)
    } else if node.holds_text(Field::Kind, "set") {
        Some(ScopeFlags::SetAccessor)
    } else {
        None
    }
}

/// Appends that the function has those flags.
#[tactic(auto, using(crate::proofs::Walks::one_mark))]
fn push_flags(
    function: Option<&Part>,
    flags: ScopeFlags,
    out: &mut Vec<Mark>,
) -> Result<(), OutOfMemory>
    ensures { OnOk result (mark_views out.new.items
        ≡ mark_views out.old.items ++ mark_of (doc_or_nil function.entry) (Some flags)) }
{
    if let Some(Part::Node(function)) = function {
        out.push(Mark {
            node: function.id,
            flags,
        })?;
    }
    Ok(())
}
