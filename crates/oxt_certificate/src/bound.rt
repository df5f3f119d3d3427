//! The test that made names are bound once.
ghost use Rattle.std.specs.Prelude.{◌≡◌, ◌&&◌, ◌++◌, ◌∷◌, IfOk, List, OnOk, Some, if◌then◌else◌, is_some, option_map, ℕ};
ghost use Rattle.std.specs.Str.{bytes_eq};
ghost use Rattle.oxt_certificate.specs.Bound.{MadeAt, bound_again, each_made, made_names, misbound, misbound_among, named_at, own_made, same_node, stray};
ghost use Rattle.oxt_certificate.specs.BoundViews.{IsTableOf, made_view, made_views, node_in};
ghost use Rattle.oxt_facts.specs.Owners.{owner_in};
ghost use Rattle.oxt_names.specs.Names.{name_bytes};
ghost use Rattle.oxt_tree.specs.View.{docs_in, node_doc, part_doc};

use oxt_facts::facts::Facts;
use oxt_grammar::field::Field;
use oxt_grammar::kind::Kind;
use oxt_names::ids::{NodeId, OutOfMemory};
use oxt_names::name::Name;
use oxt_tree::tree::{Node, Part};
use std::alloc::Global;
use std::collections::HashMap;

/// A made name in a tree.
#[derive(Clone, Copy)]
struct MadeName<'a> {
    /// The number of its node.
    node: NodeId,
    /// Its spelling.
    name: &'a str,
    /// It is bound there, and not used.
    is_binding: bool,
}

/// The first binding of each made spelling, and the first spelling that two bindings have.
#[derive(Drop)]
struct Bindings<'a> {
    nodes: HashMap<&'a str, u64>,
    again: Option<&'a str>,
}

/// A made spelling of the tree that is not bound once, by what is known of its names: the first that two bindings have,
/// and else that of the first name whose owner is not the binding with its spelling.
///
/// # Errors
///
/// `OutOfMemory` for want of memory alone.
pub(crate) fn first_misbound(
    alloc: Global,
    facts: &Facts,
    output: &Node,
) -> Result<Option<Name>, OutOfMemory>
    ensures { IfOk result (λ name. option_map name_bytes name ≡ misbound facts.now (node_doc output.now)) }
{
    let mut names = Vec::new(alloc);
    push_node(facts, output, &mut names)?;
    match misbound_among(alloc, facts, names.as_slice())? {
        Some(name) => Ok(Some(Name::new(alloc, name)?)),
        None => Ok(None),
    }
}

/// The same among the made names of a tree.
fn misbound_among<'a>(
    alloc: Global,
    facts: &Facts,
    names: &[MadeName<'a>],
) -> Result<Option<&'a str>, OutOfMemory>
    ensures { IfOk result (λ name. option_map (λ t. t.now) name ≡ misbound_among facts.now.owners (made_views names.now)) }
{
    let bindings = Bindings::of(alloc, names)?;
    match bindings.again {
        Some(name) => Ok(Some(name)),
        None => Ok(first_stray(facts, &bindings, names)),
    }
}

impl<'a> Bindings<'a> {
    /// Those among the names.
    #[tactic(auto, using(crate::proofs::Bindings::table_steps))]
    fn of(alloc: Global, names: &[MadeName<'a>]) -> Result<Bindings<'a>, OutOfMemory>
        ensures { IfOk result (λ bindings. IsTableOf (made_views names.now) bindings) }
    {
        let mut bindings = Bindings {
            nodes: HashMap::new(alloc),
            again: None,
        };
        let mut i = names.len();
        while i > 0 {
            i -= 1;
            bindings.put(&names[i])?;
        }
        Ok(bindings)
    }

    /// Puts the name in front of the others, if it is bound.
    #[tactic(auto, using(crate::proofs::Bindings::put_steps))]
    fn put(&mut self, name: &MadeName<'a>) -> Result<(), OutOfMemory>
        ensures { OnOk result ((ns : List MadeAt) → IsTableOf ns self.old → IsTableOf (made_view name.now ∷ ns) self.new) }
    {
        if name.is_binding {
            self.put_binding(name.name, name.node)
        } else {
            Ok(())
        }
    }

    /// Puts a binding in front of the others.
    #[tactic(auto, using(crate::proofs::Bindings::node_put))]
    fn put_binding(&mut self, name: &'a str, node: NodeId) -> Result<(), OutOfMemory>
        ensures nodes { OnOk result ((t : List ℕ) → node_in self.new t
            ≡ (if bytes_eq t name.now then Some node.0 else node_in self.old t)) }
        ensures again { OnOk result (option_map (λ t. t.now) self.new.again
            ≡ (if is_some (node_in self.old name.now) then Some name.now else option_map (λ t. t.now) self.old.again)) }
    {
        self.again = if self.node_of(name).is_some() {
            Some(name)
        } else {
            self.again
        };
        self.nodes.insert(name, node.0)?;
        Ok(())
    }

    /// The number of the first binding with that spelling.
    fn node_of(&self, name: &str) -> Option<u64>
        ensures { result ≡ node_in self.now name.now }
    {
        self.nodes.get(name).copied()
    }
}

/// The spelling of the first of the names whose owner is not the binding with its spelling.
#[tactic(auto, using(crate::proofs::Bindings::stray_steps))]
fn first_stray<'a>(
    facts: &Facts,
    bindings: &Bindings<'a>,
    names: &[MadeName<'a>],
) -> Option<&'a str>
    ensures { (all : List MadeAt) → IsTableOf all bindings.now → option_map (λ t. t.now) result ≡ stray facts.now.owners all (made_views names.now) }
{
    for name in names {
        if !is_owned(facts, bindings, name) {
            return Some(name.name);
        }
    }
    None
}

/// Whether the owner of the name is the binding with its spelling.
fn is_owned(facts: &Facts, bindings: &Bindings<'_>, name: &MadeName<'_>) -> bool
    ensures { result ≡ same_node (owner_in facts.now.owners name.now.node.0) (node_in bindings.now name.now.name.now) }
{
    same_node(facts.declared_group(name.node), bindings.node_of(name.name))
}

/// Whether both are one node.
fn same_node(a: Option<u64>, b: Option<u64>) -> bool
    ensures { result ≡ same_node a b }
{
    match (a, b) {
        (Some(a), Some(b)) => a == b,
        _ => false,
    }
}

/// Appends the made names in the node.
#[cycle(made)]
fn push_node<'a>(
    facts: &Facts,
    node: &'a Node,
    out: &mut Vec<MadeName<'a>>,
) -> Result<(), OutOfMemory>
    ensures { OnOk result (made_views out.new.items
        ≡ made_views out.old.items ++ made_names facts.now (node_doc node.now)) }
{
    push_own(facts, node, out)?;
    push_each(facts, &node.parts, out)
}

/// Appends the made names in the part.
#[cycle(made)]
fn push_part<'a>(
    facts: &Facts,
    part: &'a Part,
    out: &mut Vec<MadeName<'a>>,
) -> Result<(), OutOfMemory>
    ensures { OnOk result (made_views out.new.items
        ≡ made_views out.old.items ++ made_names facts.now (part_doc part.now)) }
{
    match part {
        Part::Node(node) => push_node(facts, node, out),
        Part::List(parts) => push_each(facts, parts, out),
        _ => Ok(()),
    }
}

/// Appends the made names in the parts.
#[cycle(made)]
#[tactic(auto, using(crate::proofs::Bindings::made_steps))]
fn push_each<'a>(
    facts: &Facts,
    parts: &'a [Part],
    out: &mut Vec<MadeName<'a>>,
) -> Result<(), OutOfMemory>
    ensures { OnOk result (made_views out.new.items
        ≡ made_views out.old.items ++ each_made facts.now (docs_in parts.now)) }
{
    for part in parts {
        push_part(facts, part, out)?;
    }
    Ok(())
}

/// Appends the node itself, if it is a made name.
fn push_own<'a>(
    facts: &Facts,
    node: &'a Node,
    out: &mut Vec<MadeName<'a>>,
) -> Result<(), OutOfMemory>
    ensures { OnOk result (made_views out.new.items
        ≡ made_views out.old.items ++ own_made facts.now node.now.kind node.now.id.0 (docs_in node.now.parts.items)) }
{
    let is_binding = node.kind.is(Kind::BindingIdentifier);
    if is_binding || node.kind.is(Kind::IdentifierReference) {
        match node.field(Field::Name) {
            Some(name) if facts.is_made(name) => push_name(
                node.id,
                name.as_text(),
                is_binding,
                out,
            ),
            _ => Ok(()),
        }
    } else {
        Ok(())
    }
}

/// Appends the name at that node, if there is one.
#[tactic(auto, using(crate::proofs::Bindings::one_more))]
fn push_name<'a>(
    node: NodeId,
    name: Option<&'a str>,
    is_binding: bool,
    out: &mut Vec<MadeName<'a>>,
) -> Result<(), OutOfMemory>
    ensures { OnOk result (made_views out.new.items
        ≡ made_views out.old.items ++ named_at is_binding node.0 (option_map (λ t. t.now) name.entry)) }
{
    if let Some(name) = name {
        out.push(MadeName {
            node,
            name,
            is_binding,
        })?;
    }
    Ok(())
}
