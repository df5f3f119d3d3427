//! Made nodes, which have no place in a source text.
ghost use Rattle.std.specs.Prelude.{◌≡◌, ◌+◌, ◌≤◌, [], IfOk, OnOk, option_map, vec_capacity};
ghost use Rattle.oxt_grammar.specs.Words.{text_of};
ghost use Rattle.oxt_names.specs.Names.{name_bytes};
ghost use Rattle.oxt_tree.specs.View.{node_doc, part_doc};
ghost use Rattle.oxt_stores.specs.Frame.{binding, declaration, declarator, or_null};
ghost use Rattle.oxt_stores.specs.Insertion.{docs};

use crate::insertions::push_within;
use oxt_grammar::kind::Kind;
use oxt_grammar::word::Word;
use oxt_names::ids::{NodeId, NodeIds, OutOfMemory, Span};
use oxt_names::name::Name;
use oxt_tree::tree::{Node, Part};
use std::alloc::Global;

/// A name that is bound.
pub fn binding(alloc: Global, name: &Name, ids: &mut NodeIds) -> Result<Node, OutOfMemory>
    ensures made { IfOk result (λ made. node_doc made ≡ binding ids.old.next (name_bytes name.now)) }
    ensures used { OnOk result (ids.new.next ≡ ids.old.next + 1) }
    ensures risen { ids.old.next ≤ ids.new.next }
{
    let mut parts = Vec::with_capacity(alloc, 1)?;
    parts.push(Part::Text(name.share()?))?;
    Ok(Node {
        kind: Kind::BindingIdentifier,
        id: ids.fresh()?,
        span: Span::NONE,
        parts,
    })
}

/// A declarator of a pattern, without a type.
pub fn declarator(
    alloc: Global,
    pattern: Node,
    init: Option<Node>,
    ids: &mut NodeIds,
) -> Result<Node, OutOfMemory>
    ensures made { IfOk result (λ made. node_doc made
        ≡ declarator ids.old.next (node_doc pattern) (option_map node_doc init)) }
    ensures used { OnOk result (ids.new.next ≡ ids.old.next + 1) }
    ensures risen { ids.old.next ≤ ids.new.next }
{
    let mut parts = Vec::with_capacity(alloc, 4)?;
    parts.push(Part::Node(pattern))?;
    parts.push(Part::Nothing)?;
    parts.push(Part::Flag(false))?;
    parts.push(node_or_nothing(init))?;
    Ok(Node {
        kind: Kind::VariableDeclarator,
        id: ids.fresh()?,
        span: Span::NONE,
        parts,
    })
}

/// The node as a part, or null.
fn node_or_nothing(node: Option<Node>) -> Part
    ensures { part_doc result ≡ or_null (option_map node_doc node) }
{
    match node {
        Some(node) => Part::Node(node),
        None => Part::Nothing,
    }
}

/// A number and room for the fields of a statement that is to be made.
#[derive(Drop)]
pub struct Blank {
    /// The number.
    pub id: NodeId,
    /// No fields yet, and room for three.
    pub parts: Vec<Part>,
}

impl Blank {
    /// A fresh number, and room.
    pub fn new(alloc: Global, ids: &mut NodeIds) -> Result<Blank, OutOfMemory>
        ensures number { IfOk result (λ blank. blank.id.0 ≡ ids.old.next) }
        ensures empty { IfOk result (λ blank. blank.parts.items ≡ []) }
        ensures room { IfOk result (λ blank. 3 ≤ vec_capacity blank.parts) }
        ensures used { OnOk result (ids.new.next ≡ ids.old.next + 1) }
        ensures risen { ids.old.next ≤ ids.new.next }
    {
        let parts = Vec::with_capacity(alloc, 3)?;
        Ok(Blank {
            id: ids.fresh()?,
            parts,
        })
    }

    /// The statement that declares these.
    pub fn into_declaration(self, kind: Word, declarators: Vec<Part>) -> Node
        requires empty { self.parts.items ≡ [] }
        requires room { 3 ≤ vec_capacity self.parts }
        ensures { node_doc result ≡ declaration self.id.0 (text_of kind) (docs declarators.items) }
    {
        let mut parts = self.parts;
        push_within(&mut parts, Part::Word(kind));
        push_within(&mut parts, Part::List(declarators));
        push_within(&mut parts, Part::Flag(false));
        Node {
            kind: Kind::VariableDeclaration,
            id: self.id,
            span: Span::NONE,
            parts,
        }
    }
}
