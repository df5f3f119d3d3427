//! The blocks of enums and namespaces of a program.
ghost use Rattle.std.specs.Prelude.{◌≡◌, IfOk};
ghost use Rattle.oxt_enum_checks.specs.Blocks.{block_with, blocks, blocks_of, is_block_kind, own_block};
ghost use Rattle.oxt_enum_checks.specs.declared.blocks.Block.{Block};
ghost use Rattle.oxt_tree.specs.View.{doc_or_nil, docs_in, node_doc};

use oxt_grammar::field::Field;
use oxt_grammar::holds::Row;
use oxt_grammar::kind::Kind;
use oxt_names::ids::{NodeId, OutOfMemory};
use oxt_search::all::all_in;
use oxt_search::search::{Inside, Search, Visit};
use oxt_tree::tree::{Node, Part};
use std::alloc::Global;

/// A block of an enum or a namespace.
#[derive(Clone, Copy)]
pub struct Block {
    /// The node.
    pub node: NodeId,
    /// The node that is its name.
    pub name: NodeId,
}

/// The blocks of the program, erased ones too, in the order of the text.
///
/// # Errors
///
/// Fails only where memory runs out.
#[tactic(auto, using(oxt_search::proofs::Given::as_it_is))]
pub fn blocks_of(alloc: Global, program: &Node) -> Result<Vec<Block>, OutOfMemory>
    ensures { IfOk result (λ blocks. blocks.items ≡ blocks_of (node_doc program.now)) }
{
    all_in(alloc, &Blocks, program, ())
}

/// The search for blocks.
#[derive(Clone, Copy)]
struct Blocks;

impl Search for Blocks {
    type State = ();

    type Found = Block;

    ghost Seen = { Block };

    ghost view = { λ block. block };

    ghost sought = { λ _. blocks };

    #[tactic(auto, using(oxt_search::proofs::Given::as_it_is))]
    fn visit(&self, node: &Node, _state: ()) -> Visit<Block, ()> {
        Visit {
            found: own_block(node),
            inside: Inside::Alike(()),
        }
    }

    fn in_field(&self, _state: (), _kind: Kind, _row: &Row) -> Option<()> {
        Some(())
    }
}

/// The node as a block, if it is one and has a name.
pub fn own_block(node: &Node) -> Option<Block>
    ensures { result ≡ own_block node.now.kind node.now.id.0 (docs_in node.now.parts.items) }
{
    if is_block_kind(node.kind) {
        block_with(node.id, node.field(Field::Id))
    } else {
        None
    }
}

/// Whether nodes of the kind are blocks.
fn is_block_kind(kind: Kind) -> bool
    ensures { result ≡ is_block_kind kind }
{
    kind.is(Kind::TSEnumDeclaration) || kind.is(Kind::TSNamespaceDeclaration)
}

/// The block of that number with that name, if that is a node.
fn block_with(node: NodeId, name: Option<&Part>) -> Option<Block>
    ensures { result ≡ block_with node.0 (doc_or_nil name.entry) }
{
    match name {
        Some(Part::Node(name)) => Some(Block {
            node,
            name: name.id,
        }),
        _ => None,
    }
}
