//! The blocks of enums and the names in types, in the order of the text.
ghost use Rattle.std.specs.Prelude.{◌≡◌, IfOk};
ghost use Rattle.oxt_grammar.specs.Field.{row_view};
ghost use Rattle.oxt_metadata.specs.Events.{block_at, event_at, events, field_around, inside_around, is_counted, name_at, sought};
ghost use Rattle.oxt_metadata.specs.Meant.{declared_by};
ghost use Rattle.oxt_tree.specs.View.{doc_or_nil, docs_in, node_doc};

use crate::shape::{Shape, shape_of};
use crate::symbols::declared_by;
use oxt_declares::dropped::{is_declared_field, is_dropped};
use oxt_grammar::field::Field;
use oxt_grammar::holds::Row;
use oxt_grammar::kind::Kind;
use oxt_names::ids::{NodeId, OutOfMemory, SymbolId};
use oxt_scoping::scoping::Scoping;
use oxt_search::all::all_in;
use oxt_search::search::{Inside, Search, Visit};
use oxt_tree::tree::{Node, Part};
use std::alloc::Global;

/// What stands in the text.
#[derive(Clone, Copy)]
pub enum Event {
    /// A block of the enum of that symbol, of that shape.
    Block(SymbolId, Shape),
    /// A type that is the name of that number, which means that symbol.
    Name(NodeId, SymbolId),
}

/// What stands around a node.
#[derive(Clone, Copy)]
pub enum Around {
    /// Code.
    Code,
    /// The block of a namespace.
    Namespace,
    /// An export of the program.
    Export,
    /// A field that is only declared.
    Declared,
    /// Erased code.
    Erased,
}

/// The blocks of enums outside erased code that stand without `export` once namespaces are lowered, and the types that are
/// names which mean something, in the order of the text.
///
/// # Errors
///
/// Fails only where memory runs out.
#[tactic(auto, using(oxt_search::proofs::Given::as_it_is))]
pub fn events_of(
    alloc: Global,
    program: &Node,
    scoping: &Scoping,
) -> Result<Vec<Event>, OutOfMemory>
    ensures { IfOk result (λ found. found.items ≡ events scoping.now (node_doc program.now)) }
{
    all_in(alloc, &Events { scoping }, program, Around::Code)
}

/// The search for them.
#[derive(Clone, Copy)]
struct Events<'a> {
    scoping: &'a Scoping,
}

impl<'a> Search for Events<'a> {
    ghost use Rattle.oxt_metadata.specs.declared.events.Event.{Event};

    type State = Around;

    type Found = Event;

    ghost Seen = { Event };

    ghost view = { λ event. event };

    ghost sought = { λ search. sought search.scoping.now };

    #[tactic(auto, using(oxt_search::proofs::Given::as_it_is))]
    fn visit(&self, node: &Node, around: Around) -> Visit<Event, Around> {
        Visit {
            found: event_at(self.scoping, around, node),
            inside: inside_around(around, node),
        }
    }

    fn in_field(&self, around: Around, _kind: Kind, row: &Row) -> Option<Around> {
        Some(field_around(around, row))
    }
}

/// What the node is, around which that stands.
fn event_at(scoping: &Scoping, around: Around, node: &Node) -> Option<Event>
    ensures { result ≡ event_at scoping.now around node.now.kind node.now.id.0 (docs_in node.now.parts.items) }
{
    if node.kind.is(Kind::TSEnumDeclaration) {
        block_at(scoping, around, node)
    } else if node.kind.is(Kind::TSTypeReference) {
        name_at(scoping, node.field(Field::TypeName))
    } else {
        None
    }
}

/// The block, if it counts.
fn block_at(scoping: &Scoping, around: Around, node: &Node) -> Option<Event>
    ensures { result ≡ block_at scoping.now around node.now.kind (docs_in node.now.parts.items) }
{
    let symbol = declared_by(scoping, node.field(Field::Id))?;
    if is_counted(around) && !is_dropped(node) {
        Some(Event::Block(symbol, shape_of(node)))
    } else {
        None
    }
}

/// Whether the walk enters a block around which that stands without an export.
fn is_counted(around: Around) -> bool
    ensures { result ≡ is_counted around }
{
    match around {
        Around::Code => true,
        Around::Namespace => true,
        _ => false,
    }
}

/// The name, if it is a single one and means something.
fn name_at(scoping: &Scoping, name: Option<&Part>) -> Option<Event>
    ensures { result ≡ name_at scoping.now (doc_or_nil name.entry) }
{
    match name {
        Some(Part::Node(name)) => Some(Event::Name(name.id, scoping.meaning_of(name.id)?)),
        _ => None,
    }
}

/// How the search goes on inside the node, around which that stands.
fn inside_around(around: Around, node: &Node) -> Inside<Around>
    ensures { result ≡ inside_around around node.now.kind (docs_in node.now.parts.items) }
{
    match around {
        Around::Erased => Inside::Alike(Around::Erased),
        _ if is_declared_field(node) => Inside::ByField(Around::Declared),
        _ if is_dropped(node) => Inside::Alike(Around::Erased),
        Around::Namespace if node.kind.is(Kind::ExportDeclaration) => Inside::Alike(Around::Code),
        _ if node.kind.is(Kind::ExportDeclaration) => Inside::Alike(Around::Export),
        _ if node.kind.is(Kind::TSModuleBlock) => Inside::Alike(Around::Namespace),
        _ => Inside::Alike(Around::Code),
    }
}

/// What stands around a field of a node that is searched by fields: decorators of a field that is only declared are code, and
/// all else of it is erased.
fn field_around(around: Around, row: &Row) -> Around
    ensures { result ≡ field_around around (row_view row.now) }
{
    match around {
        Around::Declared if row.is(Field::Decorators) => Around::Code,
        _ => Around::Erased,
    }
}
