//! The shapes of the enums that names in types mean, by the last block before each name.
ghost use Rattle.std.specs.Prelude.{◌≡◌, ℕ, IfOk, None, OnOk, nat_eq};
ghost use Rattle.std.specs.Map.{lookup};
ghost use Rattle.oxt_metadata.specs.Events.{events};
ghost use Rattle.oxt_metadata.specs.Latest.{noted, shape_in, shaped, shapes_at, with_block, with_shape};
ghost use Rattle.oxt_tree.specs.View.{node_doc};

use crate::events::{Event, events_of};
use crate::shape::Shape;
use oxt_names::ids::{NodeId, OutOfMemory, SymbolId};
use oxt_scoping::scoping::Scoping;
use oxt_tree::tree::Node;
use std::alloc::Global;
use std::collections::HashMap;

/// The shapes of the enums that names in types mean, by the numbers of the names.
#[derive(Drop)]
pub struct EnumShapes {
    shapes: HashMap<u64, Shape>,
}

/// The shapes of the blocks that stood last, by the numbers of their enums' symbols.
type Latest = HashMap<u64, Shape>;

impl EnumShapes {
    /// Those of the program: each name has the shape of the last block of its enum that stands before it outside erased code,
    /// without `export` once namespaces are lowered.
    ///
    /// # Errors
    ///
    /// Fails only where memory runs out.
    pub fn of(alloc: Global, program: &Node, scoping: &Scoping) -> Result<EnumShapes, OutOfMemory>
        ensures { IfOk result (λ shapes. (n : ℕ) → shape_in shapes n
            ≡ shaped (λ _. None) (events scoping.now (node_doc program.now)) n) }
    {
        let events = events_of(alloc, program, scoping)?;
        let shapes = shapes_in(alloc, events.as_slice())?;
        Ok(EnumShapes { shapes })
    }

    /// The shape of the enum that the name means, if a block of it stands before the name.
    pub fn of_name(&self, name: NodeId) -> Option<Shape>
        ensures { result ≡ shape_in self.now name.0 }
    {
        self.shapes.get(&name.0).copied()
    }
}

/// The shapes that the names have among these events.
#[tactic(auto, using(crate::proofs::Turns::steps))]
fn shapes_in(alloc: Global, events: &[Event]) -> Result<HashMap<u64, Shape>, OutOfMemory>
    ensures { IfOk result (λ shapes. (n : ℕ) → lookup (nat_eq n) shapes.entries ≡ shaped (λ _. None) events.now n) }
{
    let mut latest = HashMap::new(alloc);
    let mut shapes = HashMap::new(alloc);
    for event in events {
        note(*event, &mut latest, &mut shapes)?;
    }
    Ok(shapes)
}

/// Notes the shape of a block, and that of the enum that a name means.
fn note(
    event: Event,
    latest: &mut Latest,
    shapes: &mut HashMap<u64, Shape>,
) -> Result<(), OutOfMemory>
    ensures blocks { OnOk result (shapes_at latest.new.entries
        ≡ (noted event (record { latest = shapes_at latest.old.entries; shapes = shapes_at shapes.old.entries })).latest) }
    ensures names { OnOk result (shapes_at shapes.new.entries
        ≡ (noted event (record { latest = shapes_at latest.old.entries; shapes = shapes_at shapes.old.entries })).shapes) }
{
    match event {
        Event::Block(symbol, shape) => put(latest, symbol.0, shape),
        Event::Name(name, symbol) => note_name(name, latest_of(latest, symbol), shapes),
    }
}

/// The shape of the block of the enum that stood last.
fn latest_of(latest: &Latest, symbol: SymbolId) -> Option<Shape>
    ensures { result ≡ lookup (nat_eq symbol.0) latest.now.entries }
{
    latest.get(&symbol.0).copied()
}

/// Notes that the name has that shape, if it has one.
fn note_name(
    name: NodeId,
    shape: Option<Shape>,
    shapes: &mut HashMap<u64, Shape>,
) -> Result<(), OutOfMemory>
    ensures { OnOk result (shapes_at shapes.new.entries ≡ with_shape name.0 shape (shapes_at shapes.old.entries)) }
{
    match shape {
        Some(shape) => put(shapes, name.0, shape),
        None => Ok(()),
    }
}

/// Puts the shape under the number.
#[tactic(auto, using(crate::proofs::Turns::put_shape))]
fn put(table: &mut HashMap<u64, Shape>, number: u64, shape: Shape) -> Result<(), OutOfMemory>
    ensures { OnOk result (shapes_at table.new.entries ≡ with_block number shape (shapes_at table.old.entries)) }
{
    table.insert(number, shape)?;
    Ok(())
}
