//! Faults that no run of a tree gives: their texts, and the lines that name them.

use oxt_lines::lines::Lines;
use oxt_lines::stopped::Stopped;
use oxt_transform::{Fault, Mismatch, Name};
use std::alloc::Global;

/// Faults, each with its text and its line.
pub fn print_faults(alloc: Global, lines: &mut Lines) -> Result<(), Stopped> {
    at_places(alloc, lines)?;
    at_indices(alloc, lines)?;
    of_name(alloc, lines)?;
    tell(alloc, &Fault::OutOfMemory, lines)
}

fn at_places(alloc: Global, lines: &mut Lines) -> Result<(), Stopped> {
    let place = place(alloc)?;
    uncertified(alloc, Mismatch::Shape { place }, lines)?;
    plain(alloc, lines)?;
    setting(alloc, lines)
}

fn plain(alloc: Global, lines: &mut Lines) -> Result<(), Stopped> {
    let place = place(alloc)?;
    uncertified(alloc, Mismatch::Plain { place }, lines)
}

fn setting(alloc: Global, lines: &mut Lines) -> Result<(), Stopped> {
    let place = place(alloc)?;
    uncertified(alloc, Mismatch::Setting { place }, lines)
}

fn at_indices(alloc: Global, lines: &mut Lines) -> Result<(), Stopped> {
    uncertified(alloc, Mismatch::Item { index: 12 }, lines)?;
    uncertified(alloc, Mismatch::Owner { index: 3 }, lines)
}

fn of_name(alloc: Global, lines: &mut Lines) -> Result<(), Stopped> {
    let name = Name::new(alloc, "_N")?;
    uncertified(alloc, Mismatch::Binding { name }, lines)
}

/// A place.
fn place(alloc: Global) -> Result<Name, Stopped> {
    Ok(Name::new(alloc, "/body/0")?)
}

/// The fault of a tree that fails its certificate so.
fn uncertified(alloc: Global, mismatch: Mismatch, lines: &mut Lines) -> Result<(), Stopped> {
    tell(alloc, &Fault::Uncertified { mismatch }, lines)
}

/// The lines about a fault.
fn tell(alloc: Global, fault: &Fault, lines: &mut Lines) -> Result<(), Stopped> {
    tell_text(alloc, fault, lines)?;
    tell_line(alloc, fault, lines)
}

/// The text of a fault.
fn tell_text(alloc: Global, fault: &Fault, lines: &mut Lines) -> Result<(), Stopped> {
    let text = format!(in alloc; "{fault}")?;
    lines.text("a fault", text.as_str());
    Ok(())
}

/// The line that names a fault, which ends with a line feed of its own.
fn tell_line(alloc: Global, fault: &Fault, lines: &mut Lines) -> Result<(), Stopped> {
    match fault.line(alloc)? {
        Some(line) => lines.text("its line", line.as_str()),
        None => lines.text("its line", "none"),
    }
    Ok(())
}
