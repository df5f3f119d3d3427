//! Words as lines.
ghost use Rattle.std.specs.Prelude.{◌≡◌, ◌++◌, IfOk, OnOk, map};
ghost use Rattle.oxt_facts.specs.Entry.{atom_doc, entries, entry_of};
ghost use Rattle.oxt_cases.specs.Lines.{atom_data, entry_data, line, lines};
ghost use Rattle.serde_json.specs.View.{view};

use oxt_facts::item::{Atom, Item};
use serde_json::Value;
use std::alloc::{AllocError, Global};
use std::vec;

/// The lines of the items, one after another.
///
/// # Errors
///
/// Fails only where memory runs out.
#[tactic(auto, using(crate::proofs::Shows::one_more, crate::proofs::Shows::no_more))]
pub fn lines_of(alloc: Global, items: &[Item]) -> Result<Vec<u8>, AllocError>
    ensures { IfOk result (λ bytes. bytes.items ≡ lines (entries items.now)) }
{
    let mut bytes = Vec::new(alloc);
    for item in items {
        put_line(alloc, item, &mut bytes)?;
    }
    Ok(bytes)
}

/// The line of an item.
///
/// # Errors
///
/// Fails only where memory runs out.
pub fn line_of(alloc: Global, item: &Item) -> Result<Vec<u8>, AllocError>
    ensures { IfOk result (λ bytes. bytes.items ≡ line (entry_of item.now)) }
{
    let mut bytes = Vec::new(alloc);
    put_line(alloc, item, &mut bytes)?;
    Ok(bytes)
}

/// Puts the line of an item.
fn put_line(alloc: Global, item: &Item, bytes: &mut Vec<u8>) -> Result<(), AllocError>
    ensures { OnOk result (bytes.new.items ≡ bytes.old.items ++ line (entry_of item.now)) }
{
    let text = item_value(alloc, item)?.to_vec(alloc)?;
    bytes.extend_from_slice(text.as_slice())?;
    bytes.push(b'\n')?;
    Ok(())
}

/// The array of an item.
fn item_value(alloc: Global, item: &Item) -> Result<Value, AllocError>
    ensures { IfOk result (λ value. view value ≡ entry_data (entry_of item.now)) }
{
    let kind = Value::try_from_str(alloc, item.kind.name())?;
    let mut values = vec![in alloc; kind, atom_value(alloc, &item.spelling)?]?;
    put_atoms(alloc, item.details.as_slice(), &mut values)?;
    Ok(Value::Array(values))
}

/// Puts the values of the atoms.
#[tactic(auto, using(crate::proofs::Shows::atom_more, crate::proofs::Shows::no_more_atoms))]
fn put_atoms(alloc: Global, atoms: &[Atom], values: &mut Vec<Value>) -> Result<(), AllocError>
    ensures { OnOk result (map view values.new.items
        ≡ map view values.old.items ++ map atom_data (map atom_doc atoms.now)) }
{
    for atom in atoms {
        values.push(atom_value(alloc, atom)?)?;
    }
    Ok(())
}

/// A text, number or flag as JSON.
fn atom_value(alloc: Global, atom: &Atom) -> Result<Value, AllocError>
    ensures { IfOk result (λ value. view value ≡ atom_data (atom_doc atom.now)) }
{
    match atom {
        Atom::Nothing => Ok(Value::Null),
        Atom::Flag(flag) => Ok(Value::Bool(*flag)),
        Atom::Number(number) => Ok(Value::from(*number)),
        Atom::Text(name) => Value::try_from_str(alloc, name.as_str()),
        Atom::Word(word) => Value::try_from_str(alloc, word.text()),
        Atom::Kind(kind) => Value::try_from_str(alloc, kind.name()),
        Atom::Binding(binding) => Value::try_from_str(alloc, binding.text()),
    }
}
