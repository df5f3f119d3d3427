//! The word of the tree that a source holds, written to a sink.
ghost use Rattle.std.specs.Prelude.{IfErr, OnOk};
ghost use Rattle.oxt_cases.specs.Shown.{IsCause, Shown};

use crate::fault::Fault;
use crate::items::lines_of;
use oxt_facts::facts::Facts;
use oxt_io::{Sink, Source, read_to_limit, write_all};
use oxt_json::read_tree;
use oxt_word::word::word_of;
use std::alloc::Global;

/// The most bytes that a tree may have.
pub const LIMIT: usize = 16_777_216;

/// Writes the lines of the word of the tree that `source` holds, as that of a source.
///
/// # Errors
///
/// One that says where the input is no tree, or whether reading or writing failed; or want of memory.
pub fn show_word<S: Source, O: Sink>(
    alloc: Global,
    source: &mut S,
    out: &mut O,
) -> Result<(), Fault>
    ensures shown { OnOk result (Shown (S.left source.old) (S.left source.new)
        (O.taken out.old) (O.taken out.new)) }
    ensures refused { IfErr result (IsCause (S.left source.old) (S.left source.new)
        (S.faults source.old) (S.faults source.new) (O.faults out.old) (O.faults out.new)) }
{
    let bytes = match read_to_limit(alloc, source, LIMIT) {
        Ok(bytes) => bytes,
        Err(fault) => return Err(Fault::Input(fault)),
    };
    let program = match read_tree(alloc, bytes.as_slice()) {
        Ok(program) => program,
        Err(fault) => return Err(Fault::Tree(fault)),
    };
    let facts = Facts::of_source(alloc)?;
    let items = word_of(&facts, &program.root)?;
    let lines = lines_of(alloc, items.as_slice())?;
    match write_all(out, lines.as_slice()) {
        Ok(()) => Ok(()),
        Err(_) => Err(Fault::Output),
    }
}
