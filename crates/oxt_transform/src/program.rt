//! The program's one call: from a source to two sinks.
ghost use Rattle.std.specs.Prelude.{◌≡◌, ◌≤◌, ◌⊎◌, List, [], ◌∷◌, ◌++◌, length, None, Some, IfOk, IfErr, is_some, true, false};
ghost use Rattle.std.specs.Io.KnownBytes.{Appends};
ghost use Rattle.oxt_io.specs.Counts.{Rose};
ghost use Rattle.oxt_io.specs.Passed.{GavePast};
ghost use Rattle.oxt_options.specs.Options.{transform_view};
ghost use Rattle.oxt_transform.specs.Faults.{refusal_in, IsReasonFor};
ghost use Rattle.oxt_transform.specs.Lowering.{Lowers};
ghost use Rattle.oxt_transform.specs.Outcomes.{limit, options_in, usage_line, status_of, OnDone, OnDiagnosed, OnAnswer, IfRefused, OnUsage, OnReadFault, OnWriteFault, OnTooLong, OnNoAnswer, OnNoMessage, UnlessUsage, IsAnswerUncertifiedOrMemory, Answered, RefusedFor, CutOff, OnMemory, IsUsageOrWriteFault, IsAnswerOrWriteFault, IsRefusedMemoryOrWriteFault, input_outcome, LoweredFrom, LowersToLines, Reported, ReportCut, AnswerCut, RefusalCut, UsageCut, NothingStands, StopsFor};
ghost use Rattle.oxt_transform.specs.Refusals.{line_of};

use crate::fault::Fault;
use crate::transform::{TransformOptions, transform_text};
use oxt_flags::options::options_of;
use oxt_io::{InputFault, Sink, Source, read_to_limit, write_all};
use oxt_names::name::Name;
use std::alloc::Global;

/// The most bytes that a source may hold.
pub const LIMIT: usize = 16_777_216;

/// The line for words that are not taken.
pub const USAGE: &str = "usage: oxt [flags] < tree.json\n";

/// How a run ended.
#[derive(Drop)]
pub enum Outcome {
    /// The plain tree was written.
    Done,
    /// The tree was written, and a line for each diagnostic behind it.
    Diagnosed,
    /// The bytes were refused, and a line says why; it is never for want of memory.
    Refused(Fault),
    /// The words were not taken, and a line says how the program is called.
    Usage,
    /// The source failed.
    ReadFault,
    /// A sink failed; it took a prefix of what it was to take.
    WriteFault,
    /// Memory ran out before the first byte was written.
    Memory,
    /// The source held more than `LIMIT` bytes.
    TooLong,
}

impl Outcome {
    /// The exit status of the program.
    pub fn status(&self) -> u8
        ensures { result ≡ status_of self.now }
    {
        match self {
            Outcome::Done => 0,
            Outcome::Diagnosed => 1,
            Outcome::Refused(_) => 2,
            Outcome::Usage => 3,
            Outcome::ReadFault => 4,
            Outcome::WriteFault => 5,
            Outcome::Memory => 6,
            Outcome::TooLong => 7,
        }
    }
}

/// Reads the tree from `source`, lowers it, and writes it to `out` with the lines of the diagnostics behind it, or a line
/// that says why not to `err`.
///
/// `words` are the words after the program's name, which say the options. All bytes are made before the
/// first is written.
pub fn run<S: Source, O: Sink, E: Sink>(
    alloc: Global,
    words: &[Name],
    source: &mut S,
    out: &mut O,
    err: &mut E,
) -> Outcome
    // What was read was lowered and written.
    ensures done { OnDone result
        (Answered words.now false (S.left source.old) (S.left source.new) (O.taken out.old) (O.taken out.new)) }
    ensures diagnosed { OnDiagnosed result
        (Answered words.now true (S.left source.old) (S.left source.new) (O.taken out.old) (O.taken out.new)) }

    // Each other answer has its cause.
    ensures refused { IfRefused result (λ f. RefusedFor words.now (refusal_in f)
        (S.left source.old) (S.left source.new) (E.taken err.old) (E.taken err.new)) }
    ensures usage { OnUsage result (options_in words.now ≡ None) }
    ensures usage_line { OnUsage result (Appends (E.taken err.old) (E.taken err.new) usage_line) }
    ensures words_taken { UnlessUsage result (is_some (options_in words.now) ≡ true) }
    ensures read_fault { OnReadFault result (Rose (S.faults source.old) (S.faults source.new)) }
    ensures too_long { OnTooLong result (GavePast (S.left source.old) (S.left source.new) limit) }
    ensures write_fault { OnWriteFault result
        (Rose (O.faults out.old) (O.faults out.new) ⊎ Rose (E.faults err.old) (E.faults err.new)) }

    ensures cut_off { OnWriteFault result
        (AnswerCut words.now (S.left source.old) (S.left source.new) (O.taken out.old) (O.taken out.new)
        (E.taken err.old) (E.taken err.new)
        ⊎ (RefusalCut words.now (S.left source.old) (S.left source.new) (O.taken out.old) (O.taken out.new)
        (E.taken err.old) (E.taken err.new)
        ⊎ UsageCut (O.taken out.old) (O.taken out.new) (E.taken err.old) (E.taken err.new))) }

    // Where nothing stands in the way, the tree is lowered, or fails its test, or memory runs out.
    ensures completes { NothingStands words.now (S.left source.old)
        (S.faults source.old) (S.faults source.new) (O.faults out.old) (O.faults out.new)
        (E.faults err.old) (E.faults err.new) → IsAnswerUncertifiedOrMemory result }

    // Nothing else is written.
    ensures quiet_out { OnNoAnswer result (O.taken out.new ≡ O.taken out.old) }
    ensures quiet_err { OnNoMessage result (E.taken err.new ≡ E.taken err.old) }
{
    match lower_source(alloc, words, source) {
        Ok(Reply { lines, is_told }) => answer(out, lines.as_slice(), is_told),
        Err(Stop::Refused(fault)) => refuse(alloc, fault, err),
        Err(Stop::Usage) => answer_usage(err),
        Err(Stop::Input(fault)) => outcome_of_input(fault),
        Err(Stop::Memory) => Outcome::Memory,
    }
}

// Why there is nothing to write.
#[derive(Drop)]
enum Stop {
    // The bytes are refused.
    Refused(Fault),
    // The words were not taken.
    Usage,
    // The source was not read to its end.
    Input(InputFault),
    // There was no memory for the options.
    Memory,
}

// Lowers what the source holds, under the options of the words.
fn lower_source<S: Source>(alloc: Global, words: &[Name], source: &mut S) -> Result<Reply, Stop>
    ensures lowered { IfOk result (λ r.
        LoweredFrom words.now r.is_told r.lines.items (S.left source.old) (S.left source.new)) }
    ensures stopped { IfErr result (λ s.
        StopsFor s words.now (S.left source.old) (S.left source.new) (S.faults source.old) (S.faults source.new)) }
{
    let options = match options_of(alloc, words) {
        Ok(Some(options)) => options,
        Ok(None) => return Err(Stop::Usage),
        Err(_) => return Err(Stop::Memory),
    };
    let bytes = match read_to_limit(alloc, source, LIMIT) {
        Ok(bytes) => bytes,
        Err(fault) => return Err(Stop::Input(fault)),
    };
    match lowered_lines(alloc, bytes.as_slice(), &options) {
        Ok(reply) => Ok(reply),
        Err(fault) => Err(Stop::Refused(fault)),
    }
}

// Says how the program is called.
fn answer_usage<E: Sink>(err: &mut E) -> Outcome
    ensures usage { OnUsage result (Appends (E.taken err.old) (E.taken err.new) usage_line) }
    ensures write_fault { OnWriteFault result (CutOff (E.faults err.old) (E.faults err.new)
        (E.taken err.old) (E.taken err.new) usage_line) }
    ensures only { IsUsageOrWriteFault result }
{
    match write_all(err, USAGE.as_bytes()) {
        Ok(()) => Outcome::Usage,
        Err(_) => Outcome::WriteFault,
    }
}

// How a run ends whose source was not read to its end.
fn outcome_of_input(fault: InputFault) -> Outcome
    ensures { result ≡ input_outcome fault }
{
    match fault {
        InputFault::Memory => Outcome::Memory,
        InputFault::Fault => Outcome::ReadFault,
        InputFault::TooLong => Outcome::TooLong,
    }
}

// What is to be written, and whether there are diagnostics in it.
#[derive(Drop)]
struct Reply {
    lines: Vec<u8>,
    is_told: bool,
}

// The text of the tree with a line feed, and the lines of the diagnostics.
fn lowered_lines(alloc: Global, bytes: &[u8], options: &TransformOptions) -> Result<Reply, Fault>
    ensures lowers { IfOk result
        (λ r. LowersToLines (transform_view options.now) bytes.now r.lines.items r.is_told) }
    ensures refused { IfErr result
        (λ f. IsReasonFor (refusal_in f) (transform_view options.now) bytes.now) }
{
    let lowered = transform_text(alloc, bytes, options)?;
    let is_told = !lowered.diagnostics().is_empty();
    match lowered.into_lines(alloc) {
        Ok(lines) => Ok(Reply { lines, is_told }),
        Err(_) => Err(Fault::OutOfMemory),
    }
}

// Writes what came out.
fn answer<O: Sink>(out: &mut O, lines: &[u8], is_told: bool) -> Outcome
    ensures done { OnDone result (is_told ≡ false) }
    ensures diagnosed { OnDiagnosed result (is_told ≡ true) }
    ensures wrote { OnAnswer result (Appends (O.taken out.old) (O.taken out.new) lines.now) }
    ensures write_fault { OnWriteFault result (CutOff (O.faults out.old) (O.faults out.new)
        (O.taken out.old) (O.taken out.new) lines.now) }
    ensures only { IsAnswerOrWriteFault result }
{
    match write_all(out, lines) {
        Ok(()) => {
            if is_told {
                Outcome::Diagnosed
            } else {
                Outcome::Done
            }
        }
        Err(_) => Outcome::WriteFault,
    }
}

// Says why the bytes are refused, where it is not for want of memory.
fn refuse<E: Sink>(alloc: Global, fault: Fault, err: &mut E) -> Outcome
    ensures refused { IfRefused result (λ f. Reported (refusal_in fault) (refusal_in f)
        (E.taken err.old) (E.taken err.new)) }
    ensures memory { OnMemory result (E.taken err.new ≡ E.taken err.old) }
    ensures write_fault { OnWriteFault result (Rose (E.faults err.old) (E.faults err.new)) }
    ensures cut_off { OnWriteFault result
        (ReportCut (refusal_in fault) (E.taken err.old) (E.taken err.new)) }
    ensures only { IsRefusedMemoryOrWriteFault result }
{
    let line = match fault.line(alloc) {
        Ok(Some(line)) => line,
        _ => return Outcome::Memory,
    };
    match write_all(err, line.as_bytes()) {
        Ok(()) => Outcome::Refused(fault),
        Err(_) => {
            drop(fault);
            Outcome::WriteFault
        }
    }
}
