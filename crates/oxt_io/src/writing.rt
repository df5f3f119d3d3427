// Sinks of bytes, and writing all of a text to one.
ghost use Rattle.std.specs.Prelude.{◌≡◌, ℕ, ◌<◌, ◌≤◌, List, length, Option, OnErr, OnOk, IfOk};
ghost use Rattle.std.specs.Io.{WritesAtMost};
ghost use Rattle.std.specs.Io.KnownBytes.{Appends, WriteAppends};
ghost use Rattle.oxt_io.specs.Counts.{Rose};
ghost use Rattle.oxt_io.specs.Passed.{AppendsPrefix};

use super::outcome::Failed;

/// What bytes are written to.
///
/// `taken` is all that the sink took so far, or `None` where it does not tell. `faults` counts its
/// failures, up to the last value of a `u64`.
pub trait Sink {
    ghost taken: { Self → Option (List ℕ) };

    ghost faults: { Self → ℕ };

    /// Takes the first bytes of `piece` and answers how many: at least one, where it has any.
    ///
    /// # Errors
    ///
    /// `Failed` where the sink had a fault, which it counts. It took no byte then.
    fn write_some(&mut self, piece: &[u8]) -> Result<usize, Failed>
        ensures bound { WritesAtMost result piece.now }
        ensures some { IfOk result (λ n. 0 < length piece.now → 0 < n) }
        ensures bytes { WriteAppends (taken self.old) (taken self.new) result piece.now }
        ensures later { faults self.old ≤ faults self.new }
        ensures cause { OnErr result (Rose (faults self.old) (faults self.new)) };
}

/// Writes all of `bytes` to `sink`, in as many calls as it takes.
///
/// # Errors
///
/// `Failed` where the sink failed. It took a prefix of `bytes` then.
pub fn write_all<K: Sink>(sink: &mut K, bytes: &[u8]) -> Result<(), Failed>
    ensures all { OnOk result (Appends (K.taken sink.old) (K.taken sink.new) bytes.now) }
    ensures prefix { OnErr result (AppendsPrefix (K.taken sink.old) (K.taken sink.new) bytes.now) }
    ensures later { K.faults sink.old ≤ K.faults sink.new }
    ensures cause { OnErr result (Rose (K.faults sink.old) (K.faults sink.new)) }
{
    let mut done = 0;
    while done < bytes.len() {
        done += sink.write_some(&bytes[done..])?;
    }
    Ok(())
}
