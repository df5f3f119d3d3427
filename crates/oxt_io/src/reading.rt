// Sources of bytes, and reading one to its end.
ghost use Rattle.std.specs.Prelude.{◌≡◌, ℕ, ◌-◌, ◌<◌, ◌≤◌, List, length, vec_len, Option, OnErr, OnOk, IfOk, IsErrOf};
ghost use Rattle.std.specs.Io.{ReadsAtMost};
ghost use Rattle.std.specs.Io.KnownBytes.{IsAtEnd, ReadConsumes};
ghost use Rattle.oxt_io.specs.Counts.{Rose};
ghost use Rattle.oxt_io.specs.Passed.{GaveAll, GavePast, TakesIn};

use super::outcome::{Failed, InputFault};
use std::alloc::{AllocError, Global};

/// The most bytes that one call asks a source for.
pub const PIECE: usize = 65_536;

/// What bytes are read from.
///
/// `left` is what reads will give from here on, or `None` where the source does not tell. `faults`
/// counts its failures, up to the last value of a `u64`.
pub trait Source {
    ghost left: { Self → Option (List ℕ) };

    ghost faults: { Self → ℕ };

    /// Moves the first bytes left to the front of `buf` and answers how many.
    ///
    /// Zero at a `buf` with room means that no byte is left.
    ///
    /// # Errors
    ///
    /// `Failed` where the source had a fault, which it counts. No byte is lost then.
    fn read_some(&mut self, buf: &mut [u8]) -> Result<usize, Failed>
        ensures bound { ReadsAtMost result buf.new }
        ensures bytes { ReadConsumes (left self.old) (left self.new) result buf.new }
        ensures later { faults self.old ≤ faults self.new }
        ensures cause { OnErr result (Rose (faults self.old) (faults self.new)) };
}

/// Reads `source` to its end and returns all its bytes, at most `limit` of them.
///
/// # Errors
///
/// `Fault` where the source failed, `TooLong` where it gave more than `limit` bytes, and `Memory`
/// where they could not be held. What was read by then is lost.
pub fn read_to_limit<S: Source>(
    alloc: Global,
    source: &mut S,
    limit: usize,
) -> Result<Vec<u8>, InputFault>
    ensures all { IfOk result (λ v. GaveAll (S.left source.old) (S.left source.new) v.items) }
    ensures within { IfOk result (λ v. length v.items ≤ limit) }
    ensures later { S.faults source.old ≤ S.faults source.new }
    ensures fault { IsErrOf result InputFault.Fault
        → Rose (S.faults source.old) (S.faults source.new) }
    ensures too_long { IsErrOf result InputFault.TooLong
        → GavePast (S.left source.old) (S.left source.new) limit }
{
    let mut piece = make_piece(alloc)?;
    read_by_pieces(alloc, source, piece.as_mut_slice(), limit)
}

// Room for one read.
fn make_piece(alloc: Global) -> Result<Vec<u8>, AllocError>
    ensures { IfOk result (λ v. vec_len v ≡ PIECE) }
{
    vec![in alloc; 0u8; PIECE]
}

// Reads to the end through `piece`.
fn read_by_pieces<S: Source>(
    alloc: Global,
    source: &mut S,
    piece: &mut [u8],
    limit: usize,
) -> Result<Vec<u8>, InputFault>
    requires { 0 < length piece.old }
    ensures all { IfOk result (λ v. GaveAll (S.left source.old) (S.left source.new) v.items) }
    ensures within { IfOk result (λ v. length v.items ≤ limit) }
    ensures later { S.faults source.old ≤ S.faults source.new }
    ensures fault { IsErrOf result InputFault.Fault
        → Rose (S.faults source.old) (S.faults source.new) }
    ensures too_long { IsErrOf result InputFault.TooLong
        → GavePast (S.left source.old) (S.left source.new) limit }
{
    let mut bytes = Vec::new(alloc);
    while read_piece(source, piece, limit, &mut bytes)? > 0 {}
    Ok(bytes)
}

// Appends one read's bytes to `bytes`, and answers how many: zero at the end.
fn read_piece<S: Source>(
    source: &mut S,
    piece: &mut [u8],
    limit: usize,
    bytes: &mut Vec<u8>,
) -> Result<usize, InputFault>
    requires room { 0 < length piece.old }
    requires within { length bytes.old.items ≤ limit }
    ensures takes { IfOk result (λ n. TakesIn (S.left source.old) (S.left source.new)
        bytes.old.items bytes.new.items n) }
    ensures end { IfOk result (λ n. n ≡ 0 → IsAtEnd (S.left source.new)) }
    ensures within { OnOk result (length bytes.new.items ≤ limit) }
    ensures later { S.faults source.old ≤ S.faults source.new }
    ensures fault { IsErrOf result InputFault.Fault
        → Rose (S.faults source.old) (S.faults source.new) }
    ensures too_long { IsErrOf result InputFault.TooLong
        → GavePast (S.left source.old) (S.left source.new) (limit - length bytes.old.items) }
{
    let n = match source.read_some(piece) {
        Ok(n) => n,
        Err(Failed) => return Err(InputFault::Fault),
    };
    if n > limit - bytes.len() {
        return Err(InputFault::TooLong);
    }
    bytes.extend_from_slice(&piece[..n])?;
    Ok(n)
}
