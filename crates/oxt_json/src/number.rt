//! What the text of a number stands for.
ghost use Rattle.std.specs.Prelude.{◌≡◌, ◌<◌, ◌==◌, length, slice_index, is_some, option_and_then, IsTrue, IfSome, Some, true, false};
ghost use Rattle.serde_json.specs.Data.{unsigned};
ghost use Rattle.serde_json.specs.Find.{as_u64};
ghost use Rattle.serde_json.specs.Read.{number_of, number_from};

use fast_float::Numeral;

// Another digit fits behind a number below this.
const ROOM: u64 = u64::MAX / 10;

/// Whether it is a number of 64 bits or has a finite float nearest to it.
#[tactic(auto, using(crate::proofs::Numbers::range_with_none, crate::proofs::Numbers::range_plain))]
pub fn is_in_range(text: &str) -> bool
    ensures { result ≡ is_some (number_of text.now) }
{
    let bytes = text.as_bytes();
    if plain(bytes).is_some() {
        return true;
    }
    if has_minus(bytes) {
        is_negative_in_range(&Numeral::scan(&bytes[1..]))
    } else {
        is_unsigned_in_range(&Numeral::scan(bytes))
    }
}

/// The whole number of 64 bits, where it is one.
#[tactic(auto, using(crate::proofs::Numbers::none_below_zero, crate::proofs::Numbers::whole_is, crate::proofs::Numbers::whole_plain))]
pub fn whole(text: &str) -> Option<u64>
    ensures { result ≡ option_and_then as_u64 (number_of text.now) }
{
    let bytes = text.as_bytes();
    if let Some(number) = plain(bytes) {
        return Some(number);
    }
    if has_minus(bytes) {
        return None;
    }
    Numeral::scan(bytes).to_u64()
}

// The number that the text writes by digits alone, where it is not too large to be read so.
#[tactic(auto, using(crate::proofs::Numbers::read_more, crate::proofs::Numbers::read_all))]
fn plain(bytes: &[u8]) -> Option<u64>
    ensures { IfSome result (λ n. number_of bytes.now ≡ Some (unsigned n)) }
{
    if bytes.is_empty() {
        return None;
    }
    let mut number: u64 = 0;
    for byte in bytes {
        if *byte < b'0' || *byte > b'9' || number >= ROOM {
            return None;
        }
        number = number * 10 + u64::from(*byte - b'0');
    }
    Some(number)
}

fn has_minus(bytes: &[u8]) -> bool
    ensures value { result ≡ (slice_index bytes.now 0 == 45) }
    ensures some { IsTrue result → 0 < length bytes.now }
{
    !bytes.is_empty() && bytes[0] == b'-'
}

fn is_unsigned_in_range(numeral: &Numeral<'_>) -> bool
    ensures { result ≡ is_some (number_from false numeral.now) }
{
    if numeral.to_u64().is_some() {
        return true;
    }
    numeral.to_float::<f64>(false).is_finite()
}

fn is_negative_in_range(numeral: &Numeral<'_>) -> bool
    ensures { result ≡ is_some (number_from true numeral.now) }
{
    if let Some(n) = numeral.to_i64(true) {
        if n < 0 {
            return true;
        }
    }
    numeral.to_float::<f64>(true).is_finite()
}
