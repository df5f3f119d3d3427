//! What the candidates for a made name begin with.
ghost use Rattle.std.specs.Prelude.{◌≡◌, ◌++◌, ◌<◌, IfOk, MatchOption, length, string_bytes};
ghost use Rattle.std.specs.Fmt.{decimal};
ghost use Rattle.oxt_names.specs.Made.{base_of, is_digit, without_digits, without_underscores};

use crate::ids::OutOfMemory;
use std::alloc::Global;

/// An underscore and the text without the underscores at its front and the digits at its end.
pub fn base_of(alloc: Global, text: &str) -> Result<String, OutOfMemory>
    ensures { IfOk result (λ base. string_bytes base ≡ base_of text.now) }
{
    let mut base = String::from_str(alloc, "_")?;
    base.push_str(without_digits(without_underscores(text)))?;
    Ok(base)
}

/// The base with that number behind it.
pub fn numbered(alloc: Global, base: &str, number: u64) -> Result<String, OutOfMemory>
    ensures { IfOk result (λ text. string_bytes text ≡ base.now ++ decimal number) }
{
    let mut text = String::from_str(alloc, base)?;
    let digits = number.to_string(alloc)?;
    text.push_str(digits.as_str())?;
    Ok(text)
}

/// The text without the underscores at its front.
fn without_underscores(text: &str) -> &str
    ensures { result.now ≡ without_underscores text.now }
{
    let mut rest = text;
    while let Some(shorter) = without_underscore(rest) {
        rest = shorter;
    }
    rest
}

/// The text without the underscore at its front, if there is one.
fn without_underscore(text: &str) -> Option<&str>
    ensures { MatchOption result (without_underscores text.now ≡ text.now)
        (λ rest. (without_underscores text.now ≡ without_underscores rest.now)
        × (length rest.now < length text.now)) }
{
    text.strip_prefix('_')
}

/// The text without the digits at its end.
fn without_digits(text: &str) -> &str
    ensures { result.now ≡ without_digits text.now }
{
    let mut rest = text;
    while let Some(shorter) = without_digit(rest) {
        rest = shorter;
    }
    rest
}

/// The text without the digit at its end, if there is one.
fn without_digit(text: &str) -> Option<&str>
    ensures { MatchOption result (without_digits text.now ≡ text.now)
        (λ rest. (without_digits text.now ≡ without_digits rest.now)
        × (length rest.now < length text.now)) }
{
    let last = *text.as_bytes().last()?;
    if is_digit(last) {
        text.strip_suffix(last as char)
    } else {
        None
    }
}

/// Whether the byte is an ASCII digit.
fn is_digit(byte: u8) -> bool
    ensures { result ≡ is_digit byte }
{
    b'0' <= byte && byte <= b'9'
}
