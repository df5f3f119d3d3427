//! Short texts.
ghost use Rattle.std.specs.Prelude.{◌≡◌, ◌≤◌, IfSome, IsUtf8, length, take};

use std::{fmt, str};

// With the length that makes three words of memory.
const ROOM: usize = 23;

/// A text of at most 23 bytes, which lie in the value itself.
#[derive(Clone, Copy)]
pub struct ShortText {
    bytes: [u8; ROOM],
    len: u8,
    ghost room: { length bytes ≡ 23 },
    ghost fits: { len ≤ 23 },
    ghost spelled: { ∥ IsUtf8 (take len bytes) ∥₁ },
}

impl ShortText {
    ghost use Rattle.oxt_names.specs.Short.{short_bytes};

    /// The text, if it is short.
    pub fn of(text: &str) -> Option<ShortText>
        ensures { IfSome result (λ short. short_bytes short ≡ text.now) }
    {
        if text.len() > ROOM {
            return None;
        }
        let len = u8::try_from(text.len()).ok()?;
        let bytes = room_with(text.as_bytes());
        Some(ShortText { bytes, len })
    }

    /// The text.
    pub fn as_str(&self) -> &str
        ensures { result.now ≡ short_bytes self.now }
    {
        unsafe { str::from_utf8_unchecked(&self.bytes[..self.len as usize]) }
    }
}

impl fmt::Debug for ShortText {
    fn fmt<W: fmt::Write>(&self, f: &mut fmt::Formatter<W>) -> fmt::Result {
        fmt::Debug::fmt(&self.as_str(), f)
    }
}

/// Room with these bytes at its front.
fn room_with(text: &[u8]) -> [u8; ROOM]
    requires { length text.now ≤ 23 }
    ensures front { take (length text.now) result ≡ text.now }
    ensures room { length result ≡ 23 }
{
    let mut bytes = [0; ROOM];
    bytes[..text.len()].copy_from_slice(text);
    bytes
}
