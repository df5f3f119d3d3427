//! How names are used.
ghost use Rattle.std.specs.Prelude.{◌≡◌};
ghost use Rattle.oxt_scopes.specs.Owners.{usage_of};

use crate::way::Way;

/// How a name is used.
#[derive(Clone, Copy)]
pub enum Usage {
    /// It is read.
    Read,
    /// It is assigned.
    Write,
    /// It is read and assigned.
    ReadWrite,
    /// It is used in a type, or in an import or an export of types alone.
    Type,
}

/// The use of a name that is read that way.
pub fn usage_of(way: Way) -> Usage
    ensures { result ≡ usage_of way }
{
    match way {
        Way::Whole => Usage::Read,
        Way::Method => Usage::Read,
        Way::Written => Usage::Write,
        Way::Updated => Usage::ReadWrite,
        Way::Typed => Usage::Type,
        Way::Signature => Usage::Type,
    }
}
