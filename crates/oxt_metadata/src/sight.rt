//! What the types of a program are read by.

use crate::shapes::EnumShapes;
use oxt_scoping::scoping::Scoping;

/// What the types of a program are read by.
#[derive(Clone, Copy)]
pub(crate) struct Sight<'a> {
    /// Its table of scopes and symbols.
    pub scoping: &'a Scoping,
    /// The shapes of the enums that its types name.
    pub shapes: &'a EnumShapes,
    /// Whether null and undefined count.
    pub is_strict: bool,
}
