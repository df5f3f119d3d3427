//! The error that hands an argument back.

/// Memory ran out. What was to be put in comes back.
#[derive(Drop)]
pub struct Refused<T> {
    /// What was to be put in.
    pub back: T,
}
