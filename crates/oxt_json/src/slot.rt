//! What stands in the object of a node.

/// A member of the object of a node.
#[derive(Clone, Copy)]
pub enum Slot {
    /// The kind.
    Type,
    /// The offset of the first byte.
    Start,
    /// The offset of the byte after the last.
    End,
    /// The field at a place among those of the kind.
    Field(usize),
}
