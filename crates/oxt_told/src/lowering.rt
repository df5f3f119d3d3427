//! What decorators and static accessors make of a class.

/// What decorators and static accessors make of a class.
#[derive(Clone, Copy)]
pub struct Lowering {
    /// Whether its own decorators are called.
    pub is_decorated: bool,
    /// Whether those of its elements are.
    pub has_calls: bool,
    /// Whether these calls are its last static part.
    pub is_inside: bool,
    /// Whether its name is read as an alias in its body.
    pub has_alias: bool,
    /// Whether the alias is kept in front of its static parts.
    pub has_front: bool,
    /// Whether a static accessor of it keeps its value on the class.
    pub has_storage: bool,
}
