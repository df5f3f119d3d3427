//! How a walk goes on inside a node.

use oxt_grammar::field::Field;

/// What a search looks at inside a node.
#[derive(Clone, Copy)]
pub enum Inside<S> {
    /// Nothing.
    Skipped,
    /// All that is in it, in that state.
    Alike(S),
    /// Each field in a state of its own, which follows from that one.
    ByField(S),
    /// What that field holds alone, in that state.
    Only(Field, S),
}
