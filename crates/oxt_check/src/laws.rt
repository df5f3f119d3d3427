//! What the definitions have to do with one another: a law, the contract of a call that does nothing.
ghost use Rattle.oxt_check.specs.Laws.{PlainBesideNothing};

/// Where no wrapper is kept, plain beside them is plain.
pub fn plain_beside_nothing()
    ensures { PlainBesideNothing }
{}
