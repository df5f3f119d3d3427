//! What the calls of the store come to.
ghost use Rattle.oxt_injector.specs.Law.{EachAmongItsOwn, ManyGoFirstBefore, ManyGoLastAfter, OneGoesLastAfter, OneGoesLastBefore};

/// Statements whose numbers differ each end up between those that were put before them and those
/// that were put after them, and keep their order. One that is put before a statement comes last
/// among those before it, many come first; what is put after a statement comes last.
pub fn insertions_stand_in_order()
    ensures each { EachAmongItsOwn }
    ensures before { OneGoesLastBefore }
    ensures after { OneGoesLastAfter }
    ensures many_before { ManyGoFirstBefore }
    ensures many_after { ManyGoLastAfter }
{}
