//! What holds of the table of every tree.
ghost use Rattle.oxt_resolve.specs.Laws.{JoinsFlags, KnowsUses, MeansOwners};

/// Each reference means the symbol of its name that is bound in the scope that owns it.
pub fn references_mean_their_owners()
    ensures { MeansOwners }
{}

/// The flags of a symbol are those of all its declarations together.
pub fn symbols_join_their_flags()
    ensures { JoinsFlags }
{}

/// The references of a symbol are those that mean it, in the order of the text.
pub fn symbols_know_their_uses()
    ensures { KnowsUses }
{}
