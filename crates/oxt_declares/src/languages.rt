//! What the rows of the grammar say of languages.
ghost use Rattle.std.specs.Prelude.{◌≡◌};
ghost use Rattle.oxt_declares.specs.Languages.{is_language};

use oxt_grammar::holds::Holds;
use oxt_grammar::word::Words;

/// Whether the field holds the name of a language.
pub fn is_language(holds: Holds) -> bool
    ensures { result ≡ is_language holds }
{
    match holds {
        Holds::Word(Words::Lang) => true,
        _ => false,
    }
}
