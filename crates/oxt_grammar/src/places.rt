//! What may stand at a place, by what the node around it is.
ghost use Rattle.std.specs.Prelude.{◌≡◌};
ghost use Rattle.std.specs.List.{list_any};
ghost use Rattle.oxt_grammar.specs.Field.{is_typescript_field};
ghost use Rattle.oxt_grammar.specs.Places.{kind_in, narrow, same_field, same_kind, element_of, allows_null, allows_flag, allows_any_text, words_of, allows_number, category_of};

use crate::category::Category;
use crate::context::Setting;
use crate::field::Field;
use crate::holds::{Holds, Presence};
use crate::kind::Kind;
use crate::word::Words;

/// The largest whole number of a tree: the last up to which JavaScript counts by one.
pub const LARGEST: u64 = 9_007_199_254_740_991;

impl Category {
    /// Whether the kind is one of the category's.
    #[tactic(auto, using(crate::proofs::OneKind::some_found))]
    pub fn contains(self, kind: Kind) -> bool
        ensures { result ≡ kind_in self kind }
    {
        is_among(self.kinds(), kind)
    }
}

/// Whether the kind is one of these.
fn is_among(kinds: &[Kind], kind: Kind) -> bool
    ensures { result ≡ list_any (λ own. same_kind own kind) kinds.now }
{
    kinds.iter().any(|own| own.is(kind))
}

impl Kind {
    /// Whether both are one kind.
    pub fn is(self, other: Kind) -> bool
        ensures { result ≡ same_kind self other }
    {
        self == other
    }
}

impl Field {
    /// Whether both are one field.
    pub fn is(self, other: Field) -> bool
        ensures { result ≡ same_field self other }
    {
        self == other
    }
}

impl Holds {
    /// What an element of a list holds, where the field holds a list.
    pub fn element(self) -> Option<Holds>
        ensures { result ≡ element_of self }
    {
        match self {
            Holds::List(category) => Some(Holds::Node(category)),
            Holds::ListOrNull(category) => Some(Holds::Node(category)),
            Holds::ListOfNullable(category) => Some(Holds::NodeOrNull(category)),
            _ => None,
        }
    }

    /// Whether null may stand there.
    pub fn allows_null(self) -> bool
        ensures { result ≡ allows_null self }
    {
        match self {
            Holds::TextOrNull => true,
            Holds::WholeOrNull => true,
            Holds::WordOrNull(_) => true,
            Holds::NodeOrNull(_) => true,
            Holds::ListOrNull(_) => true,
            _ => false,
        }
    }

    /// Whether a flag may stand there.
    pub fn allows_flag(self) -> bool
        ensures { result ≡ allows_flag self }
    {
        match self {
            Holds::Flag => true,
            _ => false,
        }
    }

    /// Whether a text of any content may stand there.
    pub fn allows_text(self) -> bool
        ensures { result ≡ allows_any_text self }
    {
        match self {
            Holds::Text => true,
            Holds::TextOrNull => true,
            _ => false,
        }
    }

    /// The words of which one may stand there.
    pub fn words(self) -> Option<Words>
        ensures { result ≡ words_of self }
    {
        match self {
            Holds::Word(words) => Some(words),
            Holds::WordOrNull(words) => Some(words),
            _ => None,
        }
    }

    /// Whether the whole number may stand there.
    pub fn allows_number(self, number: u64) -> bool
        ensures { result ≡ allows_number self number }
    {
        match self {
            Holds::WholeOrNull => number <= LARGEST,
            _ => false,
        }
    }

    /// The category of which a node may stand there.
    pub fn category(self) -> Option<Category>
        ensures { result ≡ category_of self }
    {
        match self {
            Holds::Node(category) => Some(category),
            Holds::NodeOrNull(category) => Some(category),
            _ => None,
        }
    }

    /// What a field holds where its node stands in a setting.
    pub fn within(self, setting: Setting) -> Holds
        ensures { result ≡ narrow setting self }
    {
        match self {
            Holds::Narrowed(wide, exported) => match setting {
                Setting::NamedExport => Holds::Node(exported),
                Setting::DefaultExport => Holds::Node(wide),
                Setting::Elsewhere => Holds::Node(wide),
            },
            other => other,
        }
    }
}

impl Presence {
    /// Whether only TypeScript has such a field.
    pub fn is_typescript(self) -> bool
        ensures { result ≡ is_typescript_field self }
    {
        match self {
            Presence::TypeScript => true,
            Presence::Required => false,
            Presence::Optional => false,
        }
    }
}
