//! Where nodes stand.
ghost use Rattle.std.specs.Prelude.{◌≡◌};
ghost use Rattle.oxt_traverse.specs.Place.{is_body, is_statements, place_of};

use oxt_grammar::category::Category;
use oxt_grammar::holds::Holds;
use oxt_grammar::kind::Kind;

/// The place of the nodes that a field holds; none where it holds no nodes.
pub fn place_of(holds: Holds) -> Option<Category>
    ensures { result ≡ place_of holds }
{
    match holds {
        Holds::Node(category) => Some(category),
        Holds::NodeOrNull(category) => Some(category),
        Holds::Narrowed(category, _) => Some(category),
        Holds::List(category) => Some(category),
        Holds::ListOfNullable(category) => Some(category),
        Holds::ListOrNull(category) => Some(category),
        _ => None,
    }
}

/// Whether what stands there are statements.
pub fn is_statements(place: Category) -> bool
    ensures { result ≡ is_statements place }
{
    match place {
        Category::Statement => true,
        Category::Item => true,
        _ => false,
    }
}

/// Whether a node of the kind is there the expression that an arrow returns.
pub fn is_body(place: Category, kind: Kind) -> bool
    ensures { result ≡ is_body place kind }
{
    match place {
        Category::ArrowFunctionBody => !kind.is(Kind::FunctionBody),
        _ => false,
    }
}
