//! Where nodes stand, and which of them open a scope.
ghost use Rattle.std.specs.Prelude.{◌≡◌};
ghost use Rattle.oxt_visit.specs.Place.{holds_expressions, is_expression_kind, place_of};
ghost use Rattle.oxt_visit.specs.Scope.{is_opening, opens_scope};

use oxt_declares::role::Role;
use oxt_declares::role_of::role_of;
use oxt_grammar::category::Category;
use oxt_grammar::holds::Holds;
use oxt_grammar::kind::Kind;

/// The place of the nodes that a field holds; none where it holds no nodes.
pub fn place_of(holds: Holds) -> Option<Category>
    ensures { result ≡ place_of holds }
{
    match holds {
        Holds::Node(category) => Some(category),
        Holds::NodeOrNull(category) => Some(category),
        Holds::Narrowed(category, _) => Some(category),
        Holds::List(category) => Some(category),
        Holds::ListOfNullable(category) => Some(category),
        Holds::ListOrNull(category) => Some(category),
        _ => None,
    }
}

/// Whether a node of the kind is an expression at that place. Parts of a chain, targets of assignments, names of
/// JSX and the parts of types are none, whatever their kind.
pub fn is_expression(place: Category, kind: Kind) -> bool
    ensures { result ≡ is_expression_kind place kind }
{
    holds_expressions(place) && Category::Expression.contains(kind)
}

/// Whether expressions may stand at that place.
fn holds_expressions(place: Category) -> bool
    ensures { result ≡ holds_expressions place }
{
    match place {
        Category::Expression => true,
        Category::Argument => true,
        Category::PropertyKey => true,
        Category::ForStatementInit => true,
        Category::ArrowFunctionBody => true,
        Category::ExportDefaultDeclarationKind => true,
        Category::JSXExpression => true,
        _ => false,
    }
}

/// Whether nodes of the kind open a scope.
pub fn opens_scope(kind: Kind) -> bool
    ensures { result ≡ opens_scope kind }
{
    kind.is(Kind::TSEnumBody) || is_opening(role_of(kind))
}

/// Whether nodes of that role do.
fn is_opening(role: Role) -> bool
    ensures { result ≡ is_opening role }
{
    match role {
        Role::Program => true,
        Role::Block => true,
        Role::For => true,
        Role::ForEach => true,
        Role::Switch => true,
        Role::Catch => true,
        Role::Function => true,
        Role::Overload => true,
        Role::FunctionExpression => true,
        Role::Arrow => true,
        Role::Class => true,
        Role::ClassExpression => true,
        Role::StaticBlock => true,
        Role::Namespace => true,
        Role::Module => true,
        _ => false,
    }
}
