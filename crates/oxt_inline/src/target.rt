//! Where something is assigned.
ghost use Rattle.std.specs.Prelude.{◌≡◌};
ghost use Rattle.oxt_inline.specs.Target.{holds_target, is_target};

use oxt_grammar::category::Category;
use oxt_grammar::holds::Holds;

/// Whether something is assigned to what the field holds, or to each element of its list.
pub fn holds_target(holds: Holds) -> bool
    ensures { result ≡ holds_target holds }
{
    match holds {
        Holds::Node(category) => is_target(category),
        Holds::NodeOrNull(category) => is_target(category),
        Holds::List(category) => is_target(category),
        Holds::ListOfNullable(category) => is_target(category),
        _ => false,
    }
}

/// Whether something is assigned there.
fn is_target(category: Category) -> bool
    ensures { result ≡ is_target category }
{
    match category {
        Category::SimpleAssignmentTarget => true,
        Category::AssignmentTarget => true,
        Category::AssignmentTargetMaybeDefault => true,
        Category::ForStatementLeft => true,
        _ => false,
    }
}
