//! Nodes in which nothing stands at the level.
ghost use Rattle.std.specs.Prelude.{◌≡◌};
ghost use Rattle.std.specs.List.{list_any};
ghost use Rattle.oxt_faults.specs.Silent.{is_erased_code, is_hidden, is_silent, is_type, silent_inside, type_kinds};
ghost use Rattle.oxt_grammar.specs.Places.{same_kind};
ghost use Rattle.oxt_tree.specs.View.{docs_in};

use crate::reach::Reach;
use oxt_declares::dropped::{inside_dropped, is_dropped};
use oxt_grammar::category::Category;
use oxt_grammar::kind::Kind;
use oxt_search::search::Inside;
use oxt_tree::tree::Node;

/// Whether neither the node nor anything in it stands at the level: it is out of reach, erased, or a type.
pub fn is_silent(reach: Reach, node: &Node) -> bool
    ensures { result ≡ is_silent reach node.now.kind (docs_in node.now.parts.items) }
{
    is_hidden(reach) || (is_erased_code(node) || is_type(node.kind))
}

/// How a search goes on inside such a node: not at all, but for the decorators of a field that is only declared, where
/// decorators have their older meaning. These are reached in that state.
pub fn silent_inside<S: Copy>(legacy: bool, reach: Reach, node: &Node, state: S) -> Inside<S>
    ensures { result ≡ silent_inside legacy reach node.now.kind (docs_in node.now.parts.items) state }
{
    if is_hidden(reach) {
        Inside::Skipped
    } else {
        inside_dropped(legacy, node, state)
    }
}

/// Whether what is reached so is left out.
fn is_hidden(reach: Reach) -> bool
    ensures { result ≡ is_hidden reach }
{
    match reach {
        Reach::Hidden => true,
        Reach::Level => false,
        Reach::Method => false,
    }
}

/// Whether the node is erased as a whole: a declaration or an element of a class that stands for nothing at run
/// time, or an import or an export of types alone.
fn is_erased_code(node: &Node) -> bool
    ensures { result ≡ is_erased_code node.now.kind (docs_in node.now.parts.items) }
{
    is_dropped(node) || node.is_type_only()
}

/// Whether nodes of the kind are types, or hold nothing but types. That only TypeScript has the kind is seen at once,
/// and spares the search for most nodes.
fn is_type(kind: Kind) -> bool
    ensures { result ≡ is_type kind }
{
    kind.is_typescript() && (Category::TSType.contains(kind) || is_type_kind(kind))
}

/// Whether the kind is one of those that hold nothing but types.
fn is_type_kind(kind: Kind) -> bool
    ensures { result ≡ list_any (λ other. same_kind kind other) type_kinds }
{
    type_kinds().iter().any(|other| kind.is(*other))
}

/// The kinds that hold nothing but types.
fn type_kinds() -> &'static [Kind]
    ensures { result.now ≡ type_kinds }
{
    &[
        Kind::TSTypeAnnotation,
        Kind::TSTypeParameterDeclaration,
        Kind::TSTypeParameterInstantiation,
    ]
}
