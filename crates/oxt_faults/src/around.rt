//! What the fields of a class have to know of it.
ghost use Rattle.std.specs.Prelude.{◌≡◌, option_map};
ghost use Rattle.oxt_faults.specs.Around.{both_scopes, class_around, class_with, constructor_scope, is_class, no_class};
ghost use Rattle.oxt_tree.specs.View.{docs_in, node_doc};

use oxt_fields::class::{constructor_of, elements_of};
use oxt_fields::fate::hoists_private;
use oxt_grammar::field::Field;
use oxt_grammar::kind::Kind;
use oxt_names::ids::{NodeId, ScopeId};
use oxt_scoping::scoping::Scoping;
use oxt_tree::tree::{Node, Part};

/// The scopes of a class that has a constructor with a body.
#[derive(Clone, Copy)]
pub struct ClassScopes {
    /// That of the class itself.
    pub own: ScopeId,
    /// That of its constructor.
    pub constructor: ScopeId,
}

/// What is known of the class around a field.
#[derive(Clone, Copy)]
pub struct ClassAround {
    /// Private instance fields move too.
    pub hoists: bool,
    /// Its scopes, if it has a constructor.
    pub scopes: Option<ClassScopes>,
}

/// Outside of classes.
pub fn no_class() -> ClassAround
    ensures { result ≡ no_class }
{
    ClassAround {
        hoists: false,
        scopes: None,
    }
}

/// What is known inside the node, where that is known around it.
pub fn class_around(scoping: &Scoping, around: ClassAround, node: &Node) -> ClassAround
    ensures { result
        ≡ class_around scoping.now around node.now.kind node.now.id.0 (docs_in node.now.parts.items) }
{
    if is_class(node.kind) {
        class_with(scoping, node.id, elements_of(node))
    } else {
        around
    }
}

/// Whether nodes of the kind are classes.
pub fn is_class(kind: Kind) -> bool
    ensures { result ≡ is_class kind }
{
    kind.is(Kind::ClassDeclaration) || kind.is(Kind::ClassExpression)
}

/// What is known of the class of that number with these elements.
fn class_with(scoping: &Scoping, class: NodeId, elements: &[Part]) -> ClassAround
    ensures { result ≡ class_with scoping.now class.0 (docs_in elements.now) }
{
    let constructor = constructor_scope(scoping, constructor_of(elements));
    ClassAround {
        hoists: hoists_private(elements),
        scopes: both_scopes(scoping.scope_of(class), constructor),
    }
}

/// The scope of the function of the constructor, if there is one.
fn constructor_scope(scoping: &Scoping, constructor: Option<&Node>) -> Option<ScopeId>
    ensures { result ≡ constructor_scope scoping.now (option_map (λ node. node_doc node.now) constructor.entry) }
{
    match constructor?.field(Field::Value) {
        Some(Part::Node(function)) => scoping.scope_of(function.id),
        _ => None,
    }
}

/// Both scopes, where there are both.
fn both_scopes(own: Option<ScopeId>, constructor: Option<ScopeId>) -> Option<ClassScopes>
    ensures { result ≡ both_scopes own constructor }
{
    Some(ClassScopes {
        own: own?,
        constructor: constructor?,
    })
}
