//! Which nodes may not stand in a seat.
ghost use Rattle.std.specs.Prelude.{◌≡◌, is_some};
ghost use Rattle.std.specs.List.{list_any};
ghost use Rattle.oxt_faults.specs.Misplaced.{is_alias_name, is_alias_target, is_declared_variable, is_emitting_namespace, is_misplaced_body, is_misplaced_decorator, is_misplaced_item, is_module_statement, is_statement_list, is_typescript_declaration, list_kinds, module_kinds};
ghost use Rattle.oxt_grammar.specs.Places.{same_kind};
ghost use Rattle.oxt_faults.specs.PrivateIns.{holds_private_in};
ghost use Rattle.oxt_fields.specs.Rules.{rules_view};
ghost use Rattle.oxt_tree.specs.View.{doc_or_nil, docs_in};

use crate::private_in::holds_private_in;
use crate::seat::Seat;
use oxt_declares::dropped::is_dropped;
use oxt_declares::imports::is_alias;
use oxt_fields::rules::FieldRules;
use oxt_grammar::category::Category;
use oxt_grammar::field::Field;
use oxt_grammar::kind::Kind;
use oxt_names::ids::NodeId;
use oxt_tree::tree::{Node, Part};

/// Whether the node may not stand as the only statement there, or in the head of a `for`.
pub fn is_misplaced_body(seat: Seat, node: &Node) -> bool
    ensures { result ≡ is_misplaced_body seat node.now.kind (docs_in node.now.parts.items) }
{
    match seat {
        Seat::Body => is_typescript_declaration(node) || is_statement_list(node),
        Seat::Branch => is_statement_list(node),
        Seat::Head => is_declared_variable(node),
        _ => false,
    }
}

/// Whether the node is a namespace or an `import =` that stands neither in the program nor in a namespace directly, or an
/// import or an export that stands in a namespace.
pub fn is_misplaced_item(seat: Seat, node: &Node) -> bool
    ensures { result ≡ is_misplaced_item seat node.now.kind (docs_in node.now.parts.items) }
{
    match seat {
        Seat::Item => false,
        Seat::NamespaceItem => is_module_statement(node),
        _ => is_alias(node) || is_emitting_namespace(node),
    }
}

/// Whether the node is a namespace that is not erased.
fn is_emitting_namespace(node: &Node) -> bool
    ensures { result ≡ is_emitting_namespace node.now.kind (docs_in node.now.parts.items) }
{
    node.kind.is(Kind::TSNamespaceDeclaration) && !is_dropped(node)
}

/// Whether the node is an import or an export that only a module has, and not of types alone.
fn is_module_statement(node: &Node) -> bool
    ensures { result ≡ is_module_statement node.now.kind (docs_in node.now.parts.items) }
{
    is_module_kind(node.kind) && !node.is_type_only()
}

/// Whether nodes of the kind are such imports and exports.
fn is_module_kind(kind: Kind) -> bool
    ensures { result ≡ list_any (λ other. same_kind kind other) module_kinds }
{
    module_kinds().iter().any(|other| kind.is(*other))
}

/// The kinds of such imports and exports.
fn module_kinds() -> &'static [Kind]
    ensures { result.now ≡ module_kinds }
{
    &[
        Kind::ImportDeclaration,
        Kind::ExportNamedDeclaration,
        Kind::ExportFromDeclaration,
        Kind::ExportAllDeclaration,
        Kind::ExportDefaultDeclaration,
        Kind::TSExportAssignment,
    ]
}

/// Whether the node decorates what has no decorators, or is a target in a pattern whose name is read as the alias of a
/// decorated class. Where decorators are the standard ones, parameters have none; where they have their older meaning, class
/// expressions and their elements, constructors and all parameters but those of methods of class declarations have none, and a
/// decorator of a parameter of a constructor holds no private `in`.
pub fn is_misplaced_decorator(rules: FieldRules, seat: Seat, node: &Node) -> bool
    ensures { result
        ≡ is_misplaced_decorator (rules_view rules.entry) seat node.now.kind (docs_in node.now.parts.items) }
{
    match seat {
        Seat::ParameterDecorator => node.kind.is(Kind::Decorator),
        Seat::StrayDecorator => rules.legacy && node.kind.is(Kind::Decorator),
        Seat::MethodParameterDecorator => !rules.legacy && node.kind.is(Kind::Decorator),
        Seat::ConstructorParameterDecorator => {
            node.kind.is(Kind::Decorator) && (!rules.legacy || holds_private_in(node))
        }
        _ => is_alias_target(rules, node),
    }
}

/// Whether the node is a target in a pattern that is its property's name too, and is read as the alias of a decorated class.
fn is_alias_target(rules: FieldRules, node: &Node) -> bool
    ensures { result
        ≡ is_alias_target (rules_view rules.entry) node.now.kind (docs_in node.now.parts.items) }
{
    node.kind.is(Kind::AssignmentTargetPropertyIdentifier)
        && is_alias_name(rules, node.field(Field::Binding))
}

/// Whether the part is a name that is read as the alias of a decorated class.
fn is_alias_name(rules: FieldRules, part: Option<&Part>) -> bool
    ensures { result ≡ is_alias_name (rules_view rules.entry) (doc_or_nil part.entry) }
{
    match part {
        Some(Part::Node(name)) => is_read_as_alias(rules, name.id),
        _ => false,
    }
}

/// Whether the node of that number is read as the alias of a decorated class.
fn is_read_as_alias(rules: FieldRules, node: NodeId) -> bool
    ensures { result ≡ is_some ((rules_view rules.entry).alias node.0) }
{
    match rules.plan.alias_of(node) {
        Some(_) => true,
        None => false,
    }
}

/// Whether the node is a declaration of a kind that only TypeScript has, or one with `declare`.
fn is_typescript_declaration(node: &Node) -> bool
    ensures { result
        ≡ is_typescript_declaration node.now.kind (docs_in node.now.parts.items) }
{
    Category::Declaration.contains(node.kind)
        && (node.kind.is_typescript() || node.flag(Field::Declare))
}

/// Whether the node is a declaration in whose place a list of statements comes.
fn is_statement_list(node: &Node) -> bool
    ensures { result ≡ is_statement_list node.now.kind (docs_in node.now.parts.items) }
{
    is_list_kind(node.kind) && !is_dropped(node)
}

/// Whether nodes of the kind are so where they are not erased.
fn is_list_kind(kind: Kind) -> bool
    ensures { result ≡ list_any (λ other. same_kind kind other) list_kinds }
{
    list_kinds().iter().any(|other| kind.is(*other))
}

/// The kinds of such declarations.
fn list_kinds() -> &'static [Kind]
    ensures { result.now ≡ list_kinds }
{
    &[
        Kind::TSEnumDeclaration,
        Kind::TSNamespaceDeclaration,
        Kind::ClassDeclaration,
        Kind::TSImportEqualsDeclaration,
    ]
}

/// Whether the node is a declaration of variables with `declare`.
fn is_declared_variable(node: &Node) -> bool
    ensures { result ≡ is_declared_variable node.now.kind (docs_in node.now.parts.items) }
{
    node.kind.is(Kind::VariableDeclaration) && node.flag(Field::Declare)
}
