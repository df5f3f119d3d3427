//! Hooks, and which of them a node reaches.
ghost use Rattle.std.specs.Prelude.{◌≡◌};
ghost use Rattle.oxt_ctx.specs.Reached.{as_kind, as_left, at_place, from_place, wants};

use oxt_grammar::category::Category;
use oxt_grammar::kind::Kind;

/// A hook. Those on lists of statements are handed a list, and all others a node.
#[derive(Clone, Copy, Debug, PartialEq, Eq)]
pub enum Hook {
    EnterProgram,
    ExitProgram,
    EnterStatements,
    ExitStatements,
    EnterStatement,
    ExitStatement,
    EnterClass,
    ExitClass,
    EnterMethodDefinition,
    ExitMethodDefinition,
    EnterAccessorProperty,
    ExitAccessorProperty,
    EnterPropertyDefinition,
    ExitPropertyDefinition,
    EnterFunction,
    ExitFunction,
    ExitClassAtEnd,
    EnterDeclaration,
    EnterExpression,
    EnterDecorator,
    EnterArrowFunctionExpression,
    EnterVariableDeclaration,
    EnterVariableDeclarator,
    EnterCallExpression,
    EnterNewExpression,
    EnterTaggedTemplateExpression,
    EnterImportExpression,
    EnterChainElement,
    EnterSimpleAssignmentTarget,
    EnterAssignmentTarget,
    EnterFormalParameter,
    EnterFormalParameterRest,
    EnterCatchParameter,
    EnterJsxOpeningElement,
    EnterJsxElement,
    EnterJsxFragment,
    EnterIfStatement,
    EnterWhileStatement,
    EnterDoWhileStatement,
    EnterForStatement,
    EnterForInStatement,
    EnterForOfStatement,
    EnterImportDeclaration,
    EnterExportAllDeclaration,
    EnterExportFromDeclaration,
}

impl Hook {
    /// Whether the hook is for nodes of the kind, where their place reaches it.
    pub fn wants(self, kind: Kind) -> bool
        ensures { result ≡ wants self kind }
    {
        match self {
            Hook::EnterStatement => Category::Item.contains(kind),
            Hook::ExitStatement => Category::Item.contains(kind),
            Hook::EnterDeclaration => Category::Declaration.contains(kind),
            Hook::EnterExpression => Category::Expression.contains(kind),
            Hook::EnterSimpleAssignmentTarget => Category::SimpleAssignmentTarget.contains(kind),
            Hook::EnterAssignmentTarget => Category::AssignmentTarget.contains(kind),
            Hook::EnterChainElement => Category::ChainElement.contains(kind),
            _ => true,
        }
    }
}

/// The hooks that a node may reach before its parts by the place where it stands, in their order:
/// each where it wants the kind that the node then has.
pub fn at_place(place: Category) -> &'static [Hook]
    ensures { result.now ≡ at_place place }
{
    match place {
        Category::Statement => &[Hook::EnterStatement, Hook::EnterDeclaration],
        Category::Item => &[Hook::EnterStatement, Hook::EnterDeclaration],
        Category::Declaration => &[Hook::EnterDeclaration],
        Category::Expression => &[Hook::EnterExpression],
        Category::Argument => &[Hook::EnterExpression],
        Category::PropertyKey => &[Hook::EnterExpression],
        Category::ForStatementInit => &[Hook::EnterExpression],
        Category::ArrowFunctionBody => &[Hook::EnterExpression],
        Category::ExportDefaultDeclarationKind => &[Hook::EnterExpression],
        Category::JSXExpression => &[Hook::EnterExpression],
        Category::SimpleAssignmentTarget => &[Hook::EnterSimpleAssignmentTarget],
        Category::AssignmentTarget => &[
            Hook::EnterAssignmentTarget,
            Hook::EnterSimpleAssignmentTarget,
        ],
        Category::AssignmentTargetMaybeDefault => &[
            Hook::EnterAssignmentTarget,
            Hook::EnterSimpleAssignmentTarget,
        ],
        Category::ForStatementLeft => &[
            Hook::EnterAssignmentTarget,
            Hook::EnterSimpleAssignmentTarget,
        ],
        Category::ChainElement => &[Hook::EnterChainElement],
        _ => &[],
    }
}

/// The hooks that a node reaches by its place after its parts.
pub fn from_place(place: Category) -> &'static [Hook]
    ensures { result.now ≡ from_place place }
{
    match place {
        Category::Statement => &[Hook::ExitStatement],
        Category::Item => &[Hook::ExitStatement],
        _ => &[],
    }
}

/// The hooks that a node reaches by its kind before its parts.
#[tactic(auto, unfolding(crate::specs::Reached::as_kind))]
pub fn as_kind(kind: Kind) -> &'static [Hook]
    ensures { result.now ≡ as_kind kind }
{
    match kind {
        Kind::ClassDeclaration => &[Hook::EnterClass],
        Kind::ClassExpression => &[Hook::EnterClass],
        Kind::MethodDefinition => &[Hook::EnterMethodDefinition],
        Kind::TSAbstractMethodDefinition => &[Hook::EnterMethodDefinition],
        Kind::AccessorProperty => &[Hook::EnterAccessorProperty],
        Kind::TSAbstractAccessorProperty => &[Hook::EnterAccessorProperty],
        Kind::PropertyDefinition => &[Hook::EnterPropertyDefinition],
        Kind::TSAbstractPropertyDefinition => &[Hook::EnterPropertyDefinition],
        Kind::FunctionDeclaration => &[Hook::EnterFunction],
        Kind::FunctionExpression => &[Hook::EnterFunction],
        Kind::TSDeclareFunction => &[Hook::EnterFunction],
        Kind::TSEmptyBodyFunctionExpression => &[Hook::EnterFunction],
        Kind::Decorator => &[Hook::EnterDecorator],
        Kind::ArrowFunctionExpression => &[Hook::EnterArrowFunctionExpression],
        Kind::VariableDeclaration => &[Hook::EnterVariableDeclaration],
        Kind::VariableDeclarator => &[Hook::EnterVariableDeclarator],
        Kind::CallExpression => &[Hook::EnterCallExpression],
        Kind::NewExpression => &[Hook::EnterNewExpression],
        Kind::TaggedTemplateExpression => &[Hook::EnterTaggedTemplateExpression],
        Kind::ImportExpression => &[Hook::EnterImportExpression],
        Kind::FormalParameter => &[Hook::EnterFormalParameter],
        Kind::FormalParameterRest => &[Hook::EnterFormalParameterRest],
        Kind::CatchParameter => &[Hook::EnterCatchParameter],
        Kind::JSXOpeningElement => &[Hook::EnterJsxOpeningElement],
        Kind::JSXElement => &[Hook::EnterJsxElement],
        Kind::JSXFragment => &[Hook::EnterJsxFragment],
        Kind::IfStatement => &[Hook::EnterIfStatement],
        Kind::WhileStatement => &[Hook::EnterWhileStatement],
        Kind::DoWhileStatement => &[Hook::EnterDoWhileStatement],
        Kind::ForStatement => &[Hook::EnterForStatement],
        Kind::ForInStatement => &[Hook::EnterForInStatement],
        Kind::ForOfStatement => &[Hook::EnterForOfStatement],
        Kind::ImportDeclaration => &[Hook::EnterImportDeclaration],
        Kind::ExportAllDeclaration => &[Hook::EnterExportAllDeclaration],
        Kind::ExportFromDeclaration => &[Hook::EnterExportFromDeclaration],
        _ => &[],
    }
}

/// The hooks that a node reaches by its kind after its parts, in their order.
#[tactic(auto, unfolding(crate::specs::Reached::as_left))]
pub fn as_left(kind: Kind) -> &'static [Hook]
    ensures { result.now ≡ as_left kind }
{
    match kind {
        Kind::ClassDeclaration => &[Hook::ExitClass, Hook::ExitClassAtEnd],
        Kind::ClassExpression => &[Hook::ExitClass, Hook::ExitClassAtEnd],
        Kind::MethodDefinition => &[Hook::ExitMethodDefinition],
        Kind::TSAbstractMethodDefinition => &[Hook::ExitMethodDefinition],
        Kind::AccessorProperty => &[Hook::ExitAccessorProperty],
        Kind::TSAbstractAccessorProperty => &[Hook::ExitAccessorProperty],
        Kind::PropertyDefinition => &[Hook::ExitPropertyDefinition],
        Kind::TSAbstractPropertyDefinition => &[Hook::ExitPropertyDefinition],
        Kind::FunctionDeclaration => &[Hook::ExitFunction],
        Kind::FunctionExpression => &[Hook::ExitFunction],
        Kind::TSDeclareFunction => &[Hook::ExitFunction],
        Kind::TSEmptyBodyFunctionExpression => &[Hook::ExitFunction],
        _ => &[],
    }
}
