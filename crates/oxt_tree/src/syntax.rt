//! Which nodes are syntax of TypeScript alone.
ghost use Rattle.std.specs.Prelude.{◌≡◌, codes};
ghost use Rattle.std.specs.List.{list_any};
ghost use Rattle.oxt_grammar.specs.Places.{same_kind};
ghost use Rattle.oxt_tree.specs.Syntax.{erased_kinds, is_erased_kind, is_type_only, lacks_body, is_erased, is_erased_node, is_definition_file, is_mere_declaration, is_typescript_syntax};
ghost use Rattle.oxt_tree.specs.View.{docs_in, field_in, node_doc, part_doc};

use crate::tree::{Node, Part};
use oxt_grammar::category::Category;
use oxt_grammar::field::Field;
use oxt_grammar::kind::Kind;

impl Node {
    /// Whether it is a wrapper, or erased by its kind, by `declare` or `type`, or for want of a
    /// body; or an export of what is erased so.
    pub fn is_typescript_syntax(&self) -> bool
        ensures { result ≡ is_typescript_syntax self.now.kind (docs_in self.now.parts.items) }
    {
        Category::Wrapper.contains(self.kind) || self.is_erased() || self.exports_erased()
    }

    /// Whether it is erased by its kind, by `declare` or `type`, or for want of a body.
    pub fn is_erased(&self) -> bool
        ensures { result ≡ is_erased self.now.kind (docs_in self.now.parts.items) }
    {
        is_erased_kind(self.kind)
            || self.flag(Field::Declare)
            || self.is_type_only()
            || self.holds_kind(Field::Value, Kind::TSEmptyBodyFunctionExpression)
    }

    /// Whether it is an import or an export of types alone.
    pub fn is_type_only(&self) -> bool
        ensures { result ≡ is_type_only self.now.kind (docs_in self.now.parts.items) }
    {
        self.holds_text(Field::ImportKind, "type") || self.holds_text(Field::ExportKind, "type")
    }

    /// Whether it is an export of a declaration that is erased.
    fn exports_erased(&self) -> bool
        ensures { result ≡ is_erased_node (field_in (codes "declaration") self.now) }
    {
        match self.field(Field::Declaration) {
            Some(Part::Node(declaration)) => declaration.is_erased(),
            _ => false,
        }
    }
}

impl Node {
    /// Whether it is the program of a file of definitions, of which nothing is there at run time.
    pub fn is_definition_file(&self) -> bool
        ensures { result ≡ is_definition_file (node_doc self.now) }
    {
        self.holds_text(Field::Lang, "dts")
    }

    /// Whether it is a declaration that stands for nothing at run time: by its kind, by `declare` or
    /// `type`, or for want of a body.
    pub fn is_mere_declaration(&self) -> bool
        ensures { result ≡ is_mere_declaration (node_doc self.now) }
    {
        Category::Declaration.contains(self.kind) && self.is_erased()
    }
}

impl Part {
    /// Whether it is a statement that stands for nothing at run time.
    pub fn is_mere_declaration(&self) -> bool
        ensures { result ≡ is_mere_declaration (part_doc self.now) }
    {
        match self {
            Part::Node(node) => node.is_mere_declaration(),
            _ => false,
        }
    }
}

/// Whether nodes of the kind are erased whatever they hold.
fn is_erased_kind(kind: Kind) -> bool
    ensures { result ≡ is_erased_kind kind }
{
    is_one_of(kind, erased_kinds())
}

/// Whether the kind is one of the list.
fn is_one_of(kind: Kind, kinds: &[Kind]) -> bool
    ensures { result ≡ list_any (λ other. same_kind kind other) kinds.now }
{
    kinds.iter().any(|other| kind.is(*other))
}

/// The kinds whose nodes are erased whatever they hold.
fn erased_kinds() -> &'static [Kind]
    ensures { result.now ≡ erased_kinds }
{
    &[
        Kind::TSTypeAliasDeclaration,
        Kind::TSInterfaceDeclaration,
        Kind::TSGlobalDeclaration,
        Kind::TSExternalModuleDeclaration,
        Kind::TSNamespaceExportDeclaration,
        Kind::TSDeclareFunction,
        Kind::TSEmptyBodyFunctionExpression,
        Kind::TSAbstractMethodDefinition,
        Kind::TSAbstractPropertyDefinition,
        Kind::TSAbstractAccessorProperty,
        Kind::TSIndexSignature,
    ]
}
