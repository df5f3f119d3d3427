//! The declarations `import a = ..`.
ghost use Rattle.std.specs.Prelude.{◌≡◌};
ghost use Rattle.oxt_declares.specs.Imports.{is_alias, is_required};
ghost use Rattle.oxt_tree.specs.View.{docs_in};

use oxt_grammar::field::Field;
use oxt_grammar::kind::Kind;
use oxt_tree::tree::Node;

/// Whether the node is a declaration `import a = ..` that is not of types alone.
pub fn is_alias(node: &Node) -> bool
    ensures { result ≡ is_alias node.now.kind (docs_in node.now.parts.items) }
{
    node.kind.is(Kind::TSImportEqualsDeclaration) && !node.is_type_only()
}

/// Whether the node is such a declaration of a module, as in `import a = require("m")`.
pub fn is_required(node: &Node) -> bool
    ensures { result ≡ is_required node.now.kind (docs_in node.now.parts.items) }
{
    is_alias(node) && node.holds_kind(Field::ModuleReference, Kind::TSExternalModuleReference)
}
