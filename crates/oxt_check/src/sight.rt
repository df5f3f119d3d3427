//! Of which nodes diagnostics tell.
ghost use Rattle.std.specs.Prelude.{◌≡◌, ◌&&◌, not};
ghost use Rattle.oxt_check.specs.Diagnostics.{is_changing, is_declared, is_esm, is_kept_require, is_named_module, is_nested_module, is_to_esm, is_top_module};
ghost use Rattle.oxt_grammar.specs.Places.{same_kind};
ghost use Rattle.oxt_grammar.specs.declared.kind.Kind.TheVariants as kind;
ghost use Rattle.oxt_options.specs.Facts.{is_in};
ghost use Rattle.oxt_options.specs.Options.{transform_view};
ghost use Rattle.oxt_tree.specs.View.{docs_in};
ghost use Rattle.oxt_declares.specs.Dropped.{keeps_decorators};

use crate::seat::Seat;
use oxt_declares::dropped::keeps_decorators;
use oxt_declares::imports::is_required;
use oxt_grammar::field::Field;
use oxt_grammar::kind::Kind;
use oxt_options::plan::Plan;
use oxt_options::{Module, TransformOptions};
use oxt_tree::tree::Node;

/// What decides of which nodes diagnostics tell.
#[derive(Clone, Copy)]
pub struct Sight<'a> {
    /// What is kept.
    pub plan: &'a Plan,
    /// The options of the run.
    pub options: &'a TransformOptions,
}

impl<'a> Sight<'a> {
    /// Whether namespaces are turned off, and the node is one or its like at the top level.
    pub fn is_unsupported(&self, seat: Seat, node: &Node) -> bool
        ensures { result ≡ (not (transform_view self.now.options.now).typescript.allow_namespaces
            && is_top_module seat node.now.kind (docs_in node.now.parts.items)) }
    {
        !self.options.typescript.allow_namespaces && is_top_module(seat, node)
    }

    /// Whether the output is an ECMAScript module, and the node is an `import a = require("m")` that is kept.
    pub fn is_import_in_esm(&self, node: &Node) -> bool
        ensures { result ≡ (is_to_esm (transform_view self.now.options.now)
            && is_kept_require (is_in self.now.plan.now.kept) node.now.kind node.now.id.0 (docs_in node.now.parts.items)) }
    {
        is_esm(self.options.module) && is_kept_require(self.plan, node)
    }

    /// Whether the output is an ECMAScript module, and the node is an `export =`.
    pub fn is_export_in_esm(&self, node: &Node) -> bool
        ensures { result ≡ (is_to_esm (transform_view self.now.options.now)
            && same_kind node.now.kind kind.TSExportAssignment) }
    {
        is_esm(self.options.module) && node.kind.is(Kind::TSExportAssignment)
    }

    /// Whether the node is dropped, but its decorators are called all the same.
    pub fn keeps_decorators(&self, node: &Node) -> bool
        ensures { result ≡ keeps_decorators (transform_view self.now.options.now).decorator.legacy node.now.kind
            (docs_in node.now.parts.items) }
    {
        keeps_decorators(self.options.decorator.legacy, node)
    }
}

/// Whether the output is an ECMAScript module.
fn is_esm(system: Module) -> bool
    ensures { result ≡ is_esm system }
{
    match system {
        Module::Esm => true,
        _ => false,
    }
}

/// Whether the node is a declaration `import a = require("m")` that is kept.
fn is_kept_require(plan: &Plan, node: &Node) -> bool
    ensures { result ≡ is_kept_require (is_in plan.now.kept) node.now.kind node.now.id.0 (docs_in node.now.parts.items) }
{
    is_required(node) && plan.keeps(node.id)
}

/// Whether the node is an external module, a namespace or a global declaration at the top level; an exported one only
/// without `declare`.
fn is_top_module(seat: Seat, node: &Node) -> bool
    ensures { result ≡ is_top_module seat node.now.kind (docs_in node.now.parts.items) }
{
    match seat {
        Seat::Top => is_named_module(node.kind) || node.kind.is(Kind::TSGlobalDeclaration),
        Seat::ExportedTop => is_named_module(node.kind) && !is_declared(node),
        _ => false,
    }
}

/// Whether the node is an external module without `declare` at the top level or directly in a namespace that emits code,
/// exported or not.
pub fn is_nested_module(seat: Seat, node: &Node) -> bool
    ensures { result ≡ is_nested_module seat node.now.kind (docs_in node.now.parts.items) }
{
    seat.is_item() && (node.kind.is(Kind::TSExternalModuleDeclaration) && !is_declared(node))
}

/// Whether a node of that kind is a declarator of variables that a namespace exports and that may change.
pub fn is_changing(seat: Seat, kind: Kind) -> bool
    ensures { result ≡ is_changing seat kind }
{
    match seat {
        Seat::Declarator => kind.is(Kind::VariableDeclarator),
        _ => false,
    }
}

/// Whether nodes of the kind are external modules or namespaces.
fn is_named_module(kind: Kind) -> bool
    ensures { result ≡ is_named_module kind }
{
    kind.is(Kind::TSExternalModuleDeclaration) || kind.is(Kind::TSNamespaceDeclaration)
}

/// Whether the node says that it is a mere declaration.
fn is_declared(node: &Node) -> bool
    ensures { result ≡ is_declared node.now.kind (docs_in node.now.parts.items) }
{
    node.flag(Field::Declare)
}
