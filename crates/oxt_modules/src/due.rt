//! Whether `export {}` has to say that a program is a module.
ghost use Rattle.std.specs.Prelude.{◌≡◌, codes};
ghost use Rattle.std.specs.List.{list_any};
ghost use Rattle.oxt_modules.specs.Due.{is_block, is_export_due, is_exporting, is_later_block, is_module_kind, is_module_statement, is_staying};
ghost use Rattle.oxt_modules.specs.Removed.{is_counted_removed};
ghost use Rattle.oxt_options.specs.Facts.{is_in};
ghost use Rattle.oxt_tree.specs.Fields.{named};
ghost use Rattle.oxt_tree.specs.View.{docs_in, node_doc, part_doc};

use crate::removed::{is_counted_removed, is_listing, is_removed};
use oxt_grammar::field::Field;
use oxt_grammar::kind::Kind;
use oxt_options::plan::Plan;
use oxt_tree::tree::{Node, Part};

/// Whether `export {}` has to say that the program is a module: of its imports and exports one is removed, and none of them
/// stays. An `import =` without `export` and an `export =` are none of them, and neither is what a later block of an enum
/// or a namespace becomes. Of a file of definitions nothing is left.
#[tactic(auto, using(oxt_tree::proofs::Lists::list_any_docs_in))]
pub fn is_export_due(program: &Node, plan: &Plan, only_remove_type_imports: bool) -> bool
    ensures { result ≡ is_export_due (is_in plan.now.kept) (is_in plan.now.first) only_remove_type_imports (node_doc program.now) }
{
    let statements = program.list(Field::Body);
    !program.is_definition_file()
        && is_any_removed(plan, only_remove_type_imports, statements)
        && !is_any_staying(plan, only_remove_type_imports, statements)
}

/// Whether one of the statements is removed, other than an `import =` without `export`.
fn is_any_removed(plan: &Plan, all: bool, statements: &[Part]) -> bool
    ensures { result ≡ list_any (λ part. is_counted_removed (is_in plan.now.kept) all (part_doc part)) statements.now }
{
    statements
        .iter()
        .any(|part| is_counted_removed(plan, all, part))
}

/// Whether one of them is an import or an export that stays.
fn is_any_staying(plan: &Plan, all: bool, statements: &[Part]) -> bool
    ensures { result ≡ list_any (λ part. is_staying (is_in plan.now.kept) (is_in plan.now.first) all (part_doc part)) statements.now }
{
    statements.iter().any(|part| is_staying(plan, all, part))
}

/// Whether the part is an import or an export that stays.
fn is_staying(plan: &Plan, all: bool, part: &Part) -> bool
    ensures { result ≡ is_staying (is_in plan.now.kept) (is_in plan.now.first) all (part_doc part.now) }
{
    is_module_statement(plan, part) && !is_removed(plan, all, part)
}

/// Whether the part is a statement that imports or exports.
fn is_module_statement(plan: &Plan, part: &Part) -> bool
    ensures { result ≡ is_module_statement (is_in plan.now.first) (part_doc part.now) }
{
    match part {
        Part::Node(node) => is_exporting(plan, node),
        _ => false,
    }
}

/// Whether the node imports or exports, in JavaScript too. An export of a later block does not.
fn is_exporting(plan: &Plan, node: &Node) -> bool
    ensures { result ≡ is_exporting (is_in plan.now.first) node.now.kind (docs_in node.now.parts.items) }
{
    is_module_kind(node.kind)
        && !(node.kind.is(Kind::ExportDeclaration) && exports_later_block(plan, node))
}

/// Whether the node exports a later block.
fn exports_later_block(plan: &Plan, node: &Node) -> bool
    ensures { result ≡ is_later_block (is_in plan.now.first) (named (codes "declaration") node.now.kind (docs_in node.now.parts.items)) }
{
    match node.field(Field::Declaration) {
        Some(part) => is_later_block(plan, part),
        None => false,
    }
}

/// Whether the part is a block of an enum or a namespace, before which something of its name emits code.
fn is_later_block(plan: &Plan, part: &Part) -> bool
    ensures { result ≡ is_later_block (is_in plan.now.first) (part_doc part.now) }
{
    match part {
        Part::Node(node) => is_block(node.kind) && !plan.is_first(node.id),
        _ => false,
    }
}

/// Whether nodes of the kind are blocks of enums or namespaces.
fn is_block(kind: Kind) -> bool
    ensures { result ≡ is_block kind }
{
    kind.is(Kind::TSEnumDeclaration) || kind.is(Kind::TSNamespaceDeclaration)
}

/// Whether nodes of the kind import or export, in JavaScript too.
fn is_module_kind(kind: Kind) -> bool
    ensures { result ≡ is_module_kind kind }
{
    is_listing(kind)
        || kind.is(Kind::ExportAllDeclaration)
        || kind.is(Kind::ExportDeclaration)
        || kind.is(Kind::ExportDefaultDeclaration)
}
