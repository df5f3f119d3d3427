//! Which imports and exports of a module are removed.
ghost use Rattle.std.specs.Prelude.{◌≡◌, codes};
ghost use Rattle.std.specs.List.{list_any};
ghost use Rattle.oxt_modules.specs.Removed.{exports_lowered, is_counted_removed, is_export_list, is_export_removed, is_kept, is_listing, is_lowered, is_lowered_node, is_nothing, is_removed, loses_all};
ghost use Rattle.oxt_options.specs.Facts.{is_in};
ghost use Rattle.oxt_tree.specs.Doc.{list};
ghost use Rattle.oxt_tree.specs.Fields.{is_empty_list, named};
ghost use Rattle.oxt_tree.specs.View.{docs_in, node_doc, part_doc};
ghost use Rattle.oxt_declares.specs.Dropped.{is_dropped};

use oxt_declares::dropped::part_is_dropped;
use oxt_grammar::field::Field;
use oxt_grammar::kind::Kind;
use oxt_options::plan::Plan;
use oxt_tree::tree::{Node, Part};

/// Whether the part is a node that the plan keeps.
pub fn is_kept(plan: &Plan, part: &Part) -> bool
    ensures { result ≡ is_kept (is_in plan.now.kept) (part_doc part.now) }
{
    match part {
        Part::Node(node) => plan.keeps(node.id),
        _ => false,
    }
}

/// Whether there are specifiers, of which the plan keeps none.
#[tactic(auto, using(oxt_tree::proofs::Lists::list_any_docs_in))]
pub fn loses_all(plan: &Plan, specifiers: &[Part]) -> bool
    ensures { result ≡ loses_all (is_in plan.now.kept) (docs_in specifiers.now) }
{
    !is_empty(specifiers) && !is_any_kept(plan, specifiers)
}

/// Whether there are none.
fn is_empty(specifiers: &[Part]) -> bool
    ensures { result ≡ is_empty_list (list (docs_in specifiers.now)) }
{
    specifiers.first().is_none()
}

/// Whether one of the specifiers is kept.
fn is_any_kept(plan: &Plan, specifiers: &[Part]) -> bool
    ensures { result ≡ list_any (λ part. is_kept (is_in plan.now.kept) (part_doc part)) specifiers.now }
{
    specifiers.iter().any(|part| is_kept(plan, part))
}

/// Whether nodes of the kind are imports or exports of names.
pub fn is_listing(kind: Kind) -> bool
    ensures { result ≡ is_listing kind }
{
    kind.is(Kind::ImportDeclaration) || is_export_list(kind)
}

/// Whether nodes of the kind are exports of names, with a source or without.
fn is_export_list(kind: Kind) -> bool
    ensures { result ≡ is_export_list kind }
{
    kind.is(Kind::ExportNamedDeclaration) || kind.is(Kind::ExportFromDeclaration)
}

/// Whether the part is an import or an export that goes, an `import =` too.
pub fn is_removed(plan: &Plan, all: bool, part: &Part) -> bool
    ensures { result ≡ is_removed (is_in plan.now.kept) all (part_doc part.now) }
{
    match part {
        Part::Node(node) => node_is_removed(plan, all, node),
        _ => false,
    }
}

/// Whether the node is an import or an export that goes: it stands for nothing at run time, or lists names of which the
/// plan keeps none, or is an `import =` without `export` that the plan does not keep. With `all` an import that loses its
/// specifiers stays.
pub fn node_is_removed(plan: &Plan, all: bool, node: &Node) -> bool
    ensures { result ≡ is_removed (is_in plan.now.kept) all (node_doc node.now) }
{
    if node.kind.is(Kind::TSImportEqualsDeclaration) {
        !plan.keeps(node.id)
    } else {
        is_export_removed(plan, all, node)
    }
}

/// Whether the part is an import or an export that goes, other than an export of a namespace or an external module
/// without `declare`, which goes with the namespaces. An `import =` without `export` does not count.
pub fn is_counted_removed(plan: &Plan, all: bool, part: &Part) -> bool
    ensures { result ≡ is_counted_removed (is_in plan.now.kept) all (part_doc part.now) }
{
    match part {
        Part::Node(node) => is_export_removed(plan, all, node) && !exports_lowered(node),
        _ => false,
    }
}

/// Whether the node exports a namespace or an external module without `declare`.
fn exports_lowered(node: &Node) -> bool
    ensures { result ≡ exports_lowered node.now.kind (docs_in node.now.parts.items) }
{
    node.kind.is(Kind::ExportDeclaration) && declares_lowered(node)
}

/// Whether what the node declares is such.
fn declares_lowered(node: &Node) -> bool
    ensures { result ≡ is_lowered_node (named (codes "declaration") node.now.kind (docs_in node.now.parts.items)) }
{
    match node.field(Field::Declaration) {
        Some(Part::Node(declaration)) => is_lowered(declaration),
        _ => false,
    }
}

/// Whether the node is a namespace or an external module without `declare`.
fn is_lowered(node: &Node) -> bool
    ensures { result ≡ is_lowered node.now.kind (docs_in node.now.parts.items) }
{
    (node.kind.is(Kind::TSNamespaceDeclaration) || node.kind.is(Kind::TSExternalModuleDeclaration))
        && !node.flag(Field::Declare)
}

/// Whether the node is an import or an export that goes, and no `import =` without `export`.
fn is_export_removed(plan: &Plan, all: bool, node: &Node) -> bool
    ensures { result ≡ is_export_removed (is_in plan.now.kept) all node.now.kind (docs_in node.now.parts.items) }
{
    let kind = node.kind;
    if kind.is(Kind::ImportDeclaration) {
        node.is_type_only() || (!all && loses_all(plan, node.list(Field::Specifiers)))
    } else if is_export_list(kind) {
        node.is_type_only() || loses_all(plan, node.list(Field::Specifiers))
    } else if kind.is(Kind::ExportAllDeclaration) {
        node.is_type_only()
    } else if kind.is(Kind::ExportDeclaration) {
        exports_nothing(node)
    } else if kind.is(Kind::ExportDefaultDeclaration) {
        is_nothing(plan, node)
    } else {
        kind.is(Kind::TSNamespaceExportDeclaration)
    }
}

/// Whether what the export declares stands for nothing at run time.
fn exports_nothing(node: &Node) -> bool
    ensures { result ≡ is_dropped (named (codes "declaration") node.now.kind (docs_in node.now.parts.items)) }
{
    match node.field(Field::Declaration) {
        Some(part) => part_is_dropped(part),
        None => false,
    }
}

/// Whether what is exported by default stands for nothing at run time, or is a name that is not kept.
fn is_nothing(plan: &Plan, node: &Node) -> bool
    ensures { result ≡ is_nothing (is_in plan.now.kept) (named (codes "declaration") node.now.kind (docs_in node.now.parts.items)) }
{
    match node.field(Field::Declaration) {
        Some(part) => {
            part_is_dropped(part)
                || (part.is_kind(Kind::IdentifierReference) && !is_kept(plan, part))
        }
        None => false,
    }
}
