//! Collects what the writer of a program is told, in the order of the text.
ghost use Rattle.std.specs.Prelude.{◌≡◌, ◌++◌, [], if◌then◌else◌, map, OnOk};
ghost use Rattle.std.specs.List.{list_any};
ghost use Rattle.oxt_grammar.specs.Field.{row_view};
ghost use Rattle.oxt_check.specs.Diagnostics.{told_among, told_below, told_first, told_if, told_in, told_of_code, told_of_module, told_of_namespace, wrapper_stays};
ghost use Rattle.oxt_check.specs.Quiet.{is_name, is_quiet};
ghost use Rattle.oxt_options.specs.Facts.{is_in};
ghost use Rattle.oxt_options.specs.Options.{transform_view};
ghost use Rattle.oxt_search.specs.Sought.{holds_nodes};
ghost use Rattle.oxt_tree.specs.View.{docs_in, node_doc, part_doc};

use crate::named::{
    ambient_module_nested, export_assignment_cannot_bed_used_in_esm,
    import_equals_cannot_be_used_in_esm, namespace_exporting_non_const, namespace_not_supported,
};
use crate::seat::Seat;
use crate::sight::{Sight, is_changing, is_nested_module};
use crate::wrapped::{held_by, is_wrapped_target};
use oxt_declares::dropped::is_dropped;
use oxt_grammar::holds::{Holds, Row};
use oxt_grammar::kind::Kind;
use oxt_names::diagnostic::{DiagnosticKind, OxcDiagnostic};
use oxt_names::ids::OutOfMemory;
use oxt_search::search::holds_nodes;
use oxt_tree::tree::{Node, Part};

/// Appends what is told of the node, which stands in that seat and where a field holds `holds`, and then of those in it. Half of
/// the nodes of a program are names that hold none, and of these nothing is told.
#[cycle(tell)]
pub fn tell_of_node(
    told: &mut Vec<OxcDiagnostic>,
    sight: &Sight<'_>,
    node: &Node,
    seat: Seat,
    holds: Holds,
) -> Result<(), OutOfMemory>
    ensures { OnOk result (told.new.items ≡ told.old.items
        ++ told_in (node_doc node.now) (is_in sight.now.plan.now.kept) (transform_view sight.now.options.now) seat holds) }
{
    if is_quiet(node) {
        return Ok(());
    }
    tell_of_namespace(told, sight, node, seat)?;
    let rows = node.kind.rows();
    let inside = seat.inside(node);
    if is_dropped(node) {
        let is_kept = sight.keeps_decorators(node);
        return tell_of_first(told, sight, &node.parts, inside, rows, is_kept);
    }
    tell_of_code(told, sight, node, holds)?;
    tell_of_fields(told, sight, &node.parts, inside, rows)
}

/// Appends what is told of the part.
#[cycle(tell)]
#[inline(always)]
fn tell_of_part(
    told: &mut Vec<OxcDiagnostic>,
    sight: &Sight<'_>,
    part: &Part,
    seat: Seat,
    holds: Holds,
) -> Result<(), OutOfMemory>
    ensures { OnOk result (told.new.items ≡ told.old.items
        ++ told_in (part_doc part.now) (is_in sight.now.plan.now.kept) (transform_view sight.now.options.now) seat holds) }
{
    match part {
        Part::Node(node) => tell_of_node(told, sight, node, seat, holds),
        Part::List(parts) => tell_of_each(told, sight, parts, seat, holds),
        _ => Ok(()),
    }
}

/// Appends what is told of the elements of a list.
#[cycle(tell)]
#[tactic(auto, using(crate::proofs::Tellings::each_steps))]
fn tell_of_each(
    told: &mut Vec<OxcDiagnostic>,
    sight: &Sight<'_>,
    parts: &[Part],
    seat: Seat,
    holds: Holds,
) -> Result<(), OutOfMemory>
    ensures { OnOk result (told.new.items ≡ told.old.items
        ++ told_among (docs_in parts.now) (is_in sight.now.plan.now.kept) (transform_view sight.now.options.now) seat holds) }
{
    for part in parts {
        tell_of_part(told, sight, part, seat, holds)?;
    }
    Ok(())
}

/// Appends what is told of what the fields of a node with these rows hold.
#[cycle(tell)]
#[tactic(auto, using(crate::proofs::Tellings::field_steps))]
fn tell_of_fields(
    told: &mut Vec<OxcDiagnostic>,
    sight: &Sight<'_>,
    parts: &[Part],
    seat: Seat,
    rows: &[Row],
) -> Result<(), OutOfMemory>
    ensures { OnOk result (told.new.items ≡ told.old.items
        ++ told_below (docs_in parts.now) (is_in sight.now.plan.now.kept) (transform_view sight.now.options.now) seat
        (map row_view rows.now)) }
{
    for (i, part) in parts.iter().enumerate() {
        match rows.get(i) {
            Some(row) => tell_of_part(told, sight, part, seat, row.holds)?,
            None => return Ok(()),
        }
    }
    Ok(())
}

/// Appends what is told of what the first field of a node with these rows holds, if that is kept.
#[cycle(tell)]
fn tell_of_first(
    told: &mut Vec<OxcDiagnostic>,
    sight: &Sight<'_>,
    parts: &[Part],
    seat: Seat,
    rows: &[Row],
    is_kept: bool,
) -> Result<(), OutOfMemory>
    ensures { OnOk result (told.new.items ≡ told.old.items ++ (if is_kept
        then told_first (docs_in parts.now) (is_in sight.now.plan.now.kept) (transform_view sight.now.options.now) seat
        (map row_view rows.now) else [])) }
{
    match parts.first() {
        Some(part) if is_kept => tell_of_part(told, sight, part, seat, held_by(rows.get(0))),
        _ => Ok(()),
    }
}

/// Whether the node is a name that holds no nodes.
#[tactic(auto, using(oxt_tree::proofs::Lists::list_any_docs_in))]
fn is_quiet(node: &Node) -> bool
    ensures { result ≡ is_quiet node.now.kind (docs_in node.now.parts.items) }
{
    is_name(node.kind) && !has_nodes(&node.parts)
}

/// Whether nodes of the kind are names that are used, that stand for themselves, or that are declared.
fn is_name(kind: Kind) -> bool
    ensures { result ≡ is_name kind }
{
    kind.is(Kind::IdentifierReference)
        || (kind.is(Kind::IdentifierName) || kind.is(Kind::BindingIdentifier))
}

/// Whether nodes may stand in one of the parts.
fn has_nodes(parts: &[Part]) -> bool
    ensures { result ≡ list_any (λ part. holds_nodes (part_doc part)) parts.now }
{
    parts.iter().any(|part| holds_nodes(part))
}

/// Appends what is told of the node itself for the sake of namespaces.
fn tell_of_namespace(
    told: &mut Vec<OxcDiagnostic>,
    sight: &Sight<'_>,
    node: &Node,
    seat: Seat,
) -> Result<(), OutOfMemory>
    ensures { OnOk result (told.new.items ≡ told.old.items
        ++ told_of_namespace (transform_view sight.now.options.now) seat node.now.kind node.now.span.start node.now.span.end
        (docs_in node.now.parts.items)) }
{
    let is_unsupported = sight.is_unsupported(seat, node);
    tell_if(told, is_unsupported, namespace_not_supported(node.span))?;
    let is_nested = is_nested_module(seat, node);
    tell_if(told, is_nested, ambient_module_nested(node.span))?;
    let is_changing = is_changing(seat, node.kind);
    tell_if(told, is_changing, namespace_exporting_non_const(node.span))
}

/// Appends what is told of the node itself, which is no erased code.
fn tell_of_code(
    told: &mut Vec<OxcDiagnostic>,
    sight: &Sight<'_>,
    node: &Node,
    holds: Holds,
) -> Result<(), OutOfMemory>
    ensures { OnOk result (told.new.items ≡ told.old.items
        ++ told_of_code (is_in sight.now.plan.now.kept) (transform_view sight.now.options.now) holds node.now.kind node.now.id.0
        node.now.span.start node.now.span.end (docs_in node.now.parts.items)) }
{
    tell_of_module(told, sight, node)?;
    tell_if(told, is_wrapped_target(holds, node), wrapper_stays())
}

/// Appends what is told of the node as a form that ECMAScript modules have not.
fn tell_of_module(
    told: &mut Vec<OxcDiagnostic>,
    sight: &Sight<'_>,
    node: &Node,
) -> Result<(), OutOfMemory>
    ensures { OnOk result (told.new.items ≡ told.old.items
        ++ told_of_module (is_in sight.now.plan.now.kept) (transform_view sight.now.options.now) node.now.kind node.now.id.0
        node.now.span.start node.now.span.end (docs_in node.now.parts.items)) }
{
    let is_import = sight.is_import_in_esm(node);
    let at_import = import_equals_cannot_be_used_in_esm(node.span);
    tell_if(told, is_import, at_import)?;
    let is_export = sight.is_export_in_esm(node);
    let at_export = export_assignment_cannot_bed_used_in_esm(node.span);
    tell_if(told, is_export, at_export)
}

/// Appends the diagnostic, where that is so.
fn tell_if(
    told: &mut Vec<OxcDiagnostic>,
    is_so: bool,
    diagnostic: OxcDiagnostic,
) -> Result<(), OutOfMemory>
    ensures { OnOk result (told.new.items ≡ told.old.items ++ told_if is_so diagnostic) }
{
    if is_so {
        told.push(diagnostic)?;
    }
    Ok(())
}

/// That syntax of types stays around a target.
fn wrapper_stays() -> OxcDiagnostic
    ensures { result ≡ wrapper_stays }
{
    OxcDiagnostic {
        kind: DiagnosticKind::AssignmentTarget,
        span: None,
    }
}
