//! The `export {}` statements of a program, which say that it is a module.
ghost use Rattle.std.specs.Prelude.{◌≡◌, ◌++◌, IfOk, OnOk, codes};
ghost use Rattle.oxt_certificate.specs.Exports.{empty_exports, ends_in_export, export_span, is_empty_export, is_empty_export_by, same_span, same_spans};
ghost use Rattle.oxt_tree.specs.Doc.{list};
ghost use Rattle.oxt_tree.specs.Fields.{is_empty_list};
ghost use Rattle.oxt_tree.specs.View.{docs_in, part_doc};

use oxt_grammar::field::Field;
use oxt_grammar::kind::Kind;
use oxt_names::ids::{OutOfMemory, Span};
use oxt_tree::tree::{Node, Part};
use std::alloc::Global;

/// Where the `export {}` statements of the list stand in the source text, in order.
///
/// # Errors
///
/// `OutOfMemory` for want of memory alone.
pub fn empty_exports(alloc: Global, statements: &[Part]) -> Result<Vec<Span>, OutOfMemory>
    ensures { IfOk result (λ spans. spans.items ≡ empty_exports (docs_in statements.now)) }
{
    let mut spans = Vec::new(alloc);
    push_empty_exports(&mut spans, statements)?;
    Ok(spans)
}

/// Appends those of the statements.
#[tactic(auto, using(crate::proofs::Spans::push_steps))]
fn push_empty_exports(spans: &mut Vec<Span>, statements: &[Part]) -> Result<(), OutOfMemory>
    ensures { OnOk result (spans.new.items ≡ spans.old.items ++ empty_exports (docs_in statements.now)) }
{
    for statement in statements {
        push_empty_export(spans, statement)?;
    }
    Ok(())
}

/// Appends that of the statement, if it is one.
fn push_empty_export(spans: &mut Vec<Span>, statement: &Part) -> Result<(), OutOfMemory>
    ensures { OnOk result (spans.new.items ≡ spans.old.items ++ export_span (part_doc statement.now)) }
{
    match statement {
        Part::Node(node) => {
            if is_empty_export(node) {
                spans.push(node.span)?;
            }
            Ok(())
        }
        _ => Ok(()),
    }
}

/// Whether the last of the statements is an `export {}`.
#[tactic(auto, using(crate::proofs::Spans::last_steps))]
pub fn ends_in_export(statements: &[Part]) -> bool
    ensures { result ≡ ends_in_export (docs_in statements.now) }
{
    match statements.last() {
        Some(statement) => part_is_empty_export(statement),
        None => false,
    }
}

/// Whether the part is an `export {}`.
fn part_is_empty_export(part: &Part) -> bool
    ensures { result ≡ is_empty_export (part_doc part.now) }
{
    match part {
        Part::Node(node) => is_empty_export(node),
        _ => false,
    }
}

/// Whether the node is an `export {}`: an export of values with an empty list.
fn is_empty_export(node: &Node) -> bool
    ensures { result ≡ is_empty_export_by node.now.kind (docs_in node.now.parts.items) }
{
    node.kind.is(Kind::ExportNamedDeclaration)
        && (node.holds_text(Field::ExportKind, "value") && is_empty(node.list(Field::Specifiers)))
}

/// Whether there are none.
fn is_empty(parts: &[Part]) -> bool
    ensures { result ≡ is_empty_list (list (docs_in parts.now)) }
{
    parts.first().is_none()
}

/// Whether both are one list of spans.
#[tactic(auto, using(crate::proofs::Spans::same_steps))]
pub fn same_spans(a: &[Span], b: &[Span]) -> bool
    ensures { result ≡ same_spans a.now b.now }
{
    if a.len() != b.len() {
        return false;
    }
    for (i, span) in a.iter().enumerate() {
        if !same_span(*span, b[i]) {
            return false;
        }
    }
    true
}

/// Whether both are one span.
fn same_span(a: Span, b: Span) -> bool
    ensures { result ≡ same_span a b }
{
    a.start == b.start && a.end == b.end
}
