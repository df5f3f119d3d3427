//! What the writer of a program is told.
ghost use Rattle.std.specs.Prelude.{◌≡◌, IfOk, filter, not};
ghost use Rattle.oxt_check.specs.Diagnostics.{diagnostics, is_of_namespaces, namespaces_first};
ghost use Rattle.oxt_options.specs.Facts.{is_in};
ghost use Rattle.oxt_options.specs.Options.{transform_view};
ghost use Rattle.oxt_tree.specs.View.{node_doc};

use crate::seat::Seat;
use crate::sight::Sight;
use crate::tell::tell_of_node;
use oxt_grammar::category::Category;
use oxt_grammar::holds::Holds;
use oxt_names::diagnostic::{DiagnosticKind, OxcDiagnostic};
use oxt_names::ids::OutOfMemory;
use oxt_options::TransformOptions;
use oxt_options::plan::Plan;
use oxt_tree::tree::Node;
use std::alloc::Global;

/// The diagnostics of the program, whose plan that is: first those of namespaces in the order of the text, and then the
/// others so. A file of definitions has none.
///
/// Of namespaces it tells where they are turned off, of modules of a text without `declare`, and of variables that a
/// namespace exports and that may change; of the others, of `import a = require(..)` and `export =` in ECMAScript modules,
/// and of each target that stays wrapped.
///
/// # Errors
///
/// Fails only where memory runs out.
pub fn diagnostics_of(
    alloc: Global,
    program: &Node,
    plan: &Plan,
    options: &TransformOptions,
) -> Result<Vec<OxcDiagnostic>, OutOfMemory>
    ensures { IfOk result (λ told. told.items
        ≡ diagnostics (is_in plan.now.kept) (transform_view options.now) (node_doc program.now)) }
{
    let mut told = Vec::new(alloc);
    if program.is_definition_file() {
        return Ok(told);
    }
    let sight = Sight { plan, options };
    tell_of_node(
        &mut told,
        &sight,
        program,
        Seat::Elsewhere,
        Holds::Node(Category::Program),
    )?;
    namespaces_first(alloc, told.as_slice())
}

/// What is told for the sake of namespaces, and then the rest.
fn namespaces_first(
    alloc: Global,
    told: &[OxcDiagnostic],
) -> Result<Vec<OxcDiagnostic>, OutOfMemory>
    ensures { IfOk result (λ sorted. sorted.items ≡ namespaces_first told.now) }
{
    let mut sorted = of_namespaces(alloc, told)?;
    let others = of_others(alloc, told)?;
    sorted.extend_from_slice(others.as_slice())?;
    Ok(sorted)
}

/// What is told for the sake of namespaces.
fn of_namespaces(alloc: Global, told: &[OxcDiagnostic]) -> Result<Vec<OxcDiagnostic>, OutOfMemory>
    ensures { IfOk result (λ these. these.items ≡ filter (λ t. is_of_namespaces t.kind) told.now) }
{
    Ok(
        told.iter()
            .copied()
            .filter(|told| is_of_namespaces(told.kind))
            .collect(alloc)?,
    )
}

/// What else is told.
fn of_others(alloc: Global, told: &[OxcDiagnostic]) -> Result<Vec<OxcDiagnostic>, OutOfMemory>
    ensures { IfOk result (λ these. these.items ≡ filter (λ t. not (is_of_namespaces t.kind)) told.now) }
{
    Ok(
        told.iter()
            .copied()
            .filter(|told| !is_of_namespaces(told.kind))
            .collect(alloc)?,
    )
}

/// Whether diagnostics of the kind are told for the sake of namespaces.
fn is_of_namespaces(kind: DiagnosticKind) -> bool
    ensures { result ≡ is_of_namespaces kind }
{
    match kind {
        DiagnosticKind::NamespaceNotSupported => true,
        DiagnosticKind::AmbientModuleNested => true,
        DiagnosticKind::NamespaceExportingNonConst => true,
        _ => false,
    }
}
