//! The wrappers that may stay in the output of a source.
ghost use Rattle.std.specs.Prelude.{◌≡◌, ℕ, Bool, IfOk};
ghost use Rattle.oxt_check.specs.Diagnostics.{diagnostics};
ghost use Rattle.oxt_check.specs.Targets.{targets};
ghost use Rattle.oxt_options.specs.Options.{transform_view};
ghost use Rattle.oxt_transform.specs.Lowering.{is_of_wrapper, tells_of_wrapper};
ghost use Rattle.oxt_tree.specs.View.{node_doc};

use oxt_check::targets::WrappedTargets;
use oxt_names::diagnostic::{DiagnosticKind, OxcDiagnostic};
use oxt_names::ids::OutOfMemory;
use oxt_options::TransformOptions;
use oxt_tree::tree::Node;
use std::alloc::Global;

/// Those of a source of which these are the diagnostics. One tells of each, so that none is looked for where none does.
///
/// # Errors
///
/// `OutOfMemory` for want of memory alone.
pub(crate) fn staying_wrappers(
    alloc: Global,
    source: &Node,
    told: &[OxcDiagnostic],
    options: &TransformOptions,
) -> Result<WrappedTargets, OutOfMemory>
    ensures { IfOk result (λ staying. (ks : ℕ → Bool) → told.now ≡ diagnostics ks (transform_view options.now) (node_doc source.now)
        → staying ≡ targets options.now.decorator.legacy (node_doc source.now)) }
{
    if tells_of_wrapper(told) {
        let staying = WrappedTargets::of(alloc, source, options.decorator.legacy)?;
        Ok(staying)
    } else {
        Ok(WrappedTargets::none(alloc))
    }
}

/// Whether one of the diagnostics tells of such a wrapper.
fn tells_of_wrapper(told: &[OxcDiagnostic]) -> bool
    ensures { result ≡ tells_of_wrapper told.now }
{
    told.iter().any(|told| is_of_wrapper(told.kind))
}

/// Whether diagnostics of the kind tell of such wrappers.
fn is_of_wrapper(kind: DiagnosticKind) -> bool
    ensures { result ≡ is_of_wrapper kind }
{
    match kind {
        DiagnosticKind::AssignmentTarget => true,
        _ => false,
    }
}
