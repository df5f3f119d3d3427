//! The lines of several diagnostics.
ghost use Rattle.std.specs.Prelude.{◌≡◌, ◌++◌, OnOk};
ghost use Rattle.oxt_names.specs.Line.{line_of, lines_of};

use crate::diagnostic::OxcDiagnostic;
use crate::ids::OutOfMemory;
use std::alloc::Global;

/// Appends the lines of the diagnostics to the text, in their order.
///
/// # Errors
///
/// Fails only where memory runs out.
#[tactic(auto, using(crate::proofs::Appended::one_more, crate::proofs::Appended::no_more))]
pub fn append_lines(
    alloc: Global,
    diagnostics: &[OxcDiagnostic],
    text: &mut Vec<u8>,
) -> Result<(), OutOfMemory>
    ensures { OnOk result (text.new.items ≡ text.old.items ++ lines_of diagnostics.now) }
{
    for diagnostic in diagnostics {
        append_line(alloc, diagnostic, text)?;
    }
    Ok(())
}

/// Appends the line of a diagnostic.
fn append_line(
    alloc: Global,
    diagnostic: &OxcDiagnostic,
    text: &mut Vec<u8>,
) -> Result<(), OutOfMemory>
    ensures { OnOk result
        (text.new.items ≡ text.old.items ++ line_of diagnostic.now.kind diagnostic.now.span) }
{
    let line = diagnostic.line(alloc)?;
    text.extend_from_slice(line.as_bytes())?;
    Ok(())
}
