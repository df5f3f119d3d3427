//! Diagnostics that have a place, by what they tell of it.
ghost use Rattle.std.specs.Prelude.{◌≡◌};
ghost use Rattle.oxt_check.specs.Diagnostics.{found_at};
ghost use Rattle.oxt_names.specs.declared.diagnostic.DiagnosticKind.TheVariants as diagnostic;

use oxt_names::diagnostic::{DiagnosticKind, OxcDiagnostic};
use oxt_names::ids::Span;

/// That an `import a = require("m")` stands there, though the output is an ECMAScript module.
pub fn import_equals_cannot_be_used_in_esm(span: Span) -> OxcDiagnostic
    ensures { result ≡ found_at diagnostic.ImportEqualsInEsm span.start span.end }
{
    found_at(DiagnosticKind::ImportEqualsInEsm, span)
}

/// That an `export =` stands there, though the output is an ECMAScript module.
pub fn export_assignment_cannot_bed_used_in_esm(span: Span) -> OxcDiagnostic
    ensures { result ≡ found_at diagnostic.ExportAssignmentInEsm span.start span.end }
{
    found_at(DiagnosticKind::ExportAssignmentInEsm, span)
}

/// That a module named by a text stands there without `declare`.
pub fn ambient_module_nested(span: Span) -> OxcDiagnostic
    ensures { result ≡ found_at diagnostic.AmbientModuleNested span.start span.end }
{
    found_at(DiagnosticKind::AmbientModuleNested, span)
}

/// That a variable stands there that a namespace exports and that may change.
pub fn namespace_exporting_non_const(span: Span) -> OxcDiagnostic
    ensures { result ≡ found_at diagnostic.NamespaceExportingNonConst span.start span.end }
{
    found_at(DiagnosticKind::NamespaceExportingNonConst, span)
}

/// That a namespace stands there, though namespaces are turned off.
pub fn namespace_not_supported(span: Span) -> OxcDiagnostic
    ensures { result ≡ found_at diagnostic.NamespaceNotSupported span.start span.end }
{
    found_at(DiagnosticKind::NamespaceNotSupported, span)
}

/// A diagnostic of that kind at that place.
fn found_at(kind: DiagnosticKind, span: Span) -> OxcDiagnostic
    ensures { result ≡ found_at kind span.start span.end }
{
    OxcDiagnostic {
        kind,
        span: Some(span),
    }
}
