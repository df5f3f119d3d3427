//! The texts and the lines of diagnostics.

use oxt_check::named::{
    ambient_module_nested, export_assignment_cannot_bed_used_in_esm,
    import_equals_cannot_be_used_in_esm, namespace_exporting_non_const, namespace_not_supported,
};
use oxt_lines::lines::Lines;
use oxt_lines::stopped::Stopped;
use oxt_names::diagnostic::{DiagnosticKind, OxcDiagnostic};
use oxt_names::ids::Span;
use oxt_names::lines::append_lines;
use std::alloc::Global;

/// All kinds.
const KINDS: [DiagnosticKind; 6] = [
    DiagnosticKind::NamespaceNotSupported,
    DiagnosticKind::AmbientModuleNested,
    DiagnosticKind::NamespaceExportingNonConst,
    DiagnosticKind::ImportEqualsInEsm,
    DiagnosticKind::ExportAssignmentInEsm,
    DiagnosticKind::AssignmentTarget,
];

/// Where the diagnostics stand that are made by name.
const SPAN: Span = Span { start: 3, end: 9 };

/// The texts of each kind, and lines.
pub fn print_diagnostics(alloc: Global, lines: &mut Lines) -> Result<(), Stopped> {
    for kind in KINDS {
        print_texts(&OxcDiagnostic { kind, span: None }, lines);
    }
    print_named(alloc, lines)?;
    print_lines(alloc, lines)
}

/// The lines of the diagnostics that are made by name.
fn print_named(alloc: Global, lines: &mut Lines) -> Result<(), Stopped> {
    let diagnostics = [
        import_equals_cannot_be_used_in_esm(SPAN),
        export_assignment_cannot_bed_used_in_esm(SPAN),
        ambient_module_nested(SPAN),
        namespace_exporting_non_const(SPAN),
        namespace_not_supported(SPAN),
    ];
    let mut bytes = Vec::new(alloc);
    append_lines(alloc, &diagnostics, &mut bytes)?;
    let text = String::from_utf8_lossy(alloc, bytes.as_slice())?;
    lines.text("diagnostics that are made by name", text.as_str());
    Ok(())
}

fn print_texts(diagnostic: &OxcDiagnostic, lines: &mut Lines) {
    lines.text("code", diagnostic.code().unwrap_or("-"));
    lines.text("message", diagnostic.message());
    lines.text("help", diagnostic.help().unwrap_or("-"));
}

/// Lines behind a text: one with a code and a place, one with neither, one with a code.
fn print_lines(alloc: Global, lines: &mut Lines) -> Result<(), Stopped> {
    let diagnostics = [
        OxcDiagnostic {
            kind: DiagnosticKind::ImportEqualsInEsm,
            span: Some(Span { start: 0, end: 24 }),
        },
        OxcDiagnostic {
            kind: DiagnosticKind::AssignmentTarget,
            span: None,
        },
        OxcDiagnostic {
            kind: DiagnosticKind::ExportAssignmentInEsm,
            span: None,
        },
    ];
    let mut bytes = Vec::new(alloc);
    bytes.extend_from_slice(b"three lines\n")?;
    append_lines(alloc, &diagnostics, &mut bytes)?;
    let text = String::from_utf8_lossy(alloc, bytes.as_slice())?;
    lines.text("append_lines behind a text", text.as_str());
    Ok(())
}
