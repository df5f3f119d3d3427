//! Diagnostics: their kinds, texts and lines.
ghost use Rattle.std.specs.Prelude.{◌≡◌, ◌++◌, IfOk, OnOk, codes, option_map, string_bytes};
ghost use Rattle.oxt_names.specs.Texts.{text_of};
ghost use Rattle.oxt_names.specs.Line.{line_of, or_dash, place_of};

use crate::ids::{OutOfMemory, Span};
use std::alloc::Global;

/// What a diagnostic is about.
#[derive(Clone, Copy, Debug, PartialEq, Eq)]
pub enum DiagnosticKind {
    /// `import a = require(..)` in an ECMAScript module.
    ImportEqualsInEsm,
    /// `export = ..` in an ECMAScript module.
    ExportAssignmentInEsm,
    /// A `module "m" {}` at the top level or in a namespace, without `declare`.
    AmbientModuleNested,
    /// A variable that a namespace exports and that may change.
    NamespaceExportingNonConst,
    /// A namespace where namespaces are turned off.
    NamespaceNotSupported,
    /// Syntax of types around a target of an assignment that is neither a name nor a member.
    AssignmentTarget,
}

impl DiagnosticKind {
    /// What is wrong.
    pub fn message(self) -> &'static str
        ensures { result.now ≡ (text_of self).message }
    {
        match self {
            DiagnosticKind::ImportEqualsInEsm => {
                "Import assignment cannot be used when targeting ECMAScript modules."
            }
            DiagnosticKind::ExportAssignmentInEsm => {
                "Export assignment cannot be used when targeting ECMAScript modules."
            }
            DiagnosticKind::AmbientModuleNested => {
                "Ambient modules cannot be nested in other modules or namespaces."
            }
            DiagnosticKind::NamespaceExportingNonConst => {
                "Namespaces exporting non-const are not supported by Oxc. Change to const or see: https://oxc.rs/docs/guide/usage/transformer/typescript.html#partial-namespace-support"
            }
            DiagnosticKind::NamespaceNotSupported => {
                "Namespace not marked type-only declare are disabled. To enable and review caveats see: https://oxc.rs/docs/guide/usage/transformer/typescript.html#partial-namespace-support"
            }
            DiagnosticKind::AssignmentTarget => {
                "Cannot strip out typescript syntax if SimpleAssignmentTarget is not an IdentifierReference or MemberExpression"
            }
        }
    }

    /// What to do about it, where something is known.
    pub fn help(self) -> Option<&'static str>
        ensures { option_map (λ t. t.now) result ≡ (text_of self).help }
    {
        match self {
            DiagnosticKind::ImportEqualsInEsm => Some(
                "Consider using 'import * as ns from \"mod\"', 'import {a} from \"mod\"', 'import d from \"mod\"', or another module format instead.",
            ),
            DiagnosticKind::ExportAssignmentInEsm => {
                Some("Consider using 'export default' or another module format instead.")
            }
            DiagnosticKind::AmbientModuleNested
            | DiagnosticKind::NamespaceExportingNonConst
            | DiagnosticKind::NamespaceNotSupported
            | DiagnosticKind::AssignmentTarget => None,
        }
    }

    /// The code that TypeScript's compiler has for it, if it has one.
    pub fn code(self) -> Option<&'static str>
        ensures { option_map (λ t. t.now) result ≡ (text_of self).code }
    {
        match self {
            DiagnosticKind::ImportEqualsInEsm => Some("TS1202"),
            DiagnosticKind::ExportAssignmentInEsm => Some("TS1203"),
            DiagnosticKind::AmbientModuleNested
            | DiagnosticKind::NamespaceExportingNonConst
            | DiagnosticKind::NamespaceNotSupported
            | DiagnosticKind::AssignmentTarget => None,
        }
    }
}

/// A finding about a program that does not keep it from being transformed.
#[derive(Clone, Copy, Debug, PartialEq, Eq)]
pub struct OxcDiagnostic {
    /// What it is about.
    pub kind: DiagnosticKind,
    /// Where it is in the source, if it has a place.
    pub span: Option<Span>,
}

impl OxcDiagnostic {
    /// What is wrong.
    pub fn message(&self) -> &str
        ensures { result.now ≡ (text_of self.now.kind).message }
    {
        self.kind.message()
    }

    /// What to do about it; none for a kind that has no such text.
    pub fn help(&self) -> Option<&str>
        ensures { option_map (λ t. t.now) result ≡ (text_of self.now.kind).help }
    {
        self.kind.help()
    }

    /// The code of its kind; none for a kind without one.
    pub fn code(&self) -> Option<&str>
        ensures { option_map (λ t. t.now) result ≡ (text_of self.now.kind).code }
    {
        self.kind.code()
    }

    /// The line that the program prints for it, with its line feed: the code, the place and the
    /// message, with a dash where there is no code or no place.
    pub fn line(&self, alloc: Global) -> Result<String, OutOfMemory>
        ensures { IfOk result (λ line. string_bytes line ≡ line_of self.now.kind self.now.span) }
    {
        let mut line = String::from_str(alloc, code_or_dash(self.kind))?;
        line.push_str(" ")?;
        push_place(&mut line, self.span)?;
        line.push_str(" ")?;
        line.push_str(self.kind.message())?;
        line.push_str("\n")?;
        Ok(line)
    }
}

// The code of the kind, or a dash.
fn code_or_dash(kind: DiagnosticKind) -> &'static str
    ensures { result.now ≡ or_dash (text_of kind).code }
{
    match kind.code() {
        Some(code) => code,
        None => "-",
    }
}

// Appends the place, or a dash.
fn push_place(line: &mut String, span: Option<Span>) -> Result<(), OutOfMemory>
    ensures { OnOk result (string_bytes line.new ≡ string_bytes line.old ++ place_of span) }
{
    match span {
        Some(span) => {
            let start = span.start;
            let end = span.end;
            write!(line, "{start}..{end}")?;
            Ok(())
        }
        None => {
            line.push_str("-")?;
            Ok(())
        }
    }
}
