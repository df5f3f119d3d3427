//! The work on one tree.
ghost use Rattle.std.specs.Prelude.{◌≡◌, IfOk, IfErr, None, OnOk, true};
ghost use Rattle.oxt_check.specs.Diagnostics.{diagnostics};
ghost use Rattle.oxt_check.specs.Faults.{IsFaultOf, facts_of, first_fault};
ghost use Rattle.oxt_json.specs.Spelling.{reading, tree};
ghost use Rattle.oxt_json.specs.Spelled.{text_of};
ghost use Rattle.oxt_options.specs.Options.{transform_view};
ghost use Rattle.oxt_options.specs.Facts.{Answers};
ghost use Rattle.oxt_resolve.specs.Groups.{groups_of};
ghost use Rattle.oxt_resolve.specs.Resolved.{resolved};
ghost use Rattle.oxt_told.specs.Source.{asked_of};
ghost use Rattle.oxt_certificate.specs.Expected.{expected_beside, expected_view, fault_of, keeps, names_of};
ghost use Rattle.oxt_transform.specs.Faults.{refusal_in, IsReasonFor, text_in, told_in};
ghost use Rattle.oxt_transform.specs.Lowering.{IsTextOfOne, Lowers, Passes, ReturnsPlain};
ghost use Rattle.oxt_transform.specs.Outcomes.{answer_of};
ghost use Rattle.oxt_rewrite.specs.Plain.{ComesBack};
ghost use Rattle.oxt_transform.specs.Refusals.{Accepts, IsFailure, IsHindrance, Judges};
ghost use Rattle.oxt_tree.specs.View.{node_doc};
ghost use Rattle.oxt_valid.specs.Valid.{is_tree};

use crate::fault::{Fault, fault_of_reading};
use crate::staying::staying_wrappers;
use oxt_certificate::certificate::certify;
use oxt_certificate::expected::Expected;
use oxt_check::check;
use oxt_check::diagnose::diagnostics_of;
use oxt_check::targets::WrappedTargets;
use oxt_json::laws::text_tells_trees;
use oxt_json::{read_tree, write_tree};
use oxt_names::diagnostic::OxcDiagnostic;
use oxt_names::ids::OutOfMemory;
use oxt_names::lines::append_lines;
pub use oxt_options::TransformOptions;
use oxt_resolve::resolve::{Resolution, TreeNames, resolve_names};
use oxt_rewrite::rewrite::{Tables, rewrite};
use oxt_tree::tree::Program;
use std::alloc::Global;

/// The tree that came out, and what its writer is told.
#[derive(Drop)]
pub struct TransformerReturn {
    pub(crate) bytes: Vec<u8>,
    pub(crate) diagnostics: Vec<OxcDiagnostic>,
}

impl TransformerReturn {
    /// Its JSON, without a line feed.
    pub fn text(&self) -> &[u8]
        ensures { result.now ≡ text_in self.now }
    {
        self.bytes.as_slice()
    }

    /// What the writer of the source is told, in the order of the text. Where there is anything, syntax of types is left.
    pub fn diagnostics(&self) -> &[OxcDiagnostic]
        ensures { result.now ≡ told_in self.now }
    {
        self.diagnostics.as_slice()
    }

    /// Its JSON with a line feed, and a line for each diagnostic.
    ///
    /// # Errors
    ///
    /// Fails only where memory runs out.
    pub fn into_lines(self, alloc: Global) -> Result<Vec<u8>, OutOfMemory>
        ensures { IfOk result (λ lines. lines.items ≡ answer_of (text_in self) (told_in self)) }
    {
        let TransformerReturn {
            mut bytes,
            diagnostics,
        } = self;
        bytes.push(b'\n')?;
        append_lines(alloc, diagnostics.as_slice(), &mut bytes)?;
        Ok(bytes)
    }
}

/// Lowers the tree that the bytes spell to plain JavaScript: it is read, lowered with what is known of it, tested, and
/// written.
///
/// A wrapper around a target that may not be assigned to stays, and a diagnostic tells of it.
///
/// # Errors
///
/// The first reason in the order of `Fault`'s variants after want of memory, which may come at any step.
pub fn transform_text(
    alloc: Global,
    text: &[u8],
    options: &TransformOptions,
) -> Result<TransformerReturn, Fault>
    ensures lowers { IfOk result
        (λ r. Lowers (transform_view options.now) text.now (told_in r) (text_in r)) }
    ensures returns_plain { IfOk result
        (λ r. ReturnsPlain (transform_view options.now) text.now (text_in r)) }
    ensures accepted { OnOk result (Accepts (transform_view options.now) text.now) }
    ensures refused { IfErr result (λ f. IsReasonFor (refusal_in f) (transform_view options.now) text.now) }
{
    let mut program = match read_tree(alloc, text) {
        Ok(program) => program,
        Err(fault) => return Err(fault_of_reading(fault)),
    };
    let diagnostics = lower(alloc, &mut program, options)?;
    let bytes = write(alloc, &program)?;
    Ok(TransformerReturn { bytes, diagnostics })
}

/// What is known of a program that has no fault.
#[derive(Drop)]
struct Checked {
    /// What the passes know of it.
    tables: Tables,
    /// Its names.
    names: TreeNames,
}

/// Lowers the program: its names are resolved, it is checked, what its writer is told is read, and it is rewritten and
/// tested.
///
/// # Errors
///
/// The first fault of the source, or how its output fails its test; nothing else but want of memory.
fn lower(
    alloc: Global,
    program: &mut Program,
    options: &TransformOptions,
) -> Result<Vec<OxcDiagnostic>, Fault>
    ensures passes { OnOk result (Passes (transform_view options.now)
        (node_doc program.old.root) (node_doc program.new.root)) }
    ensures told { IfOk result (λ told. told.items
        ≡ diagnostics (keeps (transform_view options.now) (node_doc program.old.root)) (transform_view options.now) (node_doc program.old.root)) }
    ensures comes_back { OnOk result (ComesBack (transform_view options.now)
        (node_doc program.old.root) (node_doc program.new.root)) }
    ensures refused { IfErr result
        (λ f. IsHindrance (refusal_in f) (transform_view options.now) (node_doc program.old.root)) }
{
    let checked = match resolve_and_check(alloc, program, options) {
        Ok(checked) => checked,
        Err(fault) => return Err(fault),
    };
    let told = match diagnostics_of(alloc, &program.root, &checked.tables.plan, options) {
        Ok(told) => told,
        Err(_) => {
            drop(checked);
            return Err(Fault::OutOfMemory);
        }
    };
    let staying = match staying_wrappers(alloc, &program.root, told.as_slice(), options) {
        Ok(staying) => staying,
        Err(_) => {
            drop(checked);
            return Err(Fault::OutOfMemory);
        }
    };
    match rewrite_and_test(alloc, program, options, checked, staying) {
        Ok(()) => Ok(told),
        Err(fault) => Err(fault),
    }
}

/// Rewrites the program, of which that is known and in which these wrappers may stay, and tests what comes out against its
/// effect word, which is read before.
///
/// # Errors
///
/// How the output fails its test; nothing else but want of memory.
fn rewrite_and_test(
    alloc: Global,
    program: &mut Program,
    options: &TransformOptions,
    checked: Checked,
    staying: WrappedTargets,
) -> Result<(), Fault>
    ensures judged { OnOk result (Judges
        (expected_beside staying checked.tables.scoping checked.names.groups checked.names.taken (asked_of checked.tables.plan) (transform_view options.now) (node_doc program.old.root))
        (node_doc program.new.root) None) }
    ensures comes_back { OnOk result (ComesBack (transform_view options.now)
        (node_doc program.old.root) (node_doc program.new.root)) }
    ensures failed { IfErr result (λ f. IsFailure (refusal_in f)
        (expected_beside staying checked.tables.scoping checked.names.groups checked.names.taken (asked_of checked.tables.plan) (transform_view options.now) (node_doc program.old.root))
        (node_doc program.new.root)) }
{
    let Checked { tables, names } = checked;
    let expected = Expected::beside(
        alloc,
        &program.root,
        &tables.scoping,
        names,
        &tables.plan,
        options,
        staying,
    );
    match expected {
        Ok(expected) => {
            let tested = rewrite_to(alloc, &expected, program, options, tables);
            drop(expected);
            tested
        }
        Err(_) => {
            drop(tables);
            Err(Fault::OutOfMemory)
        }
    }
}

/// Rewrites the program, and tests what comes out against what is expected of it.
///
/// # Errors
///
/// How the output fails its test; nothing else but want of memory.
fn rewrite_to(
    alloc: Global,
    expected: &Expected,
    program: &mut Program,
    options: &TransformOptions,
    tables: Tables,
) -> Result<(), Fault>
    ensures judged { OnOk result (Judges (expected_view expected.now) (node_doc program.new.root) None) }
    ensures comes_back { OnOk result (ComesBack (transform_view options.now)
        (node_doc program.old.root) (node_doc program.new.root)) }
    ensures failed { IfErr result (λ f. IsFailure (refusal_in f)
        (expected_view expected.now) (node_doc program.new.root)) }
{
    match rewrite(alloc, program, options, tables) {
        Ok(()) => certify(alloc, expected, &program.root),
        Err(_) => Err(Fault::OutOfMemory),
    }
}

/// Resolves the names of the program, and checks it.
///
/// # Errors
///
/// The first fault of the program; nothing else but want of memory.
fn resolve_and_check(
    alloc: Global,
    program: &Program,
    options: &TransformOptions,
) -> Result<Checked, Fault>
    ensures table { IfOk result (λ c. c.tables.scoping ≡ resolved options.now.decorator.legacy (node_doc program.now.root)) }
    ensures groups { IfOk result (λ c. c.names.groups ≡ groups_of options.now.decorator.legacy (node_doc program.now.root)) }
    ensures taken { IfOk result (λ c. c.names.taken ≡ names_of (node_doc program.now.root)) }
    ensures plan { IfOk result (λ c. Answers c.tables.plan
        (facts_of c.tables.scoping (node_doc program.now.root) (transform_view options.now))) }
    ensures accepted { OnOk result (fault_of (transform_view options.now) (node_doc program.now.root) ≡ None) }
    ensures refused { IfErr result (λ f. IsFaultOf (refusal_in f)
        (resolved options.now.decorator.legacy (node_doc program.now.root)) (node_doc program.now.root) (transform_view options.now)) }
{
    match resolve_names(alloc, &program.root, options.decorator.legacy) {
        Ok(resolution) => check_resolved(alloc, program, resolution, options),
        Err(_) => Err(Fault::OutOfMemory),
    }
}

/// Checks the program, whose names are resolved so.
///
/// # Errors
///
/// The first fault of the program; nothing else but want of memory.
fn check_resolved(
    alloc: Global,
    program: &Program,
    resolution: Resolution,
    options: &TransformOptions,
) -> Result<Checked, Fault>
    ensures table { IfOk result (λ c. c.tables.scoping ≡ resolution.scoping) }
    ensures names { IfOk result (λ c. c.names ≡ resolution.names) }
    ensures plan { IfOk result (λ c. Answers c.tables.plan
        (facts_of c.tables.scoping (node_doc program.now.root) (transform_view options.now))) }
    ensures accepted { OnOk result
        (first_fault resolution.scoping (node_doc program.now.root) (transform_view options.now) ≡ None) }
    ensures refused { IfErr result
        (λ f. IsFaultOf (refusal_in f) resolution.scoping (node_doc program.now.root) (transform_view options.now)) }
{
    let Resolution { scoping, names } = resolution;
    match check(alloc, program, &scoping, options) {
        Ok(plan) => {
            let tables = Tables { scoping, plan };
            Ok(Checked { tables, names })
        }
        Err(fault) => {
            drop(scoping);
            drop(names);
            Err(fault)
        }
    }
}

/// Writes the program, which is then the only one with these bytes.
fn write(alloc: Global, program: &Program) -> Result<Vec<u8>, OutOfMemory>
    ensures text { IfOk result (λ bytes. bytes.items ≡ text_of (node_doc program.now.root)) }
    ensures only { IfOk result (λ bytes. is_tree (node_doc program.now.root) ≡ true
        → IsTextOfOne bytes.items (node_doc program.now.root)) }
{
    let bytes = write_tree(alloc, program)?;
    text_tells_trees();
    Ok(bytes)
}
