//! The first misplaced node of a program, of all kinds.
ghost use Rattle.std.specs.Prelude.{◌≡◌, IfOk, option_map};
ghost use Rattle.oxt_check.specs.Misplacements.{class_misplacement, element_kind, former, is_before, misplacement_beside, named_beside, of_element, of_kind, rank};
ghost use Rattle.oxt_class_checks.specs.Misplaced.{element_view};
ghost use Rattle.oxt_enum_checks.specs.Clash.{first_clash};
ghost use Rattle.oxt_enum_checks.specs.LateBase.{late_base};
ghost use Rattle.oxt_faults.specs.Misplaced.{misplaced_view};
ghost use Rattle.oxt_fields.specs.Rules.{rules_view};
ghost use Rattle.oxt_tree.specs.View.{node_doc};

use crate::survey::Survey;
use oxt_class_checks::misplaced::{ClassFault, MisplacedElement, first_misplaced_element};
use oxt_enum_checks::merges::{MergeFaults, merge_faults};
use oxt_faults::misplaced::{Misplaced, MisplacedKind, first_misplaced};
use oxt_fields::rules::FieldRules;
use oxt_names::ids::{NodeId, OutOfMemory};
use oxt_scoping::scoping::Scoping;
use std::alloc::Global;

/// The misplaced node of the least number: what stands where it may not, a function or class behind a namespace of its
/// name, a declaration that does not merge with an earlier one of its name, a member of an enum, or a bare name of one,
/// that cannot be lowered, and an element of a class that cannot be lowered by the rules of fields. Of several kinds at one
/// node it is the first in their order. `scoping` is the table of the program that was surveyed, and `misnamed` is the first
/// such member or bare name.
///
/// # Errors
///
/// Fails only where memory runs out.
pub fn first_misplacement(
    alloc: Global,
    survey: &Survey,
    scoping: &Scoping,
    rules: FieldRules,
    misnamed: Option<NodeId>,
) -> Result<Option<Misplaced>, OutOfMemory>
    ensures { IfOk result (λ found. option_map misplaced_view found
        ≡ misplacement_beside scoping.now (rules_view rules.entry) (node_doc survey.now.program.now) (option_map (λ node. node.0) misnamed)) }
{
    let named = named_misplacement(alloc, survey, scoping, misnamed)?;
    let of_class = class_misplacement(alloc, survey, rules)?;
    Ok(former(
        first_misplaced(survey.program, rules),
        former(named, of_class),
    ))
}

/// The first that names decide.
fn named_misplacement(
    alloc: Global,
    survey: &Survey,
    scoping: &Scoping,
    misnamed: Option<NodeId>,
) -> Result<Option<Misplaced>, OutOfMemory>
    ensures { IfOk result (λ found. option_map misplaced_view found
        ≡ named_beside scoping.now (node_doc survey.now.program.now) (option_map (λ node. node.0) misnamed)) }
{
    let MergeFaults { late_base, clash } = merge_faults_in(alloc, survey, scoping)?;
    let merged = former(
        of_kind(MisplacedKind::Merge, clash),
        of_kind(MisplacedKind::Enum, misnamed),
    );
    Ok(former(of_kind(MisplacedKind::Namespace, late_base), merged))
}

/// What is wrong with declarations of one name.
fn merge_faults_in(
    alloc: Global,
    survey: &Survey,
    scoping: &Scoping,
) -> Result<MergeFaults, OutOfMemory>
    ensures late_base { IfOk result (λ faults. option_map (λ node. node.0) faults.late_base
        ≡ late_base scoping.now (node_doc survey.now.program.now)) }
    ensures clash { IfOk result (λ faults. option_map (λ node. node.0) faults.clash
        ≡ first_clash scoping.now (node_doc survey.now.program.now)) }
{
    if survey.has_block() {
        merge_faults(alloc, survey.blocks.as_slice(), scoping, &survey.places)
    } else {
        Ok(MergeFaults {
            late_base: None,
            clash: None,
        })
    }
}

/// The first that classes decide.
fn class_misplacement(
    alloc: Global,
    survey: &Survey,
    rules: FieldRules,
) -> Result<Option<Misplaced>, OutOfMemory>
    ensures { IfOk result (λ found. option_map misplaced_view found
        ≡ class_misplacement (rules_view rules.entry) (node_doc survey.now.program.now)) }
{
    if survey.has_class() {
        let element = first_misplaced_element(alloc, survey.program, rules)?;
        Ok(of_element(element))
    } else {
        Ok(None)
    }
}

/// The element of a class, as misplaced.
fn of_element(element: Option<MisplacedElement>) -> Option<Misplaced>
    ensures { option_map misplaced_view result ≡ option_map of_element (option_map element_view element) }
{
    let element = element?;
    Some(Misplaced {
        kind: element_kind(element.fault),
        node: element.node,
    })
}

/// What is misplaced where that is wrong with an element of a class.
fn element_kind(fault: ClassFault) -> MisplacedKind
    ensures { result ≡ element_kind fault }
{
    match fault {
        ClassFault::Super => MisplacedKind::Super,
        ClassFault::Key => MisplacedKind::Key,
        ClassFault::Field => MisplacedKind::Field,
        ClassFault::Accessor => MisplacedKind::Accessor,
    }
}

/// The node, as misplaced in that way.
fn of_kind(kind: MisplacedKind, node: Option<NodeId>) -> Option<Misplaced>
    ensures { option_map misplaced_view result ≡ of_kind kind (option_map (λ node. node.0) node) }
{
    let node = node?;
    Some(Misplaced { kind, node })
}

/// The one of two that comes first.
fn former(first: Option<Misplaced>, other: Option<Misplaced>) -> Option<Misplaced>
    ensures { option_map misplaced_view result
        ≡ former (option_map misplaced_view first) (option_map misplaced_view other) }
{
    match (first, other) {
        (Some(first), Some(other)) => {
            if is_before(other, first) {
                Some(other)
            } else {
                Some(first)
            }
        }
        (Some(first), None) => Some(first),
        (None, other) => other,
    }
}

/// Whether the one comes before the other: by the numbers of their nodes, and at one node by their kinds.
fn is_before(one: Misplaced, other: Misplaced) -> bool
    ensures { result ≡ is_before (misplaced_view one) (misplaced_view other) }
{
    one.node.0 < other.node.0 || (one.node.0 == other.node.0 && rank(one.kind) < rank(other.kind))
}

/// The place of the kind among those of one node.
fn rank(kind: MisplacedKind) -> u8
    ensures { result ≡ rank kind }
{
    match kind {
        MisplacedKind::Body => 0,
        MisplacedKind::Namespace => 1,
        MisplacedKind::Merge => 2,
        MisplacedKind::Enum => 3,
        MisplacedKind::Super => 4,
        MisplacedKind::Key => 5,
        MisplacedKind::Field => 6,
        MisplacedKind::Decorator => 7,
        MisplacedKind::Accessor => 8,
    }
}
