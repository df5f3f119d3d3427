//! The check of a program, before any pass changes it.
ghost use Rattle.std.specs.Prelude.{◌≡◌, ℕ, None, Some, OnOk, IfOk, IfErr};
ghost use Rattle.oxt_check.specs.Captures.{name_view};
ghost use Rattle.oxt_check.specs.Faults.{IsFaultOf, IsThe, captured_refusal, code_fault, facts_by, facts_of, facts_with, listed_by, fault_by, first_fault, misplaced_refusal, place_fault, place_text, refusal_in};
ghost use Rattle.oxt_enum_checks.specs.First.{first_blocks};
ghost use Rattle.oxt_faults.specs.Misplaced.{misplaced_view};
ghost use Rattle.oxt_modules.specs.Jsx.{jsx_use};
ghost use Rattle.oxt_fields.specs.Aliases.{alias_uses};
ghost use Rattle.oxt_fields.specs.Rules.{rules_in, rules_view};
ghost use Rattle.oxt_options.specs.Options.{transform_view};
ghost use Rattle.oxt_options.specs.Facts.{Answers, alias_at, is_in, last_alias};
ghost use Rattle.oxt_options.specs.Lists.{numbers_in};
ghost use Rattle.oxt_names.specs.Names.{name_bytes};
ghost use Rattle.oxt_tree.specs.View.{node_doc};

use crate::capture::{NameAt, first_capture};
use crate::enums::enum_faults;
use crate::fault::Fault;
use crate::misplacement::first_misplacement;
use crate::survey::Survey;
use oxt_dropped::dropped::dropped_blocks;
use oxt_enum_checks::first::first_blocks;
use oxt_enum_checks::wide::first_wide;
use oxt_faults::misplaced::Misplaced;
use oxt_fields::aliases::alias_uses;
use oxt_fields::rules::FieldRules;
use oxt_fields::written::never_written_nodes;
use oxt_inline::inlined::inlined_expressions;
use oxt_metadata::Metadata;
use oxt_modules::jsx::{JsxUse, jsx_use};
use oxt_modules::kept::kept_nodes;
use oxt_names::ids::{NodeId, OutOfMemory};
use oxt_names::name::Name;
use oxt_options::TransformOptions;
use oxt_options::lists::PlanLists;
use oxt_options::nodes::NodeList;
use oxt_options::plan::Plan;
use oxt_scoping::scoping::Scoping;
use oxt_tree::tree::{Node, Program};
use oxt_valid::place_of::place_of;
use std::alloc::Global;

/// What the passes ask of the nodes of a program, whose table of scopes and symbols is `scoping`.
///
/// They ask what of imports and exports is kept, which blocks of enums and namespaces come first, which blocks of enums
/// are dropped, which expressions are inlined, to which names nothing writes, which are read as aliases of decorated classes,
/// and what metadata writes.
///
/// # Errors
///
/// The first misplaced node, or the first member whose constant would be too large, or the first name that would be
/// captured, in this order; nothing else but want of memory. Of a file of definitions nothing is left, so that nothing in
/// it is one of these.
pub fn check(
    alloc: Global,
    program: &Program,
    scoping: &Scoping,
    options: &TransformOptions,
) -> Result<Plan, Fault>
    ensures plan { IfOk result
        (λ plan. Answers plan (facts_of scoping.now (node_doc program.now.root) (transform_view options.now))) }
    ensures accepted { OnOk result
        (first_fault scoping.now (node_doc program.now.root) (transform_view options.now) ≡ None) }
    ensures refused { IfErr result
        (λ f. IsFaultOf (refusal_in f) scoping.now (node_doc program.now.root) (transform_view options.now)) }
{
    let survey = Survey::of(alloc, &program.root)?;
    check_surveyed(alloc, &survey, scoping, options)
}

/// Checks a program of which it is known which forms occur in it.
fn check_surveyed(
    alloc: Global,
    survey: &Survey,
    scoping: &Scoping,
    options: &TransformOptions,
) -> Result<Plan, Fault>
    ensures plan { IfOk result
        (λ plan. Answers plan (facts_of scoping.now (node_doc survey.now.program.now) (transform_view options.now))) }
    ensures accepted { OnOk result
        (first_fault scoping.now (node_doc survey.now.program.now) (transform_view options.now) ≡ None) }
    ensures refused { IfErr result
        (λ f. IsFaultOf (refusal_in f) scoping.now (node_doc survey.now.program.now) (transform_view options.now)) }
{
    let metadata = Metadata::of(alloc, survey.program, scoping, options.decorator)?;
    check_written(alloc, survey, scoping, &metadata, options)
}

/// Checks a program in which metadata writes that.
fn check_written(
    alloc: Global,
    survey: &Survey,
    scoping: &Scoping,
    metadata: &Metadata,
    options: &TransformOptions,
) -> Result<Plan, Fault>
    ensures plan { IfOk result
        (λ plan. Answers plan (facts_with metadata.now scoping.now (node_doc survey.now.program.now) (transform_view options.now))) }
    ensures accepted { OnOk result
        (fault_by (facts_with metadata.now scoping.now (node_doc survey.now.program.now) (transform_view options.now)) scoping.now (node_doc survey.now.program.now) (transform_view options.now) ≡ None) }
    ensures refused { IfErr result (λ f. IsThe (refusal_in f)
        (fault_by (facts_with metadata.now scoping.now (node_doc survey.now.program.now) (transform_view options.now)) scoping.now (node_doc survey.now.program.now) (transform_view options.now))) }
{
    let jsx = jsx_of(alloc, survey, options.decorator.legacy)?;
    let kept = kept_nodes(
        alloc,
        survey.program,
        scoping,
        metadata.named(),
        jsx,
        &options.typescript,
    )?;
    check_kept(alloc, survey, scoping, metadata, kept, options)
}

/// Checks a program in which metadata writes that, and that is kept.
fn check_kept(
    alloc: Global,
    survey: &Survey,
    scoping: &Scoping,
    metadata: &Metadata,
    kept: NodeList,
    options: &TransformOptions,
) -> Result<Plan, Fault>
    ensures plan { IfOk result
        (λ plan. Answers plan (facts_by metadata.now kept scoping.now (node_doc survey.now.program.now) (transform_view options.now))) }
    ensures accepted { OnOk result
        (fault_by (facts_by metadata.now kept scoping.now (node_doc survey.now.program.now) (transform_view options.now)) scoping.now (node_doc survey.now.program.now) (transform_view options.now) ≡ None) }
    ensures refused { IfErr result (λ f. IsThe (refusal_in f)
        (fault_by (facts_by metadata.now kept scoping.now (node_doc survey.now.program.now) (transform_view options.now)) scoping.now (node_doc survey.now.program.now) (transform_view options.now))) }
{
    let nodes = kept.into_nodes();
    let list = list_of(alloc, nodes.as_slice())?;
    let listed = plan_by(alloc, survey, scoping, metadata, &list, nodes, options)?;
    let plan = with_aliases(alloc, survey.program, scoping, listed, options)?;
    check_planned(alloc, survey, scoping, &list, plan, options)
}

/// Checks a program in which that is kept, whose plan that is.
fn check_planned(
    alloc: Global,
    survey: &Survey,
    scoping: &Scoping,
    kept: &NodeList,
    plan: Plan,
    options: &TransformOptions,
) -> Result<Plan, Fault>
    ensures plan { IfOk result (λ p. p ≡ plan) }
    ensures accepted { OnOk result
        (code_fault scoping.now (rules_in (transform_view options.now) plan) (is_in kept.now) (node_doc survey.now.program.now) ≡ None) }
    ensures refused { IfErr result (λ f. IsThe (refusal_in f)
        (code_fault scoping.now (rules_in (transform_view options.now) plan) (is_in kept.now) (node_doc survey.now.program.now))) }
{
    let rules = FieldRules::new(options, &plan);
    match check_code(alloc, survey, scoping, rules, kept) {
        Ok(()) => Ok(plan),
        Err(fault) => {
            drop(plan);
            Err(fault)
        }
    }
}

/// Finds the first fault of a program whose fields are lowered by these rules and in which that is kept, unless it is a
/// file of definitions, of which nothing is left.
fn check_code(
    alloc: Global,
    survey: &Survey,
    scoping: &Scoping,
    rules: FieldRules,
    kept: &NodeList,
) -> Result<(), Fault>
    ensures accepted { OnOk result
        (code_fault scoping.now (rules_view rules.entry) (is_in kept.now) (node_doc survey.now.program.now) ≡ None) }
    ensures refused { IfErr result (λ f. IsThe (refusal_in f)
        (code_fault scoping.now (rules_view rules.entry) (is_in kept.now) (node_doc survey.now.program.now))) }
{
    if survey.program.is_definition_file() {
        Ok(())
    } else {
        check_places(alloc, survey, scoping, rules, kept)
    }
}

/// Finds the first misplaced node, and else the first member whose constant would be too large, and else the first
/// captured name, where fields are lowered by these rules and that is kept.
fn check_places(
    alloc: Global,
    survey: &Survey,
    scoping: &Scoping,
    rules: FieldRules,
    kept: &NodeList,
) -> Result<(), Fault>
    ensures accepted { OnOk result
        (place_fault scoping.now (rules_view rules.entry) (is_in kept.now) (node_doc survey.now.program.now) ≡ None) }
    ensures refused { IfErr result (λ f. IsThe (refusal_in f)
        (place_fault scoping.now (rules_view rules.entry) (is_in kept.now) (node_doc survey.now.program.now))) }
{
    let program = survey.program;
    let enums = enum_faults(alloc, survey, scoping, rules.legacy)?;
    if let Some(misplaced) = first_misplacement(alloc, survey, scoping, rules, enums.misnamed)? {
        return Err(misplaced_fault(alloc, program, misplaced)?);
    }
    if let Some(member) = first_wide(program, scoping, rules.legacy) {
        return Err(Fault::Wide { span: member.span });
    }
    if let Some(captured) = first_capture(alloc, survey, scoping, rules, kept, &enums)? {
        return Err(captured_fault(alloc, program, captured)?);
    }
    Ok(())
}

/// The fault that a node is misplaced.
fn misplaced_fault(
    alloc: Global,
    program: &Node,
    misplaced: Misplaced,
) -> Result<Fault, OutOfMemory>
    ensures { IfOk result
        (λ f. refusal_in f ≡ Some (misplaced_refusal (node_doc program.now) (misplaced_view misplaced))) }
{
    let place = place_text(alloc, program, misplaced.node)?;
    Ok(Fault::Misplaced {
        kind: misplaced.kind,
        place,
    })
}

/// The fault that a name would be captured.
fn captured_fault(alloc: Global, program: &Node, captured: NameAt) -> Result<Fault, OutOfMemory>
    ensures { IfOk result
        (λ f. refusal_in f ≡ Some (captured_refusal (node_doc program.now) (name_view captured.entry))) }
{
    let place = place_text(alloc, program, captured.node)?;
    let name = Name::new(alloc, captured.name)?;
    Ok(Fault::Captured { name, place })
}

/// Where the node of that number stands.
fn place_text(alloc: Global, program: &Node, number: NodeId) -> Result<Name, OutOfMemory>
    ensures { IfOk result (λ place. name_bytes place ≡ place_text (node_doc program.now) number.0) }
{
    match place_of(alloc, program, number)? {
        Some(place) => Ok(place),
        None => Ok(Name::new(alloc, "")?),
    }
}

/// The list of these nodes, which stand as they are elsewhere too.
fn list_of(alloc: Global, nodes: &[NodeId]) -> Result<NodeList, OutOfMemory>
    ensures { IfOk result (λ list. list ≡ numbers_in nodes.now) }
{
    let mut copy = Vec::new(alloc);
    copy.extend_from_slice(nodes)?;
    NodeList::of(alloc, copy)
}

/// The plan, which knows too as whose aliases the program's names are read.
fn with_aliases(
    alloc: Global,
    program: &Node,
    scoping: &Scoping,
    mut plan: Plan,
    options: &TransformOptions,
) -> Result<Plan, OutOfMemory>
    ensures others { IfOk result (λ p. p ≡ record plan { aliases = p.aliases }) }
    ensures aliases { IfOk result (λ p. (n : ℕ) → alias_at p.aliases n ≡ last_alias (alias_uses scoping.now
        (rules_in (transform_view options.now) plan) (node_doc program.now)) n) }
{
    match put_aliases(alloc, program, scoping, &mut plan, options) {
        Ok(()) => Ok(plan),
        Err(error) => {
            drop(plan);
            Err(error)
        }
    }
}

/// Puts in the plan as whose aliases the program's names are read.
fn put_aliases(
    alloc: Global,
    program: &Node,
    scoping: &Scoping,
    plan: &mut Plan,
    options: &TransformOptions,
) -> Result<(), OutOfMemory>
    ensures others { OnOk result (plan.new ≡ record plan.old { aliases = plan.new.aliases }) }
    ensures aliases { OnOk result ((n : ℕ) → alias_at plan.new.aliases n ≡ last_alias (alias_uses scoping.now
        (rules_in (transform_view options.now) plan.old) (node_doc program.now)) n) }
{
    let rules = FieldRules::new(options, plan);
    let aliases = alias_uses(alloc, program, scoping, rules)?;
    plan.set_aliases(alloc, aliases)?;
    Ok(())
}

/// The plan for the program, in which metadata writes that and these nodes are kept, the same as `kept` lists; of aliases it
/// knows nothing yet.
fn plan_by(
    alloc: Global,
    survey: &Survey,
    scoping: &Scoping,
    metadata: &Metadata,
    kept: &NodeList,
    nodes: Vec<NodeId>,
    options: &TransformOptions,
) -> Result<Plan, OutOfMemory>
    requires { numbers_in nodes.items ≡ kept.now }
    ensures { IfOk result
        (λ plan. Answers plan (listed_by metadata.now kept.now scoping.now (node_doc survey.now.program.now) (transform_view options.now))) }
{
    let program = survey.program;
    let typescript = &options.typescript;
    let mut lists = PlanLists::empty(alloc);
    lists.first = first_of(alloc, survey, scoping)?;
    lists.inlined = inlined_expressions(alloc, program, scoping, kept, typescript)?;
    lists.dropped = dropped_blocks(
        alloc,
        program,
        scoping,
        kept,
        metadata.named(),
        typescript,
        options.decorator.legacy,
    )?;
    lists.metadata = metadata.types(alloc)?;
    lists.written = metadata.names(alloc)?;
    lists.never_written = never_written_nodes(alloc, program, scoping)?;
    lists.kept = nodes;
    Plan::new(alloc, lists)
}

/// The blocks before which nothing of their name emits code.
fn first_of(alloc: Global, survey: &Survey, scoping: &Scoping) -> Result<Vec<NodeId>, OutOfMemory>
    ensures { IfOk result (λ nodes. numbers_in nodes.items ≡ first_blocks scoping.now (node_doc survey.now.program.now)) }
{
    if survey.has_block() {
        first_blocks(alloc, survey.blocks.as_slice(), scoping, &survey.places)
    } else {
        Ok(Vec::new(alloc))
    }
}

/// What the program has of JSX outside erased code.
fn jsx_of(alloc: Global, survey: &Survey, legacy: bool) -> Result<JsxUse, OutOfMemory>
    ensures { IfOk result (λ jsx. jsx ≡ jsx_use legacy (node_doc survey.now.program.now)) }
{
    if survey.has_jsx() {
        jsx_use(alloc, survey.program, legacy)
    } else {
        Ok(JsxUse {
            has_element: false,
            has_fragment: false,
        })
    }
}
