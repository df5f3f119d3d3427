//! What is wrong with the enums of a program. Three checks ask it, and what they ask is found at the enums alone, which are
//! sought once.
ghost use Rattle.std.specs.Prelude.{◌≡◌, IfOk, false, option_map};
ghost use Rattle.oxt_check.specs.Misplacements.{MisusesNone};
ghost use Rattle.oxt_enum_checks.specs.Misnamed.{misnamed, misnamed_beside};
ghost use Rattle.oxt_enum_checks.specs.Misused.{misused};
ghost use Rattle.oxt_enum_checks.specs.Shadows.{shadow_view, shadowed};
ghost use Rattle.oxt_faults.specs.Initializers.{initializer_word};
ghost use Rattle.oxt_faults.specs.Level.{found_view};
ghost use Rattle.oxt_tree.specs.View.{node_doc};

use crate::survey::Survey;
use oxt_declares::sites::EnumSites;
use oxt_enum_checks::misnamed::first_misnamed;
use oxt_enum_checks::misused::{first_misused, has_written_member};
use oxt_enum_checks::shadowed::{ShadowedName, first_shadowed};
use oxt_faults::initializer::first_initializer_word;
use oxt_faults::level::FoundWord;
use oxt_grammar::kind::Kind;
use oxt_names::ids::{NodeId, OutOfMemory};
use oxt_scoping::scoping::Scoping;
use std::alloc::Global;

/// What is wrong with the enums of a program: of each kind the one at the node of the least number.
#[derive(Clone, Copy)]
pub struct EnumFaults<'a> {
    /// A member, or a bare name of one, that cannot be lowered.
    pub misnamed: Option<NodeId>,
    /// A bare name of a member at which the name of its enum means something else.
    pub shadowed: Option<ShadowedName<'a>>,
    /// A word at the level of an initializer that goes into a function.
    pub word: Option<FoundWord>,
}

/// Those of the program that was surveyed, whose table is `scoping`. `legacy` says that decorators have their older meaning.
///
/// # Errors
///
/// Fails only where memory runs out.
pub fn enum_faults<'a>(
    alloc: Global,
    survey: &Survey<'a>,
    scoping: &'a Scoping,
    legacy: bool,
) -> Result<EnumFaults<'a>, OutOfMemory>
    ensures misnamed { IfOk result (λ faults. option_map (λ node. node.0) faults.misnamed
        ≡ misnamed legacy scoping.now (node_doc survey.now.program.now)) }
    ensures shadowed { IfOk result (λ faults. option_map shadow_view faults.shadowed
        ≡ shadowed legacy scoping.now (node_doc survey.now.program.now)) }
    ensures word { IfOk result (λ faults. option_map found_view faults.word
        ≡ initializer_word legacy scoping.now (node_doc survey.now.program.now)) }
{
    let misused = misused_in(survey, scoping, legacy);
    if survey.has(Kind::TSEnumMember) {
        let sites = EnumSites::of(alloc, survey.program, legacy)?;
        return faults_at(alloc, &sites, scoping, misused);
    }
    Ok(EnumFaults {
        misnamed: misused,
        shadowed: None,
        word: None,
    })
}

/// Those of the program in which these are the outermost enums, and of whose misused names that is the first.
fn faults_at<'a>(
    alloc: Global,
    sites: &EnumSites<'a>,
    scoping: &'a Scoping,
    misused: Option<NodeId>,
) -> Result<EnumFaults<'a>, OutOfMemory>
    ensures misnamed { IfOk result (λ faults. option_map (λ node. node.0) faults.misnamed
        ≡ misnamed_beside sites.now.legacy scoping.now (node_doc sites.now.program.now) (option_map (λ node. node.0) misused)) }
    ensures shadowed { IfOk result (λ faults. option_map shadow_view faults.shadowed
        ≡ shadowed sites.now.legacy scoping.now (node_doc sites.now.program.now)) }
    ensures word { IfOk result (λ faults. option_map found_view faults.word
        ≡ initializer_word sites.now.legacy scoping.now (node_doc sites.now.program.now)) }
{
    let misnamed = first_misnamed(alloc, sites, scoping, misused)?;
    let shadowed = first_shadowed(alloc, sites, scoping)?;
    let word = first_initializer_word(alloc, sites, scoping)?;
    Ok(EnumFaults {
        misnamed,
        shadowed,
        word,
    })
}

/// The first bare name of a member of an enum that stands where its value cannot.
fn misused_in(survey: &Survey, scoping: &Scoping, legacy: bool) -> Option<NodeId>
    ensures { option_map (λ node. node.0) result ≡ misused legacy scoping.now (node_doc survey.now.program.now) }
{
    if may_misuse(survey, scoping) {
        first_misused(survey.program, scoping, legacy)
    } else {
        None
    }
}

/// Whether such a name may stand in the program: one that is written, or that names an element of JSX.
fn may_misuse(survey: &Survey, scoping: &Scoping) -> bool
    ensures { result ≡ false → MisusesNone scoping.now (node_doc survey.now.program.now) }
{
    if survey.names_elements() {
        true
    } else {
        has_written_member(scoping)
    }
}
