//! The test of a lowered tree, before it is written.
ghost use Rattle.std.specs.Prelude.{◌≡◌, IfErr, IfOk, IfSome, None, OnOk, Some, false, is_none, option_map, true};
ghost use Rattle.oxt_check.specs.Beside.{first_typescript_beside};
ghost use Rattle.oxt_check.specs.Faults.{refusal_in};
ghost use Rattle.oxt_check.specs.Targets.{is_listed};
ghost use Rattle.oxt_facts.specs.Entry.{entries};
ghost use Rattle.oxt_grammar.specs.declared.category.Category.TheVariants as category;
ghost use Rattle.oxt_grammar.specs.declared.holds.Holds.TheVariants as holds;
ghost use Rattle.oxt_certificate.specs.Expected.{expected_view, known_of_output};
ghost use Rattle.oxt_certificate.specs.Judges.{Compares, IsFailure, Judges, JudgesNames, difference_in, is_plain_output};
ghost use Rattle.oxt_word.specs.Word.{word};
ghost use Rattle.oxt_names.specs.Names.{name_bytes};
ghost use Rattle.oxt_tree.specs.View.{node_doc};
ghost use Rattle.oxt_valid.specs.Misfit.{first_misfit};
ghost use Rattle.oxt_valid.specs.Valid.{is_tree};

use crate::bound::first_misbound;
use crate::expected::Expected;
use crate::settings::wrong_setting;
use oxt_check::beside::first_typescript_beside;
use oxt_check::fault::Fault;
pub use oxt_check::fault::Mismatch;
use oxt_check::laws::plain_beside_nothing;
use oxt_check::targets::WrappedTargets;
use oxt_facts::compare::first_difference;
use oxt_facts::facts::Facts;
use oxt_facts::item::Item;
use oxt_names::ids::OutOfMemory;
use oxt_names::name::Name;
use oxt_names::uid::UidNames;
use oxt_resolve::groups::groups_of;
use oxt_tree::tree::Node;
use oxt_valid::fits::is_tree;
use oxt_valid::misfit::first_misfit;
use oxt_valid::plain::is_plain;
use oxt_word::word::word_of;
use std::alloc::Global;

/// Tests that the output is what is expected.
///
/// # Errors
///
/// How it fails the test; nothing else but want of memory.
pub fn certify(alloc: Global, expected: &Expected, output: &Node) -> Result<(), Fault>
    ensures passed { OnOk result (Judges (expected_view expected.now) (node_doc output.now) None) }
    ensures failed { IfErr result (λ f. IsFailure (refusal_in f) (expected_view expected.now) (node_doc output.now)) }
{
    match find_mismatch(alloc, expected, output)? {
        Some(mismatch) => Err(Fault::Uncertified { mismatch }),
        None => Ok(()),
    }
}

/// How the output fails to be of the grammar, plain, of the settings that are expected, with each made name bound once,
/// and of the effect word that is expected, in this order; none where it does not fail. In the word each name has its
/// owner.
///
/// # Errors
///
/// `OutOfMemory` for want of memory alone.
pub fn find_mismatch(
    alloc: Global,
    expected: &Expected,
    output: &Node,
) -> Result<Option<Mismatch>, OutOfMemory>
    ensures { IfOk result (λ mismatch. Judges (expected_view expected.now) (node_doc output.now)
        (option_map difference_in mismatch)) }
{
    if let Some(place) = place_of_misfit(alloc, output)? {
        return Ok(Some(Mismatch::Shape { place }));
    }
    if let Some(place) = place_of_typescript(alloc, &expected.targets, output)? {
        return Ok(Some(Mismatch::Plain { place }));
    }
    if let Some(place) = wrong_setting(alloc, &expected.settings, output)? {
        return Ok(Some(Mismatch::Setting { place }));
    }
    let facts = facts_of_output(alloc, &expected.names, output)?;
    find_mismatch_of_names(alloc, expected.word.as_slice(), &facts, output)
}

/// Where the output is no tree of the grammar, if it is none. A test without places is faster, and as a rule is enough.
#[tactic(auto, using(crate::proofs::Quick::place_is))]
fn place_of_misfit(alloc: Global, output: &Node) -> Result<Option<Name>, OutOfMemory>
    ensures place { IfOk result (λ place. IfSome place (λ p. first_misfit (node_doc output.now) ≡ Some (name_bytes p))) }
    ensures fits { IfOk result (λ place. is_none place ≡ is_tree (node_doc output.now)) }
{
    if is_tree(output) {
        Ok(None)
    } else {
        let place = first_misfit(alloc, output)?;
        Ok(place)
    }
}

/// Where something of TypeScript is left in the output beside these wrappers, if it is. As a rule there is no wrapper, and the
/// test without places is enough.
#[tactic(auto, using(crate::proofs::Quick::place_is))]
fn place_of_typescript(
    alloc: Global,
    targets: &WrappedTargets,
    output: &Node,
) -> Result<Option<Name>, OutOfMemory>
    ensures place { IfOk result (λ place. IfSome place (λ p.
        first_typescript_beside (node_doc output.now) (holds.Node category.Program) (is_listed targets.now) ≡ Some (name_bytes p))) }
    ensures plain { IfOk result (λ place. is_none place ≡ is_plain_output targets.now (node_doc output.now)) }
{
    if is_plain_alone(targets, output) {
        Ok(None)
    } else {
        let place = first_typescript_beside(alloc, targets, output)?;
        Ok(place)
    }
}

/// Whether no wrapper may stay and the output is plain.
fn is_plain_alone(targets: &WrappedTargets, output: &Node) -> bool
    ensures { result ≡ true → is_plain_output targets.now (node_doc output.now) ≡ true }
{
    plain_beside_nothing();
    if targets.len() == 0 {
        is_plain(output)
    } else {
        false
    }
}

/// The same of its names and its word, by what is known of these.
fn find_mismatch_of_names(
    alloc: Global,
    expected: &[Item],
    facts: &Facts,
    output: &Node,
) -> Result<Option<Mismatch>, OutOfMemory>
    ensures { IfOk result (λ mismatch. JudgesNames facts.now (entries expected.now) (node_doc output.now)
        (option_map difference_in mismatch)) }
{
    if let Some(name) = first_misbound(alloc, facts, output)? {
        return Ok(Some(Mismatch::Binding { name }));
    }
    let word = word_of(facts, output)?;
    Ok(differing_item(expected, word.as_slice()))
}

/// What is known of the names of what was made of a source that has these names.
fn facts_of_output(alloc: Global, names: &UidNames, output: &Node) -> Result<Facts, OutOfMemory>
    ensures { IfOk result (λ facts. facts ≡ known_of_output names.now (node_doc output.now)) }
{
    let groups = groups_of(alloc, output, false)?;
    Facts::of_output(alloc, names, groups, output)
}

/// The first item in which the word of an output differs from the one that is expected, or the first owner, where the
/// items differ in that alone.
fn differing_item(expected: &[Item], word: &[Item]) -> Option<Mismatch>
    ensures { Compares (entries expected.now) (entries word.now) (option_map difference_in result) }
{
    let difference = first_difference(expected, word)?;
    let index = difference.index;
    if difference.is_of_owners() {
        Some(Mismatch::Owner { index })
    } else {
        Some(Mismatch::Item { index })
    }
}
