//! What is known of a source, with which its output is compared.
ghost use Rattle.std.specs.Prelude.{◌≡◌, IfOk};
ghost use Rattle.oxt_facts.specs.Entry.{entries};
ghost use Rattle.oxt_options.specs.Options.{transform_view};
ghost use Rattle.oxt_told.specs.Source.{asked_of};
ghost use Rattle.oxt_certificate.specs.Expected.{due_by, expected_beside, expected_by, expected_view, source_word_by};
ghost use Rattle.oxt_tree.specs.View.{node_doc};

use crate::settings::Settings;
use oxt_check::targets::WrappedTargets;
use oxt_facts::facts::Facts;
use oxt_facts::item::Item;
use oxt_facts::owners::NameGroups;
use oxt_modules::due::is_export_due;
use oxt_names::ids::OutOfMemory;
use oxt_names::uid::UidNames;
use oxt_options::TransformOptions;
use oxt_options::plan::Plan;
use oxt_resolve::resolve::TreeNames;
use oxt_scoping::scoping::Scoping;
use oxt_told::told::told_of_source;
use oxt_tree::tree::Node;
use oxt_word::word::word_of;
use std::alloc::Global;

/// What the output of a source is to be.
#[derive(Drop)]
pub struct Expected {
    /// Its effect word, in which each name has its owner.
    pub word: Vec<Item>,
    /// Its settings.
    pub settings: Settings,
    /// The wrappers that may stay in it.
    pub targets: WrappedTargets,
    /// The names of its source, which are no new ones.
    pub names: UidNames,
}

impl Expected {
    /// What the output of that source is to be, by its table of scopes, its names, its plan and the options.
    ///
    /// # Errors
    ///
    /// `OutOfMemory` for want of memory alone.
    pub fn of(
        alloc: Global,
        source: &Node,
        scoping: &Scoping,
        names: TreeNames,
        plan: &Plan,
        options: &TransformOptions,
    ) -> Result<Expected, OutOfMemory>
        ensures { IfOk result (λ expected. expected_view expected
            ≡ expected_by scoping.now names.groups names.taken (asked_of plan.now) (transform_view options.now) (node_doc source.now)) }
    {
        let targets = WrappedTargets::of(alloc, source, options.decorator.legacy)?;
        Expected::beside(alloc, source, scoping, names, plan, options, targets)
    }

    /// The same, where these wrappers may stay in it.
    ///
    /// # Errors
    ///
    /// `OutOfMemory` for want of memory alone.
    pub fn beside(
        alloc: Global,
        source: &Node,
        scoping: &Scoping,
        names: TreeNames,
        plan: &Plan,
        options: &TransformOptions,
        staying: WrappedTargets,
    ) -> Result<Expected, OutOfMemory>
        ensures { IfOk result (λ expected. expected_view expected
            ≡ expected_beside staying scoping.now names.groups names.taken (asked_of plan.now) (transform_view options.now) (node_doc source.now)) }
    {
        let TreeNames { groups, taken } = names;
        let word = source_word(alloc, source, scoping, groups, plan, options)?;
        let due = is_due(source, plan, options);
        let settings = Settings::of(alloc, source, due, options.decorator.legacy)?;
        Ok(Expected {
            word,
            settings,
            targets: staying,
            names: taken,
        })
    }
}

/// Whether `export {}` has to say in the output of the source that it is a module.
fn is_due(source: &Node, plan: &Plan, options: &TransformOptions) -> bool
    ensures { result ≡ due_by (asked_of plan.now) (transform_view options.now) (node_doc source.now) }
{
    is_export_due(source, plan, options.typescript.only_remove_type_imports)
}

/// The effect word of the source, which is told what the plan says of its nodes.
fn source_word(
    alloc: Global,
    source: &Node,
    scoping: &Scoping,
    groups: NameGroups,
    plan: &Plan,
    options: &TransformOptions,
) -> Result<Vec<Item>, OutOfMemory>
    ensures { IfOk result (λ word. entries word.items
        ≡ source_word_by scoping.now groups (asked_of plan.now) (transform_view options.now) (node_doc source.now)) }
{
    let told = told_of_source(alloc, source, scoping, plan, options)?;
    let facts = Facts::of_told_source(alloc, told, groups)?;
    word_of(&facts, source)
}
