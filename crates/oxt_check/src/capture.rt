//! The first captured name of a program, by all that captures.
ghost use Rattle.std.specs.Prelude.{◌≡◌, ◌||◌, IfOk, option_map};
ghost use Rattle.oxt_check.specs.Captures.{capture_beside, captured_moved, former, name_view, shadow_capture, spelling_beside, word_beside, word_capture};
ghost use Rattle.oxt_check.specs.Occurring.{makes_names};
ghost use Rattle.oxt_enum_checks.specs.Shadows.{shadow_view};
ghost use Rattle.oxt_faults.specs.Captured.{capture_view};
ghost use Rattle.oxt_faults.specs.Earliest.{moved_view};
ghost use Rattle.oxt_faults.specs.Free.{free, free_view};
ghost use Rattle.oxt_faults.specs.Level.{found_view};
ghost use Rattle.oxt_faults.specs.Moved.{moved_capture};
ghost use Rattle.oxt_faults.specs.Namespaces.{namespace_word};
ghost use Rattle.oxt_fields.specs.Rules.{rules_view};
ghost use Rattle.oxt_modules.specs.Aliases.{left_out};
ghost use Rattle.oxt_options.specs.Facts.{is_in};
ghost use Rattle.oxt_tree.specs.View.{node_doc};

use crate::enums::EnumFaults;
use crate::survey::Survey;
use oxt_class_checks::moved::first_moved_decorator;
use oxt_enum_checks::shadowed::ShadowedName;
use oxt_faults::captured::{CapturedName, first_captured};
use oxt_faults::free::{FoundFree, first_free};
use oxt_faults::level::FoundWord;
use oxt_faults::moved::{MovedName, first_moved_capture};
use oxt_faults::namespace::first_namespace_word;
use oxt_fields::rules::FieldRules;
use oxt_grammar::kind::Kind;
use oxt_modules::alias::left_out_names;
use oxt_names::ids::{NodeId, OutOfMemory};
use oxt_options::nodes::NodeList;
use oxt_scoping::scoping::Scoping;
use std::alloc::Global;

/// A name that would be captured.
#[derive(Clone, Copy)]
pub struct NameAt<'a> {
    /// The node at which it is.
    pub node: NodeId,
    /// Its spelling.
    pub name: &'a str,
}

/// The captured name at the node of the least number: a word in an initializer or a namespace that goes into a function,
/// a name in a field, a key or a constructor of a class whose fields move, or in a decorator that moves, a name whose
/// declaration is erased, a free name that is made and has a declaration around it, or the name of an enum at a bare name of a member, which is written by
/// way of it. Of several at one node it is the first of these. `scoping` is the table of the program that was surveyed, `rules` say how its
/// fields are lowered, `kept` lists what of its imports and exports is kept, and `enums` are what is wrong with its enums.
///
/// # Errors
///
/// Fails only where memory runs out.
pub fn first_capture<'a>(
    alloc: Global,
    survey: &Survey<'a>,
    scoping: &'a Scoping,
    rules: FieldRules,
    kept: &NodeList,
    enums: &EnumFaults<'a>,
) -> Result<Option<NameAt<'a>>, OutOfMemory>
    ensures { IfOk result (λ found. option_map name_view found
        ≡ capture_beside (option_map found_view enums.now.word) (option_map shadow_view enums.now.shadowed) scoping.now (rules_view rules.entry) (is_in kept.now) (node_doc survey.now.program.now)) }
{
    let word = captured_word(survey, enums.word, rules.legacy);
    let moved = captured_moved(alloc, survey, scoping, rules)?;
    let spelling = captured_spelling(alloc, survey, scoping, rules, kept, enums.shadowed)?;
    Ok(former(word, former(moved, spelling)))
}

/// The first word in an initializer, which is that one, or a namespace that goes into a function.
fn captured_word<'a>(
    survey: &Survey<'a>,
    initializer: Option<FoundWord>,
    legacy: bool,
) -> Option<NameAt<'a>>
    ensures { option_map name_view result
        ≡ word_beside (option_map found_view initializer) legacy (node_doc survey.now.program.now) }
{
    former(
        of_word(initializer),
        of_word(word_in_namespace(survey, legacy)),
    )
}

/// The first word in a namespace.
fn word_in_namespace(survey: &Survey, legacy: bool) -> Option<FoundWord>
    ensures { option_map found_view result ≡ namespace_word legacy (node_doc survey.now.program.now) }
{
    if survey.has(Kind::TSModuleBlock) {
        first_namespace_word(legacy, survey.program)
    } else {
        None
    }
}

/// The first name in what of a class moves: its fields, their keys, and its decorators.
fn captured_moved<'a>(
    alloc: Global,
    survey: &Survey<'a>,
    scoping: &'a Scoping,
    rules: FieldRules,
) -> Result<Option<NameAt<'a>>, OutOfMemory>
    ensures { IfOk result (λ found. option_map name_view found
        ≡ captured_moved scoping.now (rules_view rules.entry) (node_doc survey.now.program.now)) }
{
    let field = of_moved(name_in_field(alloc, survey, scoping, rules)?);
    let decorator = of_moved(first_moved_decorator(alloc, rules.legacy, survey.program)?);
    Ok(former(field, decorator))
}

/// The first name in a class whose fields move.
fn name_in_field<'a>(
    alloc: Global,
    survey: &Survey<'a>,
    scoping: &'a Scoping,
    rules: FieldRules,
) -> Result<Option<MovedName<'a>>, OutOfMemory>
    ensures { IfOk result (λ found. option_map moved_view found
        ≡ moved_capture scoping.now (rules_view rules.entry) (node_doc survey.now.program.now)) }
{
    if survey.has_class() {
        first_moved_capture(alloc, survey.program, scoping, rules)
    } else {
        Ok(None)
    }
}

/// The first name that would mean another declaration, of names of enums that one.
fn captured_spelling<'a>(
    alloc: Global,
    survey: &Survey<'a>,
    scoping: &'a Scoping,
    rules: FieldRules,
    kept: &NodeList,
    shadowed: Option<ShadowedName<'a>>,
) -> Result<Option<NameAt<'a>>, OutOfMemory>
    ensures { IfOk result (λ found. option_map name_view found
        ≡ spelling_beside (option_map shadow_view shadowed.entry) (rules_view rules.entry) scoping.now (is_in kept.now) (node_doc survey.now.program.now)) }
{
    let program = survey.program;
    let left_out = left_out_of(alloc, survey, kept)?;
    let erased = of_name(first_captured(alloc, rules, program, scoping, &left_out)?);
    let made = of_free(made_name(survey, scoping, rules, kept));
    Ok(former(erased, former(made, of_shadow(shadowed))))
}

/// The names of those of the declarations `import a = ..` that are not kept.
fn left_out_of(alloc: Global, survey: &Survey, kept: &NodeList) -> Result<NodeList, OutOfMemory>
    ensures { IfOk result (λ names. names ≡ left_out (is_in kept.now) (node_doc survey.now.program.now)) }
{
    if survey.has(Kind::TSImportEqualsDeclaration) {
        left_out_names(alloc, survey.program, kept)
    } else {
        Ok(NodeList::new(alloc))
    }
}

/// The first free name that is made; without decorators that are lowered, only some forms have one.
fn made_name(
    survey: &Survey,
    scoping: &Scoping,
    rules: FieldRules,
    kept: &NodeList,
) -> Option<FoundFree>
    ensures { option_map free_view result ≡ free (rules_view rules.entry) scoping.now (is_in kept.now) (node_doc survey.now.program.now) }
{
    if is_made(survey, rules.legacy) {
        first_free(rules, survey.program, scoping, kept)
    } else {
        None
    }
}

/// Whether a free name may be made.
fn is_made(survey: &Survey, legacy: bool) -> bool
    ensures { result ≡ (legacy || makes_names (node_doc survey.now.program.now)) }
{
    legacy || survey.makes_names()
}

/// The name whose declaration is erased.
fn of_name<'a>(found: Option<CapturedName<'a>>) -> Option<NameAt<'a>>
    ensures { option_map name_view result ≡ option_map capture_view found.entry }
{
    let found = found?;
    Some(NameAt {
        node: found.node,
        name: found.name.as_str(),
    })
}

/// The name in a class whose fields move.
fn of_moved<'a>(found: Option<MovedName<'a>>) -> Option<NameAt<'a>>
    ensures { option_map name_view result ≡ option_map moved_view found.entry }
{
    let found = found?;
    Some(NameAt {
        node: found.node,
        name: found.name,
    })
}

/// The word in code that goes into a function.
fn of_word<'a>(found: Option<FoundWord>) -> Option<NameAt<'a>>
    ensures { option_map name_view result ≡ option_map word_capture (option_map found_view found) }
{
    let found = found?;
    Some(NameAt {
        node: found.node,
        name: found.word.as_str(),
    })
}

/// The free name that is made.
fn of_free<'a>(found: Option<FoundFree>) -> Option<NameAt<'a>>
    ensures { option_map name_view result ≡ option_map free_view found }
{
    let found = found?;
    Some(NameAt {
        node: found.node,
        name: found.word.as_str(),
    })
}

/// The name of an enum.
fn of_shadow<'a>(found: Option<ShadowedName<'a>>) -> Option<NameAt<'a>>
    ensures { option_map name_view result ≡ option_map shadow_capture (option_map shadow_view found.entry) }
{
    let found = found?;
    Some(NameAt {
        node: found.node,
        name: found.name.as_str(),
    })
}

/// The one of two at the node of the lesser number, and the first of two at one node.
fn former<'a>(first: Option<NameAt<'a>>, other: Option<NameAt<'a>>) -> Option<NameAt<'a>>
    ensures { option_map name_view result
        ≡ former (option_map name_view first.entry) (option_map name_view other.entry) }
{
    match (first, other) {
        (Some(first), Some(other)) => {
            if other.node.0 < first.node.0 {
                Some(other)
            } else {
                Some(first)
            }
        }
        (Some(first), None) => Some(first),
        (None, other) => other,
    }
}
