//! The effect word of the metadata in calls of decorators.
ghost use Rattle.std.specs.Prelude.{◌≡◌, [], ◌++◌, OnOk, map, option_map};
ghost use Rattle.oxt_facts.specs.Entry.{entries, spelled};
ghost use Rattle.oxt_facts.specs.Told.{metadata_view, type_view, types_view};
ghost use Rattle.oxt_tree.specs.Doc.{text};
ghost use Rattle.oxt_names.specs.Names.{name_bytes};
ghost use Rattle.oxt_items.specs.Metadata.{entry_start, guarded_word, list_word, member_words, metadata_word, openings, option_list_entry, option_type_entry, path_word, reference_word, root_word, test_word, tests_word, type_word, typeof_word, types_word, void_word};

use crate::calls::{put_helper_start, put_member};
use crate::enums::{put_operation, put_use};
use crate::modules::put_free;
use crate::namespaces::put_made;
use oxt_facts::facts::Facts;
use oxt_facts::item::{Atom, Item, ItemKind};
use oxt_facts::told::{Told, ToldMetadata, ToldReference, ToldType};
use oxt_forms::put::{put_lone, put_spelled, put_start};
use oxt_grammar::kind::Kind;
use oxt_names::ids::OutOfMemory;
use oxt_names::name::Name;
use std::alloc::Global;

/// Puts the calls that metadata adds to the decorators: the type of the element itself, those of the parameters, and that of what
/// is returned.
pub fn put_metadata(
    facts: &Facts,
    metadata: &ToldMetadata,
    out: &mut Vec<Item>,
) -> Result<(), OutOfMemory>
    ensures { OnOk result (entries out.new.items
        ≡ entries out.old.items ++ metadata_word facts.now (metadata_view metadata.now)) }
{
    put_type_entry(facts, "design:type", &metadata.design, out)?;
    put_list_entry(facts, "design:paramtypes", &metadata.parameters, out)?;
    put_type_entry(facts, "design:returntype", &metadata.returned, out)
}

/// Puts the call that notes the type under that name, if there is one.
fn put_type_entry(
    facts: &Facts,
    name: &str,
    noted: &Option<ToldType>,
    out: &mut Vec<Item>,
) -> Result<(), OutOfMemory>
    ensures { OnOk result (entries out.new.items
        ≡ entries out.old.items ++ option_type_entry facts.now name.now (option_map type_view noted.now)) }
{
    match noted {
        Some(noted) => {
            put_entry_start(facts.memory(), name, out)?;
            put_type(facts, noted, out)?;
            put_lone(facts.memory(), ItemKind::Close, out)
        }
        None => Ok(()),
    }
}

/// Puts the call that notes the list of the types under that name, if there is one.
fn put_list_entry(
    facts: &Facts,
    name: &str,
    noted: &Option<Vec<ToldType>>,
    out: &mut Vec<Item>,
) -> Result<(), OutOfMemory>
    ensures { OnOk result (entries out.new.items
        ≡ entries out.old.items ++ option_list_entry facts.now name.now (option_map types_view noted.now)) }
{
    match noted {
        Some(noted) => {
            put_entry_start(facts.memory(), name, out)?;
            put_list(facts, noted.as_slice(), out)?;
            put_lone(facts.memory(), ItemKind::Close, out)
        }
        None => Ok(()),
    }
}

/// Puts the start of the call that notes something under that name.
fn put_entry_start(alloc: Global, name: &str, out: &mut Vec<Item>) -> Result<(), OutOfMemory>
    ensures { OnOk result (entries out.new.items ≡ entries out.old.items ++ entry_start name.now) }
{
    put_helper_start(alloc, "decorateMetadata", out)?;
    put_text(alloc, name, out)
}

/// Puts the text.
pub fn put_text(alloc: Global, value: &str, out: &mut Vec<Item>) -> Result<(), OutOfMemory>
    ensures { OnOk result (entries out.new.items
        ≡ entries out.old.items ++ spelled ItemKind.Str (text value.now)) }
{
    put_spelled(
        alloc,
        ItemKind::Str,
        Atom::Text(Name::new(alloc, value)?),
        out,
    )
}

/// Puts the list of the types.
pub fn put_list(facts: &Facts, types: &[ToldType], out: &mut Vec<Item>) -> Result<(), OutOfMemory>
    ensures { OnOk result (entries out.new.items
        ≡ entries out.old.items ++ list_word facts.now (map type_view types.now)) }
{
    put_start(Kind::ArrayExpression, Vec::new(facts.memory()), out)?;
    put_types(facts, types, out)?;
    put_lone(facts.memory(), ItemKind::Close, out)
}

/// Puts the types, one after the other.
#[tactic(auto, using(crate::proofs::Noted::type_steps))]
fn put_types(facts: &Facts, types: &[ToldType], out: &mut Vec<Item>) -> Result<(), OutOfMemory>
    ensures { OnOk result (entries out.new.items
        ≡ entries out.old.items ++ types_word facts.now (map type_view types.now)) }
{
    for noted in types {
        put_type(facts, noted, out)?;
    }
    Ok(())
}

/// Puts the type.
fn put_type(facts: &Facts, noted: &ToldType, out: &mut Vec<Item>) -> Result<(), OutOfMemory>
    ensures { OnOk result (entries out.new.items
        ≡ entries out.old.items ++ type_word facts.now (type_view noted.now)) }
{
    match noted {
        ToldType::Global(name) => put_free(facts.memory(), name.as_str(), out),
        ToldType::Undefined => put_void(facts.memory(), out),
        ToldType::Reference(reference) => put_reference(facts, reference, out),
    }
}

/// Puts `void 0`.
pub(crate) fn put_void(alloc: Global, out: &mut Vec<Item>) -> Result<(), OutOfMemory>
    ensures { OnOk result (entries out.new.items ≡ entries out.old.items ++ void_word) }
{
    put_operation(alloc, Kind::UnaryExpression, "void", out)?;
    put_spelled(alloc, ItemKind::Num, Atom::Number(0), out)?;
    put_lone(alloc, ItemKind::Close, out)
}

/// Puts a name of the source where it is there, and else `Object`.
fn put_reference(
    facts: &Facts,
    reference: &ToldReference,
    out: &mut Vec<Item>,
) -> Result<(), OutOfMemory>
    ensures { OnOk result (entries out.new.items ≡ entries out.old.items
        ++ reference_word facts.now reference.now.root.0 (name_bytes reference.now.name)
        (map name_bytes reference.now.path.items)) }
{
    let alloc = facts.memory();
    put_start(Kind::ConditionalExpression, Vec::new(alloc), out)?;
    put_tests(facts, reference, out)?;
    put_free(alloc, "Object", out)?;
    put_path(facts, reference, reference.path.as_slice(), out)?;
    put_lone(alloc, ItemKind::Close, out)
}

/// Puts the test that the name is not there: that one of its names, from the first on, is not.
fn put_tests(
    facts: &Facts,
    reference: &ToldReference,
    out: &mut Vec<Item>,
) -> Result<(), OutOfMemory>
    ensures { OnOk result (entries out.new.items ≡ entries out.old.items
        ++ guarded_word facts.now reference.now.root.0 (name_bytes reference.now.name)
        (map name_bytes reference.now.path.items)) }
{
    let path = reference.path.as_slice();
    put_openings(facts.memory(), path, out)?;
    put_test(facts, reference, &[], out)?;
    put_later_tests(facts, reference, path, out)
}

/// Puts the start of an alternative for each of the names.
#[tactic(auto, using(crate::proofs::Noted::opening_steps))]
fn put_openings(alloc: Global, path: &[Name], out: &mut Vec<Item>) -> Result<(), OutOfMemory>
    ensures { OnOk result (entries out.new.items
        ≡ entries out.old.items ++ openings (map name_bytes path.now)) }
{
    for _name in path {
        put_operation(alloc, Kind::LogicalExpression, "||", out)?;
    }
    Ok(())
}

/// Puts the tests for the names behind the first one, each with the end of its alternative.
#[tactic(auto, using(crate::proofs::Noted::test_steps))]
fn put_later_tests(
    facts: &Facts,
    reference: &ToldReference,
    path: &[Name],
    out: &mut Vec<Item>,
) -> Result<(), OutOfMemory>
    ensures { OnOk result (entries out.new.items ≡ entries out.old.items
        ++ tests_word facts.now reference.now.root.0 (name_bytes reference.now.name) [] (map name_bytes path.now)) }
{
    for (place, _name) in path.iter().enumerate() {
        put_test(facts, reference, path.split_at(place + 1).0, out)?;
        put_lone(facts.memory(), ItemKind::Close, out)?;
    }
    Ok(())
}

/// Puts the test that the name with these names behind the first one is not there.
fn put_test(
    facts: &Facts,
    reference: &ToldReference,
    path: &[Name],
    out: &mut Vec<Item>,
) -> Result<(), OutOfMemory>
    ensures { OnOk result (entries out.new.items ≡ entries out.old.items
        ++ test_word (path_word facts.now reference.now.root.0 (name_bytes reference.now.name) (map name_bytes path.now))) }
{
    let alloc = facts.memory();
    put_operation(alloc, Kind::BinaryExpression, "===", out)?;
    put_typeof(facts, reference, path, out)?;
    put_text(alloc, "undefined", out)?;
    put_lone(alloc, ItemKind::Close, out)
}

/// Puts the kind of what the name with these names behind the first one is.
fn put_typeof(
    facts: &Facts,
    reference: &ToldReference,
    path: &[Name],
    out: &mut Vec<Item>,
) -> Result<(), OutOfMemory>
    ensures { OnOk result (entries out.new.items ≡ entries out.old.items
        ++ typeof_word (path_word facts.now reference.now.root.0 (name_bytes reference.now.name) (map name_bytes path.now))) }
{
    let alloc = facts.memory();
    put_operation(alloc, Kind::UnaryExpression, "typeof", out)?;
    put_path(facts, reference, path, out)?;
    put_lone(alloc, ItemKind::Close, out)
}

/// Puts the name with these names behind the first one.
#[tactic(auto, unfolding(crate::specs::Metadata::path_word))]
fn put_path(
    facts: &Facts,
    reference: &ToldReference,
    path: &[Name],
    out: &mut Vec<Item>,
) -> Result<(), OutOfMemory>
    ensures { OnOk result (entries out.new.items ≡ entries out.old.items
        ++ path_word facts.now reference.now.root.0 (name_bytes reference.now.name) (map name_bytes path.now)) }
{
    put_root(facts, reference, out)?;
    put_members(facts.memory(), path, out)
}

/// Puts the reads of the members of these names.
#[tactic(auto, using(crate::proofs::Noted::member_steps))]
fn put_members(alloc: Global, path: &[Name], out: &mut Vec<Item>) -> Result<(), OutOfMemory>
    ensures { OnOk result (entries out.new.items
        ≡ entries out.old.items ++ member_words (map name_bytes path.now)) }
{
    for name in path {
        put_member(alloc, name.as_str(), out)?;
    }
    Ok(())
}

/// Puts the first name, by what is told of it: it may be read as the alias of a class, or as its inner name.
#[tactic(auto, unfolding(crate::specs::Metadata::root_word))]
fn put_root(
    facts: &Facts,
    reference: &ToldReference,
    out: &mut Vec<Item>,
) -> Result<(), OutOfMemory>
    ensures { OnOk result (entries out.new.items ≡ entries out.old.items
        ++ root_word facts.now reference.now.root.0 (name_bytes reference.now.name)) }
{
    let alloc = facts.memory();
    match facts.told_of(reference.root) {
        Some(Told::Alias(tag)) => put_made(alloc, tag, out),
        Some(Told::Inner(group)) => put_use(alloc, &reference.name, Some(*group), out),
        _ => {
            let group = facts.group_of(reference.root);
            put_use(alloc, &reference.name, group, out)
        }
    }
}
