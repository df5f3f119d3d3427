//! The effect word of accessors that become a field, a getter and a setter.
ghost use Rattle.std.specs.Prelude.{◌≡◌, ◌++◌, None, OnOk, Some, codes, false, option_map};
ghost use Rattle.oxt_facts.specs.Entry.{entries};
ghost use Rattle.oxt_facts.specs.Told.{accessing_view, calling_view, storage_view};
ghost use Rattle.oxt_names.specs.Names.{name_bytes};
ghost use Rattle.oxt_items.specs.Accessors.{accessor_word, getter_key, getter_word, instance_storage, key_text_of, plain_key, setter_key, setter_word, storage_field, storage_put};
ghost use Rattle.oxt_items.specs.Calls.{tag_of};
ghost use Rattle.oxt_items.specs.RuleOf.{rule_of};
ghost use Rattle.oxt_word.specs.Word.{each_field};

use crate::calls::{put_element_text, put_given, put_kept_key};
use crate::word::put_field;
use oxt_facts::facts::Facts;
use oxt_facts::item::{Item, ItemKind};
use oxt_facts::told::{ToldAccessor, ToldStorage};
use oxt_forms::put::{put_field_start, put_lone};
use oxt_grammar::field::Field;
use oxt_items::accessors::{
    put_empty_storage, put_getter_function, put_method_start, put_setter_function, put_storage,
};
use oxt_items::calls::{put_keep, put_kept, tag_of};
use oxt_items::namespaces::put_made;
use oxt_items::way::Way;
use oxt_names::ids::OutOfMemory;
use oxt_names::name::Name;
use oxt_tree::tree::Node;

/// Puts the field, with the value that is written.
#[cycle(word)]
fn put_storage_field(
    facts: &Facts,
    is_static: bool,
    storage: &ToldStorage,
    node: &Node,
    out: &mut Vec<Item>,
) -> Result<(), OutOfMemory>
    ensures { OnOk result (entries out.new.items ≡ entries out.old.items
        ++ storage_field is_static (storage_view storage.now) (each_field facts.now node.now (codes "value") Way.Whole)) }
{
    put_field_start(facts.memory(), is_static, false, out)?;
    put_storage(facts.memory(), storage, out)?;
    put_field(facts, node, Field::Value, Way::Whole, out)?;
    put_lone(facts.memory(), ItemKind::Define, out)
}

/// Puts the field of an instance, whose value may be put in the constructor.
#[cycle(word)]
fn put_instance_storage(
    facts: &Facts,
    accessor: &ToldAccessor,
    node: &Node,
    out: &mut Vec<Item>,
) -> Result<(), OutOfMemory>
    ensures { OnOk result (entries out.new.items ≡ entries out.old.items
        ++ instance_storage accessor.now.moves (storage_view accessor.now.storage) (each_field facts.now node.now)) }
{
    if accessor.moves {
        return put_empty_storage(facts.memory(), &accessor.storage, out);
    }
    put_storage_field(facts, false, &accessor.storage, node, out)
}

/// Puts that the value of the field is put on the object.
#[cycle(word)]
fn put_storage_put(
    facts: &Facts,
    storage: &ToldStorage,
    node: &Node,
    out: &mut Vec<Item>,
) -> Result<(), OutOfMemory>
    ensures { OnOk result (entries out.new.items ≡ entries out.old.items
        ++ storage_put (storage_view storage.now) (each_field facts.now node.now)) }
{
    put_lone(facts.memory(), ItemKind::This, out)?;
    put_storage(facts.memory(), storage, out)?;
    put_field(facts, node, Field::Value, Way::Whole, out)?;
    put_lone(facts.memory(), ItemKind::Put, out)?;
    put_lone(facts.memory(), ItemKind::Eval, out)
}

/// Puts the key of the getter, which the made name of that tag may hold.
#[cycle(word)]
fn put_plain_key(
    facts: &Facts,
    tag: Option<&Name>,
    node: &Node,
    out: &mut Vec<Item>,
) -> Result<(), OutOfMemory>
    ensures { OnOk result (entries out.new.items ≡ entries out.old.items
        ++ plain_key (option_map (λ tag. name_bytes tag.now) tag.entry) (each_field facts.now node.now)) }
{
    match tag {
        Some(tag) => put_kept_key(facts, tag, node, out),
        None => put_field(facts, node, Field::Key, Way::Keyed, out),
    }
}

/// Puts the key of the getter, whose value the temporary of the field holds, and that of the call.
#[cycle(word)]
fn put_getter_key(
    facts: &Facts,
    accessor: &ToldAccessor,
    node: &Node,
    out: &mut Vec<Item>,
) -> Result<(), OutOfMemory>
    ensures { OnOk result (entries out.new.items ≡ entries out.old.items
        ++ getter_key (storage_view accessor.now.storage) (tag_of (option_map calling_view accessor.now.call))
        (each_field facts.now node.now)) }
{
    match &accessor.storage {
        ToldStorage::Plain(_) => put_plain_key(facts, tag_of(&accessor.call), node, out),
        ToldStorage::Kept(tag) => {
            put_field(facts, node, Field::Key, Way::Whole, out)?;
            put_keep(facts.memory(), tag, out)?;
            put_kept(facts.memory(), tag_of(&accessor.call), out)?;
            put_lone(facts.memory(), ItemKind::Key, out)
        }
    }
}

/// Puts the key of the setter: what that temporary holds, or the key again.
#[cycle(word)]
fn put_setter_key(
    facts: &Facts,
    storage: &ToldStorage,
    node: &Node,
    out: &mut Vec<Item>,
) -> Result<(), OutOfMemory>
    ensures { OnOk result (entries out.new.items ≡ entries out.old.items
        ++ setter_key (storage_view storage.now) (each_field facts.now node.now)) }
{
    match storage {
        ToldStorage::Plain(_) => put_field(facts, node, Field::Key, Way::Keyed, out),
        ToldStorage::Kept(tag) => {
            put_made(facts.memory(), tag, out)?;
            put_lone(facts.memory(), ItemKind::Key, out)
        }
    }
}

/// Puts the text of the key of the getter or the setter.
#[cycle(word)]
fn put_text_of(
    facts: &Facts,
    storage: &ToldStorage,
    tag: Option<&Name>,
    node: &Node,
    out: &mut Vec<Item>,
) -> Result<(), OutOfMemory>
    ensures { OnOk result (entries out.new.items ≡ entries out.old.items
        ++ key_text_of (storage_view storage.now) (option_map (λ tag. name_bytes tag.now) tag.entry)
        (each_field facts.now node.now)) }
{
    match storage {
        ToldStorage::Plain(_) => put_element_text(facts, tag, node, out),
        ToldStorage::Kept(_) => Ok(()),
    }
}

/// Puts the getter.
#[cycle(word)]
fn put_getter(
    facts: &Facts,
    accessor: &ToldAccessor,
    node: &Node,
    out: &mut Vec<Item>,
) -> Result<(), OutOfMemory>
    ensures { OnOk result (entries out.new.items
        ≡ entries out.old.items ++ getter_word (accessing_view accessor.now) (each_field facts.now node.now)) }
{
    put_method_start(facts.memory(), "get", accessor.is_static, out)?;
    put_text_of(facts, &accessor.storage, tag_of(&accessor.call), node, out)?;
    put_getter_function(facts.memory(), accessor, out)?;
    put_lone(facts.memory(), ItemKind::Close, out)
}

/// Puts the setter.
#[cycle(word)]
fn put_setter(
    facts: &Facts,
    accessor: &ToldAccessor,
    node: &Node,
    out: &mut Vec<Item>,
) -> Result<(), OutOfMemory>
    ensures { OnOk result (entries out.new.items
        ≡ entries out.old.items ++ setter_word (accessing_view accessor.now) (each_field facts.now node.now)) }
{
    put_method_start(facts.memory(), "set", accessor.is_static, out)?;
    put_text_of(facts, &accessor.storage, None, node, out)?;
    put_setter_function(facts.memory(), accessor, out)?;
    put_lone(facts.memory(), ItemKind::Close, out)
}

/// Puts an accessor, read that way.
#[cycle(word)]
pub(crate) fn put_accessor(
    facts: &Facts,
    accessor: &ToldAccessor,
    way: Way,
    node: &Node,
    out: &mut Vec<Item>,
) -> Result<(), OutOfMemory>
    ensures { OnOk result (entries out.new.items ≡ entries out.old.items
        ++ accessor_word facts.now (accessing_view accessor.now) way (rule_of node.now.kind) (each_field facts.now node.now)) }
{
    match way {
        Way::Keys => {
            put_getter_key(facts, accessor, node, out)?;
            put_setter_key(facts, &accessor.storage, node, out)
        }
        Way::Statics if accessor.is_static => {
            put_storage_field(facts, true, &accessor.storage, node, out)
        }
        Way::Fields if !accessor.is_static => put_instance_storage(facts, accessor, node, out),
        Way::Puts if accessor.moves => put_storage_put(facts, &accessor.storage, node, out),
        Way::Methods => {
            put_getter(facts, accessor, node, out)?;
            put_setter(facts, accessor, node, out)
        }
        Way::Calls => put_given(facts, &accessor.call, node, out),
        _ => Ok(()),
    }
}
