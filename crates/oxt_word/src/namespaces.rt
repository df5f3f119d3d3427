//! The effect word of a block of a namespace, and of what stands exported in it.
ghost use Rattle.std.specs.Prelude.{◌≡◌, ◌++◌, OnOk};
ghost use Rattle.oxt_facts.specs.Entry.{entries};
ghost use Rattle.oxt_facts.specs.Told.{names_view, namespace_view};
ghost use Rattle.oxt_names.specs.Names.{name_bytes};
ghost use Rattle.oxt_items.specs.Namespaces.{export_word, namespace_call, namespace_word, stored_word};
ghost use Rattle.oxt_word.specs.Word.{each_field};

use crate::word::put_field;
use oxt_facts::facts::Facts;
use oxt_facts::item::{Item, ItemKind};
use oxt_facts::told::{ToldExport, ToldNamespace, ToldStored};
use oxt_forms::put::put_lone;
use oxt_grammar::field::Field;
use oxt_items::enums::put_text;
use oxt_items::namespaces::{declared_way, put_entry, put_made, put_names, put_object};
use oxt_items::way::Way;
use oxt_names::ids::OutOfMemory;
use oxt_tree::tree::Node;

/// Puts a block of a namespace, which is exported at the top level or not.
#[cycle(word)]
pub(crate) fn put_namespace(
    facts: &Facts,
    block: &ToldNamespace,
    exported: bool,
    node: &Node,
    out: &mut Vec<Item>,
) -> Result<(), OutOfMemory>
    ensures { OnOk result (entries out.new.items
        ≡ entries out.old.items
        ++ namespace_word (namespace_view block.now) exported (each_field facts.now node.now)) }
{
    if let Some(way) = declared_way(block, exported) {
        put_field(facts, node, Field::Id, way, out)?;
    }
    put_call(facts, block, node, out)
}

/// Puts the call of the function in which the block's statements stand.
#[cycle(word)]
fn put_call(
    facts: &Facts,
    block: &ToldNamespace,
    node: &Node,
    out: &mut Vec<Item>,
) -> Result<(), OutOfMemory>
    ensures { OnOk result (entries out.new.items
        ≡ entries out.old.items ++ namespace_call (namespace_view block.now) (each_field facts.now node.now)) }
{
    put_object(facts.memory(), block, out)?;
    put_entry(facts.memory(), &block.tag, out)?;
    put_field(facts, node, Field::Body, Way::Whole, out)?;
    put_lone(facts.memory(), ItemKind::Out, out)?;
    put_lone(facts.memory(), ItemKind::Eval, out)
}

/// Puts an export in a block: its declaration, and the names that are put on the block's object.
#[cycle(word)]
pub(crate) fn put_export(
    facts: &Facts,
    export: &ToldExport,
    node: &Node,
    out: &mut Vec<Item>,
) -> Result<(), OutOfMemory>
    ensures { OnOk result (entries out.new.items
        ≡ entries out.old.items
        ++ export_word (name_bytes export.now.tag) (names_view export.now.names.items) (each_field facts.now node.now)) }
{
    put_field(facts, node, Field::Declaration, Way::Whole, out)?;
    put_names(facts.memory(), &export.tag, export.names.as_slice(), out)
}

/// Puts a declarator, read that way, whose value is put on the object of a block too.
#[cycle(word)]
pub(crate) fn put_stored(
    facts: &Facts,
    stored: &ToldStored,
    way: Way,
    node: &Node,
    out: &mut Vec<Item>,
) -> Result<(), OutOfMemory>
    ensures { OnOk result (entries out.new.items
        ≡ entries out.old.items
        ++ stored_word (name_bytes stored.now.tag) (name_bytes stored.now.name) way (each_field facts.now node.now)) }
{
    put_made(facts.memory(), &stored.tag, out)?;
    put_text(facts.memory(), &stored.name, out)?;
    put_field(facts, node, Field::Init, Way::Whole, out)?;
    put_lone(facts.memory(), ItemKind::Put, out)?;
    put_lone(facts.memory(), ItemKind::Set, out)?;
    put_field(facts, node, Field::Id, way, out)
}
