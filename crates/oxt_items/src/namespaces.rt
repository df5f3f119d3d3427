//! The effect word of a block of a namespace, and of what stands exported in it.
ghost use Rattle.std.specs.Prelude.{◌≡◌, ◌∷◌, [], ◌++◌, OnOk, false, option_map};
ghost use Rattle.oxt_facts.specs.Entry.{detailed, entries, spelled};
ghost use Rattle.oxt_facts.specs.Told.{names_view, namespace_view};
ghost use Rattle.oxt_tree.specs.Doc.{flag, text};
ghost use Rattle.oxt_names.specs.Names.{name_bytes};
ghost use Rattle.oxt_items.specs.Namespaces.{based_word, declared_way, name_put, name_puts, namespace_object};

use crate::enums::{put_text, put_use};
use crate::way::Way;
use oxt_facts::item::{Atom, Binding, Item, ItemKind};
use oxt_facts::told::{ToldName, ToldNamespace};
use oxt_forms::put::{put_detailed, put_lone, put_spelled};
use oxt_names::ids::OutOfMemory;
use oxt_names::name::Name;
use std::alloc::Global;
use std::vec;

/// The way in which the name of the namespace is declared before the block, which is exported or not: by a first block alone.
pub fn declared_way(block: &ToldNamespace, exported: bool) -> Option<Way>
    ensures { result ≡ declared_way (namespace_view block.now) exported }
{
    if block.is_first {
        return Some(Way::Bound(Binding::Let, exported));
    }
    None
}

/// Puts the object of the namespace.
pub fn put_object(
    alloc: Global,
    block: &ToldNamespace,
    out: &mut Vec<Item>,
) -> Result<(), OutOfMemory>
    ensures { OnOk result (entries out.new.items
        ≡ entries out.old.items ++ namespace_object (namespace_view block.now)) }
{
    put_use(alloc, &block.name, block.group, out)?;
    put_based(alloc, &block.name, &block.base, out)
}

/// Puts that the name before it holds an object then, or also the block with that tag under the name.
fn put_based(
    alloc: Global,
    name: &Name,
    base: &Option<Name>,
    out: &mut Vec<Item>,
) -> Result<(), OutOfMemory>
    ensures { OnOk result (entries out.new.items
        ≡ entries out.old.items ++ based_word (name_bytes name.now) (option_map name_bytes base.now)) }
{
    match base {
        Some(tag) => {
            put_made(alloc, tag, out)?;
            put_text(alloc, name, out)?;
            put_lone(alloc, ItemKind::FoundMadeOn, out)
        }
        None => put_lone(alloc, ItemKind::FoundMade, out),
    }
}

/// Puts the use of the made name with that tag.
pub fn put_made(alloc: Global, tag: &Name, out: &mut Vec<Item>) -> Result<(), OutOfMemory>
    ensures { OnOk result (entries out.new.items
        ≡ entries out.old.items ++ spelled ItemKind.Made (text (name_bytes tag.now))) }
{
    put_spelled(alloc, ItemKind::Made, Atom::Text(tag.share()?), out)
}

/// Puts the entry into the function whose parameter is the made name with that tag.
pub fn put_entry(alloc: Global, tag: &Name, out: &mut Vec<Item>) -> Result<(), OutOfMemory>
    ensures { OnOk result (entries out.new.items
        ≡ entries out.old.items ++ detailed ItemKind.InMade (text (name_bytes tag.now)) (flag false ∷ [])) }
{
    let details = vec![in alloc; Atom::Flag(false)]?;
    put_detailed(ItemKind::InMade, Atom::Text(tag.share()?), details, out)
}

/// Puts that each of the names is put on the object of the block with that tag.
#[tactic(auto, using(crate::proofs::Puts::one_more, crate::proofs::Puts::no_more))]
pub fn put_names(
    alloc: Global,
    tag: &Name,
    names: &[ToldName],
    out: &mut Vec<Item>,
) -> Result<(), OutOfMemory>
    ensures { OnOk result (entries out.new.items
        ≡ entries out.old.items ++ name_puts (name_bytes tag.now) (names_view names.now)) }
{
    for name in names {
        put_name(alloc, tag, name, out)?;
    }
    Ok(())
}

/// Puts that the name is put on the object of the block with that tag.
pub fn put_name(
    alloc: Global,
    tag: &Name,
    name: &ToldName,
    out: &mut Vec<Item>,
) -> Result<(), OutOfMemory>
    ensures { OnOk result (entries out.new.items
        ≡ entries out.old.items ++ name_put (name_bytes tag.now) (name_bytes name.now.name) name.now.group) }
{
    put_made(alloc, tag, out)?;
    put_text(alloc, &name.name, out)?;
    put_use(alloc, &name.name, name.group, out)?;
    put_lone(alloc, ItemKind::Put, out)?;
    put_lone(alloc, ItemKind::Eval, out)
}
