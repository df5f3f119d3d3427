//! The tags of made names.
ghost use Rattle.std.specs.Prelude.{◌≡◌, [], OnOk, option_map};
ghost use Rattle.oxt_tree.specs.Fields.{text_in};
ghost use Rattle.oxt_facts.specs.Entry.{atom_doc, entries, entry_of};
ghost use Rattle.oxt_facts.specs.Tags.{is_tagged, noted, numbered, tag_in, with_number};

use crate::item::{Atom, Item, ItemKind};
use crate::met::MetTags;
use oxt_names::ids::OutOfMemory;
use std::alloc::Global;

/// Numbers the made names of the items by their first occurrence: the first is 0.
///
/// # Errors
///
/// Fails only where memory runs out.
#[tactic(auto, using(crate::proofs::Numbers::one_more, crate::proofs::Numbers::no_more))]
pub fn number_tags(alloc: Global, items: &mut Vec<Item>) -> Result<(), OutOfMemory>
    ensures { OnOk result (entries items.new.items ≡ numbered [] (entries items.old.items)) }
{
    let mut met = MetTags::new(alloc);
    for i in 0..items.len() {
        number_tag(alloc, &mut items[i], &mut met)?;
    }
    Ok(())
}

/// Numbers the made name of the item, if it has one.
fn number_tag(alloc: Global, item: &mut Item, met: &mut MetTags) -> Result<(), OutOfMemory>
    ensures number { OnOk result (entry_of item.new
        ≡ with_number met.old (entry_of item.old) (tag_in (entry_of item.old))) }
    ensures noted { OnOk result (met.new ≡ noted met.old (tag_in (entry_of item.old))) }
{
    match tag_of(item) {
        Some(tag) => {
            let number = met.meet(alloc, tag)?;
            item.spelling = Atom::Number(number as u64);
            Ok(())
        }
        None => Ok(()),
    }
}

/// The made name that the item stands for.
fn tag_of(item: &Item) -> Option<&str>
    ensures { option_map (λ tag. tag.now) result ≡ tag_in (entry_of item.now) }
{
    if is_tagged(item.kind) {
        text_of(&item.spelling)
    } else {
        None
    }
}

/// The text that the atom is.
fn text_of(atom: &Atom) -> Option<&str>
    ensures { option_map (λ text. text.now) result ≡ text_in (atom_doc atom.now) }
{
    match atom {
        Atom::Text(name) => Some(name.as_str()),
        Atom::Word(word) => Some(word.text()),
        Atom::Kind(kind) => Some(kind.name()),
        Atom::Binding(binding) => Some(binding.text()),
        _ => None,
    }
}

/// Whether items with the kind stand for a made name.
fn is_tagged(kind: ItemKind) -> bool
    ensures { result ≡ is_tagged kind }
{
    match kind {
        ItemKind::Made
        | ItemKind::PrivateMade
        | ItemKind::Keep
        | ItemKind::BindMade
        | ItemKind::InMade => true,
        _ => false,
    }
}
