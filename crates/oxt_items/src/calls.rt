//! The effect word of the calls that decorators give: those of the elements of a class, the names by which it is called, and the
//! elements themselves.
ghost use Rattle.std.specs.Prelude.{◌≡◌, [], ◌++◌, OnOk, false, option_map};
ghost use Rattle.oxt_facts.specs.Entry.{entries, spelled};
ghost use Rattle.oxt_facts.specs.Told.{calling_view, use_view};
ghost use Rattle.oxt_tree.specs.Doc.{flag, text};
ghost use Rattle.oxt_names.specs.Names.{name_bytes};
ghost use Rattle.oxt_tree.specs.View.{docs_in};
ghost use Rattle.oxt_items.specs.Calls.{alias_word, description_word, inner_word, kept_word, receiver_word, tag_of, used_word};
ghost use Rattle.oxt_items.specs.Helpers.{helper_start};

use crate::enums::put_use;
use crate::metadata::put_void;
use crate::modules::{put_call_start, put_free};
use crate::namespaces::put_made;
use crate::way::Way;
use oxt_facts::item::{Atom, Item, ItemKind};
use oxt_facts::told::{ToldCall, ToldUse};
use oxt_forms::put::{first_atom, put_lone, put_owned, put_spelled, put_start};
use oxt_grammar::kind::Kind;
use oxt_names::ids::OutOfMemory;
use oxt_names::name::Name;
use oxt_tree::tree::Node;
use std::alloc::Global;

/// Puts what is called by that name.
pub fn put_used(alloc: Global, name: &ToldUse, out: &mut Vec<Item>) -> Result<(), OutOfMemory>
    ensures { OnOk result (entries out.new.items
        ≡ entries out.old.items ++ used_word (use_view name.now)) }
{
    match name {
        ToldUse::Name(name) => put_use(alloc, &name.name, name.group, out),
        ToldUse::Made(tag) => put_made(alloc, tag, out),
    }
}

/// Puts a name that is read as the made one of that tag, read that way.
pub fn put_alias(
    alloc: Global,
    tag: &Name,
    way: Way,
    out: &mut Vec<Item>,
) -> Result<(), OutOfMemory>
    ensures { OnOk result (entries out.new.items
        ≡ entries out.old.items ++ alias_word (name_bytes tag.now) way) }
{
    match way {
        Way::Keyed => {
            put_made(alloc, tag, out)?;
            put_lone(alloc, ItemKind::Key, out)
        }
        Way::KeyText => Ok(()),
        _ => put_made(alloc, tag, out),
    }
}

/// Puts a name that means that group, read that way.
pub fn put_inner(
    alloc: Global,
    group: u64,
    way: Way,
    node: &Node,
    out: &mut Vec<Item>,
) -> Result<(), OutOfMemory>
    ensures { OnOk result (entries out.new.items
        ≡ entries out.old.items ++ inner_word group way (docs_in node.now.parts.items)) }
{
    match way {
        Way::Keyed => {
            put_inner_use(alloc, group, node, out)?;
            put_lone(alloc, ItemKind::Key, out)
        }
        Way::KeyText => Ok(()),
        _ => put_inner_use(alloc, group, node, out),
    }
}

/// Puts the use of the name, which means that group.
fn put_inner_use(
    alloc: Global,
    group: u64,
    node: &Node,
    out: &mut Vec<Item>,
) -> Result<(), OutOfMemory>
    ensures { OnOk result (entries out.new.items
        ≡ entries out.old.items ++ inner_word group Way.Whole (docs_in node.now.parts.items)) }
{
    let name = first_atom(node)?;
    put_owned(Some(group), ItemKind::Name, name, Vec::new(alloc), out)
}

/// Puts that the made name of that tag then holds the value.
pub fn put_keep(alloc: Global, tag: &Name, out: &mut Vec<Item>) -> Result<(), OutOfMemory>
    ensures { OnOk result (entries out.new.items
        ≡ entries out.old.items ++ spelled ItemKind.Keep (text (name_bytes tag.now))) }
{
    put_spelled(alloc, ItemKind::Keep, Atom::Text(tag.share()?), out)
}

/// The same, if one does.
pub fn put_kept(alloc: Global, tag: Option<&Name>, out: &mut Vec<Item>) -> Result<(), OutOfMemory>
    ensures { OnOk result (entries out.new.items
        ≡ entries out.old.items ++ kept_word (option_map (λ tag. name_bytes tag.now) tag.entry)) }
{
    match tag {
        Some(tag) => put_keep(alloc, tag, out),
        None => Ok(()),
    }
}

/// Puts the start of a call of that function of `babelHelpers`.
pub fn put_helper_start(alloc: Global, helper: &str, out: &mut Vec<Item>) -> Result<(), OutOfMemory>
    ensures { OnOk result (entries out.new.items ≡ entries out.old.items ++ helper_start helper.now) }
{
    put_call_start(alloc, out)?;
    put_free(alloc, "babelHelpers", out)?;
    put_member(alloc, helper, out)
}

/// Puts the read of the member of that name.
pub fn put_member(alloc: Global, name: &str, out: &mut Vec<Item>) -> Result<(), OutOfMemory>
    ensures { OnOk result (entries out.new.items ≡ entries out.old.items
        ++ (spelled ItemKind.Str (text name.now) ++ spelled ItemKind.Get (flag false))) }
{
    put_spelled(
        alloc,
        ItemKind::Str,
        Atom::Text(Name::new(alloc, name)?),
        out,
    )?;
    put_spelled(alloc, ItemKind::Get, Atom::Flag(false), out)
}

/// Puts the object that has an element: the class itself, or that of its instances.
pub fn put_receiver(
    alloc: Global,
    class: &ToldUse,
    is_static: bool,
    out: &mut Vec<Item>,
) -> Result<(), OutOfMemory>
    ensures { OnOk result (entries out.new.items
        ≡ entries out.old.items ++ receiver_word (use_view class.now) is_static) }
{
    put_used(alloc, class, out)?;
    if is_static {
        return Ok(());
    }
    put_member(alloc, "prototype", out)
}

/// Puts the empty text.
pub fn put_no_text(alloc: Global, out: &mut Vec<Item>) -> Result<(), OutOfMemory>
    ensures { OnOk result (entries out.new.items ≡ entries out.old.items ++ spelled ItemKind.Str (text [])) }
{
    put_spelled(alloc, ItemKind::Str, Atom::Text(Name::new(alloc, "")?), out)
}

/// Puts the description of an element: `void 0` of a field, and `null` of others.
pub fn put_description(
    alloc: Global,
    is_field: bool,
    out: &mut Vec<Item>,
) -> Result<(), OutOfMemory>
    ensures { OnOk result (entries out.new.items ≡ entries out.old.items ++ description_word is_field) }
{
    if is_field {
        return put_void(alloc, out);
    }
    put_start(Kind::NullLiteral, Vec::new(alloc), out)?;
    put_lone(alloc, ItemKind::Close, out)
}

/// The tag by which the key of an element that gives such a call is kept.
pub fn tag_of(call: &Option<ToldCall>) -> Option<&Name>
    ensures { option_map (λ tag. name_bytes tag.now) result ≡ tag_of (option_map calling_view call.now) }
{
    match call {
        Some(call) => call.tag.as_ref(),
        None => None,
    }
}
