//! The effect word of classes that are decorated, or whose elements are, with what is called behind them.
ghost use Rattle.std.specs.Prelude.{◌≡◌, ◌∷◌, [], ◌++◌, OnOk, Some, codes, false, option_map};
ghost use Rattle.oxt_facts.specs.Entry.{binding_text, entries, lone, owned};
ghost use Rattle.oxt_facts.specs.Told.{use_view};
ghost use Rattle.oxt_forms.specs.Details.{start};
ghost use Rattle.oxt_tree.specs.Doc.{flag, text};
ghost use Rattle.oxt_names.specs.Names.{name_bytes};
ghost use Rattle.oxt_items.specs.Calls.{used_word};
ghost use Rattle.oxt_items.specs.Decorated.{exported_behind, exported_name, exported_use, inner_bind, inner_made, inner_used, kept_there, made_bind};
ghost use Rattle.oxt_items.specs.Enums.{use_word};

use crate::calls::{put_kept, put_used};
use crate::enums::{put_operation, put_use};
use oxt_facts::item::{Atom, Binding, Item, ItemKind};
use oxt_facts::told::{ToldDecorated, ToldName, ToldUse};
use oxt_forms::put::{put_detailed, put_lone, put_owned, put_start};
use oxt_grammar::kind::Kind;
use oxt_names::ids::OutOfMemory;
use oxt_names::name::Name;
use std::alloc::Global;
use std::vec;

/// Puts the made name of that tag, declared as that, and exported or not.
pub fn put_made_bind(
    alloc: Global,
    binding: Binding,
    exported: bool,
    tag: &Name,
    out: &mut Vec<Item>,
) -> Result<(), OutOfMemory>
    ensures { OnOk result (entries out.new.items
        ≡ entries out.old.items ++ made_bind binding exported (name_bytes tag.now)) }
{
    let details = vec![in alloc; Atom::Binding(binding), Atom::Flag(exported)]?;
    put_detailed(ItemKind::BindMade, Atom::Text(tag.share()?), details, out)
}

/// Puts the made name in a class, if it has one there.
fn put_inner_made(
    alloc: Global,
    inner: &Option<Name>,
    out: &mut Vec<Item>,
) -> Result<(), OutOfMemory>
    ensures { OnOk result (entries out.new.items
        ≡ entries out.old.items ++ inner_made (option_map name_bytes inner.now)) }
{
    match inner {
        Some(tag) => put_made_bind(alloc, Binding::Inner, false, tag, out),
        None => put_lone(alloc, ItemKind::Nil, out),
    }
}

/// Puts the name in a class, which is that one, with that group.
fn put_inner_named(
    alloc: Global,
    name: &Name,
    group: u64,
    out: &mut Vec<Item>,
) -> Result<(), OutOfMemory>
    ensures { OnOk result (entries out.new.items ≡ entries out.old.items
        ++ owned (Some group) ItemKind.Bind (text (name_bytes name.now)) (text (binding_text Binding.Inner) ∷ flag false ∷ [])) }
{
    let details = vec![in alloc; Atom::Binding(Binding::Inner), Atom::Flag(false)]?;
    let name = Atom::Text(name.share()?);
    put_owned(Some(group), ItemKind::Bind, name, details, out)
}

/// Puts the name in a class that is called so.
fn put_inner_used(
    alloc: Global,
    name: &ToldUse,
    inner: &Option<Name>,
    group: u64,
    out: &mut Vec<Item>,
) -> Result<(), OutOfMemory>
    ensures { OnOk result (entries out.new.items ≡ entries out.old.items
        ++ inner_used (use_view name.now) (option_map name_bytes inner.now) group) }
{
    match name {
        ToldUse::Name(name) => put_inner_named(alloc, &name.name, group, out),
        ToldUse::Made(_) => put_inner_made(alloc, inner, out),
    }
}

/// Puts the name in the class.
pub fn put_inner_bind(
    alloc: Global,
    class: &ToldDecorated,
    out: &mut Vec<Item>,
) -> Result<(), OutOfMemory>
    ensures { OnOk result (entries out.new.items ≡ entries out.old.items
        ++ inner_bind (option_map use_view class.now.name) (option_map name_bytes class.now.inner) class.now.number) }
{
    match &class.name {
        Some(name) => put_inner_used(alloc, name, &class.inner, class.number, out),
        None => put_inner_made(alloc, &class.inner, out),
    }
}

/// Puts that a made name then holds the class, where that is due where it is declared.
pub fn put_kept_there(
    alloc: Global,
    keeps: bool,
    alias: &Option<Name>,
    out: &mut Vec<Item>,
) -> Result<(), OutOfMemory>
    ensures { OnOk result (entries out.new.items
        ≡ entries out.old.items ++ kept_there keeps (option_map name_bytes alias.now)) }
{
    if keeps {
        return put_kept(alloc, alias.as_ref(), out);
    }
    Ok(())
}

/// Puts what is called behind a class: the decorators of its elements, and then its own.
pub fn put_calls(
    of_elements: Vec<Item>,
    own: Vec<Item>,
    out: &mut Vec<Item>,
) -> Result<(), OutOfMemory>
    ensures { OnOk result (entries out.new.items
        ≡ entries out.old.items ++ (entries of_elements.items ++ entries own.items)) }
{
    put_all(of_elements, out)?;
    put_all(own, out)
}

/// Puts the items behind those that were put.
#[tactic(auto, using(crate::proofs::Joined::joined))]
fn put_all(items: Vec<Item>, out: &mut Vec<Item>) -> Result<(), OutOfMemory>
    ensures { OnOk result (entries out.new.items ≡ entries out.old.items ++ entries items.items) }
{
    let mut items = items;
    out.append(&mut items)?;
    Ok(())
}

/// Puts the start of an assignment to the name.
pub fn put_assignment_start(
    alloc: Global,
    name: &ToldName,
    out: &mut Vec<Item>,
) -> Result<(), OutOfMemory>
    ensures { OnOk result (entries out.new.items ≡ entries out.old.items
        ++ (start Kind.AssignmentExpression (text (codes "=") ∷ []) ++ use_word (name_bytes name.now.name) name.now.group)) }
{
    put_operation(alloc, Kind::AssignmentExpression, "=", out)?;
    put_use(alloc, &name.name, name.group, out)
}

/// Puts that the name is exported behind its declaration.
fn put_exported_name(alloc: Global, name: &ToldName, out: &mut Vec<Item>) -> Result<(), OutOfMemory>
    ensures { OnOk result (entries out.new.items ≡ entries out.old.items
        ++ exported_name (name_bytes name.now.name) name.now.group) }
{
    put_start(Kind::ExportNamedDeclaration, Vec::new(alloc), out)?;
    put_start(Kind::ExportSpecifier, Vec::new(alloc), out)?;
    put_use(alloc, &name.name, name.group, out)?;
    put_operation(alloc, Kind::IdentifierName, name.name.as_str(), out)?;
    put_lone(alloc, ItemKind::Close, out)?;
    put_lone(alloc, ItemKind::Close, out)?;
    put_lone(alloc, ItemKind::Close, out)
}

/// Puts the same of the name by which a class is called, if that is written.
fn put_exported_use(alloc: Global, name: &ToldUse, out: &mut Vec<Item>) -> Result<(), OutOfMemory>
    ensures { OnOk result (entries out.new.items
        ≡ entries out.old.items ++ exported_use (use_view name.now)) }
{
    match name {
        ToldUse::Name(name) => put_exported_name(alloc, name, out),
        ToldUse::Made(_) => Ok(()),
    }
}

/// Puts the same of a class, if it is exported.
pub fn put_exported_behind(
    alloc: Global,
    exported: bool,
    name: &Option<ToldUse>,
    out: &mut Vec<Item>,
) -> Result<(), OutOfMemory>
    ensures { OnOk result (entries out.new.items
        ≡ entries out.old.items ++ exported_behind exported (option_map use_view name.now)) }
{
    match name {
        Some(name) if exported => put_exported_use(alloc, name, out),
        _ => Ok(()),
    }
}

/// Puts the default export of what is called by that name.
pub fn put_default_name(
    alloc: Global,
    name: &ToldUse,
    out: &mut Vec<Item>,
) -> Result<(), OutOfMemory>
    ensures { OnOk result (entries out.new.items ≡ entries out.old.items
        ++ (start Kind.ExportDefaultDeclaration [] ++ (used_word (use_view name.now) ++ lone ItemKind.Close))) }
{
    put_start(Kind::ExportDefaultDeclaration, Vec::new(alloc), out)?;
    put_used(alloc, name, out)?;
    put_lone(alloc, ItemKind::Close, out)
}
