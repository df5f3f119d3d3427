//! The effect word of classes that are decorated, or whose elements are, with what is called behind them.
ghost use Rattle.std.specs.Prelude.{◌≡◌, ◌++◌, OnOk, Some, false, option_map};
ghost use Rattle.oxt_facts.specs.Entry.{entries};
ghost use Rattle.oxt_facts.specs.Told.{decorating_view, metadata_view, use_view};
ghost use Rattle.oxt_names.specs.Names.{name_bytes};
ghost use Rattle.oxt_items.specs.Decorated.{assigned_call, calls_behind, class_bind, class_call, class_list, declared_class, decorated_class, decorated_word, default_class_word, element_calls, own_call, set_class, titled_class, titled_word, used_bind};
ghost use Rattle.oxt_word.specs.Word.{each_field};

use crate::class::put_class_parts;
use crate::word::put_field;
use oxt_facts::facts::Facts;
use oxt_facts::item::{Binding, Item, ItemKind};
use oxt_facts::told::{ToldDecorated, ToldMetadata, ToldUse};
use oxt_forms::put::{put_lone, put_start};
use oxt_grammar::field::Field;
use oxt_grammar::kind::Kind;
use oxt_items::calls::{put_helper_start, put_keep, put_kept, put_used};
use oxt_items::decorated::{
    put_assignment_start, put_calls, put_default_name, put_exported_behind, put_inner_bind,
    put_kept_there, put_made_bind,
};
use oxt_items::enums::is_exported;
use oxt_items::metadata::put_metadata;
use oxt_items::way::Way;
use oxt_names::ids::OutOfMemory;
use oxt_names::name::Name;
use oxt_tree::tree::Node;

/// Puts the name of a class that is called so, declared as that, and exported or not.
#[cycle(word)]
fn put_used_bind(
    facts: &Facts,
    name: &ToldUse,
    binding: Binding,
    exported: bool,
    node: &Node,
    out: &mut Vec<Item>,
) -> Result<(), OutOfMemory>
    ensures { OnOk result (entries out.new.items ≡ entries out.old.items
        ++ used_bind (use_view name.now) binding exported (each_field facts.now node.now)) }
{
    match name {
        ToldUse::Name(_) => {
            put_field(facts, node, Field::Id, Way::Bound(binding, exported), out)
        }
        ToldUse::Made(tag) => put_made_bind(facts.memory(), binding, exported, tag, out),
    }
}

/// Puts the name of a class, declared as that, and exported or not.
#[cycle(word)]
fn put_class_bind(
    facts: &Facts,
    name: &Option<ToldUse>,
    binding: Binding,
    exported: bool,
    node: &Node,
    out: &mut Vec<Item>,
) -> Result<(), OutOfMemory>
    ensures { OnOk result (entries out.new.items ≡ entries out.old.items
        ++ class_bind (option_map use_view name.now) binding exported (each_field facts.now node.now)) }
{
    match name {
        Some(name) => put_used_bind(facts, name, binding, exported, node, out),
        None => put_field(facts, node, Field::Id, Way::Bound(binding, exported), out),
    }
}

/// Puts the calls of the decorators of the elements of a class, if there are any.
#[cycle(word)]
fn put_element_calls(
    facts: &Facts,
    has_calls: bool,
    node: &Node,
    out: &mut Vec<Item>,
) -> Result<(), OutOfMemory>
    ensures { OnOk result (entries out.new.items
        ≡ entries out.old.items ++ element_calls has_calls (each_field facts.now node.now)) }
{
    if has_calls {
        return put_field(facts, node, Field::Body, Way::Calls, out);
    }
    Ok(())
}

/// Puts the same behind the class, where they belong to it.
#[cycle(word)]
fn put_calls_behind(
    facts: &Facts,
    has_calls: bool,
    way: Way,
    node: &Node,
    out: &mut Vec<Item>,
) -> Result<(), OutOfMemory>
    ensures { OnOk result (entries out.new.items
        ≡ entries out.old.items ++ calls_behind has_calls way (each_field facts.now node.now)) }
{
    match way {
        Way::Uncalled => Ok(()),
        _ => put_element_calls(facts, has_calls, node, out),
    }
}

/// Puts a class that is not decorated itself, exported or not.
#[cycle(word)]
fn put_declared(
    facts: &Facts,
    name: &Option<ToldUse>,
    exported: bool,
    node: &Node,
    out: &mut Vec<Item>,
) -> Result<(), OutOfMemory>
    ensures { OnOk result (entries out.new.items ≡ entries out.old.items
        ++ declared_class (option_map use_view name.now) exported (each_field facts.now node.now)) }
{
    put_start(Kind::ClassDeclaration, Vec::new(facts.memory()), out)?;
    put_class_parts(facts, node, out)?;
    put_lone(facts.memory(), ItemKind::Close, out)?;
    put_class_bind(facts, name, Binding::Class, exported, node, out)
}

/// Puts a decorated class, which is set.
#[cycle(word)]
fn put_set_class(
    facts: &Facts,
    class: &ToldDecorated,
    node: &Node,
    out: &mut Vec<Item>,
) -> Result<(), OutOfMemory>
    ensures { OnOk result (entries out.new.items ≡ entries out.old.items
        ++ set_class (decorating_view class.now) (each_field facts.now node.now)) }
{
    let alloc = facts.memory();
    put_start(Kind::ClassExpression, Vec::new(alloc), out)?;
    put_inner_bind(alloc, class, out)?;
    put_class_parts(facts, node, out)?;
    put_lone(alloc, ItemKind::Close, out)?;
    put_kept_there(alloc, class.keeps_alias, &class.alias, out)?;
    put_lone(alloc, ItemKind::Set, out)?;
    put_class_bind(facts, &class.name, Binding::Let, false, node, out)
}

/// Puts the list of the decorators of a class and of the parameters of its constructor, with that metadata last.
#[cycle(word)]
fn put_class_list(
    facts: &Facts,
    metadata: &ToldMetadata,
    node: &Node,
    out: &mut Vec<Item>,
) -> Result<(), OutOfMemory>
    ensures { OnOk result (entries out.new.items ≡ entries out.old.items
        ++ class_list facts.now (metadata_view metadata.now) (each_field facts.now node.now)) }
{
    put_start(Kind::ArrayExpression, Vec::new(facts.memory()), out)?;
    put_field(facts, node, Field::Decorators, Way::Applied, out)?;
    put_field(facts, node, Field::Body, Way::Injected, out)?;
    put_metadata(facts, metadata, out)?;
    put_lone(facts.memory(), ItemKind::Close, out)
}

/// Puts the call of these.
#[cycle(word)]
fn put_class_call(
    facts: &Facts,
    metadata: &ToldMetadata,
    name: &ToldUse,
    node: &Node,
    out: &mut Vec<Item>,
) -> Result<(), OutOfMemory>
    ensures { OnOk result (entries out.new.items ≡ entries out.old.items
        ++ class_call facts.now (metadata_view metadata.now) (use_view name.now) (each_field facts.now node.now)) }
{
    let alloc = facts.memory();
    put_helper_start(alloc, "decorate", out)?;
    put_class_list(facts, metadata, node, out)?;
    put_used(alloc, name, out)?;
    put_lone(alloc, ItemKind::Close, out)
}

/// Puts that the call of its decorators is assigned to the name of a class.
#[cycle(word)]
fn put_assigned(
    facts: &Facts,
    metadata: &ToldMetadata,
    used: &ToldUse,
    alias: &Option<Name>,
    node: &Node,
    out: &mut Vec<Item>,
) -> Result<(), OutOfMemory>
    ensures { OnOk result (entries out.new.items ≡ entries out.old.items
        ++ assigned_call facts.now (metadata_view metadata.now) (use_view used.now) (option_map name_bytes alias.now) (each_field facts.now node.now)) }
{
    let alloc = facts.memory();
    match used {
        ToldUse::Name(name) => {
            put_assignment_start(alloc, name, out)?;
            put_class_call(facts, metadata, used, node, out)?;
            put_kept(alloc, alias.as_ref(), out)?;
            put_lone(alloc, ItemKind::Close, out)?;
            put_lone(alloc, ItemKind::Eval, out)
        }
        ToldUse::Made(tag) => {
            put_class_call(facts, metadata, used, node, out)?;
            put_kept(alloc, alias.as_ref(), out)?;
            put_keep(alloc, tag, out)
        }
    }
}

/// Puts the same, if the class is called by a name.
#[cycle(word)]
fn put_own_call(
    facts: &Facts,
    class: &ToldDecorated,
    node: &Node,
    out: &mut Vec<Item>,
) -> Result<(), OutOfMemory>
    ensures { OnOk result (entries out.new.items ≡ entries out.old.items
        ++ own_call facts.now (metadata_view class.now.metadata) (option_map use_view class.now.name)
        (option_map name_bytes class.now.alias) (each_field facts.now node.now)) }
{
    match &class.name {
        Some(name) => put_assigned(facts, &class.metadata, name, &class.alias, node, out),
        None => Ok(()),
    }
}

/// Puts a decorated class, with what is called behind it.
#[cycle(word)]
fn put_decorated_class(
    facts: &Facts,
    class: &ToldDecorated,
    way: Way,
    node: &Node,
    out: &mut Vec<Item>,
) -> Result<(), OutOfMemory>
    ensures { OnOk result (entries out.new.items ≡ entries out.old.items
        ++ decorated_class facts.now (decorating_view class.now) way (each_field facts.now node.now)) }
{
    put_set_class(facts, class, node, out)?;
    let mut of_elements = Vec::new(facts.memory());
    put_calls_behind(facts, class.has_calls, way, node, &mut of_elements)?;
    let mut own = Vec::new(facts.memory());
    put_own_call(facts, class, node, &mut own)?;
    put_calls(of_elements, own, out)?;
    put_exported_behind(facts.memory(), is_exported(way), &class.name, out)
}

/// Puts a class, with what is called behind it, or these calls alone, read that way.
#[cycle(word)]
pub(crate) fn put_decorated(
    facts: &Facts,
    class: &ToldDecorated,
    way: Way,
    node: &Node,
    out: &mut Vec<Item>,
) -> Result<(), OutOfMemory>
    ensures { OnOk result (entries out.new.items ≡ entries out.old.items
        ++ decorated_word facts.now (decorating_view class.now) way (each_field facts.now node.now)) }
{
    match way {
        Way::Calls => put_element_calls(facts, class.has_calls, node, out),
        _ if class.is_decorated => put_decorated_class(facts, class, way, node, out),
        _ => {
            put_declared(facts, &class.name, is_exported(way), node, out)?;
            put_calls_behind(facts, class.has_calls, way, node, out)
        }
    }
}

/// Puts a nameless expression of a class, which has the made name of that tag inside, read that way.
#[cycle(word)]
pub(crate) fn put_titled(
    facts: &Facts,
    tag: &Name,
    way: Way,
    node: &Node,
    out: &mut Vec<Item>,
) -> Result<(), OutOfMemory>
    ensures { OnOk result (entries out.new.items
        ≡ entries out.old.items ++ titled_word (name_bytes tag.now) way (each_field facts.now node.now)) }
{
    match way {
        Way::KeyText => Ok(()),
        Way::Keyed => {
            put_titled_class(facts, tag, node, out)?;
            put_lone(facts.memory(), ItemKind::Key, out)
        }
        _ => put_titled_class(facts, tag, node, out),
    }
}

/// Puts a nameless expression of a class, which has the made name of that tag inside.
#[cycle(word)]
fn put_titled_class(
    facts: &Facts,
    tag: &Name,
    node: &Node,
    out: &mut Vec<Item>,
) -> Result<(), OutOfMemory>
    ensures { OnOk result (entries out.new.items
        ≡ entries out.old.items ++ titled_class (name_bytes tag.now) (each_field facts.now node.now)) }
{
    put_start(Kind::ClassExpression, Vec::new(facts.memory()), out)?;
    put_made_bind(facts.memory(), Binding::Inner, false, tag, out)?;
    put_class_parts(facts, node, out)?;
    put_lone(facts.memory(), ItemKind::Close, out)
}

/// Puts the default export of a class that is called by that name, and decorated itself or not.
#[cycle(word)]
pub(crate) fn put_default_class(
    facts: &Facts,
    is_decorated: bool,
    name: &ToldUse,
    node: &Node,
    out: &mut Vec<Item>,
) -> Result<(), OutOfMemory>
    ensures { OnOk result (entries out.new.items ≡ entries out.old.items
        ++ default_class_word is_decorated (use_view name.now) (each_field facts.now node.now)) }
{
    if is_decorated {
        put_field(facts, node, Field::Declaration, Way::Whole, out)?;
        return put_default_name(facts.memory(), name, out);
    }
    put_start(
        Kind::ExportDefaultDeclaration,
        Vec::new(facts.memory()),
        out,
    )?;
    put_field(facts, node, Field::Declaration, Way::Uncalled, out)?;
    put_lone(facts.memory(), ItemKind::Close, out)?;
    put_field(facts, node, Field::Declaration, Way::Calls, out)
}
