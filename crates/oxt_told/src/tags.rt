//! The tags of names that are made for classes and keys, and the names by which classes are called.
ghost use Rattle.std.specs.Prelude.{◌≡◌, ◌<◌, IfOk, None, Some, length, option_map, slice_get};
ghost use Rattle.oxt_facts.specs.Told.{made_use, use_view};
ghost use Rattle.oxt_told.specs.Symbols.{number_in};
ghost use Rattle.oxt_told.specs.Tags.{callee, class_symbol, class_use, group_in, is_nameless, object_use, own_use, place_of_calls, symbol_use, tag_at, tag_for};
ghost use Rattle.oxt_names.specs.Names.{name_bytes};
ghost use Rattle.oxt_tree.specs.View.{doc_or_nil, node_doc};

use crate::lowering::Lowering;
use crate::symbols::{group_of, named_symbol};
use crate::told::Source;
use oxt_facts::told::{ToldName, ToldUse};
use oxt_grammar::field::Field;
use oxt_names::ids::{OutOfMemory, SymbolId};
use oxt_names::name::Name;
use oxt_scoping::scoping::Scoping;
use oxt_tree::tree::{Node, Part};
use std::alloc::Global;

/// The tag of the name that is made for the node of that number and that part of it.
pub fn tag_at(alloc: Global, node: u64, part: &str) -> Result<Name, OutOfMemory>
    ensures { IfOk result (λ tag. name_bytes tag ≡ tag_at node part.now) }
{
    let mut text = node.to_string(alloc)?;
    text.push_str(part)?;
    Name::from_string(text)
}

/// The same, where it is wanted.
pub fn tag_if(
    alloc: Global,
    part: &str,
    wanted: bool,
    node: u64,
) -> Result<Option<Name>, OutOfMemory>
    ensures { IfOk result (λ tag. option_map name_bytes tag ≡ tag_for part.now wanted (Some node)) }
{
    if wanted {
        Ok(Some(tag_at(alloc, node, part)?))
    } else {
        Ok(None)
    }
}

/// The tag for the key, where it is wanted.
pub fn tag_of_key(
    alloc: Global,
    part: &str,
    wanted: bool,
    key: Option<&Part>,
) -> Result<Option<Name>, OutOfMemory>
    ensures { IfOk result (λ tag. option_map name_bytes tag
        ≡ tag_for part.now wanted (number_in (doc_or_nil key.entry))) }
{
    match key {
        Some(Part::Node(key)) => tag_if(alloc, part, wanted, key.id.0),
        _ => Ok(None),
    }
}

/// The same name by which something is called.
pub fn share_use(name: &ToldUse) -> Result<ToldUse, OutOfMemory>
    ensures { IfOk result (λ shared. use_view shared ≡ use_view name.now) }
{
    match name {
        ToldUse::Name(name) => Ok(ToldUse::Name(ToldName {
            name: name.name.share()?,
            group: name.group,
        })),
        ToldUse::Made(tag) => Ok(ToldUse::Made(tag.share()?)),
    }
}

/// Whether the class has no name.
pub fn is_nameless(class: &Node) -> bool
    ensures { result ≡ is_nameless (node_doc class.now) }
{
    class.lacks(Field::Id)
}

/// The made name for the node of that number and that part of it.
fn made_name(alloc: Global, node: u64, part: &str) -> Result<Option<ToldUse>, OutOfMemory>
    ensures { IfOk result (λ name. option_map use_view name ≡ Some (made_use (tag_at node part.now))) }
{
    Ok(Some(ToldUse::Made(tag_at(alloc, node, part)?)))
}

/// The group of a name: its own, or the number of the class inside which it is meant.
fn group_in(inside: Option<u64>, own: Option<u64>) -> Option<u64>
    ensures { result ≡ group_in inside own }
{
    match inside {
        Some(class) => Some(class),
        None => own,
    }
}

/// The name of the symbol, which may be meant inside the class of that number.
fn symbol_use(
    scoping: &Scoping,
    inside: Option<u64>,
    symbol: SymbolId,
) -> Result<ToldUse, OutOfMemory>
    requires { symbol.0 < length scoping.now.symbols }
    ensures { IfOk result (λ name. option_map (λ y. symbol_use inside y) (slice_get scoping.now.symbols symbol.0)
        ≡ Some (use_view name)) }
{
    let group = group_in(inside, group_of(scoping, symbol));
    Ok(ToldUse::Name(ToldName {
        name: scoping.symbol_name(symbol).share()?,
        group,
    }))
}

/// The name that the class has in the source.
#[tactic(auto, using(crate::proofs::Naming::uses))]
fn source_use(
    scoping: &Scoping,
    inside: Option<u64>,
    class: &Node,
) -> Result<Option<ToldUse>, OutOfMemory>
    ensures { IfOk result (λ name. option_map use_view name
        ≡ option_map (symbol_use inside) (class_symbol scoping.now (node_doc class.now))) }
{
    match named_symbol(scoping, class) {
        Some(symbol) => Ok(Some(symbol_use(scoping, inside, symbol)?)),
        None => Ok(None),
    }
}

/// The name by which the class is called behind it, or in the class of that number.
pub fn class_use(
    source: &Source,
    inside: Option<u64>,
    class: &Node,
) -> Result<Option<ToldUse>, OutOfMemory>
    ensures { IfOk result (λ name. option_map use_view name
        ≡ class_use source.now.scoping.now inside class.now.id.0 (node_doc class.now)) }
{
    if is_nameless(class) {
        made_name(source.alloc, class.id.0, "d")
    } else {
        source_use(source.scoping, inside, class)
    }
}

/// The name that the class has: a nameless one that nothing calls takes one of its own.
pub fn own_use(
    source: &Source,
    lowering: Lowering,
    class: &Node,
) -> Result<Option<ToldUse>, OutOfMemory>
    ensures { IfOk result (λ name. option_map use_view name
        ≡ own_use source.now.scoping.now lowering class.now.id.0 (node_doc class.now)) }
{
    if is_nameless(class) && !(lowering.is_decorated || lowering.has_calls) {
        made_name(source.alloc, class.id.0, "c")
    } else {
        class_use(source, None, class)
    }
}

/// The name by which the calls of the class's elements call it: where they stand in a decorated class, its inner name.
pub fn callee(
    source: &Source,
    lowering: Lowering,
    class: &Node,
) -> Result<Option<ToldUse>, OutOfMemory>
    ensures { IfOk result (λ name. option_map use_view name
        ≡ callee source.now.scoping.now lowering class.now.id.0 (node_doc class.now)) }
{
    if lowering.has_calls {
        class_use(source, place_of_calls(lowering, class), class)
    } else {
        Ok(None)
    }
}

/// The number of the class, where the calls of its elements stand in it and it is decorated.
fn place_of_calls(lowering: Lowering, class: &Node) -> Option<u64>
    ensures { result ≡ place_of_calls lowering class.now.id.0 }
{
    if lowering.is_decorated && lowering.is_inside {
        Some(class.id.0)
    } else {
        None
    }
}

/// The name of the object on which the class's static accessors keep their values: its alias, or else its name.
pub fn object_use(
    source: &Source,
    lowering: Lowering,
    class: &Node,
) -> Result<Option<ToldUse>, OutOfMemory>
    ensures { IfOk result (λ name. option_map use_view name
        ≡ object_use source.now.scoping.now lowering class.now.id.0 (node_doc class.now)) }
{
    if !lowering.has_storage {
        Ok(None)
    } else if lowering.has_alias {
        made_name(source.alloc, class.id.0, "a")
    } else {
        own_use(source, lowering, class)
    }
}
