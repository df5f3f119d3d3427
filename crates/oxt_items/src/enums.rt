//! The effect word of a block of an enum, of its members, of the bare names of members and of what is inlined.
ghost use Rattle.std.specs.Prelude.{◌≡◌, ◌∷◌, [], ◌++◌, OnOk, Some};
ghost use Rattle.oxt_facts.specs.Told.{block_view, member_view};
ghost use Rattle.oxt_facts.specs.Entry.{atom_doc, entries, owned, spelled};
ghost use Rattle.oxt_facts.specs.Facts.{group_here};
ghost use Rattle.oxt_names.specs.Constant.{constant_view};
ghost use Rattle.oxt_tree.specs.Doc.{flag, text};
ghost use Rattle.oxt_names.specs.Names.{name_bytes};
ghost use Rattle.oxt_tree.specs.View.{docs_in};
ghost use Rattle.oxt_items.specs.Enums.{bare_word, block_binding, following_word, inlined_word, is_exported, is_key, is_var, literal_word, number_literal, object_of, owner_word, read_word, return_word, reverse_owner, reverse_put, use_word};
ghost use Rattle.oxt_forms.specs.Details.{start};

use crate::way::Way;
use oxt_facts::facts::Facts;
use oxt_facts::item::{Atom, Binding, Item, ItemKind};
use oxt_facts::told::{ToldBlock, ToldMember};
use oxt_forms::put::{first_atom, put_lone, put_owned, put_spelled, put_start};
use oxt_grammar::kind::Kind;
use oxt_names::constant::ConstantValue;
use oxt_names::ids::OutOfMemory;
use oxt_names::name::Name;
use oxt_tree::tree::Node;
use std::alloc::Global;
use std::vec;

/// Whether what is read that way is exported.
pub fn is_exported(way: Way) -> bool
    ensures { result ≡ is_exported way }
{
    match way {
        Way::Exported => true,
        _ => false,
    }
}

/// What a first block declares the enum's name as.
pub fn block_binding(block: &ToldBlock, exported: bool) -> Binding
    ensures { result ≡ block_binding (block_view block.now) exported }
{
    if is_var(block, exported) {
        Binding::Var
    } else {
        Binding::Let
    }
}

/// Whether the enum is declared as `var`.
fn is_var(block: &ToldBlock, exported: bool) -> bool
    ensures { result ≡ is_var (block_view block.now) exported }
{
    block.is_top && !exported
}

/// Puts the object that the block fills.
pub fn put_object_of(
    alloc: Global,
    block: &ToldBlock,
    exported: bool,
    out: &mut Vec<Item>,
) -> Result<(), OutOfMemory>
    ensures { OnOk result (entries out.new.items
        ≡ entries out.old.items ++ object_of (block_view block.now) exported) }
{
    if block.is_first && !is_var(block, exported) {
        return put_lone(alloc, ItemKind::New, out);
    }
    put_use(alloc, &block.name, block.group, out)?;
    put_lone(alloc, ItemKind::Found, out)
}

/// Puts the entry into the function that fills it.
pub fn put_entry_of(
    alloc: Global,
    block: &ToldBlock,
    out: &mut Vec<Item>,
) -> Result<(), OutOfMemory>
    ensures { OnOk result (entries out.new.items ≡ entries out.old.items
        ++ owned (Some block.now.node) ItemKind.In (text (name_bytes block.now.name)) (flag block.now.is_pure ∷ [])) }
{
    let details = vec![in alloc; Atom::Flag(block.is_pure)]?;
    let name = Atom::Text(block.name.share()?);
    put_owned(Some(block.node), ItemKind::In, name, details, out)
}

/// Puts the return of the name, which is the parameter of the block's function.
pub fn put_return(alloc: Global, block: &ToldBlock, out: &mut Vec<Item>) -> Result<(), OutOfMemory>
    ensures { OnOk result (entries out.new.items
        ≡ entries out.old.items ++ return_word (block_view block.now)) }
{
    put_start(Kind::ReturnStatement, Vec::new(alloc), out)?;
    put_use(alloc, &block.name, Some(block.node), out)?;
    put_lone(alloc, ItemKind::Close, out)
}

/// Puts the start of an operation, or of another node with that text.
pub fn put_operation(
    alloc: Global,
    kind: Kind,
    operator: &str,
    out: &mut Vec<Item>,
) -> Result<(), OutOfMemory>
    ensures { OnOk result (entries out.new.items
        ≡ entries out.old.items ++ start kind (text operator.now ∷ [])) }
{
    let details = vec![in alloc; Atom::Text(Name::new(alloc, operator)?)]?;
    put_start(kind, details, out)
}

/// Puts the use of the name, which means that group.
pub fn put_use(
    alloc: Global,
    name: &Name,
    group: Option<u64>,
    out: &mut Vec<Item>,
) -> Result<(), OutOfMemory>
    ensures { OnOk result (entries out.new.items
        ≡ entries out.old.items ++ use_word (name_bytes name.now) group) }
{
    let name = Atom::Text(name.share()?);
    put_owned(group, ItemKind::Name, name, Vec::new(alloc), out)
}

/// Puts the use of the enum's own name inside the function of the member's block.
pub fn put_owner(alloc: Global, member: &ToldMember, out: &mut Vec<Item>) -> Result<(), OutOfMemory>
    ensures { OnOk result (entries out.new.items
        ≡ entries out.old.items ++ owner_word (member_view member.now)) }
{
    put_use(alloc, &member.owner, Some(member.block), out)
}

/// Puts the same before a value by which the member can be looked up.
pub fn put_reverse_owner(
    alloc: Global,
    member: &ToldMember,
    out: &mut Vec<Item>,
) -> Result<(), OutOfMemory>
    ensures { OnOk result (entries out.new.items
        ≡ entries out.old.items ++ reverse_owner (member_view member.now)) }
{
    if member.is_reversed {
        return put_owner(alloc, member, out);
    }
    Ok(())
}

/// Puts the write of the member's name under that value.
pub fn put_reverse(
    alloc: Global,
    member: &ToldMember,
    out: &mut Vec<Item>,
) -> Result<(), OutOfMemory>
    ensures { OnOk result (entries out.new.items
        ≡ entries out.old.items ++ reverse_put (member_view member.now)) }
{
    if !member.is_reversed {
        return Ok(());
    }
    put_text(alloc, &member.name, out)?;
    put_lone(alloc, ItemKind::Put, out)
}

/// Puts a text.
pub fn put_text(alloc: Global, name: &Name, out: &mut Vec<Item>) -> Result<(), OutOfMemory>
    ensures { OnOk result (entries out.new.items
        ≡ entries out.old.items ++ spelled ItemKind.Str (text (name_bytes name.now))) }
{
    put_spelled(alloc, ItemKind::Str, Atom::Text(name.share()?), out)
}

/// Puts a constant, as a literal.
pub fn put_literal(
    alloc: Global,
    constant: &ConstantValue,
    out: &mut Vec<Item>,
) -> Result<(), OutOfMemory>
    ensures { OnOk result (entries out.new.items
        ≡ entries out.old.items ++ literal_word (constant_view constant.now)) }
{
    match constant {
        ConstantValue::Number(number) => put_number_literal(alloc, *number, out),
        ConstantValue::Text(name) => put_text(alloc, name, out),
    }
}

/// Puts a number, as a literal.
fn put_number_literal(alloc: Global, number: i64, out: &mut Vec<Item>) -> Result<(), OutOfMemory>
    ensures { OnOk result (entries out.new.items ≡ entries out.old.items ++ number_literal number) }
{
    let digits = Atom::Number(number.unsigned_abs());
    if number < 0 {
        put_operation(alloc, Kind::UnaryExpression, "-", out)?;
        put_spelled(alloc, ItemKind::Num, digits, out)?;
        return put_lone(alloc, ItemKind::Close, out);
    }
    put_spelled(alloc, ItemKind::Num, digits, out)
}

/// Puts one more than the member of that name.
pub fn put_following(
    alloc: Global,
    member: &ToldMember,
    name: &Name,
    out: &mut Vec<Item>,
) -> Result<(), OutOfMemory>
    ensures { OnOk result (entries out.new.items
        ≡ entries out.old.items ++ following_word (name_bytes member.now.owner) (Some member.now.block) (name_bytes name.now)) }
{
    put_operation(alloc, Kind::BinaryExpression, "+", out)?;
    put_spelled(alloc, ItemKind::Num, Atom::Number(1), out)?;
    put_read(
        alloc,
        &member.owner,
        Some(member.block),
        Atom::Text(name.share()?),
        out,
    )?;
    put_lone(alloc, ItemKind::Close, out)
}

/// Puts a read of the member of that name.
fn put_read(
    alloc: Global,
    owner: &Name,
    group: Option<u64>,
    name: Atom,
    out: &mut Vec<Item>,
) -> Result<(), OutOfMemory>
    ensures { OnOk result (entries out.new.items
        ≡ entries out.old.items ++ read_word (name_bytes owner.now) group (atom_doc name)) }
{
    put_use(alloc, owner, group, out)?;
    put_spelled(alloc, ItemKind::Str, name, out)?;
    put_spelled(alloc, ItemKind::Get, Atom::Flag(false), out)
}

/// Puts a bare name of a member of the enum of that name, which has that group.
pub fn put_bare(
    facts: &Facts,
    owner: &Name,
    group: Option<u64>,
    way: Way,
    node: &Node,
    out: &mut Vec<Item>,
) -> Result<(), OutOfMemory>
    ensures { OnOk result (entries out.new.items
        ≡ entries out.old.items
        ++ bare_word (name_bytes owner.now) (group_here facts.now group) way (docs_in node.now.parts.items)) }
{
    let group = facts.group_here(group);
    match way {
        Way::KeyText => Ok(()),
        Way::Keyed => {
            put_read(facts.memory(), owner, group, first_atom(node)?, out)?;
            put_lone(facts.memory(), ItemKind::Key, out)
        }
        _ => put_read(facts.memory(), owner, group, first_atom(node)?, out),
    }
}

/// Puts what is inlined: the literal of its constant, also as a key.
pub fn put_inlined(
    alloc: Global,
    constant: &ConstantValue,
    way: Way,
    out: &mut Vec<Item>,
) -> Result<(), OutOfMemory>
    ensures { OnOk result (entries out.new.items
        ≡ entries out.old.items ++ inlined_word (constant_view constant.now) way) }
{
    match way {
        Way::Keyed if is_key(constant) => Ok(()),
        Way::Keyed => {
            put_literal(alloc, constant, out)?;
            put_lone(alloc, ItemKind::Key, out)
        }
        Way::KeyText if !is_key(constant) => Ok(()),
        _ => put_literal(alloc, constant, out),
    }
}

/// Whether the literal of the constant is a key by itself.
fn is_key(constant: &ConstantValue) -> bool
    ensures { result ≡ is_key (constant_view constant.now) }
{
    match constant {
        ConstantValue::Number(number) => *number >= 0,
        ConstantValue::Text(_) => true,
    }
}
