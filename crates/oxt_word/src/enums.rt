//! The effect word of a block of an enum, of its members, of the bare names of members and of what is inlined.
ghost use Rattle.std.specs.Prelude.{◌≡◌, ◌++◌, OnOk};
ghost use Rattle.oxt_facts.specs.Told.{block_view, member_view, value_view};
ghost use Rattle.oxt_facts.specs.Entry.{entries};
ghost use Rattle.oxt_items.specs.Enums.{block_binding, enum_word, filling_word, member_word, put_word, value_word};
ghost use Rattle.oxt_word.specs.Word.{each_field};

use crate::word::put_field;
use oxt_facts::facts::Facts;
use oxt_facts::item::{Item, ItemKind};
use oxt_facts::told::{MemberValue, ToldBlock, ToldMember};
use oxt_forms::put::put_lone;
use oxt_grammar::field::Field;
use oxt_grammar::kind::Kind;
use oxt_items::enums::{
    block_binding, put_entry_of, put_following, put_literal, put_object_of, put_operation,
    put_owner, put_return, put_reverse, put_reverse_owner, put_text, put_use,
};
use oxt_items::way::Way;
use oxt_names::ids::OutOfMemory;
use oxt_tree::tree::Node;

/// Puts a block of an enum, which is exported or not.
#[cycle(word)]
pub(crate) fn put_enum(
    facts: &Facts,
    block: &ToldBlock,
    exported: bool,
    node: &Node,
    out: &mut Vec<Item>,
) -> Result<(), OutOfMemory>
    ensures { OnOk result (entries out.new.items
        ≡ entries out.old.items
        ++ enum_word (block_view block.now) exported (each_field facts.now node.now)) }
{
    if block.is_first {
        put_filling(facts, block, exported, node, out)?;
        put_lone(facts.memory(), ItemKind::Set, out)?;
        return put_field(
            facts,
            node,
            Field::Id,
            Way::Bound(block_binding(block, exported), exported),
            out,
        );
    }
    put_operation(facts.memory(), Kind::AssignmentExpression, "=", out)?;
    put_use(facts.memory(), &block.name, block.group, out)?;
    put_filling(facts, block, exported, node, out)?;
    put_lone(facts.memory(), ItemKind::Close, out)?;
    put_lone(facts.memory(), ItemKind::Eval, out)
}

/// Puts the call that fills the enum's object.
#[cycle(word)]
fn put_filling(
    facts: &Facts,
    block: &ToldBlock,
    exported: bool,
    node: &Node,
    out: &mut Vec<Item>,
) -> Result<(), OutOfMemory>
    ensures { OnOk result (entries out.new.items
        ≡ entries out.old.items
        ++ filling_word (block_view block.now) exported (each_field facts.now node.now)) }
{
    put_object_of(facts.memory(), block, exported, out)?;
    put_entry_of(facts.memory(), block, out)?;
    put_field(facts, node, Field::Body, Way::Whole, out)?;
    put_return(facts.memory(), block, out)?;
    put_lone(facts.memory(), ItemKind::Out, out)
}

/// Puts a member of an enum.
#[cycle(word)]
pub(crate) fn put_member(
    facts: &Facts,
    member: &ToldMember,
    node: &Node,
    out: &mut Vec<Item>,
) -> Result<(), OutOfMemory>
    ensures { OnOk result (entries out.new.items
        ≡ entries out.old.items
        ++ member_word (member_view member.now) (each_field facts.now node.now)) }
{
    put_reverse_owner(facts.memory(), member, out)?;
    put_value_put(facts, member, node, out)?;
    put_reverse(facts.memory(), member, out)?;
    put_lone(facts.memory(), ItemKind::Eval, out)
}

/// Puts the write of a member's value under its name.
#[cycle(word)]
fn put_value_put(
    facts: &Facts,
    member: &ToldMember,
    node: &Node,
    out: &mut Vec<Item>,
) -> Result<(), OutOfMemory>
    ensures { OnOk result (entries out.new.items
        ≡ entries out.old.items ++ put_word (member_view member.now) (each_field facts.now node.now)) }
{
    put_owner(facts.memory(), member, out)?;
    put_text(facts.memory(), &member.name, out)?;
    put_value(facts, member, node, out)?;
    put_lone(facts.memory(), ItemKind::Put, out)
}

/// Puts the value of a member.
#[cycle(word)]
fn put_value(
    facts: &Facts,
    member: &ToldMember,
    node: &Node,
    out: &mut Vec<Item>,
) -> Result<(), OutOfMemory>
    ensures { OnOk result (entries out.new.items ≡ entries out.old.items
        ++ value_word (member_view member.now) (value_view member.now.value) (each_field facts.now node.now)) }
{
    match &member.value {
        MemberValue::Constant(constant) => put_literal(facts.memory(), constant, out),
        MemberValue::Following(name) => put_following(facts.memory(), member, name, out),
        MemberValue::Written => put_field(facts, node, Field::Initializer, Way::Whole, out),
    }
}
