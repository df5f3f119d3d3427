//! The effect word of targets, of what binds names, and of functions that are called where they stand.
ghost use Rattle.std.specs.Prelude.{◌≡◌, ◌++◌, OnOk, codes};
ghost use Rattle.oxt_facts.specs.Entry.{entries};
ghost use Rattle.oxt_grammar.specs.Keys.{key_of};
ghost use Rattle.oxt_tree.specs.View.{docs_in};
ghost use Rattle.oxt_items.specs.Ways.{bound_word, entered_word, target_word};
ghost use Rattle.oxt_word.specs.Word.{all_fields, each_field};

use crate::word::{put_declarator, put_field, put_plain, put_whole};
use oxt_facts::facts::Facts;
use oxt_facts::item::{Binding, Item, ItemKind};
use oxt_forms::put::{put_bind, put_in, put_lone};
use oxt_grammar::field::Field;
use oxt_items::rule::Rule;
use oxt_items::way::Way;
use oxt_names::ids::OutOfMemory;
use oxt_tree::tree::Node;

/// Puts a target: the object and the key of a member.
#[cycle(word)]
pub(crate) fn put_target(
    facts: &Facts,
    rule: Rule,
    node: &Node,
    out: &mut Vec<Item>,
) -> Result<(), OutOfMemory>
    ensures { OnOk result (entries out.new.items
        ≡ entries out.old.items ++ target_word facts.now rule node.now.kind node.now.id.0 (docs_in node.now.parts.items)
        (each_field facts.now node.now) (all_fields facts.now node.now)) }
{
    match rule {
        Rule::Transparent => put_field(facts, node, Field::Expression, Way::Target, out),
        Rule::StaticMember => put_key(facts, node, Field::Property, Way::KeyText, out),
        Rule::ComputedMember => put_key(facts, node, Field::Expression, Way::Whole, out),
        Rule::PrivateMember => put_key(facts, node, Field::Field, Way::Whole, out),
        _ => put_whole(facts, rule, node, out),
    }
}

/// Puts the object of a member and its key, which stands in the field of that name.
#[cycle(word)]
fn put_key(
    facts: &Facts,
    node: &Node,
    key: Field,
    way: Way,
    out: &mut Vec<Item>,
) -> Result<(), OutOfMemory>
    ensures { OnOk result (entries out.new.items
        ≡ entries out.old.items ++ (each_field facts.now node.now (codes "object") Way.Whole
        ++ each_field facts.now node.now (key_of key) way)) }
{
    put_field(facts, node, Field::Object, Way::Whole, out)?;
    put_field(facts, node, key, way, out)
}

/// Puts a pattern or a declarator, whose names are bound as that, and exported or not.
#[cycle(word)]
pub(crate) fn put_bound(
    facts: &Facts,
    binding: Binding,
    exported: bool,
    rule: Rule,
    node: &Node,
    out: &mut Vec<Item>,
) -> Result<(), OutOfMemory>
    ensures { OnOk result (entries out.new.items
        ≡ entries out.old.items ++ bound_word facts.now binding exported rule node.now.kind node.now.id.0
        (docs_in node.now.parts.items) (each_field facts.now node.now) (all_fields facts.now node.now)) }
{
    match rule {
        Rule::Identifier => put_bind(facts, binding, exported, node, out),
        Rule::Pattern => put_plain(facts, node, Way::Bound(binding, exported), out),
        Rule::Declarator => put_declarator(facts, binding, exported, node, out),
        _ => put_whole(facts, rule, node, out),
    }
}

/// Puts a function that is called where it stands, by a call with that pure flag.
#[cycle(word)]
pub(crate) fn put_entered(
    facts: &Facts,
    pure: bool,
    rule: Rule,
    node: &Node,
    out: &mut Vec<Item>,
) -> Result<(), OutOfMemory>
    ensures { OnOk result (entries out.new.items
        ≡ entries out.old.items ++ entered_word facts.now pure rule node.now.kind node.now.id.0
        (docs_in node.now.parts.items) (each_field facts.now node.now) (all_fields facts.now node.now)) }
{
    match rule {
        Rule::Transparent => put_field(facts, node, Field::Expression, Way::Entered(pure), out),
        Rule::FunctionExpression => put_entry(facts, pure, node, out),
        Rule::Parameters => put_field(facts, node, Field::Items, Way::Entered(pure), out),
        Rule::Parameter => put_field(facts, node, Field::Pattern, Way::Entered(pure), out),
        Rule::Identifier => put_in(facts, pure, node, out),
        _ => put_whole(facts, rule, node, out),
    }
}

/// Puts the entry into a function, its body and its end.
#[cycle(word)]
fn put_entry(facts: &Facts, pure: bool, node: &Node, out: &mut Vec<Item>) -> Result<(), OutOfMemory>
    ensures { OnOk result (entries out.new.items
        ≡ entries out.old.items ++ entered_word facts.now pure Rule.FunctionExpression node.now.kind node.now.id.0
        (docs_in node.now.parts.items) (each_field facts.now node.now) (all_fields facts.now node.now)) }
{
    put_field(facts, node, Field::Params, Way::Entered(pure), out)?;
    put_field(facts, node, Field::Body, Way::Whole, out)?;
    put_lone(facts.memory(), ItemKind::Out, out)
}
