//! The effect word of classes whose constructor puts more on the object than is written in it, and of fields whose values
//! are put elsewhere.
ghost use Rattle.std.specs.Prelude.{◌≡◌, ◌++◌, OnOk, codes, false, map, option_map};
ghost use Rattle.oxt_facts.specs.Entry.{entries};
ghost use Rattle.oxt_facts.specs.Told.{calling_view, gaining_view, moving_view};
ghost use Rattle.oxt_forms.specs.Leaves.{dropped};
ghost use Rattle.oxt_grammar.specs.declared.kind.Kind.TheVariants as kind;
ghost use Rattle.oxt_names.specs.Names.{name_bytes};
ghost use Rattle.oxt_tree.specs.View.{docs_in};
ghost use Rattle.oxt_items.specs.Calls.{element_text, tag_of};
ghost use Rattle.oxt_items.specs.Classes.{calling_statics, element_key, empty_field, empty_fields, field_put, first_word, gaining_constructor, gaining_word, head_word, keeping_keys, key_at_put, later_word, left_word, made_constructor, moved_key, moving_word, put_key_word, puts_word, tail_word};
ghost use Rattle.oxt_items.specs.RuleOf.{rule_of};
ghost use Rattle.oxt_items.specs.Read.{own_word};
ghost use Rattle.oxt_word.specs.Word.{all_fields, each_field};

use crate::calls::{put_element_text, put_given, put_kept_key};
use crate::class::put_element_key;
use crate::word::{put_field, put_fields, put_own, put_whole};
use oxt_facts::facts::Facts;
use oxt_facts::item::{Item, ItemKind};
use oxt_facts::told::{ToldClass, ToldField};
use oxt_forms::put::{field_atom, put_dropped, put_field_start, put_first, put_lone, put_start};
use oxt_grammar::field::Field;
use oxt_grammar::kind::Kind;
use oxt_items::calls::{put_keep, tag_of};
use oxt_items::moves::{put_constructor_start, put_empty_fields, put_passing, put_properties};
use oxt_items::namespaces::put_made;
use oxt_items::rule::Rule;
use oxt_items::way::Way;
use oxt_names::ids::OutOfMemory;
use oxt_names::name::Name;
use oxt_tree::tree::Node;
use std::vec;

/// Puts the body of a class that has more in it than is written there, read that way.
#[cycle(word)]
pub(crate) fn put_gaining(
    facts: &Facts,
    class: &ToldClass,
    way: Way,
    node: &Node,
    out: &mut Vec<Item>,
) -> Result<(), OutOfMemory>
    ensures { OnOk result (entries out.new.items
        ≡ entries out.old.items ++ gaining_word (gaining_view class.now) way
        (own_word facts.now way (rule_of node.now.kind) node.now.kind node.now.id.0 (docs_in node.now.parts.items)
        (each_field facts.now node.now) (all_fields facts.now node.now)) (all_fields facts.now node.now)) }
{
    match way {
        Way::Keys => put_keeping_keys(facts, &class.alias, node, out),
        Way::Statics => put_calling_statics(facts, class.has_calls, node, out),
        Way::Fields if class.gains => put_gained_fields(facts, class, node, out),
        Way::Constructor if class.gains => put_gaining_constructor(facts, class, node, out),
        _ => put_own(facts, way, node, out),
    }
}

/// Puts the keys of a class, among which the made name of that tag may hold it, in front of those that no later key takes.
#[cycle(word)]
fn put_keeping_keys(
    facts: &Facts,
    alias: &Option<Name>,
    node: &Node,
    out: &mut Vec<Item>,
) -> Result<(), OutOfMemory>
    ensures { OnOk result (entries out.new.items ≡ entries out.old.items
        ++ keeping_keys (option_map name_bytes alias.now) (all_fields facts.now node.now)) }
{
    match alias {
        Some(tag) => {
            put_fields(facts, node.kind.rows(), &node.parts, Way::Keys, out)?;
            put_lone(facts.memory(), ItemKind::This, out)?;
            put_keep(facts.memory(), tag, out)?;
            put_fields(facts, node.kind.rows(), &node.parts, Way::Last, out)
        }
        None => put_fields(facts, node.kind.rows(), &node.parts, Way::Keys, out),
    }
}

/// Puts the static parts of a class, of which the calls of the decorators of its elements may be the last.
#[cycle(word)]
fn put_calling_statics(
    facts: &Facts,
    has_calls: bool,
    node: &Node,
    out: &mut Vec<Item>,
) -> Result<(), OutOfMemory>
    ensures { OnOk result (entries out.new.items ≡ entries out.old.items
        ++ calling_statics has_calls (all_fields facts.now node.now)) }
{
    if has_calls {
        put_fields(facts, node.kind.rows(), &node.parts, Way::Statics, out)?;
        return put_fields(facts, node.kind.rows(), &node.parts, Way::Calls, out);
    }
    put_fields(facts, node.kind.rows(), &node.parts, Way::Statics, out)
}

/// Puts the fields of such a class, with empty ones in front.
#[cycle(word)]
fn put_gained_fields(
    facts: &Facts,
    class: &ToldClass,
    node: &Node,
    out: &mut Vec<Item>,
) -> Result<(), OutOfMemory>
    ensures { OnOk result (entries out.new.items
        ≡ entries out.old.items ++ (empty_fields (map name_bytes class.now.fields.items)
        ++ all_fields facts.now node.now Way.Fields)) }
{
    put_empty_fields(facts.memory(), class.fields.as_slice(), out)?;
    put_fields(facts, node.kind.rows(), &node.parts, Way::Fields, out)
}

/// Puts the constructor of such a class, which is made where none stands.
#[cycle(word)]
fn put_gaining_constructor(
    facts: &Facts,
    class: &ToldClass,
    node: &Node,
    out: &mut Vec<Item>,
) -> Result<(), OutOfMemory>
    ensures { OnOk result (entries out.new.items ≡ entries out.old.items
        ++ gaining_constructor (gaining_view class.now) (all_fields facts.now node.now)) }
{
    if class.has_constructor {
        put_fields(
            facts,
            node.kind.rows(),
            &node.parts,
            Way::Head(class.place),
            out,
        )?;
        put_puts(facts, class, node, out)?;
        return put_fields(
            facts,
            node.kind.rows(),
            &node.parts,
            Way::Tail(class.place),
            out,
        );
    }
    put_made_constructor(facts, class, node, out)
}

/// Puts the constructor that is made for a class without one.
#[cycle(word)]
fn put_made_constructor(
    facts: &Facts,
    class: &ToldClass,
    node: &Node,
    out: &mut Vec<Item>,
) -> Result<(), OutOfMemory>
    ensures { OnOk result (entries out.new.items ≡ entries out.old.items
        ++ made_constructor (gaining_view class.now) (all_fields facts.now node.now)) }
{
    put_constructor_start(facts.memory(), out)?;
    put_lone(facts.memory(), ItemKind::Nil, out)?;
    put_lone(facts.memory(), ItemKind::Body, out)?;
    put_passing(facts.memory(), class.is_derived, out)?;
    put_puts(facts, class, node, out)?;
    put_lone(facts.memory(), ItemKind::Close, out)
}

/// Puts what the constructor puts on the object: parameters, and the values of fields that move into it.
#[cycle(word)]
fn put_puts(
    facts: &Facts,
    class: &ToldClass,
    node: &Node,
    out: &mut Vec<Item>,
) -> Result<(), OutOfMemory>
    ensures { OnOk result (entries out.new.items
        ≡ entries out.old.items ++ puts_word (gaining_view class.now) (all_fields facts.now node.now)) }
{
    put_properties(facts.memory(), class.properties.as_slice(), out)?;
    put_fields(facts, node.kind.rows(), &node.parts, Way::Puts, out)
}

/// Puts a constructor up to that many statements of its body.
#[cycle(word)]
pub(crate) fn put_head(
    facts: &Facts,
    count: usize,
    rule: Rule,
    node: &Node,
    out: &mut Vec<Item>,
) -> Result<(), OutOfMemory>
    ensures { OnOk result (entries out.new.items ≡ entries out.old.items
        ++ head_word count rule node.now.kind (docs_in node.now.parts.items) (each_field facts.now node.now)) }
{
    match rule {
        Rule::Method if node.holds_text(Field::Kind, "constructor") => {
            let details = vec![in facts.memory(); field_atom(node, Field::Kind)?]?;
            put_start(node.kind, details, out)?;
            put_field(facts, node, Field::Value, Way::First(count), out)
        }
        _ => Ok(()),
    }
}

/// Puts a constructor behind that many statements of its body.
#[cycle(word)]
pub(crate) fn put_tail(
    facts: &Facts,
    count: usize,
    rule: Rule,
    node: &Node,
    out: &mut Vec<Item>,
) -> Result<(), OutOfMemory>
    ensures { OnOk result (entries out.new.items ≡ entries out.old.items
        ++ tail_word count rule node.now.kind (docs_in node.now.parts.items) (each_field facts.now node.now)) }
{
    match rule {
        Rule::Method if node.holds_text(Field::Kind, "constructor") => {
            put_field(facts, node, Field::Value, Way::Later(count), out)?;
            put_lone(facts.memory(), ItemKind::Close, out)
        }
        _ => Ok(()),
    }
}

/// Puts a function up to that many statements of its body, or the body up to there.
#[cycle(word)]
pub(crate) fn put_opening(
    facts: &Facts,
    count: usize,
    rule: Rule,
    node: &Node,
    out: &mut Vec<Item>,
) -> Result<(), OutOfMemory>
    ensures { OnOk result (entries out.new.items
        ≡ entries out.old.items ++ first_word count rule (each_field facts.now node.now)) }
{
    match rule {
        Rule::FunctionExpression => {
            put_field(facts, node, Field::Params, Way::Whole, out)?;
            put_lone(facts.memory(), ItemKind::Body, out)?;
            put_field(facts, node, Field::Body, Way::First(count), out)
        }
        Rule::Bare => {
            put_field(facts, node, Field::Directives, Way::Whole, out)?;
            put_field(facts, node, Field::Statements, Way::First(count), out)
        }
        _ => Ok(()),
    }
}

/// Puts what stands behind that many statements of a function's body.
#[cycle(word)]
pub(crate) fn put_ending(
    facts: &Facts,
    count: usize,
    rule: Rule,
    node: &Node,
    out: &mut Vec<Item>,
) -> Result<(), OutOfMemory>
    ensures { OnOk result (entries out.new.items
        ≡ entries out.old.items ++ later_word count rule (each_field facts.now node.now)) }
{
    match rule {
        Rule::FunctionExpression => { put_field(facts, node, Field::Body, Way::Later(count), out) }
        Rule::Bare => put_field(facts, node, Field::Statements, Way::Later(count), out),
        _ => Ok(()),
    }
}

/// Puts a key under which a value is put.
#[cycle(word)]
pub(crate) fn put_put_key(
    facts: &Facts,
    rule: Rule,
    node: &Node,
    out: &mut Vec<Item>,
) -> Result<(), OutOfMemory>
    ensures { OnOk result (entries out.new.items
        ≡ entries out.old.items ++ put_key_word facts.now rule node.now.kind node.now.id.0 (docs_in node.now.parts.items)
        (each_field facts.now node.now) (all_fields facts.now node.now)) }
{
    match rule {
        Rule::PropertyName => put_first(facts.memory(), ItemKind::Str, node, out),
        _ => put_whole(facts, rule, node, out),
    }
}

/// Puts a field whose value is put elsewhere, read that way.
#[cycle(word)]
pub(crate) fn put_moving(
    facts: &Facts,
    field: &ToldField,
    way: Way,
    node: &Node,
    out: &mut Vec<Item>,
) -> Result<(), OutOfMemory>
    ensures { OnOk result (entries out.new.items
        ≡ entries out.old.items
        ++ moving_word facts.now (moving_view field.now) way (rule_of node.now.kind) (each_field facts.now node.now)) }
{
    match way {
        Way::Keys if !field.is_last => put_moved_key(facts, field, node, out),
        Way::Last if field.is_last => put_moved_key(facts, field, node, out),
        Way::Statics if field.is_static => put_field_put(facts, field, node, out),
        Way::Fields if field.stays => put_emptied(facts, field, node, out),
        Way::Puts if !field.is_static => put_field_put(facts, field, node, out),
        Way::Calls => put_given(facts, &field.call, node, out),
        _ => Ok(()),
    }
}

/// Puts the key of a field that moves, which a made name holds, or which is read as ever where the field stays.
#[cycle(word)]
fn put_moved_key(
    facts: &Facts,
    field: &ToldField,
    node: &Node,
    out: &mut Vec<Item>,
) -> Result<(), OutOfMemory>
    ensures { OnOk result (entries out.new.items ≡ entries out.old.items
        ++ moved_key (option_map name_bytes field.now.tag) field.now.stays (tag_of (option_map calling_view field.now.call))
        (each_field facts.now node.now)) }
{
    match &field.tag {
        Some(tag) => {
            put_field(facts, node, Field::Key, Way::Whole, out)?;
            put_keep(facts.memory(), tag, out)
        }
        None if field.stays => put_staying_key(facts, tag_of(&field.call), node, out),
        None => Ok(()),
    }
}

/// Puts the key of an element, which the made name of that tag may hold.
#[cycle(word)]
fn put_staying_key(
    facts: &Facts,
    tag: Option<&Name>,
    node: &Node,
    out: &mut Vec<Item>,
) -> Result<(), OutOfMemory>
    ensures { OnOk result (entries out.new.items ≡ entries out.old.items
        ++ element_key (option_map (λ tag. name_bytes tag.now) tag.entry) (each_field facts.now node.now)) }
{
    match tag {
        Some(tag) => put_kept_key(facts, tag, node, out),
        None => put_element_key(facts, node, out),
    }
}

/// Puts a field without its value.
#[cycle(word)]
fn put_emptied(
    facts: &Facts,
    field: &ToldField,
    node: &Node,
    out: &mut Vec<Item>,
) -> Result<(), OutOfMemory>
    ensures { OnOk result (entries out.new.items ≡ entries out.old.items
        ++ empty_field field.now.is_static (element_text (tag_of (option_map calling_view field.now.call))
        (each_field facts.now node.now))) }
{
    put_field_start(facts.memory(), field.is_static, false, out)?;
    put_element_text(facts, tag_of(&field.call), node, out)?;
    put_lone(facts.memory(), ItemKind::Nil, out)?;
    put_lone(facts.memory(), ItemKind::Define, out)
}

/// Puts that the value of a field is put under its key.
#[cycle(word)]
fn put_field_put(
    facts: &Facts,
    field: &ToldField,
    node: &Node,
    out: &mut Vec<Item>,
) -> Result<(), OutOfMemory>
    ensures { OnOk result (entries out.new.items ≡ entries out.old.items
        ++ field_put (option_map name_bytes field.now.tag) (each_field facts.now node.now)) }
{
    put_lone(facts.memory(), ItemKind::This, out)?;
    put_key_at_put(facts, field, node, out)?;
    put_field(facts, node, Field::Value, Way::Whole, out)?;
    put_lone(facts.memory(), ItemKind::Put, out)?;
    put_lone(facts.memory(), ItemKind::Eval, out)
}

/// Puts the key of that put: what a made name holds, or what is written.
#[cycle(word)]
fn put_key_at_put(
    facts: &Facts,
    field: &ToldField,
    node: &Node,
    out: &mut Vec<Item>,
) -> Result<(), OutOfMemory>
    ensures { OnOk result (entries out.new.items ≡ entries out.old.items
        ++ key_at_put (option_map name_bytes field.now.tag) (each_field facts.now node.now)) }
{
    match &field.tag {
        Some(tag) => put_made(facts.memory(), tag, out),
        None => put_field(facts, node, Field::Key, Way::PutKey, out),
    }
}

/// Puts a field that goes, but for the effects of its key.
#[cycle(word)]
pub(crate) fn put_left(
    facts: &Facts,
    is_last: bool,
    way: Way,
    node: &Node,
    out: &mut Vec<Item>,
) -> Result<(), OutOfMemory>
    ensures { OnOk result (entries out.new.items
        ≡ entries out.old.items ++ left_word is_last way (each_field facts.now node.now)) }
{
    match way {
        Way::Keys if !is_last => put_dropped_key(facts, node, out),
        Way::Last if is_last => put_dropped_key(facts, node, out),
        _ => Ok(()),
    }
}

/// Puts a key that is dropped.
#[cycle(word)]
#[tactic(auto, using(oxt_forms::proofs::Drops::behind))]
fn put_dropped_key(facts: &Facts, node: &Node, out: &mut Vec<Item>) -> Result<(), OutOfMemory>
    ensures { OnOk result (entries out.new.items
        ≡ entries out.old.items ++ dropped (each_field facts.now node.now (codes "key") Way.Whole)) }
{
    let from = out.len();
    put_field(facts, node, Field::Key, Way::Whole, out)?;
    put_dropped(facts.memory(), from, out)
}
