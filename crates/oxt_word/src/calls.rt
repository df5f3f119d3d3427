//! The effect word of the calls that decorators give: those of the elements of a class, the names by which it is called, and the
//! elements themselves.
ghost use Rattle.std.specs.Prelude.{◌≡◌, ◌++◌, OnOk, codes, false, option_map};
ghost use Rattle.oxt_facts.specs.Entry.{entries, lone, spelled};
ghost use Rattle.oxt_facts.specs.Told.{calling_view, element_view, metadata_view};
ghost use Rattle.oxt_tree.specs.Doc.{number, text};
ghost use Rattle.oxt_names.specs.Names.{name_bytes};
ghost use Rattle.oxt_tree.specs.View.{docs_in};
ghost use Rattle.oxt_items.specs.Calls.{applied_word, called_key, called_word, calling_word, decorator_word, decorators_list, decorators_word, element_text, given_call, injected_word, kept_key, keyless_field, keyless_method, staying_word, subject_word, tagged_word, through_word};
ghost use Rattle.oxt_items.specs.Helpers.{helper_start};
ghost use Rattle.oxt_items.specs.RuleOf.{rule_of};
ghost use Rattle.oxt_items.specs.Read.{own_word};
ghost use Rattle.oxt_word.specs.Word.{all_fields, each_field};

use crate::word::{put_field, put_fields, put_own};
use oxt_facts::facts::Facts;
use oxt_facts::item::{Atom, Item, ItemKind};
use oxt_facts::told::{ToldCall, ToldElement, ToldMetadata};
use oxt_forms::put::{field_atom, put_field_start, put_lone, put_spelled, put_start};
use oxt_grammar::field::Field;
use oxt_grammar::kind::Kind;
use oxt_items::calls::{put_description, put_helper_start, put_keep, put_no_text, put_receiver};
use oxt_items::metadata::put_metadata;
use oxt_items::namespaces::put_made;
use oxt_items::rule::Rule;
use oxt_items::rule_of::rule_of;
use oxt_items::way::Way;
use oxt_names::ids::OutOfMemory;
use oxt_names::name::Name;
use oxt_tree::tree::Node;
use std::vec;

/// Puts a decorator, read that way, which decorates the parameter at that place if it is one of a parameter.
#[cycle(word)]
pub(crate) fn put_decorator(
    facts: &Facts,
    place: Option<u64>,
    way: Way,
    node: &Node,
    out: &mut Vec<Item>,
) -> Result<(), OutOfMemory>
    ensures { OnOk result (entries out.new.items
        ≡ entries out.old.items ++ decorator_word place way (each_field facts.now node.now)) }
{
    match way {
        Way::Applied => match place {
            Some(place) => put_parameter_decorator(facts, place, node, out),
            None => put_field(facts, node, Field::Expression, Way::Whole, out),
        },
        _ => Ok(()),
    }
}

/// Puts the call that decorates the parameter at that place.
#[cycle(word)]
fn put_parameter_decorator(
    facts: &Facts,
    place: u64,
    node: &Node,
    out: &mut Vec<Item>,
) -> Result<(), OutOfMemory>
    ensures { OnOk result (entries out.new.items ≡ entries out.old.items
        ++ (helper_start (codes "decorateParam")
        ++ (spelled ItemKind.Num (number place) ++ (each_field facts.now node.now (codes "expression") Way.Whole
        ++ lone ItemKind.Close)))) }
{
    put_helper_start(facts.memory(), "decorateParam", out)?;
    put_spelled(facts.memory(), ItemKind::Num, Atom::Number(place), out)?;
    put_field(facts, node, Field::Expression, Way::Whole, out)?;
    put_lone(facts.memory(), ItemKind::Close, out)
}

/// Puts the decorators of the parameters of a function.
#[cycle(word)]
pub(crate) fn put_applied(
    facts: &Facts,
    rule: Rule,
    node: &Node,
    out: &mut Vec<Item>,
) -> Result<(), OutOfMemory>
    ensures { OnOk result (entries out.new.items
        ≡ entries out.old.items ++ applied_word rule (each_field facts.now node.now)) }
{
    match rule {
        Rule::FunctionExpression => put_field(facts, node, Field::Params, Way::Applied, out),
        Rule::Parameters => put_field(facts, node, Field::Items, Way::Applied, out),
        Rule::Parameter => put_field(facts, node, Field::Decorators, Way::Applied, out),
        _ => Ok(()),
    }
}

/// Puts the decorators of the parameters of a class's constructor.
#[cycle(word)]
pub(crate) fn put_injected(
    facts: &Facts,
    rule: Rule,
    node: &Node,
    out: &mut Vec<Item>,
) -> Result<(), OutOfMemory>
    ensures { OnOk result (entries out.new.items ≡ entries out.old.items
        ++ injected_word rule node.now.kind (docs_in node.now.parts.items) (each_field facts.now node.now)
        (all_fields facts.now node.now)) }
{
    match rule {
        Rule::Bare => put_fields(facts, node.kind.rows(), &node.parts, Way::Injected, out),
        Rule::Method if node.holds_text(Field::Kind, "constructor") => {
            put_field(facts, node, Field::Value, Way::Applied, out)
        }
        _ => Ok(()),
    }
}

/// Puts what only some elements of a class give by what is told of them.
#[cycle(word)]
pub(crate) fn put_through(
    facts: &Facts,
    way: Way,
    rule: Rule,
    node: &Node,
    out: &mut Vec<Item>,
) -> Result<(), OutOfMemory>
    ensures { OnOk result (entries out.new.items
        ≡ entries out.old.items ++ through_word way rule (all_fields facts.now node.now)) }
{
    match rule {
        Rule::Bare => put_fields(facts, node.kind.rows(), &node.parts, way, out),
        _ => Ok(()),
    }
}

/// Puts the decorators of an element, and of its parameters if it is a method.
#[cycle(word)]
fn put_decorators(
    facts: &Facts,
    rule: Rule,
    node: &Node,
    out: &mut Vec<Item>,
) -> Result<(), OutOfMemory>
    ensures { OnOk result (entries out.new.items
        ≡ entries out.old.items ++ decorators_word rule (each_field facts.now node.now)) }
{
    match rule {
        Rule::Method => {
            put_field(facts, node, Field::Decorators, Way::Applied, out)?;
            put_field(facts, node, Field::Value, Way::Applied, out)
        }
        _ => put_field(facts, node, Field::Decorators, Way::Applied, out),
    }
}

/// Puts the list of these, with that metadata last.
#[cycle(word)]
fn put_decorators_list(
    facts: &Facts,
    metadata: &ToldMetadata,
    node: &Node,
    out: &mut Vec<Item>,
) -> Result<(), OutOfMemory>
    ensures { OnOk result (entries out.new.items ≡ entries out.old.items
        ++ decorators_list facts.now (metadata_view metadata.now) (rule_of node.now.kind) (each_field facts.now node.now)) }
{
    put_start(Kind::ArrayExpression, Vec::new(facts.memory()), out)?;
    put_decorators(facts, rule_of(node.kind), node, out)?;
    put_metadata(facts, metadata, out)?;
    put_lone(facts.memory(), ItemKind::Close, out)
}

/// Puts the key of the element that is called.
#[cycle(word)]
fn put_called_key(
    facts: &Facts,
    call: &ToldCall,
    node: &Node,
    out: &mut Vec<Item>,
) -> Result<(), OutOfMemory>
    ensures { OnOk result (entries out.new.items ≡ entries out.old.items
        ++ called_key (option_map name_bytes call.now.tag) call.now.is_private (each_field facts.now node.now)) }
{
    match &call.tag {
        Some(tag) => put_made(facts.memory(), tag, out),
        None if call.is_private => put_no_text(facts.memory(), out),
        None => put_field(facts, node, Field::Key, Way::PutKey, out),
    }
}

/// Puts the object that has the element, and its key.
#[cycle(word)]
fn put_subject(
    facts: &Facts,
    call: &ToldCall,
    node: &Node,
    out: &mut Vec<Item>,
) -> Result<(), OutOfMemory>
    ensures { OnOk result (entries out.new.items
        ≡ entries out.old.items ++ subject_word (calling_view call.now) (each_field facts.now node.now)) }
{
    put_receiver(facts.memory(), &call.class, call.is_static, out)?;
    put_called_key(facts, call, node, out)
}

/// Puts the call that an element of a class gives.
#[cycle(word)]
fn put_calling(
    facts: &Facts,
    call: &ToldCall,
    node: &Node,
    out: &mut Vec<Item>,
) -> Result<(), OutOfMemory>
    ensures { OnOk result (entries out.new.items ≡ entries out.old.items
        ++ calling_word facts.now (calling_view call.now) (rule_of node.now.kind) (each_field facts.now node.now)) }
{
    let alloc = facts.memory();
    put_helper_start(alloc, "decorate", out)?;
    put_decorators_list(facts, &call.metadata, node, out)?;
    put_subject(facts, call, node, out)?;
    put_description(alloc, call.is_field, out)?;
    put_lone(alloc, ItemKind::Close, out)?;
    put_lone(alloc, ItemKind::Eval, out)
}

/// The same, if it gives one.
#[cycle(word)]
pub(crate) fn put_given(
    facts: &Facts,
    call: &Option<ToldCall>,
    node: &Node,
    out: &mut Vec<Item>,
) -> Result<(), OutOfMemory>
    ensures { OnOk result (entries out.new.items ≡ entries out.old.items
        ++ given_call facts.now (option_map calling_view call.now) (rule_of node.now.kind) (each_field facts.now node.now)) }
{
    match call {
        Some(call) => put_calling(facts, call, node, out),
        None => Ok(()),
    }
}

/// Puts a computed key, whose value the made name of that tag holds.
#[cycle(word)]
pub(crate) fn put_kept_key(
    facts: &Facts,
    tag: &Name,
    node: &Node,
    out: &mut Vec<Item>,
) -> Result<(), OutOfMemory>
    ensures { OnOk result (entries out.new.items
        ≡ entries out.old.items ++ kept_key (name_bytes tag.now) (each_field facts.now node.now)) }
{
    put_field(facts, node, Field::Key, Way::Whole, out)?;
    put_keep(facts.memory(), tag, out)?;
    put_lone(facts.memory(), ItemKind::Key, out)
}

/// Puts the text of the key of an element, unless the made name of that tag holds it.
#[cycle(word)]
pub(crate) fn put_element_text(
    facts: &Facts,
    tag: Option<&Name>,
    node: &Node,
    out: &mut Vec<Item>,
) -> Result<(), OutOfMemory>
    ensures { OnOk result (entries out.new.items ≡ entries out.old.items
        ++ element_text (option_map (λ tag. name_bytes tag.now) tag.entry) (each_field facts.now node.now)) }
{
    match tag {
        Some(_) => Ok(()),
        None => put_field(facts, node, Field::Key, Way::KeyText, out),
    }
}

/// Puts a field whose key was read among the keys.
#[cycle(word)]
fn put_keyless_field(
    facts: &Facts,
    is_static: bool,
    node: &Node,
    out: &mut Vec<Item>,
) -> Result<(), OutOfMemory>
    ensures { OnOk result (entries out.new.items
        ≡ entries out.old.items ++ keyless_field is_static (each_field facts.now node.now)) }
{
    put_field_start(facts.memory(), is_static, false, out)?;
    put_field(facts, node, Field::Value, Way::Whole, out)?;
    put_lone(facts.memory(), ItemKind::Define, out)
}

/// Puts a method whose key was read among the keys.
#[cycle(word)]
fn put_keyless_method(facts: &Facts, node: &Node, out: &mut Vec<Item>) -> Result<(), OutOfMemory>
    ensures { OnOk result (entries out.new.items ≡ entries out.old.items
        ++ keyless_method node.now.kind (docs_in node.now.parts.items) (each_field facts.now node.now)) }
{
    let details = vec![in facts.memory();
        field_atom(node, Field::Kind)?,
        field_atom(node, Field::Static)?,
    ]?;
    put_start(node.kind, details, out)?;
    put_field(facts, node, Field::Value, Way::Whole, out)?;
    put_lone(facts.memory(), ItemKind::Close, out)
}

/// Puts an element whose key the made name of that tag holds, read that way.
#[cycle(word)]
fn put_tagged(
    facts: &Facts,
    tag: &Name,
    call: &ToldCall,
    way: Way,
    node: &Node,
    out: &mut Vec<Item>,
) -> Result<(), OutOfMemory>
    ensures { OnOk result (entries out.new.items ≡ entries out.old.items
        ++ tagged_word (name_bytes tag.now) (calling_view call.now) way node.now.kind (docs_in node.now.parts.items)
        (own_word facts.now way (rule_of node.now.kind) node.now.kind node.now.id.0 (docs_in node.now.parts.items)
        (each_field facts.now node.now) (all_fields facts.now node.now)) (each_field facts.now node.now)) }
{
    match way {
        Way::Keys => put_kept_key(facts, tag, node, out),
        Way::Statics if call.is_field && call.is_static => {
            put_keyless_field(facts, true, node, out)
        }
        Way::Statics => Ok(()),
        Way::Fields if call.is_field && !call.is_static => {
            put_keyless_field(facts, false, node, out)
        }
        Way::Fields => Ok(()),
        Way::Methods if call.is_field => Ok(()),
        Way::Methods => put_keyless_method(facts, node, out),
        _ => put_own(facts, way, node, out),
    }
}

/// Puts an element that stays, read that way.
#[cycle(word)]
fn put_staying(
    facts: &Facts,
    call: &ToldCall,
    way: Way,
    node: &Node,
    out: &mut Vec<Item>,
) -> Result<(), OutOfMemory>
    ensures { OnOk result (entries out.new.items ≡ entries out.old.items
        ++ staying_word (option_map name_bytes call.now.tag) (calling_view call.now) way node.now.kind (docs_in node.now.parts.items)
        (own_word facts.now way (rule_of node.now.kind) node.now.kind node.now.id.0 (docs_in node.now.parts.items)
        (each_field facts.now node.now) (all_fields facts.now node.now)) (each_field facts.now node.now)) }
{
    match &call.tag {
        Some(tag) => put_tagged(facts, tag, call, way, node, out),
        None => put_own(facts, way, node, out),
    }
}

/// Puts an element that gives a call, read that way.
#[cycle(word)]
pub(crate) fn put_called(
    facts: &Facts,
    element: &ToldElement,
    way: Way,
    node: &Node,
    out: &mut Vec<Item>,
) -> Result<(), OutOfMemory>
    ensures { OnOk result (entries out.new.items ≡ entries out.old.items
        ++ called_word facts.now (element_view element.now) way (rule_of node.now.kind) node.now.kind (docs_in node.now.parts.items)
        (own_word facts.now way (rule_of node.now.kind) node.now.kind node.now.id.0 (docs_in node.now.parts.items)
        (each_field facts.now node.now) (all_fields facts.now node.now)) (each_field facts.now node.now)) }
{
    match way {
        Way::Calls => put_calling(facts, &element.call, node, out),
        _ if element.stays => put_staying(facts, &element.call, way, node, out),
        _ => Ok(()),
    }
}
