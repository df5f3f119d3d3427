//! The effect word of a class: its keys, static parts, fields, methods and constructor.
ghost use Rattle.std.specs.Prelude.{◌≡◌, ◌∷◌, [], ◌++◌, OnOk, codes};
ghost use Rattle.oxt_tree.specs.Fields.{named};
ghost use Rattle.oxt_tree.specs.View.{docs_in};
ghost use Rattle.oxt_facts.specs.Entry.{detail, entries, lone};
ghost use Rattle.oxt_forms.specs.Details.{start};
ghost use Rattle.oxt_items.specs.Ways.{block_word, constructor_word, field_word, fields_word, key_text, keyed_word, keys_word, method_word, methods_word, opened_word, passed_word, statics_word};
ghost use Rattle.oxt_items.specs.Whole.{class_expression_word, class_parts, class_word};
ghost use Rattle.oxt_word.specs.Word.{all_fields, each_field};

use crate::word::{put_field, put_fields, put_plain, put_whole};
use oxt_facts::facts::Facts;
use oxt_facts::item::{Binding, Item, ItemKind};
use oxt_forms::forms::is_long;
use oxt_forms::made::is_quiet;
use oxt_forms::passing::{is_passing, passes_on};
use oxt_forms::put::{
    field_atom, put_field_start, put_first, put_lone, put_number, put_open, put_private, put_start,
};
use oxt_grammar::field::Field;
use oxt_items::rule::Rule;
use oxt_items::way::Way;
use oxt_names::ids::OutOfMemory;
use oxt_tree::tree::Node;
use std::vec;

/// Puts what stands in a class, in an order of its own.
#[cycle(word)]
pub(crate) fn put_class_parts(
    facts: &Facts,
    node: &Node,
    out: &mut Vec<Item>,
) -> Result<(), OutOfMemory>
    ensures { OnOk result (entries out.new.items
        ≡ entries out.old.items ++ class_parts (each_field facts.now node.now)) }
{
    put_field(facts, node, Field::SuperClass, Way::Whole, out)?;
    put_field(facts, node, Field::Body, Way::Keys, out)?;
    put_field(facts, node, Field::Body, Way::Statics, out)?;
    put_field(facts, node, Field::Body, Way::Fields, out)?;
    put_field(facts, node, Field::Body, Way::Methods, out)?;
    put_field(facts, node, Field::Body, Way::Constructor, out)
}

/// Puts a declaration of a class, and then its name, which is exported or not.
#[cycle(word)]
pub(crate) fn put_class(
    facts: &Facts,
    exported: bool,
    node: &Node,
    out: &mut Vec<Item>,
) -> Result<(), OutOfMemory>
    ensures { OnOk result (entries out.new.items
        ≡ entries out.old.items ++ class_word exported node.now.kind (docs_in node.now.parts.items)
        (each_field facts.now node.now)) }
{
    put_open(facts.memory(), node, out)?;
    put_field(facts, node, Field::Decorators, Way::Whole, out)?;
    put_class_parts(facts, node, out)?;
    put_lone(facts.memory(), ItemKind::Close, out)?;
    put_field(
        facts,
        node,
        Field::Id,
        Way::Bound(Binding::Class, exported),
        out,
    )
}

/// Puts a class expression.
#[cycle(word)]
pub(crate) fn put_class_expression(
    facts: &Facts,
    node: &Node,
    out: &mut Vec<Item>,
) -> Result<(), OutOfMemory>
    ensures { OnOk result (entries out.new.items
        ≡ entries out.old.items ++ class_expression_word node.now.kind
        (docs_in node.now.parts.items) (each_field facts.now node.now)) }
{
    put_open(facts.memory(), node, out)?;
    put_field(facts, node, Field::Decorators, Way::Whole, out)?;
    put_field(
        facts,
        node,
        Field::Id,
        Way::Bound(Binding::Inner, false),
        out,
    )?;
    put_class_parts(facts, node, out)?;
    put_lone(facts.memory(), ItemKind::Close, out)
}

/// Puts the function of a constructor.
#[cycle(word)]
pub(crate) fn put_opened(
    facts: &Facts,
    rule: Rule,
    node: &Node,
    out: &mut Vec<Item>,
) -> Result<(), OutOfMemory>
    ensures { OnOk result (entries out.new.items
        ≡ entries out.old.items ++ opened_word facts.now rule node.now.kind node.now.id.0 (docs_in node.now.parts.items)
        (each_field facts.now node.now) (all_fields facts.now node.now)) }
{
    match rule {
        Rule::FunctionExpression => put_constructor_function(facts, node, out),
        _ => put_whole(facts, rule, node, out),
    }
}

/// Puts the parameters and the body of a constructor; one that passes on what it is given has no parameters.
#[cycle(word)]
fn put_constructor_function(
    facts: &Facts,
    node: &Node,
    out: &mut Vec<Item>,
) -> Result<(), OutOfMemory>
    ensures { OnOk result (entries out.new.items
        ≡ entries out.old.items ++ opened_word facts.now Rule.FunctionExpression node.now.kind node.now.id.0
        (docs_in node.now.parts.items) (each_field facts.now node.now) (all_fields facts.now node.now)) }
{
    if passes_on(facts, node) {
        put_lone(facts.memory(), ItemKind::Nil, out)?;
        put_lone(facts.memory(), ItemKind::Body, out)?;
        return put_field(facts, node, Field::Body, Way::PassOn, out);
    }
    put_field(facts, node, Field::Params, Way::Whole, out)?;
    put_lone(facts.memory(), ItemKind::Body, out)?;
    put_field(facts, node, Field::Body, Way::Whole, out)
}

/// Puts the body of a constructor that passes on what it is given.
#[cycle(word)]
pub(crate) fn put_passed(
    facts: &Facts,
    rule: Rule,
    node: &Node,
    out: &mut Vec<Item>,
) -> Result<(), OutOfMemory>
    ensures { OnOk result (entries out.new.items
        ≡ entries out.old.items ++ passed_word facts.now rule node.now.kind node.now.id.0 (docs_in node.now.parts.items)
        (each_field facts.now node.now) (all_fields facts.now node.now)) }
{
    match rule {
        Rule::Bare => put_fields(facts, node.kind.rows(), &node.parts, Way::PassOn, out),
        Rule::Statement if is_passing(facts, node) => put_lone(
            facts.memory(),
            ItemKind::PassOn,
            out,
        ),
        _ => put_whole(facts, rule, node, out),
    }
}

/// Puts what a key of a class computes.
#[cycle(word)]
pub(crate) fn put_keyed(
    facts: &Facts,
    rule: Rule,
    node: &Node,
    out: &mut Vec<Item>,
) -> Result<(), OutOfMemory>
    ensures { OnOk result (entries out.new.items
        ≡ entries out.old.items ++ keyed_word facts.now rule node.now.kind node.now.id.0 (docs_in node.now.parts.items)
        (each_field facts.now node.now) (all_fields facts.now node.now)) }
{
    match rule {
        Rule::Transparent => put_field(facts, node, Field::Expression, Way::Keyed, out),
        Rule::Sequence if is_long(node) => {
            put_field(facts, node, Field::Expressions, Way::InTurnKeyed, out)
        }
        Rule::PropertyName => Ok(()),
        Rule::Literal(_) => Ok(()),
        Rule::PrivateName => Ok(()),
        Rule::Number => Ok(()),
        _ => {
            put_whole(facts, rule, node, out)?;
            put_lone(facts.memory(), ItemKind::Key, out)
        }
    }
}

/// Puts the text of a key.
#[cycle(word)]
pub(crate) fn put_key_text(
    facts: &Facts,
    rule: Rule,
    node: &Node,
    out: &mut Vec<Item>,
) -> Result<(), OutOfMemory>
    ensures { OnOk result (entries out.new.items
        ≡ entries out.old.items ++ key_text facts.now rule node.now.kind (docs_in node.now.parts.items)
        (each_field facts.now node.now)) }
{
    match rule {
        Rule::Transparent => put_field(facts, node, Field::Expression, Way::KeyText, out),
        Rule::Sequence if is_long(node) => {
            put_field(facts, node, Field::Expressions, Way::LastText, out)
        }
        Rule::PropertyName => put_first(facts.memory(), ItemKind::Str, node, out),
        Rule::Literal(kind) => put_first(facts.memory(), kind, node, out),
        Rule::PrivateName => put_private(facts, node, out),
        Rule::Number => put_number(facts.memory(), node, out),
        _ => Ok(()),
    }
}

/// Puts the decorators of a class's element and what its key computes.
#[cycle(word)]
pub(crate) fn put_keys(
    facts: &Facts,
    rule: Rule,
    node: &Node,
    out: &mut Vec<Item>,
) -> Result<(), OutOfMemory>
    ensures { OnOk result (entries out.new.items
        ≡ entries out.old.items ++ keys_word rule (each_field facts.now node.now) (all_fields facts.now node.now)) }
{
    match rule {
        Rule::Bare => put_fields(facts, node.kind.rows(), &node.parts, Way::Keys, out),
        Rule::Method => put_element_key(facts, node, out),
        Rule::ClassField(_) => put_element_key(facts, node, out),
        _ => Ok(()),
    }
}

/// Puts the decorators and the key of an element.
#[cycle(word)]
pub(crate) fn put_element_key(
    facts: &Facts,
    node: &Node,
    out: &mut Vec<Item>,
) -> Result<(), OutOfMemory>
    ensures { OnOk result (entries out.new.items
        ≡ entries out.old.items ++ keys_word Rule.Method (each_field facts.now node.now)
        (all_fields facts.now node.now)) }
{
    put_field(facts, node, Field::Decorators, Way::Whole, out)?;
    put_field(facts, node, Field::Key, Way::Keyed, out)
}

/// Puts the static fields and blocks of a class.
#[cycle(word)]
pub(crate) fn put_statics(
    facts: &Facts,
    rule: Rule,
    node: &Node,
    out: &mut Vec<Item>,
) -> Result<(), OutOfMemory>
    ensures { OnOk result (entries out.new.items
        ≡ entries out.old.items ++ statics_word facts.now rule node.now.kind (docs_in node.now.parts.items)
        (each_field facts.now node.now) (all_fields facts.now node.now)) }
{
    match rule {
        Rule::Bare => put_fields(facts, node.kind.rows(), &node.parts, Way::Statics, out),
        Rule::ClassField(is_accessor) if node.flag(Field::Static) => {
            put_class_field(facts, node, true, is_accessor, out)
        }
        Rule::StaticBlock => put_block(facts, node, out),
        _ => Ok(()),
    }
}

/// Puts the fields of the instances of a class.
#[cycle(word)]
pub(crate) fn put_instance_fields(
    facts: &Facts,
    rule: Rule,
    node: &Node,
    out: &mut Vec<Item>,
) -> Result<(), OutOfMemory>
    ensures { OnOk result (entries out.new.items
        ≡ entries out.old.items ++ fields_word facts.now rule node.now.kind (docs_in node.now.parts.items)
        (each_field facts.now node.now) (all_fields facts.now node.now)) }
{
    match rule {
        Rule::Bare => put_fields(facts, node.kind.rows(), &node.parts, Way::Fields, out),
        Rule::ClassField(is_accessor) if !node.flag(Field::Static) => {
            put_class_field(facts, node, false, is_accessor, out)
        }
        _ => Ok(()),
    }
}

/// Puts a field of a class: its key's text and its value.
#[cycle(word)]
fn put_class_field(
    facts: &Facts,
    node: &Node,
    is_static: bool,
    is_accessor: bool,
    out: &mut Vec<Item>,
) -> Result<(), OutOfMemory>
    ensures { OnOk result (entries out.new.items
        ≡ entries out.old.items ++ field_word is_static is_accessor (each_field facts.now node.now)) }
{
    put_field_start(facts.memory(), is_static, is_accessor, out)?;
    put_field(facts, node, Field::Key, Way::KeyText, out)?;
    put_field(facts, node, Field::Value, Way::Whole, out)?;
    put_lone(facts.memory(), ItemKind::Define, out)
}

/// Puts a static block.
#[cycle(word)]
fn put_block(facts: &Facts, node: &Node, out: &mut Vec<Item>) -> Result<(), OutOfMemory>
    ensures { OnOk result (entries out.new.items
        ≡ entries out.old.items ++ block_word facts.now node.now.kind (docs_in node.now.parts.items)
        (each_field facts.now node.now) (all_fields facts.now node.now)) }
{
    if is_quiet(facts, node) {
        return put_field(facts, node, Field::Body, Way::Whole, out);
    }
    put_plain(facts, node, Way::Whole, out)
}

/// Puts the methods of a class.
#[cycle(word)]
pub(crate) fn put_methods(
    facts: &Facts,
    rule: Rule,
    node: &Node,
    out: &mut Vec<Item>,
) -> Result<(), OutOfMemory>
    ensures { OnOk result (entries out.new.items
        ≡ entries out.old.items ++ methods_word facts.now rule node.now.kind (docs_in node.now.parts.items)
        (each_field facts.now node.now) (all_fields facts.now node.now)) }
{
    match rule {
        Rule::Bare => put_fields(facts, node.kind.rows(), &node.parts, Way::Methods, out),
        Rule::Method if !node.holds_text(Field::Kind, "constructor") => put_method(
            facts, node, out,
        ),
        _ => Ok(()),
    }
}

/// Puts a method: its start, its key's text, its function and its end.
#[cycle(word)]
fn put_method(facts: &Facts, node: &Node, out: &mut Vec<Item>) -> Result<(), OutOfMemory>
    ensures { OnOk result (entries out.new.items
        ≡ entries out.old.items ++ method_word node.now.kind (docs_in node.now.parts.items)
        (each_field facts.now node.now)) }
{
    let details = vec![in facts.memory();
        field_atom(node, Field::Kind)?,
        field_atom(node, Field::Static)?,
    ]?;
    put_start(node.kind, details, out)?;
    put_field(facts, node, Field::Key, Way::KeyText, out)?;
    put_field(facts, node, Field::Value, Way::Whole, out)?;
    put_lone(facts.memory(), ItemKind::Close, out)
}

/// Puts the constructor of a class.
#[cycle(word)]
pub(crate) fn put_constructor(
    facts: &Facts,
    rule: Rule,
    node: &Node,
    out: &mut Vec<Item>,
) -> Result<(), OutOfMemory>
    ensures { OnOk result (entries out.new.items
        ≡ entries out.old.items ++ constructor_word facts.now rule node.now.kind
        (docs_in node.now.parts.items) (each_field facts.now node.now) (all_fields facts.now node.now)) }
{
    match rule {
        Rule::Bare => put_fields(facts, node.kind.rows(), &node.parts, Way::Constructor, out),
        Rule::Method if node.holds_text(Field::Kind, "constructor") => {
            put_constructor_node(facts, node, out)
        }
        _ => Ok(()),
    }
}

/// Puts a constructor: its start, its parameters and body, and its end.
#[cycle(word)]
fn put_constructor_node(facts: &Facts, node: &Node, out: &mut Vec<Item>) -> Result<(), OutOfMemory>
    ensures { OnOk result (entries out.new.items
        ≡ entries out.old.items ++ (start node.now.kind (detail (named (codes "kind") node.now.kind
        (docs_in node.now.parts.items)) ∷ []) ++ (each_field facts.now node.now (codes "value") Way.Opened
        ++ lone ItemKind.Close))) }
{
    let details = vec![in facts.memory(); field_atom(node, Field::Kind)?]?;
    put_start(node.kind, details, out)?;
    put_field(facts, node, Field::Value, Way::Opened, out)?;
    put_lone(facts.memory(), ItemKind::Close, out)
}
