//! Keys of fields that go, which no element behind them takes.
ghost use Rattle.std.specs.Prelude.{◌≡◌, option_map};
ghost use Rattle.oxt_faults.specs.Earliest.{moved_view};
ghost use Rattle.oxt_faults.specs.Waiting.{has_expression, is_member, takes_keys, waiting_word, waits, word_behind, word_left};
ghost use Rattle.oxt_fields.specs.Rules.{rules_view};
ghost use Rattle.oxt_tree.specs.View.{docs_in, part_doc};

use crate::earliest::{MovedName, earlier, of_word};
use crate::level::first_level_word_at;
use oxt_declares::dropped::is_dropped;
use oxt_fields::fate::{Fate, fate_of};
use oxt_fields::rules::FieldRules;
use oxt_grammar::field::Field;
use oxt_grammar::kind::Kind;
use oxt_tree::tree::{Node, Part};

/// The earliest word at the level of a key that waits behind all elements of a class: no element takes it, and it goes into
/// a static block.
#[tactic(auto, using(crate::proofs::Earliests::part_steps))]
pub fn first_word_left<'a>(
    rules: FieldRules,
    hoists: bool,
    elements: &[Part],
) -> Option<MovedName<'a>>
    ensures { option_map moved_view result ≡ word_left (rules_view rules.entry) hoists (docs_in elements.now) }
{
    let mut left = None;
    for element in elements {
        left = word_behind(rules, hoists, left, element);
    }
    left
}

/// The word of what waits behind the element, where that is the word of what waits before it.
fn word_behind<'a>(
    rules: FieldRules,
    hoists: bool,
    left: Option<MovedName<'a>>,
    element: &Part,
) -> Option<MovedName<'a>>
    ensures { option_map moved_view result
        ≡ word_behind (rules_view rules.entry) hoists (option_map moved_view left.entry) (part_doc element.now) }
{
    match element {
        Part::Node(node) => {
            if takes_keys(node) {
                None
            } else {
                earlier(left, waiting_word(rules, hoists, node))
            }
        }
        _ => left,
    }
}

/// Whether the element takes all keys that wait in front of it: they are computed just before its own.
fn takes_keys(node: &Node) -> bool
    ensures { result ≡ takes_keys node.now.kind (docs_in node.now.parts.items) }
{
    !is_dropped(node) && (is_member(node) && has_expression(node))
}

/// Whether it is an `accessor`, or a method that is no constructor.
fn is_member(node: &Node) -> bool
    ensures { result ≡ is_member node.now.kind (docs_in node.now.parts.items) }
{
    match node.kind {
        Kind::AccessorProperty => true,
        Kind::MethodDefinition => !node.holds_text(Field::Kind, "constructor"),
        _ => false,
    }
}

/// Whether the key of the element is an expression.
pub fn has_expression(node: &Node) -> bool
    ensures { result ≡ has_expression node.now.kind (docs_in node.now.parts.items) }
{
    !(node.holds_kind(Field::Key, Kind::IdentifierName)
        || node.holds_kind(Field::Key, Kind::PrivateIdentifier))
}

/// The first word at the level of the key of the element, if that waits.
fn waiting_word<'a>(rules: FieldRules, hoists: bool, node: &Node) -> Option<MovedName<'a>>
    ensures { option_map moved_view result
        ≡ waiting_word (rules_view rules.entry) hoists node.now.kind (docs_in node.now.parts.items) }
{
    if waits(fate_of(rules, hoists, node)) {
        of_word(first_level_word_at(rules.legacy, node.field(Field::Key)))
    } else {
        None
    }
}

/// Whether the key of a field waits of which that becomes.
fn waits(fate: Fate) -> bool
    ensures { result ≡ waits fate }
{
    match fate {
        Fate::LeavesKey => true,
        Fate::Moves { has_temporary, .. } => has_temporary,
        _ => false,
    }
}
