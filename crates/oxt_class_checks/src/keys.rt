//! Keys of elements that are read as the alias of a decorated class.
ghost use Rattle.std.specs.Prelude.{◌≡◌};
ghost use Rattle.oxt_class_checks.specs.Keys.{first_is_alias, has_alias_key, holds_key, is_alias, last_is_alias};
ghost use Rattle.oxt_fields.specs.Rules.{rules_view};
ghost use Rattle.oxt_tree.specs.View.{docs_in, node_doc, part_doc};

use oxt_fields::rules::FieldRules;
use oxt_grammar::category::Category;
use oxt_grammar::field::Field;
use oxt_grammar::kind::Kind;
use oxt_tree::tree::{Node, Part};

/// Whether the key of the element is a name that is read as an alias, inside wrappers and parentheses and as the last of a
/// sequence.
pub fn has_alias_key(rules: FieldRules, node: &Node) -> bool
    ensures { result ≡ has_alias_key (rules_view rules.entry) node.now.kind (docs_in node.now.parts.items) }
{
    match node.field(Field::Key) {
        Some(key) => is_alias(rules, key),
        None => false,
    }
}

/// Whether the part is such a key.
#[cycle(keys)]
fn is_alias(rules: FieldRules, part: &Part) -> bool
    ensures { result ≡ is_alias (rules_view rules.entry) (part_doc part.now) }
{
    match part {
        Part::Node(node) => node_is_alias(rules, node),
        Part::List(parts) => last_is_alias(rules, parts),
        _ => false,
    }
}

/// Whether the node is such a key.
#[cycle(keys)]
fn node_is_alias(rules: FieldRules, node: &Node) -> bool
    ensures { result ≡ is_alias (rules_view rules.entry) (node_doc node.now) }
{
    if holds_key(node.kind) {
        first_is_alias(rules, &node.parts)
    } else {
        rules.plan.alias_of(node.id).is_some()
    }
}

/// Whether the first of the parts is such a key.
#[cycle(keys)]
fn first_is_alias(rules: FieldRules, parts: &[Part]) -> bool
    ensures { result ≡ first_is_alias (rules_view rules.entry) (docs_in parts.now) }
{
    match parts.first() {
        Some(part) => is_alias(rules, part),
        None => false,
    }
}

/// Whether the last of the parts is such a key.
#[cycle(keys)]
#[tactic(auto, using(crate::proofs::Lasts::steps))]
fn last_is_alias(rules: FieldRules, parts: &[Part]) -> bool
    ensures { result ≡ last_is_alias (rules_view rules.entry) (docs_in parts.now) }
{
    match parts.last() {
        Some(part) => is_alias(rules, part),
        None => false,
    }
}

/// Whether a part of a node of the kind is the key.
fn holds_key(kind: Kind) -> bool
    ensures { result ≡ holds_key kind }
{
    Category::Transparent.contains(kind) || kind.is(Kind::SequenceExpression)
}
