//! Names that stand in a tree.
ghost use Rattle.std.specs.Prelude.{◌≡◌, ◌&&◌, ◌||◌, codes};
ghost use Rattle.oxt_forms.specs.Made.{any_mentions, mentions};
ghost use Rattle.oxt_grammar.specs.Places.{same_kind};
ghost use Rattle.oxt_grammar.specs.declared.kind.Kind.TheVariants as kind;
ghost use Rattle.oxt_tree.specs.Fields.{is_text, named};
ghost use Rattle.oxt_tree.specs.View.{docs_in, node_doc, part_doc};

use oxt_grammar::field::Field;
use oxt_grammar::kind::Kind;
use oxt_tree::tree::{Node, Part};

/// Whether the name stands in the node, as a binding or as a use.
#[cycle(mentions)]
fn mentions_in_node(name: &str, node: &Node) -> bool
    ensures { result ≡ mentions name.now (node_doc node.now) }
{
    is_own(name, node) || any_mentions(name, &node.parts)
}

/// Whether the name stands in the part, as a binding or as a use.
#[cycle(mentions)]
pub(crate) fn mentions(name: &str, part: &Part) -> bool
    ensures { result ≡ mentions name.now (part_doc part.now) }
{
    match part {
        Part::Node(node) => mentions_in_node(name, node),
        Part::List(parts) => any_mentions(name, parts),
        _ => false,
    }
}

/// Whether the name stands in one of the parts.
#[cycle(mentions)]
#[tactic(auto, using(crate::proofs::Searches::one_more, crate::proofs::Searches::no_more, crate::proofs::Searches::found))]
fn any_mentions(name: &str, parts: &[Part]) -> bool
    ensures { result ≡ any_mentions name.now (docs_in parts.now) }
{
    for part in parts {
        if mentions(name, part) {
            return true;
        }
    }
    false
}

/// Whether the node itself is a binding or a use of the name.
fn is_own(name: &str, node: &Node) -> bool
    ensures { result ≡ ((same_kind node.now.kind kind.BindingIdentifier
        || same_kind node.now.kind kind.IdentifierReference)
        && is_text name.now (named (codes "name") node.now.kind (docs_in node.now.parts.items))) }
{
    (node.kind.is(Kind::BindingIdentifier) || node.kind.is(Kind::IdentifierReference))
        && node.holds_text(Field::Name, name)
}
