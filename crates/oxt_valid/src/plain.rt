//! Which nodes hold nothing of TypeScript.
ghost use Rattle.std.specs.Prelude.{◌≡◌, map};
ghost use Rattle.oxt_grammar.specs.Field.{row_view};
ghost use Rattle.oxt_valid.specs.Plain.{is_plain, all_plain, fields_plain};
ghost use Rattle.oxt_tree.specs.View.{docs_in, node_doc, part_doc};

use oxt_grammar::holds::Row;
use oxt_tree::tree::{Node, Part};

/// Whether no node in the tree has a kind or a field of TypeScript.
#[cycle(plain)]
pub fn is_plain(node: &Node) -> bool
    ensures { result ≡ is_plain (node_doc node.now) }
{
    !node.kind.is_typescript()
        && fields_plain(&node.parts, node.kind.rows())
        && all_plain(&node.parts)
}

/// Whether the part holds nothing of TypeScript.
#[cycle(plain)]
fn part_plain(part: &Part) -> bool
    ensures { result ≡ is_plain (part_doc part.now) }
{
    match part {
        Part::Node(node) => is_plain(node),
        Part::List(parts) => all_plain(parts),
        _ => true,
    }
}

/// Whether the parts hold nothing of TypeScript.
#[cycle(plain)]
#[tactic(auto, using(crate::proofs::PlainLoops::all_plain_steps))]
fn all_plain(parts: &[Part]) -> bool
    ensures { result ≡ all_plain (docs_in parts.now) }
{
    for part in parts {
        if !part_plain(part) {
            return false;
        }
    }
    true
}

/// Whether each field that only TypeScript has stands at its default.
#[tactic(auto, using(crate::proofs::PlainLoops::fields_plain_steps))]
fn fields_plain(parts: &[Part], rows: &[Row]) -> bool
    ensures { result ≡ fields_plain (map row_view rows.now) (docs_in parts.now) }
{
    for (i, row) in rows.iter().enumerate() {
        match parts.get(i) {
            Some(part) if !row.presence.is_typescript() || part.is_default(row.holds) => {}
            Some(_) => return false,
            None => return true,
        }
    }
    true
}
