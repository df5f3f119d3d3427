//! The uses of all decorated classes that are read as their aliases.
ghost use Rattle.std.specs.List.{slice_get};
ghost use Rattle.std.specs.Prelude.{◌≡◌, ◌++◌, IfOk, OnOk, map};
ghost use Rattle.oxt_fields.specs.Aliases.{alias_uses, decorated, is_live_class, joined, uses_at};
ghost use Rattle.oxt_fields.specs.Rules.{rules_view};
ghost use Rattle.oxt_grammar.specs.Field.{row_view};
ghost use Rattle.oxt_grammar.specs.Keys.{key_of};
ghost use Rattle.oxt_options.specs.Lists.{pairs_in};
ghost use Rattle.oxt_search.specs.All.{all_among, all_at, all_in, given};
ghost use Rattle.oxt_tree.specs.View.{doc_of_part, docs_in, node_doc, part_doc};

use crate::alias::push_class_uses;
use crate::rules::FieldRules;
use oxt_declares::calls::is_decorated;
use oxt_declares::dropped::{is_declared_field, is_dropped};
use oxt_grammar::field::Field;
use oxt_grammar::holds::Row;
use oxt_names::ids::{NodeId, OutOfMemory};
use oxt_scoping::scoping::Scoping;
use oxt_tree::fields::place_of;
use oxt_tree::tree::{Node, Part};
use std::alloc::Global;

/// The names that are read as the alias of a decorated class, each with the number of the class, where decorators are lowered:
/// those that mean it, in its body. The decorators of its elements and of the parameters of its methods do not count, but those
/// of the parameters of its constructor do; nor do types, but for names that the metadata of a class inside the body writes as
/// values, erased code, and keys of fields that a class inside the body drops. The plan of the rules need not know of aliases
/// yet.
///
/// # Errors
///
/// Fails only where memory runs out.
pub fn alias_uses(
    alloc: Global,
    program: &Node,
    scoping: &Scoping,
    rules: FieldRules,
) -> Result<Vec<(NodeId, NodeId)>, OutOfMemory>
    ensures { IfOk result (λ uses. pairs_in uses.items ≡ alias_uses scoping.now (rules_view rules.entry) (node_doc program.now)) }
{
    let mut out = Vec::new(alloc);
    if rules.legacy {
        push_uses(scoping, rules, program, &mut out)?;
    }
    Ok(out)
}

/// Appends the uses of the decorated classes in the node.
#[tactic(auto, using(crate::proofs::Uses::node_steps))]
#[cycle(classes)]
fn push_uses(
    scoping: &Scoping,
    rules: FieldRules,
    node: &Node,
    out: &mut Vec<(NodeId, NodeId)>,
) -> Result<(), OutOfMemory>
    ensures { OnOk result (pairs_in out.new.items
        ≡ pairs_in out.old.items ++ joined (all_in (decorated scoping.now (rules_view rules.entry)) (node_doc node.now) tt)) }
{
    push_own(scoping, rules, node, out)?;
    if !is_dropped(node) {
        push_each(scoping, rules, node.parts.as_slice(), out)
    } else if is_declared_field(node) {
        let rows = node.kind.rows();
        push_alone(
            scoping,
            rules,
            rows,
            node.parts.as_slice(),
            Field::Decorators,
            out,
        )
    } else {
        Ok(())
    }
}

/// Appends those of the node itself, if it is a decorated class outside erased code.
#[tactic(auto, using(crate::proofs::Uses::own_steps))]
fn push_own(
    scoping: &Scoping,
    rules: FieldRules,
    node: &Node,
    out: &mut Vec<(NodeId, NodeId)>,
) -> Result<(), OutOfMemory>
    ensures { OnOk result (pairs_in out.new.items ≡ pairs_in out.old.items ++ joined (given
        (uses_at scoping.now (rules_view rules.entry) node.now.kind node.now.id.0 (docs_in node.now.parts.items)))) }
{
    if is_live_class(node) {
        push_class_uses(scoping, rules, node, out)?;
    }
    Ok(())
}

/// Whether the node is a decorated class that is not erased itself.
fn is_live_class(node: &Node) -> bool
    ensures { result ≡ is_live_class node.now.kind (docs_in node.now.parts.items) }
{
    !is_dropped(node) && is_decorated(node)
}

/// Appends those of what the parts hold, one after the other.
#[tactic(auto, using(crate::proofs::Uses::each_steps))]
#[cycle(classes)]
fn push_each(
    scoping: &Scoping,
    rules: FieldRules,
    parts: &[Part],
    out: &mut Vec<(NodeId, NodeId)>,
) -> Result<(), OutOfMemory>
    ensures { OnOk result (pairs_in out.new.items
        ≡ pairs_in out.old.items ++ joined (all_among (decorated scoping.now (rules_view rules.entry)) (docs_in parts.now) tt)) }
{
    for i in 0..parts.len() {
        push_part(scoping, rules, &parts[i], out)?;
    }
    Ok(())
}

/// Appends those of what the part holds.
#[tactic(auto, using(crate::proofs::Uses::nothing_more))]
#[cycle(classes)]
fn push_part(
    scoping: &Scoping,
    rules: FieldRules,
    part: &Part,
    out: &mut Vec<(NodeId, NodeId)>,
) -> Result<(), OutOfMemory>
    ensures { OnOk result (pairs_in out.new.items
        ≡ pairs_in out.old.items ++ joined (all_in (decorated scoping.now (rules_view rules.entry)) (part_doc part.now) tt)) }
{
    match part {
        Part::Node(node) => push_uses(scoping, rules, node, out),
        Part::List(parts) => push_each(scoping, rules, parts.as_slice(), out),
        _ => Ok(()),
    }
}

/// Appends those of what that field holds of a node with these rows and parts.
#[tactic(auto, using(crate::proofs::Uses::alone_steps))]
#[cycle(classes)]
fn push_alone(
    scoping: &Scoping,
    rules: FieldRules,
    rows: &[Row],
    parts: &[Part],
    field: Field,
    out: &mut Vec<(NodeId, NodeId)>,
) -> Result<(), OutOfMemory>
    ensures { OnOk result (pairs_in out.new.items ≡ pairs_in out.old.items
        ++ joined (all_at (decorated scoping.now (rules_view rules.entry)) (docs_in parts.now) (map row_view rows.now) (key_of field) tt)) }
{
    match place_of(rows, field) {
        Some(place) => {
            push_at(scoping, rules, parts, place, out)?;
            Ok(())
        }
        None => Ok(()),
    }
}

/// Appends those of what the part at that place holds.
#[tactic(auto, using(crate::proofs::Uses::nothing_there))]
#[cycle(classes)]
fn push_at(
    scoping: &Scoping,
    rules: FieldRules,
    parts: &[Part],
    place: usize,
    out: &mut Vec<(NodeId, NodeId)>,
) -> Result<(), OutOfMemory>
    ensures { OnOk result (pairs_in out.new.items ≡ pairs_in out.old.items
        ++ joined (all_in (decorated scoping.now (rules_view rules.entry)) (doc_of_part (slice_get parts.now place)) tt)) }
{
    match parts.get(place) {
        Some(part) => push_part(scoping, rules, part, out),
        None => Ok(()),
    }
}
