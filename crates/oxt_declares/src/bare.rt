//! The bare names of a pattern.
ghost use Rattle.std.specs.Prelude.{◌≡◌, ◌++◌, map, IfOk, OnOk, codes};
ghost use Rattle.oxt_grammar.specs.Field.{row_view};
ghost use Rattle.oxt_tree.specs.Bound.{bound_names, bare_name, binds_nothing, names_of_each, names_of_fields};
ghost use Rattle.oxt_tree.specs.View.{docs_in, field_in, node_doc, part_doc};
ghost use Rattle.oxt_declares.specs.Bare.{bare_views};

use oxt_grammar::field::Field;
use oxt_grammar::holds::Row;
use oxt_grammar::kind::Kind;
use oxt_names::ids::{NodeId, OutOfMemory};
use oxt_tree::tree::{Node, Part};

/// A bare name of a pattern.
#[derive(Clone, Copy)]
pub struct BareName<'a> {
    /// The number of the node that is the name.
    pub node: NodeId,
    /// The name.
    pub name: &'a str,
}

/// Appends the names that the node, a pattern, binds.
#[cycle(bare)]
fn push_node<'a>(node: &'a Node, names: &mut Vec<BareName<'a>>) -> Result<(), OutOfMemory>
    ensures { OnOk result (bare_views names.new.items
        ≡ bare_views names.old.items ++ bound_names (node_doc node.now)) }
{
    if node.kind.is(Kind::BindingIdentifier) {
        push_name(node, names)
    } else {
        push_fields(&node.parts, node.kind.rows(), names)
    }
}

/// Appends the names that the patterns in the part bind.
#[cycle(bare)]
pub fn push_names<'a>(part: &'a Part, names: &mut Vec<BareName<'a>>) -> Result<(), OutOfMemory>
    ensures { OnOk result (bare_views names.new.items
        ≡ bare_views names.old.items ++ bound_names (part_doc part.now)) }
{
    match part {
        Part::Node(node) => push_node(node, names),
        Part::List(parts) => push_each(parts, names),
        _ => Ok(()),
    }
}

/// Appends the names that each of the patterns binds.
#[cycle(bare)]
#[tactic(auto, using(oxt_tree::proofs::NameLoops::each_steps))]
fn push_each<'a>(parts: &'a [Part], names: &mut Vec<BareName<'a>>) -> Result<(), OutOfMemory>
    ensures { OnOk result (bare_views names.new.items
        ≡ bare_views names.old.items ++ names_of_each (docs_in parts.now)) }
{
    for part in parts {
        push_names(part, names)?;
    }
    Ok(())
}

/// Appends the names that the fields of a pattern bind.
#[cycle(bare)]
#[tactic(auto, using(oxt_tree::proofs::NameLoops::field_steps))]
fn push_fields<'a>(
    parts: &'a [Part],
    rows: &[Row],
    names: &mut Vec<BareName<'a>>,
) -> Result<(), OutOfMemory>
    ensures { OnOk result (bare_views names.new.items
        ≡ bare_views names.old.items ++ names_of_fields (docs_in parts.now) (map row_view rows.now)) }
{
    for (i, part) in parts.iter().enumerate() {
        match rows.get(i) {
            Some(row) if binds_nothing(row) => {}
            Some(_) => push_names(part, names)?,
            None => return Ok(()),
        }
    }
    Ok(())
}

/// Whether the field of a pattern is a key or a default, which binds no name.
fn binds_nothing(row: &Row) -> bool
    ensures { result ≡ binds_nothing (row_view row.now) }
{
    row.is(Field::Key) || row.is(Field::Right)
}

/// Appends the bare name that the node is.
fn push_name<'a>(node: &'a Node, names: &mut Vec<BareName<'a>>) -> Result<(), OutOfMemory>
    ensures { OnOk result (bare_views names.new.items
        ≡ bare_views names.old.items ++ bare_name node.now.id.0 (field_in (codes "name") node.now)) }
{
    let name = match node.field(Field::Name) {
        Some(Part::Text(name)) => name.as_str(),
        Some(Part::Word(word)) => word.text(),
        _ => return Ok(()),
    };
    names.push(BareName {
        node: node.id,
        name,
    })?;
    Ok(())
}
