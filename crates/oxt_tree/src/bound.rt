//! The names that a pattern binds.
ghost use Rattle.std.specs.Prelude.{◌≡◌, ◌++◌, map, IfOk, OnOk, codes};
ghost use Rattle.oxt_grammar.specs.Field.{row_view};
ghost use Rattle.oxt_tree.specs.Bound.{bound_names, bound_views, bare_name, binds_nothing, names_of_each, names_of_fields};
ghost use Rattle.oxt_tree.specs.View.{docs_in, field_in, node_doc, part_doc};

use crate::tree::{Node, Part};
use oxt_grammar::field::Field;
use oxt_grammar::holds::Row;
use oxt_grammar::kind::Kind;
use oxt_names::ids::{NodeId, OutOfMemory};
use oxt_names::name::Name;
use std::alloc::Global;

/// A name that a pattern binds.
#[derive(Drop)]
pub struct BoundName {
    /// The number of the node that is the name.
    pub node: NodeId,
    /// The name.
    pub name: Name,
}

impl Node {
    /// The names that the pattern binds, in the order of the text.
    pub fn bound_names(&self, alloc: Global) -> Result<Vec<BoundName>, OutOfMemory>
        ensures { IfOk result (λ names. bound_views names.items ≡ bound_names (node_doc self.now)) }
    {
        let mut names = Vec::new(alloc);
        push_names(alloc, &mut names, self)?;
        Ok(names)
    }
}

/// Appends the names that the pattern binds.
#[cycle(names)]
fn push_names(alloc: Global, names: &mut Vec<BoundName>, node: &Node) -> Result<(), OutOfMemory>
    ensures { OnOk result
        (bound_views names.new.items ≡ bound_views names.old.items
        ++ bound_names (node_doc node.now)) }
{
    if node.kind.is(Kind::BindingIdentifier) {
        push_bare_name(alloc, names, node)
    } else {
        push_from_fields(alloc, names, &node.parts, node.kind.rows())
    }
}

/// Appends the names that the patterns in the part bind.
#[cycle(names)]
fn push_from_part(alloc: Global, names: &mut Vec<BoundName>, part: &Part) -> Result<(), OutOfMemory>
    ensures { OnOk result
        (bound_views names.new.items ≡ bound_views names.old.items
        ++ bound_names (part_doc part.now)) }
{
    match part {
        Part::Node(node) => push_names(alloc, names, node),
        Part::List(parts) => push_from_each(alloc, names, parts),
        _ => Ok(()),
    }
}

/// Appends the names that each of the patterns binds.
#[cycle(names)]
#[tactic(auto, using(crate::proofs::NameLoops::each_steps))]
fn push_from_each(
    alloc: Global,
    names: &mut Vec<BoundName>,
    parts: &[Part],
) -> Result<(), OutOfMemory>
    ensures { OnOk result
        (bound_views names.new.items ≡ bound_views names.old.items
        ++ names_of_each (docs_in parts.now)) }
{
    for part in parts {
        push_from_part(alloc, names, part)?;
    }
    Ok(())
}

/// Appends the names that the fields of a pattern bind.
#[cycle(names)]
#[tactic(auto, using(crate::proofs::NameLoops::field_steps))]
fn push_from_fields(
    alloc: Global,
    names: &mut Vec<BoundName>,
    parts: &[Part],
    rows: &[Row],
) -> Result<(), OutOfMemory>
    ensures { OnOk result
        (bound_views names.new.items ≡ bound_views names.old.items
        ++ names_of_fields (docs_in parts.now) (map row_view rows.now)) }
{
    for (i, part) in parts.iter().enumerate() {
        match rows.get(i) {
            Some(row) if binds_nothing(row) => {}
            Some(_) => push_from_part(alloc, names, part)?,
            None => return Ok(()),
        }
    }
    Ok(())
}

/// Whether the field of a pattern is a key or a default, which binds no name.
fn binds_nothing(row: &Row) -> bool
    ensures { result ≡ binds_nothing (row_view row.now) }
{
    row.is(Field::Key) || row.is(Field::Right)
}

/// Appends the bare name that the node is.
fn push_bare_name(alloc: Global, names: &mut Vec<BoundName>, node: &Node) -> Result<(), OutOfMemory>
    ensures { OnOk result
        (bound_views names.new.items ≡ bound_views names.old.items
        ++ bare_name node.now.id.0 (field_in (codes "name") node.now)) }
{
    let name = match node.field(Field::Name) {
        Some(Part::Text(name)) => name.share()?,
        Some(Part::Word(word)) => Name::new(alloc, word.text())?,
        _ => return Ok(()),
    };
    names.push(BoundName {
        node: node.id,
        name,
    })?;
    Ok(())
}
