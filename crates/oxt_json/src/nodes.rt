//! Values with nodes in them.
ghost use Rattle.std.specs.Prelude.{map};
ghost use Rattle.std.specs.Fmt.{decimal};
ghost use Rattle.json.specs.Value.{value_view, items_view, members_view};
ghost use Rattle.serde_json.specs.Data.{object};
ghost use Rattle.oxt_grammar.specs.Keys.{key_of};
ghost use Rattle.oxt_grammar.specs.Field.{row_view};
ghost use Rattle.oxt_tree.specs.View.{part_doc, node_doc};
ghost use Rattle.oxt_json.specs.Answer.{below};
ghost use Rattle.oxt_json.specs.Data.{data_of, items_data, members_data};
ghost use Rattle.oxt_json.specs.Misreads.{Gives};
ghost use Rattle.oxt_json.specs.Reading.{read_as, each_as, member_as, field_as, fields_as};

use crate::head::{Head, member};
use crate::leaves::{flag_part, missing_part, null_part, number_part, text_part};
use crate::misread::Misread;
use json::Value;
use oxt_grammar::category::Category;
use oxt_grammar::context::Setting;
use oxt_grammar::holds::{Holds, Row};
use oxt_names::ids::NodeIds;
use oxt_tree::tree::{Node, Part};
use oxt_valid::condition::fault;
use std::alloc::Global;

/// Reads a value at a place that holds this, in a node that stands in the setting.
#[cycle(read)]
#[tactic(auto, using(crate::proofs::Found::object_in))]
pub fn read_value<'a>(
    alloc: Global,
    value: &Value<'a>,
    setting: Setting,
    holds: Holds,
    ids: &mut NodeIds,
) -> Result<Part, Misread>
    ensures { Gives part_doc result ids.new.next
        (read_as (data_of (value_view value.now)) setting holds ids.old.next) }
{
    match value {
        Value::Null => null_part(holds).ok_or(Misread::here(alloc)),
        Value::Bool(flag) => flag_part(*flag, holds).ok_or(Misread::here(alloc)),
        Value::Number(number) => number_part(number, holds).ok_or(Misread::here(alloc)),
        Value::String(text) => text_part(alloc, text, holds)?.ok_or(Misread::here(alloc)),
        Value::Array(items) => {
            let element = holds.element().ok_or(Misread::here(alloc))?;
            let parts = read_items(alloc, items, setting, element, ids)?;
            Ok(Part::List(parts))
        }
        Value::Object(members) => {
            let category = holds.category().ok_or(Misread::here(alloc))?;
            let node = read_node(alloc, members, setting, category, ids)?;
            Ok(Part::Node(node))
        }
    }
}

#[cycle(read)]
#[tactic(auto, using(crate::proofs::Loops::items_more, crate::proofs::Loops::items_wrong, crate::proofs::Loops::items_done))]
fn read_items<'a>(
    alloc: Global,
    items: &[Value<'a>],
    setting: Setting,
    holds: Holds,
    ids: &mut NodeIds,
) -> Result<Vec<Part>, Misread>
    ensures { Gives (λ parts. map part_doc parts.items) result ids.new.next
        (each_as (items_data (items_view items.now)) setting 0 holds ids.old.next) }
{
    let mut parts = Vec::with_capacity(alloc, items.len())?;
    for (index, item) in items.iter().enumerate() {
        parts.push(read_item(alloc, item, index, setting, holds, ids)?)?;
    }
    Ok(parts)
}

#[cycle(read)]
fn read_item<'a>(
    alloc: Global,
    item: &Value<'a>,
    index: usize,
    setting: Setting,
    holds: Holds,
    ids: &mut NodeIds,
) -> Result<Part, Misread>
    ensures { Gives part_doc result ids.new.next
        (below (decimal index) (read_as (data_of (value_view item.now)) setting holds ids.old.next)) }
{
    read_value(alloc, item, setting, holds, ids).map_err(|misread| misread.below_index(
        alloc, index,
    ))
}

/// Reads an object as a node of the category.
#[cycle(read)]
pub fn read_node<'a>(
    alloc: Global,
    members: &[(&'a str, Value<'a>)],
    setting: Setting,
    category: Category,
    ids: &mut NodeIds,
) -> Result<Node, Misread>
    ensures { Gives node_doc result ids.new.next
        (read_as (object (members_data (members_view members.now))) setting (Holds.Node category)
        ids.old.next) }
{
    let head = Head::read(alloc, members, category)?;
    let id = ids.fresh()?;
    let inner = head.kind.setting();
    let parts = read_fields(alloc, members, head.kind.rows(), setting, inner, ids)?;
    let node = Node {
        kind: head.kind,
        id,
        span: head.span,
        parts,
    };
    match fault(&node, setting) {
        None => Ok(node),
        Some(key) => Err(Misread::at(alloc, key)),
    }
}

#[cycle(read)]
#[tactic(auto, using(crate::proofs::Loops::fields_more, crate::proofs::Loops::fields_wrong, crate::proofs::Loops::fields_done))]
fn read_fields<'a>(
    alloc: Global,
    members: &[(&'a str, Value<'a>)],
    rows: &[Row],
    setting: Setting,
    inner: Setting,
    ids: &mut NodeIds,
) -> Result<Vec<Part>, Misread>
    ensures { Gives (λ parts. map part_doc parts.items) result ids.new.next (fields_as (map row_view rows.now)
        (member_as (members_data (members_view members.now))) setting inner ids.old.next) }
{
    let mut parts = Vec::with_capacity(alloc, rows.len())?;
    for row in rows {
        parts.push(read_field(alloc, members, row, setting, inner, ids)?)?;
    }
    Ok(parts)
}

#[cycle(read)]
#[tactic(auto, using(crate::proofs::Members::found_as, crate::proofs::Members::absent_as))]
fn read_field<'a>(
    alloc: Global,
    members: &[(&'a str, Value<'a>)],
    row: &Row,
    setting: Setting,
    inner: Setting,
    ids: &mut NodeIds,
) -> Result<Part, Misread>
    ensures { Gives part_doc result ids.new.next
        (below (key_of row.now.field) (field_as (row_view row.now)
        (member_as (members_data (members_view members.now)) (key_of row.now.field))
        setting inner ids.old.next)) }
{
    match member(members, row.name()) {
        Some(member) => read_value(alloc, &member.1, inner, row.holds.within(setting), ids).map_err(
            |misread| misread.below(alloc, row.name()),
        ),
        None => missing_part(alloc, row).ok_or_else(|| Misread::at(alloc, row.name())),
    }
}
