//! The first place at which a tree is none of the grammar.
ghost use Rattle.std.specs.Prelude.{◌≡◌, IfOk, map, option_map, string_bytes, is_none};
ghost use Rattle.std.specs.Fmt.{decimal};
ghost use Rattle.oxt_grammar.specs.Field.{row_view};
ghost use Rattle.oxt_grammar.specs.Places.{category_of, narrow};
ghost use Rattle.oxt_grammar.specs.Rows.{row_of};
ghost use Rattle.oxt_grammar.specs.Context.{setting_of};
ghost use Rattle.oxt_names.specs.Names.{name_bytes};
ghost use Rattle.oxt_tree.specs.View.{docs_in, node_doc, part_doc};
ghost use Rattle.oxt_valid.specs.Condition.{fault};
ghost use Rattle.oxt_valid.specs.Misfit.{below, condition_misfit, first_misfit, head_misfit, misfit, misfit_in_each, misfit_in_fields, unless};
ghost use Rattle.oxt_valid.specs.Valid.{allows_text, is_tree};

use crate::condition::fault;
use crate::fits::allows_text;
use crate::place::{at, place_below, place_below_index};
use oxt_grammar::category::Category;
use oxt_grammar::context::Setting;
use oxt_grammar::holds::{Holds, Row};
use oxt_names::ids::{OutOfMemory, Span};
use oxt_names::name::Name;
use oxt_tree::tree::{Node, Part};
use std::alloc::Global;

/// The JSON pointer of the first value that makes the node no tree of the grammar, in the order in
/// which a reader checks; none exactly where it is one.
pub fn first_misfit(alloc: Global, program: &Node) -> Result<Option<Name>, OutOfMemory>
    ensures place { IfOk result
        (λ place. option_map name_bytes place ≡ first_misfit (node_doc program.now)) }
    ensures fits { IfOk result (λ place. is_none place ≡ is_tree (node_doc program.now)) }
{
    match misfit_in_node(
        alloc,
        program,
        Setting::Elsewhere,
        Holds::Node(Category::Program),
    )? {
        Some(place) => Ok(Some(Name::from_string(place)?)),
        None => Ok(None),
    }
}

/// The place in the node, which stands where a field holds that, in a node that stands in the
/// setting.
#[cycle(misfit)]
fn misfit_in_node(
    alloc: Global,
    node: &Node,
    setting: Setting,
    holds: Holds,
) -> Result<Option<String>, OutOfMemory>
    ensures { IfOk result
        (λ place. option_map string_bytes place ≡ misfit (node_doc node.now) setting holds) }
{
    // The offsets are in range by their type, which the proof knows once they are read.
    let Span {
        start: _start,
        end: _end,
    } = node.span;
    if let Some(place) = misfit_of_kind(alloc, holds, node)? {
        return Ok(Some(place));
    }
    let rows = node.kind.rows();
    let inner = node.kind.setting();
    if let Some(place) = misfit_in_fields(alloc, &node.parts, setting, inner, rows)? {
        return Ok(Some(place));
    }
    match fault(node, setting) {
        Some(name) => at(alloc, name),
        None => Ok(None),
    }
}

/// The place of the kind of the node, where no node of it may stand there.
fn misfit_of_kind(alloc: Global, holds: Holds, node: &Node) -> Result<Option<String>, OutOfMemory>
    ensures { IfOk result (λ place. option_map string_bytes place
        ≡ head_misfit (category_of holds) node.now.kind 0 0) }
{
    match holds.category() {
        Some(category) if category.contains(node.kind) => Ok(None),
        Some(_) => at(alloc, "type"),
        None => Ok(Some(String::new(alloc))),
    }
}

/// The place in the part, which stands where a field holds that, in a node that stands in the
/// setting.
#[cycle(misfit)]
fn misfit_in_part(
    alloc: Global,
    part: &Part,
    setting: Setting,
    holds: Holds,
) -> Result<Option<String>, OutOfMemory>
    ensures { IfOk result
        (λ place. option_map string_bytes place ≡ misfit (part_doc part.now) setting holds) }
{
    match part {
        Part::Nothing => Ok(unless(alloc, holds.allows_null())),
        Part::Flag(_) => Ok(unless(alloc, holds.allows_flag())),
        Part::Number(number) => Ok(unless(alloc, holds.allows_number(*number))),
        Part::Text(name) => Ok(unless(alloc, allows_text(holds, name.as_str()))),
        Part::Word(word) => Ok(unless(alloc, allows_text(holds, word.text()))),
        Part::Node(node) => misfit_in_node(alloc, node, setting, holds),
        Part::List(parts) => match holds.element() {
            Some(element) => misfit_in_each(alloc, parts, setting, element),
            None => Ok(Some(String::new(alloc))),
        },
    }
}

/// The place in the first of the elements that does not fit.
#[cycle(misfit)]
#[tactic(auto, using(crate::proofs::Misfits::each_steps))]
fn misfit_in_each(
    alloc: Global,
    parts: &[Part],
    setting: Setting,
    holds: Holds,
) -> Result<Option<String>, OutOfMemory>
    ensures { IfOk result (λ place. option_map string_bytes place
        ≡ misfit_in_each (docs_in parts.now) setting 0 holds) }
{
    for (index, part) in parts.iter().enumerate() {
        let inside = misfit_in_part(alloc, part, setting, holds)?;
        if let Some(place) = place_below_index(alloc, index, inside)? {
            return Ok(Some(place));
        }
    }
    Ok(None)
}

/// The place in the first of the fields that does not fit its row, in a node that stands in
/// `setting` and is what the nodes in its fields stand in, `inner`.
#[cycle(misfit)]
#[tactic(auto, using(crate::proofs::Misfits::field_steps))]
fn misfit_in_fields(
    alloc: Global,
    parts: &[Part],
    setting: Setting,
    inner: Setting,
    rows: &[Row],
) -> Result<Option<String>, OutOfMemory>
    ensures { IfOk result (λ place. option_map string_bytes place
        ≡ misfit_in_fields (docs_in parts.now) setting inner (map row_view rows.now)) }
{
    for (i, row) in rows.iter().enumerate() {
        let Some(part) = parts.get(i) else {
            return at(alloc, row.name());
        };
        let inside = misfit_in_part(alloc, part, inner, row.holds.within(setting))?;
        if let Some(place) = place_below(alloc, row.name(), inside)? {
            return Ok(Some(place));
        }
    }
    Ok(unless(alloc, parts.len() <= rows.len()))
}

/// The value itself, where it is not allowed.
fn unless(alloc: Global, is_allowed: bool) -> Option<String>
    ensures { option_map string_bytes result ≡ unless is_allowed }
{
    if is_allowed {
        None
    } else {
        Some(String::new(alloc))
    }
}
