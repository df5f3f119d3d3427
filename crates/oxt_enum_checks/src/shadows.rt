//! Bare names of members in an initializer, where the name of the enum means something that it declares.
ghost use Rattle.std.specs.Prelude.{◌≡◌, ◌++◌, ◌&&◌, [], OnOk, map};
ghost use Rattle.oxt_declares.specs.Declares.{each_found};
ghost use Rattle.oxt_enum_checks.specs.Around.{around_view};
ghost use Rattle.oxt_enum_checks.specs.Shadows.{declares_name, each_shadows, field_shadows, is_shadowed, left_shadows, own_shadow, read_shadows, shadow_views, shadows, step_shadows};
ghost use Rattle.oxt_scopes.specs.Stack.{levels};
ghost use Rattle.oxt_grammar.specs.Field.{row_view};
ghost use Rattle.oxt_grammar.specs.Rows.{row_of};
ghost use Rattle.oxt_tree.specs.View.{doc_or_nil, docs_in, node_doc, part_doc};
ghost use Rattle.oxt_declares.specs.Dropped.{is_declared_field};

use crate::around::EnumAround;
use crate::shadowed::ShadowedName;
use crate::uses::is_member_use;
use oxt_declares::dropped::{is_declared_field, is_dropped};
use oxt_grammar::holds::Row;
use oxt_names::ids::{NodeId, OutOfMemory};
use oxt_scopes::look::meaning;
use oxt_scopes::owners::reading_of;
use oxt_scopes::scope::{Scope, scope_of};
use oxt_scopes::way::{Pass, Reading, Step, Way, step_of};
use oxt_scoping::scoping::Scoping;
use oxt_tree::tree::{Node, Part};
use std::alloc::Global;

/// What is looked for: bare names of the members of an enum, in an initializer of it.
#[derive(Clone, Copy)]
pub struct Search<'a> {
    /// The table of the program.
    pub scoping: &'a Scoping,
    /// Whether decorators have TypeScript's older meaning.
    pub legacy: bool,
    /// The enum.
    pub around: EnumAround<'a>,
}

/// Appends such names in the initializer.
pub fn push_initializer<'a>(
    alloc: Global,
    search: Search<'a>,
    initializer: Option<&'a Part>,
    out: &mut Vec<ShadowedName<'a>>,
) -> Result<(), OutOfMemory>
    ensures { OnOk result (shadow_views out.new.items
        ≡ shadow_views out.old.items ++ shadows search.entry.legacy search.entry.scoping.now (around_view search.entry.around) (doc_or_nil initializer.entry) Way.Whole []) }
{
    let mut scopes = Vec::new(alloc);
    match initializer {
        Some(part) => push_part(alloc, search, part, Way::Whole, &mut scopes, out),
        None => Ok(()),
    }
}

/// Appends such names in the node, which is read that way in these scopes.
#[cycle(shadows)]
fn push_node<'a>(
    alloc: Global,
    search: Search<'a>,
    node: &'a Node,
    way: Way,
    scopes: &mut Vec<Scope<'a>>,
    out: &mut Vec<ShadowedName<'a>>,
) -> Result<(), OutOfMemory>
    ensures pushed { OnOk result (shadow_views out.new.items
        ≡ shadow_views out.old.items ++ shadows search.entry.legacy search.entry.scoping.now (around_view search.entry.around) (node_doc node.now) way (levels scopes.old.items)) }
    ensures kept { OnOk result (levels scopes.new.items ≡ levels scopes.old.items) }
{
    let reading = reading_of(node, way);
    let rows = node.kind.rows();
    if is_dropped(node) {
        return push_left(alloc, search, node, reading, scopes, out);
    }
    let _span = node.span;
    match step_of(reading.role, way) {
        Step::Use => push_use(search, node.id, scopes, out),
        Step::Plain => push_fields(alloc, search, rows, &node.parts, reading, scopes, out),
        Step::Opens => push_scope(alloc, search, node, reading, scopes, out),
        Step::Hides => push_hidden(alloc, search, node, reading, scopes, out),
    }
}

/// Appends such names in what of an erased node is left, which is read so: the decorators of a field with `declare`.
#[cycle(shadows)]
fn push_left<'a>(
    alloc: Global,
    search: Search<'a>,
    node: &'a Node,
    reading: Reading,
    scopes: &mut Vec<Scope<'a>>,
    out: &mut Vec<ShadowedName<'a>>,
) -> Result<(), OutOfMemory>
    ensures pushed { OnOk result (shadow_views out.new.items
        ≡ shadow_views out.old.items ++ left_shadows (search.entry.legacy && is_declared_field node.now.kind (docs_in node.now.parts.items)) reading (field_shadows search.entry.legacy search.entry.scoping.now (around_view search.entry.around) (docs_in node.now.parts.items) (row_of node.now.kind)) (levels scopes.old.items)) }
    ensures kept { OnOk result (levels scopes.new.items ≡ levels scopes.old.items) }
{
    let rows = node.kind.rows();
    let beyond = reading.with(Pass::Beyond);
    if search.legacy && is_declared_field(node) {
        push_fields(alloc, search, rows, &node.parts, beyond, scopes, out)
    } else {
        Ok(())
    }
}

/// Appends the node of that number, if it is such a name.
#[tactic(auto, using(crate::proofs::ShadowLoops::one_more))]
fn push_use<'a>(
    search: Search<'a>,
    node: NodeId,
    scopes: &mut Vec<Scope<'a>>,
    out: &mut Vec<ShadowedName<'a>>,
) -> Result<(), OutOfMemory>
    ensures pushed { OnOk result (shadow_views out.new.items
        ≡ shadow_views out.old.items ++ own_shadow search.entry.scoping.now (around_view search.entry.around) node.0 (levels scopes.old.items)) }
    ensures kept { OnOk result (levels scopes.new.items ≡ levels scopes.old.items) }
{
    if is_shadowed(search, node, scopes.as_slice()) {
        out.push(ShadowedName {
            node,
            name: search.around.name,
        })?;
    }
    Ok(())
}

/// Whether the node of that number is such a name in these scopes.
fn is_shadowed(search: Search, node: NodeId, scopes: &[Scope]) -> bool
    ensures { result
        ≡ is_shadowed search.entry.scoping.now (around_view search.entry.around) node.0 (levels scopes.now) }
{
    is_member_use(search.scoping, search.around, node) && declares(scopes, search.around)
}

/// Whether one of the scopes declares the name of the enum.
fn declares(scopes: &[Scope], around: EnumAround) -> bool
    ensures { result ≡ declares_name (around_view around.entry).name (levels scopes.now) }
{
    meaning(scopes, around.name.as_str(), Way::Whole).is_some()
}

/// Appends such names in the fields of a node that opens a scope.
#[cycle(shadows)]
fn push_scope<'a>(
    alloc: Global,
    search: Search<'a>,
    node: &'a Node,
    reading: Reading,
    scopes: &mut Vec<Scope<'a>>,
    out: &mut Vec<ShadowedName<'a>>,
) -> Result<(), OutOfMemory>
    ensures pushed { OnOk result (shadow_views out.new.items
        ≡ shadow_views out.old.items ++ step_shadows Step.Opens search.entry.scoping.now (around_view search.entry.around) reading node.now.kind node.now.id.0 (docs_in node.now.parts.items) (levels scopes.old.items) (each_found (docs_in node.now.parts.items)) (field_shadows search.entry.legacy search.entry.scoping.now (around_view search.entry.around) (docs_in node.now.parts.items) (row_of node.now.kind))) }
    ensures kept { OnOk result (levels scopes.new.items ≡ levels scopes.old.items) }
{
    let rows = node.kind.rows();
    let around = reading.with(Pass::Around);
    let within = reading.with(Pass::Within);
    push_fields(alloc, search, rows, &node.parts, around, scopes, out)?;
    scopes.push(scope_of(alloc, reading.role, node)?)?;
    push_fields(alloc, search, rows, &node.parts, within, scopes, out)?;
    let _scope = scopes.pop();
    Ok(())
}

/// Appends such names in the fields of a node of which a part is read around the innermost scope.
#[cycle(shadows)]
fn push_hidden<'a>(
    alloc: Global,
    search: Search<'a>,
    node: &'a Node,
    reading: Reading,
    scopes: &mut Vec<Scope<'a>>,
    out: &mut Vec<ShadowedName<'a>>,
) -> Result<(), OutOfMemory>
    ensures pushed { OnOk result (shadow_views out.new.items
        ≡ shadow_views out.old.items ++ step_shadows Step.Hides search.entry.scoping.now (around_view search.entry.around) reading node.now.kind node.now.id.0 (docs_in node.now.parts.items) (levels scopes.old.items) (each_found (docs_in node.now.parts.items)) (field_shadows search.entry.legacy search.entry.scoping.now (around_view search.entry.around) (docs_in node.now.parts.items) (row_of node.now.kind))) }
    ensures kept { OnOk result (levels scopes.new.items ≡ levels scopes.old.items) }
{
    let rows = node.kind.rows();
    let beyond = reading.with(Pass::Beyond);
    let here = reading.with(Pass::Here);
    match scopes.pop() {
        Some(scope) => {
            push_fields(alloc, search, rows, &node.parts, beyond, scopes, out)?;
            scopes.push(scope)?;
            push_fields(alloc, search, rows, &node.parts, here, scopes, out)
        }
        None => {
            push_fields(alloc, search, rows, &node.parts, beyond, scopes, out)?;
            push_fields(alloc, search, rows, &node.parts, here, scopes, out)
        }
    }
}

/// Appends such names in the fields of a node, which are read so.
#[cycle(shadows)]
#[tactic(auto, using(crate::proofs::ShadowLoops::field_steps))]
fn push_fields<'a>(
    alloc: Global,
    search: Search<'a>,
    rows: &[Row],
    parts: &'a [Part],
    reading: Reading,
    scopes: &mut Vec<Scope<'a>>,
    out: &mut Vec<ShadowedName<'a>>,
) -> Result<(), OutOfMemory>
    ensures pushed { OnOk result (shadow_views out.new.items
        ≡ shadow_views out.old.items ++ field_shadows search.entry.legacy search.entry.scoping.now (around_view search.entry.around) (docs_in parts.now) (map row_view rows.now) reading (levels scopes.old.items)) }
    ensures kept { OnOk result (levels scopes.new.items ≡ levels scopes.old.items) }
{
    for (i, part) in parts.iter().enumerate() {
        match rows.get(i) {
            Some(row) => push_read(alloc, search, part, reading.way_of(row), scopes, out)?,
            None => return Ok(()),
        }
    }
    Ok(())
}

/// Appends such names in the part, if it is read.
#[cycle(shadows)]
fn push_read<'a>(
    alloc: Global,
    search: Search<'a>,
    part: &'a Part,
    way: Option<Way>,
    scopes: &mut Vec<Scope<'a>>,
    out: &mut Vec<ShadowedName<'a>>,
) -> Result<(), OutOfMemory>
    ensures pushed { OnOk result (shadow_views out.new.items
        ≡ shadow_views out.old.items ++ read_shadows way (shadows search.entry.legacy search.entry.scoping.now (around_view search.entry.around) (part_doc part.now)) (levels scopes.old.items)) }
    ensures kept { OnOk result (levels scopes.new.items ≡ levels scopes.old.items) }
{
    match way {
        Some(way) => push_part(alloc, search, part, way, scopes, out),
        None => Ok(()),
    }
}

/// Appends such names in the part, which is read that way.
#[cycle(shadows)]
fn push_part<'a>(
    alloc: Global,
    search: Search<'a>,
    part: &'a Part,
    way: Way,
    scopes: &mut Vec<Scope<'a>>,
    out: &mut Vec<ShadowedName<'a>>,
) -> Result<(), OutOfMemory>
    ensures pushed { OnOk result (shadow_views out.new.items
        ≡ shadow_views out.old.items ++ shadows search.entry.legacy search.entry.scoping.now (around_view search.entry.around) (part_doc part.now) way (levels scopes.old.items)) }
    ensures kept { OnOk result (levels scopes.new.items ≡ levels scopes.old.items) }
{
    match part {
        Part::Node(node) => push_node(alloc, search, node, way, scopes, out),
        Part::List(parts) => push_each(alloc, search, parts, way, scopes, out),
        _ => Ok(()),
    }
}

/// Appends such names in the parts, which are read that way.
#[cycle(shadows)]
#[tactic(auto, using(crate::proofs::ShadowLoops::each_steps))]
fn push_each<'a>(
    alloc: Global,
    search: Search<'a>,
    parts: &'a [Part],
    way: Way,
    scopes: &mut Vec<Scope<'a>>,
    out: &mut Vec<ShadowedName<'a>>,
) -> Result<(), OutOfMemory>
    ensures pushed { OnOk result (shadow_views out.new.items
        ≡ shadow_views out.old.items ++ each_shadows search.entry.legacy search.entry.scoping.now (around_view search.entry.around) (docs_in parts.now) way (levels scopes.old.items)) }
    ensures kept { OnOk result (levels scopes.new.items ≡ levels scopes.old.items) }
{
    for part in parts {
        push_part(alloc, search, part, way, scopes, out)?;
    }
    Ok(())
}
