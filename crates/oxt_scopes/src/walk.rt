//! The one walk that finds the scopes of a tree and the owners of its names: both read each node alike, and ask what the scopes
//! declare.
ghost use Rattle.std.specs.Prelude.{◌≡◌, ◌++◌, ◌∷◌, [], IfOk, List, OnOk, map};
ghost use Rattle.oxt_grammar.specs.Field.{row_view};
ghost use Rattle.oxt_grammar.specs.Keys.{key_of};
ghost use Rattle.oxt_grammar.specs.Rows.{row_of};
ghost use Rattle.oxt_tree.specs.Fields.{first, text_in};
ghost use Rattle.oxt_tree.specs.View.{docs_in, node_doc, part_doc};
ghost use Rattle.oxt_declares.specs.Declares.{each_found};
ghost use Rattle.oxt_scopes.specs.Nestings.{each_scopes, field_scopes, innermost, opened_scope, read_scopes, scopes, scopes_of, step_scopes};
ghost use Rattle.oxt_scopes.specs.OwnedViews.{owned_views};
ghost use Rattle.oxt_scopes.specs.Owners.{each_owners, field_owners, opened, owners, owners_of, read_so, scope_number, step_owners, used};
ghost use Rattle.oxt_scopes.specs.Scopes.{Level};
ghost use Rattle.oxt_scopes.specs.Stack.{level_of, levels, number_at, scope_numbers};
ghost use Rattle.oxt_scopes.specs.Views.{opened_views};
ghost use Rattle.oxt_scopes.specs.Ways.{way_of};

use crate::look::meaning;
use crate::owners::{OwnedName, reading_of};
use crate::scope::{Scope, scope_by};
use crate::scopes::OpenedScope;
use crate::standing::Standing;
use crate::usage::usage_of;
use crate::way::{Pass, Reading, Step, Way, step_of};
use oxt_declares::declares::{push_declared, text_of};
use oxt_declares::role::Role;
use oxt_grammar::holds::Row;
use oxt_names::ids::{NodeId, OutOfMemory};
use oxt_search::search::holds_nodes;
use oxt_tree::tree::{Node, Part};
use std::alloc::Global;

/// The scopes of a tree and the names that it uses.
#[derive(Drop)]
pub struct Walked<'a> {
    /// The scopes, in the order of the text, each in front of those in it.
    pub scopes: Vec<OpenedScope<'a>>,
    /// The names, in the order of the text, each with its owner.
    pub names: Vec<OwnedName<'a>>,
}

/// The scopes of the tree and the names that it uses. `legacy` says whether decorators have their older meaning.
///
/// # Errors
///
/// Fails only where memory runs out.
pub fn walked_of<'a>(
    alloc: Global,
    program: &'a Node,
    legacy: bool,
) -> Result<Walked<'a>, OutOfMemory>
    ensures scopes { IfOk result (λ w. opened_views w.scopes.items ≡ scopes_of legacy (node_doc program.now)) }
    ensures names { IfOk result (λ w. owned_views w.names.items ≡ owners_of (node_doc program.now)) }
{
    let mut around = Vec::new(alloc);
    let mut out = Walked {
        scopes: Vec::new(alloc),
        names: Vec::new(alloc),
    };
    push_node(
        alloc,
        program,
        Way::Whole,
        Standing::of_program(legacy),
        &mut around,
        &mut out,
    )?;
    Ok(out)
}

/// Appends the scopes and names in the node, which is read that way in these scopes.
#[cycle(walk)]
fn push_node<'a>(
    alloc: Global,
    node: &'a Node,
    way: Way,
    standing: Standing,
    around: &mut Vec<Scope<'a>>,
    out: &mut Walked<'a>,
) -> Result<(), OutOfMemory>
    ensures scopes { OnOk result (opened_views out.new.scopes.items
        ≡ opened_views out.old.scopes.items ++ scopes (node_doc node.now) way standing (scope_numbers around.old.items)) }
    ensures names { OnOk result (owned_views out.new.names.items
        ≡ owned_views out.old.names.items ++ owners (node_doc node.now) way (levels around.old.items)) }
    ensures numbers { OnOk result (scope_numbers around.new.items ≡ scope_numbers around.old.items) }
    ensures levels { OnOk result (levels around.new.items ≡ levels around.old.items) }
{
    let reading = reading_of(node, way);
    let within = standing.within(node);
    let rows = node.kind.rows();
    let _span = node.span;
    match step_of(reading.role, way) {
        Step::Use => push_use(node, way, around, out),
        Step::Plain => push_fields(alloc, rows, &node.parts, reading, within, around, out),
        Step::Opens => push_scope(alloc, node, reading, within, around, out),
        Step::Hides => push_hidden(alloc, node, reading, within, around, out),
    }
}

/// Appends the name that the node is, which opens no scope.
fn push_use<'a>(
    node: &'a Node,
    way: Way,
    around: &mut Vec<Scope<'a>>,
    out: &mut Walked<'a>,
) -> Result<(), OutOfMemory>
    ensures scopes { OnOk result (opened_views out.new.scopes.items ≡ opened_views out.old.scopes.items) }
    ensures names { OnOk result (owned_views out.new.names.items
        ≡ owned_views out.old.names.items ++ used node.now.id.0 (text_in (first (docs_in node.now.parts.items))) way (levels around.old.items)) }
    ensures numbers { OnOk result (scope_numbers around.new.items ≡ scope_numbers around.old.items) }
    ensures levels { OnOk result (levels around.new.items ≡ levels around.old.items) }
{
    let Some(name) = text_of(node.parts.first()) else {
        return Ok(());
    };
    let owner = meaning(around.as_slice(), name, way);
    out.names.push(OwnedName {
        node: node.id,
        name,
        owner,
        usage: usage_of(way),
    })?;
    Ok(())
}

/// Appends the scope that a node opens, and the scopes and names in it.
#[cycle(walk)]
fn push_scope<'a>(
    alloc: Global,
    node: &'a Node,
    reading: Reading,
    standing: Standing,
    around: &mut Vec<Scope<'a>>,
    out: &mut Walked<'a>,
) -> Result<(), OutOfMemory>
    ensures scopes { OnOk result (opened_views out.new.scopes.items
        ≡ opened_views out.old.scopes.items ++ step_scopes Step.Opens reading node.now.kind node.now.id.0 (docs_in node.now.parts.items) standing (scope_numbers around.old.items) (each_found (docs_in node.now.parts.items)) (field_scopes (docs_in node.now.parts.items) (row_of node.now.kind))) }
    ensures names { OnOk result (owned_views out.new.names.items
        ≡ owned_views out.old.names.items ++ step_owners Step.Opens reading node.now.kind node.now.id.0 (docs_in node.now.parts.items) (levels around.old.items) (each_found (docs_in node.now.parts.items)) (field_owners (docs_in node.now.parts.items) (row_of node.now.kind))) }
    ensures numbers { OnOk result (scope_numbers around.new.items ≡ scope_numbers around.old.items) }
    ensures levels { OnOk result (levels around.new.items ≡ levels around.old.items) }
{
    let rows = node.kind.rows();
    let outside = reading.with(Pass::Around);
    let inside = reading.with(Pass::Within);
    push_fields(alloc, rows, &node.parts, outside, standing, around, out)?;
    let parent = last(around.as_slice());
    let scope = push_opened(alloc, node, reading.role, standing, parent, out)?;
    around.push(scope)?;
    push_fields(alloc, rows, &node.parts, inside, standing, around, out)?;
    let _scope = around.pop();
    Ok(())
}

/// Appends the scope that a node of that role opens, in that one, and gives its table.
#[tactic(auto, using(crate::proofs::Appends::one_more))]
fn push_opened<'a>(
    alloc: Global,
    node: &'a Node,
    role: Role,
    standing: Standing,
    parent: Option<NodeId>,
    out: &mut Walked<'a>,
) -> Result<Scope<'a>, OutOfMemory>
    ensures scopes { OnOk result (opened_views out.new.scopes.items
        ≡ opened_views out.old.scopes.items ++ opened_scope role node.now.kind node.now.id.0 (docs_in node.now.parts.items) standing (number_at parent) (each_found (docs_in node.now.parts.items)) ∷ []) }
    ensures names { OnOk result (owned_views out.new.names.items ≡ owned_views out.old.names.items) }
    ensures number { IfOk result (λ s. s.number.0 ≡ scope_number role node.now.kind node.now.id.0 (docs_in node.now.parts.items)) }
    ensures level { IfOk result (λ s. (ls : List Level) → level_of s ls
        ≡ opened role node.now.kind node.now.id.0 (docs_in node.now.parts.items) (each_found (docs_in node.now.parts.items)) ls) }
{
    let mut declarations = Vec::new(alloc);
    push_declared(alloc, role, node, &mut declarations)?;
    let scope = scope_by(alloc, role, node, declarations.as_slice())?;
    out.scopes.push(OpenedScope {
        number: scope.number,
        parent,
        role,
        standing,
        declarations,
    })?;
    Ok(scope)
}

/// The number of the innermost scope.
fn last(around: &[Scope]) -> Option<NodeId>
    ensures { number_at result ≡ innermost (scope_numbers around.now) }
{
    match around.split_last() {
        Some((scope, _)) => Some(scope.number),
        None => None,
    }
}

/// Appends the scopes and names in the fields of a node of which a part is read around the innermost scope.
#[cycle(walk)]
fn push_hidden<'a>(
    alloc: Global,
    node: &'a Node,
    reading: Reading,
    standing: Standing,
    around: &mut Vec<Scope<'a>>,
    out: &mut Walked<'a>,
) -> Result<(), OutOfMemory>
    ensures scopes { OnOk result (opened_views out.new.scopes.items
        ≡ opened_views out.old.scopes.items ++ step_scopes Step.Hides reading node.now.kind node.now.id.0 (docs_in node.now.parts.items) standing (scope_numbers around.old.items) (each_found (docs_in node.now.parts.items)) (field_scopes (docs_in node.now.parts.items) (row_of node.now.kind))) }
    ensures names { OnOk result (owned_views out.new.names.items
        ≡ owned_views out.old.names.items ++ step_owners Step.Hides reading node.now.kind node.now.id.0 (docs_in node.now.parts.items) (levels around.old.items) (each_found (docs_in node.now.parts.items)) (field_owners (docs_in node.now.parts.items) (row_of node.now.kind))) }
    ensures numbers { OnOk result (scope_numbers around.new.items ≡ scope_numbers around.old.items) }
    ensures levels { OnOk result (levels around.new.items ≡ levels around.old.items) }
{
    let rows = node.kind.rows();
    let beyond = reading.with(Pass::Beyond);
    let here = reading.with(Pass::Here);
    match around.pop() {
        Some(scope) => {
            push_fields(alloc, rows, &node.parts, beyond, standing, around, out)?;
            around.push(scope)?;
            push_fields(alloc, rows, &node.parts, here, standing, around, out)
        }
        None => {
            push_fields(alloc, rows, &node.parts, beyond, standing, around, out)?;
            push_fields(alloc, rows, &node.parts, here, standing, around, out)
        }
    }
}

/// Appends the scopes and names in the fields of a node, which are read so.
#[cycle(walk)]
#[tactic(auto, using(crate::proofs::ScopeLoops::field_steps, crate::proofs::OwnerLoops::field_steps))]
#[inline(always)]
fn push_fields<'a>(
    alloc: Global,
    rows: &[Row],
    parts: &'a [Part],
    reading: Reading,
    standing: Standing,
    around: &mut Vec<Scope<'a>>,
    out: &mut Walked<'a>,
) -> Result<(), OutOfMemory>
    ensures scopes { OnOk result (opened_views out.new.scopes.items
        ≡ opened_views out.old.scopes.items ++ field_scopes (docs_in parts.now) (map row_view rows.now) reading standing (scope_numbers around.old.items)) }
    ensures names { OnOk result (owned_views out.new.names.items
        ≡ owned_views out.old.names.items ++ field_owners (docs_in parts.now) (map row_view rows.now) reading (levels around.old.items)) }
    ensures numbers { OnOk result (scope_numbers around.new.items ≡ scope_numbers around.old.items) }
    ensures levels { OnOk result (levels around.new.items ≡ levels around.old.items) }
{
    for (i, part) in parts.iter().enumerate() {
        match rows.get(i) {
            Some(row) => push_read(alloc, part, reading, row, standing, around, out)?,
            None => return Ok(()),
        }
    }
    Ok(())
}

/// Appends the scopes and names in the part, a field of that row, if it is read.
#[cycle(walk)]
#[tactic(auto, using(crate::proofs::Bare::nothing_in))]
#[inline(always)]
fn push_read<'a>(
    alloc: Global,
    part: &'a Part,
    reading: Reading,
    row: &Row,
    standing: Standing,
    around: &mut Vec<Scope<'a>>,
    out: &mut Walked<'a>,
) -> Result<(), OutOfMemory>
    ensures scopes { OnOk result (opened_views out.new.scopes.items
        ≡ opened_views out.old.scopes.items ++ read_scopes (way_of reading (key_of row.now.field)) (scopes (part_doc part.now)) standing (scope_numbers around.old.items)) }
    ensures names { OnOk result (owned_views out.new.names.items
        ≡ owned_views out.old.names.items ++ read_so (way_of reading (key_of row.now.field)) (owners (part_doc part.now)) (levels around.old.items)) }
    ensures numbers { OnOk result (scope_numbers around.new.items ≡ scope_numbers around.old.items) }
    ensures levels { OnOk result (levels around.new.items ≡ levels around.old.items) }
{
    if !holds_nodes(part) {
        return Ok(());
    }
    match reading.way_of(row) {
        Some(way) => push_part(alloc, part, way, standing, around, out),
        None => Ok(()),
    }
}

/// Appends the scopes and names in the part, which is read that way.
#[cycle(walk)]
#[inline(always)]
fn push_part<'a>(
    alloc: Global,
    part: &'a Part,
    way: Way,
    standing: Standing,
    around: &mut Vec<Scope<'a>>,
    out: &mut Walked<'a>,
) -> Result<(), OutOfMemory>
    ensures scopes { OnOk result (opened_views out.new.scopes.items
        ≡ opened_views out.old.scopes.items ++ scopes (part_doc part.now) way standing (scope_numbers around.old.items)) }
    ensures names { OnOk result (owned_views out.new.names.items
        ≡ owned_views out.old.names.items ++ owners (part_doc part.now) way (levels around.old.items)) }
    ensures numbers { OnOk result (scope_numbers around.new.items ≡ scope_numbers around.old.items) }
    ensures levels { OnOk result (levels around.new.items ≡ levels around.old.items) }
{
    match part {
        Part::Node(node) => push_node(alloc, node, way, standing, around, out),
        Part::List(parts) => push_each(alloc, parts, way, standing, around, out),
        _ => Ok(()),
    }
}

/// Appends the scopes and names in the parts, which are read that way.
#[cycle(walk)]
#[tactic(auto, using(crate::proofs::ScopeLoops::each_steps, crate::proofs::OwnerLoops::each_steps))]
fn push_each<'a>(
    alloc: Global,
    parts: &'a [Part],
    way: Way,
    standing: Standing,
    around: &mut Vec<Scope<'a>>,
    out: &mut Walked<'a>,
) -> Result<(), OutOfMemory>
    ensures scopes { OnOk result (opened_views out.new.scopes.items
        ≡ opened_views out.old.scopes.items ++ each_scopes (docs_in parts.now) way standing (scope_numbers around.old.items)) }
    ensures names { OnOk result (owned_views out.new.names.items
        ≡ owned_views out.old.names.items ++ each_owners (docs_in parts.now) way (levels around.old.items)) }
    ensures numbers { OnOk result (scope_numbers around.new.items ≡ scope_numbers around.old.items) }
    ensures levels { OnOk result (levels around.new.items ≡ levels around.old.items) }
{
    for part in parts {
        push_part(alloc, part, way, standing, around, out)?;
    }
    Ok(())
}
