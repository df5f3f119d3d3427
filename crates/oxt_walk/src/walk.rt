//! The one walk over a tree.
ghost use Rattle.std.specs.Prelude.{◌≡◌, OnOk, codes};
ghost use Rattle.oxt_ctx.specs.Level.{IsLevel, IsOpen, IsUntouched};
ghost use Rattle.oxt_ctx.specs.Visits.{HasLogged};
ghost use Rattle.oxt_tree.specs.Doc.{list};
ghost use Rattle.oxt_tree.specs.Fields.{field_of};
ghost use Rattle.oxt_tree.specs.View.{docs_in, node_doc, part_doc};
ghost use Rattle.oxt_walk.specs.Watched.{IsWatched};
ghost use Rattle.oxt_traverse.specs.Place.{place_of as place_held};
ghost use Rattle.oxt_walk.specs.Visited.{inside, of_body, of_element, of_field, of_statements, visits, visits_each, visits_of_program};

use oxt_ctx::context::TraverseCtx;
use oxt_grammar::category::Category;
use oxt_grammar::field::Field;
use oxt_grammar::holds::Holds;
use oxt_names::ids::OutOfMemory;
use oxt_traverse::body::close_expression;
use oxt_traverse::close::{close_statements, open_list};
use oxt_traverse::dispatch::{enter_node, leave_node};
use oxt_traverse::place::{is_body, is_statements, place_of};
use oxt_traverse::record::{go_into, go_out};
use oxt_traverse::traverse::Traverse;
use oxt_tree::fields;
use oxt_tree::tree::{Node, Part};

/// How many levels of nodes are walked below the program. What stands deeper is left as it is. Text
/// that is read has no more than some hundred levels, so only a pass that makes nodes in nodes
/// without end comes so far.
pub const LEVELS: u32 = 1024;

/// Walks the program once, in the order of the text: the hooks of a node that come before its parts,
/// then its parts, then the hooks that come after them. While the parts of a node are walked it is
/// recorded in the context. When a list of statements is left, what waits beside its statements is
/// placed, and then its declarators.
///
/// `program` is a node of kind `Program`. Where nothing waits at the start, a pass that watches leaves
/// the program as it was, and its log gets what the visits of the program add to it, each once and in
/// order.
///
/// # Errors
///
/// `OutOfMemory` for want of memory or of numbers alone. The tree, the pass and the context may then
/// only be dropped.
pub fn walk_program<T: Traverse>(
    pass: &mut T,
    program: &mut Node,
    ctx: &mut TraverseCtx,
) -> Result<(), OutOfMemory>
    ensures level { OnOk result (IsLevel ctx.old ctx.new) }
    ensures untouched { OnOk result (IsUntouched (IsWatched T.watches ctx.old) (node_doc program.old) (node_doc program.new) ctx.old ctx.new) }
    ensures logged { OnOk result (HasLogged (IsWatched T.watches ctx.old) T.trace (T.log pass.old) (T.log pass.new) (visits_of_program (node_doc program.old))) }
{
    pass.enter_program(program, ctx)?;
    go_into(program, ctx)?;
    walk_program_body(pass, program, ctx)?;
    go_out(ctx);
    pass.exit_program(program, ctx)
}

/// Walks the statements of the program. Nothing else in it is a node that a hook is for.
fn walk_program_body<T: Traverse>(
    pass: &mut T,
    program: &mut Node,
    ctx: &mut TraverseCtx,
) -> Result<(), OutOfMemory>
    ensures level { OnOk result (IsLevel ctx.old ctx.new) }
    ensures untouched { OnOk result (IsUntouched (IsWatched T.watches ctx.old) (node_doc program.old) (node_doc program.new) ctx.old ctx.new) }
    ensures logged { OnOk result (HasLogged (IsWatched T.watches ctx.old) T.trace (T.log pass.old) (T.log pass.new) (of_body (field_of (codes "body") (node_doc program.old)))) }
{
    match fields::place_of(program.kind.rows(), Field::Body) {
        Some(place) => {
            if place < program.parts.len() {
                walk_body(pass, &mut program.parts[place], ctx)
            } else {
                Ok(())
            }
        }
        None => Ok(()),
    }
}

/// Walks the list of statements that the part is.
fn walk_body<T: Traverse>(
    pass: &mut T,
    part: &mut Part,
    ctx: &mut TraverseCtx,
) -> Result<(), OutOfMemory>
    ensures level { OnOk result (IsLevel ctx.old ctx.new) }
    ensures untouched { OnOk result (IsUntouched (IsWatched T.watches ctx.old) (part_doc part.old) (part_doc part.new) ctx.old ctx.new) }
    ensures logged { OnOk result (HasLogged (IsWatched T.watches ctx.old) T.trace (T.log pass.old) (T.log pass.new) (of_body (part_doc part.old))) }
{
    match part {
        Part::List(statements) => {
            walk_statements(pass, statements, Category::Item, true, LEVELS, ctx)
        }
        _ => Ok(()),
    }
}

/// Walks the node: its hooks, and between them its parts.
#[cycle(walk)]
fn walk_node<T: Traverse>(
    pass: &mut T,
    node: &mut Node,
    place: Category,
    levels: u32,
    ctx: &mut TraverseCtx,
) -> Result<(), OutOfMemory>
    requires open { IsOpen ctx.old }
    ensures level { OnOk result (IsLevel ctx.old ctx.new) }
    ensures untouched { OnOk result (IsUntouched (IsWatched T.watches ctx.old) (node_doc node.old) (node_doc node.new) ctx.old ctx.new) }
    ensures logged { OnOk result (HasLogged (IsWatched T.watches ctx.old) T.trace (T.log pass.old) (T.log pass.new) (visits (node_doc node.old) place levels)) }
{
    if levels == 0 {
        return Ok(());
    }
    enter_node(pass, node, place, ctx)?;
    go_into(node, ctx)?;
    walk_fields(pass, node, levels - 1, ctx)?;
    go_out(ctx);
    leave_node(pass, node, place, ctx)
}

/// Walks what the fields of the node hold.
#[cycle(walk)]
fn walk_fields<T: Traverse>(
    pass: &mut T,
    node: &mut Node,
    levels: u32,
    ctx: &mut TraverseCtx,
) -> Result<(), OutOfMemory>
    requires open { IsOpen ctx.old }
    ensures level { OnOk result (IsLevel ctx.old ctx.new) }
    ensures untouched { OnOk result (IsUntouched (IsWatched T.watches ctx.old) (node_doc node.old) (node_doc node.new) ctx.old ctx.new) }
    ensures logged { OnOk result (HasLogged (IsWatched T.watches ctx.old) T.trace (T.log pass.old) (T.log pass.new) (inside (node_doc node.old) levels)) }
{
    let rows = node.kind.rows();
    for i in 0..rows.len().min(node.parts.len()) {
        walk_field(pass, rows[i].holds, &mut node.parts[i], levels, ctx)?;
    }
    Ok(())
}

/// Walks what a field holds: nothing where it holds no nodes.
#[cycle(walk)]
fn walk_field<T: Traverse>(
    pass: &mut T,
    holds: Holds,
    part: &mut Part,
    levels: u32,
    ctx: &mut TraverseCtx,
) -> Result<(), OutOfMemory>
    requires open { IsOpen ctx.old }
    ensures level { OnOk result (IsLevel ctx.old ctx.new) }
    ensures untouched { OnOk result (IsUntouched (IsWatched T.watches ctx.old) (part_doc part.old) (part_doc part.new) ctx.old ctx.new) }
    ensures logged { OnOk result (HasLogged (IsWatched T.watches ctx.old) T.trace (T.log pass.old) (T.log pass.new) (of_field (place_held holds) (visits (part_doc part.old)) levels)) }
{
    match place_of(holds) {
        Some(place) => walk_part(pass, part, place, levels, ctx),
        None => Ok(()),
    }
}

/// Walks the node or the nodes that the part is.
#[cycle(walk)]
fn walk_part<T: Traverse>(
    pass: &mut T,
    part: &mut Part,
    place: Category,
    levels: u32,
    ctx: &mut TraverseCtx,
) -> Result<(), OutOfMemory>
    requires open { IsOpen ctx.old }
    ensures level { OnOk result (IsLevel ctx.old ctx.new) }
    ensures untouched { OnOk result (IsUntouched (IsWatched T.watches ctx.old) (part_doc part.old) (part_doc part.new) ctx.old ctx.new) }
    ensures logged { OnOk result (HasLogged (IsWatched T.watches ctx.old) T.trace (T.log pass.old) (T.log pass.new) (visits (part_doc part.old) place levels)) }
{
    match part {
        Part::Node(node) => {
            if is_body(place, node.kind) {
                walk_expression_body(pass, node, place, levels, ctx)
            } else {
                walk_node(pass, node, place, levels, ctx)
            }
        }
        Part::List(parts) => {
            if is_statements(place) {
                walk_statements(pass, parts, place, false, levels, ctx)
            } else {
                walk_elements(pass, parts, place, levels, ctx)
            }
        }
        _ => Ok(()),
    }
}

/// Walks a list of statements, which has declarators of its own.
#[cycle(walk)]
fn walk_statements<T: Traverse>(
    pass: &mut T,
    statements: &mut Vec<Part>,
    place: Category,
    is_program_body: bool,
    levels: u32,
    ctx: &mut TraverseCtx,
) -> Result<(), OutOfMemory>
    ensures level { OnOk result (IsLevel ctx.old ctx.new) }
    ensures untouched { OnOk result (IsUntouched (IsWatched T.watches ctx.old) (list (docs_in statements.old.items)) (list (docs_in statements.new.items)) ctx.old ctx.new) }
    ensures logged { OnOk result (HasLogged (IsWatched T.watches ctx.old) T.trace (T.log pass.old) (T.log pass.new) (of_statements (list (docs_in statements.old.items)) (visits_each (docs_in statements.old.items) place levels))) }
{
    open_list(ctx)?;
    walk_opened(pass, statements, place, levels, ctx)?;
    close_statements(statements, is_program_body, ctx)
}

/// Walks a list of statements whose list of declarators is open: its hooks, and between them its
/// elements.
#[cycle(walk)]
fn walk_opened<T: Traverse>(
    pass: &mut T,
    statements: &mut Vec<Part>,
    place: Category,
    levels: u32,
    ctx: &mut TraverseCtx,
) -> Result<(), OutOfMemory>
    requires open { IsOpen ctx.old }
    ensures level { OnOk result (IsLevel ctx.old ctx.new) }
    ensures untouched { OnOk result (IsUntouched (IsWatched T.watches ctx.old) (list (docs_in statements.old.items)) (list (docs_in statements.new.items)) ctx.old ctx.new) }
    ensures logged { OnOk result (HasLogged (IsWatched T.watches ctx.old) T.trace (T.log pass.old) (T.log pass.new) (of_statements (list (docs_in statements.old.items)) (visits_each (docs_in statements.old.items) place levels))) }
{
    pass.enter_statements(statements, ctx)?;
    walk_elements(pass, statements, place, levels, ctx)?;
    pass.exit_statements(statements, ctx)
}

/// Walks the elements of a list.
#[cycle(walk)]
fn walk_elements<T: Traverse>(
    pass: &mut T,
    parts: &mut Vec<Part>,
    place: Category,
    levels: u32,
    ctx: &mut TraverseCtx,
) -> Result<(), OutOfMemory>
    requires open { IsOpen ctx.old }
    ensures level { OnOk result (IsLevel ctx.old ctx.new) }
    ensures untouched { OnOk result (IsUntouched (IsWatched T.watches ctx.old) (list (docs_in parts.old.items)) (list (docs_in parts.new.items)) ctx.old ctx.new) }
    ensures logged { OnOk result (HasLogged (IsWatched T.watches ctx.old) T.trace (T.log pass.old) (T.log pass.new) (visits_each (docs_in parts.old.items) place levels)) }
{
    for i in 0..parts.len() {
        walk_element(pass, &mut parts[i], place, levels, ctx)?;
    }
    Ok(())
}

/// Walks an element of a list.
#[cycle(walk)]
fn walk_element<T: Traverse>(
    pass: &mut T,
    part: &mut Part,
    place: Category,
    levels: u32,
    ctx: &mut TraverseCtx,
) -> Result<(), OutOfMemory>
    requires open { IsOpen ctx.old }
    ensures level { OnOk result (IsLevel ctx.old ctx.new) }
    ensures untouched { OnOk result (IsUntouched (IsWatched T.watches ctx.old) (part_doc part.old) (part_doc part.new) ctx.old ctx.new) }
    ensures logged { OnOk result (HasLogged (IsWatched T.watches ctx.old) T.trace (T.log pass.old) (T.log pass.new) (of_element (part_doc part.old) (visits (part_doc part.old) place levels))) }
{
    match part {
        Part::Node(node) => walk_node(pass, node, place, levels, ctx),
        _ => Ok(()),
    }
}

/// Walks the expression that an arrow returns, which is a list of declarators of its own.
#[cycle(walk)]
fn walk_expression_body<T: Traverse>(
    pass: &mut T,
    node: &mut Node,
    place: Category,
    levels: u32,
    ctx: &mut TraverseCtx,
) -> Result<(), OutOfMemory>
    requires open { IsOpen ctx.old }
    ensures level { OnOk result (IsLevel ctx.old ctx.new) }
    ensures untouched { OnOk result (IsUntouched (IsWatched T.watches ctx.old) (node_doc node.old) (node_doc node.new) ctx.old ctx.new) }
    ensures logged { OnOk result (HasLogged (IsWatched T.watches ctx.old) T.trace (T.log pass.old) (T.log pass.new) (visits (node_doc node.old) place levels)) }
{
    open_list(ctx)?;
    walk_node(pass, node, place, levels, ctx)?;
    close_expression(node, ctx)
}
