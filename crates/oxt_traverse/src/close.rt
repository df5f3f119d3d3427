//! Lists of statements as the walk opens and leaves them.
ghost use Rattle.std.specs.Prelude.{◌≡◌, ◌+◌, ◌<◌, ◌≤◌, ◌++◌, ◌∷◌, [], ℕ, OnOk, drop, if◌then◌else◌, length, option_map, option_to_list, take};
ghost use Rattle.oxt_stores.specs.Frame.{below_top, frames, no_declarators, top_frame};
ghost use Rattle.oxt_stores.specs.Insertion.{docs};
ghost use Rattle.oxt_injector.specs.Placed.{left, placed};
ghost use Rattle.oxt_ctx.specs.Level.{IsOpen, declared, waits};
ghost use Rattle.oxt_tree.specs.View.{node_doc, part_doc};
ghost use Rattle.oxt_traverse.specs.Closed.{below_imports, declarations, imports, with_declarations};

use oxt_ctx::context::TraverseCtx;
use oxt_grammar::kind::Kind;
use oxt_names::ids::{NodeIds, OutOfMemory};
use oxt_stores::declarations::VarDeclarationsStore;
use oxt_tree::tree::{Node, Part};

/// Opens a list of declarators.
pub fn open_list(ctx: &mut TraverseCtx) -> Result<(), OutOfMemory>
    ensures opened { OnOk result
        (declared ctx.new ≡ declared ctx.old ++ no_declarators ∷ []) }
    ensures injector { ctx.new.injector ≡ ctx.old.injector }
    ensures around { ctx.new.ancestors ≡ ctx.old.ancestors }
    ensures lists { OnOk result (length (declared ctx.new) ≡ length (declared ctx.old) + 1) }
{
    ctx.var_declarations.record_entering_statements()
}

/// Leaves a list of statements: puts among them what waits beside them, and then puts at their top,
/// or in the program's body below its first imports, the declarators of the list.
pub fn close_statements(
    statements: &mut Vec<Part>,
    is_program_body: bool,
    ctx: &mut TraverseCtx,
) -> Result<(), OutOfMemory>
    requires open { IsOpen ctx.old }
    ensures closed { OnOk result (docs statements.new.items
        ≡ with_declarations is_program_body (declarations ctx.old.ids.next (top_frame (declared ctx.old)))
        (placed (docs statements.old.items) (waits ctx.old))) }
    ensures waiting { OnOk result ((n : ℕ) → waits ctx.new n
        ≡ left (waits ctx.old) (docs statements.old.items) n) }
    ensures popped { OnOk result (declared ctx.new ≡ below_top (declared ctx.old)) }
    ensures lists { OnOk result (length (declared ctx.new) + 1 ≡ length (declared ctx.old)) }
    ensures around { ctx.new.ancestors ≡ ctx.old.ancestors }
{
    ctx.statement_injector.insert_into_statements(statements)?;
    declare(
        statements,
        is_program_body,
        &mut ctx.var_declarations,
        &mut ctx.ids,
    )
}

/// Leaves the innermost list of declarators, and puts them at the top of the statements, or in the
/// program's body below its first imports.
fn declare(
    statements: &mut Vec<Part>,
    is_program_body: bool,
    declared: &mut VarDeclarationsStore,
    ids: &mut NodeIds,
) -> Result<(), OutOfMemory>
    requires { 0 < length (frames declared.old) }
    ensures declared { OnOk result (docs statements.new.items
        ≡ with_declarations is_program_body
        (declarations ids.old.next (top_frame (frames declared.old))) (docs statements.old.items)) }
    ensures popped { OnOk result (frames declared.new ≡ below_top (frames declared.old)) }
{
    if is_program_body {
        declare_below_imports(statements, declared, ids)
    } else {
        declare_at_top(statements, declared, ids)
    }
}

/// Leaves the innermost list of declarators, and puts them in front of all statements.
fn declare_at_top(
    statements: &mut Vec<Part>,
    declared: &mut VarDeclarationsStore,
    ids: &mut NodeIds,
) -> Result<(), OutOfMemory>
    requires { 0 < length (frames declared.old) }
    ensures declared { OnOk result (docs statements.new.items
        ≡ declarations ids.old.next (top_frame (frames declared.old)) ++ docs statements.old.items) }
    ensures popped { OnOk result (frames declared.new ≡ below_top (frames declared.old)) }
{
    let (by_var, by_let) = declared.get_var_statement(ids)?;
    insert_at(statements, 0, by_let)?;
    insert_at(statements, 0, by_var)
}

/// Leaves the innermost list of declarators, and puts them in front of the first statement that is
/// no import.
fn declare_below_imports(
    statements: &mut Vec<Part>,
    declared: &mut VarDeclarationsStore,
    ids: &mut NodeIds,
) -> Result<(), OutOfMemory>
    requires { 0 < length (frames declared.old) }
    ensures declared { OnOk result (docs statements.new.items
        ≡ below_imports (declarations ids.old.next (top_frame (frames declared.old)))
        (docs statements.old.items)) }
    ensures popped { OnOk result (frames declared.new ≡ below_top (frames declared.old)) }
{
    let (by_var, by_let) = declared.get_var_statement(ids)?;
    let place = count_imports(statements.as_slice());
    insert_at(statements, place, by_let)?;
    insert_at(statements, place, by_var)
}

/// How many imports the statements begin with.
#[tactic(auto, using(crate::proofs::Imports::import_more, crate::proofs::Imports::import_none, crate::proofs::Imports::import_done))]
fn count_imports(statements: &[Part]) -> usize
    ensures { result ≡ imports (docs statements.now) }
{
    for i in 0..statements.len() {
        if !statements[i].is_kind(Kind::ImportDeclaration) {
            return i;
        }
    }
    statements.len()
}

/// Puts the statement, if there is one, at the place.
fn insert_at(
    statements: &mut Vec<Part>,
    place: usize,
    statement: Option<Node>,
) -> Result<(), OutOfMemory>
    requires { place ≤ length statements.old.items }
    ensures { OnOk result (docs statements.new.items ≡ take place (docs statements.old.items)
        ++ (option_to_list (option_map node_doc statement)
        ++ drop place (docs statements.old.items))) }
{
    if let Some(node) = statement {
        let part = part_of(node);
        statements.insert(place, part)?;
    }
    Ok(())
}

/// The node as a part.
fn part_of(node: Node) -> Part
    ensures { part_doc result ≡ node_doc node }
{
    Part::Node(node)
}
