//! The expression that an arrow returns, which is a list of declarators of its own.
ghost use Rattle.std.specs.Prelude.{◌≡◌, ◌+◌, ◌++◌, ◌∷◌, [], IfOk, OnOk, length, option_map, option_to_list};
ghost use Rattle.oxt_stores.specs.Frame.{below_top, top_frame};
ghost use Rattle.oxt_stores.specs.Insertion.{docs};
ghost use Rattle.oxt_ctx.specs.Level.{IsOpen, declared};
ghost use Rattle.oxt_tree.specs.View.{node_doc};
ghost use Rattle.oxt_traverse.specs.Closed.{arrow_body, body_of, declarations, returned};

use oxt_ctx::context::TraverseCtx;
use oxt_grammar::kind::Kind;
use oxt_names::ids::{NodeIds, OutOfMemory, Span};
use oxt_tree::tree::{Node, Part};
use std::alloc::Global;

/// Leaves the list of declarators of the expression: where there are any, a body that declares them
/// and returns the expression takes its place.
pub fn close_expression(node: &mut Node, ctx: &mut TraverseCtx) -> Result<(), OutOfMemory>
    requires open { IsOpen ctx.old }
    ensures closed { OnOk result (node_doc node.new ≡ arrow_body ctx.old.ids.next
        (top_frame (declared ctx.old)) (declarations ctx.old.ids.next (top_frame (declared ctx.old)))
        (node_doc node.old)) }
    ensures injector { ctx.new.injector ≡ ctx.old.injector }
    ensures popped { OnOk result (declared ctx.new ≡ below_top (declared ctx.old)) }
    ensures lists { OnOk result (length (declared ctx.new) + 1 ≡ length (declared ctx.old)) }
    ensures around { ctx.new.ancestors ≡ ctx.old.ancestors }
{
    let (by_var, by_let) = ctx.var_declarations.get_var_statement(&mut ctx.ids)?;
    if by_var.is_some() || by_let.is_some() {
        let alloc = *node.parts.allocator();
        put_block(alloc, node, by_var, by_let, &mut ctx.ids)
    } else {
        Ok(())
    }
}

/// Puts in the place of the expression a body that has the statements and returns the expression.
fn put_block(
    alloc: Global,
    node: &mut Node,
    by_var: Option<Node>,
    by_let: Option<Node>,
    ids: &mut NodeIds,
) -> Result<(), OutOfMemory>
    ensures { OnOk result (node_doc node.new ≡ body_of (ids.old.next + 1)
        ((option_to_list (option_map node_doc by_var) ++ option_to_list (option_map node_doc by_let))
        ++ returned ids.old.next (node_doc node.old) ∷ [])) }
{
    let value = node.take_expression(alloc);
    let mut statements = Vec::with_capacity(alloc, 3)?;
    push_some(&mut statements, by_var)?;
    push_some(&mut statements, by_let)?;
    push_some(&mut statements, Some(returned(alloc, value, ids)?))?;
    *node = body_of(alloc, statements, ids)?;
    Ok(())
}

/// Appends the statement, if there is one.
fn push_some(statements: &mut Vec<Part>, statement: Option<Node>) -> Result<(), OutOfMemory>
    ensures { OnOk result (docs statements.new.items
        ≡ docs statements.old.items ++ option_to_list (option_map node_doc statement)) }
{
    if let Some(node) = statement {
        statements.push(Part::Node(node))?;
    }
    Ok(())
}

/// A statement that returns the expression.
fn returned(alloc: Global, value: Node, ids: &mut NodeIds) -> Result<Node, OutOfMemory>
    ensures made { IfOk result (λ made. node_doc made ≡ returned ids.old.next (node_doc value)) }
    ensures used { OnOk result (ids.new.next ≡ ids.old.next + 1) }
{
    let mut parts = Vec::with_capacity(alloc, 1)?;
    parts.push(Part::Node(value))?;
    Ok(Node {
        kind: Kind::ReturnStatement,
        id: ids.fresh()?,
        span: Span::NONE,
        parts,
    })
}

/// A body of a function that has the statements.
fn body_of(alloc: Global, statements: Vec<Part>, ids: &mut NodeIds) -> Result<Node, OutOfMemory>
    ensures { IfOk result
        (λ made. node_doc made ≡ body_of ids.old.next (docs statements.items)) }
{
    let mut parts = Vec::with_capacity(alloc, 2)?;
    parts.push(Part::List(Vec::new(alloc)))?;
    parts.push(Part::List(statements))?;
    Ok(Node {
        kind: Kind::FunctionBody,
        id: ids.fresh()?,
        span: Span::NONE,
        parts,
    })
}
