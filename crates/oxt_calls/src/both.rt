//! Two passes in one walk: at each hook the first comes before the second.
ghost use Rattle.std.specs.Prelude.{◌<◌, length};
ghost use Rattle.oxt_stores.specs.Frame.{frames};

use crate::context::{Calls, of_table, print_calls};
use oxt_ctx::context::TraverseCtx;
use oxt_ctx::hook::Hook;
use oxt_ctx::pass::Pass;
use oxt_grammar::kind::Kind;
use oxt_lines::lines::Lines;
use oxt_lines::nodes::{node, tree_of};
use oxt_lines::stopped::Stopped;
use oxt_lines::table::Table;
use oxt_names::ids::{NodeId, OutOfMemory};
use oxt_resolve::resolve::resolve;
use oxt_scoping::scoping::Scoping;
use oxt_traverse::both::Both;
use oxt_traverse::traverse::Traverse;
use oxt_tree::tree::{Node, Part, Program};
use oxt_walk::walk::walk_program;
use std::alloc::Global;

/// All hooks.
fn hooks() -> &'static [Hook] {
    &[
        Hook::EnterProgram,
        Hook::ExitProgram,
        Hook::EnterStatements,
        Hook::ExitStatements,
        Hook::EnterStatement,
        Hook::ExitStatement,
        Hook::EnterClass,
        Hook::ExitClass,
        Hook::EnterMethodDefinition,
        Hook::ExitMethodDefinition,
        Hook::EnterAccessorProperty,
        Hook::ExitAccessorProperty,
        Hook::EnterPropertyDefinition,
        Hook::ExitPropertyDefinition,
        Hook::EnterFunction,
        Hook::ExitFunction,
        Hook::ExitClassAtEnd,
        Hook::EnterDeclaration,
        Hook::EnterExpression,
        Hook::EnterDecorator,
        Hook::EnterArrowFunctionExpression,
        Hook::EnterVariableDeclaration,
        Hook::EnterVariableDeclarator,
        Hook::EnterCallExpression,
        Hook::EnterNewExpression,
        Hook::EnterTaggedTemplateExpression,
        Hook::EnterImportExpression,
        Hook::EnterChainElement,
        Hook::EnterSimpleAssignmentTarget,
        Hook::EnterAssignmentTarget,
        Hook::EnterFormalParameter,
        Hook::EnterFormalParameterRest,
        Hook::EnterCatchParameter,
        Hook::EnterJsxOpeningElement,
        Hook::EnterJsxElement,
        Hook::EnterJsxFragment,
        Hook::EnterIfStatement,
        Hook::EnterWhileStatement,
        Hook::EnterDoWhileStatement,
        Hook::EnterForStatement,
        Hook::EnterForInStatement,
        Hook::EnterForOfStatement,
        Hook::EnterImportDeclaration,
        Hook::EnterExportAllDeclaration,
        Hook::EnterExportFromDeclaration,
    ]
}

/// Two passes at one expression, and at each hook of a tree that reaches all.
pub fn print_both(alloc: Global, table: &Table, lines: &mut Lines) -> Result<(), Stopped> {
    let bytes = table.text(alloc, "hooks")?;
    print_calls(alloc, Calls::Both, lines)?;
    lines.heading("hooks at which the first gives up before the second, and at which both run");
    for hook in hooks() {
        print_hook(alloc, bytes.as_slice(), *hook, lines)?;
    }
    Ok(())
}

/// A line with the hook's name, and whether the first pass keeps the second from it, and whether the second
/// comes to it where the first does not give up.
fn print_hook(alloc: Global, bytes: &[u8], hook: Hook, lines: &mut Lines) -> Result<(), Stopped> {
    let is_first = !is_seen_beside(alloc, bytes, Some(hook), hook)?;
    let is_second = is_seen_beside(alloc, bytes, None, hook)?;
    let name = format!(in alloc; "{hook:?}")?;
    lines.answers(name.as_str(), &[is_first, is_second]);
    Ok(())
}

/// Whether the second pass comes to the hook, where the first gives up at that one.
fn is_seen_beside(
    alloc: Global,
    bytes: &[u8],
    end: Option<Hook>,
    hook: Hook,
) -> Result<bool, Stopped> {
    let mut program = tree_of(alloc, bytes)?;
    is_seen_in(alloc, &mut program, end, hook)
}

fn is_seen_in(
    alloc: Global,
    program: &mut Program,
    end: Option<Hook>,
    hook: Hook,
) -> Result<bool, Stopped> {
    let table = resolve(alloc, &program.root, false)?;
    is_seen_by(alloc, table, program, end, hook)
}

fn is_seen_by(
    alloc: Global,
    table: Scoping,
    program: &mut Program,
    end: Option<Hook>,
    hook: Hook,
) -> Result<bool, Stopped> {
    let mut ctx = of_table(alloc, table);
    let is_seen = walk_both(program, end, hook, &mut ctx);
    drop(ctx);
    is_seen
}

fn walk_both(
    program: &mut Program,
    end: Option<Hook>,
    hook: Hook,
    ctx: &mut TraverseCtx,
) -> Result<bool, Stopped> {
    let mut both = Both {
        first: Probe::Ends { at: end },
        second: Probe::Looks {
            hook,
            is_seen: false,
        },
    };
    let outcome = walk_program(&mut both, &mut program.root, ctx);
    if outcome.is_err() == end.is_some() {
        Ok(both.second.is_seen())
    } else {
        Err(Stopped::Walk)
    }
}

/// A pass that shows when it runs.
#[derive(Clone, Copy)]
enum Probe {
    /// Puts a digit behind the number of each node.
    Marks { digit: u64 },
    /// Gives up at a hook.
    Ends { at: Option<Hook> },
    /// Looks whether it comes to a hook.
    Looks { hook: Hook, is_seen: bool },
}

impl Probe {
    /// Whether it came to its hook.
    fn is_seen(self) -> bool {
        match self {
            Probe::Looks { is_seen, .. } => is_seen,
            _ => false,
        }
    }

    /// Comes to a hook.
    fn reach(&mut self, reached: Hook) -> Result<(), OutOfMemory> {
        match self {
            Probe::Marks { .. } => Ok(()),
            Probe::Ends { at } => {
                if *at == Some(reached) {
                    Err(OutOfMemory)
                } else {
                    Ok(())
                }
            }
            Probe::Looks { hook, is_seen } => {
                *is_seen = *is_seen || *hook == reached;
                Ok(())
            }
        }
    }
}

impl Pass for Probe {
    fn at_node(
        &mut self,
        hook: Hook,
        node: &mut Node,
        _ctx: &mut TraverseCtx,
    ) -> Result<(), OutOfMemory> {
        if let Probe::Marks { digit } = self {
            node.id = with_digit(node.id, *digit)?;
        }
        self.reach(hook)
    }

    fn at_statements(
        &mut self,
        hook: Hook,
        _statements: &mut Vec<Part>,
        _ctx: &mut TraverseCtx,
    ) -> Result<(), OutOfMemory> {
        self.reach(hook)
    }
}

/// The number with one digit more.
fn with_digit(id: NodeId, digit: u64) -> Result<NodeId, OutOfMemory> {
    match id
        .0
        .checked_mul(10)
        .and_then(|number| number.checked_add(digit))
    {
        Some(number) => Ok(NodeId(number)),
        None => Err(OutOfMemory),
    }
}

/// Enters an expression by two passes.
pub fn print_twice(alloc: Global, ctx: &mut TraverseCtx, lines: &mut Lines) -> Result<(), Stopped>
    requires { 0 < length (frames ctx.old.declarations) }
{
    let number = number_of_entered(alloc, ctx)?;
    lines.numbers(
        "1, behind which the first pass puts 2 and the second 3",
        &[number],
    );
    Ok(())
}

/// The number of an expression that two passes entered.
fn number_of_entered(alloc: Global, ctx: &mut TraverseCtx) -> Result<u64, Stopped>
    requires { 0 < length (frames ctx.old.declarations) }
{
    let mut this = node(Kind::ThisExpression, 1, Vec::new(alloc));
    enter_twice(&mut this, ctx)?;
    Ok(this.id.0)
}

/// Enters the expression by two passes.
fn enter_twice(node: &mut Node, ctx: &mut TraverseCtx) -> Result<(), Stopped>
    requires { 0 < length (frames ctx.old.declarations) }
{
    let mut both = Both {
        first: Probe::Marks { digit: 2 },
        second: Probe::Marks { digit: 3 },
    };
    both.enter_expression(node, ctx)?;
    Ok(())
}
