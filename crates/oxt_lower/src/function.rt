//! The function of the block of an enum, and its call.
ghost use Rattle.std.specs.Prelude.{◌≡◌, ◌+◌, ◌<◌, IfOk, IfSome, OnOk, length};
ghost use Rattle.oxt_lower.specs.Context.{but_table_of};

use crate::facts::BlockFacts;
use crate::members::{Member, Taken};
use crate::puts::function_statements;
use bitflags::Flags;
use oxt_ctx::bound::BindingNodes;
use oxt_ctx::context::TraverseCtx;
use oxt_ctx::nodes::{alternative, empty_object, make};
use oxt_grammar::kind::Kind;
use oxt_names::flags::{ReferenceFlags, ScopeFlags, SymbolFlags};
use oxt_names::ids::{NodeId, NodeIds, OutOfMemory, ScopeId, Span, SymbolId};
use oxt_names::name::Name;
use oxt_scoping::scoping::Scoping;
use oxt_stores::bound::BoundIdentifier;
use oxt_tree::tree::{Node, Part};
use std::alloc::Global;
use std::vec;

/// The function of a block: its number, and its parameter.
#[derive(Drop)]
pub struct Opened {
    /// The number.
    pub function: NodeId,
    /// The parameter, which has the name of the enum.
    pub parameter: BoundIdentifier,
}

/// Opens the scope of a function in the current one, and binds the name of the enum in it.
pub fn open_function(name: &Name, ctx: &mut TraverseCtx) -> Result<Opened, OutOfMemory>
    ensures symbol { IfOk result (λ opened. opened.parameter.symbol_id.0 < length ctx.new.scoping.symbols) }
    ensures more { OnOk result
        (length ctx.new.scoping.symbols ≡ length ctx.old.scoping.symbols + 1) }
    ensures frame { OnOk result (ctx.new ≡ but_table_of ctx.old ctx.new) }
{
    let function = ctx.ids.fresh()?;
    let around = ctx.current_scope_id();
    let scope = open_scope(function, around, ctx)?;
    let parameter = ctx.generate_binding(name, scope, SymbolFlags::FunctionScopedVariable)?;
    Ok(Opened {
        function,
        parameter,
    })
}

/// Opens the scope of the function of that number in that one.
pub fn open_scope(
    function: NodeId,
    around: ScopeId,
    ctx: &mut TraverseCtx,
) -> Result<ScopeId, OutOfMemory>
    requires { around.0 < length ctx.old.scoping.scopes }
    ensures live { IfOk result (λ scope. scope.0 < length ctx.new.scoping.scopes) }
    ensures symbols_stay { OnOk result
        (length ctx.new.scoping.symbols ≡ length ctx.old.scoping.symbols) }
    ensures frame { OnOk result (ctx.new ≡ but_table_of ctx.old ctx.new) }
{
    let flags = function_flags(ctx.scoping.scope_flags(around));
    ctx.scoping.open_scope(function, around, flags)
}

/// The flags of a function in a scope of those flags.
fn function_flags(around: ScopeFlags) -> ScopeFlags {
    ScopeFlags::Function.union(around.intersection(ScopeFlags::StrictMode))
}

/// The call of the function of the block with these members.
pub fn block_call(
    alloc: Global,
    block: &BlockFacts,
    taken: Taken,
    ctx: &mut TraverseCtx,
) -> Result<Node, OutOfMemory>
    requires { IfSome block.now.symbol (λ enum. enum.0 < length ctx.old.scoping.symbols) }
    ensures frame { OnOk result (ctx.new ≡ but_table_of ctx.old ctx.new) }
    ensures more { OnOk result
        (length ctx.new.scoping.symbols ≡ length ctx.old.scoping.symbols + 1) }
{
    let Taken { members, uses } = taken;
    let opened = open_function(&block.name, ctx)?;
    refer_all(
        uses.as_slice(),
        opened.parameter.symbol_id,
        &mut ctx.scoping,
    )?;
    let callee = enum_function(alloc, opened, members, ctx)?;
    call_with(alloc, block, callee, ctx)
}

/// Enters the names in the table as uses of the symbol.
fn refer_all(uses: &[NodeId], symbol: SymbolId, scoping: &mut Scoping) -> Result<(), OutOfMemory>
    requires { symbol.0 < length scoping.old.symbols }
    ensures symbols_stay { OnOk result (length scoping.new.symbols ≡ length scoping.old.symbols) }
    ensures scopes_stay { length scoping.new.scopes ≡ length scoping.old.scopes }
{
    for node in uses {
        scoping.create_reference(*node, Some(symbol), ReferenceFlags::Read)?;
    }
    Ok(())
}

/// The call of the function.
fn call_with(
    alloc: Global,
    block: &BlockFacts,
    callee: Node,
    ctx: &mut TraverseCtx,
) -> Result<Node, OutOfMemory>
    requires { IfSome block.now.symbol (λ enum. enum.0 < length ctx.old.scoping.symbols) }
    ensures frame { OnOk result (ctx.new ≡ but_table_of ctx.old ctx.new) }
    ensures symbols_stay { OnOk result
        (length ctx.new.scoping.symbols ≡ length ctx.old.scoping.symbols) }
{
    let argument = argument_of(alloc, block, ctx)?;
    call_of(alloc, callee, argument, block.is_pure, &mut ctx.ids)
}

/// The function.
fn enum_function(
    alloc: Global,
    opened: Opened,
    members: Vec<Member>,
    ctx: &mut TraverseCtx,
) -> Result<Node, OutOfMemory>
    requires { opened.parameter.symbol_id.0 < length ctx.old.scoping.symbols }
    ensures frame { OnOk result (ctx.new ≡ but_table_of ctx.old ctx.new) }
    ensures symbols_stay { OnOk result
        (length ctx.new.scoping.symbols ≡ length ctx.old.scoping.symbols) }
{
    let statements = function_statements(alloc, members, &opened.parameter, ctx)?;
    let no_directives = Vec::new(alloc);
    let body = body_of(alloc, no_directives, statements, &mut ctx.ids)?;
    function_with(alloc, opened, body, ctx)
}

/// The function, which has that body.
pub fn function_with(
    alloc: Global,
    opened: Opened,
    body: Node,
    ctx: &mut TraverseCtx,
) -> Result<Node, OutOfMemory>
    ensures frame { OnOk result (ctx.new ≡ but_table_of ctx.old ctx.new) }
    ensures symbols_stay { OnOk result
        (length ctx.new.scoping.symbols ≡ length ctx.old.scoping.symbols) }
{
    let pattern = opened.parameter.create_binding_pattern(ctx)?;
    let parameters = parameters_of(alloc, pattern, &mut ctx.ids)?;
    function_of(alloc, opened.function, parameters, body)
}

/// The parameters of a function: one of that pattern.
fn parameters_of(alloc: Global, pattern: Node, ids: &mut NodeIds) -> Result<Node, OutOfMemory> {
    let parameter = parameter_of(alloc, pattern, ids)?;
    let items = vec![in alloc; Part::Node(parameter)]?;
    let parts = vec![in alloc; Part::List(items), Part::Nothing]?;
    make(Kind::FormalParameters, parts, ids)
}

/// A parameter of that pattern, without a type.
fn parameter_of(alloc: Global, pattern: Node, ids: &mut NodeIds) -> Result<Node, OutOfMemory> {
    let parts = vec![in alloc;
        Part::List(Vec::new(alloc)),
        Part::Nothing,
        Part::Flag(false),
        Part::Flag(false),
        Part::Flag(false),
        Part::Node(pattern),
        Part::Nothing,
        Part::Nothing,
    ]?;
    make(Kind::FormalParameter, parts, ids)
}

/// The body of a function.
pub fn body_of(
    alloc: Global,
    directives: Vec<Part>,
    statements: Vec<Part>,
    ids: &mut NodeIds,
) -> Result<Node, OutOfMemory> {
    let parts = vec![in alloc; Part::List(directives), Part::List(statements)]?;
    make(Kind::FunctionBody, parts, ids)
}

/// The function of that number, without a name.
fn function_of(
    alloc: Global,
    number: NodeId,
    parameters: Node,
    body: Node,
) -> Result<Node, OutOfMemory> {
    let parts = vec![in alloc;
        Part::Nothing,
        Part::Flag(false),
        Part::Flag(false),
        Part::Flag(false),
        Part::Nothing,
        Part::Nothing,
        Part::Node(parameters),
        Part::Nothing,
        Part::Node(body),
    ]?;
    Ok(Node {
        kind: Kind::FunctionExpression,
        id: number,
        span: Span::NONE,
        parts,
    })
}

/// What is handed to the function: a new object, or what the enum is so far, if anything.
fn argument_of(
    alloc: Global,
    block: &BlockFacts,
    ctx: &mut TraverseCtx,
) -> Result<Node, OutOfMemory>
    requires { IfSome block.now.symbol (λ enum. enum.0 < length ctx.old.scoping.symbols) }
    ensures frame { OnOk result (ctx.new ≡ but_table_of ctx.old ctx.new) }
    ensures symbols_stay { OnOk result
        (length ctx.new.scoping.symbols ≡ length ctx.old.scoping.symbols) }
{
    if block.is_first && block.is_let {
        return empty_object(alloc, &mut ctx.ids);
    }
    let so_far = ctx.create_ident_expr(&block.name, block.symbol, ReferenceFlags::Read)?;
    let object = empty_object(alloc, &mut ctx.ids)?;
    alternative(alloc, so_far, object, &mut ctx.ids)
}

/// A call with one argument.
pub fn call_of(
    alloc: Global,
    callee: Node,
    argument: Node,
    is_pure: bool,
    ids: &mut NodeIds,
) -> Result<Node, OutOfMemory> {
    let arguments = vec![in alloc; Part::Node(argument)]?;
    let parts = vec![in alloc;
        Part::Node(callee),
        Part::Nothing,
        Part::List(arguments),
        Part::Flag(false),
        Part::Flag(is_pure),
    ]?;
    make(Kind::CallExpression, parts, ids)
}
