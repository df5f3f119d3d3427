//! The call of the function of a block of a namespace.
ghost use Rattle.std.specs.Prelude.{◌≡◌, ◌+◌, ◌<◌, IfOk, IfSome, OnOk, length};
ghost use Rattle.oxt_lower.specs.Context.{but_table_of};

use crate::facts::{name_of, symbol_of};
use crate::function::{Opened, call_of, open_scope};
use oxt_ctx::bound::BindingNodes;
use oxt_ctx::context::TraverseCtx;
use oxt_ctx::nodes::{
    alternative, assignment, declaration, empty_object, make, member, property_name, statement,
};
use oxt_grammar::kind::Kind;
use oxt_grammar::word::Word;
use oxt_names::flags::{ReferenceFlags, SymbolFlags};
use oxt_names::ids::{NodeId, NodeIds, OutOfMemory, ScopeId, SymbolId};
use oxt_names::name::Name;
use oxt_stores::bound::BoundIdentifier;
use oxt_tree::tree::{Node, Part};
use std::alloc::Global;
use std::vec;

/// Opens the scope of the function of the block in that of the block, in which the block's names stay
/// declared, and makes the name of its parameter.
pub fn open_namespace(block: &Node, ctx: &mut TraverseCtx) -> Result<Opened, OutOfMemory>
    ensures symbol { IfOk result (λ opened. opened.parameter.symbol_id.0 < length ctx.new.scoping.symbols) }
    ensures more { OnOk result
        (length ctx.new.scoping.symbols ≡ length ctx.old.scoping.symbols + 1) }
    ensures frame { OnOk result (ctx.new ≡ but_table_of ctx.old ctx.new) }
{
    let name = name_of(block)?;
    let function = ctx.ids.fresh()?;
    let around = scope_of(block.id, ctx);
    let scope = open_scope(function, around, ctx)?;
    let flags = SymbolFlags::FunctionScopedVariable;
    let parameter = ctx.generate_uid(name.as_str(), scope, flags)?;
    Ok(Opened {
        function,
        parameter,
    })
}

/// The scope that the node opens; the current one where it opens none.
fn scope_of(node: NodeId, ctx: &TraverseCtx) -> ScopeId
    ensures live { result.0 < length ctx.now.scoping.scopes }
{
    match ctx.scoping.scope_of(node) {
        Some(scope) => scope,
        None => ctx.current_scope_id(),
    }
}

/// The name of a namespace, and what it means.
#[derive(Drop)]
struct Namespace {
    /// How it is spelled.
    name: Name,
    /// Its symbol.
    symbol: Option<SymbolId>,
}

/// The namespace of the block.
fn namespace_of(block: &Node, ctx: &TraverseCtx) -> Result<Namespace, OutOfMemory>
    ensures live { IfOk result (λ namespace. IfSome namespace.symbol
        (λ symbol. symbol.0 < length ctx.now.scoping.symbols)) }
{
    Ok(Namespace {
        name: name_of(block)?,
        symbol: symbol_of(&ctx.scoping, block),
    })
}

/// The statements that stand for a block with that function, which no other block exports.
pub fn alone_statements(
    block: &Node,
    is_exported: bool,
    function: Node,
    ctx: &mut TraverseCtx,
) -> Result<Vec<Part>, OutOfMemory>
    ensures frame { OnOk result (ctx.new ≡ but_table_of ctx.old ctx.new) }
    ensures symbols_stay { OnOk result
        (length ctx.new.scoping.symbols ≡ length ctx.old.scoping.symbols) }
{
    let alloc = *block.parts.allocator();
    let namespace = namespace_of(block, ctx)?;
    let object = empty_object(alloc, &mut ctx.ids)?;
    let call = call_with(alloc, &namespace, function, object, ctx)?;
    let declared = declared(alloc, block, &namespace.name, is_exported, ctx)?;
    statements_with(alloc, declared, call)
}

/// The statements that stand for a block with that function, which is exported by the block whose
/// function has that parameter.
pub fn member_statements(
    block: &Node,
    base: &BoundIdentifier,
    function: Node,
    ctx: &mut TraverseCtx,
) -> Result<Vec<Part>, OutOfMemory>
    requires { base.now.symbol_id.0 < length ctx.old.scoping.symbols }
    ensures frame { OnOk result (ctx.new ≡ but_table_of ctx.old ctx.new) }
    ensures symbols_stay { OnOk result
        (length ctx.new.scoping.symbols ≡ length ctx.old.scoping.symbols) }
{
    let alloc = *block.parts.allocator();
    let namespace = namespace_of(block, ctx)?;
    let object = object_on(alloc, base, &namespace.name, ctx)?;
    let call = call_with(alloc, &namespace, function, object, ctx)?;
    let declared = declared(alloc, block, &namespace.name, false, ctx)?;
    statements_with(alloc, declared, call)
}

/// The statement, behind the other where there is one.
fn statements_with(
    alloc: Global,
    declared: Option<Node>,
    statement: Node,
) -> Result<Vec<Part>, OutOfMemory> {
    match declared {
        Some(declared) => Ok(vec![in alloc; Part::Node(declared), Part::Node(statement)]?),
        None => Ok(vec![in alloc; Part::Node(statement)]?),
    }
}

/// `let N;`, or where the program exports the block `export let N;`; none where something of the name
/// emits code before the block.
fn declared(
    alloc: Global,
    block: &Node,
    name: &Name,
    is_exported: bool,
    ctx: &mut TraverseCtx,
) -> Result<Option<Node>, OutOfMemory>
    ensures frame { OnOk result (ctx.new ≡ but_table_of ctx.old ctx.new) }
    ensures symbols_stay { OnOk result
        (length ctx.new.scoping.symbols ≡ length ctx.old.scoping.symbols) }
{
    if !ctx.plan.is_first(block.id) {
        return Ok(None);
    }
    let declared = declaration(alloc, Word::Let, name, None, &mut ctx.ids)?;
    if is_exported {
        Ok(Some(exported(alloc, declared, &mut ctx.ids)?))
    } else {
        Ok(Some(declared))
    }
}

/// `export` of the declaration.
fn exported(alloc: Global, declaration: Node, ids: &mut NodeIds) -> Result<Node, OutOfMemory> {
    let parts = vec![in alloc; Part::Node(declaration)]?;
    make(Kind::ExportDeclaration, parts, ids)
}

/// `(function)(N || (N = object));`.
fn call_with(
    alloc: Global,
    namespace: &Namespace,
    function: Node,
    object: Node,
    ctx: &mut TraverseCtx,
) -> Result<Node, OutOfMemory>
    requires { IfSome namespace.now.symbol (λ symbol. symbol.0 < length ctx.old.scoping.symbols) }
    ensures frame { OnOk result (ctx.new ≡ but_table_of ctx.old ctx.new) }
    ensures symbols_stay { OnOk result
        (length ctx.new.scoping.symbols ≡ length ctx.old.scoping.symbols) }
{
    let argument = argument_of(alloc, namespace, object, ctx)?;
    let callee = parenthesized(alloc, function, &mut ctx.ids)?;
    let call = call_of(alloc, callee, argument, false, &mut ctx.ids)?;
    statement(alloc, call, &mut ctx.ids)
}

/// `N || (N = object)`.
fn argument_of(
    alloc: Global,
    namespace: &Namespace,
    object: Node,
    ctx: &mut TraverseCtx,
) -> Result<Node, OutOfMemory>
    requires { IfSome namespace.now.symbol (λ symbol. symbol.0 < length ctx.old.scoping.symbols) }
    ensures frame { OnOk result (ctx.new ≡ but_table_of ctx.old ctx.new) }
    ensures symbols_stay { OnOk result
        (length ctx.new.scoping.symbols ≡ length ctx.old.scoping.symbols) }
{
    let name = &namespace.name;
    let so_far = ctx.create_ident_expr(name, namespace.symbol, ReferenceFlags::Read)?;
    let target = ctx.create_ident_expr(name, namespace.symbol, ReferenceFlags::Write)?;
    or_put(alloc, so_far, target, object, &mut ctx.ids)
}

/// `base.N || (base.N = {})`.
fn object_on(
    alloc: Global,
    base: &BoundIdentifier,
    name: &Name,
    ctx: &mut TraverseCtx,
) -> Result<Node, OutOfMemory>
    requires { base.now.symbol_id.0 < length ctx.old.scoping.symbols }
    ensures frame { OnOk result (ctx.new ≡ but_table_of ctx.old ctx.new) }
    ensures symbols_stay { OnOk result
        (length ctx.new.scoping.symbols ≡ length ctx.old.scoping.symbols) }
{
    let so_far = member_on(alloc, base, name, ctx)?;
    let target = member_on(alloc, base, name, ctx)?;
    let object = empty_object(alloc, &mut ctx.ids)?;
    or_put(alloc, so_far, target, object, &mut ctx.ids)
}

/// `base.name`.
pub fn member_on(
    alloc: Global,
    base: &BoundIdentifier,
    name: &Name,
    ctx: &mut TraverseCtx,
) -> Result<Node, OutOfMemory>
    requires { base.now.symbol_id.0 < length ctx.old.scoping.symbols }
    ensures frame { OnOk result (ctx.new ≡ but_table_of ctx.old ctx.new) }
    ensures symbols_stay { OnOk result
        (length ctx.new.scoping.symbols ≡ length ctx.old.scoping.symbols) }
{
    let object = base.create_read_expression(ctx)?;
    let property = property_name(alloc, name, &mut ctx.ids)?;
    member(alloc, object, property, &mut ctx.ids)
}

/// `so_far || (target = object)`.
fn or_put(
    alloc: Global,
    so_far: Node,
    target: Node,
    object: Node,
    ids: &mut NodeIds,
) -> Result<Node, OutOfMemory> {
    let put = assignment(alloc, target, object, ids)?;
    let put = parenthesized(alloc, put, ids)?;
    alternative(alloc, so_far, put, ids)
}

/// `(e)`.
fn parenthesized(alloc: Global, expression: Node, ids: &mut NodeIds) -> Result<Node, OutOfMemory> {
    let parts = vec![in alloc; Part::Node(expression)]?;
    make(Kind::ParenthesizedExpression, parts, ids)
}
