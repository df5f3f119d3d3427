//! The getter and the setter that read and write a storage.
ghost use Rattle.std.specs.Prelude.{◌≡◌, ◌+◌, ◌<◌, IfOk, OnOk, length};
ghost use Rattle.oxt_ctx.specs.Accessor.{accessor_function, getter, getter_flags, getting_function, put_statement, putting_function, setter, setter_flags, set_parameter, setting_function, value_text, with_getter, with_setter, with_value};
ghost use Rattle.oxt_ctx.specs.Made.{reference, with_ids};
ghost use Rattle.oxt_tree.specs.View.{docs_in, node_doc};

use crate::bound::BindingNodes;
use crate::context::TraverseCtx;
use crate::functions::{function_body, function_of, method, open_function, parameter, parameters};
use crate::nodes::{assignment, returned, statement};
use bitflags::Flags;
use oxt_grammar::word::Word;
use oxt_names::flags::{ScopeFlags, SymbolFlags};
use oxt_names::ids::{NodeId, NodeIds, OutOfMemory, ScopeId};
use oxt_names::name::Name;
use oxt_tree::tree::{Node, Part};
use std::alloc::Global;
use std::vec;

/// `get key() { return storage; }`, in a class of that scope. Where memory runs out, a scope and numbers
/// may have been used up.
pub fn create_getter(
    is_static: bool,
    key: Node,
    is_computed: bool,
    storage: Node,
    class_scope: ScopeId,
    ctx: &mut TraverseCtx,
) -> Result<Node, OutOfMemory>
    requires { class_scope.0 < length ctx.old.scoping.scopes }
    ensures made { IfOk result (λ made. node_doc made
        ≡ getter ctx.old.ids.next is_static (node_doc key) is_computed (node_doc storage)) }
    ensures entered { OnOk result (ctx.new ≡ with_getter class_scope ctx.old) }
    ensures declarations { ctx.new.declarations ≡ ctx.old.declarations }
    ensures ancestors { ctx.new.ancestors ≡ ctx.old.ancestors }
{
    let alloc = ctx.memory();
    let (number, _) = open_function(getter_flags(), class_scope, ctx)?;
    let function = getting_function(alloc, number, storage, &mut ctx.ids)?;
    method(
        alloc,
        Word::Get,
        is_static,
        key,
        is_computed,
        function,
        &mut ctx.ids,
    )
}

/// `set key(value) { storage = value; }`, in a class of that scope. Where memory runs out, a scope, a
/// name and numbers may have been used up.
pub fn create_setter(
    is_static: bool,
    key: Node,
    is_computed: bool,
    storage: Node,
    class_scope: ScopeId,
    ctx: &mut TraverseCtx,
) -> Result<Node, OutOfMemory>
    requires { class_scope.0 < length ctx.old.scoping.scopes }
    ensures made { IfOk result (λ made. node_doc made
        ≡ setter ctx.old.ids.next is_static (node_doc key) is_computed (node_doc storage)) }
    ensures entered { OnOk result (ctx.new ≡ with_setter class_scope ctx.old) }
    ensures declarations { ctx.new.declarations ≡ ctx.old.declarations }
    ensures ancestors { ctx.new.ancestors ≡ ctx.old.ancestors }
{
    let alloc = ctx.memory();
    let (number, scope) = open_function(setter_flags(), class_scope, ctx)?;
    let function = setting_function(number, scope, storage, ctx)?;
    method(
        alloc,
        Word::Set,
        is_static,
        key,
        is_computed,
        function,
        &mut ctx.ids,
    )
}

/// The flags of the scope of a getter, which is always strict.
fn getter_flags() -> ScopeFlags
    ensures { result ≡ getter_flags }
{
    ScopeFlags::Function
        .union(ScopeFlags::GetAccessor)
        .union(ScopeFlags::StrictMode)
}

/// The flags of the scope of a setter, which is always strict.
fn setter_flags() -> ScopeFlags
    ensures { result ≡ setter_flags }
{
    ScopeFlags::Function
        .union(ScopeFlags::SetAccessor)
        .union(ScopeFlags::StrictMode)
}

/// The function of that number that answers the storage.
fn getting_function(
    alloc: Global,
    number: NodeId,
    storage: Node,
    ids: &mut NodeIds,
) -> Result<Node, OutOfMemory>
    ensures made { IfOk result (λ made. node_doc made
        ≡ getting_function number.0 ids.old.next (node_doc storage)) }
    ensures used { OnOk result (ids.new.next ≡ ids.old.next + 3) }
{
    let answer = returned(alloc, storage, ids)?;
    accessor_function(alloc, number, Vec::new(alloc), answer, ids)
}

/// The function of that number and scope that puts what it is given into the storage.
fn setting_function(
    number: NodeId,
    scope: ScopeId,
    storage: Node,
    ctx: &mut TraverseCtx,
) -> Result<Node, OutOfMemory>
    requires { scope.0 < length ctx.old.scoping.scopes }
    ensures made { IfOk result (λ made. node_doc made
        ≡ setting_function number.0 ctx.old.ids.next (node_doc storage)) }
    ensures entered { OnOk result (ctx.new ≡ with_ids 4 (with_value scope ctx.old)) }
    ensures declarations { ctx.new.declarations ≡ ctx.old.declarations }
    ensures ancestors { ctx.new.ancestors ≡ ctx.old.ancestors }
{
    let alloc = ctx.memory();
    let (taken, value) = value_parameter(scope, ctx)?;
    putting_function(alloc, number, taken, storage, value, &mut ctx.ids)
}

/// The function of that number and parameter that puts the value into the storage.
fn putting_function(
    alloc: Global,
    number: NodeId,
    taken: Node,
    storage: Node,
    value: Node,
    ids: &mut NodeIds,
) -> Result<Node, OutOfMemory>
    ensures made { IfOk result (λ made. node_doc made
        ≡ putting_function number.0 ids.old.next (node_doc taken) (node_doc storage) (node_doc value)) }
    ensures used { OnOk result (ids.new.next ≡ ids.old.next + 4) }
{
    let put = put_statement(alloc, storage, value, ids)?;
    let items = vec![in alloc; Part::Node(taken)]?;
    accessor_function(alloc, number, items, put, ids)
}

/// `storage = value;`.
fn put_statement(
    alloc: Global,
    storage: Node,
    value: Node,
    ids: &mut NodeIds,
) -> Result<Node, OutOfMemory>
    ensures made { IfOk result (λ made. node_doc made
        ≡ put_statement ids.old.next (node_doc storage) (node_doc value)) }
    ensures used { OnOk result (ids.new.next ≡ ids.old.next + 2) }
{
    let put = assignment(alloc, storage, value, ids)?;
    statement(alloc, put, ids)
}

/// The parameter `value` of the function of that scope, and a use of it.
fn value_parameter(scope: ScopeId, ctx: &mut TraverseCtx) -> Result<(Node, Node), OutOfMemory>
    requires { scope.0 < length ctx.old.scoping.scopes }
    ensures taken { IfOk result (λ made. node_doc made.0 ≡ set_parameter (ctx.old.ids.next + 1)) }
    ensures value { IfOk result (λ made. node_doc made.1 ≡ reference (ctx.old.ids.next + 3) value_text) }
    ensures entered { OnOk result (ctx.new ≡ with_value scope ctx.old) }
    ensures declarations { ctx.new.declarations ≡ ctx.old.declarations }
    ensures ancestors { ctx.new.ancestors ≡ ctx.old.ancestors }
{
    let alloc = ctx.memory();
    let name = Name::new(alloc, "value")?;
    let bound = ctx.generate_binding(&name, scope, SymbolFlags::FunctionScopedVariable)?;
    let pattern = bound.create_binding_pattern(ctx)?;
    let taken = parameter(alloc, pattern, &mut ctx.ids)?;
    let value = bound.create_read_expression(ctx)?;
    Ok((taken, value))
}

/// The function of that number, of these parameters and that statement.
fn accessor_function(
    alloc: Global,
    number: NodeId,
    items: Vec<Part>,
    body: Node,
    ids: &mut NodeIds,
) -> Result<Node, OutOfMemory>
    ensures made { IfOk result (λ made. node_doc made
        ≡ accessor_function number.0 ids.old.next (docs_in items.items) (node_doc body)) }
    ensures used { OnOk result (ids.new.next ≡ ids.old.next + 2) }
{
    let taken = parameters(alloc, items, ids)?;
    let statements = vec![in alloc; Part::Node(body)]?;
    let body = function_body(alloc, statements, ids)?;
    function_of(alloc, number, taken, body)
}
