//! The constructor that a class gets which has none.
ghost use Rattle.std.specs.Prelude.{◌≡◌, ◌+◌, ◌<◌, ◌∷◌, IfOk, OnOk, codes, false, length, true};
ghost use Rattle.oxt_stores.specs.Insertion.{docs};
ghost use Rattle.oxt_names.specs.Names.{name_bytes};
ghost use Rattle.oxt_tree.specs.View.{node_doc, part_doc};
ghost use Rattle.oxt_ctx.specs.Constructor.{constructed, constructor_method, constructor_flags, function_with, made_constructor, passing_function, rest_parameter, super_call, with_passing, with_super_call};
ghost use Rattle.oxt_ctx.specs.Made.{made_in, with_ids};

use crate::bound::BindingNodes;
use crate::context::TraverseCtx;
use crate::functions::{function_body, function_of, method, open_function};
use crate::nodes::{binding, call, make, property_name, statement};
use bitflags::Flags;
use oxt_grammar::kind::Kind;
use oxt_grammar::word::Word;
use oxt_names::flags::{ScopeFlags, SymbolFlags};
use oxt_names::ids::{NodeId, NodeIds, OutOfMemory, ScopeId};
use oxt_names::name::Name;
use oxt_stores::bound::BoundIdentifier;
use oxt_tree::tree::{Node, Part};
use std::alloc::Global;
use std::vec;

/// A constructor with these statements for a class of that scope. In a derived class it passes all that
/// it is given on to `super` first, under a made name. Where memory runs out, a scope, a name and numbers
/// may have been used up.
pub fn create_class_constructor(
    statements: Vec<Part>,
    has_super_class: bool,
    class_scope: ScopeId,
    ctx: &mut TraverseCtx,
) -> Result<Node, OutOfMemory>
    requires { class_scope.0 < length ctx.old.scoping.scopes }
    ensures made { IfOk result (λ made. node_doc made
        ≡ made_constructor has_super_class ctx.old.ids.next (made_in (codes "args") ctx.old) (docs statements.items)) }
    ensures entered { OnOk result (ctx.new ≡ constructed has_super_class class_scope ctx.old) }
    ensures declarations { ctx.new.declarations ≡ ctx.old.declarations }
    ensures ancestors { ctx.new.ancestors ≡ ctx.old.ancestors }
{
    if has_super_class {
        derived_constructor(statements, class_scope, ctx)
    } else {
        base_constructor(statements, class_scope, ctx)
    }
}

/// The constructor of a class that extends no other.
fn base_constructor(
    statements: Vec<Part>,
    class_scope: ScopeId,
    ctx: &mut TraverseCtx,
) -> Result<Node, OutOfMemory>
    requires { class_scope.0 < length ctx.old.scoping.scopes }
    ensures made { IfOk result (λ made. node_doc made
        ≡ made_constructor false ctx.old.ids.next (made_in (codes "args") ctx.old) (docs statements.items)) }
    ensures entered { OnOk result (ctx.new ≡ constructed false class_scope ctx.old) }
    ensures declarations { ctx.new.declarations ≡ ctx.old.declarations }
    ensures ancestors { ctx.new.ancestors ≡ ctx.old.ancestors }
{
    let alloc = ctx.memory();
    let (function, _) = open_function(constructor_flags(), class_scope, ctx)?;
    let value = function_with(alloc, function, Part::Nothing, statements, &mut ctx.ids)?;
    constructor_with(alloc, value, &mut ctx.ids)
}

/// The constructor of a class that extends another.
fn derived_constructor(
    statements: Vec<Part>,
    class_scope: ScopeId,
    ctx: &mut TraverseCtx,
) -> Result<Node, OutOfMemory>
    requires { class_scope.0 < length ctx.old.scoping.scopes }
    ensures made { IfOk result (λ made. node_doc made
        ≡ made_constructor true ctx.old.ids.next (made_in (codes "args") ctx.old) (docs statements.items)) }
    ensures entered { OnOk result (ctx.new ≡ constructed true class_scope ctx.old) }
    ensures declarations { ctx.new.declarations ≡ ctx.old.declarations }
    ensures ancestors { ctx.new.ancestors ≡ ctx.old.ancestors }
{
    let alloc = ctx.memory();
    let (function, scope) = open_function(constructor_flags(), class_scope, ctx)?;
    let value = passing_function(function, scope, statements, ctx)?;
    constructor_with(alloc, value, &mut ctx.ids)
}

/// The function of that number and scope, which passes all that it is given on to `super` first.
fn passing_function(
    number: NodeId,
    scope: ScopeId,
    mut statements: Vec<Part>,
    ctx: &mut TraverseCtx,
) -> Result<Node, OutOfMemory>
    requires { scope.0 < length ctx.old.scoping.scopes }
    ensures made { IfOk result (λ made. node_doc made
        ≡ passing_function number.0 ctx.old.ids.next (made_in (codes "args") ctx.old) (docs statements.items)) }
    ensures entered { OnOk result (ctx.new ≡ with_ids 2 (with_passing scope ctx.old)) }
    ensures declarations { ctx.new.declarations ≡ ctx.old.declarations }
    ensures ancestors { ctx.new.ancestors ≡ ctx.old.ancestors }
{
    let alloc = ctx.memory();
    let rest = pass_on(scope, &mut statements, ctx)?;
    function_with(alloc, number, rest, statements, &mut ctx.ids)
}

/// A constructor, which is always strict.
fn constructor_flags() -> ScopeFlags
    ensures { result ≡ constructor_flags }
{
    ScopeFlags::Function
        .union(ScopeFlags::Constructor)
        .union(ScopeFlags::StrictMode)
}

/// Puts the call of `super` in front of the statements: the parameter whose arguments it passes on.
fn pass_on(
    scope: ScopeId,
    statements: &mut Vec<Part>,
    ctx: &mut TraverseCtx,
) -> Result<Part, OutOfMemory>
    requires { scope.0 < length ctx.old.scoping.scopes }
    ensures rest { IfOk result (λ rest. part_doc rest
        ≡ rest_parameter (ctx.old.ids.next + 6) (made_in (codes "args") ctx.old)) }
    ensures statements { OnOk result (docs statements.new.items
        ≡ super_call (ctx.old.ids.next + 1) (made_in (codes "args") ctx.old) ∷ docs statements.old.items) }
    ensures entered { OnOk result (ctx.new ≡ with_passing scope ctx.old) }
    ensures declarations { ctx.new.declarations ≡ ctx.old.declarations }
    ensures ancestors { ctx.new.ancestors ≡ ctx.old.ancestors }
{
    let alloc = ctx.memory();
    let arguments = ctx.generate_uid("args", scope, SymbolFlags::FunctionScopedVariable)?;
    let call = super_call(alloc, &arguments, ctx)?;
    statements.insert(0, Part::Node(call))?;
    let rest = rest_of(alloc, &arguments.name, &mut ctx.ids)?;
    Ok(Part::Node(rest))
}

/// `super(...arguments);`.
fn super_call(
    alloc: Global,
    arguments: &BoundIdentifier,
    ctx: &mut TraverseCtx,
) -> Result<Node, OutOfMemory>
    requires { arguments.now.symbol_id.0 < length ctx.old.scoping.symbols }
    ensures made { IfOk result (λ made. node_doc made
        ≡ super_call ctx.old.ids.next (name_bytes arguments.now.name)) }
    ensures entered { OnOk result (ctx.new
        ≡ with_super_call arguments.now.symbol_id ctx.old) }
    ensures declarations { ctx.new.declarations ≡ ctx.old.declarations }
    ensures ancestors { ctx.new.ancestors ≡ ctx.old.ancestors }
{
    let callee = make(Kind::Super, Vec::new(alloc), &mut ctx.ids)?;
    let passed = arguments.create_read_expression(ctx)?;
    let spread = make(
        Kind::SpreadElement,
        vec![in alloc; Part::Node(passed)]?,
        &mut ctx.ids,
    )?;
    let arguments = vec![in alloc; Part::Node(spread)]?;
    let call = call(alloc, callee, arguments, &mut ctx.ids)?;
    statement(alloc, call, &mut ctx.ids)
}

/// The parameter `...name`.
fn rest_of(alloc: Global, name: &Name, ids: &mut NodeIds) -> Result<Node, OutOfMemory>
    ensures made { IfOk result (λ made. node_doc made
        ≡ rest_parameter ids.old.next (name_bytes name.now)) }
    ensures used { OnOk result (ids.new.next ≡ ids.old.next + 2) }
{
    let pattern = binding(alloc, name, ids)?;
    let parts = vec![in alloc; Part::Node(pattern), Part::Nothing]?;
    make(Kind::FormalParameterRest, parts, ids)
}

/// The function of that number with that last parameter and those statements.
fn function_with(
    alloc: Global,
    number: NodeId,
    rest: Part,
    statements: Vec<Part>,
    ids: &mut NodeIds,
) -> Result<Node, OutOfMemory>
    ensures made { IfOk result (λ made. node_doc made
        ≡ function_with number.0 ids.old.next (part_doc rest) (docs statements.items)) }
    ensures used { OnOk result (ids.new.next ≡ ids.old.next + 2) }
{
    let parts = vec![in alloc; Part::List(Vec::new(alloc)), rest]?;
    let parameters = make(Kind::FormalParameters, parts, ids)?;
    let body = function_body(alloc, statements, ids)?;
    function_of(alloc, number, parameters, body)
}

/// The constructor with that function.
fn constructor_with(alloc: Global, function: Node, ids: &mut NodeIds) -> Result<Node, OutOfMemory>
    ensures made { IfOk result (λ made. node_doc made
        ≡ constructor_method ids.old.next (node_doc function)) }
    ensures used { OnOk result (ids.new.next ≡ ids.old.next + 2) }
{
    let name = Name::new(alloc, "constructor")?;
    let key = property_name(alloc, &name, ids)?;
    method(alloc, Word::Constructor, false, key, false, function, ids)
}
