//! Functions without a name that are made, and the methods and fields of classes.
ghost use Rattle.std.specs.Prelude.{◌≡◌, ◌+◌, ◌<◌, ◌≤◌, IfOk, OnOk, length, option_map};
ghost use Rattle.oxt_ctx.specs.Functions.{field, function_body, function_of, method, parameter, parameters, with_function};
ghost use Rattle.oxt_grammar.specs.Words.{text_of};
ghost use Rattle.oxt_stores.specs.Insertion.{docs};
ghost use Rattle.oxt_tree.specs.View.{docs_in, node_doc};

use crate::context::TraverseCtx;
use crate::nodes::make;
use oxt_grammar::kind::Kind;
use oxt_grammar::word::Word;
use oxt_names::flags::ScopeFlags;
use oxt_names::ids::{NodeId, NodeIds, OutOfMemory, ScopeId, Span};
use oxt_tree::tree::{Node, Part};
use std::alloc::Global;
use std::vec;

/// Opens the scope of a function in that scope: the number of the function, and its scope.
pub fn open_function(
    flags: ScopeFlags,
    around: ScopeId,
    ctx: &mut TraverseCtx,
) -> Result<(NodeId, ScopeId), OutOfMemory>
    requires { around.0 < length ctx.old.scoping.scopes }
    ensures function { IfOk result (λ opened. opened.0.0 ≡ ctx.old.ids.next) }
    ensures scope { IfOk result (λ opened. opened.1.0 ≡ length ctx.old.scoping.scopes) }
    ensures opened { OnOk result (ctx.new ≡ with_function flags around ctx.old) }
    ensures more { OnOk result (length ctx.new.scoping.scopes ≡ length ctx.old.scoping.scopes + 1) }
    ensures declarations { ctx.new.declarations ≡ ctx.old.declarations }
    ensures ancestors { ctx.new.ancestors ≡ ctx.old.ancestors }
{
    let function = ctx.ids.fresh()?;
    let scope = ctx.scoping.open_scope(function, around, flags)?;
    Ok((function, scope))
}

/// The function of that number, without a name.
pub fn function_of(
    alloc: Global,
    number: NodeId,
    parameters: Node,
    body: Node,
) -> Result<Node, OutOfMemory>
    ensures { IfOk result (λ made. node_doc made
        ≡ function_of number.0 (node_doc parameters) (node_doc body)) }
{
    let parts = vec![in alloc;
        Part::Nothing,
        Part::Flag(false),
        Part::Flag(false),
        Part::Flag(false),
        Part::Nothing,
        Part::Nothing,
        Part::Node(parameters),
        Part::Nothing,
        Part::Node(body),
    ]?;
    Ok(Node {
        kind: Kind::FunctionExpression,
        id: number,
        span: Span::NONE,
        parts,
    })
}

/// A body of these statements.
pub fn function_body(
    alloc: Global,
    statements: Vec<Part>,
    ids: &mut NodeIds,
) -> Result<Node, OutOfMemory>
    ensures made { IfOk result (λ made. node_doc made ≡ function_body ids.old.next (docs statements.items)) }
    ensures used { OnOk result (ids.new.next ≡ ids.old.next + 1) }
    ensures risen { ids.old.next ≤ ids.new.next }
{
    let parts = vec![in alloc; Part::List(Vec::new(alloc)), Part::List(statements)]?;
    make(Kind::FunctionBody, parts, ids)
}

/// These parameters, of which none takes the rest.
pub fn parameters(alloc: Global, items: Vec<Part>, ids: &mut NodeIds) -> Result<Node, OutOfMemory>
    ensures made { IfOk result (λ made. node_doc made ≡ parameters ids.old.next (docs_in items.items)) }
    ensures used { OnOk result (ids.new.next ≡ ids.old.next + 1) }
    ensures risen { ids.old.next ≤ ids.new.next }
{
    let parts = vec![in alloc; Part::List(items), Part::Nothing]?;
    make(Kind::FormalParameters, parts, ids)
}

/// The parameter of that pattern.
pub fn parameter(alloc: Global, pattern: Node, ids: &mut NodeIds) -> Result<Node, OutOfMemory>
    ensures made { IfOk result (λ made. node_doc made ≡ parameter ids.old.next (node_doc pattern)) }
    ensures used { OnOk result (ids.new.next ≡ ids.old.next + 1) }
    ensures risen { ids.old.next ≤ ids.new.next }
{
    let parts = vec![in alloc;
        Part::List(Vec::new(alloc)),
        Part::Nothing,
        Part::Flag(false),
        Part::Flag(false),
        Part::Flag(false),
        Part::Node(pattern),
        Part::Nothing,
        Part::Nothing,
    ]?;
    make(Kind::FormalParameter, parts, ids)
}

/// The method of that sort, key and function.
pub fn method(
    alloc: Global,
    sort: Word,
    is_static: bool,
    key: Node,
    is_computed: bool,
    function: Node,
    ids: &mut NodeIds,
) -> Result<Node, OutOfMemory>
    ensures made { IfOk result (λ made. node_doc made
        ≡ method ids.old.next (text_of sort) is_static (node_doc key) is_computed (node_doc function)) }
    ensures used { OnOk result (ids.new.next ≡ ids.old.next + 1) }
    ensures risen { ids.old.next ≤ ids.new.next }
{
    let parts = vec![in alloc;
        Part::List(Vec::new(alloc)),
        Part::Node(key),
        Part::Flag(is_computed),
        Part::Word(sort),
        Part::Flag(is_static),
        Part::Flag(false),
        Part::Flag(false),
        Part::Nothing,
        Part::Node(function),
    ]?;
    make(Kind::MethodDefinition, parts, ids)
}

/// The field of that key, which is not computed, and that value, if any.
pub fn field(
    alloc: Global,
    key: Node,
    is_static: bool,
    value: Option<Node>,
    ids: &mut NodeIds,
) -> Result<Node, OutOfMemory>
    ensures made { IfOk result (λ made. node_doc made
        ≡ field ids.old.next (node_doc key) is_static (option_map node_doc value)) }
    ensures used { OnOk result (ids.new.next ≡ ids.old.next + 1) }
    ensures risen { ids.old.next ≤ ids.new.next }
{
    let held = match value {
        Some(value) => Part::Node(value),
        None => Part::Nothing,
    };
    let parts = vec![in alloc;
        Part::List(Vec::new(alloc)),
        Part::Node(key),
        Part::Flag(false),
        Part::Flag(is_static),
        Part::Flag(false),
        Part::Flag(false),
        Part::Flag(false),
        Part::Flag(false),
        Part::Flag(false),
        Part::Nothing,
        Part::Nothing,
        held,
    ]?;
    make(Kind::PropertyDefinition, parts, ids)
}
