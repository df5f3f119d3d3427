//! The keys of class elements, and the variables that hold them.
ghost use Rattle.std.specs.Prelude.{◌≡◌, ◌+◌, ◌<◌, IfOk, OnOk, length};
ghost use Rattle.oxt_stores.specs.Frame.{frames};
ghost use Rattle.oxt_names.specs.Names.{name_bytes};
ghost use Rattle.oxt_tree.specs.View.{node_doc};
ghost use Rattle.oxt_ctx.specs.Keys.{copied_key, first_use, is_literal, is_steady, needs_variable, second_use, with_let_declared, with_var_where};
ghost use Rattle.oxt_ctx.specs.Made.{after, but_names_of, made_in, reference};
ghost use Rattle.oxt_ctx.specs.Nodes.{assignment};
ghost use Rattle.oxt_ctx.specs.Text.{name_text};

use crate::bound::BindingNodes;
use crate::context::TraverseCtx;
use crate::maybe::MaybeBoundIdentifier;
use crate::nodes::assignment;
use crate::text::get_var_name_from_node;
use crate::uid::create_uid_var_based_on_node;
use oxt_grammar::kind::Kind;
use oxt_names::flags::{ReferenceFlags, SymbolFlags};
use oxt_names::ids::{OutOfMemory, Span};
use oxt_stores::bound::BoundIdentifier;
use oxt_tree::tree::Node;

/// Whether the key is to be kept in a variable where it is needed later: it is neither a literal nor a
/// name of which the plan knows that nothing writes to it.
pub fn key_needs_temp_var(key: &Node, ctx: &TraverseCtx) -> bool
    ensures { result ≡ needs_variable ctx.now.plan key.now.kind key.now.id.0 }
{
    !(is_literal(key.kind) || is_steady(key, ctx))
}

/// Whether the key is a name of which the plan knows that nothing writes to it.
fn is_steady(key: &Node, ctx: &TraverseCtx) -> bool
    ensures { result ≡ is_steady ctx.now.plan key.now.kind key.now.id.0 }
{
    key.kind.is(Kind::IdentifierReference) && ctx.plan.is_never_written(key.id)
}

/// Whether it is a literal.
fn is_literal(kind: Kind) -> bool
    ensures { result ≡ is_literal kind }
{
    kind.is(Kind::BooleanLiteral)
        || (kind.is(Kind::NullLiteral)
            || (kind.is(Kind::NumericLiteral)
                || (kind.is(Kind::StringLiteral)
                    || (kind.is(Kind::BigIntLiteral) || kind.is(Kind::RegExpLiteral)))))
}

/// Makes a variable for the key, from whose text its name is made, and declares it by `let` in the
/// innermost list of statements: the key that is put into it, and the variable that is read. Where
/// memory runs out, names and numbers may have been used up.
pub fn create_computed_key_temp_var(
    key: Node,
    ctx: &mut TraverseCtx,
) -> Result<(Node, Node), OutOfMemory>
    requires { 0 < length (frames ctx.old.declarations) }
    ensures put { IfOk result (λ made. node_doc made.0 ≡ assignment (ctx.old.ids.next + 4)
        (reference (ctx.old.ids.next + 3) (made_in (name_text (node_doc key)) ctx.old)) (node_doc key)) }
    ensures read { IfOk result (λ made. node_doc made.1
        ≡ reference (ctx.old.ids.next + 5) (made_in (name_text (node_doc key)) ctx.old)) }
    ensures declared { OnOk result (frames ctx.new.declarations
        ≡ with_let_declared (made_in (name_text (node_doc key)) ctx.old) (ctx.old.ids.next + 1) (frames ctx.old.declarations)) }
    ensures used { OnOk result (ctx.new.ids ≡ after 6 ctx.old.ids) }
    ensures more { OnOk result (length ctx.new.scoping.symbols ≡ length ctx.old.scoping.symbols + 1) }
    ensures scopes_stay { length ctx.new.scoping.scopes ≡ length ctx.old.scoping.scopes }
    ensures depth { length (frames ctx.new.declarations) ≡ length (frames ctx.old.declarations) }
    ensures kept { ctx.new ≡ but_names_of ctx.old ctx.new }
{
    let text = get_var_name_from_node(ctx.memory(), &key)?;
    let bound = declare_by_let(text.as_str(), ctx)?;
    put_and_read(&bound, key, ctx)
}

/// The key that is put into the variable, and the variable that is read.
fn put_and_read(
    bound: &BoundIdentifier,
    key: Node,
    ctx: &mut TraverseCtx,
) -> Result<(Node, Node), OutOfMemory>
    requires { bound.now.symbol_id.0 < length ctx.old.scoping.symbols }
    ensures put { IfOk result (λ made. node_doc made.0
        ≡ assignment (ctx.old.ids.next + 1) (reference ctx.old.ids.next (name_bytes bound.now.name)) (node_doc key)) }
    ensures read { IfOk result (λ made. node_doc made.1
        ≡ reference (ctx.old.ids.next + 2) (name_bytes bound.now.name)) }
    ensures used { OnOk result (ctx.new.ids ≡ after 3 ctx.old.ids) }
    ensures symbols_stay { length ctx.new.scoping.symbols ≡ length ctx.old.scoping.symbols }
    ensures scopes_stay { length ctx.new.scoping.scopes ≡ length ctx.old.scoping.scopes }
    ensures declarations { ctx.new.declarations ≡ ctx.old.declarations }
    ensures kept { ctx.new ≡ but_names_of ctx.old ctx.new }
{
    let target = bound.create_write_target(ctx)?;
    let put = assignment(ctx.memory(), target, key, &mut ctx.ids)?;
    let read = bound.create_read_expression(ctx)?;
    Ok((put, read))
}

/// The key twice. A literal or a steady name is copied; any other is put into a variable, which is
/// declared by `var` in the innermost list of statements, and then read. Where memory runs out, names and
/// numbers may have been used up.
pub fn duplicate_expression(expr: Node, ctx: &mut TraverseCtx) -> Result<(Node, Node), OutOfMemory>
    requires { 0 < length (frames ctx.old.declarations) }
    ensures first { IfOk result (λ made. node_doc made.0
        ≡ first_use (needs_variable ctx.old.plan expr.kind expr.id.0) ctx.old.ids.next (made_in (name_text (node_doc expr)) ctx.old) (node_doc expr)) }
    ensures second { IfOk result (λ made. node_doc made.1
        ≡ second_use (needs_variable ctx.old.plan expr.kind expr.id.0) ctx.old.ids.next (made_in (name_text (node_doc expr)) ctx.old) (node_doc expr)) }
    ensures declared { OnOk result (frames ctx.new.declarations
        ≡ with_var_where (needs_variable ctx.old.plan expr.kind expr.id.0) (made_in (name_text (node_doc expr)) ctx.old) (ctx.old.ids.next + 1) (frames ctx.old.declarations)) }
    ensures scopes_stay { length ctx.new.scoping.scopes ≡ length ctx.old.scoping.scopes }
    ensures depth { length (frames ctx.new.declarations) ≡ length (frames ctx.old.declarations) }
    ensures kept { ctx.new ≡ but_names_of ctx.old ctx.new }
{
    if key_needs_temp_var(&expr, ctx) {
        let bound = create_uid_var_based_on_node(&expr, ctx)?;
        put_and_read(&bound, expr, ctx)
    } else {
        let copy = copy_key(&expr, ctx)?;
        Ok((expr, copy))
    }
}

/// A copy of the key: a name that is used once more, or a literal, which has no place in a source text.
/// Where memory runs out, names and numbers may have been used up.
pub fn copy_key(key: &Node, ctx: &mut TraverseCtx) -> Result<Node, OutOfMemory>
    ensures made { IfOk result (λ made. node_doc made ≡ copied_key ctx.old.ids.next (node_doc key.now)) }
    ensures symbols_stay { length ctx.new.scoping.symbols ≡ length ctx.old.scoping.symbols }
    ensures scopes_stay { length ctx.new.scoping.scopes ≡ length ctx.old.scoping.scopes }
    ensures declarations { ctx.new.declarations ≡ ctx.old.declarations }
    ensures kept { ctx.new ≡ but_names_of ctx.old ctx.new }
{
    if key.kind.is(Kind::IdentifierReference) {
        let name = MaybeBoundIdentifier::from_identifier_reference(key, ctx)?;
        name.create_expression(ReferenceFlags::Read, ctx)
    } else {
        let mut copy = key.clone_node(ctx.memory(), &mut ctx.ids)?;
        copy.span = Span::NONE;
        Ok(copy)
    }
}

/// Makes a name of the text, and declares it by `let` in the innermost list of statements.
fn declare_by_let(text: &str, ctx: &mut TraverseCtx) -> Result<BoundIdentifier, OutOfMemory>
    requires { 0 < length (frames ctx.old.declarations) }
    ensures name { IfOk result (λ bound. name_bytes bound.name ≡ made_in text.now ctx.old) }
    ensures symbol { IfOk result (λ bound. bound.symbol_id.0 ≡ length ctx.old.scoping.symbols) }
    ensures declared { OnOk result (frames ctx.new.declarations
        ≡ with_let_declared (made_in text.now ctx.old) (ctx.old.ids.next + 1) (frames ctx.old.declarations)) }
    ensures used { OnOk result (ctx.new.ids ≡ after 3 ctx.old.ids) }
    ensures more { OnOk result (length ctx.new.scoping.symbols ≡ length ctx.old.scoping.symbols + 1) }
    ensures scopes_stay { length ctx.new.scoping.scopes ≡ length ctx.old.scoping.scopes }
    ensures depth { length (frames ctx.new.declarations) ≡ length (frames ctx.old.declarations) }
    ensures kept { ctx.new ≡ but_names_of ctx.old ctx.new }
{
    let scope = ctx.current_scope_id();
    let bound = ctx.generate_uid(text, scope, SymbolFlags::BlockScopedVariable)?;
    ctx.var_declarations.insert_let(&bound, None, &mut ctx.ids)?;
    Ok(bound)
}
