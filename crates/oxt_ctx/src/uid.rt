//! Variables that are made, and declared at the top of the innermost list of statements.
ghost use Rattle.std.specs.Prelude.{◌≡◌, ◌+◌, ◌<◌, IfOk, None, OnErr, OnOk, Some, false, length};
ghost use Rattle.oxt_stores.specs.Frame.{frames};
ghost use Rattle.oxt_names.specs.Names.{name_bytes};
ghost use Rattle.oxt_tree.specs.View.{node_doc};
ghost use Rattle.oxt_names.specs.Made.{is_among};
ghost use Rattle.oxt_ctx.specs.Context.{current_scope};
ghost use Rattle.oxt_ctx.specs.Made.{after, but_declarators_of, but_names_of, made_in, with_declared, with_uid};
ghost use Rattle.oxt_ctx.specs.Text.{name_text};

use crate::context::TraverseCtx;
use crate::text::get_var_name_from_node;
use oxt_names::flags::SymbolFlags;
use oxt_names::ids::OutOfMemory;
use oxt_stores::bound::BoundIdentifier;
use oxt_tree::tree::Node;

/// Makes a name of the text, and declares it by `var` in the innermost list of statements. Its symbol
/// is bound in the current scope. Where memory runs out, names and numbers may have been used up.
pub fn create_uid_var(name: &str, ctx: &mut TraverseCtx) -> Result<BoundIdentifier, OutOfMemory>
    requires { 0 < length (frames ctx.old.declarations) }
    ensures name { IfOk result (λ bound. name_bytes bound.name ≡ made_in name.now ctx.old) }
    ensures free { IfOk result (λ bound. is_among (name_bytes bound.name) ctx.old.scoping.taken ≡ false) }
    ensures symbol { IfOk result (λ bound. bound.symbol_id.0 ≡ length ctx.old.scoping.symbols) }
    ensures more { OnOk result (length ctx.new.scoping.symbols ≡ length ctx.old.scoping.symbols + 1) }
    ensures scopes_stay { length ctx.new.scoping.scopes ≡ length ctx.old.scoping.scopes }
    ensures declared { OnOk result (frames ctx.new.declarations
        ≡ with_declared (made_in name.now ctx.old) (ctx.old.ids.next + 1) None (frames ctx.old.declarations)) }
    ensures used { OnOk result (ctx.new.ids ≡ after 3 ctx.old.ids) }
    ensures bound { OnOk result (ctx.new ≡ but_declarators_of (with_uid name.now (current_scope ctx.old.ancestors)
        SymbolFlags.FunctionScopedVariable ctx.old) ctx.new) }
    ensures depth { length (frames ctx.new.declarations) ≡ length (frames ctx.old.declarations) }
    ensures undeclared { OnErr result (frames ctx.new.declarations ≡ frames ctx.old.declarations) }
    ensures kept { OnErr result (ctx.new ≡ but_names_of ctx.old ctx.new) }
{
    let scope = ctx.current_scope_id();
    let bound = ctx.generate_uid(name, scope, SymbolFlags::FunctionScopedVariable)?;
    ctx.var_declarations.insert_var(&bound, &mut ctx.ids)?;
    Ok(bound)
}

/// The same of a variable that begins as the value of the expression.
pub fn create_uid_var_with_init(
    name: &str,
    expression: Node,
    ctx: &mut TraverseCtx,
) -> Result<BoundIdentifier, OutOfMemory>
    requires { 0 < length (frames ctx.old.declarations) }
    ensures name { IfOk result (λ bound. name_bytes bound.name ≡ made_in name.now ctx.old) }
    ensures free { IfOk result (λ bound. is_among (name_bytes bound.name) ctx.old.scoping.taken ≡ false) }
    ensures symbol { IfOk result (λ bound. bound.symbol_id.0 ≡ length ctx.old.scoping.symbols) }
    ensures more { OnOk result (length ctx.new.scoping.symbols ≡ length ctx.old.scoping.symbols + 1) }
    ensures scopes_stay { length ctx.new.scoping.scopes ≡ length ctx.old.scoping.scopes }
    ensures declared { OnOk result (frames ctx.new.declarations
        ≡ with_declared (made_in name.now ctx.old) (ctx.old.ids.next + 1) (Some (node_doc expression)) (frames ctx.old.declarations)) }
    ensures used { OnOk result (ctx.new.ids ≡ after 3 ctx.old.ids) }
    ensures bound { OnOk result (ctx.new ≡ but_declarators_of (with_uid name.now (current_scope ctx.old.ancestors)
        SymbolFlags.FunctionScopedVariable ctx.old) ctx.new) }
    ensures depth { length (frames ctx.new.declarations) ≡ length (frames ctx.old.declarations) }
    ensures undeclared { OnErr result (frames ctx.new.declarations ≡ frames ctx.old.declarations) }
    ensures kept { OnErr result (ctx.new ≡ but_names_of ctx.old ctx.new) }
{
    let scope = ctx.current_scope_id();
    let bound = ctx.generate_uid(name, scope, SymbolFlags::FunctionScopedVariable)?;
    ctx.var_declarations
        .insert_var_with_init(&bound, expression, &mut ctx.ids)?;
    Ok(bound)
}

/// The same of a variable without an initializer that is to hold the value of the expression, from
/// whose text its name is made.
pub fn create_uid_var_based_on_node(
    node: &Node,
    ctx: &mut TraverseCtx,
) -> Result<BoundIdentifier, OutOfMemory>
    requires { 0 < length (frames ctx.old.declarations) }
    ensures name { IfOk result (λ bound. name_bytes bound.name
        ≡ made_in (name_text (node_doc node.now)) ctx.old) }
    ensures free { IfOk result (λ bound. is_among (name_bytes bound.name) ctx.old.scoping.taken ≡ false) }
    ensures symbol { IfOk result (λ bound. bound.symbol_id.0 ≡ length ctx.old.scoping.symbols) }
    ensures more { OnOk result (length ctx.new.scoping.symbols ≡ length ctx.old.scoping.symbols + 1) }
    ensures scopes_stay { length ctx.new.scoping.scopes ≡ length ctx.old.scoping.scopes }
    ensures declared { OnOk result (frames ctx.new.declarations
        ≡ with_declared (made_in (name_text (node_doc node.now)) ctx.old) (ctx.old.ids.next + 1) None (frames ctx.old.declarations)) }
    ensures used { OnOk result (ctx.new.ids ≡ after 3 ctx.old.ids) }
    ensures bound { OnOk result (ctx.new ≡ but_declarators_of (with_uid (name_text (node_doc node.now)) (current_scope ctx.old.ancestors)
        SymbolFlags.FunctionScopedVariable ctx.old) ctx.new) }
    ensures depth { length (frames ctx.new.declarations) ≡ length (frames ctx.old.declarations) }
    ensures undeclared { OnErr result (frames ctx.new.declarations ≡ frames ctx.old.declarations) }
    ensures kept { OnErr result (ctx.new ≡ but_names_of ctx.old ctx.new) }
{
    let text = get_var_name_from_node(ctx.memory(), node)?;
    create_uid_var(text.as_str(), ctx)
}
