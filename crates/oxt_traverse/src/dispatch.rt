//! Running the hooks that a node reaches.
ghost use Rattle.std.specs.Prelude.{◌≡◌, OnOk, true};
ghost use Rattle.oxt_ctx.specs.Level.{IsLevel, IsOpen, IsOpenAt, IsUntouched};
ghost use Rattle.oxt_ctx.specs.Ran.{HasRun};
ghost use Rattle.oxt_ctx.specs.Visits.{HasLogged, entered, left, visits_by};
ghost use Rattle.oxt_tree.specs.Doc.{list};
ghost use Rattle.oxt_tree.specs.View.{docs_in, node_doc};

use crate::traverse::Traverse;
use oxt_ctx::context::TraverseCtx;
use oxt_ctx::hook::{Hook, as_kind, as_left, at_place, from_place};
use oxt_grammar::category::Category;
use oxt_names::ids::OutOfMemory;
use oxt_tree::tree::{Node, Part};

/// Runs the hooks that the node reaches before its parts: those of its place, and then those of the
/// kind that it has by then.
pub fn enter_node<T: Traverse>(
    pass: &mut T,
    node: &mut Node,
    place: Category,
    ctx: &mut TraverseCtx,
) -> Result<(), OutOfMemory>
    requires open { IsOpen ctx.old }
    ensures level { OnOk result (IsLevel ctx.old ctx.new) }
    ensures untouched { OnOk result (IsUntouched (T.watches ≡ true) (node_doc node.old) (node_doc node.new) ctx.old ctx.new) }
    ensures logged { OnOk result (HasLogged (T.watches ≡ true) T.trace (T.log pass.old) (T.log pass.new) (entered place (node_doc node.old))) }
{
    run_wanted(pass, at_place(place), node, ctx)?;
    run_wanted(pass, as_kind(node.kind), node, ctx)
}

/// Runs the hooks that the node reaches after its parts: those of its kind, and then those of its
/// place.
pub fn leave_node<T: Traverse>(
    pass: &mut T,
    node: &mut Node,
    place: Category,
    ctx: &mut TraverseCtx,
) -> Result<(), OutOfMemory>
    requires open { IsOpen ctx.old }
    ensures level { OnOk result (IsLevel ctx.old ctx.new) }
    ensures untouched { OnOk result (IsUntouched (T.watches ≡ true) (node_doc node.old) (node_doc node.new) ctx.old ctx.new) }
    ensures logged { OnOk result (HasLogged (T.watches ≡ true) T.trace (T.log pass.old) (T.log pass.new) (left place (node_doc node.old))) }
{
    run_wanted(pass, as_left(node.kind), node, ctx)?;
    run_wanted(pass, from_place(place), node, ctx)
}

/// Runs those of the hooks that want the kind that the node has at their turn.
#[inline(always)]
fn run_wanted<T: Traverse>(
    pass: &mut T,
    hooks: &[Hook],
    node: &mut Node,
    ctx: &mut TraverseCtx,
) -> Result<(), OutOfMemory>
    requires open { IsOpen ctx.old }
    ensures level { OnOk result (IsLevel ctx.old ctx.new) }
    ensures untouched { OnOk result (IsUntouched (T.watches ≡ true) (node_doc node.old) (node_doc node.new) ctx.old ctx.new) }
    ensures logged { OnOk result (HasLogged (T.watches ≡ true) T.trace (T.log pass.old) (T.log pass.new) (visits_by hooks.now (node_doc node.old))) }
{
    for hook in hooks {
        if hook.wants(node.kind) {
            run_at_node(pass, *hook, node, ctx)?;
        }
    }
    Ok(())
}

/// Runs the hook at a node. One on lists of statements is there what the pass does at any node.
pub fn run_at_node<T: Traverse>(
    pass: &mut T,
    hook: Hook,
    node: &mut Node,
    ctx: &mut TraverseCtx,
) -> Result<(), OutOfMemory>
    requires open { IsOpenAt hook ctx.old }
    ensures { OnOk result (HasRun (T.watches ≡ true) T.trace hook (node_doc node.old) (node_doc node.new) ctx.old ctx.new (T.log pass.old) (T.log pass.new)) }
{
    match hook {
        Hook::EnterProgram => pass.enter_program(node, ctx),
        Hook::ExitProgram => pass.exit_program(node, ctx),
        Hook::EnterStatement => pass.enter_statement(node, ctx),
        Hook::ExitStatement => pass.exit_statement(node, ctx),
        Hook::EnterDeclaration => pass.enter_declaration(node, ctx),
        Hook::EnterExpression => pass.enter_expression(node, ctx),
        Hook::EnterChainElement => pass.enter_chain_element(node, ctx),
        Hook::EnterSimpleAssignmentTarget => pass.enter_simple_assignment_target(node, ctx),
        Hook::EnterAssignmentTarget => pass.enter_assignment_target(node, ctx),
        _ => run_in_class(pass, hook, node, ctx),
    }
}

/// Runs the hook at a node, where it is no hook of a place: one of classes and what is in them, or another.
fn run_in_class<T: Traverse>(
    pass: &mut T,
    hook: Hook,
    node: &mut Node,
    ctx: &mut TraverseCtx,
) -> Result<(), OutOfMemory>
    requires open { IsOpenAt hook ctx.old }
    ensures { OnOk result (HasRun (T.watches ≡ true) T.trace hook (node_doc node.old) (node_doc node.new) ctx.old ctx.new (T.log pass.old) (T.log pass.new)) }
{
    match hook {
        Hook::EnterClass => pass.enter_class(node, ctx),
        Hook::ExitClass => pass.exit_class(node, ctx),
        Hook::ExitClassAtEnd => pass.exit_class_at_end(node, ctx),
        Hook::EnterMethodDefinition => pass.enter_method_definition(node, ctx),
        Hook::ExitMethodDefinition => pass.exit_method_definition(node, ctx),
        Hook::EnterAccessorProperty => pass.enter_accessor_property(node, ctx),
        Hook::ExitAccessorProperty => pass.exit_accessor_property(node, ctx),
        Hook::EnterPropertyDefinition => pass.enter_property_definition(node, ctx),
        Hook::ExitPropertyDefinition => pass.exit_property_definition(node, ctx),
        Hook::EnterDecorator => pass.enter_decorator(node, ctx),
        _ => run_in_function(pass, hook, node, ctx),
    }
}

/// Runs the hook at a node, where it is none of those above: one of functions and parameters, or another.
fn run_in_function<T: Traverse>(
    pass: &mut T,
    hook: Hook,
    node: &mut Node,
    ctx: &mut TraverseCtx,
) -> Result<(), OutOfMemory>
    requires open { IsOpenAt hook ctx.old }
    ensures { OnOk result (HasRun (T.watches ≡ true) T.trace hook (node_doc node.old) (node_doc node.new) ctx.old ctx.new (T.log pass.old) (T.log pass.new)) }
{
    match hook {
        Hook::EnterFunction => pass.enter_function(node, ctx),
        Hook::ExitFunction => pass.exit_function(node, ctx),
        Hook::EnterArrowFunctionExpression => pass.enter_arrow_function_expression(node, ctx),
        Hook::EnterFormalParameter => pass.enter_formal_parameter(node, ctx),
        Hook::EnterFormalParameterRest => pass.enter_formal_parameter_rest(node, ctx),
        Hook::EnterCatchParameter => pass.enter_catch_parameter(node, ctx),
        _ => run_at_declaration(pass, hook, node, ctx),
    }
}

/// Runs the hook at a node, where it is none of those above: one of single declarations, or another.
fn run_at_declaration<T: Traverse>(
    pass: &mut T,
    hook: Hook,
    node: &mut Node,
    ctx: &mut TraverseCtx,
) -> Result<(), OutOfMemory>
    requires open { IsOpenAt hook ctx.old }
    ensures { OnOk result (HasRun (T.watches ≡ true) T.trace hook (node_doc node.old) (node_doc node.new) ctx.old ctx.new (T.log pass.old) (T.log pass.new)) }
{
    match hook {
        Hook::EnterVariableDeclaration => pass.enter_variable_declaration(node, ctx),
        Hook::EnterVariableDeclarator => pass.enter_variable_declarator(node, ctx),
        Hook::EnterImportDeclaration => pass.enter_import_declaration(node, ctx),
        Hook::EnterExportAllDeclaration => pass.enter_export_all_declaration(node, ctx),
        Hook::EnterExportFromDeclaration => pass.enter_export_from_declaration(node, ctx),
        _ => run_at_statement(pass, hook, node, ctx),
    }
}

/// Runs the hook at a node, where it is none of those above: one of single statements, or another.
fn run_at_statement<T: Traverse>(
    pass: &mut T,
    hook: Hook,
    node: &mut Node,
    ctx: &mut TraverseCtx,
) -> Result<(), OutOfMemory>
    requires open { IsOpenAt hook ctx.old }
    ensures { OnOk result (HasRun (T.watches ≡ true) T.trace hook (node_doc node.old) (node_doc node.new) ctx.old ctx.new (T.log pass.old) (T.log pass.new)) }
{
    match hook {
        Hook::EnterIfStatement => pass.enter_if_statement(node, ctx),
        Hook::EnterWhileStatement => pass.enter_while_statement(node, ctx),
        Hook::EnterDoWhileStatement => pass.enter_do_while_statement(node, ctx),
        Hook::EnterForStatement => pass.enter_for_statement(node, ctx),
        Hook::EnterForInStatement => pass.enter_for_in_statement(node, ctx),
        Hook::EnterForOfStatement => pass.enter_for_of_statement(node, ctx),
        _ => run_at_expression(pass, hook, node, ctx),
    }
}

/// Runs the hook at a node, where it is none of those above: one of single expressions, or another.
fn run_at_expression<T: Traverse>(
    pass: &mut T,
    hook: Hook,
    node: &mut Node,
    ctx: &mut TraverseCtx,
) -> Result<(), OutOfMemory>
    requires open { IsOpenAt hook ctx.old }
    ensures { OnOk result (HasRun (T.watches ≡ true) T.trace hook (node_doc node.old) (node_doc node.new) ctx.old ctx.new (T.log pass.old) (T.log pass.new)) }
{
    match hook {
        Hook::EnterCallExpression => pass.enter_call_expression(node, ctx),
        Hook::EnterNewExpression => pass.enter_new_expression(node, ctx),
        Hook::EnterTaggedTemplateExpression => pass.enter_tagged_template_expression(node, ctx),
        Hook::EnterImportExpression => pass.enter_import_expression(node, ctx),
        Hook::EnterJsxOpeningElement => pass.enter_jsx_opening_element(node, ctx),
        Hook::EnterJsxElement => pass.enter_jsx_element(node, ctx),
        Hook::EnterJsxFragment => pass.enter_jsx_fragment(node, ctx),
        _ => pass.at_node(hook, node, ctx),
    }
}

/// Runs the hook at a list of statements. One on nodes is there what the pass does at any list.
pub fn run_at_statements<T: Traverse>(
    pass: &mut T,
    hook: Hook,
    statements: &mut Vec<Part>,
    ctx: &mut TraverseCtx,
) -> Result<(), OutOfMemory>
    requires open { IsOpen ctx.old }
    ensures { OnOk result (HasRun (T.watches ≡ true) T.trace hook (list (docs_in statements.old.items)) (list (docs_in statements.new.items)) ctx.old ctx.new (T.log pass.old) (T.log pass.new)) }
{
    match hook {
        Hook::EnterStatements => pass.enter_statements(statements, ctx),
        Hook::ExitStatements => pass.exit_statements(statements, ctx),
        _ => pass.at_statements(hook, statements, ctx),
    }
}
