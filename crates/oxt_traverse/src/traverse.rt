//! What a pass does at the nodes of a tree.
ghost use Rattle.std.specs.Prelude.{◌≡◌, Bool, List, [], OnOk, false, true};
ghost use Rattle.oxt_ctx.specs.Level.{IsOpen, IsOpenAt};
ghost use Rattle.oxt_ctx.specs.Ran.{HasRun};
ghost use Rattle.oxt_ctx.specs.Visits.{Visit};
ghost use Rattle.oxt_ctx.specs.declared.hook.Hook.TheVariants as hook;
ghost use Rattle.oxt_tree.specs.Doc.{list};
ghost use Rattle.oxt_tree.specs.View.{docs_in, node_doc};

use oxt_ctx::context::TraverseCtx;
use oxt_ctx::hook::Hook;
use oxt_ctx::pass::Pass;
use oxt_names::ids::OutOfMemory;
use oxt_tree::tree::{Node, Part};

/// A pass over a tree: a hook for each place at which a pass may do something. The walk calls it
/// with the node, which the hook may change or replace, and the context, whose records are those of
/// the nodes around that node, the innermost first. A hook that a pass does not write does what
/// `at_node` or `at_statements` does.
///
/// A hook leaves the records, and as many lists of declarators open, as it found. What a pass makes
/// of a tree is its own affair: nothing is promised of it here.
///
/// A pass may name a log, and what each visit adds to it: each hook then adds that. A pass that
/// watches leaves the tree as it is and puts nothing aside, so that its log is that of the tree as
/// it was.
///
/// # Errors
///
/// `OutOfMemory` for want of memory or of numbers alone. The tree, the pass and the context may
/// then only be dropped.
pub trait Traverse {
    ghost watches: { Bool } = { false };

    ghost log: { Self → List Visit } = { λ _. [] };

    ghost trace: { Visit → List Visit } = { λ _. [] };

    /// What the hook does where the pass does not write it, at a node. A list of declarators is open
    /// but at the hooks of the program.
    fn at_node(
        &mut self,
        hook: Hook,
        node: &mut Node,
        ctx: &mut TraverseCtx,
    ) -> Result<(), OutOfMemory>
        requires open { IsOpenAt hook ctx.old }
        ensures { OnOk result (HasRun (watches ≡ true) trace hook (node_doc node.old) (node_doc node.new) ctx.old ctx.new (log self.old) (log self.new)) };

    /// What the hook does where the pass does not write it, at a list of statements.
    fn at_statements(
        &mut self,
        hook: Hook,
        statements: &mut Vec<Part>,
        ctx: &mut TraverseCtx,
    ) -> Result<(), OutOfMemory>
        requires open { IsOpen ctx.old }
        ensures { OnOk result (HasRun (watches ≡ true) trace hook (list (docs_in statements.old.items)) (list (docs_in statements.new.items)) ctx.old ctx.new (log self.old) (log self.new)) };

    /// Before the parts of the program.
    fn enter_program(&mut self, node: &mut Node, ctx: &mut TraverseCtx) -> Result<(), OutOfMemory>
        ensures { OnOk result (HasRun (watches ≡ true) trace hook.EnterProgram (node_doc node.old) (node_doc node.new) ctx.old ctx.new (log self.old) (log self.new)) }
    {
        self.at_node(Hook::EnterProgram, node, ctx)
    }

    /// After the parts of the program.
    fn exit_program(&mut self, node: &mut Node, ctx: &mut TraverseCtx) -> Result<(), OutOfMemory>
        ensures { OnOk result (HasRun (watches ≡ true) trace hook.ExitProgram (node_doc node.old) (node_doc node.new) ctx.old ctx.new (log self.old) (log self.new)) }
    {
        self.at_node(Hook::ExitProgram, node, ctx)
    }

    /// Before the statements of a list.
    fn enter_statements(
        &mut self,
        statements: &mut Vec<Part>,
        ctx: &mut TraverseCtx,
    ) -> Result<(), OutOfMemory>
        requires open { IsOpen ctx.old }
        ensures { OnOk result (HasRun (watches ≡ true) trace hook.EnterStatements (list (docs_in statements.old.items)) (list (docs_in statements.new.items)) ctx.old ctx.new (log self.old) (log self.new)) }
    {
        self.at_statements(Hook::EnterStatements, statements, ctx)
    }

    /// After the statements of a list.
    fn exit_statements(
        &mut self,
        statements: &mut Vec<Part>,
        ctx: &mut TraverseCtx,
    ) -> Result<(), OutOfMemory>
        requires open { IsOpen ctx.old }
        ensures { OnOk result (HasRun (watches ≡ true) trace hook.ExitStatements (list (docs_in statements.old.items)) (list (docs_in statements.new.items)) ctx.old ctx.new (log self.old) (log self.new)) }
    {
        self.at_statements(Hook::ExitStatements, statements, ctx)
    }

    /// Before the parts of a statement.
    fn enter_statement(&mut self, node: &mut Node, ctx: &mut TraverseCtx) -> Result<(), OutOfMemory>
        requires open { IsOpen ctx.old }
        ensures { OnOk result (HasRun (watches ≡ true) trace hook.EnterStatement (node_doc node.old) (node_doc node.new) ctx.old ctx.new (log self.old) (log self.new)) }
    {
        self.at_node(Hook::EnterStatement, node, ctx)
    }

    /// After the parts of a statement.
    fn exit_statement(&mut self, node: &mut Node, ctx: &mut TraverseCtx) -> Result<(), OutOfMemory>
        requires open { IsOpen ctx.old }
        ensures { OnOk result (HasRun (watches ≡ true) trace hook.ExitStatement (node_doc node.old) (node_doc node.new) ctx.old ctx.new (log self.old) (log self.new)) }
    {
        self.at_node(Hook::ExitStatement, node, ctx)
    }

    /// Before the parts of a class.
    fn enter_class(&mut self, node: &mut Node, ctx: &mut TraverseCtx) -> Result<(), OutOfMemory>
        requires open { IsOpen ctx.old }
        ensures { OnOk result (HasRun (watches ≡ true) trace hook.EnterClass (node_doc node.old) (node_doc node.new) ctx.old ctx.new (log self.old) (log self.new)) }
    {
        self.at_node(Hook::EnterClass, node, ctx)
    }

    /// After the parts of a class.
    fn exit_class(&mut self, node: &mut Node, ctx: &mut TraverseCtx) -> Result<(), OutOfMemory>
        requires open { IsOpen ctx.old }
        ensures { OnOk result (HasRun (watches ≡ true) trace hook.ExitClass (node_doc node.old) (node_doc node.new) ctx.old ctx.new (log self.old) (log self.new)) }
    {
        self.at_node(Hook::ExitClass, node, ctx)
    }

    /// Before the parts of a method.
    fn enter_method_definition(
        &mut self,
        node: &mut Node,
        ctx: &mut TraverseCtx,
    ) -> Result<(), OutOfMemory>
        requires open { IsOpen ctx.old }
        ensures { OnOk result (HasRun (watches ≡ true) trace hook.EnterMethodDefinition (node_doc node.old) (node_doc node.new) ctx.old ctx.new (log self.old) (log self.new)) }
    {
        self.at_node(Hook::EnterMethodDefinition, node, ctx)
    }

    /// After the parts of a method.
    fn exit_method_definition(
        &mut self,
        node: &mut Node,
        ctx: &mut TraverseCtx,
    ) -> Result<(), OutOfMemory>
        requires open { IsOpen ctx.old }
        ensures { OnOk result (HasRun (watches ≡ true) trace hook.ExitMethodDefinition (node_doc node.old) (node_doc node.new) ctx.old ctx.new (log self.old) (log self.new)) }
    {
        self.at_node(Hook::ExitMethodDefinition, node, ctx)
    }

    /// Before the parts of an accessor property.
    fn enter_accessor_property(
        &mut self,
        node: &mut Node,
        ctx: &mut TraverseCtx,
    ) -> Result<(), OutOfMemory>
        requires open { IsOpen ctx.old }
        ensures { OnOk result (HasRun (watches ≡ true) trace hook.EnterAccessorProperty (node_doc node.old) (node_doc node.new) ctx.old ctx.new (log self.old) (log self.new)) }
    {
        self.at_node(Hook::EnterAccessorProperty, node, ctx)
    }

    /// After the parts of an accessor property.
    fn exit_accessor_property(
        &mut self,
        node: &mut Node,
        ctx: &mut TraverseCtx,
    ) -> Result<(), OutOfMemory>
        requires open { IsOpen ctx.old }
        ensures { OnOk result (HasRun (watches ≡ true) trace hook.ExitAccessorProperty (node_doc node.old) (node_doc node.new) ctx.old ctx.new (log self.old) (log self.new)) }
    {
        self.at_node(Hook::ExitAccessorProperty, node, ctx)
    }

    /// Before the parts of a field.
    fn enter_property_definition(
        &mut self,
        node: &mut Node,
        ctx: &mut TraverseCtx,
    ) -> Result<(), OutOfMemory>
        requires open { IsOpen ctx.old }
        ensures { OnOk result (HasRun (watches ≡ true) trace hook.EnterPropertyDefinition (node_doc node.old) (node_doc node.new) ctx.old ctx.new (log self.old) (log self.new)) }
    {
        self.at_node(Hook::EnterPropertyDefinition, node, ctx)
    }

    /// After the parts of a field.
    fn exit_property_definition(
        &mut self,
        node: &mut Node,
        ctx: &mut TraverseCtx,
    ) -> Result<(), OutOfMemory>
        requires open { IsOpen ctx.old }
        ensures { OnOk result (HasRun (watches ≡ true) trace hook.ExitPropertyDefinition (node_doc node.old) (node_doc node.new) ctx.old ctx.new (log self.old) (log self.new)) }
    {
        self.at_node(Hook::ExitPropertyDefinition, node, ctx)
    }

    /// Before the parts of a function that is no arrow.
    fn enter_function(&mut self, node: &mut Node, ctx: &mut TraverseCtx) -> Result<(), OutOfMemory>
        requires open { IsOpen ctx.old }
        ensures { OnOk result (HasRun (watches ≡ true) trace hook.EnterFunction (node_doc node.old) (node_doc node.new) ctx.old ctx.new (log self.old) (log self.new)) }
    {
        self.at_node(Hook::EnterFunction, node, ctx)
    }

    /// After the parts of a function that is no arrow.
    fn exit_function(&mut self, node: &mut Node, ctx: &mut TraverseCtx) -> Result<(), OutOfMemory>
        requires open { IsOpen ctx.old }
        ensures { OnOk result (HasRun (watches ≡ true) trace hook.ExitFunction (node_doc node.old) (node_doc node.new) ctx.old ctx.new (log self.old) (log self.new)) }
    {
        self.at_node(Hook::ExitFunction, node, ctx)
    }

    /// After the parts of a class and `exit_class`.
    fn exit_class_at_end(
        &mut self,
        node: &mut Node,
        ctx: &mut TraverseCtx,
    ) -> Result<(), OutOfMemory>
        requires open { IsOpen ctx.old }
        ensures { OnOk result (HasRun (watches ≡ true) trace hook.ExitClassAtEnd (node_doc node.old) (node_doc node.new) ctx.old ctx.new (log self.old) (log self.new)) }
    {
        self.at_node(Hook::ExitClassAtEnd, node, ctx)
    }

    /// Before the parts of a declaration.
    fn enter_declaration(
        &mut self,
        node: &mut Node,
        ctx: &mut TraverseCtx,
    ) -> Result<(), OutOfMemory>
        requires open { IsOpen ctx.old }
        ensures { OnOk result (HasRun (watches ≡ true) trace hook.EnterDeclaration (node_doc node.old) (node_doc node.new) ctx.old ctx.new (log self.old) (log self.new)) }
    {
        self.at_node(Hook::EnterDeclaration, node, ctx)
    }

    /// Before the parts of an expression.
    fn enter_expression(
        &mut self,
        node: &mut Node,
        ctx: &mut TraverseCtx,
    ) -> Result<(), OutOfMemory>
        requires open { IsOpen ctx.old }
        ensures { OnOk result (HasRun (watches ≡ true) trace hook.EnterExpression (node_doc node.old) (node_doc node.new) ctx.old ctx.new (log self.old) (log self.new)) }
    {
        self.at_node(Hook::EnterExpression, node, ctx)
    }

    /// Before the parts of a decorator.
    fn enter_decorator(&mut self, node: &mut Node, ctx: &mut TraverseCtx) -> Result<(), OutOfMemory>
        requires open { IsOpen ctx.old }
        ensures { OnOk result (HasRun (watches ≡ true) trace hook.EnterDecorator (node_doc node.old) (node_doc node.new) ctx.old ctx.new (log self.old) (log self.new)) }
    {
        self.at_node(Hook::EnterDecorator, node, ctx)
    }

    /// Before the parts of an arrow function.
    fn enter_arrow_function_expression(
        &mut self,
        node: &mut Node,
        ctx: &mut TraverseCtx,
    ) -> Result<(), OutOfMemory>
        requires open { IsOpen ctx.old }
        ensures { OnOk result (HasRun (watches ≡ true) trace hook.EnterArrowFunctionExpression (node_doc node.old) (node_doc node.new) ctx.old ctx.new (log self.old) (log self.new)) }
    {
        self.at_node(Hook::EnterArrowFunctionExpression, node, ctx)
    }

    /// Before the parts of a declaration of variables.
    fn enter_variable_declaration(
        &mut self,
        node: &mut Node,
        ctx: &mut TraverseCtx,
    ) -> Result<(), OutOfMemory>
        requires open { IsOpen ctx.old }
        ensures { OnOk result (HasRun (watches ≡ true) trace hook.EnterVariableDeclaration (node_doc node.old) (node_doc node.new) ctx.old ctx.new (log self.old) (log self.new)) }
    {
        self.at_node(Hook::EnterVariableDeclaration, node, ctx)
    }

    /// Before the parts of a declarator.
    fn enter_variable_declarator(
        &mut self,
        node: &mut Node,
        ctx: &mut TraverseCtx,
    ) -> Result<(), OutOfMemory>
        requires open { IsOpen ctx.old }
        ensures { OnOk result (HasRun (watches ≡ true) trace hook.EnterVariableDeclarator (node_doc node.old) (node_doc node.new) ctx.old ctx.new (log self.old) (log self.new)) }
    {
        self.at_node(Hook::EnterVariableDeclarator, node, ctx)
    }

    /// Before the parts of a call.
    fn enter_call_expression(
        &mut self,
        node: &mut Node,
        ctx: &mut TraverseCtx,
    ) -> Result<(), OutOfMemory>
        requires open { IsOpen ctx.old }
        ensures { OnOk result (HasRun (watches ≡ true) trace hook.EnterCallExpression (node_doc node.old) (node_doc node.new) ctx.old ctx.new (log self.old) (log self.new)) }
    {
        self.at_node(Hook::EnterCallExpression, node, ctx)
    }

    /// Before the parts of a `new` expression.
    fn enter_new_expression(
        &mut self,
        node: &mut Node,
        ctx: &mut TraverseCtx,
    ) -> Result<(), OutOfMemory>
        requires open { IsOpen ctx.old }
        ensures { OnOk result (HasRun (watches ≡ true) trace hook.EnterNewExpression (node_doc node.old) (node_doc node.new) ctx.old ctx.new (log self.old) (log self.new)) }
    {
        self.at_node(Hook::EnterNewExpression, node, ctx)
    }

    /// Before the parts of a tagged template.
    fn enter_tagged_template_expression(
        &mut self,
        node: &mut Node,
        ctx: &mut TraverseCtx,
    ) -> Result<(), OutOfMemory>
        requires open { IsOpen ctx.old }
        ensures { OnOk result (HasRun (watches ≡ true) trace hook.EnterTaggedTemplateExpression (node_doc node.old) (node_doc node.new) ctx.old ctx.new (log self.old) (log self.new)) }
    {
        self.at_node(Hook::EnterTaggedTemplateExpression, node, ctx)
    }

    /// Before the parts of an `import(..)`.
    fn enter_import_expression(
        &mut self,
        node: &mut Node,
        ctx: &mut TraverseCtx,
    ) -> Result<(), OutOfMemory>
        requires open { IsOpen ctx.old }
        ensures { OnOk result (HasRun (watches ≡ true) trace hook.EnterImportExpression (node_doc node.old) (node_doc node.new) ctx.old ctx.new (log self.old) (log self.new)) }
    {
        self.at_node(Hook::EnterImportExpression, node, ctx)
    }

    /// Before the parts of what a chain holds.
    fn enter_chain_element(
        &mut self,
        node: &mut Node,
        ctx: &mut TraverseCtx,
    ) -> Result<(), OutOfMemory>
        requires open { IsOpen ctx.old }
        ensures { OnOk result (HasRun (watches ≡ true) trace hook.EnterChainElement (node_doc node.old) (node_doc node.new) ctx.old ctx.new (log self.old) (log self.new)) }
    {
        self.at_node(Hook::EnterChainElement, node, ctx)
    }

    /// Before the parts of a name or member, or a wrapper of one, that is assigned to.
    fn enter_simple_assignment_target(
        &mut self,
        node: &mut Node,
        ctx: &mut TraverseCtx,
    ) -> Result<(), OutOfMemory>
        requires open { IsOpen ctx.old }
        ensures { OnOk result (HasRun (watches ≡ true) trace hook.EnterSimpleAssignmentTarget (node_doc node.old) (node_doc node.new) ctx.old ctx.new (log self.old) (log self.new)) }
    {
        self.at_node(Hook::EnterSimpleAssignmentTarget, node, ctx)
    }

    /// Before the parts of what is assigned to, a pattern among it.
    fn enter_assignment_target(
        &mut self,
        node: &mut Node,
        ctx: &mut TraverseCtx,
    ) -> Result<(), OutOfMemory>
        requires open { IsOpen ctx.old }
        ensures { OnOk result (HasRun (watches ≡ true) trace hook.EnterAssignmentTarget (node_doc node.old) (node_doc node.new) ctx.old ctx.new (log self.old) (log self.new)) }
    {
        self.at_node(Hook::EnterAssignmentTarget, node, ctx)
    }

    /// Before the parts of a parameter.
    fn enter_formal_parameter(
        &mut self,
        node: &mut Node,
        ctx: &mut TraverseCtx,
    ) -> Result<(), OutOfMemory>
        requires open { IsOpen ctx.old }
        ensures { OnOk result (HasRun (watches ≡ true) trace hook.EnterFormalParameter (node_doc node.old) (node_doc node.new) ctx.old ctx.new (log self.old) (log self.new)) }
    {
        self.at_node(Hook::EnterFormalParameter, node, ctx)
    }

    /// Before the parts of a rest parameter.
    fn enter_formal_parameter_rest(
        &mut self,
        node: &mut Node,
        ctx: &mut TraverseCtx,
    ) -> Result<(), OutOfMemory>
        requires open { IsOpen ctx.old }
        ensures { OnOk result (HasRun (watches ≡ true) trace hook.EnterFormalParameterRest (node_doc node.old) (node_doc node.new) ctx.old ctx.new (log self.old) (log self.new)) }
    {
        self.at_node(Hook::EnterFormalParameterRest, node, ctx)
    }

    /// Before the parts of the parameter of a `catch`.
    fn enter_catch_parameter(
        &mut self,
        node: &mut Node,
        ctx: &mut TraverseCtx,
    ) -> Result<(), OutOfMemory>
        requires open { IsOpen ctx.old }
        ensures { OnOk result (HasRun (watches ≡ true) trace hook.EnterCatchParameter (node_doc node.old) (node_doc node.new) ctx.old ctx.new (log self.old) (log self.new)) }
    {
        self.at_node(Hook::EnterCatchParameter, node, ctx)
    }

    /// Before the parts of an opening JSX tag.
    fn enter_jsx_opening_element(
        &mut self,
        node: &mut Node,
        ctx: &mut TraverseCtx,
    ) -> Result<(), OutOfMemory>
        requires open { IsOpen ctx.old }
        ensures { OnOk result (HasRun (watches ≡ true) trace hook.EnterJsxOpeningElement (node_doc node.old) (node_doc node.new) ctx.old ctx.new (log self.old) (log self.new)) }
    {
        self.at_node(Hook::EnterJsxOpeningElement, node, ctx)
    }

    /// Before the parts of a JSX element.
    fn enter_jsx_element(
        &mut self,
        node: &mut Node,
        ctx: &mut TraverseCtx,
    ) -> Result<(), OutOfMemory>
        requires open { IsOpen ctx.old }
        ensures { OnOk result (HasRun (watches ≡ true) trace hook.EnterJsxElement (node_doc node.old) (node_doc node.new) ctx.old ctx.new (log self.old) (log self.new)) }
    {
        self.at_node(Hook::EnterJsxElement, node, ctx)
    }

    /// Before the parts of a JSX fragment.
    fn enter_jsx_fragment(
        &mut self,
        node: &mut Node,
        ctx: &mut TraverseCtx,
    ) -> Result<(), OutOfMemory>
        requires open { IsOpen ctx.old }
        ensures { OnOk result (HasRun (watches ≡ true) trace hook.EnterJsxFragment (node_doc node.old) (node_doc node.new) ctx.old ctx.new (log self.old) (log self.new)) }
    {
        self.at_node(Hook::EnterJsxFragment, node, ctx)
    }

    /// Before the parts of an `if`.
    fn enter_if_statement(
        &mut self,
        node: &mut Node,
        ctx: &mut TraverseCtx,
    ) -> Result<(), OutOfMemory>
        requires open { IsOpen ctx.old }
        ensures { OnOk result (HasRun (watches ≡ true) trace hook.EnterIfStatement (node_doc node.old) (node_doc node.new) ctx.old ctx.new (log self.old) (log self.new)) }
    {
        self.at_node(Hook::EnterIfStatement, node, ctx)
    }

    /// Before the parts of a `while`.
    fn enter_while_statement(
        &mut self,
        node: &mut Node,
        ctx: &mut TraverseCtx,
    ) -> Result<(), OutOfMemory>
        requires open { IsOpen ctx.old }
        ensures { OnOk result (HasRun (watches ≡ true) trace hook.EnterWhileStatement (node_doc node.old) (node_doc node.new) ctx.old ctx.new (log self.old) (log self.new)) }
    {
        self.at_node(Hook::EnterWhileStatement, node, ctx)
    }

    /// Before the parts of a `do`.
    fn enter_do_while_statement(
        &mut self,
        node: &mut Node,
        ctx: &mut TraverseCtx,
    ) -> Result<(), OutOfMemory>
        requires open { IsOpen ctx.old }
        ensures { OnOk result (HasRun (watches ≡ true) trace hook.EnterDoWhileStatement (node_doc node.old) (node_doc node.new) ctx.old ctx.new (log self.old) (log self.new)) }
    {
        self.at_node(Hook::EnterDoWhileStatement, node, ctx)
    }

    /// Before the parts of a `for`.
    fn enter_for_statement(
        &mut self,
        node: &mut Node,
        ctx: &mut TraverseCtx,
    ) -> Result<(), OutOfMemory>
        requires open { IsOpen ctx.old }
        ensures { OnOk result (HasRun (watches ≡ true) trace hook.EnterForStatement (node_doc node.old) (node_doc node.new) ctx.old ctx.new (log self.old) (log self.new)) }
    {
        self.at_node(Hook::EnterForStatement, node, ctx)
    }

    /// Before the parts of a `for` with `in`.
    fn enter_for_in_statement(
        &mut self,
        node: &mut Node,
        ctx: &mut TraverseCtx,
    ) -> Result<(), OutOfMemory>
        requires open { IsOpen ctx.old }
        ensures { OnOk result (HasRun (watches ≡ true) trace hook.EnterForInStatement (node_doc node.old) (node_doc node.new) ctx.old ctx.new (log self.old) (log self.new)) }
    {
        self.at_node(Hook::EnterForInStatement, node, ctx)
    }

    /// Before the parts of a `for` with `of`.
    fn enter_for_of_statement(
        &mut self,
        node: &mut Node,
        ctx: &mut TraverseCtx,
    ) -> Result<(), OutOfMemory>
        requires open { IsOpen ctx.old }
        ensures { OnOk result (HasRun (watches ≡ true) trace hook.EnterForOfStatement (node_doc node.old) (node_doc node.new) ctx.old ctx.new (log self.old) (log self.new)) }
    {
        self.at_node(Hook::EnterForOfStatement, node, ctx)
    }

    /// Before the parts of an import.
    fn enter_import_declaration(
        &mut self,
        node: &mut Node,
        ctx: &mut TraverseCtx,
    ) -> Result<(), OutOfMemory>
        requires open { IsOpen ctx.old }
        ensures { OnOk result (HasRun (watches ≡ true) trace hook.EnterImportDeclaration (node_doc node.old) (node_doc node.new) ctx.old ctx.new (log self.old) (log self.new)) }
    {
        self.at_node(Hook::EnterImportDeclaration, node, ctx)
    }

    /// Before the parts of an `export *`.
    fn enter_export_all_declaration(
        &mut self,
        node: &mut Node,
        ctx: &mut TraverseCtx,
    ) -> Result<(), OutOfMemory>
        requires open { IsOpen ctx.old }
        ensures { OnOk result (HasRun (watches ≡ true) trace hook.EnterExportAllDeclaration (node_doc node.old) (node_doc node.new) ctx.old ctx.new (log self.old) (log self.new)) }
    {
        self.at_node(Hook::EnterExportAllDeclaration, node, ctx)
    }

    /// Before the parts of an `export .. from`.
    fn enter_export_from_declaration(
        &mut self,
        node: &mut Node,
        ctx: &mut TraverseCtx,
    ) -> Result<(), OutOfMemory>
        requires open { IsOpen ctx.old }
        ensures { OnOk result (HasRun (watches ≡ true) trace hook.EnterExportFromDeclaration (node_doc node.old) (node_doc node.new) ctx.old ctx.new (log self.old) (log self.new)) }
    {
        self.at_node(Hook::EnterExportFromDeclaration, node, ctx)
    }
}

// The named hooks are proved here once for all such passes, and anew for each pass that writes one itself.
impl<P: Pass> Traverse for P {
    ghost watches = { P.watches };

    ghost log = { P.log };

    ghost trace = { P.trace };

    fn at_node(
        &mut self,
        hook: Hook,
        node: &mut Node,
        ctx: &mut TraverseCtx,
    ) -> Result<(), OutOfMemory> {
        Pass::at_node(self, hook, node, ctx)
    }

    fn at_statements(
        &mut self,
        hook: Hook,
        statements: &mut Vec<Part>,
        ctx: &mut TraverseCtx,
    ) -> Result<(), OutOfMemory> {
        Pass::at_statements(self, hook, statements, ctx)
    }
}
