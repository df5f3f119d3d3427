//! The TypeScript passes as one.
ghost use Rattle.std.specs.Prelude.{OnOk};
ghost use Rattle.oxt_ctx.specs.Level.{IsLevel, IsOpenAt};

use oxt_class::pass::ClassFields;
use oxt_ctx::context::TraverseCtx;
use oxt_ctx::hook::Hook;
use oxt_ctx::pass::Pass;
use oxt_decor::pass::Decorator;
use oxt_erase::extensions::TypeScriptRewriteExtensions;
use oxt_erase::module::TypeScriptModule;
use oxt_erase::pass::TypeScriptAnnotations;
use oxt_lower::namespace::TypeScriptNamespace;
use oxt_lower::pass::TypeScriptEnum;
use oxt_modules::retain::retain_modules;
use oxt_names::ids::OutOfMemory;
use oxt_options::TransformOptions;
use oxt_traverse::both::Both;
use oxt_traverse::dispatch::{run_at_node, run_at_statements};
use oxt_tree::tree::{Node, Part};
use oxt_walk::walk::walk_program;

/// Lowers the program by the pass of decorators and the TypeScript passes under the options, in one walk: at each hook
/// the decorators come first.
///
/// `program` is a node of kind `Program`.
///
/// # Errors
///
/// `OutOfMemory` for want of memory or of numbers alone. The tree and the context may then only be
/// dropped.
pub fn lower_program(
    program: &mut Node,
    options: &TransformOptions,
    ctx: &mut TraverseCtx,
) -> Result<(), OutOfMemory>
    ensures level { OnOk result (IsLevel ctx.old ctx.new) }
{
    let mut passes = Both {
        first: Decorator::new(ctx.memory(), options.decorator),
        second: TypeScript::new(options),
    };
    walk_program(&mut passes, program, ctx)
}

/// The TypeScript passes. Before the parts of a program, what of its imports and exports stands for nothing at run time
/// goes, and all code of a file of definitions. Then, and at each other hook, those of the passes that have it run, in the
/// order of the fields.
#[derive(Clone, Copy)]
pub struct TypeScript {
    namespaces: TypeScriptNamespace,
    enums: TypeScriptEnum,
    annotations: TypeScriptAnnotations,
    modules: TypeScriptModule,
    classes: ClassFields,
    extensions: Option<TypeScriptRewriteExtensions>,
}

impl TypeScript {
    /// The passes under these options.
    pub fn new(options: &TransformOptions) -> TypeScript {
        let typescript = &options.typescript;
        TypeScript {
            namespaces: TypeScriptNamespace::new(typescript),
            enums: TypeScriptEnum::new(typescript.optimize_const_enums, typescript.optimize_enums),
            annotations: TypeScriptAnnotations::new(),
            modules: TypeScriptModule::new(typescript.only_remove_type_imports, options.module),
            classes: ClassFields::new(options),
            extensions: TypeScriptRewriteExtensions::new(typescript),
        }
    }

    /// Removes what of the program's imports and exports stands for nothing at run time, and runs the passes if it is no
    /// file of definitions.
    fn enter(&mut self, program: &mut Node, ctx: &mut TraverseCtx) -> Result<(), OutOfMemory>
        ensures { OnOk result (IsLevel ctx.old ctx.new) }
    {
        self.retain(program, ctx)?;
        if program.is_definition_file() {
            return Ok(());
        }
        self.run(Hook::EnterProgram, program, ctx)
    }

    /// Removes what of the program's imports and exports stands for nothing at run time.
    fn retain(&self, program: &mut Node, ctx: &mut TraverseCtx) -> Result<(), OutOfMemory>
        ensures { OnOk result (IsLevel ctx.old ctx.new) }
    {
        let TypeScriptModule {
            only_remove_type_imports,
            module,
        } = self.modules;
        retain_modules(
            program,
            &ctx.plan,
            only_remove_type_imports,
            module,
            &mut ctx.ids,
        )
    }

    /// Runs at a node those of the passes that have the hook.
    fn run(&mut self, hook: Hook, node: &mut Node, ctx: &mut TraverseCtx) -> Result<(), OutOfMemory>
        requires open { IsOpenAt hook ctx.old }
        ensures { OnOk result (IsLevel ctx.old ctx.new) }
    {
        run_at_node(&mut self.namespaces, hook, node, ctx)?;
        run_at_node(&mut self.enums, hook, node, ctx)?;
        run_at_node(&mut self.annotations, hook, node, ctx)?;
        run_at_node(&mut self.modules, hook, node, ctx)?;
        run_at_node(&mut self.classes, hook, node, ctx)?;
        match &mut self.extensions {
            Some(extensions) => run_at_node(extensions, hook, node, ctx),
            None => Ok(()),
        }
    }
}

impl Pass for TypeScript {
    fn at_node(
        &mut self,
        hook: Hook,
        node: &mut Node,
        ctx: &mut TraverseCtx,
    ) -> Result<(), OutOfMemory> {
        match hook {
            Hook::EnterProgram => self.enter(node, ctx),
            _ => self.run(hook, node, ctx),
        }
    }

    fn at_statements(
        &mut self,
        hook: Hook,
        statements: &mut Vec<Part>,
        ctx: &mut TraverseCtx,
    ) -> Result<(), OutOfMemory> {
        run_at_statements(&mut self.namespaces, hook, statements, ctx)?;
        run_at_statements(&mut self.enums, hook, statements, ctx)?;
        run_at_statements(&mut self.annotations, hook, statements, ctx)?;
        run_at_statements(&mut self.modules, hook, statements, ctx)?;
        run_at_statements(&mut self.classes, hook, statements, ctx)?;
        match &mut self.extensions {
            Some(extensions) => run_at_statements(extensions, hook, statements, ctx),
            None => Ok(()),
        }
    }
}
