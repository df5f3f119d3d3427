//! The options of the whole lowering, and those that a run without flags has.
ghost use Rattle.std.specs.Prelude.{◌≡◌, IfOk};
ghost use Rattle.oxt_options.specs.Metadata.{emits_metadata};
ghost use Rattle.oxt_options.specs.Options.{decorator_defaults, transform_defaults, transform_view, typescript_defaults, typescript_view};

use crate::rewrite::RewriteExtensionsMode;
use oxt_names::ids::OutOfMemory;
use oxt_names::name::Name;
use std::alloc::Global;

/// The module system that the lowered program is written for.
#[derive(Clone, Copy, PartialEq, Eq)]
pub enum Module {
    /// That of the source.
    Preserve,
    /// ECMAScript modules.
    Esm,
    /// CommonJS.
    CommonJs,
}

/// What changes the lowering.
#[derive(Drop)]
pub struct TransformOptions {
    /// How TypeScript is lowered.
    pub typescript: TypeScriptOptions,
    /// How decorators are lowered.
    pub decorator: DecoratorOptions,
    /// What the lowered program is written for.
    pub module: Module,
    /// Whether public fields are set by assignment in place of definition.
    pub set_public_class_fields: bool,
}

/// How TypeScript is lowered.
#[derive(Drop)]
pub struct TypeScriptOptions {
    /// The function that makes an element; an import of the name at its head is no import of a type.
    pub jsx_pragma: Name,
    /// The same for a fragment.
    pub jsx_pragma_frag: Name,
    /// Whether only imports that say so themselves are imports of types.
    pub only_remove_type_imports: bool,
    /// Whether namespaces are lowered.
    pub allow_namespaces: bool,
    /// Whether a field without a value stays unless it has `declare`.
    pub allow_declare_fields: bool,
    /// Whether fields without a value are removed.
    pub remove_class_fields_without_initializer: bool,
    /// Whether the members of `const` enums are inlined, and such enums removed.
    pub optimize_const_enums: bool,
    /// The same for other enums.
    pub optimize_enums: bool,
    /// What becomes of TypeScript's extensions in the names of modules; none leaves them.
    pub rewrite_import_extensions: Option<RewriteExtensionsMode>,
}

/// How decorators are lowered.
#[derive(Clone, Copy, PartialEq, Eq)]
pub struct DecoratorOptions {
    /// Whether decorators have TypeScript's older meaning, and are lowered.
    pub legacy: bool,
    /// Whether the types of what is decorated are emitted; only under `legacy`.
    pub emit_decorator_metadata: bool,
    /// Whether null and undefined count in the types that are emitted.
    pub strict_null_checks: bool,
}

impl TransformOptions {
    /// The options of a run without flags.
    pub fn defaults(alloc: Global) -> Result<TransformOptions, OutOfMemory>
        ensures { IfOk result (λ options. transform_view options ≡ transform_defaults) }
    {
        Ok(TransformOptions {
            typescript: TypeScriptOptions::defaults(alloc)?,
            decorator: DecoratorOptions::defaults(),
            module: Module::Preserve,
            set_public_class_fields: false,
        })
    }
}

impl TypeScriptOptions {
    /// The options of a run without flags.
    pub fn defaults(alloc: Global) -> Result<TypeScriptOptions, OutOfMemory>
        ensures { IfOk result (λ options. typescript_view options ≡ typescript_defaults) }
    {
        Ok(TypeScriptOptions {
            jsx_pragma: Name::new(alloc, "React.createElement")?,
            jsx_pragma_frag: Name::new(alloc, "React.Fragment")?,
            only_remove_type_imports: false,
            allow_namespaces: true,
            allow_declare_fields: true,
            remove_class_fields_without_initializer: false,
            optimize_const_enums: false,
            optimize_enums: false,
            rewrite_import_extensions: None,
        })
    }
}

impl DecoratorOptions {
    /// The options of a run without flags.
    pub fn defaults() -> DecoratorOptions
        ensures { result ≡ decorator_defaults }
    {
        DecoratorOptions {
            legacy: false,
            emit_decorator_metadata: false,
            strict_null_checks: true,
        }
    }

    /// Whether metadata is emitted: it is asked for, and decorators have their older meaning.
    pub fn emits_metadata(self) -> bool
        ensures { result ≡ emits_metadata self }
    {
        self.legacy && self.emit_decorator_metadata
    }
}
