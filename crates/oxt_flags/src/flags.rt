//! The flags of the command line.
ghost use Rattle.std.specs.Prelude.{◌≡◌, map};
ghost use Rattle.oxt_flags.specs.Flags.{flags};
ghost use Rattle.oxt_flags.specs.Views.{flag_view};

/// A flag of the command line.
#[derive(Clone, Copy)]
pub struct Flag {
    /// Its name, without the two hyphens.
    pub name: &'static str,
    /// Whether a value follows it.
    pub takes_value: bool,
}

/// The types of what is decorated are emitted.
pub const EMIT_DECORATOR_METADATA: &str = "emit-decorator-metadata";
/// The function that makes an element.
pub const JSX_PRAGMA: &str = "jsx-pragma";
/// The function that makes a fragment.
pub const JSX_PRAGMA_FRAG: &str = "jsx-pragma-frag";
/// Decorators have TypeScript's older meaning, and are lowered.
pub const LEGACY: &str = "legacy";
/// The module system that the program is written for, by its word.
pub const MODULE: &str = "module";
/// Fields without a value are removed.
pub const NO_DECLARE_FIELDS: &str = "no-declare-fields";
/// Namespaces are not lowered.
pub const NO_NAMESPACES: &str = "no-namespaces";
/// Null and undefined do not count in the types that are emitted.
pub const NO_STRICT_NULL_CHECKS: &str = "no-strict-null-checks";
/// Only imports that say so themselves are imports of types.
pub const ONLY_REMOVE_TYPE_IMPORTS: &str = "only-remove-type-imports";
/// Members of `const` enums are inlined, and such enums dropped.
pub const OPTIMIZE_CONST_ENUMS: &str = "optimize-const-enums";
/// The same for other enums.
pub const OPTIMIZE_ENUMS: &str = "optimize-enums";
/// Fields without a value are removed.
pub const REMOVE_EMPTY_FIELDS: &str = "remove-empty-fields";
/// What becomes of TypeScript's extensions in the names of modules, by its word.
pub const REWRITE_EXTENSIONS: &str = "rewrite-extensions";
/// Public fields are set by assignment.
pub const SET_PUBLIC_CLASS_FIELDS: &str = "set-public-class-fields";

/// All flags.
pub fn flags() -> &'static [Flag]
    ensures { map flag_view result.now ≡ flags }
{
    &[
        Flag {
            name: EMIT_DECORATOR_METADATA,
            takes_value: false,
        },
        Flag {
            name: JSX_PRAGMA,
            takes_value: true,
        },
        Flag {
            name: JSX_PRAGMA_FRAG,
            takes_value: true,
        },
        Flag {
            name: LEGACY,
            takes_value: false,
        },
        Flag {
            name: MODULE,
            takes_value: true,
        },
        Flag {
            name: NO_DECLARE_FIELDS,
            takes_value: false,
        },
        Flag {
            name: NO_NAMESPACES,
            takes_value: false,
        },
        Flag {
            name: NO_STRICT_NULL_CHECKS,
            takes_value: false,
        },
        Flag {
            name: ONLY_REMOVE_TYPE_IMPORTS,
            takes_value: false,
        },
        Flag {
            name: OPTIMIZE_CONST_ENUMS,
            takes_value: false,
        },
        Flag {
            name: OPTIMIZE_ENUMS,
            takes_value: false,
        },
        Flag {
            name: REMOVE_EMPTY_FIELDS,
            takes_value: false,
        },
        Flag {
            name: REWRITE_EXTENSIONS,
            takes_value: true,
        },
        Flag {
            name: SET_PUBLIC_CLASS_FIELDS,
            takes_value: false,
        },
    ]
}
