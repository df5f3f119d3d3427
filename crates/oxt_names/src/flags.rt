//! What is known of symbols, scopes and references, as sets of flags.
ghost use Rattle.std.specs.Prelude.{⊤, ◌≡◌};
ghost use Rattle.oxt_names.specs.Flags.{is_type_alone, reference_bits, reference_table, scope_bits, scope_table, symbol_bits, symbol_table, type_bits};

use bitflags::{Flag, Flags};

/// What is known of a symbol: what its declarations are, all together.
#[derive(Clone, Copy, PartialEq, Eq)]
pub struct SymbolFlags(u32);

impl SymbolFlags {
    /// A `var` or a parameter.
    pub const FunctionScopedVariable: SymbolFlags = SymbolFlags(1);

    /// A `let`, `const`, `using`, `await using` or catch parameter.
    pub const BlockScopedVariable: SymbolFlags = SymbolFlags(2);

    /// A `const`, `using` or `await using`.
    pub const ConstVariable: SymbolFlags = SymbolFlags(4);

    /// A class.
    pub const Class: SymbolFlags = SymbolFlags(8);

    /// A function, with a body or without.
    pub const Function: SymbolFlags = SymbolFlags(16);

    /// An import specifier or an `import =`.
    pub const Import: SymbolFlags = SymbolFlags(32);

    /// One of these that is type-only.
    pub const TypeImport: SymbolFlags = SymbolFlags(64);

    /// A type alias.
    pub const TypeAlias: SymbolFlags = SymbolFlags(128);

    /// An interface.
    pub const Interface: SymbolFlags = SymbolFlags(256);

    /// A type parameter.
    pub const TypeParameter: SymbolFlags = SymbolFlags(512);

    /// An enum that is not `const`.
    pub const Enum: SymbolFlags = SymbolFlags(1024);

    /// A `const enum`.
    pub const ConstEnum: SymbolFlags = SymbolFlags(2048);

    /// A member of an enum.
    pub const EnumMember: SymbolFlags = SymbolFlags(4096);

    /// A namespace with something in it that stays.
    pub const ValueModule: SymbolFlags = SymbolFlags(8192);

    /// A namespace that is type-only.
    pub const NamespaceModule: SymbolFlags = SymbolFlags(16384);

    /// A declaration with `declare`, or inside one.
    pub const Ambient: SymbolFlags = SymbolFlags(32768);

    /// All flags by name.
    pub const FLAGS: &'static [Flag<SymbolFlags>] = &[
        Flag {
            name: "FunctionScopedVariable",
            value: SymbolFlags::FunctionScopedVariable,
        },
        Flag {
            name: "BlockScopedVariable",
            value: SymbolFlags::BlockScopedVariable,
        },
        Flag {
            name: "ConstVariable",
            value: SymbolFlags::ConstVariable,
        },
        Flag {
            name: "Class",
            value: SymbolFlags::Class,
        },
        Flag {
            name: "Function",
            value: SymbolFlags::Function,
        },
        Flag {
            name: "Import",
            value: SymbolFlags::Import,
        },
        Flag {
            name: "TypeImport",
            value: SymbolFlags::TypeImport,
        },
        Flag {
            name: "TypeAlias",
            value: SymbolFlags::TypeAlias,
        },
        Flag {
            name: "Interface",
            value: SymbolFlags::Interface,
        },
        Flag {
            name: "TypeParameter",
            value: SymbolFlags::TypeParameter,
        },
        Flag {
            name: "Enum",
            value: SymbolFlags::Enum,
        },
        Flag {
            name: "ConstEnum",
            value: SymbolFlags::ConstEnum,
        },
        Flag {
            name: "EnumMember",
            value: SymbolFlags::EnumMember,
        },
        Flag {
            name: "ValueModule",
            value: SymbolFlags::ValueModule,
        },
        Flag {
            name: "NamespaceModule",
            value: SymbolFlags::NamespaceModule,
        },
        Flag {
            name: "Ambient",
            value: SymbolFlags::Ambient,
        },
    ];

    /// Whether they are those of a type alone, which is nothing at run time.
    pub fn is_type_alone(self) -> bool
        ensures { result ≡ is_type_alone self }
    {
        self.intersects(type_flags())
    }
}

/// The flags of what is a type alone.
fn type_flags() -> SymbolFlags
    ensures { result.0 ≡ type_bits }
{
    SymbolFlags::TypeImport
        .union(SymbolFlags::TypeAlias)
        .union(SymbolFlags::Interface)
        .union(SymbolFlags::TypeParameter)
        .union(SymbolFlags::NamespaceModule)
}

impl Flags for SymbolFlags {
    type Bits = u32;

    ghost exact = { ⊤ };

    ghost table = { symbol_table };

    ghost set_of = { symbol_bits };

    fn flags<'a>() -> &'a [Flag<SymbolFlags>] {
        SymbolFlags::FLAGS
    }

    fn bits(&self) -> u32 {
        self.0
    }

    fn from_bits_retain(bits: u32) -> SymbolFlags {
        SymbolFlags(bits)
    }
}

/// What is known of a scope.
#[derive(Clone, Copy, PartialEq, Eq)]
pub struct ScopeFlags(u16);

impl ScopeFlags {
    /// The scope of the program.
    pub const Top: ScopeFlags = ScopeFlags(1);

    /// The scope of a function.
    pub const Function: ScopeFlags = ScopeFlags(2);

    /// The scope of an arrow function.
    pub const Arrow: ScopeFlags = ScopeFlags(4);

    /// Strict code.
    pub const StrictMode: ScopeFlags = ScopeFlags(8);

    /// The scope of a constructor.
    pub const Constructor: ScopeFlags = ScopeFlags(16);

    /// The scope of a getter.
    pub const GetAccessor: ScopeFlags = ScopeFlags(32);

    /// The scope of a setter.
    pub const SetAccessor: ScopeFlags = ScopeFlags(64);

    /// The scope of a static block.
    pub const ClassStaticBlock: ScopeFlags = ScopeFlags(128);

    /// The scope of a block of an enum.
    pub const EnumBody: ScopeFlags = ScopeFlags(256);

    /// The scope of a namespace.
    pub const NamespaceBody: ScopeFlags = ScopeFlags(512);

    /// All flags by name.
    pub const FLAGS: &'static [Flag<ScopeFlags>] = &[
        Flag {
            name: "Top",
            value: ScopeFlags::Top,
        },
        Flag {
            name: "Function",
            value: ScopeFlags::Function,
        },
        Flag {
            name: "Arrow",
            value: ScopeFlags::Arrow,
        },
        Flag {
            name: "StrictMode",
            value: ScopeFlags::StrictMode,
        },
        Flag {
            name: "Constructor",
            value: ScopeFlags::Constructor,
        },
        Flag {
            name: "GetAccessor",
            value: ScopeFlags::GetAccessor,
        },
        Flag {
            name: "SetAccessor",
            value: ScopeFlags::SetAccessor,
        },
        Flag {
            name: "ClassStaticBlock",
            value: ScopeFlags::ClassStaticBlock,
        },
        Flag {
            name: "EnumBody",
            value: ScopeFlags::EnumBody,
        },
        Flag {
            name: "NamespaceBody",
            value: ScopeFlags::NamespaceBody,
        },
    ];
}

impl Flags for ScopeFlags {
    type Bits = u16;

    ghost exact = { ⊤ };

    ghost table = { scope_table };

    ghost set_of = { scope_bits };

    fn flags<'a>() -> &'a [Flag<ScopeFlags>] {
        ScopeFlags::FLAGS
    }

    fn bits(&self) -> u16 {
        self.0
    }

    fn from_bits_retain(bits: u16) -> ScopeFlags {
        ScopeFlags(bits)
    }
}

/// What a reference does with the name.
#[derive(Clone, Copy, PartialEq, Eq)]
pub struct ReferenceFlags(u8);

impl ReferenceFlags {
    /// It reads the value.
    pub const Read: ReferenceFlags = ReferenceFlags(1);

    /// It writes the value.
    pub const Write: ReferenceFlags = ReferenceFlags(2);

    /// It stands in a type, or in what is type-only.
    pub const TypeUse: ReferenceFlags = ReferenceFlags(4);

    /// All flags by name.
    pub const FLAGS: &'static [Flag<ReferenceFlags>] = &[
        Flag {
            name: "Read",
            value: ReferenceFlags::Read,
        },
        Flag {
            name: "Write",
            value: ReferenceFlags::Write,
        },
        Flag {
            name: "TypeUse",
            value: ReferenceFlags::TypeUse,
        },
    ];
}

impl Flags for ReferenceFlags {
    type Bits = u8;

    ghost exact = { ⊤ };

    ghost table = { reference_table };

    ghost set_of = { reference_bits };

    fn flags<'a>() -> &'a [Flag<ReferenceFlags>] {
        ReferenceFlags::FLAGS
    }

    fn bits(&self) -> u8 {
        self.0
    }

    fn from_bits_retain(bits: u8) -> ReferenceFlags {
        ReferenceFlags(bits)
    }
}
