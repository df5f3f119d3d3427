//! What a declaration is to blocks of its name.
ghost use Rattle.std.specs.Int.RustNames.{bit_or};
ghost use Rattle.std.specs.Prelude.{◌≡◌};
ghost use Rattle.oxt_enum_checks.specs.Sort.{is_base, is_block, is_namespace, sort_of};

use bitflags::Flags;
use oxt_names::flags::SymbolFlags;

/// What a declaration is to blocks of its name.
#[derive(Clone, Copy)]
pub enum Sort {
    /// A block of an enum.
    Enum,
    /// A block of a namespace.
    Namespace,
    /// A function or a class, with which namespaces behind it may merge.
    Base,
    /// Anything else.
    Other,
}

/// What a declaration with these flags is.
pub fn sort_of(flags: SymbolFlags) -> Sort
    ensures { result ≡ sort_of flags }
{
    if flags.intersects(enum_flags()) {
        Sort::Enum
    } else if flags.intersects(SymbolFlags::ValueModule) {
        Sort::Namespace
    } else if flags.intersects(base_flags()) {
        Sort::Base
    } else {
        Sort::Other
    }
}

/// The flags of enums.
fn enum_flags() -> SymbolFlags
    ensures { result.0 ≡ bit_or 1024 2048 }
{
    SymbolFlags::Enum.union(SymbolFlags::ConstEnum)
}

/// The flags of functions and classes.
fn base_flags() -> SymbolFlags
    ensures { result.0 ≡ bit_or 8 16 }
{
    SymbolFlags::Class.union(SymbolFlags::Function)
}

/// Whether it is a block.
pub fn is_block(sort: Sort) -> bool
    ensures { result ≡ is_block sort }
{
    match sort {
        Sort::Enum => true,
        Sort::Namespace => true,
        _ => false,
    }
}

/// Whether it is a block of a namespace.
pub fn is_namespace(sort: Sort) -> bool
    ensures { result ≡ is_namespace sort }
{
    match sort {
        Sort::Namespace => true,
        _ => false,
    }
}

/// Whether it is a function or a class.
pub fn is_base(sort: Sort) -> bool
    ensures { result ≡ is_base sort }
{
    match sort {
        Sort::Base => true,
        _ => false,
    }
}
