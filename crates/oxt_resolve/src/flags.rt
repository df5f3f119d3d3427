//! What is known of scopes, declarations and uses.
ghost use Rattle.std.specs.Prelude.{◌≡◌, ◌||◌, ◌&&◌, not};
ghost use Rattle.oxt_declares.specs.Declarations.{declared_view};
ghost use Rattle.oxt_resolve.specs.Flags.{ambient_flags, both, declared_flags, emits, inherited, is_ambient, is_emitted, is_erased_sort, joined, redeclared, role_flags, scope_flag, sort_flags, usage_flags};

use bitflags::Flags;
use oxt_declares::declaration::{Declaration, Sort};
use oxt_declares::role::Role;
use oxt_names::flags::{ReferenceFlags, ScopeFlags, SymbolFlags};
use oxt_scopes::standing::{Emission, Standing};
use oxt_scopes::usage::Usage;
use oxt_scoping::entry::Redeclaration;

/// The flags of both.
pub fn both(a: ScopeFlags, b: ScopeFlags) -> ScopeFlags
    ensures { result ≡ both a b }
{
    a.union(b)
}

/// No flags.
pub fn no_flags() -> ScopeFlags
    ensures { result ≡ scope_flag 0 }
{
    ScopeFlags::empty()
}

/// The flags of the scope that a node of that role opens.
pub fn role_flags(role: Role) -> ScopeFlags
    ensures { result ≡ role_flags role }
{
    match role {
        Role::Program => ScopeFlags::Top,
        Role::Function => ScopeFlags::Function,
        Role::Overload => ScopeFlags::Function,
        Role::FunctionExpression => ScopeFlags::Function,
        Role::Arrow => both(ScopeFlags::Function, ScopeFlags::Arrow),
        Role::Class => ScopeFlags::StrictMode,
        Role::ClassExpression => ScopeFlags::StrictMode,
        Role::StaticBlock => ScopeFlags::ClassStaticBlock,
        Role::Enum => ScopeFlags::EnumBody,
        Role::Namespace => ScopeFlags::NamespaceBody,
        Role::Module => ScopeFlags::NamespaceBody,
        _ => no_flags(),
    }
}

/// The flags of a scope that those in it have too.
pub fn inherited(around: ScopeFlags) -> ScopeFlags
    ensures { result ≡ inherited around }
{
    around.intersection(ScopeFlags::StrictMode)
}

/// The flags of both.
pub fn joined(a: SymbolFlags, b: SymbolFlags) -> SymbolFlags
    ensures { result ≡ joined a b }
{
    a.union(b)
}

/// What a declaration declares its name as.
fn sort_flags(sort: Sort) -> SymbolFlags
    ensures { result ≡ sort_flags sort }
{
    match sort {
        Sort::Var => SymbolFlags::FunctionScopedVariable,
        Sort::Parameter => SymbolFlags::FunctionScopedVariable,
        Sort::Let => SymbolFlags::BlockScopedVariable,
        Sort::Catch => SymbolFlags::BlockScopedVariable,
        Sort::Const => constant_flags(),
        Sort::Using => constant_flags(),
        Sort::AwaitUsing => constant_flags(),
        Sort::Class => SymbolFlags::Class,
        Sort::InnerClass => SymbolFlags::Class,
        Sort::Function => SymbolFlags::Function,
        Sort::Overload => SymbolFlags::Function,
        Sort::InnerFunction => SymbolFlags::Function,
        Sort::Import => SymbolFlags::Import,
        Sort::TypeImport => SymbolFlags::TypeImport,
        Sort::TypeAlias => SymbolFlags::TypeAlias,
        Sort::Interface => SymbolFlags::Interface,
        Sort::TypeParameter => SymbolFlags::TypeParameter,
        Sort::Enum => SymbolFlags::Enum,
        Sort::ConstEnum => SymbolFlags::ConstEnum,
        Sort::EnumMember => SymbolFlags::EnumMember,
        Sort::ValueModule => SymbolFlags::ValueModule,
        Sort::NamespaceModule => SymbolFlags::NamespaceModule,
    }
}

/// The flags of a constant of a block.
fn constant_flags() -> SymbolFlags
    ensures { result ≡ sort_flags Sort.Const }
{
    joined(SymbolFlags::BlockScopedVariable, SymbolFlags::ConstVariable)
}

/// A declaration in a scope of that standing.
pub fn redeclared(standing: Standing, declaration: &Declaration) -> Redeclaration
    ensures { result ≡ redeclared standing (declared_view declaration.now) }
{
    Redeclaration {
        node: declaration.node,
        flags: declared_flags(standing, declaration),
        emits: emits(standing, declaration),
    }
}

/// The flags of a declaration in a scope of that standing.
fn declared_flags(standing: Standing, declaration: &Declaration) -> SymbolFlags
    ensures { result ≡ declared_flags standing (declared_view declaration.now) }
{
    let is_ambient = is_ambient(standing) || declaration.is_ambient;
    ambient_flags(is_ambient, sort_flags(declaration.sort))
}

/// The flags of a declaration, of which that says whether it is ambient.
fn ambient_flags(is_ambient: bool, flags: SymbolFlags) -> SymbolFlags
    ensures { result ≡ ambient_flags is_ambient flags }
{
    if is_ambient {
        return joined(flags, SymbolFlags::Ambient);
    }
    flags
}

/// Whether a declaration in a scope of that standing emits code.
fn emits(standing: Standing, declaration: &Declaration) -> bool
    ensures { result ≡ emits standing (declared_view declaration.now) }
{
    is_emitted(standing) && (!declaration.is_ambient && !is_erased_sort(declaration.sort))
}

fn is_ambient(standing: Standing) -> bool
    ensures { result ≡ is_ambient standing }
{
    match standing.emission {
        Emission::Ambient => true,
        Emission::Declared => true,
        _ => false,
    }
}

fn is_emitted(standing: Standing) -> bool
    ensures { result ≡ is_emitted standing }
{
    match standing.emission {
        Emission::Emitted => true,
        _ => false,
    }
}

/// Whether what is so declared is erased by itself.
fn is_erased_sort(sort: Sort) -> bool
    ensures { result ≡ is_erased_sort sort }
{
    match sort {
        Sort::Overload => true,
        _ => sort.is_type_alone(),
    }
}

/// What a use does with the name.
pub fn usage_flags(usage: Usage) -> ReferenceFlags
    ensures { result ≡ usage_flags usage }
{
    match usage {
        Usage::Read => ReferenceFlags::Read,
        Usage::Write => ReferenceFlags::Write,
        Usage::ReadWrite => read_and_write(),
        Usage::Type => ReferenceFlags::TypeUse,
    }
}

fn read_and_write() -> ReferenceFlags
    ensures { result ≡ usage_flags Usage.ReadWrite }
{
    ReferenceFlags::Read.union(ReferenceFlags::Write)
}
