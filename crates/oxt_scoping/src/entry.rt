//! What is kept of a scope, of a symbol and of a reference.
ghost use Rattle.std.specs.Int.RustNames.{bit_or};
ghost use Rattle.std.specs.Prelude.{◌≡◌, ◌++◌, ◌∷◌, [], IfOk, None, OnErr, OnOk, Some, filter, option_map, string_bytes};
ghost use Rattle.oxt_scoping.specs.Entries.{bind, begins_const, bound_to, is_enum, is_value, keeping, unbind, value_bits, without};
ghost use Rattle.oxt_scoping.specs.Scoped.{stays};
ghost use Rattle.oxt_names.specs.Constant.{constant_view};
ghost use Rattle.oxt_names.specs.Names.{name_bytes};

use bitflags::Flags;
use oxt_names::constant::ConstantValue;
use oxt_names::flags::{ReferenceFlags, ScopeFlags, SymbolFlags};
use oxt_names::ids::{NodeId, OutOfMemory, ReferenceId, ScopeId, SymbolId};
use oxt_names::name::Name;
use std::alloc::Global;
use std::collections::BTreeMap;
use std::marker::Model;

/// A declaration of a symbol.
#[derive(Clone, Copy, PartialEq, Eq)]
pub struct Redeclaration {
    /// The node that is the name.
    pub node: NodeId,
    /// What it declares the name as.
    pub flags: SymbolFlags,
    /// Whether it emits code.
    pub emits: bool,
}

/// A use of a name.
#[derive(Clone, Copy, PartialEq, Eq)]
pub struct Reference {
    /// The node that is the name.
    pub node: NodeId,
    /// The symbol that it means; none where the name is free.
    pub symbol: Option<SymbolId>,
    /// How the name is used.
    pub flags: ReferenceFlags,
}

/// A reference, and whether it is there still.
#[derive(Clone, Copy, PartialEq, Eq)]
pub struct Slot {
    pub reference: Reference,
    pub is_live: bool,
}

/// A scope.
#[derive(Drop)]
pub struct ScopeEntry {
    parent: Option<ScopeId>,
    flags: ScopeFlags,
    bindings: BTreeMap<String, SymbolId>,
}

impl Model for ScopeEntry {
    ghost use Rattle.oxt_scoping.specs.Entries.{ScopeData, spelled};

    ghost Value = { ScopeData };

    ghost view = { λ s. record { parent = s.parent; flags = s.flags; bindings = spelled s.bindings.entries } };
}

impl ScopeEntry {
    ghost use Rattle.std.specs.Borrow.{sem};
    ghost use Rattle.oxt_scoping.specs.Lending.{LendsOwnScopeFlags};

    /// A scope in that one, which binds nothing.
    pub fn new(alloc: Global, parent: Option<ScopeId>, flags: ScopeFlags) -> ScopeEntry
        ensures { result ≡ record { parent = parent; flags = flags; bindings = [] } }
    {
        ScopeEntry {
            parent,
            flags,
            bindings: BTreeMap::new(alloc),
        }
    }

    /// The scope around it; none of the program's.
    pub fn parent(&self) -> Option<ScopeId>
        ensures { result ≡ self.now.parent }
    {
        self.parent
    }

    /// What is known of it.
    pub fn flags(&self) -> ScopeFlags
        ensures { result ≡ self.now.flags }
    {
        self.flags
    }

    /// What is known of it, to be changed.
    pub fn flags_mut(&mut self) -> &mut ScopeFlags
        ensures* writes_back { sem 𝓛 (LendsOwnScopeFlags self.entry result) }
        ensures value { result.now ≡ self.old.flags }
    {
        &mut self.flags
    }

    /// The symbol that the spelling is bound to.
    pub fn binding(&self, name: &str) -> Option<SymbolId>
        ensures { result ≡ bound_to name.now self.now.bindings }
    {
        self.bindings.get(name).copied()
    }

    /// Binds the spelling to the symbol.
    pub fn bind(&mut self, name: String, symbol: SymbolId) -> Result<(), OutOfMemory>
        ensures bound { OnOk result
            (self.new ≡ record self.old { bindings = bind (string_bytes name) symbol self.old.bindings }) }
        ensures kept { OnErr result (self.new ≡ self.old) }
    {
        self.bindings.insert(name, symbol)?;
        Ok(())
    }

    /// Binds no longer what is a type alone, or ambient.
    pub fn keep_values(&mut self, symbols: &[SymbolEntry])
        ensures { self.new ≡ keeping (stays symbols.now) self.old }
    {
        let bindings = &mut self.bindings;
        keep_bound_values(bindings, symbols);
    }

    /// Binds the spelling to nothing.
    pub fn unbind(&mut self, name: &str)
        ensures { self.new ≡ record self.old { bindings = unbind name.now self.old.bindings } }
    {
        self.bindings.remove(name);
    }
}

/// A symbol.
#[derive(Drop)]
pub struct SymbolEntry {
    name: Name,
    scope: ScopeId,
    flags: SymbolFlags,
    declarations: Vec<Redeclaration>,
    references: Vec<ReferenceId>,
    bodies: Vec<ScopeId>,
    value: Option<ConstantValue>,
}

impl Model for SymbolEntry {
    ghost use Rattle.oxt_scoping.specs.Entries.{SymbolData};
    ghost use Rattle.oxt_names.specs.Constant.{constant_view};
    ghost use Rattle.oxt_names.specs.Names.{name_bytes};
    ghost use Rattle.std.specs.Prelude.{option_map};

    ghost Value = { SymbolData };

    ghost view = { λ s. record { name = name_bytes s.name; scope = s.scope; flags = s.flags; declarations = s.declarations.items; references = s.references.items; bodies = s.bodies.items; value = option_map constant_view s.value } };
}

impl SymbolEntry {
    ghost use Rattle.std.specs.Borrow.{sem};
    ghost use Rattle.oxt_scoping.specs.Lending.{LendsOwnSymbolFlags};

    /// A symbol with one declaration, which nothing means.
    pub fn declared(
        alloc: Global,
        name: &Name,
        scope: ScopeId,
        flags: SymbolFlags,
        declaration: Redeclaration,
    ) -> Result<SymbolEntry, OutOfMemory>
        ensures { IfOk result (λ made. made ≡ record { name = name_bytes name.now; scope = scope; flags = flags; declarations = declaration ∷ []; references = []; bodies = []; value = None }) }
    {
        let mut declarations = Vec::new(alloc);
        declarations.push(declaration)?;
        Ok(SymbolEntry {
            name: name.share()?,
            scope,
            flags,
            declarations,
            references: Vec::new(alloc),
            bodies: Vec::new(alloc),
            value: None,
        })
    }

    /// Its spelling.
    pub fn name(&self) -> &Name
        ensures { name_bytes result.now ≡ self.now.name }
    {
        &self.name
    }

    /// Its scope.
    pub fn scope(&self) -> ScopeId
        ensures { result ≡ self.now.scope }
    {
        self.scope
    }

    /// What is known of it.
    pub fn flags(&self) -> SymbolFlags
        ensures { result ≡ self.now.flags }
    {
        self.flags
    }

    /// What is known of it, to be changed.
    pub fn flags_mut(&mut self) -> &mut SymbolFlags
        ensures* writes_back { sem 𝓛 (LendsOwnSymbolFlags self.entry result) }
        ensures value { result.now ≡ self.old.flags }
    {
        &mut self.flags
    }

    /// Its declarations, in the order of the text.
    pub fn declarations(&self) -> &[Redeclaration]
        ensures { result.now ≡ self.now.declarations }
    {
        self.declarations.as_slice()
    }

    /// The references that mean it.
    pub fn references(&self) -> &[ReferenceId]
        ensures { result.now ≡ self.now.references }
    {
        self.references.as_slice()
    }

    /// The scopes of the bodies of an enum, in the order of the text.
    pub fn bodies(&self) -> &[ScopeId]
        ensures { result.now ≡ self.now.bodies }
    {
        self.bodies.as_slice()
    }

    /// The constant of a member of an enum.
    pub fn value(&self) -> Option<&ConstantValue>
        ensures { option_map (λ v. constant_view v.now) result ≡ self.now.value }
    {
        self.value.as_ref()
    }

    /// Appends the scope of a body.
    pub fn push_body(&mut self, scope: ScopeId) -> Result<(), OutOfMemory>
        ensures pushed { OnOk result
            (self.new ≡ record self.old { bodies = self.old.bodies ++ scope ∷ [] }) }
        ensures kept { OnErr result (self.new ≡ self.old) }
    {
        self.bodies.push(scope)?;
        Ok(())
    }

    /// Gives it the constant.
    pub fn set_value(&mut self, value: ConstantValue)
        ensures { self.new ≡ record self.old { value = Some (constant_view value) } }
    {
        self.value = Some(value);
    }

    /// Appends a declaration.
    pub fn push_declaration(&mut self, declaration: Redeclaration) -> Result<(), OutOfMemory>
        ensures pushed { OnOk result
            (self.new ≡ record self.old { declarations = self.old.declarations ++ declaration ∷ [] }) }
        ensures kept { OnErr result (self.new ≡ self.old) }
    {
        self.declarations.push(declaration)?;
        Ok(())
    }

    /// Appends a reference.
    pub fn push_reference(&mut self, reference: ReferenceId) -> Result<(), OutOfMemory>
        ensures pushed { OnOk result
            (self.new ≡ record self.old { references = self.old.references ++ reference ∷ [] }) }
        ensures kept { OnErr result (self.new ≡ self.old) }
    {
        self.references.push(reference)?;
        Ok(())
    }

    /// Takes the reference out.
    pub fn remove_reference(&mut self, reference: ReferenceId)
        ensures { self.new ≡ record self.old { references = without reference self.old.references } }
    {
        retain_others(&mut self.references, reference);
    }
}

/// Takes the reference out of the list.
fn retain_others(references: &mut Vec<ReferenceId>, reference: ReferenceId)
    ensures { references.new.items ≡ without reference references.old.items }
{
    references.retain(|other| other.0 != reference.0);
}

/// Keeps the bindings whose symbols are values that are not ambient.
fn keep_bound_values(bindings: &mut BTreeMap<String, SymbolId>, symbols: &[SymbolEntry])
    ensures { bindings.new.entries ≡ filter (λ e. stays symbols.now e.1) bindings.old.entries }
{
    bindings.retain(|_, symbol| is_value_symbol(symbols, *symbol));
}

/// Whether the symbol of that number is a value that is not ambient.
fn is_value_symbol(symbols: &[SymbolEntry], symbol: SymbolId) -> bool
    ensures { result ≡ stays symbols.now symbol }
{
    match symbols.get(symbol.0 as usize) {
        Some(entry) => is_value(entry.flags()),
        None => false,
    }
}

/// Whether the flags are those of more than a type, and of nothing ambient.
fn is_value(flags: SymbolFlags) -> bool
    ensures { result ≡ is_value flags }
{
    flags.intersects(value_flags()) && !flags.intersects(SymbolFlags::Ambient)
}

/// The flags of what is more than a type.
pub fn value_flags() -> SymbolFlags
    ensures { result.0 ≡ value_bits }
{
    SymbolFlags::FunctionScopedVariable
        .union(SymbolFlags::BlockScopedVariable)
        .union(SymbolFlags::ConstVariable)
        .union(SymbolFlags::Class)
        .union(SymbolFlags::Function)
        .union(SymbolFlags::Import)
        .union(SymbolFlags::Enum)
        .union(SymbolFlags::ConstEnum)
        .union(SymbolFlags::EnumMember)
        .union(SymbolFlags::ValueModule)
}

/// Whether the flags are those of an enum.
pub fn is_enum(flags: SymbolFlags) -> bool
    ensures { result ≡ is_enum flags }
{
    flags.intersects(enum_flags())
}

/// The flags of enums.
fn enum_flags() -> SymbolFlags
    ensures { result.0 ≡ bit_or 1024 2048 }
{
    SymbolFlags::Enum.union(SymbolFlags::ConstEnum)
}

/// Whether the first of the declarations that is a block of an enum is `const`.
#[tactic(auto, using(crate::proofs::Enums::const_steps))]
pub fn begins_const(declarations: &[Redeclaration]) -> bool
    ensures { result ≡ begins_const declarations.now }
{
    for declaration in declarations {
        if is_enum(declaration.flags) {
            return declaration.flags.contains(SymbolFlags::ConstEnum);
        }
    }
    false
}
