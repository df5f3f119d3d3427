//! The table of a program's scopes, symbols and references.
ghost use Rattle.std.specs.Prelude.{◌≡◌, ◌<◌, ◌++◌, ◌∷◌, [], IfOk, IfSome, IsSome, None, OnErr, OnOk, Some, false, is_some, length, nat_lt, option_map, slice_get, true};
ghost use Rattle.oxt_names.specs.Constant.{constant_view};
ghost use Rattle.oxt_names.specs.Names.{name_bytes};
ghost use Rattle.oxt_names.specs.Made.{added, is_among, made_name};
ghost use Rattle.oxt_scoping.specs.Entries.{begins_const, bodies_of};
ghost use Rattle.oxt_scoping.specs.Meant.{meant, value_meant, value_use};
ghost use Rattle.oxt_scoping.specs.Scoped.{Each, at_node, binding_at, found_outwards, live_at, new_scope, new_symbol, still, unbound_at, values_alone, with_body_at, with_declaration, with_opened_scope, with_reference, with_scope, with_symbol, with_value_at, without_reference};

use crate::entry::{
    Redeclaration, Reference, ScopeEntry, Slot, SymbolEntry, begins_const, is_enum,
};
use crate::places::{
    add_body_in, at_node, bind_in, declare_in, delete_in, find_within, forget_in, is_live,
    keep_values_in, push_reserved, put_at, put_back, refer_in, scope_at, set_value_in, slot_at,
    symbol_at, unbind_in,
};
use bitflags::Flags;
use oxt_names::constant::ConstantValue;
use oxt_names::flags::{ReferenceFlags, ScopeFlags, SymbolFlags};
use oxt_names::ids::{NodeId, OutOfMemory, ReferenceId, ScopeId, SymbolId};
use oxt_names::name::Name;
use oxt_names::uid::UidNames;
use std::alloc::Global;
use std::collections::BTreeMap;
use std::marker::Model;

/// The scopes, symbols and references of a program, and the names that are taken.
#[derive(Drop)]
pub struct Scoping {
    alloc: Global,
    scopes: Vec<ScopeEntry>,
    symbols: Vec<SymbolEntry>,
    references: Vec<Slot>,
    opened: BTreeMap<u64, ScopeId>,
    declared: BTreeMap<u64, SymbolId>,
    named: BTreeMap<u64, ReferenceId>,
    names: UidNames,
}

impl Model for Scoping {
    ghost use Rattle.oxt_scoping.specs.Scoped.{Scoped, IsSound};

    ghost Value = { Scoped };

    ghost view = { λ s. record { scopes = s.scopes.items; symbols = s.symbols.items; references = s.references.items; opened = s.opened.entries; declared = s.declared.entries; named = s.named.entries; taken = s.names } };

    ghost invariant = { λ s. IsSound (record { scopes = s.scopes.items; symbols = s.symbols.items; references = s.references.items; opened = s.opened.entries; declared = s.declared.entries; named = s.named.entries; taken = s.names }) };
}

impl Scoping {
    ghost use Rattle.std.specs.Borrow.{sem};
    ghost use Rattle.oxt_scoping.specs.Lending.{LendsReference, LendsScopeFlags, LendsSymbolFlags};

    /// The table of a program of which only the scope is known, where these names are taken.
    pub fn new(alloc: Global, flags: ScopeFlags, names: UidNames) -> Result<Scoping, OutOfMemory>
        ensures { IfOk result
            (λ made. made ≡ record { scopes = new_scope None flags ∷ []; symbols = []; references = []; opened = []; declared = []; named = []; taken = names }) }
    {
        let root = ScopeEntry::new(alloc, None, flags);
        let mut scopes = Vec::new(alloc);
        scopes.push(root)?;
        Ok(Scoping {
            alloc,
            scopes,
            symbols: Vec::new(alloc),
            references: Vec::new(alloc),
            opened: BTreeMap::new(alloc),
            declared: BTreeMap::new(alloc),
            named: BTreeMap::new(alloc),
            names,
        })
    }

    /// The same, where that node opens the scope.
    pub fn of_program(
        alloc: Global,
        flags: ScopeFlags,
        node: NodeId,
        names: UidNames,
    ) -> Result<Scoping, OutOfMemory>
        ensures { IfOk result
            (λ made. made ≡ record { scopes = new_scope None flags ∷ []; symbols = []; references = []; opened = (node.0, record { 0 = 0 }) ∷ []; declared = []; named = []; taken = names }) }
    {
        let root = ScopeEntry::new(alloc, None, flags);
        let mut scopes = Vec::new(alloc);
        scopes.push(root)?;
        let mut opened = BTreeMap::new(alloc);
        opened.insert(node.0, ScopeId(0))?;
        Ok(Scoping {
            alloc,
            scopes,
            symbols: Vec::new(alloc),
            references: Vec::new(alloc),
            opened,
            declared: BTreeMap::new(alloc),
            named: BTreeMap::new(alloc),
            names,
        })
    }

    /// The scope of the program.
    pub fn root_scope_id(&self) -> ScopeId
        ensures first { result.0 ≡ 0 }
        ensures live { result.0 < length self.now.scopes }
    {
        let _scopes = &self.scopes;
        ScopeId(0)
    }

    /// The scope that the node opens.
    pub fn scope_of(&self, node: NodeId) -> Option<ScopeId>
        ensures entry { result ≡ at_node node self.now.opened }
        ensures live { IfSome result (λ scope. scope.0 < length self.now.scopes) }
    {
        at_node(&self.opened, node)
    }

    /// The symbol that the node declares.
    pub fn symbol_of(&self, node: NodeId) -> Option<SymbolId>
        ensures entry { result ≡ at_node node self.now.declared }
        ensures live { IfSome result (λ symbol. symbol.0 < length self.now.symbols) }
    {
        at_node(&self.declared, node)
    }

    /// The reference of the node, unless it was deleted.
    pub fn reference_of(&self, node: NodeId) -> Option<ReferenceId>
        ensures entry { result ≡ still self.now.references (at_node node self.now.named) }
        ensures live { IfSome result (λ reference. IsSome (live_at self.now.references reference.0)) }
    {
        let reference = at_node(&self.named, node)?;
        if is_live(self.references.as_slice(), reference) {
            Some(reference)
        } else {
            None
        }
    }

    /// The symbol that the node means; none where it is no name that is used, where its reference was
    /// deleted, and where the name is free.
    pub fn meaning_of(&self, node: NodeId) -> Option<SymbolId>
        ensures { result ≡ meant self.now node.0 }
    {
        self.get_reference(self.reference_of(node)?).symbol
    }

    /// How the node is used, if it is a name that is used as a value and not in a type.
    pub fn value_use_of(&self, node: NodeId) -> Option<Reference>
        ensures { result ≡ value_use self.now node.0 }
    {
        let reference = self.get_reference(self.reference_of(node)?);
        if reference.flags.contains(ReferenceFlags::TypeUse) {
            None
        } else {
            Some(*reference)
        }
    }

    /// The symbol that the node means, if it is a name that is used as a value and not in a type.
    pub fn value_meaning_of(&self, node: NodeId) -> Option<SymbolId>
        ensures { result ≡ value_meant self.now node.0 }
    {
        self.value_use_of(node)?.symbol
    }

    /// Whether there is a scope with the number.
    pub fn has_scope(&self, scope: ScopeId) -> bool
        ensures { result ≡ nat_lt scope.0 (length self.now.scopes) }
    {
        (scope.0 as usize) < self.scopes.len()
    }

    /// Whether there is a symbol with the number.
    pub fn has_symbol(&self, symbol: SymbolId) -> bool
        ensures { result ≡ nat_lt symbol.0 (length self.now.symbols) }
    {
        (symbol.0 as usize) < self.symbols.len()
    }

    /// Whether there is a reference with the number, and was not deleted.
    pub fn has_reference(&self, reference: ReferenceId) -> bool
        ensures { result ≡ is_some (live_at self.now.references reference.0) }
    {
        is_live(self.references.as_slice(), reference)
    }

    /// How many references were made, with those that were deleted since: a reference has a lesser number.
    pub fn reference_count(&self) -> usize
        ensures { result ≡ length self.now.references }
    {
        self.references.len()
    }

    /// The symbol that the name is bound to in the scope.
    pub fn get_binding(&self, scope: ScopeId, name: &str) -> Option<SymbolId>
        requires { scope.0 < length self.now.scopes }
        ensures bound { result ≡ binding_at self.now.scopes scope.0 name.now }
        ensures live { IfSome result (λ symbol. symbol.0 < length self.now.symbols) }
    {
        scope_at(self.scopes.as_slice(), scope).binding(name)
    }

    /// The symbol that the name is bound to in the innermost scope that has it, from this one
    /// outwards.
    pub fn find_binding(&self, scope: ScopeId, name: &str) -> Option<SymbolId>
        requires { scope.0 < length self.now.scopes }
        ensures found { result ≡ found_outwards self.now.scopes scope name.now }
        ensures live { IfSome result (λ symbol. symbol.0 < length self.now.symbols) }
    {
        find_within(self.scopes.as_slice(), self.scopes.len(), Some(scope), name)
    }

    /// What is known of the symbol.
    pub fn symbol_flags(&self, symbol: SymbolId) -> SymbolFlags
        requires { symbol.0 < length self.now.symbols }
        ensures { option_map (λ y. y.flags) (slice_get self.now.symbols symbol.0) ≡ Some result }
    {
        symbol_at(self.symbols.as_slice(), symbol).flags()
    }

    /// The scope of the symbol.
    pub fn symbol_scope_id(&self, symbol: SymbolId) -> ScopeId
        requires { symbol.0 < length self.now.symbols }
        ensures scope { option_map (λ y. y.scope) (slice_get self.now.symbols symbol.0) ≡ Some result }
        ensures live { result.0 < length self.now.scopes }
    {
        symbol_at(self.symbols.as_slice(), symbol).scope()
    }

    /// The spelling of the symbol.
    pub fn symbol_name(&self, symbol: SymbolId) -> &Name
        requires { symbol.0 < length self.now.symbols }
        ensures { option_map (λ y. y.name) (slice_get self.now.symbols symbol.0) ≡ Some (name_bytes result.now) }
    {
        symbol_at(self.symbols.as_slice(), symbol).name()
    }

    /// All declarations of the symbol, in the order of the text.
    pub fn symbol_redeclarations(&self, symbol: SymbolId) -> &[Redeclaration]
        requires { symbol.0 < length self.now.symbols }
        ensures { option_map (λ y. y.declarations) (slice_get self.now.symbols symbol.0) ≡ Some result.now }
    {
        symbol_at(self.symbols.as_slice(), symbol).declarations()
    }

    /// The references that mean the symbol and were not deleted.
    pub fn get_resolved_references(&self, symbol: SymbolId) -> &[ReferenceId]
        requires { symbol.0 < length self.now.symbols }
        ensures { option_map (λ y. y.references) (slice_get self.now.symbols symbol.0) ≡ Some result.now }
    {
        symbol_at(self.symbols.as_slice(), symbol).references()
    }

    /// The scopes of the bodies of the enum, in the order of the text; none exactly where the symbol is
    /// no enum.
    pub fn get_enum_body_scopes(&self, symbol: SymbolId) -> Option<&[ScopeId]>
        requires { symbol.0 < length self.now.symbols }
        ensures bodies { option_map bodies_of (slice_get self.now.symbols symbol.0)
            ≡ Some (option_map (λ bodies. bodies.now) result) }
        ensures live { IfSome result (λ bodies. Each (λ scope. scope.0 < length self.now.scopes) bodies.now) }
    {
        let entry = symbol_at(self.symbols.as_slice(), symbol);
        if is_enum(entry.flags()) {
            Some(entry.bodies())
        } else {
            None
        }
    }

    /// The constant of the member of an enum; none where it is not constant.
    pub fn get_enum_member_value(&self, symbol: SymbolId) -> Option<&ConstantValue>
        requires { symbol.0 < length self.now.symbols }
        ensures { option_map (λ y. y.value) (slice_get self.now.symbols symbol.0)
            ≡ Some (option_map (λ v. constant_view v.now) result) }
    {
        symbol_at(self.symbols.as_slice(), symbol).value()
    }

    /// Whether the symbol is an enum whose first block is `const`.
    pub fn is_const_enum(&self, symbol: SymbolId) -> bool
        requires { symbol.0 < length self.now.symbols }
        ensures { option_map (λ y. begins_const y.declarations) (slice_get self.now.symbols symbol.0) ≡ Some result }
    {
        begins_const(symbol_at(self.symbols.as_slice(), symbol).declarations())
    }

    /// The reference.
    pub fn get_reference(&self, reference: ReferenceId) -> &Reference
        requires { IsSome (live_at self.now.references reference.0) }
        ensures { live_at self.now.references reference.0 ≡ Some result.now }
    {
        &slot_at(self.references.as_slice(), reference).reference
    }

    /// What is known of the scope.
    pub fn scope_flags(&self, scope: ScopeId) -> ScopeFlags
        requires { scope.0 < length self.now.scopes }
        ensures { option_map (λ x. x.flags) (slice_get self.now.scopes scope.0) ≡ Some result }
    {
        scope_at(self.scopes.as_slice(), scope).flags()
    }

    /// The scope around the scope; none around the program's.
    pub fn scope_parent_id(&self, scope: ScopeId) -> Option<ScopeId>
        requires { scope.0 < length self.now.scopes }
        ensures parent { option_map (λ x. x.parent) (slice_get self.now.scopes scope.0) ≡ Some result }
        ensures live { IfSome result (λ parent. parent.0 < length self.now.scopes) }
    {
        scope_at(self.scopes.as_slice(), scope).parent()
    }

    /// Makes a scope in that one.
    pub fn create_child_scope(
        &mut self,
        parent: ScopeId,
        flags: ScopeFlags,
    ) -> Result<ScopeId, OutOfMemory>
        requires { parent.0 < length self.old.scopes }
        ensures number { IfOk result (λ scope. scope.0 ≡ length self.old.scopes) }
        ensures made { OnOk result (self.new ≡ with_scope (new_scope (Some parent) flags) self.old) }
        ensures kept { OnErr result (self.new ≡ self.old) }
    {
        let scope = ScopeId(self.scopes.len() as u64);
        let entry = ScopeEntry::new(self.alloc, Some(parent), flags);
        self.scopes.push(entry)?;
        Ok(scope)
    }

    /// Makes a scope in that one, which the node opens.
    pub fn open_scope(
        &mut self,
        node: NodeId,
        parent: ScopeId,
        flags: ScopeFlags,
    ) -> Result<ScopeId, OutOfMemory>
        requires { parent.0 < length self.old.scopes }
        ensures number { IfOk result (λ scope. scope.0 ≡ length self.old.scopes) }
        ensures made { IfOk result (λ scope. self.new ≡ with_opened_scope node scope (new_scope (Some parent) flags) self.old) }
        ensures kept { OnErr result (self.new ≡ self.old) }
    {
        let scope = ScopeId(self.scopes.len() as u64);
        let entry = ScopeEntry::new(self.alloc, Some(parent), flags);
        self.scopes.reserve(1)?;
        put_at(&mut self.opened, node, scope)?;
        push_reserved(&mut self.scopes, entry);
        Ok(scope)
    }

    /// Makes a symbol that the scope binds the name to and the node declares.
    pub fn create_symbol(
        &mut self,
        name: &Name,
        scope: ScopeId,
        flags: SymbolFlags,
        node: NodeId,
    ) -> Result<SymbolId, OutOfMemory>
        requires { scope.0 < length self.old.scopes }
        ensures number { IfOk result (λ symbol. symbol.0 ≡ length self.old.symbols) }
        ensures made { IfOk result (λ symbol. self.new ≡ with_symbol node symbol (new_symbol (name_bytes name.now) scope flags (record { node = node; flags = flags; emits = true })) self.old) }
        ensures scopes_stay { length self.new.scopes ≡ length self.old.scopes }
        ensures kept { OnErr result (self.new ≡ self.old) }
    {
        let declaration = Redeclaration {
            node,
            flags,
            emits: true,
        };
        self.declare_symbol(name, scope, flags, declaration)
    }

    /// Makes a symbol that the scope binds the name to, with that declaration.
    #[tactic(auto, using(crate::proofs::Sound::length_changed))]
    pub fn declare_symbol(
        &mut self,
        name: &Name,
        scope: ScopeId,
        flags: SymbolFlags,
        declaration: Redeclaration,
    ) -> Result<SymbolId, OutOfMemory>
        requires { scope.0 < length self.old.scopes }
        ensures number { IfOk result (λ symbol. symbol.0 ≡ length self.old.symbols) }
        ensures made { IfOk result (λ symbol. self.new ≡ with_symbol declaration.node symbol (new_symbol (name_bytes name.now) scope flags declaration) self.old) }
        ensures scopes_stay { length self.new.scopes ≡ length self.old.scopes }
        ensures kept { OnErr result (self.new ≡ self.old) }
    {
        let symbol = SymbolId(self.symbols.len() as u64);
        self.symbols.reserve(1)?;
        let entry = SymbolEntry::declared(self.alloc, name, scope, flags, declaration)?;
        let key = String::from_str(self.alloc, name.as_str())?;
        let before = put_at(&mut self.declared, declaration.node, symbol)?;
        if let Err(error) = bind_in(&mut self.scopes, scope, key, symbol) {
            put_back(&mut self.declared, declaration.node, before);
            return Err(error);
        }
        push_reserved(&mut self.symbols, entry);
        Ok(symbol)
    }

    /// Adds a declaration to the symbol, which its node declares from then on.
    #[tactic(auto, using(crate::proofs::Sound::length_changed))]
    pub fn declare_again(
        &mut self,
        symbol: SymbolId,
        declaration: Redeclaration,
    ) -> Result<(), OutOfMemory>
        requires { symbol.0 < length self.old.symbols }
        ensures declared { OnOk result (self.new ≡ with_declaration symbol declaration self.old) }
        ensures symbols_stay { length self.new.symbols ≡ length self.old.symbols }
        ensures kept { OnErr result (self.new ≡ self.old) }
    {
        let before = put_at(&mut self.declared, declaration.node, symbol)?;
        if let Err(error) = declare_in(&mut self.symbols, symbol, declaration) {
            put_back(&mut self.declared, declaration.node, before);
            return Err(error);
        }
        Ok(())
    }

    /// Adds the scope of a body to the enum.
    #[tactic(auto, using(crate::proofs::Sound::length_changed))]
    pub fn add_enum_body(&mut self, symbol: SymbolId, scope: ScopeId) -> Result<(), OutOfMemory>
        requires symbol { symbol.0 < length self.old.symbols }
        requires scope { scope.0 < length self.old.scopes }
        ensures added { OnOk result (self.new ≡ record self.old { symbols = with_body_at symbol.0 scope self.old.symbols }) }
        ensures symbols_stay { length self.new.symbols ≡ length self.old.symbols }
        ensures kept { OnErr result (self.new ≡ self.old) }
    {
        add_body_in(&mut self.symbols, symbol, scope)?;
        Ok(())
    }

    /// Gives the member of an enum the constant.
    #[tactic(auto, using(crate::proofs::Sound::length_changed))]
    pub fn set_enum_member_value(&mut self, symbol: SymbolId, value: ConstantValue)
        requires { symbol.0 < length self.old.symbols }
        ensures set { self.new ≡ record self.old { symbols = with_value_at symbol.0 (constant_view value) self.old.symbols } }
        ensures symbols_stay { length self.new.symbols ≡ length self.old.symbols }
    {
        set_value_in(&mut self.symbols, symbol, value);
    }

    /// Makes a reference of the node that means the symbol, if there is one.
    #[tactic(auto, using(crate::proofs::Sound::length_changed))]
    pub fn create_reference(
        &mut self,
        node: NodeId,
        symbol: Option<SymbolId>,
        flags: ReferenceFlags,
    ) -> Result<ReferenceId, OutOfMemory>
        requires { IfSome symbol (λ meant. meant.0 < length self.old.symbols) }
        ensures number { IfOk result (λ reference. reference.0 ≡ length self.old.references) }
        ensures made { IfOk result (λ reference. self.new ≡ with_reference reference (record { node = node; symbol = symbol; flags = flags }) self.old) }
        ensures symbols_stay { length self.new.symbols ≡ length self.old.symbols }
        ensures kept { OnErr result (self.new ≡ self.old) }
    {
        let reference = ReferenceId(self.references.len() as u64);
        let slot = Slot {
            reference: Reference {
                node,
                symbol,
                flags,
            },
            is_live: true,
        };
        self.references.reserve(1)?;
        let before = put_at(&mut self.named, node, reference)?;
        if let Err(error) = refer_in(&mut self.symbols, symbol, reference) {
            put_back(&mut self.named, node, before);
            return Err(error);
        }
        push_reserved(&mut self.references, slot);
        Ok(reference)
    }

    /// Deletes the reference, which its symbol then has no longer.
    #[tactic(auto, using(crate::proofs::Sound::length_changed))]
    pub fn delete_reference(&mut self, reference: ReferenceId)
        requires { IsSome (live_at self.old.references reference.0) }
        ensures deleted { self.new ≡ without_reference reference self.old }
        ensures scopes_stay { length self.new.scopes ≡ length self.old.scopes }
    {
        let symbol = delete_in(&mut self.references, reference);
        forget_in(&mut self.symbols, symbol, reference);
    }

    /// Binds the name to nothing in the scope.
    #[tactic(auto, using(crate::proofs::Sound::length_changed))]
    pub fn remove_binding(&mut self, scope: ScopeId, name: &str)
        requires { scope.0 < length self.old.scopes }
        ensures scopes_stay { length self.new.scopes ≡ length self.old.scopes }
        ensures unbound { self.new ≡ record self.old { scopes = unbound_at scope.0 name.now self.old.scopes } }
    {
        unbind_in(&mut self.scopes, scope, name);
    }

    /// Binds in no scope any longer what is a type alone, or ambient.
    pub fn delete_typescript_bindings(&mut self)
        ensures { self.new ≡ record self.old { scopes = values_alone self.old.symbols self.old.scopes } }
    {
        keep_values_in(&mut self.scopes, self.symbols.as_slice());
    }

    /// What is known of the symbol, to be changed.
    pub fn symbol_flags_mut(&mut self, symbol: SymbolId) -> &mut SymbolFlags
        requires { symbol.0 < length self.old.symbols }
        ensures* writes_back { sem 𝓛 (LendsSymbolFlags self.entry symbol.0 result) }
        ensures value { option_map (λ y. y.flags) (slice_get self.old.symbols symbol.0) ≡ Some result.now }
    {
        let entry = &mut self.symbols[symbol.0 as usize];
        entry.flags_mut()
    }

    /// What is known of the scope, to be changed.
    pub fn scope_flags_mut(&mut self, scope: ScopeId) -> &mut ScopeFlags
        requires { scope.0 < length self.old.scopes }
        ensures* writes_back { sem 𝓛 (LendsScopeFlags self.entry scope.0 result) }
        ensures value { option_map (λ x. x.flags) (slice_get self.old.scopes scope.0) ≡ Some result.now }
    {
        let entry = &mut self.scopes[scope.0 as usize];
        entry.flags_mut()
    }

    /// The reference, to be changed. What the symbols are meant by stays as it is, and so does the
    /// node whose reference it is.
    pub fn get_reference_mut(&mut self, reference: ReferenceId) -> &mut Reference
        requires { IsSome (live_at self.old.references reference.0) }
        ensures* writes_back { sem 𝓛 (LendsReference self.entry reference.0 result) }
        ensures value { live_at self.old.references reference.0 ≡ Some result.now }
    {
        let slot = &mut self.references[reference.0 as usize];
        &mut slot.reference
    }

    /// Makes a name of the text that differs from every name of the source and from every name made
    /// before, and takes it.
    pub fn generate_uid_name(&mut self, name: &str) -> Result<Name, OutOfMemory>
        ensures first { IfOk result (λ made. name_bytes made ≡ made_name self.old.taken name.now) }
        ensures free { IfOk result (λ made. is_among (name_bytes made) self.old.taken ≡ false) }
        ensures taken { IfOk result (λ made. self.new ≡ record self.old { taken = added (name_bytes made) self.old.taken }) }
        ensures kept { OnErr result (self.new ≡ self.old) }
    {
        self.names.generate_uid_name(name)
    }
}
