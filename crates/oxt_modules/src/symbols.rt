//! What imports and exports ask of the symbols of a table, answered once for each.
ghost use Rattle.std.specs.List.{list_any};
ghost use Rattle.std.specs.Prelude.{◌≡◌, ◌<◌, IfOk, length, option_map, slice_get};
ghost use Rattle.oxt_modules.specs.Names.{has_other_value, has_value_use};
ghost use Rattle.oxt_modules.specs.Marked.{beside, is_use, is_value};
ghost use Rattle.oxt_modules.specs.Symbols.{IsAnswered, all_asked, asked, declares_besides, first_value, has_another, table_of};
ghost use Rattle.oxt_scoping.specs.Meant.{symbol_in};

use bitflags::Flags;
use oxt_names::flags::ReferenceFlags;
use oxt_names::ids::{NodeId, OutOfMemory, ReferenceId, SymbolId};
use oxt_options::nodes::NodeList;
use oxt_scoping::entry::{Redeclaration, Reference};
use oxt_scoping::scoping::Scoping;
use std::alloc::Global;

/// What is asked of a symbol.
#[derive(Clone, Copy)]
pub struct SymbolAnswers {
    /// The node of the first of its declarations that is more than a type.
    pub first_value: Option<NodeId>,
    /// Whether a declaration by another node is more than a type, too.
    pub has_another: bool,
    /// Whether a value use means it.
    pub is_used: bool,
    /// Whether one of its declarations emits code.
    pub emits: bool,
}

/// A table of scopes and symbols, and what is asked of each of its symbols.
#[derive(Drop)]
pub struct Symbols<'a> {
    /// The table.
    pub scoping: &'a Scoping,
    /// The names that are no value uses.
    pub marked: NodeList,
    /// The answers, by the numbers of the symbols.
    pub answers: Vec<SymbolAnswers>,
}

impl<'a> Symbols<'a> {
    /// What is asked of the symbols of the table, where these names are no value uses.
    ///
    /// # Errors
    ///
    /// Nothing but want of memory.
    pub fn of(
        alloc: Global,
        scoping: &'a Scoping,
        marked: NodeList,
    ) -> Result<Symbols<'a>, OutOfMemory>
        ensures table { IfOk result (λ s. table_of s ≡ beside marked scoping.now) }
        ensures answered { IfOk result (λ s. IsAnswered s) }
    {
        let answers = all_asked(alloc, scoping, &marked)?;
        Ok(Symbols {
            scoping,
            marked,
            answers,
        })
    }

    /// What is asked of the symbol, if there is one.
    #[tactic(auto, using(crate::proofs::Tables::asked_found))]
    pub fn get(&self, symbol: Option<SymbolId>) -> Option<SymbolAnswers>
        requires { IsAnswered self.now }
        ensures { result ≡ option_map (asked (table_of self.now).references) (symbol_in self.now.scoping.now.symbols symbol) }
    {
        match symbol {
            Some(symbol) => self.answers.get(symbol.0 as usize).copied(),
            None => None,
        }
    }
}

impl SymbolAnswers {
    /// Whether a node other than that declares the symbol as more than a type.
    pub fn declares_besides(self, node: NodeId) -> bool
        ensures { result ≡ declares_besides node.0 self }
    {
        match self.first_value {
            Some(first) => first.0 != node.0 || self.has_another,
            None => false,
        }
    }
}

/// What is asked of each symbol of the table, where these names are no value uses.
#[tactic(auto, using(crate::proofs::Tables::asked_steps))]
fn all_asked(
    alloc: Global,
    scoping: &Scoping,
    marked: &NodeList,
) -> Result<Vec<SymbolAnswers>, OutOfMemory>
    ensures { IfOk result (λ v. v.items ≡ all_asked (beside marked.now scoping.now)) }
{
    let mut out = Vec::new(alloc);
    for i in 0..u64::MAX {
        let symbol = SymbolId(i);
        if !scoping.has_symbol(symbol) {
            return Ok(out);
        }
        out.push(asked(scoping, marked, symbol))?;
    }
    Err(OutOfMemory)
}

/// What is asked of the symbol.
#[tactic(auto, using(crate::proofs::Tables::asked_is))]
fn asked(scoping: &Scoping, marked: &NodeList, symbol: SymbolId) -> SymbolAnswers
    requires { symbol.0 < length scoping.now.symbols }
    ensures { option_map (asked (beside marked.now scoping.now).references) (slice_get scoping.now.symbols symbol.0) ≡ Some result }
{
    let declarations = scoping.symbol_redeclarations(symbol);
    let first_value = first_value(declarations);
    SymbolAnswers {
        first_value,
        has_another: has_another(first_value, declarations),
        is_used: has_value_use(scoping, marked, scoping.get_resolved_references(symbol)),
        emits: emits(declarations),
    }
}

/// The node of the first of the declarations that is more than a type.
fn first_value(declarations: &[Redeclaration]) -> Option<NodeId>
    ensures { result ≡ first_value declarations.now }
{
    match declarations
        .iter()
        .find(|declaration| !declaration.flags.is_type_alone())
    {
        Some(declaration) => Some(declaration.node),
        None => None,
    }
}

/// Whether one of the declarations is by another node than that, if it is there, and more than a type.
fn has_another(first: Option<NodeId>, declarations: &[Redeclaration]) -> bool
    ensures { result ≡ has_another first declarations.now }
{
    match first {
        Some(node) => has_other_value(node, declarations),
        None => false,
    }
}

/// Whether one of the declarations is of another node and more than a type.
fn has_other_value(node: NodeId, declarations: &[Redeclaration]) -> bool
    ensures { result ≡ has_other_value node.0 declarations.now }
{
    declarations.iter().any(|declaration| declaration.node.0 != node.0
        && !declaration.flags.is_type_alone())
}

/// Whether one of the references is a value use.
fn has_value_use(scoping: &Scoping, marked: &NodeList, references: &[ReferenceId]) -> bool
    ensures { result ≡ has_value_use (beside marked.now scoping.now).references references.now }
{
    references
        .iter()
        .any(|reference| is_value_use(scoping, marked, *reference))
}

/// Whether the reference is there, is none of the marked names, and does not stand in a type.
#[tactic(auto, using(crate::proofs::Marks::value_steps))]
pub fn is_value_use(scoping: &Scoping, marked: &NodeList, reference: ReferenceId) -> bool
    ensures { result ≡ is_use scoping.now marked.now reference }
{
    if scoping.has_reference(reference) {
        is_value(marked, scoping.get_reference(reference))
    } else {
        false
    }
}

/// Whether the reference is none of the marked names, and does not stand in a type.
fn is_value(marked: &NodeList, reference: &Reference) -> bool
    ensures { result ≡ is_value marked.now reference.now }
{
    !reference.flags.intersects(ReferenceFlags::TypeUse) && !marked.has(reference.node)
}

/// Whether one of the declarations emits code.
fn emits(declarations: &[Redeclaration]) -> bool
    ensures { result ≡ list_any (λ d. d.emits) declarations.now }
{
    declarations.iter().any(|declaration| declaration.emits)
}
