//! What names mean, and the symbols that metadata names.
ghost use Rattle.std.specs.Prelude.{◌≡◌, ℕ, ◌<◌, ◌++◌, [], IfOk, OnOk, Some, length, slice_get};
ghost use Rattle.oxt_metadata.specs.Meant.{declared_by, is_type_alone, is_type_alone_at, is_value};
ghost use Rattle.oxt_metadata.specs.Symbols.{is_in, named_by, named_in, numbers_in};
ghost use Rattle.oxt_tree.specs.View.{doc_or_nil};

use crate::annotations::Annotation;
use bitflags::Flags;
use oxt_names::flags::SymbolFlags;
use oxt_names::ids::{NodeId, OutOfMemory, SymbolId};
use oxt_options::metadata::MetadataType;
use oxt_scoping::entry::value_flags;
use oxt_scoping::scoping::Scoping;
use oxt_tree::tree::Part;
use std::alloc::Global;
use std::collections::HashSet;
use std::marker::Model;

/// The symbol that the part declares.
pub(crate) fn declared_by(scoping: &Scoping, name: Option<&Part>) -> Option<SymbolId>
    ensures { result ≡ declared_by scoping.now (doc_or_nil name.entry) }
{
    match name {
        Some(Part::Node(node)) => scoping.symbol_of(node.id),
        _ => None,
    }
}

/// Whether the name which is the node means nothing but types.
pub(crate) fn is_type_alone(scoping: &Scoping, node: NodeId) -> bool
    ensures { result ≡ is_type_alone scoping.now node.0 }
{
    match scoping.meaning_of(node) {
        Some(symbol) => scoping.has_symbol(symbol) && is_declared_type(scoping, symbol),
        None => false,
    }
}

/// Whether nothing but types declares the symbol.
#[tactic(auto, using(crate::proofs::Found::type_found))]
fn is_declared_type(scoping: &Scoping, symbol: SymbolId) -> bool
    requires { symbol.0 < length scoping.now.symbols }
    ensures { result ≡ is_type_alone_at (slice_get scoping.now.symbols symbol.0) }
{
    !is_value(scoping.symbol_flags(symbol))
}

/// Whether the flags are those of more than a type.
fn is_value(flags: SymbolFlags) -> bool
    ensures { result ≡ is_value flags }
{
    flags.intersects(value_flags())
}

/// The symbols that metadata names, among which each is found at once.
#[derive(Drop)]
pub struct NamedSymbols {
    symbols: Vec<SymbolId>,
    set: HashSet<u64>,
}

impl Model for NamedSymbols {
    ghost use Rattle.std.specs.Prelude.{◌≡◌, ℕ, List};
    ghost use Rattle.oxt_metadata.specs.Symbols.{is_in, numbers_in};

    ghost Value = { List ℕ };

    ghost view = { λ n. numbers_in n.symbols.items };

    ghost invariant = { λ n. (i : ℕ) → is_in n.set.keys i ≡ is_in (numbers_in n.symbols.items) i };
}

impl NamedSymbols {
    /// There are none.
    pub fn none(alloc: Global) -> NamedSymbols
        ensures { result ≡ [] }
    {
        NamedSymbols {
            symbols: Vec::new(alloc),
            set: HashSet::new(alloc),
        }
    }

    /// Those that these annotations name as values.
    ///
    /// # Errors
    ///
    /// Fails only where memory runs out.
    pub fn of(
        alloc: Global,
        scoping: &Scoping,
        annotations: &[Annotation],
    ) -> Result<NamedSymbols, OutOfMemory>
        ensures { IfOk result (λ named. named ≡ named_in scoping.now annotations.now) }
    {
        let symbols = symbols_of(alloc, scoping, annotations)?;
        let set = set_of(alloc, symbols.as_slice())?;
        Ok(NamedSymbols { symbols, set })
    }

    /// Whether the symbol is one of them.
    pub fn has(&self, symbol: SymbolId) -> bool
        ensures { result ≡ is_in self.now symbol.0 }
    {
        self.set.contains(&symbol.0)
    }
}

/// The symbols that the annotations name.
#[tactic(auto, using(crate::proofs::Named::steps))]
fn symbols_of(
    alloc: Global,
    scoping: &Scoping,
    annotations: &[Annotation],
) -> Result<Vec<SymbolId>, OutOfMemory>
    ensures { IfOk result (λ symbols. numbers_in symbols.items ≡ named_in scoping.now annotations.now) }
{
    let mut symbols = Vec::new(alloc);
    for annotation in annotations {
        push_named(scoping, annotation.written, &mut symbols)?;
    }
    Ok(symbols)
}

/// Appends the symbol that the type names, if it names one.
#[tactic(auto, using(crate::proofs::Named::one_named))]
fn push_named(
    scoping: &Scoping,
    written: MetadataType,
    symbols: &mut Vec<SymbolId>,
) -> Result<(), OutOfMemory>
    ensures { OnOk result (numbers_in symbols.new.items
        ≡ numbers_in symbols.old.items ++ named_by scoping.now written) }
{
    if let MetadataType::Reference { root, .. } = written {
        if let Some(symbol) = scoping.meaning_of(root) {
            symbols.push(symbol)?;
        }
    }
    Ok(())
}

/// The numbers of the symbols.
fn set_of(alloc: Global, symbols: &[SymbolId]) -> Result<HashSet<u64>, OutOfMemory>
    ensures { IfOk result (λ set. (i : ℕ) → is_in set.keys i ≡ is_in (numbers_in symbols.now) i) }
{
    Ok(symbols.iter().map(|symbol| symbol.0).collect(alloc)?)
}
