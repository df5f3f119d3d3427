//! The blocks of enums that are dropped.
ghost use Rattle.std.specs.Prelude.{◌≡◌, ℕ, IfOk, map, option_map};
ghost use Rattle.oxt_dropped.specs.DroppedEnums.{blocks, both_need, dropped, dropped_at, dropped_by, goes, inside_of};
ghost use Rattle.oxt_dropped.specs.Needed.{needed, number_of};
ghost use Rattle.oxt_metadata.specs.Symbols.{is_in as is_named_in};
ghost use Rattle.oxt_options.specs.Facts.{is_in};
ghost use Rattle.oxt_options.specs.Lists.{numbers_in};
ghost use Rattle.oxt_options.specs.Options.{typescript_view};
ghost use Rattle.oxt_tree.specs.View.{docs_in, node_doc};

use crate::needed::needed_symbols;
use oxt_declares::dropped::{inside_dropped, is_dropped};
use oxt_grammar::field::Field;
use oxt_grammar::holds::Row;
use oxt_grammar::kind::Kind;
use oxt_inline::names::named_symbol;
use oxt_inline::values::{is_optimized, optimizes};
use oxt_metadata::symbols::NamedSymbols;
use oxt_names::ids::{NodeId, OutOfMemory, SymbolId};
use oxt_options::TypeScriptOptions;
use oxt_options::nodes::NodeList;
use oxt_scoping::scoping::Scoping;
use oxt_search::all::all_in;
use oxt_search::search::{Inside, Search, Visit};
use oxt_tree::tree::Node;
use std::alloc::Global;
use std::collections::HashSet;

/// The blocks, in the order of the text, of the enums that are dropped: members of the enum are inlined, no block of it is
/// exported or ambient, no declaration of another kind emits code under its name, each of its members is constant and
/// none is named by a template, and no use of it as a value is left. One in an `import a = ..` is left where that is
/// `kept`, under `legacy` one in the decorators of a field with `declare`, and so is what metadata names. `scoping` is the table
/// of the program.
///
/// # Errors
///
/// Nothing but want of memory.
pub fn dropped_blocks(
    alloc: Global,
    program: &Node,
    scoping: &Scoping,
    kept: &NodeList,
    named: &NamedSymbols,
    options: &TypeScriptOptions,
    legacy: bool,
) -> Result<Vec<NodeId>, OutOfMemory>
    ensures { IfOk result (λ nodes. numbers_in nodes.items ≡ dropped scoping.now (is_in kept.now) (is_named_in named.now)
        (node_doc program.now) (typescript_view options.now) legacy) }
{
    if optimizes(options) && !program.is_definition_file() {
        let needed = needed_set(alloc, program, scoping, kept, options, legacy)?;
        dropped_by(alloc, program, scoping, options, legacy, &needed, named)
    } else {
        Ok(Vec::new(alloc))
    }
}

/// The symbols that the program needs.
fn needed_set(
    alloc: Global,
    program: &Node,
    scoping: &Scoping,
    kept: &NodeList,
    options: &TypeScriptOptions,
    legacy: bool,
) -> Result<HashSet<u64>, OutOfMemory>
    ensures { IfOk result (λ set. (n : ℕ) → is_in set.keys n
        ≡ is_in (needed scoping.now (is_in kept.now) (node_doc program.now) (typescript_view options.now) legacy) n) }
{
    let symbols = needed_symbols(alloc, program, scoping, kept, options, legacy)?;
    set_of(alloc, symbols.as_slice())
}

/// The numbers of the symbols.
fn set_of(alloc: Global, symbols: &[SymbolId]) -> Result<HashSet<u64>, OutOfMemory>
    ensures { IfOk result (λ set. (n : ℕ) → is_in set.keys n ≡ is_in (map number_of symbols.now) n) }
{
    Ok(symbols.iter().map(|symbol| symbol.0).collect(alloc)?)
}

/// The blocks that are dropped, where the program needs these symbols.
#[tactic(auto, using(oxt_search::proofs::Given::as_it_is))]
fn dropped_by(
    alloc: Global,
    program: &Node,
    scoping: &Scoping,
    options: &TypeScriptOptions,
    legacy: bool,
    needed: &HashSet<u64>,
    named: &NamedSymbols,
) -> Result<Vec<NodeId>, OutOfMemory>
    ensures { IfOk result (λ nodes. numbers_in nodes.items ≡ dropped_by (both_need (is_in needed.now.keys) (is_named_in named.now))
        scoping.now (node_doc program.now) (typescript_view options.now) legacy) }
{
    let search = Blocks {
        scoping,
        options,
        legacy,
        needed,
        named,
    };
    all_in(alloc, &search, program, ())
}

/// The search for such blocks.
#[derive(Clone, Copy)]
struct Blocks<'a> {
    scoping: &'a Scoping,
    options: &'a TypeScriptOptions,
    legacy: bool,
    needed: &'a HashSet<u64>,
    named: &'a NamedSymbols,
}

impl<'a> Search for Blocks<'a> {
    type State = ();

    type Found = NodeId;

    ghost Seen = { ℕ };

    ghost view = { λ node. node.0 };

    ghost sought = { λ b. blocks b.scoping.now (typescript_view b.options.now) b.legacy (both_need (is_in b.needed.now.keys) (is_named_in b.named.now)) };

    fn visit(&self, node: &Node, _state: ()) -> Visit<NodeId, ()> {
        Visit {
            found: self.dropped_at(node),
            inside: inside_of(self.legacy, node),
        }
    }

    fn in_field(&self, _state: (), _kind: Kind, _row: &Row) -> Option<()> {
        Some(())
    }
}

/// How the search goes on inside the node: not in what is erased, of which decorators are no part that are lowered.
fn inside_of(legacy: bool, node: &Node) -> Inside<()>
    ensures { result ≡ inside_of legacy node.now.kind (docs_in node.now.parts.items) }
{
    if is_dropped(node) {
        inside_dropped(legacy, node, ())
    } else {
        Inside::Alike(())
    }
}

impl<'a> Blocks<'a> {
    /// The node, if it is such a block.
    fn dropped_at(&self, node: &Node) -> Option<NodeId>
        ensures { option_map (λ node. node.0) result ≡ dropped_at self.now.scoping.now
            (typescript_view self.now.options.now) (both_need (is_in self.now.needed.now.keys) (is_named_in self.now.named.now))
            node.now.kind node.now.id.0 (docs_in node.now.parts.items) }
    {
        if node.kind.is(Kind::TSEnumDeclaration)
            && self.goes(named_symbol(self.scoping, node.field(Field::Id)))
        {
            Some(node.id)
        } else {
            None
        }
    }

    /// Whether the enum of that symbol is dropped.
    fn goes(&self, symbol: Option<SymbolId>) -> bool
        ensures { result ≡ goes self.now.scoping.now (typescript_view self.now.options.now)
            (both_need (is_in self.now.needed.now.keys) (is_named_in self.now.named.now)) symbol }
    {
        match symbol {
            Some(symbol) => {
                self.scoping.has_symbol(symbol)
                    && is_optimized(self.scoping, self.options, symbol)
                    && !(self.needed.contains(&symbol.0) || self.named.has(symbol))
            }
            None => false,
        }
    }
}
