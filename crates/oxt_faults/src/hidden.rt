//! Names in the fields of a class that its constructor declares.
ghost use Rattle.std.specs.Prelude.{◌≡◌, ◌<◌, IfSome, Some, length, option_map, slice_get};
ghost use Rattle.oxt_faults.specs.Earliest.{moved_view};
ghost use Rattle.oxt_faults.specs.Hidden.{bound_by, comes_from_outside, hidden_at, hidden_by, hidden_name, is_value, is_value_symbol, lies_within, sought, value_as};
ghost use Rattle.oxt_faults.specs.Captured.{Capture};
ghost use Rattle.oxt_tree.specs.View.{doc_or_nil, docs_in};
ghost use Rattle.oxt_scoping.specs.Meant.{symbol_in, value_use};

use crate::around::ClassScopes;
use crate::earliest::MovedName;
use crate::reach::Reach;
use crate::silent::{is_silent, silent_inside};
use bitflags::Flags;
use oxt_grammar::field::Field;
use oxt_grammar::holds::Row;
use oxt_grammar::kind::Kind;
use oxt_names::flags::SymbolFlags;
use oxt_names::ids::{NodeId, ScopeId, SymbolId};
use oxt_scoping::entry::value_flags;
use oxt_scoping::scoping::Scoping;
use oxt_search::first::{first_among, first_in};
use oxt_search::search::{Inside, Search, Visit};
use oxt_tree::tree::{Node, Part};

/// The first name in the part, outside of types and of what is erased, that comes from outside the class with these scopes
/// while its constructor declares it as more than a type. `legacy` says that decorators have their older meaning.
pub fn first_hidden<'a>(
    legacy: bool,
    scoping: &'a Scoping,
    scopes: Option<ClassScopes>,
    part: Option<&Part>,
) -> Option<MovedName<'a>>
    ensures { option_map moved_view result ≡ hidden_by legacy scoping.now scopes (doc_or_nil part.entry) }
{
    match scopes {
        Some(scopes) => hidden_in(legacy, scoping, scopes, part),
        None => None,
    }
}

/// The same, where the class has a constructor.
fn hidden_in<'a>(
    legacy: bool,
    scoping: &'a Scoping,
    scopes: ClassScopes,
    part: Option<&Part>,
) -> Option<MovedName<'a>>
    ensures { option_map moved_view result ≡ hidden_name legacy scoping.now scopes (doc_or_nil part.entry) }
{
    let names = HiddenNames {
        legacy,
        scoping,
        scopes,
    };
    match part {
        Some(Part::Node(node)) => first_in(&names, node, ()),
        Some(Part::List(parts)) => first_among(&names, parts.as_slice(), ()),
        _ => None,
    }
}

/// The search for such names.
#[derive(Clone, Copy)]
struct HiddenNames<'a> {
    /// Decorators have their older meaning.
    legacy: bool,
    /// What the names mean.
    scoping: &'a Scoping,
    /// The scopes of the class.
    scopes: ClassScopes,
}

impl<'a> Search for HiddenNames<'a> {
    type State = ();

    type Found = MovedName<'a>;

    ghost Seen = { Capture };

    ghost view = { moved_view };

    ghost sought = { λ search. sought search.legacy search.scoping.now search.scopes };

    fn visit(&self, node: &Node, _state: ()) -> Visit<MovedName<'a>, ()> {
        if is_silent(Reach::Level, node) {
            Visit {
                found: None,
                inside: silent_inside(self.legacy, Reach::Level, node, ()),
            }
        } else {
            Visit {
                found: hidden_at(self.scoping, self.scopes, node),
                inside: Inside::Alike(()),
            }
        }
    }

    fn in_field(&self, _state: (), _kind: Kind, _row: &Row) -> Option<()> {
        Some(())
    }
}

/// The name that the node is, if it is such.
fn hidden_at<'a>(scoping: &'a Scoping, scopes: ClassScopes, node: &Node) -> Option<MovedName<'a>>
    ensures { option_map moved_view result
        ≡ hidden_at scoping.now scopes node.now.kind node.now.id.0 (docs_in node.now.parts.items) }
{
    if comes_from_outside(scoping, scopes.own, node.id) {
        let symbol = bound_by(scoping, scopes.constructor, node.text(Field::Name))?;
        value_as(scoping, node.id, symbol)
    } else {
        None
    }
}

/// Whether the node is used as a value and means what is declared outside the class with that scope, or nowhere.
fn comes_from_outside(scoping: &Scoping, own: ScopeId, node: NodeId) -> bool
    ensures { result ≡ comes_from_outside scoping.now own (value_use scoping.now node.0) }
{
    match scoping.value_use_of(node) {
        Some(reference) => !lies_within(scoping, own, reference.symbol),
        None => false,
    }
}

/// Whether the symbol is declared inside the scope. Scopes inside have greater numbers.
pub fn lies_within(scoping: &Scoping, own: ScopeId, symbol: Option<SymbolId>) -> bool
    ensures { result ≡ lies_within own (symbol_in scoping.now.symbols symbol) }
{
    match symbol {
        Some(symbol) => scoping.has_symbol(symbol) && is_behind(scoping, own, symbol),
        None => false,
    }
}

/// Whether the symbol's scope has a greater number.
#[tactic(auto, using(crate::proofs::Bindings::lies_so))]
fn is_behind(scoping: &Scoping, own: ScopeId, symbol: SymbolId) -> bool
    requires { symbol.0 < length scoping.now.symbols }
    ensures { result ≡ lies_within own (slice_get scoping.now.symbols symbol.0) }
{
    own.0 < scoping.symbol_scope_id(symbol).0
}

/// The symbol that the scope binds to the spelling, if there is one.
pub fn bound_by(scoping: &Scoping, scope: ScopeId, name: Option<&str>) -> Option<SymbolId>
    ensures bound { result ≡ bound_by scoping.now scope (option_map (λ text. text.now) name.entry) }
    ensures live { IfSome result (λ symbol. symbol.0 < length scoping.now.symbols) }
{
    let name = name?;
    if scoping.has_scope(scope) {
        scoping.get_binding(scope, name)
    } else {
        None
    }
}

/// The name of the symbol, if it is more than a type, at that node.
pub fn value_as<'a>(scoping: &'a Scoping, node: NodeId, symbol: SymbolId) -> Option<MovedName<'a>>
    requires { symbol.0 < length scoping.now.symbols }
    ensures { option_map moved_view result ≡ value_as node.0 (slice_get scoping.now.symbols symbol.0) }
{
    if is_value_symbol(scoping, symbol) {
        let name = scoping.symbol_name(symbol);
        Some(MovedName {
            node,
            name: name.as_str(),
        })
    } else {
        None
    }
}

/// Whether the symbol is more than a type.
#[tactic(auto, using(crate::proofs::Bindings::value_so))]
fn is_value_symbol(scoping: &Scoping, symbol: SymbolId) -> bool
    requires { symbol.0 < length scoping.now.symbols }
    ensures { result ≡ is_value_symbol (slice_get scoping.now.symbols symbol.0) }
{
    is_value(scoping.symbol_flags(symbol))
}

/// Whether the flags are those of more than a type.
fn is_value(flags: SymbolFlags) -> bool
    ensures { result ≡ is_value flags }
{
    flags.intersects(value_flags())
}
