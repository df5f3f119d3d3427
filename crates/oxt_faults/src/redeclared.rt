//! Properties of a class among the parameters of its constructor whose names the constructor declares again.
ghost use Rattle.std.specs.Prelude.{◌≡◌, ◌<◌, ℕ, IfOk, Some, codes, length, option_map, slice_get};
ghost use Rattle.std.specs.List.{list_any};
ghost use Rattle.oxt_faults.specs.Earliest.{moved_view};
ghost use Rattle.oxt_faults.specs.Hidden.{bound_by};
ghost use Rattle.oxt_faults.specs.Redeclared.{again_as, has_other, is_other, mark_by, own_name, own_names, own_sought, number_of, property_among, property_in, redeclared, redeclared_by, redeclared_symbols};
ghost use Rattle.oxt_options.specs.Facts.{is_in};
ghost use Rattle.oxt_tree.specs.Fields.{field_of, named, text_in};
ghost use Rattle.oxt_tree.specs.View.{docs_in, node_doc, part_doc};

use crate::earliest::{MovedName, earlier};
use crate::hidden::bound_by;
use crate::outside::mark_at;
use bitflags::Flags;
use oxt_fields::class::{is_property, parameters_of};
use oxt_grammar::field::Field;
use oxt_grammar::holds::Row;
use oxt_grammar::kind::Kind;
use oxt_names::flags::SymbolFlags;
use oxt_names::ids::{NodeId, OutOfMemory, ScopeId, SymbolId};
use oxt_options::nodes::NodeList;
use oxt_scoping::entry::Redeclaration;
use oxt_scoping::scoping::Scoping;
use oxt_search::all::all_in;
use oxt_search::search::{Inside, Search, Visit};
use oxt_tree::tree::{Node, Part};
use std::alloc::Global;

/// The nodes that are the names of function expressions.
pub fn own_names(alloc: Global, program: &Node) -> Result<NodeList, OutOfMemory>
    ensures { IfOk result (λ names. names ≡ own_names (node_doc program.now)) }
{
    let nodes = all_in(alloc, &OwnNames, program, ())?;
    NodeList::of(alloc, nodes)
}

/// The search for such nodes.
#[derive(Clone, Copy)]
struct OwnNames;

impl Search for OwnNames {
    type State = ();

    type Found = NodeId;

    ghost Seen = { ℕ };

    ghost view = { number_of };

    ghost sought = { λ _. own_sought };

    fn visit(&self, node: &Node, _state: ()) -> Visit<NodeId, ()> {
        Visit {
            found: own_name(node),
            inside: Inside::Alike(()),
        }
    }

    fn in_field(&self, _state: (), _kind: Kind, _row: &Row) -> Option<()> {
        Some(())
    }
}

/// The node that is the name of the function expression, if it is one with a name.
fn own_name(node: &Node) -> Option<NodeId>
    ensures { option_map number_of result ≡ own_name node.now.kind (docs_in node.now.parts.items) }
{
    if !node.kind.is(Kind::FunctionExpression) {
        return None;
    }
    match node.field(Field::Id) {
        Some(Part::Node(name)) => Some(name.id),
        _ => None,
    }
}

/// Of each symbol whether one of its declarations emits code, and is neither a parameter or a `var` nor the name of a
/// function expression.
#[tactic(auto, using(crate::proofs::Symbols::marking_steps))]
pub fn redeclared_symbols(
    alloc: Global,
    scoping: &Scoping,
    own: &NodeList,
) -> Result<Vec<bool>, OutOfMemory>
    ensures { IfOk result (λ marks. marks.items ≡ redeclared_symbols scoping.now (is_in own.now)) }
{
    let mut marks = Vec::new(alloc);
    while scoping.has_symbol(SymbolId(marks.len() as u64)) {
        let mark = has_other(scoping, own, SymbolId(marks.len() as u64));
        marks.push(mark)?;
    }
    Ok(marks)
}

/// Whether the symbol has such a declaration.
#[tactic(auto, using(crate::proofs::Bindings::other_so))]
fn has_other(scoping: &Scoping, own: &NodeList, symbol: SymbolId) -> bool
    requires { symbol.0 < length scoping.now.symbols }
    ensures { option_map (has_other (is_in own.now)) (slice_get scoping.now.symbols symbol.0) ≡ Some result }
{
    is_among(own, scoping.symbol_redeclarations(symbol))
}

/// Whether one of the declarations is such.
fn is_among(own: &NodeList, declarations: &[Redeclaration]) -> bool
    ensures { result ≡ list_any (is_other (is_in own.now)) declarations.now }
{
    declarations
        .iter()
        .any(|declaration| is_other(own, declaration))
}

/// Whether the declaration emits code, and is neither a parameter or a `var` nor the name of a function expression.
fn is_other(own: &NodeList, declaration: &Redeclaration) -> bool
    ensures { result ≡ is_other (is_in own.now) declaration.now }
{
    declaration.emits
        && (!declaration
            .flags
            .contains(SymbolFlags::FunctionScopedVariable)
            && !own.has(declaration.node))
}

/// The earliest of the parameters of the constructor that is a property and whose name the constructor declares again:
/// `again` says so of each symbol.
pub fn first_redeclared<'a>(
    scoping: &'a Scoping,
    again: &[bool],
    constructor: Option<&Node>,
) -> Option<MovedName<'a>>
    ensures { option_map moved_view result
        ≡ redeclared_by scoping.now (mark_by again.now) (option_map (λ node. node_doc node.now) constructor.entry) }
{
    match constructor {
        Some(constructor) => redeclared(scoping, again, constructor),
        None => None,
    }
}

/// The same of a constructor.
fn redeclared<'a>(scoping: &'a Scoping, again: &[bool], constructor: &Node) -> Option<MovedName<'a>>
    ensures { option_map moved_view result
        ≡ redeclared scoping.now (mark_by again.now) (node_doc constructor.now) }
{
    match constructor.field(Field::Value) {
        Some(Part::Node(function)) => match scoping.scope_of(function.id) {
            Some(scope) => property_among(scoping, again, scope, parameters_of(constructor)),
            None => None,
        },
        _ => None,
    }
}

/// The earliest of the parameters, where that is the scope of the function.
#[tactic(auto, using(crate::proofs::Earliests::part_steps))]
fn property_among<'a>(
    scoping: &'a Scoping,
    again: &[bool],
    scope: ScopeId,
    parameters: &[Part],
) -> Option<MovedName<'a>>
    ensures { option_map moved_view result
        ≡ property_among scoping.now (mark_by again.now) scope (docs_in parameters.now) }
{
    let mut least = None;
    for parameter in parameters {
        least = earlier(least, property_in(scoping, again, scope, parameter));
    }
    least
}

/// The name of the parameter, if it is such.
fn property_in<'a>(
    scoping: &'a Scoping,
    again: &[bool],
    scope: ScopeId,
    parameter: &Part,
) -> Option<MovedName<'a>>
    ensures { option_map moved_view result
        ≡ property_in scoping.now (mark_by again.now) scope (part_doc parameter.now) }
{
    match parameter {
        Part::Node(node) => {
            if is_property(node) {
                property_by(scoping, again, scope, node)
            } else {
                None
            }
        }
        _ => None,
    }
}

/// The name of the parameter, if the scope binds it to a symbol that is declared again.
fn property_by<'a>(
    scoping: &'a Scoping,
    again: &[bool],
    scope: ScopeId,
    node: &Node,
) -> Option<MovedName<'a>>
    ensures { option_map moved_view result ≡ again_as scoping.now (mark_by again.now) node.now.id.0
        (bound_by scoping.now scope (text_in (field_of (codes "name") (named (codes "pattern") node.now.kind (docs_in node.now.parts.items))))) }
{
    let symbol = bound_by(scoping, scope, pattern_name(node))?;
    again_as(scoping, again, node.id, symbol)
}

/// The name that the parameter has as its pattern.
fn pattern_name(parameter: &Node) -> Option<&str>
    ensures { option_map (λ text. text.now) result
        ≡ text_in (field_of (codes "name") (named (codes "pattern") parameter.now.kind (docs_in parameter.now.parts.items))) }
{
    match parameter.field(Field::Pattern) {
        Some(Part::Node(pattern)) => pattern.text(Field::Name),
        _ => None,
    }
}

/// The name of the symbol at that node, if it is declared again.
fn again_as<'a>(
    scoping: &'a Scoping,
    again: &[bool],
    node: NodeId,
    symbol: SymbolId,
) -> Option<MovedName<'a>>
    requires { symbol.0 < length scoping.now.symbols }
    ensures { option_map moved_view result ≡ again_as scoping.now (mark_by again.now) node.0 (Some symbol) }
{
    if mark_at(again, symbol) {
        let name = scoping.symbol_name(symbol);
        Some(MovedName {
            node,
            name: name.as_str(),
        })
    } else {
        None
    }
}
