//! Symbols of enums that cannot be dropped.
ghost use Rattle.std.specs.List.{list_any};
ghost use Rattle.std.specs.Prelude.{◌≡◌, ◌<◌, ℕ, IfOk, Some, length, map, option_map, slice_get};
ghost use Rattle.oxt_grammar.specs.Field.{row_view};
ghost use Rattle.oxt_dropped.specs.Needed.{are_loose, emits_by, emitted_by, field_seat, has_loose_member, has_value, inside_of, is_enum_emitted, is_kept, is_left, is_loose, kept_by, needed, needed_by, needed_with, number_of, seat_inside, sought};
ghost use Rattle.oxt_inline.specs.Constants.{table_at};
ghost use Rattle.oxt_scoping.specs.Entries.{is_enum};
ghost use Rattle.oxt_options.specs.Facts.{is_in};
ghost use Rattle.oxt_options.specs.Options.{typescript_view};
ghost use Rattle.oxt_tree.specs.View.{doc_or_nil, docs_in, node_doc, part_doc};

use bitflags::Flags;
use oxt_declares::dropped::{inside_dropped, is_dropped};
use oxt_grammar::field::Field;
use oxt_grammar::holds::Row;
use oxt_grammar::kind::Kind;
use oxt_inline::constants::Constants;
use oxt_inline::inlined::constant_at;
use oxt_inline::names::named_symbol;
use oxt_inline::seat::{Seat, is_constant, is_exported, is_left_out, is_name, seat_by, seat_in};
use oxt_names::flags::SymbolFlags;
use oxt_names::ids::{NodeId, OutOfMemory, SymbolId};
use oxt_options::TypeScriptOptions;
use oxt_options::nodes::NodeList;
use oxt_scoping::entry::Redeclaration;
use oxt_scoping::scoping::Scoping;
use oxt_search::all::all_in;
use oxt_search::search::{Inside, Search, Visit};
use oxt_tree::tree::{Node, Part};
use std::alloc::Global;

/// The symbols, in the order of the text, that are used as values in what is left of the program once members are
/// inlined, and those of enums that cannot be dropped: with a block that is exported or ambient, with a member whose
/// value is not known or that a template names, or with a declaration of another kind that emits code. The right side of
/// an `import a = ..` is left where that is `kept`, and under `legacy` so are the decorators of a field with `declare`.
///
/// # Errors
///
/// Nothing but want of memory.
pub fn needed_symbols(
    alloc: Global,
    program: &Node,
    scoping: &Scoping,
    kept: &NodeList,
    options: &TypeScriptOptions,
    legacy: bool,
) -> Result<Vec<SymbolId>, OutOfMemory>
    ensures { IfOk result (λ symbols. map number_of symbols.items
        ≡ needed scoping.now (is_in kept.now) (node_doc program.now) (typescript_view options.now) legacy) }
{
    let constants = Constants::of(alloc, program, scoping)?;
    needed_with(alloc, program, scoping, kept, &constants, options, legacy)
}

/// The same, by the constants of the members.
fn needed_with(
    alloc: Global,
    program: &Node,
    scoping: &Scoping,
    kept: &NodeList,
    constants: &Constants<'_>,
    options: &TypeScriptOptions,
    legacy: bool,
) -> Result<Vec<SymbolId>, OutOfMemory>
    ensures { IfOk result (λ symbols. map number_of symbols.items ≡ needed_with (table_at constants.now) scoping.now
        (is_in kept.now) (node_doc program.now) (typescript_view options.now) legacy) }
{
    let search = Needs {
        scoping,
        kept,
        constants,
        options,
        legacy,
    };
    all_in(alloc, &search, program, Seat::Value)
}

/// The search for such symbols.
#[derive(Clone, Copy)]
struct Needs<'a> {
    scoping: &'a Scoping,
    kept: &'a NodeList,
    constants: &'a Constants<'a>,
    options: &'a TypeScriptOptions,
    legacy: bool,
}

impl<'a> Search for Needs<'a> {
    type State = Seat;

    type Found = SymbolId;

    ghost Seen = { ℕ };

    ghost view = { number_of };

    ghost sought = { λ needs. sought needs.scoping.now (is_in needs.kept.now) (table_at needs.constants.now) (typescript_view needs.options.now) needs.legacy };

    fn visit(&self, node: &Node, seat: Seat) -> Visit<SymbolId, Seat> {
        Visit {
            found: needed_by(self.scoping, seat, node),
            inside: self.inside_of(seat, node),
        }
    }

    fn in_field(&self, seat: Seat, kind: Kind, row: &Row) -> Option<Seat> {
        field_seat(seat, kind, row)
    }
}

impl<'a> Needs<'a> {
    /// How the search goes on inside the node, which stands so: not in erased code, and not in what is inlined.
    fn inside_of(&self, seat: Seat, node: &Node) -> Inside<Seat>
        ensures { result ≡ inside_of self.now.scoping.now (is_in self.now.kept.now) (table_at self.now.constants.now)
            (typescript_view self.now.options.now) self.now.legacy seat node.now.kind node.now.id.0
            (docs_in node.now.parts.items) }
    {
        if is_dropped(node) {
            inside_dropped(self.legacy, node, Seat::Value)
        } else if constant_at(self.scoping, self.constants, self.options, seat, node).is_some() {
            Inside::Skipped
        } else {
            Inside::ByField(seat_inside(self.scoping, self.kept, seat, node))
        }
    }
}

/// What the node, which stands so, is to its fields.
fn seat_inside(scoping: &Scoping, kept: &NodeList, seat: Seat, node: &Node) -> Seat
    ensures { result ≡ seat_inside scoping.now (is_in kept.now) seat node.now.kind node.now.id.0 }
{
    if node.kind.is(Kind::TSEnumMember) && has_value(scoping, node.id) {
        Seat::Constant
    } else {
        seat_by(kept, seat, node.kind, node.id)
    }
}

/// What stands in that field of a node of that kind, if anything of it is left.
fn field_seat(seat: Seat, kind: Kind, row: &Row) -> Option<Seat>
    ensures { result ≡ field_seat seat kind (row_view row.now) }
{
    if is_left(seat, row) {
        Some(seat_in(seat, kind, row))
    } else {
        None
    }
}

/// Whether anything is left of what stands in that field: not of the initializer of a member whose value is known, and
/// not of the right side of an `import a = ..` that is not kept.
fn is_left(seat: Seat, row: &Row) -> bool
    ensures { result ≡ is_left seat (row_view row.now) }
{
    !(is_constant(seat) && row.is(Field::Initializer))
        && !(is_left_out(seat) && row.is(Field::ModuleReference))
}

/// The symbol that the node, which stands so, needs.
fn needed_by(scoping: &Scoping, seat: Seat, node: &Node) -> Option<SymbolId>
    ensures { result ≡ needed_by scoping.now seat node.now.kind node.now.id.0 (docs_in node.now.parts.items) }
{
    if node.kind.is(Kind::TSEnumDeclaration) {
        kept_by(scoping, seat, node)
    } else if is_dropped(node) {
        None
    } else if node.kind.is(Kind::BindingIdentifier) {
        emitted_by(scoping, seat, node.id)
    } else {
        scoping.value_meaning_of(node.id)
    }
}

/// The symbol of the block, if it cannot be dropped.
fn kept_by(scoping: &Scoping, seat: Seat, node: &Node) -> Option<SymbolId>
    ensures { result ≡ kept_by scoping.now seat node.now.kind (docs_in node.now.parts.items) }
{
    if is_kept(scoping, seat, node) {
        named_symbol(scoping, node.field(Field::Id))
    } else {
        None
    }
}

/// Whether the block cannot be dropped: it is exported or ambient, or one of its members is loose.
fn is_kept(scoping: &Scoping, seat: Seat, node: &Node) -> bool
    ensures { result ≡ is_kept scoping.now seat node.now.kind (docs_in node.now.parts.items) }
{
    is_exported(seat) || is_dropped(node) || has_loose_member(scoping, node.field(Field::Body))
}

/// Whether one of the members in that body is loose.
fn has_loose_member(scoping: &Scoping, body: Option<&Part>) -> bool
    ensures { result ≡ has_loose_member scoping.now (doc_or_nil body.entry) }
{
    match body {
        Some(Part::Node(node)) => are_loose(scoping, node.list(Field::Members)),
        _ => false,
    }
}

/// Whether one of the members is loose.
#[tactic(auto, using(oxt_tree::proofs::Lists::list_any_docs_in))]
fn are_loose(scoping: &Scoping, members: &[Part]) -> bool
    ensures { result ≡ are_loose scoping.now (docs_in members.now) }
{
    has_loose(scoping, members)
}

/// The same, one member after another.
fn has_loose(scoping: &Scoping, members: &[Part]) -> bool
    ensures { result ≡ list_any (λ member. is_loose scoping.now (part_doc member)) members.now }
{
    members.iter().any(|member| is_loose(scoping, member))
}

/// Whether the value of the member is not known, or a template is its name.
fn is_loose(scoping: &Scoping, member: &Part) -> bool
    ensures { result ≡ is_loose scoping.now (part_doc member.now) }
{
    match member {
        Part::Node(node) => {
            !has_value(scoping, node.id) || node.holds_kind(Field::Id, Kind::TemplateLiteral)
        }
        _ => false,
    }
}

/// Whether the node of that number is a member of an enum whose value is known.
#[tactic(auto, using(crate::proofs::Needs::value_steps))]
fn has_value(scoping: &Scoping, node: NodeId) -> bool
    ensures { result ≡ has_value scoping.now node.0 }
{
    match scoping.symbol_of(node) {
        Some(symbol) => scoping.get_enum_member_value(symbol).is_some(),
        None => false,
    }
}

/// The symbol that the name of that number, which stands so, declares, if that is an enum and the declaration is of
/// another kind and emits code.
fn emitted_by(scoping: &Scoping, seat: Seat, node: NodeId) -> Option<SymbolId>
    ensures { result ≡ emitted_by scoping.now seat node.0 }
{
    let symbol = scoping.symbol_of(node)?;
    if !is_name(seat) && is_enum_emitted(scoping, symbol, node) {
        Some(symbol)
    } else {
        None
    }
}

/// Whether the symbol is an enum and the declaration by that name emits code.
#[tactic(auto, using(crate::proofs::Needs::emitted_steps))]
fn is_enum_emitted(scoping: &Scoping, symbol: SymbolId, node: NodeId) -> bool
    requires { symbol.0 < length scoping.now.symbols }
    ensures { option_map (is_enum_emitted node.0) (slice_get scoping.now.symbols symbol.0) ≡ Some result }
{
    is_enum(scoping.symbol_flags(symbol)) && emits_by(scoping.symbol_redeclarations(symbol), node)
}

/// Whether the flags are those of an enum.
fn is_enum(flags: SymbolFlags) -> bool
    ensures { result ≡ is_enum flags }
{
    flags.intersects(SymbolFlags::Enum.union(SymbolFlags::ConstEnum))
}

/// Whether the one of the declarations by that name emits code.
fn emits_by(declarations: &[Redeclaration], node: NodeId) -> bool
    ensures { result ≡ emits_by declarations.now node.0 }
{
    declarations.iter().any(|declaration| declaration.node.0 == node.0 && declaration.emits)
}
