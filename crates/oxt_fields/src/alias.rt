//! Names that are read as the alias of a decorated class.
ghost use Rattle.std.specs.List.{list_any};
ghost use Rattle.std.specs.Prelude.{◌≡◌, ◌++◌, ℕ, None, OnOk, if◌then◌else◌, option_map};
ghost use Rattle.oxt_fields.specs.Aliases.{but, class_uses, declared_by, field_by, in_declared, in_element, inside_by, inside_code, inside_element, inside_erased, is_gone, is_seen, is_type, is_written_inside, same_symbol, type_kinds, use_at, uses, with};
ghost use Rattle.oxt_fields.specs.Rules.{rules_view};
ghost use Rattle.oxt_grammar.specs.Field.{row_view};
ghost use Rattle.oxt_grammar.specs.Keys.{key_of};
ghost use Rattle.oxt_grammar.specs.Places.{same_kind};
ghost use Rattle.oxt_options.specs.Lists.{pairs_in};
ghost use Rattle.oxt_tree.specs.View.{doc_or_nil, docs_in, node_doc};

use crate::fate::{Fate, fate_of};
use crate::rules::FieldRules;
use oxt_declares::class::{elements_of, is_constructor};
use oxt_declares::dropped::{is_declared_field, is_dropped};
use oxt_grammar::category::Category;
use oxt_grammar::field::Field;
use oxt_grammar::holds::Row;
use oxt_grammar::kind::Kind;
use oxt_names::ids::{NodeId, OutOfMemory, SymbolId};
use oxt_scoping::scoping::Scoping;
use oxt_search::all::push_among;
use oxt_search::search::{Inside, Search, Visit};
use oxt_tree::tree::{Node, Part};

/// Where the search for the uses of a decorated class stands.
#[derive(Clone, Copy)]
pub enum Place {
    /// At an element of the class.
    Element,
    /// At the function of a method of it.
    Function,
    /// At the parameters of such a function.
    Parameters,
    /// At a node whose own decorators are left out.
    Undecorated,
    /// At an empty field that goes, whose key is left out.
    Keyless,
    /// In other code.
    Code,
    /// At a field of a class inside that is only declared.
    Declared,
    /// In a type.
    Type,
}

/// Appends the uses of the class in its own body, each with the number of the class.
pub fn push_class_uses(
    scoping: &Scoping,
    rules: FieldRules,
    class: &Node,
    out: &mut Vec<(NodeId, NodeId)>,
) -> Result<(), OutOfMemory>
    ensures { OnOk result (pairs_in out.new.items
        ≡ pairs_in out.old.items ++ class_uses scoping.now (rules_view rules.entry) class.now.id.0 (node_doc class.now)) }
{
    let uses = Uses {
        scoping,
        rules,
        symbol: declared_by(scoping, class.field(Field::Id)),
        class: class.id,
    };
    push_among(&uses, elements_of(class), Place::Element, out)
}

/// The symbol that the part declares.
fn declared_by(scoping: &Scoping, name: Option<&Part>) -> Option<SymbolId>
    ensures { result ≡ declared_by scoping.now (doc_or_nil name.entry) }
{
    match name {
        Some(Part::Node(node)) => scoping.symbol_of(node.id),
        _ => None,
    }
}

/// The search for the uses of a class.
#[derive(Clone, Copy)]
struct Uses<'a, 'b> {
    /// What the names mean.
    scoping: &'a Scoping,
    /// What becomes of empty fields.
    rules: FieldRules<'b>,
    /// The symbol of the class.
    symbol: Option<SymbolId>,
    /// The class.
    class: NodeId,
}

impl<'a, 'b> Search for Uses<'a, 'b> {
    type State = Place;

    type Found = (NodeId, NodeId);

    ghost Seen = { ℕ × ℕ };

    ghost view = { λ pair. (pair.0.0, pair.1.0) };

    ghost sought = { λ search. uses search.scoping.now (rules_view search.rules) search.symbol search.class.0 };

    fn visit(&self, node: &Node, place: Place) -> Visit<(NodeId, NodeId), Place> {
        Visit {
            found: self.found_at(place, node),
            inside: inside_by(self.rules, place, node),
        }
    }

    fn in_field(&self, place: Place, kind: Kind, row: &Row) -> Option<Place> {
        field_by(place, kind, row)
    }
}

impl<'a, 'b> Uses<'a, 'b> {
    /// The node with the class, if it is a use that counts where it stands.
    fn found_at(&self, place: Place, node: &Node) -> Option<(NodeId, NodeId)>
        ensures { option_map (λ pair. (pair.0.0, pair.1.0)) result
            ≡ (if is_seen (rules_view self.now.rules) place self.now.class.0 node.now.id.0
            then use_at self.now.scoping.now self.now.symbol self.now.class.0 node.now.kind node.now.id.0 else None) }
    {
        if is_seen(self.rules, place, self.class, node.id) {
            use_at(self.scoping, self.symbol, self.class, node.kind, node.id)
        } else {
            None
        }
    }
}

/// Whether a name counts there: in a type one that the metadata of a class inside this one writes as a value.
fn is_seen(rules: FieldRules, place: Place, class: NodeId, node: NodeId) -> bool
    ensures { result ≡ is_seen (rules_view rules.entry) place class.0 node.0 }
{
    match place {
        Place::Type => is_written_inside(class, rules.plan.written_by(node)),
        _ => true,
    }
}

/// Whether a name is written by the metadata of a class, and of another one than that.
fn is_written_inside(class: NodeId, writer: Option<NodeId>) -> bool
    ensures { result ≡ is_written_inside class.0 (option_map (λ writer. writer.0) writer) }
{
    match writer {
        Some(writer) => writer.0 != class.0,
        None => false,
    }
}

/// The node of that kind with the class, if it is a name that means the symbol.
fn use_at(
    scoping: &Scoping,
    symbol: Option<SymbolId>,
    class: NodeId,
    kind: Kind,
    node: NodeId,
) -> Option<(NodeId, NodeId)>
    ensures { option_map (λ pair. (pair.0.0, pair.1.0)) result ≡ use_at scoping.now symbol class.0 kind node.0 }
{
    if kind.is(Kind::IdentifierReference) && is_same_symbol(scoping.meaning_of(node), symbol) {
        Some((node, class))
    } else {
        None
    }
}

/// Whether both are one symbol.
fn is_same_symbol(one: Option<SymbolId>, other: Option<SymbolId>) -> bool
    ensures { result ≡ same_symbol one other }
{
    match one {
        Some(one) => match other {
            Some(other) => one.0 == other.0,
            None => false,
        },
        None => false,
    }
}

/// How the search goes on inside a node.
fn inside_by(rules: FieldRules, place: Place, node: &Node) -> Inside<Place>
    ensures { result ≡ inside_by (rules_view rules.entry) place node.now.kind (docs_in node.now.parts.items) }
{
    match place {
        Place::Element => inside_element(node),
        Place::Function => Inside::ByField(Place::Function),
        Place::Parameters => Inside::ByField(Place::Parameters),
        Place::Undecorated => Inside::ByField(Place::Undecorated),
        Place::Keyless => Inside::ByField(Place::Keyless),
        Place::Code => inside_code(rules, node),
        Place::Declared => Inside::ByField(Place::Declared),
        Place::Type => Inside::Alike(Place::Type),
    }
}

/// How it goes on inside an element of the class.
fn inside_element(node: &Node) -> Inside<Place>
    ensures { result ≡ inside_element node.now.kind (docs_in node.now.parts.items) }
{
    if is_dropped(node) && !is_declared_field(node) {
        Inside::Skipped
    } else if is_constructor(node) {
        Inside::ByField(Place::Undecorated)
    } else {
        Inside::ByField(Place::Element)
    }
}

/// How it goes on inside other code.
fn inside_code(rules: FieldRules, node: &Node) -> Inside<Place>
    ensures { result ≡ inside_code (rules_view rules.entry) node.now.kind (docs_in node.now.parts.items) }
{
    if is_type(node.kind) {
        Inside::Alike(Place::Type)
    } else if is_dropped(node) {
        inside_erased(node)
    } else if is_gone(fate_of(rules, false, node)) {
        Inside::ByField(Place::Keyless)
    } else {
        Inside::Alike(Place::Code)
    }
}

/// How it goes on inside other code that is erased.
fn inside_erased(node: &Node) -> Inside<Place>
    ensures { result ≡ inside_erased node.now.kind (docs_in node.now.parts.items) }
{
    if is_declared_field(node) {
        Inside::ByField(Place::Declared)
    } else {
        Inside::Skipped
    }
}

/// Whether what becomes of an element is that it goes and leaves nothing.
fn is_gone(fate: Fate) -> bool
    ensures { result ≡ is_gone fate }
{
    match fate {
        Fate::Goes => true,
        _ => false,
    }
}

/// Whether nodes of the kind are types, or hold nothing but types.
fn is_type(kind: Kind) -> bool
    ensures { result ≡ is_type kind }
{
    Category::TSType.contains(kind) || is_type_kind(kind)
}

/// Whether the kind is one of those that hold nothing but types.
fn is_type_kind(kind: Kind) -> bool
    ensures { result ≡ list_any (λ other. same_kind kind other) type_kinds }
{
    type_kinds().iter().any(|other| kind.is(*other))
}

/// The kinds that hold nothing but types.
fn type_kinds() -> &'static [Kind]
    ensures { result.now ≡ type_kinds }
{
    &[
        Kind::TSTypeAnnotation,
        Kind::TSTypeParameterDeclaration,
        Kind::TSTypeParameterInstantiation,
        Kind::TSClassImplements,
    ]
}

/// How a field of a node of that kind is reached.
fn field_by(place: Place, kind: Kind, row: &Row) -> Option<Place>
    ensures { result ≡ field_by place kind (row_view row.now) }
{
    match place {
        Place::Element => in_element(kind, row),
        Place::Function => with(Field::Params, Place::Parameters, row),
        Place::Parameters => with(Field::Items, Place::Undecorated, row),
        Place::Undecorated => but(Field::Decorators, row),
        Place::Keyless => but(Field::Key, row),
        Place::Code => Some(Place::Code),
        Place::Declared => in_declared(row),
        Place::Type => Some(Place::Type),
    }
}

/// How a field of an element of the class is reached.
fn in_element(kind: Kind, row: &Row) -> Option<Place>
    ensures { result ≡ in_element kind (row_view row.now) }
{
    if kind.is(Kind::MethodDefinition) && row.is(Field::Value) {
        Some(Place::Function)
    } else {
        but(Field::Decorators, row)
    }
}

/// How a field of an element is reached that is only declared: its decorators, and its annotation.
fn in_declared(row: &Row) -> Option<Place>
    ensures { result ≡ in_declared (row_view row.now) }
{
    if row.is(Field::Decorators) {
        Some(Place::Code)
    } else if row.is(Field::TypeAnnotation) {
        Some(Place::Type)
    } else {
        None
    }
}

/// In code, unless it is that field.
fn but(field: Field, row: &Row) -> Option<Place>
    ensures { result ≡ but (key_of field) (row_view row.now) }
{
    if row.is(field) {
        None
    } else {
        Some(Place::Code)
    }
}

/// So if it is that field, and else in code.
fn with(field: Field, place: Place, row: &Row) -> Option<Place>
    ensures { result ≡ with (key_of field) place (row_view row.now) }
{
    if row.is(field) {
        Some(place)
    } else {
        Some(Place::Code)
    }
}
