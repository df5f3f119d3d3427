//! Private names of a class that a decorator uses.
ghost use Rattle.std.specs.Prelude.{◌≡◌, ℕ, find, option_map};
ghost use Rattle.std.specs.List.{list_any};
ghost use Rattle.oxt_class_checks.specs.Privates.{captured_name, captured_use, captured_uses, declares, first_use, has_private, holds_use, is_number, is_own, own_name, private_capture, private_text, use_as, use_at, uses_of};
ghost use Rattle.oxt_faults.specs.Captured.{Capture};
ghost use Rattle.oxt_faults.specs.Earliest.{moved_view};
ghost use Rattle.oxt_faults.specs.Redeclared.{number_of};
ghost use Rattle.oxt_tree.specs.Fields.{docs_list, is_text, text_in};
ghost use Rattle.oxt_tree.specs.View.{doc_or_nil, docs_in, part_doc};

use oxt_declares::dropped::{inside_dropped, is_dropped, part_is_dropped};
use oxt_faults::earliest::MovedName;
use oxt_grammar::field::Field;
use oxt_grammar::holds::Row;
use oxt_grammar::kind::Kind;
use oxt_names::ids::NodeId;
use oxt_search::first::first_among;
use oxt_search::search::{Inside, Search, Visit};
use oxt_tree::tree::{Node, Part};

/// The first use in a decorator with these parts of a private name that one of the elements of a class has, outside the bodies
/// of classes that declare it again.
pub fn first_private<'a>(elements: &'a [Part], decorator: &[Part]) -> Option<MovedName<'a>>
    ensures { option_map moved_view result
        ≡ private_capture (docs_in elements.now) (docs_in decorator.now) }
{
    let uses = CapturedUses {
        elements,
        decorator,
    };
    first_among(&uses, decorator, false)
}

/// The search for such uses; the state says whether the node around holds a use of a private name.
#[derive(Clone, Copy)]
struct CapturedUses<'a, 'b> {
    /// The elements of the class.
    elements: &'a [Part],
    /// The parts of the decorator.
    decorator: &'b [Part],
}

impl<'a, 'b> Search for CapturedUses<'a, 'b> {
    type State = bool;

    type Found = MovedName<'a>;

    ghost Seen = { Capture };

    ghost view = { moved_view };

    ghost sought = { λ search. captured_uses (docs_in search.elements.now) (docs_in search.decorator.now) };

    fn visit(&self, node: &Node, is_use: bool) -> Visit<MovedName<'a>, bool> {
        Visit {
            found: captured_use(self.elements, self.decorator, is_use, node),
            inside: if is_dropped(node) {
                inside_dropped(true, node, false)
            } else {
                Inside::Alike(holds_use(node.kind))
            },
        }
    }

    fn in_field(&self, is_use: bool, _kind: Kind, _row: &Row) -> Option<bool> {
        Some(is_use)
    }
}

/// The name that the node is, if it is such a use.
fn captured_use<'a>(
    elements: &'a [Part],
    decorator: &[Part],
    is_use: bool,
    node: &Node,
) -> Option<MovedName<'a>>
    ensures { option_map moved_view result
        ≡ captured_use (docs_in elements.now) (docs_in decorator.now) is_use node.now.kind node.now.id.0 (docs_in node.now.parts.items) }
{
    if is_use && node.kind.is(Kind::PrivateIdentifier) {
        captured_name(elements, decorator, node.id, node.text(Field::Name))
    } else {
        None
    }
}

/// The name, at that node.
fn captured_name<'a>(
    elements: &'a [Part],
    decorator: &[Part],
    node: NodeId,
    name: Option<&str>,
) -> Option<MovedName<'a>>
    ensures { option_map moved_view result
        ≡ captured_name (docs_in elements.now) (docs_in decorator.now) node.0 (option_map (λ text. text.now) name.entry) }
{
    let name = name?;
    use_as(decorator, node, name, own_name(elements, name))
}

/// The private name of the class, at that node, if that is the first use in the decorator of the name that is spelled so.
fn use_as<'a>(
    decorator: &[Part],
    node: NodeId,
    name: &str,
    own: Option<&'a str>,
) -> Option<MovedName<'a>>
    ensures { option_map moved_view result
        ≡ use_as (docs_in decorator.now) node.0 name.now (option_map (λ text. text.now) own.entry) }
{
    let own = own?;
    if is_number(node, first_use(decorator, name)) {
        Some(MovedName { node, name: own })
    } else {
        None
    }
}

/// Whether it is that number.
fn is_number(node: NodeId, found: Option<NodeId>) -> bool
    ensures { result ≡ is_number node.0 (option_map number_of found) }
{
    match found {
        Some(found) => found.0 == node.0,
        None => false,
    }
}

/// The private name that is spelled so, if one of the elements of a class has it that are not erased.
#[tactic(auto, using(crate::proofs::Owns::own_steps))]
fn own_name<'a>(elements: &'a [Part], name: &str) -> Option<&'a str>
    ensures { option_map (λ text. text.now) result ≡ own_name (docs_in elements.now) name.now }
{
    match find_own(elements, name) {
        Some(element) => private_text(element),
        None => None,
    }
}

/// The first of the elements that has it.
fn find_own<'a>(elements: &'a [Part], name: &str) -> Option<&'a Part>
    ensures { option_map (λ part. part.now) result ≡ find (λ part. is_own name.now (part_doc part)) elements.now }
{
    elements.iter().find(|element| is_own(element, name))
}

/// Whether the element has that private name and is not erased.
fn is_own(element: &Part, name: &str) -> bool
    ensures { result ≡ is_own name.now (part_doc element.now) }
{
    has_private(element, name) && !part_is_dropped(element)
}

/// Whether the element of a class has that private name.
fn has_private(element: &Part, name: &str) -> bool
    ensures { result ≡ has_private name.now (part_doc element.now) }
{
    match element.field(Field::Key) {
        Some(key) => key.is_kind(Kind::PrivateIdentifier) && is_named(key.field(Field::Name), name),
        None => false,
    }
}

/// Whether it is that text.
fn is_named(part: Option<&Part>, name: &str) -> bool
    ensures { result ≡ is_text name.now (doc_or_nil part.entry) }
{
    match part {
        Some(part) => part.is_text(name),
        None => false,
    }
}

/// The name of the element.
fn private_text(element: &Part) -> Option<&str>
    ensures { option_map (λ text. text.now) result ≡ private_text (part_doc element.now) }
{
    match element.field(Field::Key) {
        Some(key) => text_of(key.field(Field::Name)),
        None => None,
    }
}

/// The text that it is.
fn text_of(part: Option<&Part>) -> Option<&str>
    ensures { option_map (λ text. text.now) result ≡ text_in (doc_or_nil part.entry) }
{
    match part {
        Some(part) => part.as_text(),
        None => None,
    }
}

/// The first use of that private name in the decorator, outside the bodies of classes that declare it.
fn first_use(decorator: &[Part], name: &str) -> Option<NodeId>
    ensures { option_map number_of result ≡ first_use name.now (docs_in decorator.now) }
{
    first_among(&Uses { name }, decorator, false)
}

/// The search for uses of a private name.
#[derive(Clone, Copy)]
struct Uses<'a> {
    /// The name.
    name: &'a str,
}

impl<'a> Search for Uses<'a> {
    type State = bool;

    type Found = NodeId;

    ghost Seen = { ℕ };

    ghost view = { number_of };

    ghost sought = { λ search. uses_of search.name.now };

    fn visit(&self, node: &Node, is_use: bool) -> Visit<NodeId, bool> {
        Visit {
            found: use_at(self.name, is_use, node),
            inside: if is_dropped(node) {
                inside_dropped(true, node, false)
            } else if declares(self.name, node) {
                Inside::Skipped
            } else {
                Inside::Alike(holds_use(node.kind))
            },
        }
    }

    fn in_field(&self, is_use: bool, _kind: Kind, _row: &Row) -> Option<bool> {
        Some(is_use)
    }
}

/// The number of the node, if it is a use of that name.
fn use_at(name: &str, is_use: bool, node: &Node) -> Option<NodeId>
    ensures { option_map number_of result
        ≡ use_at name.now is_use node.now.kind node.now.id.0 (docs_in node.now.parts.items) }
{
    if is_use && (node.kind.is(Kind::PrivateIdentifier) && node.holds_text(Field::Name, name)) {
        Some(node.id)
    } else {
        None
    }
}

/// Whether a node of that kind holds a use of a private name.
fn holds_use(kind: Kind) -> bool
    ensures { result ≡ holds_use kind }
{
    kind.is(Kind::PrivateFieldExpression) || kind.is(Kind::PrivateInExpression)
}

/// Whether the node is the body of a class that declares the private name.
fn declares(name: &str, node: &Node) -> bool
    ensures { result ≡ declares name.now node.now.kind (docs_in node.now.parts.items) }
{
    node.kind.is(Kind::ClassBody) && is_any_private(name, node.list(Field::Body))
}

/// Whether one of the elements has the private name.
#[tactic(auto, using(oxt_tree::proofs::Lists::list_any_docs_in))]
fn is_any_private(name: &str, elements: &[Part]) -> bool
    ensures { result ≡ list_any (has_private name.now) (docs_list (docs_in elements.now)) }
{
    is_some_private(name, elements)
}

/// The same, of the parts.
fn is_some_private(name: &str, elements: &[Part]) -> bool
    ensures { result ≡ list_any (λ part. has_private name.now (part_doc part)) elements.now }
{
    elements.iter().any(|element| has_private(element, name))
}
