//! The first node that stands where it may not.
//!
//! One search answers for all kinds that a node and those around it decide. One more such refusal is a test of the node
//! at whose place it is answered: a variant of `MisplacedKind`, its place in the chain of `kind_at`, and its test in
//! `rules`, with the same names in specs/Misplaced.antt, where `misplaced_kinds` is the order of the chain and
//! `is_misplaced` names the tests; its word on the line of standard error is in `kind_text` of `oxt_check`. What the test
//! has to know of the nodes around is handed down in the state of the search, `Seat`. `Merge` and `Enum`, and a function
//! or a class behind a namespace of its name, which the table of names decides, are found by `oxt_enum_checks`; `Super`,
//! `Key` and `Field`, which a class decides as a whole, by `oxt_class_checks`.
ghost use Rattle.std.specs.Prelude.{◌≡◌, find, option_map};
ghost use Rattle.oxt_faults.specs.Misplaced.{Misplacement, is_misplaced, misplaced, misplaced_at, misplaced_kinds, misplaced_view, sought};
ghost use Rattle.oxt_fields.specs.Rules.{rules_view};
ghost use Rattle.oxt_tree.specs.View.{docs_in, node_doc};

use crate::rules::{is_misplaced_body, is_misplaced_decorator, is_misplaced_item};
use crate::seat::{Seat, dropped_seat, seat_in, seat_inside};
use oxt_declares::dropped::{inside_dropped, is_dropped};
use oxt_fields::rules::FieldRules;
use oxt_grammar::holds::Row;
use oxt_grammar::kind::Kind;
use oxt_names::ids::NodeId;
use oxt_search::first::first_in;
use oxt_search::search::{Inside, Search, Visit};
use oxt_tree::tree::Node;

/// What is wrong with the place of a node.
#[derive(Clone, Copy, Debug, PartialEq, Eq)]
pub enum MisplacedKind {
    /// It stands as the only statement of a label, a branch, a loop or `with`, or in the head of a `for`.
    Body,
    /// It is a namespace or an `import =` that stands neither in the program nor in a namespace directly, an import or an
    /// export in a namespace, or a function or a class behind a namespace of its name.
    Namespace,
    /// It declares a name that an enum has, and does not merge with it.
    Merge,
    /// It is a member whose name is not its own, or a bare name of one where its value cannot stand.
    Enum,
    /// It is the constructor of a derived class that takes on fields, and calls `super` otherwise than once and as a
    /// statement of its own.
    Super,
    /// It is a field whose key is computed where no key of the class may be.
    Key,
    /// It is a field with decorators that moves or goes, or one that moves beside an `accessor` with a value.
    Field,
    /// It decorates what has no decorators, or is a target in a pattern whose name is read as the alias of a decorated class.
    Decorator,
    /// It is an accessor whose private field has no name, or one that is taken.
    Accessor,
}

/// A node that stands where it may not.
#[derive(Clone, Copy, Debug, PartialEq, Eq)]
pub struct Misplaced {
    /// What is wrong.
    pub kind: MisplacedKind,
    /// The number of the node.
    pub node: NodeId,
}

/// The first node outside erased code that stands where it may not by what stands around it, where a node comes before
/// those in it. Of several kinds at one node it is the first in their order. What is erased as a whole may be misplaced
/// itself, and nothing in it is. `rules` say whether decorators have their older meaning, and which names are read as
/// aliases.
pub fn first_misplaced(program: &Node, rules: FieldRules) -> Option<Misplaced>
    ensures { option_map misplaced_view result ≡ misplaced (rules_view rules.entry) (node_doc program.now) }
{
    first_in(&Misplacements { rules }, program, Seat::Other)
}

/// The search for such nodes.
#[derive(Clone, Copy)]
struct Misplacements<'a> {
    /// The rules for decorators.
    rules: FieldRules<'a>,
}

impl<'a> Search for Misplacements<'a> {
    type State = Seat;

    type Found = Misplaced;

    ghost Seen = { Misplacement };

    ghost view = { misplaced_view };

    ghost sought = { λ search. sought (rules_view search.rules) };

    fn visit(&self, node: &Node, seat: Seat) -> Visit<Misplaced, Seat> {
        Visit {
            found: misplaced_at(self.rules, seat, node),
            inside: if is_dropped(node) {
                inside_dropped(self.rules.legacy, node, dropped_seat(seat))
            } else {
                Inside::ByField(seat_inside(seat, node))
            },
        }
    }

    fn in_field(&self, seat: Seat, kind: Kind, row: &Row) -> Option<Seat> {
        Some(seat_in(seat, kind, row))
    }
}

/// How the node itself is misplaced in that seat.
fn misplaced_at(rules: FieldRules, seat: Seat, node: &Node) -> Option<Misplaced>
    ensures { option_map misplaced_view result
        ≡ misplaced_at (rules_view rules.entry) seat node.now.kind node.now.id.0 (docs_in node.now.parts.items) }
{
    let kind = kind_at(rules, seat, node)?;
    Some(Misplaced {
        kind,
        node: node.id,
    })
}

/// The first kind in which it is misplaced there.
fn kind_at(rules: FieldRules, seat: Seat, node: &Node) -> Option<MisplacedKind>
    ensures { result
        ≡ find (is_misplaced (rules_view rules.entry) seat node.now.kind (docs_in node.now.parts.items)) misplaced_kinds }
{
    if is_misplaced_body(seat, node) {
        Some(MisplacedKind::Body)
    } else if is_misplaced_item(seat, node) {
        Some(MisplacedKind::Namespace)
    } else if is_misplaced_decorator(rules, seat, node) {
        Some(MisplacedKind::Decorator)
    } else {
        None
    }
}
