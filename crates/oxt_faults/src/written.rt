//! Names that metadata writes as values, where they would mean something else.
ghost use Rattle.std.specs.Prelude.{◌≡◌, option_map};
ghost use Rattle.oxt_faults.specs.Captured.{Capture, capture_view};
ghost use Rattle.oxt_faults.specs.Earliest.{moved_view};
ghost use Rattle.oxt_faults.specs.WrittenNames.{hidden_written_at, hidden_written_by, is_written, written_hidden, written_marked, written_marked_at};
ghost use Rattle.oxt_fields.specs.Rules.{rules_view};
ghost use Rattle.oxt_tree.specs.View.{doc_or_nil, docs_in, node_doc};

use crate::around::ClassScopes;
use crate::captured::{CapturedName, name_of};
use crate::earliest::MovedName;
use crate::hidden::{bound_by, lies_within, value_as};
use oxt_fields::rules::FieldRules;
use oxt_grammar::field::Field;
use oxt_grammar::holds::Row;
use oxt_grammar::kind::Kind;
use oxt_names::ids::NodeId;
use oxt_scoping::scoping::Scoping;
use oxt_search::first::{first_among, first_in};
use oxt_search::search::{Inside, Search, Visit};
use oxt_tree::tree::{Node, Part};

/// The first name in the program that metadata writes and that means a marked symbol. Where it stands in erased code it is
/// written all the same.
pub fn first_written<'a>(
    rules: FieldRules,
    program: &Node,
    scoping: &'a Scoping,
    marks: &[bool],
) -> Option<CapturedName<'a>>
    ensures { option_map capture_view result
        ≡ written_marked (rules_view rules.entry) scoping.now marks.now (node_doc program.now) }
{
    if !rules.emits_metadata {
        return None;
    }
    let names = WrittenNames {
        rules,
        scoping,
        marks,
    };
    first_in(&names, program, ())
}

/// Whether metadata writes the name which is the node.
fn is_written(rules: FieldRules, node: NodeId) -> bool
    ensures { result ≡ is_written (rules_view rules.entry) node.0 }
{
    rules.plan.written_by(node).is_some()
}

/// The search for such names.
#[derive(Clone, Copy)]
struct WrittenNames<'a, 'b> {
    /// What metadata writes.
    rules: FieldRules<'b>,
    /// What the names mean.
    scoping: &'a Scoping,
    /// Of each symbol whether it is marked.
    marks: &'b [bool],
}

impl<'a, 'b> Search for WrittenNames<'a, 'b> {
    ghost use Rattle.oxt_faults.specs.WrittenNames.{marked_sought};

    type State = ();

    type Found = CapturedName<'a>;

    ghost Seen = { Capture };

    ghost view = { capture_view };

    ghost sought = { λ search. marked_sought (rules_view search.rules) search.scoping.now search.marks.now };

    fn visit(&self, node: &Node, _state: ()) -> Visit<CapturedName<'a>, ()> {
        Visit {
            found: written_at(self.rules, self.scoping, self.marks, node.id),
            inside: Inside::Alike(()),
        }
    }

    fn in_field(&self, _state: (), _kind: Kind, _row: &Row) -> Option<()> {
        Some(())
    }
}

/// The node, if it is such a name.
fn written_at<'a>(
    rules: FieldRules,
    scoping: &'a Scoping,
    marks: &[bool],
    node: NodeId,
) -> Option<CapturedName<'a>>
    ensures { option_map capture_view result
        ≡ written_marked_at (rules_view rules.entry) scoping.now marks.now node.0 }
{
    if is_written(rules, node) {
        name_of(node, scoping.meaning_of(node)?, scoping, marks)
    } else {
        None
    }
}

/// The first name in the part that metadata writes, and that comes from outside the class with these scopes while its
/// constructor declares it as more than a type.
pub fn first_hidden_written<'a>(
    rules: FieldRules,
    scoping: &'a Scoping,
    scopes: Option<ClassScopes>,
    part: Option<&Part>,
) -> Option<MovedName<'a>>
    ensures { option_map moved_view result
        ≡ hidden_written_by (rules_view rules.entry) scoping.now scopes (doc_or_nil part.entry) }
{
    match scopes {
        Some(scopes) if rules.emits_metadata => hidden_written(rules, scoping, scopes, part),
        _ => None,
    }
}

/// The same, where the class has a constructor and metadata is emitted.
fn hidden_written<'a>(
    rules: FieldRules,
    scoping: &'a Scoping,
    scopes: ClassScopes,
    part: Option<&Part>,
) -> Option<MovedName<'a>>
    ensures { option_map moved_view result
        ≡ written_hidden (rules_view rules.entry) scoping.now scopes (doc_or_nil part.entry) }
{
    let names = HiddenWritten {
        rules,
        scoping,
        scopes,
    };
    match part {
        Some(Part::Node(node)) => first_in(&names, node, ()),
        Some(Part::List(parts)) => first_among(&names, parts.as_slice(), ()),
        _ => None,
    }
}

/// The search for such names.
#[derive(Clone, Copy)]
struct HiddenWritten<'a, 'b> {
    /// What metadata writes.
    rules: FieldRules<'b>,
    /// What the names mean.
    scoping: &'a Scoping,
    /// The scopes of the class.
    scopes: ClassScopes,
}

impl<'a, 'b> Search for HiddenWritten<'a, 'b> {
    ghost use Rattle.oxt_faults.specs.WrittenNames.{hidden_sought};

    type State = ();

    type Found = MovedName<'a>;

    ghost Seen = { Capture };

    ghost view = { moved_view };

    ghost sought = { λ search. hidden_sought (rules_view search.rules) search.scoping.now search.scopes };

    fn visit(&self, node: &Node, _state: ()) -> Visit<MovedName<'a>, ()> {
        Visit {
            found: hidden_written_at(self.rules, self.scoping, self.scopes, node),
            inside: Inside::Alike(()),
        }
    }

    fn in_field(&self, _state: (), _kind: Kind, _row: &Row) -> Option<()> {
        Some(())
    }
}

/// The name that the node is, if it is such.
fn hidden_written_at<'a>(
    rules: FieldRules,
    scoping: &'a Scoping,
    scopes: ClassScopes,
    node: &Node,
) -> Option<MovedName<'a>>
    ensures { option_map moved_view result ≡ hidden_written_at (rules_view rules.entry) scoping.now scopes
        node.now.kind node.now.id.0 (docs_in node.now.parts.items) }
{
    if is_written(rules, node.id)
        && !lies_within(scoping, scopes.own, scoping.meaning_of(node.id))
    {
        let symbol = bound_by(scoping, scopes.constructor, node.text(Field::Name))?;
        value_as(scoping, node.id, symbol)
    } else {
        None
    }
}
