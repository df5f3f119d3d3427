//! The first name that would mean something else once the fields of classes move.
ghost use Rattle.std.specs.Prelude.{◌≡◌, IfOk, option_map};
ghost use Rattle.oxt_faults.specs.Captured.{Capture};
ghost use Rattle.oxt_faults.specs.Earliest.{moved_view};
ghost use Rattle.oxt_faults.specs.Moved.{capture_with, captured_at, captured_in, class_capture, field_capture, key_capture, moved_capture, moves_key, name_hidden, sought};
ghost use Rattle.oxt_faults.specs.Redeclared.{mark_by};
ghost use Rattle.oxt_fields.specs.Rules.{rules_view};
ghost use Rattle.oxt_tree.specs.View.{doc_or_nil, docs_in, node_doc};

use crate::around::{ClassAround, class_around, is_class, no_class};
pub use crate::earliest::MovedName;
use crate::earliest::{earlier, earliest, of_word};
use crate::hidden::first_hidden;
use crate::level::first_moved_word;
use crate::redeclared::{first_redeclared, own_names, redeclared_symbols};
use crate::waiting::{first_word_left, has_expression};
use crate::word::Destination;
use crate::written::first_hidden_written;
use oxt_declares::dropped::{inside_dropped, is_dropped};
use oxt_fields::class::{constructor_of, elements_of};
use oxt_fields::fate::{Fate, fate_of, hoists_private, is_static};
use oxt_fields::rules::FieldRules;
use oxt_grammar::field::Field;
use oxt_grammar::holds::Row;
use oxt_grammar::kind::Kind;
use oxt_names::ids::OutOfMemory;
use oxt_scoping::scoping::Scoping;
use oxt_search::all::all_in;
use oxt_search::search::{Inside, Search, Visit};
use oxt_tree::tree::{Node, Part};
use std::alloc::Global;

/// Of the names in the program that would mean something else once the fields of classes move, outside what is erased, the
/// one at the node of the least number. They are: in a field that moves, a word that means something else where it goes, or
/// a name that the constructor of the class declares; a word in a key that is left for a static block of the class; and a
/// property among the parameters of a constructor that this declares again. Where decorators have their older meaning, the
/// value of an `accessor` is that of a private field.
///
/// # Errors
///
/// Fails only where memory runs out.
pub fn first_moved_capture<'a>(
    alloc: Global,
    program: &'a Node,
    scoping: &'a Scoping,
    rules: FieldRules,
) -> Result<Option<MovedName<'a>>, OutOfMemory>
    ensures { IfOk result (λ found. option_map moved_view found
        ≡ moved_capture scoping.now (rules_view rules.entry) (node_doc program.now)) }
{
    let own = own_names(alloc, program)?;
    let again = redeclared_symbols(alloc, scoping, &own)?;
    capture_with(alloc, program, scoping, rules, again.as_slice())
}

/// The same, where `again` says of each symbol whether it is declared again.
fn capture_with<'a>(
    alloc: Global,
    program: &Node,
    scoping: &'a Scoping,
    rules: FieldRules,
    again: &[bool],
) -> Result<Option<MovedName<'a>>, OutOfMemory>
    ensures { IfOk result (λ found. option_map moved_view found
        ≡ capture_with scoping.now (rules_view rules.entry) (mark_by again.now) (node_doc program.now)) }
{
    let fields = MovingFields {
        scoping,
        rules,
        again,
    };
    let found = all_in(alloc, &fields, program, no_class())?;
    Ok(earliest(found.as_slice()))
}

/// The search for such names, one a field or a class.
#[derive(Clone, Copy)]
struct MovingFields<'a, 'b> {
    /// What the names mean.
    scoping: &'a Scoping,
    /// By what fields move.
    rules: FieldRules<'b>,
    /// Of each symbol whether it is declared again.
    again: &'b [bool],
}

impl<'a, 'b> Search for MovingFields<'a, 'b> {
    type State = ClassAround;

    type Found = MovedName<'a>;

    ghost Seen = { Capture };

    ghost view = { moved_view };

    ghost sought = { λ search. sought search.scoping.now (rules_view search.rules) (mark_by search.again.now) };

    fn visit(&self, node: &Node, around: ClassAround) -> Visit<MovedName<'a>, ClassAround> {
        if is_dropped(node) {
            Visit {
                found: None,
                inside: inside_dropped(self.rules.legacy, node, around),
            }
        } else {
            Visit {
                found: captured_at(self.scoping, self.rules, self.again, around, node),
                inside: Inside::Alike(class_around(self.scoping, around, node)),
            }
        }
    }

    fn in_field(&self, around: ClassAround, _kind: Kind, _row: &Row) -> Option<ClassAround> {
        Some(around)
    }
}

/// What would be captured in the node, if it is a class or a field of the class around it.
fn captured_at<'a>(
    scoping: &'a Scoping,
    rules: FieldRules,
    again: &[bool],
    around: ClassAround,
    node: &Node,
) -> Option<MovedName<'a>>
    ensures { option_map moved_view result
        ≡ captured_at scoping.now (rules_view rules.entry) (mark_by again.now) around node.now.kind (docs_in node.now.parts.items) }
{
    if is_class(node.kind) {
        class_capture(scoping, rules, again, elements_of(node))
    } else {
        field_capture(scoping, rules, around, node)
    }
}

/// What would be captured in a class with these elements, but for its fields.
fn class_capture<'a>(
    scoping: &'a Scoping,
    rules: FieldRules,
    again: &[bool],
    elements: &[Part],
) -> Option<MovedName<'a>>
    ensures { option_map moved_view result
        ≡ class_capture scoping.now (rules_view rules.entry) (mark_by again.now) (docs_in elements.now) }
{
    let word = first_word_left(rules, hoists_private(elements), elements);
    earlier(
        word,
        first_redeclared(scoping, again, constructor_of(elements)),
    )
}

/// What would be captured in the value of the field, and in its key where that moves with it.
fn field_capture<'a>(
    scoping: &'a Scoping,
    rules: FieldRules,
    around: ClassAround,
    node: &Node,
) -> Option<MovedName<'a>>
    ensures { option_map moved_view result
        ≡ field_capture scoping.now (rules_view rules.entry) around node.now.kind (docs_in node.now.parts.items) }
{
    match fate_of(rules, around.hoists, node) {
        Fate::Moves { has_temporary, .. } => {
            let value = captured_in(
                rules,
                scoping,
                around,
                is_static(node),
                node.field(Field::Value),
            );
            earlier(
                value,
                key_capture(rules, scoping, around, has_temporary, node),
            )
        }
        _ => None,
    }
}

/// What would be captured in the key of the field, if that is written where the field is set.
fn key_capture<'a>(
    rules: FieldRules,
    scoping: &'a Scoping,
    around: ClassAround,
    has_temporary: bool,
    node: &Node,
) -> Option<MovedName<'a>>
    ensures { option_map moved_view result
        ≡ key_capture (rules_view rules.entry) scoping.now around has_temporary node.now.kind (docs_in node.now.parts.items) }
{
    if moves_key(has_temporary, node) {
        captured_in(
            rules,
            scoping,
            around,
            is_static(node),
            node.field(Field::Key),
        )
    } else {
        None
    }
}

/// Whether the key of the element, which moves, is written where that is set: it is a field, its key is an expression, and no
/// temporary keeps that.
fn moves_key(has_temporary: bool, node: &Node) -> bool
    ensures { result ≡ moves_key has_temporary node.now.kind (docs_in node.now.parts.items) }
{
    node.kind.is(Kind::PropertyDefinition) && (!has_temporary && has_expression(node))
}

/// What would be captured in code that goes with a field, static or not.
fn captured_in<'a>(
    rules: FieldRules,
    scoping: &'a Scoping,
    around: ClassAround,
    is_static: bool,
    part: Option<&Part>,
) -> Option<MovedName<'a>>
    ensures { option_map moved_view result
        ≡ captured_in (rules_view rules.entry) scoping.now around is_static (doc_or_nil part.entry) }
{
    if is_static {
        of_word(first_moved_word(rules.legacy, Destination::StaticBlock, part))
    } else {
        let word = of_word(first_moved_word(rules.legacy, Destination::Constructor, part));
        earlier(word, first_name(rules, scoping, around, part))
    }
}

/// The first name in code of an instance field that the constructor declares: one that is used as a value, or that metadata
/// writes.
fn first_name<'a>(
    rules: FieldRules,
    scoping: &'a Scoping,
    around: ClassAround,
    part: Option<&Part>,
) -> Option<MovedName<'a>>
    ensures { option_map moved_view result
        ≡ name_hidden (rules_view rules.entry) scoping.now around (doc_or_nil part.entry) }
{
    let used = first_hidden(rules.legacy, scoping, around.scopes, part);
    earlier(
        used,
        first_hidden_written(rules, scoping, around.scopes, part),
    )
}
