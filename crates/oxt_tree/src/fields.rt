//! What the fields of a node hold.
ghost use Rattle.std.specs.Prelude.{◌≡◌, ◌<◌, ◌^◌, option_map};
ghost use Rattle.std.specs.List.{position_from, slice_get};
ghost use Rattle.std.specs.Str.{bytes_eq};
ghost use Rattle.oxt_grammar.specs.Field.{row_view};
ghost use Rattle.oxt_grammar.specs.Keys.{key_of};
ghost use Rattle.oxt_grammar.specs.Places.{same_field};
ghost use Rattle.oxt_grammar.specs.Rows.{row_of};
ghost use Rattle.oxt_grammar.specs.declared.holds.Holds.TheVariants as holds;
ghost use Rattle.oxt_tree.specs.Doc.{Doc};
ghost use Rattle.oxt_tree.specs.Fields.{named, field_of, elements, count, node_of, text_in, is_nil, is_set, is_text, is_kind, is_in, default_of, is_default, is_left_out, is_empty_list};
ghost use Rattle.oxt_tree.specs.View.{doc_of_part, doc_or_nil, docs_in, node_doc, part_doc};

use crate::tree::{Node, Part};
use oxt_grammar::category::Category;
use oxt_grammar::field::Field;
use oxt_grammar::holds::{Holds, Presence, Row};
use oxt_grammar::kind::Kind;
use oxt_grammar::word::Words;
use std::alloc::Global;

impl Node {
    /// What that field holds; none where the node's kind has no such field.
    #[tactic(auto, using(crate::proofs::Places::named_at))]
    pub fn field(&self, field: Field) -> Option<&Part>
        ensures { doc_or_nil result ≡ named (key_of field) self.now.kind (docs_in self.now.parts.items) }
    {
        match place_of(self.kind.rows(), field) {
            Some(place) => self.at(place),
            None => None,
        }
    }

    /// What the field at that place holds, counted from 0 in the order of the rows.
    pub fn at(&self, place: usize) -> Option<&Part>
        ensures { doc_or_nil result ≡ doc_of_part (slice_get self.now.parts.items place) }
    {
        self.parts.get(place)
    }

    /// Whether that field is a flag that is set.
    pub fn flag(&self, field: Field) -> bool
        ensures { result ≡ is_set (named (key_of field) self.now.kind (docs_in self.now.parts.items)) }
    {
        match self.field(field) {
            Some(part) => part.is_set(),
            None => false,
        }
    }

    /// Whether that field is null, or the node's kind has no such field.
    pub fn lacks(&self, field: Field) -> bool
        ensures { result ≡ is_nil (named (key_of field) self.now.kind (docs_in self.now.parts.items)) }
    {
        match self.field(field) {
            Some(part) => part.is_nothing(),
            None => true,
        }
    }

    /// The elements of the list in that field; none where it holds no list.
    pub fn list(&self, field: Field) -> &[Part]
        ensures { docs_in result.now
            ≡ elements (named (key_of field) self.now.kind (docs_in self.now.parts.items)) }
    {
        match self.field(field) {
            Some(part) => part.elements(),
            None => &[],
        }
    }

    /// The text in that field, or that of the word in it.
    pub fn text(&self, field: Field) -> Option<&str>
        ensures { option_map (λ text. text.now) result
            ≡ text_in (named (key_of field) self.now.kind (docs_in self.now.parts.items)) }
    {
        match self.field(field) {
            Some(part) => part.as_text(),
            None => None,
        }
    }

    /// The node in that field.
    pub fn child(&self, field: Field) -> Option<&Node>
        ensures { option_map (λ node. node_doc node.now) result
            ≡ node_of (named (key_of field) self.now.kind (docs_in self.now.parts.items)) }
    {
        match self.field(field) {
            Some(part) => part.as_node(),
            None => None,
        }
    }

    /// Whether that field holds that text, or the word with that text.
    pub fn holds_text(&self, field: Field, text: &str) -> bool
        ensures { result
            ≡ is_text text.now (named (key_of field) self.now.kind (docs_in self.now.parts.items)) }
    {
        match self.field(field) {
            Some(part) => part.is_text(text),
            None => false,
        }
    }

    /// Whether that field holds a node of that kind.
    pub fn holds_kind(&self, field: Field, kind: Kind) -> bool
        ensures { result
            ≡ is_kind kind (named (key_of field) self.now.kind (docs_in self.now.parts.items)) }
    {
        match self.field(field) {
            Some(part) => part.is_kind(kind),
            None => false,
        }
    }
}

impl Part {
    /// What that field of the node that it is holds; none for anything else.
    pub fn field(&self, field: Field) -> Option<&Part>
        ensures { doc_or_nil result ≡ field_of (key_of field) (part_doc self.now) }
    {
        match self {
            Part::Node(node) => node.field(field),
            _ => None,
        }
    }

    /// The elements of the list in that field of the node that it is; none for anything else.
    pub fn list(&self, field: Field) -> &[Part]
        ensures { docs_in result.now ≡ elements (field_of (key_of field) (part_doc self.now)) }
    {
        match self {
            Part::Node(node) => node.list(field),
            _ => &[],
        }
    }

    /// Whether it is null.
    pub fn is_nothing(&self) -> bool
        ensures { result ≡ is_nil (part_doc self.now) }
    {
        match self {
            Part::Nothing => true,
            _ => false,
        }
    }

    /// Whether it is a flag that is set.
    pub fn is_set(&self) -> bool
        ensures { result ≡ is_set (part_doc self.now) }
    {
        match self {
            Part::Flag(flag) => *flag,
            _ => false,
        }
    }

    /// Whether it is that text, or the word with that text.
    pub fn is_text(&self, text: &str) -> bool
        ensures { result ≡ is_text text.now (part_doc self.now) }
    {
        match self {
            Part::Text(name) => name.as_str() == text,
            Part::Word(word) => word.text() == text,
            _ => false,
        }
    }

    /// Whether it is a node of that kind.
    pub fn is_kind(&self, kind: Kind) -> bool
        ensures { result ≡ is_kind kind (part_doc self.now) }
    {
        match self {
            Part::Node(node) => node.kind.is(kind),
            _ => false,
        }
    }

    /// Whether it is a node of a kind of that category.
    pub fn is_in(&self, category: Category) -> bool
        ensures { result ≡ is_in category (part_doc self.now) }
    {
        match self {
            Part::Node(node) => category.contains(node.kind),
            _ => false,
        }
    }

    /// The text that it is, or that of the word that it is.
    pub fn as_text(&self) -> Option<&str>
        ensures { option_map (λ text. text.now) result ≡ text_in (part_doc self.now) }
    {
        match self {
            Part::Text(name) => Some(name.as_str()),
            Part::Word(word) => Some(word.text()),
            _ => None,
        }
    }

    /// The node that it is.
    pub fn as_node(&self) -> Option<&Node>
        ensures { option_map (λ node. node_doc node.now) result ≡ node_of (part_doc self.now) }
    {
        match self {
            Part::Node(node) => Some(node),
            _ => None,
        }
    }

    /// The elements of the list that it is; none where it is no list.
    pub fn elements(&self) -> &[Part]
        ensures { docs_in result.now ≡ elements (part_doc self.now) }
    {
        match self {
            Part::List(parts) => parts.as_slice(),
            _ => &[],
        }
    }

    /// Whether it is what such a field holds where it is left out.
    pub fn is_default(&self, holds: Holds) -> bool
        ensures { result ≡ is_default holds (part_doc self.now) }
    {
        match holds {
            Holds::Flag => match self {
                Part::Flag(flag) => !*flag,
                _ => false,
            },
            Holds::Word(words) => self.is_first_of(words),
            Holds::List(_) => self.is_empty_list(),
            Holds::ListOfNullable(_) => self.is_empty_list(),
            Holds::TextOrNull => self.is_nothing(),
            Holds::WholeOrNull => self.is_nothing(),
            Holds::WordOrNull(_) => self.is_nothing(),
            Holds::NodeOrNull(_) => self.is_nothing(),
            Holds::ListOrNull(_) => self.is_nothing(),
            _ => false,
        }
    }

    /// Whether it is the first of the words.
    fn is_first_of(&self, words: Words) -> bool
        ensures { result ≡ is_default (holds.Word words) (part_doc self.now) }
    {
        match words.all().first() {
            Some(word) => self.is_text(word.text()),
            None => false,
        }
    }

    /// Whether it is a list without elements.
    fn is_empty_list(&self) -> bool
        ensures { result ≡ is_empty_list (part_doc self.now) }
    {
        match self {
            Part::List(parts) => parts.first().is_none(),
            _ => false,
        }
    }

    /// Whether the written tree leaves out this field of a node.
    pub fn is_left_out(&self, row: &Row) -> bool
        ensures { result ≡ is_left_out (row_view row.now) (part_doc self.now) }
    {
        match row.presence {
            Presence::Required => false,
            Presence::Optional => self.is_default(row.holds),
            Presence::TypeScript => self.is_default(row.holds),
        }
    }
}

/// The place of the first row of that field.
pub fn place_of(rows: &[Row], field: Field) -> Option<usize>
    ensures { result ≡ position_from (λ row. same_field row.field field) 0 rows.now }
{
    rows.iter().position(|row| row.is(field))
}

/// What a field holds where it is left out.
pub fn default_part(alloc: Global, holds: Holds) -> Part
    ensures { part_doc result ≡ default_of holds }
{
    match holds {
        Holds::Flag => Part::Flag(false),
        Holds::Word(words) => first_word(words),
        Holds::List(_) => Part::List(Vec::new(alloc)),
        Holds::ListOfNullable(_) => Part::List(Vec::new(alloc)),
        _ => Part::Nothing,
    }
}

/// The first of the words.
fn first_word(words: Words) -> Part
    ensures { part_doc result ≡ default_of (holds.Word words) }
{
    match words.all().first() {
        Some(word) => Part::Word(*word),
        None => Part::Nothing,
    }
}

/// How many parts there are.
#[tactic(auto, using(crate::proofs::Lists::count_docs_in))]
pub fn count(parts: &[Part]) -> usize
    ensures value { result ≡ count (docs_in parts.now) }
    ensures small { result < 2 ^ 63 }
{
    parts.len()
}
