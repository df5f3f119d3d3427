//! What the fields of a node hold.

ghost use Rattle.std.specs.Prelude.{◌≡◌};
ghost use Rattle.oxt_grammar.specs.Keys.{key_of};
ghost use Rattle.oxt_grammar.specs.Places.{same_field};

use crate::category::Category;
use crate::field::Field;
use crate::word::Words;

/// What may stand in a field.
#[derive(Clone, Copy)]
pub enum Holds {
    /// A text.
    Text,
    /// A text or null.
    TextOrNull,
    /// True or false.
    Flag,
    /// A whole number that a JavaScript number holds exactly, or null.
    WholeOrNull,
    /// One of the words.
    Word(Words),
    /// One of the words or null.
    WordOrNull(Words),
    /// A node of the category.
    Node(Category),
    /// A node of the category or null.
    NodeOrNull(Category),
    /// A node of the first category, and below a named export of the second.
    Narrowed(Category, Category),
    /// A list of nodes of the category.
    List(Category),
    /// A list of nodes of the category and of nulls.
    ListOfNullable(Category),
    /// A list of nodes of the category, or null.
    ListOrNull(Category),
}

/// Whether a field has to be there.
#[derive(Clone, Copy)]
pub enum Presence {
    /// It has to be there.
    Required,
    /// It stands at its default where it is left out.
    Optional,
    /// As `Optional`, and only TypeScript has the field.
    TypeScript,
}

/// A field of a kind.
#[derive(Clone, Copy)]
pub struct Row {
    /// The field.
    pub field: Field,
    /// What may stand there.
    pub holds: Holds,
    /// Whether it has to be there.
    pub presence: Presence,
}

impl Row {
    /// The key in the node's JSON.
    pub fn name(&self) -> &'static str
        ensures { result.now ≡ key_of self.now.field }
    {
        self.field.name()
    }

    /// Whether it is the row of that field.
    pub fn is(&self, field: Field) -> bool
        ensures { result ≡ same_field self.now.field field }
    {
        self.field.is(field)
    }
}
