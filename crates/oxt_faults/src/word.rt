//! Words whose meaning the function around them gives.
ghost use Rattle.std.specs.Prelude.{◌≡◌};
ghost use Rattle.oxt_faults.specs.Words.{awaited, changes, text_of_word, where_word, word_at};
ghost use Rattle.oxt_tree.specs.View.{docs_in};

use oxt_grammar::field::Field;
use oxt_grammar::kind::Kind;
use oxt_tree::tree::Node;

/// A word that would mean something else in another function.
#[derive(Clone, Copy)]
pub enum LevelWord {
    /// `this`.
    This,
    /// `super`, called or read from.
    Super,
    /// `new.target`.
    NewTarget,
    /// The name `arguments`.
    Arguments,
    /// `await`, also that of `for await` and of `await using`.
    Await,
    /// `yield`.
    Yield,
}

impl LevelWord {
    /// The word as it is written.
    pub fn as_str(self) -> &'static str
        ensures { result.now ≡ text_of_word self }
    {
        match self {
            LevelWord::This => "this",
            LevelWord::Super => "super",
            LevelWord::NewTarget => "new.target",
            LevelWord::Arguments => "arguments",
            LevelWord::Await => "await",
            LevelWord::Yield => "yield",
        }
    }
}

/// Where code goes, by which some words in it would mean something else.
#[derive(Clone, Copy)]
pub enum Destination {
    /// A function or a static block, in which code around it goes.
    Deeper,
    /// The constructor of a class, in which the value of a field of it goes.
    Constructor,
    /// A static block of a class, in which the value of a static field of it goes.
    StaticBlock,
}

impl Destination {
    /// Whether the word would mean something else there. In a constructor and in a static block `this` and `super` are
    /// what they are in the value of a field, and in a static block `new.target` is too.
    pub fn changes(self, word: LevelWord) -> bool
        ensures { result ≡ changes self word }
    {
        match self {
            Destination::Deeper => true,
            Destination::Constructor => match word {
                LevelWord::This => false,
                LevelWord::Super => false,
                _ => true,
            },
            Destination::StaticBlock => match word {
                LevelWord::This => false,
                LevelWord::Super => false,
                LevelWord::NewTarget => false,
                _ => true,
            },
        }
    }
}

/// The word that the node itself is. `owns_await` says that an async arrow around it gives `await` its meaning.
pub fn word_at(owns_await: bool, node: &Node) -> Option<LevelWord>
    ensures { result ≡ word_at owns_await node.now.kind (docs_in node.now.parts.items) }
{
    match node.kind {
        Kind::ThisExpression => Some(LevelWord::This),
        Kind::Super => Some(LevelWord::Super),
        Kind::MetaProperty => where_word(
            node.holds_text(Field::Meta, "new") && node.holds_text(Field::Property, "target"),
            LevelWord::NewTarget,
        ),
        Kind::IdentifierReference => {
            where_word(
                node.holds_text(Field::Name, "arguments"),
                LevelWord::Arguments,
            )
        }
        Kind::AwaitExpression => awaited(owns_await, true),
        Kind::ForOfStatement => awaited(owns_await, node.flag(Field::Await)),
        Kind::VariableDeclaration => awaited(
            owns_await,
            node.holds_text(Field::Kind, "await using"),
        ),
        Kind::YieldExpression => Some(LevelWord::Yield),
        _ => None,
    }
}

/// `await`, where the code awaits and no async arrow gives that its meaning.
fn awaited(owns_await: bool, awaits: bool) -> Option<LevelWord>
    ensures { result ≡ awaited owns_await awaits }
{
    where_word(awaits && !owns_await, LevelWord::Await)
}

/// That word, where it stands there.
fn where_word(stands: bool, word: LevelWord) -> Option<LevelWord>
    ensures { result ≡ where_word stands word }
{
    if stands { Some(word) } else { None }
}
