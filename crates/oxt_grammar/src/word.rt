// Written by tools/grammar.py from grammar/grammar.txt.
ghost use Rattle.std.specs.Prelude.{◌≡◌, find};
ghost use Rattle.std.specs.Str.{bytes_eq};
ghost use Rattle.oxt_grammar.specs.Words.{text_of, words_in};

/// A word that a field may hold.
#[derive(Clone, Copy)]
pub enum Word {
    Module,
    Script,
    Ts,
    Js,
    Dts,
    Var,
    Let,
    Const,
    Using,
    AwaitUsing,
    Public,
    Protected,
    Private,
    Method,
    Constructor,
    Get,
    Set,
    Init,
    Source,
    Defer,
    Value,
    Type,
    Namespace,
    Increment,
    Decrement,
    Keyof,
    Unique,
    Readonly,
}

impl Word {
    /// The text that a tree's JSON has for the word.
    pub fn text(self) -> &'static str
        ensures { result.now ≡ text_of self }
    {
        match self {
            Word::Module => "module",
            Word::Script => "script",
            Word::Ts => "ts",
            Word::Js => "js",
            Word::Dts => "dts",
            Word::Var => "var",
            Word::Let => "let",
            Word::Const => "const",
            Word::Using => "using",
            Word::AwaitUsing => "await using",
            Word::Public => "public",
            Word::Protected => "protected",
            Word::Private => "private",
            Word::Method => "method",
            Word::Constructor => "constructor",
            Word::Get => "get",
            Word::Set => "set",
            Word::Init => "init",
            Word::Source => "source",
            Word::Defer => "defer",
            Word::Value => "value",
            Word::Type => "type",
            Word::Namespace => "namespace",
            Word::Increment => "++",
            Word::Decrement => "--",
            Word::Keyof => "keyof",
            Word::Unique => "unique",
            Word::Readonly => "readonly",
        }
    }
}

/// The words that a field may hold, named after the field.
#[derive(Clone, Copy)]
pub enum Words {
    SourceType,
    Lang,
    VariableKind,
    Accessibility,
    MethodKind,
    PropertyKind,
    Phase,
    TypeOrValue,
    NamespaceKind,
    UpdateOperator,
    TypeOperator,
}

impl Words {
    /// The words of the list; the first is the default of a field that need not be there.
    pub fn all(self) -> &'static [Word]
        ensures { result.now ≡ words_in self }
    {
        match self {
            Words::SourceType => &[Word::Module, Word::Script],
            Words::Lang => &[Word::Ts, Word::Js, Word::Dts],
            Words::VariableKind => &[
                Word::Var,
                Word::Let,
                Word::Const,
                Word::Using,
                Word::AwaitUsing,
            ],
            Words::Accessibility => &[Word::Public, Word::Protected, Word::Private],
            Words::MethodKind => &[Word::Method, Word::Constructor, Word::Get, Word::Set],
            Words::PropertyKind => &[Word::Init, Word::Get, Word::Set],
            Words::Phase => &[Word::Source, Word::Defer],
            Words::TypeOrValue => &[Word::Value, Word::Type],
            Words::NamespaceKind => &[Word::Namespace, Word::Module],
            Words::UpdateOperator => &[Word::Increment, Word::Decrement],
            Words::TypeOperator => &[Word::Keyof, Word::Unique, Word::Readonly],
        }
    }

    /// The word of the list whose text is `text`.
    pub fn find(self, text: &str) -> Option<Word>
        ensures { result ≡ find (λ w. bytes_eq (text_of w) text.now) (words_in self) }
    {
        self.all().iter().copied().find(|word| word.text() == text)
    }
}
