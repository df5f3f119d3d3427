//! The items of a word.
ghost use Rattle.std.specs.Prelude.{◌≡◌};

use oxt_grammar::kind::Kind;
use oxt_grammar::word::Word;
use oxt_names::name::Name;

/// What an item stands for.
#[derive(Clone, Copy, PartialEq, Eq)]
pub enum ItemKind {
    /// The line for the system at the start of a program.
    Hash,
    /// A directive.
    Dir,
    /// The start of a node of the kind that it is spelled, with the node's texts and flags.
    Open,
    /// The end of a node.
    Close,
    /// A part that is absent.
    Nil,
    /// A text.
    Str,
    /// A number; its raw text where it has no value.
    Num,
    /// A private name.
    Private,
    /// The private name that stores what an accessor with a made name as its key holds, by its tag.
    PrivateMade,
    /// The empty object.
    New,
    /// `this`.
    This,
    /// The use of a name.
    Name,
    /// The use of a made name, by its tag.
    Made,
    /// A value that a made name then holds, by its tag.
    Keep,
    /// The read of an object and a key; spelled by whether it is optional.
    Get,
    /// The write of an object, a key and a value.
    Put,
    /// A value that is dropped.
    Eval,
    /// A value that goes into the binding that follows.
    Set,
    /// A declared name, with what it is declared as and whether it is exported.
    Bind,
    /// The same of a made name, by its tag.
    BindMade,
    /// The entry into a called function with that parameter, and the call's pure flag.
    In,
    /// The same of a parameter whose name is made, by its tag.
    InMade,
    /// The end of a called function.
    Out,
    /// The name before it, or the empty object.
    Found,
    /// The same, which the name then holds.
    FoundMade,
    /// The same, stored on an object that stands before it, under the key before it.
    FoundMadeOn,
    /// A field of a class, with whether it is static and whether it is an accessor.
    Field,
    /// The end of a field.
    Define,
    /// The end of a key that is computed.
    Key,
    /// The start of a constructor's body.
    Body,
    /// A constructor passes all that it is given on to that of the class above.
    PassOn,
}

impl ItemKind {
    ghost use Rattle.oxt_facts.specs.ItemKinds.{item_kind_name};

    /// The name by which a word is shown.
    pub fn name(self) -> &'static str
        ensures { result.now ≡ item_kind_name self }
    {
        match self {
            ItemKind::Hash => "Hash",
            ItemKind::Dir => "Dir",
            ItemKind::Open => "Open",
            ItemKind::Close => "Close",
            ItemKind::Nil => "Nil",
            ItemKind::Str => "Str",
            ItemKind::Num => "Num",
            ItemKind::Private => "Private",
            ItemKind::PrivateMade => "PrivateMade",
            ItemKind::New => "New",
            ItemKind::This => "This",
            ItemKind::Name => "Name",
            ItemKind::Made => "Made",
            ItemKind::Keep => "Keep",
            ItemKind::Get => "Get",
            ItemKind::Put => "Put",
            ItemKind::Eval => "Eval",
            ItemKind::Set => "Set",
            ItemKind::Bind => "Bind",
            ItemKind::BindMade => "BindMade",
            ItemKind::In => "In",
            ItemKind::InMade => "InMade",
            ItemKind::Out => "Out",
            ItemKind::Found => "Found",
            ItemKind::FoundMade => "FoundMade",
            ItemKind::FoundMadeOn => "FoundMadeOn",
            ItemKind::Field => "Field",
            ItemKind::Define => "Define",
            ItemKind::Key => "Key",
            ItemKind::Body => "Body",
            ItemKind::PassOn => "PassOn",
        }
    }
}

/// What a name is declared as.
#[derive(Clone, Copy)]
pub enum Binding {
    Var,
    Let,
    Const,
    Using,
    AwaitUsing,
    Function,
    Class,
    Import,
    Parameter,
    Catch,
    /// The name of a function expression or a class expression.
    Inner,
}

impl Binding {
    ghost use Rattle.oxt_facts.specs.Entry.{binding_text};

    /// The text that stands for it.
    pub fn text(self) -> &'static str
        ensures { result.now ≡ binding_text self }
    {
        match self {
            Binding::Var => "var",
            Binding::Let => "let",
            Binding::Const => "const",
            Binding::Using => "using",
            Binding::AwaitUsing => "await using",
            Binding::Function => "function",
            Binding::Class => "class",
            Binding::Import => "import",
            Binding::Parameter => "parameter",
            Binding::Catch => "catch",
            Binding::Inner => "inner",
        }
    }
}

/// A text, a number, a flag or nothing.
#[derive(Drop)]
pub enum Atom {
    Nothing,
    Flag(bool),
    Number(u64),
    Text(Name),
    Word(Word),
    Kind(Kind),
    Binding(Binding),
}

/// An item: what it stands for, what it is spelled, further texts and flags, and the group that a name means or declares:
/// none where the name is free, and for what is no name.
#[derive(Drop)]
pub struct Item {
    pub kind: ItemKind,
    pub spelling: Atom,
    pub details: Vec<Atom>,
    pub group: Option<u64>,
}
