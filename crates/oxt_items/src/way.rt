//! The ways in which a rule reads what stands in it.
ghost use Rattle.std.specs.Prelude.{◌≡◌};
ghost use Rattle.oxt_items.specs.Read.{takes};

use oxt_facts::item::Binding;

/// How a part of the tree is read.
#[derive(Clone, Copy)]
pub enum Way {
    /// As what it does.
    Whole,
    /// As a pattern whose names are bound as that, and exported or not.
    Bound(Binding, bool),
    /// As a declaration that is exported.
    Exported,
    /// As the body of a loop or of an `if`.
    Branch,
    /// As the alternate of an `if`.
    Alternate,
    /// As elements that are dropped, all but the last.
    InTurn,
    /// The same, with a key as the last.
    InTurnKeyed,
    /// As elements of which the last is the text of a key.
    LastText,
    /// As a target: object and key.
    Target,
    /// As a called function, whose call has that pure flag.
    Entered(bool),
    /// As the function of a constructor: parameters and body.
    Opened,
    /// As the body of a constructor that passes on what it is given.
    PassOn,
    /// As a key, where keys are computed.
    Keyed,
    /// As the text of a key, which needs no computing.
    KeyText,
    /// As what the keys of a class compute.
    Keys,
    /// As the static fields and blocks of a class.
    Statics,
    /// As the fields of a class's instances.
    Fields,
    /// As the methods of a class.
    Methods,
    /// As the constructor of a class.
    Constructor,
    /// As the constructor of a class, up to that many statements of its body.
    Head(usize),
    /// As the constructor of a class, behind that many statements of its body.
    Tail(usize),
    /// As a function up to that many statements of its body, or as these statements.
    First(usize),
    /// As the rest of a function, or as the statements behind that many.
    Later(usize),
    /// As what the fields of a class put on the object in its constructor.
    Puts,
    /// As a key under which a value is put.
    PutKey,
    /// As the keys of a class that no later key takes, behind what holds the class.
    Last,
    /// As the calls that the elements of a class give.
    Calls,
    /// As a class without the calls that stand behind it.
    Uncalled,
    /// As decorators that are applied.
    Applied,
    /// As a class, or a part of one, whose constructor's parameters are decorated.
    Injected,
}

impl Way {
    /// Whether the way takes the element at that place of a list.
    pub fn takes(self, place: usize) -> bool
        ensures { result ≡ takes self place }
    {
        match self {
            Way::First(count) => place < count,
            Way::Later(count) => count <= place,
            _ => true,
        }
    }
}
