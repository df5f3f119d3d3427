//! Names as scopes declare them.
ghost use Rattle.std.specs.Prelude.{◌≡◌};
ghost use Rattle.oxt_declares.specs.Declarations.{is_type_alone, shows};

use oxt_names::ids::NodeId;
use oxt_tree::tree::Part;

/// What a name is declared as.
#[derive(Clone, Copy)]
pub enum Sort {
    Var,
    Let,
    Const,
    Using,
    AwaitUsing,
    Parameter,
    Catch,
    Function,
    /// A function without a body.
    Overload,
    Class,
    /// The name of a function expression.
    InnerFunction,
    /// The name of a class expression.
    InnerClass,
    Import,
    TypeImport,
    TypeAlias,
    Interface,
    TypeParameter,
    Enum,
    ConstEnum,
    EnumMember,
    /// A namespace that holds more than types.
    ValueModule,
    /// A namespace of types alone.
    NamespaceModule,
}

impl Sort {
    /// Whether it is a type alone, which values pass over.
    pub fn is_type_alone(self) -> bool
        ensures { result ≡ is_type_alone self }
    {
        match self {
            Sort::TypeImport => true,
            Sort::TypeAlias => true,
            Sort::Interface => true,
            Sort::TypeParameter => true,
            Sort::NamespaceModule => true,
            _ => false,
        }
    }

    /// Whether a name that is so declared is seen by one that is read so.
    pub fn shows(self, sight: Sight) -> bool
        ensures { result ≡ shows sight self }
    {
        match sight {
            Sight::Value => !self.is_type_alone(),
            Sight::Type => true,
            Sight::TypeParameter => match self {
                Sort::TypeParameter => true,
                _ => false,
            },
        }
    }
}

/// What a name that is used may mean.
#[derive(Clone, Copy)]
pub enum Sight {
    /// What is no type alone.
    Value,
    /// Everything.
    Type,
    /// Type parameters.
    TypeParameter,
}

/// A name that a scope declares.
#[derive(Clone, Copy)]
pub struct Declaration<'a> {
    /// The name.
    pub name: &'a str,
    /// What it is declared as.
    pub sort: Sort,
    /// The number of the node that is the name; that of the member, of a member of an enum.
    pub node: NodeId,
    /// Whether the declaration says `declare`.
    pub is_ambient: bool,
    /// The body, of an enum.
    pub body: Option<&'a Part>,
}
