//! What metadata says of types.
ghost use Rattle.std.specs.Prelude.{◌≡◌};
ghost use Rattle.oxt_options.specs.Metadata.{text_of_global};

use oxt_names::ids::NodeId;

/// A name that metadata has of its own, which is free.
#[derive(Clone, Copy, PartialEq, Eq)]
pub enum GlobalName {
    /// `Object`, also for a type of which nothing closer can be said.
    Object,
    /// `Function`.
    Function,
    /// `Array`.
    Array,
    /// `Boolean`.
    Boolean,
    /// `String`.
    String,
    /// `Number`.
    Number,
    /// `BigInt`.
    BigInt,
    /// `Symbol`.
    Symbol,
    /// `Promise`, for what an async method returns.
    Promise,
}

impl GlobalName {
    /// The name.
    pub fn as_str(self) -> &'static str
        ensures { result.now ≡ text_of_global self }
    {
        match self {
            GlobalName::Object => "Object",
            GlobalName::Function => "Function",
            GlobalName::Array => "Array",
            GlobalName::Boolean => "Boolean",
            GlobalName::String => "String",
            GlobalName::Number => "Number",
            GlobalName::BigInt => "BigInt",
            GlobalName::Symbol => "Symbol",
            GlobalName::Promise => "Promise",
        }
    }
}

/// What metadata writes for a type.
#[derive(Clone, Copy, PartialEq, Eq)]
pub enum MetadataType {
    /// A global name.
    Global(GlobalName),
    /// `void 0`.
    Undefined,
    /// What a dotted name of the source means, if it is there when the code runs: for `a.b` it is
    /// `typeof a === "undefined" || typeof a.b === "undefined" ? Object : a.b`.
    Reference {
        /// The dotted name.
        name: NodeId,
        /// The first name in it.
        root: NodeId,
    },
}
