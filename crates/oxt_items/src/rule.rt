//! The rules by which nodes are read.

use oxt_facts::item::{Binding, ItemKind};

/// How nodes of a kind are read.
#[derive(Clone, Copy)]
pub enum Rule {
    /// The general rule: the node's start, what its fields do, in order, and its end.
    Plain,
    /// What its fields do, in order.
    Bare,
    /// The same, with the first line for the system in front.
    Program,
    /// The same: the parameters of a function.
    Parameters,
    /// What stands inside.
    Transparent,
    /// Nothing.
    Erased,
    /// The use of a name.
    Name,
    /// One item, with the node's text.
    Spelled(ItemKind),
    /// The same, which may be the text of a key.
    Literal(ItemKind),
    /// The name of a property.
    PropertyName,
    /// A private name.
    PrivateName,
    /// `this`.
    This,
    /// A number.
    Number,
    /// `o.x`.
    StaticMember,
    /// `o[e]`.
    ComputedMember,
    /// `o.#x`.
    PrivateMember,
    /// An assignment.
    Assignment,
    /// A statement that drops a value.
    Statement,
    /// `a, b`.
    Sequence,
    /// An arrow function.
    Arrow,
    /// A call.
    Call,
    /// An object.
    Object,
    /// `a || b` and its like.
    Logical,
    /// A declaration of variables.
    Variables,
    /// One of its declarators.
    Declarator,
    /// A declaration of a function.
    FunctionDeclaration,
    /// A function expression, also that of a method.
    FunctionExpression,
    /// A parameter.
    Parameter,
    /// Another node whose pattern binds names as that.
    Binds(Binding),
    /// A name that is bound.
    Identifier,
    /// A pattern, or a node of one.
    Pattern,
    /// A declaration of a class.
    ClassDeclaration,
    /// A class expression.
    ClassExpression,
    /// A method, accessor function or constructor of a class.
    Method,
    /// A field of a class, or, where that is set, an accessor.
    ClassField(bool),
    /// A static block of a class.
    StaticBlock,
    /// A block of an enum.
    EnumBlock,
    /// A choice between statements.
    If,
    /// A loop.
    Loop,
    /// An import.
    Import,
    /// An export of a declaration.
    Export,
    /// An export of a list of names.
    ExportList,
    /// Another export, or a part of one, that may be of types alone.
    ExportPart,
    /// The export of a default.
    ExportDefault,
    /// `export = e`.
    ExportAssignment,
    /// `import a = ..`.
    ImportEquals,
    /// `require("m")`, as what such an import imports.
    Required,
    /// `a.b`, as the same.
    Qualified,
}
