//! What nodes are to scopes.

/// What nodes of a kind are to scopes.
#[derive(Clone, Copy)]
pub enum Role {
    /// Neither opens a scope nor declares a name.
    Plain,
    /// The program.
    Program,
    /// A block.
    Block,
    /// A `for` with three parts in its head.
    For,
    /// A `for` over the keys or the elements of what stands in its head.
    ForEach,
    /// A `switch`.
    Switch,
    /// A catch clause.
    Catch,
    /// A declaration of a function with a body.
    Function,
    /// A declaration of a function without one.
    Overload,
    /// A function expression.
    FunctionExpression,
    /// An arrow function.
    Arrow,
    /// A declaration of a class.
    Class,
    /// A class expression.
    ClassExpression,
    /// A static block.
    StaticBlock,
    /// A block of an enum.
    Enum,
    /// A block of a namespace.
    Namespace,
    /// An external module, or a declaration of global names.
    Module,
    /// What stands in such a one.
    ModuleBlock,
    /// A declaration of variables.
    Variables,
    /// A type alias.
    Alias,
    /// An interface.
    Interface,
    /// `import a = b`.
    ImportEquals,
    /// An import.
    Import,
    /// The export of a declaration.
    Export,
    /// An export of names that the program declares.
    ExportList,
    /// A name in such a list.
    Specifier,
    /// An export of what another module exports.
    Silent,
    /// A name that is used.
    Reference,
    /// A type, or what holds types alone.
    Type,
    /// An assignment.
    Assignment,
    /// `a++`, and the like.
    Update,
    /// What is assigned where it is assigned itself: a pattern, a wrapper or parentheses.
    Target,
    /// An element of such a pattern, with a key or a default.
    TargetElement,
    /// A method of a class.
    Method,
    /// A parameter.
    Parameter,
    /// A statement, or the like, whose declarations belong to the scope around it.
    Passing,
}
