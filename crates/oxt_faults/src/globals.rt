//! The global names that metadata has of its own, where they would mean a declaration.
ghost use Rattle.std.specs.Prelude.{◌≡◌, ◌<◌, length, option_map};
ghost use Rattle.oxt_faults.specs.Globals.{among_taken, constructor_taken, element_taken, global_taken, has_global, has_global_in, method_taken, no_globals, parameters_taken, taken_if, type_taken, typing_taken, with_globals};
ghost use Rattle.oxt_fields.specs.Rules.{rules_view};
ghost use Rattle.oxt_metadata.specs.Typings.{typing_view};
ghost use Rattle.oxt_tree.specs.View.{docs_in, node_doc};

use crate::free::is_taken_in;
use oxt_declares::class::parameters_of;
use oxt_fields::class::{constructor_of, elements_of};
use oxt_fields::rules::FieldRules;
use oxt_grammar::kind::Kind;
use oxt_metadata::typing::{
    Typing, design_of, parameter_typing, rest_of, returned_by, typed, typing_in,
};
use oxt_names::ids::ScopeId;
use oxt_options::metadata::{GlobalName, MetadataType};
use oxt_scoping::scoping::Scoping;
use oxt_tree::tree::{Node, Part};

/// Which of these names a declaration that emits code has, in a scope around.
#[derive(Clone, Copy)]
pub struct Globals {
    /// `Object`.
    pub object: bool,
    /// `Function`.
    pub function: bool,
    /// `Array`.
    pub array: bool,
    /// `Boolean`.
    pub boolean: bool,
    /// `String`.
    pub string: bool,
    /// `Number`.
    pub number: bool,
    /// `BigInt`.
    pub bigint: bool,
    /// `Symbol`.
    pub symbol: bool,
    /// `Promise`.
    pub promise: bool,
}

impl Globals {
    /// Whether a declaration has the name.
    pub fn has(self, name: GlobalName) -> bool
        ensures { result ≡ has_global self name }
    {
        match name {
            GlobalName::Object => self.object,
            GlobalName::Function => self.function,
            GlobalName::Array => self.array,
            GlobalName::Boolean => self.boolean,
            GlobalName::String => self.string,
            GlobalName::Number => self.number,
            GlobalName::BigInt => self.bigint,
            GlobalName::Symbol => self.symbol,
            GlobalName::Promise => self.promise,
        }
    }

    /// Whether a declaration has the name, or one in the scope.
    fn has_in(self, scoping: &Scoping, scope: ScopeId, name: GlobalName) -> bool
        requires { scope.0 < length scoping.now.scopes }
        ensures { result ≡ has_global_in scoping.now self scope name }
    {
        self.has(name) || is_taken_in(scoping, scope, name.as_str())
    }
}

/// No declaration has one.
pub fn no_globals() -> Globals
    ensures { result ≡ no_globals }
{
    Globals {
        object: false,
        function: false,
        array: false,
        boolean: false,
        string: false,
        number: false,
        bigint: false,
        symbol: false,
        promise: false,
    }
}

/// The same with those that declarations in the scope have.
pub fn with_globals(scoping: &Scoping, globals: Globals, scope: ScopeId) -> Globals
    requires { scope.0 < length scoping.now.scopes }
    ensures { result ≡ with_globals scoping.now globals scope }
{
    Globals {
        object: globals.has_in(scoping, scope, GlobalName::Object),
        function: globals.has_in(scoping, scope, GlobalName::Function),
        array: globals.has_in(scoping, scope, GlobalName::Array),
        boolean: globals.has_in(scoping, scope, GlobalName::Boolean),
        string: globals.has_in(scoping, scope, GlobalName::String),
        number: globals.has_in(scoping, scope, GlobalName::Number),
        bigint: globals.has_in(scoping, scope, GlobalName::BigInt),
        symbol: globals.has_in(scoping, scope, GlobalName::Symbol),
        promise: globals.has_in(scoping, scope, GlobalName::Promise),
    }
}

/// The first of the names in the metadata of the node that a declaration around has: of an element of a class, or of a class by
/// its constructor.
pub fn global_taken(rules: FieldRules, globals: Globals, node: &Node) -> Option<GlobalName>
    ensures { result ≡ global_taken (rules_view rules.entry) globals (node_doc node.now) }
{
    if !rules.emits_metadata {
        None
    } else if node.kind.is(Kind::ClassDeclaration) {
        constructor_taken(rules, globals, constructor_of(elements_of(node)))
    } else {
        element_taken(rules, globals, node)
    }
}

/// The first in the metadata of a class by that constructor.
fn constructor_taken(
    rules: FieldRules,
    globals: Globals,
    constructor: Option<&Node>,
) -> Option<GlobalName>
    ensures { result ≡ constructor_taken (rules_view rules.entry) globals (option_map (λ node. node_doc node.now) constructor.entry) }
{
    match constructor {
        Some(method) => parameters_taken(rules, globals, method),
        None => None,
    }
}

/// The first in the metadata of the element.
fn element_taken(rules: FieldRules, globals: Globals, element: &Node) -> Option<GlobalName>
    ensures { result ≡ element_taken (rules_view rules.entry) globals (node_doc element.now) }
{
    match typing_taken(rules, globals, design_of(element)) {
        Some(name) => Some(name),
        None if element.kind.is(Kind::MethodDefinition) => method_taken(rules, globals, element),
        None => None,
    }
}

/// The first in the types of the parameters of the method, and of what it returns.
fn method_taken(rules: FieldRules, globals: Globals, method: &Node) -> Option<GlobalName>
    ensures { result ≡ method_taken (rules_view rules.entry) globals (node_doc method.now) }
{
    match parameters_taken(rules, globals, method) {
        Some(name) => Some(name),
        None => typing_taken(rules, globals, returned_by(method)?),
    }
}

/// The first in the types of its parameters.
fn parameters_taken(rules: FieldRules, globals: Globals, method: &Node) -> Option<GlobalName>
    ensures { result ≡ parameters_taken (rules_view rules.entry) globals (node_doc method.now) }
{
    match among_taken(rules, globals, parameters_of(method)) {
        Some(name) => Some(name),
        None => typing_taken(rules, globals, typing_in(rest_of(method)?)),
    }
}

/// The first in the types of these parameters.
#[tactic(auto, using(crate::proofs::Frees::among_steps))]
fn among_taken(rules: FieldRules, globals: Globals, parameters: &[Part]) -> Option<GlobalName>
    ensures { result ≡ among_taken (rules_view rules.entry) globals (docs_in parameters.now) }
{
    for parameter in parameters {
        if let Some(name) = typing_taken(rules, globals, parameter_typing(parameter)) {
            return Some(name);
        }
    }
    None
}

/// The name in the type, if a declaration has it.
fn typing_taken(rules: FieldRules, globals: Globals, typing: Typing) -> Option<GlobalName>
    ensures { result ≡ typing_taken (rules_view rules.entry) globals (typing_view typing.entry) }
{
    type_taken(globals, typed(rules.plan, typing))
}

/// The name in what is written for a type, if a declaration has it: a name of the source stands beside `Object`.
fn type_taken(globals: Globals, written: MetadataType) -> Option<GlobalName>
    ensures { result ≡ type_taken globals written }
{
    match written {
        MetadataType::Global(name) => taken_if(globals, name),
        MetadataType::Undefined => None,
        MetadataType::Reference { .. } => taken_if(globals, GlobalName::Object),
    }
}

/// The name, if a declaration has it.
fn taken_if(globals: Globals, name: GlobalName) -> Option<GlobalName>
    ensures { result ≡ taken_if globals name }
{
    if globals.has(name) { Some(name) } else { None }
}
