//! Names that lowered code has of its own: `module`, `require`, `babelHelpers` and the global names of metadata, which are free,
//! and `value`.
ghost use Rattle.std.specs.Prelude.{◌≡◌, ◌<◌, length, option_map};
ghost use Rattle.oxt_faults.specs.Captured.{Capture, emits_at};
ghost use Rattle.oxt_faults.specs.Free.{call_word, free, free_around, free_at, free_in, free_inside, free_view, globals_around, has_call, is_static_accessor, is_value_class, made_word, nothing_taken, outside_class, seen_from, sought, text_of_free, word_at, word_of_call};
ghost use Rattle.oxt_fields.specs.Rules.{rules_view};
ghost use Rattle.oxt_grammar.specs.Field.{row_view};
ghost use Rattle.oxt_options.specs.Facts.{is_in};
ghost use Rattle.oxt_tree.specs.View.{docs_in, node_doc};

use crate::around::is_class;
use crate::globals::{Globals, global_taken, no_globals, with_globals};
use crate::outside::emits;
use oxt_declares::calls::{is_called, is_decorated};
use oxt_declares::dropped::{inside_dropped, is_dropped};
use oxt_declares::imports::is_required;
use oxt_fields::rules::FieldRules;
use oxt_grammar::field::Field;
use oxt_grammar::holds::Row;
use oxt_grammar::kind::Kind;
use oxt_names::ids::{NodeId, ScopeId};
use oxt_options::metadata::GlobalName;
use oxt_options::nodes::NodeList;
use oxt_scoping::scoping::Scoping;
use oxt_search::first::first_in;
use oxt_search::search::{Inside, Search, Visit};
use oxt_tree::tree::{Node, Part};

/// A name that lowered code has of its own.
#[derive(Clone, Copy)]
pub enum FreeWord {
    /// `module`, for `export = e`.
    Module,
    /// `require`, for `import a = require("m")`.
    Require,
    /// `babelHelpers`, for the call of a decorated element of a class, or of a decorated class.
    BabelHelpers,
    /// A global name, for the metadata of either.
    Global(GlobalName),
    /// `value`, for what is set to a static `accessor`.
    Value,
}

impl FreeWord {
    /// The name.
    pub fn as_str(self) -> &'static str
        ensures { result.now ≡ text_of_free self }
    {
        match self {
            FreeWord::Module => "module",
            FreeWord::Require => "require",
            FreeWord::BabelHelpers => "babelHelpers",
            FreeWord::Global(name) => name.as_str(),
            FreeWord::Value => "value",
        }
    }
}

/// Such a name that would mean a declaration, or would be meant in place of one.
#[derive(Clone, Copy)]
pub struct FoundFree {
    /// The node that it is made for.
    pub node: NodeId,
    /// The name.
    pub word: FreeWord,
}

/// Which of these names a declaration that emits code has, in a scope around, and what an element has to know of the class
/// around it.
#[derive(Clone, Copy)]
pub struct Taken {
    /// `module`.
    pub module: bool,
    /// `require`.
    pub require: bool,
    /// `babelHelpers`.
    pub helpers: bool,
    /// The global names of metadata, where that is emitted.
    pub globals: Globals,
    /// The node is an element of a class declaration, or the body of one, where decorators have their older meaning.
    pub is_called: bool,
    /// The node is an element of a class of the name `value`, or the body of one, where they have that.
    pub is_value: bool,
}

/// The first node outside erased code for which a name is made that would mean a declaration. An `export =`, an `import =` of
/// a module that is kept and, where decorators have their older meaning, a decorated element of a class declaration and a
/// decorated class have free names, and these are in danger where a declaration around that emits code has them.
/// A static `accessor` has the name `value`, which the class may have that is written there.
pub fn first_free(
    rules: FieldRules,
    program: &Node,
    scoping: &Scoping,
    kept: &NodeList,
) -> Option<FoundFree>
    ensures { option_map free_view result ≡ free (rules_view rules.entry) scoping.now (is_in kept.now) (node_doc program.now) }
{
    let frees = Frees {
        rules,
        scoping,
        kept,
    };
    first_in(&frees, program, nothing_taken())
}

/// No declaration has one.
fn nothing_taken() -> Taken
    ensures { result ≡ nothing_taken }
{
    Taken {
        module: false,
        require: false,
        helpers: false,
        globals: no_globals(),
        is_called: false,
        is_value: false,
    }
}

/// The search for such nodes.
#[derive(Clone, Copy)]
struct Frees<'a> {
    /// Whether decorators have their older meaning, and what metadata writes.
    rules: FieldRules<'a>,
    /// What scopes declare.
    scoping: &'a Scoping,
    /// What is kept.
    kept: &'a NodeList,
}

impl<'a> Search for Frees<'a> {
    type State = Taken;

    type Found = FoundFree;

    ghost Seen = { Capture };

    ghost view = { free_view };

    ghost sought = { λ frees. sought (rules_view frees.rules) frees.scoping.now (is_in frees.kept.now) };

    fn visit(&self, node: &Node, taken: Taken) -> Visit<FoundFree, Taken> {
        Visit {
            found: free_at(self.rules, self.kept, taken, node),
            inside: free_inside(self.rules, self.scoping, taken, node),
        }
    }

    fn in_field(&self, taken: Taken, _kind: Kind, row: &Row) -> Option<Taken> {
        Some(free_in(taken, row))
    }
}

/// How the search goes on inside a node: what is in a class is told apart by its fields.
fn free_inside(rules: FieldRules, scoping: &Scoping, taken: Taken, node: &Node) -> Inside<Taken>
    ensures { result
        ≡ free_inside (rules_view rules.entry) scoping.now taken node.now.kind node.now.id.0 (docs_in node.now.parts.items) }
{
    if is_dropped(node) {
        return inside_dropped(rules.legacy, node, outside_class(taken));
    }
    let around = taken_around(rules, scoping, taken, node);
    if node.kind.is(Kind::ClassBody) {
        Inside::Alike(around)
    } else if rules.legacy && is_class(node.kind) {
        Inside::ByField(seen_from(around, node))
    } else {
        Inside::Alike(outside_class(around))
    }
}

/// What is known in a field of a class: its elements alone have to know of it.
fn free_in(taken: Taken, row: &Row) -> Taken
    ensures { result ≡ free_in taken (row_view row.now) }
{
    if row.is(Field::Body) {
        taken
    } else {
        outside_class(taken)
    }
}

/// The same, of no element of a class.
fn outside_class(taken: Taken) -> Taken
    ensures { result ≡ outside_class taken }
{
    Taken {
        module: taken.module,
        require: taken.require,
        helpers: taken.helpers,
        globals: taken.globals,
        is_called: false,
        is_value: false,
    }
}

/// The same, of an element of the class.
fn seen_from(taken: Taken, class: &Node) -> Taken
    ensures { result ≡ seen_from taken class.now.kind (docs_in class.now.parts.items) }
{
    Taken {
        module: taken.module,
        require: taken.require,
        helpers: taken.helpers,
        globals: taken.globals,
        is_called: class.kind.is(Kind::ClassDeclaration),
        is_value: is_value_class(class),
    }
}

/// Whether the name of the class is `value`.
fn is_value_class(class: &Node) -> bool
    ensures { result ≡ is_value_class class.now.kind (docs_in class.now.parts.items) }
{
    match class.field(Field::Id) {
        Some(Part::Node(name)) => name.holds_text(Field::Name, "value"),
        _ => false,
    }
}

/// The node, if a name is made for it that is in danger.
fn free_at(rules: FieldRules, kept: &NodeList, taken: Taken, node: &Node) -> Option<FoundFree>
    ensures { option_map free_view result
        ≡ free_at (rules_view rules.entry) (is_in kept.now) taken node.now.kind node.now.id.0 (docs_in node.now.parts.items) }
{
    let word = word_at(rules, kept, taken, node)?;
    Some(FoundFree {
        node: node.id,
        word,
    })
}

/// The name that is made for the node, if it is in danger.
fn word_at(rules: FieldRules, kept: &NodeList, taken: Taken, node: &Node) -> Option<FreeWord>
    ensures { result
        ≡ word_at (rules_view rules.entry) (is_in kept.now) taken node.now.kind node.now.id.0 (docs_in node.now.parts.items) }
{
    match call_word(rules, taken, node) {
        Some(word) => Some(word),
        None if is_dropped(node) => None,
        None => made_word(kept, taken, node),
    }
}

/// The name that is made for the call of the node, if it has one, and that is in danger.
fn call_word(rules: FieldRules, taken: Taken, node: &Node) -> Option<FreeWord>
    ensures { result ≡ call_word (rules_view rules.entry) taken node.now.kind (docs_in node.now.parts.items) }
{
    if has_call(rules.legacy, taken, node) {
        word_of_call(rules, taken, node)
    } else {
        None
    }
}

/// The same, where it has a call: `babelHelpers`, or a global name of its metadata.
fn word_of_call(rules: FieldRules, taken: Taken, node: &Node) -> Option<FreeWord>
    ensures { result ≡ word_of_call (rules_view rules.entry) taken node.now.kind (docs_in node.now.parts.items) }
{
    if taken.helpers {
        Some(FreeWord::BabelHelpers)
    } else {
        Some(FreeWord::Global(global_taken(rules, taken.globals, node)?))
    }
}

/// Whether a call stands behind the class for the node: it is a decorated element of a class declaration, or a decorated class
/// that is not erased.
fn has_call(legacy: bool, taken: Taken, node: &Node) -> bool
    ensures { result ≡ has_call legacy taken node.now.kind (docs_in node.now.parts.items) }
{
    legacy && ((taken.is_called && is_called(node)) || (is_decorated(node) && !is_dropped(node)))
}

/// The same of what is not erased, but for the name of such a call.
fn made_word(kept: &NodeList, taken: Taken, node: &Node) -> Option<FreeWord>
    ensures { result
        ≡ made_word (is_in kept.now) taken node.now.kind node.now.id.0 (docs_in node.now.parts.items) }
{
    if taken.module && node.kind.is(Kind::TSExportAssignment) {
        Some(FreeWord::Module)
    } else if taken.require && (is_required(node) && kept.has(node.id)) {
        Some(FreeWord::Require)
    } else if taken.is_value && is_static_accessor(node) {
        Some(FreeWord::Value)
    } else {
        None
    }
}

/// Whether the node is a static `accessor`.
fn is_static_accessor(node: &Node) -> bool
    ensures { result ≡ is_static_accessor node.now.kind (docs_in node.now.parts.items) }
{
    node.kind.is(Kind::AccessorProperty) && node.flag(Field::Static)
}

/// Which of the names are taken inside the node, where these are around it.
fn taken_around(rules: FieldRules, scoping: &Scoping, taken: Taken, node: &Node) -> Taken
    ensures { result ≡ free_around (rules_view rules.entry) scoping.now taken node.now.id.0 }
{
    match scoping.scope_of(node.id) {
        Some(scope) => Taken {
            module: taken.module || is_taken_in(scoping, scope, "module"),
            require: taken.require || is_taken_in(scoping, scope, "require"),
            helpers: taken.helpers || is_taken_in(scoping, scope, "babelHelpers"),
            globals: globals_around(rules, scoping, taken.globals, scope),
            is_called: taken.is_called,
            is_value: taken.is_value,
        },
        None => taken,
    }
}

/// Which of the global names of metadata are taken inside the scope, where these are around it, if metadata is emitted.
fn globals_around(rules: FieldRules, scoping: &Scoping, globals: Globals, scope: ScopeId) -> Globals
    requires { scope.0 < length scoping.now.scopes }
    ensures { result ≡ globals_around (rules_view rules.entry) scoping.now globals scope }
{
    if rules.emits_metadata {
        with_globals(scoping, globals, scope)
    } else {
        globals
    }
}

/// Whether a declaration of that name in the scope emits code.
#[tactic(auto, using(crate::proofs::Symbols::taken_steps))]
pub fn is_taken_in(scoping: &Scoping, scope: ScopeId, name: &str) -> bool
    requires { scope.0 < length scoping.now.scopes }
    ensures { result ≡ emits_at scoping.now name.now scope }
{
    match scoping.get_binding(scope, name) {
        Some(symbol) => emits(scoping.symbol_redeclarations(symbol)),
        None => false,
    }
}
