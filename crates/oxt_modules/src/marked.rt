//! The names in `import a = B.C` that are no uses of what they mean, since nothing uses `a`.
ghost use Rattle.std.specs.Prelude.{◌≡◌, ◌≤◌, ◌<◌, Some, ℕ, IfOk, IfSome, OnOk, length, option_map};
ghost use Rattle.oxt_modules.specs.Marked.{IsPassed, adds, first_use, is_unused, is_use, marked, marked_by, marked_in, name_in, name_of, names, used_beside};
ghost use Rattle.oxt_modules.specs.Names.{is_used};
ghost use Rattle.oxt_options.specs.Options.{typescript_view};
ghost use Rattle.oxt_tree.specs.View.{doc_or_nil, docs_in, node_doc, part_doc};

use crate::symbols::is_value_use;
use oxt_declares::imports::is_alias;
use oxt_grammar::field::Field;
use oxt_grammar::holds::Row;
use oxt_grammar::kind::Kind;
use oxt_names::ids::{NodeId, OutOfMemory, ReferenceId, SymbolId};
use oxt_options::TypeScriptOptions;
use oxt_options::nodes::NodeList;
use oxt_scoping::scoping::Scoping;
use oxt_search::first::first_in;
use oxt_search::search::{Inside, Search, Visit};
use oxt_tree::tree::{Node, Part};
use std::alloc::Global;
use std::collections::HashMap;

/// How many of the references to a symbol, from the first on, were found to be no value uses beside the marked names, by
/// the numbers of the symbols. More marks change none of them.
type Passed = HashMap<u64, usize>;

/// The names that are no value uses: the statements of the program are looked at from the last to the first, and an
/// `import =` without `export` that no value use beside the names marked before means marks the first name of its right
/// side. None is marked where unused imports are kept.
///
/// # Errors
///
/// Nothing but want of memory.
pub fn marked_names(
    alloc: Global,
    program: &Node,
    scoping: &Scoping,
    options: &TypeScriptOptions,
) -> Result<NodeList, OutOfMemory>
    ensures { IfOk result (λ names. names
        ≡ marked scoping.now (node_doc program.now) (typescript_view options.now)) }
{
    if options.only_remove_type_imports {
        Ok(NodeList::new(alloc))
    } else {
        mark_statements(alloc, scoping, program.list(Field::Body))
    }
}

/// The same of the statements.
#[tactic(auto, using(crate::proofs::Marks::statement_steps))]
fn mark_statements(
    alloc: Global,
    scoping: &Scoping,
    statements: &[Part],
) -> Result<NodeList, OutOfMemory>
    ensures { IfOk result (λ names. names ≡ marked_in scoping.now (docs_in statements.now)) }
{
    let mut marked = NodeList::new(alloc);
    let mut passed = HashMap::new(alloc);
    for behind in 0..statements.len() {
        let statement = &statements[statements.len() - 1 - behind];
        marked = mark_part(scoping, &mut passed, marked, statement)?;
    }
    Ok(marked)
}

/// The marked names with that of the statement, if it adds one.
fn mark_part(
    scoping: &Scoping,
    passed: &mut Passed,
    marked: NodeList,
    statement: &Part,
) -> Result<NodeList, OutOfMemory>
    requires { IsPassed scoping.now marked passed.old.entries }
    ensures names { IfOk result (λ names. names ≡ marked_by scoping.now marked (part_doc statement.now)) }
    ensures passed { IfOk result (λ names. IsPassed scoping.now names passed.new.entries) }
{
    match statement {
        Part::Node(node) => mark_statement(scoping, passed, marked, node),
        _ => Ok(marked),
    }
}

/// The same of a statement that is a node.
#[tactic(auto, using(crate::proofs::Marks::more_passed))]
fn mark_statement(
    scoping: &Scoping,
    passed: &mut Passed,
    marked: NodeList,
    node: &Node,
) -> Result<NodeList, OutOfMemory>
    requires { IsPassed scoping.now marked passed.old.entries }
    ensures names { IfOk result (λ names. names ≡ marked_by scoping.now marked (node_doc node.now)) }
    ensures passed { IfOk result (λ names. IsPassed scoping.now names passed.new.entries) }
{
    if is_alias(node) {
        let is_unused = is_unused(scoping, passed, &marked, node.field(Field::Id))?;
        mark_name(
            marked,
            is_unused,
            first_name(node.field(Field::ModuleReference)),
        )
    } else {
        Ok(marked)
    }
}

/// The marked names with that one, if it is there and nothing uses what its declaration declares.
fn mark_name(
    marked: NodeList,
    is_unused: bool,
    name: Option<NodeId>,
) -> Result<NodeList, OutOfMemory>
    ensures { IfOk result (λ names. names ≡ adds marked is_unused (option_map (λ name. name.0) name)) }
{
    match name {
        Some(name) => {
            if is_unused {
                marked.with(name)
            } else {
                Ok(marked)
            }
        }
        None => Ok(marked),
    }
}

/// Whether no value use beside the marked names means what the node there declares.
fn is_unused(
    scoping: &Scoping,
    passed: &mut Passed,
    marked: &NodeList,
    name: Option<&Part>,
) -> Result<bool, OutOfMemory>
    requires { IsPassed scoping.now marked.now passed.old.entries }
    ensures unused { IfOk result (λ unused. unused ≡ is_unused scoping.now marked.now (doc_or_nil name.entry)) }
    ensures passed { OnOk result (IsPassed scoping.now marked.now passed.new.entries) }
{
    match name {
        Some(Part::Node(node)) => {
            let is_used = is_used(scoping, passed, marked, scoping.symbol_of(node.id))?;
            Ok(!is_used)
        }
        _ => Ok(false),
    }
}

/// Whether a value use beside the marked names means the symbol, if there is one.
fn is_used(
    scoping: &Scoping,
    passed: &mut Passed,
    marked: &NodeList,
    symbol: Option<SymbolId>,
) -> Result<bool, OutOfMemory>
    requires known { IfSome symbol (λ symbol. symbol.0 < length scoping.now.symbols) }
    requires passed { IsPassed scoping.now marked.now passed.old.entries }
    ensures used { IfOk result (λ used. used ≡ used_beside scoping.now marked.now symbol) }
    ensures passed { OnOk result (IsPassed scoping.now marked.now passed.new.entries) }
{
    match symbol {
        Some(symbol) => is_symbol_used(scoping, passed, marked, symbol),
        None => Ok(false),
    }
}

/// Whether a value use beside the marked names means the symbol. Its references are looked at from where that ended
/// before, so that each is passed once.
#[tactic(auto, using(crate::proofs::Marks::use_steps))]
fn is_symbol_used(
    scoping: &Scoping,
    passed: &mut Passed,
    marked: &NodeList,
    symbol: SymbolId,
) -> Result<bool, OutOfMemory>
    requires known { symbol.0 < length scoping.now.symbols }
    requires passed { IsPassed scoping.now marked.now passed.old.entries }
    ensures used { IfOk result (λ used. used ≡ used_beside scoping.now marked.now (Some symbol)) }
    ensures passed { OnOk result (IsPassed scoping.now marked.now passed.new.entries) }
{
    let references = scoping.get_resolved_references(symbol);
    let from = passed.get(&symbol.0).copied().unwrap_or(0);
    let first = first_use(scoping, marked, references, from);
    passed.insert(symbol.0, first)?;
    Ok(first < references.len())
}

/// The place of the first of the references that is a value use beside the marked names, and their number where none is;
/// none of them before `from` is one.
#[tactic(auto, using(crate::proofs::Marks::first_steps))]
fn first_use(scoping: &Scoping, marked: &NodeList, references: &[ReferenceId], from: usize) -> usize
    requires { from ≤ first_use (is_use scoping.now marked.now) references.now }
    ensures { result ≡ first_use (is_use scoping.now marked.now) references.now }
{
    for place in from..references.len() {
        if is_value_use(scoping, marked, references[place]) {
            return place;
        }
    }
    references.len()
}

/// The first name in that right side, if there is one: none stands in `require("m")`.
fn first_name(right: Option<&Part>) -> Option<NodeId>
    ensures { option_map (λ name. name.0) result ≡ name_in (doc_or_nil right.entry) }
{
    match right {
        Some(Part::Node(node)) => first_in(&Names, node, ()),
        _ => None,
    }
}

/// The search for names.
#[derive(Clone, Copy)]
struct Names;

impl Search for Names {
    type State = ();

    type Found = NodeId;

    ghost Seen = { ℕ };

    ghost view = { λ name. name.0 };

    ghost sought = { λ _. names };

    fn visit(&self, node: &Node, _state: ()) -> Visit<NodeId, ()> {
        Visit {
            found: name_of(node),
            inside: Inside::Alike(()),
        }
    }

    fn in_field(&self, _state: (), _kind: Kind, _row: &Row) -> Option<()> {
        Some(())
    }
}

/// The node, if it is a bare name.
fn name_of(node: &Node) -> Option<NodeId>
    ensures { option_map (λ name. name.0) result ≡ name_of node.now.kind node.now.id.0 }
{
    if node.kind.is(Kind::IdentifierReference) {
        Some(node.id)
    } else {
        None
    }
}
