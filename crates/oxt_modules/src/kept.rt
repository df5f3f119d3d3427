//! The specifiers, and the declarations `import a = ..`, that are kept.
ghost use Rattle.std.specs.Prelude.{◌≡◌, ◌++◌, IfOk, OnOk, codes};
ghost use Rattle.oxt_metadata.specs.Symbols.{is_in};
ghost use Rattle.oxt_modules.specs.Kept.{exported_name, is_alias_kept, is_kept, is_local_kept, is_named_there, is_reference_kept, is_spelling_kept, is_text_kept, kept_aliases, kept_beside, kept_by, kept_default, kept_if, kept_in_list, kept_in_statement, kept_in_statements, kept_specifier, place_of, uses_view};
ghost use Rattle.oxt_modules.specs.Jsx.{is_jsx_text};
ghost use Rattle.oxt_modules.specs.Symbols.{IsAnswered, table_of};
ghost use Rattle.oxt_options.specs.Options.{typescript_view};
ghost use Rattle.oxt_options.specs.Lists.{numbers_in};
ghost use Rattle.oxt_tree.specs.Fields.{named};
ghost use Rattle.oxt_tree.specs.View.{doc_or_nil, docs_in, node_doc, part_doc};

use crate::alias::{Alias, aliases_of};
use crate::jsx::{JsxUse, is_jsx_name};
use crate::marked::marked_names;
use crate::names::{is_declared_again, is_name_kept, is_used};
use crate::symbols::Symbols;
use oxt_grammar::field::Field;
use oxt_grammar::kind::Kind;
use oxt_metadata::symbols::NamedSymbols;
use oxt_names::ids::{NodeId, OutOfMemory};
use oxt_options::TypeScriptOptions;
use oxt_options::nodes::NodeList;
use oxt_scoping::scoping::Scoping;
use oxt_tree::tree::{Node, Part};
use std::alloc::Global;

/// Where a list of specifiers stands.
#[derive(Clone, Copy)]
pub enum Place {
    /// In an import.
    Import,
    /// In an export of names of the program.
    Export,
    /// In an export of another module's names.
    ExportFrom,
}

/// How a program uses names beside its references.
#[derive(Clone, Copy)]
struct OtherUses<'a> {
    /// What it has of JSX.
    jsx: JsxUse,
    /// The symbols that metadata names.
    named: &'a NamedSymbols,
}

/// The numbers of the import and export specifiers that are kept, in the order of the text, with those of the names that
/// `export default` exports and keeps, and behind them those of the declarations `import a = ..` that are kept. `scoping`
/// is the table of the program, `named` has the symbols that metadata names as values, and `jsx` is what the program has of JSX.
/// What metadata names comes too late to keep an `import a = ..`.
///
/// # Errors
///
/// Nothing but want of memory.
pub fn kept_nodes(
    alloc: Global,
    program: &Node,
    scoping: &Scoping,
    named: &NamedSymbols,
    jsx: JsxUse,
    options: &TypeScriptOptions,
) -> Result<NodeList, OutOfMemory>
    ensures { IfOk result (λ nodes. nodes
        ≡ kept_beside jsx scoping.now (is_in named.now) (node_doc program.now) (typescript_view options.now)) }
{
    let marked = marked_names(alloc, program, scoping, options)?;
    let symbols = Symbols::of(alloc, scoping, marked)?;
    let nodes = kept_by(alloc, program, &symbols, OtherUses { jsx, named }, options)?;
    NodeList::of(alloc, nodes)
}

/// The same, by what is asked of the symbols.
fn kept_by(
    alloc: Global,
    program: &Node,
    symbols: &Symbols,
    uses: OtherUses,
    options: &TypeScriptOptions,
) -> Result<Vec<NodeId>, OutOfMemory>
    requires { IsAnswered symbols.now }
    ensures { IfOk result (λ nodes. numbers_in nodes.items
        ≡ kept_by (table_of symbols.now) (uses_view uses.entry) (node_doc program.now) (typescript_view options.now)) }
{
    let aliases = aliases_of(alloc, program)?;
    let mut out = Vec::new(alloc);
    push_statements(symbols, options, uses, program.list(Field::Body), &mut out)?;
    push_aliases(symbols, options, aliases.as_slice(), &mut out)?;
    Ok(out)
}

/// Appends those of the declarations `import a = ..` that are kept.
#[tactic(auto, using(crate::proofs::Loops::alias_steps))]
fn push_aliases(
    symbols: &Symbols,
    options: &TypeScriptOptions,
    aliases: &[Alias],
    out: &mut Vec<NodeId>,
) -> Result<(), OutOfMemory>
    requires { IsAnswered symbols.now }
    ensures { OnOk result (numbers_in out.new.items ≡ numbers_in out.old.items
        ++ kept_aliases (table_of symbols.now) (typescript_view options.now) aliases.now) }
{
    for alias in aliases {
        push_if(is_alias_kept(symbols, options, *alias), alias.node, out)?;
    }
    Ok(())
}

/// Whether the declaration is kept.
fn is_alias_kept(symbols: &Symbols, options: &TypeScriptOptions, alias: Alias) -> bool
    requires { IsAnswered symbols.now }
    ensures { result ≡ is_alias_kept (table_of symbols.now) (typescript_view options.now) alias }
{
    alias.is_exported || (options.only_remove_type_imports || is_used(symbols, alias.name))
}

/// Appends what is kept of the statements.
#[tactic(auto, using(crate::proofs::Loops::statement_steps))]
fn push_statements(
    symbols: &Symbols,
    options: &TypeScriptOptions,
    uses: OtherUses,
    parts: &[Part],
    out: &mut Vec<NodeId>,
) -> Result<(), OutOfMemory>
    requires { IsAnswered symbols.now }
    ensures { OnOk result (numbers_in out.new.items ≡ numbers_in out.old.items
        ++ kept_in_statements (table_of symbols.now) (typescript_view options.now) (uses_view uses.entry) (docs_in parts.now)) }
{
    for part in parts {
        push_part(symbols, options, uses, part, out)?;
    }
    Ok(())
}

/// Appends what is kept of the statement.
fn push_part(
    symbols: &Symbols,
    options: &TypeScriptOptions,
    uses: OtherUses,
    part: &Part,
    out: &mut Vec<NodeId>,
) -> Result<(), OutOfMemory>
    requires { IsAnswered symbols.now }
    ensures { OnOk result (numbers_in out.new.items ≡ numbers_in out.old.items
        ++ kept_in_statement (table_of symbols.now) (typescript_view options.now) (uses_view uses.entry) (part_doc part.now)) }
{
    match part {
        Part::Node(node) => push_statement(symbols, options, uses, node, out),
        _ => Ok(()),
    }
}

/// Appends what is kept of the statement.
fn push_statement(
    symbols: &Symbols,
    options: &TypeScriptOptions,
    uses: OtherUses,
    node: &Node,
    out: &mut Vec<NodeId>,
) -> Result<(), OutOfMemory>
    requires { IsAnswered symbols.now }
    ensures { OnOk result (numbers_in out.new.items ≡ numbers_in out.old.items
        ++ kept_in_statement (table_of symbols.now) (typescript_view options.now) (uses_view uses.entry) (node_doc node.now)) }
{
    if node.is_type_only() {
        return Ok(());
    }
    match place_of(node.kind) {
        Some(place) => {
            let parts = node.list(Field::Specifiers);
            push_specifiers(symbols, options, uses, place, parts, out)
        }
        None => push_default(symbols, node, out),
    }
}

/// Where the specifiers of nodes of the kind stand; none where it has none.
fn place_of(kind: Kind) -> Option<Place>
    ensures { result ≡ place_of kind }
{
    if kind.is(Kind::ImportDeclaration) {
        Some(Place::Import)
    } else if kind.is(Kind::ExportNamedDeclaration) {
        Some(Place::Export)
    } else if kind.is(Kind::ExportFromDeclaration) {
        Some(Place::ExportFrom)
    } else {
        None
    }
}

/// Appends the specifiers that are kept.
#[tactic(auto, using(crate::proofs::Loops::specifier_steps))]
fn push_specifiers(
    symbols: &Symbols,
    options: &TypeScriptOptions,
    uses: OtherUses,
    place: Place,
    parts: &[Part],
    out: &mut Vec<NodeId>,
) -> Result<(), OutOfMemory>
    requires { IsAnswered symbols.now }
    ensures { OnOk result (numbers_in out.new.items ≡ numbers_in out.old.items
        ++ kept_in_list (table_of symbols.now) (typescript_view options.now) (uses_view uses.entry) place (docs_in parts.now)) }
{
    for part in parts {
        push_specifier(symbols, options, uses, place, part, out)?;
    }
    Ok(())
}

/// Appends the specifier if it is kept.
fn push_specifier(
    symbols: &Symbols,
    options: &TypeScriptOptions,
    uses: OtherUses,
    place: Place,
    part: &Part,
    out: &mut Vec<NodeId>,
) -> Result<(), OutOfMemory>
    requires { IsAnswered symbols.now }
    ensures { OnOk result (numbers_in out.new.items ≡ numbers_in out.old.items
        ++ kept_specifier (table_of symbols.now) (typescript_view options.now) (uses_view uses.entry) place (part_doc part.now)) }
{
    match part {
        Part::Node(node) => {
            let is_kept = !node.is_type_only() && is_kept(symbols, options, uses, place, node);
            push_if(is_kept, node.id, out)
        }
        _ => Ok(()),
    }
}

/// Appends the number where that is so.
#[tactic(auto, using(oxt_options::proofs::Known::one_more))]
fn push_if(is_kept: bool, id: NodeId, out: &mut Vec<NodeId>) -> Result<(), OutOfMemory>
    ensures { OnOk result (numbers_in out.new.items
        ≡ numbers_in out.old.items ++ kept_if is_kept id.0) }
{
    if is_kept {
        out.push(id)?;
    }
    Ok(())
}

/// Whether a specifier there, which does not say that it is of a type, is kept.
fn is_kept(
    symbols: &Symbols,
    options: &TypeScriptOptions,
    uses: OtherUses,
    place: Place,
    node: &Node,
) -> bool
    requires { IsAnswered symbols.now }
    ensures { result ≡ is_kept (table_of symbols.now) (typescript_view options.now) (uses_view uses.entry) place
        (named (codes "local") node.now.kind (docs_in node.now.parts.items)) }
{
    match place {
        Place::Import => {
            options.only_remove_type_imports
                || is_local_kept(symbols, options, uses, node.field(Field::Local))
        }
        Place::Export => is_spelling_kept(symbols, node.field(Field::Local)),
        Place::ExportFrom => true,
    }
}

/// Whether an import that binds that name is kept, if unused imports are not.
fn is_local_kept(
    symbols: &Symbols,
    options: &TypeScriptOptions,
    uses: OtherUses,
    local: Option<&Part>,
) -> bool
    requires { IsAnswered symbols.now }
    ensures { result ≡ is_local_kept (table_of symbols.now) (typescript_view options.now) (uses_view uses.entry) (doc_or_nil local.entry) }
{
    match local {
        Some(Part::Node(node)) => is_binding_kept(symbols, options, uses, node),
        _ => false,
    }
}

/// Whether an import that binds the name of that node is kept, if unused imports are not.
fn is_binding_kept(
    symbols: &Symbols,
    options: &TypeScriptOptions,
    uses: OtherUses,
    node: &Node,
) -> bool
    requires { IsAnswered symbols.now }
    ensures { result ≡ is_local_kept (table_of symbols.now) (typescript_view options.now) (uses_view uses.entry) (node_doc node.now) }
{
    !is_declared_again(symbols, node.id)
        && (is_used(symbols, node.id)
            || (is_named_there(symbols, uses, node.id) || is_jsx_binding(options, uses.jsx, node)))
}

/// Whether metadata names the symbol that the node declares.
fn is_named_there(symbols: &Symbols, uses: OtherUses, node: NodeId) -> bool
    ensures { result ≡ is_named_there (table_of symbols.now) (uses_view uses.entry) node.0 }
{
    match symbols.scoping.symbol_of(node) {
        Some(symbol) => uses.named.has(symbol),
        None => false,
    }
}

/// Whether elements or fragments use the name of that node.
fn is_jsx_binding(options: &TypeScriptOptions, jsx: JsxUse, node: &Node) -> bool
    ensures { result ≡ is_jsx_text (typescript_view options.now) jsx
        (named (codes "name") node.now.kind (docs_in node.now.parts.items)) }
{
    match node.field(Field::Name) {
        Some(part) => is_jsx_part(options, jsx, part),
        None => false,
    }
}

/// Whether they use the text.
fn is_jsx_part(options: &TypeScriptOptions, jsx: JsxUse, part: &Part) -> bool
    ensures { result ≡ is_jsx_text (typescript_view options.now) jsx (part_doc part.now) }
{
    match part {
        Part::Text(name) => is_jsx_name(options, jsx, name.as_str()),
        Part::Word(word) => is_jsx_name(options, jsx, word.text()),
        _ => false,
    }
}

/// Whether an export of the name that is the node there is kept.
fn is_spelling_kept(symbols: &Symbols, local: Option<&Part>) -> bool
    requires { IsAnswered symbols.now }
    ensures { result ≡ is_spelling_kept (table_of symbols.now) (doc_or_nil local.entry) }
{
    match local {
        Some(Part::Node(node)) => is_text_kept(symbols, node.field(Field::Name)),
        _ => true,
    }
}

/// Whether an export of the name that is the text there is kept.
fn is_text_kept(symbols: &Symbols, text: Option<&Part>) -> bool
    requires { IsAnswered symbols.now }
    ensures { result ≡ is_text_kept (table_of symbols.now) (doc_or_nil text.entry) }
{
    match text {
        Some(Part::Text(name)) => is_name_kept(symbols, name.as_str()),
        Some(Part::Word(word)) => is_name_kept(symbols, word.text()),
        _ => true,
    }
}

/// Appends the name that `export default` exports, if the node is one and keeps it.
fn push_default(symbols: &Symbols, node: &Node, out: &mut Vec<NodeId>) -> Result<(), OutOfMemory>
    requires { IsAnswered symbols.now }
    ensures { OnOk result (numbers_in out.new.items ≡ numbers_in out.old.items
        ++ kept_default (table_of symbols.now) node.now.kind (docs_in node.now.parts.items)) }
{
    if node.kind.is(Kind::ExportDefaultDeclaration) {
        push_exported(symbols, node.field(Field::Declaration), out)
    } else {
        Ok(())
    }
}

/// Appends the name that is exported there, if it is one and is kept.
fn push_exported(
    symbols: &Symbols,
    declaration: Option<&Part>,
    out: &mut Vec<NodeId>,
) -> Result<(), OutOfMemory>
    requires { IsAnswered symbols.now }
    ensures { OnOk result (numbers_in out.new.items ≡ numbers_in out.old.items
        ++ exported_name (table_of symbols.now) (doc_or_nil declaration.entry)) }
{
    match declaration {
        Some(Part::Node(node)) => push_if(is_reference_kept(symbols, node), node.id, out),
        _ => Ok(()),
    }
}

/// Whether the node is a bare name whose export is kept.
fn is_reference_kept(symbols: &Symbols, node: &Node) -> bool
    requires { IsAnswered symbols.now }
    ensures { result ≡ is_reference_kept (table_of symbols.now) node.now.kind (docs_in node.now.parts.items) }
{
    node.kind.is(Kind::IdentifierReference) && is_text_kept(symbols, node.field(Field::Name))
}
