//! Which declarations `import a = ..` a program has, and the names of those that are not kept.
ghost use Rattle.std.specs.Prelude.{◌≡◌, ◌++◌, IfOk, OnOk, Some};
ghost use Rattle.oxt_modules.specs.Aliases.{alias_at, alias_named, alias_search, aliases, left_out, left_out_name, left_out_names};
ghost use Rattle.oxt_declares.specs.Imports.{is_alias};
ghost use Rattle.oxt_modules.specs.declared.alias.Alias.{Alias};
ghost use Rattle.oxt_options.specs.Facts.{is_in};
ghost use Rattle.oxt_options.specs.Lists.{numbers_in};
ghost use Rattle.oxt_tree.specs.View.{doc_or_nil, docs_in, node_doc};

use oxt_declares::imports::is_alias;
use oxt_grammar::field::Field;
use oxt_grammar::holds::Row;
use oxt_grammar::kind::Kind;
use oxt_names::ids::{NodeId, OutOfMemory};
use oxt_options::nodes::NodeList;
use oxt_search::all::all_in;
use oxt_search::search::{Inside, Search, Visit};
use oxt_tree::tree::{Node, Part};
use std::alloc::Global;

/// A declaration `import a = ..` that is not of types alone.
#[derive(Clone, Copy)]
pub struct Alias {
    /// The declaration.
    pub node: NodeId,
    /// The node that is its name.
    pub name: NodeId,
    /// Whether it is exported.
    pub is_exported: bool,
}

/// Such declarations in the program, in the order of the text.
///
/// # Errors
///
/// Nothing but want of memory.
#[tactic(auto, using(oxt_search::proofs::Given::as_it_is))]
pub fn aliases_of(alloc: Global, program: &Node) -> Result<Vec<Alias>, OutOfMemory>
    ensures { IfOk result (λ found. found.items ≡ aliases (node_doc program.now)) }
{
    all_in(alloc, &Aliases, program, false)
}

/// The search for them; its state says whether an export stands around.
#[derive(Clone, Copy)]
struct Aliases;

impl Search for Aliases {
    type State = bool;

    type Found = Alias;

    ghost Seen = { Alias };

    ghost view = { λ alias. alias };

    ghost sought = { λ _. alias_search };

    #[tactic(auto, using(oxt_search::proofs::Given::as_it_is))]
    fn visit(&self, node: &Node, is_exported: bool) -> Visit<Alias, bool> {
        Visit {
            found: alias_at(is_exported, node),
            inside: Inside::Alike(node.kind.is(Kind::ExportDeclaration)),
        }
    }

    fn in_field(&self, is_exported: bool, _kind: Kind, _row: &Row) -> Option<bool> {
        Some(is_exported)
    }
}

/// The node, if it is such a declaration.
fn alias_at(is_exported: bool, node: &Node) -> Option<Alias>
    ensures { result ≡ alias_at is_exported node.now.kind node.now.id.0 (docs_in node.now.parts.items) }
{
    if is_alias(node) {
        alias_named(is_exported, node.id, node.field(Field::Id))
    } else {
        None
    }
}

/// The declaration of that name.
fn alias_named(is_exported: bool, node: NodeId, name: Option<&Part>) -> Option<Alias>
    ensures { result ≡ alias_named is_exported node.0 (doc_or_nil name.entry) }
{
    match name {
        Some(Part::Node(name)) => Some(Alias {
            node,
            name: name.id,
            is_exported,
        }),
        _ => None,
    }
}

/// The names of those of the program that are not kept.
///
/// # Errors
///
/// Nothing but want of memory.
pub fn left_out_names(
    alloc: Global,
    program: &Node,
    kept: &NodeList,
) -> Result<NodeList, OutOfMemory>
    ensures { IfOk result (λ names. names ≡ left_out (is_in kept.now) (node_doc program.now)) }
{
    let aliases = aliases_of(alloc, program)?;
    let names = names_left_out(alloc, aliases.as_slice(), kept)?;
    NodeList::of(alloc, names)
}

/// The names of those of the declarations that are not kept.
#[tactic(auto, using(crate::proofs::Loops::left_steps))]
fn names_left_out(
    alloc: Global,
    aliases: &[Alias],
    kept: &NodeList,
) -> Result<Vec<NodeId>, OutOfMemory>
    ensures { IfOk result (λ names. numbers_in names.items ≡ left_out_names (is_in kept.now) aliases.now) }
{
    let mut names = Vec::new(alloc);
    for alias in aliases {
        push_left_out(*alias, kept, &mut names)?;
    }
    Ok(names)
}

/// Appends the name of the declaration, unless it is kept.
#[tactic(auto, using(oxt_options::proofs::Known::one_more))]
fn push_left_out(alias: Alias, kept: &NodeList, names: &mut Vec<NodeId>) -> Result<(), OutOfMemory>
    ensures { OnOk result (numbers_in names.new.items ≡ numbers_in names.old.items
        ++ left_out_name (is_in kept.now) alias) }
{
    if !kept.has(alias.node) {
        names.push(alias.name)?;
    }
    Ok(())
}
