//! What is told of the specifiers of modules, whose extensions are rewritten.
ghost use Rattle.std.specs.Prelude.{◌≡◌, IfOk, OnOk, Some, codes, option_map};
ghost use Rattle.std.specs.Option.{option_or};
ghost use Rattle.oxt_options.specs.Rewrite.{rewritten};
ghost use Rattle.oxt_told.specs.Extensions.{after, changed, extension_told, has_source, is_one_piece, piece_told, source_told, string_told};
ghost use Rattle.oxt_told.specs.Source.{all_told};
ghost use Rattle.oxt_tree.specs.Doc.{list};
ghost use Rattle.oxt_tree.specs.Fields.{is_empty_list, named, text_in};
ghost use Rattle.oxt_names.specs.Names.{name_bytes};
ghost use Rattle.oxt_tree.specs.View.{docs_in, doc_or_nil, node_doc};

use oxt_facts::told::{Told, ToldNodes, ToldQuasi};
use oxt_grammar::field::Field;
use oxt_grammar::kind::Kind;
use oxt_names::constant::ConstantValue;
use oxt_names::ids::OutOfMemory;
use oxt_names::name::Name;
use oxt_options::rewrite::RewriteExtensionsMode;
use oxt_tree::tree::{Node, Part};
use std::alloc::Global;

/// Whether the source of nodes of the kind is the specifier of a module.
pub fn has_source(kind: Kind) -> bool
    ensures { result ≡ has_source kind }
{
    match kind {
        Kind::ImportDeclaration => true,
        Kind::ExportFromDeclaration => true,
        Kind::ExportAllDeclaration => true,
        Kind::ImportExpression => true,
        _ => false,
    }
}

/// Tells of the specifier, where extensions are rewritten.
pub fn tell_extension(
    alloc: Global,
    mode: Option<RewriteExtensionsMode>,
    source: Option<&Part>,
    told: &mut ToldNodes,
) -> Result<(), OutOfMemory>
    ensures { OnOk result (told.new ≡ all_told told.old (extension_told mode (doc_or_nil source.entry))) }
{
    match mode {
        Some(mode) => tell_part(alloc, mode, source, told),
        None => Ok(()),
    }
}

/// Tells of the specifier.
fn tell_part(
    alloc: Global,
    mode: RewriteExtensionsMode,
    source: Option<&Part>,
    told: &mut ToldNodes,
) -> Result<(), OutOfMemory>
    ensures { OnOk result (told.new ≡ all_told told.old (source_told mode (doc_or_nil source.entry))) }
{
    match source {
        Some(Part::Node(node)) => tell_source(alloc, mode, node, told),
        _ => Ok(()),
    }
}

/// Tells of the specifier, if it is a string or a template without substitutions.
fn tell_source(
    alloc: Global,
    mode: RewriteExtensionsMode,
    node: &Node,
    told: &mut ToldNodes,
) -> Result<(), OutOfMemory>
    ensures { OnOk result (told.new ≡ all_told told.old (source_told mode (node_doc node.now))) }
{
    if node.kind.is(Kind::StringLiteral) {
        tell_string(alloc, mode, node, told)
    } else if is_one_piece(node) {
        tell_piece(alloc, mode, node.list(Field::Quasis).first(), told)
    } else {
        Ok(())
    }
}

/// Tells of the string, if it changes.
fn tell_string(
    alloc: Global,
    mode: RewriteExtensionsMode,
    node: &Node,
    told: &mut ToldNodes,
) -> Result<(), OutOfMemory>
    ensures { OnOk result (told.new ≡ all_told told.old
        (string_told node.now.id.0 (changed mode (text_in (named (codes "value") node.now.kind (docs_in node.now.parts.items)))))) }
{
    match changed(alloc, mode, node.text(Field::Value))? {
        Some(text) => told.tell(node.id, Told::Inlined(ConstantValue::Text(text))),
        None => Ok(()),
    }
}

/// Whether the node is a template without substitutions.
fn is_one_piece(node: &Node) -> bool
    ensures { result ≡ is_one_piece node.now.kind (docs_in node.now.parts.items) }
{
    node.kind.is(Kind::TemplateLiteral) && has_none(node.list(Field::Expressions))
}

/// Whether there are no such parts.
fn has_none(parts: &[Part]) -> bool
    ensures { result ≡ is_empty_list (list (docs_in parts.now)) }
{
    parts.first().is_none()
}

/// Tells of the piece of a template.
fn tell_piece(
    alloc: Global,
    mode: RewriteExtensionsMode,
    piece: Option<&Part>,
    told: &mut ToldNodes,
) -> Result<(), OutOfMemory>
    ensures { OnOk result (told.new ≡ all_told told.old (piece_told mode (doc_or_nil piece.entry))) }
{
    match piece {
        Some(Part::Node(node)) => {
            let raw = after(alloc, mode, node.text(Field::Raw))?;
            let cooked = after(alloc, mode, node.text(Field::Cooked))?;
            told.tell(node.id, Told::Quasi(ToldQuasi { raw, cooked }))
        }
        _ => Ok(()),
    }
}

/// The text, if rewriting changes it.
fn changed(
    alloc: Global,
    mode: RewriteExtensionsMode,
    text: Option<&str>,
) -> Result<Option<Name>, OutOfMemory>
    ensures { IfOk result (λ name. option_map name_bytes name
        ≡ changed mode (option_map (λ text. text.now) text.entry)) }
{
    match text {
        Some(text) => mode.rewritten(alloc, text),
        None => Ok(None),
    }
}

/// The text after rewriting.
fn after(
    alloc: Global,
    mode: RewriteExtensionsMode,
    text: Option<&str>,
) -> Result<Option<Name>, OutOfMemory>
    ensures { IfOk result (λ name. option_map name_bytes name
        ≡ after mode (option_map (λ text. text.now) text.entry)) }
{
    match text {
        Some(text) => Ok(Some(text_after(alloc, mode, text)?)),
        None => Ok(None),
    }
}

/// The text after rewriting.
fn text_after(alloc: Global, mode: RewriteExtensionsMode, text: &str) -> Result<Name, OutOfMemory>
    ensures { IfOk result (λ name. Some (name_bytes name) ≡ option_or (rewritten mode text.now) (Some text.now)) }
{
    match mode.rewritten(alloc, text)? {
        Some(name) => Ok(name),
        None => Name::new(alloc, text),
    }
}
