//! Nodes that do nothing, since only TypeScript has them.
ghost use Rattle.std.specs.Prelude.{◌≡◌, ◌++◌, [], OnOk, codes};
ghost use Rattle.oxt_facts.specs.Entry.{entries, lone};
ghost use Rattle.oxt_tree.specs.Fields.{named};
ghost use Rattle.oxt_tree.specs.Syntax.{is_mere_declaration};
ghost use Rattle.oxt_tree.specs.View.{docs_in};
ghost use Rattle.oxt_items.specs.Erased.{gone_word, is_gone};
ghost use Rattle.oxt_forms.specs.Details.{start};

use crate::rule::Rule;
use crate::way::Way;
use oxt_facts::item::{Binding, Item, ItemKind};
use oxt_forms::put::{put_lone, put_start};
use oxt_grammar::field::Field;
use oxt_grammar::kind::Kind;
use oxt_names::ids::OutOfMemory;
use oxt_tree::tree::Node;
use std::alloc::Global;

/// Whether the node is erased by its kind, by `declare` or `type`, or for want of a body.
pub fn is_gone(rule: Rule, node: &Node) -> bool
    ensures { result ≡ is_gone rule node.now.kind (docs_in node.now.parts.items) }
{
    match rule {
        Rule::Erased => true,
        Rule::EnumBlock => node.flag(Field::Declare),
        Rule::Variables => node.flag(Field::Declare),
        Rule::FunctionDeclaration => node.flag(Field::Declare),
        Rule::ClassDeclaration => node.flag(Field::Declare),
        Rule::ClassField(_) => node.flag(Field::Declare),
        Rule::Method => node.holds_kind(Field::Value, Kind::TSEmptyBodyFunctionExpression),
        Rule::Import => node.holds_text(Field::ImportKind, "type"),
        Rule::Binds(Binding::Import) => node.holds_text(Field::ImportKind, "type"),
        Rule::ExportList => node.holds_text(Field::ExportKind, "type"),
        Rule::ExportPart => node.holds_text(Field::ExportKind, "type"),
        Rule::ExportDefault => has_erased_default(node),
        Rule::ImportEquals => node.holds_text(Field::ImportKind, "type"),
        _ => false,
    }
}

/// Whether the default is a declaration that stands for nothing at run time.
fn has_erased_default(node: &Node) -> bool
    ensures { result ≡ is_mere_declaration
        (named (codes "declaration") node.now.kind (docs_in node.now.parts.items)) }
{
    match node.field(Field::Declaration) {
        Some(declaration) => declaration.is_mere_declaration(),
        None => false,
    }
}

/// Puts what an erased statement leaves: an empty block, an absent part, or nothing.
pub fn put_gone(alloc: Global, way: Way, out: &mut Vec<Item>) -> Result<(), OutOfMemory>
    ensures { OnOk result (entries out.new.items ≡ entries out.old.items ++ gone_word way) }
{
    match way {
        Way::Branch => put_empty_block(alloc, out),
        Way::Alternate => put_lone(alloc, ItemKind::Nil, out),
        _ => Ok(()),
    }
}

/// Puts a block without statements.
fn put_empty_block(alloc: Global, out: &mut Vec<Item>) -> Result<(), OutOfMemory>
    ensures { OnOk result (entries out.new.items ≡ entries out.old.items ++ (start Kind.BlockStatement [] ++ lone ItemKind.Close)) }
{
    put_start(Kind::BlockStatement, Vec::new(alloc), out)?;
    put_lone(alloc, ItemKind::Close, out)
}
