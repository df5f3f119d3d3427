//! The effect word of programs, imports and exports.
ghost use Rattle.std.specs.Prelude.{◌≡◌, ◌++◌, OnOk, false};
ghost use Rattle.oxt_facts.specs.Entry.{entries};
ghost use Rattle.oxt_tree.specs.View.{docs_in};
ghost use Rattle.oxt_items.specs.Modules.{export_assignment_word, export_list_word, import_binding, import_equals_word, import_word, listless_word, program_word, qualified_word, required_word};
ghost use Rattle.oxt_word.specs.Word.{all_fields, each_field};

use crate::word::{put_field, put_fields, put_plain};
use oxt_facts::facts::Facts;
use oxt_facts::item::{Atom, Item, ItemKind};
use oxt_forms::forms::lists_nothing;
use oxt_forms::put::{put_hash, put_lone, put_open, put_spelled};
use oxt_grammar::field::Field;
use oxt_items::modules::{import_binding, put_exports, put_free, put_required_start, put_strict};
use oxt_items::way::Way;
use oxt_names::ids::OutOfMemory;
use oxt_tree::tree::Node;

/// Puts a program: its first line for the system, the directive by which all its code is strict, if that is due, and its
/// fields. Of a definition file nothing else is put than that directive.
#[cycle(word)]
pub(crate) fn put_program(
    facts: &Facts,
    strict: bool,
    node: &Node,
    out: &mut Vec<Item>,
) -> Result<(), OutOfMemory>
    ensures { OnOk result (entries out.new.items
        ≡ entries out.old.items
        ++ program_word facts.now strict node.now.kind (docs_in node.now.parts.items) (all_fields facts.now node.now)) }
{
    if facts.is_source() && node.holds_text(Field::Lang, "dts") {
        return put_strict(facts.memory(), strict, out);
    }
    put_hash(facts.memory(), node, out)?;
    put_strict(facts.memory(), strict, out)?;
    put_fields(facts, node.kind.rows(), &node.parts, Way::Whole, out)
}

/// Puts an import.
#[cycle(word)]
pub(crate) fn put_import(facts: &Facts, node: &Node, out: &mut Vec<Item>) -> Result<(), OutOfMemory>
    ensures { OnOk result (entries out.new.items
        ≡ entries out.old.items ++ import_word node.now.kind (docs_in node.now.parts.items)
        (each_field facts.now node.now) (all_fields facts.now node.now)) }
{
    if lists_nothing(node, Field::Specifiers) {
        return put_listless(facts, node, out);
    }
    put_plain(facts, node, Way::Whole, out)
}

/// Puts an import as one without a list.
#[cycle(word)]
pub(crate) fn put_listless(
    facts: &Facts,
    node: &Node,
    out: &mut Vec<Item>,
) -> Result<(), OutOfMemory>
    ensures { OnOk result (entries out.new.items
        ≡ entries out.old.items ++ listless_word node.now.kind (docs_in node.now.parts.items)
        (each_field facts.now node.now)) }
{
    put_open(facts.memory(), node, out)?;
    put_lone(facts.memory(), ItemKind::Nil, out)?;
    put_field(facts, node, Field::Source, Way::Whole, out)?;
    put_field(facts, node, Field::WithClause, Way::Whole, out)?;
    put_lone(facts.memory(), ItemKind::Close, out)
}

/// Puts an export of a list of names.
#[cycle(word)]
pub(crate) fn put_export_list(
    facts: &Facts,
    node: &Node,
    out: &mut Vec<Item>,
) -> Result<(), OutOfMemory>
    ensures { OnOk result (entries out.new.items
        ≡ entries out.old.items ++ export_list_word node.now.kind (docs_in node.now.parts.items)
        (all_fields facts.now node.now)) }
{
    if lists_nothing(node, Field::Specifiers) {
        return Ok(());
    }
    put_plain(facts, node, Way::Whole, out)
}

/// Puts `export = e`: the write of `module.exports`.
#[cycle(word)]
pub(crate) fn put_export_assignment(
    facts: &Facts,
    node: &Node,
    out: &mut Vec<Item>,
) -> Result<(), OutOfMemory>
    ensures { OnOk result (entries out.new.items
        ≡ entries out.old.items ++ export_assignment_word (each_field facts.now node.now)) }
{
    put_free(facts.memory(), "module", out)?;
    put_exports(facts.memory(), out)?;
    put_field(facts, node, Field::Expression, Way::Whole, out)?;
    put_lone(facts.memory(), ItemKind::Put, out)?;
    put_lone(facts.memory(), ItemKind::Eval, out)
}

/// Puts `require("m")`.
#[cycle(word)]
pub(crate) fn put_required(
    facts: &Facts,
    node: &Node,
    out: &mut Vec<Item>,
) -> Result<(), OutOfMemory>
    ensures { OnOk result (entries out.new.items
        ≡ entries out.old.items ++ required_word (each_field facts.now node.now)) }
{
    put_required_start(facts.memory(), out)?;
    put_field(facts, node, Field::Expression, Way::Whole, out)?;
    put_lone(facts.memory(), ItemKind::Close, out)
}

/// Puts `a.b` as the read of the member.
#[cycle(word)]
pub(crate) fn put_qualified(
    facts: &Facts,
    node: &Node,
    out: &mut Vec<Item>,
) -> Result<(), OutOfMemory>
    ensures { OnOk result (entries out.new.items
        ≡ entries out.old.items ++ qualified_word (each_field facts.now node.now)) }
{
    put_field(facts, node, Field::Left, Way::Whole, out)?;
    put_field(facts, node, Field::Right, Way::KeyText, out)?;
    put_spelled(facts.memory(), ItemKind::Get, Atom::Flag(false), out)
}

/// Puts `import a = ..`, which is exported or not.
#[cycle(word)]
pub(crate) fn put_import_equals(
    facts: &Facts,
    exported: bool,
    node: &Node,
    out: &mut Vec<Item>,
) -> Result<(), OutOfMemory>
    ensures { OnOk result (entries out.new.items
        ≡ entries out.old.items ++ import_equals_word exported node.now.kind (docs_in node.now.parts.items)
        (each_field facts.now node.now)) }
{
    let way = Way::Bound(import_binding(node), exported);
    put_field(facts, node, Field::ModuleReference, Way::Whole, out)?;
    put_lone(facts.memory(), ItemKind::Set, out)?;
    put_field(facts, node, Field::Id, way, out)
}
