//! The effect word of programs, imports and exports.
ghost use Rattle.std.specs.Prelude.{◌≡◌, ◌∷◌, [], ◌++◌, IfOk, OnOk, codes, false, option_map};
ghost use Rattle.oxt_facts.specs.Entry.{atom_doc, entries, spelled};
ghost use Rattle.oxt_forms.specs.Details.{start};
ghost use Rattle.oxt_tree.specs.Doc.{flag, text};
ghost use Rattle.oxt_names.specs.Names.{name_bytes};
ghost use Rattle.oxt_tree.specs.View.{docs_in};
ghost use Rattle.oxt_items.specs.Modules.{free_word, import_binding, quasi_word, required_start, strict_word, text_or_nil};

use oxt_facts::item::{Atom, Binding, Item, ItemKind};
use oxt_facts::told::ToldQuasi;
use oxt_forms::put::{put_lone, put_owned, put_spelled, put_start};
use oxt_grammar::field::Field;
use oxt_grammar::kind::Kind;
use oxt_names::ids::OutOfMemory;
use oxt_names::name::Name;
use oxt_tree::tree::Node;
use std::alloc::Global;
use std::vec;

/// Puts the directive by which all code is strict, if it is due.
pub fn put_strict(alloc: Global, strict: bool, out: &mut Vec<Item>) -> Result<(), OutOfMemory>
    ensures { OnOk result (entries out.new.items ≡ entries out.old.items ++ strict_word strict) }
{
    if strict {
        put_directive(alloc, "use strict", out)
    } else {
        Ok(())
    }
}

/// Puts a directive.
fn put_directive(alloc: Global, value: &str, out: &mut Vec<Item>) -> Result<(), OutOfMemory>
    ensures { OnOk result (entries out.new.items
        ≡ entries out.old.items ++ spelled ItemKind.Dir (text value.now)) }
{
    let value = Atom::Text(Name::new(alloc, value)?);
    put_spelled(alloc, ItemKind::Dir, value, out)
}

/// Puts the use of a name that no scope of the source declares.
pub fn put_free(alloc: Global, name: &str, out: &mut Vec<Item>) -> Result<(), OutOfMemory>
    ensures { OnOk result (entries out.new.items ≡ entries out.old.items ++ free_word name.now) }
{
    let name = Atom::Text(Name::new(alloc, name)?);
    put_owned(None, ItemKind::Name, name, Vec::new(alloc), out)
}

/// Puts the key `exports`.
pub fn put_exports(alloc: Global, out: &mut Vec<Item>) -> Result<(), OutOfMemory>
    ensures { OnOk result (entries out.new.items
        ≡ entries out.old.items ++ spelled ItemKind.Str (text (codes "exports"))) }
{
    let key = Atom::Text(Name::new(alloc, "exports")?);
    put_spelled(alloc, ItemKind::Str, key, out)
}

/// Puts the start of a call of the name `require`.
pub fn put_required_start(alloc: Global, out: &mut Vec<Item>) -> Result<(), OutOfMemory>
    ensures { OnOk result (entries out.new.items ≡ entries out.old.items ++ required_start) }
{
    put_call_start(alloc, out)?;
    put_free(alloc, "require", out)
}

/// Puts the start of a call that is neither optional nor pure.
pub(crate) fn put_call_start(alloc: Global, out: &mut Vec<Item>) -> Result<(), OutOfMemory>
    ensures { OnOk result (entries out.new.items
        ≡ entries out.old.items ++ start Kind.CallExpression (flag false ∷ flag false ∷ [])) }
{
    let details = vec![in alloc; Atom::Flag(false), Atom::Flag(false)]?;
    put_start(Kind::CallExpression, details, out)
}

/// What `import a = ..` declares its name as.
pub fn import_binding(node: &Node) -> Binding
    ensures { result ≡ import_binding node.now.kind (docs_in node.now.parts.items) }
{
    if node.holds_kind(Field::ModuleReference, Kind::TSExternalModuleReference) {
        Binding::Const
    } else {
        Binding::Var
    }
}

/// Puts a piece of a template, which has these texts.
pub fn put_quasi(alloc: Global, quasi: &ToldQuasi, out: &mut Vec<Item>) -> Result<(), OutOfMemory>
    ensures { OnOk result (entries out.new.items ≡ entries out.old.items
        ++ quasi_word (option_map name_bytes quasi.now.raw) (option_map name_bytes quasi.now.cooked)) }
{
    let raw = text_atom(&quasi.raw)?;
    let cooked = text_atom(&quasi.cooked)?;
    let details = vec![in alloc; raw, cooked]?;
    put_start(Kind::TemplateElement, details, out)?;
    put_lone(alloc, ItemKind::Close, out)
}

/// The text, if there is one.
fn text_atom(text: &Option<Name>) -> Result<Atom, OutOfMemory>
    ensures { IfOk result (λ atom. atom_doc atom ≡ text_or_nil (option_map name_bytes text.now)) }
{
    match text {
        Some(text) => Ok(Atom::Text(text.share()?)),
        None => Ok(Atom::Nothing),
    }
}
