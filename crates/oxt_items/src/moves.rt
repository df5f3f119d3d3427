//! The effect word of classes whose constructor puts more on the object than is written in it, and of fields whose values
//! are put elsewhere.
ghost use Rattle.std.specs.Prelude.{◌≡◌, ◌∷◌, [], ◌++◌, OnOk, codes, false, map};
ghost use Rattle.oxt_facts.specs.Entry.{entries, spelled};
ghost use Rattle.oxt_facts.specs.Told.{names_view};
ghost use Rattle.oxt_forms.specs.Details.{start};
ghost use Rattle.oxt_grammar.specs.declared.kind.Kind.TheVariants as kind;
ghost use Rattle.oxt_tree.specs.Doc.{text};
ghost use Rattle.oxt_names.specs.Names.{name_bytes};
ghost use Rattle.oxt_items.specs.Classes.{empty_field, empty_fields, passing, property_put, property_puts};

use crate::enums::{put_operation, put_text, put_use};
use oxt_facts::item::{Item, ItemKind};
use oxt_facts::told::ToldName;
use oxt_forms::put::{put_field_start, put_lone};
use oxt_grammar::kind::Kind;
use oxt_names::ids::OutOfMemory;
use oxt_names::name::Name;
use std::alloc::Global;

/// Puts the start of a constructor that is made.
pub fn put_constructor_start(alloc: Global, out: &mut Vec<Item>) -> Result<(), OutOfMemory>
    ensures { OnOk result (entries out.new.items
        ≡ entries out.old.items ++ start kind.MethodDefinition (text (codes "constructor") ∷ [])) }
{
    put_operation(alloc, Kind::MethodDefinition, "constructor", out)
}

/// Puts that a constructor passes on what it is given, where its class extends another.
pub fn put_passing(alloc: Global, is_derived: bool, out: &mut Vec<Item>) -> Result<(), OutOfMemory>
    ensures { OnOk result (entries out.new.items ≡ entries out.old.items ++ passing is_derived) }
{
    if is_derived {
        return put_lone(alloc, ItemKind::PassOn, out);
    }
    Ok(())
}

/// Puts that each of the parameters is put on the object.
#[tactic(auto, using(crate::proofs::Gains::one_property, crate::proofs::Gains::no_property))]
pub fn put_properties(
    alloc: Global,
    properties: &[ToldName],
    out: &mut Vec<Item>,
) -> Result<(), OutOfMemory>
    ensures { OnOk result (entries out.new.items
        ≡ entries out.old.items ++ property_puts (names_view properties.now)) }
{
    for property in properties {
        put_property(alloc, property, out)?;
    }
    Ok(())
}

/// Puts that the parameter is put on the object, under its name.
fn put_property(alloc: Global, property: &ToldName, out: &mut Vec<Item>) -> Result<(), OutOfMemory>
    ensures { OnOk result (entries out.new.items ≡ entries out.old.items
        ++ property_put (name_bytes property.now.name) property.now.group) }
{
    put_lone(alloc, ItemKind::This, out)?;
    put_text(alloc, &property.name, out)?;
    put_use(alloc, &property.name, property.group, out)?;
    put_lone(alloc, ItemKind::Put, out)?;
    put_lone(alloc, ItemKind::Eval, out)
}

/// Puts an empty field of each of these names.
#[tactic(auto, using(crate::proofs::Gains::one_field, crate::proofs::Gains::no_field))]
pub fn put_empty_fields(
    alloc: Global,
    names: &[Name],
    out: &mut Vec<Item>,
) -> Result<(), OutOfMemory>
    ensures { OnOk result (entries out.new.items
        ≡ entries out.old.items ++ empty_fields (map name_bytes names.now)) }
{
    for name in names {
        put_empty_field(alloc, name, out)?;
    }
    Ok(())
}

/// Puts an empty field of that name.
fn put_empty_field(alloc: Global, name: &Name, out: &mut Vec<Item>) -> Result<(), OutOfMemory>
    ensures { OnOk result (entries out.new.items
        ≡ entries out.old.items ++ empty_field false (spelled ItemKind.Str (text (name_bytes name.now)))) }
{
    put_field_start(alloc, false, false, out)?;
    put_text(alloc, name, out)?;
    put_lone(alloc, ItemKind::Nil, out)?;
    put_lone(alloc, ItemKind::Define, out)
}
