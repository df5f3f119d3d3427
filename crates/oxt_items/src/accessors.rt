//! The effect word of accessors that become a field, a getter and a setter.
ghost use Rattle.std.specs.Prelude.{◌≡◌, ◌∷◌, [], ◌++◌, OnOk, Some, codes, false};
ghost use Rattle.oxt_facts.specs.Entry.{entries, lone};
ghost use Rattle.oxt_facts.specs.Told.{accessing_view, holder_view, storage_view};
ghost use Rattle.oxt_forms.specs.Details.{start};
ghost use Rattle.oxt_tree.specs.Doc.{flag};
ghost use Rattle.oxt_items.specs.Accessors.{function_start, getter_function, holder_word, method_start, setter_function, storage_field, storage_word, value_parameter};
ghost use Rattle.oxt_items.specs.Enums.{use_word};

use crate::calls::put_used;
use oxt_facts::item::{Atom, Binding, Item, ItemKind};
use oxt_facts::told::{ToldAccessor, ToldObject, ToldStorage};
use oxt_forms::put::{put_field_start, put_lone, put_owned, put_spelled, put_start};
use oxt_grammar::kind::Kind;
use oxt_names::ids::OutOfMemory;
use oxt_names::name::Name;
use std::alloc::Global;
use std::vec;

/// Puts the name of the field in which an accessor keeps its value.
pub fn put_storage(
    alloc: Global,
    storage: &ToldStorage,
    out: &mut Vec<Item>,
) -> Result<(), OutOfMemory>
    ensures { OnOk result (entries out.new.items
        ≡ entries out.old.items ++ storage_word (storage_view storage.now)) }
{
    match storage {
        ToldStorage::Plain(text) => {
            put_spelled(alloc, ItemKind::Private, Atom::Text(text.share()?), out)
        }
        ToldStorage::Kept(tag) => {
            put_spelled(alloc, ItemKind::PrivateMade, Atom::Text(tag.share()?), out)
        }
    }
}

/// Puts the object that has the field.
fn put_holder(alloc: Global, object: &ToldObject, out: &mut Vec<Item>) -> Result<(), OutOfMemory>
    ensures { OnOk result (entries out.new.items
        ≡ entries out.old.items ++ holder_word (holder_view object.now)) }
{
    match object {
        ToldObject::This => put_lone(alloc, ItemKind::This, out),
        ToldObject::Use(class) => put_used(alloc, class, out),
    }
}

/// Puts the field of an instance without a value.
pub fn put_empty_storage(
    alloc: Global,
    storage: &ToldStorage,
    out: &mut Vec<Item>,
) -> Result<(), OutOfMemory>
    ensures { OnOk result (entries out.new.items ≡ entries out.old.items
        ++ storage_field false (storage_view storage.now) (lone ItemKind.Nil)) }
{
    put_field_start(alloc, false, false, out)?;
    put_storage(alloc, storage, out)?;
    put_lone(alloc, ItemKind::Nil, out)?;
    put_lone(alloc, ItemKind::Define, out)
}

/// Puts the start of a method of that kind.
pub fn put_method_start(
    alloc: Global,
    kind: &str,
    is_static: bool,
    out: &mut Vec<Item>,
) -> Result<(), OutOfMemory>
    ensures { OnOk result (entries out.new.items
        ≡ entries out.old.items ++ method_start kind.now is_static) }
{
    let kind = Atom::Text(Name::new(alloc, kind)?);
    let details = vec![in alloc; kind, Atom::Flag(is_static)]?;
    put_start(Kind::MethodDefinition, details, out)
}

/// Puts the start of its function.
fn put_function_start(alloc: Global, out: &mut Vec<Item>) -> Result<(), OutOfMemory>
    ensures { OnOk result (entries out.new.items ≡ entries out.old.items ++ function_start) }
{
    let details = vec![in alloc; Atom::Flag(false), Atom::Flag(false)]?;
    put_start(Kind::FunctionExpression, details, out)?;
    put_lone(alloc, ItemKind::Nil, out)
}

/// Puts the start of the read of a private field.
fn put_read_start(alloc: Global, out: &mut Vec<Item>) -> Result<(), OutOfMemory>
    ensures { OnOk result (entries out.new.items
        ≡ entries out.old.items ++ start Kind.PrivateFieldExpression (flag false ∷ [])) }
{
    let details = vec![in alloc; Atom::Flag(false)]?;
    put_start(Kind::PrivateFieldExpression, details, out)
}

/// Puts the function of the getter, which returns what the field holds.
pub fn put_getter_function(
    alloc: Global,
    accessor: &ToldAccessor,
    out: &mut Vec<Item>,
) -> Result<(), OutOfMemory>
    ensures { OnOk result (entries out.new.items
        ≡ entries out.old.items ++ getter_function (accessing_view accessor.now)) }
{
    put_function_start(alloc, out)?;
    put_lone(alloc, ItemKind::Nil, out)?;
    put_start(Kind::ReturnStatement, Vec::new(alloc), out)?;
    put_read_start(alloc, out)?;
    put_holder(alloc, &accessor.object, out)?;
    put_storage(alloc, &accessor.storage, out)?;
    put_lone(alloc, ItemKind::Close, out)?;
    put_lone(alloc, ItemKind::Close, out)?;
    put_lone(alloc, ItemKind::Close, out)
}

/// Puts the parameter of the setter, which has that group.
fn put_parameter(alloc: Global, group: u64, out: &mut Vec<Item>) -> Result<(), OutOfMemory>
    ensures { OnOk result (entries out.new.items ≡ entries out.old.items ++ value_parameter group) }
{
    let details = vec![in alloc; Atom::Binding(Binding::Parameter), Atom::Flag(false)]?;
    let name = Atom::Text(Name::new(alloc, "value")?);
    put_start(Kind::FormalParameter, Vec::new(alloc), out)?;
    put_owned(Some(group), ItemKind::Bind, name, details, out)?;
    put_lone(alloc, ItemKind::Nil, out)?;
    put_lone(alloc, ItemKind::Close, out)
}

/// Puts the use of that parameter.
fn put_parameter_use(alloc: Global, group: u64, out: &mut Vec<Item>) -> Result<(), OutOfMemory>
    ensures { OnOk result (entries out.new.items
        ≡ entries out.old.items ++ use_word (codes "value") (Some group)) }
{
    let name = Atom::Text(Name::new(alloc, "value")?);
    put_owned(Some(group), ItemKind::Name, name, Vec::new(alloc), out)
}

/// Puts the function of the setter, which puts what it is given.
pub fn put_setter_function(
    alloc: Global,
    accessor: &ToldAccessor,
    out: &mut Vec<Item>,
) -> Result<(), OutOfMemory>
    ensures { OnOk result (entries out.new.items
        ≡ entries out.old.items ++ setter_function (accessing_view accessor.now)) }
{
    put_function_start(alloc, out)?;
    put_parameter(alloc, accessor.value_group, out)?;
    put_lone(alloc, ItemKind::Nil, out)?;
    put_holder(alloc, &accessor.object, out)?;
    put_storage(alloc, &accessor.storage, out)?;
    put_parameter_use(alloc, accessor.value_group, out)?;
    put_lone(alloc, ItemKind::Put, out)?;
    put_lone(alloc, ItemKind::Eval, out)?;
    put_lone(alloc, ItemKind::Close, out)
}
