//! The members of an enum as they will be written.

use crate::rename::IdentifierReferenceRename;
use oxt_declares::declares::member_name;
use oxt_grammar::field::Field;
use oxt_names::constant::ConstantValue;
use oxt_names::ids::{NodeId, OutOfMemory};
use oxt_names::name::Name;
use oxt_scoping::scoping::Scoping;
use oxt_tree::fields::place_of;
use oxt_tree::tree::{Node, Part};
use oxt_visit::walk::visit_js_mut;
use std::alloc::Global;

/// What the value of a member is written as.
#[derive(Drop)]
pub enum Value {
    /// Its constant.
    Constant(ConstantValue),
    /// One more than the member of that name.
    After(Name),
    /// Its initializer.
    Written(Node),
}

/// A member of an enum.
#[derive(Drop)]
pub struct Member {
    /// Its name.
    pub name: Name,
    /// Its value.
    pub value: Value,
}

/// The members of a block.
#[derive(Drop)]
pub struct Taken {
    /// The members, in the order of the text.
    pub members: Vec<Member>,
    /// The numbers of the names of the enum that were made in their initializers.
    pub uses: Vec<NodeId>,
}

/// Takes the members of the list. In their initializers the bare names of members are renamed.
pub fn members_in(
    alloc: Global,
    renames: &mut IdentifierReferenceRename,
    parts: &mut Vec<Part>,
) -> Result<Vec<Member>, OutOfMemory> {
    let mut members = Vec::new(alloc);
    for part in parts.iter_mut() {
        let member = member_in(alloc, renames, members.as_slice(), part)?;
        members.push(member)?;
    }
    Ok(members)
}

/// The member behind these.
fn member_in(
    alloc: Global,
    renames: &mut IdentifierReferenceRename,
    before: &[Member],
    part: &mut Part,
) -> Result<Member, OutOfMemory> {
    let name = name_of(alloc, part)?;
    let value = value_of(alloc, renames, before, part)?;
    Ok(Member { name, value })
}

/// The value of the member behind these.
fn value_of(
    alloc: Global,
    renames: &mut IdentifierReferenceRename,
    before: &[Member],
    part: &mut Part,
) -> Result<Value, OutOfMemory> {
    match constant_of(renames.scoping, part) {
        Some(constant) => Ok(Value::Constant(constant.share()?)),
        None => written(alloc, renames, before, take_from(part, Field::Initializer)),
    }
}

/// The value of a member with that initializer, behind these: the bare names of members are renamed in it.
fn written(
    alloc: Global,
    renames: &mut IdentifierReferenceRename,
    before: &[Member],
    initializer: Part,
) -> Result<Value, OutOfMemory> {
    match initializer {
        Part::Node(mut node) => {
            visit_js_mut(renames, &mut node)?;
            Ok(Value::Written(node))
        }
        _ => Ok(Value::After(last_name(alloc, before)?)),
    }
}

/// The name of the last of the members; the empty one where there is none.
fn last_name(alloc: Global, members: &[Member]) -> Result<Name, OutOfMemory> {
    match members.last() {
        Some(member) => member.name.share(),
        None => Name::new(alloc, ""),
    }
}

/// The constant of the member that the part is.
fn constant_of<'a>(scoping: &'a Scoping, part: &Part) -> Option<&'a ConstantValue> {
    match part {
        Part::Node(node) => scoping.get_enum_member_value(scoping.symbol_of(node.id)?),
        _ => None,
    }
}

/// The name of the member that the part is; the empty one where it has none.
fn name_of(alloc: Global, part: &Part) -> Result<Name, OutOfMemory> {
    match part.field(Field::Id) {
        Some(id) => Name::new(alloc, member_name(id).unwrap_or("")),
        None => Name::new(alloc, ""),
    }
}

/// Takes the members out of the enum.
pub fn take_members(declaration: &mut Node) -> Vec<Part> {
    let alloc = *declaration.parts.allocator();
    let mut body = take_field(declaration, Field::Body);
    match take_from(&mut body, Field::Members) {
        Part::List(members) => members,
        _ => Vec::new(alloc),
    }
}

/// Takes what the field of that name of the node that the part is holds.
fn take_from(part: &mut Part, field: Field) -> Part {
    match part {
        Part::Node(node) => take_field(node, field),
        _ => Part::Nothing,
    }
}

/// Takes what the field of that name holds.
pub fn take_field(node: &mut Node, field: Field) -> Part {
    match place_of(node.kind.rows(), field) {
        Some(place) if place < node.parts.len() => node.parts[place].take(),
        _ => Part::Nothing,
    }
}
