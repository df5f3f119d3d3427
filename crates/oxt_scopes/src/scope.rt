//! Scopes, as tables of the names that they declare.
ghost use Rattle.std.specs.Prelude.{◌≡◌, ◌&&◌, ◌||◌, IfOk, OnOk, ℕ, List, Bool, if◌then◌else◌, Some};
ghost use Rattle.std.specs.Str.{bytes_eq};
ghost use Rattle.oxt_tree.specs.Fields.{field_of, named, text_in};
ghost use Rattle.oxt_tree.specs.View.{doc_or_nil, docs_in, part_doc};
ghost use Rattle.oxt_declares.specs.Declarations.{declared_view, declared_views, has, is_seen, shows};
ghost use Rattle.oxt_declares.specs.Declares.{each_found};
ghost use Rattle.oxt_scopes.specs.Owners.{enum_of, opened, scope_number};
ghost use Rattle.oxt_scopes.specs.Scopes.{Level, block_in, has_name, is_block_of, level, number_of};
ghost use Rattle.oxt_scopes.specs.Stack.{block_at, level_of, name_in, seen_at, shows_seen};
ghost use Rattle.oxt_declares.specs.declared.declaration.Sight.{Sight as Looks};

use oxt_declares::declaration::{Declaration, Sight, Sort};
use oxt_declares::declares::{push_body_members, push_declared, text_of};
use oxt_declares::names::field_within;
use oxt_declares::role::Role;
use oxt_grammar::field::Field;
use oxt_names::ids::{NodeId, OutOfMemory};
use oxt_tree::tree::{Node, Part};
use std::alloc::Global;
use std::collections::HashMap;

/// How a name is declared in a scope.
#[derive(Clone, Copy)]
pub struct Seen {
    /// As something that is no type alone.
    pub value: bool,
    /// As a type parameter.
    pub type_parameter: bool,
}

/// A scope, as a table of the names that it declares.
#[derive(Drop)]
pub struct Scope<'a> {
    /// The number of the node that opens it; that of its body, of a block of an enum.
    pub number: NodeId,
    /// How each name is declared.
    pub names: HashMap<&'a str, Seen>,
    /// The bodies of the blocks of enums, by the names of the enum and of a member.
    pub blocks: HashMap<(&'a str, &'a str), NodeId>,
    /// The enum of which it is a block.
    pub enum_name: Option<&'a str>,
}

/// The scope that a node of that role opens.
pub fn scope_of<'a>(alloc: Global, role: Role, node: &'a Node) -> Result<Scope<'a>, OutOfMemory>
    ensures { IfOk result (λ s. (ls : List Level) → level_of s ls
        ≡ opened role node.now.kind node.now.id.0 (docs_in node.now.parts.items) (each_found (docs_in node.now.parts.items)) ls) }
{
    let mut declarations = Vec::new(alloc);
    push_declared(alloc, role, node, &mut declarations)?;
    let scope = scope_by(alloc, role, node, declarations.as_slice())?;
    Ok(scope)
}

/// The scope that a node of that role opens, in which these are declared.
pub(crate) fn scope_by<'a>(
    alloc: Global,
    role: Role,
    node: &'a Node,
    declarations: &[Declaration<'a>],
) -> Result<Scope<'a>, OutOfMemory>
    ensures number { IfOk result (λ s. s.number.0 ≡ scope_number role node.now.kind node.now.id.0 (docs_in node.now.parts.items)) }
    ensures level { IfOk result (λ s. (ls : List Level) → level_of s ls
        ≡ level (scope_number role node.now.kind node.now.id.0 (docs_in node.now.parts.items)) (declared_views declarations.now)
        (enum_of role node.now.kind (docs_in node.now.parts.items)) ls) }
{
    Ok(Scope {
        number: scope_number(role, node),
        names: names_of(alloc, declarations)?,
        blocks: blocks_of(alloc, declarations)?,
        enum_name: enum_of(role, node),
    })
}

/// The number of the scope that a node of that role opens.
pub fn scope_number(role: Role, node: &Node) -> NodeId
    ensures { result.0 ≡ scope_number role node.now.kind node.now.id.0 (docs_in node.now.parts.items) }
{
    match role {
        Role::Enum => number_of(node.field(Field::Body)),
        _ => node.id,
    }
}

/// The number of the node, and 0 for anything else.
fn number_of(part: Option<&Part>) -> NodeId
    ensures { result.0 ≡ number_of (doc_or_nil part.entry) }
{
    match part {
        Some(Part::Node(node)) => node.id,
        _ => NodeId(0),
    }
}

/// The enum in whose block the names are read.
fn enum_of<'a>(role: Role, node: &'a Node) -> Option<&'a str>
    ensures { name_in result ≡ enum_of role node.now.kind (docs_in node.now.parts.items) }
{
    match role {
        Role::Enum => text_of(field_within(node, Field::Id, Field::Name)),
        _ => None,
    }
}

/// How each of the names is declared.
fn names_of<'a>(
    alloc: Global,
    declarations: &[Declaration<'a>],
) -> Result<HashMap<&'a str, Seen>, OutOfMemory>
    ensures { IfOk result (λ m. (s : Looks) (t : List ℕ) → shows_seen s (seen_at t m.entries) ≡ has s t (declared_views declarations.now)) }
{
    let mut names = HashMap::new(alloc);
    let mut i = declarations.len();
    while i > 0 {
        i -= 1;
        add_name(&declarations[i], &mut names)?;
    }
    Ok(names)
}

/// Adds a declaration of a name.
fn add_name<'a>(
    declaration: &Declaration<'a>,
    names: &mut HashMap<&'a str, Seen>,
) -> Result<(), OutOfMemory>
    ensures { OnOk result ((s : Looks) (t : List ℕ) → shows_seen s (seen_at t names.new.entries)
        ≡ (is_seen s t (declared_view declaration.now) || shows_seen s (seen_at t names.old.entries))) }
{
    let name = declaration.name;
    let before = seen_before(names, name);
    let seen = seen_with(declaration.sort, before);
    names.insert(name, seen)?;
    Ok(())
}

/// How a name is declared that is declared so besides.
fn seen_with(sort: Sort, before: Seen) -> Seen
    ensures value { result.value ≡ (shows Sight.Value sort || before.value) }
    ensures type_parameter { result.type_parameter ≡ (shows Sight.TypeParameter sort || before.type_parameter) }
{
    Seen {
        value: sort.shows(Sight::Value) || before.value,
        type_parameter: sort.shows(Sight::TypeParameter) || before.type_parameter,
    }
}

/// How the name is declared so far.
fn seen_before<'a>(names: &HashMap<&'a str, Seen>, name: &'a str) -> Seen
    ensures value { result.value ≡ shows_seen Sight.Value (seen_at name.now names.now.entries) }
    ensures type_parameter { result.type_parameter ≡ shows_seen Sight.TypeParameter (seen_at name.now names.now.entries) }
{
    match names.get(name) {
        Some(seen) => *seen,
        None => Seen {
            value: false,
            type_parameter: false,
        },
    }
}

/// The bodies of the blocks of enums, by the names of the enum and of a member; the first of each.
fn blocks_of<'a>(
    alloc: Global,
    declarations: &[Declaration<'a>],
) -> Result<HashMap<(&'a str, &'a str), NodeId>, OutOfMemory>
    ensures { IfOk result (λ m. (e t : List ℕ) → block_at e t m.entries ≡ block_in e t (declared_views declarations.now)) }
{
    let mut blocks = HashMap::new(alloc);
    let mut i = declarations.len();
    while i > 0 {
        i -= 1;
        add_block(alloc, &declarations[i], &mut blocks)?;
    }
    Ok(blocks)
}

/// Adds a block of an enum.
fn add_block<'a>(
    alloc: Global,
    declaration: &Declaration<'a>,
    blocks: &mut HashMap<(&'a str, &'a str), NodeId>,
) -> Result<(), OutOfMemory>
    ensures { OnOk result ((e t : List ℕ) → block_at e t blocks.new.entries
        ≡ (if is_block_of e t (declared_view declaration.now) then Some (number_of (declared_view declaration.now).body) else block_at e t blocks.old.entries)) }
{
    let mut members = Vec::new(alloc);
    push_body_members(alloc, declaration.body, &mut members)?;
    let number = number_of(declaration.body);
    add_members(declaration.name, members.as_slice(), number, blocks)
}

/// Adds the members of a block of an enum.
fn add_members<'a>(
    enum_name: &'a str,
    members: &[Declaration<'a>],
    number: NodeId,
    blocks: &mut HashMap<(&'a str, &'a str), NodeId>,
) -> Result<(), OutOfMemory>
    ensures { OnOk result ((e t : List ℕ) → block_at e t blocks.new.entries
        ≡ (if has_name t (declared_views members.now) && bytes_eq e enum_name.now then Some number.0 else block_at e t blocks.old.entries)) }
{
    let mut i = members.len();
    while i > 0 {
        i -= 1;
        blocks.insert((enum_name, members[i].name), number)?;
    }
    Ok(())
}
