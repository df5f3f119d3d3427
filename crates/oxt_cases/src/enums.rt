//! What is looked up of enums.

use crate::constants::enums_of;
use crate::pieces::{Lines, Piece};
use oxt_enums::blocks::{EnumBlock, blocks_of};
use oxt_enums::enums::EnumConstants;
use oxt_enums::members::{Member, members_of};
use oxt_names::constant::ConstantValue;
use oxt_names::ids::{NodeId, OutOfMemory, Span};
use oxt_scopes::scopes::{OpenedScope, scopes_of};
use oxt_tree::tree::{Node, Program};
use std::alloc::Global;
use std::collections::BTreeSet;

/// The names of enums, and those of their members.
#[derive(Drop)]
struct Names<'a> {
    enums: BTreeSet<&'a str>,
    members: BTreeSet<&'a str>,
}

impl<'a> Names<'a> {
    /// The names of these.
    fn of(
        alloc: Global,
        members: &[Member<'a>],
        blocks: &[EnumBlock<'a>],
    ) -> Result<Names<'a>, OutOfMemory> {
        Ok(Names {
            enums: names_of_blocks(alloc, blocks)?,
            members: names_of_members(alloc, members)?,
        })
    }
}

/// The names of the enums of these blocks.
fn names_of_blocks<'a>(
    alloc: Global,
    blocks: &[EnumBlock<'a>],
) -> Result<BTreeSet<&'a str>, OutOfMemory> {
    let mut names = BTreeSet::new(alloc);
    for block in blocks {
        names.insert(block.name)?;
    }
    Ok(names)
}

/// The names of these members.
fn names_of_members<'a>(
    alloc: Global,
    members: &[Member<'a>],
) -> Result<BTreeSet<&'a str>, OutOfMemory> {
    let mut names = BTreeSet::new(alloc);
    for member in members {
        names.insert(member.name.unwrap_or("?"))?;
    }
    Ok(names)
}

/// Puts, in this order, a line
///
/// - `member NODE NAME BODY BEHIND` for each member, where `BEHIND` is the member in front of it or `-`
/// - `block BODY SCOPE NAME` for each block, with `const` and `emitted` where it is so
/// - `body BODY NAME VALUE` for each body and each name of a member, where one has a constant
/// - `enum SCOPE NAME BODY ..` for each scope and each name of an enum, where it has blocks, with `const` in front
///   where it is
/// - `of SCOPE NAME MEMBER VALUE` for each scope, name of an enum and name of a member, where one has a constant
/// - `value NODE VALUE` for each node that has a constant
/// - `constants COUNT`, of how many members it is known whether they have a constant
/// - `wide START`, the place in the text of the first member that would be too large, if there is one
///
/// # Errors
///
/// Fails only where memory runs out.
pub fn put_lines(alloc: Global, program: &Program, lines: &mut Lines) -> Result<(), OutOfMemory> {
    let scopes = scopes_of(alloc, &program.root, false)?;
    put_by(alloc, program, scopes.as_slice(), lines)
}

/// The same, where the program opens these scopes.
fn put_by<'a>(
    alloc: Global,
    program: &'a Program,
    scopes: &[OpenedScope<'a>],
    lines: &mut Lines,
) -> Result<(), OutOfMemory> {
    let enums = enums_of(alloc, &program.root, scopes)?;
    let outcome = put_all(alloc, program, scopes, &enums, lines);
    drop(enums);
    outcome
}

/// The same, where the program has these enums.
fn put_all<'a>(
    alloc: Global,
    program: &'a Program,
    scopes: &[OpenedScope<'a>],
    enums: &EnumConstants<'a>,
    lines: &mut Lines,
) -> Result<(), OutOfMemory> {
    put_parts(alloc, &program.root, scopes, enums, lines)?;
    put_values(program.ids.next, enums, lines);
    put_count(enums, lines);
    Ok(())
}

/// Puts the lines of the members and of the blocks, and what is looked up by their names.
fn put_parts<'a>(
    alloc: Global,
    program: &'a Node,
    scopes: &[OpenedScope<'a>],
    enums: &EnumConstants<'a>,
    lines: &mut Lines,
) -> Result<(), OutOfMemory> {
    let members = members_of(alloc, program)?;
    put_members(members.as_slice(), lines);
    put_found(alloc, scopes, members.as_slice(), enums, lines)
}

/// Puts the lines of the blocks, and what is looked up by their names and those of the members.
fn put_found<'a>(
    alloc: Global,
    scopes: &[OpenedScope<'a>],
    members: &[Member<'a>],
    enums: &EnumConstants<'a>,
    lines: &mut Lines,
) -> Result<(), OutOfMemory> {
    let blocks = blocks_of(alloc, scopes)?;
    put_blocks(blocks.as_slice(), lines);
    put_by_names(alloc, scopes, members, blocks.as_slice(), enums, lines)
}

/// Puts what is looked up by the names of the blocks and those of the members.
fn put_by_names<'a>(
    alloc: Global,
    scopes: &[OpenedScope<'a>],
    members: &[Member<'a>],
    blocks: &[EnumBlock<'a>],
    enums: &EnumConstants<'a>,
    lines: &mut Lines,
) -> Result<(), OutOfMemory> {
    let names = Names::of(alloc, members, blocks)?;
    put_bodies(blocks, &names, enums, lines);
    put_scopes(scopes, &names, enums, lines);
    drop(names);
    Ok(())
}

/// Puts the lines of the members.
fn put_members(members: &[Member], lines: &mut Lines) {
    for member in members {
        put_member(member, lines);
    }
}

/// Puts the line of a member.
fn put_member(member: &Member, lines: &mut Lines) {
    let line = [
        Piece::Text("member"),
        Piece::Node(member.node.id),
        Piece::Word(member.name.unwrap_or("?")),
        Piece::Node(member.place.block),
        Piece::Maybe(member.place.previous.map(|node| node.0)),
        Piece::Text("\n"),
    ];
    lines.put(&line);
}

/// Puts the lines of the blocks.
fn put_blocks(blocks: &[EnumBlock], lines: &mut Lines) {
    for block in blocks {
        put_block(block, lines);
    }
}

/// Puts the line of a block.
fn put_block(block: &EnumBlock, lines: &mut Lines) {
    let line = [
        Piece::Text("block"),
        Piece::Node(block.body),
        Piece::Node(block.scope),
        Piece::Word(block.name),
        Piece::If(block.is_const, " const"),
        Piece::If(block.is_emitted, " emitted"),
        Piece::Text("\n"),
    ];
    lines.put(&line);
}

/// Puts the lines of what is looked up in bodies.
fn put_bodies(blocks: &[EnumBlock], names: &Names, enums: &EnumConstants, lines: &mut Lines) {
    for block in blocks {
        put_body(block.body, names, enums, lines);
    }
}

/// Puts the lines of what is looked up in a body.
fn put_body(body: NodeId, names: &Names, enums: &EnumConstants, lines: &mut Lines) {
    for name in &names.members {
        if let Some(value) = enums.value_in_body(body, name) {
            put_in_body(body, name, value, lines);
        }
    }
}

/// Puts the line of a constant that is found in a body by that name.
fn put_in_body<'a>(body: NodeId, name: &'a str, value: &'a ConstantValue, lines: &mut Lines) {
    let line = [
        Piece::Text("body"),
        Piece::Node(body),
        Piece::Word(name),
        Piece::Text(" "),
        Piece::Constant(Some(value)),
        Piece::Text("\n"),
    ];
    lines.put(&line);
}

/// Puts the lines of what is looked up in scopes.
fn put_scopes(scopes: &[OpenedScope], names: &Names, enums: &EnumConstants, lines: &mut Lines) {
    for scope in scopes {
        put_scope(scope.number, names, enums, lines);
    }
}

/// Puts the lines of what is looked up in a scope.
fn put_scope(scope: NodeId, names: &Names, enums: &EnumConstants, lines: &mut Lines) {
    for name in &names.enums {
        put_enum(scope, name, enums, lines);
        put_in_enum(scope, name, names, enums, lines);
    }
}

/// Puts the line of the blocks of an enum.
fn put_enum(scope: NodeId, name: &str, enums: &EnumConstants, lines: &mut Lines) {
    lines.put(&[Piece::If(enums.is_const(scope, name), "const ")]);
    if let Some(bodies) = enums.blocks_of(scope, name) {
        lines.put(&[Piece::Text("enum"), Piece::Node(scope), Piece::Word(name)]);
        lines.put_nodes(bodies);
        lines.put(&[Piece::Text("\n")]);
    }
}

/// Puts the lines of what is looked up in an enum.
fn put_in_enum(
    scope: NodeId,
    enum_name: &str,
    names: &Names,
    enums: &EnumConstants,
    lines: &mut Lines,
) {
    for name in &names.members {
        if let Some(value) = enums.value_in_enum(scope, enum_name, name) {
            lines.put(&[Piece::Text("of"), Piece::Node(scope)]);
            put_named(enum_name, name, value, lines);
        }
    }
}

/// Puts the names of an enum and of a member, and the constant.
fn put_named<'a>(enum_name: &'a str, name: &'a str, value: &'a ConstantValue, lines: &mut Lines) {
    let line = [
        Piece::Word(enum_name),
        Piece::Word(name),
        Piece::Text(" "),
        Piece::Constant(Some(value)),
        Piece::Text("\n"),
    ];
    lines.put(&line);
}

/// Puts the lines of what is looked up by numbers below that one.
fn put_values(next: u64, enums: &EnumConstants, lines: &mut Lines) {
    for number in 1..next {
        if let Some(value) = enums.value_of(NodeId(number)) {
            put_of_node(NodeId(number), value, lines);
        }
    }
}

/// Puts the line of a node that has a constant.
fn put_of_node(node: NodeId, value: &ConstantValue, lines: &mut Lines) {
    let line = [
        Piece::Text("value"),
        Piece::Node(node),
        Piece::Text(" "),
        Piece::Constant(Some(value)),
        Piece::Text("\n"),
    ];
    lines.put(&line);
}

/// Puts the count of the constants, and the line of the first member that would be too large.
fn put_count(enums: &EnumConstants, lines: &mut Lines) {
    let line = [
        Piece::Text("constants "),
        Piece::Count(enums.constants().len()),
        Piece::Text("\n"),
    ];
    lines.put(&line);
    if let Some(span) = enums.first_wide() {
        put_start(span, lines);
    }
}

/// Puts where the first member that would be too large starts.
fn put_start(span: Span, lines: &mut Lines) {
    let line = [
        Piece::Text("wide "),
        Piece::Number(u64::from(span.start)),
        Piece::Text("\n"),
    ];
    lines.put(&line);
}
