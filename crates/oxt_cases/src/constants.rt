//! Constants and blocks of enums.

use crate::pieces::{Lines, Piece};
use oxt_enums::blocks::{EnumBlock, blocks_of};
use oxt_enums::constants::MemberConstant;
use oxt_enums::enums::{EnumConstants, constants_of};
use oxt_enums::members::{Member, members_of};
use oxt_names::constant::ConstantValue;
use oxt_names::ids::OutOfMemory;
use oxt_scopes::owners::owners_of;
use oxt_scopes::scopes::{OpenedScope, scopes_of};
use oxt_tree::tree::Node;
use std::alloc::Global;

/// Puts a line for each member of an enum: its name, and its constant, a text in quotes, or `-` where it has none, and
/// `wide` where it would be too large.
///
/// # Errors
///
/// Fails only where memory runs out.
pub fn put_members(alloc: Global, program: &Node, lines: &mut Lines) -> Result<(), OutOfMemory> {
    let members = members_of(alloc, program)?;
    let constants = constants_of(alloc, program)?;
    put_each(members.as_slice(), constants.as_slice(), lines);
    Ok(())
}

/// Puts the lines of these members, which have these constants.
fn put_each(members: &[Member], constants: &[MemberConstant], lines: &mut Lines) {
    for (member, constant) in members.iter().zip(constants.iter()) {
        put_member(member, constant, lines);
    }
}

/// Puts the line of a member.
fn put_member(member: &Member, constant: &MemberConstant, lines: &mut Lines) {
    lines.put(&[Piece::Text(member.name.unwrap_or("?"))]);
    lines.put(&[Piece::Text(" ")]);
    lines.put(&[Piece::Constant(constant.value.as_ref())]);
    lines.put(&[Piece::If(constant.is_wide, " wide"), Piece::Text("\n")]);
}

/// Puts a line for each member of an enum: its number, and its constant, the digits of the bytes of a text behind a
/// `t`.
///
/// # Errors
///
/// Fails only where memory runs out.
pub fn put_numbered(alloc: Global, program: &Node, lines: &mut Lines) -> Result<(), OutOfMemory> {
    let constants = constants_of(alloc, program)?;
    for constant in &constants {
        put_with_number(constant, lines);
    }
    Ok(())
}

/// Puts the line of a member with its number.
fn put_with_number(constant: &MemberConstant, lines: &mut Lines) {
    lines.put(&[Piece::Number(constant.node.0), Piece::Text(" ")]);
    match &constant.value {
        Some(ConstantValue::Text(text)) => {
            lines.put(&[Piece::Text("t")]);
            lines.put_digits(text.as_str());
        }
        value => lines.put(&[Piece::Constant(value.as_ref())]),
    }
    lines.put(&[Piece::If(constant.is_wide, " wide"), Piece::Text("\n")]);
}

/// Puts a line for each block of an enum, by the scopes that declare them: the number of its body, that of the scope,
/// `const` where its enum is, and the bodies of all blocks of its enum.
///
/// # Errors
///
/// Fails only where memory runs out.
pub fn put_blocks(alloc: Global, program: &Node, lines: &mut Lines) -> Result<(), OutOfMemory> {
    let scopes = scopes_of(alloc, program, false)?;
    put_blocks_by(alloc, program, scopes.as_slice(), lines)
}

/// The same, where the program opens these scopes.
fn put_blocks_by<'a>(
    alloc: Global,
    program: &'a Node,
    scopes: &[OpenedScope<'a>],
    lines: &mut Lines,
) -> Result<(), OutOfMemory> {
    let enums = enums_of(alloc, program, scopes)?;
    let outcome = put_blocks_in(alloc, scopes, &enums, lines);
    drop(enums);
    outcome
}

/// Puts the lines of the blocks of these enums, which the scopes declare.
fn put_blocks_in(
    alloc: Global,
    scopes: &[OpenedScope],
    enums: &EnumConstants,
    lines: &mut Lines,
) -> Result<(), OutOfMemory> {
    let blocks = blocks_of(alloc, scopes)?;
    for block in &blocks {
        put_block(enums, block, lines);
    }
    Ok(())
}

/// The enums of the program, which opens these scopes.
///
/// # Errors
///
/// Fails only where memory runs out.
pub fn enums_of<'a>(
    alloc: Global,
    program: &'a Node,
    scopes: &[OpenedScope<'a>],
) -> Result<EnumConstants<'a>, OutOfMemory> {
    let owners = owners_of(alloc, program)?;
    EnumConstants::of(alloc, program, owners.as_slice(), scopes)
}

/// Puts the line of a block.
fn put_block(enums: &EnumConstants, block: &EnumBlock, lines: &mut Lines) {
    let is_const = enums.is_const(block.scope, block.name);
    let front = [
        Piece::Number(block.body.0),
        Piece::Node(block.scope),
        Piece::If(is_const, " const"),
    ];
    lines.put(&front);
    let bodies = enums.blocks_of(block.scope, block.name).unwrap_or(&[]);
    lines.put_nodes(bodies);
    lines.put(&[Piece::Text("\n")]);
}
