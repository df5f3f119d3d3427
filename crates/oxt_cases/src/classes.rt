//! What is told of classes and of their fields.

use crate::decorated::put_call_of;
use crate::pieces::{Lines, Piece};
use oxt_facts::told::{ToldClass, ToldField, ToldName};
use oxt_names::name::Name;

/// Puts `NUMBER gains PLACE constructor derived`, and behind that the names of its properties, and of the fields that
/// stand in front, each with a star.
pub fn put_gains(number: u64, gaining: &ToldClass, lines: &mut Lines) {
    let front = [
        Piece::Number(number),
        Piece::Text(" gains "),
        Piece::Count(gaining.place),
        Piece::If(gaining.has_constructor, " constructor"),
        Piece::If(gaining.is_derived, " derived"),
    ];
    lines.put(&front);
    put_told_names(gaining.properties.as_slice(), lines);
    put_alias(gaining.alias.as_ref(), lines);
    lines.put(&[Piece::If(gaining.has_calls, " calls")]);
    put_fields(gaining.fields.as_slice(), lines);
}

/// Puts the names, each behind a space.
pub fn put_told_names(names: &[ToldName], lines: &mut Lines) {
    for told in names {
        lines.put(&[Piece::Word(told.name.as_str())]);
    }
}

/// Puts the alias of a class, if it has one.
fn put_alias(alias: Option<&Name>, lines: &mut Lines) {
    if let Some(alias) = alias {
        lines.put(&[Piece::Text(" alias"), Piece::Word(alias.as_str())]);
    }
}

/// Puts the names of the fields that stand in front, and the end of the line.
fn put_fields(fields: &[Name], lines: &mut Lines) {
    for field in fields {
        lines.put(&[Piece::Word("*"), Piece::Text(field.as_str())]);
    }
    lines.put(&[Piece::Text("\n")]);
}

/// Puts `NUMBER moves static stays TAG last`, with `-` where its key is not kept, and the call, if it gives one.
pub fn put_moves(number: u64, moving: &ToldField, lines: &mut Lines) {
    let front = [
        Piece::Number(number),
        Piece::Text(" moves"),
        Piece::If(moving.is_static, " static"),
        Piece::If(moving.stays, " stays"),
        Piece::Name(moving.tag.as_ref()),
        Piece::If(moving.is_last, " last"),
    ];
    lines.put(&front);
    put_call_of(moving.call.as_ref(), lines);
    lines.put(&[Piece::Text("\n")]);
}
