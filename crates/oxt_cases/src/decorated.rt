//! What is told of decorators, of what they call, and of accessors.

use crate::pieces::{Lines, Piece};
use oxt_facts::told::{
    ToldAccessor, ToldCall, ToldDecorated, ToldElement, ToldObject, ToldStorage, ToldUse,
};
use oxt_names::name::Name;

/// Puts `NUMBER called stays` and the call.
pub fn put_called(number: u64, called: &ToldElement, lines: &mut Lines) {
    let front = [
        Piece::Number(number),
        Piece::Text(" called"),
        Piece::If(called.stays, " stays"),
    ];
    lines.put(&front);
    put_call(&called.call, lines);
    lines.put(&[Piece::Text("\n")]);
}

/// Puts `NUMBER accessor static moves`, its storage, the object that has it, and the call, if it gives one.
pub fn put_accessor(number: u64, accessor: &ToldAccessor, lines: &mut Lines) {
    let front = [
        Piece::Number(number),
        Piece::Text(" accessor"),
        Piece::If(accessor.is_static, " static"),
        Piece::If(accessor.moves, " moves"),
    ];
    lines.put(&front);
    put_storage(&accessor.storage, lines);
    put_object(&accessor.object, lines);
    put_call_of(accessor.call.as_ref(), lines);
    lines.put(&[Piece::Text("\n")]);
}

/// Puts `NUMBER decorated itself keeps calls`, its name, the one inside, and its alias, with `-` for what it has not.
pub fn put_decorated(number: u64, class: &ToldDecorated, lines: &mut Lines) {
    let front = [
        Piece::Number(number),
        Piece::Text(" decorated"),
        Piece::If(class.is_decorated, " itself"),
        Piece::If(class.keeps_alias, " keeps"),
        Piece::If(class.has_calls, " calls"),
    ];
    lines.put(&front);
    put_use_of(class.name.as_ref(), lines);
    let behind = [
        Piece::Name(class.inner.as_ref()),
        Piece::Name(class.alias.as_ref()),
        Piece::Text("\n"),
    ];
    lines.put(&behind);
}

/// Puts `NUMBER default itself` and the name of the class.
pub fn put_default(number: u64, is_decorated: bool, name: &ToldUse, lines: &mut Lines) {
    let front = [
        Piece::Number(number),
        Piece::Text(" default"),
        Piece::If(is_decorated, " itself"),
    ];
    lines.put(&front);
    put_use(name, lines);
    lines.put(&[Piece::Text("\n")]);
}

/// Puts `NUMBER applied` and the place of a parameter, if it decorates one.
pub fn put_applied(number: u64, place: Option<u64>, lines: &mut Lines) {
    lines.put(&[Piece::Number(number), Piece::Text(" applied")]);
    if place.is_some() {
        lines.put(&[Piece::Maybe(place)]);
    }
    lines.put(&[Piece::Text("\n")]);
}

/// Puts the call that something gives, if it gives one.
pub fn put_call_of(call: Option<&ToldCall>, lines: &mut Lines) {
    if let Some(call) = call {
        put_call(call, lines);
    }
}

/// Puts a call: `call CLASS static private field TAG`.
fn put_call(call: &ToldCall, lines: &mut Lines) {
    lines.put(&[Piece::Text(" call")]);
    put_use(&call.class, lines);
    let behind = [
        Piece::If(call.is_static, " static"),
        Piece::If(call.is_private, " private"),
        Piece::If(call.is_field, " field"),
        Piece::Name(call.tag.as_ref()),
    ];
    lines.put(&behind);
}

/// Puts the name of a storage, or the tag of the one from which it is made, with a star.
fn put_storage(storage: &ToldStorage, lines: &mut Lines) {
    match storage {
        ToldStorage::Plain(name) => put_marked("#", name, lines),
        ToldStorage::Kept(tag) => put_marked("*", tag, lines),
    }
}

/// Puts the object that has a storage.
fn put_object(object: &ToldObject, lines: &mut Lines) {
    match object {
        ToldObject::This => lines.put(&[Piece::Text(" this")]),
        ToldObject::Use(name) => put_use(name, lines),
    }
}

/// Puts a name, or the tag of a made one, with a star, and `-` for none.
fn put_use_of(name: Option<&ToldUse>, lines: &mut Lines) {
    match name {
        Some(name) => put_use(name, lines),
        None => lines.put(&[Piece::Text(" -")]),
    }
}

/// Puts a name, or the tag of a made one, with a star.
fn put_use(name: &ToldUse, lines: &mut Lines) {
    match name {
        ToldUse::Name(told) => put_marked("", &told.name, lines),
        ToldUse::Made(tag) => put_marked("*", tag, lines),
    }
}

/// Puts a name behind a space and a mark.
fn put_marked(mark: &str, name: &Name, lines: &mut Lines) {
    lines.put(&[Piece::Word(mark), Piece::Text(name.as_str())]);
}
