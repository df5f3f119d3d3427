//! What is told of namespaces, and of the pieces of templates.

use crate::classes::put_told_names;
use crate::pieces::{Lines, Piece};
use oxt_facts::told::{ToldExport, ToldNamespace, ToldQuasi, ToldStored};

/// Puts `NUMBER namespace NAME TAG BASE first`, with `-` where no block exports it.
pub fn put_namespace(number: u64, namespace: &ToldNamespace, lines: &mut Lines) {
    let line = [
        Piece::Number(number),
        Piece::Text(" namespace"),
        Piece::Word(namespace.name.as_str()),
        Piece::Word(namespace.tag.as_str()),
        Piece::Name(namespace.base.as_ref()),
        Piece::If(namespace.is_first, " first"),
        Piece::Text("\n"),
    ];
    lines.put(&line);
}

/// Puts `NUMBER export TAG NAME ..`.
pub fn put_export(number: u64, export: &ToldExport, lines: &mut Lines) {
    let front = [
        Piece::Number(number),
        Piece::Text(" export"),
        Piece::Word(export.tag.as_str()),
    ];
    lines.put(&front);
    put_told_names(export.names.as_slice(), lines);
    lines.put(&[Piece::Text("\n")]);
}

/// Puts `NUMBER stored TAG NAME`.
pub fn put_stored(number: u64, stored: &ToldStored, lines: &mut Lines) {
    let line = [
        Piece::Number(number),
        Piece::Text(" stored"),
        Piece::Word(stored.tag.as_str()),
        Piece::Word(stored.name.as_str()),
        Piece::Text("\n"),
    ];
    lines.put(&line);
}

/// Puts `NUMBER quasi RAW COOKED`, with `-` for a text that is absent.
pub fn put_quasi(number: u64, quasi: &ToldQuasi, lines: &mut Lines) {
    let line = [
        Piece::Number(number),
        Piece::Text(" quasi"),
        Piece::Name(quasi.raw.as_ref()),
        Piece::Name(quasi.cooked.as_ref()),
        Piece::Text("\n"),
    ];
    lines.put(&line);
}
