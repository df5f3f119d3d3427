//! The first words at the level of statements.

use crate::pieces::{Lines, Piece};
use oxt_faults::level::{FoundWord, first_level_word, first_level_word_in};
use oxt_grammar::field::Field;
use oxt_tree::tree::{Node, Part};

/// Puts a line for each statement of the program, and one for all of them: the first word at their level and the
/// number of its node, or `-`.
pub fn put_lines(program: &Node, lines: &mut Lines) {
    let statements = program.list(Field::Body);
    for statement in statements {
        put_found(word_in(statement), lines);
    }
    put_found(first_level_word_in(false, statements), lines);
}

/// The first word at the level of the statement.
fn word_in(statement: &Part) -> Option<FoundWord> {
    match statement.as_node() {
        Some(statement) => first_level_word(false, statement),
        None => None,
    }
}

/// Puts the line of a word.
fn put_found(found: Option<FoundWord>, lines: &mut Lines) {
    match found {
        Some(FoundWord { word, node }) => {
            let line = [
                Piece::Text(word.as_str()),
                Piece::Node(node),
                Piece::Text("\n"),
            ];
            lines.put(&line);
        }
        None => lines.put(&[Piece::Text("-\n")]),
    }
}
