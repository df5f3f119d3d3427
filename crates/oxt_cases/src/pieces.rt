//! Lines, put together from pieces.

use oxt_names::constant::ConstantValue;
use oxt_names::ids::NodeId;
use oxt_names::name::Name;
use serde_json::Value;
use std::alloc::{AllocError, Global};

/// A piece of a line.
#[derive(Clone, Copy)]
pub enum Piece<'a> {
    /// A text as it stands.
    Text(&'a str),
    /// A text behind a space.
    Word(&'a str),
    /// A text, where something holds.
    If(bool, &'a str),
    /// A name behind a space, and `-` for none.
    Name(Option<&'a Name>),
    /// A number.
    Number(u64),
    /// A count.
    Count(usize),
    /// A number behind a space, and `-` for none.
    Maybe(Option<u64>),
    /// The number of a node behind a space.
    Node(NodeId),
    /// A constant: a text in quotes, and `-` for none.
    Constant(Option<&'a ConstantValue>),
}

/// Lines. Where memory runs out for a piece, they may lack it: that is asked once, by `into_string`, and not of each
/// piece.
#[derive(Drop)]
pub struct Lines {
    alloc: Global,
    text: String,
    /// Whether a piece is missing for want of memory.
    lacks_piece: bool,
}

impl Lines {
    /// No lines.
    pub fn new(alloc: Global) -> Lines {
        Lines {
            alloc,
            text: String::new(alloc),
            lacks_piece: false,
        }
    }

    /// All lines.
    ///
    /// # Errors
    ///
    /// Fails where memory ran out for a piece of them.
    pub fn into_string(self) -> Result<String, AllocError> {
        if self.lacks_piece {
            Err(AllocError)
        } else {
            Ok(self.text)
        }
    }

    /// Puts the pieces, one behind another.
    pub fn put(&mut self, pieces: &[Piece]) {
        for piece in pieces {
            self.put_piece(*piece);
        }
    }

    /// Puts the numbers of the nodes, each behind a space.
    pub fn put_nodes(&mut self, nodes: &[NodeId]) {
        for node in nodes {
            self.put_node(node.0);
        }
    }

    /// Puts the digits of the bytes of a text.
    pub fn put_digits(&mut self, text: &str) {
        let digits = hex::encode(self.alloc, text);
        self.put_made(digits);
    }

    /// Puts the JSON of a value.
    pub fn put_json(&mut self, value: &Value) {
        let json = value.to_string(self.alloc);
        self.put_made(json);
    }

    /// Remembers that a piece is missing, if it was not put.
    fn note(&mut self, outcome: Result<(), AllocError>) {
        if outcome.is_err() {
            self.lacks_piece = true;
        }
    }

    /// Puts a piece.
    fn put_piece(&mut self, piece: Piece) {
        match piece {
            Piece::Text(text) => self.put_text(text),
            Piece::Word(text) => self.put_word(text),
            Piece::If(holds, text) => self.put_if(holds, text),
            Piece::Name(name) => self.put_name(name),
            Piece::Number(number) => self.put_number(number),
            Piece::Count(count) => self.put_count(count),
            Piece::Maybe(number) => self.put_maybe(number),
            Piece::Node(node) => self.put_node(node.0),
            Piece::Constant(constant) => self.put_constant(constant),
        }
    }

    /// Puts a text.
    fn put_text(&mut self, text: &str) {
        let outcome = self.text.push_str(text);
        self.note(outcome);
    }

    /// Puts a text behind a space.
    fn put_word(&mut self, text: &str) {
        self.put_text(" ");
        self.put_text(text);
    }

    /// Puts a text, where something holds.
    fn put_if(&mut self, holds: bool, text: &str) {
        if holds {
            self.put_text(text);
        }
    }

    /// Puts a text that was made for the lines, if memory sufficed for it.
    fn put_made(&mut self, made: Result<String, AllocError>) {
        match made {
            Ok(text) => self.put_text(text.as_str()),
            Err(fault) => self.note(Err(fault)),
        }
    }

    /// Puts a name behind a space, and `-` for none.
    fn put_name(&mut self, name: Option<&Name>) {
        match name {
            Some(name) => self.put_word(name.as_str()),
            None => self.put_word("-"),
        }
    }

    /// Puts a number.
    fn put_number(&mut self, number: u64) {
        let outcome = write!(self.text, "{number}");
        self.note(outcome);
    }

    /// Puts a count.
    fn put_count(&mut self, count: usize) {
        let outcome = write!(self.text, "{count}");
        self.note(outcome);
    }

    /// Puts a number behind a space, and `-` for none.
    fn put_maybe(&mut self, number: Option<u64>) {
        match number {
            Some(number) => self.put_node(number),
            None => self.put_word("-"),
        }
    }

    /// Puts the number of a node behind a space.
    fn put_node(&mut self, number: u64) {
        self.put_text(" ");
        self.put_number(number);
    }

    /// Puts a constant: a text in quotes, and `-` for none.
    fn put_constant(&mut self, constant: Option<&ConstantValue>) {
        match constant {
            Some(ConstantValue::Text(text)) => self.put_quoted(text.as_str()),
            Some(ConstantValue::Number(number)) => self.put_integer(*number),
            None => self.put_text("-"),
        }
    }

    /// Puts a text in quotes.
    fn put_quoted(&mut self, text: &str) {
        self.put_text("\"");
        self.put_text(text);
        self.put_text("\"");
    }

    /// Puts a number, which may be below 0.
    fn put_integer(&mut self, number: i64) {
        let outcome = write!(self.text, "{number}");
        self.note(outcome);
    }
}
