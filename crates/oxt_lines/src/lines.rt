//! The lines that are printed.

use crate::stopped::Stopped;
use std::alloc::{AllocError, Global};

/// Lines, each of which has a label, a colon, and values behind it. Where memory runs out for a line, it may lack a part: that
/// is asked once, by `as_str`, and not of each line.
#[derive(Drop)]
pub struct Lines {
    text: String,
    /// Whether a part is missing for want of memory.
    lacks_part: bool,
}

impl Lines {
    /// No lines.
    pub fn new(alloc: Global) -> Lines {
        Lines {
            text: String::new(alloc),
            lacks_part: false,
        }
    }

    /// All lines.
    ///
    /// # Errors
    ///
    /// Fails where memory ran out for one of them.
    pub fn as_str(&self) -> Result<&str, Stopped> {
        if self.lacks_part {
            Err(Stopped::Memory)
        } else {
            Ok(self.text.as_str())
        }
    }

    /// Remembers that a part is missing, if it was not added.
    fn note(&mut self, added: Result<(), AllocError>) {
        if added.is_err() {
            self.lacks_part = true;
        }
    }

    /// Adds whole lines.
    pub fn add(&mut self, lines: &str) {
        let added = self.text.push_str(lines);
        self.note(added);
    }

    /// Begins a line.
    pub fn begin(&mut self, label: &str) {
        self.add(label);
        self.add(":");
    }

    /// Begins a line about that text.
    pub fn begin_of(&mut self, label: &str, text: &str) {
        let added = write!(self.text, "{label} [{text}]:");
        self.note(added);
    }

    /// Begins a line with an operator between its operands, or before its only one.
    pub fn operation(&mut self, left: Option<i64>, operator: &str, right: i64) {
        if let Some(left) = left {
            let added = write!(self.text, "{left} ");
            self.note(added);
        }
        let added = write!(self.text, "{operator} {right}:");
        self.note(added);
    }

    /// A line without values.
    pub fn heading(&mut self, label: &str) {
        self.begin(label);
        self.end();
    }

    /// Adds a value to the line.
    pub fn value(&mut self, value: &str) {
        self.add(" ");
        self.add(value);
    }

    /// Adds a number to the line.
    pub fn number_value(&mut self, number: u64) {
        let added = write!(self.text, " {number}");
        self.note(added);
    }

    /// Adds a number to the line, which may be below 0.
    pub fn integer_value(&mut self, number: i64) {
        let added = write!(self.text, " {number}");
        self.note(added);
    }

    /// Ends the line.
    pub fn end(&mut self) {
        self.add("\n");
    }

    /// A line with that text.
    pub fn text(&mut self, label: &str, text: &str) {
        self.begin(label);
        self.value(text);
        self.end();
    }

    /// A line with that text in brackets.
    pub fn bracketed(&mut self, label: &str, text: &str) {
        let added = write!(self.text, "{label}: [{text}]\n");
        self.note(added);
    }

    /// A line with those texts.
    pub fn texts(&mut self, label: &str, texts: &[&str]) {
        self.begin(label);
        for text in texts {
            self.value(text);
        }
        self.end();
    }

    /// A line with those numbers.
    pub fn numbers(&mut self, label: &str, numbers: &[u64]) {
        self.begin(label);
        for number in numbers {
            self.number_value(*number);
        }
        self.end();
    }

    /// A line with those numbers, and a dash where there is none.
    pub fn options(&mut self, label: &str, numbers: &[Option<u64>]) {
        self.begin(label);
        for number in numbers {
            self.option_value(*number);
        }
        self.end();
    }

    /// Adds a number to the line, or a dash.
    pub fn option_value(&mut self, number: Option<u64>) {
        match number {
            Some(number) => self.number_value(number),
            None => self.value("-"),
        }
    }

    /// A line that says of each whether it is so.
    pub fn answers(&mut self, label: &str, answers: &[bool]) {
        self.begin(label);
        for answer in answers {
            self.value(yes_or_no(*answer));
        }
        self.end();
    }
}

/// The word for an answer.
fn yes_or_no(answer: bool) -> &'static str {
    if answer { "yes" } else { "no" }
}
