//! Trees as texts.

use crate::stopped::Stopped;
use oxt_grammar::field::Field;
use oxt_grammar::kind::Kind;
use oxt_tree::tree::{Node, Part};
use std::alloc::{AllocError, Global};

/// The statements as source text, a blank between two.
pub fn source_of(alloc: Global, statements: &[Part]) -> Result<String, Stopped> {
    let mut text = String::new(alloc);
    for i in 0..statements.len() {
        if i > 0 {
            text.push(' ')?;
        }
        push_source(&mut text, &statements[i])?;
    }
    Ok(text)
}

/// Adds the source text of a statement.
pub fn push_source(text: &mut String, part: &Part) -> Result<(), AllocError> {
    match part {
        Part::Node(node) if node.kind.is(Kind::EmptyStatement) => push_letter(text, node.id.0),
        Part::Node(node) => push_declaration(text, node),
        _ => text.push('?'),
    }
}

/// Adds the letter whose number that is.
fn push_letter(text: &mut String, number: u64) -> Result<(), AllocError> {
    match u8::try_from(number) {
        Ok(letter) => text.push(char::from(letter)),
        Err(_) => text.push('?'),
    }
}

/// Adds a declaration of variables.
pub fn push_declaration(text: &mut String, node: &Node) -> Result<(), AllocError> {
    push_text(text, node.field(Field::Kind))?;
    let declarators = node.list(Field::Declarations);
    for i in 0..declarators.len() {
        text.push_str(before(i))?;
        push_declarator(text, &declarators[i])?;
    }
    text.push(';')
}

/// What stands before the declarator at that place.
fn before(place: usize) -> &'static str {
    if place == 0 { " " } else { ", " }
}

/// Adds a declarator, with its initializer if it has one.
fn push_declarator(text: &mut String, part: &Part) -> Result<(), AllocError> {
    let Part::Node(node) = part else {
        return text.push('?');
    };
    push_first(text, node.field(Field::Id))?;
    if node.lacks(Field::Init) {
        return Ok(());
    }
    text.push_str(" = ")?;
    push_first(text, node.field(Field::Init))
}

/// Adds what the first field of a node holds.
fn push_first(text: &mut String, part: Option<&Part>) -> Result<(), AllocError> {
    match part {
        Some(Part::Node(node)) => push_text(text, node.at(0)),
        _ => text.push('?'),
    }
}

/// Adds a text, a word or a number.
fn push_text(text: &mut String, part: Option<&Part>) -> Result<(), AllocError> {
    match part {
        Some(Part::Number(number)) => write!(text, "{number}"),
        Some(part) => text.push_str(part.as_text().unwrap_or("?")),
        None => text.push('?'),
    }
}

/// The nodes of a tree, each with its kind, its number, its texts, and the nodes in it in parentheses.
pub fn outline_of(alloc: Global, node: &Node) -> Result<String, Stopped> {
    let mut text = String::new(alloc);
    push_outline(&mut text, node)?;
    Ok(text)
}

#[cycle(outline)]
fn push_outline(text: &mut String, node: &Node) -> Result<(), AllocError> {
    let kind = node.kind.name();
    let number = node.id.0;
    write!(text, "{kind} {number}")?;
    push_parts(text, &node.parts)
}

#[cycle(outline)]
fn push_parts(text: &mut String, parts: &[Part]) -> Result<(), AllocError> {
    for part in parts {
        push_part(text, part)?;
    }
    Ok(())
}

#[cycle(outline)]
fn push_part(text: &mut String, part: &Part) -> Result<(), AllocError> {
    match part {
        Part::Node(node) => {
            text.push_str(" (")?;
            push_outline(text, node)?;
            text.push(')')
        }
        Part::List(parts) => push_parts(text, parts),
        Part::Text(name) => {
            text.push(' ')?;
            text.push_str(name.as_str())
        }
        _ => Ok(()),
    }
}
