//! Statements of which each may become several.

use oxt_names::ids::OutOfMemory;
use oxt_tree::tree::Part;
use std::mem;

/// Puts the list of statements in the place of the statement, if there is one.
pub fn replace_by(statement: &mut Part, statements: Option<Vec<Part>>) {
    if let Some(statements) = statements {
        *statement = Part::List(statements);
    }
}

/// Puts the statements of the lists that stand among the statements in the places of the lists.
pub fn flatten(statements: &mut Vec<Part>) -> Result<(), OutOfMemory> {
    if statements.iter().any(|statement| is_list(statement)) {
        let alloc = *statements.allocator();
        let all = mem::replace(statements, Vec::new(alloc));
        append_all(statements, all)?;
    }
    Ok(())
}

/// Whether the part is a list.
fn is_list(part: &Part) -> bool {
    match part {
        Part::List(_) => true,
        _ => false,
    }
}

/// Appends the parts, of lists their elements.
fn append_all(statements: &mut Vec<Part>, parts: Vec<Part>) -> Result<(), OutOfMemory> {
    for part in parts {
        append(statements, part)?;
    }
    Ok(())
}

/// Appends the part, of a list its elements.
fn append(statements: &mut Vec<Part>, part: Part) -> Result<(), OutOfMemory> {
    match part {
        Part::List(mut list) => statements.append(&mut list)?,
        other => statements.push(other)?,
    }
    Ok(())
}
