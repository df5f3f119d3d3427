//! Texts that are read as trees, or are none, and trees that are written.

use oxt_json::{ReadFault, read_tree, write_tree};
use oxt_lines::lines::Lines;
use oxt_lines::nodes::tree_of;
use oxt_lines::source::outline_of;
use oxt_lines::stopped::{Stopped, all_well};
use oxt_lines::table::Table;
use oxt_tree::tree::Program;
use std::alloc::Global;

/// The text of a program up to its body.
const BODY: &str = r#"{"type":"Program","body":"#;

/// What is read and written.
pub fn print_texts(alloc: Global, table: &Table, lines: &mut Lines) -> Result<(), Stopped> {
    for text in table.rows("documents") {
        let text = text.as_str().unwrap_or("");
        print_outcome(alloc, text, text.as_bytes(), lines)?;
    }
    all_well(&[
        print_outcome(alloc, "an empty text", b"", lines),
        print_outcome(
            alloc,
            "a text with a byte that is none of UTF-8",
            b"\"\xff\"",
            lines,
        ),
        print_nested(alloc, "127 arrays in one another", ("", 127, ""), lines),
        print_nested(alloc, "128 arrays in one another", ("", 128, ""), lines),
        print_nested(alloc, "126 as a body", (BODY, 126, "}"), lines),
        print_nested(alloc, "127 as a body", (BODY, 127, "}"), lines),
    ])?;
    for text in table.rows("written") {
        print_written(alloc, text.as_str().unwrap_or(""), lines)?;
    }
    print_numbers(alloc, table, lines)
}

/// A line with what the bytes are read as.
fn print_outcome(
    alloc: Global,
    label: &str,
    bytes: &[u8],
    lines: &mut Lines,
) -> Result<(), Stopped> {
    lines.begin(label);
    match read_tree(alloc, bytes) {
        Ok(_) => lines.value("tree"),
        Err(fault) => push_fault(alloc, &fault, lines)?,
    }
    lines.end();
    Ok(())
}

/// Adds the text of why the bytes are no tree.
fn push_fault(alloc: Global, fault: &ReadFault, lines: &mut Lines) -> Result<(), Stopped> {
    let text = format!(in alloc; "{fault}")?;
    lines.value(text.as_str());
    Ok(())
}

/// A line with what is read of a text, then so many arrays in one another, then a text.
fn print_nested(
    alloc: Global,
    label: &str,
    (before, levels, after): (&str, u64, &str),
    lines: &mut Lines,
) -> Result<(), Stopped> {
    let text = nested(alloc, before, levels, after)?;
    print_outcome(alloc, label, text.as_bytes(), lines)
}

/// `before`, then arrays in one another, then `after`.
fn nested(alloc: Global, before: &str, levels: u64, after: &str) -> Result<String, Stopped> {
    let mut text = String::from_str(alloc, before)?;
    for _ in 0..levels {
        text.push('[')?;
    }
    for _ in 0..levels {
        text.push(']')?;
    }
    text.push_str(after)?;
    Ok(text)
}

/// A line with the text that is written of the tree.
fn print_written(alloc: Global, text: &str, lines: &mut Lines) -> Result<(), Stopped> {
    let program = tree_of(alloc, text.as_bytes())?;
    let bytes = write_tree(alloc, &program)?;
    let written = String::from_utf8_lossy(alloc, bytes.as_slice())?;
    lines.text("written", written.as_str());
    Ok(())
}

fn print_numbers(alloc: Global, table: &Table, lines: &mut Lines) -> Result<(), Stopped> {
    let program = table.tree(alloc, "this; ;")?;
    print_program(alloc, &program, lines)
}

/// A line with the nodes of the program, and one with the next number.
fn print_program(alloc: Global, program: &Program, lines: &mut Lines) -> Result<(), Stopped> {
    let text = outline_of(alloc, &program.root)?;
    lines.text("read", text.as_str());
    lines.numbers("the next number", &[program.ids.next]);
    Ok(())
}
