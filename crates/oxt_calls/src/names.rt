//! Names that are made: each is one that nothing has.

use oxt_lines::lines::Lines;
use oxt_lines::stopped::{Stopped, all_well};
use oxt_lines::table::Table;
use oxt_names::uid::UidNames;
use oxt_resolve::names::taken_names;
use oxt_tree::tree::Node;
use std::alloc::Global;

/// A tree with names of many kinds.
const NAMES: &str = "let _a = _b; ({ _c: \"_d\" }); enum E { _e, \"_f\", [`_g`] }";

/// The names that are made beside others.
pub fn print_names(alloc: Global, table: &Table, lines: &mut Lines) -> Result<(), Stopped> {
    all_well(&[
        beside_two(alloc, lines),
        beside_seven(alloc, lines),
        beside_a_tree(alloc, table, lines),
    ])
}

/// Takes each of the names.
fn take_all(names: &mut UidNames, taken: &[&str]) -> Result<(), Stopped> {
    for name in taken {
        names.take(name)?;
    }
    Ok(())
}

/// A line with the names that are made of the texts, one after another.
fn print_made(
    names: &mut UidNames,
    texts: &[&str],
    label: &str,
    lines: &mut Lines,
) -> Result<(), Stopped> {
    lines.begin(label);
    for text in texts {
        print_next(names, text, lines)?;
    }
    lines.end();
    Ok(())
}

/// Adds the name that is made of the text.
fn print_next(names: &mut UidNames, text: &str, lines: &mut Lines) -> Result<(), Stopped> {
    let made = names.generate_uid_name(text)?;
    lines.value(made.as_str());
    Ok(())
}

fn beside_two(alloc: Global, lines: &mut Lines) -> Result<(), Stopped> {
    let mut names = UidNames::new(alloc);
    let printed = print_beside_two(&mut names, lines);
    drop(names);
    printed
}

/// Lines with the names that are made beside two that are taken, and whether two are then taken.
fn print_beside_two(names: &mut UidNames, lines: &mut Lines) -> Result<(), Stopped> {
    take_all(names, &["_x", "x2"])?;
    let texts = ["x", "x", "__y7", "12"];
    print_made(
        names,
        &texts,
        "beside _x and x2, made of x, x, __y7, 12",
        lines,
    )?;
    lines.answers("_x3 and x are taken", &[names.has("_x3"), names.has("x")]);
    Ok(())
}

fn beside_seven(alloc: Global, lines: &mut Lines) -> Result<(), Stopped> {
    let mut names = UidNames::new(alloc);
    let printed = print_beside_seven(&mut names, lines);
    drop(names);
    printed
}

/// A line with the names that are made beside seven that are taken.
fn print_beside_seven(names: &mut UidNames, lines: &mut Lines) -> Result<(), Stopped> {
    take_all(names, &["_x", "x2", "_a", "_a2", "_a4", "_", "_b9"])?;
    let texts = [
        "x", "x", "__y7", "12", "a", "a", "_a3", "A", "b", "b9", "c1d2", "c1d", "é3", "", "_", "a",
    ];
    let label =
        "beside _x x2 _a _a2 _a4 _ _b9, made of x x __y7 12 a a _a3 A b b9 c1d2 c1d é3, an empty text, _ a";
    print_made(names, &texts, label, lines)
}

fn beside_a_tree(alloc: Global, table: &Table, lines: &mut Lines) -> Result<(), Stopped> {
    let program = table.tree(alloc, NAMES)?;
    beside_the_names_of(alloc, &program.root, lines)
}

fn beside_the_names_of(alloc: Global, root: &Node, lines: &mut Lines) -> Result<(), Stopped> {
    let mut names = taken_names(alloc, root)?;
    let texts = ["a", "b", "c", "d", "e", "f", "g"];
    let label =
        "beside a binding _a, a use _b, a key _c, a string _d, members _e, _f, _g, made of a to g";
    let printed = print_made(&mut names, &texts, label, lines);
    drop(names);
    printed
}
