//! The program of cases: trees, and what the crates find in them.
//!
//! Without an argument it runs each case of the tables in the files `*.json`, prints a line for each, and the
//! count of all. With the name of a table as its argument it reads a tree from standard input, and prints the
//! lines of that table for it; or an object as a case is, with a `tree`, options, and for `pair` and `differences` an
//! `output`.
//!
//! A word of a tree is written an item a line: a JSON array without spaces, of the name of the item's kind, what
//! the item is spelled, and its further texts and flags, in the order of the grammar. What is absent is `null`.
//! The program `let x = 1` has the lines
//!
//! ```text
//! ["Num",1]
//! ["Set",null]
//! ["Bind","x","let",false]
//! ```
//!
//! Two trees do the same where the lines of their words are the same. Where no word can be shown, standard error
//! gets one line that says why, as `Error: shape /body`, and the status is 1.
#![tactic(auto)]

mod blocks;
mod case;
mod class_faults;
mod classes;
mod constants;
mod decorated;
mod differences;
mod enums;
mod fault;
mod faults;
mod fields;
mod items;
mod levels;
mod names;
mod namespaces;
mod nodes;
mod pieces;
mod run;
mod scopes;
mod show;
mod shown;
mod table;
mod tally;
mod told;
mod trees;
mod words;

use crate::run::run_tables;
use crate::show::show;
use anyhow::Result;
use std::env;

fn main(rt: HostRuntime) -> Result<()> {
    let mut words = env::args(&rt)?.skip(1);
    match words.next() {
        None => run_tables(&rt),
        Some(word) => show(&rt, word.as_str()),
    }
}
