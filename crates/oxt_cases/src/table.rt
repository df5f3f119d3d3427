//! The tables: what each tells of a tree.

use crate::pieces::Lines;
use crate::trees::Trees;
use crate::{
    blocks, class_faults, constants, differences, enums, faults, fields, levels, names, scopes,
    told, words,
};
use anyhow::Result;
use oxt_names::ids::OutOfMemory;
use oxt_options::options::TransformOptions;
use oxt_tree::tree::Node;
use std::alloc::{AllocError, Global};

/// A table, by what its lines tell of a tree.
#[derive(Clone, Copy, PartialEq, Eq)]
pub enum Table {
    /// The owners of the names that the tree uses.
    Names,
    /// The same, with the numbers of the names.
    Owners,
    /// What the scopes declare.
    Declarations,
    /// The constants of the members of enums, by name.
    Members,
    /// The same, by number.
    Constants,
    /// The blocks of enums.
    Blocks,
    /// What is looked up of enums.
    Enums,
    /// The scopes, symbols and references.
    Scopes,
    /// The blocks before which nothing of their name emits code.
    FirstBlocks,
    /// The first declaration that clashes with one before it.
    Clash,
    /// What stands in the way of lowering the enums.
    EnumFaults,
    /// What becomes of the elements of classes.
    Fields,
    /// What stands in the way of lowering the classes.
    ClassFaults,
    /// What is told of nodes.
    Told,
    /// The first words at the level of the statements.
    Levels,
    /// The word of the tree as that of a source.
    Word,
    /// The same, where nodes are told what they become.
    ToldWord,
    /// The same, where names have their groups.
    Owned,
    /// The word of the output.
    Pair,
    /// The first difference of the word of the output from that of the tree.
    Differences,
}

/// The tables that have cases.
pub const TABLES: [Table; 20] = [
    Table::Names,
    Table::Owners,
    Table::Declarations,
    Table::Members,
    Table::Constants,
    Table::Blocks,
    Table::Enums,
    Table::Scopes,
    Table::FirstBlocks,
    Table::Clash,
    Table::EnumFaults,
    Table::Fields,
    Table::ClassFaults,
    Table::Told,
    Table::Levels,
    Table::Word,
    Table::ToldWord,
    Table::Owned,
    Table::Pair,
    Table::Differences,
];

impl Table {
    /// The table that is named so on the command line.
    pub fn named(word: &str) -> Option<Table> {
        match word {
            "names" => Some(Table::Names),
            "owners" => Some(Table::Owners),
            "declarations" => Some(Table::Declarations),
            "members" => Some(Table::Members),
            "constants" => Some(Table::Constants),
            "blocks" => Some(Table::Blocks),
            "enums" => Some(Table::Enums),
            "table" => Some(Table::Scopes),
            "first-blocks" => Some(Table::FirstBlocks),
            "clash" => Some(Table::Clash),
            "enum-faults" => Some(Table::EnumFaults),
            "fields" => Some(Table::Fields),
            "class-faults" => Some(Table::ClassFaults),
            "told" => Some(Table::Told),
            "levels" => Some(Table::Levels),
            "word" => Some(Table::Word),
            "told-word" => Some(Table::ToldWord),
            "owned" => Some(Table::Owned),
            "pair" => Some(Table::Pair),
            "differences" => Some(Table::Differences),
            _ => None,
        }
    }

    /// The file that holds its cases.
    pub fn file(self) -> &'static str {
        match self {
            Table::Names => "names.json",
            Table::Owners => "owners.json",
            Table::Declarations => "declarations.json",
            Table::Members => "members.json",
            Table::Constants => "constants.json",
            Table::Blocks => "blocks.json",
            Table::Enums => "enums.json",
            Table::Scopes => "table.json",
            Table::FirstBlocks => "first-blocks.json",
            Table::Clash => "clash.json",
            Table::EnumFaults => "enum-faults.json",
            Table::Fields => "fields.json",
            Table::ClassFaults => "class-faults.json",
            Table::Told => "told.json",
            Table::Levels => "levels.json",
            Table::Word => "word.json",
            Table::ToldWord => "told-word.json",
            Table::Owned => "owned.json",
            Table::Pair => "pair.json",
            Table::Differences => "differences.json",
        }
    }

    /// Whether its lines are made of a tree and of an output beside it.
    pub fn compares_two(self) -> bool {
        self == Table::Pair || self == Table::Differences
    }

    /// The lines for these trees.
    ///
    /// # Errors
    ///
    /// One that says that the output is not there; or want of memory.
    pub fn lines(self, alloc: Global, trees: &Trees) -> Result<String> {
        let mut lines = Lines::new(alloc);
        self.put_lines(alloc, trees, &mut lines)?;
        Ok(lines.into_string()?)
    }

    /// Puts the lines for these trees.
    fn put_lines(self, alloc: Global, trees: &Trees, lines: &mut Lines) -> Result<()> {
        match self {
            Table::Pair | Table::Differences => {
                let output = trees.output()?;
                or_memory(self.put_pair(alloc, &trees.tree.root, &output.root, lines))
            }
            _ => or_memory(self.put_tree(alloc, trees, lines)),
        }
    }

    /// Puts the lines for a tree and an output.
    fn put_pair(
        self,
        alloc: Global,
        source: &Node,
        output: &Node,
        lines: &mut Lines,
    ) -> Result<(), OutOfMemory> {
        match self {
            Table::Pair => words::put_output(alloc, source, output, lines),
            _ => differences::put_lines(alloc, source, output, lines),
        }
    }

    /// Puts the lines for a tree alone.
    fn put_tree(self, alloc: Global, trees: &Trees, lines: &mut Lines) -> Result<(), OutOfMemory> {
        match self {
            Table::Enums => enums::put_lines(alloc, &trees.tree, lines),
            Table::Told => told::put_lines(alloc, &trees.tree, &trees.options, lines),
            _ => self.put_read(alloc, &trees.tree.root, &trees.options, lines),
        }
    }

    /// Puts the lines for a tree that is read under options.
    fn put_read(
        self,
        alloc: Global,
        program: &Node,
        options: &TransformOptions,
        lines: &mut Lines,
    ) -> Result<(), OutOfMemory> {
        match self {
            Table::Fields => fields::put_lines(alloc, program, options, lines),
            Table::ClassFaults => class_faults::put_lines(alloc, program, options, lines),
            Table::ToldWord => words::put_told(alloc, program, options, lines),
            Table::Owned => words::put_owned(alloc, program, options, lines),
            _ => self.put_plain(alloc, program, lines),
        }
    }

    /// Puts the lines for a tree that is read without options.
    fn put_plain(
        self,
        alloc: Global,
        program: &Node,
        lines: &mut Lines,
    ) -> Result<(), OutOfMemory> {
        match self {
            Table::Names => names::put_owners(alloc, program, lines),
            Table::Owners => names::put_numbered(alloc, program, lines),
            Table::Declarations => names::put_declarations(alloc, program, lines),
            Table::Members => constants::put_members(alloc, program, lines),
            Table::Constants => constants::put_numbered(alloc, program, lines),
            Table::Blocks => constants::put_blocks(alloc, program, lines),
            Table::Scopes => scopes::put_lines(alloc, program, lines),
            Table::FirstBlocks => blocks::put_first(alloc, program, lines),
            Table::Clash => blocks::put_clash(alloc, program, lines),
            Table::EnumFaults => faults::put_lines(alloc, program, lines),
            Table::Levels => {
                levels::put_lines(program, lines);
                Ok(())
            }
            _ => words::put_source(alloc, program, lines),
        }
    }
}

/// The same, with want of memory as an error of any kind.
fn or_memory(outcome: Result<(), OutOfMemory>) -> Result<()> {
    Ok(outcome.map_err(|_| AllocError)?)
}
