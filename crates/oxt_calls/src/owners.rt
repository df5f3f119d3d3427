//! The groups that names mean and declare.

use oxt_facts::owners::NameGroups;
use oxt_lines::lines::Lines;
use oxt_lines::stopped::{Stopped, all_well};
use oxt_lines::table::Table;
use oxt_names::ids::NodeId;
use oxt_resolve::groups::groups_of;
use std::alloc::Global;

/// The groups of names in trees, by their nodes: of the use of `x` first.
pub fn print_owners(alloc: Global, table: &Table, lines: &mut Lines) -> Result<(), Stopped> {
    all_well(&[
        of_variables(alloc, table, lines),
        of_imports(alloc, table, lines),
        by_hand(alloc, lines),
    ])
}

fn of_variables(alloc: Global, table: &Table, lines: &mut Lines) -> Result<(), Stopped> {
    all_well(&[
        print_groups(alloc, table, "{ x; let x; }", &[4, 7], lines),
        print_groups(alloc, table, "{ x; declare let x; }", &[4, 7], lines),
        print_groups(alloc, table, "{ x; }", &[4], lines),
    ])
}

fn of_imports(alloc: Global, table: &Table, lines: &mut Lines) -> Result<(), Stopped> {
    all_well(&[
        print_groups(alloc, table, "x;", &[3], lines),
        print_groups(alloc, table, "x; import x twice", &[3, 6, 10], lines),
        print_groups(
            alloc,
            table,
            "x; import x; interface x {}",
            &[3, 6, 9],
            lines,
        ),
    ])
}

/// Groups that are put one by one, the second in place of the first.
fn by_hand(alloc: Global, lines: &mut Lines) -> Result<(), Stopped> {
    let mut groups = NameGroups::new(alloc);
    let printed = put_twice(&mut groups, lines);
    drop(groups);
    printed
}

/// Puts two groups of one node, and prints a line with what is there then.
fn put_twice(groups: &mut NameGroups, lines: &mut Lines) -> Result<(), Stopped> {
    groups.put(NodeId(4), 7)?;
    groups.put(NodeId(4), 2)?;
    push_groups(groups, "4 is put to 7, then to 2", &[4, 7], lines);
    Ok(())
}

/// A line with the groups of these nodes of a tree.
fn print_groups(
    alloc: Global,
    table: &Table,
    tree: &str,
    nodes: &[u64],
    lines: &mut Lines,
) -> Result<(), Stopped> {
    let groups = groups_in(alloc, table, tree)?;
    push_groups(&groups, tree, nodes, lines);
    drop(groups);
    Ok(())
}

/// The groups of the names of a tree.
fn groups_in(alloc: Global, table: &Table, tree: &str) -> Result<NameGroups, Stopped> {
    let program = table.tree(alloc, tree)?;
    let groups = groups_of(alloc, &program.root, false)?;
    Ok(groups)
}

/// A line with the groups of these nodes.
fn push_groups(groups: &NameGroups, text: &str, nodes: &[u64], lines: &mut Lines) {
    lines.begin_of("the groups of nodes", text);
    for node in nodes {
        lines.option_value(groups.of(NodeId(*node)));
    }
    lines.end();
}
