//! The table of a tree.
ghost use Rattle.std.specs.Prelude.{◌≡◌, IfOk, OnOk};
ghost use Rattle.oxt_resolve.specs.Groups.{groups_by, groups_of};
ghost use Rattle.oxt_resolve.specs.Marks.{flags_in};
ghost use Rattle.oxt_resolve.specs.Resolved.{all_declared, all_enums, all_opened, all_used, declared_by, resolved, table_by, taken_in, values_by};
ghost use Rattle.oxt_scopes.specs.OwnedViews.{owned_views};
ghost use Rattle.oxt_scopes.specs.Views.{opened_views};
ghost use Rattle.oxt_tree.specs.View.{node_doc};

use crate::enums::{has_enums, tell_all};
use crate::groups::groups_by;
use crate::marks::Marks;
use crate::names::taken_names;
use crate::opening::{open_all, root_of};
use crate::symbols::declare_all;
use crate::uses::refer_all;
use oxt_enums::enums::EnumConstants;
use oxt_facts::owners::NameGroups;
use oxt_names::ids::OutOfMemory;
use oxt_names::uid::UidNames;
use oxt_scopes::owners::OwnedName;
use oxt_scopes::scopes::OpenedScope;
use oxt_scopes::walk::{Walked, walked_of};
use oxt_scoping::scoping::Scoping;
use oxt_tree::tree::Node;
use std::alloc::Global;

/// The scopes of the tree in the order of the text, the symbols that they declare, the references of
/// the names that it uses, the bodies of its enums and the constants of their members, and the names
/// that it takes. `legacy` says whether decorators have their older meaning.
///
/// # Errors
///
/// Fails only where memory runs out.
pub fn resolve(alloc: Global, program: &Node, legacy: bool) -> Result<Scoping, OutOfMemory>
    ensures { IfOk result (λ table. table ≡ resolved legacy (node_doc program.now)) }
{
    let Resolution { scoping, names } = resolve_names(alloc, program, legacy)?;
    drop(names);
    Ok(scoping)
}

/// The names of a tree.
#[derive(Drop)]
pub struct TreeNames {
    /// The groups that they mean and declare.
    pub groups: NameGroups,
    /// Those that are taken.
    pub taken: UidNames,
}

impl TreeNames {
    /// Those of the tree, whose scopes and used names these are.
    fn of(alloc: Global, program: &Node, walked: &Walked<'_>) -> Result<TreeNames, OutOfMemory>
        ensures groups { IfOk result
            (λ made. made.groups ≡ groups_by (opened_views walked.now.scopes.items) (owned_views walked.now.names.items)) }
        ensures taken { IfOk result (λ made. made.taken ≡ taken_in (node_doc program.now)) }
    {
        let groups = groups_by(alloc, walked.scopes.as_slice(), walked.names.as_slice())?;
        let taken = taken_names(alloc, program)?;
        Ok(TreeNames { groups, taken })
    }
}

/// The table of a tree, and its names.
#[derive(Drop)]
pub struct Resolution {
    /// The table.
    pub scoping: Scoping,
    /// The names.
    pub names: TreeNames,
}

/// The table of the tree, as `resolve` makes it, with the groups that its names mean and declare and the names that it takes.
///
/// # Errors
///
/// Fails only where memory runs out.
pub fn resolve_names(alloc: Global, program: &Node, legacy: bool) -> Result<Resolution, OutOfMemory>
    ensures table { IfOk result (λ made. made.scoping ≡ resolved legacy (node_doc program.now)) }
    ensures groups { IfOk result (λ made. made.names.groups ≡ groups_of legacy (node_doc program.now)) }
    ensures taken { IfOk result (λ made. made.names.taken ≡ taken_in (node_doc program.now)) }
{
    let walked = walked_of(alloc, program, legacy)?;
    let names = TreeNames::of(alloc, program, &walked)?;
    let scoping = table_beside(alloc, program, &walked, &names.taken)?;
    Ok(Resolution { scoping, names })
}

/// The table of the tree, which takes the names that are also listed there, and whose scopes and used names these are.
fn table_beside(
    alloc: Global,
    program: &Node,
    walked: &Walked<'_>,
    listed: &UidNames,
) -> Result<Scoping, OutOfMemory>
    ensures { IfOk result
        (λ table. table ≡ table_by listed.now (owned_views walked.now.names.items) (opened_views walked.now.scopes.items) (node_doc program.now)) }
{
    let taken = listed.copy()?;
    table_of(
        alloc,
        program,
        taken,
        walked.scopes.as_slice(),
        walked.names.as_slice(),
    )
}

/// The table of the tree, which takes these names, has these scopes and uses these names.
fn table_of<'a>(
    alloc: Global,
    program: &'a Node,
    taken: UidNames,
    scopes: &[OpenedScope<'a>],
    owners: &[OwnedName],
) -> Result<Scoping, OutOfMemory>
    ensures { IfOk result
        (λ table. table ≡ table_by taken (owned_views owners.now) (opened_views scopes.now) (node_doc program.now)) }
{
    let marks = Marks::of(alloc, program)?;
    let mut table = declared_of(alloc, program, &marks, taken, scopes)?;
    match tell_uses(alloc, program, scopes, owners, &mut table) {
        Ok(()) => Ok(table),
        Err(fault) => Err(fault),
    }
}

/// The table with the scopes of the tree, whose marks these are and which takes these names, and what they declare.
fn declared_of(
    alloc: Global,
    program: &Node,
    marks: &Marks,
    taken: UidNames,
    scopes: &[OpenedScope],
) -> Result<Scoping, OutOfMemory>
    ensures { IfOk result
        (λ table. table ≡ declared_by (flags_in marks.now) taken (opened_views scopes.now) (node_doc program.now)) }
{
    let mut table = root_of(alloc, program, marks, taken)?;
    match open_and_declare(alloc, marks, scopes, &mut table) {
        Ok(()) => Ok(table),
        Err(fault) => Err(fault),
    }
}

/// Opens the scopes, and then declares what each declares.
fn open_and_declare(
    alloc: Global,
    marks: &Marks,
    scopes: &[OpenedScope],
    table: &mut Scoping,
) -> Result<(), OutOfMemory>
    ensures { OnOk result (table.new ≡ all_declared (opened_views scopes.now)
        (all_opened (flags_in marks.now) (opened_views scopes.now) table.old)) }
{
    open_all(table, marks, scopes)?;
    declare_all(alloc, table, scopes)
}

/// Tells the bodies and constants of enums, and then the names that are used.
fn tell_uses<'a>(
    alloc: Global,
    program: &'a Node,
    scopes: &[OpenedScope<'a>],
    owners: &[OwnedName],
    table: &mut Scoping,
) -> Result<(), OutOfMemory>
    ensures { OnOk result (table.new ≡ all_used (owned_views owners.now)
        (all_enums (values_by (owned_views owners.now) (opened_views scopes.now) (node_doc program.now)) (opened_views scopes.now) table.old)) }
{
    tell_enums(alloc, program, scopes, owners, table)?;
    refer_all(table, owners)
}

/// Tells the bodies of the enums of the tree, and the constants of their members. Where no scope declares any, there is
/// nothing to tell.
fn tell_enums<'a>(
    alloc: Global,
    program: &'a Node,
    scopes: &[OpenedScope<'a>],
    owners: &[OwnedName],
    table: &mut Scoping,
) -> Result<(), OutOfMemory>
    ensures { OnOk result (table.new ≡ all_enums
        (values_by (owned_views owners.now) (opened_views scopes.now) (node_doc program.now)) (opened_views scopes.now) table.old) }
{
    if has_enums(scopes) {
        tell_constants(alloc, program, scopes, owners, table)
    } else {
        Ok(())
    }
}

/// The same, by the constants of the members.
fn tell_constants<'a>(
    alloc: Global,
    program: &'a Node,
    scopes: &[OpenedScope<'a>],
    owners: &[OwnedName],
    table: &mut Scoping,
) -> Result<(), OutOfMemory>
    ensures { OnOk result (table.new ≡ all_enums
        (values_by (owned_views owners.now) (opened_views scopes.now) (node_doc program.now)) (opened_views scopes.now) table.old) }
{
    let enums = EnumConstants::of(alloc, program, owners, scopes)?;
    tell_all(table, &enums, scopes)
}
