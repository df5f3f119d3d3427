//! The scopes of the table.
ghost use Rattle.std.specs.Prelude.{◌≡◌, ◌<◌, IfOk, OnOk, length};
ghost use Rattle.oxt_scopes.specs.Stack.{number_at};
ghost use Rattle.oxt_scopes.specs.Views.{opened_view, opened_views};
ghost use Rattle.oxt_tree.specs.View.{node_doc};
ghost use Rattle.oxt_resolve.specs.Flags.{both};
ghost use Rattle.oxt_resolve.specs.Marks.{flags_in};
ghost use Rattle.oxt_resolve.specs.Resolved.{all_opened, flags_at, flags_within, opened_in, opened_within, root_of, scope_of_number, with_opened};

use crate::flags::{both, inherited, role_flags};
use crate::marks::Marks;
use oxt_names::flags::ScopeFlags;
use oxt_names::ids::{NodeId, OutOfMemory, ScopeId};
use oxt_names::uid::UidNames;
use oxt_scopes::scopes::OpenedScope;
use oxt_scoping::scoping::Scoping;
use oxt_tree::tree::Node;
use std::alloc::Global;

/// The table with the scope of the program alone, in which these names are taken.
pub fn root_of(
    alloc: Global,
    program: &Node,
    marks: &Marks,
    taken: UidNames,
) -> Result<Scoping, OutOfMemory>
    ensures { IfOk result (λ table. table ≡ root_of (flags_in marks.now) taken (node_doc program.now)) }
{
    let flags = both(ScopeFlags::Top, marks.flags_of(program.id));
    Scoping::of_program(alloc, flags, program.id, taken)
}

/// Opens the scopes, each in the one around it.
pub fn open_all(
    table: &mut Scoping,
    marks: &Marks,
    scopes: &[OpenedScope],
) -> Result<(), OutOfMemory>
    ensures { OnOk result (table.new ≡ all_opened (flags_in marks.now) (opened_views scopes.now) table.old) }
{
    for scope in scopes {
        open(table, marks, scope)?;
    }
    Ok(())
}

/// Opens the scope in the one around it; the program's, which is in none, is there.
fn open(table: &mut Scoping, marks: &Marks, scope: &OpenedScope) -> Result<(), OutOfMemory>
    ensures { OnOk result (table.new ≡ with_opened (flags_in marks.now) table.old (opened_view scope.now)) }
{
    match scope.parent {
        Some(number) => open_in(table, marks, scope, number),
        None => Ok(()),
    }
}

/// Opens the scope in that of that number.
#[tactic(auto, using(crate::proofs::Steps::opened_is))]
fn open_in(
    table: &mut Scoping,
    marks: &Marks,
    scope: &OpenedScope,
    number: NodeId,
) -> Result<(), OutOfMemory>
    ensures { OnOk result (table.new ≡ opened_within (flags_in marks.now) (opened_view scope.now) (scope_of_number number.0 table.old) table.old) }
{
    let parent = scope_of_number(table, number);
    let flags = flags_within(marks, scope, table.scope_flags(parent));
    table.open_scope(scope.number, parent, flags)?;
    Ok(())
}

/// The flags of the scope, around which there is one with these.
fn flags_within(marks: &Marks, scope: &OpenedScope, around: ScopeFlags) -> ScopeFlags
    ensures { result ≡ flags_within (flags_in marks.now) (opened_view scope.now) around }
{
    let own = both(role_flags(scope.role), marks.flags_of(scope.number));
    both(own, inherited(around))
}

/// The scope that the node of that number opens; the program's where none does.
pub fn scope_of_number(table: &Scoping, number: NodeId) -> ScopeId
    ensures scope { result ≡ scope_of_number number.0 table.now }
    ensures live { result.0 < length table.now.scopes }
{
    match table.scope_of(number) {
        Some(scope) => scope,
        None => table.root_scope_id(),
    }
}
