//! The groups that the names of a tree mean and declare. A group is the declarations of a spelling in one scope; it goes by the number of
//! the first node that declares it.
ghost use Rattle.std.specs.Prelude.{◌≡◌, [], IfOk, OnOk};
ghost use Rattle.oxt_declares.specs.Declarations.{declared_view};
ghost use Rattle.oxt_resolve.specs.Groups.{first_at, grouped, groups_by, groups_of, with_declared, with_scope, with_scopes, with_used, with_uses};
ghost use Rattle.oxt_scopes.specs.OwnedViews.{owned_view, owned_views};
ghost use Rattle.oxt_scopes.specs.Views.{opened_view, opened_views};
ghost use Rattle.oxt_tree.specs.View.{node_doc};

use crate::firsts::Firsts;
use oxt_declares::declaration::Declaration;
use oxt_facts::owners::NameGroups;
use oxt_names::ids::{NodeId, OutOfMemory};
use oxt_scopes::owners::OwnedName;
use oxt_scopes::scopes::OpenedScope;
use oxt_scopes::walk::{Walked, walked_of};
use oxt_tree::tree::Node;
use std::alloc::Global;

/// The groups of the names of the tree. `legacy` says whether decorators have their older meaning.
///
/// # Errors
///
/// Fails only where memory runs out.
pub fn groups_of(alloc: Global, program: &Node, legacy: bool) -> Result<NameGroups, OutOfMemory>
    ensures { IfOk result (λ groups. groups ≡ groups_of legacy (node_doc program.now)) }
{
    let Walked { scopes, names } = walked_of(alloc, program, legacy)?;
    groups_by(alloc, scopes.as_slice(), names.as_slice())
}

/// Those of a tree that has these scopes and uses these names.
pub(crate) fn groups_by<'a>(
    alloc: Global,
    scopes: &[OpenedScope<'a>],
    names: &[OwnedName],
) -> Result<NameGroups, OutOfMemory>
    ensures { IfOk result (λ groups. groups ≡ groups_by (opened_views scopes.now) (owned_views names.now)) }
{
    let firsts = Firsts::of(alloc, scopes)?;
    groups_with(alloc, &firsts, scopes, names)
}

/// The same, where these are the first nodes that declare each spelling.
fn groups_with(
    alloc: Global,
    firsts: &Firsts,
    scopes: &[OpenedScope],
    names: &[OwnedName],
) -> Result<NameGroups, OutOfMemory>
    ensures { IfOk result (λ groups. groups ≡ with_uses (first_at firsts.now) (owned_views names.now)
        (with_scopes (first_at firsts.now) (opened_views scopes.now) [])) }
{
    let mut groups = NameGroups::new(alloc);
    put_scopes(firsts, scopes, &mut groups)?;
    put_uses(firsts, names, &mut groups)?;
    Ok(groups)
}

/// Puts the groups of what the scopes declare.
fn put_scopes(
    firsts: &Firsts,
    scopes: &[OpenedScope],
    groups: &mut NameGroups,
) -> Result<(), OutOfMemory>
    ensures { OnOk result (groups.new ≡ with_scopes (first_at firsts.now) (opened_views scopes.now) groups.old) }
{
    for scope in scopes {
        put_scope(firsts, scope, groups)?;
    }
    Ok(())
}

/// Puts the groups of what the scope declares.
fn put_scope(
    firsts: &Firsts,
    scope: &OpenedScope,
    groups: &mut NameGroups,
) -> Result<(), OutOfMemory>
    ensures { OnOk result (groups.new ≡ with_scope (first_at firsts.now) groups.old (opened_view scope.now)) }
{
    let number = scope.number;
    for declaration in scope.declarations.as_slice() {
        put_declared(firsts, number, declaration, groups)?;
    }
    Ok(())
}

/// Puts the group of a declaration in the scope of that number.
fn put_declared(
    firsts: &Firsts,
    scope: NodeId,
    declaration: &Declaration,
    groups: &mut NameGroups,
) -> Result<(), OutOfMemory>
    ensures { OnOk result (groups.new ≡ with_declared (first_at firsts.now) scope.0 groups.old (declared_view declaration.now)) }
{
    let group = firsts.first_of(scope, declaration.name);
    put_group(declaration.node, group, groups)
}

/// Puts the groups of the names that are used.
#[tactic(auto, using(crate::proofs::Folds::group_steps))]
fn put_uses(
    firsts: &Firsts,
    names: &[OwnedName],
    groups: &mut NameGroups,
) -> Result<(), OutOfMemory>
    ensures { OnOk result (groups.new ≡ with_uses (first_at firsts.now) (owned_views names.now) groups.old) }
{
    for name in names {
        put_use(firsts, name, groups)?;
    }
    Ok(())
}

/// Puts the group of the name that is used.
fn put_use(firsts: &Firsts, name: &OwnedName, groups: &mut NameGroups) -> Result<(), OutOfMemory>
    ensures { OnOk result (groups.new ≡ with_used (first_at firsts.now) groups.old (owned_view name.now)) }
{
    let group = firsts.used_group(name);
    put_group(name.node, group, groups)
}

/// Puts the group of the node, if it has one.
fn put_group(node: NodeId, group: Option<u64>, groups: &mut NameGroups) -> Result<(), OutOfMemory>
    ensures { OnOk result (groups.new ≡ grouped node.0 group groups.old) }
{
    match group {
        Some(group) => groups.put(node, group),
        None => Ok(()),
    }
}
