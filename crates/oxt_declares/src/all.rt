//! All that a search gives in a program, where it gives nothing outside enums.
ghost use Rattle.std.specs.Prelude.{◌≡◌, ◌++◌, IfOk, OnOk, map};
ghost use Rattle.oxt_search.specs.All.{all_in};
ghost use Rattle.oxt_declares.specs.Quiet.{IsQuietOutside};
ghost use Rattle.oxt_declares.specs.Sites.{all_each};
ghost use Rattle.oxt_tree.specs.View.{node_doc};

use crate::sites::EnumSites;
use oxt_names::ids::OutOfMemory;
use oxt_search::all::push_all;
use oxt_search::search::Search;
use oxt_tree::tree::Node;
use std::alloc::Global;

/// What the program and the nodes in it give to the search, which is begun in that state and finds nothing outside enums,
/// in the same order as by `all_in`.
///
/// # Errors
///
/// Fails only where memory runs out.
pub fn all_at_sites<S: Search>(
    alloc: Global,
    sites: &EnumSites,
    search: &S,
    state: S::State,
) -> Result<Vec<S::Found>, OutOfMemory>
    requires { IsQuietOutside sites.now.legacy (S.sought search.now) state }
    ensures { IfOk result (λ v. map S.view v.items
        ≡ all_in (S.sought search.now) (node_doc sites.now.program.now) state) }
{
    let mut out = Vec::new(alloc);
    push_each(search, sites.as_slice(), state, &mut out)?;
    Ok(out)
}

/// Appends what these nodes and those in them give, each reached in that state.
#[tactic(auto, using(crate::proofs::Eaches::each_steps))]
fn push_each<S: Search>(
    search: &S,
    nodes: &[&Node],
    state: S::State,
    out: &mut Vec<S::Found>,
) -> Result<(), OutOfMemory>
    ensures { OnOk result (map S.view out.new.items ≡ map S.view out.old.items
        ++ all_each (S.sought search.now) (map (λ site. node_doc site.now) nodes.now) state) }
{
    for i in 0..nodes.len() {
        push_all(search, nodes[i], state, out)?;
    }
    Ok(())
}
