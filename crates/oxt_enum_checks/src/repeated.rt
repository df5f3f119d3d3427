//! The first member whose name may not be its own.
ghost use Rattle.std.specs.Prelude.{◌≡◌, ◌||◌, [], IfOk, OnOk};
ghost use Rattle.oxt_enum_checks.specs.Keys.{Key, is_noted, is_repeated_in, key_of, keys_in, same_key};
ghost use Rattle.oxt_enum_checks.specs.Members.{member_view, member_views};
ghost use Rattle.oxt_enum_checks.specs.Misnamed.{first_repeated};
ghost use Rattle.oxt_scopes.specs.Stack.{number_at};

use crate::members::EnumMember;
use oxt_names::ids::{NodeId, OutOfMemory};
use std::alloc::Global;
use std::collections::HashSet;

/// The first of the members that has the name of its enum, or that of an earlier one of the same enum.
///
/// # Errors
///
/// Fails only where memory runs out.
#[tactic(auto, using(crate::proofs::Namesakes::steps))]
pub fn first_repeated(alloc: Global, members: &[EnumMember]) -> Result<Option<NodeId>, OutOfMemory>
    ensures { IfOk result (λ found. number_at found ≡ first_repeated [] (member_views members.now)) }
{
    let mut names = HashSet::new(alloc);
    for member in members {
        if is_repeated(&names, member) {
            return Ok(Some(member.node));
        }
        note(member, &mut names)?;
    }
    Ok(None)
}

/// Whether the member has the name of its enum, or one of these.
fn is_repeated(names: &HashSet<(u64, &str)>, member: &EnumMember) -> bool
    ensures { result ≡ is_repeated_in (keys_in names.now.keys) (member_view member.now) }
{
    let name = member.name.as_str();
    name == member.around.name.as_str() || names.contains(&(member.around.symbol.0, name))
}

/// Adds the name of the member.
fn note<'a>(member: &EnumMember<'a>, names: &mut HashSet<(u64, &'a str)>) -> Result<(), OutOfMemory>
    ensures { OnOk result ((k : Key) → is_noted (keys_in names.new.keys) k
        ≡ (is_noted (keys_in names.old.keys) k || same_key k (key_of (member_view member.now)))) }
{
    names.insert((member.around.symbol.0, member.name.as_str()))?;
    Ok(())
}
