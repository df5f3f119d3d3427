//! What names mean.
ghost use Rattle.std.specs.Prelude.{◌≡◌};
ghost use Rattle.oxt_scopes.specs.Owners.{meaning};
ghost use Rattle.oxt_scopes.specs.Scopes.{beside, look, look_in_signature};
ghost use Rattle.oxt_scopes.specs.Stack.{block_at, level_of, levels, name_in, number_at, seen_at, shows_seen};

use crate::scope::{Scope, Seen};
use crate::way::Way;
use oxt_declares::declaration::Sight;
use oxt_names::ids::NodeId;
use std::collections::HashMap;

/// How many names a scope has at most that are compared one after the other; of more, the name is hashed, which costs as much
/// as some five comparisons.
const FEW_NAMES: usize = 4;

/// What the name means that is read that way in the last of the scopes: the number of the node that
/// opens the scope of its group; none where it is free.
pub fn meaning(scopes: &[Scope], name: &str, way: Way) -> Option<NodeId>
    ensures { number_at result ≡ meaning way name.now (levels scopes.now) }
{
    match way {
        Way::Typed => look(scopes, Sight::Type, name),
        Way::Signature => look_in_signature(scopes, name),
        _ => look(scopes, Sight::Value, name),
    }
}

/// What the name means, from the last of the scopes to the first.
fn look(scopes: &[Scope], sight: Sight, name: &str) -> Option<NodeId>
    ensures { number_at result ≡ look sight name.now (levels scopes.now) }
{
    match scopes.split_last() {
        Some((scope, outer)) => match scope.find(outer, sight, name) {
            Some(number) => Some(number),
            None => look(outer, sight, name),
        },
        None => None,
    }
}

/// What the name means in the signature of the function that is the last of the scopes.
fn look_in_signature(scopes: &[Scope], name: &str) -> Option<NodeId>
    ensures { number_at result ≡ look_in_signature name.now (levels scopes.now) }
{
    match scopes.split_last() {
        Some((scope, outer)) => match scope.find(outer, Sight::TypeParameter, name) {
            Some(number) => Some(number),
            None => look(outer, Sight::Type, name),
        },
        None => None,
    }
}

impl<'a> Scope<'a> {
    /// What the name means in this scope, which stands in those.
    fn find(&self, outer: &[Scope], sight: Sight, name: &str) -> Option<NodeId>
        ensures { number_at result ≡ (level_of self.now (levels outer.now)).find sight name.now }
    {
        if self.shows(sight, name) {
            return Some(self.number);
        }
        match self.enum_name {
            Some(enum_name) => block_around(outer, enum_name, name),
            None => None,
        }
    }

    /// Whether the scope declares the name, as something that is seen so.
    fn shows(&self, sight: Sight, name: &str) -> bool
        ensures { result ≡ shows_seen sight (seen_at name.now self.now.names.entries) }
    {
        match seen_in(&self.names, name) {
            Some(seen) => match sight {
                Sight::Value => seen.value,
                Sight::Type => true,
                Sight::TypeParameter => seen.type_parameter,
            },
            None => false,
        }
    }

    /// The body of the first block of that enum in this scope that has that member.
    fn block(&self, enum_name: &str, name: &str) -> Option<NodeId>
        ensures { number_at result ≡ block_at enum_name.now name.now self.now.blocks.entries }
    {
        match self.blocks.get(&(enum_name, name)) {
            Some(number) => Some(*number),
            None => None,
        }
    }
}

/// How the name is declared by that table.
fn seen_in(names: &HashMap<&str, Seen>, name: &str) -> Option<Seen>
    ensures { result ≡ seen_at name.now names.now.entries }
{
    if names.len() <= FEW_NAMES {
        seen_among(names, name)
    } else {
        names.get(name).copied()
    }
}

/// The same, by one entry after the other.
fn seen_among(names: &HashMap<&str, Seen>, name: &str) -> Option<Seen>
    ensures { result ≡ seen_at name.now names.now.entries }
{
    for (own, seen) in names {
        if name == *own {
            return Some(*seen);
        }
    }
    None
}

/// The body of such a block in the last of the scopes.
fn block_around(scopes: &[Scope], enum_name: &str, name: &str) -> Option<NodeId>
    ensures { number_at result ≡ beside (Some enum_name.now) (levels scopes.now) name.now }
{
    match scopes.split_last() {
        Some((scope, _)) => scope.block(enum_name, name),
        None => None,
    }
}
