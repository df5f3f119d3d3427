//! What the members of a union or an intersection are written as together.
ghost use Rattle.std.specs.Prelude.{◌≡◌};
ghost use Rattle.oxt_metadata.specs.Joins.{alone, bare, counted, effect_of, first_bare, intersection_effect, joined_type, object, same_type, union_effect, with_member, with_type};
ghost use Rattle.oxt_tree.specs.View.{docs_in, node_doc};

use crate::form::Join;
use oxt_grammar::kind::Kind;
use oxt_options::metadata::{GlobalName, MetadataType};
use oxt_tree::tree::{Node, Part};

/// What the members so far are written as.
#[derive(Clone, Copy)]
pub(crate) enum Joined {
    /// None of them counted.
    Nothing,
    /// All that counted are written so.
    Alike(MetadataType),
    /// The whole type is written so, whatever follows.
    Closed(MetadataType),
}

/// What a member does to the whole type.
#[derive(Clone, Copy)]
pub(crate) enum Effect {
    /// Nothing.
    Passed,
    /// The whole type is written so.
    Ends(MetadataType),
    /// It is one of those that are written.
    Counts,
}

/// `Object`.
pub(crate) fn object() -> MetadataType
    ensures { result ≡ object }
{
    MetadataType::Global(GlobalName::Object)
}

/// What the whole type is written as.
pub(crate) fn joined_type(joined: Joined) -> MetadataType
    ensures { result ≡ joined_type joined }
{
    match joined {
        Joined::Nothing => MetadataType::Undefined,
        Joined::Alike(written) => written,
        Joined::Closed(written) => written,
    }
}

/// The same with one more member, which is written so by itself.
pub(crate) fn with_member(
    is_strict: bool,
    join: Join,
    joined: Joined,
    member: &Node,
    written: MetadataType,
) -> Joined
    ensures { result ≡ with_member is_strict join joined (node_doc member.now) written }
{
    match joined {
        Joined::Closed(_) => joined,
        _ => match effect_of(is_strict, join, bare(member).kind) {
            Effect::Passed => joined,
            Effect::Ends(whole) => Joined::Closed(whole),
            Effect::Counts => with_type(joined, written),
        },
    }
}

/// The member without the parentheses around it.
#[cycle(bare)]
fn bare(member: &Node) -> &Node
    ensures { node_doc result.now ≡ bare (node_doc member.now) }
{
    if member.kind.is(Kind::TSParenthesizedType) {
        first_bare(&member.parts, member)
    } else {
        member
    }
}

/// The first of the parts without the parentheses around it; `outer` where that is no node.
#[cycle(bare)]
fn first_bare<'a>(parts: &'a [Part], outer: &'a Node) -> &'a Node
    ensures { node_doc result.now ≡ first_bare (docs_in parts.now) (node_doc outer.now) }
{
    match parts.first() {
        Some(Part::Node(inner)) => bare(inner),
        _ => outer,
    }
}

/// What a member of the kind does. `is_strict` says whether null and undefined count.
fn effect_of(is_strict: bool, join: Join, kind: Kind) -> Effect
    ensures { result ≡ effect_of is_strict join kind }
{
    match join {
        Join::Union => union_effect(is_strict, kind),
        Join::Intersection => intersection_effect(kind),
    }
}

/// The same in a union.
fn union_effect(is_strict: bool, kind: Kind) -> Effect
    ensures { result ≡ union_effect is_strict kind }
{
    match kind {
        Kind::TSNeverKeyword => Effect::Passed,
        Kind::TSNullKeyword => counts_if(is_strict),
        Kind::TSUndefinedKeyword => counts_if(is_strict),
        Kind::TSUnknownKeyword => Effect::Ends(object()),
        Kind::TSAnyKeyword => Effect::Ends(object()),
        Kind::TSTypeReference => Effect::Ends(object()),
        _ => Effect::Counts,
    }
}

/// It counts where that is so.
fn counts_if(counts: bool) -> Effect
    ensures { result ≡ counted counts }
{
    if counts {
        Effect::Counts
    } else {
        Effect::Passed
    }
}

/// The same in an intersection.
fn intersection_effect(kind: Kind) -> Effect
    ensures { result ≡ intersection_effect kind }
{
    match kind {
        Kind::TSNeverKeyword => Effect::Ends(MetadataType::Undefined),
        Kind::TSUnknownKeyword => Effect::Passed,
        Kind::TSAnyKeyword => Effect::Ends(object()),
        Kind::TSTypeReference => Effect::Ends(object()),
        _ => Effect::Counts,
    }
}

/// What the members so far, which leave it open, are written as with one more that counts.
fn with_type(joined: Joined, written: MetadataType) -> Joined
    ensures { result ≡ with_type joined written }
{
    match joined {
        Joined::Alike(earlier) if !is_same(earlier, written) => Joined::Closed(object()),
        _ => alone(written),
    }
}

/// What a member that is written so makes of a whole type by itself: `Object` ends it.
fn alone(written: MetadataType) -> Joined
    ensures { result ≡ alone written }
{
    if is_same(written, object()) {
        Joined::Closed(written)
    } else {
        Joined::Alike(written)
    }
}

/// Whether both are written alike. Two names of the source are not.
fn is_same(one: MetadataType, other: MetadataType) -> bool
    ensures { result ≡ same_type one other }
{
    match (one, other) {
        (MetadataType::Undefined, MetadataType::Undefined) => true,
        (MetadataType::Global(one), MetadataType::Global(other)) => one.as_str() == other.as_str(),
        _ => false,
    }
}
