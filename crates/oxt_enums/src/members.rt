//! The members of the enums of a tree.
ghost use Rattle.std.specs.Prelude.{◌≡◌, ◌++◌, IfOk, OnOk, codes, option_map};
ghost use Rattle.std.specs.Option.{option_and_then};
ghost use Rattle.oxt_declares.specs.Declares.{member_name};
ghost use Rattle.oxt_enums.specs.Members.{behind, each_members, found_views, member_at, members, members_of, own_member, spot_view, within};
ghost use Rattle.oxt_tree.specs.Fields.{elements, field_of, first, named};
ghost use Rattle.oxt_tree.specs.View.{doc_or_nil, docs_in, node_doc, part_doc};

use oxt_declares::declares::member_name_of;
use oxt_grammar::field::Field;
use oxt_grammar::kind::Kind;
use oxt_names::ids::{NodeId, OutOfMemory};
use oxt_tree::tree::{Node, Part};
use std::alloc::Global;

/// Where a node stands among the members of enums.
#[derive(Clone, Copy)]
pub struct Place {
    /// The number of the body of the innermost enum around it, and 0 outside all.
    pub block: NodeId,
    /// The number of the member in front of it in that body.
    pub previous: Option<NodeId>,
}

/// A member of an enum.
#[derive(Clone, Copy)]
pub struct Member<'a> {
    /// The node.
    pub node: &'a Node,
    /// Where it stands.
    pub place: Place,
    /// Its name.
    pub name: Option<&'a str>,
}

/// The members of the enums of the tree, in the order of the text.
///
/// # Errors
///
/// Fails only where memory runs out.
pub fn members_of<'a>(alloc: Global, program: &'a Node) -> Result<Vec<Member<'a>>, OutOfMemory>
    ensures { IfOk result (λ v. found_views v.items ≡ members_of (node_doc program.now)) }
{
    let mut out = Vec::new(alloc);
    push_node(program, OUTSIDE, &mut out)?;
    Ok(out)
}

/// Outside all enums.
const OUTSIDE: Place = Place {
    block: NodeId(0),
    previous: None,
};

/// Appends the members in the node, which stands there.
#[cycle(members)]
fn push_node<'a>(node: &'a Node, place: Place, out: &mut Vec<Member<'a>>) -> Result<(), OutOfMemory>
    ensures { OnOk result (found_views out.new.items
        ≡ found_views out.old.items ++ members (node_doc node.now) (spot_view place)) }
{
    push_own(node, place, out)?;
    push_each(&node.parts, place.within(node), out)
}

/// Appends the members in the part, which stands there.
#[cycle(members)]
fn push_part<'a>(part: &'a Part, place: Place, out: &mut Vec<Member<'a>>) -> Result<(), OutOfMemory>
    ensures { OnOk result (found_views out.new.items
        ≡ found_views out.old.items ++ members (part_doc part.now) (spot_view place)) }
{
    match part {
        Part::Node(node) => push_node(node, place, out),
        Part::List(parts) => push_each(parts, place, out),
        _ => Ok(()),
    }
}

/// Appends the members in the parts, which stand there one after the other.
#[cycle(members)]
#[tactic(auto, using(crate::proofs::MemberLoops::each_steps))]
fn push_each<'a>(
    parts: &'a [Part],
    place: Place,
    out: &mut Vec<Member<'a>>,
) -> Result<(), OutOfMemory>
    ensures { OnOk result (found_views out.new.items
        ≡ found_views out.old.items ++ each_members (docs_in parts.now) (spot_view place)) }
{
    let mut here = place;
    for part in parts {
        push_part(part, here, out)?;
        here = here.behind(part);
    }
    Ok(())
}

/// Appends the node, if it is a member.
#[tactic(auto, using(crate::proofs::MemberLoops::one_more))]
fn push_own<'a>(node: &'a Node, place: Place, out: &mut Vec<Member<'a>>) -> Result<(), OutOfMemory>
    ensures { OnOk result (found_views out.new.items
        ≡ found_views out.old.items ++ own_member node.now.kind node.now.id.0 node.now.span.start node.now.span.end (docs_in node.now.parts.items) (spot_view place)) }
{
    if node.kind.is(Kind::TSEnumMember) {
        let name = member_name_of(node);
        out.push(Member { node, place, name })?;
    }
    Ok(())
}

impl Place {
    /// Where the fields of the node stand.
    fn within(self, node: &Node) -> Place
        ensures { spot_view result ≡ within node.now.kind node.now.id.0 (spot_view self) }
    {
        if node.kind.is(Kind::TSEnumBody) {
            return Place {
                block: node.id,
                previous: None,
            };
        }
        self
    }

    /// Where what follows the part stands.
    fn behind(self, part: &Part) -> Place
        ensures { spot_view result ≡ behind (part_doc part.now) (spot_view self) }
    {
        match part {
            Part::Node(node) => self.behind_node(node),
            _ => self,
        }
    }

    /// Where what follows the node stands.
    fn behind_node(self, node: &Node) -> Place
        ensures { spot_view result ≡ behind (node_doc node.now) (spot_view self) }
    {
        if node.kind.is(Kind::TSEnumMember) {
            return Place {
                previous: Some(node.id),
                ..self
            };
        }
        self
    }
}
