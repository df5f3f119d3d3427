//! The members of the enums of a program.
ghost use Rattle.std.specs.Prelude.{◌≡◌, IfOk, option_map};
ghost use Rattle.oxt_enum_checks.specs.Around.{around_view};
ghost use Rattle.oxt_enum_checks.specs.Members.{Member, member_of, member_view, member_views, members_of, name_at, named_member, sought};
ghost use Rattle.oxt_tree.specs.View.{node_doc};

use crate::around::{EnumAround, enum_of, within};
use crate::misused::{has_members, is_member};
use oxt_declares::all::all_at_sites;
use oxt_declares::dropped::{inside_dropped, is_dropped};
use oxt_declares::sites::EnumSites;
use oxt_grammar::holds::Row;
use oxt_grammar::kind::Kind;
use oxt_names::ids::{NodeId, OutOfMemory, SymbolId};
use oxt_names::name::Name;
use oxt_scoping::scoping::Scoping;
use oxt_search::search::{Inside, Search, Visit};
use oxt_tree::tree::Node;
use std::alloc::Global;

/// A member of an enum.
#[derive(Clone, Copy)]
pub struct EnumMember<'a> {
    /// The enum.
    pub around: EnumAround<'a>,
    /// The number of the member.
    pub node: NodeId,
    /// Its name.
    pub name: &'a Name,
}

/// The members of the enums of the program in which these are the outermost ones, in the order of the text, outside what is
/// erased.
///
/// # Errors
///
/// Fails only where memory runs out.
pub fn members_of<'a>(
    alloc: Global,
    sites: &EnumSites,
    scoping: &'a Scoping,
) -> Result<Vec<EnumMember<'a>>, OutOfMemory>
    ensures { IfOk result (λ v. member_views v.items
        ≡ members_of sites.now.legacy scoping.now (node_doc sites.now.program.now)) }
{
    if !has_members(scoping) {
        return Ok(Vec::new(alloc));
    }
    let legacy = sites.legacy;
    all_at_sites(alloc, sites, &Members { scoping, legacy }, None)
}

/// The search for such members. What is handed down is the symbol of the enum around.
#[derive(Clone, Copy)]
struct Members<'a> {
    /// What the names mean.
    scoping: &'a Scoping,
    /// Whether decorators have TypeScript's older meaning.
    legacy: bool,
}

impl<'a> Search for Members<'a> {
    type State = Option<SymbolId>;

    type Found = EnumMember<'a>;

    ghost Seen = { Member };

    ghost view = { member_view };

    ghost sought = { λ members. sought members.legacy members.scoping.now };

    fn visit(
        &self,
        node: &Node,
        around: Option<SymbolId>,
    ) -> Visit<EnumMember<'a>, Option<SymbolId>> {
        if is_dropped(node) {
            Visit {
                found: None,
                inside: inside_dropped(self.legacy, node, around),
            }
        } else {
            Visit {
                found: member_of(self.scoping, node, around),
                inside: Inside::Alike(within(self.scoping, node, around)),
            }
        }
    }

    fn in_field(
        &self,
        around: Option<SymbolId>,
        _kind: Kind,
        _row: &Row,
    ) -> Option<Option<SymbolId>> {
        Some(around)
    }
}

/// The node as a member of that enum, if it is one.
fn member_of<'a>(
    scoping: &'a Scoping,
    node: &Node,
    around: Option<SymbolId>,
) -> Option<EnumMember<'a>>
    ensures { option_map member_view result
        ≡ member_of scoping.now node.now.kind node.now.id.0 around }
{
    if node.kind.is(Kind::TSEnumMember) {
        let around = enum_of(scoping, around)?;
        named_member(scoping, node.id, around)
    } else {
        None
    }
}

/// The member of that number, if it has a name.
fn named_member<'a>(
    scoping: &'a Scoping,
    node: NodeId,
    around: EnumAround<'a>,
) -> Option<EnumMember<'a>>
    ensures { option_map member_view result
        ≡ named_member (around_view around.entry) node.0 (name_at scoping.now node.0) }
{
    let symbol = scoping.symbol_of(node)?;
    if is_member(scoping, Some(symbol)) {
        let name = scoping.symbol_name(symbol);
        Some(EnumMember { around, node, name })
    } else {
        None
    }
}
