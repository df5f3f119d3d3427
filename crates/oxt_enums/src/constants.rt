//! The constants of the members of enums.
ghost use Rattle.std.specs.Prelude.{◌≡◌, ◌≤◌, ◌&&◌, IfOk, List, OnOk, codes, option_map};
ghost use Rattle.oxt_constant.specs.Following.{before_view, is_wide};
ghost use Rattle.oxt_constant.specs.Metered.{most_text};
ghost use Rattle.oxt_enums.specs.Blocks.{block_view, block_views};
ghost use Rattle.oxt_enums.specs.Constants.{Known, all_known, block_in, is_emitted_block, one_more, owner_in, told_views};
ghost use Rattle.oxt_enums.specs.Held.{held};
ghost use Rattle.oxt_enums.specs.Members.{found_view, found_views, members_of};
ghost use Rattle.oxt_enums.specs.Tables.{Tells, home_at, owner_at};
ghost use Rattle.oxt_scopes.specs.OwnedViews.{owned_views};
ghost use Rattle.oxt_tree.specs.Fields.{named};
ghost use Rattle.oxt_tree.specs.View.{docs_in, node_doc};

use crate::blocks::EnumBlock;
use crate::budget::{TextBudget, hold};
use crate::homes::Homes;
use crate::members::{Member, members_of};
use crate::owners::Owners;
use crate::tables::Tables;
use oxt_constant::member::{Before, is_wide};
use oxt_names::constant::ConstantValue;
use oxt_names::ids::{NodeId, OutOfMemory, Span};
use oxt_scopes::owners::OwnedName;
use oxt_tree::tree::Node;
use std::alloc::Global;

/// The constant of a member of an enum.
#[derive(Drop)]
pub struct MemberConstant {
    /// The number of the member.
    pub node: NodeId,
    /// Where it stands in the source text.
    pub span: Span,
    /// Its constant, if it has one.
    pub value: Option<ConstantValue>,
    /// Whether it has no initializer, stands behind the largest constant, and is not erased.
    pub is_wide: bool,
}

/// The constants of members, in the order of the text, with tables in which they can be looked up.
#[derive(Drop)]
pub struct Evaluated<'a> {
    pub constants: Vec<MemberConstant>,
    pub tables: Tables<'a>,
}

/// The constants of the members of the enums of the tree, by the owners of its names and the blocks
/// of its enums.
///
/// # Errors
///
/// Fails only where memory runs out, or where the texts of the constants would hold more bytes together than
/// [`oxt_constant::meter::MOST_TEXT`], or as many would be written to make them.
#[tactic(auto, using(crate::proofs::Evaluations::by_functions))]
pub fn constants_in<'a>(
    alloc: Global,
    program: &'a Node,
    owners: &[OwnedName],
    blocks: &[EnumBlock<'a>],
) -> Result<Evaluated<'a>, OutOfMemory>
    ensures within { IfOk result (λ c. held (told_views c.constants.items) ≤ most_text) }
    ensures told { IfOk result (λ c. Tells c (all_known (owner_in (owned_views owners.now)) (block_in (block_views blocks.now)) (members_of (node_doc program.now)))) }
{
    let members = members_of(alloc, program)?;
    let owners = Owners::new(alloc, owners)?;
    let homes = Homes::new(alloc, blocks)?;
    evaluate(alloc, &owners, &homes, members.as_slice())
}

/// The constants of the members, by what names mean and where the blocks stand.
#[tactic(auto, using(crate::proofs::Evaluations::known_steps))]
fn evaluate<'a>(
    alloc: Global,
    owners: &Owners,
    homes: &Homes<'a>,
    members: &[Member<'a>],
) -> Result<Evaluated<'a>, OutOfMemory>
    ensures within { IfOk result (λ c. held (told_views c.constants.items) ≤ most_text) }
    ensures told { IfOk result (λ c. Tells c (all_known (λ i. owner_at i owners.now) (λ i. home_at i homes.now) (found_views members.now))) }
{
    let mut known = Evaluated {
        constants: Vec::new(alloc),
        tables: Tables::new(alloc),
    };
    let mut budget = TextBudget::new();
    for member in members {
        known.add(alloc, owners, homes, &mut budget, member)?;
    }
    Ok(known)
}

impl<'a> Evaluated<'a> {
    /// Adds the constant of the member, which stands behind the others.
    fn add(
        &mut self,
        alloc: Global,
        owners: &Owners,
        homes: &Homes<'a>,
        budget: &mut TextBudget,
        member: &Member<'a>,
    ) -> Result<(), OutOfMemory>
        ensures told { OnOk result ((ks : List Known) → Tells self.old ks
            → Tells self.new (one_more (λ i. owner_at i owners.now) (λ i. home_at i homes.now) ks (found_view member.now))) }
        ensures counted { OnOk result (budget.old.held.bytes ≡ held (told_views self.old.constants.items)
            → budget.new.held.bytes ≡ held (told_views self.new.constants.items)) }
        ensures within { OnOk result (budget.new.held.bytes ≤ most_text) }
    {
        let block = homes.block_of(member.place.block);
        let before = self.tables.before(member.place.previous)?;
        let is_wide = is_wide_in(block, &before, member.node);
        let value = self
            .tables
            .value_behind(alloc, owners, &mut budget.written, &before, member.node)?;
        hold(&mut budget.held, &value)?;
        self.tables.put(block, member, &value)?;
        self.constants.push(MemberConstant {
            node: member.node.id,
            span: member.node.span,
            value,
            is_wide,
        })?;
        Ok(())
    }
}

/// Whether the member stands behind the largest constant in a block that is there at run time, and
/// has no initializer.
fn is_wide_in(block: Option<EnumBlock>, before: &Before, member: &Node) -> bool
    ensures { result
        ≡ (is_emitted_block (option_map block_view block.entry) && is_wide (before_view before.now) (named (codes "initializer") member.now.kind (docs_in member.now.parts.items))) }
{
    is_emitted_block(block) && is_wide(before, member)
}

/// Whether it is a block that is there at run time.
fn is_emitted_block(block: Option<EnumBlock>) -> bool
    ensures { result ≡ is_emitted_block (option_map block_view block.entry) }
{
    match block {
        Some(block) => block.is_emitted,
        None => false,
    }
}
