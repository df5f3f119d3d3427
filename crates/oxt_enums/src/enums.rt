//! The enums of a tree, and the constants of their members.
ghost use Rattle.std.specs.Prelude.{◌≡◌, ◌≤◌, IfOk, find, map, option_map};
ghost use Rattle.oxt_constant.specs.Metered.{most_text};
ghost use Rattle.oxt_enums.specs.Blocks.{blocks_in};
ghost use Rattle.oxt_enums.specs.Constants.{constants, known_in, told_views};
ghost use Rattle.oxt_enums.specs.Enums.{Describes, bodies_of, enum_named, is_too_large, list_of, place_of, says_const, span_view, value_at, value_in_body, value_in_enum};
ghost use Rattle.oxt_enums.specs.Groups.{number_of};
ghost use Rattle.oxt_enums.specs.Held.{held};
ghost use Rattle.oxt_scopes.specs.OwnedViews.{owned_views};
ghost use Rattle.oxt_scopes.specs.Views.{opened_views};
ghost use Rattle.oxt_names.specs.Constant.{constant_view};
ghost use Rattle.oxt_tree.specs.View.{node_doc};

use crate::blocks::blocks_of;
use crate::constants::{Evaluated, MemberConstant, constants_in};
use crate::groups::Groups;
use oxt_names::constant::ConstantValue;
use oxt_names::ids::{NodeId, OutOfMemory, Span};
use oxt_scopes::owners::{OwnedName, owners_of};
use oxt_scopes::scopes::{OpenedScope, scopes_of};
use oxt_tree::tree::Node;
use std::alloc::Global;

/// The enums of a tree, and the constants of their members.
#[derive(Drop)]
pub struct EnumConstants<'a> {
    members: Evaluated<'a>,
    groups: Groups<'a>,
}

/// The constants of the members of the enums of the tree, in the order of the text.
///
/// # Errors
///
/// Fails only where memory runs out, or where the texts of the constants would hold more bytes together than
/// [`oxt_constant::meter::MOST_TEXT`], or as many would be written to make them.
pub fn constants_of(alloc: Global, program: &Node) -> Result<Vec<MemberConstant>, OutOfMemory>
    ensures within { IfOk result (λ v. held (told_views v.items) ≤ most_text) }
    ensures constants { IfOk result (λ v. told_views v.items ≡ constants (node_doc program.now)) }
{
    let owners = owners_of(alloc, program)?;
    let scopes = scopes_of(alloc, program, false)?;
    let enums = EnumConstants::of(alloc, program, owners.as_slice(), scopes.as_slice())?;
    Ok(enums.into_constants())
}

impl<'a> EnumConstants<'a> {
    /// The enums of the tree, whose names have these owners and whose scopes are these.
    ///
    /// # Errors
    ///
    /// Fails only where memory runs out, or where the texts of the constants would hold more bytes together than
    /// [`oxt_constant::meter::MOST_TEXT`], or as many would be written to make them.
    pub fn of(
        alloc: Global,
        program: &'a Node,
        owners: &[OwnedName],
        scopes: &[OpenedScope<'a>],
    ) -> Result<EnumConstants<'a>, OutOfMemory>
        ensures { IfOk result (λ e. Describes e (known_in (owned_views owners.now) (opened_views scopes.now) (node_doc program.now)) (blocks_in (opened_views scopes.now))) }
    {
        let blocks = blocks_of(alloc, scopes)?;
        let members = constants_in(alloc, program, owners, blocks.as_slice())?;
        let groups = Groups::new(alloc, blocks.as_slice())?;
        Ok(EnumConstants { members, groups })
    }

    /// The constants of all members, in the order of the text.
    pub fn constants(&self) -> &[MemberConstant]
        ensures { told_views result.now ≡ list_of self.now }
    {
        self.members.constants.as_slice()
    }

    /// The same, without the rest.
    pub fn into_constants(self) -> Vec<MemberConstant>
        ensures { told_views result.items ≡ list_of self.entry }
    {
        self.members.constants
    }

    /// The constant of the member of that number; none where it is not constant, or there is no such
    /// member.
    pub fn value_of(&self, member: NodeId) -> Option<&ConstantValue>
        ensures { option_map (λ value. constant_view value.now) result ≡ value_at member.0 self.now }
    {
        self.members.tables.value_of(member)
    }

    /// The constant of the first member of that name in the body of that number, if it has one.
    pub fn value_in_body(&self, body: NodeId, name: &str) -> Option<&ConstantValue>
        ensures { option_map (λ value. constant_view value.now) result
            ≡ value_in_body body.0 name.now self.now }
    {
        self.members.tables.in_body(body, name)
    }

    /// The constant of the first member of that name that has one, in the enum of that name that the
    /// scope of that number declares.
    pub fn value_in_enum(
        &self,
        scope: NodeId,
        enum_name: &str,
        name: &str,
    ) -> Option<&ConstantValue>
        ensures { option_map (λ value. constant_view value.now) result
            ≡ value_in_enum scope.0 enum_name.now name.now self.now }
    {
        self.members.tables.in_enum(scope, enum_name, name)
    }

    /// The numbers of the bodies of the blocks of the enum of that name that the scope of that number
    /// declares, in the order of the text; none exactly where the scope declares no such enum.
    pub fn blocks_of<'s>(&'s self, scope: NodeId, name: &'s str) -> Option<&'s [NodeId]>
        ensures { option_map (λ bodies. map number_of bodies.now) result
            ≡ option_map bodies_of (enum_named scope.0 name.now self.now) }
    {
        match self.groups.get(scope, name) {
            Some(group) => Some(group.bodies.as_slice()),
            None => None,
        }
    }

    /// Whether the first block of that enum says `const`.
    pub fn is_const(&self, scope: NodeId, name: &str) -> bool
        ensures { result ≡ says_const (enum_named scope.0 name.now self.now) }
    {
        match self.groups.get(scope, name) {
            Some(group) => group.is_const,
            None => false,
        }
    }

    /// Where the first member stands whose constant would be larger than the largest.
    #[tactic(auto, using(crate::proofs::Wide::steps))]
    pub fn first_wide(&self) -> Option<Span>
        ensures { option_map span_view result
            ≡ option_map place_of (find is_too_large (list_of self.now)) }
    {
        for constant in self.members.constants.as_slice() {
            if constant.is_wide {
                return Some(constant.span);
            }
        }
        None
    }
}
