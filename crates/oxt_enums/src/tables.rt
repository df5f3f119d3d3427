//! Tables of the constants of members.
ghost use Rattle.std.specs.Prelude.{◌≡◌, ◌==◌, ◌&&◌, ◌++◌, ◌∷◌, [], IfOk, OnOk, ℕ, List, Bool, None, Some, codes, if◌then◌else◌, is_some, option_map};
ghost use Rattle.std.specs.Option.{option_or};
ghost use Rattle.std.specs.Str.{bytes_eq};
ghost use Rattle.oxt_constant.specs.Following.{before_view, member_constant};
ghost use Rattle.oxt_enums.specs.Blocks.{block_view};
ghost use Rattle.oxt_enums.specs.Constants.{Known, flat, is_block_of, is_named};
ghost use Rattle.oxt_enums.specs.Members.{found_view};
ghost use Rattle.oxt_enums.specs.Tables.{Knows, at_name, at_number, at_path, in_bodies, in_enums, in_numbers, preceding_at, table_meanings, value_in, value_view};
ghost use Rattle.oxt_scopes.specs.Stack.{number_at};
ghost use Rattle.oxt_names.specs.Constant.{constant_view};
ghost use Rattle.oxt_tree.specs.Fields.{named};
ghost use Rattle.oxt_tree.specs.View.{docs_in};

use crate::blocks::EnumBlock;
use crate::members::Member;
use crate::names::Names;
use crate::owners::Owners;
use oxt_constant::member::{Before, member_constant};
use oxt_constant::meter::TextMeter;
use oxt_names::constant::ConstantValue;
use oxt_names::ids::{NodeId, OutOfMemory};
use oxt_tree::tree::Node;
use std::alloc::Global;
use std::collections::HashMap;

/// The constants of members, each at the first member with its key.
#[derive(Drop)]
pub struct Tables<'a> {
    /// Those of all members, in the order in which they were put.
    values: Vec<Option<ConstantValue>>,
    /// The places of these by the number of the member.
    numbers: HashMap<u64, usize>,
    /// By the number of the body and the name.
    bodies: HashMap<(u64, &'a str), usize>,
    /// Of members with a constant, by the number of the scope, the name of the enum and the name.
    enums: HashMap<(u64, &'a str, &'a str), usize>,
}

impl<'a> Tables<'a> {
    /// Tables without a constant.
    pub fn new(alloc: Global) -> Tables<'a>
        ensures { Knows result [] }
    {
        Tables {
            values: Vec::new(alloc),
            numbers: HashMap::new(alloc),
            bodies: HashMap::new(alloc),
            enums: HashMap::new(alloc),
        }
    }

    /// Puts the constant of a member in that block behind the others.
    #[tactic(auto, using(crate::proofs::Growth::knows_more))]
    pub fn put(
        &mut self,
        block: Option<EnumBlock<'a>>,
        member: &Member<'a>,
        value: &Option<ConstantValue>,
    ) -> Result<(), OutOfMemory>
        ensures { OnOk result ((ks : List Known) (w : Bool) → Knows self.old ks
            → Knows self.new (ks ++ (record { member = found_view member.now; block = option_map block_view block.entry; value = value_view value.now; is_wide = w }) ∷ [])) }
    {
        let place = self.values.len();
        self.values.push(shared(value)?)?;
        put_number(&mut self.numbers, member.node.id.0, place)?;
        put_in_body(&mut self.bodies, member.place.block, member.name, place)?;
        let constant = is_constant(value);
        put_in_enum(&mut self.enums, constant, block, member.name, place)
    }

    /// The constant of a member, with what stands before it, by what names mean.
    pub fn value_behind(
        &self,
        alloc: Global,
        owners: &Owners,
        written: &mut TextMeter,
        before: &Before,
        member: &Node,
    ) -> Result<Option<ConstantValue>, OutOfMemory>
        ensures { IfOk result (λ value. value_view value
            ≡ member_constant (table_meanings owners.now self.now) (before_view before.now) (named (codes "initializer") member.now.kind (docs_in member.now.parts.items))) }
    {
        let names = Names {
            owners,
            tables: self,
        };
        member_constant(alloc, &names, written, before, member)
    }

    /// What stands in front of a member, by the number of that.
    pub fn before(&self, previous: Option<NodeId>) -> Result<Before, OutOfMemory>
        ensures { IfOk result (λ b. before_view b ≡ preceding_at (number_at previous) self.now) }
    {
        match previous {
            Some(number) => self.behind(number),
            None => Ok(Before::Front),
        }
    }

    /// What stands in front of a member behind that one.
    fn behind(&self, number: NodeId) -> Result<Before, OutOfMemory>
        ensures { IfOk result (λ b. before_view b ≡ preceding_at (Some number.0) self.now) }
    {
        match self.value_of(number) {
            Some(value) => Ok(Before::Behind(Some(value.share()?))),
            None => Ok(Before::Behind(None)),
        }
    }

    /// The constant of the member of that number, if it has one.
    pub fn value_of(&self, member: NodeId) -> Option<&ConstantValue>
        ensures { option_map (λ value. constant_view value.now) result
            ≡ flat (in_numbers member.0 self.now) }
    {
        match self.numbers.get(&member.0) {
            Some(place) => self.value_at(*place),
            None => None,
        }
    }

    /// The constant of the first member of that name in that body, if it has one.
    pub fn in_body(&self, body: NodeId, name: &str) -> Option<&ConstantValue>
        ensures { option_map (λ value. constant_view value.now) result
            ≡ flat (in_bodies body.0 name.now self.now) }
    {
        match self.bodies.get(&(body.0, name)) {
            Some(place) => self.value_at(*place),
            None => None,
        }
    }

    /// The constant of the first member of that name with one, in the enum of that name that the
    /// scope declares.
    pub fn in_enum(&self, scope: NodeId, enum_name: &str, name: &str) -> Option<&ConstantValue>
        ensures { option_map (λ value. constant_view value.now) result
            ≡ flat (in_enums scope.0 enum_name.now name.now self.now) }
    {
        match self.enums.get(&(scope.0, enum_name, name)) {
            Some(place) => self.value_at(*place),
            None => None,
        }
    }

    /// The constant at that place, if there is one.
    fn value_at(&self, place: usize) -> Option<&ConstantValue>
        ensures { option_map (λ value. constant_view value.now) result ≡ flat (value_in self.now place) }
    {
        match self.values.get(place) {
            Some(value) => value.as_ref(),
            None => None,
        }
    }
}

/// The same constant.
fn shared(value: &Option<ConstantValue>) -> Result<Option<ConstantValue>, OutOfMemory>
    ensures { IfOk result (λ copy. value_view copy ≡ value_view value.now) }
{
    match value {
        Some(value) => Ok(Some(value.share()?)),
        None => Ok(None),
    }
}

/// Whether it is a constant.
fn is_constant(value: &Option<ConstantValue>) -> bool
    ensures { result ≡ is_some (value_view value.now) }
{
    match value {
        Some(_) => true,
        None => false,
    }
}

/// Puts the place of a member in that body, if no other of the name has one.
#[tactic(auto, using(crate::proofs::Growth::nameless))]
fn put_in_body<'a>(
    table: &mut HashMap<(u64, &'a str), usize>,
    body: NodeId,
    name: Option<&'a str>,
    place: usize,
) -> Result<(), OutOfMemory>
    ensures { OnOk result ((n : ℕ) (t : List ℕ) → at_name n t table.new.entries
        ≡ option_or (at_name n t table.old.entries) (if n == body.0 && is_named t (option_map (λ x. x.now) name.entry) then Some place else None)) }
{
    match name {
        Some(name) => put_name(table, body.0, name, place),
        None => Ok(()),
    }
}

/// Puts the place of a member in that block, if it is constant and no other of the name has one.
fn put_in_enum<'a>(
    table: &mut HashMap<(u64, &'a str, &'a str), usize>,
    constant: bool,
    block: Option<EnumBlock<'a>>,
    name: Option<&'a str>,
    place: usize,
) -> Result<(), OutOfMemory>
    ensures { OnOk result ((n : ℕ) (e t : List ℕ) → at_path n e t table.new.entries
        ≡ option_or (at_path n e t table.old.entries) (if constant && (is_block_of n e (option_map block_view block.entry) && is_named t (option_map (λ x. x.now) name.entry)) then Some place else None)) }
{
    if !constant {
        return Ok(());
    }
    let Some(block) = block else {
        return Ok(());
    };
    let Some(name) = name else {
        return Ok(());
    };
    put_path(table, block.scope.0, block.name, name, place)
}

/// Puts the place at the number, if nothing stands there.
#[tactic(auto, using(crate::proofs::Firsts::number_kept))]
fn put_number(table: &mut HashMap<u64, usize>, number: u64, place: usize) -> Result<(), OutOfMemory>
    ensures { OnOk result ((q : ℕ) → at_number q table.new.entries
        ≡ option_or (at_number q table.old.entries) (if q == number then Some place else None)) }
{
    if table.contains_key(&number) {
        return Ok(());
    }
    table.insert(number, place)?;
    Ok(())
}

/// Puts the place at the body and the name, if nothing stands there.
#[tactic(auto, using(crate::proofs::Firsts::name_stays))]
fn put_name<'a>(
    table: &mut HashMap<(u64, &'a str), usize>,
    body: u64,
    name: &'a str,
    place: usize,
) -> Result<(), OutOfMemory>
    ensures { OnOk result ((n : ℕ) (t : List ℕ) → at_name n t table.new.entries
        ≡ option_or (at_name n t table.old.entries) (if n == body && bytes_eq t name.now then Some place else None)) }
{
    if table.contains_key(&(body, name)) {
        return Ok(());
    }
    table.insert((body, name), place)?;
    Ok(())
}

/// Puts the place at the scope and the two names, if nothing stands there.
#[tactic(auto, using(crate::proofs::Firsts::path_kept))]
fn put_path<'a>(
    table: &mut HashMap<(u64, &'a str, &'a str), usize>,
    scope: u64,
    enum_name: &'a str,
    name: &'a str,
    place: usize,
) -> Result<(), OutOfMemory>
    ensures { OnOk result ((n : ℕ) (e t : List ℕ) → at_path n e t table.new.entries
        ≡ option_or (at_path n e t table.old.entries) (if (n == scope && bytes_eq e enum_name.now) && bytes_eq t name.now then Some place else None)) }
{
    if table.contains_key(&(scope, enum_name, name)) {
        return Ok(());
    }
    table.insert((scope, enum_name, name), place)?;
    Ok(())
}
