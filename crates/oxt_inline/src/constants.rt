//! The constants of the members of all enums.
ghost use Rattle.std.specs.Option.{option_or};
ghost use Rattle.std.specs.Prelude.{◌≡◌, ℕ, List, IfOk, OnOk, option_map};
ghost use Rattle.oxt_inline.specs.Constants.{entry_at, Member, first_valued, member_at, own_value, sought, table_at, valued, valued_as, valued_view, valued_views, within};
ghost use Rattle.oxt_names.specs.Constant.{constant_view};
ghost use Rattle.oxt_tree.specs.View.{docs_in, node_doc};

use crate::names::named_symbol;
use oxt_grammar::field::Field;
use oxt_grammar::holds::Row;
use oxt_grammar::kind::Kind;
use oxt_names::constant::ConstantValue;
use oxt_names::ids::{NodeId, OutOfMemory, SymbolId};
use oxt_scoping::scoping::Scoping;
use oxt_search::all::all_in;
use oxt_search::search::{Inside, Search, Visit};
use oxt_tree::tree::Node;
use std::alloc::Global;
use std::collections::HashMap;

/// A member of an enum that has a constant.
#[derive(Clone, Copy)]
pub struct Valued<'a> {
    /// The enum.
    pub symbol: SymbolId,
    /// The name of the member.
    pub name: &'a str,
    /// Its constant.
    pub value: &'a ConstantValue,
}

/// The constants of the members of all enums, by the enum and the name of the member.
#[derive(Drop)]
pub struct Constants<'a> {
    table: HashMap<(u64, &'a str), &'a ConstantValue>,
}

impl<'a> Constants<'a> {
    /// Those of the program, whose table of scopes and symbols is `scoping`: of several members of one name the first
    /// that has a constant.
    ///
    /// # Errors
    ///
    /// Fails only where memory runs out.
    pub fn of(
        alloc: Global,
        program: &Node,
        scoping: &'a Scoping,
    ) -> Result<Constants<'a>, OutOfMemory>
        ensures { IfOk result (λ constants. (e : ℕ) (x : List ℕ) → table_at constants e x
            ≡ first_valued (valued scoping.now (node_doc program.now)) e x) }
    {
        let members = all_in(alloc, &Members { scoping }, program, None)?;
        Constants::with(alloc, members.as_slice())
    }

    /// Those of the members.
    #[tactic(auto, using(crate::proofs::Entries::steps))]
    fn with(alloc: Global, members: &[Valued<'a>]) -> Result<Constants<'a>, OutOfMemory>
        ensures { IfOk result (λ constants. (e : ℕ) (x : List ℕ) → table_at constants e x
            ≡ first_valued (valued_views members.now) e x) }
    {
        let mut table = HashMap::new(alloc);
        for member in members {
            put(&mut table, *member)?;
        }
        Ok(Constants { table })
    }

    /// The constant of the member of that name, if it has one.
    pub fn get(&self, symbol: SymbolId, name: &str) -> Option<&'a ConstantValue>
        ensures { option_map (λ value. constant_view value.now) result ≡ table_at self.now symbol.0 name.now }
    {
        self.table.get(&(symbol.0, name)).copied()
    }
}

/// Puts the constant of the member into the table, if no other of its name stands there.
#[tactic(auto, using(oxt_enums::proofs::Firsts::name_kept))]
fn put<'a>(
    table: &mut HashMap<(u64, &'a str), &'a ConstantValue>,
    member: Valued<'a>,
) -> Result<(), OutOfMemory>
    ensures { OnOk result ((e : ℕ) (x : List ℕ) → entry_at e x table.new.entries
        ≡ option_or (entry_at e x table.old.entries) (own_value (valued_view member.entry) e x)) }
{
    if table.contains_key(&(member.symbol.0, member.name)) {
        return Ok(());
    }
    table.insert((member.symbol.0, member.name), member.value)?;
    Ok(())
}

/// The search for the members that have constants. What is handed down is the enum around.
#[derive(Clone, Copy)]
struct Members<'a> {
    scoping: &'a Scoping,
}

impl<'a> Search for Members<'a> {
    type State = Option<SymbolId>;

    type Found = Valued<'a>;

    ghost Seen = { Member };

    ghost view = { valued_view };

    ghost sought = { λ members. sought members.scoping.now };

    fn visit(&self, node: &Node, around: Option<SymbolId>) -> Visit<Valued<'a>, Option<SymbolId>> {
        Visit {
            found: member_at(self.scoping, around, node),
            inside: Inside::Alike(within(self.scoping, around, node)),
        }
    }

    fn in_field(
        &self,
        around: Option<SymbolId>,
        _kind: Kind,
        _row: &Row,
    ) -> Option<Option<SymbolId>> {
        Some(around)
    }
}

/// The enum in which the fields of the node stand, which itself stands in that one.
fn within(scoping: &Scoping, around: Option<SymbolId>, node: &Node) -> Option<SymbolId>
    ensures { result ≡ within scoping.now around node.now.kind (docs_in node.now.parts.items) }
{
    if node.kind.is(Kind::TSEnumDeclaration) {
        named_symbol(scoping, node.field(Field::Id))
    } else {
        around
    }
}

/// The node, if it is a member of that enum and has a constant.
fn member_at<'a>(scoping: &'a Scoping, around: Option<SymbolId>, node: &Node) -> Option<Valued<'a>>
    ensures { option_map valued_view result ≡ member_at scoping.now around node.now.kind node.now.id.0 }
{
    if node.kind.is(Kind::TSEnumMember) {
        valued_as(scoping, around?, node.id)
    } else {
        None
    }
}

/// The member of that number in that enum, if it has a constant.
#[tactic(auto, using(crate::proofs::Found::valued_steps))]
fn valued_as<'a>(scoping: &'a Scoping, symbol: SymbolId, node: NodeId) -> Option<Valued<'a>>
    ensures { option_map valued_view result ≡ valued_as scoping.now symbol node.0 }
{
    let member = scoping.symbol_of(node)?;
    let value = scoping.get_enum_member_value(member)?;
    Some(Valued {
        symbol,
        name: scoping.symbol_name(member).as_str(),
        value,
    })
}
