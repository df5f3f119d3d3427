//! What is told of the members of a block, and of the bare names that mean them.
ghost use Rattle.std.specs.Prelude.{◌≡◌, ◌<◌, None, OnOk, IfOk, codes, length, option_map, slice_get};
ghost use Rattle.std.specs.BTreeMap.{insert_entry};
ghost use Rattle.std.specs.Ordering.{nat_cmp};
ghost use Rattle.oxt_facts.specs.Told.{member, value_view};
ghost use Rattle.oxt_scoping.specs.Meant.{declared_symbol};
ghost use Rattle.oxt_scoping.specs.Scoped.{live_at};
ghost use Rattle.oxt_names.specs.Constant.{constant_view};
ghost use Rattle.oxt_told.specs.Source.{all_told, around_view, bare_at, bares, following_or, member_bares, member_name, member_told, members_bares, members_told, name_in, symbol_bares, symbol_told, value_of};
ghost use Rattle.oxt_tree.specs.Fields.{named};
ghost use Rattle.oxt_names.specs.Names.{name_bytes};
ghost use Rattle.oxt_tree.specs.View.{docs_in, doc_or_nil, part_doc};

use oxt_constant::reversed::is_reversed;
use oxt_facts::told::{MemberValue, Told, ToldMember, ToldNodes};
use oxt_grammar::field::Field;
use oxt_names::constant::ConstantValue;
use oxt_names::ids::{NodeId, OutOfMemory, ReferenceId, SymbolId};
use oxt_names::name::Name;
use oxt_scoping::scoping::Scoping;
use oxt_tree::tree::{Node, Part};

/// An enum around its members.
#[derive(Clone, Copy)]
pub struct EnumAround<'a> {
    /// Its name.
    pub name: &'a Name,
    /// The group of that.
    pub group: Option<u64>,
    /// The number of the block in which the members stand.
    pub block: u64,
}

/// Tells of the members of a block of that enum.
#[tactic(auto, using(crate::proofs::Loops::member_steps))]
pub fn tell_members(
    scoping: &Scoping,
    around: &EnumAround,
    members: &[Part],
    told: &mut ToldNodes,
) -> Result<(), OutOfMemory>
    ensures { OnOk result (told.new
        ≡ all_told told.old (members_told scoping.now (around_view around.now) None (docs_in members.now))) }
{
    let mut previous = None;
    for member in members {
        tell_member(scoping, around, previous, member, told)?;
        previous = member_name(scoping, member);
    }
    Ok(())
}

/// Tells of the member of that enum, behind the member of that name.
fn tell_member(
    scoping: &Scoping,
    around: &EnumAround,
    previous: Option<&Name>,
    member: &Part,
    told: &mut ToldNodes,
) -> Result<(), OutOfMemory>
    ensures { OnOk result (told.new ≡ all_told told.old (member_told scoping.now (around_view around.now)
        (option_map (λ name. name_bytes name.now) previous.entry) (part_doc member.now))) }
{
    match member {
        Part::Node(node) => tell_node(scoping, around, previous, node, told),
        _ => Ok(()),
    }
}

/// Tells of the member that the node is.
#[tactic(auto, using(crate::proofs::Found::nothing_declared))]
fn tell_node(
    scoping: &Scoping,
    around: &EnumAround,
    previous: Option<&Name>,
    node: &Node,
    told: &mut ToldNodes,
) -> Result<(), OutOfMemory>
    ensures { OnOk result (told.new ≡ all_told told.old (symbol_told scoping.now (around_view around.now)
        (option_map (λ name. name_bytes name.now) previous.entry) node.now.id.0
        (named (codes "initializer") node.now.kind (docs_in node.now.parts.items))
        (declared_symbol scoping.now node.now.id.0))) }
{
    match scoping.symbol_of(node.id) {
        Some(symbol) => tell_symbol(scoping, around, previous, node, symbol, told),
        None => Ok(()),
    }
}

/// Tells of the member that the node is, whose symbol that is, and of the bare names that mean it.
#[tactic(auto, using(crate::proofs::Found::symbol_found))]
fn tell_symbol(
    scoping: &Scoping,
    around: &EnumAround,
    previous: Option<&Name>,
    node: &Node,
    symbol: SymbolId,
    told: &mut ToldNodes,
) -> Result<(), OutOfMemory>
    requires { symbol.0 < length scoping.now.symbols }
    ensures { OnOk result (told.new ≡ all_told told.old (symbol_told scoping.now (around_view around.now)
        (option_map (λ name. name_bytes name.now) previous.entry) node.now.id.0
        (named (codes "initializer") node.now.kind (docs_in node.now.parts.items))
        (slice_get scoping.now.symbols symbol.0))) }
{
    let name = scoping.symbol_name(symbol);
    let constant = scoping.get_enum_member_value(symbol);
    let initializer = node.field(Field::Initializer);
    let is_reversed = is_reversed(constant, initializer);
    let value = value_of(constant, previous, initializer)?;
    tell_value(node.id, around, name, value, is_reversed, told)?;
    tell_bares(
        scoping,
        around,
        scoping.get_resolved_references(symbol),
        told,
    )
}

/// Tells of the member with that number.
fn tell_value(
    node: NodeId,
    around: &EnumAround,
    name: &Name,
    value: MemberValue,
    is_reversed: bool,
    told: &mut ToldNodes,
) -> Result<(), OutOfMemory>
    ensures { OnOk result (told.new ≡ insert_entry nat_cmp told.old node.0 (member (record { owner = name_bytes around.now.name.now; block = around.now.block; name = name_bytes name.now; value = value_view value; is_reversed = is_reversed }))) }
{
    match names_of(around.name, name) {
        Ok(names) => told.tell(
            node,
            Told::Member(ToldMember {
                owner: names.owner,
                block: around.block,
                name: names.name,
                value,
                is_reversed,
            }),
        ),
        Err(fault) => Err(fault),
    }
}

/// The names of an enum and of a member.
#[derive(Drop)]
struct Names {
    owner: Name,
    name: Name,
}

/// The same names; the texts are not copied.
fn names_of(owner: &Name, name: &Name) -> Result<Names, OutOfMemory>
    ensures owner { IfOk result (λ names. name_bytes names.owner ≡ name_bytes owner.now) }
    ensures name { IfOk result (λ names. name_bytes names.name ≡ name_bytes name.now) }
{
    Ok(Names {
        owner: owner.share()?,
        name: name.share()?,
    })
}

/// The value of a member with that constant and initializer, behind the member of that name.
fn value_of(
    constant: Option<&ConstantValue>,
    previous: Option<&Name>,
    initializer: Option<&Part>,
) -> Result<MemberValue, OutOfMemory>
    ensures { IfOk result (λ value. value_view value
        ≡ value_of (option_map (λ v. constant_view v.now) constant.entry)
        (option_map (λ name. name_bytes name.now) previous.entry) (doc_or_nil initializer.entry)) }
{
    match constant {
        Some(constant) => Ok(MemberValue::Constant(constant.share()?)),
        None => match initializer {
            Some(Part::Nothing) => following_or(previous),
            None => following_or(previous),
            _ => Ok(MemberValue::Written),
        },
    }
}

/// One more than the member of that name, if there is one.
fn following_or(previous: Option<&Name>) -> Result<MemberValue, OutOfMemory>
    ensures { IfOk result (λ value. value_view value
        ≡ following_or (option_map (λ name. name_bytes name.now) previous.entry)) }
{
    match previous {
        Some(name) => Ok(MemberValue::Following(name.share()?)),
        None => Ok(MemberValue::Written),
    }
}

/// Tells of the bare names that these references are.
#[tactic(auto, using(crate::proofs::Loops::bare_steps))]
fn tell_bares(
    scoping: &Scoping,
    around: &EnumAround,
    references: &[ReferenceId],
    told: &mut ToldNodes,
) -> Result<(), OutOfMemory>
    ensures { OnOk result (told.new
        ≡ all_told told.old (bares scoping.now (around_view around.now) references.now)) }
{
    for reference in references {
        tell_bare(scoping, around, *reference, told)?;
    }
    Ok(())
}

/// Tells of the bare name that the reference is, if it was not deleted.
#[tactic(auto, using(crate::proofs::Found::bare_found, crate::proofs::Found::bare_gone))]
fn tell_bare(
    scoping: &Scoping,
    around: &EnumAround,
    reference: ReferenceId,
    told: &mut ToldNodes,
) -> Result<(), OutOfMemory>
    ensures { OnOk result (told.new ≡ all_told told.old
        (bare_at (around_view around.now) (live_at scoping.now.references reference.0))) }
{
    if !scoping.has_reference(reference) {
        return Ok(());
    }
    let name = around.name.share()?;
    told.tell(
        scoping.get_reference(reference).node,
        Told::Bare(name, around.group),
    )
}

/// Tells of the bare names that mean the members of a block of that enum, which emits nothing.
#[tactic(auto, using(crate::proofs::Loops::ambient_steps))]
pub fn tell_members_bares(
    scoping: &Scoping,
    around: &EnumAround,
    members: &[Part],
    told: &mut ToldNodes,
) -> Result<(), OutOfMemory>
    ensures { OnOk result (told.new
        ≡ all_told told.old (members_bares scoping.now (around_view around.now) (docs_in members.now))) }
{
    for member in members {
        tell_member_bares(scoping, around, member, told)?;
    }
    Ok(())
}

/// Tells of the bare names that mean the member.
fn tell_member_bares(
    scoping: &Scoping,
    around: &EnumAround,
    member: &Part,
    told: &mut ToldNodes,
) -> Result<(), OutOfMemory>
    ensures { OnOk result (told.new
        ≡ all_told told.old (member_bares scoping.now (around_view around.now) (part_doc member.now))) }
{
    match member {
        Part::Node(node) => tell_node_bares(scoping, around, node.id, told),
        _ => Ok(()),
    }
}

/// Tells of the bare names that mean what the node of that number declares.
#[tactic(auto, using(crate::proofs::Found::no_bares, crate::proofs::Found::bares_found))]
fn tell_node_bares(
    scoping: &Scoping,
    around: &EnumAround,
    node: NodeId,
    told: &mut ToldNodes,
) -> Result<(), OutOfMemory>
    ensures { OnOk result (told.new ≡ all_told told.old
        (symbol_bares scoping.now (around_view around.now) (declared_symbol scoping.now node.0))) }
{
    match scoping.symbol_of(node) {
        Some(symbol) => tell_bares(
            scoping,
            around,
            scoping.get_resolved_references(symbol),
            told,
        ),
        None => Ok(()),
    }
}

/// The name of the member.
fn member_name<'a>(scoping: &'a Scoping, member: &Part) -> Option<&'a Name>
    ensures { option_map (λ name. name_bytes name.now) result ≡ member_name scoping.now (part_doc member.now) }
{
    match member {
        Part::Node(node) => declared_name(scoping, node.id),
        _ => None,
    }
}

/// The name that the node declares.
#[tactic(auto, using(crate::proofs::Found::name_found))]
fn declared_name<'a>(scoping: &'a Scoping, node: NodeId) -> Option<&'a Name>
    ensures { option_map (λ name. name_bytes name.now) result ≡ name_in (declared_symbol scoping.now node.0) }
{
    match scoping.symbol_of(node) {
        Some(symbol) => Some(scoping.symbol_name(symbol)),
        None => None,
    }
}
