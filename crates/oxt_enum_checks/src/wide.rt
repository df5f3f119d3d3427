//! The first member whose constant would be larger than the largest.
ghost use Rattle.std.specs.Prelude.{◌≡◌, ◌<◌, false, length, slice_get};
ghost use Rattle.oxt_enum_checks.specs.Wide.{HasNoLargest, ends_with_largest, has_largest, has_largest_at, is_bare, is_largest, is_largest_constant, member_at, sought, value_of, wide, wide_among, wide_at, wide_in};
ghost use Rattle.oxt_enum_checks.specs.declared.wide.WideMember.{WideMember};
ghost use Rattle.oxt_tree.specs.View.{docs_in, node_doc, part_doc};

use crate::misused::is_member;
use oxt_constant::integer::LARGEST;
use oxt_declares::dropped::{inside_dropped, is_dropped};
use oxt_grammar::field::Field;
use oxt_grammar::holds::Row;
use oxt_grammar::kind::Kind;
use oxt_names::constant::ConstantValue;
use oxt_names::ids::{NodeId, Span, SymbolId};
use oxt_scoping::scoping::Scoping;
use oxt_search::first::first_in;
use oxt_search::search::{Inside, Search, Visit};
use oxt_tree::tree::{Node, Part};

/// A member whose constant would be larger than the largest.
#[derive(Clone, Copy)]
pub struct WideMember {
    /// The number of the node.
    pub node: NodeId,
    /// Where it stands in the source text.
    pub span: Span,
}

/// The first member of an enum of the program, outside what is erased, that has no initializer and stands behind
/// a member whose constant is the largest. Under `legacy` the decorators of a field with `declare` are not erased.
#[tactic(auto, using(oxt_search::proofs::Given::as_it_is))]
pub fn first_wide(program: &Node, scoping: &Scoping, legacy: bool) -> Option<WideMember>
    ensures { result ≡ wide legacy scoping.now (node_doc program.now) }
{
    if !has_largest_member(scoping) {
        return None;
    }
    first_in(&Wides { scoping, legacy }, program, None)
}

/// The search for such members. What is handed down is the first of the body around.
#[derive(Clone, Copy)]
struct Wides<'a> {
    /// The constants of the members.
    scoping: &'a Scoping,
    /// Whether decorators have TypeScript's older meaning.
    legacy: bool,
}

impl<'a> Search for Wides<'a> {
    type State = Option<WideMember>;

    type Found = WideMember;

    ghost Seen = { WideMember };

    ghost view = { λ member. member };

    ghost sought = { λ wides. sought wides.legacy wides.scoping.now };

    #[tactic(auto, using(oxt_search::proofs::Given::as_it_is))]
    fn visit(
        &self,
        node: &Node,
        wide: Option<WideMember>,
    ) -> Visit<WideMember, Option<WideMember>> {
        if is_dropped(node) {
            Visit {
                found: None,
                inside: inside_dropped(self.legacy, node, None),
            }
        } else {
            Visit {
                found: wide_at(wide, node.id),
                inside: Inside::Alike(wide_in(self.scoping, node)),
            }
        }
    }

    fn in_field(
        &self,
        wide: Option<WideMember>,
        _kind: Kind,
        _row: &Row,
    ) -> Option<Option<WideMember>> {
        Some(wide)
    }
}

/// The member, if the node of that number is it.
fn wide_at(wide: Option<WideMember>, node: NodeId) -> Option<WideMember>
    ensures { result ≡ wide_at wide node.0 }
{
    let wide = wide?;
    if wide.node.0 == node.0 {
        Some(wide)
    } else {
        None
    }
}

/// The first such member of the node, if it is the body of an enum.
fn wide_in(scoping: &Scoping, node: &Node) -> Option<WideMember>
    ensures { result ≡ wide_in scoping.now node.now.kind (docs_in node.now.parts.items) }
{
    if node.kind.is(Kind::TSEnumBody) {
        wide_among(scoping, node.list(Field::Members))
    } else {
        None
    }
}

/// The first of the members that has no initializer and stands directly behind one with the largest constant.
#[tactic(auto, using(crate::proofs::WideLoops::steps))]
fn wide_among(scoping: &Scoping, members: &[Part]) -> Option<WideMember>
    ensures { result ≡ wide_among scoping.now false (docs_in members.now) }
{
    let mut is_behind = false;
    for member in members {
        if is_behind && is_bare(member) {
            return member_at(member);
        }
        is_behind = ends_with_largest(scoping, member);
    }
    None
}

/// Whether the member has no initializer.
fn is_bare(member: &Part) -> bool
    ensures { result ≡ is_bare (part_doc member.now) }
{
    match member {
        Part::Node(member) => member.lacks(Field::Initializer),
        _ => false,
    }
}

/// The number of the member, and where it stands.
fn member_at(member: &Part) -> Option<WideMember>
    ensures { result ≡ member_at (part_doc member.now) }
{
    match member {
        Part::Node(member) => Some(WideMember {
            node: member.id,
            span: member.span,
        }),
        _ => None,
    }
}

/// Whether the constant of the member is the largest.
fn ends_with_largest(scoping: &Scoping, member: &Part) -> bool
    ensures { result ≡ ends_with_largest scoping.now (part_doc member.now) }
{
    match member {
        Part::Node(member) => has_largest_at(scoping, member.id),
        _ => false,
    }
}

/// The same of the member of that number.
fn has_largest_at(scoping: &Scoping, member: NodeId) -> bool
    ensures { result ≡ has_largest_at scoping.now member.0 }
{
    match scoping.symbol_of(member) {
        Some(symbol) => is_largest_member(scoping, symbol),
        None => false,
    }
}

/// Whether a member has the largest constant. Where none has it, no member stands behind such a one. So an answer that one has
/// it may be given freely, and is where symbols have no more numbers.
fn has_largest_member(scoping: &Scoping) -> bool
    ensures { result ≡ false → HasNoLargest scoping.now }
{
    for number in 0..u64::MAX {
        let symbol = SymbolId(number);
        if !scoping.has_symbol(symbol) {
            return false;
        }
        if is_largest_member(scoping, symbol) {
            return true;
        }
    }
    true
}

/// Whether the symbol is that of a member whose constant is the largest.
fn is_largest_member(scoping: &Scoping, symbol: SymbolId) -> bool
    requires { symbol.0 < length scoping.now.symbols }
    ensures { result ≡ has_largest (slice_get scoping.now.symbols symbol.0) }
{
    is_member(scoping, Some(symbol)) && has_largest(scoping, symbol)
}

/// Whether the constant of the symbol is the largest.
fn has_largest(scoping: &Scoping, symbol: SymbolId) -> bool
    requires { symbol.0 < length scoping.now.symbols }
    ensures { result ≡ is_largest_constant (value_of (slice_get scoping.now.symbols symbol.0)) }
{
    match scoping.get_enum_member_value(symbol) {
        Some(ConstantValue::Number(number)) => is_largest(*number),
        _ => false,
    }
}

/// Whether the number is the largest.
fn is_largest(number: i64) -> bool
    ensures { result ≡ is_largest number }
{
    0 < number && number.unsigned_abs() == LARGEST
}
