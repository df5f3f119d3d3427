//! The expressions that stand for a constant of a member of an enum.
ghost use Rattle.std.specs.Prelude.{◌≡◌, ℕ, IfOk, map, option_map};
ghost use Rattle.oxt_inline.specs.Inlined.{chain_constant, constant_at, constant_of, inlined, inlined_at, inlined_view, inlined_with, sought};
ghost use Rattle.oxt_inline.specs.Constants.{table_at};
ghost use Rattle.oxt_names.specs.Constant.{Constant, constant_view};
ghost use Rattle.oxt_options.specs.Facts.{is_in};
ghost use Rattle.oxt_options.specs.Lists.{constants_in as listed};
ghost use Rattle.oxt_options.specs.Options.{typescript_view};
ghost use Rattle.oxt_tree.specs.View.{doc_or_nil, docs_in, node_doc};

use crate::constants::Constants;
use crate::seat::{Seat, is_alias, is_value, seat_by, seat_in};
use crate::values::{dotted_constant, member_constant, optimizes, optional_constant};
use oxt_constant::meter::TextMeter;
use oxt_grammar::category::Category;
use oxt_grammar::field::Field;
use oxt_grammar::holds::Row;
use oxt_grammar::kind::Kind;
use oxt_names::constant::ConstantValue;
use oxt_names::ids::{NodeId, OutOfMemory};
use oxt_options::TypeScriptOptions;
use oxt_options::nodes::NodeList;
use oxt_scoping::scoping::Scoping;
use oxt_search::all::all_in;
use oxt_search::search::{Inside, Search, Visit};
use oxt_tree::tree::{Node, Part};
use std::alloc::Global;

/// An expression that is inlined, with its constant.
#[derive(Clone, Copy)]
pub struct Inlined<'a> {
    /// The node.
    pub node: NodeId,
    /// Its constant.
    pub value: &'a ConstantValue,
}

/// The expressions `E.X`, `E["X"]`, `E?.X` and `E?.["X"]` of the program, outside types, whose `E` is a bare name of an
/// enum and whose `X` is a member with a constant, where the members of the enum are inlined: each with the constant of
/// the first block that has one. A target to which something is assigned is none, and a chain stands for its element. The
/// dotted name `E.X` in an `import a = ..` is one where that is `kept`. `scoping` is the table of the program.
///
/// # Errors
///
/// Nothing but want of memory.
pub fn inlined_expressions(
    alloc: Global,
    program: &Node,
    scoping: &Scoping,
    kept: &NodeList,
    options: &TypeScriptOptions,
) -> Result<Vec<(NodeId, ConstantValue)>, OutOfMemory>
    ensures { IfOk result (λ constants. listed constants.items
        ≡ inlined scoping.now (is_in kept.now) (node_doc program.now) (typescript_view options.now)) }
{
    if optimizes(options) {
        let constants = Constants::of(alloc, program, scoping)?;
        inlined_with(alloc, program, scoping, kept, &constants, options)
    } else {
        Ok(Vec::new(alloc))
    }
}

/// The same, by the constants of the members.
fn inlined_with(
    alloc: Global,
    program: &Node,
    scoping: &Scoping,
    kept: &NodeList,
    constants: &Constants<'_>,
    options: &TypeScriptOptions,
) -> Result<Vec<(NodeId, ConstantValue)>, OutOfMemory>
    ensures { IfOk result (λ found. listed found.items ≡ inlined_with (table_at constants.now) scoping.now
        (is_in kept.now) (node_doc program.now) (typescript_view options.now)) }
{
    let search = Inlines {
        scoping,
        kept,
        constants,
        options,
    };
    let found = all_in(alloc, &search, program, Seat::Value)?;
    shared(alloc, found.as_slice())
}

/// The constants, to be kept. Each is written where its expression stands: their texts may hold so many bytes together as
/// those of the members may.
#[tactic(auto, using(crate::proofs::Shared::steps))]
fn shared(alloc: Global, found: &[Inlined]) -> Result<Vec<(NodeId, ConstantValue)>, OutOfMemory>
    ensures { IfOk result (λ constants. listed constants.items ≡ map inlined_view found.now) }
{
    let mut written = TextMeter::new();
    let mut constants = Vec::new(alloc);
    for inlined in found {
        written.count(text_length(inlined.value))?;
        constants.push((inlined.node, inlined.value.share()?))?;
    }
    Ok(constants)
}

/// How many bytes of text the constant has.
fn text_length(value: &ConstantValue) -> usize {
    match value {
        ConstantValue::Number(_) => 0,
        ConstantValue::Text(text) => text.as_str().len(),
    }
}

/// The search for such expressions.
#[derive(Clone, Copy)]
struct Inlines<'a> {
    scoping: &'a Scoping,
    kept: &'a NodeList,
    constants: &'a Constants<'a>,
    options: &'a TypeScriptOptions,
}

impl<'a> Search for Inlines<'a> {
    type State = Seat;

    type Found = Inlined<'a>;

    ghost Seen = { ℕ × Constant };

    ghost view = { inlined_view };

    ghost sought = { λ inlines. sought inlines.scoping.now (is_in inlines.kept.now) (table_at inlines.constants.now) (typescript_view inlines.options.now) };

    fn visit(&self, node: &Node, seat: Seat) -> Visit<Inlined<'a>, Seat> {
        Visit {
            found: inlined_at(self.scoping, self.constants, self.options, seat, node),
            inside: if Category::TSType.contains(node.kind) {
                Inside::Skipped
            } else {
                Inside::ByField(seat_by(self.kept, seat, node.kind, node.id))
            },
        }
    }

    fn in_field(&self, seat: Seat, kind: Kind, row: &Row) -> Option<Seat> {
        Some(seat_in(seat, kind, row))
    }
}

/// The node, if it is such an expression where it stands so.
fn inlined_at<'a>(
    scoping: &Scoping,
    constants: &Constants<'a>,
    options: &TypeScriptOptions,
    seat: Seat,
    node: &Node,
) -> Option<Inlined<'a>>
    ensures { option_map inlined_view result ≡ inlined_at scoping.now (table_at constants.now) (typescript_view options.now) seat
        node.now.kind node.now.id.0 (docs_in node.now.parts.items) }
{
    let value = constant_at(scoping, constants, options, seat, node)?;
    Some(Inlined {
        node: node.id,
        value,
    })
}

/// The constant of the node, if it is such an expression where it stands so.
pub fn constant_at<'a>(
    scoping: &Scoping,
    constants: &Constants<'a>,
    options: &TypeScriptOptions,
    seat: Seat,
    node: &Node,
) -> Option<&'a ConstantValue>
    ensures { option_map (λ value. constant_view value.now) result ≡ constant_at scoping.now
        (table_at constants.now) (typescript_view options.now) seat node.now.kind (docs_in node.now.parts.items) }
{
    if is_value(seat) {
        constant_of(scoping, constants, options, node)
    } else if is_alias(seat) {
        dotted_constant(scoping, constants, options, node)
    } else {
        None
    }
}

/// The constant of the node, if it is a member expression that is inlined, or a chain of one that is optional.
fn constant_of<'a>(
    scoping: &Scoping,
    constants: &Constants<'a>,
    options: &TypeScriptOptions,
    node: &Node,
) -> Option<&'a ConstantValue>
    ensures { option_map (λ value. constant_view value.now) result ≡ constant_of scoping.now
        (table_at constants.now) (typescript_view options.now) node.now.kind (docs_in node.now.parts.items) }
{
    if node.kind.is(Kind::ChainExpression) {
        chain_constant(scoping, constants, options, node.field(Field::Expression))
    } else {
        member_constant(scoping, constants, options, node)
    }
}

/// The constant of a chain with that element.
fn chain_constant<'a>(
    scoping: &Scoping,
    constants: &Constants<'a>,
    options: &TypeScriptOptions,
    element: Option<&Part>,
) -> Option<&'a ConstantValue>
    ensures { option_map (λ value. constant_view value.now) result ≡ chain_constant scoping.now
        (table_at constants.now) (typescript_view options.now) (doc_or_nil element.entry) }
{
    match element {
        Some(Part::Node(node)) => {
            optional_constant(scoping, constants, options, node.get_inner_expression())
        }
        _ => None,
    }
}
