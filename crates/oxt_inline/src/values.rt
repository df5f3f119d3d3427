//! The constants of members of enums that are named by way of their enums.
ghost use Rattle.std.specs.Prelude.{◌≡◌, ◌<◌, Some, length, option_map, slice_get};
ghost use Rattle.oxt_grammar.specs.Keys.{key_of as field_key};
ghost use Rattle.oxt_inline.specs.Constants.{table_at};
ghost use Rattle.oxt_inline.specs.Values.{constant_in_enum, dotted_constant, is_optimized, key_of, key_text, member_constant, optional_constant, optimizes};
ghost use Rattle.oxt_names.specs.Constant.{constant_view};
ghost use Rattle.oxt_options.specs.Options.{typescript_view};
ghost use Rattle.oxt_tree.specs.View.{doc_or_nil, docs_in, node_doc};

use crate::constants::Constants;
use crate::names::meant_by;
use oxt_grammar::field::Field;
use oxt_grammar::kind::Kind;
use oxt_names::constant::ConstantValue;
use oxt_names::ids::SymbolId;
use oxt_options::TypeScriptOptions;
use oxt_scoping::scoping::Scoping;
use oxt_tree::tree::{Node, Part};

/// Whether members of any enums are inlined.
pub fn optimizes(options: &TypeScriptOptions) -> bool
    ensures { result ≡ optimizes (typescript_view options.now) }
{
    options.optimize_const_enums || options.optimize_enums
}

/// The constant that the node reads, if it is a member expression that names a member of an enum by a bare name of the
/// enum, and the members of that are inlined.
pub fn member_constant<'a>(
    scoping: &Scoping,
    constants: &Constants<'a>,
    options: &TypeScriptOptions,
    node: &Node,
) -> Option<&'a ConstantValue>
    ensures { option_map (λ value. constant_view value.now) result
        ≡ member_constant scoping.now (table_at constants.now) (typescript_view options.now) node.now.kind (docs_in node.now.parts.items) }
{
    let key = key_of(node)?;
    let symbol = meant_by(scoping, node.field(Field::Object));
    constant_in_enum(scoping, constants, options, symbol, key)
}

/// The same of a member expression that is optional.
pub fn optional_constant<'a>(
    scoping: &Scoping,
    constants: &Constants<'a>,
    options: &TypeScriptOptions,
    node: &Node,
) -> Option<&'a ConstantValue>
    ensures { option_map (λ value. constant_view value.now) result
        ≡ optional_constant scoping.now (table_at constants.now) (typescript_view options.now) (node_doc node.now) }
{
    if node.flag(Field::Optional) {
        member_constant(scoping, constants, options, node)
    } else {
        None
    }
}

/// The constant that the node reads, if it is a dotted name that names a member of an enum by a bare name of the enum, and
/// the members of that are inlined.
pub fn dotted_constant<'a>(
    scoping: &Scoping,
    constants: &Constants<'a>,
    options: &TypeScriptOptions,
    node: &Node,
) -> Option<&'a ConstantValue>
    ensures { option_map (λ value. constant_view value.now) result
        ≡ dotted_constant scoping.now (table_at constants.now) (typescript_view options.now) node.now.kind (docs_in node.now.parts.items) }
{
    if !node.kind.is(Kind::TSQualifiedName) {
        return None;
    }
    let key = key_text(node.field(Field::Right), Field::Name)?;
    let symbol = meant_by(scoping, node.field(Field::Left));
    constant_in_enum(scoping, constants, options, symbol, key)
}

/// The name of the member that the node names, if it is a member expression whose key is a name or a text.
fn key_of(node: &Node) -> Option<&str>
    ensures { option_map (λ text. text.now) result ≡ key_of node.now.kind (docs_in node.now.parts.items) }
{
    if node.kind.is(Kind::StaticMemberExpression) {
        key_text(node.field(Field::Property), Field::Name)
    } else if node.kind.is(Kind::ComputedMemberExpression)
        && node.holds_kind(Field::Expression, Kind::StringLiteral)
    {
        key_text(node.field(Field::Expression), Field::Value)
    } else {
        None
    }
}

/// The text in that field of the node there.
fn key_text<'a>(key: Option<&'a Part>, field: Field) -> Option<&'a str>
    ensures { option_map (λ text. text.now) result ≡ key_text (field_key field) (doc_or_nil key.entry) }
{
    match key {
        Some(Part::Node(node)) => node.field(field)?.as_text(),
        _ => None,
    }
}

/// The constant of the member of that name, if the symbol is an enum whose members are inlined.
#[tactic(auto, using(crate::proofs::Found::enum_steps))]
fn constant_in_enum<'a>(
    scoping: &Scoping,
    constants: &Constants<'a>,
    options: &TypeScriptOptions,
    symbol: Option<SymbolId>,
    name: &str,
) -> Option<&'a ConstantValue>
    ensures { option_map (λ value. constant_view value.now) result ≡ constant_in_enum scoping.now
        (table_at constants.now) (typescript_view options.now) name.now symbol }
{
    let symbol = symbol?;
    if scoping.has_symbol(symbol) && is_optimized(scoping, options, symbol) {
        constants.get(symbol, name)
    } else {
        None
    }
}

/// Whether the members of the symbol, if it is an enum, are inlined: by whether its first block is `const`.
#[tactic(auto, using(crate::proofs::Found::optimized))]
pub fn is_optimized(scoping: &Scoping, options: &TypeScriptOptions, symbol: SymbolId) -> bool
    requires { symbol.0 < length scoping.now.symbols }
    ensures { option_map (is_optimized (typescript_view options.now)) (slice_get scoping.now.symbols symbol.0)
        ≡ Some result }
{
    if scoping.is_const_enum(symbol) {
        options.optimize_const_enums
    } else {
        options.optimize_enums
    }
}
