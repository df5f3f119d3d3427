//! What a node stands as, by what is around it.
ghost use Rattle.std.specs.Prelude.{◌≡◌};
ghost use Rattle.oxt_grammar.specs.Field.{row_view};
ghost use Rattle.oxt_inline.specs.Seats.{dotted, has_dotted, has_own_name, is_alias, is_constant, is_exported, is_left_out, is_name, is_value, passed, seat_by, seat_in};
ghost use Rattle.oxt_options.specs.Facts.{is_in};

use crate::target::holds_target;
use oxt_grammar::category::Category;
use oxt_grammar::field::Field;
use oxt_grammar::holds::Row;
use oxt_grammar::kind::Kind;
use oxt_names::ids::NodeId;
use oxt_options::nodes::NodeList;

/// What a node stands as.
#[derive(Clone, Copy)]
pub enum Seat {
    /// Something whose value is read, or anything else.
    Value,
    /// A target to which something is assigned.
    Target,
    /// The element of a chain, or what its wrappers and parentheses hold: no expression of its own.
    Element,
    /// A declaration that is exported.
    Exported,
    /// The name of an enum, or of a function or class that is an expression.
    Name,
    /// A part of a member of an enum whose value is known.
    Constant,
    /// A part of an `import a = ..` that is kept. Its dotted name becomes a member expression.
    Alias,
    /// A part of an `import a = ..` that is not kept.
    LeftOut,
}

/// What a node of that kind and number, which stands as that, is to its fields, by which `import a = ..` are kept.
pub fn seat_by(kept: &NodeList, seat: Seat, kind: Kind, node: NodeId) -> Seat
    ensures { result ≡ seat_by (is_in kept.now) seat kind node.0 }
{
    if !kind.is(Kind::TSImportEqualsDeclaration) {
        seat
    } else if kept.has(node) {
        Seat::Alias
    } else {
        Seat::LeftOut
    }
}

/// What a node stands as in that field of a node of that kind, which itself stands as that.
pub fn seat_in(seat: Seat, kind: Kind, row: &Row) -> Seat
    ensures { result ≡ seat_in seat kind (row_view row.now) }
{
    if Category::Transparent.contains(kind) {
        passed(seat)
    } else if has_dotted(kind) {
        dotted(seat)
    } else if kind.is(Kind::ChainExpression) {
        Seat::Element
    } else if kind.is(Kind::ExportDeclaration) {
        Seat::Exported
    } else if has_own_name(kind) && row.is(Field::Id) {
        Seat::Name
    } else if holds_target(row.holds) {
        Seat::Target
    } else {
        Seat::Value
    }
}

/// What stands in a wrapper or parentheses that stand as that: the same, if they are an expression.
fn passed(seat: Seat) -> Seat
    ensures { result ≡ passed seat }
{
    match seat {
        Seat::Target => Seat::Target,
        Seat::Element => Seat::Element,
        _ => Seat::Value,
    }
}

/// Whether a node of the kind is `import a = ..`, or a dotted name.
fn has_dotted(kind: Kind) -> bool
    ensures { result ≡ has_dotted kind }
{
    match kind {
        Kind::TSImportEqualsDeclaration => true,
        Kind::TSQualifiedName => true,
        _ => false,
    }
}

/// What stands in such a node that stands as that.
fn dotted(seat: Seat) -> Seat
    ensures { result ≡ dotted seat }
{
    match seat {
        Seat::Alias => Seat::Alias,
        _ => Seat::Value,
    }
}

/// Whether a node of the kind is an enum, or a function or class that is an expression.
fn has_own_name(kind: Kind) -> bool
    ensures { result ≡ has_own_name kind }
{
    match kind {
        Kind::TSEnumDeclaration => true,
        Kind::FunctionExpression => true,
        Kind::ClassExpression => true,
        _ => false,
    }
}

/// Whether its value is read.
pub fn is_value(seat: Seat) -> bool
    ensures { result ≡ is_value seat }
{
    match seat {
        Seat::Value => true,
        _ => false,
    }
}

/// Whether it is exported.
pub fn is_exported(seat: Seat) -> bool
    ensures { result ≡ is_exported seat }
{
    match seat {
        Seat::Exported => true,
        _ => false,
    }
}

/// Whether it is such a name.
pub fn is_name(seat: Seat) -> bool
    ensures { result ≡ is_name seat }
{
    match seat {
        Seat::Name => true,
        _ => false,
    }
}

/// Whether it is a part of a member whose value is known.
pub fn is_constant(seat: Seat) -> bool
    ensures { result ≡ is_constant seat }
{
    match seat {
        Seat::Constant => true,
        _ => false,
    }
}

/// Whether it is a part of an `import a = ..` that is kept.
pub fn is_alias(seat: Seat) -> bool
    ensures { result ≡ is_alias seat }
{
    match seat {
        Seat::Alias => true,
        _ => false,
    }
}

/// Whether it is a part of an `import a = ..` that is not kept.
pub fn is_left_out(seat: Seat) -> bool
    ensures { result ≡ is_left_out seat }
{
    match seat {
        Seat::LeftOut => true,
        _ => false,
    }
}
