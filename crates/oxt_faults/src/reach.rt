//! What of a node stands at the level of the code around it, field by field.
ghost use Rattle.std.specs.Prelude.{◌≡◌};
ghost use Rattle.std.specs.List.{list_any};
ghost use Rattle.std.specs.Str.{bytes_eq};
ghost use Rattle.oxt_faults.specs.Reaches.{class_parts, class_reach, element_parts, element_reach, field_reach, level_reach, method_reach, reach_named, reach_of, shown};
ghost use Rattle.oxt_grammar.specs.Field.{row_view};
ghost use Rattle.oxt_grammar.specs.Keys.{key_of};

use oxt_grammar::field::Field;
use oxt_grammar::holds::Row;
use oxt_grammar::kind::Kind;

/// What of a node stands at the level.
#[derive(Clone, Copy)]
pub enum Reach {
    /// The node is code at the level.
    Level,
    /// The node is of the function of a method, of which only the decorators of its parameters stand there.
    Method,
    /// Nothing of it stands there.
    Hidden,
}

/// What stands at the level of what that field of a node of that kind holds, also of an element of its list.
pub fn reach_of(reach: Reach, kind: Kind, row: &Row) -> Reach
    ensures { result ≡ reach_of reach kind (row_view row.now) }
{
    match reach {
        Reach::Level => level_reach(kind, row),
        Reach::Method => method_reach(kind, row),
        Reach::Hidden => Reach::Hidden,
    }
}

/// The same for a node that is code at the level: all but what gives the words their own meaning.
fn level_reach(kind: Kind, row: &Row) -> Reach
    ensures { result ≡ level_reach kind (row_view row.now) }
{
    match kind {
        Kind::FunctionDeclaration => Reach::Hidden,
        Kind::FunctionExpression => Reach::Hidden,
        Kind::TSDeclareFunction => Reach::Hidden,
        Kind::TSEmptyBodyFunctionExpression => Reach::Hidden,
        Kind::ClassDeclaration => class_reach(row),
        Kind::ClassExpression => class_reach(row),
        Kind::MethodDefinition => element_reach(row),
        Kind::PropertyDefinition => field_reach(row),
        Kind::AccessorProperty => field_reach(row),
        Kind::StaticBlock => Reach::Hidden,
        _ => Reach::Level,
    }
}

/// The same for a node of the function of a method.
fn method_reach(kind: Kind, row: &Row) -> Reach
    ensures { result ≡ method_reach kind (row_view row.now) }
{
    match kind {
        Kind::FunctionExpression => reach_named(row, Field::Params, Reach::Method),
        Kind::FormalParameters => reach_named(row, Field::Items, Reach::Method),
        Kind::FormalParameter => reach_named(row, Field::Decorators, Reach::Level),
        _ => Reach::Hidden,
    }
}

/// That reach in the field of that name, and nothing in the others.
fn reach_named(row: &Row, field: Field, reach: Reach) -> Reach
    ensures { result ≡ reach_named (key_of field) reach (row_view row.now) }
{
    if row.is(field) { reach } else { Reach::Hidden }
}

/// In a class: its decorators, its heritage, and parts of its body.
fn class_reach(row: &Row) -> Reach
    ensures { result ≡ class_reach (row_view row.now) }
{
    shown(is_class_part(row))
}

/// In a method: what stands there of any element, and the decorators of its parameters.
fn element_reach(row: &Row) -> Reach
    ensures { result ≡ element_reach (row_view row.now) }
{
    if row.is(Field::Value) {
        Reach::Method
    } else {
        field_reach(row)
    }
}

/// In a field or an accessor: its decorators and its key.
fn field_reach(row: &Row) -> Reach
    ensures { result ≡ field_reach (row_view row.now) }
{
    shown(is_element_part(row))
}

/// Code at the level, where it is one of the parts that stand there.
fn shown(is_shown: bool) -> Reach
    ensures { result ≡ shown is_shown }
{
    if is_shown {
        Reach::Level
    } else {
        Reach::Hidden
    }
}

/// Whether it is a field of a class that stands at the level around it, at least in part.
fn is_class_part(row: &Row) -> bool
    ensures { result ≡ list_any (bytes_eq (key_of row.now.field)) class_parts }
{
    row.is(Field::Decorators) || (row.is(Field::SuperClass) || row.is(Field::Body))
}

/// Whether it is a field of an element that stands at the level around the class.
fn is_element_part(row: &Row) -> bool
    ensures { result ≡ list_any (bytes_eq (key_of row.now.field)) element_parts }
{
    row.is(Field::Decorators) || row.is(Field::Key)
}
