//! What a node stands as, by the field that holds it.
ghost use Rattle.std.specs.Prelude.{◌≡◌};
ghost use Rattle.oxt_faults.specs.Seats.{branch_seat, constructor_seat, dropped_seat, element_seat, head_seat, parameter_seat, seat_in, seat_inside, seat_named, seat_of};
ghost use Rattle.oxt_grammar.specs.Field.{row_view};
ghost use Rattle.oxt_grammar.specs.Keys.{key_of};
ghost use Rattle.oxt_tree.specs.View.{docs_in};

use oxt_grammar::field::Field;
use oxt_grammar::holds::Row;
use oxt_grammar::kind::Kind;
use oxt_tree::tree::Node;

/// What a node stands as, where not every node may stand.
#[derive(Clone, Copy)]
pub enum Seat {
    /// The body of a label or of `with`.
    Body,
    /// A branch of `if`, or the body of a loop.
    Branch,
    /// What stands first in the head of a `for`.
    Head,
    /// The body of a class declaration.
    ClassBody,
    /// An element of a class declaration.
    Element,
    /// A constructor of a class declaration.
    Constructor,
    /// The function of a method of a class declaration, its parameters, or one of them.
    OfMethod,
    /// The function of a constructor of a class declaration, its parameters, or one of them.
    OfConstructor,
    /// A decorator of a parameter of a method of a class declaration.
    MethodParameterDecorator,
    /// A decorator of a parameter of a constructor of a class declaration.
    ConstructorParameterDecorator,
    /// A decorator of any other parameter.
    ParameterDecorator,
    /// A decorator of a class expression, of an element of one, or of a constructor.
    StrayDecorator,
    /// A statement of the program, what an export declares, or what stands behind the dot of a namespace.
    Item,
    /// A statement of the block of a namespace.
    NamespaceItem,
    /// Anything else.
    Other,
}

/// What the node stands as to those in it, where it stands in that seat.
pub fn seat_inside(seat: Seat, node: &Node) -> Seat
    ensures { result ≡ seat_inside seat node.now.kind (docs_in node.now.parts.items) }
{
    match seat {
        Seat::Element => {
            if node.kind.is(Kind::MethodDefinition) && node.holds_text(Field::Kind, "constructor") {
                Seat::Constructor
            } else {
                Seat::Element
            }
        }
        _ => seat,
    }
}

/// What the decorators of an erased node stand as, where that stands in that seat.
pub fn dropped_seat(seat: Seat) -> Seat
    ensures { result ≡ dropped_seat seat }
{
    match seat {
        Seat::Element => Seat::Other,
        _ => Seat::StrayDecorator,
    }
}

/// What a node stands as in that field of a node of that kind that stands in that seat, also as an element of a list.
pub fn seat_in(seat: Seat, kind: Kind, row: &Row) -> Seat
    ensures { result ≡ seat_in seat kind (row_view row.now) }
{
    match seat {
        Seat::ClassBody => seat_named(row, Field::Body, Seat::Element),
        Seat::Element => element_seat(kind, row),
        Seat::Constructor => constructor_seat(row),
        Seat::OfMethod => { parameter_seat(seat, Seat::MethodParameterDecorator, kind, row) }
        Seat::OfConstructor => {
            parameter_seat(seat, Seat::ConstructorParameterDecorator, kind, row)
        }
        _ => seat_of(kind, row),
    }
}

/// The seat in a field of an element of a class declaration that is no constructor.
fn element_seat(kind: Kind, row: &Row) -> Seat
    ensures { result ≡ element_seat kind (row_view row.now) }
{
    match kind {
        Kind::MethodDefinition => seat_named(row, Field::Value, Seat::OfMethod),
        _ => Seat::Other,
    }
}

/// The seat in a field of a constructor of a class declaration.
fn constructor_seat(row: &Row) -> Seat
    ensures { result ≡ constructor_seat (row_view row.now) }
{
    if row.is(Field::Decorators) {
        Seat::StrayDecorator
    } else {
        seat_named(row, Field::Value, Seat::OfConstructor)
    }
}

/// The seat in a field of a function, its parameters or one of them, which stand in that seat, where the decorators of its
/// parameters stand in the other.
fn parameter_seat(seat: Seat, decorator: Seat, kind: Kind, row: &Row) -> Seat
    ensures { result ≡ parameter_seat seat decorator kind (row_view row.now) }
{
    match kind {
        Kind::FunctionExpression => seat_named(row, Field::Params, seat),
        Kind::FormalParameters => seat_named(row, Field::Items, seat),
        Kind::FormalParameter => seat_named(row, Field::Decorators, decorator),
        _ => seat_of(kind, row),
    }
}

/// The same in a node that stands as anything else.
fn seat_of(kind: Kind, row: &Row) -> Seat
    ensures { result ≡ seat_of kind (row_view row.now) }
{
    match kind {
        Kind::ClassDeclaration => seat_named(row, Field::Body, Seat::ClassBody),
        Kind::ClassExpression => seat_named(row, Field::Decorators, Seat::StrayDecorator),
        Kind::MethodDefinition => seat_named(row, Field::Decorators, Seat::StrayDecorator),
        Kind::PropertyDefinition => seat_named(row, Field::Decorators, Seat::StrayDecorator),
        Kind::AccessorProperty => seat_named(row, Field::Decorators, Seat::StrayDecorator),
        Kind::LabeledStatement => seat_named(row, Field::Body, Seat::Body),
        Kind::WithStatement => seat_named(row, Field::Body, Seat::Body),
        Kind::IfStatement => branch_seat(row),
        Kind::WhileStatement => seat_named(row, Field::Body, Seat::Branch),
        Kind::DoWhileStatement => seat_named(row, Field::Body, Seat::Branch),
        Kind::ForStatement => head_seat(row, Field::Init),
        Kind::ForInStatement => head_seat(row, Field::Left),
        Kind::ForOfStatement => head_seat(row, Field::Left),
        Kind::FormalParameter => seat_named(row, Field::Decorators, Seat::ParameterDecorator),
        Kind::Program => seat_named(row, Field::Body, Seat::Item),
        Kind::TSModuleBlock => seat_named(row, Field::Body, Seat::NamespaceItem),
        Kind::TSNamespaceDeclaration => seat_named(row, Field::Body, Seat::Item),
        Kind::ExportDeclaration => seat_named(row, Field::Declaration, Seat::Item),
        _ => Seat::Other,
    }
}

/// That seat in the field of that name.
fn seat_named(row: &Row, field: Field, seat: Seat) -> Seat
    ensures { result ≡ seat_named (key_of field) seat (row_view row.now) }
{
    if row.is(field) { seat } else { Seat::Other }
}

/// The seat in a field of `if`.
fn branch_seat(row: &Row) -> Seat
    ensures { result ≡ branch_seat (row_view row.now) }
{
    if row.is(Field::Consequent) {
        Seat::Branch
    } else {
        seat_named(row, Field::Alternate, Seat::Branch)
    }
}

/// The seat in a field of a `for` whose head has that field.
fn head_seat(row: &Row, head: Field) -> Seat
    ensures { result ≡ head_seat (key_of head) (row_view row.now) }
{
    if row.is(head) {
        Seat::Head
    } else {
        seat_named(row, Field::Body, Seat::Branch)
    }
}
