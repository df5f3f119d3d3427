//! Where a search for the decorators of a class declaration that go behind it is.
ghost use Rattle.std.specs.Prelude.{◌≡◌};
ghost use Rattle.oxt_class_checks.specs.Stations.{class_station, element_inside, goal, member_station, named_station, parameter_station, station_in, station_inside};
ghost use Rattle.oxt_grammar.specs.Field.{row_view};
ghost use Rattle.oxt_tree.specs.View.{docs_in};

use oxt_declares::calls::is_called;
use oxt_declares::class::is_constructor;
use oxt_grammar::field::Field;
use oxt_grammar::holds::Row;
use oxt_grammar::kind::Kind;
use oxt_search::search::Inside;
use oxt_tree::tree::Node;

/// Where such a search is.
#[derive(Clone, Copy)]
pub enum Station {
    /// At the class.
    Class,
    /// At its body.
    Body,
    /// At an element of it.
    Element,
    /// In an element that gives a call.
    Member,
    /// In the constructor.
    Constructor,
    /// At the function of such an element, its parameters, or one of them.
    OfMember,
    /// At the function of the constructor, its parameters, or one of them.
    OfConstructor,
    /// At a decorator that goes behind the class.
    Behind,
    /// At a decorator that goes into a static block of the class.
    IntoBlock,
}

/// How the search goes on inside the node, where it is there.
pub fn station_inside(station: Station, node: &Node) -> Inside<Station>
    ensures { result ≡ station_inside station node.now.kind (docs_in node.now.parts.items) }
{
    match station {
        Station::Body => Inside::Alike(Station::Element),
        Station::Element => element_inside(node),
        Station::Behind => Inside::Skipped,
        Station::IntoBlock => Inside::Skipped,
        _ => Inside::ByField(station),
    }
}

/// How it goes on inside an element.
fn element_inside(node: &Node) -> Inside<Station>
    ensures { result ≡ element_inside node.now.kind (docs_in node.now.parts.items) }
{
    if is_called(node) {
        Inside::ByField(Station::Member)
    } else if is_constructor(node) {
        Inside::ByField(Station::Constructor)
    } else {
        Inside::Skipped
    }
}

/// Where the search is in that field of a node of that kind, if it goes there. `into_block` says that the decorators of
/// elements go into a static block of the class.
pub fn station_in(into_block: bool, station: Station, kind: Kind, row: &Row) -> Option<Station>
    ensures { result ≡ station_in into_block station kind (row_view row.now) }
{
    match station {
        Station::Class => class_station(row),
        Station::Member => member_station(into_block, kind, row),
        Station::Constructor => named_station(row.is(Field::Value), Station::OfConstructor),
        Station::OfMember => { parameter_station(station, goal(into_block), kind, row) }
        Station::OfConstructor => { parameter_station(station, Station::Behind, kind, row) }
        _ => Some(station),
    }
}

/// Where the decorators of elements go.
fn goal(into_block: bool) -> Station
    ensures { result ≡ goal into_block }
{
    if into_block {
        Station::IntoBlock
    } else {
        Station::Behind
    }
}

/// In a field of the class.
fn class_station(row: &Row) -> Option<Station>
    ensures { result ≡ class_station (row_view row.now) }
{
    if row.is(Field::Decorators) {
        Some(Station::Behind)
    } else if row.is(Field::Body) {
        Some(Station::Body)
    } else {
        None
    }
}

/// In a field of an element that gives a call.
fn member_station(into_block: bool, kind: Kind, row: &Row) -> Option<Station>
    ensures { result ≡ member_station into_block kind (row_view row.now) }
{
    if row.is(Field::Decorators) {
        Some(goal(into_block))
    } else if kind.is(Kind::MethodDefinition) && row.is(Field::Value) {
        Some(Station::OfMember)
    } else {
        None
    }
}

/// In a field of a function, its parameters or one of them, where the decorators of the parameters are at that one.
fn parameter_station(station: Station, decorator: Station, kind: Kind, row: &Row) -> Option<Station>
    ensures { result ≡ parameter_station station decorator kind (row_view row.now) }
{
    match kind {
        Kind::FunctionExpression => named_station(row.is(Field::Params), station),
        Kind::FormalParameters => named_station(row.is(Field::Items), station),
        Kind::FormalParameter => named_station(row.is(Field::Decorators), decorator),
        _ => None,
    }
}

/// That station, where it is that of the field.
fn named_station(is_there: bool, station: Station) -> Option<Station>
    ensures { result ≡ named_station is_there station }
{
    if is_there { Some(station) } else { None }
}
