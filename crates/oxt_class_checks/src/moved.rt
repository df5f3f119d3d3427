//! The first name that would mean something else once the decorators of class declarations go behind these.
ghost use Rattle.std.specs.Prelude.{◌≡◌, IfOk, None, fold, map, option_map};
ghost use Rattle.oxt_class_checks.specs.Moved.{capture_behind, class_capture, decorator_at, decorator_capture, sought};
ghost use Rattle.oxt_faults.specs.Captured.{Capture};
ghost use Rattle.oxt_faults.specs.Earliest.{moved_view};
ghost use Rattle.oxt_tree.specs.View.{docs_in, node_doc};

use crate::classes::class_declarations;
use crate::private::first_private;
use crate::station::{Station, station_in, station_inside};
use oxt_declares::class::elements_of;
use oxt_faults::earliest::{MovedName, earlier, of_word};
use oxt_faults::level::first_level_word_in;
use oxt_fields::private_in::holds_private_in;
use oxt_grammar::holds::Row;
use oxt_grammar::kind::Kind;
use oxt_names::ids::OutOfMemory;
use oxt_search::first::first_in;
use oxt_search::search::{Search, Visit};
use oxt_tree::tree::{Node, Part};
use std::alloc::Global;

/// Of the names in the program that would mean something else once the decorators of class declarations go behind these,
/// outside what is erased, the one at the node of the least number. They are: in a decorator that goes behind its class, a
/// private name of that; and in one that goes into a static block of it, a word at the level of the decorator. There are none
/// unless decorators have their older meaning, as `legacy` says.
///
/// # Errors
///
/// Fails only where memory runs out.
pub fn first_moved_decorator<'a>(
    alloc: Global,
    legacy: bool,
    program: &'a Node,
) -> Result<Option<MovedName<'a>>, OutOfMemory>
    ensures { IfOk result (λ found. option_map moved_view found
        ≡ decorator_capture legacy (node_doc program.now)) }
{
    if !legacy {
        return Ok(None);
    }
    let classes = class_declarations(alloc, program)?;
    Ok(first_behind(classes.as_slice()))
}

/// The earliest of these classes.
#[tactic(auto, using(crate::proofs::Behind::behind_steps))]
fn first_behind<'a>(classes: &[&'a Node]) -> Option<MovedName<'a>>
    ensures { option_map moved_view result
        ≡ fold capture_behind None (map (λ class. node_doc class.now) classes.now) }
{
    let mut least = None;
    for class in classes {
        least = earlier(least, class_capture(class));
    }
    least
}

/// The first of the class.
fn class_capture<'a>(class: &'a Node) -> Option<MovedName<'a>>
    ensures { option_map moved_view result ≡ class_capture (node_doc class.now) }
{
    let decorators = MovedDecorators {
        elements: elements_of(class),
        into_block: holds_private_in(class),
    };
    first_in(&decorators, class, Station::Class)
}

/// The search for the decorators of a class that go behind it or into a static block of it, and for the first name of each.
#[derive(Clone, Copy)]
struct MovedDecorators<'a> {
    /// The elements of the class.
    elements: &'a [Part],
    /// The decorators of elements go into a static block.
    into_block: bool,
}

impl<'a> Search for MovedDecorators<'a> {
    type State = Station;

    type Found = MovedName<'a>;

    ghost Seen = { Capture };

    ghost view = { moved_view };

    ghost sought = { λ search. sought (docs_in search.elements.now) search.into_block };

    fn visit(&self, node: &Node, station: Station) -> Visit<MovedName<'a>, Station> {
        Visit {
            found: decorator_at(self.elements, station, node.parts.as_slice()),
            inside: station_inside(station, node),
        }
    }

    fn in_field(&self, station: Station, kind: Kind, row: &Row) -> Option<Station> {
        station_in(self.into_block, station, kind, row)
    }
}

/// What would be captured in the decorator with these parts, if the search is at one.
fn decorator_at<'a>(
    elements: &'a [Part],
    station: Station,
    decorator: &[Part],
) -> Option<MovedName<'a>>
    ensures { option_map moved_view result
        ≡ decorator_at (docs_in elements.now) station (docs_in decorator.now) }
{
    match station {
        Station::Behind => first_private(elements, decorator),
        Station::IntoBlock => of_word(first_level_word_in(true, decorator)),
        _ => None,
    }
}
