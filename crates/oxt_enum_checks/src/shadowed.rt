//! The first bare name of a member at which the name of its enum means something else.
ghost use Rattle.std.specs.Prelude.{◌≡◌, ◌++◌, IfOk, None, OnOk, codes, map, option_map, slice_get};
ghost use Rattle.oxt_enum_checks.specs.Around.{around_view};
ghost use Rattle.oxt_enum_checks.specs.Shadows.{all_among, all_at, all_shadows, initializer_shadows, least, left_all, lesser, member_shadows, shadow_view, shadow_views, shadowed};
ghost use Rattle.oxt_grammar.specs.Field.{row_view};
ghost use Rattle.oxt_grammar.specs.Rows.{row_of};
ghost use Rattle.oxt_declares.specs.Sites.{said_of_each};
ghost use Rattle.oxt_tree.specs.View.{doc_of_part, doc_or_nil, docs_in, node_doc, part_doc};

use crate::around::{EnumAround, enum_of, within};
use crate::misused::has_members;
use crate::shadows::{Search, push_initializer};
use oxt_declares::dropped::{is_declared_field, is_dropped};
use oxt_declares::sites::EnumSites;
use oxt_grammar::field::Field;
use oxt_grammar::holds::Row;
use oxt_grammar::kind::Kind;
use oxt_names::ids::{NodeId, OutOfMemory, SymbolId};
use oxt_names::name::Name;
use oxt_scoping::scoping::Scoping;
use oxt_tree::fields::place_of;
use oxt_tree::tree::{Node, Part};
use std::alloc::Global;

/// A bare name of a member at which the name of its enum means something else.
#[derive(Clone, Copy)]
pub struct ShadowedName<'a> {
    /// The node that is the bare name.
    pub node: NodeId,
    /// The name of the enum.
    pub name: &'a Name,
}

/// The bare name of the least number, outside what is erased and outside types, that stands in an initializer of
/// an enum and means a member of that enum, where the name of the enum means a declaration of the initializer. `sites` are the
/// outermost enums of the program.
///
/// # Errors
///
/// Fails only where memory runs out.
pub fn first_shadowed<'a>(
    alloc: Global,
    sites: &EnumSites<'a>,
    scoping: &'a Scoping,
) -> Result<Option<ShadowedName<'a>>, OutOfMemory>
    ensures { IfOk result (λ found. option_map shadow_view found
        ≡ shadowed sites.now.legacy scoping.now (node_doc sites.now.program.now)) }
{
    if !has_members(scoping) {
        return Ok(None);
    }
    let names = shadowed_at(alloc, sites.as_slice(), scoping, sites.legacy)?;
    Ok(least(names.as_slice()))
}

/// Such names in the initializers in these nodes, of which none stands in an enum.
#[tactic(auto, using(crate::proofs::ShadowSites::site_steps))]
fn shadowed_at<'a>(
    alloc: Global,
    sites: &[&'a Node],
    scoping: &'a Scoping,
    legacy: bool,
) -> Result<Vec<ShadowedName<'a>>, OutOfMemory>
    ensures { IfOk result (λ names. shadow_views names.items
        ≡ said_of_each (λ d. all_shadows legacy scoping.now d None) (map (λ site. node_doc site.now) sites.now)) }
{
    let mut names = Vec::new(alloc);
    for i in 0..sites.len() {
        push_node(alloc, scoping, legacy, sites[i], None, &mut names)?;
    }
    Ok(names)
}

/// The one of the least number.
#[tactic(auto, using(crate::proofs::Leasts::steps))]
fn least<'a>(names: &[ShadowedName<'a>]) -> Option<ShadowedName<'a>>
    ensures { option_map shadow_view result ≡ least (shadow_views names.now) }
{
    let mut least = None;
    for name in names {
        least = lesser(least, *name);
    }
    least
}

/// The one of the lesser number.
fn lesser<'a>(least: Option<ShadowedName<'a>>, name: ShadowedName<'a>) -> Option<ShadowedName<'a>>
    ensures { option_map shadow_view result
        ≡ lesser (option_map shadow_view least.entry) (shadow_view name.entry) }
{
    match least {
        Some(least) => {
            if name.node.0 < least.node.0 {
                Some(name)
            } else {
                Some(least)
            }
        }
        None => Some(name),
    }
}

/// Appends such names in the initializers in the node, which stands in that enum.
#[cycle(find)]
fn push_node<'a>(
    alloc: Global,
    scoping: &'a Scoping,
    legacy: bool,
    node: &'a Node,
    around: Option<SymbolId>,
    out: &mut Vec<ShadowedName<'a>>,
) -> Result<(), OutOfMemory>
    ensures { OnOk result (shadow_views out.new.items
        ≡ shadow_views out.old.items ++ all_shadows legacy scoping.now (node_doc node.now) around) }
{
    if is_dropped(node) {
        return push_left(alloc, scoping, legacy, node, around, out);
    }
    push_member(alloc, scoping, legacy, node, around, out)?;
    let within = within(scoping, node, around);
    push_each(alloc, scoping, legacy, &node.parts, within, out)
}

/// Appends such names in the initializers in what of an erased node is left: the decorators of a field with `declare`.
#[cycle(find)]
fn push_left<'a>(
    alloc: Global,
    scoping: &'a Scoping,
    legacy: bool,
    node: &'a Node,
    around: Option<SymbolId>,
    out: &mut Vec<ShadowedName<'a>>,
) -> Result<(), OutOfMemory>
    ensures { OnOk result (shadow_views out.new.items ≡ shadow_views out.old.items
        ++ left_all legacy node.now.kind (docs_in node.now.parts.items) (all_at legacy scoping.now (docs_in node.now.parts.items) (row_of node.now.kind) (codes "decorators") around)) }
{
    let rows = node.kind.rows();
    if legacy && is_declared_field(node) {
        push_decorators(alloc, scoping, legacy, rows, &node.parts, around, out)
    } else {
        Ok(())
    }
}

/// Appends such names in the initializers in the decorators of a node with these rows and parts.
#[cycle(find)]
fn push_decorators<'a>(
    alloc: Global,
    scoping: &'a Scoping,
    legacy: bool,
    rows: &[Row],
    parts: &'a [Part],
    around: Option<SymbolId>,
    out: &mut Vec<ShadowedName<'a>>,
) -> Result<(), OutOfMemory>
    ensures { OnOk result (shadow_views out.new.items ≡ shadow_views out.old.items
        ++ all_at legacy scoping.now (docs_in parts.now) (map row_view rows.now) (codes "decorators") around) }
{
    match place_of(rows, Field::Decorators) {
        Some(place) => push_at(alloc, scoping, legacy, parts, place, around, out),
        None => Ok(()),
    }
}

/// Appends such names in the initializers in the part at that place.
#[cycle(find)]
#[tactic(auto, using(crate::proofs::Alone::nothing_there))]
fn push_at<'a>(
    alloc: Global,
    scoping: &'a Scoping,
    legacy: bool,
    parts: &'a [Part],
    place: usize,
    around: Option<SymbolId>,
    out: &mut Vec<ShadowedName<'a>>,
) -> Result<(), OutOfMemory>
    ensures { OnOk result (shadow_views out.new.items ≡ shadow_views out.old.items
        ++ all_shadows legacy scoping.now (doc_of_part (slice_get parts.now place)) around) }
{
    match parts.get(place) {
        Some(part) => push_part(alloc, scoping, legacy, part, around, out),
        None => Ok(()),
    }
}

/// Appends such names in the initializers in the part, which stands in that enum.
#[cycle(find)]
fn push_part<'a>(
    alloc: Global,
    scoping: &'a Scoping,
    legacy: bool,
    part: &'a Part,
    around: Option<SymbolId>,
    out: &mut Vec<ShadowedName<'a>>,
) -> Result<(), OutOfMemory>
    ensures { OnOk result (shadow_views out.new.items
        ≡ shadow_views out.old.items ++ all_shadows legacy scoping.now (part_doc part.now) around) }
{
    match part {
        Part::Node(node) => push_node(alloc, scoping, legacy, node, around, out),
        Part::List(parts) => push_each(alloc, scoping, legacy, parts, around, out),
        _ => Ok(()),
    }
}

/// Appends such names in the initializers in the parts, which stand in that enum.
#[cycle(find)]
#[tactic(auto, using(crate::proofs::ShadowLoops::all_steps))]
fn push_each<'a>(
    alloc: Global,
    scoping: &'a Scoping,
    legacy: bool,
    parts: &'a [Part],
    around: Option<SymbolId>,
    out: &mut Vec<ShadowedName<'a>>,
) -> Result<(), OutOfMemory>
    ensures { OnOk result (shadow_views out.new.items
        ≡ shadow_views out.old.items ++ all_among legacy scoping.now (docs_in parts.now) around) }
{
    for part in parts {
        push_part(alloc, scoping, legacy, part, around, out)?;
    }
    Ok(())
}

/// Appends such names in the initializer of the node, if it is a member of that enum.
fn push_member<'a>(
    alloc: Global,
    scoping: &'a Scoping,
    legacy: bool,
    node: &'a Node,
    around: Option<SymbolId>,
    out: &mut Vec<ShadowedName<'a>>,
) -> Result<(), OutOfMemory>
    ensures { OnOk result (shadow_views out.new.items
        ≡ shadow_views out.old.items ++ member_shadows legacy scoping.now node.now.kind (docs_in node.now.parts.items) around) }
{
    if node.kind.is(Kind::TSEnumMember) {
        let around = enum_of(scoping, around);
        push_in(
            alloc,
            scoping,
            legacy,
            node.field(Field::Initializer),
            around,
            out,
        )
    } else {
        Ok(())
    }
}

/// Appends such names in the initializer of a member of that enum, if it is one.
fn push_in<'a>(
    alloc: Global,
    scoping: &'a Scoping,
    legacy: bool,
    initializer: Option<&'a Part>,
    around: Option<EnumAround<'a>>,
    out: &mut Vec<ShadowedName<'a>>,
) -> Result<(), OutOfMemory>
    ensures { OnOk result (shadow_views out.new.items
        ≡ shadow_views out.old.items ++ initializer_shadows legacy scoping.now (doc_or_nil initializer.entry) (option_map around_view around.entry)) }
{
    match around {
        Some(around) => {
            let search = Search {
                scoping,
                legacy,
                around,
            };
            push_initializer(alloc, search, initializer, out)
        }
        None => Ok(()),
    }
}
