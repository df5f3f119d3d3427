//! What stands in the way of lowering enums.

use crate::pieces::{Lines, Piece};
use oxt_declares::sites::EnumSites;
use oxt_enum_checks::misnamed::first_misnamed;
use oxt_enum_checks::misused::first_misused;
use oxt_enum_checks::shadowed::{ShadowedName, first_shadowed};
use oxt_enum_checks::wide::first_wide;
use oxt_names::ids::{NodeId, OutOfMemory};
use oxt_resolve::resolve::resolve;
use oxt_scoping::scoping::Scoping;
use oxt_tree::tree::Node;
use std::alloc::Global;

/// Puts the first name that a lowered enum could not have, the first that would mean something else in one, with the
/// name that it would be, and the first member that would be too large, a line each; `-` where there is none.
///
/// # Errors
///
/// Fails only where memory runs out.
pub fn put_lines(alloc: Global, program: &Node, lines: &mut Lines) -> Result<(), OutOfMemory> {
    let scoping = resolve(alloc, program, false)?;
    let outcome = put_found(alloc, program, &scoping, lines);
    drop(scoping);
    outcome
}

/// Puts what is found in the program, which has that table of scopes.
fn put_found(
    alloc: Global,
    program: &Node,
    scoping: &Scoping,
    lines: &mut Lines,
) -> Result<(), OutOfMemory> {
    let sites = EnumSites::of(alloc, program, false)?;
    let outcome = put_found_at(alloc, &sites, scoping, lines);
    drop(sites);
    outcome
}

/// The same, where these are the outermost enums of the program.
fn put_found_at(
    alloc: Global,
    sites: &EnumSites,
    scoping: &Scoping,
    lines: &mut Lines,
) -> Result<(), OutOfMemory> {
    let misused = first_misused(sites.program, scoping, sites.legacy);
    let misnamed = first_misnamed(alloc, sites, scoping, misused)?;
    put_node("misnamed", misnamed, lines);
    let shadowed = first_shadowed(alloc, sites, scoping)?;
    put_shadowed(shadowed, lines);
    let wide = first_wide(sites.program, scoping, sites.legacy);
    put_node("wide", wide.map(|member| member.node), lines);
    Ok(())
}

/// Puts the line of the first shadowed name.
fn put_shadowed(found: Option<ShadowedName>, lines: &mut Lines) {
    match found {
        Some(ShadowedName { node, name }) => {
            let line = [
                Piece::Text("shadowed"),
                Piece::Node(node),
                Piece::Word(name.as_str()),
                Piece::Text("\n"),
            ];
            lines.put(&line);
        }
        None => lines.put(&[Piece::Text("shadowed -\n")]),
    }
}

/// Puts the line of a node that is found to be so.
fn put_node(what: &str, found: Option<NodeId>, lines: &mut Lines) {
    let line = [
        Piece::Text(what),
        Piece::Maybe(found.map(|node| node.0)),
        Piece::Text("\n"),
    ];
    lines.put(&line);
}
