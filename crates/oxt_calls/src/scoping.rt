//! Tables of scopes, symbols and references, which are changed by hand.
ghost use Rattle.std.specs.Prelude.{◌≡◌, ◌<◌, IfOk, length};

use bitflags::Flags;
use oxt_lines::lines::Lines;
use oxt_lines::stopped::{Stopped, all_well};
use oxt_lines::table::Table;
use oxt_names::constant::ConstantValue;
use oxt_names::flags::{ReferenceFlags, ScopeFlags, SymbolFlags};
use oxt_names::ids::{NodeId, ReferenceId, ScopeId, SymbolId};
use oxt_names::name::Name;
use oxt_names::uid::UidNames;
use oxt_resolve::resolve::resolve;
use oxt_scoping::entry::Redeclaration;
use oxt_scoping::scoping::Scoping;
use oxt_tree::tree::Node;
use std::alloc::Global;

/// The calls of tables.
pub fn print_scoping(alloc: Global, table: &Table, lines: &mut Lines) -> Result<(), Stopped> {
    all_well(&[
        resolved(alloc, table, lines),
        by_hand(alloc, lines),
        without_types(alloc, lines),
    ])
}

/// The number of what was found.
fn number_of(symbol: Option<SymbolId>) -> Option<u64> {
    symbol.map(|symbol| symbol.0)
}

// ---- the table of a tree

fn resolved(alloc: Global, table: &Table, lines: &mut Lines) -> Result<(), Stopped> {
    let program = table.tree(alloc, "{ f(function(a) {}) }")?;
    of_tree(alloc, &program.root, lines)
}

fn of_tree(alloc: Global, root: &Node, lines: &mut Lines) -> Result<(), Stopped> {
    let mut scoping = resolve(alloc, root, false)?;
    let printed = in_scopes(alloc, &mut scoping, lines);
    drop(scoping);
    printed
}

/// The scopes of the tree, and a further one.
fn in_scopes(alloc: Global, scoping: &mut Scoping, lines: &mut Lines) -> Result<(), Stopped> {
    lines.options(
        "{ f(function(a) {}) }, scope_of the program, the block, its statement, the call, the function",
        &[
            scope_number(scoping, 1),
            scope_number(scoping, 2),
            scope_number(scoping, 3),
            scope_number(scoping, 4),
            scope_number(scoping, 6),
        ],
    );
    bound_within(alloc, scoping, lines)
}

/// The number of the scope that the node opens.
fn scope_number(scoping: &Scoping, node: u64) -> Option<u64> {
    scoping.scope_of(NodeId(node)).map(|scope| scope.0)
}

/// Binds `b` in a new scope, and uses it.
fn bound_within(alloc: Global, scoping: &mut Scoping, lines: &mut Lines) -> Result<(), Stopped> {
    let name = Name::new(alloc, "b")?;
    let root = scoping.root_scope_id();
    let scope = scoping.create_child_scope(root, ScopeFlags::Function)?;
    let flags = SymbolFlags::FunctionScopedVariable;
    let symbol = scoping.create_symbol(&name, scope, flags, NodeId(90))?;
    let reference = scoping.create_reference(NodeId(91), Some(symbol), ReferenceFlags::Read)?;
    let made = [scope.0, symbol.0, reference.0];
    lines.numbers(
        "create_child_scope, create_symbol of b, create_reference",
        &made,
    );
    print_bindings(scoping, scope, lines);
    Ok(())
}

/// What the names are bound to in the scope.
fn print_bindings(scoping: &Scoping, scope: ScopeId, lines: &mut Lines) {
    if !scoping.has_scope(scope) {
        lines.text("the scope", "is not there");
        return;
    }
    let found = [
        number_of(scoping.get_binding(scope, "b")),
        number_of(scoping.find_binding(scope, "b")),
        number_of(scoping.find_binding(scope, "f")),
        number_of(scoping.symbol_of(NodeId(90))),
        scoping.reference_of(NodeId(91)).map(|found| found.0),
    ];
    lines.options(
        "get_binding of b, find_binding of b and of f, symbol_of, reference_of",
        &found,
    );
}

// ---- an empty table

fn by_hand(alloc: Global, lines: &mut Lines) -> Result<(), Stopped> {
    let mut scoping = Scoping::new(alloc, ScopeFlags::Top, UidNames::new(alloc))?;
    let printed = changed(alloc, &mut scoping, lines);
    drop(scoping);
    printed
}

fn changed(alloc: Global, scoping: &mut Scoping, lines: &mut Lines) -> Result<(), Stopped> {
    opened(scoping, lines)?;
    declared_twice(alloc, scoping, lines)?;
    deleted(scoping, lines)?;
    flags_changed(scoping, lines);
    made_names(scoping, lines)?;
    enums(alloc, scoping, lines)
}

fn opened(scoping: &mut Scoping, lines: &mut Lines) -> Result<(), Stopped> {
    let root = scoping.root_scope_id();
    let scope = scoping.open_scope(NodeId(3), root, ScopeFlags::Arrow)?;
    let found = [
        Some(scope.0),
        scope_number(scoping, 3),
        scope_number(scoping, 4),
    ];
    lines.options("open_scope at node 3, scope_of 3, scope_of 4", &found);
    Ok(())
}

fn declared_twice(alloc: Global, scoping: &mut Scoping, lines: &mut Lines) -> Result<(), Stopped> {
    let name = Name::new(alloc, "E")?;
    let root = scoping.root_scope_id();
    let symbol = scoping.create_symbol(&name, root, SymbolFlags::Enum, NodeId(2))?;
    if scoping.has_symbol(symbol) {
        let again = Redeclaration {
            node: NodeId(7),
            flags: SymbolFlags::Enum,
            emits: true,
        };
        scoping.declare_again(symbol, again)?;
    }
    let found = [2, 7, 8].map(|node| number_of(scoping.symbol_of(NodeId(node))));
    lines.options(
        "create_symbol of E at node 2, declare_again at 7, symbol_of 2, 7, 8",
        &found,
    );
    Ok(())
}

fn deleted(scoping: &mut Scoping, lines: &mut Lines) -> Result<(), Stopped> {
    let reference = scoping.create_reference(NodeId(4), None, ReferenceFlags::Read)?;
    let before = reference_number(scoping, 4);
    delete(scoping, reference);
    let found = [before, reference_number(scoping, 4)];
    lines.options(
        "create_reference at node 4, reference_of 4, after delete_reference",
        &found,
    );
    Ok(())
}

/// Deletes the reference, where it is there.
fn delete(scoping: &mut Scoping, reference: ReferenceId) {
    if scoping.has_reference(reference) {
        scoping.delete_reference(reference);
    }
}

/// The number of the reference of the node.
fn reference_number(scoping: &Scoping, node: u64) -> Option<u64> {
    scoping
        .reference_of(NodeId(node))
        .map(|reference| reference.0)
}

fn flags_changed(scoping: &mut Scoping, lines: &mut Lines) {
    let before = root_flags(scoping);
    let root = scoping.root_scope_id();
    *scoping.scope_flags_mut(root) = ScopeFlags::StrictMode;
    lines.numbers(
        "the flags of the first scope, before and after scope_flags_mut",
        &[before, root_flags(scoping)],
    );
}

/// The bits of the first scope's flags.
fn root_flags(scoping: &Scoping) -> u64 {
    let root = scoping.root_scope_id();
    u64::from(scoping.scope_flags(root).bits())
}

fn made_names(scoping: &mut Scoping, lines: &mut Lines) -> Result<(), Stopped> {
    let first = scoping.generate_uid_name("x")?;
    let second = scoping.generate_uid_name("x")?;
    lines.texts(
        "generate_uid_name of x, twice",
        &[first.as_str(), second.as_str()],
    );
    Ok(())
}

/// A symbol of the program that emits nothing.
fn declared(
    alloc: Global,
    scoping: &mut Scoping,
    name: &str,
    flags: SymbolFlags,
) -> Result<SymbolId, Stopped>
    ensures { IfOk result (λ symbol. symbol.0 < length scoping.new.symbols) }
{
    let declaration = Redeclaration {
        node: NodeId(5),
        flags,
        emits: false,
    };
    let name = Name::new(alloc, name)?;
    let root = scoping.root_scope_id();
    Ok(scoping.declare_symbol(&name, root, flags, declaration)?)
}

fn enums(alloc: Global, scoping: &mut Scoping, lines: &mut Lines) -> Result<(), Stopped> {
    let symbol = declared(alloc, scoping, "F", SymbolFlags::ConstEnum)?;
    let root = scoping.root_scope_id();
    scoping.add_enum_body(symbol, root)?;
    scoping.set_enum_member_value(symbol, ConstantValue::Number(7));
    print_enum(scoping, symbol, lines);
    Ok(())
}

/// What is known of an enum.
fn print_enum(scoping: &Scoping, symbol: SymbolId, lines: &mut Lines) {
    if !scoping.has_symbol(symbol) {
        lines.text("the enum", "is not there");
        return;
    }
    let bodies = match scoping.get_enum_body_scopes(symbol) {
        Some(bodies) => Some(bodies.len() as u64),
        None => None,
    };
    let value = match scoping.get_enum_member_value(symbol) {
        Some(ConstantValue::Number(number)) => u64::try_from(*number).ok(),
        _ => None,
    };
    lines.options(
        "a const enum with a body and the value 7: its bodies, its value",
        &[bodies, value],
    );
    lines.answers("is_const_enum", &[scoping.is_const_enum(symbol)]);
}

// ---- types

fn without_types(alloc: Global, lines: &mut Lines) -> Result<(), Stopped> {
    let names = UidNames::new(alloc);
    let mut scoping = Scoping::of_program(alloc, ScopeFlags::Top, NodeId(1), names)?;
    let printed = types_deleted(alloc, &mut scoping, lines);
    drop(scoping);
    printed
}

fn types_deleted(alloc: Global, scoping: &mut Scoping, lines: &mut Lines) -> Result<(), Stopped> {
    declare_three(alloc, scoping)?;
    print_three(
        "an interface a, a class b, an ambient class c, bound to",
        scoping,
        lines,
    );
    scoping.delete_typescript_bindings();
    print_three("after delete_typescript_bindings", scoping, lines);
    lines.options("scope_of the program", &[scope_number(scoping, 1)]);
    Ok(())
}

/// An interface, a class and an ambient class.
fn declare_three(alloc: Global, scoping: &mut Scoping) -> Result<(), Stopped> {
    declared(alloc, scoping, "a", SymbolFlags::Interface)?;
    declared(alloc, scoping, "b", SymbolFlags::Class)?;
    declared(
        alloc,
        scoping,
        "c",
        SymbolFlags::Class.union(SymbolFlags::Ambient),
    )?;
    Ok(())
}

/// What the three names are bound to in the first scope.
fn print_three(label: &str, scoping: &Scoping, lines: &mut Lines) {
    let root = scoping.root_scope_id();
    let found = [
        number_of(scoping.get_binding(root, "a")),
        number_of(scoping.get_binding(root, "b")),
        number_of(scoping.get_binding(root, "c")),
    ];
    lines.options(label, &found);
}
