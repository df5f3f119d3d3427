//! The stack of entries that may be empty, the statements that wait beside others, and the declarators that
//! wait for the top of a list.
ghost use Rattle.std.specs.Prelude.{◌≡◌, ◌<◌, [], length};
ghost use Rattle.oxt_stores.specs.Frame.{frames};

use oxt_grammar::kind::Kind;
use oxt_injector::injector::StatementInjectorStore;
use oxt_lines::lines::Lines;
use oxt_lines::nodes::{literal, named, node, statement, statements};
use oxt_lines::source::{push_declaration, source_of};
use oxt_lines::stopped::{Stopped, all_well};
use oxt_names::ids::{NodeId, NodeIds, SymbolId};
use oxt_names::name::Name;
use oxt_stores::bound::BoundIdentifier;
use oxt_stores::declarations::VarDeclarationsStore;
use oxt_stores::sparse::SparseStack;
use oxt_tree::tree::{Node, Part};
use std::alloc::Global;

/// The calls of the three stores.
pub fn print_stores(alloc: Global, lines: &mut Lines) -> Result<(), Stopped> {
    all_well(&[
        sparse_stack(alloc, lines),
        lent_top(alloc, lines),
        five_beside_one(alloc, lines),
        five_beside_the_first(alloc, lines),
        each_comes_first(alloc, lines),
        empty_list(alloc, lines),
        moved_behind(alloc, lines),
        moved_twice(alloc, lines),
        declarators_at_top(alloc, lines),
        declarators_of_program(alloc, lines),
        no_declarators(alloc, lines),
    ])
}

// ---- the stack

fn sparse_stack(alloc: Global, lines: &mut Lines) -> Result<(), Stopped> {
    let mut stack: SparseStack<u64> = SparseStack::new(alloc);
    let printed = push_and_pop(&mut stack, lines);
    drop(stack);
    printed
}

/// A line with what two entries of an empty stack are, and how many there are before and after.
fn push_and_pop(stack: &mut SparseStack<u64>, lines: &mut Lines) -> Result<(), Stopped> {
    stack.push(None)?;
    stack.push(Some(1))?;
    let length = stack.len() as u64;
    let pops = [stack.pop(), stack.pop(), stack.pop()];
    let rest = stack.len() as u64;
    lines.options(
        "push(None), push(Some(1)), len, pop, pop, pop, len",
        &[Some(length), pops[0], pops[1], pops[2], Some(rest)],
    );
    Ok(())
}

fn lent_top(alloc: Global, lines: &mut Lines) -> Result<(), Stopped> {
    let mut stack: SparseStack<u64> = SparseStack::new(alloc);
    let printed = write_tops(&mut stack, lines);
    drop(stack);
    printed
}

/// A line with what was on top of the stack, each time that 1 was written there.
fn write_tops(stack: &mut SparseStack<u64>, lines: &mut Lines) -> Result<(), Stopped> {
    let of_none = write_top(stack, 1);
    stack.push(None)?;
    let of_empty = write_top(stack, 1);
    stack.push(Some(7))?;
    let of_seven = write_top(stack, 1);
    let popped = stack.pop();
    lines.options(
        "last_mut of no entry, of an empty entry, of 7, over which 1 is written, pop",
        &[of_none, of_empty, of_seven, popped],
    );
    Ok(())
}

/// Writes the number over the value on top, and gives that value.
fn write_top(stack: &mut SparseStack<u64>, number: u64) -> Option<u64> {
    match stack.last_mut() {
        Some(top) => {
            let value = *top;
            *top = number;
            Some(value)
        }
        None => None,
    }
}

// ---- statements beside others

/// What is inserted into a store of its own.
#[derive(Clone, Copy)]
enum Inserted {
    /// Five insertions beside one statement.
    Five,
    /// Six statements beside four others.
    Six,
    /// No statements beside one.
    Nothing,
    /// Statements that were moved once.
    MovedOnce,
    /// Statements that were moved twice.
    MovedTwice,
}

impl Inserted {
    /// Puts it into the store.
    fn insert(self, alloc: Global, store: &mut StatementInjectorStore) -> Result<(), Stopped> {
        match self {
            Inserted::Five => insert_five(alloc, store),
            Inserted::Six => insert_six(alloc, store),
            Inserted::Nothing => insert_none(alloc, store),
            Inserted::MovedOnce => move_behind(alloc, store),
            Inserted::MovedTwice => move_twice(alloc, store),
        }
    }
}

/// A line with what the list of those letters becomes by what is inserted, and whether its store is then empty.
fn print_placed(
    alloc: Global,
    inserted: Inserted,
    letters: &[u8],
    label: &str,
    lines: &mut Lines,
) -> Result<(), Stopped> {
    let mut store = StatementInjectorStore::new(alloc);
    let printed = match inserted.insert(alloc, &mut store) {
        Ok(()) => placed(alloc, &mut store, letters, label, lines),
        Err(stopped) => Err(stopped),
    };
    drop(store);
    printed
}

/// The number of the statement of that letter.
fn at(letter: u8) -> NodeId {
    NodeId(u64::from(letter))
}

/// A line with what the list of those letters becomes, and whether the store is then empty.
fn placed(
    alloc: Global,
    store: &mut StatementInjectorStore,
    letters: &[u8],
    label: &str,
    lines: &mut Lines,
) -> Result<(), Stopped> {
    let mut list = statements(alloc, letters)?;
    store.insert_into_statements(&mut list)?;
    let text = source_of(alloc, list.as_slice())?;
    lines.texts(label, &[text.as_str(), "-", rest_name(store.is_empty())]);
    Ok(())
}

/// What is left of the store.
fn rest_name(is_empty: bool) -> &'static str {
    if is_empty {
        "nothing left"
    } else {
        "something left"
    }
}

/// One of each way, and a second before.
fn insert_five(alloc: Global, store: &mut StatementInjectorStore) -> Result<(), Stopped> {
    store.insert_before(at(b's'), statement(alloc, b'a'))?;
    store.insert_after(at(b's'), statement(alloc, b'b'))?;
    store.insert_before(at(b's'), statement(alloc, b'c'))?;
    store.insert_many_before(at(b's'), statements(alloc, b"de")?)?;
    store.insert_many_after(at(b's'), statements(alloc, b"f")?)?;
    Ok(())
}

fn five_beside_one(alloc: Global, lines: &mut Lines) -> Result<(), Stopped> {
    let mut store = StatementInjectorStore::new(alloc);
    let printed = place_five(alloc, &mut store, lines);
    drop(store);
    printed
}

/// Lines that say whether the store is empty before and after five insertions, and what a list becomes by them.
fn place_five(
    alloc: Global,
    store: &mut StatementInjectorStore,
    lines: &mut Lines,
) -> Result<(), Stopped> {
    let before = store.is_empty();
    insert_five(alloc, store)?;
    lines.answers(
        "is_empty of a new store, of one with five insertions",
        &[before, store.is_empty()],
    );
    let label =
        "insert_before a, insert_after b, insert_before c, insert_many_before d e, insert_many_after f, the list s";
    placed(alloc, store, b"s", label, lines)
}

fn five_beside_the_first(alloc: Global, lines: &mut Lines) -> Result<(), Stopped> {
    let label = "the same, the list r s t s";
    print_placed(alloc, Inserted::Five, b"rsts", label, lines)
}

/// One and two statements, before and after others.
fn insert_six(alloc: Global, store: &mut StatementInjectorStore) -> Result<(), Stopped> {
    store.insert_after(at(b's'), statement(alloc, b'a'))?;
    store.insert_many_before(at(b't'), statements(alloc, b"bc")?)?;
    store.insert_many_after(at(b'u'), statements(alloc, b"de")?)?;
    store.insert_after(at(b'v'), statement(alloc, b'f'))?;
    Ok(())
}

fn each_comes_first(alloc: Global, lines: &mut Lines) -> Result<(), Stopped> {
    let label = "a after s, b c before t, d e after u, f after v, the list u t s";
    print_placed(alloc, Inserted::Six, b"uts", label, lines)
}

/// No statements, before one.
fn insert_none(alloc: Global, store: &mut StatementInjectorStore) -> Result<(), Stopped> {
    store.insert_many_before(at(b's'), Vec::new(alloc))?;
    Ok(())
}

fn empty_list(alloc: Global, lines: &mut Lines) -> Result<(), Stopped> {
    let label = "no statements before s, the list s";
    print_placed(alloc, Inserted::Nothing, b"s", label, lines)
}

/// What waits beside two statements is moved beside one, which then moves nowhere.
fn move_behind(alloc: Global, store: &mut StatementInjectorStore) -> Result<(), Stopped> {
    store.insert_after(at(b't'), statement(alloc, b'x'))?;
    store.insert_before(at(b's'), statement(alloc, b'y'))?;
    store.move_insertions(at(b's'), at(b't'))?;
    store.move_insertions(at(b't'), at(b't'))?;
    store.move_insertions(at(b'r'), at(b't'))?;
    Ok(())
}

fn moved_behind(alloc: Global, lines: &mut Lines) -> Result<(), Stopped> {
    let label = "x after t, y before s, move_insertions from s to t, the list t";
    print_placed(alloc, Inserted::MovedOnce, b"t", label, lines)
}

/// What waits beside two statements is moved on twice.
fn move_twice(alloc: Global, store: &mut StatementInjectorStore) -> Result<(), Stopped> {
    store.insert_before(at(b's'), statement(alloc, b'c'))?;
    store.insert_after(at(b's'), statement(alloc, b'd'))?;
    store.insert_before(at(b't'), statement(alloc, b'e'))?;
    store.move_insertions(at(b's'), at(b't'))?;
    store.move_insertions(at(b't'), at(b'r'))?;
    Ok(())
}

fn moved_twice(alloc: Global, lines: &mut Lines) -> Result<(), Stopped> {
    let label =
        "c before s, d after s, e before t, move_insertions from s to t, from t to r, the list r";
    print_placed(alloc, Inserted::MovedTwice, b"r", label, lines)
}

// ---- declarators at the top of a list

/// A name that is bound.
fn bound(alloc: Global, name: &str) -> Result<BoundIdentifier, Stopped> {
    Ok(BoundIdentifier {
        name: Name::new(alloc, name)?,
        symbol_id: SymbolId(0),
    })
}

/// A name as a pattern.
fn pattern(alloc: Global, name: &str) -> Result<Node, Stopped> {
    named(alloc, Kind::BindingIdentifier, 1, name)
}

/// A declarator of a name.
fn declarator(alloc: Global, name: &str) -> Result<Node, Stopped> {
    let id = Part::Node(pattern(alloc, name)?);
    let parts = vec![in alloc; id, Part::Nothing, Part::Flag(false), Part::Nothing]?;
    Ok(node(Kind::VariableDeclarator, 1, parts))
}

/// Declares three names.
fn declare_names(
    alloc: Global,
    store: &mut VarDeclarationsStore,
    ids: &mut NodeIds,
) -> Result<(), Stopped>
    requires { 0 < length (frames store.old) }
    ensures { length (frames store.new) ≡ length (frames store.old) }
{
    store.insert_var(&bound(alloc, "_a")?, ids)?;
    store.insert_let(&bound(alloc, "_b")?, Some(literal(alloc, 1)?), ids)?;
    store.insert_var_with_init(&bound(alloc, "_c")?, literal(alloc, 2)?, ids)?;
    Ok(())
}

/// Declares two patterns.
fn declare_patterns(
    alloc: Global,
    store: &mut VarDeclarationsStore,
    ids: &mut NodeIds,
) -> Result<(), Stopped>
    requires { 0 < length (frames store.old) }
    ensures { length (frames store.new) ≡ length (frames store.old) }
{
    store.insert_var_binding_pattern(pattern(alloc, "_d")?, None, ids)?;
    store.insert_let_binding_pattern(pattern(alloc, "_e")?, None, ids)?;
    Ok(())
}

/// Gives two declarators.
fn give_declarators(
    alloc: Global,
    store: &mut VarDeclarationsStore,
    ids: &mut NodeIds,
) -> Result<(), Stopped>
    requires { 0 < length (frames store.old) }
    ensures { length (frames store.new) ≡ length (frames store.old) }
{
    store.insert_var_declarator(declarator(alloc, "_f")?, ids)?;
    store.insert_let_declarator(declarator(alloc, "_g")?, ids)?;
    Ok(())
}

/// Declares seven names in the innermost list, each in another way.
fn declare_seven(
    alloc: Global,
    store: &mut VarDeclarationsStore,
    ids: &mut NodeIds,
) -> Result<(), Stopped>
    requires { 0 < length (frames store.old) }
    ensures { length (frames store.new) ≡ length (frames store.old) }
{
    declare_names(alloc, store, ids)?;
    declare_patterns(alloc, store, ids)?;
    give_declarators(alloc, store, ids)
}

/// A line with what the list `s` becomes, how many lists the store is in then, and the next number.
fn topped(
    alloc: Global,
    store: &mut VarDeclarationsStore,
    is_program_body: bool,
    ids: &mut NodeIds,
    lines: &mut Lines,
) -> Result<(), Stopped>
    requires { 0 < length (frames store.old) }
{
    let mut list = statements(alloc, b"s")?;
    store.insert_into_statements(&mut list, is_program_body, ids)?;
    let text = source_of(alloc, list.as_slice())?;
    lines.text("the list s with its declarators", text.as_str());
    lines.numbers(
        "depth and the next number",
        &[store.depth() as u64, ids.next],
    );
    Ok(())
}

fn declarators_at_top(alloc: Global, lines: &mut Lines) -> Result<(), Stopped> {
    let mut store = VarDeclarationsStore::new(alloc);
    let printed = top_seven(alloc, &mut store, lines);
    drop(store);
    printed
}

/// Lines with what a list becomes by seven declarators.
fn top_seven(
    alloc: Global,
    store: &mut VarDeclarationsStore,
    lines: &mut Lines,
) -> Result<(), Stopped>
    requires { frames store.old ≡ [] }
{
    let mut ids = NodeIds { next: 100 };
    store.record_entering_statements()?;
    declare_seven(alloc, store, &mut ids)?;
    topped(alloc, store, false, &mut ids, lines)
}

fn no_declarators(alloc: Global, lines: &mut Lines) -> Result<(), Stopped> {
    let mut store = VarDeclarationsStore::new(alloc);
    let printed = top_none(alloc, &mut store, lines);
    drop(store);
    printed
}

/// Lines with what a list becomes by no declarators.
fn top_none(
    alloc: Global,
    store: &mut VarDeclarationsStore,
    lines: &mut Lines,
) -> Result<(), Stopped>
    requires { frames store.old ≡ [] }
{
    let mut ids = NodeIds { next: 100 };
    store.record_entering_statements()?;
    topped(alloc, store, false, &mut ids, lines)
}

fn declarators_of_program(alloc: Global, lines: &mut Lines) -> Result<(), Stopped> {
    let mut store = VarDeclarationsStore::new(alloc);
    let printed = keep_seven(alloc, &mut store, lines);
    drop(store);
    printed
}

/// Lines with what the body of a program becomes by seven declarators, and their statements.
fn keep_seven(
    alloc: Global,
    store: &mut VarDeclarationsStore,
    lines: &mut Lines,
) -> Result<(), Stopped>
    requires { frames store.old ≡ [] }
{
    let mut ids = NodeIds { next: 100 };
    store.record_entering_statements()?;
    declare_seven(alloc, store, &mut ids)?;
    waiting(alloc, store, &mut ids, lines)
}

/// The list of the program's body stays, and both statements are had from the store.
fn waiting(
    alloc: Global,
    store: &mut VarDeclarationsStore,
    ids: &mut NodeIds,
    lines: &mut Lines,
) -> Result<(), Stopped>
    requires { 0 < length (frames store.old) }
{
    let mut list = statements(alloc, b"s")?;
    store.insert_into_statements(&mut list, true, ids)?;
    let text = source_of(alloc, list.as_slice())?;
    lines.text(
        "the body s of a program with its declarators",
        text.as_str(),
    );
    two_statements(alloc, store, ids, lines)
}

fn two_statements(
    alloc: Global,
    store: &mut VarDeclarationsStore,
    ids: &mut NodeIds,
    lines: &mut Lines,
) -> Result<(), Stopped> {
    let depth = store.depth();
    if depth == 0 {
        return Ok(());
    }
    let (by_var, by_let) = store.get_var_statement(ids)?;
    print_statement(alloc, &by_var, lines)?;
    print_statement(alloc, &by_let, lines)?;
    lines.numbers(
        "depth before and after",
        &[depth as u64, store.depth() as u64],
    );
    Ok(())
}

/// A line with the statement.
fn print_statement(alloc: Global, node: &Option<Node>, lines: &mut Lines) -> Result<(), Stopped> {
    let mut text = String::new(alloc);
    match node {
        Some(node) => push_declaration(&mut text, node)?,
        None => text.push('-')?,
    }
    lines.text("get_var_statement", text.as_str());
    Ok(())
}
