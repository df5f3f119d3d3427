//! Items of effect words.

use oxt_facts::compare::first_difference;
use oxt_facts::facts::Facts;
use oxt_facts::groups::number_groups;
use oxt_facts::item::{Atom, Binding, Item, ItemKind};
use oxt_facts::told::ToldBlock;
use oxt_grammar::kind::Kind;
use oxt_grammar::word::Word;
use oxt_lines::lines::Lines;
use oxt_lines::stopped::{Stopped, all_well};
use oxt_names::name::Name;
use std::alloc::Global;
use std::slice;

/// The first differences of words.
pub fn print_words(alloc: Global, lines: &mut Lines) -> Result<(), Stopped> {
    all_well(&[
        differences(alloc, lines),
        word_and_text(alloc, lines),
        numbered(alloc, lines),
        owners_alone(alloc, lines),
        inside_block(alloc, lines),
    ])
}

fn item(alloc: Global, kind: ItemKind, spelling: Atom, detail: Atom) -> Result<Item, Stopped> {
    let details = vec![in alloc; detail]?;
    Ok(Item {
        kind,
        spelling,
        details,
        group: None,
    })
}

/// `let NAME`.
fn bind(alloc: Global, name: &str) -> Result<Item, Stopped> {
    let spelling = Atom::Text(Name::new(alloc, name)?);
    item(alloc, ItemKind::Bind, spelling, Atom::Binding(Binding::Let))
}

/// The read of a field that is optional or not.
fn get(alloc: Global, is_optional: bool) -> Result<Item, Stopped> {
    item(alloc, ItemKind::Get, Atom::Flag(is_optional), Atom::Nothing)
}

/// `let NAME`, and the read of a field.
fn word(alloc: Global, name: &str, is_optional: bool) -> Result<Vec<Item>, Stopped> {
    let first = bind(alloc, name)?;
    let second = get(alloc, is_optional)?;
    Ok(vec![in alloc; first, second]?)
}

/// The place of the first difference.
fn place(source: &[Item], output: &[Item]) -> Option<u64> {
    match first_difference(source, output) {
        Some(difference) => Some(difference.index as u64),
        None => None,
    }
}

fn differences(alloc: Global, lines: &mut Lines) -> Result<(), Stopped> {
    let source = word(alloc, "x", false)?;
    print_differences(alloc, source.as_slice(), lines)?;
    print_ends(source.as_slice(), lines);
    Ok(())
}

/// The places at which others differ from the word of `let x` and a field that is read.
fn print_differences(alloc: Global, source: &[Item], lines: &mut Lines) -> Result<(), Stopped> {
    let found = [
        place_beside(alloc, source, "x", false)?,
        place_beside(alloc, source, "y", false)?,
        place_beside(alloc, source, "x", true)?,
    ];
    lines.options(
        "the first difference of let x, get: from itself, from let y, get, from let x, ?.get",
        &found,
    );
    Ok(())
}

/// The place at which the word differs from that one.
fn place_beside(
    alloc: Global,
    source: &[Item],
    name: &str,
    is_optional: bool,
) -> Result<Option<u64>, Stopped> {
    let output = word(alloc, name, is_optional)?;
    Ok(place(source, output.as_slice()))
}

/// The places where one of the words has ended, and what stands there.
fn print_ends(source: &[Item], lines: &mut Lines) {
    let short = &source[..source.len().min(1)];
    lines.options(
        "from let x alone, of no items",
        &[place(source, short), place(&[], source)],
    );
    if let Some(difference) = first_difference(source, short) {
        lines.texts(
            "what stands there in the source and in the output",
            &[kind_name(difference.source), kind_name(difference.output)],
        );
    }
}

/// The name of the item's kind.
fn kind_name(item: Option<&Item>) -> &'static str {
    match item {
        Some(item) => item.kind.name(),
        None => "-",
    }
}

fn word_and_text(alloc: Global, lines: &mut Lines) -> Result<(), Stopped> {
    let text = Atom::Text(Name::new(alloc, "js")?);
    let of_text = item(alloc, ItemKind::Open, Atom::Kind(Kind::Program), text)?;
    let word = Atom::Word(Word::Js);
    let of_word = item(alloc, ItemKind::Open, Atom::Kind(Kind::Program), word)?;
    compared(alloc, of_text, of_word, lines)
}

/// The first difference of words of one item.
fn compared(alloc: Global, first: Item, second: Item, lines: &mut Lines) -> Result<(), Stopped> {
    let first = vec![in alloc; first]?;
    let second = vec![in alloc; second]?;
    let found = place(first.as_slice(), second.as_slice());
    lines.options("the text js beside the word js", &[found]);
    Ok(())
}

/// `let x` of that group.
fn bind_of(alloc: Global, group: u64) -> Result<Item, Stopped> {
    let mut item = bind(alloc, "x")?;
    item.group = Some(group);
    Ok(item)
}

/// Declarations of the groups 9 and 4, and the first of them again.
fn declared(alloc: Global) -> Result<Vec<Item>, Stopped> {
    let first = bind_of(alloc, 9)?;
    let second = bind_of(alloc, 4)?;
    let third = bind_of(alloc, 9)?;
    Ok(vec![in alloc; first, second, third]?)
}

fn numbered(alloc: Global, lines: &mut Lines) -> Result<(), Stopped> {
    let mut items = declared(alloc)?;
    number_groups(alloc, &mut items)?;
    print_numbers(items.as_slice(), lines);
    Ok(())
}

/// A line with the groups of the items.
fn print_numbers(items: &[Item], lines: &mut Lines) {
    lines.begin("the groups 9, 4, 9 in a word, numbered");
    for item in items {
        lines.option_value(item.group);
    }
    lines.end();
}

fn owners_alone(alloc: Global, lines: &mut Lines) -> Result<(), Stopped> {
    let answers = [
        is_of_owners(&bind_of(alloc, 9)?, &bind_of(alloc, 4)?),
        is_of_owners(&bind_of(alloc, 9)?, &get(alloc, false)?),
    ];
    lines.answers(
        "let x of the group 9, beside that of 4, beside a field: in owners alone",
        &answers,
    );
    Ok(())
}

/// Whether the two items differ in owners alone.
fn is_of_owners(first: &Item, second: &Item) -> bool {
    match first_difference(slice::from_ref(first), slice::from_ref(second)) {
        Some(difference) => difference.is_of_owners(),
        None => false,
    }
}

fn inside_block(alloc: Global, lines: &mut Lines) -> Result<(), Stopped> {
    let block = block(alloc)?;
    let outside = Facts::of_source(alloc)?;
    let inside = outside.in_block(&block)?;
    lines.options(
        "what the groups 3 and 5 mean outside of a block 8 of the enum of group 3, and inside",
        &[
            outside.group_here(Some(3)),
            outside.group_here(Some(5)),
            inside.group_here(Some(3)),
            inside.group_here(Some(5)),
            inside.group_here(None),
        ],
    );
    Ok(())
}

/// The block 8 of the enum `E` of group 3.
fn block(alloc: Global) -> Result<ToldBlock, Stopped> {
    Ok(ToldBlock {
        name: Name::new(alloc, "E")?,
        group: Some(3),
        node: 8,
        is_first: true,
        is_top: true,
        is_pure: true,
    })
}
