//! Operators on constants, and sets of flags.

use crate::plans::push_constant;
use bitflags::Flags;
use oxt_constant::operator::{BinaryOperator, UnaryOperator};
use oxt_lines::lines::Lines;
use oxt_lines::stopped::{Stopped, all_well};
use oxt_lines::table::Table;
use oxt_names::constant::ConstantValue;
use oxt_names::flags::{ReferenceFlags, ScopeFlags, SymbolFlags};
use oxt_names::name::Name;
use serde_json::Value;
use std::alloc::Global;

/// The operators on numbers and on texts, and the flags.
pub fn print_symbols(alloc: Global, table: &Table, lines: &mut Lines) -> Result<(), Stopped> {
    for row in table.rows("operations on two numbers") {
        let right = integer_at(row, 2);
        print_binary(alloc, integer_at(row, 0), text_at(row, 1), right, lines)?;
    }
    for row in table.rows("operations on one number") {
        print_unary(text_at(row, 0), integer_at(row, 1), lines)?;
    }
    texts(alloc, lines)?;
    no_operators(lines);
    flags(lines);
    Ok(())
}

/// The number at that place of a row.
fn integer_at(row: &Value, place: usize) -> i64 {
    match row.get(place).and_then(Value::as_i64) {
        Some(number) => number,
        None => 0,
    }
}

/// The text at that place of a row.
fn text_at(row: &Value, place: usize) -> &str {
    match row.get(place).and_then(Value::as_str) {
        Some(text) => text,
        None => "",
    }
}

fn print_binary(
    alloc: Global,
    left: i64,
    operator: &str,
    right: i64,
    lines: &mut Lines,
) -> Result<(), Stopped> {
    lines.operation(Some(left), operator, right);
    let value = match BinaryOperator::find(operator) {
        Some(operator) => apply(alloc, operator, left, right)?,
        None => None,
    };
    push_constant(value.as_ref(), lines);
    lines.end();
    Ok(())
}

/// What the operator gives of two numbers.
fn apply(
    alloc: Global,
    operator: BinaryOperator,
    left: i64,
    right: i64,
) -> Result<Option<ConstantValue>, Stopped> {
    let left = ConstantValue::Number(left);
    let right = ConstantValue::Number(right);
    Ok(operator.apply(alloc, &left, &right)?)
}

fn print_unary(operator: &str, operand: i64, lines: &mut Lines) -> Result<(), Stopped> {
    lines.operation(None, operator, operand);
    let value = match UnaryOperator::find(operator) {
        Some(operator) => operator.apply(&ConstantValue::Number(operand)),
        None => None,
    };
    push_constant(value.as_ref(), lines);
    lines.end();
    Ok(())
}

// ---- texts

fn texts(alloc: Global, lines: &mut Lines) -> Result<(), Stopped> {
    let text = ConstantValue::Text(Name::new(alloc, "a1")?);
    text_and_numbers(alloc, &text, lines)?;
    not_of_texts(alloc, &text, lines)
}

fn text_and_numbers(alloc: Global, text: &ConstantValue, lines: &mut Lines) -> Result<(), Stopped> {
    lines.begin("a text a1, with 1 behind it, with -20 before it, with itself behind it");
    all_well(&[
        push_sum(alloc, text, &ConstantValue::Number(1), lines),
        push_sum(alloc, &ConstantValue::Number(-20), text, lines),
        push_sum(alloc, text, text, lines),
    ])?;
    lines.end();
    Ok(())
}

/// Adds the sum of the two to the line.
fn push_sum(
    alloc: Global,
    left: &ConstantValue,
    right: &ConstantValue,
    lines: &mut Lines,
) -> Result<(), Stopped> {
    let sum = BinaryOperator::Add.apply(alloc, left, right)?;
    push_constant(sum.as_ref(), lines);
    Ok(())
}

/// The operators that have an answer where an operand is a text.
fn not_of_texts(alloc: Global, text: &ConstantValue, lines: &mut Lines) -> Result<(), Stopped> {
    lines.begin("operators on a text: of two operands, of one");
    for operator in BinaryOperator::all() {
        if takes_texts(alloc, *operator, text)? {
            lines.value(operator.text());
        }
    }
    for operator in UnaryOperator::all() {
        if operator.apply(text).is_some() {
            lines.value(operator.text());
        }
    }
    lines.end();
    Ok(())
}

/// Whether the operator has an answer where the left operand is the text, or where the right one is.
fn takes_texts(
    alloc: Global,
    operator: BinaryOperator,
    text: &ConstantValue,
) -> Result<bool, Stopped> {
    let one = ConstantValue::Number(1);
    let is_left = operator.apply(alloc, text, &one)?.is_some();
    let is_right = operator.apply(alloc, &one, text)?.is_some();
    Ok(is_left || is_right)
}

fn no_operators(lines: &mut Lines) {
    let found = [
        BinaryOperator::find("&&").is_some(),
        UnaryOperator::find("!").is_some(),
    ];
    lines.answers("&& and ! are operators on constants", &found);
}

// ---- flags

fn flags(lines: &mut Lines) {
    let symbol = SymbolFlags::BlockScopedVariable.union(SymbolFlags::ConstVariable);
    let answers = [
        symbol.contains(SymbolFlags::ConstVariable),
        symbol.intersects(SymbolFlags::Class),
    ];
    lines.answers("a const is a ConstVariable, is a Class", &answers);
    let mut reference = ReferenceFlags::Read;
    reference.insert(ReferenceFlags::Write);
    let bits = [
        u64::from(symbol.bits()),
        u64::from(reference.bits()),
        named_bits("EnumBody"),
    ];
    lines.numbers(
        "the bits of a const, of a use that reads and writes, of EnumBody",
        &bits,
    );
    let all = [
        u64::from(SymbolFlags::all().bits()),
        u64::from(ScopeFlags::all().bits()),
        u64::from(ReferenceFlags::all().bits()),
    ];
    lines.numbers("all flags of symbols, of scopes, of references", &all);
}

/// The bits of the flag of that name.
fn named_bits(name: &str) -> u64 {
    match ScopeFlags::from_name(name) {
        Some(flags) => u64::from(flags.bits()),
        None => 0,
    }
}
