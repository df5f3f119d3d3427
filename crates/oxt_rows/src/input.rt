//! The bytes that a case hands in.
use anyhow::{Context, Result};
use serde_json::Value;
use std::alloc::Global;

/// The bytes that a row of the table names, in one of five ways: a tree, a text, digits of bytes that
/// are no text, one byte many times, and nested arrays between two texts.
///
/// # Errors
///
/// One that says that none of them is there; or want of memory.
pub fn input_bytes(alloc: Global, row: &Value) -> Result<Vec<u8>> {
    if let Some(tree) = row.get("tree") {
        return Ok(tree.to_vec(alloc)?);
    }
    if let Some(fill) = row.get("fill") {
        return filled(alloc, fill);
    }
    if let Some(nested) = row.get("nested") {
        return nested_arrays(alloc, nested);
    }
    if let Some(digits) = row.get("hex").and_then(Value::as_str) {
        return Ok(hex::decode(alloc, digits)?);
    }
    let text = row.get("bytes").and_then(Value::as_str);
    let text = text.context("a case has no input")?;
    Ok(Vec::from_slice(alloc, text.as_bytes())?)
}

// A byte, many times.
fn filled(alloc: Global, fill: &Value) -> Result<Vec<u8>> {
    let byte = u8::try_from(number(fill, "byte")?)?;
    Ok(Vec::from_elem(alloc, byte, number(fill, "count")? as usize)?)
}

// Arrays in one another, between two texts.
fn nested_arrays(alloc: Global, nested: &Value) -> Result<Vec<u8>> {
    let depth = number(nested, "arrays")? as usize;
    let mut bytes = Vec::new(alloc);
    bytes.extend_from_slice(text(nested, "front")?.as_bytes())?;
    bytes.extend_from_slice(Vec::from_elem(alloc, b'[', depth)?.as_slice())?;
    bytes.extend_from_slice(Vec::from_elem(alloc, b']', depth)?.as_slice())?;
    bytes.extend_from_slice(text(nested, "back")?.as_bytes())?;
    Ok(bytes)
}

fn number(value: &Value, key: &str) -> Result<u64> {
    let number = value.get(key).and_then(Value::as_u64);
    number.context(format_args!("no number {key:?}"))
}

fn text<'a>(value: &'a Value, key: &str) -> Result<&'a str> {
    let text = value.get(key).and_then(Value::as_str);
    text.context(format_args!("no text {key:?}"))
}
