//! The table of taken names: each with the next number to try behind it.
ghost use Rattle.std.specs.Prelude.{◌≡◌, IfOk, OnErr, OnOk, false, length, string_bytes, true, MatchOption};
ghost use Rattle.oxt_names.specs.Names.{name_bytes};
ghost use Rattle.oxt_names.specs.Made.{added, first_free, is_among};
ghost use Rattle.oxt_names.specs.Tried.{FirstFree, IsTried, TriedBelow, spellings};

use crate::base::numbered;
use crate::ids::OutOfMemory;
use crate::name::Name;
use std::alloc::Global;
use std::collections::BTreeMap;

/// The taken names.
pub type Table = BTreeMap<String, u64>;

/// A text that is not taken, and the number behind its base.
#[derive(Drop)]
struct Free {
    text: String,
    number: u64,
}

/// Whether the name is taken.
pub fn has(table: &Table, text: &str) -> bool
    ensures { result ≡ is_among text.now (spellings table.now.entries) }
{
    table.contains_key(text)
}

/// Adds the name, if it is not there.
pub fn add(alloc: Global, table: &mut Table, text: &str) -> Result<(), OutOfMemory>
    requires { IsTried table.old.entries }
    ensures names { OnOk result
        (spellings table.new.entries ≡ added text.now (spellings table.old.entries)) }
    ensures kept { OnErr result (table.new.entries ≡ table.old.entries) }
    ensures tried { IsTried table.new.entries }
{
    if has(table, text) {
        Ok(())
    } else {
        put(table, String::from_str(alloc, text)?, 2)
    }
}

/// Makes a name of the base: the base itself, or with the first number that gives a free text.
pub fn make(alloc: Global, table: &mut Table, base: String) -> Result<Name, OutOfMemory>
    requires { IsTried table.old.entries }
    ensures first { IfOk result
        (λ name. name_bytes name
        ≡ first_free (spellings table.old.entries) (string_bytes base) 1 (length (spellings table.old.entries))) }
    ensures free { IfOk result
        (λ name. is_among (name_bytes name) (spellings table.old.entries) ≡ false) }
    ensures names { IfOk result
        (λ name. spellings table.new.entries
        ≡ added (name_bytes name) (spellings table.old.entries)) }
    ensures kept { OnErr result (spellings table.new.entries ≡ spellings table.old.entries) }
    ensures tried { IsTried table.new.entries }
{
    match next_number(table, base.as_str()) {
        None => {
            let name = Name::new(alloc, base.as_str())?;
            put(table, base, 2)?;
            Ok(name)
        }
        Some(from) => make_numbered(alloc, table, base, from),
    }
}

/// Makes a name of a base that is taken, where the numbers before that one were tried.
fn make_numbered(
    alloc: Global,
    table: &mut Table,
    base: String,
    from: u64,
) -> Result<Name, OutOfMemory>
    requires tried { IsTried table.old.entries }
    requires taken { is_among (string_bytes base) (spellings table.old.entries) ≡ true }
    requires behind { TriedBelow (spellings table.old.entries) (string_bytes base) from }
    ensures first { IfOk result
        (λ name. name_bytes name
        ≡ first_free (spellings table.old.entries) (string_bytes base) 1 (length (spellings table.old.entries))) }
    ensures free { IfOk result
        (λ name. is_among (name_bytes name) (spellings table.old.entries) ≡ false) }
    ensures names { IfOk result
        (λ name. spellings table.new.entries
        ≡ added (name_bytes name) (spellings table.old.entries)) }
    ensures kept { OnErr result (spellings table.new.entries ≡ spellings table.old.entries) }
    ensures tried { IsTried table.new.entries }
{
    let free = find_free(alloc, table, base.as_str(), from)?;
    let name = Name::new(alloc, free.text.as_str())?;
    put(table, free.text, 2)?;
    // The base is there already, so that this takes no memory.
    put(table, base, free.number + 1)?;
    Ok(name)
}

/// The first number from that one on that gives a free text behind the base, with that text.
fn find_free(alloc: Global, table: &Table, base: &str, from: u64) -> Result<Free, OutOfMemory>
    ensures { IfOk result
        (λ free. FirstFree (spellings table.now.entries) base.now from free.number (string_bytes free.text)) }
{
    for number in from..u64::MAX {
        let text = numbered(alloc, base, number)?;
        if !has(table, text.as_str()) {
            return Ok(Free { text, number });
        }
    }
    Err(OutOfMemory)
}

/// The next number to try behind the base, if it is taken.
fn next_number(table: &Table, base: &str) -> Option<u64>
    requires { IsTried table.now.entries }
    ensures { MatchOption result (is_among base.now (spellings table.now.entries) ≡ false)
        (λ next. (is_among base.now (spellings table.now.entries) ≡ true)
        × TriedBelow (spellings table.now.entries) base.now next) }
{
    table.get(base).copied()
}

/// Puts the name into the table, with the next number to try behind it.
fn put(table: &mut Table, text: String, next: u64) -> Result<(), OutOfMemory>
    requires tried { IsTried table.old.entries }
    requires behind { TriedBelow (added (string_bytes text) (spellings table.old.entries)) (string_bytes text) next }
    ensures names { OnOk result
        (spellings table.new.entries
        ≡ added (string_bytes text) (spellings table.old.entries)) }
    ensures kept { OnErr result (table.new.entries ≡ table.old.entries) }
    ensures absent { OnErr result
        (is_among (string_bytes text) (spellings table.old.entries) ≡ false) }
    ensures tried { IsTried table.new.entries }
{
    table.insert(text, next)?;
    Ok(())
}
