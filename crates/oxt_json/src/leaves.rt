//! Values without nodes in them.
ghost use Rattle.std.specs.Prelude.{◌≡◌, IfOk, option_map, if◌then◌else◌, Some, None};
ghost use Rattle.oxt_grammar.specs.Field.{row_view};
ghost use Rattle.oxt_grammar.specs.Places.{words_of};
ghost use Rattle.oxt_tree.specs.Doc as doc;
ghost use Rattle.oxt_valid.specs.Valid.{is_among};
ghost use Rattle.oxt_tree.specs.View.{part_doc};
ghost use Rattle.oxt_json.specs.Data.{num};
ghost use Rattle.oxt_json.specs.Leaves.{null_doc, flag_doc, number_doc, text_doc};
ghost use Rattle.oxt_json.specs.Reading.{missing_doc};

use crate::number::whole;
use oxt_grammar::holds::{Holds, Presence, Row};
use oxt_names::ids::OutOfMemory;
use oxt_names::name::Name;
use oxt_tree::fields::default_part;
use oxt_tree::tree::Part;
use std::alloc::Global;

/// What null stands for.
pub fn null_part(holds: Holds) -> Option<Part>
    ensures { option_map part_doc result ≡ null_doc holds }
{
    if holds.allows_null() {
        Some(Part::Nothing)
    } else {
        None
    }
}

/// What a flag stands for.
pub fn flag_part(flag: bool, holds: Holds) -> Option<Part>
    ensures { option_map part_doc result ≡ flag_doc holds flag }
{
    if holds.allows_flag() {
        Some(Part::Flag(flag))
    } else {
        None
    }
}

/// What a number stands for.
#[tactic(auto, using(crate::proofs::Found::whole_in))]
pub fn number_part(number: &str, holds: Holds) -> Option<Part>
    ensures { option_map part_doc result ≡ number_doc holds (num number.now) }
{
    let number = whole(number)?;
    if holds.allows_number(number) {
        Some(Part::Number(number))
    } else {
        None
    }
}

/// What a text stands for.
pub fn text_part(alloc: Global, text: &str, holds: Holds) -> Result<Option<Part>, OutOfMemory>
    ensures { IfOk result (λ part. option_map part_doc part ≡ text_doc holds text.now) }
{
    if holds.allows_text() {
        let name = Name::new(alloc, text)?;
        return Ok(Some(Part::Text(name)));
    }
    Ok(word_part(text, holds))
}

// The word that the text spells, where the place holds words.
#[tactic(auto, using(crate::proofs::WordsFound::word_found, crate::proofs::WordsFound::word_of_some))]
fn word_part(text: &str, holds: Holds) -> Option<Part>
    ensures { option_map part_doc result
        ≡ (if is_among (words_of holds) text.now then Some (doc.text text.now) else None) }
{
    let word = holds.words()?.find(text)?;
    Some(Part::Word(word))
}

/// What a field stands at where it is left out.
pub fn missing_part(alloc: Global, row: &Row) -> Option<Part>
    ensures { option_map part_doc result ≡ missing_doc (row_view row.now) }
{
    match row.presence {
        Presence::Required => None,
        Presence::Optional => Some(default_part(alloc, row.holds)),
        Presence::TypeScript => Some(default_part(alloc, row.holds)),
    }
}
