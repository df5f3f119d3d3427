//! Which nodes are trees of the grammar.
ghost use Rattle.std.specs.Prelude.{◌≡◌, map, is_none};
ghost use Rattle.std.specs.List.{list_any};
ghost use Rattle.std.specs.Str.{bytes_eq};
ghost use Rattle.oxt_grammar.specs.Words.{text_of};
ghost use Rattle.oxt_grammar.specs.Field.{row_view};
ghost use Rattle.oxt_grammar.specs.Places.{category_of};
ghost use Rattle.oxt_valid.specs.Condition.{fault};
ghost use Rattle.oxt_valid.specs.Valid.{allows_text, is_among, is_kind_of, is_tree, fits, fields_fit, all_fit};
ghost use Rattle.oxt_tree.specs.View.{docs_in, node_doc, part_doc};

use crate::condition::fault;
use oxt_grammar::category::Category;
use oxt_grammar::context::Setting;
use oxt_grammar::holds::{Holds, Row};
use oxt_grammar::kind::Kind;
use oxt_grammar::word::{Word, Words};
use oxt_names::ids::Span;
use oxt_tree::tree::{Node, Part};

/// Whether the node is a whole tree of the grammar: a program in which each node has the fields of
/// its kind, each field holds what may stand there, and each condition is met.
pub fn is_tree(program: &Node) -> bool
    ensures { result ≡ is_tree (node_doc program.now) }
{
    node_fits(program, Setting::Elsewhere, Holds::Node(Category::Program))
}

/// Whether the node may stand where a field holds that, in a node that stands in the setting.
#[cycle(fits)]
#[tactic(auto, using(crate::proofs::FitLoops::span_fits))]
fn node_fits(node: &Node, setting: Setting, holds: Holds) -> bool
    ensures { result ≡ fits (node_doc node.now) setting holds }
{
    // The offsets are in range by their type, which the proof knows once they are read.
    let Span {
        start: _start,
        end: _end,
    } = node.span;
    if !allows_kind(holds, node.kind) {
        return false;
    }
    if !fields_fit(&node.parts, setting, node.kind.setting(), node.kind.rows()) {
        return false;
    }
    meets_condition(node, setting)
}

/// Whether the part may stand where a field holds that, in a node that stands in the setting.
#[cycle(fits)]
fn part_fits(part: &Part, setting: Setting, holds: Holds) -> bool
    ensures { result ≡ fits (part_doc part.now) setting holds }
{
    match part {
        Part::Nothing => holds.allows_null(),
        Part::Flag(_) => holds.allows_flag(),
        Part::Number(number) => holds.allows_number(*number),
        Part::Text(name) => allows_text(holds, name.as_str()),
        Part::Word(word) => allows_text(holds, word.text()),
        Part::Node(node) => node_fits(node, setting, holds),
        Part::List(parts) => match holds.element() {
            Some(element) => all_fit(parts, setting, element),
            None => false,
        },
    }
}

/// Whether each part may stand where a field holds that.
#[cycle(fits)]
#[tactic(auto, using(crate::proofs::FitLoops::all_fit_steps))]
fn all_fit(parts: &[Part], setting: Setting, holds: Holds) -> bool
    ensures { result ≡ all_fit (docs_in parts.now) setting holds }
{
    for part in parts {
        if !part_fits(part, setting, holds) {
            return false;
        }
    }
    true
}

/// Whether each part fits the field of its row, in a node that stands in `setting` and is what the
/// nodes in its fields stand in, `inner`.
#[cycle(fits)]
#[tactic(auto, using(crate::proofs::FitLoops::fields_fit_steps))]
fn fields_fit(parts: &[Part], setting: Setting, inner: Setting, rows: &[Row]) -> bool
    ensures { result ≡ fields_fit (docs_in parts.now) setting inner (map row_view rows.now) }
{
    if parts.len() != rows.len() {
        return false;
    }
    for (i, part) in parts.iter().enumerate() {
        if !part_fits(part, inner, rows[i].holds.within(setting)) {
            return false;
        }
    }
    true
}

/// Whether the node, whose fields fit their rows, meets the condition of its kind.
fn meets_condition(node: &Node, setting: Setting) -> bool
    ensures { result ≡ is_none (fault setting node.now.kind (docs_in node.now.parts.items)) }
{
    fault(node, setting).is_none()
}

/// Whether a node of that kind may stand there.
fn allows_kind(holds: Holds, kind: Kind) -> bool
    ensures { result ≡ is_kind_of (category_of holds) kind }
{
    match holds.category() {
        Some(category) => category.contains(kind),
        None => false,
    }
}

/// Whether that text may stand there.
pub fn allows_text(holds: Holds, text: &str) -> bool
    ensures { result ≡ allows_text holds text.now }
{
    holds.allows_text() || is_among(holds.words(), text)
}

/// Whether the text is that of one of the words, if any may stand there.
fn is_among(words: Option<Words>, text: &str) -> bool
    ensures { result ≡ is_among words text.now }
{
    match words {
        Some(words) => is_word(words.all(), text),
        None => false,
    }
}

/// Whether the text is that of one of the words.
fn is_word(words: &[Word], text: &str) -> bool
    ensures { result ≡ list_any (λ word. bytes_eq (text_of word) text.now) words.now }
{
    words.iter().any(|word| word.text() == text)
}
