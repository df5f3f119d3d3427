//! Bytes to a tree.
ghost use Rattle.std.specs.Prelude.{◌≡◌, IfOk, IfErr, Ok, None, Some};
ghost use Rattle.json.specs.Value.{value_view};
ghost use Rattle.oxt_names.specs.Names.{name_bytes};
ghost use Rattle.oxt_tree.specs.View.{node_doc};
ghost use Rattle.oxt_json.specs.Data.{data_of};
ghost use Rattle.oxt_json.specs.Misreads.{Gives};
ghost use Rattle.oxt_json.specs.Reading.{tree_of};
ghost use Rattle.oxt_json.specs.Spelling.{reading, value_of, no_value, wrong, tree};

use crate::misread::Misread;
use crate::nodes::read_node;
use crate::range::is_in_range;
use json::{Error as JsonError, Reader, Scratch, Value};
use oxt_grammar::category::Category;
use oxt_grammar::context::Setting;
use oxt_names::ids::NodeIds;
use oxt_names::name::Name;
use oxt_tree::tree::{Node, Program};
use simdutf8::compat::from_utf8;
use std::alloc::Global;
use thiserror::Error;

// How deep arrays and objects may nest.
const MAX_DEPTH: usize = 127;

/// Why bytes are no tree.
#[derive(Debug, Drop, Error)]
pub enum ReadFault {
    /// Memory ran out, or no number is left for a node.
    #[error("out of memory")]
    OutOfMemory,
    /// The bytes have no value as JSON.
    #[error("json")]
    Json,
    /// The value is none that the grammar allows.
    #[error("shape {}", .place.as_str())]
    Shape {
        /// The JSON pointer of the first wrong value.
        place: Name,
    },
}

impl From<Misread> for ReadFault {
    ghost use Rattle.oxt_json.specs.Faults.{Shows};

    ghost from_gives = { Shows };

    fn from(misread: Misread) -> ReadFault {
        let Misread::At(place) = misread else {
            return ReadFault::OutOfMemory;
        };
        match Name::from_string(place) {
            Ok(place) => ReadFault::Shape { place },
            Err(_) => ReadFault::OutOfMemory,
        }
    }
}

ghost use Rattle.oxt_json.specs.Faults.{OnJson, IfShape};

/// Reads the tree that JSON bytes spell. Its nodes have the numbers 1, 2 and so on, each before
/// those in it.
///
/// # Errors
/// `Json` where the bytes have no value, `Shape` with the first wrong value's place where the
/// grammar does not allow the value, and `OutOfMemory`.
#[tactic(auto, using(crate::proofs::Spelled::reading_none, crate::proofs::Spelled::value_not_utf8))]
pub fn read_tree(alloc: Global, text: &[u8]) -> Result<Program, ReadFault>
    ensures tree { IfOk result (λ program. reading text.now
        ≡ tree (node_doc program.root) program.ids.next) }
    ensures json { IfErr result (OnJson (reading text.now ≡ no_value)) }
    ensures shape { IfErr result (IfShape (λ place. reading text.now ≡ wrong (name_bytes place))) }
{
    let Ok(spelled) = from_utf8(text) else {
        return Err(ReadFault::Json);
    };
    let mut scratch = Scratch::new(alloc);
    read_text(alloc, spelled, &mut scratch)
}

// The tree that the text spells.
#[tactic(auto, using(crate::proofs::Spelled::reading_tree, crate::proofs::Spelled::reading_none, crate::proofs::Spelled::reading_wrong))]
fn read_text<'a>(
    alloc: Global,
    text: &'a str,
    scratch: &'a mut Scratch,
) -> Result<Program, ReadFault>
    ensures tree { IfOk result (λ program. reading text.now
        ≡ tree (node_doc program.root) program.ids.next) }
    ensures json { IfErr result (OnJson (reading text.now ≡ no_value)) }
    ensures shape { IfErr result (IfShape (λ place. reading text.now ≡ wrong (name_bytes place))) }
{
    let value = parse(alloc, text, scratch)?;
    let mut ids = NodeIds { next: 1 };
    let root = read_root(alloc, &value, &mut ids);
    drop(value);
    Ok(Program { root: root?, ids })
}

// The JSON value that the text is.
#[tactic(auto, using(crate::proofs::Spelled::value_some, crate::proofs::Spelled::value_outside, crate::proofs::Spelled::value_more, crate::proofs::Spelled::value_none))]
fn parse<'a>(alloc: Global, text: &'a str, scratch: &'a mut Scratch) -> Result<Value<'a>, ReadFault>
    ensures value { IfOk result (λ value. value_of text.now ≡ Some (data_of (value_view value))) }
    ensures json { IfErr result (OnJson (value_of text.now ≡ None)) }
    ensures shapeless { IfErr result (IfShape (λ _. ⊥)) }
{
    let Ok(mut reader) = Reader::new(text, scratch) else {
        return Err(ReadFault::OutOfMemory);
    };
    let value = match Value::read(alloc, &mut reader, MAX_DEPTH) {
        Ok(value) => value,
        Err(JsonError::OutOfMemory) => return Err(ReadFault::OutOfMemory),
        Err(_) => return Err(ReadFault::Json),
    };
    if reader.next().is_some() {
        drop(value);
        return Err(ReadFault::Json);
    }
    if !is_in_range(&value) {
        drop(value);
        return Err(ReadFault::Json);
    }
    Ok(value)
}

// The value as a whole tree.
#[tactic(auto, using(crate::proofs::Found::object_in))]
fn read_root<'a>(alloc: Global, value: &Value<'a>, ids: &mut NodeIds) -> Result<Node, Misread>
    requires { ids.old.next ≡ 1 }
    ensures { Gives node_doc result ids.new.next (tree_of (data_of (value_view value.now))) }
{
    let Value::Object(members) = value else {
        return Err(Misread::here(alloc));
    };
    read_node(alloc, members, Setting::Elsewhere, Category::Program, ids)
}
