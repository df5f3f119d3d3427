//! Items at the end of a word.
ghost use Rattle.std.specs.Prelude.{◌≡◌, ◌∷◌, [], ◌++◌, IfOk, OnOk, map, not, codes, drop, option_map, take, if◌then◌else◌};
ghost use Rattle.oxt_grammar.specs.Field.{row_view};
ghost use Rattle.oxt_grammar.specs.Rows.{row_of};
ghost use Rattle.oxt_tree.specs.Fields.{first};
ghost use Rattle.oxt_tree.specs.Doc.{flag, nil};
ghost use Rattle.oxt_tree.specs.Fields.{named, is_nil};
ghost use Rattle.oxt_tree.specs.View.{docs_in, doc_or_nil, part_doc};
ghost use Rattle.oxt_facts.specs.Entry.{atom_doc, detail, detailed, entries, entry_of, lone, owned, spelled};
ghost use Rattle.oxt_forms.specs.Details.{details, is_atom, is_detail, is_read, start};
ghost use Rattle.oxt_forms.specs.Leaves.{base_word, bind_word, dropped, ends_kept, hash_word, in_word, is_kept_kind, name_word, number_word, private_word};
ghost use Rattle.oxt_facts.specs.Facts.{is_made};
ghost use Rattle.oxt_facts.specs.Inside.{stored_at};
ghost use Rattle.oxt_forms.specs.Forms.{within};
ghost use Rattle.oxt_forms.specs.Made.{base_in, base_object, made_tag};
ghost use Rattle.oxt_grammar.specs.Keys.{key_of};

use crate::base::{base_in, base_key, base_object};
use crate::forms::within;
use crate::made::alias_of;
use oxt_facts::facts::Facts;
use oxt_facts::inside::stored_at;
use oxt_facts::item::{Atom, Binding, Item, ItemKind};
use oxt_grammar::field::Field;
use oxt_grammar::holds::{Holds, Row};
use oxt_grammar::kind::Kind;
use oxt_names::ids::OutOfMemory;
use oxt_names::name::Name;
use oxt_tree::tree::{Node, Part};
use std::alloc::Global;
use std::vec;

/// Puts an item at the end.
#[tactic(auto, using(crate::proofs::Appends::one_more))]
pub fn put(item: Item, out: &mut Vec<Item>) -> Result<(), OutOfMemory>
    ensures { OnOk result (entries out.new.items ≡ entries out.old.items ++ entry_of item ∷ []) }
{
    out.push(item)?;
    Ok(())
}

/// Puts an item that is not spelled.
pub fn put_lone(alloc: Global, kind: ItemKind, out: &mut Vec<Item>) -> Result<(), OutOfMemory>
    ensures { OnOk result (entries out.new.items ≡ entries out.old.items ++ lone kind) }
{
    put_spelled(alloc, kind, Atom::Nothing, out)
}

/// Puts an item with that spelling.
pub fn put_spelled(
    alloc: Global,
    kind: ItemKind,
    spelling: Atom,
    out: &mut Vec<Item>,
) -> Result<(), OutOfMemory>
    ensures { OnOk result (entries out.new.items
        ≡ entries out.old.items ++ spelled kind (atom_doc spelling)) }
{
    put_detailed(kind, spelling, Vec::new(alloc), out)
}

/// Puts an item with that spelling and these further texts and flags.
pub fn put_detailed(
    kind: ItemKind,
    spelling: Atom,
    details: Vec<Atom>,
    out: &mut Vec<Item>,
) -> Result<(), OutOfMemory>
    ensures { OnOk result (entries out.new.items
        ≡ entries out.old.items ++ detailed kind (atom_doc spelling) (map atom_doc details.items)) }
{
    put_owned(None, kind, spelling, details, out)
}

/// Puts an item of a name with that group.
pub fn put_owned(
    group: Option<u64>,
    kind: ItemKind,
    spelling: Atom,
    details: Vec<Atom>,
    out: &mut Vec<Item>,
) -> Result<(), OutOfMemory>
    ensures { OnOk result (entries out.new.items
        ≡ entries out.old.items ++ owned group kind (atom_doc spelling) (map atom_doc details.items)) }
{
    let item = Item {
        kind,
        spelling,
        details,
        group,
    };
    put(item, out)
}

/// Puts the start of a node of that kind.
pub fn put_start(kind: Kind, details: Vec<Atom>, out: &mut Vec<Item>) -> Result<(), OutOfMemory>
    ensures { OnOk result (entries out.new.items
        ≡ entries out.old.items ++ start kind (map atom_doc details.items)) }
{
    put_detailed(ItemKind::Open, Atom::Kind(kind), details, out)
}

/// Puts the start of the node, with its texts and flags.
pub fn put_open(alloc: Global, node: &Node, out: &mut Vec<Item>) -> Result<(), OutOfMemory>
    ensures { OnOk result (entries out.new.items
        ≡ entries out.old.items ++ start node.now.kind
        (details (row_of node.now.kind) (docs_in node.now.parts.items))) }
{
    let details = details_of(alloc, node.kind.rows(), &node.parts)?;
    put_start(node.kind, details, out)
}

/// The texts and flags among the parts of a node with these rows.
#[tactic(auto, using(crate::proofs::Details::detail_more, crate::proofs::Details::no_more_rows, crate::proofs::Details::no_more_parts))]
fn details_of(alloc: Global, rows: &[Row], parts: &[Part]) -> Result<Vec<Atom>, OutOfMemory>
    ensures { IfOk result (λ v. map atom_doc v.items
        ≡ details (map row_view rows.now) (docs_in parts.now)) }
{
    let mut found = Vec::new(alloc);
    for (i, row) in rows.iter().enumerate() {
        match parts.get(i) {
            Some(part) => put_detail(row, part, &mut found)?,
            None => return Ok(found),
        }
    }
    Ok(found)
}

/// Puts what the part holds, if it is a text or a flag of its node.
fn put_detail(row: &Row, part: &Part, found: &mut Vec<Atom>) -> Result<(), OutOfMemory>
    ensures { OnOk result (map atom_doc found.new.items
        ≡ (if is_detail (row_view row.now)
        then map atom_doc found.old.items ++ detail (part_doc part.now) ∷ []
        else map atom_doc found.old.items)) }
{
    if is_detail(row) {
        found.push(atom_of(part)?)?;
    }
    Ok(())
}

/// Whether the field is a text or a flag of its node.
fn is_detail(row: &Row) -> bool
    ensures { result ≡ is_detail (row_view row.now) }
{
    is_atom(row.holds) && (!row.presence.is_typescript() && !(row.is(Field::Shorthand)))
}

/// Whether the nodes in the field are read.
pub fn is_read(row: &Row) -> bool
    ensures { result ≡ is_read (row_view row.now) }
{
    !is_atom(row.holds) && !row.presence.is_typescript()
}

/// Whether a field holds a text, a number, a word or a flag.
fn is_atom(holds: Holds) -> bool
    ensures { result ≡ is_atom holds }
{
    match holds {
        Holds::Text => true,
        Holds::TextOrNull => true,
        Holds::Flag => true,
        Holds::WholeOrNull => true,
        Holds::Word(_) => true,
        Holds::WordOrNull(_) => true,
        _ => false,
    }
}

/// The text, number or flag itself, and nothing for a list or a node.
pub fn atom_of(part: &Part) -> Result<Atom, OutOfMemory>
    ensures { IfOk result (λ atom. atom_doc atom ≡ detail (part_doc part.now)) }
{
    Ok(match part {
        Part::Flag(flag) => Atom::Flag(*flag),
        Part::Number(number) => Atom::Number(*number),
        Part::Text(name) => Atom::Text(name.share()?),
        Part::Word(word) => Atom::Word(*word),
        _ => Atom::Nothing,
    })
}

/// The text that stands first in the node.
pub fn first_atom(node: &Node) -> Result<Atom, OutOfMemory>
    ensures { IfOk result (λ atom. atom_doc atom ≡ detail (first (docs_in node.now.parts.items))) }
{
    match node.parts.first() {
        Some(part) => atom_of(part),
        None => Ok(Atom::Nothing),
    }
}

/// What the field of that name holds.
pub fn field_atom(node: &Node, field: Field) -> Result<Atom, OutOfMemory>
    ensures { IfOk result (λ atom. atom_doc atom
        ≡ detail (named (key_of field) node.now.kind (docs_in node.now.parts.items))) }
{
    match node.field(field) {
        Some(part) => atom_of(part),
        None => Ok(Atom::Nothing),
    }
}

/// Puts the node's own text, as an item.
pub fn put_first(
    alloc: Global,
    kind: ItemKind,
    node: &Node,
    out: &mut Vec<Item>,
) -> Result<(), OutOfMemory>
    ensures { OnOk result (entries out.new.items
        ≡ entries out.old.items ++ spelled kind (detail (first (docs_in node.now.parts.items)))) }
{
    put_spelled(alloc, kind, first_atom(node)?, out)
}

/// Puts the use of the name, which may be made.
pub fn put_name(facts: &Facts, node: &Node, out: &mut Vec<Item>) -> Result<(), OutOfMemory>
    ensures { OnOk result (entries out.new.items
        ≡ entries out.old.items ++ name_word facts.now node.now.id.0 (docs_in node.now.parts.items)) }
{
    if begins_made(facts, node) {
        return put_first(facts.memory(), ItemKind::Made, node, out);
    }
    let group = facts.group_of(node.id);
    put_owned(
        group,
        ItemKind::Name,
        first_atom(node)?,
        Vec::new(facts.memory()),
        out,
    )
}

/// Whether the node's own text is the spelling of a made name.
fn begins_made(facts: &Facts, node: &Node) -> bool
    ensures { result ≡ is_made facts.now (first (docs_in node.now.parts.items)) }
{
    match node.parts.first() {
        Some(part) => facts.is_made(part),
        None => false,
    }
}

/// Puts the private name, which may stand for a made name.
pub fn put_private(facts: &Facts, node: &Node, out: &mut Vec<Item>) -> Result<(), OutOfMemory>
    ensures { OnOk result (entries out.new.items
        ≡ entries out.old.items ++ private_word facts.now (docs_in node.now.parts.items)) }
{
    match stored_first(facts, node) {
        Some(made) => {
            let made = Name::new(facts.memory(), made)?;
            put_spelled(facts.memory(), ItemKind::PrivateMade, Atom::Text(made), out)
        }
        None => put_first(facts.memory(), ItemKind::Private, node, out),
    }
}

/// The made name for which the node's own text stands, as a private name.
fn stored_first<'a>(facts: &Facts, node: &'a Node) -> Option<&'a str>
    ensures { option_map (λ made. made.now) result
        ≡ stored_at facts.now (first (docs_in node.now.parts.items)) }
{
    match node.parts.first() {
        Some(part) => stored_at(facts, part),
        None => None,
    }
}

/// Puts the name, which is declared as that, and exported or not.
pub fn put_bind(
    facts: &Facts,
    binding: Binding,
    exported: bool,
    node: &Node,
    out: &mut Vec<Item>,
) -> Result<(), OutOfMemory>
    ensures { OnOk result (entries out.new.items
        ≡ entries out.old.items
        ++ bind_word facts.now binding exported node.now.id.0 (docs_in node.now.parts.items)) }
{
    let kind = if begins_made(facts, node) {
        ItemKind::BindMade
    } else {
        ItemKind::Bind
    };
    let details = vec![in facts.memory(); Atom::Binding(binding), Atom::Flag(exported)]?;
    let group = facts.declared_group(node.id);
    put_owned(group, kind, first_atom(node)?, details, out)
}

/// Puts the entry into a function, whose parameter is the name, by a call with that pure flag.
pub fn put_in(
    facts: &Facts,
    pure: bool,
    node: &Node,
    out: &mut Vec<Item>,
) -> Result<(), OutOfMemory>
    ensures { OnOk result (entries out.new.items
        ≡ entries out.old.items ++ in_word facts.now pure node.now.id.0 (docs_in node.now.parts.items)) }
{
    let kind = if begins_made(facts, node) {
        ItemKind::InMade
    } else {
        ItemKind::In
    };
    let details = vec![in facts.memory(); Atom::Flag(pure)]?;
    let group = facts.declared_group(node.id);
    put_owned(group, kind, first_atom(node)?, details, out)
}

/// The tag of the made name to which an assignment assigns.
pub fn target_atom(facts: &Facts, node: &Node) -> Result<Atom, OutOfMemory>
    ensures { IfOk result (λ atom. atom_doc atom ≡ detail (made_tag facts.now
        (within (codes "left") node.now.kind (docs_in node.now.parts.items)))) }
{
    tag_in(facts, within(node, Field::Left))
}

/// The tag of the made name in the use; nothing where there is none.
fn tag_in(facts: &Facts, part: Option<&Part>) -> Result<Atom, OutOfMemory>
    ensures { IfOk result (λ atom. atom_doc atom ≡ detail (made_tag facts.now (doc_or_nil part.entry))) }
{
    match part {
        Some(part) => made_atom(facts, part),
        None => Ok(Atom::Nothing),
    }
}

/// The tag of the made name in the use.
fn made_atom(facts: &Facts, part: &Part) -> Result<Atom, OutOfMemory>
    ensures { IfOk result (λ atom. atom_doc atom ≡ detail (made_tag facts.now (part_doc part.now))) }
{
    match alias_of(facts, part) {
        Some(tag) => Ok(Atom::Text(tag.share()?)),
        None => atom_in(part.field(Field::Name)),
    }
}

/// Puts the made name and the key of the member `m` in `x || (x = m || (m = {}))`.
pub fn put_base(facts: &Facts, node: &Node, out: &mut Vec<Item>) -> Result<(), OutOfMemory>
    ensures { OnOk result (entries out.new.items
        ≡ entries out.old.items
        ++ base_word facts.now (base_in node.now.kind (docs_in node.now.parts.items))) }
{
    match base_in(node) {
        Some(member) => put_member(facts, member, out),
        None => put_member(facts, &Part::Nothing, out),
    }
}

/// Puts the name and the key of the member.
fn put_member(facts: &Facts, member: &Part, out: &mut Vec<Item>) -> Result<(), OutOfMemory>
    ensures { OnOk result (entries out.new.items
        ≡ entries out.old.items ++ base_word facts.now (part_doc member.now)) }
{
    let tag = tag_in(facts, base_object(member))?;
    put_spelled(facts.memory(), ItemKind::Made, tag, out)?;
    put_spelled(
        facts.memory(),
        ItemKind::Str,
        atom_in(base_key(member))?,
        out,
    )
}

/// The text, number or flag itself; nothing where there is none.
fn atom_in(part: Option<&Part>) -> Result<Atom, OutOfMemory>
    ensures { IfOk result (λ atom. atom_doc atom ≡ detail (doc_or_nil part.entry)) }
{
    match part {
        Some(part) => atom_of(part),
        None => Ok(Atom::Nothing),
    }
}

/// Puts that what stands from that place on is dropped, unless a made name holds it.
#[tactic(auto, using(crate::proofs::Drops::held, crate::proofs::Drops::let_go))]
pub fn put_dropped(alloc: Global, from: usize, out: &mut Vec<Item>) -> Result<(), OutOfMemory>
    ensures { OnOk result (entries out.new.items
        ≡ take from (entries out.old.items) ++ dropped (drop from (entries out.old.items))) }
{
    if ends_kept(out.as_slice(), from) {
        return Ok(());
    }
    put_lone(alloc, ItemKind::Eval, out)
}

/// Whether a made name holds what stands from that place on.
#[tactic(auto, using(crate::proofs::Drops::nothing_last, crate::proofs::Drops::kept_last))]
fn ends_kept(items: &[Item], from: usize) -> bool
    ensures { result ≡ ends_kept (drop from (entries items.now)) }
{
    let count = items.len();
    if count <= from {
        return false;
    }
    is_kept(items[count - 1].kind)
}

/// Whether it is the kind of a value that a made name holds.
fn is_kept(kind: ItemKind) -> bool
    ensures { result ≡ is_kept_kind kind }
{
    match kind {
        ItemKind::Keep => true,
        _ => false,
    }
}

/// Puts the start of a field of a class.
pub fn put_field_start(
    alloc: Global,
    is_static: bool,
    is_accessor: bool,
    out: &mut Vec<Item>,
) -> Result<(), OutOfMemory>
    ensures { OnOk result (entries out.new.items
        ≡ entries out.old.items
        ++ detailed ItemKind.Field nil (flag is_static ∷ flag is_accessor ∷ [])) }
{
    let details = vec![in alloc; Atom::Flag(is_static), Atom::Flag(is_accessor)]?;
    put_detailed(ItemKind::Field, Atom::Nothing, details, out)
}

/// Puts a number, or its raw text where it has no value.
pub fn put_number(alloc: Global, node: &Node, out: &mut Vec<Item>) -> Result<(), OutOfMemory>
    ensures { OnOk result (entries out.new.items
        ≡ entries out.old.items ++ number_word node.now.kind (docs_in node.now.parts.items)) }
{
    let field = if node.lacks(Field::Value) {
        Field::Raw
    } else {
        Field::Value
    };
    put_spelled(alloc, ItemKind::Num, field_atom(node, field)?, out)
}

/// Puts the first line for the system, where there is one.
pub fn put_hash(alloc: Global, node: &Node, out: &mut Vec<Item>) -> Result<(), OutOfMemory>
    ensures { OnOk result (entries out.new.items
        ≡ entries out.old.items
        ++ hash_word (named (codes "hashbang") node.now.kind (docs_in node.now.parts.items))) }
{
    if node.lacks(Field::Hashbang) {
        return Ok(());
    }
    put_spelled(
        alloc,
        ItemKind::Hash,
        field_atom(node, Field::Hashbang)?,
        out,
    )
}
