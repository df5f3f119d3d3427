//! Comparing words.
ghost use Rattle.std.specs.Prelude.{◌≡◌, ◌↔◌, IfSome, IsTrue, map, option_map, slice_get};
ghost use Rattle.oxt_tree.specs.Fields.{is_nil, is_text};
ghost use Rattle.oxt_facts.specs.Compare.{is_flag, is_number, same_atom, same_atoms, without_group, IsFirstDifference, IsOfOwners};
ghost use Rattle.oxt_facts.specs.Entry.{atom_doc, entries, entry_of};

use crate::item::{Atom, Item, ItemKind};

/// The first place at which two words differ, with what stands there: nothing where a word has ended.
#[derive(Clone, Copy)]
pub struct Difference<'w> {
    pub index: usize,
    pub source: Option<&'w Item>,
    pub output: Option<&'w Item>,
}

impl<'w> Difference<'w> {
    /// Whether the two items differ in the groups of their names alone.
    pub fn is_of_owners(&self) -> bool
        ensures { IsTrue result ↔ IsOfOwners (option_map (λ item. entry_of item.now) self.now.source)
            (option_map (λ item. entry_of item.now) self.now.output) }
    {
        match self.source {
            Some(source) => match self.output {
                Some(output) => same_but_group(source, output),
                None => false,
            },
            None => false,
        }
    }
}

/// The first place at which the word of an output differs from that of its source, one of them having
/// ended included; none where they are one.
pub fn first_difference<'w>(source: &'w [Item], output: &'w [Item]) -> Option<Difference<'w>>
    ensures first { IsFirstDifference (entries source.now) (entries output.now)
        (option_map (λ d. d.index) result) }
    ensures source { IfSome result (λ d. option_map (λ item. entry_of item.now) d.source
        ≡ slice_get (entries source.now) d.index) }
    ensures output { IfSome result (λ d. option_map (λ item. entry_of item.now) d.output
        ≡ slice_get (entries output.now) d.index) }
{
    match first_index(source, output) {
        Some(index) => Some(Difference {
            index,
            source: source.get(index),
            output: output.get(index),
        }),
        None => None,
    }
}

/// The first place at which the words differ, one of them having ended included; none where they
/// are one.
#[tactic(auto, using(crate::proofs::Differences::one_more, crate::proofs::Differences::differs, crate::proofs::Differences::none_left, crate::proofs::Differences::one_left))]
fn first_index(a: &[Item], b: &[Item]) -> Option<usize>
    ensures { IsFirstDifference (entries a.now) (entries b.now) result }
{
    let shared = a.len().min(b.len());
    for i in 0..shared {
        if !same_item(&a[i], &b[i]) {
            return Some(i);
        }
    }
    if a.len() == b.len() {
        None
    } else {
        Some(shared)
    }
}

/// Whether both are one item.
#[tactic(auto, using(crate::proofs::Sameness::item_same, crate::proofs::Sameness::group_of, crate::proofs::Sameness::rest_of))]
fn same_item(a: &Item, b: &Item) -> bool
    ensures { IsTrue result ↔ entry_of a.now ≡ entry_of b.now }
{
    same_group(a.group, b.group) && same_but_group(a, b)
}

/// Whether both are one item but for the groups of their names.
#[tactic(auto, using(crate::proofs::Sameness::rest_same, crate::proofs::Sameness::kind_of, crate::proofs::Sameness::spelling_of, crate::proofs::Sameness::details_of))]
fn same_but_group(a: &Item, b: &Item) -> bool
    ensures { IsTrue result ↔ without_group (entry_of a.now) ≡ without_group (entry_of b.now) }
{
    same_kind(a.kind, b.kind)
        && (same_atom(&a.spelling, &b.spelling) && same_atoms(&a.details, &b.details))
}

/// Whether both are one group, or none.
fn same_group(a: Option<u64>, b: Option<u64>) -> bool
    ensures { IsTrue result ↔ a ≡ b }
{
    a == b
}

/// Whether both are one kind.
fn same_kind(a: ItemKind, b: ItemKind) -> bool
    ensures { IsTrue result ↔ a ≡ b }
{
    a == b
}

/// Whether both lists hold the same.
#[tactic(auto, using(crate::proofs::Sameness::atoms_at, crate::proofs::Sameness::atoms_end, crate::proofs::Sameness::atoms_lengths))]
fn same_atoms(a: &[Atom], b: &[Atom]) -> bool
    ensures { result ≡ same_atoms (map atom_doc a.now) (map atom_doc b.now) }
{
    if a.len() != b.len() {
        return false;
    }
    for (i, atom) in a.iter().enumerate() {
        if !same_atom(atom, &b[i]) {
            return false;
        }
    }
    true
}

/// Whether both are one text, number or flag, or nothing.
fn same_atom(a: &Atom, b: &Atom) -> bool
    ensures { result ≡ same_atom (atom_doc a.now) (atom_doc b.now) }
{
    match a {
        Atom::Nothing => is_nothing(b),
        Atom::Flag(flag) => is_flag(*flag, b),
        Atom::Number(number) => is_number(*number, b),
        Atom::Text(name) => is_text(name.as_str(), b),
        Atom::Word(word) => is_text(word.text(), b),
        Atom::Kind(kind) => is_text(kind.name(), b),
        Atom::Binding(binding) => is_text(binding.text(), b),
    }
}

/// Whether it is nothing.
fn is_nothing(atom: &Atom) -> bool
    ensures { result ≡ is_nil (atom_doc atom.now) }
{
    match atom {
        Atom::Nothing => true,
        _ => false,
    }
}

/// Whether it is that flag.
fn is_flag(flag: bool, atom: &Atom) -> bool
    ensures { result ≡ is_flag flag (atom_doc atom.now) }
{
    match atom {
        Atom::Flag(other) => { if flag { *other } else { !*other } }
        _ => false,
    }
}

/// Whether it is that number.
fn is_number(number: u64, atom: &Atom) -> bool
    ensures { result ≡ is_number number (atom_doc atom.now) }
{
    match atom {
        Atom::Number(other) => *other == number,
        _ => false,
    }
}

/// Whether it is that text.
fn is_text(text: &str, atom: &Atom) -> bool
    ensures { result ≡ is_text text.now (atom_doc atom.now) }
{
    match atom {
        Atom::Text(name) => name.as_str() == text,
        Atom::Word(word) => word.text() == text,
        Atom::Kind(kind) => kind.name() == text,
        Atom::Binding(binding) => binding.text() == text,
        _ => false,
    }
}
