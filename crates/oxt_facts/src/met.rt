//! Groups and tags in the order in which they are met first, each with its number there.
ghost use Rattle.std.specs.Prelude.{◌≡◌, ◌<◌, ◌++◌, ◌∷◌, [], IfOk, OnOk, None, Some, length, map, nat_eq, position, string_bytes, vec_capacity, vec_len};
ghost use Rattle.std.specs.List.{position_or_len};
ghost use Rattle.std.specs.Str.{bytes_eq};
ghost use Rattle.oxt_facts.specs.Groups.{with_met};
ghost use Rattle.oxt_facts.specs.Tags.{noted};

use oxt_names::ids::OutOfMemory;
use std::alloc::Global;
use std::collections::HashMap;
use std::marker::Model;

/// Groups that were met. Contracts see them in the order in which they were met first.
#[derive(Drop)]
pub struct MetGroups {
    groups: Vec<u64>,
    numbers: HashMap<u64, usize>,
}

impl Model for MetGroups {
    ghost use Rattle.std.specs.Prelude.{List, ℕ};
    ghost use Rattle.oxt_facts.specs.Met.{AreNumbered};

    ghost Value = { List ℕ };

    ghost view = { λ met. met.groups.items };

    ghost invariant = { λ met. AreNumbered met.groups.items met.numbers.entries };
}

impl MetGroups {
    /// No groups.
    pub fn new(alloc: Global) -> MetGroups
        ensures { result ≡ [] }
    {
        MetGroups {
            groups: Vec::new(alloc),
            numbers: HashMap::new(alloc),
        }
    }

    /// Adds the group, if it was not met before.
    ///
    /// # Errors
    ///
    /// Fails only where memory runs out.
    #[tactic(auto, using(crate::proofs::Places::group_steps))]
    pub fn meet(&mut self, group: u64) -> Result<(), OutOfMemory>
        ensures { OnOk result (self.new ≡ with_met (Some group) self.old) }
    {
        match self.number_of(group) {
            Some(_) => Ok(()),
            None => self.add(group),
        }
    }

    /// The number of the group: so many others were met before it.
    pub fn number_of(&self, group: u64) -> Option<usize>
        ensures { result ≡ position (nat_eq group) self.now }
    {
        self.numbers.get(&group).copied()
    }

    /// Adds a group that was not met before.
    fn add(&mut self, group: u64) -> Result<(), OutOfMemory>
        requires { position (nat_eq group) self.old ≡ None }
        ensures { OnOk result (self.new ≡ self.old ++ group ∷ []) }
    {
        self.groups.reserve(1)?;
        self.numbers.insert(group, self.groups.len())?;
        push_reserved(&mut self.groups, group);
        Ok(())
    }
}

/// Tags that were met. Contracts see them in the order in which they were met first.
#[derive(Drop)]
pub struct MetTags {
    tags: Vec<String>,
    numbers: HashMap<String, usize>,
}

impl Model for MetTags {
    ghost use Rattle.std.specs.Prelude.{List, map, string_bytes, ℕ};
    ghost use Rattle.oxt_facts.specs.Met.{AreTextsNumbered};

    ghost Value = { List (List ℕ) };

    ghost view = { λ met. map string_bytes met.tags.items };

    ghost invariant = { λ met. AreTextsNumbered (map string_bytes met.tags.items) met.numbers.entries };
}

impl MetTags {
    /// No tags.
    pub fn new(alloc: Global) -> MetTags
        ensures { result ≡ [] }
    {
        MetTags {
            tags: Vec::new(alloc),
            numbers: HashMap::new(alloc),
        }
    }

    /// The number of the tag: so many others were met before it. It is added, if it was not met before.
    ///
    /// # Errors
    ///
    /// Fails only where memory runs out.
    #[tactic(auto, using(crate::proofs::Places::tag_steps))]
    pub fn meet(&mut self, alloc: Global, tag: &str) -> Result<usize, OutOfMemory>
        ensures number { IfOk result (λ n. n ≡ position_or_len (bytes_eq tag.now) self.old) }
        ensures noted { OnOk result (self.new ≡ noted self.old (Some tag.now)) }
    {
        match self.number_of(tag) {
            Some(number) => Ok(number),
            None => self.add(alloc, tag),
        }
    }

    /// The number of the tag, if it was met.
    fn number_of(&self, tag: &str) -> Option<usize>
        ensures { result ≡ position (bytes_eq tag.now) self.now }
    {
        self.numbers.get(tag).copied()
    }

    /// Adds a tag that was not met before, and says its number.
    fn add(&mut self, alloc: Global, tag: &str) -> Result<usize, OutOfMemory>
        requires { position (bytes_eq tag.now) self.old ≡ None }
        ensures number { IfOk result (λ n. n ≡ length self.old) }
        ensures noted { OnOk result (self.new ≡ self.old ++ tag.now ∷ []) }
    {
        let number = self.tags.len();
        let key = String::from_str(alloc, tag)?;
        let kept = String::from_str(alloc, tag)?;
        self.tags.reserve(1)?;
        self.numbers.insert(key, number)?;
        push_reserved(&mut self.tags, kept);
        Ok(number)
    }
}

/// Puts the item at the end of the list, which has room for it.
fn push_reserved<T: Drop>(list: &mut Vec<T>, item: T)
    requires { vec_len list.old < vec_capacity list.old }
    ensures { list.new.items ≡ list.old.items ++ item ∷ [] }
{
    match list.push(item) {
        Ok(()) => {}
        Err(_) => {}
    }
}
