//! Statements to stand beside others.
ghost use Rattle.std.specs.Prelude.{◌≡◌, ◌↔◌, ◌+◌, ◌≤◌, ℕ, [], ◌∷◌, ◌++◌, IfErr, IfOk, IsSome, IsTrue, None, OnErr, IfNone, OnOk, OnSome, MatchOption, Some, length, map, option_map, vec_capacity, vec_len};
ghost use Rattle.oxt_tree.specs.View.{node_doc, part_doc};
ghost use Rattle.oxt_stores.specs.Insertion.{after_it, before_it, docs, entries, followed, last_before};
ghost use Rattle.oxt_injector.specs.Pending.{moved, pending, waiting, with_list, without_list};
ghost use Rattle.oxt_injector.specs.Placed.{around, found, left, placed, waiting_for, without, without_all};

use oxt_names::ids::{NodeId, OutOfMemory};
use oxt_stores::insertions::{Insertions, push_within};
use oxt_stores::refused::Refused;
use oxt_tree::tree::{Node, Part};
use std::alloc::Global;
use std::collections::BTreeMap;
use std::mem;

/// The statements that are to stand before or after others, which are named by their numbers.
#[derive(Drop)]
pub struct StatementInjectorStore {
    alloc: Global,
    insertions: BTreeMap<u64, Insertions>,
}

impl StatementInjectorStore {
    /// A store without statements.
    pub fn new(alloc: Global) -> StatementInjectorStore
        ensures { (n : ℕ) → pending result n ≡ None }
    {
        StatementInjectorStore {
            alloc,
            insertions: BTreeMap::new(alloc),
        }
    }

    /// Puts the statement before the target, as the last of those there. Refused for want of
    /// memory: the store is then as before.
    pub fn insert_before(&mut self, target: NodeId, statement: Node) -> Result<(), Refused<Node>>
        ensures inserted { OnOk result ((n : ℕ) → pending self.new n
            ≡ with_list (pending self.old) target.0 (last_before (before_it (node_doc statement))
            (waiting (pending self.old) target.0)) n) }
        ensures kept { OnErr result ((n : ℕ) → pending self.new n ≡ pending self.old n) }
        ensures back { IfErr result (λ refused. refused.back ≡ statement) }
    {
        match self.insertions.get_mut(&target.0) {
            Some(insertions) => insertions.add_before(statement),
            None => {
                let mut insertions = Insertions::new(self.alloc);
                insertions.add_before(statement)?;
                match self.start(target, insertions) {
                    Ok(()) => Ok(()),
                    Err(refused) => Err(Refused {
                        back: refused.back.into_only_before(),
                    }),
                }
            }
        }
    }

    /// Puts the statement after the target, behind all that are there. Refused for want of
    /// memory: the store is then as before.
    pub fn insert_after(&mut self, target: NodeId, statement: Node) -> Result<(), Refused<Node>>
        ensures inserted { OnOk result ((n : ℕ) → pending self.new n
            ≡ with_list (pending self.old) target.0 (waiting (pending self.old) target.0
            ++ after_it (node_doc statement) ∷ []) n) }
        ensures kept { OnErr result ((n : ℕ) → pending self.new n ≡ pending self.old n) }
        ensures back { IfErr result (λ refused. refused.back ≡ statement) }
    {
        match self.insertions.get_mut(&target.0) {
            Some(insertions) => insertions.add_after(statement),
            None => {
                let mut insertions = Insertions::new(self.alloc);
                insertions.add_after(statement)?;
                match self.start(target, insertions) {
                    Ok(()) => Ok(()),
                    Err(refused) => Err(Refused {
                        back: refused.back.into_only_after(),
                    }),
                }
            }
        }
    }

    /// Puts the statements before the target, in front of all that are there. Refused for want of
    /// memory: the store is then as before.
    pub fn insert_many_before(
        &mut self,
        target: NodeId,
        statements: Vec<Part>,
    ) -> Result<(), Refused<Vec<Part>>>
        ensures inserted { OnOk result ((n : ℕ) → pending self.new n
            ≡ with_list (pending self.old) target.0 (map before_it (docs statements.items)
            ++ waiting (pending self.old) target.0) n) }
        ensures kept { OnErr result ((n : ℕ) → pending self.new n ≡ pending self.old n) }
        ensures back { IfErr result (λ refused. refused.back.items ≡ statements.items) }
    {
        match self.insertions.get_mut(&target.0) {
            Some(insertions) => insertions.add_many_before(statements),
            None => match self.start(target, Insertions::all_before(self.alloc, statements)) {
                Ok(()) => Ok(()),
                Err(refused) => Err(Refused {
                    back: refused.back.into_before(),
                }),
            },
        }
    }

    /// Puts the statements after the target, behind all that are there. Refused for want of
    /// memory: the store is then as before.
    pub fn insert_many_after(
        &mut self,
        target: NodeId,
        statements: Vec<Part>,
    ) -> Result<(), Refused<Vec<Part>>>
        ensures inserted { OnOk result ((n : ℕ) → pending self.new n
            ≡ with_list (pending self.old) target.0 (waiting (pending self.old) target.0
            ++ map after_it (docs statements.items)) n) }
        ensures kept { OnErr result ((n : ℕ) → pending self.new n ≡ pending self.old n) }
        ensures back { IfErr result (λ refused. refused.back.items ≡ statements.items) }
    {
        match self.insertions.get_mut(&target.0) {
            Some(insertions) => insertions.add_many_after(statements),
            None => match self.start(target, Insertions::all_after(self.alloc, statements)) {
                Ok(()) => Ok(()),
                Err(refused) => Err(Refused {
                    back: refused.back.into_after(),
                }),
            },
        }
    }

    /// Appends the list of one target to that of another. Does nothing where there is none or both
    /// are the same. Refused for want of memory: the store is then as before.
    pub fn move_insertions(
        &mut self,
        old_target: NodeId,
        new_target: NodeId,
    ) -> Result<(), OutOfMemory>
        ensures moved { OnOk result ((n : ℕ) → pending self.new n
            ≡ moved (pending self.old) old_target.0 new_target.0 n) }
        ensures kept { OnErr result ((n : ℕ) → pending self.new n ≡ pending self.old n) }
    {
        if old_target.0 == new_target.0 {
            return Ok(());
        }
        match self.take_list(old_target) {
            Some(list) => self.move_list(old_target, new_target, list),
            None => Ok(()),
        }
    }

    /// Puts into a list of statements what waits for each of them, which then waits no more: in
    /// front of the statement what comes before the first that is to stand after it, and behind it
    /// the rest. The first of several statements with one number has it all. Where nothing waits
    /// for any of them, nothing changes. Refused for want of memory: all is then as before.
    #[tactic(auto, using(crate::proofs::Placing::placed_none))]
    pub fn insert_into_statements(&mut self, statements: &mut Vec<Part>) -> Result<(), OutOfMemory>
        ensures placed { OnOk result (docs statements.new.items
            ≡ placed (docs statements.old.items) (pending self.old)) }
        ensures left { OnOk result ((n : ℕ) → pending self.new n
            ≡ left (pending self.old) (docs statements.old.items) n) }
        ensures statements_kept { OnErr result (statements.new.items ≡ statements.old.items) }
        ensures kept { OnErr result ((n : ℕ) → pending self.new n ≡ pending self.old n) }
    {
        let found = self.count_found(statements.as_slice())?;
        if found == 0 {
            return Ok(());
        }
        let Some(room) = found.checked_add(statements.len()) else {
            return Err(OutOfMemory);
        };
        let empty = Vec::with_capacity(self.alloc, room)?;
        let all = mem::replace(statements, empty);
        self.place_all(all, statements);
        Ok(())
    }

    /// Whether no list is left.
    pub fn is_empty(&self) -> bool
        ensures { IsTrue result ↔ ((n : ℕ) → pending self.now n ≡ None) }
    {
        self.insertions.is_empty()
    }

    /// How many statements wait for these.
    #[tactic(auto, using(crate::proofs::Placing::found_more, crate::proofs::Placing::found_done))]
    fn count_found(&self, statements: &[Part]) -> Result<usize, OutOfMemory>
        ensures { IfOk result (λ n. n ≡ found (pending self.now) (docs statements.now)) }
    {
        let mut found: usize = 0;
        for statement in statements {
            match found.checked_add(self.count_for(statement)) {
                Some(more) => found = more,
                None => return Err(OutOfMemory),
            }
        }
        Ok(found)
    }

    /// How many statements wait for this one.
    fn count_for(&self, statement: &Part) -> usize
        ensures { result ≡ length (waiting_for (pending self.now) (part_doc statement.now)) }
    {
        match statement {
            Part::Node(node) => match self.insertions.get(&node.id.0) {
                Some(list) => list.len(),
                None => 0,
            },
            _ => 0,
        }
    }

    /// Appends the statements and what waits for them to a list that has room for all.
    fn place_all(&mut self, statements: Vec<Part>, out: &mut Vec<Part>)
        requires { vec_len out.old + vec_len statements
            + found (pending self.old) (docs statements.items) ≤ vec_capacity out.old }
        ensures placed { docs out.new.items
            ≡ docs out.old.items ++ placed (docs statements.items) (pending self.old) }
        ensures left { (n : ℕ) → pending self.new n
            ≡ without_all (pending self.old) (docs statements.items) n }
    {
        for statement in statements {
            self.place(statement, out);
        }
    }

    /// Appends the statement and what waits for it to a list that has room for them.
    fn place(&mut self, statement: Part, out: &mut Vec<Part>)
        requires { vec_len out.old + length (waiting_for (pending self.old) (part_doc statement)) + 1
            ≤ vec_capacity out.old }
        ensures placed { docs out.new.items ≡ docs out.old.items
            ++ around (part_doc statement) (waiting_for (pending self.old) (part_doc statement)) }
        ensures left { (n : ℕ) → pending self.new n
            ≡ without (pending self.old) (part_doc statement) n }
        ensures len { vec_len out.new ≡ vec_len out.old
            + length (waiting_for (pending self.old) (part_doc statement)) + 1 }
        ensures capacity { vec_capacity out.old ≤ vec_capacity out.new }
    {
        match self.take_for(&statement) {
            Some(list) => list.place(statement, out),
            None => push_within(out, statement),
        }
    }

    /// Takes what waits for the statement.
    fn take_for(&mut self, statement: &Part) -> Option<Insertions>
        ensures taken { MatchOption result (waiting_for (pending self.old) (part_doc statement.now) ≡ [])
            (λ list. waiting_for (pending self.old) (part_doc statement.now) ≡ entries list) }
        ensures left { (n : ℕ) → pending self.new n
            ≡ without (pending self.old) (part_doc statement.now) n }
    {
        match statement {
            Part::Node(node) => self.insertions.remove(&node.id.0),
            _ => None,
        }
    }

    /// Takes the list of a target. An empty one stays in its place.
    fn take_list(&mut self, target: NodeId) -> Option<Insertions>
        ensures taken { option_map entries result ≡ pending self.old target.0 }
        ensures emptied { OnSome result ((n : ℕ) → pending self.new n
            ≡ with_list (pending self.old) target.0 [] n) }
        ensures kept { IfNone result ((n : ℕ) → pending self.new n ≡ pending self.old n) }
    {
        match self.insertions.get_mut(&target.0) {
            Some(list) => Some(mem::replace(list, Insertions::new(self.alloc))),
            None => None,
        }
    }

    /// Appends the list, which was taken from its place, to that of the new target.
    fn move_list(
        &mut self,
        old_target: NodeId,
        new_target: NodeId,
        list: Insertions,
    ) -> Result<(), OutOfMemory>
        requires taken { pending self.old old_target.0 ≡ Some [] }
        ensures moved { OnOk result ((n : ℕ) → pending self.new n
            ≡ without_list (with_list (pending self.old) new_target.0
            (followed (waiting (pending self.old) new_target.0) (entries list))) old_target.0 n) }
        ensures restored { OnErr result ((n : ℕ) → pending self.new n
            ≡ with_list (pending self.old) old_target.0 (entries list) n) }
    {
        match self.append(new_target, list) {
            Ok(()) => {
                self.insertions.remove(&old_target.0);
                Ok(())
            }
            Err(refused) => {
                self.put(old_target, refused.back);
                Err(OutOfMemory)
            }
        }
    }

    /// Appends a list to that of a target.
    fn append(&mut self, target: NodeId, list: Insertions) -> Result<(), Refused<Insertions>>
        ensures appended { OnOk result ((n : ℕ) → pending self.new n
            ≡ with_list (pending self.old) target.0
            (followed (waiting (pending self.old) target.0) (entries list)) n) }
        ensures kept { OnErr result ((n : ℕ) → pending self.new n ≡ pending self.old n) }
        ensures back { IfErr result (λ refused. entries refused.back ≡ entries list) }
    {
        match self.insertions.get_mut(&target.0) {
            Some(insertions) => insertions.append(list),
            None => self.start(target, list),
        }
    }

    /// Puts a list in the place of another one.
    fn put(&mut self, target: NodeId, list: Insertions)
        requires { IsSome (pending self.old target.0) }
        ensures { (n : ℕ) → pending self.new n
            ≡ with_list (pending self.old) target.0 (entries list) n }
    {
        match self.insertions.insert(target.0, list) {
            Ok(_) => {}
            Err(_) => unreachable!(),
        }
    }

    /// Puts a list at a number that has none.
    fn start(&mut self, target: NodeId, insertions: Insertions) -> Result<(), Refused<Insertions>>
        ensures started { OnOk result ((n : ℕ) → pending self.new n
            ≡ with_list (pending self.old) target.0 (entries insertions) n) }
        ensures kept { OnErr result ((n : ℕ) → pending self.new n ≡ pending self.old n) }
        ensures back { IfErr result (λ refused. refused.back ≡ insertions) }
    {
        match self.insertions.insert(target.0, insertions) {
            Ok(_) => Ok(()),
            Err(failed) => Err(Refused {
                back: failed.value.1,
            }),
        }
    }
}
