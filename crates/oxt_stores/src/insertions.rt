//! The statements that wait for one statement.
ghost use Rattle.std.specs.Prelude.{◌≡◌, ◌+◌, ◌<◌, ◌≤◌, [], ◌∷◌, ◌++◌, IfErr, IfOk, OnErr, OnOk, if◌then◌else◌, is_ok, vec_capacity, vec_len};
ghost use Rattle.oxt_tree.specs.View.{node_doc, part_doc};
ghost use Rattle.oxt_tree.specs.declared.tree.Node.{Node};
ghost use Rattle.oxt_tree.specs.declared.tree.Part.TheVariants as part;
ghost use Rattle.oxt_stores.specs.Alone.{IsNodeAlone};
ghost use Rattle.oxt_stores.specs.Insertion.{IsJoined};

use crate::refused::Refused;
use oxt_tree::tree::{Node, Part};
use std::alloc::Global;

/// The statements that are to stand around one statement.
#[derive(Drop)]
pub struct Insertions {
    /// Those before it.
    before: Vec<Part>,
    /// Those after it.
    after: Vec<Part>,
}

impl Insertions {
    /// No statements.
    pub fn new(alloc: Global) -> Insertions
        ensures before { result.before.items ≡ [] }
        ensures after { result.after.items ≡ [] }
    {
        Insertions {
            before: Vec::new(alloc),
            after: Vec::new(alloc),
        }
    }

    /// Statements that stand before.
    pub fn all_before(alloc: Global, statements: Vec<Part>) -> Insertions
        ensures before { result.before.items ≡ statements.items }
        ensures after { result.after.items ≡ [] }
    {
        Insertions {
            before: statements,
            after: Vec::new(alloc),
        }
    }

    /// Statements that stand after.
    pub fn all_after(alloc: Global, statements: Vec<Part>) -> Insertions
        ensures before { result.before.items ≡ [] }
        ensures after { result.after.items ≡ statements.items }
    {
        Insertions {
            before: Vec::new(alloc),
            after: statements,
        }
    }

    /// How many statements there are.
    pub fn len(&self) -> usize
        ensures { result ≡ vec_len self.now.before + vec_len self.now.after }
    {
        self.before.len() + self.after.len()
    }

    /// Adds a statement as the last of those before.
    pub fn add_before(&mut self, statement: Node) -> Result<(), Refused<Node>>
        ensures added { OnOk result
            (self.new.before.items ≡ self.old.before.items ++ part.Node statement ∷ []) }
        ensures document { part_doc (part.Node statement) ≡ node_doc statement }
        ensures kept { OnErr result (self.new.before.items ≡ self.old.before.items) }
        ensures after { self.new.after.items ≡ self.old.after.items }
        ensures back { IfErr result (λ refused. refused.back ≡ statement) }
    {
        push_node(&mut self.before, statement)
    }

    /// Adds a statement as the last of those after.
    pub fn add_after(&mut self, statement: Node) -> Result<(), Refused<Node>>
        ensures added { OnOk result
            (self.new.after.items ≡ self.old.after.items ++ part.Node statement ∷ []) }
        ensures document { part_doc (part.Node statement) ≡ node_doc statement }
        ensures kept { OnErr result (self.new.after.items ≡ self.old.after.items) }
        ensures before { self.new.before.items ≡ self.old.before.items }
        ensures back { IfErr result (λ refused. refused.back ≡ statement) }
    {
        push_node(&mut self.after, statement)
    }

    /// Adds statements in front of those before.
    pub fn add_many_before(&mut self, statements: Vec<Part>) -> Result<(), Refused<Vec<Part>>>
        ensures added { OnOk result
            (self.new.before.items ≡ statements.items ++ self.old.before.items) }
        ensures kept { OnErr result (self.new.before.items ≡ self.old.before.items) }
        ensures after { self.new.after.items ≡ self.old.after.items }
        ensures back { IfErr result (λ refused. refused.back.items ≡ statements.items) }
    {
        let mut all = statements;
        match all.append(&mut self.before) {
            Ok(()) => {
                self.before = all;
                Ok(())
            }
            Err(_) => Err(Refused { back: all }),
        }
    }

    /// Adds statements behind those after.
    pub fn add_many_after(&mut self, statements: Vec<Part>) -> Result<(), Refused<Vec<Part>>>
        ensures added { OnOk result
            (self.new.after.items ≡ self.old.after.items ++ statements.items) }
        ensures kept { OnErr result (self.new.after.items ≡ self.old.after.items) }
        ensures before { self.new.before.items ≡ self.old.before.items }
        ensures back { IfErr result (λ refused. refused.back.items ≡ statements.items) }
    {
        let mut more = statements;
        match self.after.append(&mut more) {
            Ok(()) => Ok(()),
            Err(_) => Err(Refused { back: more }),
        }
    }

    /// Adds all of `more` behind what is there: before the statement where nothing stands after
    /// it yet. Refused for want of memory: all is then as before.
    pub fn append(&mut self, more: Insertions) -> Result<(), Refused<Insertions>>
        ensures added { OnOk result (IsJoined self.old more self.new) }
        ensures before { OnErr result (self.new.before.items ≡ self.old.before.items) }
        ensures after { OnErr result (self.new.after.items ≡ self.old.after.items) }
        ensures back_before { IfErr result
            (λ refused. refused.back.before.items ≡ more.before.items) }
        ensures back_after { IfErr result
            (λ refused. refused.back.after.items ≡ more.after.items) }
    {
        if self.after.is_empty() {
            self.append_sides(more)
        } else {
            self.append_after(more)
        }
    }

    /// Adds those before to those before, and those after to those after.
    fn append_sides(&mut self, more: Insertions) -> Result<(), Refused<Insertions>>
        ensures before { self.new.before.items
            ≡ (if is_ok result then self.old.before.items ++ more.before.items
            else self.old.before.items) }
        ensures after { self.new.after.items
            ≡ (if is_ok result then self.old.after.items ++ more.after.items
            else self.old.after.items) }
        ensures back_before { IfErr result
            (λ refused. refused.back.before.items ≡ more.before.items) }
        ensures back_after { IfErr result
            (λ refused. refused.back.after.items ≡ more.after.items) }
    {
        let mut rest = more;
        if self.before.reserve(rest.before.len()).is_err() {
            return Err(Refused { back: rest });
        }
        if self.after.reserve(rest.after.len()).is_err() {
            return Err(Refused { back: rest });
        }
        append_within(&mut self.before, &mut rest.before);
        append_within(&mut self.after, &mut rest.after);
        Ok(())
    }

    /// Adds all to those after.
    fn append_after(&mut self, more: Insertions) -> Result<(), Refused<Insertions>>
        ensures before { self.new.before.items ≡ self.old.before.items }
        ensures after { self.new.after.items
            ≡ (if is_ok result then self.old.after.items ++ (more.before.items ++ more.after.items)
            else self.old.after.items) }
        ensures back_before { IfErr result
            (λ refused. refused.back.before.items ≡ more.before.items) }
        ensures back_after { IfErr result
            (λ refused. refused.back.after.items ≡ more.after.items) }
    {
        let mut rest = more;
        if self.after.reserve(rest.len()).is_err() {
            return Err(Refused { back: rest });
        }
        append_within(&mut self.after, &mut rest.before);
        append_within(&mut self.after, &mut rest.after);
        Ok(())
    }

    /// Puts the statement among these at the end of a list that has room for them.
    pub fn place(self, statement: Part, out: &mut Vec<Part>)
        requires { vec_len out.old + (vec_len self.before + vec_len self.after) + 1
            ≤ vec_capacity out.old }
        ensures placed { out.new.items
            ≡ out.old.items ++ (self.before.items ++ statement ∷ self.after.items) }
        ensures len { vec_len out.new
            ≡ vec_len out.old + (vec_len self.before + vec_len self.after) + 1 }
        ensures capacity { vec_capacity out.old ≤ vec_capacity out.new }
    {
        let mut before = self.before;
        let mut after = self.after;
        append_within(out, &mut before);
        push_within(out, statement);
        append_within(out, &mut after);
    }

    /// Those before, where they are all.
    pub fn into_before(self) -> Vec<Part>
        ensures { result.items ≡ self.before.items }
    {
        self.before
    }

    /// Those after, where they are all.
    pub fn into_after(self) -> Vec<Part>
        ensures { result.items ≡ self.after.items }
    {
        self.after
    }

    /// The one statement, which stands before.
    pub fn into_only_before(self) -> Node
        requires { IsNodeAlone self.before.items }
        ensures { (n : Node) → self.before.items ≡ part.Node n ∷ [] → result ≡ n }
    {
        only_node(self.before)
    }

    /// The one statement, which stands after.
    pub fn into_only_after(self) -> Node
        requires { IsNodeAlone self.after.items }
        ensures { (n : Node) → self.after.items ≡ part.Node n ∷ [] → result ≡ n }
    {
        only_node(self.after)
    }
}

/// The one node of a list.
fn only_node(mut parts: Vec<Part>) -> Node
    requires { IsNodeAlone parts.items }
    ensures { (n : Node) → parts.items ≡ part.Node n ∷ [] → result ≡ n }
{
    match parts.pop() {
        Some(Part::Node(node)) => node,
        _ => unreachable!(),
    }
}

/// Appends a node. Refused for want of memory: the list is then as before.
fn push_node(parts: &mut Vec<Part>, node: Node) -> Result<(), Refused<Node>>
    ensures added { OnOk result (parts.new.items ≡ parts.old.items ++ part.Node node ∷ []) }
    ensures document { part_doc (part.Node node) ≡ node_doc node }
    ensures kept { OnErr result (parts.new.items ≡ parts.old.items) }
    ensures back { IfErr result (λ refused. refused.back ≡ node) }
{
    match parts.reserve(1) {
        Ok(()) => {
            push_within(parts, Part::Node(node));
            Ok(())
        }
        Err(_) => Err(Refused { back: node }),
    }
}

/// Appends a part to a list that has room for it.
pub fn push_within(parts: &mut Vec<Part>, part: Part)
    requires { vec_len parts.old < vec_capacity parts.old }
    ensures added { parts.new.items ≡ parts.old.items ++ part ∷ [] }
    ensures len { vec_len parts.new ≡ vec_len parts.old + 1 }
    ensures capacity { vec_capacity parts.old ≤ vec_capacity parts.new }
{
    match parts.push(part) {
        Ok(()) => {}
        Err(_) => unreachable!(),
    }
}

/// Moves all parts to the end of a list that has room for them.
fn append_within(parts: &mut Vec<Part>, more: &mut Vec<Part>)
    requires { vec_len parts.old + vec_len more.old ≤ vec_capacity parts.old }
    ensures added { parts.new.items ≡ parts.old.items ++ more.old.items }
    ensures len { vec_len parts.new ≡ vec_len parts.old + vec_len more.old }
    ensures capacity { vec_capacity parts.old ≤ vec_capacity parts.new }
{
    match parts.append(more) {
        Ok(()) => {}
        Err(_) => unreachable!(),
    }
}
