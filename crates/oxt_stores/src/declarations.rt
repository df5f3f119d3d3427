//! Declarators to stand at the top of their lists of statements.
ghost use Rattle.std.specs.Prelude.{◌≡◌, ◌+◌, ◌<◌, ◌≤◌, [], ◌∷◌, ◌++◌, IfOk, IsTrue, None, OnErr, OnOk, Some, if◌then◌else◌, length, map, option_map, option_to_list, vec_capacity, vec_len};
ghost use Rattle.oxt_names.specs.Names.{name_bytes};
ghost use Rattle.oxt_tree.specs.View.{node_doc};
ghost use Rattle.oxt_stores.specs.Frame.{below_top, binding, declarator, frame, frames, let_statement, no_declarators, statement_count, statements_made, top_frame, var_statement, with_let, with_var};
ghost use Rattle.oxt_stores.specs.Insertion.{docs};
ghost use Rattle.oxt_grammar.specs.Words.{text_of};
ghost use Rattle.oxt_stores.specs.Ready.{IsBlank, IsReady, blank_statement};

use crate::bound::BoundIdentifier;
use crate::make::{Blank, binding, declarator};
use oxt_grammar::word::Word;
use oxt_names::ids::{NodeIds, OutOfMemory};
use oxt_tree::tree::{Node, Part};
use std::alloc::Global;

/// The declarators of one list of statements.
#[derive(Drop)]
struct Declarators {
    /// Those by `var`.
    vars: Vec<Part>,
    /// Those by `let`.
    lets: Vec<Part>,
}

impl Declarators {
    /// No declarators.
    fn new(alloc: Global) -> Declarators
        ensures { frame result ≡ no_declarators }
    {
        Declarators {
            vars: Vec::new(alloc),
            lets: Vec::new(alloc),
        }
    }

    /// One more by `var`.
    fn add_var(&mut self, declarator: Node) -> Result<(), OutOfMemory>
        ensures vars { OnOk result
            (docs self.new.vars.items ≡ docs self.old.vars.items ++ node_doc declarator ∷ []) }
        ensures lets { docs self.new.lets.items ≡ docs self.old.lets.items }
        ensures kept { OnErr result (docs self.new.vars.items ≡ docs self.old.vars.items) }
    {
        self.vars.push(Part::Node(declarator))?;
        Ok(())
    }

    /// One more by `let`.
    fn add_let(&mut self, declarator: Node) -> Result<(), OutOfMemory>
        ensures lets { OnOk result
            (docs self.new.lets.items ≡ docs self.old.lets.items ++ node_doc declarator ∷ []) }
        ensures vars { docs self.new.vars.items ≡ docs self.old.vars.items }
        ensures kept { OnErr result (docs self.new.lets.items ≡ docs self.old.lets.items) }
    {
        self.lets.push(Part::Node(declarator))?;
        Ok(())
    }
}

/// The declarators of the lists of statements that are being walked, the innermost on top.
#[derive(Drop)]
pub struct VarDeclarationsStore {
    alloc: Global,
    stack: Vec<Declarators>,
}

impl VarDeclarationsStore {
    /// A store that is in no list.
    pub fn new(alloc: Global) -> VarDeclarationsStore
        ensures { frames result ≡ [] }
    {
        VarDeclarationsStore {
            alloc,
            stack: Vec::new(alloc),
        }
    }

    /// How many lists it is in.
    pub fn depth(&self) -> usize
        ensures { result ≡ length (frames self.now) }
    {
        self.stack.len()
    }

    /// Enters a list of statements.
    pub fn record_entering_statements(&mut self) -> Result<(), OutOfMemory>
        ensures entered { OnOk result (frames self.new ≡ frames self.old ++ no_declarators ∷ []) }
        ensures kept { OnErr result (frames self.new ≡ frames self.old) }
    {
        self.stack.push(Declarators::new(self.alloc))?;
        Ok(())
    }

    /// Adds a declarator by `var` to the innermost list.
    pub fn insert_var_declarator(
        &mut self,
        declarator: Node,
        _ids: &mut NodeIds,
    ) -> Result<(), OutOfMemory>
        requires { 0 < length (frames self.old) }
        ensures added { OnOk result
            (frames self.new ≡ with_var (node_doc declarator) (frames self.old)) }
        ensures depth { length (frames self.new) ≡ length (frames self.old) }
        ensures kept { OnErr result (frames self.new ≡ frames self.old) }
        ensures ids { _ids.new ≡ _ids.old }
    {
        let top = self.stack.len() - 1;
        self.stack[top].add_var(declarator)
    }

    /// Adds a declarator by `let` to the innermost list.
    pub fn insert_let_declarator(
        &mut self,
        declarator: Node,
        _ids: &mut NodeIds,
    ) -> Result<(), OutOfMemory>
        requires { 0 < length (frames self.old) }
        ensures added { OnOk result
            (frames self.new ≡ with_let (node_doc declarator) (frames self.old)) }
        ensures depth { length (frames self.new) ≡ length (frames self.old) }
        ensures kept { OnErr result (frames self.new ≡ frames self.old) }
        ensures ids { _ids.new ≡ _ids.old }
    {
        let top = self.stack.len() - 1;
        self.stack[top].add_let(declarator)
    }

    /// Declares a pattern by `var` in the innermost list.
    pub fn insert_var_binding_pattern(
        &mut self,
        pattern: Node,
        init: Option<Node>,
        ids: &mut NodeIds,
    ) -> Result<(), OutOfMemory>
        requires { 0 < length (frames self.old) }
        ensures added { OnOk result (frames self.new ≡ with_var (declarator ids.old.next
            (node_doc pattern) (option_map node_doc init)) (frames self.old)) }
        ensures depth { length (frames self.new) ≡ length (frames self.old) }
        ensures kept { OnErr result (frames self.new ≡ frames self.old) }
        ensures used { OnOk result (ids.new.next ≡ ids.old.next + 1) }
        ensures risen { ids.old.next ≤ ids.new.next }
    {
        let made = declarator(self.alloc, pattern, init, ids)?;
        self.insert_var_declarator(made, ids)
    }

    /// Declares a pattern by `let` in the innermost list.
    pub fn insert_let_binding_pattern(
        &mut self,
        pattern: Node,
        init: Option<Node>,
        ids: &mut NodeIds,
    ) -> Result<(), OutOfMemory>
        requires { 0 < length (frames self.old) }
        ensures added { OnOk result (frames self.new ≡ with_let (declarator ids.old.next
            (node_doc pattern) (option_map node_doc init)) (frames self.old)) }
        ensures depth { length (frames self.new) ≡ length (frames self.old) }
        ensures kept { OnErr result (frames self.new ≡ frames self.old) }
        ensures used { OnOk result (ids.new.next ≡ ids.old.next + 1) }
        ensures risen { ids.old.next ≤ ids.new.next }
    {
        let made = declarator(self.alloc, pattern, init, ids)?;
        self.insert_let_declarator(made, ids)
    }

    /// Declares a name by `var` in the innermost list, without an initializer.
    pub fn insert_var(
        &mut self,
        bound: &BoundIdentifier,
        ids: &mut NodeIds,
    ) -> Result<(), OutOfMemory>
        requires { 0 < length (frames self.old) }
        ensures added { OnOk result (frames self.new ≡ with_var (declarator (ids.old.next + 1)
            (binding ids.old.next (name_bytes bound.now.name)) None) (frames self.old)) }
        ensures depth { length (frames self.new) ≡ length (frames self.old) }
        ensures kept { OnErr result (frames self.new ≡ frames self.old) }
        ensures used { OnOk result (ids.new.next ≡ ids.old.next + 2) }
        ensures risen { ids.old.next ≤ ids.new.next }
    {
        let pattern = binding(self.alloc, &bound.name, ids)?;
        self.insert_var_binding_pattern(pattern, None, ids)
    }

    /// Declares a name by `var` in the innermost list, with an initializer.
    pub fn insert_var_with_init(
        &mut self,
        bound: &BoundIdentifier,
        init: Node,
        ids: &mut NodeIds,
    ) -> Result<(), OutOfMemory>
        requires { 0 < length (frames self.old) }
        ensures added { OnOk result (frames self.new ≡ with_var (declarator (ids.old.next + 1)
            (binding ids.old.next (name_bytes bound.now.name)) (Some (node_doc init)))
            (frames self.old)) }
        ensures depth { length (frames self.new) ≡ length (frames self.old) }
        ensures kept { OnErr result (frames self.new ≡ frames self.old) }
        ensures used { OnOk result (ids.new.next ≡ ids.old.next + 2) }
        ensures risen { ids.old.next ≤ ids.new.next }
    {
        let pattern = binding(self.alloc, &bound.name, ids)?;
        self.insert_var_binding_pattern(pattern, Some(init), ids)
    }

    /// Declares a name by `let` in the innermost list.
    pub fn insert_let(
        &mut self,
        bound: &BoundIdentifier,
        init: Option<Node>,
        ids: &mut NodeIds,
    ) -> Result<(), OutOfMemory>
        requires { 0 < length (frames self.old) }
        ensures added { OnOk result (frames self.new ≡ with_let (declarator (ids.old.next + 1)
            (binding ids.old.next (name_bytes bound.now.name)) (option_map node_doc init))
            (frames self.old)) }
        ensures depth { length (frames self.new) ≡ length (frames self.old) }
        ensures kept { OnErr result (frames self.new ≡ frames self.old) }
        ensures used { OnOk result (ids.new.next ≡ ids.old.next + 2) }
        ensures risen { ids.old.next ≤ ids.new.next }
    {
        let pattern = binding(self.alloc, &bound.name, ids)?;
        self.insert_let_binding_pattern(pattern, init, ids)
    }

    /// Leaves the innermost list: the statements of its declarators by `var` and by `let`, each
    /// where there are any. Refused for want of memory or of numbers: the store is then as before.
    pub fn get_var_statement(
        &mut self,
        ids: &mut NodeIds,
    ) -> Result<(Option<Node>, Option<Node>), OutOfMemory>
        requires { 0 < length (frames self.old) }
        ensures by_var { IfOk result (λ made. option_map node_doc made.0
            ≡ var_statement ids.old.next (top_frame (frames self.old))) }
        ensures by_let { IfOk result (λ made. option_map node_doc made.1
            ≡ let_statement ids.old.next (top_frame (frames self.old))) }
        ensures popped { OnOk result (frames self.new ≡ below_top (frames self.old)) }
        ensures used { OnOk result (ids.new.next
            ≡ ids.old.next + statements_made (top_frame (frames self.old))) }
        ensures risen { ids.old.next ≤ ids.new.next }
        ensures kept { OnErr result (frames self.new ≡ frames self.old) }
    {
        let top = self.stack.len() - 1;
        let for_vars = blank_for(self.alloc, self.stack[top].vars.as_slice(), ids)?;
        let for_lets = blank_for(self.alloc, self.stack[top].lets.as_slice(), ids)?;
        match self.stack.pop() {
            Some(declarators) => Ok((
                statement(for_vars, Word::Var, declarators.vars),
                statement(for_lets, Word::Let, declarators.lets),
            )),
            None => unreachable!(),
        }
    }

    /// Leaves the innermost list, whose statements get those of the declarators at their top, the
    /// one by `var` first. Does nothing for the program's body. Refused for want of memory or of
    /// numbers: the store and the statements are then as before.
    pub fn insert_into_statements(
        &mut self,
        statements: &mut Vec<Part>,
        is_program_body: bool,
        ids: &mut NodeIds,
    ) -> Result<(), OutOfMemory>
        requires { 0 < length (frames self.old) }
        ensures placed { OnOk result (docs statements.new.items
            ≡ (if is_program_body then docs statements.old.items
            else option_to_list (var_statement ids.old.next (top_frame (frames self.old)))
            ++ (option_to_list (let_statement ids.old.next (top_frame (frames self.old)))
            ++ docs statements.old.items))) }
        ensures popped { OnOk result (frames self.new
            ≡ (if is_program_body then frames self.old else below_top (frames self.old))) }
        ensures used { OnOk result (ids.new.next ≡ (if is_program_body then ids.old.next
            else ids.old.next + statements_made (top_frame (frames self.old)))) }
        ensures risen { ids.old.next ≤ ids.new.next }
        ensures kept { OnErr result (frames self.new ≡ frames self.old) }
        ensures statements_kept { OnErr result (statements.new.items ≡ statements.old.items) }
    {
        if is_program_body {
            return Ok(());
        }
        statements.reserve(2)?;
        let (by_var, by_let) = self.get_var_statement(ids)?;
        put_first(statements, by_let);
        put_first(statements, by_var);
        Ok(())
    }
}

/// What the statement of these needs, where there are any.
fn blank_for(
    alloc: Global,
    declarators: &[Part],
    ids: &mut NodeIds,
) -> Result<Option<Blank>, OutOfMemory>
    ensures ready { IfOk result (λ blank. IsReady ids.old.next (docs declarators.now) blank) }
    ensures used { OnOk result
        (ids.new.next ≡ ids.old.next + statement_count (docs declarators.now)) }
    ensures risen { ids.old.next ≤ ids.new.next }
{
    if declarators.is_empty() {
        Ok(None)
    } else {
        Ok(Some(Blank::new(alloc, ids)?))
    }
}

/// The statement of the declarators, where there are any.
fn statement(blank: Option<Blank>, kind: Word, declarators: Vec<Part>) -> Option<Node>
    requires { IsBlank (docs declarators.items) blank }
    ensures { option_map node_doc result
        ≡ blank_statement blank (text_of kind) (docs declarators.items) }
{
    match blank {
        Some(blank) => Some(blank.into_declaration(kind, declarators)),
        None => None,
    }
}

/// Puts the statement, if there is one, in front of a list that has room for it.
fn put_first(statements: &mut Vec<Part>, statement: Option<Node>)
    requires { vec_len statements.old < vec_capacity statements.old }
    ensures placed { docs statements.new.items
        ≡ option_to_list (option_map node_doc statement) ++ docs statements.old.items }
    ensures len { vec_len statements.new ≤ vec_len statements.old + 1 }
    ensures capacity { vec_capacity statements.old ≤ vec_capacity statements.new }
{
    if let Some(node) = statement {
        match statements.insert(0, Part::Node(node)) {
            Ok(()) => {}
            Err(_) => unreachable!(),
        }
    }
}
