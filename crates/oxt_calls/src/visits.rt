//! A visitor that only counts.

use oxt_lines::lines::Lines;
use oxt_lines::stopped::Stopped;
use oxt_lines::table::Table;
use oxt_names::ids::{NodeId, OutOfMemory};
use oxt_tree::tree::{Node, Part, Program};
use oxt_visit::visitor::VisitJsMut;
use oxt_visit::walk::visit_js_mut_statements;
use std::alloc::Global;

/// What a visitor met.
#[derive(Drop)]
struct Counts {
    /// How many expressions.
    expressions: u64,
    /// The nodes whose scopes were entered.
    entered: Vec<u64>,
    /// How many scopes were left.
    left: u64,
}

impl VisitJsMut for Counts {
    ghost use Rattle.std.specs.Prelude.{List, [], ◌∷◌, map};
    ghost use Rattle.oxt_tree.specs.Doc.{Doc};
    ghost use Rattle.oxt_visit.specs.Calls.{entered, left, visited};
    ghost use Rattle.oxt_visit.specs.Reading.{same_list, same_node, whole};

    ghost Seen = { Doc };

    ghost read = { whole };

    ghost spare = { λ _ k i. 0 };

    ghost log = { λ counts. map entered counts.entered.items };

    ghost trace = { elim [ visited d e ↦ [] | entered n ↦ entered n ∷ [] | left ↦ [] ] };

    ghost by_fields = { same_node };

    ghost by_elements = { same_list };

    fn visit_expression(&mut self, _node: &mut Node) -> Result<(), OutOfMemory> {
        self.expressions = self.expressions.saturating_add(1);
        Ok(())
    }

    fn enter_scope(&mut self, node: NodeId) -> Result<(), OutOfMemory> {
        self.entered.push(node.0)?;
        Ok(())
    }

    fn leave_scope(&mut self) {
        self.left = self.left.saturating_add(1);
    }
}

/// What it meets in the statements of `f(a, b); { c; }`.
pub fn print_visits(alloc: Global, table: &Table, lines: &mut Lines) -> Result<(), Stopped> {
    let program = table.tree(alloc, "f(a, b); { c; }")?;
    let mut statements = statements_of(program)?;
    let counts = counts_in(alloc, &mut statements)?;
    print_counts(&counts, lines);
    Ok(())
}

/// The statements of the program.
fn statements_of(program: Program) -> Result<Vec<Part>, Stopped> {
    let mut root = program.root;
    match root.parts.pop() {
        Some(Part::List(statements)) => Ok(statements),
        _ => Err(Stopped::NoTree),
    }
}

/// What is met in the statements.
fn counts_in(alloc: Global, statements: &mut Vec<Part>) -> Result<Counts, Stopped> {
    let mut counts = Counts {
        expressions: 0,
        entered: Vec::new(alloc),
        left: 0,
    };
    visit_js_mut_statements(&mut counts, statements)?;
    Ok(counts)
}

/// A line of what was met.
fn print_counts(counts: &Counts, lines: &mut Lines) {
    lines.numbers(
        "expressions in the statements of f(a, b); { c; }, scopes left",
        &[counts.expressions, counts.left],
    );
    lines.numbers("the nodes of the scopes entered", counts.entered.as_slice());
}
