//! What a plan answers of nodes.

use oxt_lines::lines::Lines;
use oxt_lines::stopped::Stopped;
use oxt_names::constant::ConstantValue;
use oxt_names::ids::NodeId;
use oxt_names::name::Name;
use oxt_options::lists::PlanLists;
use oxt_options::plan::Plan;
use std::alloc::Global;

/// A question that a plan answers of each node.
#[derive(Clone, Copy)]
enum Question {
    Keeps,
    IsFirst,
    IsDropped,
    IsNeverWritten,
}

impl Question {
    /// How the call is named.
    fn name(self) -> &'static str {
        match self {
            Question::Keeps => "keeps",
            Question::IsFirst => "is_first",
            Question::IsDropped => "is_dropped",
            Question::IsNeverWritten => "is_never_written",
        }
    }

    /// What the plan answers.
    fn ask(self, plan: &Plan, node: NodeId) -> bool {
        match self {
            Question::Keeps => plan.keeps(node),
            Question::IsFirst => plan.is_first(node),
            Question::IsDropped => plan.is_dropped(node),
            Question::IsNeverWritten => plan.is_never_written(node),
        }
    }
}

/// The answers of an empty plan, of one with four lists, and of one with constants.
pub fn print_plans(alloc: Global, lines: &mut Lines) -> Result<(), Stopped> {
    lines.heading("an empty plan, of the nodes 0 to 8");
    no_lists(alloc, lines);
    lines.heading("the nodes 3, 1, 3 kept, 2 first, 5 dropped, 7 never written");
    four_lists(alloc, lines)?;
    constants(alloc, lines)
}

/// A line for each question, with the nodes of which the answer is yes.
fn print_answers(plan: &Plan, lines: &mut Lines) {
    print_nodes(plan, Question::Keeps, lines);
    print_nodes(plan, Question::IsFirst, lines);
    print_nodes(plan, Question::IsDropped, lines);
    print_nodes(plan, Question::IsNeverWritten, lines);
}

/// The nodes of which the answer is yes.
fn print_nodes(plan: &Plan, question: Question, lines: &mut Lines) {
    lines.begin(question.name());
    for number in 0..9 {
        if question.ask(plan, NodeId(number)) {
            lines.number_value(number);
        }
    }
    lines.end();
}

fn no_lists(alloc: Global, lines: &mut Lines) {
    let plan = Plan::empty(alloc);
    print_answers(&plan, lines);
    drop(plan);
}

fn four_lists(alloc: Global, lines: &mut Lines) -> Result<(), Stopped> {
    let mut lists = PlanLists::empty(alloc);
    let filled = fill(&mut lists);
    let plan = plan_of(alloc, lists, filled)?;
    print_answers(&plan, lines);
    drop(plan);
    Ok(())
}

/// The plan with these lists, if they were filled.
fn plan_of(alloc: Global, lists: PlanLists, filled: Result<(), Stopped>) -> Result<Plan, Stopped> {
    match filled {
        Ok(()) => Ok(Plan::new(alloc, lists)?),
        Err(stopped) => {
            drop(lists);
            Err(stopped)
        }
    }
}

/// A node of its own for each list; two nodes are kept.
fn fill(lists: &mut PlanLists) -> Result<(), Stopped> {
    lists.kept.push(NodeId(3))?;
    lists.kept.push(NodeId(1))?;
    lists.kept.push(NodeId(3))?;
    lists.first.push(NodeId(2))?;
    lists.dropped.push(NodeId(5))?;
    lists.never_written.push(NodeId(7))?;
    Ok(())
}

fn constants(alloc: Global, lines: &mut Lines) -> Result<(), Stopped> {
    let mut lists = PlanLists::empty(alloc);
    let filled = inline(alloc, &mut lists);
    let plan = plan_of(alloc, lists, filled)?;
    print_inlined(&plan, lines);
    drop(plan);
    Ok(())
}

/// A line with the constants of three nodes.
fn print_inlined(plan: &Plan, lines: &mut Lines) {
    lines.begin("1, then -2 for node 4, a text a for node 9: inlined of 4, 9, 1");
    push_constant(plan.inlined(NodeId(4)), lines);
    push_constant(plan.inlined(NodeId(9)), lines);
    push_constant(plan.inlined(NodeId(1)), lines);
    lines.end();
}

/// Three constants, two of them of one node.
fn inline(alloc: Global, lists: &mut PlanLists) -> Result<(), Stopped> {
    let text = ConstantValue::Text(Name::new(alloc, "a")?);
    lists.inlined.push((NodeId(9), text))?;
    lists.inlined.push((NodeId(4), ConstantValue::Number(1)))?;
    lists.inlined.push((NodeId(4), ConstantValue::Number(-2)))?;
    Ok(())
}

/// Adds the constant to the line, or a dash.
pub fn push_constant(constant: Option<&ConstantValue>, lines: &mut Lines) {
    match constant {
        Some(ConstantValue::Number(number)) => lines.integer_value(*number),
        Some(ConstantValue::Text(name)) => lines.value(name.as_str()),
        None => lines.value("-"),
    }
}
