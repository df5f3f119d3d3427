//! What is told of the imports and exports of a source.
ghost use Rattle.std.specs.Prelude.{◌≡◌, OnOk};
ghost use Rattle.oxt_options.specs.Facts.{is_in};
ghost use Rattle.oxt_told.specs.Modules.{list_told, specifier_told, modules_told, specifiers_told, statement_told, statements_told};
ghost use Rattle.oxt_told.specs.Source.{all_told, unkept_told};
ghost use Rattle.oxt_tree.specs.View.{docs_in, node_doc, part_doc};

use oxt_facts::told::{Told, ToldNodes};
use oxt_grammar::field::Field;
use oxt_modules::removed::{is_listing, loses_all, node_is_removed};
use oxt_names::ids::{NodeId, OutOfMemory};
use oxt_options::plan::Plan;
use oxt_tree::tree::{Node, Part};

/// Tells of the imports and exports of the program, whose specifiers are kept as the plan says: which of these statements
/// are removed, which specifiers of the others are not kept, and which imports lose all of them. With `all` these imports
/// stay.
pub fn tell_modules(
    plan: &Plan,
    all: bool,
    program: &Node,
    told: &mut ToldNodes,
) -> Result<(), OutOfMemory>
    ensures { OnOk result (told.new
        ≡ all_told told.old (modules_told (is_in plan.now.kept) all (node_doc program.now))) }
{
    tell_statements(plan, all, program.list(Field::Body), told)
}

/// Tells of the statements.
#[tactic(auto, using(crate::proofs::Loops::statement_steps))]
fn tell_statements(
    plan: &Plan,
    all: bool,
    statements: &[Part],
    told: &mut ToldNodes,
) -> Result<(), OutOfMemory>
    ensures { OnOk result (told.new
        ≡ all_told told.old (statements_told (is_in plan.now.kept) all (docs_in statements.now))) }
{
    for statement in statements {
        tell_statement(plan, all, statement, told)?;
    }
    Ok(())
}

/// Tells of the statement.
fn tell_statement(
    plan: &Plan,
    all: bool,
    statement: &Part,
    told: &mut ToldNodes,
) -> Result<(), OutOfMemory>
    ensures { OnOk result (told.new
        ≡ all_told told.old (statement_told (is_in plan.now.kept) all (part_doc statement.now))) }
{
    match statement {
        Part::Node(node) => tell_node(plan, all, node, told),
        _ => Ok(()),
    }
}

/// Tells of the statement that the node is.
fn tell_node(plan: &Plan, all: bool, node: &Node, told: &mut ToldNodes) -> Result<(), OutOfMemory>
    ensures { OnOk result (told.new
        ≡ all_told told.old (statement_told (is_in plan.now.kept) all (node_doc node.now))) }
{
    if node_is_removed(plan, all, node) {
        told.tell(node.id, Told::Gone)
    } else if is_listing(node.kind) {
        tell_list(plan, node.id, node.list(Field::Specifiers), told)
    } else {
        Ok(())
    }
}

/// Tells of an import or an export with that number and these specifiers, which stays.
fn tell_list(
    plan: &Plan,
    statement: NodeId,
    specifiers: &[Part],
    told: &mut ToldNodes,
) -> Result<(), OutOfMemory>
    ensures { OnOk result (told.new
        ≡ all_told told.old (list_told (is_in plan.now.kept) statement.0 (docs_in specifiers.now))) }
{
    if loses_all(plan, specifiers) {
        told.tell(statement, Told::Listless)?;
    }
    tell_specifiers(plan, specifiers, told)
}

/// Tells of the specifiers.
#[tactic(auto, using(crate::proofs::Loops::specifier_steps))]
fn tell_specifiers(
    plan: &Plan,
    specifiers: &[Part],
    told: &mut ToldNodes,
) -> Result<(), OutOfMemory>
    ensures { OnOk result (told.new
        ≡ all_told told.old (specifiers_told (is_in plan.now.kept) (docs_in specifiers.now))) }
{
    for specifier in specifiers {
        tell_specifier(plan, specifier, told)?;
    }
    Ok(())
}

/// Tells of the specifier, if it is not kept.
fn tell_specifier(plan: &Plan, specifier: &Part, told: &mut ToldNodes) -> Result<(), OutOfMemory>
    ensures { OnOk result (told.new
        ≡ all_told told.old (specifier_told (is_in plan.now.kept) (part_doc specifier.now))) }
{
    match specifier {
        Part::Node(node) => tell_unkept(plan, node.id, told),
        _ => Ok(()),
    }
}

/// Tells that the node of that number, a specifier or an `import =`, does nothing, if it is not kept.
pub fn tell_unkept(plan: &Plan, node: NodeId, told: &mut ToldNodes) -> Result<(), OutOfMemory>
    ensures { OnOk result (told.new ≡ all_told told.old (unkept_told (is_in plan.now.kept) node.0)) }
{
    if plan.keeps(node) {
        return Ok(());
    }
    told.tell(node, Told::Gone)
}
