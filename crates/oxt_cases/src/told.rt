//! What is told of the nodes of a program.
use crate::blocks::first_of;
use crate::classes::{put_gains, put_moves};
use crate::decorated::{put_accessor, put_applied, put_called, put_decorated, put_default};
use crate::namespaces::{put_export, put_namespace, put_quasi, put_stored};
use crate::pieces::{Lines, Piece};
use oxt_dropped::dropped::dropped_blocks;
use oxt_facts::told::{MemberValue, Told, ToldBlock, ToldMember, ToldNodes};
use oxt_fields::aliases::alias_uses;
use oxt_fields::rules::FieldRules;
use oxt_fields::written::never_written_nodes;
use oxt_inline::inlined::inlined_expressions;
use oxt_metadata::Metadata;
use oxt_metadata::symbols::NamedSymbols;
use oxt_modules::jsx::jsx_use;
use oxt_modules::kept::kept_nodes;
use oxt_names::constant::ConstantValue;
use oxt_names::ids::{NodeId, OutOfMemory};
use oxt_options::lists::PlanLists;
use oxt_options::options::{DecoratorOptions, TransformOptions, TypeScriptOptions};
use oxt_options::plan::Plan;
use oxt_resolve::resolve::resolve;
use oxt_scoping::scoping::Scoping;
use oxt_told::told::told_of_source;
use oxt_tree::tree::{Node, Program};
use std::alloc::Global;

/// What is told of the nodes of the program under the options.
///
/// # Errors
///
/// Fails only where memory runs out.
pub fn told_nodes(
    alloc: Global,
    program: &Node,
    options: &TransformOptions,
) -> Result<ToldNodes, OutOfMemory> {
    let scoping = resolve(alloc, program, options.decorator.legacy)?;
    let told = told_by(alloc, program, &scoping, options);
    drop(scoping);
    told
}

/// The same, where that is the table of scopes.
fn told_by(
    alloc: Global,
    program: &Node,
    scoping: &Scoping,
    options: &TransformOptions,
) -> Result<ToldNodes, OutOfMemory> {
    let plan = plan_of(alloc, program, scoping, options)?;
    let told = told_of_source(alloc, program, scoping, &plan, options);
    drop(plan);
    told
}

/// The plan for what is kept of the modules of the program, for its blocks of enums and namespaces, for the names
/// that nothing writes to, and for those that are read as aliases of decorated classes.
///
/// # Errors
///
/// Fails only where memory runs out.
pub fn plan_of(
    alloc: Global,
    program: &Node,
    scoping: &Scoping,
    options: &TransformOptions,
) -> Result<Plan, OutOfMemory> {
    let mut plan = listed_plan(
        alloc,
        program,
        scoping,
        &options.typescript,
        options.decorator,
    )?;
    match note_aliases(alloc, program, scoping, options, &mut plan) {
        Ok(()) => Ok(plan),
        Err(fault) => {
            drop(plan);
            Err(fault)
        }
    }
}

/// Notes the names that are read as aliases of decorated classes.
fn note_aliases(
    alloc: Global,
    program: &Node,
    scoping: &Scoping,
    options: &TransformOptions,
    plan: &mut Plan,
) -> Result<(), OutOfMemory> {
    let aliases = aliases_by(alloc, program, scoping, FieldRules::new(options, plan))?;
    plan.set_aliases(alloc, aliases)
}

/// The names that are read as aliases of decorated classes under the rules.
fn aliases_by(
    alloc: Global,
    program: &Node,
    scoping: &Scoping,
    rules: FieldRules,
) -> Result<Vec<(NodeId, NodeId)>, OutOfMemory> {
    alias_uses(alloc, program, scoping, rules)
}

/// The plan without the names that are read as aliases, where decorators are lowered so.
fn listed_plan(
    alloc: Global,
    program: &Node,
    scoping: &Scoping,
    typescript: &TypeScriptOptions,
    decorator: DecoratorOptions,
) -> Result<Plan, OutOfMemory> {
    let metadata = Metadata::of(alloc, program, scoping, decorator)?;
    let legacy = decorator.legacy;
    let lists = lists_with(alloc, program, scoping, &metadata, typescript, legacy);
    drop(metadata);
    Plan::new(alloc, lists?)
}

/// What is listed of the program, for which metadata writes that.
fn lists_with(
    alloc: Global,
    program: &Node,
    scoping: &Scoping,
    metadata: &Metadata,
    typescript: &TypeScriptOptions,
    legacy: bool,
) -> Result<PlanLists, OutOfMemory> {
    let mut lists = PlanLists::empty(alloc);
    note_types(alloc, metadata, &mut lists)?;
    let named = metadata.named();
    note_kept(
        alloc, program, scoping, named, typescript, legacy, &mut lists,
    )?;
    note_names(alloc, program, scoping, &mut lists)?;
    Ok(lists)
}

/// Notes what metadata writes.
fn note_types(
    alloc: Global,
    metadata: &Metadata,
    lists: &mut PlanLists,
) -> Result<(), OutOfMemory> {
    lists.metadata = metadata.types(alloc)?;
    lists.written = metadata.names(alloc)?;
    Ok(())
}

/// Notes what is kept of modules, and what is inlined and dropped with it.
fn note_kept(
    alloc: Global,
    program: &Node,
    scoping: &Scoping,
    named: &NamedSymbols,
    typescript: &TypeScriptOptions,
    legacy: bool,
    lists: &mut PlanLists,
) -> Result<(), OutOfMemory> {
    let jsx = jsx_use(alloc, program, legacy)?;
    let kept = kept_nodes(alloc, program, scoping, named, jsx, typescript)?;
    lists.inlined = inlined_expressions(alloc, program, scoping, &kept, typescript)?;
    lists.dropped = dropped_blocks(alloc, program, scoping, &kept, named, typescript, legacy)?;
    lists.kept = kept.into_nodes();
    Ok(())
}

/// Notes the blocks before which nothing of their name emits code, and the names that nothing writes to.
fn note_names(
    alloc: Global,
    program: &Node,
    scoping: &Scoping,
    lists: &mut PlanLists,
) -> Result<(), OutOfMemory> {
    lists.first = first_of(alloc, program, scoping)?;
    lists.never_written = never_written_nodes(alloc, program, scoping)?;
    Ok(())
}

/// Puts a line for each node of which something is told: its number and `block`, `member`, `bare`, `inlined`, `gone`,
/// `listless`, `strict`, `quasi`, `namespace`, `export`, `stored`, `gains`, `moves`, `key`, `called`, `accessor`, `decorated`,
/// `named`, `default`, `applied`, `alias` or `inner`. Behind it stand the name of
/// the enum, of a block whether it is first, the program's own and pure, of a member its name, its value and whether it
/// has a name by its value; the constant that is inlined; the two texts of a piece of a template; what is told of
/// namespaces, classes and decorators.
///
/// # Errors
///
/// Fails only where memory runs out.
pub fn put_lines(
    alloc: Global,
    program: &Program,
    options: &TransformOptions,
    lines: &mut Lines,
) -> Result<(), OutOfMemory> {
    let told = told_nodes(alloc, &program.root, options)?;
    put_each(program.ids.next, &told, lines);
    drop(told);
    Ok(())
}

/// Puts the lines of the nodes whose numbers are below that one.
fn put_each(next: u64, told: &ToldNodes, lines: &mut Lines) {
    for number in 1..next {
        put_told(number, told.of(NodeId(number)), lines);
    }
}

/// Puts the line of a node, if something is told of it.
fn put_told(number: u64, told: Option<&Told>, lines: &mut Lines) {
    match told {
        Some(Told::Block(block)) => put_block(number, block, lines),
        Some(Told::Member(member)) => put_member(number, member, lines),
        Some(Told::Bare(owner, _)) => put_word(number, " bare", owner.as_str(), lines),
        Some(Told::Inlined(constant)) => put_inlined(number, constant, lines),
        Some(Told::Gone) => put_short(number, " gone\n", lines),
        Some(Told::Listless) => put_short(number, " listless\n", lines),
        Some(Told::Strict) => put_short(number, " strict\n", lines),
        Some(Told::Quasi(quasi)) => put_quasi(number, quasi, lines),
        Some(Told::Namespace(namespace)) => put_namespace(number, namespace, lines),
        Some(Told::Export(export)) => put_export(number, export, lines),
        Some(Told::Stored(stored)) => put_stored(number, stored, lines),
        Some(Told::Gains(gaining)) => put_gains(number, gaining, lines),
        Some(Told::Moves(moving)) => put_moves(number, moving, lines),
        Some(Told::LeavesKey(is_last)) => put_key(number, *is_last, lines),
        Some(told) => put_legacy(number, told, lines),
        None => {}
    }
}

/// Puts the line of a node of which something is told where decorators are lowered.
fn put_legacy(number: u64, told: &Told, lines: &mut Lines) {
    match told {
        Told::Called(element) => put_called(number, element, lines),
        Told::Accessor(accessor) => put_accessor(number, accessor, lines),
        Told::Decorated(class) => put_decorated(number, class, lines),
        Told::Named(tag) => put_word(number, " named", tag.as_str(), lines),
        Told::DefaultClass(is_decorated, name) => put_default(number, *is_decorated, name, lines),
        Told::Applied(place) => put_applied(number, *place, lines),
        Told::Alias(tag) => put_word(number, " alias", tag.as_str(), lines),
        Told::Inner(group) => put_inner(number, *group, lines),
        _ => {}
    }
}

/// Puts the line of a node of which that alone is told.
fn put_short(number: u64, what: &str, lines: &mut Lines) {
    lines.put(&[Piece::Number(number), Piece::Text(what)]);
}

/// Puts the line of a node of which that is told, and a name.
fn put_word<'a>(number: u64, what: &'a str, word: &'a str, lines: &mut Lines) {
    let line = [
        Piece::Number(number),
        Piece::Text(what),
        Piece::Word(word),
        Piece::Text("\n"),
    ];
    lines.put(&line);
}

/// Puts the line of a name inside a class, which has that group.
fn put_inner(number: u64, group: u64, lines: &mut Lines) {
    let line = [
        Piece::Number(number),
        Piece::Text(" inner"),
        Piece::Maybe(Some(group)),
        Piece::Text("\n"),
    ];
    lines.put(&line);
}

/// Puts the line of a field that leaves its key.
fn put_key(number: u64, is_last: bool, lines: &mut Lines) {
    let line = [
        Piece::Number(number),
        Piece::Text(" key"),
        Piece::If(is_last, " last"),
        Piece::Text("\n"),
    ];
    lines.put(&line);
}

/// Puts the line of an expression that is inlined.
fn put_inlined(number: u64, constant: &ConstantValue, lines: &mut Lines) {
    let line = [
        Piece::Number(number),
        Piece::Text(" inlined "),
        Piece::Constant(Some(constant)),
        Piece::Text("\n"),
    ];
    lines.put(&line);
}

/// Puts the line of a block.
fn put_block(number: u64, block: &ToldBlock, lines: &mut Lines) {
    let line = [
        Piece::Number(number),
        Piece::Text(" block"),
        Piece::Word(block.name.as_str()),
        Piece::If(block.is_first, " first"),
        Piece::If(block.is_top, " top"),
        Piece::If(block.is_pure, " pure"),
        Piece::Text("\n"),
    ];
    lines.put(&line);
}

/// Puts the line of a member.
fn put_member(number: u64, member: &ToldMember, lines: &mut Lines) {
    let front = [
        Piece::Number(number),
        Piece::Text(" member"),
        Piece::Word(member.owner.as_str()),
        Piece::Word(member.name.as_str()),
        Piece::Text(" "),
    ];
    lines.put(&front);
    put_member_value(&member.value, lines);
    lines.put(&[
        Piece::If(member.is_reversed, " reversed"),
        Piece::Text("\n"),
    ]);
}

/// Puts the value of a member.
fn put_member_value(value: &MemberValue, lines: &mut Lines) {
    match value {
        MemberValue::Constant(value) => lines.put(&[Piece::Constant(Some(value))]),
        MemberValue::Following(name) => {
            lines.put(&[Piece::Text("after"), Piece::Word(name.as_str())]);
        }
        MemberValue::Written => lines.put(&[Piece::Text("written")]),
    }
}
