//! The effect word of a tree.
ghost use Rattle.std.specs.Prelude.{◌≡◌, [], ◌++◌, IfOk, OnOk, if◌then◌else◌, map};
ghost use Rattle.oxt_grammar.specs.Field.{row_view};
ghost use Rattle.oxt_tree.specs.View.{docs_in, node_doc, part_doc};
ghost use Rattle.oxt_facts.specs.Entry.{entries};
ghost use Rattle.oxt_forms.specs.Details.{is_read};
ghost use Rattle.oxt_forms.specs.Leaves.{dropped};
ghost use Rattle.oxt_items.specs.Node.{opened};
ghost use Rattle.oxt_items.specs.RuleOf.{rule_of};
ghost use Rattle.oxt_items.specs.Ways.{exported_word};
ghost use Rattle.oxt_items.specs.Whole.{arrow_word, assignment_word, body_word, call_word, declarator_word, function_word, get_word, if_word, logical_word, object_word, sequence_word, variables_word, whole_word};
ghost use Rattle.oxt_items.specs.Read.{list_word, node_word, own_word, way_word};
ghost use Rattle.oxt_word.specs.Word.{all_fields, each_field, each_said, fields_said, last_said, said, some_said, turns_said, word};
ghost use Rattle.oxt_grammar.specs.Keys.{key_of};

use crate::accessors::put_accessor;
use crate::calls::{put_applied, put_called, put_decorator, put_injected, put_through};
use crate::class::{
    put_class, put_class_expression, put_constructor, put_instance_fields, put_key_text, put_keyed,
    put_keys, put_methods, put_opened, put_passed, put_statics,
};
use crate::decorated::{put_decorated, put_default_class, put_titled};
use crate::enums::{put_enum, put_member};
use crate::modules::{
    put_export_assignment, put_export_list, put_import, put_import_equals, put_listless,
    put_program, put_qualified, put_required,
};
use crate::moves::{
    put_ending, put_gaining, put_head, put_left, put_moving, put_opening, put_put_key, put_tail,
};
use crate::namespaces::{put_export, put_namespace, put_stored};
use crate::ways::{put_bound, put_entered, put_target};
use oxt_facts::facts::Facts;
use oxt_facts::groups::number_groups;
use oxt_facts::inside::inside;
use oxt_facts::item::{Atom, Binding, Item, ItemKind};
use oxt_facts::tags::number_tags;
use oxt_facts::told::Told;
use oxt_forms::base::is_found_made_on;
use oxt_forms::forms::{
    binding_of, is_called, is_found, is_found_made, is_long, is_put, lists_nothing,
};
use oxt_forms::made::{is_keep, is_silent};
use oxt_forms::put::{
    is_read, put_base, put_dropped, put_first, put_lone, put_name, put_number, put_open,
    put_private, put_spelled, put_start, target_atom,
};
use oxt_grammar::field::Field;
use oxt_grammar::holds::Row;
use oxt_grammar::kind::Kind;
use oxt_items::calls::{put_alias, put_inner};
use oxt_items::enums::{is_exported, put_bare, put_inlined};
use oxt_items::gone::{is_gone, put_gone};
use oxt_items::modules::put_quasi;
use oxt_items::rule::Rule;
use oxt_items::rule_of::rule_of;
use oxt_items::way::Way;
use oxt_names::ids::OutOfMemory;
use oxt_tree::fields::place_of;
use oxt_tree::tree::{Node, Part};

/// The effect word of the tree, of whose names that is known: what its code does, as a flat list.
///
/// # Errors
///
/// Fails only where memory runs out.
pub fn word_of(facts: &Facts, program: &Node) -> Result<Vec<Item>, OutOfMemory>
    ensures { IfOk result (λ items. entries items.items ≡ word facts.now (node_doc program.now)) }
{
    let mut items = Vec::new(facts.memory());
    put_node(facts, program, Way::Whole, &mut items)?;
    number_tags(facts.memory(), &mut items)?;
    number_groups(facts.memory(), &mut items)?;
    Ok(items)
}

/// Puts what the node does, read that way.
#[cycle(word)]
fn put_node(facts: &Facts, node: &Node, way: Way, out: &mut Vec<Item>) -> Result<(), OutOfMemory>
    ensures { OnOk result (entries out.new.items
        ≡ entries out.old.items ++ said facts.now (node_doc node.now) way) }
{
    let _id = node.id;
    let _span = node.span;
    match inside(facts, node)? {
        Some(inner) => put_known(&inner, node, way, out),
        None => put_known(facts, node, way, out),
    }
}

/// Puts what the node does, read that way, where that is known inside it: by what is told of it, or else by its own
/// rule.
#[cycle(word)]
fn put_known(facts: &Facts, node: &Node, way: Way, out: &mut Vec<Item>) -> Result<(), OutOfMemory>
    ensures { OnOk result (entries out.new.items
        ≡ entries out.old.items ++ node_word facts.now way (rule_of node.now.kind) node.now.kind node.now.id.0
        (docs_in node.now.parts.items) (each_field facts.now node.now) (all_fields facts.now node.now)) }
{
    match facts.told_of(node.id) {
        None => put_own(facts, way, node, out),
        Some(Told::Block(block)) => put_enum(facts, block, is_exported(way), node, out),
        Some(Told::Member(member)) => put_member(facts, member, node, out),
        Some(Told::Bare(owner, group)) => put_bare(facts, owner, *group, way, node, out),
        Some(Told::Inlined(constant)) => put_inlined(facts.memory(), constant, way, out),
        Some(Told::Gone) => put_gone(facts.memory(), way, out),
        Some(Told::Listless) => put_listless(facts, node, out),
        Some(Told::Strict) => put_program(facts, true, node, out),
        Some(Told::Quasi(quasi)) => put_quasi(facts.memory(), quasi, out),
        Some(Told::Namespace(block)) => put_namespace(facts, block, is_exported(way), node, out),
        Some(Told::Export(export)) => put_export(facts, export, node, out),
        Some(Told::Stored(stored)) => put_stored(facts, stored, way, node, out),
        Some(Told::Gains(class)) => put_gaining(facts, class, way, node, out),
        Some(Told::Moves(field)) => put_moving(facts, field, way, node, out),
        Some(Told::LeavesKey(is_last)) => put_left(facts, *is_last, way, node, out),
        Some(Told::Called(element)) => put_called(facts, element, way, node, out),
        Some(Told::Accessor(accessor)) => put_accessor(facts, accessor, way, node, out),
        Some(Told::Decorated(class)) => put_decorated(facts, class, way, node, out),
        Some(Told::Named(tag)) => put_titled(facts, tag, way, node, out),
        Some(Told::DefaultClass(is_decorated, name)) => {
            put_default_class(facts, *is_decorated, name, node, out)
        }
        Some(Told::Applied(place)) => put_decorator(facts, *place, way, node, out),
        Some(Told::Alias(tag)) => put_alias(facts.memory(), tag, way, out),
        Some(Told::Inner(group)) => put_inner(facts.memory(), *group, way, node, out),
    }
}

/// Puts what the node does by its own rule, read that way; nothing if it is erased.
#[cycle(word)]
pub(crate) fn put_own(
    facts: &Facts,
    way: Way,
    node: &Node,
    out: &mut Vec<Item>,
) -> Result<(), OutOfMemory>
    ensures { OnOk result (entries out.new.items
        ≡ entries out.old.items ++ own_word facts.now way (rule_of node.now.kind) node.now.kind node.now.id.0
        (docs_in node.now.parts.items) (each_field facts.now node.now) (all_fields facts.now node.now)) }
{
    let rule = rule_of(node.kind);
    if is_gone(rule, node) {
        put_gone(facts.memory(), way, out)
    } else {
        put_way(facts, way, rule, node, out)
    }
}

/// Puts what the node, which is not erased, does by its rule, read that way.
#[cycle(word)]
fn put_way(
    facts: &Facts,
    way: Way,
    rule: Rule,
    node: &Node,
    out: &mut Vec<Item>,
) -> Result<(), OutOfMemory>
    ensures { OnOk result (entries out.new.items
        ≡ entries out.old.items ++ way_word facts.now way rule node.now.kind node.now.id.0
        (docs_in node.now.parts.items) (each_field facts.now node.now) (all_fields facts.now node.now)) }
{
    match way {
        Way::Target => put_target(facts, rule, node, out),
        Way::Bound(binding, exported) => put_bound(facts, binding, exported, rule, node, out),
        Way::Exported => put_exported(facts, rule, node, out),
        Way::Entered(pure) => put_entered(facts, pure, rule, node, out),
        Way::Opened => put_opened(facts, rule, node, out),
        Way::PassOn => put_passed(facts, rule, node, out),
        Way::Keyed => put_keyed(facts, rule, node, out),
        Way::KeyText => put_key_text(facts, rule, node, out),
        Way::Keys => put_keys(facts, rule, node, out),
        Way::Statics => put_statics(facts, rule, node, out),
        Way::Fields => put_instance_fields(facts, rule, node, out),
        Way::Methods => put_methods(facts, rule, node, out),
        Way::Constructor => put_constructor(facts, rule, node, out),
        Way::Head(count) => put_head(facts, count, rule, node, out),
        Way::Tail(count) => put_tail(facts, count, rule, node, out),
        Way::First(count) => put_opening(facts, count, rule, node, out),
        Way::Later(count) => put_ending(facts, count, rule, node, out),
        Way::Puts => Ok(()),
        Way::PutKey => put_put_key(facts, rule, node, out),
        Way::Last => put_through(facts, Way::Last, rule, node, out),
        Way::Calls => put_through(facts, Way::Calls, rule, node, out),
        Way::Applied => put_applied(facts, rule, node, out),
        Way::Injected => put_injected(facts, rule, node, out),
        _ => put_whole(facts, rule, node, out),
    }
}

/// Puts what the part does, read that way.
#[cycle(word)]
fn put_part(facts: &Facts, part: &Part, way: Way, out: &mut Vec<Item>) -> Result<(), OutOfMemory>
    ensures { OnOk result (entries out.new.items
        ≡ entries out.old.items ++ said facts.now (part_doc part.now) way) }
{
    match part {
        Part::Nothing => put_lone(facts.memory(), ItemKind::Nil, out),
        Part::Node(node) => put_node(facts, node, way, out),
        Part::List(parts) => put_list(facts, parts, way, out),
        _ => Ok(()),
    }
}

/// Puts what the elements of a list do, read that way.
#[cycle(word)]
fn put_list(facts: &Facts, parts: &[Part], way: Way, out: &mut Vec<Item>) -> Result<(), OutOfMemory>
    ensures { OnOk result (entries out.new.items
        ≡ entries out.old.items ++ list_word way (each_said facts.now (docs_in parts.now)) (turns_said facts.now
        (docs_in parts.now)) (last_said facts.now (docs_in parts.now)) (some_said facts.now (docs_in parts.now) 0)) }
{
    match way {
        Way::InTurn => put_turns(facts, parts, Way::Whole, out),
        Way::InTurnKeyed => put_turns(facts, parts, Way::Keyed, out),
        Way::LastText => put_last(facts, parts, Way::KeyText, out),
        Way::First(count) => put_some(facts, parts, Way::First(count), out),
        Way::Later(count) => put_some(facts, parts, Way::Later(count), out),
        _ => put_each(facts, parts, way, out),
    }
}

/// Puts what the parts do, one after another, read that way.
#[cycle(word)]
#[tactic(auto, using(crate::proofs::Loops::one_more, crate::proofs::Loops::no_more))]
fn put_each(facts: &Facts, parts: &[Part], way: Way, out: &mut Vec<Item>) -> Result<(), OutOfMemory>
    ensures { OnOk result (entries out.new.items
        ≡ entries out.old.items ++ each_said facts.now (docs_in parts.now) way) }
{
    for part in parts {
        put_part(facts, part, way, out)?;
    }
    Ok(())
}

/// Puts what the parts do, of which all but the last are dropped.
#[cycle(word)]
#[tactic(auto, using(crate::proofs::Loops::one_turn, crate::proofs::Loops::no_turn))]
fn put_turns(
    facts: &Facts,
    parts: &[Part],
    way: Way,
    out: &mut Vec<Item>,
) -> Result<(), OutOfMemory>
    ensures { OnOk result (entries out.new.items
        ≡ entries out.old.items ++ turns_said facts.now (docs_in parts.now) way) }
{
    for (i, part) in parts.iter().enumerate() {
        put_turn(facts, part, i + 1 < parts.len(), way, out)?;
    }
    Ok(())
}

/// Puts what the part does, which is dropped or else read that way.
#[cycle(word)]
#[tactic(auto, using(oxt_forms::proofs::Drops::behind))]
fn put_turn(
    facts: &Facts,
    part: &Part,
    is_dropped: bool,
    way: Way,
    out: &mut Vec<Item>,
) -> Result<(), OutOfMemory>
    ensures { OnOk result (entries out.new.items
        ≡ entries out.old.items ++ (if is_dropped
        then dropped (said facts.now (part_doc part.now) Way.Whole)
        else said facts.now (part_doc part.now) way)) }
{
    if is_dropped {
        let from = out.len();
        put_part(facts, part, Way::Whole, out)?;
        return put_dropped(facts.memory(), from, out);
    }
    put_part(facts, part, way, out)
}

/// Puts what the last of the parts does, read that way.
#[cycle(word)]
#[tactic(auto, using(crate::proofs::Loops::last_of))]
fn put_last(facts: &Facts, parts: &[Part], way: Way, out: &mut Vec<Item>) -> Result<(), OutOfMemory>
    ensures { OnOk result (entries out.new.items
        ≡ entries out.old.items ++ last_said facts.now (docs_in parts.now) way) }
{
    let count = parts.len();
    if count == 0 {
        return Ok(());
    }
    put_part(facts, &parts[count - 1], way, out)
}

/// Puts what those of the parts do that the way takes.
#[cycle(word)]
#[tactic(auto, using(crate::proofs::Loops::one_taken, crate::proofs::Loops::no_taken))]
fn put_some(facts: &Facts, parts: &[Part], way: Way, out: &mut Vec<Item>) -> Result<(), OutOfMemory>
    ensures { OnOk result (entries out.new.items
        ≡ entries out.old.items ++ some_said facts.now (docs_in parts.now) 0 way) }
{
    for (i, part) in parts.iter().enumerate() {
        put_taken(facts, part, way.takes(i), out)?;
    }
    Ok(())
}

/// Puts what the part does, if it is taken.
#[cycle(word)]
fn put_taken(
    facts: &Facts,
    part: &Part,
    is_taken: bool,
    out: &mut Vec<Item>,
) -> Result<(), OutOfMemory>
    ensures { OnOk result (entries out.new.items
        ≡ entries out.old.items ++ (if is_taken then said facts.now (part_doc part.now) Way.Whole else [])) }
{
    if is_taken {
        return put_part(facts, part, Way::Whole, out);
    }
    Ok(())
}

/// Puts what the field of that name does, read that way; an absent part where there is none.
#[cycle(word)]
pub(crate) fn put_field(
    facts: &Facts,
    node: &Node,
    field: Field,
    way: Way,
    out: &mut Vec<Item>,
) -> Result<(), OutOfMemory>
    ensures { OnOk result (entries out.new.items
        ≡ entries out.old.items ++ each_field facts.now node.now (key_of field) way) }
{
    match place_of(node.kind.rows(), field) {
        Some(place) => match node.parts.get(place) {
            Some(part) => put_part(facts, part, way, out),
            None => put_lone(facts.memory(), ItemKind::Nil, out),
        },
        None => put_lone(facts.memory(), ItemKind::Nil, out),
    }
}

/// Puts what all the fields do, in order, read that way.
#[cycle(word)]
#[tactic(auto, using(crate::proofs::Loops::field_more, crate::proofs::Loops::no_more_rows, crate::proofs::Loops::no_more_parts))]
pub(crate) fn put_fields(
    facts: &Facts,
    rows: &[Row],
    parts: &[Part],
    way: Way,
    out: &mut Vec<Item>,
) -> Result<(), OutOfMemory>
    ensures { OnOk result (entries out.new.items
        ≡ entries out.old.items ++ fields_said facts.now (docs_in parts.now) (map row_view rows.now) way) }
{
    for (i, row) in rows.iter().enumerate() {
        match parts.get(i) {
            Some(part) => put_row(facts, row, part, way, out)?,
            None => return Ok(()),
        }
    }
    Ok(())
}

/// Puts what a field does, read that way, if its nodes are read.
#[cycle(word)]
fn put_row(
    facts: &Facts,
    row: &Row,
    part: &Part,
    way: Way,
    out: &mut Vec<Item>,
) -> Result<(), OutOfMemory>
    ensures { OnOk result (entries out.new.items
        ≡ entries out.old.items ++ (if is_read (row_view row.now) then said facts.now (part_doc part.now) way
        else [])) }
{
    if is_read(row) {
        return put_part(facts, part, way, out);
    }
    Ok(())
}

/// Puts a node by the general rule, its fields read that way.
#[cycle(word)]
pub(crate) fn put_plain(
    facts: &Facts,
    node: &Node,
    way: Way,
    out: &mut Vec<Item>,
) -> Result<(), OutOfMemory>
    ensures { OnOk result (entries out.new.items
        ≡ entries out.old.items ++ opened node.now.kind (docs_in node.now.parts.items)
        (all_fields facts.now node.now way)) }
{
    put_open(facts.memory(), node, out)?;
    put_fields(facts, node.kind.rows(), &node.parts, way, out)?;
    put_lone(facts.memory(), ItemKind::Close, out)
}

/// Puts what the node does, by its rule.
#[cycle(word)]
pub(crate) fn put_whole(
    facts: &Facts,
    rule: Rule,
    node: &Node,
    out: &mut Vec<Item>,
) -> Result<(), OutOfMemory>
    ensures { OnOk result (entries out.new.items
        ≡ entries out.old.items ++ whole_word facts.now rule node.now.kind node.now.id.0 (docs_in node.now.parts.items)
        (each_field facts.now node.now) (all_fields facts.now node.now)) }
{
    match rule {
        Rule::Bare => put_fields(facts, node.kind.rows(), &node.parts, Way::Whole, out),
        Rule::Program => put_program(facts, false, node, out),
        Rule::Parameters => put_fields(facts, node.kind.rows(), &node.parts, Way::Whole, out),
        Rule::Transparent => put_field(facts, node, Field::Expression, Way::Whole, out),
        Rule::Erased => Ok(()),
        Rule::Name => put_name(facts, node, out),
        Rule::Spelled(kind) => put_first(facts.memory(), kind, node, out),
        Rule::Literal(kind) => put_first(facts.memory(), kind, node, out),
        Rule::PrivateName => put_private(facts, node, out),
        Rule::This => put_lone(facts.memory(), ItemKind::This, out),
        Rule::Number => put_number(facts.memory(), node, out),
        Rule::StaticMember => put_get(facts, node, Field::Property, Way::KeyText, out),
        Rule::ComputedMember => put_get(facts, node, Field::Expression, Way::Whole, out),
        Rule::Assignment => put_assignment(facts, node, out),
        Rule::Statement => put_statement(facts, node, out),
        Rule::Sequence => put_sequence(facts, node, out),
        Rule::Arrow => put_arrow(facts, node, out),
        Rule::Call => put_call(facts, node, out),
        Rule::Object => put_object(facts, node, out),
        Rule::Logical => put_logical(facts, node, out),
        Rule::Variables => put_variables(facts, false, node, out),
        Rule::FunctionDeclaration => put_function(facts, false, node, out),
        Rule::FunctionExpression => put_plain(facts, node, Way::Bound(Binding::Inner, false), out),
        Rule::Parameter => put_plain(facts, node, Way::Bound(Binding::Parameter, false), out),
        Rule::Binds(binding) => put_plain(facts, node, Way::Bound(binding, false), out),
        Rule::ClassDeclaration => put_class(facts, false, node, out),
        Rule::ClassExpression => put_class_expression(facts, node, out),
        Rule::If => put_if(facts, node, out),
        Rule::Loop => put_plain(facts, node, Way::Branch, out),
        Rule::Import => put_import(facts, node, out),
        Rule::Export => put_field(facts, node, Field::Declaration, Way::Exported, out),
        Rule::ExportList => put_export_list(facts, node, out),
        Rule::ExportAssignment => put_export_assignment(facts, node, out),
        Rule::ImportEquals => put_import_equals(facts, false, node, out),
        Rule::Required => put_required(facts, node, out),
        Rule::Qualified => put_qualified(facts, node, out),
        _ => put_plain(facts, node, Way::Whole, out),
    }
}

/// Puts a statement that drops a value.
#[cycle(word)]
#[tactic(auto, using(oxt_forms::proofs::Drops::behind))]
fn put_statement(facts: &Facts, node: &Node, out: &mut Vec<Item>) -> Result<(), OutOfMemory>
    ensures { OnOk result (entries out.new.items
        ≡ entries out.old.items ++ whole_word facts.now Rule.Statement node.now.kind node.now.id.0
        (docs_in node.now.parts.items) (each_field facts.now node.now) (all_fields facts.now node.now)) }
{
    let from = out.len();
    put_field(facts, node, Field::Expression, Way::Whole, out)?;
    put_dropped(facts.memory(), from, out)
}

/// Puts the read of a member, whose key stands in the field of that name.
#[cycle(word)]
fn put_get(
    facts: &Facts,
    node: &Node,
    key: Field,
    way: Way,
    out: &mut Vec<Item>,
) -> Result<(), OutOfMemory>
    ensures { OnOk result (entries out.new.items
        ≡ entries out.old.items ++ get_word (key_of key) way node.now.kind (docs_in node.now.parts.items)
        (each_field facts.now node.now)) }
{
    put_field(facts, node, Field::Object, Way::Whole, out)?;
    put_field(facts, node, key, way, out)?;
    put_spelled(
        facts.memory(),
        ItemKind::Get,
        Atom::Flag(node.flag(Field::Optional)),
        out,
    )
}

/// Puts an assignment.
#[cycle(word)]
fn put_assignment(facts: &Facts, node: &Node, out: &mut Vec<Item>) -> Result<(), OutOfMemory>
    ensures { OnOk result (entries out.new.items
        ≡ entries out.old.items ++ assignment_word facts.now node.now.kind (docs_in node.now.parts.items)
        (each_field facts.now node.now) (all_fields facts.now node.now)) }
{
    if is_keep(facts, node) {
        put_field(facts, node, Field::Right, Way::Whole, out)?;
        return put_spelled(
            facts.memory(),
            ItemKind::Keep,
            target_atom(facts, node)?,
            out,
        );
    }
    if is_put(node) {
        put_field(facts, node, Field::Left, Way::Target, out)?;
        put_field(facts, node, Field::Right, Way::Whole, out)?;
        return put_lone(facts.memory(), ItemKind::Put, out);
    }
    put_plain(facts, node, Way::Whole, out)
}

/// Puts a sequence.
#[cycle(word)]
fn put_sequence(facts: &Facts, node: &Node, out: &mut Vec<Item>) -> Result<(), OutOfMemory>
    ensures { OnOk result (entries out.new.items
        ≡ entries out.old.items ++ sequence_word node.now.kind (docs_in node.now.parts.items)
        (each_field facts.now node.now) (all_fields facts.now node.now)) }
{
    if is_long(node) {
        return put_field(facts, node, Field::Expressions, Way::InTurn, out);
    }
    put_plain(facts, node, Way::Whole, out)
}

/// Puts an arrow function.
#[cycle(word)]
fn put_arrow(facts: &Facts, node: &Node, out: &mut Vec<Item>) -> Result<(), OutOfMemory>
    ensures { OnOk result (entries out.new.items
        ≡ entries out.old.items ++ arrow_word node.now.kind (docs_in node.now.parts.items)
        (each_field facts.now node.now)) }
{
    put_open(facts.memory(), node, out)?;
    put_field(facts, node, Field::Params, Way::Whole, out)?;
    put_body(facts, node, out)?;
    put_lone(facts.memory(), ItemKind::Close, out)
}

/// Puts the body of an arrow function; an expression is returned.
#[cycle(word)]
fn put_body(facts: &Facts, node: &Node, out: &mut Vec<Item>) -> Result<(), OutOfMemory>
    ensures { OnOk result (entries out.new.items
        ≡ entries out.old.items ++ body_word node.now.kind (docs_in node.now.parts.items)
        (each_field facts.now node.now)) }
{
    if node.holds_kind(Field::Body, Kind::FunctionBody) {
        return put_field(facts, node, Field::Body, Way::Whole, out);
    }
    put_start(Kind::ReturnStatement, Vec::new(facts.memory()), out)?;
    put_field(facts, node, Field::Body, Way::Whole, out)?;
    put_lone(facts.memory(), ItemKind::Close, out)
}

/// Puts a call.
#[cycle(word)]
fn put_call(facts: &Facts, node: &Node, out: &mut Vec<Item>) -> Result<(), OutOfMemory>
    ensures { OnOk result (entries out.new.items
        ≡ entries out.old.items ++ call_word node.now.kind (docs_in node.now.parts.items)
        (each_field facts.now node.now) (all_fields facts.now node.now)) }
{
    if is_called(node) {
        put_field(facts, node, Field::Arguments, Way::Whole, out)?;
        return put_field(
            facts,
            node,
            Field::Callee,
            Way::Entered(node.flag(Field::Pure)),
            out,
        );
    }
    put_plain(facts, node, Way::Whole, out)
}

/// Puts an object.
#[cycle(word)]
fn put_object(facts: &Facts, node: &Node, out: &mut Vec<Item>) -> Result<(), OutOfMemory>
    ensures { OnOk result (entries out.new.items
        ≡ entries out.old.items ++ object_word node.now.kind (docs_in node.now.parts.items)
        (all_fields facts.now node.now)) }
{
    if lists_nothing(node, Field::Properties) {
        return put_lone(facts.memory(), ItemKind::New, out);
    }
    put_plain(facts, node, Way::Whole, out)
}

/// Puts an expression such as `a || b`.
#[cycle(word)]
fn put_logical(facts: &Facts, node: &Node, out: &mut Vec<Item>) -> Result<(), OutOfMemory>
    ensures { OnOk result (entries out.new.items
        ≡ entries out.old.items ++ logical_word facts.now node.now.kind (docs_in node.now.parts.items)
        (each_field facts.now node.now) (all_fields facts.now node.now)) }
{
    if is_found(facts, node) {
        put_field(facts, node, Field::Left, Way::Whole, out)?;
        return put_lone(facts.memory(), ItemKind::Found, out);
    }
    if is_found_made(facts, node) {
        put_field(facts, node, Field::Left, Way::Whole, out)?;
        return put_lone(facts.memory(), ItemKind::FoundMade, out);
    }
    if is_found_made_on(facts, node) {
        put_field(facts, node, Field::Left, Way::Whole, out)?;
        put_base(facts, node, out)?;
        return put_lone(facts.memory(), ItemKind::FoundMadeOn, out);
    }
    put_plain(facts, node, Way::Whole, out)
}

/// Puts a declaration of variables, which is exported or not.
#[cycle(word)]
fn put_variables(
    facts: &Facts,
    exported: bool,
    node: &Node,
    out: &mut Vec<Item>,
) -> Result<(), OutOfMemory>
    ensures { OnOk result (entries out.new.items
        ≡ entries out.old.items ++ variables_word exported node.now.kind (docs_in node.now.parts.items)
        (each_field facts.now node.now) (all_fields facts.now node.now)) }
{
    if lists_nothing(node, Field::Declarations) {
        return put_plain(facts, node, Way::Whole, out);
    }
    let way = Way::Bound(binding_of(node), exported);
    put_field(facts, node, Field::Declarations, way, out)
}

/// Puts a declarator: its value, which is set, and its pattern; nothing if a made name is declared without a
/// value.
#[cycle(word)]
pub(crate) fn put_declarator(
    facts: &Facts,
    binding: Binding,
    exported: bool,
    node: &Node,
    out: &mut Vec<Item>,
) -> Result<(), OutOfMemory>
    ensures { OnOk result (entries out.new.items
        ≡ entries out.old.items ++ declarator_word facts.now binding exported node.now.kind
        (docs_in node.now.parts.items) (each_field facts.now node.now)) }
{
    if is_silent(facts, node) {
        return Ok(());
    }
    if node.lacks(Field::Init) {
        return put_field(facts, node, Field::Id, Way::Bound(binding, exported), out);
    }
    put_field(facts, node, Field::Init, Way::Whole, out)?;
    put_lone(facts.memory(), ItemKind::Set, out)?;
    put_field(facts, node, Field::Id, Way::Bound(binding, exported), out)
}

/// Puts a declaration of a function, and then its name, which is exported or not.
#[cycle(word)]
fn put_function(
    facts: &Facts,
    exported: bool,
    node: &Node,
    out: &mut Vec<Item>,
) -> Result<(), OutOfMemory>
    ensures { OnOk result (entries out.new.items
        ≡ entries out.old.items ++ function_word exported node.now.kind (docs_in node.now.parts.items)
        (each_field facts.now node.now)) }
{
    put_open(facts.memory(), node, out)?;
    put_field(facts, node, Field::Params, Way::Whole, out)?;
    put_field(facts, node, Field::Body, Way::Whole, out)?;
    put_lone(facts.memory(), ItemKind::Close, out)?;
    put_field(
        facts,
        node,
        Field::Id,
        Way::Bound(Binding::Function, exported),
        out,
    )
}

/// Puts a choice between statements.
#[cycle(word)]
fn put_if(facts: &Facts, node: &Node, out: &mut Vec<Item>) -> Result<(), OutOfMemory>
    ensures { OnOk result (entries out.new.items
        ≡ entries out.old.items ++ if_word node.now.kind (docs_in node.now.parts.items)
        (each_field facts.now node.now)) }
{
    put_open(facts.memory(), node, out)?;
    put_field(facts, node, Field::Test, Way::Whole, out)?;
    put_field(facts, node, Field::Consequent, Way::Branch, out)?;
    put_field(facts, node, Field::Alternate, Way::Alternate, out)?;
    put_lone(facts.memory(), ItemKind::Close, out)
}

/// Puts a declaration that is exported.
#[cycle(word)]
fn put_exported(
    facts: &Facts,
    rule: Rule,
    node: &Node,
    out: &mut Vec<Item>,
) -> Result<(), OutOfMemory>
    ensures { OnOk result (entries out.new.items
        ≡ entries out.old.items ++ exported_word facts.now rule node.now.kind node.now.id.0 (docs_in node.now.parts.items)
        (each_field facts.now node.now) (all_fields facts.now node.now)) }
{
    match rule {
        Rule::Variables => put_variables(facts, true, node, out),
        Rule::FunctionDeclaration => put_function(facts, true, node, out),
        Rule::ClassDeclaration => put_class(facts, true, node, out),
        Rule::ImportEquals => put_import_equals(facts, true, node, out),
        _ => put_whole(facts, rule, node, out),
    }
}
