//! What is told of the namespaces of a source, which become functions, and of what they export.
ghost use Rattle.std.specs.Prelude.{◌≡◌, ◌<◌, ◌∷◌, [], ◌++◌, IfOk, OnOk, Some, codes, if◌then◌else◌, length, option_map, slice_get};
ghost use Rattle.std.specs.List.{list_any};
ghost use Rattle.oxt_facts.specs.Told.{names_view, namespace_view};
ghost use Rattle.oxt_options.specs.Facts.{is_in};
ghost use Rattle.oxt_told.specs.Namespaces.{base_at, declared_names, declarator_told, declarators_told, export_told, export_told_at, has_one_name, has_pattern, is_patterned, named_told, names_behind, names_exported, seat_told, node_names, namespace_of, namespace_told, tag_of, variables_told, variables_told_at, with_groups};
ghost use Rattle.oxt_told.specs.Source.{all_told};
ghost use Rattle.oxt_told.specs.Symbols.{group_of, named_symbol};
ghost use Rattle.oxt_tree.specs.Bound.{bound_views};
ghost use Rattle.oxt_tree.specs.Fields.{field_of, named, text_in};
ghost use Rattle.oxt_names.specs.Names.{name_bytes};
ghost use Rattle.oxt_tree.specs.View.{docs_in, doc_or_nil, node_doc, part_doc};
ghost use Rattle.oxt_scoping.specs.Meant.{declared_symbol};

use crate::seat::Seat;
use crate::symbols::{declared_group, group_of, named_symbol};
use crate::told::Source;
use oxt_declares::types_alone::is_node_of_types;
use oxt_facts::told::{Told, ToldExport, ToldName, ToldNamespace, ToldNodes, ToldStored};
use oxt_grammar::field::Field;
use oxt_grammar::kind::Kind;
use oxt_names::ids::{NodeId, OutOfMemory, SymbolId};
use oxt_names::name::Name;
use oxt_scoping::scoping::Scoping;
use oxt_tree::bound::BoundName;
use oxt_tree::tree::{Node, Part};
use std::alloc::Global;

/// Tells of the node, which stands there, if it is a block of a namespace, an export in one, or variables that one exports.
pub fn tell_seat(
    source: &Source,
    seat: Seat,
    node: &Node,
    told: &mut ToldNodes,
) -> Result<(), OutOfMemory>
    ensures { OnOk result (told.new ≡ all_told told.old
        (seat_told source.now.scoping.now (is_in source.now.plan.now.first) seat node.now.kind node.now.id.0
        (docs_in node.now.parts.items))) }
{
    if node.kind.is(Kind::TSNamespaceDeclaration) {
        tell_namespace(source, seat, node, told)
    } else if node.kind.is(Kind::ExportDeclaration) {
        tell_export_at(source, seat, node, told)
    } else if node.kind.is(Kind::VariableDeclaration) {
        tell_variables_at(source.alloc, seat, node.list(Field::Declarations), told)
    } else {
        Ok(())
    }
}

/// Tells of the export, which stands there, if that is in a block.
fn tell_export_at(
    source: &Source,
    seat: Seat,
    node: &Node,
    told: &mut ToldNodes,
) -> Result<(), OutOfMemory>
    ensures { OnOk result (told.new ≡ all_told told.old
        (export_told_at source.now.scoping.now seat node.now.id.0
        (named (codes "declaration") node.now.kind (docs_in node.now.parts.items)))) }
{
    match seat {
        Seat::Block(block) => tell_export(source, block, node, told),
        _ => Ok(()),
    }
}

/// Tells of variables, which stand there, if a block exports them.
fn tell_variables_at(
    alloc: Global,
    seat: Seat,
    declarators: &[Part],
    told: &mut ToldNodes,
) -> Result<(), OutOfMemory>
    ensures { OnOk result (told.new ≡ all_told told.old (variables_told_at seat (docs_in declarators.now))) }
{
    match seat {
        Seat::Under(block) => tell_variables(alloc, block, declarators, told),
        _ => Ok(()),
    }
}

/// The tag of the parameter of the function of the block of that number.
fn tag_of(alloc: Global, block: u64) -> Result<Name, OutOfMemory>
    ensures { IfOk result (λ tag. name_bytes tag ≡ tag_of block) }
{
    Name::from_string(block.to_string(alloc)?)
}

/// The tag of the block that exports what stands there.
fn base_at(alloc: Global, seat: Seat) -> Result<Option<Name>, OutOfMemory>
    ensures { IfOk result (λ tag. option_map name_bytes tag ≡ base_at seat) }
{
    match seat {
        Seat::Under(block) => Ok(Some(tag_of(alloc, block)?)),
        _ => Ok(None),
    }
}

/// Tells of the block of a namespace, unless it is of types alone or only declared.
fn tell_namespace(
    source: &Source,
    seat: Seat,
    node: &Node,
    told: &mut ToldNodes,
) -> Result<(), OutOfMemory>
    ensures { OnOk result (told.new ≡ all_told told.old
        (namespace_told source.now.scoping.now (is_in source.now.plan.now.first) seat node.now.kind node.now.id.0
        (docs_in node.now.parts.items))) }
{
    if is_node_of_types(node) {
        return Ok(());
    }
    tell_emitting(source, seat, node, told)
}

/// Tells of the node, an export in the block of that number.
fn tell_export(
    source: &Source,
    block: u64,
    node: &Node,
    told: &mut ToldNodes,
) -> Result<(), OutOfMemory>
    ensures { OnOk result (told.new ≡ all_told told.old
        (export_told source.now.scoping.now block node.now.id.0
        (named (codes "declaration") node.now.kind (docs_in node.now.parts.items)))) }
{
    let names = names_exported(source.alloc, node.field(Field::Declaration))?;
    let export = ToldExport {
        tag: tag_of(source.alloc, block)?,
        names: with_groups(source.alloc, source.scoping, names.as_slice())?,
    };
    told.tell(node.id, Told::Export(export))
}

/// Tells of the block of a namespace, which becomes a function.
#[tactic(auto, using(crate::proofs::Nested::namespace_found, crate::proofs::Nested::no_namespace))]
fn tell_emitting(
    source: &Source,
    seat: Seat,
    node: &Node,
    told: &mut ToldNodes,
) -> Result<(), OutOfMemory>
    ensures { OnOk result (told.new ≡ all_told told.old
        (named_told (is_in source.now.plan.now.first) seat node.now.id.0
        (named_symbol source.now.scoping.now node.now.kind (docs_in node.now.parts.items)))) }
{
    match named_symbol(source.scoping, node) {
        Some(symbol) => {
            let block = namespace_of(source, seat, node.id, symbol)?;
            told.tell(node.id, Told::Namespace(block))
        }
        None => Ok(()),
    }
}

/// What is told of the block of that number, which stands there and whose name has that symbol.
fn namespace_of(
    source: &Source,
    seat: Seat,
    node: NodeId,
    symbol: SymbolId,
) -> Result<ToldNamespace, OutOfMemory>
    requires { symbol.0 < length source.now.scoping.now.symbols }
    ensures { IfOk result (λ block. option_map (λ y. namespace_of (is_in source.now.plan.now.first) seat node.0 y)
        (slice_get source.now.scoping.now.symbols symbol.0) ≡ Some (namespace_view block)) }
{
    let tags = tags_of(source.alloc, seat, node)?;
    Ok(ToldNamespace {
        name: source.scoping.symbol_name(symbol).share()?,
        group: group_of(source.scoping, symbol),
        tag: tags.own,
        base: tags.base,
        is_first: source.plan.is_first(node),
    })
}

/// The tags of a block and of the one that exports it.
#[derive(Drop)]
struct Tags {
    own: Name,
    base: Option<Name>,
}

/// The tags for the block of that number, which stands there.
fn tags_of(alloc: Global, seat: Seat, node: NodeId) -> Result<Tags, OutOfMemory>
    ensures own { IfOk result (λ tags. name_bytes tags.own ≡ tag_of node.0) }
    ensures base { IfOk result (λ tags. option_map name_bytes tags.base ≡ base_at seat) }
{
    Ok(Tags {
        own: tag_of(alloc, node.0)?,
        base: base_at(alloc, seat)?,
    })
}

/// The names that are put behind what an export in a block holds.
fn names_exported(alloc: Global, declaration: Option<&Part>) -> Result<Vec<BoundName>, OutOfMemory>
    ensures { IfOk result (λ names. bound_views names.items ≡ names_exported (doc_or_nil declaration.entry)) }
{
    match declaration {
        Some(Part::Node(node)) => names_of(alloc, node),
        _ => Ok(Vec::new(alloc)),
    }
}

/// The names that are put behind the node; none where it stands for nothing at run time.
fn names_of(alloc: Global, node: &Node) -> Result<Vec<BoundName>, OutOfMemory>
    ensures { IfOk result (λ names. bound_views names.items ≡ names_exported (node_doc node.now)) }
{
    if node.is_mere_declaration() {
        return Ok(Vec::new(alloc));
    }
    names_behind(alloc, node)
}

/// The names that are put behind the declaration.
fn names_behind(alloc: Global, node: &Node) -> Result<Vec<BoundName>, OutOfMemory>
    ensures { IfOk result (λ names. bound_views names.items
        ≡ names_behind node.now.kind (docs_in node.now.parts.items)) }
{
    if node.kind.is(Kind::VariableDeclaration) {
        return variable_names(alloc, node.list(Field::Declarations));
    }
    if has_one_name(node.kind) {
        return node_names(alloc, node.field(Field::Id));
    }
    Ok(Vec::new(alloc))
}

/// Whether declarations of the kind have one name, which is put behind them.
fn has_one_name(kind: Kind) -> bool
    ensures { result ≡ has_one_name kind }
{
    match kind {
        Kind::FunctionDeclaration => true,
        Kind::ClassDeclaration => true,
        Kind::TSEnumDeclaration => true,
        Kind::TSImportEqualsDeclaration => true,
        _ => false,
    }
}

/// The names that the part binds, if it is a node.
pub fn node_names(alloc: Global, part: Option<&Part>) -> Result<Vec<BoundName>, OutOfMemory>
    ensures { IfOk result (λ names. bound_views names.items ≡ node_names (doc_or_nil part.entry)) }
{
    match part {
        Some(Part::Node(node)) => node.bound_names(alloc),
        _ => Ok(Vec::new(alloc)),
    }
}

/// The names that the declarators bind, if one has a pattern.
fn variable_names(alloc: Global, declarators: &[Part]) -> Result<Vec<BoundName>, OutOfMemory>
    ensures { IfOk result (λ names. bound_views names.items
        ≡ (if has_pattern (docs_in declarators.now) then declared_names (docs_in declarators.now) else [])) }
{
    if has_pattern(declarators) {
        declared_names(alloc, declarators)
    } else {
        Ok(Vec::new(alloc))
    }
}

/// Whether one of the declarators has a pattern.
#[tactic(auto, using(oxt_tree::proofs::Lists::list_any_docs_in))]
fn has_pattern(declarators: &[Part]) -> bool
    ensures { result ≡ has_pattern (docs_in declarators.now) }
{
    is_any_patterned(declarators)
}

/// The same.
fn is_any_patterned(declarators: &[Part]) -> bool
    ensures { result ≡ list_any (λ declarator. is_patterned (part_doc declarator)) declarators.now }
{
    declarators
        .iter()
        .any(|declarator| is_patterned(declarator))
}

/// Whether the declarator has a pattern.
fn is_patterned(declarator: &Part) -> bool
    ensures { result ≡ is_patterned (part_doc declarator.now) }
{
    match declarator.field(Field::Id) {
        Some(id) => !id.is_kind(Kind::BindingIdentifier),
        None => true,
    }
}

/// The names that the declarators bind.
#[tactic(auto, using(crate::proofs::Nested::declared_more, crate::proofs::Nested::declared_done))]
fn declared_names(alloc: Global, declarators: &[Part]) -> Result<Vec<BoundName>, OutOfMemory>
    ensures { IfOk result (λ names. bound_views names.items ≡ declared_names (docs_in declarators.now)) }
{
    let mut names = Vec::new(alloc);
    for declarator in declarators {
        push_names(alloc, declarator, &mut names)?;
    }
    Ok(names)
}

/// Appends the names that the declarator binds.
#[tactic(auto, using(crate::proofs::Nested::names_appended))]
fn push_names(
    alloc: Global,
    declarator: &Part,
    names: &mut Vec<BoundName>,
) -> Result<(), OutOfMemory>
    ensures { OnOk result (bound_views names.new.items
        ≡ bound_views names.old.items ++ node_names (field_of (codes "id") (part_doc declarator.now))) }
{
    let mut more = node_names(alloc, declarator.field(Field::Id))?;
    names.append(&mut more)?;
    Ok(())
}

/// The names, each with its group.
#[tactic(auto, using(crate::proofs::Nested::group_more, crate::proofs::Nested::group_done))]
pub fn with_groups(
    alloc: Global,
    scoping: &Scoping,
    names: &[BoundName],
) -> Result<Vec<ToldName>, OutOfMemory>
    ensures { IfOk result (λ found. names_view found.items ≡ with_groups scoping.now (bound_views names.now)) }
{
    let mut found = Vec::new(alloc);
    for name in names {
        push_with_group(scoping, name, &mut found)?;
    }
    Ok(found)
}

/// Appends the name with its group.
#[tactic(auto, using(crate::proofs::Nested::one_appended))]
fn push_with_group(
    scoping: &Scoping,
    name: &BoundName,
    found: &mut Vec<ToldName>,
) -> Result<(), OutOfMemory>
    ensures { OnOk result (names_view found.new.items ≡ names_view found.old.items
        ++ (name_bytes name.now.name, group_of (declared_symbol scoping.now name.now.node.0)) ∷ []) }
{
    let group = declared_group(scoping, name.node);
    found.push(ToldName {
        name: name.name.share()?,
        group,
    })?;
    Ok(())
}

/// Tells of variables that the block of that number exports, unless one has a pattern.
fn tell_variables(
    alloc: Global,
    block: u64,
    declarators: &[Part],
    told: &mut ToldNodes,
) -> Result<(), OutOfMemory>
    ensures { OnOk result (told.new ≡ all_told told.old (variables_told block (docs_in declarators.now))) }
{
    if has_pattern(declarators) {
        return Ok(());
    }
    tell_declarators(alloc, block, declarators, told)
}

/// Tells of the declarators.
#[tactic(auto, using(crate::proofs::Nested::declarator_steps))]
fn tell_declarators(
    alloc: Global,
    block: u64,
    declarators: &[Part],
    told: &mut ToldNodes,
) -> Result<(), OutOfMemory>
    ensures { OnOk result (told.new ≡ all_told told.old (declarators_told block (docs_in declarators.now))) }
{
    for declarator in declarators {
        tell_declarator(alloc, block, declarator, told)?;
    }
    Ok(())
}

/// Tells of the declarator.
fn tell_declarator(
    alloc: Global,
    block: u64,
    declarator: &Part,
    told: &mut ToldNodes,
) -> Result<(), OutOfMemory>
    ensures { OnOk result (told.new ≡ all_told told.old (declarator_told block (part_doc declarator.now))) }
{
    match declarator {
        Part::Node(node) => tell_variable(alloc, block, node, told),
        _ => Ok(()),
    }
}

/// Tells of the declarator that the node is, if it has a value.
fn tell_variable(
    alloc: Global,
    block: u64,
    node: &Node,
    told: &mut ToldNodes,
) -> Result<(), OutOfMemory>
    ensures { OnOk result (told.new ≡ all_told told.old (declarator_told block (node_doc node.now))) }
{
    match variable_name(node) {
        Some(name) if !node.lacks(Field::Init) => {
            let stored = stored_as(alloc, block, name)?;
            told.tell(node.id, Told::Stored(stored))
        }
        _ => Ok(()),
    }
}

/// The name of the declarator.
fn variable_name(node: &Node) -> Option<&str>
    ensures { option_map (λ name. name.now) result
        ≡ text_in (field_of (codes "name") (named (codes "id") node.now.kind (docs_in node.now.parts.items))) }
{
    node.field(Field::Id)?.field(Field::Name)?.as_text()
}

/// What is told of a variable of that name, which the block of that number exports.
fn stored_as(alloc: Global, block: u64, name: &str) -> Result<ToldStored, OutOfMemory>
    ensures tag { IfOk result (λ stored. name_bytes stored.tag ≡ tag_of block) }
    ensures name { IfOk result (λ stored. name_bytes stored.name ≡ name.now) }
{
    Ok(ToldStored {
        tag: tag_of(alloc, block)?,
        name: Name::new(alloc, name)?,
    })
}
