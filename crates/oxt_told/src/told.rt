//! What is told of a source.
ghost use Rattle.std.specs.Prelude.{◌≡◌, ◌++◌, IfOk, OnOk};
ghost use Rattle.std.specs.BTreeMap.{insert_entry};
ghost use Rattle.std.specs.Ordering.{nat_cmp};
ghost use Rattle.oxt_facts.specs.Told.{block};
ghost use Rattle.oxt_options.specs.Facts.{constant_at, is_in};
ghost use Rattle.oxt_options.specs.Options.{transform_view};
ghost use Rattle.oxt_told.specs.Modules.{modules_told};
ghost use Rattle.oxt_told.specs.Source.{all_told, ambient_told, asked_of, block_told, chosen_in, enum_told, inlined_told, kind_told, may_be_inlined, members_in, own_told, told_in, told_in_each};
ghost use Rattle.oxt_told.specs.Strict.{strict_told};
ghost use Rattle.oxt_told.specs.Symbols.{named_symbol};
ghost use Rattle.oxt_told.specs.Whole.{told_of_source};
ghost use Rattle.oxt_names.specs.Names.{name_bytes};
ghost use Rattle.oxt_tree.specs.View.{docs_in, node_doc, part_doc};

use crate::classes::{is_class, tell_class};
use crate::extensions::{has_source, tell_extension};
use crate::members::{EnumAround, tell_members, tell_members_bares};
use crate::modules::{tell_modules, tell_unkept};
use crate::namespaces::tell_seat;
use crate::seat::Seat;
use crate::strict::tell_strict;
use crate::symbols::{around, named_symbol};
use crate::syntax::is_pure;
use crate::uses::tell_legacy;
use oxt_declares::dropped::is_dropped;
use oxt_facts::told::{Told, ToldBlock, ToldNodes};
use oxt_fields::rules::FieldRules;
use oxt_grammar::field::Field;
use oxt_grammar::kind::Kind;
use oxt_names::ids::{NodeId, OutOfMemory};
use oxt_options::options::TransformOptions;
use oxt_options::plan::Plan;
use oxt_options::rewrite::RewriteExtensionsMode;
use oxt_scoping::scoping::Scoping;
use oxt_tree::tree::{Node, Part};
use std::alloc::Global;

/// What is told under the options of the program, whose table of scopes and symbols is `scoping`: of its imports and exports,
/// of the blocks of its enums, of their members and the bare names that mean these, of the expressions that are inlined, of
/// its `import =`, as the plan says; of the specifiers of its modules, of its classes and their elements, of its decorators, and
/// of the program itself. With `only_remove_type_imports` an import stays that loses its whole list.
///
/// # Errors
///
/// Fails only where memory runs out.
pub fn told_of_source(
    alloc: Global,
    program: &Node,
    scoping: &Scoping,
    plan: &Plan,
    options: &TransformOptions,
) -> Result<ToldNodes, OutOfMemory>
    ensures { IfOk result (λ told. told
        ≡ told_of_source scoping.now (asked_of plan.now) (transform_view options.now) (node_doc program.now)) }
{
    let source = Source {
        alloc,
        scoping,
        plan,
        mode: options.typescript.rewrite_import_extensions,
        rules: FieldRules::new(options, plan),
    };
    let mut told = ToldNodes::new(alloc);
    match tell_all(&source, options, program, &mut told) {
        Ok(()) => Ok(told),
        Err(fault) => Err(fault),
    }
}

/// What is known of a source.
#[derive(Clone, Copy)]
pub struct Source<'a> {
    /// Where memory comes from.
    pub alloc: Global,
    /// Its table of scopes and symbols.
    pub scoping: &'a Scoping,
    /// Its plan.
    pub plan: &'a Plan,
    /// How extensions are rewritten.
    pub mode: Option<RewriteExtensionsMode>,
    /// The rules by which fields are lowered.
    pub rules: FieldRules<'a>,
}

/// Tells all of the program.
#[tactic(auto, using(crate::proofs::Loops::told_three))]
fn tell_all(
    source: &Source,
    options: &TransformOptions,
    program: &Node,
    told: &mut ToldNodes,
) -> Result<(), OutOfMemory>
    ensures { OnOk result (told.new ≡ all_told told.old
        (modules_told (is_in source.now.plan.now.kept) options.now.typescript.only_remove_type_imports (node_doc program.now)
        ++ (told_in source.now.scoping.now (asked_of source.now.plan.now) (chosen_in source.now) Seat.Elsewhere (node_doc program.now)
        ++ strict_told options.now.«module» (node_doc program.now)))) }
{
    let all = options.typescript.only_remove_type_imports;
    tell_modules(source.plan, all, program, told)?;
    tell_in_node(source, Seat::Elsewhere, program, told)?;
    tell_strict(options.module, program, told)
}

/// Tells of what stands in the part, which stands there.
#[cycle(tell)]
fn tell_in_part(
    source: &Source,
    seat: Seat,
    part: &Part,
    told: &mut ToldNodes,
) -> Result<(), OutOfMemory>
    ensures { OnOk result (told.new ≡ all_told told.old
        (told_in source.now.scoping.now (asked_of source.now.plan.now) (chosen_in source.now) seat (part_doc part.now))) }
{
    match part {
        Part::Node(node) => tell_in_node(source, seat, node, told),
        Part::List(parts) => tell_in_each(source, seat, parts, told),
        _ => Ok(()),
    }
}

/// Tells of the node, which stands there, and of what stands in it.
#[cycle(tell)]
#[tactic(auto, using(crate::proofs::Loops::told_both))]
fn tell_in_node(
    source: &Source,
    seat: Seat,
    node: &Node,
    told: &mut ToldNodes,
) -> Result<(), OutOfMemory>
    ensures { OnOk result (told.new ≡ all_told told.old
        (told_in source.now.scoping.now (asked_of source.now.plan.now) (chosen_in source.now) seat (node_doc node.now))) }
{
    tell_own(source, seat, node, told)?;
    tell_in_each(source, seat.inside(node.kind, node.id.0), &node.parts, told)
}

/// Tells of what stands in each of the parts, which stand there.
#[cycle(tell)]
#[tactic(auto, using(crate::proofs::Loops::each_steps))]
fn tell_in_each(
    source: &Source,
    seat: Seat,
    parts: &[Part],
    told: &mut ToldNodes,
) -> Result<(), OutOfMemory>
    ensures { OnOk result (told.new ≡ all_told told.old
        (told_in_each source.now.scoping.now (asked_of source.now.plan.now) (chosen_in source.now) seat (docs_in parts.now))) }
{
    for part in parts {
        tell_in_part(source, seat, part, told)?;
    }
    Ok(())
}

/// Tells of the node, which stands there, and of what decorators make of it.
#[tactic(auto, using(crate::proofs::Loops::told_both))]
fn tell_own(
    source: &Source,
    seat: Seat,
    node: &Node,
    told: &mut ToldNodes,
) -> Result<(), OutOfMemory>
    ensures { OnOk result (told.new ≡ all_told told.old
        (own_told source.now.scoping.now (asked_of source.now.plan.now) (chosen_in source.now) seat node.now.kind node.now.id.0
        (docs_in node.now.parts.items) (node_doc node.now))) }
{
    tell_kind(source, seat, node, told)?;
    tell_legacy(source, node, told)
}

/// Tells of the node, which stands there, if it is an expression that is inlined, a block of an enum, an `import =`, a class, or
/// has the specifier of a module, and of what namespaces become.
fn tell_kind(
    source: &Source,
    seat: Seat,
    node: &Node,
    told: &mut ToldNodes,
) -> Result<(), OutOfMemory>
    ensures { OnOk result (told.new ≡ all_told told.old
        (kind_told source.now.scoping.now (asked_of source.now.plan.now) (chosen_in source.now) seat node.now.kind node.now.id.0
        (docs_in node.now.parts.items) (node_doc node.now))) }
{
    if may_be_inlined(node.kind) {
        tell_inlined(source.plan, node.id, told)
    } else if node.kind.is(Kind::TSEnumDeclaration) {
        tell_enum(source.scoping, source.plan, node, told)
    } else if node.kind.is(Kind::TSImportEqualsDeclaration) {
        tell_unkept(source.plan, node.id, told)
    } else if has_source(node.kind) {
        tell_extension(source.alloc, source.mode, node.field(Field::Source), told)
    } else if is_class(node.kind) {
        tell_class(source, node, told)
    } else {
        tell_seat(source, seat, node, told)
    }
}

/// Whether nodes of the kind may be inlined: members, the chains that hold them, and `a.b` in an `import =`.
fn may_be_inlined(kind: Kind) -> bool
    ensures { result ≡ may_be_inlined kind }
{
    match kind {
        Kind::StaticMemberExpression => true,
        Kind::ComputedMemberExpression => true,
        Kind::ChainExpression => true,
        Kind::TSQualifiedName => true,
        _ => false,
    }
}

/// Tells of the node, if it is an expression that is inlined.
fn tell_inlined(plan: &Plan, node: NodeId, told: &mut ToldNodes) -> Result<(), OutOfMemory>
    ensures { OnOk result (told.new
        ≡ all_told told.old (inlined_told node.0 (constant_at plan.now.inlined node.0))) }
{
    match plan.inlined(node) {
        Some(constant) => told.tell(node, Told::Inlined(constant.share()?)),
        None => Ok(()),
    }
}

/// Tells of the block.
fn tell_enum(
    scoping: &Scoping,
    plan: &Plan,
    node: &Node,
    told: &mut ToldNodes,
) -> Result<(), OutOfMemory>
    ensures { OnOk result (told.new ≡ all_told told.old
        (enum_told scoping.now (asked_of plan.now) node.now.kind node.now.id.0 (docs_in node.now.parts.items))) }
{
    if is_dropped(node) {
        tell_ambient(scoping, node, told)
    } else if plan.is_dropped(node.id) {
        told.tell(node.id, Told::Gone)
    } else {
        tell_block(scoping, plan, node, told)
    }
}

/// Tells of the bare names that mean the members of the block, which emits nothing.
#[tactic(auto, using(crate::proofs::Found::ambient_found, crate::proofs::Found::no_ambient))]
fn tell_ambient(scoping: &Scoping, node: &Node, told: &mut ToldNodes) -> Result<(), OutOfMemory>
    ensures { OnOk result (told.new ≡ all_told told.old (ambient_told scoping.now node.now.id.0
        (members_in node.now.kind (docs_in node.now.parts.items))
        (named_symbol scoping.now node.now.kind (docs_in node.now.parts.items)))) }
{
    match named_symbol(scoping, node) {
        Some(symbol) => {
            let around = around(scoping, symbol, node.id);
            tell_members_bares(scoping, &around, members_of(node), told)
        }
        None => Ok(()),
    }
}

/// Tells of the block, which becomes a function, and of its members.
#[tactic(auto, using(crate::proofs::Found::block_found, crate::proofs::Found::no_block))]
fn tell_block(
    scoping: &Scoping,
    plan: &Plan,
    node: &Node,
    told: &mut ToldNodes,
) -> Result<(), OutOfMemory>
    ensures { OnOk result (told.new ≡ all_told told.old (block_told scoping.now (asked_of plan.now) node.now.id.0
        (members_in node.now.kind (docs_in node.now.parts.items))
        (named_symbol scoping.now node.now.kind (docs_in node.now.parts.items)))) }
{
    match named_symbol(scoping, node) {
        Some(symbol) => {
            let around = around(scoping, symbol, node.id);
            let is_top = scoping.symbol_scope_id(symbol).0 == 0;
            let members = members_of(node);
            tell_function(
                &around,
                plan.is_first(node.id),
                is_top,
                is_pure(members),
                told,
            )?;
            tell_members(scoping, &around, members, told)
        }
        None => Ok(()),
    }
}

/// Tells of the block itself.
fn tell_function(
    around: &EnumAround,
    is_first: bool,
    is_top: bool,
    is_pure: bool,
    told: &mut ToldNodes,
) -> Result<(), OutOfMemory>
    ensures { OnOk result (told.new ≡ insert_entry nat_cmp told.old around.now.block (block (record { name = name_bytes around.now.name.now; group = around.now.group; node = around.now.block; is_first = is_first; is_top = is_top; is_pure = is_pure }))) }
{
    match around.name.share() {
        Ok(name) => told.tell(
            NodeId(around.block),
            Told::Block(ToldBlock {
                name,
                group: around.group,
                node: around.block,
                is_first,
                is_top,
                is_pure,
            }),
        ),
        Err(fault) => Err(fault),
    }
}

/// The members of the block.
fn members_of(node: &Node) -> &[Part]
    ensures { docs_in result.now ≡ members_in node.now.kind (docs_in node.now.parts.items) }
{
    match node.field(Field::Body) {
        Some(Part::Node(body)) => body.list(Field::Members),
        _ => &[],
    }
}
