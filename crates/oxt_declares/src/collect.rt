//! What scopes declare.
ghost use Rattle.std.specs.Prelude.{◌≡◌, ◌++◌, IfOk, OnOk, codes, if◌then◌else◌};
ghost use Rattle.oxt_tree.specs.Bound.{bound_names};
ghost use Rattle.oxt_tree.specs.Fields.{elements, field_of, is_text, named};
ghost use Rattle.oxt_tree.specs.Doc.{nil};
ghost use Rattle.oxt_tree.specs.View.{doc_or_nil, docs_in, node_doc, part_doc};
ghost use Rattle.oxt_declares.specs.Bare.{bare_views};
ghost use Rattle.oxt_declares.specs.Declarations.{all_declared, declared_views};
ghost use Rattle.oxt_declares.specs.Declares.{alias_of_import, block_found, below_block, each_found, enum_name, enum_sort, found, import_sort, imported, imported_name, names_in_each, namespace_sort, own_found, own_name, variable_sort, variables, variables_for};
ghost use Rattle.oxt_grammar.specs.Keys.{key_of};

use crate::bare::BareName;
use crate::declaration::{Declaration, Sort};
use crate::names::{push_from_each, push_names_of};
use crate::role::Role;
use crate::role_of::role_of;
use crate::types_alone::is_of_types;
use oxt_grammar::field::Field;
use oxt_names::ids::OutOfMemory;
use oxt_tree::tree::{Node, Part};
use std::alloc::Global;

/// Which declarations are looked for.
#[derive(Clone, Copy)]
pub enum Mode {
    /// All that a function's body declares, hoisted from the blocks in it too.
    All,
    /// Those of a block alone.
    Lets,
    /// Those that are hoisted out of a block.
    Vars,
}

/// Appends the names, declared so.
#[tactic(auto, using(crate::proofs::NameLoops::declare_steps, crate::proofs::Appends::one_more))]
pub fn declare<'a>(
    names: &[BareName<'a>],
    sort: Sort,
    is_ambient: bool,
    body: Option<&'a Part>,
    out: &mut Vec<Declaration<'a>>,
) -> Result<(), OutOfMemory>
    ensures { OnOk result (declared_views out.new.items
        ≡ declared_views out.old.items ++ all_declared sort is_ambient (doc_or_nil body.entry) (bare_views names.now)) }
{
    for bare in names {
        out.push(Declaration {
            name: bare.name,
            sort,
            node: bare.node,
            is_ambient,
            body,
        })?;
    }
    Ok(())
}

/// Appends the names that what may be a pattern binds, declared so.
pub fn declare_pattern<'a>(
    alloc: Global,
    pattern: Option<&'a Part>,
    sort: Sort,
    is_ambient: bool,
    body: Option<&'a Part>,
    out: &mut Vec<Declaration<'a>>,
) -> Result<(), OutOfMemory>
    ensures { OnOk result (declared_views out.new.items
        ≡ declared_views out.old.items ++ all_declared sort is_ambient (doc_or_nil body.entry) (bound_names (doc_or_nil pattern.entry))) }
{
    let mut names = Vec::new(alloc);
    push_names_of(pattern, &mut names)?;
    declare(names.as_slice(), sort, is_ambient, body, out)
}

/// Appends the names that the field of that name binds in each of the nodes, declared so.
pub fn declare_each<'a>(
    alloc: Global,
    field: Field,
    parts: &'a [Part],
    sort: Sort,
    is_ambient: bool,
    out: &mut Vec<Declaration<'a>>,
) -> Result<(), OutOfMemory>
    ensures { OnOk result (declared_views out.new.items
        ≡ declared_views out.old.items ++ all_declared sort is_ambient nil (names_in_each (key_of field) (docs_in parts.now))) }
{
    let mut names = Vec::new(alloc);
    push_from_each(field, parts, &mut names)?;
    declare(names.as_slice(), sort, is_ambient, None, out)
}

/// Appends the name of the node, declared so.
pub fn declare_own<'a>(
    alloc: Global,
    node: &'a Node,
    sort: Sort,
    out: &mut Vec<Declaration<'a>>,
) -> Result<(), OutOfMemory>
    ensures { OnOk result (declared_views out.new.items
        ≡ declared_views out.old.items ++ own_name sort node.now.kind (docs_in node.now.parts.items)) }
{
    declare_pattern(
        alloc,
        node.field(Field::Id),
        sort,
        node.flag(Field::Declare),
        None,
        out,
    )
}

/// Appends what the node adds to the scope around it.
#[cycle(found)]
pub fn push_found<'a>(
    alloc: Global,
    node: &'a Node,
    mode: Mode,
    out: &mut Vec<Declaration<'a>>,
) -> Result<(), OutOfMemory>
    ensures { OnOk result (declared_views out.new.items
        ≡ declared_views out.old.items ++ found (node_doc node.now) mode) }
{
    let role = role_of(node.kind);
    match role {
        Role::Passing => push_each(alloc, &node.parts, mode, out),
        Role::ModuleBlock => push_each(alloc, &node.parts, mode, out),
        Role::Export => push_each(alloc, &node.parts, mode, out),
        Role::Block => push_below(alloc, &node.parts, mode, out),
        Role::For => push_below(alloc, &node.parts, mode, out),
        Role::ForEach => push_below(alloc, &node.parts, mode, out),
        Role::Switch => push_below(alloc, &node.parts, mode, out),
        Role::Catch => push_below(alloc, &node.parts, mode, out),
        _ => push_own(alloc, role, node, mode, out),
    }
}

/// Appends what the parts add to the scope around them.
#[cycle(found)]
#[tactic(auto, using(crate::proofs::FoundLoops::found_steps))]
pub fn push_each<'a>(
    alloc: Global,
    parts: &'a [Part],
    mode: Mode,
    out: &mut Vec<Declaration<'a>>,
) -> Result<(), OutOfMemory>
    ensures { OnOk result (declared_views out.new.items
        ≡ declared_views out.old.items ++ each_found (docs_in parts.now) mode) }
{
    for part in parts {
        push_part(alloc, part, mode, out)?;
    }
    Ok(())
}

/// Appends what the part adds to the scope around it.
#[cycle(found)]
fn push_part<'a>(
    alloc: Global,
    part: &'a Part,
    mode: Mode,
    out: &mut Vec<Declaration<'a>>,
) -> Result<(), OutOfMemory>
    ensures { OnOk result (declared_views out.new.items
        ≡ declared_views out.old.items ++ found (part_doc part.now) mode) }
{
    match part {
        Part::Node(node) => push_found(alloc, node, mode, out),
        Part::List(parts) => push_each(alloc, parts, mode, out),
        _ => Ok(()),
    }
}

/// Appends what is hoisted out of a block with these parts.
#[cycle(found)]
fn push_below<'a>(
    alloc: Global,
    parts: &'a [Part],
    mode: Mode,
    out: &mut Vec<Declaration<'a>>,
) -> Result<(), OutOfMemory>
    ensures { OnOk result (declared_views out.new.items
        ≡ declared_views out.old.items ++ below_block mode (each_found (docs_in parts.now))) }
{
    match mode {
        Mode::Lets => Ok(()),
        Mode::All => push_each(alloc, parts, Mode::Vars, out),
        Mode::Vars => push_each(alloc, parts, Mode::Vars, out),
    }
}

/// Appends what a statement without statements in it adds to the scope around it.
fn push_own<'a>(
    alloc: Global,
    role: Role,
    node: &'a Node,
    mode: Mode,
    out: &mut Vec<Declaration<'a>>,
) -> Result<(), OutOfMemory>
    ensures { OnOk result (declared_views out.new.items
        ≡ declared_views out.old.items ++ own_found role mode node.now.kind (docs_in node.now.parts.items)) }
{
    match role {
        Role::Variables => push_variables_for(alloc, node, mode, out),
        _ => match mode {
            Mode::Vars => Ok(()),
            Mode::All => push_in_block(alloc, role, node, out),
            Mode::Lets => push_in_block(alloc, role, node, out),
        },
    }
}

/// Appends the names that a declaration adds to the block around it.
fn push_in_block<'a>(
    alloc: Global,
    role: Role,
    node: &'a Node,
    out: &mut Vec<Declaration<'a>>,
) -> Result<(), OutOfMemory>
    ensures { OnOk result (declared_views out.new.items
        ≡ declared_views out.old.items ++ block_found role node.now.kind (docs_in node.now.parts.items)) }
{
    match role {
        Role::Function => declare_own(alloc, node, Sort::Function, out),
        Role::Overload => declare_own(alloc, node, Sort::Overload, out),
        Role::Class => declare_own(alloc, node, Sort::Class, out),
        Role::Alias => declare_own(alloc, node, Sort::TypeAlias, out),
        Role::Interface => declare_own(alloc, node, Sort::Interface, out),
        Role::Enum => push_enum(alloc, node, out),
        Role::Namespace => declare_own(alloc, node, namespace_sort(node), out),
        Role::ImportEquals => push_alias(alloc, node, out),
        Role::Import => push_imports(
            alloc,
            node.is_type_only(),
            node.list(Field::Specifiers),
            out,
        ),
        _ => Ok(()),
    }
}

/// What a declaration of variables declares them as.
fn variable_sort(node: &Node) -> Sort
    ensures { result ≡ variable_sort (named (codes "kind") node.now.kind (docs_in node.now.parts.items)) }
{
    if node.holds_text(Field::Kind, "let") {
        Sort::Let
    } else if node.holds_text(Field::Kind, "const") {
        Sort::Const
    } else if node.holds_text(Field::Kind, "using") {
        Sort::Using
    } else if node.holds_text(Field::Kind, "await using") {
        Sort::AwaitUsing
    } else {
        Sort::Var
    }
}

/// Appends the names of a declaration of variables, where they are looked for.
fn push_variables_for<'a>(
    alloc: Global,
    node: &'a Node,
    mode: Mode,
    out: &mut Vec<Declaration<'a>>,
) -> Result<(), OutOfMemory>
    ensures { OnOk result (declared_views out.new.items
        ≡ declared_views out.old.items ++ variables_for mode node.now.kind (docs_in node.now.parts.items)) }
{
    let is_hoisted = node.holds_text(Field::Kind, "var");
    match mode {
        Mode::All => push_variables(alloc, node, out),
        Mode::Lets => {
            if is_hoisted {
                return Ok(());
            }
            push_variables(alloc, node, out)
        }
        Mode::Vars => {
            if is_hoisted {
                return push_variables(alloc, node, out);
            }
            Ok(())
        }
    }
}

/// Appends the names of a declaration of variables.
fn push_variables<'a>(
    alloc: Global,
    node: &'a Node,
    out: &mut Vec<Declaration<'a>>,
) -> Result<(), OutOfMemory>
    ensures { OnOk result (declared_views out.new.items
        ≡ declared_views out.old.items ++ variables node.now.kind (docs_in node.now.parts.items)) }
{
    declare_each(
        alloc,
        Field::Id,
        node.list(Field::Declarations),
        variable_sort(node),
        node.flag(Field::Declare),
        out,
    )
}

/// What a block of an enum declares its name as.
fn enum_sort(node: &Node) -> Sort
    ensures { result ≡ enum_sort node.now.kind (docs_in node.now.parts.items) }
{
    if node.flag(Field::Const) {
        Sort::ConstEnum
    } else {
        Sort::Enum
    }
}

/// Appends the name of a block of an enum, with its body.
fn push_enum<'a>(
    alloc: Global,
    node: &'a Node,
    out: &mut Vec<Declaration<'a>>,
) -> Result<(), OutOfMemory>
    ensures { OnOk result (declared_views out.new.items
        ≡ declared_views out.old.items ++ enum_name node.now.kind (docs_in node.now.parts.items)) }
{
    declare_pattern(
        alloc,
        node.field(Field::Id),
        enum_sort(node),
        node.flag(Field::Declare),
        node.field(Field::Body),
        out,
    )
}

/// What a namespace declares its name as.
fn namespace_sort(node: &Node) -> Sort
    ensures { result ≡ namespace_sort node.now.kind (docs_in node.now.parts.items) }
{
    match node.field(Field::Body) {
        Some(body) => namespace_sort_of(is_of_types(body)),
        None => Sort::ValueModule,
    }
}

fn namespace_sort_of(is_of_types: bool) -> Sort
    ensures { result ≡ (if is_of_types then Sort.NamespaceModule else Sort.ValueModule) }
{
    if is_of_types {
        Sort::NamespaceModule
    } else {
        Sort::ValueModule
    }
}

fn import_sort(is_type: bool) -> Sort
    ensures { result ≡ import_sort is_type }
{
    if is_type {
        Sort::TypeImport
    } else {
        Sort::Import
    }
}

/// Appends the name of `import a = b`.
fn push_alias<'a>(
    alloc: Global,
    node: &'a Node,
    out: &mut Vec<Declaration<'a>>,
) -> Result<(), OutOfMemory>
    ensures { OnOk result (declared_views out.new.items
        ≡ declared_views out.old.items ++ alias_of_import node.now.kind (docs_in node.now.parts.items)) }
{
    declare_own(alloc, node, import_sort(node.is_type_only()), out)
}

/// Appends the names that an import declares, all of them types alone or each by its own word.
#[tactic(auto, using(crate::proofs::FoundLoops::import_steps))]
fn push_imports<'a>(
    alloc: Global,
    is_type: bool,
    parts: &'a [Part],
    out: &mut Vec<Declaration<'a>>,
) -> Result<(), OutOfMemory>
    ensures { OnOk result (declared_views out.new.items
        ≡ declared_views out.old.items ++ imported is_type (docs_in parts.now)) }
{
    for part in parts {
        push_import(alloc, is_type, part, out)?;
    }
    Ok(())
}

/// Appends the name that a specifier of an import declares.
fn push_import<'a>(
    alloc: Global,
    is_type: bool,
    part: &'a Part,
    out: &mut Vec<Declaration<'a>>,
) -> Result<(), OutOfMemory>
    ensures { OnOk result (declared_views out.new.items
        ≡ declared_views out.old.items ++ imported_name is_type (part_doc part.now)) }
{
    let sort = import_sort(is_type || is_field_type(part));
    declare_pattern(alloc, part.field(Field::Local), sort, false, None, out)
}

/// Whether the specifier of an import is of types alone.
fn is_field_type(part: &Part) -> bool
    ensures { result ≡ is_text (codes "type") (field_of (codes "importKind") (part_doc part.now)) }
{
    match part.field(Field::ImportKind) {
        Some(part) => part.is_text("type"),
        None => false,
    }
}
