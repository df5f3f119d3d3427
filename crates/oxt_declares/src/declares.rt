//! The declarations of a scope.
ghost use Rattle.std.specs.Prelude.{◌≡◌, ◌++◌, IfOk, OnOk, codes, option_map};
ghost use Rattle.oxt_tree.specs.Fields.{elements, field_of, first, named, text_in};
ghost use Rattle.oxt_tree.specs.View.{doc_or_nil, docs_in, node_doc, part_doc};
ghost use Rattle.oxt_declares.specs.Declarations.{declared_views};
ghost use Rattle.oxt_declares.specs.Declares.{caught, declares, each_found, function_names, member, member_name, members, members_in, node_declares, inner_name, parameters, type_parameters};

use crate::collect::{Mode, declare_each, declare_pattern, push_each};
use crate::declaration::{Declaration, Sort};
use crate::names::{field_within, list_within};
use crate::role::Role;
use crate::role_of::role_of;
use oxt_grammar::field::Field;
use oxt_grammar::kind::Kind;
use oxt_names::ids::{NodeId, OutOfMemory};
use oxt_tree::tree::{Node, Part};
use std::alloc::Global;

/// What the scope that the node opens declares, in the order of the text; nothing where it opens
/// none.
///
/// # Errors
///
/// Fails only where memory runs out.
pub fn declarations_of<'a>(
    alloc: Global,
    node: &'a Node,
) -> Result<Vec<Declaration<'a>>, OutOfMemory>
    ensures { IfOk result (λ v. declared_views v.items ≡ declares (node_doc node.now)) }
{
    let mut out = Vec::new(alloc);
    push_declared(alloc, role_of(node.kind), node, &mut out)?;
    Ok(out)
}

/// Appends what the scope that a node of that role opens declares.
pub fn push_declared<'a>(
    alloc: Global,
    role: Role,
    node: &'a Node,
    out: &mut Vec<Declaration<'a>>,
) -> Result<(), OutOfMemory>
    ensures { OnOk result (declared_views out.new.items
        ≡ declared_views out.old.items ++ node_declares role node.now.kind (docs_in node.now.parts.items) (each_found (docs_in node.now.parts.items))) }
{
    match role {
        Role::Program => push_each(alloc, &node.parts, Mode::All, out),
        Role::StaticBlock => push_each(alloc, &node.parts, Mode::All, out),
        Role::Namespace => push_each(alloc, &node.parts, Mode::All, out),
        Role::Module => push_each(alloc, &node.parts, Mode::All, out),
        Role::Block => push_each(alloc, &node.parts, Mode::Lets, out),
        Role::For => push_each(alloc, &node.parts, Mode::Lets, out),
        Role::ForEach => push_each(alloc, &node.parts, Mode::Lets, out),
        Role::Switch => push_each(alloc, &node.parts, Mode::Lets, out),
        Role::Catch => push_caught(alloc, node, out),
        Role::Function => push_function(alloc, node, out),
        Role::Overload => push_function(alloc, node, out),
        Role::Arrow => push_function(alloc, node, out),
        Role::FunctionExpression => push_function_expression(alloc, node, out),
        Role::Class => push_type_parameters(alloc, node, out),
        Role::ClassExpression => push_class_expression(alloc, node, out),
        Role::Enum => push_body_members(alloc, node.field(Field::Body), out),
        _ => Ok(()),
    }
}

/// Appends what the scope of a catch clause declares.
fn push_caught<'a>(
    alloc: Global,
    node: &'a Node,
    out: &mut Vec<Declaration<'a>>,
) -> Result<(), OutOfMemory>
    ensures { OnOk result (declared_views out.new.items
        ≡ declared_views out.old.items ++ caught node.now.kind (docs_in node.now.parts.items)) }
{
    let pattern = field_within(node, Field::Param, Field::Pattern);
    declare_pattern(alloc, pattern, Sort::Catch, false, None, out)
}

/// Appends the type parameters of a function or a class.
fn push_type_parameters<'a>(
    alloc: Global,
    node: &'a Node,
    out: &mut Vec<Declaration<'a>>,
) -> Result<(), OutOfMemory>
    ensures { OnOk result (declared_views out.new.items
        ≡ declared_views out.old.items ++ type_parameters node.now.kind (docs_in node.now.parts.items)) }
{
    let parts = list_within(node, Field::TypeParameters, Field::Params);
    declare_each(alloc, Field::Name, parts, Sort::TypeParameter, false, out)
}

/// Appends the names of the parameters.
fn push_parameters<'a>(
    alloc: Global,
    part: Option<&'a Part>,
    out: &mut Vec<Declaration<'a>>,
) -> Result<(), OutOfMemory>
    ensures { OnOk result (declared_views out.new.items
        ≡ declared_views out.old.items ++ parameters (doc_or_nil part.entry)) }
{
    match part {
        Some(part) => push_parameters_in(alloc, part, out),
        None => Ok(()),
    }
}

fn push_parameters_in<'a>(
    alloc: Global,
    part: &'a Part,
    out: &mut Vec<Declaration<'a>>,
) -> Result<(), OutOfMemory>
    ensures { OnOk result (declared_views out.new.items
        ≡ declared_views out.old.items ++ parameters (part_doc part.now)) }
{
    let items = part.list(Field::Items);
    declare_each(alloc, Field::Pattern, items, Sort::Parameter, false, out)?;
    let rest = rest_pattern(part);
    declare_pattern(alloc, rest, Sort::Parameter, false, None, out)
}

/// The pattern of the parameter that takes what is left.
fn rest_pattern<'a>(part: &'a Part) -> Option<&'a Part>
    ensures { doc_or_nil result ≡ field_of (codes "pattern") (field_of (codes "rest") (part_doc part.now)) }
{
    match part.field(Field::Rest) {
        Some(rest) => rest.field(Field::Pattern),
        None => None,
    }
}

/// Appends what the scope of a function declares, but for its own name.
fn push_function<'a>(
    alloc: Global,
    node: &'a Node,
    out: &mut Vec<Declaration<'a>>,
) -> Result<(), OutOfMemory>
    ensures { OnOk result (declared_views out.new.items
        ≡ declared_views out.old.items ++ function_names node.now.kind (docs_in node.now.parts.items) (each_found (docs_in node.now.parts.items))) }
{
    push_type_parameters(alloc, node, out)?;
    push_parameters(alloc, node.field(Field::Params), out)?;
    push_each(alloc, &node.parts, Mode::All, out)
}

/// Appends what the scope of a function expression declares.
fn push_function_expression<'a>(
    alloc: Global,
    node: &'a Node,
    out: &mut Vec<Declaration<'a>>,
) -> Result<(), OutOfMemory>
    ensures { OnOk result (declared_views out.new.items
        ≡ declared_views out.old.items ++ (inner_name Sort.InnerFunction node.now.kind (docs_in node.now.parts.items) ++ function_names node.now.kind (docs_in node.now.parts.items) (each_found (docs_in node.now.parts.items)))) }
{
    declare_inner(alloc, node, Sort::InnerFunction, out)?;
    push_function(alloc, node, out)
}

/// Appends the name of a function or class expression, declared so.
fn declare_inner<'a>(
    alloc: Global,
    node: &'a Node,
    sort: Sort,
    out: &mut Vec<Declaration<'a>>,
) -> Result<(), OutOfMemory>
    ensures { OnOk result (declared_views out.new.items
        ≡ declared_views out.old.items ++ inner_name sort node.now.kind (docs_in node.now.parts.items)) }
{
    declare_pattern(alloc, node.field(Field::Id), sort, false, None, out)
}

/// Appends what the scope of a class expression declares.
fn push_class_expression<'a>(
    alloc: Global,
    node: &'a Node,
    out: &mut Vec<Declaration<'a>>,
) -> Result<(), OutOfMemory>
    ensures { OnOk result (declared_views out.new.items
        ≡ declared_views out.old.items ++ (inner_name Sort.InnerClass node.now.kind (docs_in node.now.parts.items) ++ type_parameters node.now.kind (docs_in node.now.parts.items))) }
{
    declare_inner(alloc, node, Sort::InnerClass, out)?;
    push_type_parameters(alloc, node, out)
}

/// Appends the members in what may be the body of an enum.
pub fn push_body_members<'a>(
    alloc: Global,
    body: Option<&'a Part>,
    out: &mut Vec<Declaration<'a>>,
) -> Result<(), OutOfMemory>
    ensures { OnOk result (declared_views out.new.items
        ≡ declared_views out.old.items ++ members_in (doc_or_nil body.entry)) }
{
    match body {
        Some(body) => push_members(body.list(Field::Members), out),
        None => Ok(()),
    }
}

/// Appends the members of an enum.
#[tactic(auto, using(crate::proofs::FoundLoops::member_steps))]
fn push_members<'a>(parts: &'a [Part], out: &mut Vec<Declaration<'a>>) -> Result<(), OutOfMemory>
    ensures { OnOk result (declared_views out.new.items
        ≡ declared_views out.old.items ++ members (docs_in parts.now)) }
{
    for part in parts {
        push_member(part, out)?;
    }
    Ok(())
}

/// Appends the member of an enum, if it has a name.
#[tactic(auto, using(crate::proofs::Appends::one_more))]
fn push_member<'a>(part: &'a Part, out: &mut Vec<Declaration<'a>>) -> Result<(), OutOfMemory>
    ensures { OnOk result (declared_views out.new.items
        ≡ declared_views out.old.items ++ member (part_doc part.now)) }
{
    let Part::Node(node) = part else {
        return Ok(());
    };
    let Some(name) = member_name_of(node) else {
        return Ok(());
    };
    out.push(Declaration {
        name,
        sort: Sort::EnumMember,
        node: node.id,
        is_ambient: false,
        body: None,
    })?;
    Ok(())
}

/// The name of a member of an enum, if it has one.
pub fn member_name_of<'a>(node: &'a Node) -> Option<&'a str>
    ensures { option_map (λ t. t.now) result ≡ member_name (named (codes "id") node.now.kind (docs_in node.now.parts.items)) }
{
    match node.field(Field::Id) {
        Some(part) => member_name(part),
        None => None,
    }
}

/// The name that the part is: a name, a text or a template.
pub fn member_name<'a>(part: &'a Part) -> Option<&'a str>
    ensures { option_map (λ t. t.now) result ≡ member_name (part_doc part.now) }
{
    let Part::Node(node) = part else {
        return None;
    };
    if node.kind.is(Kind::TemplateLiteral) {
        return text_of(template_text(part));
    }
    text_of(node.parts.first())
}

/// The text that it is, if it is one.
pub fn text_of<'a>(part: Option<&'a Part>) -> Option<&'a str>
    ensures { option_map (λ t. t.now) result ≡ text_in (doc_or_nil part.entry) }
{
    match part {
        Some(part) => part.as_text(),
        None => None,
    }
}

/// The text in front of the first expression of a template, with its escapes read.
fn template_text<'a>(part: &'a Part) -> Option<&'a Part>
    ensures { doc_or_nil result ≡ field_of (codes "cooked") (first (elements (field_of (codes "quasis") (part_doc part.now)))) }
{
    match part.list(Field::Quasis).first() {
        Some(first) => first.field(Field::Cooked),
        None => None,
    }
}
