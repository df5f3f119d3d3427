//! Forms that are read by a rule of their own where they have made names.
ghost use Rattle.std.specs.Prelude.{◌≡◌, not, codes, option_map};
ghost use Rattle.std.specs.List.{list_any};
ghost use Rattle.oxt_facts.specs.Facts.{is_made};
ghost use Rattle.oxt_forms.specs.Forms.{within};
ghost use Rattle.oxt_forms.specs.Made.{alias_of, are_silent, is_keep, is_loud, is_made_binding, is_made_use, is_quiet, is_silent, is_silent_declaration, is_silent_declarator, is_told_gone};
ghost use Rattle.oxt_tree.specs.Fields.{named};
ghost use Rattle.oxt_names.specs.Names.{name_bytes};
ghost use Rattle.oxt_tree.specs.View.{docs_in, part_doc};
ghost use Rattle.oxt_grammar.specs.Keys.{key_of};

use crate::forms::{lists_nothing, within};
use oxt_facts::facts::Facts;
use oxt_facts::told::Told;
use oxt_grammar::field::Field;
use oxt_grammar::kind::Kind;
use oxt_names::name::Name;
use oxt_tree::tree::{Node, Part};

/// The tag of the made name as which the part is read, by what is told of it.
pub(crate) fn alias_of<'a>(facts: &'a Facts, part: &Part) -> Option<&'a Name>
    ensures { option_map (λ tag. name_bytes tag.now) result ≡ alias_of facts.now (part_doc part.now) }
{
    match part {
        Part::Node(node) => match facts.told_of(node.id) {
            Some(Told::Alias(tag)) => Some(tag),
            _ => None,
        },
        _ => None,
    }
}

/// Whether the part is the use of a made name, or of a name that is read as one.
pub(crate) fn is_made_use(facts: &Facts, part: &Part) -> bool
    ensures { result ≡ is_made_use facts.now (part_doc part.now) }
{
    match part {
        Part::Node(node) => {
            node.kind.is(Kind::IdentifierReference)
                && (alias_of(facts, part).is_some() || has_made_name(facts, node))
        }
        _ => false,
    }
}

/// Whether the name in the node is made.
fn has_made_name(facts: &Facts, node: &Node) -> bool
    ensures { result
        ≡ is_made facts.now (named (codes "name") node.now.kind (docs_in node.now.parts.items)) }
{
    match node.field(Field::Name) {
        Some(name) => facts.is_made(name),
        None => false,
    }
}

/// Whether what stands in the field of that name is the use of a made name.
pub(crate) fn holds_made_use(facts: &Facts, node: &Node, field: Field) -> bool
    ensures { result ≡ is_made_use facts.now
        (within (key_of field) node.now.kind (docs_in node.now.parts.items)) }
{
    match within(node, field) {
        Some(part) => is_made_use(facts, part),
        None => false,
    }
}

/// Whether it is an assignment by `=` to a made name.
pub fn is_keep(facts: &Facts, node: &Node) -> bool
    ensures { result ≡ is_keep facts.now node.now.kind (docs_in node.now.parts.items) }
{
    node.holds_text(Field::Operator, "=") && holds_made_use(facts, node, Field::Left)
}

/// Whether the part is a made name as a pattern.
pub(crate) fn is_made_binding(facts: &Facts, part: &Part) -> bool
    ensures { result ≡ is_made_binding facts.now (part_doc part.now) }
{
    match part {
        Part::Node(node) => node.kind.is(Kind::BindingIdentifier) && has_made_name(facts, node),
        _ => false,
    }
}

/// Whether it is a declarator of a made name without a value.
pub fn is_silent(facts: &Facts, node: &Node) -> bool
    ensures { result ≡ is_silent facts.now node.now.kind (docs_in node.now.parts.items) }
{
    node.lacks(Field::Init)
        && match node.field(Field::Id) {
            Some(id) => is_made_binding(facts, id),
            None => false,
        }
}

/// Whether the part declares a made name without a value.
fn is_silent_declarator(facts: &Facts, part: &Part) -> bool
    ensures { result ≡ is_silent_declarator facts.now (part_doc part.now) }
{
    match part {
        Part::Node(node) => is_silent(facts, node),
        _ => false,
    }
}

/// Whether one of them declares something else.
fn is_any_loud_declarator(facts: &Facts, parts: &[Part]) -> bool
    ensures { result
        ≡ list_any (λ part. not (is_silent_declarator facts.now (part_doc part))) parts.now }
{
    parts.iter().any(|part| !is_silent_declarator(facts, part))
}

/// Whether the declarators of the node, one at least, all declare made names without a value.
#[tactic(auto, using(oxt_tree::proofs::Lists::list_any_docs_in))]
fn are_silent(facts: &Facts, node: &Node) -> bool
    ensures { result ≡ are_silent facts.now
        (named (codes "declarations") node.now.kind (docs_in node.now.parts.items)) }
{
    !lists_nothing(node, Field::Declarations)
        && !is_any_loud_declarator(facts, node.list(Field::Declarations))
}

/// Whether the part is a declaration that is read as nothing.
pub(crate) fn is_silent_declaration(facts: &Facts, part: &Part) -> bool
    ensures { result ≡ is_silent_declaration facts.now (part_doc part.now) }
{
    match part {
        Part::Node(node) => node.kind.is(Kind::VariableDeclaration) && are_silent(facts, node),
        _ => false,
    }
}

/// Whether the part is a statement that is neither an expression nor nothing. A block of a namespace is nothing, since one
/// that does something may not stand in a class.
fn is_loud(facts: &Facts, part: &Part) -> bool
    ensures { result ≡ is_loud facts.now (part_doc part.now) }
{
    !part.is_kind(Kind::ExpressionStatement)
        && (!part.is_kind(Kind::TSNamespaceDeclaration)
            && (!part.is_mere_declaration()
                && (!is_silent_declaration(facts, part) && !is_told_gone(facts, part))))
}

/// Whether it is told of the part that it does nothing.
fn is_told_gone(facts: &Facts, part: &Part) -> bool
    ensures { result ≡ is_told_gone facts.now (part_doc part.now) }
{
    match part {
        Part::Node(node) => match facts.told_of(node.id) {
            Some(Told::Gone) => true,
            _ => false,
        },
        _ => false,
    }
}

/// Whether each statement of the block is an expression or nothing.
#[tactic(auto, using(oxt_tree::proofs::Lists::list_any_docs_in))]
pub fn is_quiet(facts: &Facts, node: &Node) -> bool
    ensures { result ≡ is_quiet facts.now node.now.kind (docs_in node.now.parts.items) }
{
    !is_any_loud(facts, node.list(Field::Body))
}

/// Whether one of them is a statement that is neither an expression nor nothing.
fn is_any_loud(facts: &Facts, parts: &[Part]) -> bool
    ensures { result ≡ list_any (λ part. is_loud facts.now (part_doc part)) parts.now }
{
    parts.iter().any(|part| is_loud(facts, part))
}
