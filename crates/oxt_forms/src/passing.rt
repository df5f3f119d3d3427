//! Constructors that pass on all that they are given.
ghost use Rattle.std.specs.Prelude.{◌≡◌, not, ◌&&◌, ◌||◌, codes, option_map};
ghost use Rattle.std.specs.List.{list_any};
ghost use Rattle.oxt_forms.specs.Made.{is_made_binding, is_made_spread, is_passing, is_passing_call, is_passing_statement, mentions, pass_first, pass_name, pass_nothing, passed_name, passes_on, rest_pattern};
ghost use Rattle.oxt_forms.specs.Forms.{is_one};
ghost use Rattle.oxt_tree.specs.Fields.{docs_list, elements, field_of, first, is_empty_list, is_kind, is_set, is_text, named, text_in};
ghost use Rattle.oxt_tree.specs.View.{docs_in, doc_or_nil, part_doc};

use crate::forms::{is_one, lists_nothing};
use crate::made::{is_made_binding, is_made_use, is_silent_declaration};
use crate::mentions::mentions;
use oxt_facts::facts::Facts;
use oxt_grammar::field::Field;
use oxt_grammar::kind::Kind;
use oxt_tree::tree::{Node, Part};

/// Whether the part is `...p` with a made name.
fn is_made_spread(facts: &Facts, part: &Part) -> bool
    ensures { result ≡ is_made_spread facts.now (part_doc part.now) }
{
    match part {
        Part::Node(node) => {
            node.kind.is(Kind::SpreadElement)
                && match node.field(Field::Argument) {
                    Some(argument) => is_made_use(facts, argument),
                    None => false,
                }
        }
        _ => false,
    }
}

/// Whether the first of the parts is `...p` with a made name.
fn begins_spread(facts: &Facts, parts: &[Part]) -> bool
    ensures { result ≡ is_made_spread facts.now (first (docs_in parts.now)) }
{
    match parts.first() {
        Some(part) => is_made_spread(facts, part),
        None => false,
    }
}

/// Whether the part is `super(...p)` with a made name.
fn is_passing_call(facts: &Facts, part: &Part) -> bool
    ensures { result ≡ is_passing_call facts.now (part_doc part.now) }
{
    match part {
        Part::Node(node) => node.kind.is(Kind::CallExpression) && passes(facts, node),
        _ => false,
    }
}

/// Whether the call is one of `super` with `...p` alone.
fn passes(facts: &Facts, node: &Node) -> bool
    ensures { result ≡ (not (is_set (named (codes "optional") node.now.kind (docs_in node.now.parts.items)))
        && (not (is_set (named (codes "pure") node.now.kind (docs_in node.now.parts.items)))
        && (is_kind Kind.Super (named (codes "callee") node.now.kind (docs_in node.now.parts.items))
        && (is_one (elements (named (codes "arguments") node.now.kind (docs_in node.now.parts.items)))
        && is_made_spread facts.now (first (elements (named (codes "arguments") node.now.kind (docs_in node.now.parts.items)))))))) }
{
    !node.flag(Field::Optional)
        && (!node.flag(Field::Pure)
            && (node.holds_kind(Field::Callee, Kind::Super)
                && (is_one(node.list(Field::Arguments))
                    && begins_spread(facts, node.list(Field::Arguments)))))
}

/// Whether the statement is `super(...p)` with a made name.
pub fn is_passing(facts: &Facts, node: &Node) -> bool
    ensures { result ≡ is_passing facts.now node.now.kind (docs_in node.now.parts.items) }
{
    node.kind.is(Kind::ExpressionStatement)
        && match node.field(Field::Expression) {
            Some(expression) => is_passing_call(facts, expression),
            None => false,
        }
}

/// Whether the part is the statement `super(...p)` with a made name.
fn is_passing_statement(facts: &Facts, part: &Part) -> bool
    ensures { result ≡ is_passing_statement facts.now (part_doc part.now) }
{
    match part {
        Part::Node(node) => is_passing(facts, node),
        _ => false,
    }
}

/// The name p in the statement `super(...p)`.
fn passed_name(part: &Part) -> Option<&Part>
    ensures { doc_or_nil result ≡ passed_name (part_doc part.now) }
{
    let call = part.field(Field::Expression)?;
    let spread = arguments_of(call).first()?;
    let argument = spread.field(Field::Argument)?;
    argument.field(Field::Name)
}

/// The arguments of the call.
fn arguments_of(part: &Part) -> &[Part]
    ensures { docs_in result.now ≡ elements (field_of (codes "arguments") (part_doc part.now)) }
{
    match part {
        Part::Node(node) => node.list(Field::Arguments),
        _ => &[],
    }
}

/// Whether no statement passes anything on, or names p.
#[tactic(auto, using(oxt_tree::proofs::Lists::list_any_docs_in))]
fn pass_nothing(facts: &Facts, name: &str, parts: &[Part]) -> bool
    ensures { result ≡ pass_nothing facts.now name.now (docs_in parts.now) }
{
    !passes_again(facts, name, parts)
}

/// Whether a statement passes anything on, or names p.
fn passes_again(facts: &Facts, name: &str, parts: &[Part]) -> bool
    ensures { result ≡ list_any (λ part. is_passing_statement facts.now (part_doc part)
        || mentions name.now (part_doc part)) parts.now }
{
    parts.iter().any(|part| is_passing_statement(facts, part) || mentions(name, part))
}

/// Whether the first statement that is not read as nothing is `super(...p)`, and p is named nowhere else.
#[tactic(auto, using(crate::proofs::Firsts::one_more, crate::proofs::Firsts::named, crate::proofs::Firsts::loud, crate::proofs::Firsts::no_more))]
fn pass_first(facts: &Facts, name: &str, parts: &[Part]) -> bool
    ensures { result ≡ pass_first facts.now name.now (docs_in parts.now) }
{
    for (i, part) in parts.iter().enumerate() {
        if !is_silent_declaration(facts, part) {
            return passes_it(facts, name, part)
                && pass_nothing(facts, name, parts.split_at(i + 1).1);
        }
        if mentions(name, part) {
            return false;
        }
    }
    false
}

/// Whether the statement is `super(...p)`.
fn passes_it(facts: &Facts, name: &str, part: &Part) -> bool
    ensures { result ≡ (is_passing_statement facts.now (part_doc part.now)
        && is_text name.now (passed_name (part_doc part.now))) }
{
    is_passing_statement(facts, part)
        && match passed_name(part) {
            Some(passed) => passed.is_text(name),
            None => false,
        }
}

/// The pattern of the one parameter `...p`.
fn rest_pattern(node: &Node) -> Option<&Part>
    ensures { doc_or_nil result ≡ rest_pattern (named (codes "params") node.now.kind (docs_in node.now.parts.items)) }
{
    let rest = node.field(Field::Params)?.field(Field::Rest)?;
    rest.field(Field::Pattern)
}

/// Whether the function has the one parameter `...p` with a made name, which it passes on first of all.
pub fn passes_on(facts: &Facts, node: &Node) -> bool
    ensures { result ≡ passes_on facts.now node.now.kind (docs_in node.now.parts.items) }
{
    lacks_parameters(node)
        && match rest_pattern(node) {
            Some(pattern) => is_made_binding(facts, pattern)
                && passes_pattern(facts, pattern, node),
            None => false,
        }
}

/// Whether the function has no parameters but a last one.
fn lacks_parameters(node: &Node) -> bool
    ensures { result ≡ is_empty_list (field_of (codes "items")
        (named (codes "params") node.now.kind (docs_in node.now.parts.items))) }
{
    match node.field(Field::Params) {
        Some(Part::Node(params)) => lists_nothing(params, Field::Items),
        _ => false,
    }
}

/// Whether the body passes the name of the pattern on first of all.
fn passes_pattern(facts: &Facts, pattern: &Part, node: &Node) -> bool
    ensures { result ≡ pass_name facts.now (text_in (field_of (codes "name") (part_doc pattern.now)))
        (elements (field_of (codes "statements")
        (named (codes "body") node.now.kind (docs_in node.now.parts.items)))) }
{
    match name_of(pattern) {
        Some(name) => pass_first(facts, name, statements_of(node)),
        None => false,
    }
}

/// The name in the part.
fn name_of(part: &Part) -> Option<&str>
    ensures { option_map (λ name. name.now) result
        ≡ text_in (field_of (codes "name") (part_doc part.now)) }
{
    match part.field(Field::Name) {
        Some(name) => name.as_text(),
        None => None,
    }
}

/// The statements of the function.
fn statements_of(node: &Node) -> &[Part]
    ensures { docs_in result.now ≡ elements (field_of (codes "statements")
        (named (codes "body") node.now.kind (docs_in node.now.parts.items))) }
{
    match node.field(Field::Body) {
        Some(Part::Node(body)) => body.list(Field::Statements),
        _ => &[],
    }
}
