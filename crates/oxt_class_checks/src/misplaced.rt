//! The first element of a class that stands where it may not.
//!
//! One search goes through all classes that are not erased. It hands down what the elements of a class have to know of
//! it, from the class to its body, and from there to the elements.
ghost use Rattle.std.specs.Prelude.{◌≡◌, IfOk, option_map};
ghost use Rattle.oxt_class_checks.specs.Misplaced.{ElementFault, around_inside, element_view, fault_in, misplaced_beside, misplaced_element, sought};
ghost use Rattle.oxt_fields.specs.Rules.{rules_view};
ghost use Rattle.oxt_options.specs.Facts.{is_in};
ghost use Rattle.oxt_tree.specs.View.{docs_in, node_doc};

use crate::class::{ClassFacts, class_facts, is_class};
use crate::refused::refused_accessors;
use crate::rules::fault_at;
use oxt_declares::dropped::{inside_dropped, is_dropped};
use oxt_fields::rules::FieldRules;
use oxt_grammar::field::Field;
use oxt_grammar::holds::Row;
use oxt_grammar::kind::Kind;
use oxt_names::ids::{NodeId, OutOfMemory};
use oxt_options::nodes::NodeList;
use oxt_search::first::first_in;
use oxt_search::search::{Inside, Search, Visit};
use oxt_tree::tree::Node;
use std::alloc::Global;

/// What is wrong with the place of an element of a class.
#[derive(Clone, Copy)]
pub enum ClassFault {
    /// It is the constructor of a derived class and takes on properties or fields, which stand behind the call of
    /// `super`; but it does not call `super` exactly once, in a statement of its body by itself.
    Super,
    /// It is a field whose key is computed, in a class that leaves no place where that could be done.
    Key,
    /// It is a field with decorators that does not stay as it is, or one that moves though an `accessor` has a value. Where
    /// decorators are lowered: a field with decorators that goes into a static block, or whose key is computed apart from it.
    Field,
    /// It is an accessor, or a setter, whose private name could not be told from others once accessors are lowered.
    Accessor,
}

/// An element of a class that stands where it may not.
#[derive(Clone, Copy)]
pub struct MisplacedElement {
    /// What is wrong.
    pub fault: ClassFault,
    /// The number of the element.
    pub node: NodeId,
}

/// The first element outside erased code that stands where it may not in its class, where a node comes before those in
/// it. Of several faults of one element it is the first in their order.
///
/// # Errors
///
/// Fails only where memory runs out.
pub fn first_misplaced_element(
    alloc: Global,
    program: &Node,
    rules: FieldRules,
) -> Result<Option<MisplacedElement>, OutOfMemory>
    ensures { IfOk result (λ found. option_map element_view found
        ≡ misplaced_element (rules_view rules.entry) (node_doc program.now)) }
{
    let refused = refused_accessors(alloc, program, rules)?;
    Ok(first_beside(program, rules, &refused))
}

/// The first of them where these accessors are refused.
fn first_beside(program: &Node, rules: FieldRules, refused: &NodeList) -> Option<MisplacedElement>
    ensures { option_map element_view result
        ≡ misplaced_beside refused.now (rules_view rules.entry) (node_doc program.now) }
{
    first_in(&MisplacedElements { rules, refused }, program, None)
}

/// The search for such elements.
#[derive(Clone, Copy)]
struct MisplacedElements<'a> {
    /// The rules by which fields are lowered.
    rules: FieldRules<'a>,
    /// The accessors and setters that are refused.
    refused: &'a NodeList,
}

impl<'a> Search for MisplacedElements<'a> {
    type State = Option<ClassFacts>;

    type Found = MisplacedElement;

    ghost Seen = { ElementFault };

    ghost view = { element_view };

    ghost sought = { λ search. sought (rules_view search.rules) (is_in search.refused.now) };

    fn visit(
        &self,
        node: &Node,
        class: Option<ClassFacts>,
    ) -> Visit<MisplacedElement, Option<ClassFacts>> {
        if is_dropped(node) {
            Visit {
                found: None,
                inside: inside_dropped(self.rules.legacy, node, None),
            }
        } else {
            Visit {
                found: fault_in(self.rules, self.refused, class, node),
                inside: Inside::ByField(around_inside(self.rules, class, node)),
            }
        }
    }

    fn in_field(
        &self,
        class: Option<ClassFacts>,
        _kind: Kind,
        row: &Row,
    ) -> Option<Option<ClassFacts>> {
        if row.is(Field::Body) {
            Some(class)
        } else {
            Some(None)
        }
    }
}

/// What is wrong with the place of the node in that class, with its number, where these accessors are refused.
fn fault_in(
    rules: FieldRules,
    refused: &NodeList,
    class: Option<ClassFacts>,
    node: &Node,
) -> Option<MisplacedElement>
    ensures { option_map element_view result ≡ fault_in (rules_view rules.entry) (is_in refused.now) class
        node.now.kind node.now.id.0 (docs_in node.now.parts.items) }
{
    let fault = fault_at(rules, refused.has(node.id), class?, node)?;
    Some(MisplacedElement {
        fault,
        node: node.id,
    })
}

/// The class whose body the field `body` of the node is, or whose elements it holds, where the node stands in that class.
fn around_inside(rules: FieldRules, class: Option<ClassFacts>, node: &Node) -> Option<ClassFacts>
    ensures { result
        ≡ around_inside (rules_view rules.entry) class node.now.kind (docs_in node.now.parts.items) }
{
    if is_class(node.kind) {
        Some(class_facts(rules, node))
    } else if node.kind.is(Kind::ClassBody) {
        class
    } else {
        None
    }
}
