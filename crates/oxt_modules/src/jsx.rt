//! The names that elements and fragments of JSX use.
ghost use Rattle.std.specs.Prelude.{◌≡◌, ◌==◌, IfOk};
ghost use Rattle.std.specs.List.{list_any};
ghost use Rattle.oxt_options.specs.Options.{typescript_view};
ghost use Rattle.oxt_modules.specs.Jsx.{before_dot, is_element, is_fragment, is_jsx_name, jsx_nodes, jsx_use, live_inside, own_node, sought, use_of};
ghost use Rattle.oxt_modules.specs.declared.jsx.JsxNode.{JsxNode};
ghost use Rattle.oxt_tree.specs.View.{docs_in, node_doc};

use oxt_declares::dropped::{inside_dropped, is_dropped};
use oxt_grammar::holds::Row;
use oxt_grammar::kind::Kind;
use oxt_names::ids::OutOfMemory;
use oxt_options::TypeScriptOptions;
use oxt_search::all::all_in;
use oxt_search::search::{Inside, Search, Visit};
use oxt_tree::tree::Node;
use std::alloc::Global;

/// What a program has of JSX outside erased code.
#[derive(Clone, Copy)]
pub struct JsxUse {
    /// An element.
    pub has_element: bool,
    /// A fragment.
    pub has_fragment: bool,
}

/// A node by which JSX uses a name.
#[derive(Clone, Copy)]
pub enum JsxNode {
    /// An element.
    Element,
    /// A fragment.
    Fragment,
}

/// What the program has of JSX outside erased code. Under `legacy` the decorators of a field with `declare` are none.
///
/// # Errors
///
/// Nothing but want of memory.
pub fn jsx_use(alloc: Global, program: &Node, legacy: bool) -> Result<JsxUse, OutOfMemory>
    ensures { IfOk result (λ found. found ≡ jsx_use legacy (node_doc program.now)) }
{
    let nodes = jsx_nodes(alloc, program, legacy)?;
    Ok(use_of(nodes.as_slice()))
}

/// The elements and fragments, in the order of the text.
#[tactic(auto, using(oxt_search::proofs::Given::as_it_is))]
fn jsx_nodes(alloc: Global, program: &Node, legacy: bool) -> Result<Vec<JsxNode>, OutOfMemory>
    ensures { IfOk result (λ nodes. nodes.items ≡ jsx_nodes legacy (node_doc program.now)) }
{
    all_in(alloc, &JsxNodes { legacy }, program, ())
}

/// The search for them.
#[derive(Clone, Copy)]
struct JsxNodes {
    /// Whether decorators have TypeScript's older meaning.
    legacy: bool,
}

impl Search for JsxNodes {
    type State = ();

    type Found = JsxNode;

    ghost Seen = { JsxNode };

    ghost view = { λ node. node };

    ghost sought = { λ nodes. sought nodes.legacy };

    #[tactic(auto, using(oxt_search::proofs::Given::as_it_is))]
    fn visit(&self, node: &Node, state: ()) -> Visit<JsxNode, ()> {
        Visit {
            found: own_node(node.kind),
            inside: live_inside(self.legacy, node, state),
        }
    }

    fn in_field(&self, _state: (), _kind: Kind, _row: &Row) -> Option<()> {
        Some(())
    }
}

/// What is looked at inside the node: of what is erased nothing but decorators that are applied all the same.
fn live_inside(legacy: bool, node: &Node, state: ()) -> Inside<()>
    ensures { result ≡ live_inside legacy state node.now.kind (docs_in node.now.parts.items) }
{
    if is_dropped(node) {
        inside_dropped(legacy, node, state)
    } else {
        Inside::Alike(state)
    }
}

/// What a node of that kind is of JSX.
fn own_node(kind: Kind) -> Option<JsxNode>
    ensures { result ≡ own_node kind }
{
    if kind.is(Kind::JSXElement) {
        Some(JsxNode::Element)
    } else if kind.is(Kind::JSXFragment) {
        Some(JsxNode::Fragment)
    } else {
        None
    }
}

/// What a program with these nodes has.
fn use_of(nodes: &[JsxNode]) -> JsxUse
    ensures { result ≡ use_of nodes.now }
{
    JsxUse {
        has_element: has_element(nodes),
        has_fragment: has_fragment(nodes),
    }
}

/// Whether one of the nodes is an element.
fn has_element(nodes: &[JsxNode]) -> bool
    ensures { result ≡ list_any is_element nodes.now }
{
    nodes.iter().any(|node| is_element(*node))
}

/// Whether one of the nodes is a fragment.
fn has_fragment(nodes: &[JsxNode]) -> bool
    ensures { result ≡ list_any is_fragment nodes.now }
{
    nodes.iter().any(|node| is_fragment(*node))
}

/// Whether the node is an element.
fn is_element(node: JsxNode) -> bool
    ensures { result ≡ is_element node }
{
    match node {
        JsxNode::Element => true,
        JsxNode::Fragment => false,
    }
}

/// Whether the node is a fragment.
fn is_fragment(node: JsxNode) -> bool
    ensures { result ≡ is_fragment node }
{
    match node {
        JsxNode::Element => false,
        JsxNode::Fragment => true,
    }
}

/// Whether the elements or the fragments of the program use the name.
pub fn is_jsx_name(options: &TypeScriptOptions, jsx: JsxUse, name: &str) -> bool
    ensures { result ≡ is_jsx_name (typescript_view options.now) jsx name.now }
{
    (jsx.has_element && before_dot(options.jsx_pragma.as_str()) == name)
        || (jsx.has_fragment && before_dot(options.jsx_pragma_frag.as_str()) == name)
}

/// The text before its first dot; all of it where it has none.
fn before_dot(text: &str) -> &str
    ensures { result.now ≡ before_dot text.now }
{
    match text.split_once('.') {
        Some((head, _)) => head,
        None => text,
    }
}
