//! Where the annotations stand of which metadata tells.
ghost use Rattle.std.specs.Prelude.{◌≡◌};
ghost use Rattle.oxt_grammar.specs.Field.{row_view};
ghost use Rattle.oxt_metadata.specs.Sites.{called_inside, code_inside, declared_field, element_inside, erased_inside, field_site, function_field, inside_site, returns_written};
ghost use Rattle.oxt_tree.specs.View.{docs_in, node_doc};

use crate::typing::is_awaited;
use oxt_declares::calls::{is_called, is_decorated};
use oxt_declares::class::is_constructor;
use oxt_declares::dropped::{inside_dropped, is_declared_field, is_dropped};
use oxt_grammar::field::Field;
use oxt_grammar::holds::Row;
use oxt_grammar::kind::Kind;
use oxt_names::ids::NodeId;
use oxt_search::search::Inside;
use oxt_tree::tree::Node;

/// Where a node stands. The number is that of the class whose metadata is looked at.
#[derive(Clone, Copy)]
pub enum Site {
    /// In other code.
    Code,
    /// The body of the declaration of a class, or an element in it; the flag says whether the class is itself decorated.
    Body(NodeId, bool),
    /// A field, an accessor or a parameter whose annotation is written.
    Annotated(NodeId),
    /// Such a field that is only declared.
    Declared(NodeId),
    /// A method whose parameters are written; the flag says whether what it returns is written too.
    Method(NodeId, bool),
    /// The function of such a method.
    Function(NodeId, bool),
    /// Its parameters.
    Parameters(NodeId),
    /// An annotation that is written.
    Annotation(NodeId),
}

/// How the search goes on inside the node, which stands there.
pub(crate) fn inside_site(site: Site, node: &Node) -> Inside<Site>
    ensures { result ≡ inside_site site node.now.kind node.now.id.0 (docs_in node.now.parts.items) }
{
    match site {
        Site::Code => code_inside(node),
        Site::Body(_, _) if node.kind.is(Kind::ClassBody) => Inside::Alike(site),
        Site::Body(class, is_decorated) => element_inside(class, is_decorated, node),
        Site::Annotation(_) => Inside::Skipped,
        _ => Inside::ByField(site),
    }
}

/// The same of code: in the declaration of a class its elements are looked at.
fn code_inside(node: &Node) -> Inside<Site>
    ensures { result ≡ code_inside node.now.kind node.now.id.0 (docs_in node.now.parts.items) }
{
    if is_dropped(node) {
        inside_dropped(true, node, Site::Code)
    } else if node.kind.is(Kind::ClassDeclaration) {
        Inside::ByField(Site::Body(node.id, is_decorated(node)))
    } else {
        Inside::Alike(Site::Code)
    }
}

/// The same of an element of the class, which is itself decorated or not.
fn element_inside(class: NodeId, is_decorated: bool, node: &Node) -> Inside<Site>
    ensures { result ≡ element_inside class is_decorated node.now.kind (docs_in node.now.parts.items) }
{
    if is_dropped(node) {
        erased_inside(class, node)
    } else if is_called(node) {
        called_inside(class, node)
    } else if is_decorated && is_constructor(node) {
        Inside::ByField(Site::Method(class, false))
    } else {
        Inside::Alike(Site::Code)
    }
}

/// The same of one that is erased: of a decorated field that is only declared the annotation is written.
fn erased_inside(class: NodeId, node: &Node) -> Inside<Site>
    ensures { result ≡ erased_inside class node.now.kind (docs_in node.now.parts.items) }
{
    if is_declared_field(node) && is_called(node) {
        Inside::ByField(Site::Declared(class))
    } else {
        Inside::Skipped
    }
}

/// The same of one that gives a call.
fn called_inside(class: NodeId, node: &Node) -> Inside<Site>
    ensures { result ≡ called_inside class node.now.kind (docs_in node.now.parts.items) }
{
    if node.kind.is(Kind::MethodDefinition) {
        Inside::ByField(Site::Method(class, returns_written(node)))
    } else {
        Inside::ByField(Site::Annotated(class))
    }
}

/// Whether metadata writes what the method returns: it is no setter, and not async, unless it is a getter.
fn returns_written(method: &Node) -> bool
    ensures { result ≡ returns_written (node_doc method.now) }
{
    method.holds_text(Field::Kind, "get")
        || !(method.holds_text(Field::Kind, "set") || is_awaited(method))
}

/// Where that field of a node stands which stands there and is looked at by fields.
pub(crate) fn field_site(site: Site, row: &Row) -> Option<Site>
    ensures { result ≡ field_site site (row_view row.now) }
{
    match site {
        Site::Body(_, _) if row.is(Field::Body) => Some(site),
        Site::Annotated(class) if row.is(Field::TypeAnnotation) => Some(Site::Annotation(class)),
        Site::Declared(class) => declared_field(class, row),
        Site::Method(class, returns) if row.is(Field::Value) => {
            Some(Site::Function(class, returns))
        }
        Site::Function(class, returns) => Some(function_field(class, returns, row)),
        Site::Parameters(class) => Some(Site::Annotated(class)),
        _ => Some(Site::Code),
    }
}

/// The same of a field of the class that is only declared: nothing but its decorators and its annotation is looked at.
fn declared_field(class: NodeId, row: &Row) -> Option<Site>
    ensures { result ≡ declared_field class (row_view row.now) }
{
    if row.is(Field::TypeAnnotation) {
        Some(Site::Annotation(class))
    } else if row.is(Field::Decorators) {
        Some(Site::Code)
    } else {
        None
    }
}

/// The same of the function of a method, which is written by what it returns or not.
fn function_field(class: NodeId, returns: bool, row: &Row) -> Site
    ensures { result ≡ function_field class returns (row_view row.now) }
{
    if row.is(Field::Params) {
        Site::Parameters(class)
    } else if returns && row.is(Field::ReturnType) {
        Site::Annotation(class)
    } else {
        Site::Code
    }
}
