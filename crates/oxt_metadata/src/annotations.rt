//! The type annotations of which metadata tells.
//!
//! In
//!
//! ```ts
//! class Shape {
//!     @noted draw(size: Size, ...rest: string[]): void {}
//!     @watched name?: string;
//! }
//! ```
//!
//! they are those of `size`, `rest`, `draw` and `name`, and `Size` is a name that is used as a value.
ghost use Rattle.std.specs.Prelude.{◌≡◌, IfOk, OnOk, [], ◌∷◌, ◌++◌};
ghost use Rattle.oxt_metadata.specs.Annotations.{annotated, annotation_at, annotations, annotations_by};
ghost use Rattle.oxt_metadata.specs.Sights.{sight_view};
ghost use Rattle.oxt_metadata.specs.Sites.{field_site, inside_site};
ghost use Rattle.oxt_metadata.specs.Symbols.{types_in as types_of, written_by, written_in};
ghost use Rattle.oxt_options.specs.Lists.{pairs_in, types_in};
ghost use Rattle.oxt_tree.specs.View.{docs_in, node_doc};

use crate::shapes::EnumShapes;
use crate::sight::Sight;
use crate::site::{Site, field_site, inside_site};
use crate::types::type_of;
use oxt_grammar::holds::Row;
use oxt_grammar::kind::Kind;
use oxt_names::ids::{NodeId, OutOfMemory};
use oxt_options::metadata::MetadataType;
use oxt_options::options::DecoratorOptions;
use oxt_scoping::scoping::Scoping;
use oxt_search::all::all_in;
use oxt_search::search::{Search, Visit};
use oxt_tree::tree::Node;
use std::alloc::Global;

/// A type annotation of which metadata tells.
#[derive(Clone, Copy)]
pub struct Annotation {
    /// The annotation.
    pub node: NodeId,
    /// The class whose metadata tells of it.
    pub class: NodeId,
    /// What is written for it.
    pub written: MetadataType,
}

/// The annotations of the program of which metadata tells, in the order of the text: those of decorated fields and accessors,
/// of the parameters of methods that are decorated and of what these return, and of the parameters of the constructors of
/// decorated classes. There are none where no metadata is emitted.
///
/// # Errors
///
/// Fails only where memory runs out.
pub fn annotations_of(
    alloc: Global,
    program: &Node,
    scoping: &Scoping,
    options: DecoratorOptions,
) -> Result<Vec<Annotation>, OutOfMemory>
    ensures { IfOk result (λ found. found.items ≡ annotations scoping.now options (node_doc program.now)) }
{
    if options.emits_metadata() {
        annotations_in(alloc, program, scoping, options.strict_null_checks)
    } else {
        Ok(Vec::new(alloc))
    }
}

/// The same, where metadata is emitted. `is_strict` says whether null and undefined count.
fn annotations_in(
    alloc: Global,
    program: &Node,
    scoping: &Scoping,
    is_strict: bool,
) -> Result<Vec<Annotation>, OutOfMemory>
    ensures { IfOk result (λ found. found.items ≡ annotations_by scoping.now is_strict (node_doc program.now)) }
{
    let shapes = EnumShapes::of(alloc, program, scoping)?;
    let sight = Sight {
        scoping,
        shapes: &shapes,
        is_strict,
    };
    annotations_seen(alloc, program, sight)
}

/// The same, as the types are read by that.
#[tactic(auto, using(oxt_search::proofs::Given::as_it_is))]
fn annotations_seen(
    alloc: Global,
    program: &Node,
    sight: Sight,
) -> Result<Vec<Annotation>, OutOfMemory>
    ensures { IfOk result (λ found. found.items ≡ annotated (sight_view sight.entry) (node_doc program.now)) }
{
    all_in(alloc, &Annotations { sight }, program, Site::Code)
}

/// The search for such annotations.
#[derive(Clone, Copy)]
struct Annotations<'a> {
    sight: Sight<'a>,
}

impl<'a> Search for Annotations<'a> {
    ghost use Rattle.oxt_metadata.specs.Annotations.{sought};
    ghost use Rattle.oxt_metadata.specs.declared.annotations.Annotation.{Annotation};

    type State = Site;

    type Found = Annotation;

    ghost Seen = { Annotation };

    ghost view = { λ annotation. annotation };

    ghost sought = { λ search. sought (sight_view search.sight) };

    #[tactic(auto, using(oxt_search::proofs::Given::as_it_is))]
    fn visit(&self, node: &Node, site: Site) -> Visit<Annotation, Site> {
        Visit {
            found: annotation_at(self.sight, site, node),
            inside: inside_site(site, node),
        }
    }

    fn in_field(&self, site: Site, _kind: Kind, row: &Row) -> Option<Site> {
        field_site(site, row)
    }
}

/// The annotation, if the node is one that is written.
fn annotation_at(sight: Sight, site: Site, node: &Node) -> Option<Annotation>
    ensures { result ≡ annotation_at (sight_view sight.entry) site node.now.kind node.now.id.0
        (docs_in node.now.parts.items) }
{
    match site {
        Site::Annotation(class) => Some(Annotation {
            node: node.id,
            class,
            written: type_of(sight, node),
        }),
        _ => None,
    }
}

/// The annotations, with what is written for them.
///
/// # Errors
///
/// Fails only where memory runs out.
#[tactic(auto, using(crate::proofs::Named::types_steps))]
pub fn types_of(
    alloc: Global,
    annotations: &[Annotation],
) -> Result<Vec<(NodeId, MetadataType)>, OutOfMemory>
    ensures { IfOk result (λ types. types_in types.items ≡ types_of annotations.now) }
{
    let mut types = Vec::new(alloc);
    for annotation in annotations {
        push_type(*annotation, &mut types)?;
    }
    Ok(types)
}

/// Appends the annotation with what is written for it.
#[tactic(auto, using(crate::proofs::Named::one_type))]
fn push_type(
    annotation: Annotation,
    types: &mut Vec<(NodeId, MetadataType)>,
) -> Result<(), OutOfMemory>
    ensures { OnOk result (types_in types.new.items
        ≡ types_in types.old.items ++ (annotation.node.0, annotation.written) ∷ []) }
{
    types.push((annotation.node, annotation.written))?;
    Ok(())
}

/// The first names of the dotted names that the annotations write, each with the class whose metadata writes it.
///
/// # Errors
///
/// Fails only where memory runs out.
#[tactic(auto, using(crate::proofs::Named::written_steps))]
pub fn written_names(
    alloc: Global,
    annotations: &[Annotation],
) -> Result<Vec<(NodeId, NodeId)>, OutOfMemory>
    ensures { IfOk result (λ names. pairs_in names.items ≡ written_in annotations.now) }
{
    let mut names = Vec::new(alloc);
    for annotation in annotations {
        push_written(*annotation, &mut names)?;
    }
    Ok(names)
}

/// Appends the first name that the annotation writes, if it writes one.
#[tactic(auto, using(crate::proofs::Named::one_written))]
fn push_written(
    annotation: Annotation,
    names: &mut Vec<(NodeId, NodeId)>,
) -> Result<(), OutOfMemory>
    ensures { OnOk result (pairs_in names.new.items
        ≡ pairs_in names.old.items ++ written_by annotation.class annotation.written) }
{
    if let MetadataType::Reference { root, .. } = annotation.written {
        names.push((root, annotation.class))?;
    }
    Ok(())
}
