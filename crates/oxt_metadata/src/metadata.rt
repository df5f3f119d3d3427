//! What metadata writes in a program.
ghost use Rattle.std.specs.Prelude.{◌≡◌, IfOk};
ghost use Rattle.oxt_metadata.specs.Symbols.{types_in as types_of, written_in};
ghost use Rattle.oxt_metadata.specs.Whole.{metadata_of};
ghost use Rattle.oxt_options.specs.Lists.{pairs_in, types_in};
ghost use Rattle.oxt_tree.specs.View.{node_doc};

use crate::annotations::{Annotation, annotations_of, types_of, written_names};
use crate::symbols::NamedSymbols;
use oxt_names::ids::{NodeId, OutOfMemory};
use oxt_options::metadata::MetadataType;
use oxt_options::options::DecoratorOptions;
use oxt_scoping::scoping::Scoping;
use oxt_tree::tree::Node;
use std::alloc::Global;
use std::marker::Model;

/// What metadata writes in a program.
#[derive(Drop)]
pub struct Metadata {
    annotations: Vec<Annotation>,
    named: NamedSymbols,
}

impl Model for Metadata {
    ghost use Rattle.oxt_metadata.specs.Whole.{Written};

    ghost Value = { Written };

    ghost view = { λ m. record { annotations = m.annotations.items; named = m.named } };
}

impl Metadata {
    /// What it writes in the program, whose table of scopes and symbols is `scoping`: nothing where it is not emitted.
    ///
    /// # Errors
    ///
    /// Fails only where memory runs out.
    pub fn of(
        alloc: Global,
        program: &Node,
        scoping: &Scoping,
        options: DecoratorOptions,
    ) -> Result<Metadata, OutOfMemory>
        ensures { IfOk result (λ m. m ≡ metadata_of scoping.now options (node_doc program.now)) }
    {
        let annotations = annotations_of(alloc, program, scoping, options)?;
        let named = NamedSymbols::of(alloc, scoping, annotations.as_slice())?;
        Ok(Metadata { annotations, named })
    }

    /// The symbols that it names as values.
    pub fn named(&self) -> &NamedSymbols
        ensures { result.now ≡ self.now.named }
    {
        &self.named
    }

    /// The type annotations of which it tells, with what it writes for them.
    ///
    /// # Errors
    ///
    /// Fails only where memory runs out.
    pub fn types(&self, alloc: Global) -> Result<Vec<(NodeId, MetadataType)>, OutOfMemory>
        ensures { IfOk result (λ types. types_in types.items ≡ types_of self.now.annotations) }
    {
        types_of(alloc, self.annotations.as_slice())
    }

    /// The first names of the dotted names that it writes, each with the class whose metadata that is.
    ///
    /// # Errors
    ///
    /// Fails only where memory runs out.
    pub fn names(&self, alloc: Global) -> Result<Vec<(NodeId, NodeId)>, OutOfMemory>
        ensures { IfOk result (λ names. pairs_in names.items ≡ written_in self.now.annotations) }
    {
        written_names(alloc, self.annotations.as_slice())
    }
}
