//! The pass that rewrites the extensions of TypeScript in the names of modules.
//!
//! Before:
//!
//! ```ts
//! import { parse } from "./parse.ts";
//! export * from "./worker.mts";
//! const later = import(`../later.tsx`);
//! ```
//!
//! After, where they are rewritten:
//!
//! ```js
//! import { parse } from "./parse.js";
//! export * from "./worker.mjs";
//! const later = import(`../later.js`);
//! ```
ghost use Rattle.std.specs.Prelude.{◌≡◌, option_map};

use crate::parts::{field_mut, put_field};
use oxt_ctx::context::TraverseCtx;
use oxt_ctx::hook::Hook;
use oxt_ctx::pass::Pass;
use oxt_grammar::field::Field;
use oxt_grammar::kind::Kind;
use oxt_names::ids::OutOfMemory;
use oxt_options::{RewriteExtensionsMode, TypeScriptOptions};
use oxt_tree::tree::{Node, Part};
use std::alloc::Global;

/// The pass that rewrites the names of modules in imports and exports of values and in `import(..)`:
/// strings, and templates without substitutions.
#[derive(Clone, Copy)]
pub struct TypeScriptRewriteExtensions {
    /// What becomes of the extensions.
    pub mode: RewriteExtensionsMode,
}

impl TypeScriptRewriteExtensions {
    /// The pass with these options; none where they leave extensions as they are.
    pub fn new(options: &TypeScriptOptions) -> Option<TypeScriptRewriteExtensions>
        ensures { option_map (λ pass. pass.mode) result ≡ options.now.rewrite_import_extensions }
    {
        match options.rewrite_import_extensions {
            Some(mode) => Some(TypeScriptRewriteExtensions { mode }),
            None => None,
        }
    }

    /// Rewrites the name of a module that is a string. One that changes is no longer written as it was
    /// in the source.
    ///
    /// # Errors
    ///
    /// Nothing but want of memory.
    pub fn rewrite_extensions(self, alloc: Global, source: &mut Node) -> Result<(), OutOfMemory> {
        if self.rewrite_text(alloc, source, Field::Value)? {
            put_field(source, Field::Raw, Part::Nothing);
        }
        Ok(())
    }

    /// Rewrites the text that the field holds, and says whether that changed it.
    fn rewrite_text(
        self,
        alloc: Global,
        node: &mut Node,
        field: Field,
    ) -> Result<bool, OutOfMemory> {
        let rewritten = match node.text(field) {
            Some(text) => self.mode.rewritten(alloc, text)?,
            None => None,
        };
        match rewritten {
            Some(name) => {
                put_field(node, field, Part::Text(name));
                Ok(true)
            }
            None => Ok(false),
        }
    }

    /// Rewrites the name of the module that the node names, if it is of values.
    fn rewrite_source(self, node: &mut Node) -> Result<(), OutOfMemory> {
        if node.is_type_only() {
            return Ok(());
        }
        match field_mut(node, Field::Source) {
            Some(Part::Node(source)) => self.rewrite_specifier(source),
            _ => Ok(()),
        }
    }

    /// Rewrites the name of a module that is a string, or a template without substitutions.
    fn rewrite_specifier(self, source: &mut Node) -> Result<(), OutOfMemory> {
        if source.kind.is(Kind::StringLiteral) {
            self.rewrite_extensions(*source.parts.allocator(), source)
        } else if source.kind.is(Kind::TemplateLiteral)
            && source.list(Field::Expressions).is_empty()
        {
            self.rewrite_template(source)
        } else {
            Ok(())
        }
    }

    /// Rewrites the first piece of the template.
    fn rewrite_template(self, template: &mut Node) -> Result<(), OutOfMemory> {
        match field_mut(template, Field::Quasis) {
            Some(Part::List(pieces)) => match pieces.first_mut() {
                Some(Part::Node(piece)) => self.rewrite_piece(piece),
                _ => Ok(()),
            },
            _ => Ok(()),
        }
    }

    /// Rewrites the texts of the piece, each by itself.
    fn rewrite_piece(self, piece: &mut Node) -> Result<(), OutOfMemory> {
        let alloc = *piece.parts.allocator();
        self.rewrite_text(alloc, piece, Field::Raw)?;
        self.rewrite_text(alloc, piece, Field::Cooked)?;
        Ok(())
    }
}

impl Pass for TypeScriptRewriteExtensions {
    fn at_node(
        &mut self,
        hook: Hook,
        node: &mut Node,
        _ctx: &mut TraverseCtx,
    ) -> Result<(), OutOfMemory> {
        match hook {
            Hook::EnterImportDeclaration => self.rewrite_source(node),
            Hook::EnterExportFromDeclaration => self.rewrite_source(node),
            Hook::EnterExportAllDeclaration => self.rewrite_source(node),
            Hook::EnterImportExpression => self.rewrite_source(node),
            _ => Ok(()),
        }
    }

    fn at_statements(
        &mut self,
        _hook: Hook,
        _statements: &mut Vec<Part>,
        _ctx: &mut TraverseCtx,
    ) -> Result<(), OutOfMemory> {
        Ok(())
    }
}
