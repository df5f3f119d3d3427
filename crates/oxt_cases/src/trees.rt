//! The trees of a case, and the options under which they are read.

use anyhow::{Context, Result, bail};
use oxt_json::read_tree;
use oxt_options::options::{Module, TransformOptions};
use oxt_options::rewrite::parse_rewrite_import_extensions;
use oxt_tree::tree::Program;
use serde_json::Value;
use std::alloc::{AllocError, Global};

/// The tree of a case, and that of an output beside it.
#[derive(Drop)]
pub struct Trees {
    /// The tree.
    pub tree: Program,
    /// What changes its lowering.
    pub options: TransformOptions,
    /// The tree of an output.
    output: Option<Program>,
}

impl Trees {
    /// The tree alone that the bytes spell.
    ///
    /// # Errors
    ///
    /// One that says that it is no tree; or want of memory.
    pub fn from_bytes(alloc: Global, bytes: &[u8]) -> Result<Trees> {
        Ok(Trees {
            tree: tree_of_bytes(alloc, bytes)?,
            options: defaults(alloc)?,
            output: None,
        })
    }

    /// The `tree` of an object, its `output` if it has one, and its options.
    ///
    /// # Errors
    ///
    /// One that says that one of them is no tree, or that there is no such option; or want of memory.
    pub fn from_value(alloc: Global, value: &Value) -> Result<Trees> {
        let output = output_in(alloc, value)?;
        let tree = value.get("tree").context("there is no tree")?;
        Ok(Trees {
            tree: tree_of(alloc, tree)?,
            options: options_in(alloc, value)?,
            output,
        })
    }

    /// The tree of the output.
    ///
    /// # Errors
    ///
    /// One that says that there is none.
    pub fn output(&self) -> Result<&Program> {
        self.output.as_ref().context("there is no output")
    }
}

/// The options that an object has: `optimize` where the members of enums are inlined, `moves` where public fields
/// are set by assignment, `drops` where empty ones are removed, `module`, and `rewrite` for the names of modules.
fn options_in(alloc: Global, value: &Value) -> Result<TransformOptions> {
    let mut options = defaults(alloc)?;
    let optimizes = value.get("optimize").is_some();
    options.typescript.optimize_enums = optimizes;
    options.typescript.optimize_const_enums = optimizes;
    options.set_public_class_fields = value.get("moves").is_some();
    options.typescript.remove_class_fields_without_initializer = value.get("drops").is_some();
    if let Some(word) = value.get("module").and_then(Value::as_str) {
        options.module = module_named(word)?;
    }
    if let Some(word) = value.get("rewrite").and_then(Value::as_str) {
        let mode = parse_rewrite_import_extensions(word);
        options.typescript.rewrite_import_extensions = mode.context("there is no such mode")?;
    }
    Ok(options)
}

/// The options of a run without flags.
fn defaults(alloc: Global) -> Result<TransformOptions, AllocError> {
    TransformOptions::defaults(alloc).map_err(|_| AllocError)
}

/// The module system of that name.
fn module_named(word: &str) -> Result<Module> {
    match word {
        "preserve" => Ok(Module::Preserve),
        "esm" => Ok(Module::Esm),
        "commonjs" => Ok(Module::CommonJs),
        _ => bail!("there is no such module system"),
    }
}

/// The output in an object.
fn output_in(alloc: Global, value: &Value) -> Result<Option<Program>> {
    match value.get("output") {
        Some(output) => Ok(Some(tree_of(alloc, output)?)),
        None => Ok(None),
    }
}

/// The tree that the value spells.
fn tree_of(alloc: Global, value: &Value) -> Result<Program> {
    let bytes = value.to_vec(alloc)?;
    tree_of_bytes(alloc, bytes.as_slice())
}

/// The tree that the bytes spell.
fn tree_of_bytes(alloc: Global, bytes: &[u8]) -> Result<Program> {
    match read_tree(alloc, bytes) {
        Ok(program) => Ok(program),
        Err(_) => bail!("this is no tree"),
    }
}
