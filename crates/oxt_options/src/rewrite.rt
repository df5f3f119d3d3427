//! What becomes of TypeScript's extensions in the names of modules.
ghost use Rattle.std.specs.Prelude.{◌≡◌, ◌↔◌, IfOk, IsTrue, option_map};
ghost use Rattle.std.specs.List.{list_any};
ghost use Rattle.oxt_options.specs.Rewrite.{around_dot, extension_for, is_separator, renamed, rewrite_written, rewritten, with_extension};
ghost use Rattle.oxt_names.specs.Names.{name_bytes};

use oxt_names::ids::OutOfMemory;
use oxt_names::name::Name;
use std::alloc::Global;

/// What becomes of an extension of TypeScript in the name of a module.
#[derive(Clone, Copy, PartialEq, Eq)]
pub enum RewriteExtensionsMode {
    /// That of JavaScript takes its place.
    Rewrite,
    /// It is removed.
    Remove,
}

impl RewriteExtensionsMode {
    /// Whether extensions are removed.
    pub fn is_remove(self) -> bool
        ensures { IsTrue result ↔ (self ≡ RewriteExtensionsMode.Remove) }
    {
        matches!(self, RewriteExtensionsMode::Remove)
    }

    /// The name of a module after rewriting, if that changes it: where it holds a slash or a
    /// backslash, and what follows its last dot is an extension of TypeScript.
    ///
    /// # Errors
    ///
    /// Nothing but want of memory.
    pub fn rewritten(self, alloc: Global, text: &str) -> Result<Option<Name>, OutOfMemory>
        ensures { IfOk result (λ name. option_map name_bytes name ≡ rewritten self text.now) }
    {
        if has_separator(text) {
            self.renamed(alloc, around_dot(text))
        } else {
            Ok(None)
        }
    }

    /// The parts of a name around its last dot put together anew, if the latter is an extension of
    /// TypeScript.
    fn renamed(
        self,
        alloc: Global,
        parts: Option<(&str, &str)>,
    ) -> Result<Option<Name>, OutOfMemory>
        ensures { IfOk result (λ name. option_map name_bytes name
            ≡ renamed self (option_map (λ p. (p.0.now, p.1.now)) parts.entry)) }
    {
        match parts {
            Some((stem, extension)) => match extension_for(extension) {
                Some(extension) => Ok(Some(self.with_extension(alloc, stem, extension)?)),
                None => Ok(None),
            },
            None => Ok(None),
        }
    }

    /// The text with the extension, or without one.
    fn with_extension(self, alloc: Global, stem: &str, extension: &str) -> Result<Name, OutOfMemory>
        ensures { IfOk result (λ name. name_bytes name ≡ with_extension self stem.now extension.now) }
    {
        match self {
            RewriteExtensionsMode::Rewrite => {
                let mut text = String::from_str(alloc, stem)?;
                text.push_str(extension)?;
                Name::from_string(text)
            }
            RewriteExtensionsMode::Remove => Name::new(alloc, stem),
        }
    }
}

/// The option that the word stands for: inside, none leaves extensions as they are; outside, the
/// word is none of those that are taken.
pub fn parse_rewrite_import_extensions(word: &str) -> Option<Option<RewriteExtensionsMode>>
    ensures { result ≡ rewrite_written word.now }
{
    match word {
        "true" | "rewrite" => Some(Some(RewriteExtensionsMode::Rewrite)),
        "remove" => Some(Some(RewriteExtensionsMode::Remove)),
        "false" => Some(None),
        _ => None,
    }
}

/// Whether the name of a module holds a slash or a backslash.
fn has_separator(text: &str) -> bool
    ensures { result ≡ list_any is_separator text.now }
{
    text.as_bytes()
        .iter()
        .any(|byte| *byte == b'/' || *byte == b'\\')
}

/// The parts of the text before and after its last dot, if it has one.
fn around_dot(text: &str) -> Option<(&str, &str)>
    ensures { option_map (λ p. (p.0.now, p.1.now)) result ≡ around_dot text.now }
{
    text.rsplit_once('.')
}

/// The extension of JavaScript, with its dot, for one of TypeScript; none where it is another.
fn extension_for(extension: &str) -> Option<&'static str>
    ensures { option_map (λ e. e.now) result ≡ extension_for extension.now }
{
    match extension {
        "ts" => Some(".js"),
        "tsx" => Some(".js"),
        "mts" => Some(".mjs"),
        "cts" => Some(".cjs"),
        _ => None,
    }
}
