//! The flags whose value is a word of a list.
ghost use Rattle.std.specs.Prelude.{◌≡◌};
ghost use Rattle.clap.specs.Words.{first_of, found_of, rows_of};
ghost use Rattle.oxt_flags.specs.Choices.{chosen_extensions, chosen_module, module_written};

use crate::flags::{MODULE, REWRITE_EXTENSIONS};
use crate::matching::value_of;
use clap::ArgMatches;
use oxt_options::{Module, RewriteExtensionsMode, parse_rewrite_import_extensions};

// The module system that was chosen, or that of a run without flags; none where the word is none
// of the list.
pub(crate) fn chosen_module(matches: &ArgMatches<'_>) -> Option<Module>
    ensures { result ≡ chosen_module (first_of MODULE.now (rows_of (found_of matches.now))) }
{
    match value_of(matches, MODULE) {
        Some(word) => module_of(word),
        None => Some(Module::Preserve),
    }
}

// What becomes of TypeScript's extensions as was chosen, or as in a run without flags; none where
// the word is none of the list.
pub(crate) fn chosen_extensions(matches: &ArgMatches<'_>) -> Option<Option<RewriteExtensionsMode>>
    ensures { result ≡ chosen_extensions (first_of REWRITE_EXTENSIONS.now (rows_of (found_of matches.now))) }
{
    match value_of(matches, REWRITE_EXTENSIONS) {
        Some(word) => parse_rewrite_import_extensions(word),
        None => Some(None),
    }
}

// The module system that the word stands for.
fn module_of(word: &str) -> Option<Module>
    ensures { result ≡ module_written word.now }
{
    match word {
        "preserve" => Some(Module::Preserve),
        "esm" => Some(Module::Esm),
        "commonjs" => Some(Module::CommonJs),
        _ => None,
    }
}
