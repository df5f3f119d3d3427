//! The options that the words of the command line say.
ghost use Rattle.std.specs.Prelude.{◌≡◌, IfOk, OnOk, map, take, option_map, unwrap_or, IsUtf8};
ghost use Rattle.std.specs.List.{All};
ghost use Rattle.clap.specs.Words.{first_of, found_of, rows_of};
ghost use Rattle.oxt_flags.specs.Flags.{given_by, options_with, parsed};
ghost use Rattle.oxt_flags.specs.Matching.{found_rows, options_for, options_in, is_used, is_words};
ghost use Rattle.oxt_options.specs.Options.{transform_view};
ghost use Rattle.oxt_names.specs.Names.{name_bytes};

use crate::choices::{chosen_extensions, chosen_module};
use crate::flags::{
    EMIT_DECORATOR_METADATA, JSX_PRAGMA, JSX_PRAGMA_FRAG, LEGACY, NO_DECLARE_FIELDS, NO_NAMESPACES,
    NO_STRICT_NULL_CHECKS, ONLY_REMOVE_TYPE_IMPORTS, OPTIMIZE_CONST_ENUMS, OPTIMIZE_ENUMS,
    REMOVE_EMPTY_FIELDS, SET_PUBLIC_CLASS_FIELDS,
};
use crate::matching::{matched, value_of};
use clap::ArgMatches;
use clap::parser::ValueSource;
use oxt_names::ids::OutOfMemory;
use oxt_names::name::Name;
use oxt_options::{Module, RewriteExtensionsMode, TransformOptions};
use std::alloc::Global;

/// The options that the words after the program's name say; none where the words are not taken.
///
/// Each word is a flag that was not given before, followed by its value where it takes one and
/// has no `=`. Such a value does not begin with a hyphen, unless it is one. `--` may stand last.
/// The value of `--module` is `preserve`, `esm` or `commonjs`; that of `--rewrite-extensions` is a
/// word that `parse_rewrite_import_extensions` takes.
pub fn options_of(alloc: Global, words: &[Name]) -> Result<Option<TransformOptions>, OutOfMemory>
    ensures { IfOk result (λ options. option_map transform_view options
        ≡ parsed (map name_bytes words.now)) }
{
    let texts = texts_of(alloc, words)?;
    options_of_texts(alloc, texts.as_slice())
}

fn texts_of(alloc: Global, words: &[Name]) -> Result<Vec<&str>, OutOfMemory>
    ensures same { IfOk result (λ texts. map (λ t. t.now) texts.items ≡ map name_bytes words.now) }
    ensures utf8 { IfOk result (λ texts. All (λ t. IsUtf8 t.now) texts.items) }
{
    let mut texts = Vec::new(alloc);
    for word in words {
        texts.push(word.as_str())?;
    }
    Ok(texts)
}

fn options_of_texts(alloc: Global, words: &[&str]) -> Result<Option<TransformOptions>, OutOfMemory>
    requires { All (λ w. IsUtf8 w.now) words.now }
    ensures { IfOk result (λ options. option_map transform_view options
        ≡ parsed (map (λ w. w.now) words.now)) }
{
    match matched(alloc, words)? {
        Some(matches) => options_from(alloc, &matches),
        None => Ok(None),
    }
}

// The options of a run without flags, with what was matched; none where a word is none of its list.
fn options_from(
    alloc: Global,
    matches: &ArgMatches<'_>,
) -> Result<Option<TransformOptions>, OutOfMemory>
    ensures { IfOk result (λ options. option_map transform_view options
        ≡ options_in (rows_of (found_of matches.now))) }
{
    match (chosen_module(matches), chosen_extensions(matches)) {
        (Some(module), Some(extensions)) => {
            Ok(Some(options_for(alloc, matches, module, extensions)?))
        }
        _ => Ok(None),
    }
}

// The same with what was chosen.
fn options_for(
    alloc: Global,
    matches: &ArgMatches<'_>,
    module: Module,
    extensions: Option<RewriteExtensionsMode>,
) -> Result<TransformOptions, OutOfMemory>
    ensures { IfOk result (λ options. transform_view options
        ≡ options_for (rows_of (found_of matches.now)) «module» extensions) }
{
    let mut options = TransformOptions::defaults(alloc)?;
    options.module = module;
    let decorator = &mut options.decorator;
    decorator.legacy = is_used(matches, LEGACY);
    decorator.emit_decorator_metadata = is_used(matches, EMIT_DECORATOR_METADATA);
    decorator.strict_null_checks = !is_used(matches, NO_STRICT_NULL_CHECKS);
    options.set_public_class_fields = is_used(matches, SET_PUBLIC_CLASS_FIELDS);
    let typescript = &mut options.typescript;
    set_text(alloc, matches, JSX_PRAGMA, &mut typescript.jsx_pragma)?;
    set_text(
        alloc,
        matches,
        JSX_PRAGMA_FRAG,
        &mut typescript.jsx_pragma_frag,
    )?;
    typescript.only_remove_type_imports = is_used(matches, ONLY_REMOVE_TYPE_IMPORTS);
    typescript.allow_namespaces = !is_used(matches, NO_NAMESPACES);
    typescript.allow_declare_fields = !is_used(matches, NO_DECLARE_FIELDS);
    typescript.remove_class_fields_without_initializer = is_used(matches, REMOVE_EMPTY_FIELDS);
    typescript.optimize_const_enums = is_used(matches, OPTIMIZE_CONST_ENUMS);
    typescript.optimize_enums = is_used(matches, OPTIMIZE_ENUMS);
    typescript.rewrite_import_extensions = extensions;
    Ok(options)
}

// Puts the value of the flag in the place of the text, where the flag was used.
fn set_text(
    alloc: Global,
    matches: &ArgMatches<'_>,
    flag: &str,
    text: &mut Name,
) -> Result<(), OutOfMemory>
    ensures { OnOk result (name_bytes text.new
        ≡ unwrap_or (first_of flag.now (rows_of (found_of matches.now))) (name_bytes text.old)) }
{
    if let Some(value) = value_of(matches, flag) {
        *text = Name::new(alloc, value)?;
    }
    Ok(())
}

// Whether the words use the flag.
fn is_used(matches: &ArgMatches<'_>, flag: &str) -> bool
    ensures { result ≡ is_used flag.now (rows_of (found_of matches.now)) }
{
    is_words(matches.value_source(flag))
}

// Whether a value came from the words, and not from a default.
fn is_words(source: Option<ValueSource>) -> bool
    ensures { result ≡ is_words source }
{
    match source {
        Some(ValueSource::CommandLine) => true,
        _ => false,
    }
}
