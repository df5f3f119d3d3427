//! The options of a run without flags, and what passes know of options.

use oxt_lines::lines::Lines;
use oxt_lines::stopped::Stopped;
use oxt_names::name::Name;
use oxt_options::options::{DecoratorOptions, Module, TransformOptions, TypeScriptOptions};
use oxt_options::rewrite::{RewriteExtensionsMode, parse_rewrite_import_extensions};
use oxt_options::state::TransformState;
use std::alloc::Global;

/// The defaults, the words for extensions, names of modules, and a state.
pub fn print_options(alloc: Global, lines: &mut Lines) -> Result<(), Stopped> {
    defaults(alloc, lines)?;
    for word in [
        "true", "rewrite", "remove", "false", "", "Remove", "Rewrite", "tru", "truer",
    ] {
        print_word(word, lines);
    }
    lines.answers(
        "is_remove of remove, of rewrite",
        &[
            RewriteExtensionsMode::Remove.is_remove(),
            RewriteExtensionsMode::Rewrite.is_remove(),
        ],
    );
    for text in SPECIFIERS {
        print_rewritten(alloc, text, lines)?;
    }
    state(alloc, lines)
}

/// Names of modules.
const SPECIFIERS: [&str; 10] = [
    "./a.d.ts", "./a.tsx", "./a.mts", "../a.cts", ".\\a.ts", "a.ts", "./a.json", "./a", "./a.tsa",
    "/.ts",
];

/// A line with what becomes of the name of a module.
fn print_rewritten(alloc: Global, text: &str, lines: &mut Lines) -> Result<(), Stopped> {
    let rewritten = RewriteExtensionsMode::Rewrite.rewritten(alloc, text)?;
    let removed = RewriteExtensionsMode::Remove.rewritten(alloc, text)?;
    lines.begin_of(
        "rewritten, as what is rewritten and what is removed, of",
        text,
    );
    lines.value(text_of(rewritten.as_ref()));
    lines.value(text_of(removed.as_ref()));
    lines.end();
    Ok(())
}

/// The text of a name, or a dash.
fn text_of(name: Option<&Name>) -> &str {
    match name {
        Some(name) => name.as_str(),
        None => "-",
    }
}

/// A line with what the word says.
fn print_word(word: &str, lines: &mut Lines) {
    lines.begin_of("parse_rewrite_import_extensions", word);
    lines.value(mode_name(parse_rewrite_import_extensions(word)));
    lines.end();
}

fn defaults(alloc: Global, lines: &mut Lines) -> Result<(), Stopped> {
    let options = TransformOptions::defaults(alloc)?;
    lines.text("module", module_name(options.module));
    lines.answers(
        "set_public_class_fields",
        &[options.set_public_class_fields],
    );
    print_typescript(&options.typescript, lines);
    print_decorator(options.decorator, lines);
    Ok(())
}

fn print_typescript(options: &TypeScriptOptions, lines: &mut Lines) {
    lines.text("jsx_pragma", options.jsx_pragma.as_str());
    lines.text("jsx_pragma_frag", options.jsx_pragma_frag.as_str());
    lines.answers(
        "only_remove_type_imports",
        &[options.only_remove_type_imports],
    );
    lines.answers("allow_namespaces", &[options.allow_namespaces]);
    lines.answers("allow_declare_fields", &[options.allow_declare_fields]);
    let removes = options.remove_class_fields_without_initializer;
    lines.answers("remove_class_fields_without_initializer", &[removes]);
    lines.answers("optimize_const_enums", &[options.optimize_const_enums]);
    lines.answers("optimize_enums", &[options.optimize_enums]);
    lines.text(
        "rewrite_import_extensions",
        mode_name(Some(options.rewrite_import_extensions)),
    );
}

fn print_decorator(options: DecoratorOptions, lines: &mut Lines) {
    lines.answers("legacy", &[options.legacy]);
    lines.answers(
        "emit_decorator_metadata",
        &[options.emit_decorator_metadata],
    );
    lines.answers("strict_null_checks", &[options.strict_null_checks]);
}

/// The name of the option that a word stands for.
fn mode_name(option: Option<Option<RewriteExtensionsMode>>) -> &'static str {
    match option {
        Some(Some(RewriteExtensionsMode::Rewrite)) => "rewrite",
        Some(Some(RewriteExtensionsMode::Remove)) => "remove",
        Some(None) => "none",
        None => "no such word",
    }
}

fn module_name(module: Module) -> &'static str {
    match module {
        Module::Preserve => "preserve",
        Module::Esm => "esm",
        Module::CommonJs => "commonjs",
    }
}

fn state(alloc: Global, lines: &mut Lines) -> Result<(), Stopped> {
    let mut options = TransformOptions::defaults(alloc)?;
    options.module = Module::CommonJs;
    options.set_public_class_fields = true;
    print_state(TransformState::new(&options, true), lines);
    Ok(())
}

fn print_state(state: TransformState, lines: &mut Lines) {
    lines.text(
        "state, with commonjs, of a definition file: module",
        module_name(state.module),
    );
    let flags = [
        state.set_public_class_fields,
        state.definition,
        state.is_class_properties_plugin_enabled,
    ];
    lines.answers(
        "its public fields, definition, other pass for class properties",
        &flags,
    );
}
