//! The settings of a program, which are no part of its effect word.
ghost use Rattle.std.specs.Prelude.{◌≡◌, IfOk, option_map};
ghost use Rattle.oxt_certificate.specs.Exports.{exports_left};
ghost use Rattle.oxt_certificate.specs.Settings.{differs, has_exports, has_language, is_decorated, is_javascript, is_script, settings_by, settings_view, wrong_setting};
ghost use Rattle.oxt_names.specs.Names.{name_bytes};
ghost use Rattle.oxt_tree.specs.View.{docs_in, node_doc};

use crate::decorators::has_decorator;
use crate::exports::{empty_exports, ends_in_export, same_spans};
use oxt_grammar::field::Field;
use oxt_names::ids::{OutOfMemory, Span};
use oxt_names::name::Name;
use oxt_tree::tree::{Node, Part};
use std::alloc::Global;

/// The settings that the output of a source is to have.
#[derive(Drop)]
pub struct Settings {
    /// It is a script, and no module.
    pub script: bool,
    /// It is a file of definitions.
    pub definitions: bool,
    /// Where the `export {}` statements of its body stand in the source text, in order.
    pub exports: Vec<Span>,
    /// One of them is to be its last statement.
    pub export_due: bool,
    /// No decorator is to be left.
    pub undecorated: bool,
}

impl Settings {
    /// Those of the output of that source, where an `export {}` is due in it or not, and where decorators are lowered
    /// or not.
    ///
    /// # Errors
    ///
    /// `OutOfMemory` for want of memory alone.
    pub fn of(
        alloc: Global,
        source: &Node,
        export_due: bool,
        undecorated: bool,
    ) -> Result<Settings, OutOfMemory>
        ensures { IfOk result (λ settings. settings_view settings
            ≡ settings_by export_due undecorated (node_doc source.now)) }
    {
        let exports = exports_left(alloc, source, export_due)?;
        Ok(Settings {
            script: is_script(source),
            definitions: source.is_definition_file(),
            exports,
            export_due,
            undecorated,
        })
    }
}

/// Where the `export {}` statements are to stand in the output of the source, where one is due or not.
fn exports_left(alloc: Global, source: &Node, due: bool) -> Result<Vec<Span>, OutOfMemory>
    ensures { IfOk result (λ spans. spans.items ≡ exports_left due (node_doc source.now)) }
{
    if source.is_definition_file() {
        return Ok(Vec::new(alloc));
    }
    let mut exports = empty_exports(alloc, source.list(Field::Body))?;
    if due {
        exports.push(Span::NONE)?;
    }
    Ok(exports)
}

/// The JSON pointer of the setting in which the lowered program is wrong.
pub(crate) fn wrong_setting(
    alloc: Global,
    settings: &Settings,
    output: &Node,
) -> Result<Option<Name>, OutOfMemory>
    ensures { IfOk result (λ place. option_map name_bytes place
        ≡ wrong_setting (settings_view settings.now) (node_doc output.now)) }
{
    if differs(settings.script, is_script(output)) {
        Ok(Some(Name::new(alloc, "/sourceType")?))
    } else if !has_language(settings.definitions, output) {
        Ok(Some(Name::new(alloc, "/lang")?))
    } else if has_exports(alloc, settings, output.list(Field::Body))?
        && !is_decorated(settings, output)
    {
        Ok(None)
    } else {
        Ok(Some(Name::new(alloc, "/body")?))
    }
}

/// Whether the program is a file of definitions where the source is one, and else JavaScript.
fn has_language(definitions: bool, output: &Node) -> bool
    ensures { result ≡ has_language definitions (node_doc output.now) }
{
    if definitions {
        output.is_definition_file()
    } else {
        is_javascript(output)
    }
}

/// Whether the `export {}` statements stand where they are to stand.
fn has_exports(alloc: Global, settings: &Settings, statements: &[Part]) -> Result<bool, OutOfMemory>
    ensures { IfOk result (λ has. has ≡ has_exports (settings_view settings.now) (docs_in statements.now)) }
{
    let exports = empty_exports(alloc, statements)?;
    Ok(
        same_spans(exports.as_slice(), settings.exports.as_slice())
            && (!settings.export_due || ends_in_export(statements)),
    )
}

/// Whether a decorator is left in the program, though none is to be.
fn is_decorated(settings: &Settings, output: &Node) -> bool
    ensures { result ≡ is_decorated (settings_view settings.now) (node_doc output.now) }
{
    settings.undecorated && has_decorator(output)
}

/// Whether the program is a script, and no module.
fn is_script(program: &Node) -> bool
    ensures { result ≡ is_script (node_doc program.now) }
{
    program.holds_text(Field::SourceType, "script")
}

/// Whether the program is one of JavaScript.
fn is_javascript(program: &Node) -> bool
    ensures { result ≡ is_javascript (node_doc program.now) }
{
    program.holds_text(Field::Lang, "js")
}

/// Whether just one of both holds.
fn differs(a: bool, b: bool) -> bool
    ensures { result ≡ differs a b }
{
    if a { !b } else { b }
}
