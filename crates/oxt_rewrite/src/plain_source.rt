//! Programs that are plain JavaScript already.
ghost use Rattle.std.specs.Prelude.{◌≡◌};
ghost use Rattle.std.specs.List.{list_any};
ghost use Rattle.oxt_options.specs.Options.{transform_view};
ghost use Rattle.oxt_rewrite.specs.Places.{with_field};
ghost use Rattle.oxt_rewrite.specs.Plain.{as_javascript, has_empty_import, is_common_js, is_empty_import, is_left_alone, is_plain_source, leaves_javascript};
ghost use Rattle.oxt_tree.specs.Fields.{is_empty_list};
ghost use Rattle.oxt_tree.specs.View.{doc_or_nil, node_doc, part_doc};
ghost use Rattle.oxt_grammar.specs.Keys.{key_of};

use oxt_grammar::field::Field;
use oxt_grammar::kind::Kind;
use oxt_grammar::word::Word;
use oxt_options::{Module, TransformOptions};
use oxt_tree::fields::place_of;
use oxt_tree::tree::{Node, Part};
use oxt_valid::plain::is_plain;

/// Whether nothing is to be done to the program under the options, but to say that it is JavaScript.
pub(crate) fn is_left_alone(options: &TransformOptions, program: &Node) -> bool
    ensures { result ≡ is_left_alone (transform_view options.now) (node_doc program.now) }
{
    leaves_javascript(options) && is_plain_source(program)
}

/// Whether the options change nothing in JavaScript.
fn leaves_javascript(options: &TransformOptions) -> bool
    ensures { result ≡ leaves_javascript (transform_view options.now) }
{
    options.typescript.only_remove_type_imports
        && (!is_common_js(options.module)
            && (options.typescript.rewrite_import_extensions.is_none()
                && (!options.decorator.legacy
                    && (!options.set_public_class_fields
                        && (options.typescript.allow_declare_fields
                            && !options.typescript.remove_class_fields_without_initializer)))))
}

/// Whether the module system is CommonJS.
fn is_common_js(system: Module) -> bool
    ensures { result ≡ is_common_js system }
{
    match system {
        Module::CommonJs => true,
        _ => false,
    }
}

/// Whether the program has no TypeScript, is no file of definitions, and has no import with an empty list in braces.
fn is_plain_source(program: &Node) -> bool
    ensures { result ≡ is_plain_source (node_doc program.now) }
{
    !program.is_definition_file() && (is_plain(program) && !has_empty_import(program))
}

/// Whether one of the statements is an import with an empty list in braces.
#[tactic(auto, using(oxt_tree::proofs::Lists::list_any_docs_in))]
fn has_empty_import(program: &Node) -> bool
    ensures { result ≡ has_empty_import (node_doc program.now) }
{
    any_empty_import(program.list(Field::Body))
}

/// Whether one of the statements is such an import.
fn any_empty_import(statements: &[Part]) -> bool
    ensures { result ≡ list_any (λ part. is_empty_import (part_doc part)) statements.now }
{
    statements.iter().any(|part| part_is_empty_import(part))
}

/// Whether the part is such an import.
fn part_is_empty_import(part: &Part) -> bool
    ensures { result ≡ is_empty_import (part_doc part.now) }
{
    match part {
        Part::Node(node) => is_empty_import(node),
        _ => false,
    }
}

/// Whether the node is such an import.
fn is_empty_import(node: &Node) -> bool
    ensures { result ≡ is_empty_import (node_doc node.now) }
{
    node.kind.is(Kind::ImportDeclaration) && holds_empty_list(node.field(Field::Specifiers))
}

/// Whether there is an empty list.
fn holds_empty_list(part: Option<&Part>) -> bool
    ensures { result ≡ is_empty_list (doc_or_nil part.entry) }
{
    match part {
        Some(part) => is_empty_list(part),
        None => false,
    }
}

/// Whether the part is a list without elements.
fn is_empty_list(part: &Part) -> bool
    ensures { result ≡ is_empty_list (part_doc part.now) }
{
    match part {
        Part::List(parts) => parts.first().is_none(),
        _ => false,
    }
}

/// Says that the program is one of JavaScript.
pub(crate) fn say_javascript(program: &mut Node)
    ensures { node_doc program.new ≡ as_javascript (node_doc program.old) }
{
    put_field(program, Field::Lang, Part::Word(Word::Js));
}

/// Puts the part into the field of that name, if the node has such a field.
fn put_field(node: &mut Node, field: Field, part: Part)
    ensures { node_doc node.new ≡ with_field (key_of field) (part_doc part) (node_doc node.old) }
{
    if let Some(place) = place_of(node.kind.rows(), field) {
        if place < node.parts.len() {
            node.parts[place] = part;
        }
    }
}
