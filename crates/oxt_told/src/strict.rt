//! Whether a program is told to be strict.
ghost use Rattle.std.specs.Prelude.{◌≡◌, OnOk};
ghost use Rattle.std.specs.List.{list_any};
ghost use Rattle.oxt_told.specs.Source.{all_told};
ghost use Rattle.oxt_told.specs.Strict.{is_common_js, is_strict, says_strict, strict_told};
ghost use Rattle.oxt_tree.specs.View.{docs_in, node_doc, part_doc};

use oxt_facts::told::{Told, ToldNodes};
use oxt_grammar::field::Field;
use oxt_names::ids::OutOfMemory;
use oxt_options::options::Module;
use oxt_tree::tree::{Node, Part};

/// Tells that the program is strict: under CommonJS, where no directive says so.
pub fn tell_strict(module: Module, program: &Node, told: &mut ToldNodes) -> Result<(), OutOfMemory>
    ensures { OnOk result (told.new ≡ all_told told.old (strict_told «module» (node_doc program.now))) }
{
    if is_common_js(module) && !says_strict(program) {
        told.tell(program.id, Told::Strict)
    } else {
        Ok(())
    }
}

/// Whether it is CommonJS.
fn is_common_js(module: Module) -> bool
    ensures { result ≡ is_common_js «module» }
{
    match module {
        Module::CommonJs => true,
        _ => false,
    }
}

/// Whether one of the directives that are left says that the program is strict.
#[tactic(auto, using(oxt_tree::proofs::Lists::list_any_docs_in))]
fn says_strict(program: &Node) -> bool
    ensures { result ≡ says_strict program.now.kind (docs_in program.now.parts.items) }
{
    !program.holds_text(Field::Lang, "dts") && has_strict(program.list(Field::Directives))
}

/// Whether one of the directives says so.
fn has_strict(directives: &[Part]) -> bool
    ensures { result ≡ list_any (λ directive. is_strict (part_doc directive)) directives.now }
{
    directives.iter().any(|directive| is_strict(directive))
}

/// Whether the directive says so.
fn is_strict(directive: &Part) -> bool
    ensures { result ≡ is_strict (part_doc directive.now) }
{
    match directive {
        Part::Node(node) => node.holds_text(Field::Value, "use strict"),
        _ => false,
    }
}
