//! What names mean, and which symbols they declare.
ghost use Rattle.std.specs.Prelude.{◌≡◌, ◌<◌, IfSome, length};
ghost use Rattle.oxt_inline.specs.Names.{meant_by, named_symbol};
ghost use Rattle.oxt_tree.specs.View.{doc_or_nil};

use oxt_grammar::kind::Kind;
use oxt_names::ids::SymbolId;
use oxt_scoping::scoping::Scoping;
use oxt_tree::tree::Part;

/// The symbol that the node there means, if it is a bare name.
pub fn meant_by(scoping: &Scoping, name: Option<&Part>) -> Option<SymbolId>
    ensures { result ≡ meant_by scoping.now (doc_or_nil name.entry) }
{
    match name {
        Some(Part::Node(node)) if node.kind.is(Kind::IdentifierReference) => {
            scoping.meaning_of(node.id)
        }
        _ => None,
    }
}

/// The symbol that the node there declares.
pub fn named_symbol(scoping: &Scoping, name: Option<&Part>) -> Option<SymbolId>
    ensures found { result ≡ named_symbol scoping.now (doc_or_nil name.entry) }
    ensures live { IfSome result (λ symbol. symbol.0 < length scoping.now.symbols) }
{
    match name {
        Some(Part::Node(node)) => scoping.symbol_of(node.id),
        _ => None,
    }
}
