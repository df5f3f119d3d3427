//! Names that are entered in the table, and the nodes that are names.
ghost use Rattle.std.specs.Prelude.{◌≡◌, ◌<◌, ◌+◌, IfOk, IfSome, OnErr, OnOk, length};
ghost use Rattle.oxt_tree.specs.Doc.{doc, no_docs, node, text};
ghost use Rattle.oxt_names.specs.Names.{name_bytes};
ghost use Rattle.oxt_tree.specs.View.{node_doc};
ghost use Rattle.oxt_ctx.specs.Made.{after, bound_anew, reference, used_anew};

use oxt_grammar::kind::Kind;
use oxt_names::flags::{ReferenceFlags, SymbolFlags};
use oxt_names::ids::{NodeId, NodeIds, OutOfMemory, ScopeId, Span, SymbolId};
use oxt_names::name::Name;
use oxt_scoping::scoping::Scoping;
use oxt_stores::bound::BoundIdentifier;
use oxt_tree::tree::{Node, Part};
use std::alloc::Global;

/// A node of which a name is the one field.
pub fn name_node(alloc: Global, kind: Kind, id: NodeId, name: &Name) -> Result<Node, OutOfMemory>
    ensures { IfOk result (λ made. node_doc made
        ≡ node kind id.0 0 0 (doc (text (name_bytes name.now)) no_docs)) }
{
    let mut parts = Vec::with_capacity(alloc, 1)?;
    parts.push(Part::Text(name.share()?))?;
    Ok(Node {
        kind,
        id,
        span: Span::NONE,
        parts,
    })
}

/// Makes a symbol that the scope binds the name to, declared by a fresh number.
pub fn bind_anew(
    scoping: &mut Scoping,
    ids: &mut NodeIds,
    name: &Name,
    scope: ScopeId,
    flags: SymbolFlags,
) -> Result<BoundIdentifier, OutOfMemory>
    requires { scope.0 < length scoping.old.scopes }
    ensures name { IfOk result (λ bound. name_bytes bound.name ≡ name_bytes name.now) }
    ensures symbol { IfOk result (λ bound. bound.symbol_id.0 ≡ length scoping.old.symbols) }
    ensures more { OnOk result (length scoping.new.symbols ≡ length scoping.old.symbols + 1) }
    ensures bound { OnOk result
        (scoping.new ≡ bound_anew (name_bytes name.now) scope flags ids.old scoping.old) }
    ensures used { OnOk result (ids.new ≡ after 1 ids.old) }
    ensures scopes_stay { length scoping.new.scopes ≡ length scoping.old.scopes }
    ensures unbound { OnErr result (scoping.new ≡ scoping.old) }
    ensures unused { OnErr result (ids.new ≡ ids.old) }
{
    let mut next = *ids;
    let node = next.fresh()?;
    let shared = name.share()?;
    let symbol_id = scoping.create_symbol(name, scope, flags, node)?;
    *ids = next;
    Ok(BoundIdentifier {
        name: shared,
        symbol_id,
    })
}

/// Makes a use of the name, which means the symbol.
pub fn use_anew(
    alloc: Global,
    scoping: &mut Scoping,
    ids: &mut NodeIds,
    name: &Name,
    symbol: Option<SymbolId>,
    flags: ReferenceFlags,
) -> Result<Node, OutOfMemory>
    requires { IfSome symbol (λ meant. meant.0 < length scoping.old.symbols) }
    ensures made { IfOk result (λ made. node_doc made ≡ reference ids.old.next (name_bytes name.now)) }
    ensures entered { OnOk result (scoping.new ≡ used_anew symbol flags ids.old scoping.old) }
    ensures symbols_stay { length scoping.new.symbols ≡ length scoping.old.symbols }
    ensures used { OnOk result (ids.new ≡ after 1 ids.old) }
    ensures scopes_stay { length scoping.new.scopes ≡ length scoping.old.scopes }
    ensures kept { OnErr result (scoping.new ≡ scoping.old) }
    ensures unused { OnErr result (ids.new ≡ ids.old) }
{
    let mut next = *ids;
    let node = next.fresh()?;
    let made = name_node(alloc, Kind::IdentifierReference, node, name)?;
    scoping.create_reference(node, symbol, flags)?;
    *ids = next;
    Ok(made)
}
