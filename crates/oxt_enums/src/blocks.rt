//! The blocks of the enums of a tree.
ghost use Rattle.std.specs.Prelude.{◌≡◌, ◌++◌, IfOk, OnOk};
ghost use Rattle.oxt_declares.specs.Declarations.{declared_view, declared_views};
ghost use Rattle.oxt_enums.specs.Blocks.{block_views, blocks_among, blocks_in, is_const, is_emitted, is_enum, own_block};
ghost use Rattle.oxt_scopes.specs.Scopes.{number_of};
ghost use Rattle.oxt_scopes.specs.Views.{opened_views};
ghost use Rattle.oxt_tree.specs.View.{doc_or_nil};

use oxt_declares::declaration::{Declaration, Sort};
use oxt_names::ids::{NodeId, OutOfMemory};
use oxt_scopes::scopes::OpenedScope;
use oxt_scopes::standing::{Emission, Standing};
use oxt_tree::tree::Part;
use std::alloc::Global;

/// A block of an enum.
#[derive(Clone, Copy)]
pub struct EnumBlock<'a> {
    /// The number of its body, which opens a scope.
    pub body: NodeId,
    /// The number of the scope that declares it.
    pub scope: NodeId,
    /// The name of the enum.
    pub name: &'a str,
    /// Whether it says `const`.
    pub is_const: bool,
    /// Whether it is there at run time.
    pub is_emitted: bool,
}

/// The blocks that the scopes declare, in their order; those of one enum in the order of the text.
///
/// # Errors
///
/// Fails only where memory runs out.
#[tactic(auto, using(crate::proofs::BlockLoops::scope_steps))]
pub fn blocks_of<'a>(
    alloc: Global,
    scopes: &[OpenedScope<'a>],
) -> Result<Vec<EnumBlock<'a>>, OutOfMemory>
    ensures { IfOk result (λ v. block_views v.items ≡ blocks_in (opened_views scopes.now)) }
{
    let mut out = Vec::new(alloc);
    for scope in scopes {
        push_declared(scope, &mut out)?;
    }
    Ok(out)
}

/// Appends the blocks that the scope declares.
#[tactic(auto, using(crate::proofs::BlockLoops::declared_steps))]
fn push_declared<'a>(
    scope: &OpenedScope<'a>,
    out: &mut Vec<EnumBlock<'a>>,
) -> Result<(), OutOfMemory>
    ensures { OnOk result (block_views out.new.items
        ≡ block_views out.old.items ++ blocks_among scope.now.number.0 scope.now.standing (declared_views scope.now.declarations.items)) }
{
    let number = scope.number;
    let standing = scope.standing;
    for declaration in scope.declarations.as_slice() {
        push_own(number, standing, declaration, out)?;
    }
    Ok(())
}

/// Appends the declaration in a scope of that standing, if it is a block of an enum.
#[tactic(auto, using(crate::proofs::BlockLoops::one_more))]
fn push_own<'a>(
    scope: NodeId,
    standing: Standing,
    declaration: &Declaration<'a>,
    out: &mut Vec<EnumBlock<'a>>,
) -> Result<(), OutOfMemory>
    ensures { OnOk result (block_views out.new.items
        ≡ block_views out.old.items ++ own_block scope.0 standing (declared_view declaration.now)) }
{
    if is_enum(declaration.sort) {
        out.push(EnumBlock {
            body: number_of(declaration.body),
            scope,
            name: declaration.name,
            is_const: is_const(declaration.sort),
            is_emitted: is_emitted(standing) && !declaration.is_ambient,
        })?;
    }
    Ok(())
}

fn is_enum(sort: Sort) -> bool
    ensures { result ≡ is_enum sort }
{
    match sort {
        Sort::Enum => true,
        Sort::ConstEnum => true,
        _ => false,
    }
}

fn is_const(sort: Sort) -> bool
    ensures { result ≡ is_const sort }
{
    match sort {
        Sort::ConstEnum => true,
        _ => false,
    }
}

fn is_emitted(standing: Standing) -> bool
    ensures { result ≡ is_emitted standing }
{
    match standing.emission {
        Emission::Emitted => true,
        _ => false,
    }
}

/// The number of the node, and 0 for anything else.
fn number_of(part: Option<&Part>) -> NodeId
    ensures { result.0 ≡ number_of (doc_or_nil part.entry) }
{
    match part {
        Some(Part::Node(node)) => node.id,
        _ => NodeId(0),
    }
}
