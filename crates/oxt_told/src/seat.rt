//! Where nodes stand in namespaces.
ghost use Rattle.std.specs.Prelude.{◌≡◌};
ghost use Rattle.oxt_told.specs.Namespaces.{in_block, in_export, seat_inside};

use oxt_grammar::kind::Kind;

/// Where a node stands.
#[derive(Clone, Copy)]
pub enum Seat {
    /// In no block of a namespace, or deeper in one than is said below.
    Elsewhere,
    /// It is the body of the block of a namespace of that number, or what that block exports.
    Under(u64),
    /// It is a statement of that block.
    Block(u64),
}

impl Seat {
    /// Where the parts stand of a node of that kind and number that stands here.
    pub fn inside(self, kind: Kind, node: u64) -> Seat
        ensures { result ≡ seat_inside self kind node }
    {
        if kind.is(Kind::TSNamespaceDeclaration) {
            Seat::Under(node)
        } else if kind.is(Kind::TSModuleBlock) {
            self.in_block()
        } else if kind.is(Kind::ExportDeclaration) {
            self.in_export()
        } else {
            Seat::Elsewhere
        }
    }

    /// Where the statements of a module's block stand that stands here.
    fn in_block(self) -> Seat
        ensures { result ≡ in_block self }
    {
        match self {
            Seat::Under(block) => Seat::Block(block),
            _ => Seat::Elsewhere,
        }
    }

    /// Where what an export holds stands that stands here.
    fn in_export(self) -> Seat
        ensures { result ≡ in_export self }
    {
        match self {
            Seat::Block(block) => Seat::Under(block),
            _ => Seat::Elsewhere,
        }
    }
}
