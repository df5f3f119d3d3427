//! Where the declarations stand of which diagnostics tell.
ghost use Rattle.std.specs.Prelude.{◌≡◌};
ghost use Rattle.oxt_check.specs.Seats.{body_of, declarators_of, exported, is_item, items_of, seat_inside};
ghost use Rattle.oxt_tree.specs.View.{docs_in};

use oxt_grammar::field::Field;
use oxt_grammar::kind::Kind;
use oxt_tree::tree::Node;

/// Where a node stands, as far as diagnostics of namespaces ask.
#[derive(Clone, Copy)]
pub enum Seat {
    /// A statement of the program.
    Top,
    /// What an export there declares.
    ExportedTop,
    /// A statement of a namespace that emits code.
    Item,
    /// What an export there declares.
    ExportedItem,
    /// The body of such a namespace.
    Body,
    /// A declarator of variables that such a namespace exports and that may change.
    Declarator,
    /// Anything else.
    Elsewhere,
}

impl Seat {
    /// Whether it is that of a statement of the program or of a namespace, or of what an export there declares.
    pub fn is_item(self) -> bool
        ensures { result ≡ is_item self }
    {
        match self {
            Seat::Top => true,
            Seat::ExportedTop => true,
            Seat::Item => true,
            Seat::ExportedItem => true,
            _ => false,
        }
    }

    /// Where what the node holds stands, which is no erased code and stands there itself.
    pub fn inside(self, node: &Node) -> Seat
        ensures { result ≡ seat_inside self node.now.kind (docs_in node.now.parts.items) }
    {
        match node.kind {
            Kind::Program => Seat::Top,
            Kind::ExportDeclaration => self.exported(),
            Kind::TSNamespaceDeclaration => self.body(),
            Kind::TSModuleBlock => self.items(),
            Kind::VariableDeclaration => self.declarators(node),
            _ => Seat::Elsewhere,
        }
    }

    /// Where what an export declares stands.
    fn exported(self) -> Seat
        ensures { result ≡ exported self }
    {
        match self {
            Seat::Top => Seat::ExportedTop,
            Seat::Item => Seat::ExportedItem,
            _ => Seat::Elsewhere,
        }
    }

    /// Where the body of a namespace stands.
    fn body(self) -> Seat
        ensures { result ≡ body_of self }
    {
        match self {
            Seat::Elsewhere => Seat::Elsewhere,
            Seat::Declarator => Seat::Elsewhere,
            _ => Seat::Body,
        }
    }

    /// Where the statements of a block stand.
    fn items(self) -> Seat
        ensures { result ≡ items_of self }
    {
        match self {
            Seat::Body => Seat::Item,
            _ => Seat::Elsewhere,
        }
    }

    /// Where the declarators of these variables stand.
    fn declarators(self, variables: &Node) -> Seat
        ensures { result ≡ declarators_of self variables.now.kind (docs_in variables.now.parts.items) }
    {
        match self {
            Seat::ExportedItem => {
                if variables.holds_text(Field::Kind, "const") {
                    Seat::Elsewhere
                } else {
                    Seat::Declarator
                }
            }
            _ => Seat::Elsewhere,
        }
    }
}
