//! Whether what a declaration says is there at run time.
ghost use Rattle.std.specs.Prelude.{◌≡◌, codes, false};
ghost use Rattle.std.specs.List.{list_any};
ghost use Rattle.oxt_grammar.specs.Places.{same_kind};
ghost use Rattle.oxt_tree.specs.Fields.{is_kind, is_set, is_text, named};
ghost use Rattle.oxt_tree.specs.Syntax.{erased_kinds, is_erased_kind, lacks_body};
ghost use Rattle.oxt_tree.specs.View.{docs_in};
ghost use Rattle.oxt_declares.specs.TypesAlone.{is_of_types};
ghost use Rattle.oxt_scopes.specs.Signs.{StaysEmitted, is_asked, is_sign};
ghost use Rattle.oxt_scopes.specs.Standings.{around_of, declares_alone, emission_in, is_erased_alone, is_erased_by, joined, keeps_decorators, of_program, own_emission, standing_in};

use oxt_declares::role::Role;
use oxt_declares::role_of::role_of;
use oxt_declares::types_alone::is_of_types;
use oxt_grammar::field::Field;
use oxt_grammar::holds::Row;
use oxt_grammar::kind::Kind;
use oxt_tree::tree::Node;

/// What becomes of a declaration.
#[derive(Clone, Copy)]
pub enum Emission {
    /// It is there at run time.
    Emitted,
    /// It is erased.
    Erased,
    /// It is erased, since it says `declare` or stands in one that does.
    Ambient,
    /// The same, of a field whose decorators outlive it.
    Declared,
}

/// Whether a declaration is there at run time.
#[derive(Clone, Copy)]
pub struct Standing {
    /// What becomes of it.
    pub emission: Emission,
    /// Whether decorators have their older meaning, so that those of a field that is only declared outlive it.
    pub legacy: bool,
}

impl Standing {
    /// The standing of a program.
    pub fn of_program(legacy: bool) -> Standing
        ensures { result ≡ of_program legacy }
    {
        Standing {
            emission: Emission::Emitted,
            legacy,
        }
    }

    /// The standing of the node, which stands in what has this one.
    pub fn within(self, node: &Node) -> Standing
        ensures { result ≡ standing_in self node.now.kind (docs_in node.now.parts.items) }
    {
        Standing {
            emission: emission_in(self, node),
            legacy: self.legacy,
        }
    }
}

/// What becomes of the node in what has that standing.
fn emission_in(standing: Standing, node: &Node) -> Emission
    ensures { result ≡ emission_in standing node.now.kind (docs_in node.now.parts.items) }
{
    joined(
        around_of(standing.emission, node.kind),
        own_emission(standing.legacy, node),
    )
}

/// What becomes of what is around a node of that kind, as far as the node goes with it: a decorator outlives its field.
fn around_of(around: Emission, kind: Kind) -> Emission
    ensures { result ≡ around_of around kind }
{
    match around {
        Emission::Declared if kind.is(Kind::Decorator) => Emission::Emitted,
        _ => around,
    }
}

/// What becomes of what stands in two that become of that.
fn joined(around: Emission, own: Emission) -> Emission
    ensures { result ≡ joined around own }
{
    match around {
        Emission::Emitted => own,
        Emission::Erased => match own {
            Emission::Erased => Emission::Erased,
            Emission::Emitted => Emission::Erased,
            _ => Emission::Ambient,
        },
        _ => Emission::Ambient,
    }
}

/// What becomes of the node by itself.
fn own_emission(legacy: bool, node: &Node) -> Emission
    ensures { result ≡ own_emission legacy node.now.kind (docs_in node.now.parts.items) }
{
    if !may_be_erased(node.kind) {
        return Emission::Emitted;
    }
    if keeps_decorators(legacy, node) {
        return Emission::Declared;
    }
    if declares_alone(node) {
        return Emission::Ambient;
    }
    if is_erased_alone(node) {
        return Emission::Erased;
    }
    Emission::Emitted
}

/// Whether it is a field that is only declared, and its decorators outlive it.
fn keeps_decorators(legacy: bool, node: &Node) -> bool
    ensures { result ≡ keeps_decorators legacy node.now.kind (docs_in node.now.parts.items) }
{
    legacy && (node.kind.is(Kind::PropertyDefinition) && node.flag(Field::Declare))
}

/// Whether a node of the kind may be erased by itself. Most kinds never are, which one look at their rows tells.
fn may_be_erased(kind: Kind) -> bool
    ensures { result ≡ false → StaysEmitted kind }
{
    is_erased_kind(kind) || (is_asked(role_of(kind)) || has_sign(kind.rows()))
}

/// Whether nodes of the role are asked what they hold.
fn is_asked(role: Role) -> bool
    ensures { result ≡ is_asked role }
{
    match role {
        Role::Namespace => true,
        Role::Program => true,
        _ => false,
    }
}

/// Whether one of the rows is of a field by which nodes are erased.
fn has_sign(rows: &[Row]) -> bool
    ensures { result ≡ list_any (λ row. is_sign row.field) rows.now }
{
    rows.iter().any(|row| is_sign(row))
}

/// Whether the field of the row may say that its node is erased.
fn is_sign(row: &Row) -> bool
    ensures { result ≡ is_sign row.now.field }
{
    row.is(Field::Declare)
        || (row.is(Field::ImportKind) || (row.is(Field::ExportKind) || row.is(Field::Value)))
}

/// Whether it is a declaration that says `declare`, or such a field.
fn declares_alone(node: &Node) -> bool
    ensures { result ≡ declares_alone node.now.kind (docs_in node.now.parts.items) }
{
    !node.kind.is(Kind::FunctionExpression)
        && (!node.kind.is(Kind::ClassExpression) && node.flag(Field::Declare))
}

/// Whether it is erased whatever stands around it.
fn is_erased_alone(node: &Node) -> bool
    ensures { result ≡ is_erased_alone node.now.kind (docs_in node.now.parts.items) }
{
    is_erased_kind(node.kind)
        || (node.is_type_only()
            || (node.holds_kind(Field::Value, Kind::TSEmptyBodyFunctionExpression)
                || is_erased_by(role_of(node.kind), node)))
}

/// Whether it is a namespace of types alone, or a file of definitions.
fn is_erased_by(role: Role, node: &Node) -> bool
    ensures { result ≡ is_erased_by role node.now.kind (docs_in node.now.parts.items) }
{
    match role {
        Role::Namespace => match node.field(Field::Body) {
            Some(body) => is_of_types(body),
            None => false,
        },
        Role::Program => node.holds_text(Field::Lang, "dts"),
        _ => false,
    }
}

/// Whether nodes of the kind are erased whatever they hold.
fn is_erased_kind(kind: Kind) -> bool
    ensures { result ≡ is_erased_kind kind }
{
    is_one_of(kind, erased_kinds())
}

/// Whether the kind is one of the list.
fn is_one_of(kind: Kind, kinds: &[Kind]) -> bool
    ensures { result ≡ list_any (λ other. same_kind kind other) kinds.now }
{
    kinds.iter().any(|other| kind.is(*other))
}

/// The kinds whose nodes are erased whatever they hold.
fn erased_kinds() -> &'static [Kind]
    ensures { result.now ≡ erased_kinds }
{
    &[
        Kind::TSTypeAliasDeclaration,
        Kind::TSInterfaceDeclaration,
        Kind::TSGlobalDeclaration,
        Kind::TSExternalModuleDeclaration,
        Kind::TSNamespaceExportDeclaration,
        Kind::TSDeclareFunction,
        Kind::TSEmptyBodyFunctionExpression,
        Kind::TSAbstractMethodDefinition,
        Kind::TSAbstractPropertyDefinition,
        Kind::TSAbstractAccessorProperty,
        Kind::TSIndexSignature,
    ]
}
