//! The declarations of names, by the numbers of the nodes that are the names.
ghost use Rattle.std.specs.Prelude.{◌≡◌, IfOk, None, nat_eq, ℕ};
ghost use Rattle.std.specs.Map.{lookup, update_all};
ghost use Rattle.oxt_enum_checks.specs.Places.{by_number, name_at, names_of, nowhere, own_name, placed_names, places_in, places_of, reach_of, within};
ghost use Rattle.oxt_enum_checks.specs.declared.places.PlacedName.{PlacedName};
ghost use Rattle.oxt_tree.specs.View.{node_doc};

use oxt_grammar::holds::Row;
use oxt_grammar::kind::Kind;
use oxt_names::ids::{NodeId, OutOfMemory};
use oxt_search::all::all_in;
use oxt_search::search::{Inside, Search, Visit};
use oxt_tree::tree::Node;
use std::alloc::Global;
use std::collections::HashMap;

/// The declaration of a name.
#[derive(Clone, Copy)]
pub struct Place {
    /// The node that declares it.
    pub declaration: NodeId,
    /// Whether that node is exported where it stands.
    pub is_exported: bool,
}

/// A name, and its declaration.
#[derive(Clone, Copy)]
pub struct PlacedName {
    /// The node that is the name.
    pub name: NodeId,
    /// Its declaration.
    pub place: Place,
}

/// What stands around a node.
#[derive(Clone, Copy)]
pub struct Around {
    /// The declaration whose names stand there; none where no names of a declaration do.
    pub declaration: Option<NodeId>,
    /// Whether what is declared there is exported.
    pub is_exported: bool,
}

/// What nodes of a kind are to the names in them.
#[derive(Clone, Copy)]
pub enum Reach {
    /// An export, which exports the declaration in it.
    Export,
    /// A declaration, which declares the names in it.
    Declaration,
    /// A part of what a declaration binds.
    Pattern,
    /// A name.
    Name,
    /// Anything else, in which no names of the declaration around it stand.
    Other,
}

/// The declarations of the names of a tree. Of two names of one number the last counts.
#[derive(Drop)]
pub struct Places {
    table: HashMap<u64, Place>,
}

impl Places {
    /// Those of a tree.
    #[tactic(auto, using(crate::proofs::Names::same_places))]
    pub fn of_tree(alloc: Global, program: &Node) -> Result<Places, OutOfMemory>
        ensures { IfOk result (λ made. places_in made ≡ places_of (node_doc program.now)) }
    {
        let names = names_of(alloc, program)?;
        let table = table_of(alloc, names)?;
        Ok(Places { table })
    }

    /// No declarations.
    pub fn none(alloc: Global) -> Places
        ensures { (n : ℕ) → places_in result n ≡ None }
    {
        Places {
            table: HashMap::new(alloc),
        }
    }

    /// The declaration of the name of that number.
    pub fn place_of(&self, name: NodeId) -> Option<Place>
        ensures { result ≡ places_in self.now name.0 }
    {
        self.table.get(&name.0).copied()
    }
}

/// The table of these names.
fn table_of(alloc: Global, names: Vec<PlacedName>) -> Result<HashMap<u64, Place>, OutOfMemory>
    ensures { IfOk result (λ table. (n : ℕ) → lookup (nat_eq n) table.entries ≡ update_all nat_eq (λ _. None) (by_number names.items) n) }
{
    Ok(
        names
            .into_iter()
            .map(|name| (name.name.0, name.place))
            .collect(alloc)?,
    )
}

/// Where no names of a declaration stand.
fn nowhere() -> Around
    ensures { result ≡ nowhere }
{
    Around {
        declaration: None,
        is_exported: false,
    }
}

/// The names in the program that declarations declare, with these.
#[tactic(auto, using(oxt_search::proofs::Given::as_it_is))]
fn names_of(alloc: Global, program: &Node) -> Result<Vec<PlacedName>, OutOfMemory>
    ensures { IfOk result (λ names. names.items ≡ names_of (node_doc program.now)) }
{
    all_in(alloc, &Names, program, nowhere())
}

/// The search for such names.
#[derive(Clone, Copy)]
struct Names;

impl Search for Names {
    type State = Around;

    type Found = PlacedName;

    ghost Seen = { PlacedName };

    ghost view = { λ name. name };

    ghost sought = { λ _. placed_names };

    #[tactic(auto, using(oxt_search::proofs::Given::as_it_is))]
    fn visit(&self, node: &Node, around: Around) -> Visit<PlacedName, Around> {
        let reach = reach_of(node.kind);
        Visit {
            found: own_name(reach, node.id, around),
            inside: Inside::Alike(within(reach, node.id, around)),
        }
    }

    fn in_field(&self, around: Around, _kind: Kind, _row: &Row) -> Option<Around> {
        Some(around)
    }
}

/// The node, if it is a name that a declaration declares.
fn own_name(reach: Reach, node: NodeId, around: Around) -> Option<PlacedName>
    ensures { result ≡ own_name reach node.0 around }
{
    match reach {
        Reach::Name => name_at(node, around),
        _ => None,
    }
}

/// The name, if a declaration declares it.
fn name_at(node: NodeId, around: Around) -> Option<PlacedName>
    ensures { result ≡ name_at node.0 around.declaration around.is_exported }
{
    let declaration = around.declaration?;
    Some(PlacedName {
        name: node,
        place: Place {
            declaration,
            is_exported: around.is_exported,
        },
    })
}

/// What stands around the parts of a node.
fn within(reach: Reach, node: NodeId, around: Around) -> Around
    ensures { result ≡ within reach node.0 around }
{
    match reach {
        Reach::Export => Around {
            declaration: None,
            is_exported: true,
        },
        Reach::Declaration => Around {
            declaration: Some(node),
            is_exported: around.is_exported,
        },
        Reach::Pattern => around,
        Reach::Name => nowhere(),
        Reach::Other => nowhere(),
    }
}

/// What nodes of the kind are to the names in them.
fn reach_of(kind: Kind) -> Reach
    ensures { result ≡ reach_of kind }
{
    match kind {
        Kind::ExportDeclaration => Reach::Export,
        Kind::VariableDeclaration => Reach::Declaration,
        Kind::FunctionDeclaration => Reach::Declaration,
        Kind::TSDeclareFunction => Reach::Declaration,
        Kind::ClassDeclaration => Reach::Declaration,
        Kind::TSTypeAliasDeclaration => Reach::Declaration,
        Kind::TSInterfaceDeclaration => Reach::Declaration,
        Kind::TSEnumDeclaration => Reach::Declaration,
        Kind::TSNamespaceDeclaration => Reach::Declaration,
        Kind::TSImportEqualsDeclaration => Reach::Declaration,
        Kind::FormalParameter => Reach::Declaration,
        Kind::FormalParameterRest => Reach::Declaration,
        Kind::CatchParameter => Reach::Declaration,
        Kind::ImportSpecifier => Reach::Declaration,
        Kind::ImportDefaultSpecifier => Reach::Declaration,
        Kind::ImportNamespaceSpecifier => Reach::Declaration,
        Kind::VariableDeclarator => Reach::Pattern,
        Kind::ObjectPattern => Reach::Pattern,
        Kind::ArrayPattern => Reach::Pattern,
        Kind::BindingProperty => Reach::Pattern,
        Kind::BindingRestElement => Reach::Pattern,
        Kind::AssignmentPattern => Reach::Pattern,
        Kind::BindingIdentifier => Reach::Name,
        _ => Reach::Other,
    }
}
