//! Which forms that only some programs have occur in a program. Where a form does not, a search for what may be wrong with it
//! need not be made.
ghost use Rattle.std.specs.Prelude.{◌≡◌, ◌++◌, IfOk, OnOk, map, true};
ghost use Rattle.std.specs.List.{list_any};
ghost use Rattle.oxt_check.specs.Occurring.{blocks_among, form_kinds, forms_of, has_block, has_block_among, has_class, has_jsx, is_form, listed_form, listed_forms, makes_names, names_elements, occurring, occurs};
ghost use Rattle.oxt_check.specs.declared.survey.Form.{Form};
ghost use Rattle.oxt_enum_checks.specs.Blocks.{blocks_of};
ghost use Rattle.oxt_enum_checks.specs.Places.{places_in, places_of};
ghost use Rattle.oxt_grammar.specs.Places.{same_kind};
ghost use Rattle.oxt_search.specs.All.{given};
ghost use Rattle.oxt_tree.specs.View.{docs_in, node_doc};

use oxt_enum_checks::blocks::{Block, own_block};
use oxt_enum_checks::places::Places;
use oxt_grammar::holds::Row;
use oxt_grammar::kind::Kind;
use oxt_names::ids::OutOfMemory;
use oxt_search::all::all_in;
use oxt_search::search::{Inside, Search, Visit};
use oxt_tree::tree::Node;
use std::alloc::Global;

/// A node of a kind that only some programs have.
#[derive(Clone, Copy)]
pub struct Form {
    /// Its kind.
    pub kind: Kind,
    /// The block of an enum or a namespace that it is.
    pub block: Option<Block>,
}

/// A program, and those of its nodes that only some programs have.
#[derive(Drop)]
pub struct Survey<'a> {
    /// The program.
    pub program: &'a Node,
    /// Their kinds.
    pub kinds: Vec<Kind>,
    /// The blocks of enums and namespaces among them.
    pub blocks: Vec<Block>,
    /// The declarations of the program's names, if such a block occurs.
    pub places: Places,
    ghost complete: { kinds.items ≡ occurring (node_doc program.now) },
    ghost named: { blocks.items ≡ blocks_of (node_doc program.now) },
    ghost placed: { has_block (node_doc program.now) ≡ true → places_in places ≡ places_of (node_doc program.now) },
}

impl<'a> Survey<'a> {
    /// That of the program.
    ///
    /// # Errors
    ///
    /// Fails only where memory runs out.
    #[tactic(auto, using(oxt_search::proofs::Given::as_it_is))]
    pub fn of(alloc: Global, program: &'a Node) -> Result<Survey<'a>, OutOfMemory>
        ensures { IfOk result (λ survey. node_doc survey.program.now ≡ node_doc program.now) }
    {
        let forms = all_in(alloc, &Forms, program, ())?;
        Survey::with(alloc, program, forms.as_slice())
    }

    /// That of the program in which these forms occur.
    fn with(alloc: Global, program: &'a Node, forms: &[Form]) -> Result<Survey<'a>, OutOfMemory>
        requires { forms.now ≡ forms_of (node_doc program.now) }
        ensures { IfOk result (λ survey. node_doc survey.program.now ≡ node_doc program.now) }
    {
        let kinds = kinds_among(alloc, forms)?;
        let blocks = blocks_among(alloc, forms)?;
        let places = places_of(alloc, program, kinds.as_slice())?;
        Ok(Survey {
            program,
            kinds,
            blocks,
            places,
        })
    }

    /// Whether a node of the kind, which is one of such forms, occurs.
    pub fn has(&self, kind: Kind) -> bool
        ensures { result ≡ occurs (node_doc self.now.program.now) kind }
    {
        is_among(self.kinds.as_slice(), kind)
    }

    /// Whether a form occurs for which a free name is made without decorators.
    pub fn makes_names(&self) -> bool
        ensures { result ≡ makes_names (node_doc self.now.program.now) }
    {
        self.has(Kind::TSExportAssignment)
            || (self.has(Kind::TSImportEqualsDeclaration) || self.has(Kind::AccessorProperty))
    }

    /// Whether a class occurs, or what may be a field of one.
    pub fn has_class(&self) -> bool
        ensures { result ≡ has_class (node_doc self.now.program.now) }
    {
        (self.has(Kind::ClassDeclaration) || self.has(Kind::ClassExpression))
            || (self.has(Kind::PropertyDefinition) || self.has(Kind::AccessorProperty))
    }

    /// Whether a block of an enum or a namespace occurs.
    pub fn has_block(&self) -> bool
        ensures { result ≡ has_block (node_doc self.now.program.now) }
    {
        self.has(Kind::TSEnumDeclaration) || self.has(Kind::TSNamespaceDeclaration)
    }

    /// Whether an element or a fragment of JSX occurs.
    pub fn has_jsx(&self) -> bool
        ensures { result ≡ has_jsx (node_doc self.now.program.now) }
    {
        self.has(Kind::JSXElement) || self.has(Kind::JSXFragment)
    }

    /// Whether something occurs in which the name of an element of JSX stands.
    pub fn names_elements(&self) -> bool
        ensures { result ≡ names_elements (node_doc self.now.program.now) }
    {
        self.has(Kind::JSXOpeningElement)
            || (self.has(Kind::JSXClosingElement) || self.has(Kind::JSXMemberExpression))
    }
}

/// The kinds of the forms.
#[tactic(auto, using(crate::proofs::Derived::kind_steps))]
fn kinds_among(alloc: Global, forms: &[Form]) -> Result<Vec<Kind>, OutOfMemory>
    ensures { IfOk result (λ kinds. kinds.items ≡ map (λ form. form.kind) forms.now) }
{
    let mut kinds = Vec::new(alloc);
    for form in forms {
        kinds.push(form.kind)?;
    }
    Ok(kinds)
}

/// The blocks among the forms.
#[tactic(auto, using(crate::proofs::Derived::block_steps))]
fn blocks_among(alloc: Global, forms: &[Form]) -> Result<Vec<Block>, OutOfMemory>
    ensures { IfOk result (λ blocks. blocks.items ≡ blocks_among forms.now) }
{
    let mut blocks = Vec::new(alloc);
    for form in forms {
        push_block(form.block, &mut blocks)?;
    }
    Ok(blocks)
}

/// Appends the block, if there is one.
fn push_block(block: Option<Block>, blocks: &mut Vec<Block>) -> Result<(), OutOfMemory>
    ensures { OnOk result (blocks.new.items ≡ blocks.old.items ++ given block) }
{
    if let Some(block) = block {
        blocks.push(block)?;
    }
    Ok(())
}

/// The declarations of the names of the program, in which such nodes of these kinds occur; none if no block is among them.
fn places_of(alloc: Global, program: &Node, kinds: &[Kind]) -> Result<Places, OutOfMemory>
    requires { kinds.now ≡ occurring (node_doc program.now) }
    ensures { IfOk result
        (λ places. has_block (node_doc program.now) ≡ true → places_in places ≡ places_of (node_doc program.now)) }
{
    if !has_block_among(kinds) {
        return Ok(Places::none(alloc));
    }
    let places = Places::of_tree(alloc, program)?;
    Ok(places)
}

/// Whether that of a block is among these kinds.
fn has_block_among(kinds: &[Kind]) -> bool
    ensures { result ≡ has_block_among kinds.now }
{
    is_among(kinds, Kind::TSEnumDeclaration) || is_among(kinds, Kind::TSNamespaceDeclaration)
}

/// Whether the kind is among these.
fn is_among(kinds: &[Kind], kind: Kind) -> bool
    ensures { result ≡ list_any (λ own. same_kind own kind) kinds.now }
{
    kinds.iter().any(|own| own.is(kind))
}

/// The search for nodes of such forms.
#[derive(Clone, Copy)]
struct Forms;

impl Search for Forms {
    type State = ();

    type Found = Form;

    ghost Seen = { Form };

    ghost view = { λ form. form };

    ghost sought = { λ _. listed_forms };

    #[tactic(auto, using(oxt_search::proofs::Given::as_it_is))]
    fn visit(&self, node: &Node, _state: ()) -> Visit<Form, ()> {
        Visit {
            found: form_of(node),
            inside: Inside::Alike(()),
        }
    }

    fn in_field(&self, _state: (), _kind: Kind, _row: &Row) -> Option<()> {
        Some(())
    }
}

/// The node, if only some programs have nodes of its kind.
fn form_of(node: &Node) -> Option<Form>
    ensures { result ≡ listed_form node.now.kind node.now.id.0 (docs_in node.now.parts.items) }
{
    if is_form(node.kind) {
        Some(Form {
            kind: node.kind,
            block: own_block(node),
        })
    } else {
        None
    }
}

/// Whether only some programs have nodes of the kind.
fn is_form(kind: Kind) -> bool
    ensures { result ≡ is_form kind }
{
    form_kinds().iter().any(|other| kind.is(*other))
}

/// The kinds of which only some programs have nodes.
fn form_kinds() -> &'static [Kind]
    ensures { result.now ≡ form_kinds }
{
    &[
        Kind::TSEnumMember,
        Kind::TSModuleBlock,
        Kind::TSImportEqualsDeclaration,
        Kind::TSExportAssignment,
        Kind::AccessorProperty,
        Kind::PropertyDefinition,
        Kind::ClassDeclaration,
        Kind::ClassExpression,
        Kind::TSEnumDeclaration,
        Kind::TSNamespaceDeclaration,
        Kind::JSXElement,
        Kind::JSXFragment,
        Kind::JSXOpeningElement,
        Kind::JSXClosingElement,
        Kind::JSXMemberExpression,
    ]
}
