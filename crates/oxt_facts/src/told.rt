//! What is told of nodes of a source that are read otherwise than by the rules of their kinds.
ghost use Rattle.std.specs.Prelude.{◌≡◌, [], OnOk, option_map};
ghost use Rattle.std.specs.BTreeMap.{insert_entry};
ghost use Rattle.std.specs.Ordering.{nat_cmp};
ghost use Rattle.oxt_facts.specs.Told.{told_of, told_view};

use oxt_names::constant::ConstantValue;
use oxt_names::ids::{NodeId, OutOfMemory};
use oxt_names::name::Name;
use std::alloc::Global;
use std::collections::BTreeMap;
use std::marker::Model;

/// The value of a member of an enum.
#[derive(Drop)]
pub enum MemberValue {
    /// A constant.
    Constant(ConstantValue),
    /// One more than the member of that name, whose value is known when the code runs.
    Following(Name),
    /// What is written.
    Written,
}

/// What is told of a block of an enum.
#[derive(Drop)]
pub struct ToldBlock {
    /// The enum's name.
    pub name: Name,
    /// The group of that name.
    pub group: Option<u64>,
    /// The block's own number, by which the parameter of its function goes.
    pub node: u64,
    /// Whether nothing of its name emits code before it.
    pub is_first: bool,
    /// Whether the program's own scope declares it.
    pub is_top: bool,
    /// Whether its call has no effects of its own.
    pub is_pure: bool,
}

/// What is told of a member of an enum.
#[derive(Drop)]
pub struct ToldMember {
    /// The enum's name.
    pub owner: Name,
    /// The number of the block.
    pub block: u64,
    /// The member's name.
    pub name: Name,
    /// Its value.
    pub value: MemberValue,
    /// Whether it can be looked up by its value.
    pub is_reversed: bool,
}

/// What is told of a piece of a template: its texts, as they are written and as they are meant.
#[derive(Drop)]
pub struct ToldQuasi {
    pub raw: Option<Name>,
    pub cooked: Option<Name>,
}

/// What is told of a block of a namespace that becomes a function.
#[derive(Drop)]
pub struct ToldNamespace {
    /// The namespace's name.
    pub name: Name,
    /// The group of that name.
    pub group: Option<u64>,
    /// The tag of the function's parameter.
    pub tag: Name,
    /// The tag of the block that exports it, if one does.
    pub base: Option<Name>,
    /// Whether nothing of its name emits code before it.
    pub is_first: bool,
}

/// A name with its group.
#[derive(Drop)]
pub struct ToldName {
    pub name: Name,
    pub group: Option<u64>,
}

/// What is told of an export in a namespace.
#[derive(Drop)]
pub struct ToldExport {
    /// The tag of the block in which it stands.
    pub tag: Name,
    /// The names that are put on that block's object behind it.
    pub names: Vec<ToldName>,
}

/// What is told of a declarator that an export in a namespace holds.
#[derive(Drop)]
pub struct ToldStored {
    /// The tag of the block in which it stands.
    pub tag: Name,
    /// The name under which its value is put on that block's object.
    pub name: Name,
}

/// What is told of the body of a class that has parameter properties or fields that move into its constructor, whose alias is kept
/// in it, or whose elements are called in it.
#[derive(Drop)]
pub struct ToldClass {
    /// Whether its constructor puts more on the object than is written in it, or empty fields stand in front.
    pub gains: bool,
    /// The names of the empty fields that stand in front of its own.
    pub fields: Vec<Name>,
    /// The parameters that the constructor puts on the object.
    pub properties: Vec<ToldName>,
    /// How many of the constructor's statements stand before what is put.
    pub place: usize,
    /// Whether a constructor with a body stands in the source.
    pub has_constructor: bool,
    /// Whether the class extends another.
    pub is_derived: bool,
    /// The tag by which the class is kept in front of its static parts, if it is.
    pub alias: Option<Name>,
    /// Whether its last static part calls the decorators of its elements.
    pub has_calls: bool,
}

/// By what name something is called: a name of the source, or a made one by its tag.
#[derive(Drop)]
pub enum ToldUse {
    Name(ToldName),
    Made(Name),
}

/// What is told of a name of the source that metadata writes for a type.
#[derive(Drop)]
pub struct ToldReference {
    /// The node that is the first name in it.
    pub root: NodeId,
    /// That name.
    pub name: Name,
    /// The names behind it.
    pub path: Vec<Name>,
}

/// What is told of a type that metadata writes.
#[derive(Drop)]
pub enum ToldType {
    /// A global name.
    Global(Name),
    /// `void 0`.
    Undefined,
    /// A name of the source.
    Reference(ToldReference),
}

/// What is told of the metadata of a class or of an element of it.
#[derive(Drop)]
pub struct ToldMetadata {
    /// The type of the element itself, if that is written.
    pub design: Option<ToldType>,
    /// The types of the parameters, if these are written.
    pub parameters: Option<Vec<ToldType>>,
    /// The type of what is returned, if that is written.
    pub returned: Option<ToldType>,
}

/// What is told of the call that an element of a class gives.
#[derive(Drop)]
pub struct ToldCall {
    /// The class.
    pub class: ToldUse,
    /// Whether the element is one of the class itself.
    pub is_static: bool,
    /// Whether its name is private.
    pub is_private: bool,
    /// Whether it is a field.
    pub is_field: bool,
    /// The tag by which the value of its key is kept, if it is.
    pub tag: Option<Name>,
    /// The metadata in it.
    pub metadata: ToldMetadata,
}

/// What is told of an element of a class that gives a call.
#[derive(Drop)]
pub struct ToldElement {
    /// The call.
    pub call: ToldCall,
    /// Whether the element itself stays.
    pub stays: bool,
}

/// What is told of a field whose value is put where it moves to.
#[derive(Drop)]
pub struct ToldField {
    /// Whether it is put on the class, in a static block.
    pub is_static: bool,
    /// Whether the field itself stays, without its value.
    pub stays: bool,
    /// The tag by which the value of its key is kept, if it is.
    pub tag: Option<Name>,
    /// The call that it gives, if it gives one.
    pub call: Option<ToldCall>,
    /// Whether its key is read behind the one in which the class is kept.
    pub is_last: bool,
}

/// The name of the field in which an accessor keeps its value.
#[derive(Drop)]
pub enum ToldStorage {
    /// It is made from that text.
    Plain(Name),
    /// It is made from the name of the temporary with that tag, which keeps the value of the accessor's key.
    Kept(Name),
}

/// The object on which an accessor keeps its value.
#[derive(Drop)]
pub enum ToldObject {
    This,
    Use(ToldUse),
}

/// What is told of an accessor that becomes a field, a getter and a setter.
#[derive(Drop)]
pub struct ToldAccessor {
    /// Whether it is one of the class itself.
    pub is_static: bool,
    /// The name of its field.
    pub storage: ToldStorage,
    /// The object that has the field.
    pub object: ToldObject,
    /// The group of the setter's parameter.
    pub value_group: u64,
    /// Whether the value of its field is put in the constructor.
    pub moves: bool,
    /// The call that it gives, if it gives one.
    pub call: Option<ToldCall>,
}

/// What is told of the declaration of a class that is decorated, behind which the decorators of its elements are called, or that
/// takes a made name.
#[derive(Drop)]
pub struct ToldDecorated {
    /// Whether it is decorated itself.
    pub is_decorated: bool,
    /// The group of the name in it.
    pub number: u64,
    /// The name by which it is called, unless it has none.
    pub name: Option<ToldUse>,
    /// The tag of the name in it, where the source has none there.
    pub inner: Option<Name>,
    /// The tag by which it is kept, if it is.
    pub alias: Option<Name>,
    /// Whether it is kept where it is declared.
    pub keeps_alias: bool,
    /// Whether the decorators of its elements are called behind it.
    pub has_calls: bool,
    /// The metadata in its own call.
    pub metadata: ToldMetadata,
}

/// What is told of a node.
#[derive(Drop)]
pub enum Told {
    /// It is a block of an enum.
    Block(ToldBlock),
    /// It is a member of an enum.
    Member(ToldMember),
    /// It is a bare name that means a member of the enum of that name, which has that group.
    Bare(Name, Option<u64>),
    /// It is an expression, or the specifier of a module, in whose place the constant stands.
    Inlined(ConstantValue),
    /// It does nothing: a block of an enum that is dropped, an import or an export that is removed, or a specifier or an
    /// `import =` that is not kept.
    Gone,
    /// It is an import that loses its whole list, and stays for what its module does.
    Listless,
    /// It is a program before whose directives the one stands by which all its code is strict.
    Strict,
    /// It is a piece of a template, which has these texts.
    Quasi(ToldQuasi),
    /// It is a block of a namespace.
    Namespace(ToldNamespace),
    /// It is an export in a namespace.
    Export(ToldExport),
    /// It is a declarator whose value is put on the object of a namespace too.
    Stored(ToldStored),
    /// It is the body of a class that has more in it than is written there.
    Gains(ToldClass),
    /// It is a field whose value is put elsewhere.
    Moves(ToldField),
    /// It is a field that goes, but for the effects of its key, which is read behind the one in which the class is kept or not.
    LeavesKey(bool),
    /// It is an element of a class that gives a call.
    Called(ToldElement),
    /// It is an accessor that becomes a field, a getter and a setter.
    Accessor(ToldAccessor),
    /// It is the declaration of a class that is decorated, behind which the decorators of its elements are called, or that takes
    /// a made name.
    Decorated(ToldDecorated),
    /// It is the nameless expression of a class that takes the made name of that tag.
    Named(Name),
    /// It is the default export of the declaration of a class that is called by that name, and decorated itself or not.
    DefaultClass(bool, ToldUse),
    /// It is a decorator that is applied, to the parameter at that place if it is one of a parameter.
    Applied(Option<u64>),
    /// It is a name that is read as the made one of that tag.
    Alias(Name),
    /// It is a name that means that group.
    Inner(u64),
}

/// What is told of nodes, by their numbers.
#[derive(Drop)]
pub struct ToldNodes {
    nodes: BTreeMap<u64, Told>,
}

impl Model for ToldNodes {
    ghost use Rattle.oxt_facts.specs.Told.{Tellings, told_views};

    ghost Value = { Tellings };

    ghost view = { λ t. told_views t.nodes.entries };
}

impl ToldNodes {
    /// Nothing is told.
    pub fn new(alloc: Global) -> ToldNodes
        ensures { result ≡ [] }
    {
        ToldNodes {
            nodes: BTreeMap::new(alloc),
        }
    }

    /// Tells that of the node, in place of what was told of it.
    ///
    /// # Errors
    ///
    /// Fails only where memory runs out.
    #[tactic(auto, using(crate::proofs::Tells::told_more))]
    pub fn tell(&mut self, node: NodeId, told: Told) -> Result<(), OutOfMemory>
        ensures { OnOk result (self.new ≡ insert_entry nat_cmp self.old node.0 (told_view told)) }
    {
        drop(self.nodes.insert(node.0, told)?);
        Ok(())
    }

    /// What is told of the node.
    pub fn of(&self, node: NodeId) -> Option<&Told>
        ensures { option_map (λ told. told_view told.now) result ≡ told_of self.now node.0 }
    {
        self.nodes.get(&node.0)
    }
}
