//! What is known of the names of a tree that is read.
ghost use Rattle.std.specs.Prelude.{◌≡◌, ◌++◌, ◌∷◌, [], IfOk, OnOk, filter, if◌then◌else◌, length, nat_eq, option_map, option_to_list};
ghost use Rattle.oxt_tree.specs.Fields.{named, text_in};
ghost use Rattle.oxt_tree.specs.View.{docs_in, node_doc, part_doc};
ghost use Rattle.oxt_names.specs.Made.{all_added, added, is_among};
ghost use Rattle.oxt_facts.specs.Facts.{bindings, bindings_of_each, group_at, group_here, in_block, in_class, is_made, is_new, made_in, of_output, of_source, of_told_source, own_binding};
ghost use Rattle.oxt_facts.specs.Owners.{inner_group, owner_in};
ghost use Rattle.oxt_facts.specs.Told.{block_view, told_of, told_view};
ghost use Rattle.oxt_facts.specs.Privates.{stored_by, stored_in};
ghost use Rattle.oxt_facts.specs.Shared.{all_shared};

use crate::owners::NameGroups;
use crate::privates::ClassPrivates;
use crate::told::{Told, ToldBlock, ToldNodes};
use oxt_grammar::field::Field;
use oxt_grammar::kind::Kind;
use oxt_names::ids::{NodeId, OutOfMemory};
use oxt_names::uid::UidNames;
use oxt_tree::tree::{Node, Part};
use std::alloc::Global;
use std::marker::Model;
use std::rc::Rc;

/// What is known of the names of a tree that is read.
#[derive(Drop)]
pub struct Facts {
    alloc: Global,
    tree: Rc<TreeFacts>,
    classes: Vec<Rc<ClassPrivates>>,
    blocks: Vec<Inner>,
}

/// What is known of a tree at all its places.
#[derive(Drop)]
struct TreeFacts {
    is_source: bool,
    told: ToldNodes,
    made: UidNames,
    groups: NameGroups,
}

/// A block of an enum around a place: the group of the enum's name, and the block's number, by which the parameter of its
/// function goes.
#[derive(Clone, Copy)]
pub struct Inner {
    pub group: u64,
    pub block: u64,
}

impl Model for Facts {
    ghost use Rattle.oxt_facts.specs.Facts.{Known};
    ghost use Rattle.oxt_facts.specs.Shared.{all_shared};

    ghost Value = { Known };

    ghost view = { λ facts. record { is_source = facts.tree.value.is_source; told = facts.tree.value.told; made = facts.tree.value.made; owners = facts.tree.value.groups; classes = all_shared facts.classes.items; blocks = facts.blocks.items } };
}

impl Facts {
    /// Of a source, in which no name is made, of whose nodes nothing is told, and the groups of whose names are not known.
    ///
    /// # Errors
    ///
    /// Fails only where memory runs out.
    pub fn of_source(alloc: Global) -> Result<Facts, OutOfMemory>
        ensures { IfOk result (λ facts. facts ≡ of_source) }
    {
        Facts::of_told_source(alloc, ToldNodes::new(alloc), NameGroups::new(alloc))
    }

    /// Of a source, in which no name is made, of whose nodes that is told, and whose names have these groups.
    ///
    /// # Errors
    ///
    /// Fails only where memory runs out.
    pub fn of_told_source(
        alloc: Global,
        told: ToldNodes,
        groups: NameGroups,
    ) -> Result<Facts, OutOfMemory>
        ensures { IfOk result (λ facts. facts ≡ of_told_source told groups) }
    {
        let tree = TreeFacts {
            is_source: true,
            told,
            made: UidNames::new(alloc),
            groups,
        };
        Facts::of_tree(alloc, tree)
    }

    /// Of what was made of a source that has these names, where its own names have these groups: a name is made where a
    /// binding of the output has it, and the source does not.
    ///
    /// # Errors
    ///
    /// Fails only where memory runs out.
    pub fn of_output(
        alloc: Global,
        names: &UidNames,
        groups: NameGroups,
        output: &Node,
    ) -> Result<Facts, OutOfMemory>
        ensures { IfOk result (λ facts. facts ≡ of_output names.now groups (node_doc output.now)) }
    {
        let tree = TreeFacts {
            is_source: false,
            told: ToldNodes::new(alloc),
            made: made_in(alloc, names, output)?,
            groups,
        };
        Facts::of_tree(alloc, tree)
    }

    /// What is known at the root of a tree of which that is known.
    fn of_tree(alloc: Global, tree: TreeFacts) -> Result<Facts, OutOfMemory>
        ensures { IfOk result (λ facts. facts ≡ record { is_source = tree.is_source; told = tree.told; made = tree.made; owners = tree.groups; classes = []; blocks = [] }) }
    {
        Ok(Facts {
            alloc,
            tree: Rc::new(alloc, tree)?,
            classes: Vec::new(alloc),
            blocks: Vec::new(alloc),
        })
    }

    /// Where memory comes from.
    pub fn memory(&self) -> Global {
        self.alloc
    }

    /// Whether the tree is the source, with what only TypeScript has in it.
    pub fn is_source(&self) -> bool
        ensures { result ≡ self.now.is_source }
    {
        self.tree.is_source
    }

    /// What is told of the node.
    pub fn told_of(&self, node: NodeId) -> Option<&Told>
        ensures { option_map (λ told. told_view told.now) result ≡ told_of self.now.told node.0 }
    {
        self.tree.told.of(node)
    }

    /// The group that the node declares.
    pub fn declared_group(&self, node: NodeId) -> Option<u64>
        ensures { result ≡ owner_in self.now.owners node.0 }
    {
        self.tree.groups.of(node)
    }

    /// The group that the name means which is the node.
    pub fn group_of(&self, node: NodeId) -> Option<u64>
        ensures { result ≡ group_at self.now node.0 }
    {
        self.group_here(self.declared_group(node))
    }

    /// What a name of that group means here: inside a block of an enum that becomes a function, the enum's own name is the
    /// parameter of that.
    pub fn group_here(&self, group: Option<u64>) -> Option<u64>
        ensures { result ≡ group_here self.now group }
    {
        match group {
            Some(group) => Some(inner_group(self.blocks.as_slice(), group)),
            None => None,
        }
    }

    /// Whether the part is the spelling of a made name.
    pub fn is_made(&self, part: &Part) -> bool
        ensures { result ≡ is_made self.now (part_doc part.now) }
    {
        match part {
            Part::Text(name) => self.has_made(name.as_str()),
            Part::Word(word) => self.has_made(word.text()),
            _ => false,
        }
    }

    /// Whether the name is made.
    fn has_made(&self, name: &str) -> bool
        ensures { result ≡ is_among name.now self.now.made }
    {
        self.tree.made.has(name)
    }

    /// The same.
    fn again(&self) -> Result<Facts, OutOfMemory>
        ensures { IfOk result (λ facts. facts ≡ self.now) }
    {
        Ok(Facts {
            alloc: self.alloc,
            tree: self.tree.clone()?,
            classes: shared_classes(&self.classes)?,
            blocks: self.blocks.clone()?,
        })
    }

    /// The same inside a class that has these private names.
    ///
    /// # Errors
    ///
    /// Fails only where memory runs out.
    #[tactic(auto, using(crate::proofs::Shares::one_more))]
    pub fn in_class(&self, class: ClassPrivates) -> Result<Facts, OutOfMemory>
        ensures { IfOk result (λ facts. facts ≡ in_class class self.now) }
    {
        let mut inner = self.again()?;
        let class = Rc::new(self.alloc, class)?;
        inner.classes.push(class)?;
        Ok(inner)
    }

    /// The same inside a block of an enum that becomes a function.
    ///
    /// # Errors
    ///
    /// Fails only where memory runs out.
    pub fn in_block(&self, block: &ToldBlock) -> Result<Facts, OutOfMemory>
        ensures { IfOk result (λ facts. facts ≡ in_block (block_view block.now) self.now) }
    {
        let mut inner = self.again()?;
        if let Some(group) = block.group {
            inner.blocks.push(Inner {
                group,
                block: block.node,
            })?;
        }
        Ok(inner)
    }

    /// Whether no class stands around the place, as far as is known.
    pub fn is_outside(&self) -> bool
        ensures { result ≡ nat_eq (length self.now.classes) 0 }
    {
        self.classes.is_empty()
    }

    /// The made name whose accessor the private name stores, in the innermost class that has it.
    pub fn stored_by<'a>(&self, name: &'a str) -> Option<&'a str>
        ensures { option_map (λ made. made.now) result ≡ stored_by self.now.classes name.now }
    {
        look_inwards(self.classes.as_slice(), name)
    }
}

/// The group of the parameter of the innermost of the blocks whose enum's name has the group; the group itself where there
/// is none.
#[tactic(auto, using(crate::proofs::Nests::steps))]
fn inner_group(blocks: &[Inner], group: u64) -> u64
    ensures { result ≡ inner_group blocks.now group }
{
    let mut found = group;
    for block in blocks {
        if block.group == group {
            found = block.block;
        }
    }
    found
}

/// The names that the output binds and the source has not.
fn made_in(alloc: Global, names: &UidNames, output: &Node) -> Result<UidNames, OutOfMemory>
    ensures { IfOk result (λ made. made ≡ made_in names.now (node_doc output.now)) }
{
    let mut made = UidNames::new(alloc);
    take_in_node(names, output, &mut made)?;
    Ok(made)
}

/// What the innermost of the classes that has the private name says of it.
#[tactic(auto, using(crate::proofs::Shares::steps))]
fn look_inwards<'a>(classes: &[Rc<ClassPrivates>], name: &'a str) -> Option<&'a str>
    ensures { option_map (λ made. made.now) result ≡ stored_by (all_shared classes.now) name.now }
{
    let mut found = None;
    for class in classes {
        found = said_by(class, name, found);
    }
    found
}

/// What the class says of the private name, and that if the class does not have it.
fn said_by<'a>(class: &ClassPrivates, name: &'a str, outer: Option<&'a str>) -> Option<&'a str>
    ensures { option_map (λ made. made.now) result
        ≡ stored_in name.now (option_map (λ made. made.now) outer.entry) class.now }
{
    if class.has(name) {
        class.made_of(name)
    } else {
        outer
    }
}

/// Other references to the same classes.
#[tactic(auto, using(crate::proofs::Shares::same_shared))]
fn shared_classes(classes: &Vec<Rc<ClassPrivates>>) -> Result<Vec<Rc<ClassPrivates>>, OutOfMemory>
    ensures { IfOk result (λ v. all_shared v.items ≡ all_shared classes.now.items) }
{
    Ok(classes.clone()?)
}

/// Takes the bindings of the node that are new.
#[cycle(bindings)]
#[tactic(auto, using(crate::proofs::Bindings::node_steps))]
fn take_in_node(names: &UidNames, node: &Node, made: &mut UidNames) -> Result<(), OutOfMemory>
    ensures { OnOk result
        (made.new ≡ all_added (filter (is_new names.now) (bindings (node_doc node.now))) made.old) }
{
    take_own(names, node, made)?;
    take_in_each(names, &node.parts, made)
}

/// Takes the bindings of the part that are new.
#[cycle(bindings)]
fn take_in_part(names: &UidNames, part: &Part, made: &mut UidNames) -> Result<(), OutOfMemory>
    ensures { OnOk result
        (made.new ≡ all_added (filter (is_new names.now) (bindings (part_doc part.now))) made.old) }
{
    match part {
        Part::Node(node) => take_in_node(names, node, made),
        Part::List(parts) => take_in_each(names, parts, made),
        _ => Ok(()),
    }
}

/// Takes the bindings of each part that are new.
#[cycle(bindings)]
#[tactic(auto, using(crate::proofs::Bindings::each_steps))]
fn take_in_each(names: &UidNames, parts: &[Part], made: &mut UidNames) -> Result<(), OutOfMemory>
    ensures { OnOk result
        (made.new ≡ all_added (filter (is_new names.now) (bindings_of_each (docs_in parts.now))) made.old) }
{
    for part in parts {
        take_in_part(names, part, made)?;
    }
    Ok(())
}

/// Takes the name that the node itself binds, if it is new.
fn take_own(names: &UidNames, node: &Node, made: &mut UidNames) -> Result<(), OutOfMemory>
    ensures { OnOk result
        (made.new ≡ all_added (filter (is_new names.now) (option_to_list (own_binding node.now.kind (docs_in node.now.parts.items)))) made.old) }
{
    match own_binding(node) {
        Some(name) => take_new(names, name, made),
        None => Ok(()),
    }
}

/// Takes the name, if it is new.
fn take_new(names: &UidNames, name: &str, made: &mut UidNames) -> Result<(), OutOfMemory>
    ensures { OnOk result
        (made.new ≡ (if is_new names.now name.now then added name.now made.old else made.old)) }
{
    if is_new(names, name) {
        made.take(name)
    } else {
        Ok(())
    }
}

/// Whether the source has no such name, and it is not that of a made setter's parameter.
fn is_new(names: &UidNames, name: &str) -> bool
    ensures { result ≡ is_new names.now name.now }
{
    !names.has(name) && !(name == "value")
}

/// The name that the node itself binds.
fn own_binding(node: &Node) -> Option<&str>
    ensures { option_map (λ name. name.now) result
        ≡ own_binding node.now.kind (docs_in node.now.parts.items) }
{
    if node.kind.is(Kind::BindingIdentifier) {
        node.field(Field::Name)?.as_text()
    } else {
        None
    }
}
