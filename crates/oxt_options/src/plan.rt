//! The plan: what the passes ask of nodes of the source, by their numbers.
ghost use Rattle.std.specs.Prelude.{◌≡◌, ℕ, IfOk, None, OnErr, OnOk, Some, cond, nat_eq, option_map};
ghost use Rattle.std.specs.Map.{lookup, update_all};
ghost use Rattle.oxt_names.specs.Constant.{constant_view};
ghost use Rattle.oxt_options.specs.Facts.{Answers, HasTables, SameNodes, alias_at, constant_at, is_in, last_alias, last_constant, no_facts};
ghost use Rattle.oxt_options.specs.Lists.{by_number, constants_in, facts_in, numbers_in, pairs_in, types_in};
ghost use Rattle.oxt_options.specs.Metadata.{last_type, type_at};

use crate::lists::PlanLists;
use crate::metadata::MetadataType;
use crate::nodes::set_of;
use oxt_names::constant::ConstantValue;
use oxt_names::ids::{NodeId, OutOfMemory};
use std::alloc::Global;
use std::collections::{HashMap, HashSet};
use std::marker::Model;
use std::mem;

/// What the check of a program found out about nodes of the source.
#[derive(Drop)]
pub struct Plan {
    kept: HashSet<u64>,
    first: HashSet<u64>,
    dropped: HashSet<u64>,
    inlined: HashMap<u64, ConstantValue>,
    never_written: HashSet<u64>,
    aliases: HashMap<u64, u64>,
    metadata: HashMap<u64, MetadataType>,
    written: HashMap<u64, u64>,
}

impl Model for Plan {
    ghost use Rattle.oxt_options.specs.Facts.{Facts};
    ghost use Rattle.oxt_options.specs.Seen.{constants_of};

    ghost Value = { Facts };

    ghost view = { λ p. record { kept = p.kept.keys; first = p.first.keys; dropped = p.dropped.keys; inlined = constants_of p.inlined.entries; never_written = p.never_written.keys; aliases = p.aliases.entries; metadata = p.metadata.entries; written = p.written.entries } };
}

impl Plan {
    /// The plan of a program of which nothing is known.
    pub fn empty(alloc: Global) -> Plan
        ensures { result ≡ no_facts }
    {
        Plan {
            kept: HashSet::new(alloc),
            first: HashSet::new(alloc),
            dropped: HashSet::new(alloc),
            inlined: HashMap::new(alloc),
            never_written: HashSet::new(alloc),
            aliases: HashMap::new(alloc),
            metadata: HashMap::new(alloc),
            written: HashMap::new(alloc),
        }
    }

    /// The plan with these lists. Of several constants of one expression, classes of one reference, or types of one
    /// annotation, it has the last.
    pub fn new(alloc: Global, mut lists: PlanLists) -> Result<Plan, OutOfMemory>
        ensures { IfOk result (λ plan. Answers plan (facts_in lists)) }
    {
        Plan::of_lists(alloc, &mut lists)
    }

    /// The same; the lists lose what is put in the plan.
    fn of_lists(alloc: Global, lists: &mut PlanLists) -> Result<Plan, OutOfMemory>
        ensures { IfOk result (λ plan. Answers plan (facts_in lists.old)) }
    {
        let mut plan = Plan::of_nodes(alloc, lists)?;
        plan.set_tables(alloc, lists)?;
        Ok(plan)
    }

    /// Puts what the lists have of constants, aliases, types and names in place of what the plan had; the lists lose it.
    fn set_tables(&mut self, alloc: Global, lists: &mut PlanLists) -> Result<(), OutOfMemory>
        ensures nodes { OnOk result (SameNodes self.new self.old) }
        ensures tables { OnOk result (HasTables self.new (facts_in lists.old)) }
    {
        self.set_inlined(alloc, mem::replace(&mut lists.inlined, Vec::new(alloc)))?;
        self.set_aliases(alloc, mem::replace(&mut lists.aliases, Vec::new(alloc)))?;
        self.set_metadata(alloc, mem::replace(&mut lists.metadata, Vec::new(alloc)))?;
        self.set_written(alloc, mem::replace(&mut lists.written, Vec::new(alloc)))?;
        Ok(())
    }

    /// The plan with those of these lists that have nodes alone.
    fn of_nodes(alloc: Global, lists: &PlanLists) -> Result<Plan, OutOfMemory>
        ensures kept { IfOk result (λ plan. (n : ℕ) → is_in plan.kept n ≡ is_in (numbers_in lists.now.kept.items) n) }
        ensures first { IfOk result (λ plan. (n : ℕ) → is_in plan.first n ≡ is_in (numbers_in lists.now.first.items) n) }
        ensures dropped { IfOk result (λ plan. (n : ℕ) → is_in plan.dropped n ≡ is_in (numbers_in lists.now.dropped.items) n) }
        ensures never_written { IfOk result (λ plan. (n : ℕ) → is_in plan.never_written n ≡ is_in (numbers_in lists.now.never_written.items) n) }
    {
        let (kept, first) = sets_of(alloc, lists.kept.as_slice(), lists.first.as_slice())?;
        let (dropped, never_written) = sets_of(
            alloc,
            lists.dropped.as_slice(),
            lists.never_written.as_slice(),
        )?;
        Ok(Plan {
            kept,
            first,
            dropped,
            inlined: HashMap::new(alloc),
            never_written,
            aliases: HashMap::new(alloc),
            metadata: HashMap::new(alloc),
            written: HashMap::new(alloc),
        })
    }

    /// Puts these constants of expressions in place of those that the plan had. Of several constants of one expression it has
    /// the last.
    #[tactic(auto, using(crate::proofs::Tables::put_in_turn))]
    fn set_inlined(
        &mut self,
        alloc: Global,
        constants: Vec<(NodeId, ConstantValue)>,
    ) -> Result<(), OutOfMemory>
        ensures put { OnOk result ((n : ℕ) → constant_at self.new.inlined n ≡ last_constant (constants_in constants.items) n) }
        ensures others { self.new ≡ record self.old { inlined = self.new.inlined } }
    {
        self.inlined = map_of(alloc, constants)?;
        Ok(())
    }

    /// Puts what metadata writes for these annotations in place of what the plan had. Of several types of one annotation it
    /// has the last.
    fn set_metadata(
        &mut self,
        alloc: Global,
        types: Vec<(NodeId, MetadataType)>,
    ) -> Result<(), OutOfMemory>
        ensures put { OnOk result ((n : ℕ) → type_at self.new.metadata n ≡ last_type (types_in types.items) n) }
        ensures others { self.new ≡ record self.old { metadata = self.new.metadata } }
    {
        self.metadata = types_of(alloc, types.as_slice())?;
        Ok(())
    }

    /// Puts these names, each with the class whose metadata writes it, in place of those that the plan had. Of several classes
    /// of one name it has the last.
    #[tactic(auto, using(crate::proofs::Tables::put_in_turn))]
    fn set_written(
        &mut self,
        alloc: Global,
        names: Vec<(NodeId, NodeId)>,
    ) -> Result<(), OutOfMemory>
        ensures put { OnOk result ((n : ℕ) → alias_at self.new.written n ≡ last_alias (pairs_in names.items) n) }
        ensures others { self.new ≡ record self.old { written = self.new.written } }
    {
        self.written = classes_of(alloc, names)?;
        Ok(())
    }

    /// Puts these classes of references in place of those that the plan had. Of several classes of one reference it has the
    /// last.
    ///
    /// # Errors
    ///
    /// Fails only where memory runs out; the plan is then unchanged.
    #[tactic(auto, using(crate::proofs::Tables::put_in_turn))]
    pub fn set_aliases(
        &mut self,
        alloc: Global,
        aliases: Vec<(NodeId, NodeId)>,
    ) -> Result<(), OutOfMemory>
        ensures put { OnOk result ((n : ℕ) → alias_at self.new.aliases n ≡ last_alias (pairs_in aliases.items) n) }
        ensures others { self.new ≡ record self.old { aliases = self.new.aliases } }
        ensures kept { OnErr result (self.new ≡ self.old) }
    {
        self.aliases = classes_of(alloc, aliases)?;
        Ok(())
    }

    /// Whether the node is an import specifier, `import =` or export specifier that is kept.
    pub fn keeps(&self, node: NodeId) -> bool
        ensures { result ≡ is_in self.now.kept node.0 }
    {
        self.kept.contains(&node.0)
    }

    /// Whether the node is a block of an enum or a namespace before which nothing of the name emits
    /// code.
    pub fn is_first(&self, node: NodeId) -> bool
        ensures { result ≡ is_in self.now.first node.0 }
    {
        self.first.contains(&node.0)
    }

    /// Whether the node is a block of an enum that is dropped.
    pub fn is_dropped(&self, node: NodeId) -> bool
        ensures { result ≡ is_in self.now.dropped node.0 }
    {
        self.dropped.contains(&node.0)
    }

    /// The constant of the node, if it is an expression that is inlined.
    pub fn inlined(&self, node: NodeId) -> Option<&ConstantValue>
        ensures { option_map (λ value. constant_view value.now) result ≡ constant_at self.now.inlined node.0 }
    {
        self.inlined.get(&node.0)
    }

    /// Whether the node is a reference to a declared name, no enum member, that nothing writes to.
    pub fn is_never_written(&self, node: NodeId) -> bool
        ensures { result ≡ is_in self.now.never_written node.0 }
    {
        self.never_written.contains(&node.0)
    }

    /// The decorated class as whose alias the reference is read.
    pub fn alias_of(&self, node: NodeId) -> Option<NodeId>
        ensures { option_map (λ class. class.0) result ≡ alias_at self.now.aliases node.0 }
    {
        match self.aliases.get(&node.0) {
            Some(class) => Some(NodeId(*class)),
            None => None,
        }
    }

    /// What metadata writes for the type annotation, if it tells of it.
    pub fn metadata_of(&self, annotation: NodeId) -> Option<MetadataType>
        ensures { result ≡ type_at self.now.metadata annotation.0 }
    {
        self.metadata.get(&annotation.0).copied()
    }

    /// The class whose metadata writes the reference as the first of a dotted name.
    pub fn written_by(&self, node: NodeId) -> Option<NodeId>
        ensures { option_map (λ class. class.0) result ≡ alias_at self.now.written node.0 }
    {
        match self.written.get(&node.0) {
            Some(class) => Some(NodeId(*class)),
            None => None,
        }
    }
}

/// The numbers of the nodes of each of two lists.
fn sets_of(
    alloc: Global,
    ones: &[NodeId],
    others: &[NodeId],
) -> Result<(HashSet<u64>, HashSet<u64>), OutOfMemory>
    ensures ones { IfOk result (λ sets. (n : ℕ) → is_in sets.0.keys n ≡ is_in (numbers_in ones.now) n) }
    ensures others { IfOk result (λ sets. (n : ℕ) → is_in sets.1.keys n ≡ is_in (numbers_in others.now) n) }
{
    let ones = set_of(alloc, ones)?;
    let others = set_of(alloc, others)?;
    Ok((ones, others))
}

/// The constants by the numbers of their nodes.
fn map_of(
    alloc: Global,
    constants: Vec<(NodeId, ConstantValue)>,
) -> Result<HashMap<u64, ConstantValue>, OutOfMemory>
    ensures { IfOk result (λ table. (n : ℕ) → lookup (nat_eq n) table.entries ≡ update_all nat_eq (λ _. None) (by_number constants.items) n) }
{
    Ok(
        constants
            .into_iter()
            .map(|constant| (constant.0.0, constant.1))
            .collect(alloc)?,
    )
}

/// The numbers of classes by those of their references.
fn classes_of(
    alloc: Global,
    aliases: Vec<(NodeId, NodeId)>,
) -> Result<HashMap<u64, u64>, OutOfMemory>
    ensures { IfOk result (λ table. (n : ℕ) → lookup (nat_eq n) table.entries ≡ update_all nat_eq (λ _. None) (pairs_in aliases.items) n) }
{
    Ok(
        aliases
            .into_iter()
            .map(|(node, class)| (node.0, class.0))
            .collect(alloc)?,
    )
}

/// What is written for annotations, by their numbers.
#[tactic(auto, using(crate::proofs::Tables::put_by_one))]
fn types_of(
    alloc: Global,
    types: &[(NodeId, MetadataType)],
) -> Result<HashMap<u64, MetadataType>, OutOfMemory>
    ensures { IfOk result (λ table. (n : ℕ) → type_at table.entries n ≡ last_type (types_in types.now) n) }
{
    let mut table = HashMap::new(alloc);
    for noted in types {
        put(&mut table, noted.0.0, noted.1)?;
    }
    Ok(table)
}

/// Puts what is written under the number.
fn put(
    table: &mut HashMap<u64, MetadataType>,
    number: u64,
    written: MetadataType,
) -> Result<(), OutOfMemory>
    ensures { OnOk result ((n : ℕ) → type_at table.new.entries n ≡ cond (nat_eq number n) (Some written) (type_at table.old.entries n)) }
{
    table.insert(number, written)?;
    Ok(())
}
