//! What is told of classes that are decorated, whose elements are, or that take a made name.
ghost use Rattle.std.specs.Prelude.{◌≡◌, ℕ, IfOk, None, OnOk, Some, codes, if◌then◌else◌, option_map};
ghost use Rattle.oxt_facts.specs.Told.{decorating_view, metadata_view, use_view};
ghost use Rattle.oxt_fields.specs.Rules.{rules_view};
ghost use Rattle.oxt_told.specs.Decorated.{alias_uses, calls_inside, class_exported, class_itself_told, declaration_lowering, declaration_told, decorating_of, default_told, expression_lowering, expression_told, export_named, has_alias, has_calls_behind, has_front, is_called_behind, is_lowered, is_number, is_used_in, keeps_alias, lowering_of, no_lowering, own_metadata, takes_inner, takes_name};
ghost use Rattle.oxt_told.specs.Source.{all_told};
ghost use Rattle.oxt_told.specs.Tags.{class_use};
ghost use Rattle.oxt_tree.specs.Fields.{field_of};
ghost use Rattle.oxt_tree.specs.View.{doc_or_nil, docs_in, node_doc};

use crate::lowering::Lowering;
use crate::metadata::{class_described, undescribed};
use crate::tags::{class_use, is_nameless, own_use, tag_at, tag_if};
use crate::told::Source;
use oxt_declares::calls::{calls_any, is_decorated};
use oxt_declares::dropped::is_dropped;
use oxt_facts::told::{Told, ToldDecorated, ToldMetadata, ToldNodes, ToldUse};
use oxt_fields::class::elements_of;
use oxt_fields::private_in::holds_private_in;
use oxt_fields::rules::FieldRules;
use oxt_fields::statics::{has_static_accessor, has_static_part};
use oxt_grammar::field::Field;
use oxt_grammar::holds::Row;
use oxt_grammar::kind::Kind;
use oxt_names::ids::{NodeId, OutOfMemory};
use oxt_search::first::first_in;
use oxt_search::search::{Inside, Search, Visit};
use oxt_tree::tree::{Node, Part};

/// What decorators and static accessors make of the class.
pub fn lowering_of(rules: FieldRules, class: &Node) -> Lowering
    ensures { result ≡ lowering_of (rules_view rules.entry) class.now.id.0 (node_doc class.now) }
{
    if !rules.legacy || is_dropped(class) {
        no_lowering()
    } else if class.kind.is(Kind::ClassDeclaration) {
        declaration_lowering(rules, class)
    } else {
        expression_lowering(class)
    }
}

/// They make nothing of it.
fn no_lowering() -> Lowering
    ensures { result ≡ no_lowering }
{
    Lowering {
        is_decorated: false,
        has_calls: false,
        is_inside: false,
        has_alias: false,
        has_front: false,
        has_storage: false,
    }
}

/// What they make of the declaration of a class, where decorators are called.
fn declaration_lowering(rules: FieldRules, class: &Node) -> Lowering
    ensures { result ≡ declaration_lowering (rules_view rules.entry) class.now.id.0 (node_doc class.now) }
{
    let elements = elements_of(class);
    let has_alias = has_alias(rules, class);
    Lowering {
        is_decorated: is_decorated(class),
        has_calls: calls_any(elements),
        is_inside: calls_inside(class),
        has_alias,
        has_front: has_front(has_alias, elements),
        has_storage: has_static_accessor(elements),
    }
}

/// Whether elements of the class give calls, and these are its last static part.
fn calls_inside(class: &Node) -> bool
    ensures { result ≡ calls_inside (node_doc class.now) }
{
    calls_any(elements_of(class)) && holds_private_in(class)
}

/// Whether the alias of a class with these elements, if it has one, is kept in front of its static parts.
fn has_front(has_alias: bool, elements: &[Part]) -> bool
    ensures { result ≡ has_front has_alias (docs_in elements.now) }
{
    has_alias && has_static_part(elements)
}

/// What they make of the expression of a class, whose decorators are not called.
fn expression_lowering(class: &Node) -> Lowering
    ensures { result ≡ expression_lowering (node_doc class.now) }
{
    Lowering {
        is_decorated: false,
        has_calls: false,
        is_inside: false,
        has_alias: false,
        has_front: false,
        has_storage: has_static_accessor(elements_of(class)),
    }
}

/// Whether the class has an alias: it is decorated, and its name is used so in its body, or a static accessor keeps its value on
/// it.
fn has_alias(rules: FieldRules, class: &Node) -> bool
    ensures { result ≡ has_alias (rules_view rules.entry) class.now.id.0 (node_doc class.now) }
{
    is_decorated(class) && (has_static_accessor(elements_of(class)) || is_alias_used(rules, class))
}

/// Whether one of the names in the body of the class is read as its alias.
#[tactic(auto, using(crate::proofs::Naming::some_found))]
fn is_alias_used(rules: FieldRules, class: &Node) -> bool
    ensures { result ≡ is_used_in (alias_uses (rules_view rules.entry) class.now.id.0)
        (field_of (codes "body") (node_doc class.now)) }
{
    match class.field(Field::Body) {
        Some(Part::Node(body)) => {
            let search = AliasSearch {
                rules,
                class: class.id.0,
            };
            first_in(&search, body, ()).is_some()
        }
        _ => false,
    }
}

/// The search for names that are read as the alias of a class.
#[derive(Clone, Copy)]
struct AliasSearch<'a> {
    rules: FieldRules<'a>,
    /// The number of the class.
    class: u64,
}

impl<'a> Search for AliasSearch<'a> {
    type State = ();

    type Found = u64;

    ghost Seen = { ℕ };

    ghost view = { λ found. found };

    ghost sought = { λ search. alias_uses (rules_view search.rules) search.class };

    fn visit(&self, node: &Node, _state: ()) -> Visit<u64, ()> {
        Visit {
            found: self.use_at(node),
            inside: Inside::Alike(()),
        }
    }

    fn in_field(&self, _state: (), _kind: Kind, _row: &Row) -> Option<()> {
        Some(())
    }
}

impl<'a> AliasSearch<'a> {
    /// The number of the node, if it is such a name.
    fn use_at(&self, node: &Node) -> Option<u64>
        ensures { result ≡ (if is_number self.now.class ((rules_view self.now.rules).alias node.now.id.0) then Some node.now.id.0 else None) }
    {
        if self.is_alias(node.id) {
            Some(node.id.0)
        } else {
            None
        }
    }

    /// Whether the node of that number is read as the alias of the class.
    fn is_alias(&self, node: NodeId) -> bool
        ensures { result ≡ is_number self.now.class ((rules_view self.now.rules).alias node.0) }
    {
        match self.rules.plan.alias_of(node) {
            Some(class) => class.0 == self.class,
            None => false,
        }
    }
}

/// Tells of the class itself.
pub fn tell_itself(
    source: &Source,
    lowering: Lowering,
    class: &Node,
    told: &mut ToldNodes,
) -> Result<(), OutOfMemory>
    ensures { OnOk result (told.new ≡ all_told told.old
        (class_itself_told source.now.scoping.now (rules_view source.now.rules) lowering class.now.id.0 (node_doc class.now))) }
{
    if class.kind.is(Kind::ClassDeclaration) {
        tell_declaration(source, lowering, class, told)
    } else {
        tell_expression(source, lowering, class, told)
    }
}

/// Tells of the declaration of a class, if something is called behind it or it takes a made name.
fn tell_declaration(
    source: &Source,
    lowering: Lowering,
    class: &Node,
    told: &mut ToldNodes,
) -> Result<(), OutOfMemory>
    ensures { OnOk result (told.new ≡ all_told told.old
        (declaration_told source.now.scoping.now (rules_view source.now.rules) lowering class.now.id.0 (node_doc class.now))) }
{
    if is_lowered(lowering, class) {
        let name = own_use(source, lowering, class)?;
        let decorated = decorating_of(source, lowering, class, name)?;
        told.tell(class.id, Told::Decorated(decorated))
    } else {
        Ok(())
    }
}

/// Whether something is called behind the declaration of the class, or it takes a made name.
fn is_lowered(lowering: Lowering, class: &Node) -> bool
    ensures { result ≡ is_lowered lowering (node_doc class.now) }
{
    lowering.is_decorated || (lowering.has_calls || takes_name(lowering, class))
}

/// Whether the nameless class takes a made name for itself, since a static accessor keeps its value on it.
fn takes_name(lowering: Lowering, class: &Node) -> bool
    ensures { result ≡ takes_name lowering (node_doc class.now) }
{
    lowering.has_storage && is_nameless(class)
}

/// What is told of the declaration of a class that has that name.
fn decorating_of(
    source: &Source,
    lowering: Lowering,
    class: &Node,
    name: Option<ToldUse>,
) -> Result<ToldDecorated, OutOfMemory>
    ensures { IfOk result (λ decorated. decorating_view decorated
        ≡ decorating_of (rules_view source.now.rules) lowering class.now.id.0 (node_doc class.now) (option_map use_view name)) }
{
    let inner = tag_if(source.alloc, "c", takes_inner(lowering, class), class.id.0)?;
    let alias = tag_if(source.alloc, "a", lowering.has_alias, class.id.0)?;
    Ok(ToldDecorated {
        is_decorated: lowering.is_decorated,
        number: class.id.0,
        name,
        inner,
        alias,
        keeps_alias: keeps_alias(lowering),
        has_calls: has_calls_behind(lowering),
        metadata: own_metadata(source, lowering, class)?,
    })
}

/// The metadata in the call of the class itself, if it is decorated itself.
fn own_metadata(
    source: &Source,
    lowering: Lowering,
    class: &Node,
) -> Result<ToldMetadata, OutOfMemory>
    ensures { IfOk result (λ told. metadata_view told
        ≡ own_metadata (rules_view source.now.rules) lowering (node_doc class.now)) }
{
    if lowering.is_decorated {
        class_described(source, class)
    } else {
        Ok(undescribed())
    }
}

/// Whether the nameless class takes a made name for itself, and is decorated.
fn takes_inner(lowering: Lowering, class: &Node) -> bool
    ensures { result ≡ takes_inner lowering (node_doc class.now) }
{
    lowering.is_decorated && takes_name(lowering, class)
}

/// Whether the name of the class is read as an alias in its body, which is kept where the class is declared.
fn keeps_alias(lowering: Lowering) -> bool
    ensures { result ≡ keeps_alias lowering }
{
    lowering.has_alias && !lowering.has_front
}

/// Whether the elements of the class are called behind it.
fn has_calls_behind(lowering: Lowering) -> bool
    ensures { result ≡ has_calls_behind lowering }
{
    lowering.has_calls && !lowering.is_inside
}

/// Tells of the expression of a class, if it takes a made name.
fn tell_expression(
    source: &Source,
    lowering: Lowering,
    class: &Node,
    told: &mut ToldNodes,
) -> Result<(), OutOfMemory>
    ensures { OnOk result (told.new ≡ all_told told.old
        (expression_told lowering class.now.id.0 (node_doc class.now))) }
{
    if takes_name(lowering, class) {
        let tag = tag_at(source.alloc, class.id.0, "c")?;
        told.tell(class.id, Told::Named(tag))
    } else {
        Ok(())
    }
}

/// Tells of the default export of that declaration, if that is of a class that is called behind it.
pub fn tell_default(
    source: &Source,
    export: NodeId,
    declaration: Option<&Part>,
    told: &mut ToldNodes,
) -> Result<(), OutOfMemory>
    ensures { OnOk result (told.new ≡ all_told told.old
        (default_told source.now.scoping.now (rules_view source.now.rules) export.0 (doc_or_nil declaration.entry))) }
{
    match declaration {
        Some(Part::Node(class)) => {
            let lowering = lowering_of(source.rules, class);
            tell_exported(source, lowering, export, class, told)
        }
        _ => Ok(()),
    }
}

/// Tells of the default export of the class, if that is called behind it.
fn tell_exported(
    source: &Source,
    lowering: Lowering,
    export: NodeId,
    class: &Node,
    told: &mut ToldNodes,
) -> Result<(), OutOfMemory>
    ensures { OnOk result (told.new ≡ all_told told.old
        (class_exported source.now.scoping.now lowering export.0 class.now.id.0 (node_doc class.now))) }
{
    if is_called_behind(lowering) {
        let name = class_use(source, None, class)?;
        tell_named(export, lowering.is_decorated, name, told)
    } else {
        Ok(())
    }
}

/// Whether the class is called behind its declaration: it is decorated, or its elements are called there.
fn is_called_behind(lowering: Lowering) -> bool
    ensures { result ≡ is_called_behind lowering }
{
    lowering.is_decorated || has_calls_behind(lowering)
}

/// Tells of the default export of a class that goes by that name.
fn tell_named(
    export: NodeId,
    is_decorated: bool,
    name: Option<ToldUse>,
    told: &mut ToldNodes,
) -> Result<(), OutOfMemory>
    ensures { OnOk result (told.new ≡ all_told told.old
        (export_named export.0 is_decorated (option_map use_view name))) }
{
    match name {
        Some(name) => told.tell(export, Told::DefaultClass(is_decorated, name)),
        None => Ok(()),
    }
}
