//! The types of what is decorated, which are kept while it is walked.
//!
//! Before:
//!
//! ```ts
//! class Shape {
//!     @noted draw(size: number): void {}
//!     @watched name: string;
//! }
//! ```
//!
//! After:
//!
//! ```js
//! class Shape {
//!     draw(size) {}
//!     name;
//! }
//! babelHelpers.decorate([
//!     noted,
//!     babelHelpers.decorateMetadata("design:type", Function),
//!     babelHelpers.decorateMetadata("design:paramtypes", [Number]),
//!     babelHelpers.decorateMetadata("design:returntype", void 0),
//! ], Shape.prototype, "draw", null);
//! babelHelpers.decorate([watched, babelHelpers.decorateMetadata("design:type", String)], Shape.prototype, "name", void 0);
//! ```
ghost use Rattle.std.specs.Prelude.{◌≡◌, ◌-◌, [], OnOk, length, take};
ghost use Rattle.oxt_stores.specs.Frame.{frames};
ghost use Rattle.oxt_stores.specs.Top.{top};

use crate::types::{parameters_expression, type_expression};
use oxt_ctx::context::TraverseCtx;
use oxt_ctx::helper::{Helper, helper_call_expr};
use oxt_ctx::hook::Hook;
use oxt_ctx::nodes::string_literal;
use oxt_ctx::pass::Pass;
use oxt_declares::calls::{is_called, is_decorated};
use oxt_fields::class::{constructor_of, elements_of};
use oxt_metadata::typing::{design_of, returned_by};
use oxt_names::ids::OutOfMemory;
use oxt_names::name::Name;
use oxt_options::options::DecoratorOptions;
use oxt_stores::sparse::SparseStack;
use oxt_tree::tree::{Node, Part};
use std::alloc::Global;
use std::vec;

/// The types of a decorated method, as expressions.
#[derive(Drop)]
pub struct MethodMetadata {
    /// Its own.
    pub design_type: Node,
    /// The list of those of its parameters.
    pub param_types: Node,
    /// That of what it returns; none of a getter or a setter.
    pub return_type: Option<Node>,
}

/// The types of the methods, fields and classes that are being walked. They are read as these are entered, before annotations are
/// erased, and taken away as they are left.
#[derive(Drop)]
pub struct LegacyDecoratorMetadata {
    /// Those of methods, the innermost last.
    methods: SparseStack<MethodMetadata>,
    /// Those of the parameters of constructors, by their classes.
    constructors: SparseStack<Node>,
    /// Those of fields.
    fields: SparseStack<Node>,
}

impl LegacyDecoratorMetadata {
    /// There is none as a walk begins.
    pub fn new(alloc: Global, _options: DecoratorOptions) -> LegacyDecoratorMetadata
        ensures methods { result.methods ≡ [] }
        ensures constructors { result.constructors ≡ [] }
        ensures fields { result.fields ≡ [] }
    {
        LegacyDecoratorMetadata {
            methods: SparseStack::new(alloc),
            constructors: SparseStack::new(alloc),
            fields: SparseStack::new(alloc),
        }
    }

    /// Takes away the types of the method that was entered last: none where it is not decorated.
    pub fn pop_method_metadata(&mut self) -> Option<MethodMetadata>
        ensures taken { result ≡ top self.old.methods }
        ensures left { self.new.methods ≡ take (length self.old.methods - 1) self.old.methods }
    {
        self.methods.pop()
    }

    /// Takes away the types of the parameters of the constructor of the class that was entered last: none where the class is
    /// not decorated, or has no constructor.
    pub fn pop_constructor_metadata(&mut self) -> Option<Node>
        ensures taken { result ≡ top self.old.constructors }
        ensures left { self.new.constructors ≡ take (length self.old.constructors - 1) self.old.constructors }
    {
        self.constructors.pop()
    }

    /// Takes away the type of the field that was entered last: none where it is not decorated.
    pub fn pop_field_metadata(&mut self) -> Option<Node>
        ensures taken { result ≡ top self.old.fields }
        ensures left { self.new.fields ≡ take (length self.old.fields - 1) self.old.fields }
    {
        self.fields.pop()
    }

    /// Notes the types of the parameters of the class's constructor.
    fn enter_class(&mut self, class: &Node, ctx: &mut TraverseCtx) -> Result<(), OutOfMemory>
        ensures around { OnOk result (ctx.new.ancestors ≡ ctx.old.ancestors) }
        ensures depth { OnOk result
            (length (frames ctx.new.declarations) ≡ length (frames ctx.old.declarations)) }
    {
        let types = constructor_types(class, ctx)?;
        push(&mut self.constructors, types)
    }

    /// Notes the types of the method.
    fn enter_method(&mut self, method: &Node, ctx: &mut TraverseCtx) -> Result<(), OutOfMemory>
        ensures around { OnOk result (ctx.new.ancestors ≡ ctx.old.ancestors) }
        ensures depth { OnOk result
            (length (frames ctx.new.declarations) ≡ length (frames ctx.old.declarations)) }
    {
        let types = method_types(method, ctx)?;
        push(&mut self.methods, types)
    }

    /// Notes the type of the field.
    fn enter_field(&mut self, field: &Node, ctx: &mut TraverseCtx) -> Result<(), OutOfMemory>
        ensures around { OnOk result (ctx.new.ancestors ≡ ctx.old.ancestors) }
        ensures depth { OnOk result
            (length (frames ctx.new.declarations) ≡ length (frames ctx.old.declarations)) }
    {
        let written = field_type(field, ctx)?;
        push(&mut self.fields, written)
    }
}

impl Pass for LegacyDecoratorMetadata {
    fn at_node(
        &mut self,
        hook: Hook,
        node: &mut Node,
        ctx: &mut TraverseCtx,
    ) -> Result<(), OutOfMemory> {
        match hook {
            Hook::EnterClass => self.enter_class(node, ctx),
            Hook::EnterMethodDefinition => self.enter_method(node, ctx),
            Hook::EnterPropertyDefinition => self.enter_field(node, ctx),
            _ => Ok(()),
        }
    }

    fn at_statements(
        &mut self,
        _hook: Hook,
        _statements: &mut Vec<Part>,
        _ctx: &mut TraverseCtx,
    ) -> Result<(), OutOfMemory> {
        Ok(())
    }
}

/// Pushes the entry.
fn push<T: Drop>(stack: &mut SparseStack<T>, entry: Option<T>) -> Result<(), OutOfMemory> {
    match stack.push(entry) {
        Ok(()) => Ok(()),
        Err(_) => Err(OutOfMemory),
    }
}

/// The types of the parameters of the class's constructor, if the class is decorated and has one.
fn constructor_types(class: &Node, ctx: &mut TraverseCtx) -> Result<Option<Node>, OutOfMemory>
    ensures around { OnOk result (ctx.new.ancestors ≡ ctx.old.ancestors) }
    ensures depth { OnOk result
        (length (frames ctx.new.declarations) ≡ length (frames ctx.old.declarations)) }
{
    match constructor_of(elements_of(class)) {
        Some(constructor) if is_decorated(class) => {
            Ok(Some(parameters_expression(constructor, ctx)?))
        }
        _ => Ok(None),
    }
}

/// The types of the method, if it is decorated.
fn method_types(method: &Node, ctx: &mut TraverseCtx) -> Result<Option<MethodMetadata>, OutOfMemory>
    ensures around { OnOk result (ctx.new.ancestors ≡ ctx.old.ancestors) }
    ensures depth { OnOk result
        (length (frames ctx.new.declarations) ≡ length (frames ctx.old.declarations)) }
{
    if !is_called(method) {
        return Ok(None);
    }
    let design_type = type_expression(design_of(method), ctx)?;
    let param_types = parameters_expression(method, ctx)?;
    let return_type = returned_type(method, ctx)?;
    Ok(Some(MethodMetadata {
        design_type,
        param_types,
        return_type,
    }))
}

/// The type of what the method returns, if it has one.
fn returned_type(method: &Node, ctx: &mut TraverseCtx) -> Result<Option<Node>, OutOfMemory>
    ensures around { OnOk result (ctx.new.ancestors ≡ ctx.old.ancestors) }
    ensures depth { OnOk result
        (length (frames ctx.new.declarations) ≡ length (frames ctx.old.declarations)) }
{
    match returned_by(method) {
        Some(typing) => Ok(Some(type_expression(typing, ctx)?)),
        None => Ok(None),
    }
}

/// The type of the field, if it is decorated.
fn field_type(field: &Node, ctx: &mut TraverseCtx) -> Result<Option<Node>, OutOfMemory>
    ensures around { OnOk result (ctx.new.ancestors ≡ ctx.old.ancestors) }
    ensures depth { OnOk result
        (length (frames ctx.new.declarations) ≡ length (frames ctx.old.declarations)) }
{
    if is_called(field) {
        Ok(Some(type_expression(design_of(field), ctx)?))
    } else {
        Ok(None)
    }
}

/// Appends the calls that note the types of a method.
pub fn push_method_metadata(
    decorators: &mut Vec<Part>,
    metadata: MethodMetadata,
    ctx: &mut TraverseCtx,
) -> Result<(), OutOfMemory>
    ensures around { OnOk result (ctx.new.ancestors ≡ ctx.old.ancestors) }
    ensures depth { OnOk result
        (length (frames ctx.new.declarations) ≡ length (frames ctx.old.declarations)) }
{
    let MethodMetadata {
        design_type,
        param_types,
        return_type,
    } = metadata;
    push_noted(decorators, "design:type", Some(design_type), ctx)?;
    push_noted(decorators, "design:paramtypes", Some(param_types), ctx)?;
    push_noted(decorators, "design:returntype", return_type, ctx)
}

/// Appends the call that notes the type of a field, if there is one.
pub fn push_field_metadata(
    decorators: &mut Vec<Part>,
    written: Option<Node>,
    ctx: &mut TraverseCtx,
) -> Result<(), OutOfMemory>
    ensures around { OnOk result (ctx.new.ancestors ≡ ctx.old.ancestors) }
    ensures depth { OnOk result
        (length (frames ctx.new.declarations) ≡ length (frames ctx.old.declarations)) }
{
    push_noted(decorators, "design:type", written, ctx)
}

/// Appends the call that notes the types of the parameters of a constructor, if there are such.
pub fn push_constructor_metadata(
    decorators: &mut Vec<Part>,
    types: Option<Node>,
    ctx: &mut TraverseCtx,
) -> Result<(), OutOfMemory>
    ensures around { OnOk result (ctx.new.ancestors ≡ ctx.old.ancestors) }
    ensures depth { OnOk result
        (length (frames ctx.new.declarations) ≡ length (frames ctx.old.declarations)) }
{
    push_noted(decorators, "design:paramtypes", types, ctx)
}

/// Appends `babelHelpers.decorateMetadata(name, value)`, if there is a value.
fn push_noted(
    decorators: &mut Vec<Part>,
    name: &str,
    value: Option<Node>,
    ctx: &mut TraverseCtx,
) -> Result<(), OutOfMemory>
    ensures around { OnOk result (ctx.new.ancestors ≡ ctx.old.ancestors) }
    ensures depth { OnOk result
        (length (frames ctx.new.declarations) ≡ length (frames ctx.old.declarations)) }
{
    if let Some(value) = value {
        let call = noted(name, value, ctx)?;
        decorators.push(Part::Node(call))?;
    }
    Ok(())
}

/// `babelHelpers.decorateMetadata(name, value)`.
fn noted(name: &str, value: Node, ctx: &mut TraverseCtx) -> Result<Node, OutOfMemory>
    ensures around { OnOk result (ctx.new.ancestors ≡ ctx.old.ancestors) }
    ensures depth { OnOk result
        (length (frames ctx.new.declarations) ≡ length (frames ctx.old.declarations)) }
{
    let alloc = ctx.memory();
    let name = Name::new(alloc, name)?;
    let key = string_literal(alloc, &name, &mut ctx.ids)?;
    let arguments = vec![in alloc; key, value]?;
    helper_call_expr(Helper::DecorateMetadata, arguments, ctx)
}
