//! The bodies of the enums of the table, and the constants of their members.
ghost use Rattle.std.specs.Prelude.{◌≡◌, ◌<◌, IfSome, OnOk, Some, length, option_map};
ghost use Rattle.std.specs.List.{list_any};
ghost use Rattle.oxt_declares.specs.Declarations.{declared_view};
ghost use Rattle.oxt_resolve.specs.Enumless.{declares_enum, is_of_enum};
ghost use Rattle.oxt_scopes.specs.Scopes.{number_of};
ghost use Rattle.oxt_scopes.specs.Views.{opened_view, opened_views};
ghost use Rattle.oxt_names.specs.Constant.{constant_view};
ghost use Rattle.oxt_tree.specs.View.{doc_or_nil};
ghost use Rattle.oxt_resolve.specs.Resolved.{all_enums, part_of, scope_of_number, symbol_of, with_body, with_enum, with_enums, with_value};
ghost use Rattle.oxt_resolve.specs.Values.{values_in};

use crate::opening::scope_of_number;
use oxt_declares::declaration::{Declaration, Sort};
use oxt_enums::enums::EnumConstants;
use oxt_names::constant::ConstantValue;
use oxt_names::ids::{NodeId, OutOfMemory, SymbolId};
use oxt_scopes::scopes::OpenedScope;
use oxt_scoping::scoping::Scoping;
use oxt_tree::tree::Part;

/// What a declaration is to an enum.
#[derive(Clone, Copy)]
pub enum EnumPart {
    /// A block of it.
    Block,
    /// A member of it.
    Member,
    /// Neither.
    Neither,
}

/// Whether one of the scopes declares a block or a member of an enum. Where none does, there is nothing to tell.
pub fn has_enums(scopes: &[OpenedScope]) -> bool
    ensures { result ≡ list_any declares_enum scopes.now }
{
    scopes.iter().any(|scope| declares_enum(scope))
}

/// Whether one of the declarations of the scope is of an enum.
fn declares_enum(scope: &OpenedScope) -> bool
    ensures { result ≡ declares_enum scope.now }
{
    any_of_enum(scope.declarations.as_slice())
}

/// Whether one of the declarations is of an enum.
fn any_of_enum(declarations: &[Declaration]) -> bool
    ensures { result ≡ list_any (λ declaration. is_of_enum declaration.sort) declarations.now }
{
    declarations
        .iter()
        .any(|declaration| is_of_enum(declaration.sort))
}

/// Whether what is so declared is of an enum.
fn is_of_enum(sort: Sort) -> bool
    ensures { result ≡ is_of_enum sort }
{
    match part_of(sort) {
        EnumPart::Block => true,
        EnumPart::Member => true,
        EnumPart::Neither => false,
    }
}

/// Tells the bodies of the enums that the scopes declare, and the constants of their members.
pub fn tell_all(
    table: &mut Scoping,
    enums: &EnumConstants,
    scopes: &[OpenedScope],
) -> Result<(), OutOfMemory>
    ensures { OnOk result (table.new ≡ all_enums (values_in enums.now) (opened_views scopes.now) table.old) }
{
    for scope in scopes {
        tell_each(table, enums, scope)?;
    }
    Ok(())
}

/// Tells what the declarations of the scope say of enums.
fn tell_each(
    table: &mut Scoping,
    enums: &EnumConstants,
    scope: &OpenedScope,
) -> Result<(), OutOfMemory>
    ensures { OnOk result (table.new ≡ with_enums (values_in enums.now) table.old (opened_view scope.now)) }
{
    let number = scope.number;
    for declaration in scope.declarations.as_slice() {
        tell(table, enums, number, declaration)?;
    }
    Ok(())
}

/// Tells what the declaration in the scope of that number says of an enum.
fn tell(
    table: &mut Scoping,
    enums: &EnumConstants,
    number: NodeId,
    declaration: &Declaration,
) -> Result<(), OutOfMemory>
    ensures { OnOk result (table.new ≡ with_enum (values_in enums.now) number.0 table.old (declared_view declaration.now)) }
{
    match part_of(declaration.sort) {
        EnumPart::Block => add_body(table, declaration),
        EnumPart::Member => {
            let value = enums.value_in_body(number, declaration.name);
            set_value(table, declaration.node, value)
        }
        EnumPart::Neither => Ok(()),
    }
}

/// What is so declared is to an enum.
fn part_of(sort: Sort) -> EnumPart
    ensures { result ≡ part_of sort }
{
    match sort {
        Sort::Enum => EnumPart::Block,
        Sort::ConstEnum => EnumPart::Block,
        Sort::EnumMember => EnumPart::Member,
        _ => EnumPart::Neither,
    }
}

/// Adds the body of the declaration to its enum.
fn add_body(table: &mut Scoping, declaration: &Declaration) -> Result<(), OutOfMemory>
    ensures { OnOk result (table.new ≡ with_body (scope_of_number (number_of (doc_or_nil declaration.now.body)) table.old) (symbol_of declaration.now.node.0 table.old) table.old) }
{
    let scope = scope_of_number(table, number_of(declaration.body));
    match table.symbol_of(declaration.node) {
        Some(symbol) => table.add_enum_body(symbol, scope),
        None => Ok(()),
    }
}

/// The number of the node, and 0 for anything else.
fn number_of(part: Option<&Part>) -> NodeId
    ensures { result.0 ≡ number_of (doc_or_nil part.entry) }
{
    match part {
        Some(Part::Node(node)) => node.id,
        _ => NodeId(0),
    }
}

/// Gives the member that the node declares the constant, if there is one.
fn set_value(
    table: &mut Scoping,
    member: NodeId,
    value: Option<&ConstantValue>,
) -> Result<(), OutOfMemory>
    ensures { OnOk result (table.new ≡ with_value (option_map (λ v. constant_view v.now) value.entry) (symbol_of member.0 table.old) table.old) }
{
    let Some(value) = value else {
        return Ok(());
    };
    let symbol = table.symbol_of(member);
    set_value_of(table, symbol, value)
}

/// Gives the symbol the constant, if there is one.
fn set_value_of(
    table: &mut Scoping,
    symbol: Option<SymbolId>,
    value: &ConstantValue,
) -> Result<(), OutOfMemory>
    requires { IfSome symbol (λ member. member.0 < length table.old.symbols) }
    ensures { OnOk result (table.new ≡ with_value (Some (constant_view value.now)) symbol table.old) }
{
    match symbol {
        Some(symbol) => {
            table.set_enum_member_value(symbol, value.share()?);
            Ok(())
        }
        None => Ok(()),
    }
}
