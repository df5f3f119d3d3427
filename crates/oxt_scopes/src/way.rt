//! How names are read, and where.
ghost use Rattle.std.specs.Prelude.{◌≡◌};
ghost use Rattle.oxt_scopes.specs.Ways.{around_way, assigned, assignment_way, each_way, element_way, function_way, here_way, in_method, is_typed, method_step, method_way, named_way, only, other_step, own_decorators, parameter_way, specifier_way, step_of, update_way, value_step, value_way, way_of, within_way};
ghost use Rattle.oxt_grammar.specs.Keys.{key_of};

use oxt_declares::role::Role;
use oxt_grammar::field::Field;
use oxt_grammar::holds::Row;

/// How the names in a node are read.
#[derive(Clone, Copy)]
pub enum Way {
    /// As values.
    Whole,
    /// As values, in a method of a class.
    Method,
    /// As what is assigned.
    Written,
    /// As what is read and assigned.
    Updated,
    /// As types.
    Typed,
    /// As types in the signature of the innermost function.
    Signature,
}

/// The fields of a node that are read together.
#[derive(Clone, Copy)]
pub enum Pass {
    /// Those of a node that opens no scope.
    Here,
    /// Those that are read around the scope that the node opens.
    Around,
    /// Those that are read in it.
    Within,
    /// Those that are read around the innermost scope.
    Beyond,
}

/// What becomes of a node.
#[derive(Clone, Copy)]
pub enum Step {
    /// It is a name that is used.
    Use,
    /// It opens a scope.
    Opens,
    /// A part of it is read around the innermost scope.
    Hides,
    /// Its fields are read where it stands.
    Plain,
}

/// How the fields of a node are read.
#[derive(Clone, Copy)]
pub struct Reading {
    pub pass: Pass,
    pub role: Role,
    pub way: Way,
    /// Whether the node is an import or an export of types alone, or an assignment by `=`.
    pub is_marked: bool,
}

/// What becomes of a node of that role that is read that way.
pub fn step_of(role: Role, way: Way) -> Step
    ensures { result ≡ step_of role way }
{
    match role {
        Role::Reference => Step::Use,
        Role::Specifier => Step::Plain,
        _ => other_step(role, way),
    }
}

fn other_step(role: Role, way: Way) -> Step
    ensures { result ≡ other_step role way }
{
    match way {
        Way::Typed => Step::Plain,
        Way::Signature => Step::Plain,
        Way::Method => method_step(role),
        _ => value_step(role),
    }
}

fn method_step(role: Role) -> Step
    ensures { result ≡ method_step role }
{
    match role {
        Role::Parameter => Step::Hides,
        _ => value_step(role),
    }
}

fn value_step(role: Role) -> Step
    ensures { result ≡ value_step role }
{
    match role {
        Role::Program => Step::Opens,
        Role::Block => Step::Opens,
        Role::For => Step::Opens,
        Role::ForEach => Step::Opens,
        Role::Switch => Step::Opens,
        Role::Catch => Step::Opens,
        Role::Function => Step::Opens,
        Role::Overload => Step::Opens,
        Role::FunctionExpression => Step::Opens,
        Role::Arrow => Step::Opens,
        Role::Class => Step::Opens,
        Role::ClassExpression => Step::Opens,
        Role::StaticBlock => Step::Opens,
        Role::Enum => Step::Opens,
        Role::Namespace => Step::Opens,
        Role::Module => Step::Opens,
        _ => Step::Plain,
    }
}

impl Reading {
    /// The same of other fields.
    pub fn with(self, pass: Pass) -> Reading
        ensures { result ≡ record self { pass = pass } }
    {
        Reading { pass, ..self }
    }

    /// How the field of that row is read; none where it is not.
    #[inline(always)]
    pub fn way_of(self, row: &Row) -> Option<Way>
        ensures { result ≡ way_of self (key_of row.now.field) }
    {
        match self.pass {
            Pass::Here => self.here(row),
            Pass::Around => self.around(row),
            Pass::Within => self.within(row),
            Pass::Beyond => only(row.is(Field::Decorators)),
        }
    }

    fn here(self, row: &Row) -> Option<Way>
        ensures { result ≡ here_way self (key_of row.now.field) }
    {
        match self.role {
            Role::Specifier => self.specifier(row),
            _ => {
                if self.way.is_typed() {
                    return Some(self.way);
                }
                self.value(row)
            }
        }
    }

    fn value(self, row: &Row) -> Option<Way>
        ensures { result ≡ value_way self.role self (key_of row.now.field) }
    {
        match self.role {
            Role::Import => None,
            Role::Silent => None,
            Role::Type => Some(Way::Typed),
            Role::ExportList => Some(named_way(self.is_marked, Way::Whole)),
            Role::ImportEquals => Some(named_way(self.is_marked, Way::Whole)),
            Role::Assignment => Some(assignment_way(self.is_marked, row)),
            Role::Update => Some(update_way(row)),
            Role::Target => Some(self.way),
            Role::TargetElement => Some(element_way(self.way, row)),
            Role::Method => Some(method_way(row)),
            Role::Parameter => parameter_way(self.way, row),
            _ => Some(in_method(self.way)),
        }
    }

    fn specifier(self, row: &Row) -> Option<Way>
        ensures { result ≡ specifier_way self (key_of row.now.field) }
    {
        if row.is(Field::Local) {
            return Some(named_way(self.is_marked, self.way));
        }
        None
    }

    fn around(self, row: &Row) -> Option<Way>
        ensures { result ≡ around_way self.role (key_of row.now.field) }
    {
        match self.role {
            Role::Class => only(row.is(Field::Decorators)),
            Role::ClassExpression => only(row.is(Field::Decorators)),
            Role::Switch => only(row.is(Field::Discriminant)),
            _ => None,
        }
    }

    fn within(self, row: &Row) -> Option<Way>
        ensures { result ≡ within_way self.role self.way (key_of row.now.field) }
    {
        match self.role {
            Role::Class => only(!(row.is(Field::Decorators))),
            Role::ClassExpression => only(!(row.is(Field::Decorators))),
            Role::Switch => only(!(row.is(Field::Discriminant))),
            Role::ForEach => Some(each_way(row)),
            Role::Function => Some(function_way(self.way, row)),
            Role::Overload => Some(function_way(self.way, row)),
            Role::FunctionExpression => Some(function_way(self.way, row)),
            Role::Arrow => Some(function_way(self.way, row)),
            _ => Some(Way::Whole),
        }
    }
}

impl Way {
    /// Whether names are read as types.
    fn is_typed(self) -> bool
        ensures { result ≡ is_typed self }
    {
        match self {
            Way::Typed => true,
            Way::Signature => true,
            _ => false,
        }
    }
}

fn only(is_read: bool) -> Option<Way>
    ensures { result ≡ only is_read }
{
    if is_read { Some(Way::Whole) } else { None }
}

fn method_way(row: &Row) -> Way
    ensures { result ≡ method_way (key_of row.now.field) }
{
    if row.is(Field::Value) {
        Way::Method
    } else {
        Way::Whole
    }
}

fn parameter_way(way: Way, row: &Row) -> Option<Way>
    ensures { result ≡ parameter_way way (key_of row.now.field) }
{
    if row.is(Field::Decorators) {
        return own_decorators(way);
    }
    if row.is(Field::TypeAnnotation) {
        return Some(Way::Signature);
    }
    Some(Way::Whole)
}

fn own_decorators(way: Way) -> Option<Way>
    ensures { result ≡ own_decorators way }
{
    match way {
        Way::Method => None,
        _ => Some(Way::Whole),
    }
}

fn function_way(way: Way, row: &Row) -> Way
    ensures { result ≡ function_way way (key_of row.now.field) }
{
    if row.is(Field::Params) {
        return in_method(way);
    }
    if row.is(Field::ThisParam) {
        return Way::Signature;
    }
    if row.is(Field::ReturnType) {
        return Way::Signature;
    }
    Way::Whole
}

/// Only what belongs to a method is read in it.
fn in_method(way: Way) -> Way
    ensures { result ≡ in_method way }
{
    match way {
        Way::Method => Way::Method,
        _ => Way::Whole,
    }
}

fn each_way(row: &Row) -> Way
    ensures { result ≡ each_way (key_of row.now.field) }
{
    if row.is(Field::Left) {
        Way::Written
    } else {
        Way::Whole
    }
}

fn named_way(is_type_only: bool, way: Way) -> Way
    ensures { result ≡ named_way is_type_only way }
{
    if is_type_only { Way::Typed } else { way }
}

fn assigned(is_plain: bool) -> Way
    ensures { result ≡ assigned is_plain }
{
    if is_plain { Way::Written } else { Way::Updated }
}

fn assignment_way(is_plain: bool, row: &Row) -> Way
    ensures { result ≡ assignment_way is_plain (key_of row.now.field) }
{
    if row.is(Field::Left) {
        assigned(is_plain)
    } else {
        Way::Whole
    }
}

fn update_way(row: &Row) -> Way
    ensures { result ≡ update_way (key_of row.now.field) }
{
    if row.is(Field::Argument) {
        Way::Updated
    } else {
        Way::Whole
    }
}

fn element_way(way: Way, row: &Row) -> Way
    ensures { result ≡ element_way way (key_of row.now.field) }
{
    if row.is(Field::Binding) {
        way
    } else {
        Way::Whole
    }
}
