//! Which expressions may be constants.
ghost use Rattle.std.specs.Prelude.{◌≡◌};
ghost use Rattle.oxt_constant.specs.Forms.{form_of};

use oxt_grammar::kind::Kind;

/// How the constant of an expression is found.
#[derive(Clone, Copy)]
pub enum Form {
    /// It is the number.
    Number,
    /// It is the text.
    String,
    /// The texts of a template, joined with the constants between them.
    Template,
    /// That of what stands inside.
    Parentheses,
    /// What an operator makes of the operand.
    Unary,
    /// What an operator makes of both operands.
    Binary,
    /// That of the enum member that the name means.
    Name,
    /// That of the enum member after the dot.
    Static,
    /// That of the enum member in the brackets.
    Computed,
    /// There is none.
    Other,
}

/// How the constant of an expression of that kind is found.
pub fn form_of(kind: Kind) -> Form
    ensures { result ≡ form_of kind }
{
    if kind.is(Kind::NumericLiteral) {
        Form::Number
    } else if kind.is(Kind::StringLiteral) {
        Form::String
    } else if kind.is(Kind::TemplateLiteral) {
        Form::Template
    } else if kind.is(Kind::ParenthesizedExpression) {
        Form::Parentheses
    } else if kind.is(Kind::UnaryExpression) {
        Form::Unary
    } else if kind.is(Kind::BinaryExpression) {
        Form::Binary
    } else if kind.is(Kind::IdentifierReference) {
        Form::Name
    } else if kind.is(Kind::StaticMemberExpression) {
        Form::Static
    } else if kind.is(Kind::ComputedMemberExpression) {
        Form::Computed
    } else {
        Form::Other
    }
}
