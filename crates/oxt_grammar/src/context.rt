// Written by tools/grammar.py from grammar/grammar.txt.
ghost use Rattle.std.specs.Prelude.{◌≡◌};
ghost use Rattle.oxt_grammar.specs.Context.{condition_of, setting_of};

use crate::kind::Kind;

/// A condition on a node beside what its fields hold.
#[derive(Clone, Copy)]
pub enum Condition {
    Nothing,
    ElementKey,
    PlainKey,
    TargetKey,
    Number,
    Chain,
    Template,
    EnumMember,
    Constructors,
    NamedDeclaration,
    LiteralType,
}

/// What a node stands directly in, as far as that narrows what its fields hold.
#[derive(Clone, Copy)]
pub enum Setting {
    Elsewhere,
    NamedExport,
    DefaultExport,
}

impl Kind {
    /// The condition that a node of this kind has to meet beside what its fields hold.
    pub fn condition(self) -> Condition
        ensures { result ≡ condition_of self }
    {
        match self {
            Kind::FunctionDeclaration => Condition::NamedDeclaration,
            Kind::TSDeclareFunction => Condition::NamedDeclaration,
            Kind::ClassDeclaration => Condition::NamedDeclaration,
            Kind::ClassBody => Condition::Constructors,
            Kind::MethodDefinition => Condition::ElementKey,
            Kind::TSAbstractMethodDefinition => Condition::ElementKey,
            Kind::PropertyDefinition => Condition::ElementKey,
            Kind::TSAbstractPropertyDefinition => Condition::ElementKey,
            Kind::AccessorProperty => Condition::ElementKey,
            Kind::TSAbstractAccessorProperty => Condition::ElementKey,
            Kind::BindingProperty => Condition::PlainKey,
            Kind::AssignmentTargetPropertyProperty => Condition::TargetKey,
            Kind::NumericLiteral => Condition::Number,
            Kind::TemplateLiteral => Condition::Template,
            Kind::ObjectProperty => Condition::PlainKey,
            Kind::ChainExpression => Condition::Chain,
            Kind::TSEnumMember => Condition::EnumMember,
            Kind::TSLiteralType => Condition::LiteralType,
            _ => Condition::Nothing,
        }
    }

    /// What the nodes in the fields of a node of this kind stand in.
    pub fn setting(self) -> Setting
        ensures { result ≡ setting_of self }
    {
        match self {
            Kind::ExportNamedDeclaration => Setting::NamedExport,
            Kind::ExportDefaultDeclaration => Setting::DefaultExport,
            _ => Setting::Elsewhere,
        }
    }
}
