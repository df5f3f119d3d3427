// Written by tools/grammar.py from grammar/grammar.txt.
ghost use Rattle.std.specs.Prelude.{◌≡◌, map};
ghost use Rattle.oxt_grammar.specs.Field.{row_view};
ghost use Rattle.oxt_grammar.specs.Rows.{row_of, row_of_2, row_of_3, row_of_4};

use crate::category::Category;
use crate::field::Field;
use crate::holds::{Holds, Presence, Row};
use crate::kind::Kind;
use crate::word::Words;

macro_rules! rows {
    ($kind:expr; $rest:expr; $($name:ident { $($field:ident $presence:ident $holds:expr,)* })*) => {
        match $kind {
            $(Kind::$name => &[
                $(Row { field: Field::$field, holds: $holds, presence: Presence::$presence }),*
            ],)*
            _ => $rest,
        }
    };
}

impl Kind {
    /// The fields of a node of this kind, in the order in which they are checked.
    #[tactic(auto, unfolding(crate::specs::Rows::row_of))]
    pub fn rows(self) -> &'static [Row]
        ensures { map row_view result.now ≡ row_of self }
    {
        rows! { self; self.rows_2();
            Program {
                SourceType Optional Holds::Word(Words::SourceType),
                Lang Optional Holds::Word(Words::Lang),
                Hashbang Optional Holds::TextOrNull,
                Directives Optional Holds::List(Category::Directive),
                Body Required Holds::List(Category::Item),
            }
            Directive {
                Value Required Holds::Text,
            }
            ExpressionStatement {
                Expression Required Holds::Node(Category::Expression),
            }
            BlockStatement {
                Body Required Holds::List(Category::Statement),
            }
            EmptyStatement {}
            DebuggerStatement {}
            IfStatement {
                Test Required Holds::Node(Category::Expression),
                Consequent Required Holds::Node(Category::Statement),
                Alternate Optional Holds::NodeOrNull(Category::Statement),
            }
            ForStatement {
                Init Optional Holds::NodeOrNull(Category::ForStatementInit),
                Test Optional Holds::NodeOrNull(Category::Expression),
                Update Optional Holds::NodeOrNull(Category::Expression),
                Body Required Holds::Node(Category::Statement),
            }
            ForInStatement {
                Left Required Holds::Node(Category::ForStatementLeft),
                Right Required Holds::Node(Category::Expression),
                Body Required Holds::Node(Category::Statement),
            }
            ForOfStatement {
                Await Optional Holds::Flag,
                Left Required Holds::Node(Category::ForStatementLeft),
                Right Required Holds::Node(Category::Expression),
                Body Required Holds::Node(Category::Statement),
            }
            WhileStatement {
                Test Required Holds::Node(Category::Expression),
                Body Required Holds::Node(Category::Statement),
            }
            DoWhileStatement {
                Body Required Holds::Node(Category::Statement),
                Test Required Holds::Node(Category::Expression),
            }
            ReturnStatement {
                Argument Optional Holds::NodeOrNull(Category::Expression),
            }
            ThrowStatement {
                Argument Required Holds::Node(Category::Expression),
            }
            BreakStatement {
                Label Optional Holds::TextOrNull,
            }
            ContinueStatement {
                Label Optional Holds::TextOrNull,
            }
            LabeledStatement {
                Label Required Holds::Text,
                Body Required Holds::Node(Category::Statement),
            }
            WithStatement {
                Object Required Holds::Node(Category::Expression),
                Body Required Holds::Node(Category::Statement),
            }
            SwitchStatement {
                Discriminant Required Holds::Node(Category::Expression),
                Cases Required Holds::List(Category::SwitchCase),
            }
            SwitchCase {
                Test Optional Holds::NodeOrNull(Category::Expression),
                Consequent Optional Holds::List(Category::Statement),
            }
            TryStatement {
                Block Required Holds::Node(Category::BlockStatement),
                Handler Optional Holds::NodeOrNull(Category::CatchClause),
                Finalizer Optional Holds::NodeOrNull(Category::BlockStatement),
            }
            CatchClause {
                Param Optional Holds::NodeOrNull(Category::CatchParameter),
                Body Required Holds::Node(Category::BlockStatement),
            }
            CatchParameter {
                Pattern Required Holds::Node(Category::Pattern),
                TypeAnnotation TypeScript Holds::NodeOrNull(Category::TSTypeAnnotation),
            }
            VariableDeclaration {
                Kind Required Holds::Word(Words::VariableKind),
                Declarations Required Holds::List(Category::VariableDeclarator),
                Declare TypeScript Holds::Flag,
            }
            VariableDeclarator {
                Id Required Holds::Node(Category::Pattern),
                TypeAnnotation TypeScript Holds::NodeOrNull(Category::TSTypeAnnotation),
                Definite TypeScript Holds::Flag,
                Init Optional Holds::NodeOrNull(Category::Expression),
            }
            FunctionDeclaration {
                Id Optional Holds::NodeOrNull(Category::BindingIdentifier),
                Async Optional Holds::Flag,
                Generator Optional Holds::Flag,
                Declare TypeScript Holds::Flag,
                TypeParameters TypeScript Holds::NodeOrNull(Category::TSTypeParameterDeclaration),
                ThisParam TypeScript Holds::NodeOrNull(Category::TSThisParameter),
                Params Required Holds::Node(Category::FormalParameters),
                ReturnType TypeScript Holds::NodeOrNull(Category::TSTypeAnnotation),
                Body Required Holds::Node(Category::FunctionBody),
            }
            FunctionExpression {
                Id Optional Holds::NodeOrNull(Category::BindingIdentifier),
                Async Optional Holds::Flag,
                Generator Optional Holds::Flag,
                Declare TypeScript Holds::Flag,
                TypeParameters TypeScript Holds::NodeOrNull(Category::TSTypeParameterDeclaration),
                ThisParam TypeScript Holds::NodeOrNull(Category::TSThisParameter),
                Params Required Holds::Node(Category::FormalParameters),
                ReturnType TypeScript Holds::NodeOrNull(Category::TSTypeAnnotation),
                Body Required Holds::Node(Category::FunctionBody),
            }
            TSDeclareFunction {
                Id Optional Holds::NodeOrNull(Category::BindingIdentifier),
                Async Optional Holds::Flag,
                Generator Optional Holds::Flag,
                Declare TypeScript Holds::Flag,
                TypeParameters TypeScript Holds::NodeOrNull(Category::TSTypeParameterDeclaration),
                ThisParam TypeScript Holds::NodeOrNull(Category::TSThisParameter),
                Params Required Holds::Node(Category::FormalParameters),
                ReturnType TypeScript Holds::NodeOrNull(Category::TSTypeAnnotation),
            }
            TSEmptyBodyFunctionExpression {
                Id Optional Holds::NodeOrNull(Category::BindingIdentifier),
                Async Optional Holds::Flag,
                Generator Optional Holds::Flag,
                Declare TypeScript Holds::Flag,
                TypeParameters TypeScript Holds::NodeOrNull(Category::TSTypeParameterDeclaration),
                ThisParam TypeScript Holds::NodeOrNull(Category::TSThisParameter),
                Params Required Holds::Node(Category::FormalParameters),
                ReturnType TypeScript Holds::NodeOrNull(Category::TSTypeAnnotation),
            }
            FormalParameters {
                Items Required Holds::List(Category::FormalParameter),
                Rest Optional Holds::NodeOrNull(Category::FormalParameterRest),
            }
            FormalParameter {
                Decorators Optional Holds::List(Category::Decorator),
                Accessibility TypeScript Holds::WordOrNull(Words::Accessibility),
                Readonly TypeScript Holds::Flag,
                Override TypeScript Holds::Flag,
                Optional TypeScript Holds::Flag,
                Pattern Required Holds::Node(Category::Pattern),
                TypeAnnotation TypeScript Holds::NodeOrNull(Category::TSTypeAnnotation),
                Initializer Optional Holds::NodeOrNull(Category::Expression),
            }
            FormalParameterRest {
                Pattern Required Holds::Node(Category::Pattern),
                TypeAnnotation TypeScript Holds::NodeOrNull(Category::TSTypeAnnotation),
            }
            FunctionBody {
                Directives Optional Holds::List(Category::Directive),
                Statements Required Holds::List(Category::Statement),
            }
            ArrowFunctionExpression {
                Async Optional Holds::Flag,
                TypeParameters TypeScript Holds::NodeOrNull(Category::TSTypeParameterDeclaration),
                Params Required Holds::Node(Category::FormalParameters),
                ReturnType TypeScript Holds::NodeOrNull(Category::TSTypeAnnotation),
                Body Required Holds::Node(Category::ArrowFunctionBody),
            }
            ClassDeclaration {
                Decorators Optional Holds::List(Category::Decorator),
                Id Optional Holds::NodeOrNull(Category::BindingIdentifier),
                TypeParameters TypeScript Holds::NodeOrNull(Category::TSTypeParameterDeclaration),
                SuperClass Optional Holds::NodeOrNull(Category::Expression),
                SuperTypeArguments TypeScript Holds::NodeOrNull(Category::TSTypeParameterInstantiation),
                Implements TypeScript Holds::List(Category::TSClassImplements),
                Abstract TypeScript Holds::Flag,
                Declare TypeScript Holds::Flag,
                Body Required Holds::Node(Category::ClassBody),
            }
            ClassExpression {
                Decorators Optional Holds::List(Category::Decorator),
                Id Optional Holds::NodeOrNull(Category::BindingIdentifier),
                TypeParameters TypeScript Holds::NodeOrNull(Category::TSTypeParameterDeclaration),
                SuperClass Optional Holds::NodeOrNull(Category::Expression),
                SuperTypeArguments TypeScript Holds::NodeOrNull(Category::TSTypeParameterInstantiation),
                Implements TypeScript Holds::List(Category::TSClassImplements),
                Abstract TypeScript Holds::Flag,
                Declare TypeScript Holds::Flag,
                Body Required Holds::Node(Category::ClassBody),
            }
            ClassBody {
                Body Required Holds::List(Category::ClassElement),
            }
            MethodDefinition {
                Decorators Optional Holds::List(Category::Decorator),
                Key Required Holds::Node(Category::PropertyKey),
                Computed Optional Holds::Flag,
                Kind Optional Holds::Word(Words::MethodKind),
                Static Optional Holds::Flag,
                Override TypeScript Holds::Flag,
                Optional TypeScript Holds::Flag,
                Accessibility TypeScript Holds::WordOrNull(Words::Accessibility),
                Value Required Holds::Node(Category::MethodValue),
            }
            TSAbstractMethodDefinition {
                Decorators Optional Holds::List(Category::Decorator),
                Key Required Holds::Node(Category::PropertyKey),
                Computed Optional Holds::Flag,
                Kind Optional Holds::Word(Words::MethodKind),
                Static Optional Holds::Flag,
                Override TypeScript Holds::Flag,
                Optional Optional Holds::Flag,
                Accessibility TypeScript Holds::WordOrNull(Words::Accessibility),
                Value Required Holds::Node(Category::MethodValue),
            }
            PropertyDefinition {
                Decorators Optional Holds::List(Category::Decorator),
                Key Required Holds::Node(Category::PropertyKey),
                Computed Optional Holds::Flag,
                Static Optional Holds::Flag,
                Declare TypeScript Holds::Flag,
                Override TypeScript Holds::Flag,
                Optional TypeScript Holds::Flag,
                Definite TypeScript Holds::Flag,
                Readonly TypeScript Holds::Flag,
                Accessibility TypeScript Holds::WordOrNull(Words::Accessibility),
                TypeAnnotation TypeScript Holds::NodeOrNull(Category::TSTypeAnnotation),
                Value Optional Holds::NodeOrNull(Category::Expression),
            }
            TSAbstractPropertyDefinition {
                Decorators Optional Holds::List(Category::Decorator),
                Key Required Holds::Node(Category::PropertyKey),
                Computed Optional Holds::Flag,
                Static Optional Holds::Flag,
                Declare TypeScript Holds::Flag,
                Override TypeScript Holds::Flag,
                Optional Optional Holds::Flag,
                Definite TypeScript Holds::Flag,
                Readonly TypeScript Holds::Flag,
                Accessibility TypeScript Holds::WordOrNull(Words::Accessibility),
                TypeAnnotation TypeScript Holds::NodeOrNull(Category::TSTypeAnnotation),
                Value Optional Holds::NodeOrNull(Category::Expression),
            }
            AccessorProperty {
                Decorators Optional Holds::List(Category::Decorator),
                Key Required Holds::Node(Category::PropertyKey),
                Computed Optional Holds::Flag,
                Static Optional Holds::Flag,
                Override TypeScript Holds::Flag,
                Definite TypeScript Holds::Flag,
                Accessibility TypeScript Holds::WordOrNull(Words::Accessibility),
                TypeAnnotation TypeScript Holds::NodeOrNull(Category::TSTypeAnnotation),
                Value Optional Holds::NodeOrNull(Category::Expression),
            }
            TSAbstractAccessorProperty {
                Decorators Optional Holds::List(Category::Decorator),
                Key Required Holds::Node(Category::PropertyKey),
                Computed Optional Holds::Flag,
                Static Optional Holds::Flag,
                Override TypeScript Holds::Flag,
                Definite TypeScript Holds::Flag,
                Accessibility TypeScript Holds::WordOrNull(Words::Accessibility),
                TypeAnnotation TypeScript Holds::NodeOrNull(Category::TSTypeAnnotation),
                Value Optional Holds::NodeOrNull(Category::Expression),
            }
            StaticBlock {
                Body Required Holds::List(Category::Statement),
            }
            Decorator {
                Expression Required Holds::Node(Category::Expression),
            }
            BindingIdentifier {
                Name Required Holds::Text,
            }
        }
    }

    /// The same, behind the kinds above.
    fn rows_2(self) -> &'static [Row]
        ensures { map row_view result.now ≡ row_of_2 self }
    {
        rows! { self; self.rows_3();
            IdentifierReference {
                Name Required Holds::Text,
            }
            IdentifierName {
                Name Required Holds::Text,
            }
            PrivateIdentifier {
                Name Required Holds::Text,
            }
            ObjectPattern {
                Properties Required Holds::List(Category::BindingProperty),
                Rest Optional Holds::NodeOrNull(Category::BindingRestElement),
            }
            ArrayPattern {
                Elements Required Holds::ListOfNullable(Category::Pattern),
                Rest Optional Holds::NodeOrNull(Category::BindingRestElement),
            }
            BindingProperty {
                Key Required Holds::Node(Category::PropertyKey),
                Computed Optional Holds::Flag,
                Shorthand Optional Holds::Flag,
                Value Required Holds::Node(Category::Pattern),
            }
            BindingRestElement {
                Argument Required Holds::Node(Category::Pattern),
            }
            AssignmentPattern {
                Left Required Holds::Node(Category::Pattern),
                Right Required Holds::Node(Category::Expression),
            }
            ArrayAssignmentTarget {
                Elements Required Holds::ListOfNullable(Category::AssignmentTargetMaybeDefault),
                Rest Optional Holds::NodeOrNull(Category::AssignmentTargetRest),
            }
            ObjectAssignmentTarget {
                Properties Required Holds::List(Category::AssignmentTargetProperty),
                Rest Optional Holds::NodeOrNull(Category::AssignmentTargetRest),
            }
            AssignmentTargetPropertyIdentifier {
                Binding Required Holds::Node(Category::IdentifierReference),
                Init Optional Holds::NodeOrNull(Category::Expression),
            }
            AssignmentTargetPropertyProperty {
                Name Required Holds::Node(Category::PropertyKey),
                Computed Optional Holds::Flag,
                Binding Required Holds::Node(Category::AssignmentTargetMaybeDefault),
            }
            AssignmentTargetRest {
                Target Required Holds::Node(Category::AssignmentTarget),
            }
            AssignmentTargetWithDefault {
                Binding Required Holds::Node(Category::AssignmentTarget),
                Init Required Holds::Node(Category::Expression),
            }
            BooleanLiteral {
                Value Required Holds::Flag,
            }
            NullLiteral {}
            ThisExpression {}
            Super {}
            NumericLiteral {
                Value Optional Holds::WholeOrNull,
                Raw Optional Holds::TextOrNull,
            }
            StringLiteral {
                Value Required Holds::Text,
                Raw Optional Holds::TextOrNull,
            }
            BigIntLiteral {
                Raw Required Holds::Text,
            }
            RegExpLiteral {
                Pattern Required Holds::Text,
                Flags Required Holds::Text,
            }
            MetaProperty {
                Meta Required Holds::Text,
                Property Required Holds::Text,
            }
            TemplateLiteral {
                Quasis Required Holds::List(Category::TemplateElement),
                Expressions Optional Holds::List(Category::Expression),
            }
            TemplateElement {
                Raw Required Holds::Text,
                Cooked Optional Holds::TextOrNull,
            }
            TaggedTemplateExpression {
                Tag Required Holds::Node(Category::Expression),
                TypeArguments TypeScript Holds::NodeOrNull(Category::TSTypeParameterInstantiation),
                Quasi Required Holds::Node(Category::TemplateLiteral),
            }
            ArrayExpression {
                Elements Required Holds::ListOfNullable(Category::Argument),
            }
            ObjectExpression {
                Properties Required Holds::List(Category::ObjectPropertyKind),
            }
            SpreadElement {
                Argument Required Holds::Node(Category::Expression),
            }
            ObjectProperty {
                Kind Optional Holds::Word(Words::PropertyKind),
                Key Required Holds::Node(Category::PropertyKey),
                Computed Optional Holds::Flag,
                Method Optional Holds::Flag,
                Shorthand Optional Holds::Flag,
                Value Required Holds::Node(Category::Expression),
            }
            AssignmentExpression {
                Operator Required Holds::Text,
                Left Required Holds::Node(Category::AssignmentTarget),
                Right Required Holds::Node(Category::Expression),
            }
            BinaryExpression {
                Operator Required Holds::Text,
                Left Required Holds::Node(Category::Expression),
                Right Required Holds::Node(Category::Expression),
            }
            LogicalExpression {
                Operator Required Holds::Text,
                Left Required Holds::Node(Category::Expression),
                Right Required Holds::Node(Category::Expression),
            }
            UnaryExpression {
                Operator Required Holds::Text,
                Argument Required Holds::Node(Category::Expression),
            }
            UpdateExpression {
                Operator Required Holds::Word(Words::UpdateOperator),
                Prefix Optional Holds::Flag,
                Argument Required Holds::Node(Category::SimpleAssignmentTarget),
            }
            ConditionalExpression {
                Test Required Holds::Node(Category::Expression),
                Consequent Required Holds::Node(Category::Expression),
                Alternate Required Holds::Node(Category::Expression),
            }
            SequenceExpression {
                Expressions Required Holds::List(Category::Expression),
            }
            ParenthesizedExpression {
                Expression Required Holds::Node(Category::Expression),
            }
            CallExpression {
                Callee Required Holds::Node(Category::Expression),
                TypeArguments TypeScript Holds::NodeOrNull(Category::TSTypeParameterInstantiation),
                Arguments Required Holds::List(Category::Argument),
                Optional Optional Holds::Flag,
                Pure Optional Holds::Flag,
            }
            NewExpression {
                Callee Required Holds::Node(Category::Expression),
                TypeArguments TypeScript Holds::NodeOrNull(Category::TSTypeParameterInstantiation),
                Arguments Required Holds::List(Category::Argument),
                Pure Optional Holds::Flag,
            }
            ImportExpression {
                Source Required Holds::Node(Category::Expression),
                Options Optional Holds::NodeOrNull(Category::Expression),
            }
            StaticMemberExpression {
                Object Required Holds::Node(Category::Expression),
                Property Required Holds::Node(Category::IdentifierName),
                Optional Optional Holds::Flag,
            }
            ComputedMemberExpression {
                Object Required Holds::Node(Category::Expression),
                Expression Required Holds::Node(Category::Expression),
                Optional Optional Holds::Flag,
            }
            PrivateFieldExpression {
                Object Required Holds::Node(Category::Expression),
                Field Required Holds::Node(Category::PrivateIdentifier),
                Optional Optional Holds::Flag,
            }
            PrivateInExpression {
                Left Required Holds::Node(Category::PrivateIdentifier),
                Right Required Holds::Node(Category::Expression),
            }
            ChainExpression {
                Expression Required Holds::Node(Category::ChainElement),
            }
        }
    }

    /// The same, behind the kinds above.
    fn rows_3(self) -> &'static [Row]
        ensures { map row_view result.now ≡ row_of_3 self }
    {
        rows! { self; self.rows_4();
            AwaitExpression {
                Argument Required Holds::Node(Category::Expression),
            }
            YieldExpression {
                Delegate Optional Holds::Flag,
                Argument Optional Holds::NodeOrNull(Category::Expression),
            }
            TSAsExpression {
                Expression Required Holds::Node(Category::Expression),
                TypeAnnotation Required Holds::Node(Category::TSType),
            }
            TSSatisfiesExpression {
                Expression Required Holds::Node(Category::Expression),
                TypeAnnotation Required Holds::Node(Category::TSType),
            }
            TSTypeAssertion {
                Expression Required Holds::Node(Category::Expression),
                TypeAnnotation Required Holds::Node(Category::TSType),
            }
            TSNonNullExpression {
                Expression Required Holds::Node(Category::Expression),
            }
            TSInstantiationExpression {
                Expression Required Holds::Node(Category::Expression),
                TypeArguments Required Holds::Node(Category::TSTypeParameterInstantiation),
            }
            JSXElement {
                OpeningElement Required Holds::Node(Category::JSXOpeningElement),
                Children Optional Holds::List(Category::JSXChild),
                ClosingElement Optional Holds::NodeOrNull(Category::JSXClosingElement),
            }
            JSXFragment {
                Children Optional Holds::List(Category::JSXChild),
            }
            JSXOpeningElement {
                Name Required Holds::Node(Category::JSXElementName),
                TypeArguments TypeScript Holds::NodeOrNull(Category::TSTypeParameterInstantiation),
                Attributes Optional Holds::List(Category::JSXAttributeItem),
            }
            JSXClosingElement {
                Name Required Holds::Node(Category::JSXElementName),
            }
            JSXIdentifier {
                Name Required Holds::Text,
            }
            JSXNamespacedName {
                Namespace Required Holds::Text,
                Name Required Holds::Text,
            }
            JSXMemberExpression {
                Object Required Holds::Node(Category::JSXElementName),
                Property Required Holds::Text,
            }
            JSXAttribute {
                Name Required Holds::Node(Category::JSXAttributeName),
                Value Optional Holds::NodeOrNull(Category::JSXAttributeValue),
            }
            JSXSpreadAttribute {
                Argument Required Holds::Node(Category::Expression),
            }
            JSXExpressionContainer {
                Expression Required Holds::Node(Category::JSXExpression),
            }
            JSXEmptyExpression {}
            JSXSpreadChild {
                Expression Required Holds::Node(Category::Expression),
            }
            JSXText {
                Value Required Holds::Text,
            }
            ImportDeclaration {
                ImportKind TypeScript Holds::Word(Words::TypeOrValue),
                Phase Optional Holds::WordOrNull(Words::Phase),
                Specifiers Optional Holds::ListOrNull(Category::ImportDeclarationSpecifier),
                Source Required Holds::Node(Category::StringLiteral),
                WithClause Optional Holds::NodeOrNull(Category::WithClause),
            }
            ImportSpecifier {
                ImportKind TypeScript Holds::Word(Words::TypeOrValue),
                Imported Required Holds::Node(Category::ModuleExportName),
                Local Required Holds::Node(Category::BindingIdentifier),
            }
            ImportDefaultSpecifier {
                Local Required Holds::Node(Category::BindingIdentifier),
            }
            ImportNamespaceSpecifier {
                Local Required Holds::Node(Category::BindingIdentifier),
            }
            WithClause {
                Entries Optional Holds::List(Category::ImportAttribute),
            }
            ImportAttribute {
                Key Required Holds::Node(Category::ImportAttributeKey),
                Value Required Holds::Node(Category::StringLiteral),
            }
            ExportDeclaration {
                Declaration Required Holds::Node(Category::Declaration),
            }
            ExportNamedDeclaration {
                ExportKind TypeScript Holds::Word(Words::TypeOrValue),
                Specifiers Optional Holds::List(Category::ExportSpecifier),
            }
            ExportFromDeclaration {
                ExportKind TypeScript Holds::Word(Words::TypeOrValue),
                Specifiers Optional Holds::List(Category::ExportSpecifier),
                Source Required Holds::Node(Category::StringLiteral),
                WithClause Optional Holds::NodeOrNull(Category::WithClause),
            }
            ExportAllDeclaration {
                ExportKind TypeScript Holds::Word(Words::TypeOrValue),
                Exported Optional Holds::NodeOrNull(Category::ModuleExportName),
                Source Required Holds::Node(Category::StringLiteral),
                WithClause Optional Holds::NodeOrNull(Category::WithClause),
            }
            ExportDefaultDeclaration {
                Declaration Required Holds::Node(Category::ExportDefaultDeclarationKind),
            }
            ExportSpecifier {
                ExportKind TypeScript Holds::Word(Words::TypeOrValue),
                Local Required Holds::Narrowed(Category::ModuleExportName, Category::IdentifierReference),
                Exported Required Holds::Node(Category::ModuleExportName),
            }
            TSExportAssignment {
                Expression Required Holds::Node(Category::Expression),
            }
            TSNamespaceExportDeclaration {
                Id Required Holds::Node(Category::IdentifierName),
            }
            TSTypeAliasDeclaration {
                Id Required Holds::Node(Category::BindingIdentifier),
                Declare TypeScript Holds::Flag,
            }
            TSInterfaceDeclaration {
                Id Required Holds::Node(Category::BindingIdentifier),
                Declare TypeScript Holds::Flag,
            }
            TSEnumDeclaration {
                Id Required Holds::Node(Category::BindingIdentifier),
                Const Optional Holds::Flag,
                Declare TypeScript Holds::Flag,
                Body Required Holds::Node(Category::TSEnumBody),
            }
            TSEnumBody {
                Members Required Holds::List(Category::TSEnumMember),
            }
            TSEnumMember {
                Id Required Holds::Node(Category::TSEnumMemberName),
                Computed Optional Holds::Flag,
                Initializer Optional Holds::NodeOrNull(Category::Expression),
            }
            TSNamespaceDeclaration {
                Id Required Holds::Node(Category::BindingIdentifier),
                Kind Optional Holds::Word(Words::NamespaceKind),
                Declare TypeScript Holds::Flag,
                Body Required Holds::Node(Category::TSNamespaceDeclarationBody),
            }
            TSModuleBlock {
                Directives Optional Holds::List(Category::Directive),
                Body Required Holds::List(Category::Item),
            }
            TSExternalModuleDeclaration {
                Id Required Holds::Node(Category::StringLiteral),
                Declare TypeScript Holds::Flag,
                Body Optional Holds::NodeOrNull(Category::TSModuleBlock),
            }
            TSGlobalDeclaration {
                Declare TypeScript Holds::Flag,
                Body Required Holds::Node(Category::TSModuleBlock),
            }
            TSImportEqualsDeclaration {
                ImportKind TypeScript Holds::Word(Words::TypeOrValue),
                Id Required Holds::Node(Category::BindingIdentifier),
                ModuleReference Required Holds::Node(Category::TSModuleReference),
            }
            TSExternalModuleReference {
                Expression Required Holds::Node(Category::StringLiteral),
            }
            TSQualifiedName {
                Left Required Holds::Node(Category::TSTypeName),
                Right Required Holds::Node(Category::IdentifierName),
            }
        }
    }

    /// The same, behind the kinds above.
    fn rows_4(self) -> &'static [Row]
        ensures { map row_view result.now ≡ row_of_4 self }
    {
        rows! { self; &[];
            TSTypeAnnotation {
                TypeAnnotation Required Holds::Node(Category::TSType),
            }
            TSThisParameter {
                TypeAnnotation TypeScript Holds::NodeOrNull(Category::TSTypeAnnotation),
            }
            TSTypeParameterDeclaration {
                Params Required Holds::List(Category::TSTypeParameter),
            }
            TSTypeParameter {
                Name Required Holds::Node(Category::BindingIdentifier),
            }
            TSTypeReference {
                TypeName Required Holds::Node(Category::TSTypeName),
            }
            TSUnionType {
                Types Required Holds::List(Category::TSType),
            }
            TSIntersectionType {
                Types Required Holds::List(Category::TSType),
            }
            TSConditionalType {
                TrueType Required Holds::Node(Category::TSType),
                FalseType Required Holds::Node(Category::TSType),
            }
            TSTypeOperator {
                Operator Required Holds::Word(Words::TypeOperator),
                TypeAnnotation Required Holds::Node(Category::TSType),
            }
            TSParenthesizedType {
                TypeAnnotation Required Holds::Node(Category::TSType),
            }
            JSDocNullableType {
                TypeAnnotation Required Holds::Node(Category::TSType),
            }
            JSDocNonNullableType {
                TypeAnnotation Required Holds::Node(Category::TSType),
            }
            TSTypePredicate {
                Asserts Optional Holds::Flag,
            }
            TSLiteralType {
                Literal Required Holds::Node(Category::TSLiteral),
            }
            TSVoidKeyword {}
            TSUndefinedKeyword {}
            TSNullKeyword {}
            TSNeverKeyword {}
            TSBooleanKeyword {}
            TSStringKeyword {}
            TSNumberKeyword {}
            TSBigIntKeyword {}
            TSSymbolKeyword {}
            TSObjectKeyword {}
            TSAnyKeyword {}
            TSUnknownKeyword {}
            TSIntrinsicKeyword {}
            TSFunctionType {}
            TSConstructorType {}
            TSArrayType {}
            TSTupleType {}
            TSNamedTupleMember {}
            TSOptionalType {}
            TSRestType {}
            TSTemplateLiteralType {}
            TSTypeQuery {}
            TSIndexedAccessType {}
            TSMappedType {}
            TSTypeLiteral {}
            TSThisType {}
            TSImportType {}
            TSInferType {}
            JSDocUnknownType {}
            TSTypeParameterInstantiation {}
            TSClassImplements {}
            TSIndexSignature {}
        }
    }
}
