//! The operators that make constants of constants.
ghost use Rattle.std.specs.Prelude.{◌≡◌};
ghost use Rattle.oxt_constant.specs.Operators.{binary_operators, binary_text, binary_written, unary_operators, unary_text, unary_written};

/// An operator before its operand.
#[derive(Clone, Copy, PartialEq, Eq)]
pub enum UnaryOperator {
    /// `+`
    Plus,
    /// `-`
    Minus,
    /// `~`
    BitwiseNot,
}

/// An operator between its operands.
#[derive(Clone, Copy, PartialEq, Eq)]
pub enum BinaryOperator {
    /// `+`
    Add,
    /// `-`
    Subtract,
    /// `*`
    Multiply,
    /// `/`
    Divide,
    /// `%`
    Remainder,
    /// `**`
    Power,
    /// `<<`
    ShiftLeft,
    /// `>>`
    ShiftRight,
    /// `>>>`
    ShiftRightUnsigned,
    /// `&`
    BitwiseAnd,
    /// `|`
    BitwiseOr,
    /// `^`
    BitwiseXor,
}

impl UnaryOperator {
    /// How the operator is written.
    pub fn text(self) -> &'static str
        ensures { result.now ≡ unary_text self }
    {
        match self {
            UnaryOperator::Plus => "+",
            UnaryOperator::Minus => "-",
            UnaryOperator::BitwiseNot => "~",
        }
    }

    /// All of them.
    pub fn all() -> &'static [UnaryOperator]
        ensures { result.now ≡ unary_operators }
    {
        &[
            UnaryOperator::Plus,
            UnaryOperator::Minus,
            UnaryOperator::BitwiseNot,
        ]
    }

    /// The operator that is written so, if it is one of these.
    pub fn find(text: &str) -> Option<UnaryOperator>
        ensures { result ≡ unary_written text.now }
    {
        UnaryOperator::all()
            .iter()
            .copied()
            .find(|operator| operator.text() == text)
    }
}

impl BinaryOperator {
    /// How the operator is written.
    pub fn text(self) -> &'static str
        ensures { result.now ≡ binary_text self }
    {
        match self {
            BinaryOperator::Add => "+",
            BinaryOperator::Subtract => "-",
            BinaryOperator::Multiply => "*",
            BinaryOperator::Divide => "/",
            BinaryOperator::Remainder => "%",
            BinaryOperator::Power => "**",
            BinaryOperator::ShiftLeft => "<<",
            BinaryOperator::ShiftRight => ">>",
            BinaryOperator::ShiftRightUnsigned => ">>>",
            BinaryOperator::BitwiseAnd => "&",
            BinaryOperator::BitwiseOr => "|",
            BinaryOperator::BitwiseXor => "^",
        }
    }

    /// All of them.
    pub fn all() -> &'static [BinaryOperator]
        ensures { result.now ≡ binary_operators }
    {
        &[
            BinaryOperator::Add,
            BinaryOperator::Subtract,
            BinaryOperator::Multiply,
            BinaryOperator::Divide,
            BinaryOperator::Remainder,
            BinaryOperator::Power,
            BinaryOperator::ShiftLeft,
            BinaryOperator::ShiftRight,
            BinaryOperator::ShiftRightUnsigned,
            BinaryOperator::BitwiseAnd,
            BinaryOperator::BitwiseOr,
            BinaryOperator::BitwiseXor,
        ]
    }

    /// The operator that is written so, if it is one of these.
    #[tactic(auto, unfolding(crate::specs::Operators::binary_written))]
    pub fn find(text: &str) -> Option<BinaryOperator>
        ensures { result ≡ binary_written text.now }
    {
        BinaryOperator::all()
            .iter()
            .copied()
            .find(|operator| operator.text() == text)
    }
}
