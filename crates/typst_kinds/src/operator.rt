ghost use Rattle.std.specs.Prelude.{◌≡◌};
ghost use Rattle.typst_kinds.specs.Operators.{unary_of, binary_of, unary_precedence, binary_precedence, assoc_of};

use crate::SyntaxKind;

/// A unary operator.
#[derive(Debug, Clone, Copy, PartialEq, Eq)]
pub enum UnOp {
    /// `+`
    Pos,
    /// `-`
    Neg,
    /// `not`
    Not,
}

impl UnOp {
    /// The operator that a token of this kind is, or `None` if it is none.
    pub fn from_kind(token: SyntaxKind) -> Option<UnOp>
        ensures { result ≡ unary_of token }
    {
        match token {
            SyntaxKind::Plus => Some(UnOp::Pos),
            SyntaxKind::Minus => Some(UnOp::Neg),
            SyntaxKind::Not => Some(UnOp::Not),
            _ => None,
        }
    }

    /// How tightly the operator binds: the more, the tighter.
    pub fn precedence(self) -> u8
        ensures { result ≡ unary_precedence self }
    {
        match self {
            UnOp::Pos => 7,
            UnOp::Neg => 7,
            UnOp::Not => 4,
        }
    }
}

/// A binary operator.
#[derive(Debug, Clone, Copy, PartialEq, Eq)]
pub enum BinOp {
    /// `+`
    Add,
    /// `-`
    Sub,
    /// `*`
    Mul,
    /// `/`
    Div,
    /// `and`
    And,
    /// `or`
    Or,
    /// `==`
    Eq,
    /// `!=`
    Neq,
    /// `<`
    Lt,
    /// `<=`
    Leq,
    /// `>`
    Gt,
    /// `>=`
    Geq,
    /// `=`
    Assign,
    /// `in`
    In,
    /// `not in`
    NotIn,
    /// `+=`
    AddAssign,
    /// `-=`
    SubAssign,
    /// `*=`
    MulAssign,
    /// `/=`
    DivAssign,
}

/// On which side operators of the same precedence are taken together first.
#[derive(Debug, Clone, Copy, PartialEq, Eq)]
pub enum Assoc {
    /// `a - b - c` is `(a - b) - c`.
    Left,
    /// `a = b = c` is `a = (b = c)`.
    Right,
}

impl BinOp {
    /// The operator that a token of this kind is, or `None` if it is none.
    ///
    /// `not in` is two tokens, so no kind gives it.
    pub fn from_kind(token: SyntaxKind) -> Option<BinOp>
        ensures { result ≡ binary_of token }
    {
        match token {
            SyntaxKind::Plus => Some(BinOp::Add),
            SyntaxKind::Minus => Some(BinOp::Sub),
            SyntaxKind::Star => Some(BinOp::Mul),
            SyntaxKind::Slash => Some(BinOp::Div),
            SyntaxKind::And => Some(BinOp::And),
            SyntaxKind::Or => Some(BinOp::Or),
            SyntaxKind::EqEq => Some(BinOp::Eq),
            SyntaxKind::ExclEq => Some(BinOp::Neq),
            SyntaxKind::Lt => Some(BinOp::Lt),
            SyntaxKind::LtEq => Some(BinOp::Leq),
            SyntaxKind::Gt => Some(BinOp::Gt),
            SyntaxKind::GtEq => Some(BinOp::Geq),
            SyntaxKind::Eq => Some(BinOp::Assign),
            SyntaxKind::In => Some(BinOp::In),
            SyntaxKind::PlusEq => Some(BinOp::AddAssign),
            SyntaxKind::HyphEq => Some(BinOp::SubAssign),
            SyntaxKind::StarEq => Some(BinOp::MulAssign),
            SyntaxKind::SlashEq => Some(BinOp::DivAssign),
            _ => None,
        }
    }

    /// How tightly the operator binds: the more, the tighter.
    pub fn precedence(self) -> u8
        ensures { result ≡ binary_precedence self }
    {
        match self {
            BinOp::Mul => 6,
            BinOp::Div => 6,
            BinOp::Add => 5,
            BinOp::Sub => 5,
            BinOp::Eq => 4,
            BinOp::Neq => 4,
            BinOp::Lt => 4,
            BinOp::Leq => 4,
            BinOp::Gt => 4,
            BinOp::Geq => 4,
            BinOp::In => 4,
            BinOp::NotIn => 4,
            BinOp::And => 3,
            BinOp::Or => 2,
            BinOp::Assign => 1,
            BinOp::AddAssign => 1,
            BinOp::SubAssign => 1,
            BinOp::MulAssign => 1,
            BinOp::DivAssign => 1,
        }
    }

    /// On which side operators of this one's precedence are taken together first.
    pub fn assoc(self) -> Assoc
        ensures { result ≡ assoc_of self }
    {
        match self {
            BinOp::Assign => Assoc::Right,
            BinOp::AddAssign => Assoc::Right,
            BinOp::SubAssign => Assoc::Right,
            BinOp::MulAssign => Assoc::Right,
            BinOp::DivAssign => Assoc::Right,
            _ => Assoc::Left,
        }
    }
}
