//! Expressions as they are written.

use crate::Path;

/// An operator between operands, from the weakest to the strongest.
#[derive(Clone, Copy)]
pub enum Operator {
    BitOr,
    BitXor,
    BitAnd,
    ShiftLeft,
    ShiftRight,
    Plus,
    Minus,
    Times,
    DividedBy,
    Remainder,
}

/// An operator before an operand.
#[derive(Clone, Copy)]
pub enum Sign {
    Positive,
    Negative,
    Complement,
}

/// An expression.
#[cycle(expr)]
pub enum Expr {
    Number(u64),
    Truth(bool),
    Constant(Path),
    Parentheses(Box<Expr>),
    /// All signs before an operand, as they are written; there is one at least.
    Signed(Vec<Sign>, Box<Expr>),
    /// The first operand, and all others of one level behind it, from left to right; there is one at least.
    Chain(Box<Expr>, Vec<Operand>),
}

/// An operand, behind its operator.
#[cycle(expr)]
#[derive(Drop)]
pub struct Operand {
    pub operator: Operator,
    pub value: Expr,
}

impl Drop for Expr {
    #[cycle(let_go)]
    fn drop(self) {
        match self {
            Expr::Number(_) | Expr::Truth(_) => {}
            Expr::Constant(path) => drop(path),
            Expr::Parentheses(inner) => drop(inner),
            Expr::Signed(signs, operand) => {
                drop(signs);
                drop(operand);
            }
            Expr::Chain(first, operands) => {
                drop(first);
                drop(operands);
            }
        }
    }
}
