use design_model::Expr;

/// An operation on numbers whose operands may be taken in any order.
#[derive(Debug, Clone, Copy, PartialEq, Eq)]
pub enum Associative {
    Sum,
    Greatest,
}

/// An expression, taken apart into what wires carry and what waits for other parts.
#[derive(Drop)]
pub enum Split {
    /// Wires carry all that it reads.
    Known(Expr),
    /// A known operand and a waiting one, joined by the operation.
    Partly(Associative, Expr, Expr),
    /// No operand of it is known by itself.
    Waiting(Expr),
}
