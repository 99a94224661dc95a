use design_model::Expr;
use order_core::Boxed;
use tree_units::Constant;
use value_type::Kind;

/// An expression and its type.
#[derive(Drop)]
pub struct Lower {
    pub kind: Kind,
    pub expr: Expr,
}

/// What an expression means.
#[derive(Drop)]
pub enum Meaning {
    /// A constant, or a product of constants: an exact fraction.
    Constant(Constant),
    /// Any other expression.
    Expression(Boxed<Lower>),
}

/// An expression that has a meaning, and the place of its first token.
#[derive(Drop)]
pub struct Operand {
    pub at: u64,
    pub meaning: Meaning,
}
