ghost use Rattle.std.specs.Prelude.{◌≡◌, IfOk};

use crate::copy::copy_expr;
use order_core::{Boxed, List, NoMemory};
use std::alloc::Global;
use unit_core::Fraction;
use value_type::Value;

/// A lower expression: what a constraint asks of its greater port.
#[derive(Drop)]
pub enum Expr {
    /// An own provided port.
    Own(u32),
    /// A part, and a required port of it.
    Inner(u32, u32),
    Constant(Value),
    /// A number scaled by a fraction, rounded up.
    Scale(Fraction, Boxed<Expr>),
    Sum(Boxed<Expr>, Boxed<Expr>),
    Product(Boxed<Expr>, Boxed<Expr>),
    /// The greater of two numbers.
    Greatest(Boxed<Expr>, Boxed<Expr>),
    /// The lesser of two numbers.
    Lesser(Boxed<Expr>, Boxed<Expr>),
    Tuple(List<Expr>),
}

impl Expr {
    /// An expression equal to this one.
    pub fn copy(&self, alloc: Global) -> Result<Expr, NoMemory>
        ensures { IfOk result (λ made. made ≡ self.now) }
    {
        copy_expr(alloc, self)
    }
}

/// The port on the greater side of a constraint.
#[derive(Drop)]
pub enum Greater {
    /// An own required port.
    Own(u32),
    /// A part, and a provided port of it.
    Inner(u32, u32),
}

/// A constraint: the port carries at least the value of the expression.
#[derive(Drop)]
pub struct Constraint {
    pub greater: Greater,
    pub lower: Expr,
}

impl Greater {
    /// A port equal to this one.
    pub fn copy(&self) -> Greater
        ensures { result ≡ self.now }
    {
        match self {
            Greater::Own(port) => Greater::Own(*port),
            Greater::Inner(part, port) => Greater::Inner(*part, *port),
        }
    }
}

impl Constraint {
    /// A constraint equal to this one.
    pub fn copy(&self, alloc: Global) -> Result<Constraint, NoMemory>
        ensures { IfOk result (λ made. made ≡ self.now) }
    {
        Ok(Constraint {
            greater: self.greater.copy(),
            lower: self.lower.copy(alloc)?,
        })
    }
}
