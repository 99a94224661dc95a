ghost use Rattle.std.specs.Prelude.{◌≡◌, IfOk};
ghost use Rattle.expr_lower.specs.Meanings.{lowered, multiplied, number};
ghost use Rattle.expr_lower.specs.Operators.{operation, product_by};
ghost use Rattle.expr_lower.specs.Reading.{Reads, faultless, joining_read, product_read};

use crate::meaning::{Lower, Meaning, Operand};
use crate::operand::{ProductKind, common_dim, product_kind};
use design_model::Expr;
use fault_list::{Fault, Stop};
use order_core::{Boxed, NoMemory};
use std::alloc::Global;
use unit_core::Dim;
use value_type::{Kind, Value};

/// An operator whose operands have one dimension.
#[derive(Clone, Copy, Debug, PartialEq, Eq)]
pub enum Joining {
    Sum,
    Greatest,
    Lesser,
}

/// The expression and its type. A constant is rounded up.
pub fn lowered(alloc: Global, meaning: Meaning) -> Result<Boxed<Lower>, NoMemory>
    ensures { IfOk result (λ made. made ≡ lowered meaning) }
{
    match meaning {
        Meaning::Constant(constant) => {
            let kind = Kind::Num(constant.dim);
            let expr = Expr::Constant(Value::Num(constant.fraction.round_up()));
            Boxed::of(alloc, Lower { kind, expr })
        }
        Meaning::Expression(lower) => Ok(lower),
    }
}

/// The expression, in memory of its own. A constant is rounded up.
fn lowered_expr(alloc: Global, meaning: Meaning) -> Result<Boxed<Expr>, NoMemory>
    ensures { IfOk result (λ made. made ≡ (lowered meaning).expr) }
{
    match meaning {
        Meaning::Constant(constant) => {
            Boxed::of(
                alloc,
                Expr::Constant(Value::Num(constant.fraction.round_up())),
            )
        }
        Meaning::Expression(lower) => Boxed::of(alloc, lower.into_inner().expr),
    }
}

/// A number of this dimension.
fn number(alloc: Global, dim: Dim, expr: Expr) -> Result<Meaning, NoMemory>
    ensures { IfOk result (λ made. made ≡ number dim expr) }
{
    let kind = Kind::Num(dim);
    Ok(Meaning::Expression(Boxed::of(alloc, Lower { kind, expr })?))
}

/// The expression of the operator.
fn operation(op: Joining, a: Boxed<Expr>, b: Boxed<Expr>) -> Expr
    ensures { result ≡ operation op a b }
{
    match op {
        Joining::Sum => Expr::Sum(a, b),
        Joining::Greatest => Expr::Greatest(a, b),
        Joining::Lesser => Expr::Lesser(a, b),
    }
}

/// A sum, a greatest or a least of two operands, at its place.
pub fn join(
    alloc: Global,
    at: u64,
    op: Joining,
    a: Operand,
    b: Operand,
) -> Result<Operand, Stop<Fault>>
    ensures { Reads (joining_read (operation op) at (faultless a) (faultless b)) result }
{
    let dim = common_dim(&a, &b)?;
    let meaning = join_numbers(alloc, op, dim, a.meaning, b.meaning)?;
    Ok(Operand { at, meaning })
}

/// The same of two numbers of this dimension.
fn join_numbers(
    alloc: Global,
    op: Joining,
    dim: Dim,
    a: Meaning,
    b: Meaning,
) -> Result<Meaning, NoMemory>
    ensures { IfOk result (λ made. made ≡ number dim (operation op (lowered a).expr (lowered b).expr)) }
{
    let left = lowered_expr(alloc, a)?;
    let right = lowered_expr(alloc, b)?;
    number(alloc, dim, operation(op, left, right))
}

/// The product of two operands, at its place.
pub fn multiply(alloc: Global, at: u64, a: Operand, b: Operand) -> Result<Operand, Stop<Fault>>
    ensures { Reads (product_read at (faultless a) (faultless b)) result }
{
    let kind = product_kind(at, &a, &b)?;
    let meaning = multiply_numbers(alloc, kind, a.meaning, b.meaning)?;
    Ok(Operand { at, meaning })
}

/// The product of two numbers.
fn multiply_numbers(
    alloc: Global,
    kind: ProductKind,
    a: Meaning,
    b: Meaning,
) -> Result<Meaning, NoMemory>
    ensures { IfOk result (λ made. made ≡ product_by kind a b) }
{
    match kind {
        ProductKind::Constant(constant) => Ok(Meaning::Constant(constant)),
        ProductKind::Number(dim) => {
            let expr = multiplied(alloc, a, b)?;
            number(alloc, dim, expr)
        }
    }
}

/// The product of two numbers, of which a constant scales the other by its exact fraction.
fn multiplied(alloc: Global, a: Meaning, b: Meaning) -> Result<Expr, NoMemory>
    ensures { IfOk result (λ made. made ≡ multiplied a b) }
{
    match a {
        Meaning::Constant(a) => {
            let b = lowered_expr(alloc, b)?;
            Ok(Expr::Scale(a.fraction, b))
        }
        Meaning::Expression(a) => multiplied_by(alloc, a, b),
    }
}

/// The same where the left one is no constant.
fn multiplied_by(alloc: Global, a: Boxed<Lower>, b: Meaning) -> Result<Expr, NoMemory>
    ensures { IfOk result (λ made. made ≡ multiplied (Meaning.Expression a) b) }
{
    match b {
        Meaning::Constant(b) => {
            let a = lowered_expr(alloc, Meaning::Expression(a))?;
            Ok(Expr::Scale(b.fraction, a))
        }
        Meaning::Expression(b) => {
            let a = lowered_expr(alloc, Meaning::Expression(a))?;
            let b = lowered_expr(alloc, Meaning::Expression(b))?;
            Ok(Expr::Product(a, b))
        }
    }
}
