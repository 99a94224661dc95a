ghost use Rattle.std.specs.Prelude.{◌≡◌, IfOk};
ghost use Rattle.design_model.specs.declared.expr.Expr.TheVariants as expr;
ghost use Rattle.expr_residual.specs.Residual.{operand, gathered, paired, single};

use crate::closing::closed;
use crate::frame::Frame;
use crate::joining::{joined, same_operation};
use crate::split::{Associative, Split};
use design_model::Expr;
use order_core::{Boxed, NoMemory};
use std::alloc::Global;
use unit_core::Fraction;

/// An operand of the operation: what is joined by another one isn't taken apart.
fn operand(
    alloc: Global,
    frame: &Frame,
    op: Associative,
    split: Split,
    made: &mut Vec<Expr>,
) -> Result<Split, NoMemory>
    ensures { IfOk result (λ s. operand frame.now op split made.old.items ≡ record { split = s; made = made.new.items }) }
{
    match split {
        Split::Known(expr) => Ok(Split::Known(expr)),
        Split::Partly(other, known, waiting) => {
            if same_operation(op, other) {
                return Ok(Split::Partly(op, known, waiting));
            }
            let split = Split::Partly(other, known, waiting);
            Ok(Split::Waiting(closed(alloc, frame, split, made)?))
        }
        Split::Waiting(expr) => Ok(Split::Waiting(expr)),
    }
}

/// An operation whose operands may be taken in any order.
pub fn gathered(
    alloc: Global,
    frame: &Frame,
    op: Associative,
    a: Split,
    b: Split,
    made: &mut Vec<Expr>,
) -> Result<Split, NoMemory>
    ensures { IfOk result (λ s. gathered frame.now op a (record { split = b; made = made.old.items }) ≡ record { split = s; made = made.new.items }) }
{
    let a = operand(alloc, frame, op, a, made)?;
    let b = operand(alloc, frame, op, b, made)?;
    joined(alloc, op, a, b)
}

/// An operation on two operands that aren't taken in another order.
#[derive(Clone, Copy)]
pub enum Form {
    Product,
    Lesser,
}

/// The operation on these operands.
fn formed(alloc: Global, form: Form, a: Expr, b: Expr) -> Result<Expr, NoMemory>
    ensures { IfOk result (λ made. made ≡ elim form [ Form.Product ↦ expr.Product a b | Form.Lesser ↦ expr.Lesser a b ]) }
{
    let a = Boxed::of(alloc, a)?;
    let b = Boxed::of(alloc, b)?;
    match form {
        Form::Product => Ok(Expr::Product(a, b)),
        Form::Lesser => Ok(Expr::Lesser(a, b)),
    }
}

/// The operation, taken apart: it's known where both operands are.
pub fn paired(
    alloc: Global,
    frame: &Frame,
    form: Form,
    a: Split,
    b: Split,
    made: &mut Vec<Expr>,
) -> Result<Split, NoMemory>
    ensures { IfOk result (λ s. paired frame.now (elim form [ Form.Product ↦ expr.Product | Form.Lesser ↦ expr.Lesser ]) a b made.old.items ≡ record { split = s; made = made.new.items }) }
{
    match (a, b) {
        (Split::Known(a), Split::Known(b)) => Ok(Split::Known(formed(alloc, form, a, b)?)),
        (a, b) => {
            let a = closed(alloc, frame, a, made)?;
            let b = closed(alloc, frame, b, made)?;
            Ok(Split::Waiting(formed(alloc, form, a, b)?))
        }
    }
}

/// The operand scaled by the fraction.
fn scaled(alloc: Global, by: Fraction, a: Expr) -> Result<Expr, NoMemory>
    ensures { IfOk result (λ made. made ≡ expr.Scale by a) }
{
    let a = Boxed::of(alloc, a)?;
    Ok(Expr::Scale(by, a))
}

/// A scaled operand, taken apart: it's known where the operand is.
pub fn single(
    alloc: Global,
    frame: &Frame,
    by: Fraction,
    a: Split,
    made: &mut Vec<Expr>,
) -> Result<Split, NoMemory>
    ensures { IfOk result (λ s. single frame.now (expr.Scale by) a made.old.items ≡ record { split = s; made = made.new.items }) }
{
    match a {
        Split::Known(a) => Ok(Split::Known(scaled(alloc, by, a)?)),
        a => {
            let a = closed(alloc, frame, a, made)?;
            Ok(Split::Waiting(scaled(alloc, by, a)?))
        }
    }
}
