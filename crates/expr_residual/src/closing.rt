ghost use Rattle.std.specs.Prelude.{◌≡◌, ◌+◌, IfOk};
ghost use Rattle.expr_residual.specs.Residual.{is_operation, gets_wire, put, closed};

use crate::frame::Frame;
use crate::joining::joined_by;
use crate::reading::reads_from;
use crate::split::Split;
use design_model::Expr;
use order_core::NoMemory;
use std::alloc::Global;

/// The number at this distance after `first`.
pub fn number_after(first: u32, distance: usize) -> Result<u32, NoMemory>
    ensures { IfOk result (λ number. number ≡ first + distance) }
{
    let Ok(distance) = u32::try_from(distance) else {
        return Err(NoMemory);
    };
    match first.checked_add(distance) {
        Some(number) => Ok(number),
        None => Err(NoMemory),
    }
}

/// Whether it's an operation on numbers.
fn is_operation(expr: &Expr) -> bool
    ensures { result ≡ is_operation expr.now }
{
    match expr {
        Expr::Own(_) | Expr::Inner(_, _) | Expr::Constant(_) | Expr::Tuple(_) => false,
        Expr::Scale(_, _)
        | Expr::Sum(_, _)
        | Expr::Product(_, _)
        | Expr::Greatest(_, _)
        | Expr::Lesser(_, _) => true,
    }
}

/// Whether a known expression gets a wire of its own.
fn gets_wire(start: u32, expr: &Expr) -> bool
    ensures { result ≡ gets_wire start expr.now }
{
    is_operation(expr) && reads_from(expr, start)
}

/// A known expression, by a wire of its own if it gets one.
fn put(frame: &Frame, expr: Expr, made: &mut Vec<Expr>) -> Result<Expr, NoMemory>
    ensures { IfOk result (λ left. put frame.now expr made.old.items ≡ record { expr = left; made = made.new.items }) }
{
    if !gets_wire(frame.start, &expr) {
        return Ok(expr);
    }
    let number = number_after(frame.next, made.len())?;
    if made.push(expr).is_err() {
        return Err(NoMemory);
    }
    Ok(Expr::Own(number))
}

/// The expression that is left of one taken apart.
pub fn closed(
    alloc: Global,
    frame: &Frame,
    split: Split,
    made: &mut Vec<Expr>,
) -> Result<Expr, NoMemory>
    ensures { IfOk result (λ left. closed frame.now split made.old.items ≡ record { expr = left; made = made.new.items }) }
{
    match split {
        Split::Known(expr) => put(frame, expr, made),
        Split::Partly(op, known, waiting) => {
            let known = put(frame, known, made)?;
            joined_by(alloc, op, known, waiting)
        }
        Split::Waiting(expr) => Ok(expr),
    }
}
