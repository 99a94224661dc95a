ghost use Rattle.std.specs.Prelude.{◌≡◌, ◌+◌, ◌==◌, cond, IfOk, map};
ghost use Rattle.design_model.specs.declared.expr.Expr.TheVariants as expr;
ghost use Rattle.expr_residual.specs.Residual.{wire_of, known_or_waiting, taken, gathered_after, paired_after, tuple_left, all_left, residual};

use crate::closing::{closed, number_after};
use crate::frame::Frame;
use crate::operands::{Form, gathered, paired, single};
use crate::split::{Associative, Split};
use design_model::Expr;
use order_core::{Boxed, List, NoMemory};
use std::alloc::Global;

/// What is left of the expression, where wires carry the required ports of the frame's part. The expressions of new wires are added to `made`.
///
/// It fails where memory is short, and where wires are more than a `u32` numbers.
pub fn residual(
    alloc: Global,
    frame: &Frame,
    expr: &Expr,
    made: &mut Vec<Expr>,
) -> Result<Expr, NoMemory>
    ensures { IfOk result (λ left. residual frame.now expr.now made.old.items ≡ record { expr = left; made = made.new.items }) }
{
    let split = taken(alloc, frame, expr, made)?;
    closed(alloc, frame, split, made)
}

/// The wire that carries the part's required port, if there is one.
fn wire_of(frame: &Frame, part: u32, port: u32) -> Result<Option<u32>, NoMemory>
    ensures { IfOk result (λ wire. wire ≡ wire_of frame.now part port) }
{
    if part == frame.part {
        Ok(Some(number_after(frame.from, port as usize)?))
    } else {
        Ok(None)
    }
}

/// A part's required port, taken apart.
fn taken_inner(frame: &Frame, part: u32, port: u32) -> Result<Split, NoMemory>
    ensures { IfOk result (λ split. split ≡ known_or_waiting frame.now part port (wire_of frame.now part port)) }
{
    match wire_of(frame, part, port)? {
        Some(wire) => Ok(Split::Known(Expr::Own(wire))),
        None => Ok(Split::Waiting(Expr::Inner(part, port))),
    }
}

/// The expression taken apart.
#[cycle(taken)]
fn taken(alloc: Global, frame: &Frame, expr: &Expr, made: &mut Vec<Expr>) -> Result<Split, NoMemory>
    ensures { IfOk result (λ split. taken frame.now expr.now made.old.items ≡ record { split = split; made = made.new.items }) }
{
    match expr {
        Expr::Own(port) => Ok(Split::Known(Expr::Own(*port))),
        Expr::Inner(part, port) => taken_inner(frame, *part, *port),
        Expr::Constant(value) => Ok(Split::Known(Expr::Constant(value.copy(alloc)?))),
        Expr::Scale(by, a) => {
            let a = taken(alloc, frame, a.get(), made)?;
            single(alloc, frame, *by, a, made)
        }
        Expr::Sum(a, b) => {
            let a = taken(alloc, frame, a.get(), made)?;
            gathered_with(alloc, frame, Associative::Sum, a, b, made)
        }
        Expr::Product(a, b) => {
            let a = taken(alloc, frame, a.get(), made)?;
            paired_with(alloc, frame, Form::Product, a, b, made)
        }
        Expr::Greatest(a, b) => {
            let a = taken(alloc, frame, a.get(), made)?;
            gathered_with(alloc, frame, Associative::Greatest, a, b, made)
        }
        Expr::Lesser(a, b) => {
            let a = taken(alloc, frame, a.get(), made)?;
            paired_with(alloc, frame, Form::Lesser, a, b, made)
        }
        Expr::Tuple(parts) => taken_parts(alloc, frame, parts.items(), made),
    }
}

/// The operation on what was taken apart first, and on the second operand.
#[cycle(taken)]
fn gathered_with(
    alloc: Global,
    frame: &Frame,
    op: Associative,
    a: Split,
    b: &Boxed<Expr>,
    made: &mut Vec<Expr>,
) -> Result<Split, NoMemory>
    ensures { IfOk result (λ split. gathered_after frame.now op (taken frame.now b.now) (record { split = a; made = made.old.items }) ≡ record { split = split; made = made.new.items }) }
{
    let b = taken(alloc, frame, b.get(), made)?;
    gathered(alloc, frame, op, a, b, made)
}

/// The operation on what was taken apart first, and on the second operand.
#[cycle(taken)]
fn paired_with(
    alloc: Global,
    frame: &Frame,
    form: Form,
    a: Split,
    b: &Boxed<Expr>,
    made: &mut Vec<Expr>,
) -> Result<Split, NoMemory>
    ensures { IfOk result (λ split. paired_after frame.now (elim form [ Form.Product ↦ expr.Product | Form.Lesser ↦ expr.Lesser ]) (taken frame.now b.now) (record { split = a; made = made.old.items }) ≡ record { split = split; made = made.new.items }) }
{
    let b = taken(alloc, frame, b.get(), made)?;
    paired(alloc, frame, form, a, b, made)
}

#[cycle(taken)]
fn taken_parts(
    alloc: Global,
    frame: &Frame,
    parts: &[Expr],
    made: &mut Vec<Expr>,
) -> Result<Split, NoMemory>
    ensures { IfOk result (λ split. tuple_left frame.now (all_left frame.now (map (taken frame.now) parts.now) made.old.items) ≡ record { split = split; made = made.new.items }) }
{
    let exprs = parts_left(alloc, frame, parts, made)?;
    Ok(Split::Waiting(Expr::Tuple(List::of(exprs))))
}

/// What is left of the parts of a tuple, one after the other.
#[cycle(taken)]
fn parts_left(
    alloc: Global,
    frame: &Frame,
    parts: &[Expr],
    made: &mut Vec<Expr>,
) -> Result<Vec<Expr>, NoMemory>
    ensures { IfOk result (λ exprs. all_left frame.now (map (taken frame.now) parts.now) made.old.items ≡ record { exprs = exprs.items; made = made.new.items }) }
{
    let mut exprs = Vec::new(alloc);
    for part in parts {
        let split = taken(alloc, frame, part, made)?;
        let left = closed(alloc, frame, split, made)?;
        if exprs.push(left).is_err() {
            return Err(NoMemory);
        }
    }
    Ok(exprs)
}
