ghost use Rattle.std.specs.Prelude.{◌≡◌, IfOk};
ghost use Rattle.expr_residual.specs.Residual.{joined_by, same_operation, with_known, with_waiting, joined};

use crate::split::{Associative, Split};
use design_model::Expr;
use order_core::{Boxed, NoMemory};
use std::alloc::Global;

/// Whether both are the same operation.
pub fn same_operation(a: Associative, b: Associative) -> bool
    ensures { result ≡ same_operation a b }
{
    match a {
        Associative::Sum => matches!(b, Associative::Sum),
        Associative::Greatest => matches!(b, Associative::Greatest),
    }
}

/// The two operands, joined by the operation.
pub fn joined_by(alloc: Global, op: Associative, a: Expr, b: Expr) -> Result<Expr, NoMemory>
    ensures { IfOk result (λ made. made ≡ joined_by op a b) }
{
    let a = Boxed::of(alloc, a)?;
    let b = Boxed::of(alloc, b)?;
    match op {
        Associative::Sum => Ok(Expr::Sum(a, b)),
        Associative::Greatest => Ok(Expr::Greatest(a, b)),
    }
}

/// One more known operand.
pub fn with_known(alloc: Global, op: Associative, a: Expr, b: Split) -> Result<Split, NoMemory>
    ensures { IfOk result (λ split. split ≡ with_known op a b) }
{
    match b {
        Split::Known(b) => Ok(Split::Known(joined_by(alloc, op, a, b)?)),
        Split::Partly(_, known, waiting) => {
            Ok(Split::Partly(op, joined_by(alloc, op, a, known)?, waiting))
        }
        Split::Waiting(waiting) => Ok(Split::Partly(op, a, waiting)),
    }
}

/// One more waiting operand.
pub fn with_waiting(alloc: Global, op: Associative, a: Expr, b: Split) -> Result<Split, NoMemory>
    ensures { IfOk result (λ split. split ≡ with_waiting op a b) }
{
    match b {
        Split::Known(b) => Ok(Split::Partly(op, b, a)),
        Split::Partly(_, known, waiting) => {
            Ok(Split::Partly(op, known, joined_by(alloc, op, a, waiting)?))
        }
        Split::Waiting(waiting) => Ok(Split::Waiting(joined_by(alloc, op, a, waiting)?)),
    }
}

/// Both operands, the known ones together and the waiting ones together.
pub fn joined(alloc: Global, op: Associative, a: Split, b: Split) -> Result<Split, NoMemory>
    ensures { IfOk result (λ split. split ≡ joined op a b) }
{
    match a {
        Split::Known(a) => with_known(alloc, op, a, b),
        Split::Partly(_, known, waiting) => {
            let rest = with_waiting(alloc, op, waiting, b)?;
            with_known(alloc, op, known, rest)
        }
        Split::Waiting(a) => with_waiting(alloc, op, a, b),
    }
}
