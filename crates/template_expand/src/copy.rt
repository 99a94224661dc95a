//! Copies. Each equals what was copied.

ghost use Rattle.std.specs.Prelude.{◌≡◌, IfOk};

use design_model::{CatRow, Constraint};
use order_core::{List, NoMemory};
use std::alloc::Global;

/// Rows equal to these, in order.
pub fn copy_rows(alloc: Global, rows: &[CatRow]) -> Result<List<CatRow>, NoMemory>
    ensures { IfOk result (λ made. made ≡ rows.now) }
{
    let mut made = Vec::new(alloc);
    for row in rows {
        made.push(row.copy(alloc)?)?;
    }
    Ok(List::of(made))
}

/// Constraints equal to these, in order.
pub fn copy_constraints(
    alloc: Global,
    constraints: &[Constraint],
) -> Result<List<Constraint>, NoMemory>
    ensures { IfOk result (λ made. made ≡ constraints.now) }
{
    let mut made = Vec::new(alloc);
    for constraint in constraints {
        made.push(constraint.copy(alloc)?)?;
    }
    Ok(List::of(made))
}
