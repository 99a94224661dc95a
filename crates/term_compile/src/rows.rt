ghost use Rattle.std.specs.Prelude.{◌≡◌, IfOk};

use design_model::CatRow;
use order_core::{List, NoMemory};
use std::alloc::Global;

/// Rows equal to these, in order.
pub fn copy_rows(alloc: Global, rows: &[CatRow]) -> Result<List<CatRow>, NoMemory>
    ensures { IfOk result (λ made. made ≡ rows.now) }
{
    let mut made = Vec::new(alloc);
    for row in rows {
        let copy = row.copy(alloc)?;
        if made.push(copy).is_err() {
            return Err(NoMemory);
        }
    }
    Ok(List::of(made))
}
