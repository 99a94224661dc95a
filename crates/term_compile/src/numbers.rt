ghost use Rattle.std.specs.Prelude.{◌≡◌, ◌+◌, IfOk};
ghost use Rattle.design_model.specs.Evaluation.{numbers_from};

use order_core::{List, NoMemory};
use std::alloc::Global;

/// The number at this distance after `first`. It fails where that is more than a `u32` holds.
pub fn number_after(first: u32, distance: usize) -> Result<u32, NoMemory>
    ensures { IfOk result (λ number. number ≡ first + distance) }
{
    let Ok(distance) = u32::try_from(distance) else {
        return Err(NoMemory);
    };
    match first.checked_add(distance) {
        Some(number) => Ok(number),
        None => Err(NoMemory),
    }
}

/// So many numbers, from this one on.
pub fn numbers_from(alloc: Global, start: u32, count: usize) -> Result<List<u32>, NoMemory>
    ensures { IfOk result (λ made. made ≡ numbers_from start count) }
{
    let mut made = Vec::new(alloc);
    for at in 0..count {
        let number = number_after(start, at)?;
        if made.push(number).is_err() {
            return Err(NoMemory);
        }
    }
    Ok(List::of(made))
}
