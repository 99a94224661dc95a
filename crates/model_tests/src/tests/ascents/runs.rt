ghost use Rattle.std.specs.Prelude.{◌≡◌, ◌≤◌};

use ascent_examples::{Notes, Rows, ascend_by_rows};
use kleene_loop::Ascent;
use order_core::{NoMemory, Order};
use std::alloc::Global;

/// What an ascent gave, and the points that it asked.
#[derive(Drop)]
pub struct Run<T> {
    pub found: Ascent<T>,
    pub asked: Vec<T>,
}

/// Ascends, or gives none where a row isn't one of values.
pub fn run_rows<O: Order + Drop>(
    alloc: Global,
    order: O,
    relation: Rows<O>,
    rounds: u32,
) -> Result<Option<Run<O::Item>>, NoMemory>
    requires same { relation.order ≡ order }
    requires some { 1 ≤ rounds }
    requires within { rounds ≤ 1000000 }
{
    if !relation.are_values() {
        return Ok(None);
    }
    let mut notes = Notes {
        asked: Vec::new(alloc),
    };
    let found = ascend_by_rows(alloc, order, relation, &mut notes, rounds)?;
    Ok(Some(Run {
        found,
        asked: notes.asked,
    }))
}
