ghost use Rattle.std.specs.Prelude.{◌≤◌, ◌<◌, ◌↔◌, ℕ, length, IsTrue, IfOk};
ghost use Rattle.order_core.specs.MinimalElements.{IsCovered, AreMinimal};
ghost use Rattle.order_core.specs.Word.{is_in_word};

use crate::list::List;
use crate::order::NoMemory;
use crate::word::{is_in_word, members_below};
use std::alloc::Global;

/// The minimal elements of the set that the word holds, in rising order.
pub fn minimal_elements(alloc: Global, table: &[u64], word: u64) -> Result<List<u32>, NoMemory>
    requires { length table.now ≤ 64 }
    ensures { IfOk result (AreMinimal table.now word) }
{
    members_below(alloc, table.len() as u32, word & !covered(table, word))
}

/// What another element of the set is at most.
fn covered(table: &[u64], word: u64) -> u64
    requires { length table.now ≤ 64 }
    ensures { (x : ℕ) → x < 64 → IsTrue (is_in_word result x) ↔ IsCovered (length table.now) table.now word x }
{
    let mut covered = 0;
    for (at, row) in table.iter().enumerate() {
        if is_in_word(word, at as u32) {
            covered |= *row & !(1 << at);
        }
    }
    covered
}
