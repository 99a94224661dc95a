ghost use Rattle.std.specs.Prelude.{◌≡◌, ◌<◌, ◌+◌, ◌/◌, ℕ, [], IfOk, IsTrue, cond, length, map, replicate, slice_index_or};
ghost use Rattle.std.specs.List.{list_all};
ghost use Rattle.order_core.specs.Walk.{is_pair_below};
ghost use Rattle.reachability.specs.BitSets.{has_in, united};
ghost use Rattle.reachability.specs.Rounds.{AreClosed, AreDirect, passed};

use crate::bits::BitSet;
use order_core::NoMemory;
use std::alloc::Global;

/// For each number below `n`, the set of those that chains of pairs lead to from it.
pub fn closed_rows(alloc: Global, n: u32, pairs: &[(u32, u32)]) -> Result<Vec<BitSet>, NoMemory>
    requires pairs { IsTrue (list_all (is_pair_below n) pairs.now) }
    ensures { IfOk result (λ rows. AreClosed pairs.now rows.items) }
{
    let mut rows = direct_rows(alloc, n, pairs)?;
    for through in 0..n {
        let beyond = rows[through as usize].copy(alloc)?;
        pass(rows.as_mut_slice(), through, &beyond);
    }
    Ok(rows)
}

/// For each number below `n`, the set of those that one pair leads to from it.
fn direct_rows(alloc: Global, n: u32, pairs: &[(u32, u32)]) -> Result<Vec<BitSet>, NoMemory>
    requires pairs { IsTrue (list_all (is_pair_below n) pairs.now) }
    ensures { IfOk result (λ rows. AreDirect n pairs.now rows.items) }
{
    let mut rows = empty_rows(alloc, n)?;
    for (a, b) in pairs {
        rows[*a as usize].insert(*b);
    }
    Ok(rows)
}

/// As many sets without a number as `n`, with room for the numbers below `n`.
fn empty_rows(alloc: Global, n: u32) -> Result<Vec<BitSet>, NoMemory>
    ensures { IfOk result (λ rows. rows.items ≡ replicate n (replicate (n / 64 + 1) 0)) }
{
    let width = (n / 64 + 1) as usize;
    let mut rows = Vec::new(alloc);
    for _ in 0..n {
        let row = BitSet::empty(alloc, width)?;
        rows.push(row)?;
    }
    Ok(rows)
}

/// Puts all of `beyond` into each row that has `through`.
fn pass(rows: &mut [BitSet], through: u32, beyond: &BitSet)
    requires { (k : ℕ) → k < length rows.old → length (slice_index_or rows.old k []) ≡ length beyond.now }
    ensures { rows.new ≡ map (passed through beyond.now) rows.old }
{
    for row in rows.iter_mut() {
        if row.has(through) {
            row.unite(beyond);
        }
    }
}
