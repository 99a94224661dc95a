ghost use Rattle.std.specs.Prelude.{◌≡◌, ◌<◌, ◌≤◌, ℕ, [], map, length, cond, IsTrue, IfOk, MatchOption, bit_or, slice_index};
ghost use Rattle.std.specs.List.{list_all};
ghost use Rattle.order_core.specs.Finite.{is_below};
ghost use Rattle.order_core.specs.Mutual.{AreMutual, IsFirstPartner, IsFirstMutual, NoneMutual};
ghost use Rattle.order_core.specs.Walk.{is_pair_below, IsClosure};
ghost use Rattle.order_core.specs.Word.{is_in_word};

use crate::order::NoMemory;
use crate::word::is_in_word;
use std::alloc::Global;

/// The table of the walks through the pairs.
pub fn closure(alloc: Global, n: u32, pairs: &[(u32, u32)]) -> Result<Vec<u64>, NoMemory>
    requires few { n ≤ 64 }
    requires pairs { IsTrue (list_all (is_pair_below n) pairs.now) }
    ensures { IfOk result (λ table. IsClosure n pairs.now table.items) }
{
    let mut table = equalities(alloc, n)?;
    for (a, b) in pairs {
        // Where a walk from `a` to `b` is known already, the pair adds none.
        if !is_in_word(table[*a as usize], *b) {
            join(table.as_mut_slice(), *a, *b);
        }
    }
    Ok(table)
}

/// The table in which each element is at most itself alone.
fn equalities(alloc: Global, n: u32) -> Result<Vec<u64>, NoMemory>
    requires { n ≤ 64 }
    ensures { IfOk result (λ table. IsClosure n [] table.items) }
{
    let mut table = Vec::new(alloc);
    for element in 0..n {
        if table.push(1 << element).is_err() {
            return Err(NoMemory);
        }
    }
    Ok(table)
}

/// Makes what is at most `a` at most all that `b` is at most.
fn join(table: &mut [u64], a: u32, b: u32)
    requires few { length table.old ≤ 64 }
    requires a_is_element { a < length table.old }
    requires b_is_element { b < length table.old }
    ensures { table.new ≡ map (λ row. cond (is_in_word row a) (bit_or row (slice_index table.old b)) row) table.old }
{
    let above = table[b as usize];
    for row in table.iter_mut() {
        if is_in_word(*row, a) {
            *row |= above;
        }
    }
}

/// The first two different elements that are at most each other, the lesser one first.
pub fn first_mutual(table: &[u64]) -> Option<(u32, u32)>
    requires { length table.now ≤ 64 }
    ensures { MatchOption result (NoneMutual (is_below table.now) (length table.now)) (λ found. IsFirstMutual (is_below table.now) (length table.now) found.0 found.1) }
{
    let n = table.len() as u32;
    for a in 0..n {
        if let Some(b) = first_partner(table, a) {
            return Some((a, b));
        }
    }
    None
}

/// The first element above `a` in number that is at most `a` and that `a` is at most.
fn first_partner(table: &[u64], a: u32) -> Option<u32>
    requires few { length table.now ≤ 64 }
    requires a_is_element { a < length table.now }
    ensures { MatchOption result ((y : ℕ) → a < y → y < length table.now → AreMutual (is_below table.now) a y → ⊥) (λ b. IsFirstPartner (is_below table.now) (length table.now) a b) }
{
    let n = table.len() as u32;
    for b in a + 1..n {
        if is_in_word(table[a as usize], b) && is_in_word(table[b as usize], a) {
            return Some(b);
        }
    }
    None
}
