ghost use Rattle.std.specs.Prelude.{◌≡◌, IfOk, IsTrue, MatchOption};
ghost use Rattle.std.specs.List.{list_all};
ghost use Rattle.order_core.specs.Walk.{is_pair_below};
ghost use Rattle.reachability.specs.Reach.{reach, rank, IsReach, IsFirstItself, NoneItself};

use crate::bits::BitSet;
use crate::rounds::closed_rows;
use order_core::{List, NoMemory};
use std::alloc::Global;

/// Which numbers chains of pairs lead to, from each number below a bound.
#[derive(Drop)]
pub struct Reachability {
    size: u32,
    rows: List<BitSet>,
}

impl Reachability {
    /// What chains of the pairs, of one pair at least, lead to from the numbers below `n`.
    ///
    /// Besides a step for each pair it takes one for each two numbers and each word of a row, however many pairs there are.
    pub fn of(alloc: Global, n: u32, pairs: &[(u32, u32)]) -> Result<Reachability, NoMemory>
        requires pairs { IsTrue (list_all (is_pair_below n) pairs.now) }
        ensures { IfOk result (λ made. IsReach n pairs.now made) }
    {
        let rows = closed_rows(alloc, n, pairs)?;
        Ok(Reachability {
            size: n,
            rows: List::of(rows),
        })
    }

    /// Whether a chain of one pair at least leads from `a` to `b`: from and to a number beyond the bound none does.
    pub fn reaches(&self, a: u32, b: u32) -> bool
        ensures { result ≡ reach self.now a b }
    {
        match self.rows.get(a as usize) {
            Some(row) => row.has(b),
            None => false,
        }
    }

    /// The least number that a chain leads back to itself from, if there is one.
    pub fn first_back(&self) -> Option<u32>
        ensures { MatchOption result (NoneItself self.now) (λ i. IsFirstItself self.now i) }
    {
        for number in 0..self.size {
            if self.reaches(number, number) {
                return Some(number);
            }
        }
        None
    }

    /// How many numbers chains lead to from `a`.
    ///
    /// Where no chain comes back, each pair leads to a lower rank.
    pub fn rank(&self, a: u32) -> u32
        ensures { result ≡ rank self.now a }
    {
        let mut count = 0;
        for number in 0..self.size {
            if self.reaches(a, number) {
                count += 1;
            }
        }
        count
    }
}
