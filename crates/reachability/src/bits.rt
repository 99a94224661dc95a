ghost use Rattle.std.specs.Prelude.{◌≡◌, ◌<◌, ◌/◌, ◌||◌, ℕ, IfOk, length, nat_eq, replicate};
ghost use Rattle.reachability.specs.BitSets.{has_in, united};

use order_core::{NoMemory, is_in_word};
use std::alloc::Global;
use std::marker::Model;

/// A set of numbers, with a bit for each that may be in it.
#[derive(Drop)]
pub struct BitSet {
    words: Vec<u64>,
}

impl Model for BitSet {
    ghost use Rattle.std.specs.Prelude.{ℕ, List};

    ghost Value = { List ℕ };

    ghost view = { λ set. set.words.items };
}

impl BitSet {
    /// The set without a number, of this many words.
    pub fn empty(alloc: Global, width: usize) -> Result<BitSet, NoMemory>
        ensures { IfOk result (λ made. made ≡ replicate width 0) }
    {
        let words = vec![in alloc; 0; width]?;
        Ok(BitSet { words })
    }

    /// The same set in memory of its own.
    pub fn copy(&self, alloc: Global) -> Result<BitSet, NoMemory>
        ensures { IfOk result (λ made. made ≡ self.now) }
    {
        let words = self.words.as_slice().to_vec(alloc)?;
        Ok(BitSet { words })
    }

    /// Whether the number is in the set.
    pub fn has(&self, number: u32) -> bool
        ensures { result ≡ has_in self.now number }
    {
        match self.words.as_slice().get((number / 64) as usize) {
            Some(word) => is_in_word(*word, number % 64),
            None => false,
        }
    }

    /// Puts the number into the set.
    pub fn insert(&mut self, number: u32)
        requires { number / 64 < length self.old }
        ensures width { length self.new ≡ length self.old }
        ensures has { (x : ℕ) → has_in self.new x ≡ has_in self.old x || nat_eq x number }
    {
        self.words[(number / 64) as usize] |= 1 << (number % 64);
    }

    /// Puts all numbers of another set, of as many words, into the set.
    pub fn unite(&mut self, other: &BitSet)
        requires { length other.now ≡ length self.old }
        ensures { self.new ≡ united self.old other.now }
    {
        for (at, word) in other.words.as_slice().iter().enumerate() {
            self.words[at] |= *word;
        }
    }
}
