ghost use Rattle.std.specs.Prelude.{◌≡◌, ◌<◌, ◌≤◌, ℕ, IfOk, IsTrue, nat_eq, nat_lt};
ghost use Rattle.std.specs.List.{list_all, list_any};
ghost use Rattle.order_core.specs.Word.{is_in_word, members_below};

use crate::list::List;
use crate::order::NoMemory;
use std::alloc::Global;

/// Whether the number is in the set that the word holds.
pub fn is_in_word(word: u64, number: u32) -> bool
    ensures { result ≡ is_in_word word number }
{
    number < 64 && (word >> number) & 1 == 1
}

/// The numbers below `n` in the set that the word holds, in rising order.
pub fn members_below(alloc: Global, n: u32, word: u64) -> Result<List<u32>, NoMemory>
    requires { n ≤ 64 }
    ensures { IfOk result (λ made. made ≡ members_below n word) }
{
    let mut made = Vec::new(alloc);
    for number in 0..n {
        if is_in_word(word, number) && made.push(number).is_err() {
            return Err(NoMemory);
        }
    }
    Ok(List::of(made))
}

/// The word that holds the numbers.
pub fn word_of(numbers: &[u32]) -> u64
    requires { IsTrue (list_all (λ x. nat_lt x 64) numbers.now) }
    ensures { (x : ℕ) → is_in_word result x ≡ list_any (nat_eq x) numbers.now }
{
    let mut word = 0;
    for number in numbers {
        word |= 1 << *number;
    }
    word
}
