ghost use Rattle.std.specs.Prelude.{◌≡◌, ◌≤◌, ◌↔◌, ℕ, length, IsTrue, IfOk, slice_index};
ghost use Rattle.std.specs.List.{list_all};
ghost use Rattle.order_core.specs.Finite.{is_element, is_below, IsTable};
ghost use Rattle.order_core.specs.Members.{IsMember};
ghost use Rattle.order_core.specs.Minimal.{IsMinimal};
ghost use Rattle.order_core.specs.MinimalElements.{AreMinimal, minimal_of};
ghost use Rattle.order_core.specs.Order.{IsLeast, AreBounds};
ghost use Rattle.order_core.specs.Upper.{is_upper, rise_from, upper_leq};

use crate::closing::{closure, first_mutual};
use crate::list::List;
use crate::minimal::minimal_elements;
use crate::order::{NoMemory, Order};
use crate::word::{is_in_word, word_of};
use std::alloc::Global;

/// A partial order on the numbers below 64 or fewer, its elements.
///
/// It keeps for each element a word whose bits are the elements that it is at most.
#[derive(Drop)]
pub struct FiniteOrder {
    table: List<u64>,
    pub ghost is_table: { IsTable table },
}

/// Why pairs make no order.
#[derive(Clone, Copy, Debug, PartialEq, Eq)]
pub enum OrderFault {
    /// The first two different elements, the lesser one first, that walks through the pairs lead to and from.
    Cycle(u32, u32),
    /// Memory was refused.
    Memory,
}

impl FiniteOrder {
    ghost use Rattle.order_core.specs.Walk.{is_pair_below};
    ghost use Rattle.order_core.specs.Closing.{Closes};

    /// The order of the numbers below `n` in which `a` is at most `b` where a walk through the pairs leads from `a` to `b`.
    ///
    /// Cycle comes exactly where walks lead both ways between two different elements.
    pub fn close(alloc: Global, n: u32, pairs: &[(u32, u32)]) -> Result<FiniteOrder, OrderFault>
        requires some { 1 ≤ n }
        requires few { n ≤ 64 }
        requires pairs { IsTrue (list_all (is_pair_below n) pairs.now) }
        ensures { Closes n pairs.now result }
    {
        let Ok(table) = closure(alloc, n, pairs) else {
            return Err(OrderFault::Memory);
        };
        match first_mutual(table.as_slice()) {
            Some((a, b)) => Err(OrderFault::Cycle(a, b)),
            None => Ok(FiniteOrder {
                table: List::of(table),
            }),
        }
    }

    /// How many elements there are.
    pub fn size(&self) -> u32
        ensures { result ≡ length self.now.table }
    {
        self.table.items().len() as u32
    }

    /// Whether `a` is at most `b`. A number that is no element is at most none.
    pub fn is_below(&self, a: u32, b: u32) -> bool
        ensures { result ≡ is_below self.now.table a b }
    {
        match self.table.get(a as usize) {
            Some(row) => is_in_word(*row, b),
            None => false,
        }
    }

    /// The minimal ones of the elements, each once, in rising order: the upper set that they make.
    pub fn minimal_of(&self, alloc: Global, elements: &[u32]) -> Result<List<u32>, NoMemory>
        requires { IsTrue (list_all (is_element self.now.table) elements.now) }

        ensures value { IfOk result (λ made. made ≡ minimal_of self.now.table elements.now) }
        ensures members { IfOk result (λ made. (x : ℕ) → IsMember x made ↔ IsMinimal (is_below self.now.table) (λ y. IsMember y elements.now) x) }
        ensures upper { IfOk result (λ made. IsTrue (is_upper self.now.table made)) }
        // Each of the elements is in the upper set.
        ensures reach { IfOk result (λ made. IsTrue (upper_leq self.now.table made elements.now)) }
    {
        self.minimal(alloc, word_of(elements))
    }

    /// The elements that the element is at most, as a word.
    pub(crate) fn row(&self, element: u32) -> u64
        requires { IsTrue (is_element self.now.table element) }
        ensures { result ≡ slice_index self.now.table element }
    {
        self.table.items()[element as usize]
    }

    /// The minimal elements of the set that the word holds, in rising order.
    pub(crate) fn minimal(&self, alloc: Global, word: u64) -> Result<List<u32>, NoMemory>
        ensures { IfOk result (AreMinimal self.now.table word) }
    {
        minimal_elements(alloc, self.table.items(), word)
    }
}

impl Order for FiniteOrder {
    type Item = u32;

    ghost is_value = { λ o. is_element o.table };

    ghost leq = { λ o. is_below o.table };

    fn is_value(&self, a: &u32) -> bool {
        (*a as usize) < self.table.items().len()
    }

    fn leq(&self, a: &u32, b: &u32) -> bool {
        self.is_below(*a, *b)
    }

    fn copy(&self, _alloc: Global, a: &u32) -> Result<u32, NoMemory> {
        Ok(*a)
    }

    fn least(&self, alloc: Global) -> Result<List<u32>, NoMemory>
        ensures least { IfOk result (IsLeast (is_element self.now.table) (is_below self.now.table)) }
        ensures rising { IfOk result (λ made. IsTrue (rise_from 0 made)) }
    {
        self.minimal(alloc, u64::MAX)
    }

    fn bounds(&self, alloc: Global, a: &u32, b: &u32) -> Result<List<u32>, NoMemory>
        requires a_is_value { IsTrue (is_element self.now.table a.now) }
        requires b_is_value { IsTrue (is_element self.now.table b.now) }
        ensures bounds { IfOk result (AreBounds (is_element self.now.table) (is_below self.now.table) a.now b.now) }
        ensures rising { IfOk result (λ made. IsTrue (rise_from 0 made)) }
    {
        self.minimal(alloc, self.row(*a) & self.row(*b))
    }

    ghost laws = { λ o. o.is_table.order };
}
