ghost use Rattle.std.specs.Prelude.{◌≡◌, ◌∷◌, [], ℕ, IsTrue, IfOk, length};
ghost use Rattle.std.specs.List.{list_all};
ghost use Rattle.order_core.specs.Finite.{is_element, is_below};
ghost use Rattle.order_core.specs.Order.{are_incomparable, apart, IsLeast, AreBounds};
ghost use Rattle.order_core.specs.Upper.{is_upper, is_in, upper_leq, rise_from};
ghost use Rattle.order_core.specs.UpperLaws.{upper_laws};
ghost use Rattle.order_core.specs.Word.{is_in_word};

use crate::finite::FiniteOrder;
use crate::list::List;
use crate::order::{NoMemory, Order};
use std::alloc::Global;

/// Upper sets of a finite order, each written as the rising list of its minimal elements.
///
/// They are ordered by reverse inclusion: the set of all elements is least, and the empty set is greatest.
#[derive(Drop)]
pub struct UpperOrder<'a> {
    pub base: &'a FiniteOrder,
}

impl<'a> UpperOrder<'a> {
    /// Whether each member of `b` lies above a member of `a`.
    pub fn is_below(&self, a: &List<u32>, b: &List<u32>) -> bool
        ensures { result ≡ upper_leq self.now.base.now.table a.now b.now }
    {
        contains_all(self.base, a.items(), b.items())
    }
}

impl<'a> Order for UpperOrder<'a> {
    type Item = List<u32>;

    ghost is_value = { λ o. is_upper o.base.now.table };

    ghost leq = { λ o. upper_leq o.base.now.table };

    fn is_value(&self, a: &List<u32>) -> bool {
        let numbers = a.items();
        are_elements(self.base, numbers) && rise(numbers) && are_incomparable(self.base, numbers)
    }

    fn leq(&self, a: &List<u32>, b: &List<u32>) -> bool {
        self.is_below(a, b)
    }

    fn copy(&self, alloc: Global, a: &List<u32>) -> Result<List<u32>, NoMemory> {
        match a.items().to_vec(alloc) {
            Ok(items) => Ok(List::of(items)),
            Err(_) => Err(NoMemory),
        }
    }

    fn least(&self, alloc: Global) -> Result<List<List<u32>>, NoMemory>
        ensures least { IfOk result (IsLeast (is_upper self.now.base.now.table) (upper_leq self.now.base.now.table)) }
        ensures one { IfOk result (λ made. length made ≡ 1) }
    {
        only(alloc, self.base.minimal(alloc, u64::MAX)?)
    }

    fn bounds(
        &self,
        alloc: Global,
        a: &List<u32>,
        b: &List<u32>,
    ) -> Result<List<List<u32>>, NoMemory>
        requires a_is_value { IsTrue (is_upper self.now.base.now.table a.now) }
        requires b_is_value { IsTrue (is_upper self.now.base.now.table b.now) }
        ensures bounds { IfOk result (AreBounds (is_upper self.now.base.now.table) (upper_leq self.now.base.now.table) a.now b.now) }
        ensures one { IfOk result (λ made. length made ≡ 1) }
    {
        let shared = upper_set(self.base, a.items()) & upper_set(self.base, b.items());
        only(alloc, self.base.minimal(alloc, shared)?)
    }

    ghost laws = { λ o. upper_laws o.base.now.table o.base.now.is_table.order };
}

/// Whether each number is an element.
fn are_elements(base: &FiniteOrder, numbers: &[u32]) -> bool
    ensures { result ≡ list_all (is_element base.now.table) numbers.now }
{
    for number in numbers {
        if !base.is_value(number) {
            return false;
        }
    }
    true
}

/// Whether each number is greater than the one before it.
fn rise(numbers: &[u32]) -> bool
    ensures { result ≡ rise_from 0 numbers.now }
{
    let mut least: u64 = 0;
    for number in numbers {
        let number = *number as u64;
        if number < least {
            return false;
        }
        least = number + 1;
    }
    true
}

/// Whether no two of the elements are comparable.
fn are_incomparable(base: &FiniteOrder, elements: &[u32]) -> bool
    requires { IsTrue (list_all (is_element base.now.table) elements.now) }
    ensures { result ≡ are_incomparable (is_below base.now.table) elements.now }
{
    for (at, element) in elements.iter().enumerate() {
        if !is_apart(base, *element, &elements[at + 1..]) {
            return false;
        }
    }
    true
}

/// Whether the element is comparable to none of the others.
fn is_apart(base: &FiniteOrder, element: u32, others: &[u32]) -> bool
    requires element_is_value { IsTrue (is_element base.now.table element) }
    requires others_are_values { IsTrue (list_all (is_element base.now.table) others.now) }
    ensures { result ≡ list_all (apart (is_below base.now.table) element) others.now }
{
    for other in others {
        if base.leq(&element, other) || base.leq(other, &element) {
            return false;
        }
    }
    true
}

/// Whether each of the elements is in the upper set of the members.
fn contains_all(base: &FiniteOrder, members: &[u32], elements: &[u32]) -> bool
    ensures { result ≡ list_all (is_in base.now.table members.now) elements.now }
{
    for element in elements {
        if !contains(base, members, *element) {
            return false;
        }
    }
    true
}

/// Whether the element is in the upper set of the members.
fn contains(base: &FiniteOrder, members: &[u32], element: u32) -> bool
    ensures { result ≡ is_in base.now.table members.now element }
{
    for member in members {
        if base.is_below(*member, element) {
            return true;
        }
    }
    false
}

/// The upper set of the members, as a word.
fn upper_set(base: &FiniteOrder, members: &[u32]) -> u64
    requires { IsTrue (list_all (is_element base.now.table) members.now) }
    ensures { (x : ℕ) → is_in_word result x ≡ is_in base.now.table members.now x }
{
    let mut word = 0;
    for member in members {
        word |= base.row(*member);
    }
    word
}

/// The list of the one item.
fn only(alloc: Global, item: List<u32>) -> Result<List<List<u32>>, NoMemory>
    ensures { IfOk result (λ made. made ≡ item ∷ []) }
{
    match Vec::from_array(alloc, [item]) {
        Ok(items) => Ok(List::of(items)),
        Err(_) => Err(NoMemory),
    }
}
