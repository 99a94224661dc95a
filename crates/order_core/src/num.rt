ghost use Rattle.std.specs.Prelude.{◌≡◌};
ghost use Rattle.order_core.specs.Num.{is_number, number_leq, greater_of, lesser_of, count_or_top, number_sum, number_product};
ghost use Rattle.order_core.specs.NumLaws.{number_laws};

use crate::list::List;
use crate::order::{NoMemory, Order};
use std::alloc::Global;

/// The greatest count.
pub const MAX_COUNT: u64 = 10_000_000_000_000_000_000;

/// A whole count of at most `MAX_COUNT`, or what is greater than every count.
#[derive(Clone, Copy, Debug, PartialEq, Eq)]
pub enum Num {
    Count(u64),
    Top,
}

impl Num {
    /// The greater of two numbers.
    pub fn greater(self, other: Num) -> Num
        ensures { result ≡ greater_of self other }
    {
        match self {
            Num::Count(a) => match other {
                Num::Count(b) => Num::Count(a.max(b)),
                Num::Top => Num::Top,
            },
            Num::Top => Num::Top,
        }
    }

    /// The lesser of two numbers.
    pub fn lesser(self, other: Num) -> Num
        ensures { result ≡ lesser_of self other }
    {
        match self {
            Num::Count(a) => match other {
                Num::Count(b) => Num::Count(a.min(b)),
                Num::Top => self,
            },
            Num::Top => other,
        }
    }

    /// The sum of two numbers, which is Top where it is greater than `MAX_COUNT`.
    pub fn plus(self, other: Num) -> Num
        ensures { result ≡ number_sum self other }
    {
        match self {
            Num::Count(a) => match other {
                Num::Count(b) => match a.checked_add(b) {
                    Some(sum) => count_or_top(sum),
                    None => Num::Top,
                },
                Num::Top => Num::Top,
            },
            Num::Top => Num::Top,
        }
    }

    /// The product of two numbers, which is Top where it is greater than `MAX_COUNT`.
    ///
    /// Zero times Top is zero, and any other number times Top is Top.
    pub fn times(self, other: Num) -> Num
        ensures { result ≡ number_product self other }
    {
        match self {
            Num::Count(a) => match other {
                Num::Count(b) => match a.checked_mul(b) {
                    Some(product) => count_or_top(product),
                    None => Num::Top,
                },
                Num::Top => top_times(a),
            },
            Num::Top => match other {
                Num::Count(b) => top_times(b),
                Num::Top => Num::Top,
            },
        }
    }
}

/// The count, or Top where it is greater than `MAX_COUNT`.
fn count_or_top(n: u64) -> Num
    ensures { result ≡ count_or_top n }
{
    if n <= MAX_COUNT {
        Num::Count(n)
    } else {
        Num::Top
    }
}

/// Top times the count.
fn top_times(n: u64) -> Num
    ensures { result ≡ number_product Num.Top (Num.Count n) }
{
    if n == 0 { Num::Count(0) } else { Num::Top }
}

/// Numbers by size.
#[derive(Clone, Copy, Debug)]
pub struct NumOrder;

impl Order for NumOrder {
    type Item = Num;

    ghost is_value = { λ o. is_number };

    ghost leq = { λ o. number_leq };

    fn is_value(&self, a: &Num) -> bool {
        match a {
            Num::Count(n) => *n <= MAX_COUNT,
            Num::Top => true,
        }
    }

    fn leq(&self, a: &Num, b: &Num) -> bool {
        match a {
            Num::Count(x) => match b {
                Num::Count(y) => *x <= *y,
                Num::Top => true,
            },
            Num::Top => match b {
                Num::Count(_) => false,
                Num::Top => true,
            },
        }
    }

    fn copy(&self, _alloc: Global, a: &Num) -> Result<Num, NoMemory> {
        Ok(*a)
    }

    fn least(&self, alloc: Global) -> Result<List<Num>, NoMemory> {
        match Vec::from_array(alloc, [Num::Count(0)]) {
            Ok(items) => Ok(List::of(items)),
            Err(_) => Err(NoMemory),
        }
    }

    fn bounds(&self, alloc: Global, a: &Num, b: &Num) -> Result<List<Num>, NoMemory> {
        match Vec::from_array(alloc, [a.greater(*b)]) {
            Ok(items) => Ok(List::of(items)),
            Err(_) => Err(NoMemory),
        }
    }

    ghost laws = { λ o. number_laws };
}
