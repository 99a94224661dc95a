ghost use Rattle.std.specs.Prelude.{◌≡◌, Bool, IsTrue, IfOk};
ghost use Rattle.order_core.specs.Order.{IsOrder, IsLeast, AreBounds};

use crate::list::List;
use std::alloc::{AllocError, AllocFailed, Global};

/// Memory was refused.
#[derive(Clone, Copy, Debug, PartialEq, Eq)]
pub struct NoMemory;

impl From<AllocError> for NoMemory {
    ghost from_gives = { λ _ _. Unit {0} };

    fn from(_error: AllocError) -> NoMemory {
        NoMemory
    }
}

impl<T: Drop> From<AllocFailed<T>> for NoMemory {
    ghost from_gives = { λ _ _. Unit {0} };

    fn from(_error: AllocFailed<T>) -> NoMemory {
        NoMemory
    }
}

/// A partial order on some items, its values.
///
/// It is all that generic code knows of values. An item that isn't a value may be handed to `is_value` alone.
pub trait Order {
    type Item: Drop;

    /// Which items are values.
    ghost is_value: { Self → Self.Item → Bool };

    /// Whether the first value is at most the second.
    ghost leq: { Self → Self.Item → Self.Item → Bool };

    /// Whether the item is a value.
    fn is_value(&self, a: &Self::Item) -> bool
        ensures { result ≡ is_value self.now a.now };

    /// Whether `a` is at most `b`.
    fn leq(&self, a: &Self::Item, b: &Self::Item) -> bool
        requires a_is_value { IsTrue (is_value self.now a.now) }
        requires b_is_value { IsTrue (is_value self.now b.now) }
        ensures { result ≡ leq self.now a.now b.now };

    /// A value equal to `a`.
    fn copy(&self, alloc: Global, a: &Self::Item) -> Result<Self::Item, NoMemory>
        requires { IsTrue (is_value self.now a.now) }
        ensures { IfOk result (λ b. b ≡ a.now) };

    /// The least values: incomparable ones, so that each value is above one of them.
    fn least(&self, alloc: Global) -> Result<List<Self::Item>, NoMemory>
        ensures { IfOk result (IsLeast (is_value self.now) (leq self.now)) };

    /// The least common upper bounds: incomparable values above both, so that each value above both is above one of them.
    ///
    /// There may be none.
    fn bounds(
        &self,
        alloc: Global,
        a: &Self::Item,
        b: &Self::Item,
    ) -> Result<List<Self::Item>, NoMemory>
        requires a_is_value { IsTrue (is_value self.now a.now) }
        requires b_is_value { IsTrue (is_value self.now b.now) }
        ensures { IfOk result (AreBounds (is_value self.now) (leq self.now) a.now b.now) };

    /// On the values, `leq` is reflexive, transitive and antisymmetric.
    ghost laws: { (o : Self) → IsOrder (is_value o) (leq o) };
}
