//! What holds of bases.

ghost use Rattle.std.specs.Prelude.{◌↔◌, Bool, IsTrue, List};
ghost use Rattle.order_core.specs.Members.{IsMember};
ghost use Rattle.order_core.specs.Minimal.{IsMinimal};
ghost use Rattle.antichain.specs.Basis.{IsBasis};

use order_core::Order;

/// The members of a basis of some values are exactly their minimal ones.
pub fn bases_are_the_minimal_elements<O: Order>(order: &O)
    ensures { (test : O.Item → Bool) (xs : List O.Item) → ((x : O.Item) → IsTrue (test x) → IsTrue (O.is_value order.now x))
        → IsBasis (O.leq order.now) (λ x. IsTrue (test x)) xs
        → (x : O.Item) → IsMember x xs ↔ IsMinimal (O.leq order.now) (λ y. IsTrue (test y)) x }
{}
