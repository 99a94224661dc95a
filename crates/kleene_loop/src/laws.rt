//! What holds of ascents.

ghost use Rattle.std.specs.Prelude.{ℕ, ◌<◌, ◌+◌, suc, IsTrue};
ghost use Rattle.order_core.specs.Chains.{EndsChain, IsLeastEnd, IsMonotone};
ghost use Rattle.kleene_loop.specs.New.{IsNew};

use crate::relation::Relation;
use order_core::Order;

/// A least end that is new in a round was a least end in no round before. So no point is asked twice.
pub fn points_are_asked_once<O: Order, R: Relation<Item = O::Item>>(order: &O, relation: &R)
    requires { IsMonotone (O.is_value order.now) (O.leq order.now) (R.leads relation.now) }
    ensures { (j k : ℕ) (x : O.Item) → j < k
        → IsLeastEnd (O.is_value order.now) (O.leq order.now) (R.leads relation.now) j x
        → IsLeastEnd (O.is_value order.now) (O.leq order.now) (R.leads relation.now) k x
        → IsNew (O.is_value order.now) (O.leq order.now) (R.leads relation.now) k x
        → ⊥ }
{}

/// What is above the end of a chain ends one too, and a longer chain has no new end. A least end that also ends a longer chain leads to itself, and is a least end of all longer chains.
pub fn chains_rise_fall_and_settle<O: Order, R: Relation<Item = O::Item>>(order: &O, relation: &R)
    requires { IsMonotone (O.is_value order.now) (O.leq order.now) (R.leads relation.now) }
    ensures rise { (k : ℕ) (s t : O.Item) → EndsChain (O.is_value order.now) (O.leq order.now) (R.leads relation.now) k s
        → IsTrue (O.is_value order.now t) → IsTrue (O.leq order.now s t) → EndsChain (O.is_value order.now) (O.leq order.now) (R.leads relation.now) k t }
    ensures fall { (k : ℕ) (s : O.Item) → EndsChain (O.is_value order.now) (O.leq order.now) (R.leads relation.now) (suc k) s
        → EndsChain (O.is_value order.now) (O.leq order.now) (R.leads relation.now) k s }
    ensures leads { (k : ℕ) (s : O.Item) → IsLeastEnd (O.is_value order.now) (O.leq order.now) (R.leads relation.now) k s
        → EndsChain (O.is_value order.now) (O.leq order.now) (R.leads relation.now) (suc k) s → R.leads relation.now s s }
    ensures stays { (k more : ℕ) (s : O.Item) → IsLeastEnd (O.is_value order.now) (O.leq order.now) (R.leads relation.now) k s
        → EndsChain (O.is_value order.now) (O.leq order.now) (R.leads relation.now) (suc k) s
        → IsLeastEnd (O.is_value order.now) (O.leq order.now) (R.leads relation.now) (more + k) s }
{}
