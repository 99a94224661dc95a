ghost use Rattle.std.specs.Prelude.{◌≡◌, ◌≤◌, IfOk, IsTrue, filter, not, vec_capacity, vec_len};
ghost use Rattle.std.specs.List.{list_all, list_any};
ghost use Rattle.antichain.specs.Basis.{IsRaise, has_equal};
ghost use Rattle.antichain.specs.Covers.{IsCover};

use order_core::{NoMemory, Order};
use std::alloc::Global;

/// Whether some item is at most x. The last items are compared first.
#[inline]
pub fn some_below<O: Order>(order: &O, items: &[O::Item], x: &O::Item) -> bool
    requires items_are_values { IsTrue (list_all (O.is_value order.now) items.now) }
    requires x_is_value { IsTrue (O.is_value order.now x.now) }
    ensures { result ≡ list_any (λ item. O.leq order.now item x.now) items.now }
{
    let mut left = items.len();
    while left > 0 {
        left -= 1;
        if order.leq(&items[left], x) {
            return true;
        }
    }
    false
}

/// Takes out the items that x is at most, and keeps the order of the others.
pub fn remove_above<O: Order>(order: &O, items: &mut Vec<O::Item>, x: &O::Item)
    requires items_are_values { IsTrue (list_all (O.is_value order.now) items.old.items) }
    requires x_is_value { IsTrue (O.is_value order.now x.now) }
    ensures items { items.new.items ≡ filter (λ item. not (O.leq order.now x.now item)) items.old.items }
    ensures len { vec_len items.new ≤ vec_len items.old }
    ensures capacity { vec_capacity items.old ≤ vec_capacity items.new }
{
    let mut kept = 0;
    for at in 0..items.len() {
        if !order.leq(x, &items[at]) {
            items.swap(kept, at);
            kept += 1;
        }
    }
    items.truncate(kept);
}

/// Whether some item is at most x, and x at most it.
fn some_equal<O: Order>(order: &O, items: &[O::Item], x: &O::Item) -> bool
    requires items_are_values { IsTrue (list_all (O.is_value order.now) items.now) }
    requires x_is_value { IsTrue (O.is_value order.now x.now) }
    ensures { result ≡ has_equal (O.leq order.now) items.now x.now }
{
    for item in items {
        if order.leq(x, item) && order.leq(item, x) {
            return true;
        }
    }
    false
}

/// Whether each item has an equal one among the others.
pub fn all_equal<O: Order>(order: &O, items: &[O::Item], others: &[O::Item]) -> bool
    requires items_are_values { IsTrue (list_all (O.is_value order.now) items.now) }
    requires others_are_values { IsTrue (list_all (O.is_value order.now) others.now) }
    ensures { result ≡ list_all (has_equal (O.leq order.now) others.now) items.now }
{
    for item in items {
        if !some_equal(order, others, item) {
            return false;
        }
    }
    true
}

/// Common upper bounds of x and each item, one after the other, so that each value above x and an item is above one of them.
pub fn all_bounds<O: Order>(
    alloc: Global,
    order: &O,
    items: &[O::Item],
    x: &O::Item,
) -> Result<Vec<O::Item>, NoMemory>
    requires items_are_values { IsTrue (list_all (O.is_value order.now) items.now) }
    requires x_is_value { IsTrue (O.is_value order.now x.now) }
    ensures { IfOk result (λ found. IsCover (O.leq order.now) (IsRaise (O.is_value order.now) (O.leq order.now) x.now items.now) found.items) }
{
    let mut found = Vec::new(alloc);
    for item in items {
        let mut bounds = order.bounds(alloc, x, item)?.into_vec();
        if found.append(&mut bounds).is_err() {
            return Err(NoMemory);
        }
    }
    Ok(found)
}
