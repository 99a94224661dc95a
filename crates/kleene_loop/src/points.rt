ghost use Rattle.std.specs.Prelude.{◌≡◌, ◌+◌, ◌≤◌, ◌<◌, IsTrue, filter, not, reverse, vec_capacity, vec_len};
ghost use Rattle.std.specs.List.{list_all, list_any};
ghost use Rattle.order_core.specs.Order.{are_incomparable};
ghost use Rattle.antichain.specs.Minima.{inserted, inserted_all};

use antichain::{remove_above, some_below};
use order_core::Order;

/// Takes out the items that one of the others is at most, and keeps the order of those that stay.
pub fn remove_above_any<O: Order>(order: &O, items: &mut Vec<O::Item>, others: &[O::Item])
    requires items_are_values { IsTrue (list_all (O.is_value order.now) items.old.items) }
    requires others_are_values { IsTrue (list_all (O.is_value order.now) others.now) }
    ensures { items.new.items ≡ filter (λ item. not (list_any (λ other. O.leq order.now other item) others.now)) items.old.items }
{
    let mut kept = 0;
    for at in 0..items.len() {
        if !some_below(order, others, &items[at]) {
            items.swap(kept, at);
            kept += 1;
        }
    }
    items.truncate(kept);
}

/// Puts the item last and takes out those above it, unless one is at most it. There is room for it.
fn insert_reserved<O: Order>(order: &O, members: &mut Vec<O::Item>, item: O::Item)
    requires members_are_values { IsTrue (list_all (O.is_value order.now) members.old.items) }
    requires incomparable { IsTrue (are_incomparable (O.leq order.now) members.old.items) }
    requires item_is_value { IsTrue (O.is_value order.now item) }
    requires room { vec_len members.old < vec_capacity members.old }

    ensures items { members.new.items ≡ inserted (O.leq order.now) members.old.items item }
    ensures members_are_values { IsTrue (list_all (O.is_value order.now) members.new.items) }
    ensures incomparable { IsTrue (are_incomparable (O.leq order.now) members.new.items) }
    ensures len { vec_len members.new ≤ vec_len members.old + 1 }
    ensures capacity { vec_capacity members.old ≤ vec_capacity members.new }
{
    if some_below(order, members, &item) {
        return;
    }
    remove_above(order, members, &item);
    match members.push(item) {
        Ok(()) => {}
        Err(_) => unreachable!(),
    }
}

/// Inserts each of the items in turn, the last one first. There is room for them.
pub fn insert_all_reserved<O: Order>(order: &O, members: &mut Vec<O::Item>, items: Vec<O::Item>)
    requires members_are_values { IsTrue (list_all (O.is_value order.now) members.old.items) }
    requires incomparable { IsTrue (are_incomparable (O.leq order.now) members.old.items) }
    requires items_are_values { IsTrue (list_all (O.is_value order.now) items.items) }
    requires room { vec_len members.old + vec_len items ≤ vec_capacity members.old }
    ensures { members.new.items ≡ inserted_all (O.leq order.now) members.old.items (reverse items.items) }
{
    let mut items = items;
    while let Some(item) = items.pop() {
        insert_reserved(order, members, item);
    }
}
