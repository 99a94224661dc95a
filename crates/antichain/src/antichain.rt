ghost use Rattle.std.specs.Prelude.{◌≡◌, [], IsTrue, ◌↔◌, not, IfOk, IfErr, OnErr};
ghost use Rattle.std.specs.List.{list_any, list_all};
ghost use Rattle.order_core.specs.Members.{IsMember};
ghost use Rattle.order_core.specs.Minimal.{IsMinimal};
ghost use Rattle.order_core.specs.Order.{are_incomparable};
ghost use Rattle.antichain.specs.Basis.{IsBasis, IsRaise, SameMembers};
ghost use Rattle.antichain.specs.Minima.{are_in_order, each_hands_on, inserted, minima};

use crate::scan::{all_bounds, all_equal, remove_above, some_below};
use order_core::{List, NoMemory, Order};
use std::alloc::Global;
use std::marker::Model;

/// Items of which no one is at most another, seen as their list.
///
/// The order isn't kept: each call is handed the one that the members are values of.
#[derive(Debug, Drop)]
pub struct Antichain<T> {
    items: Vec<T>,
}

impl<T> Model for Antichain<T> {
    ghost use Rattle.std.specs.Prelude.{List};
    ghost use Rattle.std.specs.Coded.{coded_list};

    ghost Value = { List T };

    ghost coded = { coded_list T.code };

    ghost view = { λ a. a.items.items };
}

impl<T: Drop> Antichain<T> {
    /// The minimal items of a list, each once, in order of first appearance.
    ///
    /// It compares each item with each member that was found so far, at most once in either direction.
    pub fn of<O: Order<Item = T>>(
        alloc: Global,
        order: &O,
        items: List<T>,
    ) -> Result<Antichain<T>, NoMemory>
        requires { IsTrue (list_all (O.is_value order.now) items) }

        // The list, with its order.
        ensures minima { IfOk result (λ made. made ≡ minima (O.leq order.now) items) }
        // An item is a member exactly where no other one is at most it.
        ensures exact { IfOk result (λ made. (x : T) → IsMember x made ↔ IsMinimal (O.leq order.now) (λ y. IsMember y items) x) }
        // Each item is above a member.
        ensures basis { IfOk result (IsBasis (O.leq order.now) (λ y. IsMember y items)) }

        ensures members { IfOk result (λ made. IsTrue (list_all (O.is_value order.now) made)) }
        ensures incomparable { IfOk result (λ made. IsTrue (are_incomparable (O.leq order.now) made)) }
    {
        let mut made = Antichain {
            items: Vec::new(alloc),
        };
        for item in items.into_vec() {
            match made.insert(order, item) {
                Ok(_) => {}
                Err(_) => return Err(NoMemory),
            }
        }
        Ok(made)
    }

    /// The minimal items of a list, each once, in order of first appearance, where no item is strictly below one before it.
    ///
    /// It compares each item once with each member that was found so far, the last one first.
    pub fn of_ordered<O: Order<Item = T>>(
        alloc: Global,
        order: &O,
        items: List<T>,
    ) -> Result<Antichain<T>, NoMemory>
        requires values { IsTrue (list_all (O.is_value order.now) items) }
        requires in_order { IsTrue (are_in_order (O.leq order.now) items) }

        // The list, with its order.
        ensures minima { IfOk result (λ made. made ≡ minima (O.leq order.now) items) }
        // An item is a member exactly where no other one is at most it.
        ensures exact { IfOk result (λ made. (x : T) → IsMember x made ↔ IsMinimal (O.leq order.now) (λ y. IsMember y items) x) }
        // Each item is above a member.
        ensures basis { IfOk result (IsBasis (O.leq order.now) (λ y. IsMember y items)) }

        ensures members { IfOk result (λ made. IsTrue (list_all (O.is_value order.now) made)) }
        ensures incomparable { IfOk result (λ made. IsTrue (are_incomparable (O.leq order.now) made)) }
    {
        let mut made = Vec::new(alloc);
        for item in items.into_vec() {
            if !some_below(order, &made, &item) && made.push(item).is_err() {
                return Err(NoMemory);
            }
        }
        Ok(Antichain { items: made })
    }

    /// The minimal items of an ordered list, where the last member so far is at most an item if any member is.
    ///
    /// It compares each item once. Rows of two numbers are such a list, where they are sorted by the first number and then by the second.
    pub fn of_swept<O: Order<Item = T>>(
        alloc: Global,
        order: &O,
        items: List<T>,
    ) -> Result<Antichain<T>, NoMemory>
        requires values { IsTrue (list_all (O.is_value order.now) items) }
        requires in_order { IsTrue (are_in_order (O.leq order.now) items) }
        requires handed_on { IsTrue (each_hands_on (O.leq order.now) items) }

        // The list, with its order.
        ensures minima { IfOk result (λ made. made ≡ minima (O.leq order.now) items) }
        // An item is a member exactly where no other one is at most it.
        ensures exact { IfOk result (λ made. (x : T) → IsMember x made ↔ IsMinimal (O.leq order.now) (λ y. IsMember y items) x) }
        // Each item is above a member.
        ensures basis { IfOk result (IsBasis (O.leq order.now) (λ y. IsMember y items)) }

        ensures members { IfOk result (λ made. IsTrue (list_all (O.is_value order.now) made)) }
        ensures incomparable { IfOk result (λ made. IsTrue (are_incomparable (O.leq order.now) made)) }
    {
        let mut made: Vec<T> = Vec::new(alloc);
        for item in items.into_vec() {
            let last = made.len().saturating_sub(1);
            if !some_below(order, &made[last..], &item) && made.push(item).is_err() {
                return Err(NoMemory);
            }
        }
        Ok(Antichain { items: made })
    }

    /// Puts the item last and takes out the members above it, unless a member is at most it.
    ///
    /// Answers whether it did. An `Err` hands the item back for want of memory.
    pub fn insert<O: Order<Item = T>>(&mut self, order: &O, item: T) -> Result<bool, T>
        requires members { IsTrue (list_all (O.is_value order.now) self.old) }
        requires incomparable { IsTrue (are_incomparable (O.leq order.now) self.old) }
        requires item_is_value { IsTrue (O.is_value order.now item) }

        ensures added { IfOk result (λ added. added ≡ not (list_any (λ member. O.leq order.now member item) self.old)) }
        ensures items { IfOk result (λ _. self.new ≡ inserted (O.leq order.now) self.old item) }
        ensures back { IfErr result (λ back. back ≡ item) }
        ensures err { OnErr result (self.new ≡ self.old) }

        ensures members { IsTrue (list_all (O.is_value order.now) self.new) }
        ensures incomparable { IsTrue (are_incomparable (O.leq order.now) self.new) }
    {
        if some_below(order, &self.items, &item) {
            return Ok(false);
        }
        if self.items.reserve(1).is_err() {
            return Err(item);
        }
        remove_above(order, &mut self.items, &item);
        match self.items.push(item) {
            Ok(()) => Ok(true),
            Err(_) => unreachable!(),
        }
    }

    /// Whether a member is at most x.
    pub fn meets<O: Order<Item = T>>(&self, order: &O, x: &T) -> bool
        requires members { IsTrue (list_all (O.is_value order.now) self.now) }
        requires incomparable { IsTrue (are_incomparable (O.leq order.now) self.now) }
        requires x_is_value { IsTrue (O.is_value order.now x.now) }

        ensures { result ≡ list_any (λ member. O.leq order.now member x.now) self.now }
    {
        some_below(order, &self.items, x)
    }

    /// The minimal values above x and above a member.
    pub fn raise<O: Order<Item = T>>(
        &self,
        alloc: Global,
        order: &O,
        x: &T,
    ) -> Result<Antichain<T>, NoMemory>
        requires members { IsTrue (list_all (O.is_value order.now) self.now) }
        requires incomparable { IsTrue (are_incomparable (O.leq order.now) self.now) }
        requires x_is_value { IsTrue (O.is_value order.now x.now) }

        ensures basis { IfOk result (IsBasis (O.leq order.now) (IsRaise (O.is_value order.now) (O.leq order.now) x.now self.now)) }

        ensures members { IfOk result (λ made. IsTrue (list_all (O.is_value order.now) made)) }
        ensures incomparable { IfOk result (λ made. IsTrue (are_incomparable (O.leq order.now) made)) }
    {
        let found = all_bounds(alloc, order, &self.items, x)?;
        Antichain::of(alloc, order, List::of(found))
    }

    /// Whether both have the same members, in any order.
    pub fn same<O: Order<Item = T>>(&self, order: &O, other: &Antichain<T>) -> bool
        requires members { IsTrue (list_all (O.is_value order.now) self.now) }
        requires incomparable { IsTrue (are_incomparable (O.leq order.now) self.now) }
        requires other_members { IsTrue (list_all (O.is_value order.now) other.now) }
        requires other_incomparable { IsTrue (are_incomparable (O.leq order.now) other.now) }

        ensures { IsTrue result ↔ SameMembers self.now other.now }
    {
        if !all_equal(order, &self.items, &other.items) {
            return false;
        }
        all_equal(order, &other.items, &self.items)
    }

    /// The members, in order.
    pub fn items(&self) -> &[T]
        ensures { result.now ≡ self.now }
    {
        self.items.as_slice()
    }

    /// The members, in order, as a list of their own.
    pub fn into_list(self) -> List<T>
        ensures { result ≡ self }
    {
        let Antichain { items } = self;
        List::of(items)
    }
}
