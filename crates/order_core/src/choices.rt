ghost use Rattle.std.specs.Prelude.{◌≡◌, ◌++◌, ◌∷◌, [], Bool, map, IsTrue, IfOk};
ghost use Rattle.std.specs.List.{list_all, flat_map};
ghost use Rattle.order_core.specs.Tuple.{are_values, product, with_each, has_empty};

use crate::list::List;
use crate::order::{NoMemory, Order};
use std::alloc::Global;

/// What copies the items at one place of a tuple.
pub trait Copier {
    type Item: Drop;

    /// Which items it copies.
    ghost can_copy: { Self → Self.Item → Bool };

    /// An item equal to `a`.
    fn copy_of(&self, alloc: Global, a: &Self::Item) -> Result<Self::Item, NoMemory>
        requires { IsTrue (can_copy self.now a.now) }
        ensures { IfOk result (λ b. b ≡ a.now) };
}

impl<O: Order> Copier for O {
    type Item = O::Item;

    ghost can_copy = { O.is_value };

    fn copy_of(&self, alloc: Global, a: &O::Item) -> Result<O::Item, NoMemory> {
        self.copy(alloc, a)
    }
}

/// A copy of a tuple, part by part.
#[tactic(auto, using(crate::specs::PartnerLaws::are_values_length))]
pub fn copied<C: Copier>(
    alloc: Global,
    parts: &[C],
    items: &[C::Item],
) -> Result<Vec<C::Item>, NoMemory>
    requires { IsTrue (are_values (map C.can_copy parts.now) items.now) }
    ensures { IfOk result (λ made. made.items ≡ items.now) }
{
    let mut made = Vec::new(alloc);
    for (at, part) in parts.iter().enumerate() {
        let item = part.copy_of(alloc, &items[at])?;
        if made.push(item).is_err() {
            return Err(NoMemory);
        }
    }
    Ok(made)
}

/// Each tuple with one of its part's choices at each place.
pub fn product_of<C: Copier>(
    alloc: Global,
    parts: &[C],
    choices: &[List<C::Item>],
) -> Result<Vec<List<C::Item>>, NoMemory>
    requires { IsTrue (are_values (map (λ part. list_all (C.can_copy part)) parts.now) choices.now) }
    ensures { IfOk result (λ made. made.items ≡ product choices.now) }
{
    let mut made = Vec::new(alloc);
    // With no item for some part there is no tuple, so none is begun.
    if has_empty(choices) {
        return Ok(made);
    }
    if made.push(List::of(Vec::new(alloc))).is_err() {
        return Err(NoMemory);
    }
    for (at, part) in parts.iter().enumerate() {
        made = extended(alloc, &parts[..at], made, part, choices[at].items())?;
    }
    Ok(made)
}

/// Whether one of the lists has no items.
fn has_empty<T>(lists: &[List<T>]) -> bool
    ensures { result ≡ has_empty lists.now }
{
    for list in lists {
        if list.items().is_empty() {
            return true;
        }
    }
    false
}

/// Each tuple followed by each of the items.
fn extended<C: Copier>(
    alloc: Global,
    parts: &[C],
    tuples: Vec<List<C::Item>>,
    part: &C,
    items: &[C::Item],
) -> Result<Vec<List<C::Item>>, NoMemory>
    requires tuples_are_values { IsTrue (list_all (are_values (map C.can_copy parts.now)) tuples.items) }
    requires items_are_values { IsTrue (list_all (C.can_copy part.now) items.now) }
    ensures { IfOk result (λ made. made.items ≡ flat_map (with_each items.now) tuples.items) }
{
    let mut made = Vec::new(alloc);
    for tuple in tuples {
        put_each(alloc, &mut made, parts, tuple, part, items)?;
    }
    Ok(made)
}

/// Puts the tuple followed by each of the items. The last one is made in the tuple's own memory.
fn put_each<C: Copier>(
    alloc: Global,
    made: &mut Vec<List<C::Item>>,
    parts: &[C],
    tuple: List<C::Item>,
    part: &C,
    items: &[C::Item],
) -> Result<(), NoMemory>
    requires tuple_is_value { IsTrue (are_values (map C.can_copy parts.now) tuple) }
    requires items_are_values { IsTrue (list_all (C.can_copy part.now) items.now) }
    ensures { IfOk result (λ _. made.new.items ≡ made.old.items ++ with_each items.now tuple) }
{
    let Some((last, others)) = items.split_last() else {
        return Ok(());
    };
    for item in others {
        let front = copied(alloc, parts, tuple.items())?;
        put_one(alloc, made, front, part, item)?;
    }
    put_one(alloc, made, tuple.into_vec(), part, last)
}

/// Puts the tuple followed by a copy of the item.
fn put_one<C: Copier>(
    alloc: Global,
    made: &mut Vec<List<C::Item>>,
    mut front: Vec<C::Item>,
    part: &C,
    item: &C::Item,
) -> Result<(), NoMemory>
    requires { IsTrue (C.can_copy part.now item.now) }
    ensures { IfOk result (λ _. made.new.items ≡ made.old.items ++ (front.items ++ item.now ∷ []) ∷ []) }
{
    let copy = part.copy_of(alloc, item)?;
    if front.push(copy).is_err() {
        return Err(NoMemory);
    }
    if made.push(List::of(front)).is_err() {
        return Err(NoMemory);
    }
    Ok(())
}
