ghost use Rattle.std.specs.Prelude.{◌≡◌, ◌++◌, ◌∷◌, [], map, IsTrue, IfOk};
ghost use Rattle.std.specs.List.{list_all, flat_map};
ghost use Rattle.order_core.specs.Tuple.{are_values, tuple_leq, product, with_each, has_empty, AreAllLeast, AreAllBounds};
ghost use Rattle.order_core.specs.TupleLaws.{tuple_laws};

use crate::choices::{copied, product_of};
use crate::list::List;
use crate::order::{NoMemory, Order};
use std::alloc::Global;

/// Tuples of one width, ordered part by part.
#[derive(Drop)]
pub struct TupleOrder<O> {
    pub parts: List<O>,
}

impl<O: Order> Order for TupleOrder<O> {
    type Item = List<O::Item>;

    ghost is_value = { λ o. are_values (map O.is_value o.parts) };

    ghost leq = { λ o. tuple_leq (map O.leq o.parts) };

    #[tactic(auto, using(crate::specs::PartnerLaws::are_values_unequal))]
    fn is_value(&self, a: &List<O::Item>) -> bool {
        let items = a.items();
        let parts = self.parts.items();
        if parts.len() != items.len() {
            return false;
        }
        for (at, part) in parts.iter().enumerate() {
            if !part.is_value(&items[at]) {
                return false;
            }
        }
        true
    }

    #[tactic(auto, using(crate::specs::PartnerLaws::are_values_length))]
    fn leq(&self, a: &List<O::Item>, b: &List<O::Item>) -> bool {
        let xs = a.items();
        let ys = b.items();
        let parts = self.parts.items();
        for (at, part) in parts.iter().enumerate() {
            if !part.leq(&xs[at], &ys[at]) {
                return false;
            }
        }
        true
    }

    fn copy(&self, alloc: Global, a: &List<O::Item>) -> Result<List<O::Item>, NoMemory> {
        Ok(List::of(copied(alloc, self.parts.items(), a.items())?))
    }

    #[tactic(auto, using(crate::specs::ProductLaws::least_values, crate::specs::ProductLaws::product_least))]
    fn least(&self, alloc: Global) -> Result<List<List<O::Item>>, NoMemory> {
        let parts = self.parts.items();
        let choices = least_of_each(alloc, parts)?;
        Ok(List::of(product_of(alloc, parts, choices.as_slice())?))
    }

    #[tactic(auto, using(crate::specs::ProductLaws::bounds_values))]
    fn bounds(
        &self,
        alloc: Global,
        a: &List<O::Item>,
        b: &List<O::Item>,
    ) -> Result<List<List<O::Item>>, NoMemory> {
        let parts = self.parts.items();
        let choices = bounds_of_each(alloc, parts, a.items(), b.items())?;
        Ok(List::of(product_of(alloc, parts, choices.as_slice())?))
    }

    ghost laws = { λ o. tuple_laws O.is_value O.leq O.laws o.parts };
}

/// The least items of each part.
fn least_of_each<O: Order>(alloc: Global, parts: &[O]) -> Result<Vec<List<O::Item>>, NoMemory>
    ensures { IfOk result (λ made. AreAllLeast O.is_value O.leq parts.now made.items) }
{
    let mut made = Vec::new(alloc);
    for part in parts {
        let items = part.least(alloc)?;
        if made.push(items).is_err() {
            return Err(NoMemory);
        }
    }
    Ok(made)
}

/// The bounds of each part's two items.
fn bounds_of_each<O: Order>(
    alloc: Global,
    parts: &[O],
    xs: &[O::Item],
    ys: &[O::Item],
) -> Result<Vec<List<O::Item>>, NoMemory>
    requires xs_are_values { IsTrue (are_values (map O.is_value parts.now) xs.now) }
    requires ys_are_values { IsTrue (are_values (map O.is_value parts.now) ys.now) }
    ensures { IfOk result (λ made. AreAllBounds O.is_value O.leq parts.now xs.now ys.now made.items) }
{
    let mut made = Vec::new(alloc);
    for (at, part) in parts.iter().enumerate() {
        let items = part.bounds(alloc, &xs[at], &ys[at])?;
        if made.push(items).is_err() {
            return Err(NoMemory);
        }
    }
    Ok(made)
}
