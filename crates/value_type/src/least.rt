ghost use Rattle.std.specs.Prelude.{◌≡◌, IfOk};
ghost use Rattle.order_core.specs.Order.{IsLeast};
ghost use Rattle.order_core.specs.Tuple.{AreAllLeast};
ghost use Rattle.order_core.specs.Upper.{is_upper, upper_leq};
ghost use Rattle.value_type.specs.Fits.{fits, row_fits};
ghost use Rattle.value_type.specs.Leq.{leq, row_leq};

use crate::kind::Kind;
use crate::poset::{Poset, Types};
use crate::value::Value;
use crate::wrap::{elements, numbers, tuples, upper_sets};
use order_core::{List, NoMemory, NumOrder, Order, UpperOrder, product_of};
use std::alloc::Global;

/// The least values of a type.
#[cycle(least)]
pub fn least_of(alloc: Global, types: &Types, kind: &Kind) -> Result<List<Value>, NoMemory>
    ensures { IfOk result (IsLeast (fits types.now kind.now) (leq types.now kind.now)) }
{
    match kind {
        Kind::Num(_) => numbers(alloc, NumOrder.least(alloc)?),
        Kind::Fin(k) => match types.posets.get(*k as usize) {
            Some(poset) => elements(alloc, poset.order.least(alloc)?),
            None => Ok(List::of(Vec::new(alloc))),
        },
        Kind::Prod(kinds) => tuples(alloc, least_rows(alloc, types, kinds.items())?),
        Kind::Up(k) => match types.posets.get(*k as usize) {
            Some(poset) => upper_sets(alloc, least_sets(alloc, poset)?),
            None => Ok(List::of(Vec::new(alloc))),
        },
    }
}

/// The least rows of these types.
#[cycle(least)]
pub fn least_rows(
    alloc: Global,
    types: &Types,
    kinds: &[Kind],
) -> Result<List<List<Value>>, NoMemory>
    ensures { IfOk result (IsLeast (row_fits types.now kinds.now) (row_leq types.now kinds.now)) }
{
    let choices = least_of_each(alloc, types, kinds)?;
    Ok(List::of(product_of(alloc, kinds, choices.as_slice())?))
}

/// The least values of each type.
#[cycle(least)]
fn least_of_each(alloc: Global, types: &Types, kinds: &[Kind]) -> Result<Vec<List<Value>>, NoMemory>
    ensures { IfOk result (λ made. AreAllLeast (fits types.now) (leq types.now) kinds.now made.items) }
{
    let mut made = Vec::new(alloc);
    for kind in kinds {
        let values = least_of(alloc, types, kind)?;
        if made.push(values).is_err() {
            return Err(NoMemory);
        }
    }
    Ok(made)
}

fn least_sets(alloc: Global, poset: &Poset) -> Result<List<List<u32>>, NoMemory>
    ensures { IfOk result (IsLeast (is_upper poset.now.order.table) (upper_leq poset.now.order.table)) }
{
    let order = UpperOrder { base: &poset.order };
    order.least(alloc)
}
