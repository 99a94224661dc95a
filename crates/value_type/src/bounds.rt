ghost use Rattle.std.specs.Prelude.{◌≡◌, IfOk, IsTrue};
ghost use Rattle.order_core.specs.Order.{AreBounds};
ghost use Rattle.order_core.specs.Tuple.{AreAllBounds};
ghost use Rattle.order_core.specs.Upper.{is_upper, upper_leq};
ghost use Rattle.value_type.specs.Fits.{fits, row_fits};
ghost use Rattle.value_type.specs.Leq.{leq, row_leq};

use crate::kind::Kind;
use crate::poset::{Poset, Types};
use crate::value::Value;
use crate::wrap::{
    element_of, elements, members_of, number_of, numbers, parts_of, tuples, upper_sets,
};
use order_core::{List, NoMemory, NumOrder, Order, UpperOrder, product_of};
use std::alloc::Global;

/// The least common upper bounds of two values of a type.
#[cycle(bounds)]
pub fn bounds_of(
    alloc: Global,
    types: &Types,
    kind: &Kind,
    a: &Value,
    b: &Value,
) -> Result<List<Value>, NoMemory>
    requires a_fits { IsTrue (fits types.now kind.now a.now) }
    requires b_fits { IsTrue (fits types.now kind.now b.now) }
    ensures { IfOk result (AreBounds (fits types.now kind.now) (leq types.now kind.now) a.now b.now) }
{
    match kind {
        Kind::Num(_) => numbers(alloc, NumOrder.bounds(alloc, &number_of(a), &number_of(b))?),
        Kind::Fin(k) => match types.posets.get(*k as usize) {
            Some(poset) => elements(
                alloc,
                poset.order.bounds(alloc, &element_of(a), &element_of(b))?,
            ),
            None => unreachable!(),
        },
        Kind::Prod(kinds) => tuples(
            alloc,
            row_bounds(alloc, types, kinds.items(), parts_of(a), parts_of(b))?,
        ),
        Kind::Up(k) => match types.posets.get(*k as usize) {
            Some(poset) => upper_sets(
                alloc,
                set_bounds(alloc, poset, members_of(a), members_of(b))?,
            ),
            None => unreachable!(),
        },
    }
}

/// The least common upper bounds of two rows of these types.
#[cycle(bounds)]
pub fn row_bounds(
    alloc: Global,
    types: &Types,
    kinds: &[Kind],
    xs: &[Value],
    ys: &[Value],
) -> Result<List<List<Value>>, NoMemory>
    requires xs_fit { IsTrue (row_fits types.now kinds.now xs.now) }
    requires ys_fit { IsTrue (row_fits types.now kinds.now ys.now) }
    ensures { IfOk result (AreBounds (row_fits types.now kinds.now) (row_leq types.now kinds.now) xs.now ys.now) }
{
    let choices = bounds_of_each(alloc, types, kinds, xs, ys)?;
    Ok(List::of(product_of(alloc, kinds, choices.as_slice())?))
}

/// The bounds of each value and its partner.
#[cycle(bounds)]
fn bounds_of_each(
    alloc: Global,
    types: &Types,
    kinds: &[Kind],
    xs: &[Value],
    ys: &[Value],
) -> Result<Vec<List<Value>>, NoMemory>
    requires xs_fit { IsTrue (row_fits types.now kinds.now xs.now) }
    requires ys_fit { IsTrue (row_fits types.now kinds.now ys.now) }
    ensures { IfOk result (λ made. AreAllBounds (fits types.now) (leq types.now) kinds.now xs.now ys.now made.items) }
{
    let mut made = Vec::new(alloc);
    for (at, kind) in kinds.iter().enumerate() {
        let values = bounds_of(alloc, types, kind, &xs[at], &ys[at])?;
        if made.push(values).is_err() {
            return Err(NoMemory);
        }
    }
    Ok(made)
}

/// The bounds of two upper sets of a poset.
fn set_bounds(
    alloc: Global,
    poset: &Poset,
    xs: &List<u32>,
    ys: &List<u32>,
) -> Result<List<List<u32>>, NoMemory>
    requires xs_fit { IsTrue (is_upper poset.now.order.table xs.now) }
    requires ys_fit { IsTrue (is_upper poset.now.order.table ys.now) }
    ensures { IfOk result (AreBounds (is_upper poset.now.order.table) (upper_leq poset.now.order.table) xs.now ys.now) }
{
    let order = UpperOrder { base: &poset.order };
    order.bounds(alloc, xs, ys)
}
