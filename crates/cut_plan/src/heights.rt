//! How high the values of a port can climb.

ghost use Rattle.std.specs.Prelude.{◌≡◌, ◌-◌, ◌++◌, Some, map, slice_get, option_map, IfOk};
ghost use Rattle.std.specs.List.{filter_map};
ghost use Rattle.std.specs.Option.{option_copied};
ghost use Rattle.value_type.specs.declared.value.Value.{out-Value};
ghost use Rattle.cut_plan.specs.Totals.{clipped};
ghost use Rattle.design_model.specs.Heights.{height, part_heights, parts_at, part_at, sum_all, size};

use crate::numbers::count_numbers;
use order_core::{List, NoMemory};
use std::alloc::Global;
use value_type::{Kind, Types, Value};

/// The height of a port of this type, which has these values if they are known.
#[cycle(height_of)]
pub fn height_of(
    alloc: Global,
    types: &Types,
    kind: &Kind,
    values: Option<&List<Value>>,
) -> Result<Option<u64>, NoMemory>
    ensures { IfOk result (λ found. found ≡ clipped (height types.now kind.now (option_copied values.entry))) }
{
    match kind {
        Kind::Num(_) => match values {
            Some(values) => Ok(Some(count_numbers(alloc, values.items())? as u64)),
            None => Ok(None),
        },
        Kind::Fin(k) => Ok(element_height(types, *k)),
        Kind::Prod(kinds) => tuple_height(alloc, types, kinds.items(), values),
        Kind::Up(k) => Ok(set_height(types, *k)),
    }
}

/// The height of the poset of this number: how many elements it has besides one.
fn element_height(types: &Types, k: u32) -> Option<u64>
    ensures { result ≡ clipped (option_map (λ p. size p - 1) (slice_get types.now.posets k)) }
{
    match types.posets.get(k as usize) {
        Some(poset) => Some(u64::from(poset.order.size()).saturating_sub(1)),
        None => None,
    }
}

/// The height of the upper sets of the poset of this number: how many elements it has.
fn set_height(types: &Types, k: u32) -> Option<u64>
    ensures { result ≡ clipped (option_map size (slice_get types.now.posets k)) }
{
    match types.posets.get(k as usize) {
        Some(poset) => Some(u64::from(poset.order.size())),
        None => None,
    }
}

/// The sum of the heights of a tuple's parts.
#[cycle(height_of)]
fn tuple_height(
    alloc: Global,
    types: &Types,
    kinds: &[Kind],
    values: Option<&List<Value>>,
) -> Result<Option<u64>, NoMemory>
    ensures { IfOk result (λ found. found ≡ clipped (sum_all (part_heights 0 (map (height types.now) kinds.now) (option_copied values.entry)))) }
{
    let mut total: u64 = 0;
    for (at, kind) in kinds.iter().enumerate() {
        let parts = parts_at(alloc, at, values)?;
        let Some(height) = height_of(alloc, types, kind, parts.as_ref())? else {
            return Ok(None);
        };
        total = total.saturating_add(height);
    }
    Ok(Some(total))
}

/// The parts of this number of the tuples, if the tuples are known.
fn parts_at(
    alloc: Global,
    at: usize,
    tuples: Option<&List<Value>>,
) -> Result<Option<List<Value>>, NoMemory>
    ensures { IfOk result (λ made. made ≡ option_map (parts_at at) (option_copied tuples.entry)) }
{
    match tuples {
        Some(tuples) => Ok(Some(parts_of(alloc, at, tuples.items())?)),
        None => Ok(None),
    }
}

/// The parts of this number of the tuples.
fn parts_of(alloc: Global, at: usize, tuples: &[Value]) -> Result<List<Value>, NoMemory>
    ensures { IfOk result (λ made. made ≡ parts_at at tuples.now) }
{
    let mut parts = Vec::new(alloc);
    for tuple in tuples {
        if let Some(part) = part_at(at, tuple) {
            if parts.push(part.copy(alloc)?).is_err() {
                return Err(NoMemory);
            }
        }
    }
    Ok(List::of(parts))
}

/// The part of this number, if the value is a tuple that has one.
fn part_at(at: usize, value: &Value) -> Option<&Value>
    ensures { option_copied result ≡ part_at at (out-Value value.now) }
{
    match value {
        Value::Tup(parts) => parts.get(at),
        _ => None,
    }
}
