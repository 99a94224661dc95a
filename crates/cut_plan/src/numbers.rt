//! How many different numbers there are among values.

ghost use Rattle.std.specs.Prelude.{◌≡◌, ℕ, length, IfOk};
ghost use Rattle.std.specs.List.{list_any};
ghost use Rattle.value_type.specs.declared.value.Value.{out-Value};
ghost use Rattle.cut_plan.specs.Different.{counts, count_at, is_top};
ghost use Rattle.design_model.specs.Heights.{count_numbers};

use order_core::NoMemory;
use std::alloc::Global;
use value_type::Value;

/// How many different numbers besides zero there are among the values.
pub fn count_numbers(alloc: Global, values: &[Value]) -> Result<usize, NoMemory>
    ensures { IfOk result (λ count. count ≡ count_numbers values.now) }
{
    let mut counts = counts_of(alloc, values)?;
    counts.sort_unstable();
    counts.dedup();
    Ok(counts.len() + usize::from(has_top(values)))
}

/// The counts besides zero among the values.
fn counts_of(alloc: Global, values: &[Value]) -> Result<Vec<u64>, NoMemory>
    ensures { IfOk result (λ made. made.items ≡ counts values.now) }
{
    let mut counts = Vec::new(alloc);
    for value in values {
        if let Some(count) = count_of(value) {
            if counts.push(count).is_err() {
                return Err(NoMemory);
            }
        }
    }
    Ok(counts)
}

/// The count that the value is, if it is one besides zero.
fn count_of(value: &Value) -> Option<u64>
    ensures { result ≡ count_at (out-Value value.now) }
{
    match value {
        Value::Num(0) => None,
        Value::Num(n) => Some(*n),
        _ => None,
    }
}

/// Whether the number that is greater than every count is among the values.
fn has_top(values: &[Value]) -> bool
    ensures { result ≡ list_any (λ v. is_top (out-Value v)) values.now }
{
    for value in values {
        if is_top(value) {
            return true;
        }
    }
    false
}

fn is_top(value: &Value) -> bool
    ensures { result ≡ is_top (out-Value value.now) }
{
    match value {
        Value::Top => true,
        _ => false,
    }
}
