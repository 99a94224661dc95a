ghost use Rattle.std.specs.Prelude.{◌≡◌, map};
ghost use Rattle.std.specs.Option.{option_copied};
ghost use Rattle.order_core.specs.Tuple.{are_values};
ghost use Rattle.value_type.specs.Fits as spec;
ghost use Rattle.value_type.specs.declared.value.Value.{out-Value};

use crate::kind::Kind;
use crate::poset::{Poset, Types};
use crate::value::Value;
use order_core::{MAX_COUNT, Order, UpperOrder};

/// Whether the value is one of this type.
#[cycle(fits)]
pub fn fits(types: &Types, kind: &Kind, value: &Value) -> bool
    ensures { result ≡ spec.fits types.now kind.now value.now }
{
    match kind {
        Kind::Num(_) => is_number(value),
        Kind::Fin(k) => is_element(types.posets.get(*k as usize), value),
        Kind::Prod(kinds) => match value {
            Value::Tup(values) => fits_all(types, kinds.items(), values.items()),
            _ => false,
        },
        Kind::Up(k) => is_upper(types.posets.get(*k as usize), value),
    }
}

/// Whether there is one value for each type, and is one of it.
#[cycle(fits)]
#[tactic(auto, using(order_core::specs::PartnerLaws::are_values_unequal))]
pub fn fits_all(types: &Types, kinds: &[Kind], values: &[Value]) -> bool
    ensures { result ≡ spec.row_fits types.now kinds.now values.now }
{
    if kinds.len() != values.len() {
        return false;
    }
    for (at, kind) in kinds.iter().enumerate() {
        if !fits(types, kind, &values[at]) {
            return false;
        }
    }
    true
}

/// Whether the value is a number, none of its counts too great.
fn is_number(value: &Value) -> bool
    ensures { result ≡ spec.is_number (out-Value value.now) }
{
    match value {
        Value::Num(n) => *n <= MAX_COUNT,
        Value::Top => true,
        _ => false,
    }
}

/// Whether the value is an element of the poset.
fn is_element(poset: Option<&Poset>, value: &Value) -> bool
    ensures { result ≡ spec.is_element (option_copied poset.entry) (out-Value value.now) }
{
    match poset {
        None => false,
        Some(poset) => match value {
            Value::El(element) => poset.order.is_value(element),
            _ => false,
        },
    }
}

/// Whether the value is an upper set of the poset.
fn is_upper(poset: Option<&Poset>, value: &Value) -> bool
    ensures { result ≡ spec.is_upper (option_copied poset.entry) (out-Value value.now) }
{
    match poset {
        None => false,
        Some(poset) => {
            let order = UpperOrder { base: &poset.order };
            match value {
                Value::Up(members) => order.is_value(members),
                _ => false,
            }
        }
    }
}
