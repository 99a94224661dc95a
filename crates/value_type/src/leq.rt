ghost use Rattle.std.specs.Prelude.{◌≡◌, map};
ghost use Rattle.std.specs.Option.{option_copied};
ghost use Rattle.order_core.specs.Tuple.{tuple_leq};
ghost use Rattle.value_type.specs.Leq as spec;
ghost use Rattle.value_type.specs.declared.value.Value.{out-Value};

use crate::kind::Kind;
use crate::poset::{Poset, Types};
use crate::value::Value;
use order_core::UpperOrder;

/// Whether `a` is at most `b` as values of this type.
#[cycle(leq)]
#[inline(always)]
pub fn leq(types: &Types, kind: &Kind, a: &Value, b: &Value) -> bool
    ensures { result ≡ spec.leq types.now kind.now a.now b.now }
{
    match kind {
        Kind::Num(_) => number_leq(a, b),
        Kind::Fin(k) => element_leq(types.posets.get(*k as usize), a, b),
        Kind::Prod(kinds) => parts_leq(types, kinds.items(), a, b),
        Kind::Up(k) => set_leq(types.posets.get(*k as usize), a, b),
    }
}

/// Whether there are two values for each type, and each of the first is at most its partner.
#[cycle(leq)]
#[inline(always)]
#[tactic(auto, using(order_core::specs::PartnerLaws::unequal_lower, order_core::specs::PartnerLaws::unequal_upper))]
pub fn leq_all(types: &Types, kinds: &[Kind], xs: &[Value], ys: &[Value]) -> bool
    ensures { result ≡ spec.row_leq types.now kinds.now xs.now ys.now }
{
    if kinds.len() != xs.len() {
        return false;
    }
    if kinds.len() != ys.len() {
        return false;
    }
    for (at, kind) in kinds.iter().enumerate() {
        if !leq(types, kind, &xs[at], &ys[at]) {
            return false;
        }
    }
    true
}

/// Whether both are tuples of values of these types, and each of the first is at most its partner.
#[cycle(leq)]
#[inline(never)]
fn parts_leq(types: &Types, kinds: &[Kind], a: &Value, b: &Value) -> bool
    ensures { result ≡ spec.parts_leq (map (spec.leq types.now) kinds.now) (out-Value a.now) (out-Value b.now) }
{
    match a {
        Value::Tup(xs) => match b {
            Value::Tup(ys) => leq_all(types, kinds, xs.items(), ys.items()),
            _ => false,
        },
        _ => false,
    }
}

#[inline(always)]
fn number_leq(a: &Value, b: &Value) -> bool
    ensures { result ≡ spec.number_leq (out-Value a.now) (out-Value b.now) }
{
    match a {
        Value::Num(x) => match b {
            Value::Num(y) => *x <= *y,
            Value::Top => true,
            _ => false,
        },
        Value::Top => match b {
            Value::Top => true,
            _ => false,
        },
        _ => false,
    }
}

#[inline(never)]
fn element_leq(poset: Option<&Poset>, a: &Value, b: &Value) -> bool
    ensures { result ≡ spec.element_leq (option_copied poset.entry) (out-Value a.now) (out-Value b.now) }
{
    match poset {
        None => false,
        Some(poset) => match a {
            Value::El(x) => match b {
                Value::El(y) => poset.order.is_below(*x, *y),
                _ => false,
            },
            _ => false,
        },
    }
}

#[inline(never)]
fn set_leq(poset: Option<&Poset>, a: &Value, b: &Value) -> bool
    ensures { result ≡ spec.set_leq (option_copied poset.entry) (out-Value a.now) (out-Value b.now) }
{
    match poset {
        None => false,
        Some(poset) => {
            let order = UpperOrder { base: &poset.order };
            match a {
                Value::Up(xs) => match b {
                    Value::Up(ys) => order.is_below(xs, ys),
                    _ => false,
                },
                _ => false,
            }
        }
    }
}
