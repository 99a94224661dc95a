ghost use Rattle.std.specs.Prelude.{◌≡◌};
ghost use Rattle.std.specs.Cmp.Lexicographic.{slice_cmp};
ghost use Rattle.std.specs.Ordering.{nat_cmp};
ghost use Rattle.value_type.specs.PrintOrder as spec;
ghost use Rattle.value_type.specs.declared.value.Value.{out-Value};

use crate::row::Row;
use crate::value::Value;
use std::cmp::Ordering;

/// Which of two values is printed first.
///
/// Numbers rise, Top last; elements rise by number; tuples and upper sets compare from the left, a prefix before the longer one.
/// Values of different forms compare by the order of the variants of `Value`.
#[cycle(print)]
pub fn print_order(a: &Value, b: &Value) -> Ordering
    ensures { result ≡ spec.value_cmp a.now b.now }
{
    match a {
        Value::Num(x) => match b {
            Value::Num(y) => x.cmp(y),
            _ => form(a).cmp(&form(b)),
        },
        Value::Top => form(a).cmp(&form(b)),
        Value::El(x) => match b {
            Value::El(y) => x.cmp(y),
            _ => form(a).cmp(&form(b)),
        },
        Value::Tup(xs) => match b {
            Value::Tup(ys) => compare_values(xs.items(), ys.items()),
            _ => form(a).cmp(&form(b)),
        },
        Value::Up(xs) => match b {
            Value::Up(ys) => compare_numbers(xs.items(), ys.items()),
            _ => form(a).cmp(&form(b)),
        },
    }
}

#[cycle(print)]
fn compare_values(xs: &[Value], ys: &[Value]) -> Ordering
    ensures { result ≡ spec.row_cmp xs.now ys.now }
{
    for (at, x) in xs.iter().enumerate() {
        if at >= ys.len() {
            return Ordering::Greater;
        }
        match print_order(x, &ys[at]) {
            Ordering::Equal => {}
            other => return other,
        }
    }
    if xs.len() < ys.len() {
        Ordering::Less
    } else {
        Ordering::Equal
    }
}

fn compare_numbers(xs: &[u32], ys: &[u32]) -> Ordering
    ensures { result ≡ slice_cmp nat_cmp xs.now ys.now }
{
    xs.cmp(&ys)
}

/// Where the value's form stands among the variants.
fn form(value: &Value) -> u8
    ensures { result ≡ spec.form (out-Value value.now) }
{
    match value {
        Value::Num(_) => 0,
        Value::Top => 1,
        Value::El(_) => 2,
        Value::Tup(_) => 3,
        Value::Up(_) => 4,
    }
}

/// Which of two rows is printed first: they compare value by value from the left, a prefix before the longer one.
pub fn print_order_rows(a: &Row, b: &Row) -> Ordering
    ensures { result ≡ spec.row_cmp a.now b.now }
{
    compare_values(a.values(), b.values())
}
