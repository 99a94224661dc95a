ghost use Rattle.std.specs.Prelude.{◌≡◌};
ghost use Rattle.std.specs.Option.{option_copied};
ghost use Rattle.design_model.specs.ValueOf.{value_of, number_in, number_at, of_two};
ghost use Rattle.order_core.specs.Num.{number_sum, number_product, greater_of, lesser_of};
ghost use Rattle.value_type.specs.declared.value.Value.{out-Value};

use crate::expr::Expr;
use crate::reading::Reading;
use order_core::Num;
use value_type::{Value, scale};

/// The expression's value, if it is a number.
pub fn number<R: Reading>(expr: &Expr, reading: &R) -> Option<Num>
    ensures { result ≡ number_in (value_of expr.now (R.reads reading.now)) }
{
    match expr {
        Expr::Own(port) => number_in(reading.own(*port)),
        Expr::Inner(part, port) => number_in(reading.inner(*part, *port)),
        Expr::Constant(value) => as_number(value),
        Expr::Scale(by, a) => match number(a.get(), reading) {
            Some(x) => Some(scale(*by, x)),
            None => None,
        },
        Expr::Sum(a, b) => sum(number(a.get(), reading), number(b.get(), reading)),
        Expr::Product(a, b) => product(number(a.get(), reading), number(b.get(), reading)),
        Expr::Greatest(a, b) => greater(number(a.get(), reading), number(b.get(), reading)),
        Expr::Lesser(a, b) => lesser(number(a.get(), reading), number(b.get(), reading)),
        Expr::Tuple(_) => None,
    }
}

/// The value as a number, if it is there and is one.
fn number_in(value: Option<&Value>) -> Option<Num>
    ensures { result ≡ number_in (option_copied value.entry) }
{
    match value {
        Some(value) => as_number(value),
        None => None,
    }
}

/// The value as a number, if it is one.
fn as_number(value: &Value) -> Option<Num>
    ensures { result ≡ number_at (out-Value value.now) }
{
    match value {
        Value::Num(n) => Some(Num::Count(*n)),
        Value::Top => Some(Num::Top),
        _ => None,
    }
}

#[tactic(auto, using(crate::specs::NumberLaws::number_back))]
fn sum(a: Option<Num>, b: Option<Num>) -> Option<Num>
    ensures { result ≡ number_in (of_two number_sum a b) }
{
    match (a, b) {
        (Some(a), Some(b)) => Some(a.plus(b)),
        _ => None,
    }
}

#[tactic(auto, using(crate::specs::NumberLaws::number_back))]
fn product(a: Option<Num>, b: Option<Num>) -> Option<Num>
    ensures { result ≡ number_in (of_two number_product a b) }
{
    match (a, b) {
        (Some(a), Some(b)) => Some(a.times(b)),
        _ => None,
    }
}

#[tactic(auto, using(crate::specs::NumberLaws::number_back))]
fn greater(a: Option<Num>, b: Option<Num>) -> Option<Num>
    ensures { result ≡ number_in (of_two greater_of a b) }
{
    match (a, b) {
        (Some(a), Some(b)) => Some(a.greater(b)),
        _ => None,
    }
}

#[tactic(auto, using(crate::specs::NumberLaws::number_back))]
fn lesser(a: Option<Num>, b: Option<Num>) -> Option<Num>
    ensures { result ≡ number_in (of_two lesser_of a b) }
{
    match (a, b) {
        (Some(a), Some(b)) => Some(a.lesser(b)),
        _ => None,
    }
}
