ghost use Rattle.std.specs.Prelude.{◌≡◌, Some, IsSome, IfOk, map};
ghost use Rattle.std.specs.Option.{option_copied};
ghost use Rattle.design_model.specs.NumberLaws.{as_value};
ghost use Rattle.design_model.specs.ValueOf.{value_of, reads_of, together, tuple_of};

use crate::expr::Expr;
use crate::number::number;
use crate::reading::{Reading, Rows};
use order_core::{List, NoMemory, Num};
use std::alloc::Global;
use value_type::{Row, Value};

/// The value of the expression where the own provided ports carry `own` and each part's required ports carry its row of `inner`.
///
/// It is there for an expression that is typed for these rows.
pub fn value_of(alloc: Global, expr: &Expr, own: &Row, inner: &List<Row>) -> Result<Value, NoMemory>
    requires { IsSome (value_of expr.now (reads_of own.now inner.now)) }
    ensures { IfOk result (λ made. Some made ≡ value_of expr.now (reads_of own.now inner.now)) }
{
    match value_in(alloc, expr, &Rows { own, inner })? {
        Some(value) => Ok(value),
        None => unreachable!(),
    }
}

/// The value of the expression, if it is there.
#[cycle(value_in)]
#[tactic(auto, using(crate::proofs::NumberLemmas::of_one_number, crate::proofs::NumberLemmas::of_two_number))]
pub fn value_in<R: Reading>(
    alloc: Global,
    expr: &Expr,
    reading: &R,
) -> Result<Option<Value>, NoMemory>
    ensures { IfOk result (λ made. made ≡ value_of expr.now (R.reads reading.now)) }
{
    match expr {
        Expr::Own(port) => copied(alloc, reading.own(*port)),
        Expr::Inner(part, port) => copied(alloc, reading.inner(*part, *port)),
        Expr::Constant(value) => copied(alloc, Some(value)),
        Expr::Scale(_, _) => Ok(as_value(number(expr, reading))),
        Expr::Sum(_, _) => Ok(as_value(number(expr, reading))),
        Expr::Product(_, _) => Ok(as_value(number(expr, reading))),
        Expr::Greatest(_, _) => Ok(as_value(number(expr, reading))),
        Expr::Lesser(_, _) => Ok(as_value(number(expr, reading))),
        Expr::Tuple(parts) => match values_in(alloc, parts.items(), reading)? {
            Some(values) => Ok(Some(Value::Tup(values))),
            None => Ok(None),
        },
    }
}

/// The values of the expressions, if each of them is there.
#[cycle(value_in)]
fn values_in<R: Reading>(
    alloc: Global,
    parts: &[Expr],
    reading: &R,
) -> Result<Option<List<Value>>, NoMemory>
    ensures { IfOk result (λ made. made ≡ together (map value_of parts.now) (R.reads reading.now)) }
{
    let mut values = Vec::new(alloc);
    for part in parts {
        let Some(value) = value_in(alloc, part, reading)? else {
            return Ok(None);
        };
        if values.push(value).is_err() {
            return Err(NoMemory);
        }
    }
    Ok(Some(List::of(values)))
}

/// A copy of the value, if it is there.
fn copied(alloc: Global, value: Option<&Value>) -> Result<Option<Value>, NoMemory>
    ensures { IfOk result (λ made. made ≡ option_copied value.entry) }
{
    match value {
        Some(value) => Ok(Some(value.copy(alloc)?)),
        None => Ok(None),
    }
}

/// The number as a value, if it is there.
fn as_value(number: Option<Num>) -> Option<Value>
    ensures { result ≡ as_value number }
{
    match number {
        Some(Num::Count(n)) => Some(Value::Num(n)),
        Some(Num::Top) => Some(Value::Top),
        None => None,
    }
}
