ghost use Rattle.std.specs.Prelude.{◌≡◌, map};
ghost use Rattle.std.specs.Option.{option_copied};
ghost use Rattle.design_model.specs.Above.{is_above, are_above};
ghost use Rattle.design_model.specs.NumberLaws.{as_value};
ghost use Rattle.design_model.specs.ValueOf.{value_of, reads_of, together, tuple_of};

use crate::expr::Expr;
use crate::number::number;
use crate::reading::{Reading, Witnessed};
use crate::witness::PartWitness;
use order_core::{List, Num};
use value_type::{Kind, Row, Types, Value};

/// Whether `x` is at least the value of the expression, as values of this type.
///
/// The own provided ports carry `own`, and the parts' required ports what `parts` say. It isn't where the expression has no value.
pub fn above(
    types: &Types,
    kind: &Kind,
    x: &Value,
    expr: &Expr,
    own: &Row,
    parts: &List<PartWitness>,
) -> bool
    ensures { result ≡ is_above types.now kind.now x.now (value_of expr.now (reads_of own.now (map (λ w. w.required) parts.now))) }
{
    above_in(types, kind, x, expr, &Witnessed { own, parts })
}

/// Whether `x` is at least the value of the expression, as values of this type.
#[cycle(above_in)]
#[tactic(auto, using(crate::proofs::NumberLemmas::of_one_number, crate::proofs::NumberLemmas::of_two_number))]
pub fn above_in<R: Reading>(types: &Types, kind: &Kind, x: &Value, expr: &Expr, reading: &R) -> bool
    ensures { result ≡ is_above types.now kind.now x.now (value_of expr.now (R.reads reading.now)) }
{
    match expr {
        Expr::Own(port) => value_above(types, kind, x, reading.own(*port)),
        Expr::Inner(part, port) => value_above(types, kind, x, reading.inner(*part, *port)),
        Expr::Constant(value) => types.leq(kind, value, x),
        Expr::Scale(_, _) => number_above(types, kind, x, number(expr, reading)),
        Expr::Sum(_, _) => number_above(types, kind, x, number(expr, reading)),
        Expr::Product(_, _) => number_above(types, kind, x, number(expr, reading)),
        Expr::Greatest(_, _) => number_above(types, kind, x, number(expr, reading)),
        Expr::Lesser(_, _) => number_above(types, kind, x, number(expr, reading)),
        Expr::Tuple(parts) => tuple_above(types, kind, x, parts.items(), reading),
    }
}

/// Whether `x` is at least the tuple of the expressions' values.
#[cycle(above_in)]
fn tuple_above<R: Reading>(
    types: &Types,
    kind: &Kind,
    x: &Value,
    parts: &[Expr],
    reading: &R,
) -> bool
    ensures { result ≡ is_above types.now kind.now x.now (tuple_of (together (map value_of parts.now) (R.reads reading.now))) }
{
    match kind {
        Kind::Prod(kinds) => match x {
            Value::Tup(xs) => all_above(types, kinds.items(), xs.items(), parts, reading),
            _ => false,
        },
        _ => false,
    }
}

/// Whether each of `xs` is at least the value of its expression.
#[cycle(above_in)]
#[tactic(auto, using(crate::proofs::TupleLaws::above_first, crate::proofs::TupleLaws::unequal_values, crate::proofs::TupleLaws::unequal_parts))]
fn all_above<R: Reading>(
    types: &Types,
    kinds: &[Kind],
    xs: &[Value],
    parts: &[Expr],
    reading: &R,
) -> bool
    ensures { result ≡ are_above types.now kinds.now xs.now (together (map value_of parts.now) (R.reads reading.now)) }
{
    if kinds.len() != xs.len() {
        return false;
    }
    if kinds.len() != parts.len() {
        return false;
    }
    for (at, part) in parts.iter().enumerate() {
        if !above_in(types, &kinds[at], &xs[at], part, reading) {
            return false;
        }
    }
    true
}

/// Whether the value is there, and `x` is at least it.
fn value_above(types: &Types, kind: &Kind, x: &Value, lower: Option<&Value>) -> bool
    ensures { result ≡ is_above types.now kind.now x.now (option_copied lower.entry) }
{
    match lower {
        Some(lower) => types.leq(kind, lower, x),
        None => false,
    }
}

/// Whether the number is there, and `x` is at least it.
fn number_above(types: &Types, kind: &Kind, x: &Value, lower: Option<Num>) -> bool
    ensures { result ≡ is_above types.now kind.now x.now (as_value lower) }
{
    match lower {
        Some(Num::Count(n)) => types.leq(kind, &Value::Num(n), x),
        Some(Num::Top) => types.leq(kind, &Value::Top, x),
        None => false,
    }
}
