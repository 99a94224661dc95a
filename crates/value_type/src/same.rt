ghost use Rattle.std.specs.Prelude.{◌≡◌, map};
ghost use Rattle.order_core.specs.Tuple.{are_values};
ghost use Rattle.unit_core.specs.Dimension.{same_dim};
ghost use Rattle.value_type.specs.SameForm as spec;

use crate::kind::Kind;
use unit_core::Dim;

/// Whether both types are the same.
#[cycle(same)]
pub fn same_kind(a: &Kind, b: &Kind) -> bool
    ensures { result ≡ spec.same_kind a.now b.now }
{
    match a {
        Kind::Num(x) => match b {
            Kind::Num(y) => same_dim(*x, *y),
            _ => false,
        },
        Kind::Fin(x) => match b {
            Kind::Fin(y) => *x == *y,
            _ => false,
        },
        Kind::Prod(xs) => match b {
            Kind::Prod(ys) => same_kinds(xs.items(), ys.items()),
            _ => false,
        },
        Kind::Up(x) => match b {
            Kind::Up(y) => *x == *y,
            _ => false,
        },
    }
}

/// Whether the lists have the same types, in order.
#[cycle(same)]
#[tactic(auto, using(order_core::specs::PartnerLaws::are_values_unequal))]
fn same_kinds(xs: &[Kind], ys: &[Kind]) -> bool
    ensures { result ≡ are_values (map spec.same_kind xs.now) ys.now }
{
    if xs.len() != ys.len() {
        return false;
    }
    for (at, x) in xs.iter().enumerate() {
        if !same_kind(x, &ys[at]) {
            return false;
        }
    }
    true
}

fn same_dim(a: Dim, b: Dim) -> bool
    ensures { result ≡ same_dim a b }
{
    a == b
}
