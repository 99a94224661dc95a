ghost use Rattle.std.specs.Prelude.{◌≡◌};
ghost use Rattle.order_core.specs.Num.{count_or_top};
ghost use Rattle.unit_core.specs.Ratio.{ratio};
ghost use Rattle.value_type.specs.Scale.{scaled};

use order_core::{MAX_COUNT, Num};
use unit_core::Fraction;

/// The number times the fraction, rounded up to a whole count, and Top where that is greater than `MAX_COUNT`.
///
/// Scaling by zero gives zero, also of Top. Scaling Top by anything else gives Top.
pub fn scale(by: Fraction, x: Num) -> Num
    ensures { result ≡ scaled (ratio by) x }
{
    match x {
        Num::Count(count) => {
            count_or_top((by.num as u128 * count as u128).div_ceil(by.den as u128))
        }
        Num::Top => { if by.num == 0 { Num::Count(0) } else { Num::Top } }
    }
}

/// The count, or Top where it is greater than `MAX_COUNT`.
fn count_or_top(n: u128) -> Num
    ensures { result ≡ count_or_top n }
{
    if n <= MAX_COUNT as u128 {
        Num::Count(n as u64)
    } else {
        Num::Top
    }
}
