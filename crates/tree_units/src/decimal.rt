ghost use Rattle.std.specs.Prelude.{◌≡◌, ◌*◌, ◌^◌, ◌<◌, ◌≤◌, MatchOption};
ghost use Rattle.tree_units.specs.Constants.{decimal_quotient};
ghost use Rattle.unit_core.specs.Ratio.{ratio};
ghost use Rattle.unit_core.specs.Results.{map_ok};

use design_lexer::Number;
use unit_core::{Fraction, FractionFault};

/// The greatest power of ten that 128 bits hold.
const MAX_TENS: u8 = 38;

/// The quotient of two decimal numbers, in lowest terms.
///
/// `Zero` where the second number is zero, otherwise `Range` where it's no fraction in range.
pub(crate) fn decimal_quotient(over: Number, under: Number) -> Result<Fraction, FractionFault>
    ensures { map_ok ratio result ≡ decimal_quotient over under }
{
    if under.digits == 0 {
        return Err(FractionFault::Zero);
    }
    if over.digits == 0 {
        return Fraction::new(0, 1);
    }
    // The decimals of each number count for the other one, and those of both cancel.
    let shared = over.decimals.min(under.decimals);
    let Some(upper) = times_tens(over.digits, under.decimals - shared) else {
        return Err(FractionFault::Range);
    };
    let Some(lower) = times_tens(under.digits, over.decimals - shared) else {
        return Err(FractionFault::Range);
    };
    Fraction::of_products(upper.0, upper.1, lower.0, lower.1)
}

/// Two factors whose product is the number times ten to the `n`, or `None` where this is too great.
///
/// What is too great gives no fraction in range, whichever number of 128 bits it's divided by, or divides.
fn times_tens(number: u128, n: u8) -> Option<(u128, u128)>
    requires positive { 0 < number }
    ensures { MatchOption result ((38 < n) × (2 ^ 128 * 10 ^ 38 ≤ number * 10 ^ n)) (λ pair. pair.0 * pair.1 ≡ number * 10 ^ n) }
{
    let low = n.min(MAX_TENS);
    let high = 10u128.checked_pow((n - low) as u32)?;
    let first = number.checked_mul(high)?;
    Some((first, 10u128.pow(low as u32)))
}
