ghost use Rattle.std.specs.Prelude.{◌≡◌, ◌<◌, ◌≤◌, ◌*◌, ◌/◌};
ghost use Rattle.unit_core.specs.Gcd.{gcd};
ghost use Rattle.unit_core.specs.Range.{greatest_part};

use crate::divisor::greatest_common_divisor;
use crate::fault::FractionFault;

/// The greatest numerator and denominator.
pub const MAX_PART: u64 = 10_000_000_000_000_000_000;

/// A fraction of whole numbers in lowest terms, each at most `MAX_PART`.
///
/// Zero is 0/1.
#[derive(Clone, Copy, Debug, PartialEq, Eq)]
pub struct Fraction {
    pub num: u64,
    pub den: u64,
    pub ghost whole: { 0 < den },
    pub ghost reduced: { gcd num den ≡ 1 },
    pub ghost num_in_range: { num ≤ greatest_part },
    pub ghost den_in_range: { den ≤ greatest_part },
}

impl Fraction {
    ghost use Rattle.unit_core.specs.Ratio.{quotient, ratio, times_ratio, over_ratio};
    ghost use Rattle.unit_core.specs.Results.{map_ok};
    ghost use Rattle.unit_core.specs.Rounding.{ceiling, floor, IsRoundedUp, IsRoundedDown};

    /// The fraction num/den in lowest terms.
    ///
    /// `Zero` where `den` is zero, otherwise `Range` where a part of it is above `MAX_PART`.
    #[tactic(auto, unfolding(crate::specs::Ratio::quotient))]
    pub fn new(num: u128, den: u128) -> Result<Fraction, FractionFault>
        ensures { map_ok ratio result ≡ quotient num den }
    {
        if den == 0 {
            return Err(FractionFault::Zero);
        }
        let divisor = greatest_common_divisor(num, den);
        let reduced_num = num / divisor;
        let reduced_den = den / divisor;
        if reduced_num > MAX_PART as u128 {
            return Err(FractionFault::Range);
        }
        if reduced_den > MAX_PART as u128 {
            return Err(FractionFault::Range);
        }
        Ok(Fraction {
            num: reduced_num as u64,
            den: reduced_den as u64,
        })
    }

    /// The quotient of two products, `a * b` over `c * d`, in lowest terms.
    ///
    /// It is exact for all factors, since common divisors go before anything is multiplied. `Zero` where `c` or `d`
    /// is zero, otherwise `Range` where a part of it is above `MAX_PART`.
    pub fn of_products(a: u128, b: u128, c: u128, d: u128) -> Result<Fraction, FractionFault>
        ensures { map_ok ratio result ≡ quotient (a * b) (c * d) }
    {
        if c == 0 {
            return Err(FractionFault::Zero);
        }
        if d == 0 {
            return Err(FractionFault::Zero);
        }
        let first = cancelled(a, c);
        let second = cancelled(first.0, d);
        let third = cancelled(b, first.1);
        let fourth = cancelled(third.0, second.1);
        let Some(num) = second.0.checked_mul(fourth.0) else {
            return Err(FractionFault::Range);
        };
        let Some(den) = third.1.checked_mul(fourth.1) else {
            return Err(FractionFault::Range);
        };
        Fraction::new(num, den)
    }

    /// The product, or `Range` where a part of it in lowest terms is above `MAX_PART`.
    #[tactic(auto, unfolding(crate::specs::Ratio::times_ratio))]
    pub fn times(self, other: Fraction) -> Result<Fraction, FractionFault>
        ensures { map_ok ratio result ≡ times_ratio (ratio self) (ratio other) }
    {
        Fraction::new(
            self.num as u128 * other.num as u128,
            self.den as u128 * other.den as u128,
        )
    }

    /// The quotient.
    ///
    /// `Zero` where the divisor is zero, otherwise `Range` where a part in lowest terms is above `MAX_PART`.
    #[tactic(auto, unfolding(crate::specs::Ratio::over_ratio))]
    pub fn over(self, other: Fraction) -> Result<Fraction, FractionFault>
        ensures { map_ok ratio result ≡ over_ratio (ratio self) (ratio other) }
    {
        Fraction::new(
            self.num as u128 * other.den as u128,
            self.den as u128 * other.num as u128,
        )
    }

    /// The least whole number that is at least the fraction.
    pub fn round_up(self) -> u64
        ensures value { result ≡ ceiling self.num self.den }
        ensures rounded { IsRoundedUp self.num self.den result }
    {
        self.num.div_ceil(self.den)
    }

    /// The greatest whole number that is at most the fraction.
    pub fn round_down(self) -> u64
        ensures value { result ≡ floor self.num self.den }
        ensures rounded { IsRoundedDown self.num self.den result }
    {
        self.num / self.den
    }
}

/// Both numbers divided by their greatest common divisor.
fn cancelled(a: u128, b: u128) -> (u128, u128)
    requires { 0 < b }
    ensures upper { result.0 ≡ a / gcd a b }
    ensures lower { result.1 ≡ b / gcd a b }
{
    let divisor = greatest_common_divisor(a, b);
    (a / divisor, b / divisor)
}
