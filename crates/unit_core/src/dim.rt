ghost use Rattle.std.specs.Prelude.{◌≡◌, ◌+ℤ◌, ◌-ℤ◌, MatchOption, cond, false, true};
ghost use Rattle.unit_core.specs.Dimension.{are_exponents, dim_over, dim_times, is_exponent};

/// A dimension: the exponents of mass, length, time, current, money and bits.
#[derive(Clone, Copy, Debug, PartialEq, Eq)]
pub struct Dim {
    pub mass: i8,
    pub length: i8,
    pub time: i8,
    pub current: i8,
    pub money: i8,
    pub bits: i8,
}

/// The least exponent of a product or quotient.
const MIN_EXPONENT: i16 = -9;

/// The greatest exponent of a product or quotient.
const MAX_EXPONENT: i16 = 9;

#[tactic(auto, unfolding(crate::specs::Dimension::is_exponent))]
fn exponent(n: i16) -> Option<i8>
    ensures { MatchOption result (is_exponent n ≡ false) (λ m. (is_exponent n ≡ true) × (m ≡ n)) }
{
    if n < MIN_EXPONENT {
        return None;
    }
    if n > MAX_EXPONENT {
        return None;
    }
    Some(n as i8)
}

fn sum(a: i8, b: i8) -> Option<i8>
    ensures { MatchOption result (is_exponent (a +ℤ b) ≡ false) (λ m. (is_exponent (a +ℤ b) ≡ true) × (m ≡ a +ℤ b)) }
{
    exponent(a as i16 + b as i16)
}

fn difference(a: i8, b: i8) -> Option<i8>
    ensures { MatchOption result (is_exponent (a -ℤ b) ≡ false) (λ m. (is_exponent (a -ℤ b) ≡ true) × (m ≡ a -ℤ b)) }
{
    exponent(a as i16 - b as i16)
}

impl Dim {
    /// The dimension of plain numbers.
    pub const NONE: Dim = Dim {
        mass: 0,
        length: 0,
        time: 0,
        current: 0,
        money: 0,
        bits: 0,
    };

    /// The exponents of a product, or `None` where one is below -9 or above 9.
    pub fn times(self, other: Dim) -> Option<Dim>
        ensures { result ≡ cond (are_exponents (dim_times self other)) (Some (dim_times self other)) None }
    {
        Some(Dim {
            mass: sum(self.mass, other.mass)?,
            length: sum(self.length, other.length)?,
            time: sum(self.time, other.time)?,
            current: sum(self.current, other.current)?,
            money: sum(self.money, other.money)?,
            bits: sum(self.bits, other.bits)?,
        })
    }

    /// The exponents of a quotient, or `None` where one is below -9 or above 9.
    pub fn over(self, other: Dim) -> Option<Dim>
        ensures { result ≡ cond (are_exponents (dim_over self other)) (Some (dim_over self other)) None }
    {
        Some(Dim {
            mass: difference(self.mass, other.mass)?,
            length: difference(self.length, other.length)?,
            time: difference(self.time, other.time)?,
            current: difference(self.current, other.current)?,
            money: difference(self.money, other.money)?,
            bits: difference(self.bits, other.bits)?,
        })
    }
}
