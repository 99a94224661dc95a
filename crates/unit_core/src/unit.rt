ghost use Rattle.std.specs.Prelude.{◌≡◌, ◌<◌, ◌≤◌, ◌↔◌, IsTrue};
ghost use Rattle.unit_core.specs.Range.{greatest_part};

use crate::dim::Dim;
use crate::fault::UnitFault;
use crate::fraction::Fraction;

/// A unit of measure: a dimension, and a size above zero in the grid's units g, mm, s, mA, cent and bit.
#[derive(Clone, Copy, Debug, PartialEq, Eq)]
pub struct Unit {
    pub dim: Dim,
    pub size: Fraction,
    pub ghost positive: { 0 < size.num },
}

impl Unit {
    ghost use Rattle.unit_core.specs.Measure.{measure, one, over_measure, power_measure, steps, times_measure};
    ghost use Rattle.unit_core.specs.Results.{map_ok};

    /// The unit 1: no dimension, and the size 1.
    pub fn one() -> Unit
        ensures { measure result ≡ one }
    {
        Unit::whole(Dim::NONE, 1)
    }

    /// The product.
    ///
    /// `Exponent` where an exponent is below -9 or above 9, otherwise `Range` where the size is no fraction in range.
    #[tactic(auto, unfolding(crate::specs::Measure::times_measure))]
    pub fn times(self, other: Unit) -> Result<Unit, UnitFault>
        ensures { map_ok measure result ≡ times_measure (measure self) (measure other) }
    {
        let dim = match self.dim.times(other.dim) {
            Some(dim) => dim,
            None => return Err(UnitFault::Exponent),
        };
        match self.size.times(other.size) {
            Ok(size) => Ok(Unit { dim, size }),
            Err(_) => Err(UnitFault::Range),
        }
    }

    /// The quotient, with the faults of a product.
    #[tactic(auto, unfolding(crate::specs::Measure::over_measure))]
    pub fn over(self, other: Unit) -> Result<Unit, UnitFault>
        ensures { map_ok measure result ≡ over_measure (measure self) (measure other) }
    {
        let dim = match self.dim.over(other.dim) {
            Some(dim) => dim,
            None => return Err(UnitFault::Exponent),
        };
        match self.size.over(other.size) {
            Ok(size) => Ok(Unit { dim, size }),
            Err(_) => Err(UnitFault::Range),
        }
    }

    /// The unit of that size.
    pub(crate) fn whole(dim: Dim, size: u64) -> Unit
        requires positive { 0 < size }
        requires in_range { size ≤ greatest_part }
        ensures { measure result ≡ record { dim = dim; size = record { num = size; den = 1 } } }
    {
        let size = Fraction { num: size, den: 1 };
        Unit { dim, size }
    }

    /// The unit of the size 1/den.
    pub(crate) fn part(dim: Dim, den: u64) -> Unit
        requires positive { 0 < den }
        requires in_range { den ≤ greatest_part }
        ensures { measure result ≡ record { dim = dim; size = record { num = 1; den = den } } }
    {
        let size = Fraction { num: 1, den };
        Unit { dim, size }
    }

    fn is_one(self) -> bool
        ensures { IsTrue result ↔ measure self ≡ one }
    {
        self.dim == Dim::NONE && (self.size.num == 1 && self.size.den == 1)
    }

    /// 1 multiplied by the unit, one step at a time.
    fn multiplied(self, count: u32) -> Result<Unit, UnitFault>
        ensures { map_ok measure result ≡ steps (λ v. times_measure v (measure self)) count one }
    {
        let mut made = Unit::one();
        for _step in 0..count {
            match made.times(self) {
                Ok(next) => made = next,
                Err(fault) => return Err(fault),
            }
        }
        Ok(made)
    }

    /// 1 divided by the unit, one step at a time.
    fn divided(self, count: u32) -> Result<Unit, UnitFault>
        ensures { map_ok measure result ≡ steps (λ v. over_measure v (measure self)) count one }
    {
        let mut made = Unit::one();
        for _step in 0..count {
            match made.over(self) {
                Ok(next) => made = next,
                Err(fault) => return Err(fault),
            }
        }
        Ok(made)
    }

    /// 1 multiplied by the unit `n` times, or divided by it `-n` times.
    ///
    /// The first step that breaks a rule of products names the fault. A unit other than 1 breaks one within
    /// 64 steps, so it's quick for every `n`.
    #[tactic(auto, unfolding(crate::specs::Measure::power_measure))]
    pub fn power(self, n: i32) -> Result<Unit, UnitFault>
        ensures { map_ok measure result ≡ power_measure (measure self) n }
    {
        if self.is_one() {
            return Ok(self);
        }
        if n < 0 {
            return self.divided(n.unsigned_abs());
        }
        self.multiplied(n.unsigned_abs())
    }
}
