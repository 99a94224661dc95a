ghost use Rattle.std.specs.Prelude.{◌≡◌, ◌≤ℤ◌, pos};
ghost use Rattle.tree_units.specs.Units.{factor_measure, is_whole, measure_of, multiplied, placed, raised, signed};
ghost use Rattle.unit_core.specs.Measure.{measure};
ghost use Rattle.unit_core.specs.Results.{map_ok};

use design_lexer::FactorTree;
use fault_list::{Fault, FaultKind};
use unit_core::{Unit, UnitFault};

/// The greatest power that may be written.
const MAX_WRITTEN: u128 = 9;

/// The unit that the factors write, worked out from the left, from the unit 1.
///
/// The first step that breaks a rule names the fault: `Unknown` at a name that no unit has, `Exponent` or
/// `ConstantRange` at `at`. A factor's steps are its name, its written power, the power, and the product or quotient.
pub fn unit_of(factors: &[FactorTree], at: u64) -> Result<Unit, Fault>
    ensures { map_ok measure result ≡ measure_of at factors.now }
{
    let mut unit = Unit::one();
    for factor in factors {
        unit = join(unit, factor, at)?;
    }
    Ok(unit)
}

/// Whether the size is a whole count of the grid's unit.
pub fn is_whole(unit: Unit) -> bool
    ensures { result ≡ is_whole (measure unit) }
{
    unit.size.den == 1
}

/// The unit multiplied by the factor, or divided by it.
fn join(unit: Unit, factor: &FactorTree, at: u64) -> Result<Unit, Fault>
    ensures { map_ok measure result ≡ multiplied at (measure unit) factor.now }
{
    let by = factor_unit(factor, at)?;
    if factor.divided {
        placed(unit.over(by), at)
    } else {
        placed(unit.times(by), at)
    }
}

/// The named unit, raised to the power that is written.
fn factor_unit(factor: &FactorTree, at: u64) -> Result<Unit, Fault>
    ensures { map_ok measure result ≡ factor_measure at factor.now }
{
    let Some(unit) = Unit::of(factor.name.name.as_str()) else {
        return Err(Fault {
            kind: FaultKind::Unknown,
            at: factor.name.at,
        });
    };
    raised(unit, factor.negative, factor.power, at)
}

/// The unit raised to the power that is written, if one is.
fn raised(unit: Unit, negative: bool, power: Option<u128>, at: u64) -> Result<Unit, Fault>
    ensures { map_ok measure result ≡ raised at (measure unit) negative power }
{
    let Some(power) = power else {
        return Ok(unit);
    };
    if power > MAX_WRITTEN {
        return Err(Fault {
            kind: FaultKind::Exponent,
            at,
        });
    }
    placed(unit.power(signed(negative, power as i32)), at)
}

/// The power with its sign.
fn signed(negative: bool, power: i32) -> i32
    requires not_negative { pos 0 ≤ℤ power }
    ensures { result ≡ signed negative power }
{
    if negative { -power } else { power }
}

/// The unit, or its fault with a place.
fn placed(unit: Result<Unit, UnitFault>, at: u64) -> Result<Unit, Fault>
    ensures { map_ok measure result ≡ placed at (map_ok measure unit) }
{
    match unit {
        Ok(unit) => Ok(unit),
        Err(UnitFault::Exponent) => Err(Fault {
            kind: FaultKind::Exponent,
            at,
        }),
        Err(UnitFault::Range) => Err(Fault {
            kind: FaultKind::ConstantRange,
            at,
        }),
    }
}
