ghost use Rattle.std.specs.Prelude.{◌≡◌, Ok, Some};
ghost use Rattle.fault_list.specs.Answers.{FindsFirst};
ghost use Rattle.tree_units.specs.Constants.{constant_faults, constant_in, constant_of, divisor_of, fraction_fault, product_faults, product_of, size_faults};
ghost use Rattle.unit_core.specs.Measure.{measure};
ghost use Rattle.unit_core.specs.Ratio.{ratio};

use crate::decimal::decimal_quotient;
use crate::unit::unit_of;
use design_lexer::{ConstantTree, Number};
use fault_list::{Fault, FaultKind};
use unit_core::{Dim, Fraction, FractionFault, Unit};

/// A constant: a dimension, and an exact fraction of counts in the grid's units g, mm, s, mA, cent and bit.
#[derive(Clone, Copy, Debug, PartialEq, Eq)]
pub struct Constant {
    pub dim: Dim,
    pub fraction: Fraction,
}

/// The constant that the tree writes: the exact quotient of its two numbers, in its unit.
///
/// Its faults in this order: `ZeroDivisor` where the second number is zero; `ConstantRange` where the quotient in
/// lowest terms is out of range; those of its unit; `ConstantRange` where the quotient times the unit's size is out
/// of range. They stand at the constant, but for `Unknown`, which stands at the unit's name.
pub fn constant_of(tree: &ConstantTree) -> Result<Constant, Fault>
    ensures { FindsFirst (constant_faults tree.now) (λ made. Some made ≡ constant_of tree.now) result }
{
    let at = tree.at;
    let fraction = match decimal_quotient(tree.over, divisor_of(tree.under)) {
        Ok(fraction) => fraction,
        Err(fault) => return Err(fraction_fault(fault, at)),
    };
    let unit = unit_of(tree.unit.items(), at)?;
    constant_in(fraction, unit, at)
}

/// The product of two constants.
///
/// `Exponent` where an exponent of its dimension is below -9 or above 9, otherwise `ConstantRange` where its fraction
/// is out of range, both at `at`.
#[tactic(auto, using(unit_core::specs::FractionLaws::fraction_again))]
pub fn product_of(a: Constant, b: Constant, at: u64) -> Result<Constant, Fault>
    ensures { FindsFirst (product_faults at a b) (λ made. Some made ≡ product_of a b) result }
{
    let Some(dim) = a.dim.times(b.dim) else {
        return Err(Fault {
            kind: FaultKind::Exponent,
            at,
        });
    };
    match a.fraction.times(b.fraction) {
        Ok(fraction) => Ok(Constant { dim, fraction }),
        Err(fault) => Err(fraction_fault(fault, at)),
    }
}

/// The number below the line, which is 1 where none is written.
fn divisor_of(under: Option<Number>) -> Number
    ensures { result ≡ divisor_of under }
{
    match under {
        Some(under) => under,
        None => Number {
            digits: 1,
            decimals: 0,
        },
    }
}

/// The fault of a fraction, with a place.
fn fraction_fault(fault: FractionFault, at: u64) -> Fault
    ensures { result ≡ fraction_fault at fault }
{
    match fault {
        FractionFault::Range => Fault {
            kind: FaultKind::ConstantRange,
            at,
        },
        FractionFault::Zero => Fault {
            kind: FaultKind::ZeroDivisor,
            at,
        },
    }
}

/// So many of the unit.
#[tactic(auto, using(unit_core::specs::FractionLaws::fraction_again))]
fn constant_in(fraction: Fraction, unit: Unit, at: u64) -> Result<Constant, Fault>
    ensures { FindsFirst (size_faults at (Ok (ratio fraction)) (Ok (measure unit))) (λ made. Some made ≡ constant_in (Ok (ratio fraction)) (Ok (measure unit))) result }
{
    match fraction.times(unit.size) {
        Ok(fraction) => Ok(Constant {
            dim: unit.dim,
            fraction,
        }),
        Err(fault) => Err(fraction_fault(fault, at)),
    }
}
