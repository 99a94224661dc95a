mod ports;

use crate::{Constant, constant_of, is_whole, product_of, unit_of};
use design_lexer::{ConstantTree, FactorTree, NameAt, Number};
use fault_list::{Fault, FaultKind};
use order_core::{List, NoMemory, Text};
use std::alloc::Global;
use std::test::Fail;
use unit_core::{Dim, Fraction};

/// Where each constant stands, and where the name of each unit does.
const AT: u64 = 7;

const NAME_AT: u64 = 9;

/// Whether `/` stands before a factor, its name, and its power.
type Factor = (bool, &'static str, Option<i64>);

/// A dimension and the two parts of a fraction, or a fault.
type Meaning = Result<(Dim, u64, u64), Fault>;

const MASS: Dim = Dim {
    mass: 1,
    ..Dim::NONE
};

const MASS_4: Dim = Dim {
    mass: 4,
    ..Dim::NONE
};

const MASS_5: Dim = Dim {
    mass: 5,
    ..Dim::NONE
};

const MASS_9: Dim = Dim {
    mass: 9,
    ..Dim::NONE
};

const ACCELERATION: Dim = Dim {
    length: 1,
    time: -2,
    ..Dim::NONE
};

const FORCE: Dim = Dim {
    mass: 1,
    length: 1,
    time: -2,
    ..Dim::NONE
};

const DIVISOR: Meaning = Err(Fault {
    kind: FaultKind::ZeroDivisor,
    at: AT,
});

const EXPONENT: Meaning = Err(Fault {
    kind: FaultKind::Exponent,
    at: AT,
});

const RANGE: Meaning = Err(Fault {
    kind: FaultKind::ConstantRange,
    at: AT,
});

const UNKNOWN: Meaning = Err(Fault {
    kind: FaultKind::Unknown,
    at: NAME_AT,
});

/// The greatest part of a fraction.
const MAX: u64 = 10_000_000_000_000_000_000;

const LONG: u128 = MAX as u128;

/// Five to the 55.
const FIVES: u128 = 277_555_756_156_289_135_105_907_917_022_705_078_125;

/// The digits and decimals of two numbers, and their quotient.
const QUOTIENTS: [((u128, u8), (u128, u8), Meaning); 14] = [
    ((2 * LONG, 0), (2, 0), Ok((Dim::NONE, MAX, 1))),
    ((5 * LONG, 0), (5 * LONG, 19), Ok((Dim::NONE, MAX, 1))),
    ((2 * LONG + 1, 0), (2, 0), RANGE),
    ((15, 1), (25, 2), Ok((Dim::NONE, 6, 1))),
    ((5, 19), (1, 0), Ok((Dim::NONE, 1, MAX / 5))),
    ((1, 0), (3 * LONG, 0), RANGE),
    ((0, 5), (3, 0), Ok((Dim::NONE, 0, 1))),
    ((0, 0), (1, 255), Ok((Dim::NONE, 0, 1))),
    ((1, 255), (1, 255), Ok((Dim::NONE, 1, 1))),
    ((FIVES, 55), (1, 0), Ok((Dim::NONE, 1, 1 << 55))),
    ((1, 0), (FIVES, 55), Ok((Dim::NONE, 1 << 55, 1))),
    ((FIVES, 0), (1, 255), RANGE),
    ((1, 0), (1, 58), RANGE),
    ((1, 58), (1, 0), RANGE),
];

/// The factors of units.
const UNITS: [(&[Factor], Meaning); 20] = [
    (&[], Ok((Dim::NONE, 1, 1))),
    (&[(false, "kg", None)], Ok((MASS, 1_000, 1))),
    (
        &[(false, "m", None), (true, "s", Some(2))],
        Ok((ACCELERATION, 1_000, 1)),
    ),
    (
        &[(true, "s", Some(2)), (false, "m", None)],
        Ok((ACCELERATION, 1_000, 1)),
    ),
    (
        &[(false, "m", None), (false, "s", Some(-2))],
        Ok((ACCELERATION, 1_000, 1)),
    ),
    (
        &[(false, "kg", None), (true, "kg", None), (false, "kg", None)],
        Ok((MASS, 1_000, 1)),
    ),
    (&[(false, "mg", None)], Ok((MASS, 1, 1_000))),
    (&[(false, "kg", Some(0))], Ok((Dim::NONE, 1, 1))),
    (
        &[(false, "g", Some(9)), (true, "g", Some(8))],
        Ok((MASS, 1, 1)),
    ),
    (&[(false, "g", Some(10))], EXPONENT),
    (&[(false, "g", Some(-10))], EXPONENT),
    (
        &[(false, "g", Some(9)), (false, "g", None), (true, "g", None)],
        EXPONENT,
    ),
    (&[(false, "t", Some(9))], RANGE),
    (&[(false, "t", Some(10))], EXPONENT),
    (
        &[
            (false, "km", Some(3)),
            (false, "km", None),
            (true, "km", None),
        ],
        RANGE,
    ),
    (&[(false, "m", Some(5)), (false, "m", Some(5))], EXPONENT),
    (&[(true, "t", Some(3)), (true, "t", None)], RANGE),
    (&[(false, "ft", Some(10))], UNKNOWN),
    (&[(false, "g", Some(10)), (false, "ft", None)], EXPONENT),
    (&[(false, "g", None), (true, "Kg", None)], UNKNOWN),
];

const KILOGRAM: &[Factor] = &[(false, "kg", None)];

const FOOT: &[Factor] = &[(false, "ft", None)];

/// Numbers and their units.
const CONSTANTS: [((u128, u8), Option<(u128, u8)>, &[Factor], Meaning); 9] = [
    ((5, 1), None, KILOGRAM, Ok((MASS, 500, 1))),
    ((1, 0), Some((3, 0)), KILOGRAM, Ok((MASS, 1_000, 3))),
    ((1, 0), Some((0, 0)), KILOGRAM, DIVISOR),
    ((0, 0), Some((0, 255)), KILOGRAM, DIVISOR),
    ((LONG + 1, 0), Some((0, 3)), FOOT, DIVISOR),
    ((LONG + 1, 0), None, FOOT, RANGE),
    ((LONG, 0), None, FOOT, UNKNOWN),
    ((LONG, 0), None, KILOGRAM, RANGE),
    ((LONG, 0), Some((1_000, 0)), KILOGRAM, Ok((MASS, MAX, 1))),
];

/// The dimensions, numerators and denominators of two constants, and their product.
const PRODUCTS: [((Dim, u128, u128), (Dim, u128, u128), Meaning); 8] = [
    ((MASS, 2, 3), (ACCELERATION, 9, 4), Ok((FORCE, 3, 2))),
    ((MASS_5, 1, 1), (MASS_4, 1, 1), Ok((MASS_9, 1, 1))),
    ((MASS_5, 1, 1), (MASS_5, 1, 1), EXPONENT),
    ((MASS_5, LONG, 1), (MASS_5, LONG, 1), EXPONENT),
    ((MASS_5, LONG, 1), (MASS_4, LONG, 1), RANGE),
    ((MASS_5, 1, LONG), (MASS_4, 1, 2), RANGE),
    ((MASS_5, LONG, 3), (MASS_4, 3, LONG), Ok((MASS_9, 1, 1))),
    ((MASS_5, 0, 1), (MASS_4, LONG, 1), Ok((MASS_9, 0, 1))),
];

fn text(alloc: Global, word: &str) -> Result<Text, NoMemory> {
    Ok(Text::of(String::from_str(alloc, word)?))
}

fn factor(alloc: Global, factor: Factor) -> Result<FactorTree, NoMemory> {
    let (divided, name, power) = factor;
    let (negative, power) = match power {
        Some(power) => (power < 0, Some(power.unsigned_abs() as u128)),
        None => (false, None),
    };
    let name = text(alloc, name)?;
    Ok(FactorTree {
        divided,
        name: NameAt { name, at: NAME_AT },
        negative,
        power,
        written: Text::of(String::new(alloc)),
    })
}

fn factors(alloc: Global, rows: &[Factor]) -> Result<List<FactorTree>, NoMemory> {
    let mut made = Vec::new(alloc);
    for row in rows {
        made.push(factor(alloc, *row)?)?;
    }
    Ok(List::of(made))
}

/// Whether the answer is the one expected.
fn agrees(made: Result<Constant, Fault>, expected: Meaning) -> bool {
    match (made, expected) {
        (Ok(made), Ok(expected)) => {
            made.dim == expected.0
                && made.fraction.num == expected.1
                && made.fraction.den == expected.2
        }
        (Err(made), Err(expected)) => made == expected,
        _ => false,
    }
}

fn number(parts: (u128, u8)) -> Number {
    Number {
        digits: parts.0,
        decimals: parts.1,
    }
}

/// Whether the constant of these numbers and factors means what is expected.
fn reads(
    alloc: Global,
    over: (u128, u8),
    under: Option<(u128, u8)>,
    unit: &[Factor],
    expected: Meaning,
) -> Result<bool, NoMemory> {
    let tree = ConstantTree {
        over: number(over),
        under: under.map(number),
        unit: factors(alloc, unit)?,
        at: AT,
    };
    Ok(agrees(constant_of(&tree), expected))
}

/// Whether the product of these constants means what is expected.
fn multiplies(a: (Dim, u128, u128), b: (Dim, u128, u128), expected: Meaning) -> bool {
    match (Fraction::new(a.1, a.2), Fraction::new(b.1, b.2)) {
        (Ok(x), Ok(y)) => {
            let a = Constant {
                dim: a.0,
                fraction: x,
            };
            let b = Constant {
                dim: b.0,
                fraction: y,
            };
            agrees(product_of(a, b, AT), expected)
        }
        _ => false,
    }
}

/// Whether the unit's size is whole, where there is such a unit.
fn whole(alloc: Global, unit: &[Factor]) -> Result<Option<bool>, NoMemory> {
    let unit = factors(alloc, unit)?;
    Ok(match unit_of(unit.items(), AT) {
        Ok(unit) => Some(is_whole(unit)),
        Err(_) => None,
    })
}

#[test]
fn quotients_are_exact(rt: HostRuntime) -> Result<(), Fail> {
    let alloc = rt.alloc();
    for (over, under, expected) in QUOTIENTS {
        assert!(rt; reads(alloc, over, Some(under), &[], expected)?);
    }
    Ok(())
}

#[test]
fn units_are_worked_out_from_the_left(rt: HostRuntime) -> Result<(), Fail> {
    let alloc = rt.alloc();
    for (unit, expected) in UNITS {
        assert!(rt; reads(alloc, (1, 0), None, unit, expected)?);
    }
    assert!(rt; whole(alloc, KILOGRAM)? == Some(true));
    assert!(rt; whole(alloc, &[(false, "mg", None)])? == Some(false));
    assert!(rt; whole(alloc, &[(false, "kg", None), (true, "day", None)])? == Some(false));
    Ok(())
}

#[test]
fn faults_come_in_order(rt: HostRuntime) -> Result<(), Fail> {
    let alloc = rt.alloc();
    for (over, under, unit, expected) in CONSTANTS {
        assert!(rt; reads(alloc, over, under, unit, expected)?);
    }
    Ok(())
}

#[test]
fn constants_are_multiplied(rt: HostRuntime) {
    for (a, b, expected) in PRODUCTS {
        assert!(rt; multiplies(a, b, expected));
    }
}
