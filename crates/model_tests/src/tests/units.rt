use std::test::Fail;
use unit_core::{Dim, Unit};

fn dim([mass, length, time, current, money, bits]: [i8; 6]) -> Dim {
    Dim {
        mass,
        length,
        time,
        current,
        money,
        bits,
    }
}

fn unit(name: &str) -> Result<Unit, Fail> {
    Ok(Unit::of(name).ok_or("no such unit")?)
}

/// Each named unit: its exponents of mass, length, time, current, money and bits, and its size.
const TABLE: [(&str, [i8; 6], u64, u64); 34] = [
    ("g", [1, 0, 0, 0, 0, 0], 1, 1),
    ("kg", [1, 0, 0, 0, 0, 0], 1_000, 1),
    ("mg", [1, 0, 0, 0, 0, 0], 1, 1_000),
    ("t", [1, 0, 0, 0, 0, 0], 1_000_000, 1),
    ("mm", [0, 1, 0, 0, 0, 0], 1, 1),
    ("cm", [0, 1, 0, 0, 0, 0], 10, 1),
    ("m", [0, 1, 0, 0, 0, 0], 1_000, 1),
    ("km", [0, 1, 0, 0, 0, 0], 1_000_000, 1),
    ("s", [0, 0, 1, 0, 0, 0], 1, 1),
    ("ms", [0, 0, 1, 0, 0, 0], 1, 1_000),
    ("min", [0, 0, 1, 0, 0, 0], 60, 1),
    ("h", [0, 0, 1, 0, 0, 0], 3_600, 1),
    ("day", [0, 0, 1, 0, 0, 0], 86_400, 1),
    ("mA", [0, 0, 0, 1, 0, 0], 1, 1),
    ("A", [0, 0, 0, 1, 0, 0], 1_000, 1),
    ("cent", [0, 0, 0, 0, 1, 0], 1, 1),
    ("USD", [0, 0, 0, 0, 1, 0], 100, 1),
    ("bit", [0, 0, 0, 0, 0, 1], 1, 1),
    ("byte", [0, 0, 0, 0, 0, 1], 8, 1),
    ("kbit", [0, 0, 0, 0, 0, 1], 1_000, 1),
    ("Mbit", [0, 0, 0, 0, 0, 1], 1_000_000, 1),
    ("kbyte", [0, 0, 0, 0, 0, 1], 8_000, 1),
    ("Mbyte", [0, 0, 0, 0, 0, 1], 8_000_000, 1),
    ("Hz", [0, 0, -1, 0, 0, 0], 1, 1),
    ("N", [1, 1, -2, 0, 0, 0], 1_000_000, 1),
    ("J", [1, 2, -2, 0, 0, 0], 1_000_000_000, 1),
    ("Wh", [1, 2, -2, 0, 0, 0], 3_600_000_000_000, 1),
    ("kWh", [1, 2, -2, 0, 0, 0], 3_600_000_000_000_000, 1),
    ("mW", [1, 2, -3, 0, 0, 0], 1_000_000, 1),
    ("W", [1, 2, -3, 0, 0, 0], 1_000_000_000, 1),
    ("kW", [1, 2, -3, 0, 0, 0], 1_000_000_000_000, 1),
    ("V", [1, 2, -3, -1, 0, 0], 1_000_000, 1),
    ("mAh", [0, 0, 1, 1, 0, 0], 3_600, 1),
    ("Ah", [0, 0, 1, 1, 0, 0], 3_600_000, 1),
];

#[test]
fn finds_each_named_unit_and_no_other(rt: HostRuntime) -> Result<(), Fail> {
    for (name, exponents, num, den) in TABLE {
        let found = unit(name)?;
        assert_eq!(rt; found.dim, dim(exponents), "{name}");
        assert_eq!(rt; found.size.num, num, "{name}");
        assert_eq!(rt; found.size.den, den, "{name}");
    }
    for name in ["", "G", "Kg", "gg", "kg ", "kwh", "mah", "Mb", "usd", "hz"] {
        assert!(rt; Unit::of(name).is_none(), "{name}");
    }
    Ok(())
}

#[test]
fn works_out_every_power_at_once(rt: HostRuntime) -> Result<(), Fail> {
    for n in [i32::MIN, i32::MAX] {
        assert!(rt; unit("kg")?.power(n).is_err());
        assert!(rt; Unit::one().power(n).is_ok());
    }
    Ok(())
}
