use super::{Row, first_wrong};
use fault_list::FaultKind;
use std::test::Fail;

/// Constants.
const CONSTANTS: [Row; 24] = [
    (
        "z.mcdp",
        b"mcdp { requires r [Nat]; r >= 1/0; }",
        Some((FaultKind::ZeroDivisor, 30)),
    ),
    (
        "z.mcdp",
        b"mcdp { requires r [Nat]; r >= 0/0.00; }",
        Some((FaultKind::ZeroDivisor, 30)),
    ),
    (
        "z.mcdp",
        b"mcdp { requires r [Nat]; r >= 1.5/0 s; }",
        Some((FaultKind::ZeroDivisor, 30)),
    ),
    (
        "z.mcdp",
        b"mcdp { requires r [Nat]; r >= 10000000000000000000; }",
        None,
    ),
    (
        "z.mcdp",
        b"mcdp { requires r [Nat]; r >= 10000000000000000001; }",
        Some((FaultKind::ConstantRange, 30)),
    ),
    (
        "z.mcdp",
        b"mcdp { requires r [Nat]; r >= 20000000000000000000/2; }",
        None,
    ),
    (
        "z.mcdp",
        b"mcdp { requires r [Nat]; r >= 20000000000000000001/2; }",
        Some((FaultKind::ConstantRange, 30)),
    ),
    (
        "z.mcdp",
        b"mcdp { requires r [Nat]; r >= 1/10000000000000000000; }",
        None,
    ),
    (
        "z.mcdp",
        b"mcdp { requires r [Nat]; r >= 1 s + 1/20000000000000000000; }",
        Some((FaultKind::ConstantRange, 36)),
    ),
    (
        "z.mcdp",
        b"mcdp { requires r [g]; r >= 0.0000000000000000001 g; }",
        None,
    ),
    (
        "z.mcdp",
        b"mcdp { requires r [g]; r >= 0.0000000000000000001 mg; }",
        Some((FaultKind::ConstantRange, 28)),
    ),
    (
        "z.mcdp",
        b"mcdp { requires r [g]; r >= 10000000000000000000/1000 kg; }",
        None,
    ),
    (
        "z.mcdp",
        b"mcdp { requires r [g]; r >= 10000000000000000000 kg; }",
        Some((FaultKind::ConstantRange, 28)),
    ),
    ("z.mcdp", b"mcdp { requires r [g^-9]; r >= 0 g^-9; }", None),
    (
        "z.mcdp",
        b"mcdp { requires r [g]; r >= 0 g^-10; }",
        Some((FaultKind::Exponent, 28)),
    ),
    (
        "z.mcdp",
        b"mcdp { requires r [g^9]; r >= 1 g^10/g; }",
        Some((FaultKind::Exponent, 30)),
    ),
    (
        "z.mcdp",
        b"mcdp { requires r [g^9]; r >= 1 g^9.g/g; }",
        Some((FaultKind::Exponent, 30)),
    ),
    ("z.mcdp", b"mcdp { requires r [g]; r >= 2 mg; }", None),
    (
        "z.mcdp",
        b"mcdp { requires r [g^4]; r >= 1 t^4; }",
        Some((FaultKind::ConstantRange, 30)),
    ),
    (
        "z.mcdp",
        b"mcdp { requires r [g]; r >= 1 kg^9.m^10; }",
        Some((FaultKind::ConstantRange, 28)),
    ),
    (
        "z.mcdp",
        b"mcdp { requires r [g]; r >= 1 m^10.kg^9; }",
        Some((FaultKind::Exponent, 28)),
    ),
    (
        "z.mcdp",
        b"mcdp { requires r [g]; r >= 20000000000000000000/0 g^10; }",
        Some((FaultKind::ZeroDivisor, 28)),
    ),
    (
        "z.mcdp",
        b"mcdp { requires r [g]; r >= 20000000000000000000 g^10; }",
        Some((FaultKind::ConstantRange, 28)),
    ),
    (
        "z.mcdp",
        b"mcdp { requires r [g]; r >= 10000000000000000000 t.g^9; }",
        Some((FaultKind::Exponent, 28)),
    ),
];

/// Products.
const PRODUCTS: [Row; 26] = [
    (
        "z.mcdp",
        b"mcdp { requires r [Nat]; r >= 1/2 * 2 * (1/3 * 3); }",
        None,
    ),
    (
        "z.mcdp",
        b"mcdp { requires r [Nat]; r >= 10000000000000000000/3 * 3/10000000000000000000; }",
        None,
    ),
    (
        "z.mcdp",
        b"mcdp { requires r [Nat]; r >= 10000000000000000000 * 2; }",
        Some((FaultKind::ConstantRange, 30)),
    ),
    (
        "z.mcdp",
        b"mcdp { requires r [Nat]; r >= (1/10000000000000000000) * 1/2; }",
        Some((FaultKind::ConstantRange, 31)),
    ),
    (
        "z.mcdp",
        b"mcdp { requires r [Nat]; r >= 1 + (10000000000000000000 * 2) * 0; }",
        Some((FaultKind::ConstantRange, 35)),
    ),
    (
        "z.mcdp",
        b"mcdp { requires r [g^9]; r >= 1 g^5 * 1 g^5; }",
        Some((FaultKind::Exponent, 30)),
    ),
    (
        "z.mcdp",
        b"mcdp { requires r [g^-9]; r >= 1 g^-5 * 1 g^-5; }",
        Some((FaultKind::Exponent, 31)),
    ),
    (
        "z.mcdp",
        b"mcdp { requires r [g^9]; r >= 10000000000000000000 g^5 * 2 g^5; }",
        Some((FaultKind::Exponent, 30)),
    ),
    (
        "z.mcdp",
        b"mcdp { requires r [g^9]; r >= 1 g^5 * 1/0 g^5; }",
        Some((FaultKind::ZeroDivisor, 38)),
    ),
    (
        "z.mcdp",
        b"mcdp { provides x [Nat]; requires r [Nat]; r >= 2 * x * 3; }",
        None,
    ),
    (
        "z.mcdp",
        b"mcdp { provides x [Nat]; requires r [Nat]; r >= x * 10000000000000000000 * 2; }",
        None,
    ),
    (
        "z.mcdp",
        b"mcdp { provides x [Nat]; requires r [Nat]; r >= 10000000000000000000 * (2 * x); }",
        None,
    ),
    (
        "z.mcdp",
        b"mcdp { provides x [Nat]; requires r [Nat]; r >= 10000000000000000000 * (2 + 3); }",
        None,
    ),
    (
        "z.mcdp",
        b"mcdp { provides x [Nat]; requires r [Nat]; r >= 10000000000000000000 * 2 * x; }",
        Some((FaultKind::ConstantRange, 48)),
    ),
    (
        "z.mcdp",
        b"mcdp { provides x [Nat]; requires r [Nat]; r >= x * (10000000000000000000 * 2); }",
        Some((FaultKind::ConstantRange, 53)),
    ),
    (
        "z.mcdp",
        b"mcdp { provides x [g^5]; requires r [g^9]; r >= x * 1 g^4; }",
        None,
    ),
    (
        "z.mcdp",
        b"mcdp { provides x [g^5]; requires r [g^9]; r >= x * 1 g^5; }",
        Some((FaultKind::Exponent, 48)),
    ),
    (
        "z.mcdp",
        b"mcdp { provides x [g^5]; requires r [g^9]; r >= 1 g^5 * x; }",
        Some((FaultKind::Exponent, 48)),
    ),
    (
        "z.mcdp",
        b"mcdp { provides x [g^5]; requires r [g^9]; r >= x * x; }",
        Some((FaultKind::Exponent, 48)),
    ),
    (
        "z.mcdp",
        b"mcdp { provides x [g^5]; requires r [g^9]; r >= 1 g^9 + (x) * 1 g^5; }",
        Some((FaultKind::Exponent, 57)),
    ),
    (
        "z.mcdp",
        b"mcdp { provides x [g^5]; requires r [g^9]; r >= min(1 g^9, (x + x) * x); }",
        Some((FaultKind::Exponent, 60)),
    ),
    (
        "z.mcdp",
        b"mcdp { provides x [g]; requires r [g^9]; r >= 2 g * ((x * x) * (x * x) * ((x * x) * (x * x))); }",
        None,
    ),
    (
        "z.mcdp",
        b"mcdp { provides x [g]; requires r [g^9]; r >= 2 g * (2 g * ((x * x) * (x * x) * ((x * x) * (x * x)))); }",
        Some((FaultKind::Exponent, 46)),
    ),
    (
        "z.mcdp",
        b"mcdp { provides x [g^5]; requires r [g^9]; r >= x * max(x, x); }",
        Some((FaultKind::Exponent, 48)),
    ),
    (
        "z.mcdp",
        b"mcdp { provides x [g^4]; requires r [g^9]; r >= x * (x * 1/0); }",
        Some((FaultKind::ZeroDivisor, 57)),
    ),
    (
        "z.mcdp",
        b"mcdp { requires r [poset p]; requires c [USD]; instance p = m; r >= p:a; c >= p.cost; }",
        None,
    ),
];

#[test]
fn constants_and_products_are_in_range(rt: HostRuntime) -> Result<(), Fail> {
    assert_eq!(rt; first_wrong(rt.alloc(), &CONSTANTS), None);
    assert_eq!(rt; first_wrong(rt.alloc(), &PRODUCTS), None);
    Ok(())
}
