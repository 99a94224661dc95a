use super::{Row, first_wrong};
use fault_list::FaultKind;
use std::test::Fail;

/// Operands that are no numbers.
const NUMBERS: [Row; 17] = [
    (
        "z.mcdp",
        b"mcdp { requires r [Nat]; r >= p:a + 1; }",
        Some((FaultKind::Mismatch, 30)),
    ),
    (
        "z.mcdp",
        b"mcdp { requires r [Nat]; r >= 1 + p:a; }",
        Some((FaultKind::Mismatch, 34)),
    ),
    (
        "z.mcdp",
        b"mcdp { requires r [Nat]; r >= p:a + p:b; }",
        Some((FaultKind::Mismatch, 30)),
    ),
    (
        "z.mcdp",
        b"mcdp { provides x [Nat]; provides l [poset p]; requires r [Nat]; r >= x + l; }",
        Some((FaultKind::Mismatch, 74)),
    ),
    (
        "z.mcdp",
        b"mcdp { provides u [up p]; requires r [Nat]; r >= u + 1/3; }",
        Some((FaultKind::Mismatch, 49)),
    ),
    (
        "z.mcdp",
        b"mcdp { provides w [g]; provides l [poset p]; requires r [Nat]; r >= max(l, w); }",
        Some((FaultKind::Mismatch, 72)),
    ),
    (
        "z.mcdp",
        b"mcdp { provides x [Nat]; provides u [up p]; requires r [Nat]; r >= max(x, u); }",
        Some((FaultKind::Mismatch, 74)),
    ),
    (
        "z.mcdp",
        b"mcdp { requires r [Nat]; r >= min(p:{}, 1); }",
        Some((FaultKind::Mismatch, 34)),
    ),
    (
        "z.mcdp",
        b"mcdp { requires r [Nat]; r >= min(1, p:{a, b}); }",
        Some((FaultKind::Mismatch, 37)),
    ),
    (
        "z.mcdp",
        b"mcdp { requires r [Nat]; r >= p:a * 2; }",
        Some((FaultKind::Mismatch, 30)),
    ),
    (
        "z.mcdp",
        b"mcdp { requires r [Nat]; r >= 1/3 * p:b; }",
        Some((FaultKind::Mismatch, 36)),
    ),
    (
        "z.mcdp",
        b"mcdp { provides x [Nat]; provides l [poset p]; requires r [Nat]; r >= x * l; }",
        Some((FaultKind::Mismatch, 74)),
    ),
    (
        "z.mcdp",
        b"mcdp { provides x [Nat]; provides u [up p]; requires r [Nat]; r >= u * x; }",
        Some((FaultKind::Mismatch, 67)),
    ),
    (
        "z.mcdp",
        b"mcdp { provides x [Nat]; requires r [Nat]; r >= 2 * x * <x>; }",
        Some((FaultKind::Mismatch, 56)),
    ),
    (
        "z.mcdp",
        b"mcdp { provides x [Nat]; requires r [Nat]; r >= <x, x> + x; }",
        Some((FaultKind::Mismatch, 48)),
    ),
    (
        "z.mcdp",
        b"mcdp { provides x [Nat]; requires r [Nat]; r >= x + (<x>); }",
        Some((FaultKind::Mismatch, 53)),
    ),
    (
        "z.mcdp",
        b"mcdp { provides x [Nat]; provides w [g]; requires r [Nat]; r >= <x, 1 + <x, w>>; }",
        Some((FaultKind::Mismatch, 72)),
    ),
];

/// Operands of one dimension, and of two.
const DIMENSIONS: [Row; 15] = [
    ("z.mcdp", b"mcdp { requires r [g]; r >= 2 kg + 3 g; }", None),
    (
        "z.mcdp",
        b"mcdp { provides w [g]; requires r [g]; r >= max(w, 1/3 t) + min(2 mg, w); }",
        None,
    ),
    (
        "z.mcdp",
        b"mcdp { provides x [Nat]; requires r [Nat]; r >= x + 2 * x + x * x; }",
        None,
    ),
    (
        "z.mcdp",
        b"mcdp { provides x [Nat]; provides w [g]; requires r [g]; r >= w * x + 2 g * x + 1 g; }",
        None,
    ),
    (
        "z.mcdp",
        b"mcdp { requires r [g]; r >= 1 g + 1 s; }",
        Some((FaultKind::Mismatch, 34)),
    ),
    (
        "z.mcdp",
        b"mcdp { provides x [Nat]; requires r [Nat]; r >= x + 1/3 g; }",
        Some((FaultKind::Mismatch, 52)),
    ),
    (
        "z.mcdp",
        b"mcdp { provides x [Nat]; provides w [g]; requires r [Nat]; r >= max(x, w); }",
        Some((FaultKind::Mismatch, 71)),
    ),
    (
        "z.mcdp",
        b"mcdp { requires r [Nat]; r >= min(1/3, 2 g); }",
        Some((FaultKind::Mismatch, 39)),
    ),
    (
        "z.mcdp",
        b"mcdp { provides x [Nat]; provides w [g]; requires r [g]; r >= w + w + x; }",
        Some((FaultKind::Mismatch, 70)),
    ),
    (
        "z.mcdp",
        b"mcdp { provides x [Nat]; provides w [g]; requires r [g]; r >= w + (x + x); }",
        Some((FaultKind::Mismatch, 67)),
    ),
    (
        "z.mcdp",
        b"mcdp { provides x [Nat]; provides w [g]; requires r [g]; r >= w + max(x, x); }",
        Some((FaultKind::Mismatch, 66)),
    ),
    (
        "z.mcdp",
        b"mcdp { provides x [Nat]; provides w [g]; requires r [g]; r >= w + min(x, 1); }",
        Some((FaultKind::Mismatch, 66)),
    ),
    (
        "z.mcdp",
        b"mcdp { provides x [Nat]; provides w [g]; requires r [g]; r >= w + x * x; }",
        Some((FaultKind::Mismatch, 66)),
    ),
    (
        "z.mcdp",
        b"mcdp { provides w [g]; requires r [g]; r >= 2 * w + 3; }",
        Some((FaultKind::Mismatch, 52)),
    ),
    (
        "z.mcdp",
        b"mcdp { provides w [g]; requires r [g^2]; r >= w * w + w; }",
        Some((FaultKind::Mismatch, 54)),
    ),
];

/// The left operand comes before the right one, and both before their operator.
const ORDER: [Row; 12] = [
    (
        "z.mcdp",
        b"mcdp { requires r [Nat]; r >= nothing + 1/0; }",
        Some((FaultKind::NoPort, 30)),
    ),
    (
        "z.mcdp",
        b"mcdp { requires r [Nat]; r >= max(1/0, nothing); }",
        Some((FaultKind::ZeroDivisor, 34)),
    ),
    (
        "z.mcdp",
        b"mcdp { provides l [poset p]; requires r [Nat]; r >= (1 + l) * nothing; }",
        Some((FaultKind::Mismatch, 57)),
    ),
    (
        "z.mcdp",
        b"mcdp { requires r [Nat]; r >= p:a + nothing; }",
        Some((FaultKind::NoPort, 36)),
    ),
    (
        "z.mcdp",
        b"mcdp { provides l [poset p]; requires r [Nat]; r >= l * nothing; }",
        Some((FaultKind::NoPort, 56)),
    ),
    (
        "z.mcdp",
        b"mcdp { requires r [Nat]; r >= p:a + (1 g + 1 s); }",
        Some((FaultKind::Mismatch, 43)),
    ),
    (
        "z.mcdp",
        b"mcdp { provides x [Nat]; requires r [g^9]; r >= 1 g^9 * x + min(x, 1/0); }",
        Some((FaultKind::ZeroDivisor, 67)),
    ),
    (
        "z.mcdp",
        b"mcdp { provides x [Nat]; provides w [g]; requires r [Nat]; r >= (x + w) + (w + x); }",
        Some((FaultKind::Mismatch, 69)),
    ),
    (
        "z.mcdp",
        b"mcdp { provides l [poset p]; requires r [g]; r >= (1 g^5 * 1 g^5) + l; }",
        Some((FaultKind::Exponent, 51)),
    ),
    (
        "z.mcdp",
        b"mcdp { requires r [Nat]; r >= nothing + other; }",
        Some((FaultKind::NoPort, 30)),
    ),
    (
        "z.mcdp",
        b"mcdp { requires r [Nat]; r >= <1, nothing, 1/0>; }",
        Some((FaultKind::NoPort, 34)),
    ),
    (
        "z.mcdp",
        b"mcdp { provides l [poset p]; provides u [up p]; requires r [Nat]; r >= <<1, l>, <u, 1/0>, nothing>; }",
        Some((FaultKind::ZeroDivisor, 84)),
    ),
];

#[test]
fn operands_are_numbers_of_one_dimension(rt: HostRuntime) -> Result<(), Fail> {
    assert_eq!(rt; first_wrong(rt.alloc(), &NUMBERS), None);
    assert_eq!(rt; first_wrong(rt.alloc(), &DIMENSIONS), None);
    assert_eq!(rt; first_wrong(rt.alloc(), &ORDER), None);
    Ok(())
}
