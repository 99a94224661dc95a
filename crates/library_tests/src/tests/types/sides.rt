use super::{Row, first_wrong};
use fault_list::FaultKind;
use std::test::Fail;

/// The two sides of a rule.
const SIDES: [Row; 40] = [
    (
        "z.mcdp",
        b"mcdp { requires r [g]; r >= 1; }",
        Some((FaultKind::Mismatch, 23)),
    ),
    (
        "z.mcdp",
        b"mcdp { requires r [g]; r >= 1 s; }",
        Some((FaultKind::Mismatch, 23)),
    ),
    (
        "z.mcdp",
        b"mcdp { instance n = m; n.lift >= 1; }",
        Some((FaultKind::Mismatch, 23)),
    ),
    (
        "z.mcdp",
        b"mcdp { provides x [Nat]; requires x [g]; x >= x; }",
        Some((FaultKind::Mismatch, 41)),
    ),
    ("z.mcdp", b"mcdp { requires r [g]; r >= 1 kg; }", None),
    ("z.mcdp", b"mcdp { requires r [kg]; r >= 1 mg; }", None),
    (
        "z.mcdp",
        b"mcdp { requires r [g^2]; r >= 2 * 1 g; }",
        Some((FaultKind::Mismatch, 25)),
    ),
    (
        "z.mcdp",
        b"mcdp { requires r [g^2]; r >= 2 g * 1 g; }",
        None,
    ),
    (
        "z.mcdp",
        b"mcdp { provides x [g/g]; requires r [Nat]; r >= x + 1; }",
        None,
    ),
    (
        "z.mcdp",
        b"mcdp { provides x [Nat]; requires r [kg.m/g/mm]; r >= max(x, 2); }",
        None,
    ),
    ("z.mcdp", b"mcdp { requires r [poset p]; r >= p:b; }", None),
    (
        "z.mcdp",
        b"mcdp { requires r [poset p]; r >= q:a; }",
        Some((FaultKind::Mismatch, 29)),
    ),
    (
        "z.mcdp",
        b"mcdp { requires r [poset p]; r >= p:{b}; }",
        Some((FaultKind::Mismatch, 29)),
    ),
    (
        "z.mcdp",
        b"mcdp { requires r [poset p]; r >= 2; }",
        Some((FaultKind::Mismatch, 29)),
    ),
    (
        "z.mcdp",
        b"mcdp { requires r [up p]; r >= p:{b, a, b}; }",
        None,
    ),
    ("z.mcdp", b"mcdp { requires r [up p]; r >= p:{}; }", None),
    (
        "z.mcdp",
        b"mcdp { requires r [up p]; r >= p:b; }",
        Some((FaultKind::Mismatch, 26)),
    ),
    (
        "z.mcdp",
        b"mcdp { requires r [up p]; r >= q:{a}; }",
        Some((FaultKind::Mismatch, 26)),
    ),
    (
        "z.mcdp",
        b"mcdp { requires r [Nat]; r >= p:a; }",
        Some((FaultKind::Mismatch, 25)),
    ),
    (
        "z.mcdp",
        b"mcdp { requires r [g]; r >= q:{}; }",
        Some((FaultKind::Mismatch, 23)),
    ),
    (
        "z.mcdp",
        b"mcdp { provides l [poset p]; requires r [poset p]; r >= l; }",
        None,
    ),
    (
        "z.mcdp",
        b"mcdp { provides l [poset q]; requires r [poset p]; r >= l; }",
        Some((FaultKind::Mismatch, 51)),
    ),
    (
        "z.mcdp",
        b"mcdp { provides l [up p]; requires r [poset p]; r >= l; }",
        Some((FaultKind::Mismatch, 48)),
    ),
    (
        "z.mcdp",
        b"mcdp { requires r [product(g, poset p)]; r >= <1 kg, p:b>; }",
        None,
    ),
    (
        "z.mcdp",
        b"mcdp { requires r [product(g, poset p)]; r >= <p:b, 1 kg>; }",
        Some((FaultKind::Mismatch, 41)),
    ),
    (
        "z.mcdp",
        b"mcdp { requires r [product(g, poset p)]; r >= <1 kg>; }",
        Some((FaultKind::Mismatch, 41)),
    ),
    (
        "z.mcdp",
        b"mcdp { requires r [product(g, poset p)]; r >= <1 kg, p:b, 1>; }",
        Some((FaultKind::Mismatch, 41)),
    ),
    (
        "z.mcdp",
        b"mcdp { requires r [product(g, poset p)]; r >= <1, p:b>; }",
        Some((FaultKind::Mismatch, 41)),
    ),
    (
        "z.mcdp",
        b"mcdp { requires r [product(g, poset p)]; r >= <1 kg, q:a>; }",
        Some((FaultKind::Mismatch, 41)),
    ),
    (
        "z.mcdp",
        b"mcdp { requires r [product(g, poset p)]; r >= <1 kg, p:{b}>; }",
        Some((FaultKind::Mismatch, 41)),
    ),
    (
        "z.mcdp",
        b"mcdp { requires r [product(g, poset p)]; r >= 1 kg; }",
        Some((FaultKind::Mismatch, 41)),
    ),
    (
        "z.mcdp",
        b"mcdp { requires r [product(Nat, product(up p, s))]; r >= <2, <p:{}, 1 h>>; }",
        None,
    ),
    (
        "z.mcdp",
        b"mcdp { requires r [product(Nat, product(up p, s))]; r >= <2, p:{}, 1 h>; }",
        Some((FaultKind::Mismatch, 52)),
    ),
    (
        "z.mcdp",
        b"mcdp { requires r [product(Nat, product(up p, s))]; r >= <2, <p:{}>, 1 h>; }",
        Some((FaultKind::Mismatch, 52)),
    ),
    (
        "z.mcdp",
        b"mcdp { requires r [product(Nat, product(up p, s))]; r >= <2, <p:{}, 1 g>>; }",
        Some((FaultKind::Mismatch, 52)),
    ),
    (
        "z.mcdp",
        b"mcdp { requires r [product(Nat)]; r >= <1>; }",
        None,
    ),
    (
        "z.mcdp",
        b"mcdp { requires r [product(Nat)]; r >= 1; }",
        Some((FaultKind::Mismatch, 34)),
    ),
    (
        "z.mcdp",
        b"mcdp { requires r [Nat]; r >= <1>; }",
        Some((FaultKind::Mismatch, 25)),
    ),
    (
        "z.mcdp",
        b"mcdp { requires r [product(Nat)]; r >= <<1>>; }",
        Some((FaultKind::Mismatch, 34)),
    ),
    (
        "z.mcdp",
        b"mcdp { provides t [product(g/g, kg)]; requires r [product(Nat, g)]; r >= t; r >= <1, 2 g>; }",
        None,
    ),
];

/// In a rule the greater place comes first, then the lower expression, then the two sides. Rules follow one another.
const RULES: [Row; 9] = [
    (
        "z.mcdp",
        b"mcdp { nothing >= 1/0; }",
        Some((FaultKind::NoPort, 7)),
    ),
    (
        "z.mcdp",
        b"mcdp { requires r [g]; r >= 1/0; }",
        Some((FaultKind::ZeroDivisor, 28)),
    ),
    (
        "z.mcdp",
        b"mcdp { requires r [g]; r >= 1 + nothing; }",
        Some((FaultKind::NoPort, 32)),
    ),
    (
        "z.mcdp",
        b"mcdp { requires r [s]; r >= 1 + 1 g; }",
        Some((FaultKind::Mismatch, 32)),
    ),
    (
        "z.mcdp",
        b"mcdp { requires r [g]; r >= 1; nothing >= 1/0; }",
        Some((FaultKind::Mismatch, 23)),
    ),
    (
        "z.mcdp",
        b"mcdp { requires r [g]; r >= 1 g; r >= 1/0; r >= 2; }",
        Some((FaultKind::ZeroDivisor, 38)),
    ),
    (
        "z.mcdp",
        b"mcdp { requires r [g]; ignore nothing; r >= 1/0; }",
        Some((FaultKind::NoPort, 30)),
    ),
    (
        "z.mcdp",
        b"mcdp { requires r [g]; ignore r; r >= 1 g; ignore n; instance n = m; }",
        Some((FaultKind::NoPort, 50)),
    ),
    (
        "z.mcdp",
        b"mcdp { requires r [g]; r >= 1; instance n = m; n.mass >= 1 g; }",
        Some((FaultKind::Mismatch, 23)),
    ),
];

#[test]
fn sides_have_one_type(rt: HostRuntime) -> Result<(), Fail> {
    assert_eq!(rt; first_wrong(rt.alloc(), &SIDES), None);
    assert_eq!(rt; first_wrong(rt.alloc(), &RULES), None);
    Ok(())
}
