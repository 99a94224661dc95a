use super::{Row, first_wrong};
use fault_list::FaultKind;
use std::test::Fail;

/// Places that are ports of the side that is wanted, and places that are none.
const PLACES: [Row; 22] = [
    (
        "z.mcdp",
        b"mcdp { provides w [g]; requires r [kg]; instance n = m; n.lift >= w + n.mass; r >= max(w, n.mass); ignore n.cost; }",
        None,
    ),
    (
        "z.mcdp",
        b"mcdp { provides w [g]; requires r [g]; instance n = m; ignore w; ignore r; ignore n.lift; ignore n.mass; ignore n.cost; }",
        None,
    ),
    (
        "z.mcdp",
        b"mcdp { provides x [Nat]; requires x [g]; x >= 2 g * x; ignore x; }",
        None,
    ),
    (
        "z.mcdp",
        b"mcdp { provides aaaaaaaaaaaaaaaaaaaaaaaaaaaaaaaaaaaaaaaaaaaaaaaaaaaaaaaaaaaaaaaa [g]; requires bbbbbbbbbbbbbbbbbbbbbbbbbbbbbbbbbbbbbbbbbbbbbbbbbbbbbbbbbbbbbbbb [g]; instance cccccccccccccccccccccccccccccccccccccccccccccccccccccccccccccccc = m; cccccccccccccccccccccccccccccccccccccccccccccccccccccccccccccccc.lift >= aaaaaaaaaaaaaaaaaaaaaaaaaaaaaaaaaaaaaaaaaaaaaaaaaaaaaaaaaaaaaaaa; bbbbbbbbbbbbbbbbbbbbbbbbbbbbbbbbbbbbbbbbbbbbbbbbbbbbbbbbbbbbbbbb >= cccccccccccccccccccccccccccccccccccccccccccccccccccccccccccccccc.mass; }",
        None,
    ),
    (
        "z.mcdp",
        b"mcdp { provides w [g]; w >= 1 g; }",
        Some((FaultKind::NoPort, 23)),
    ),
    (
        "z.mcdp",
        b"mcdp { requires r [g]; r >= r; }",
        Some((FaultKind::NoPort, 28)),
    ),
    (
        "z.mcdp",
        b"mcdp { instance n = m; n.mass >= 1 g; }",
        Some((FaultKind::NoPort, 23)),
    ),
    (
        "z.mcdp",
        b"mcdp { requires r [g]; instance n = m; r >= n.lift; }",
        Some((FaultKind::NoPort, 44)),
    ),
    (
        "z.mcdp",
        b"mcdp { away.lift >= 1 g; }",
        Some((FaultKind::NoPort, 7)),
    ),
    (
        "z.mcdp",
        b"mcdp { requires r [g]; r >= 1 g + away.mass; }",
        Some((FaultKind::NoPort, 34)),
    ),
    (
        "z.mcdp",
        b"mcdp { requires r [g]; r >= m.mass; }",
        Some((FaultKind::NoPort, 28)),
    ),
    (
        "z.mcdp",
        b"mcdp { instance n = m; n.weight >= 1 g; }",
        Some((FaultKind::NoPort, 23)),
    ),
    (
        "z.mcdp",
        b"mcdp { requires r [g]; instance n = m; r >= 2 * n.weight; }",
        Some((FaultKind::NoPort, 48)),
    ),
    (
        "z.mcdp",
        b"mcdp { instance n = m; n >= 1 g; }",
        Some((FaultKind::NoPort, 23)),
    ),
    (
        "z.mcdp",
        b"mcdp { requires r [g]; instance n = m; r >= max(1 g, n); }",
        Some((FaultKind::NoPort, 53)),
    ),
    (
        "z.mcdp",
        b"mcdp { provides w [g]; requires r [g]; r >= <w, w.mass>; }",
        Some((FaultKind::NoPort, 48)),
    ),
    (
        "z.mcdp",
        b"mcdp { requires r [g]; r.lift >= 1 g; }",
        Some((FaultKind::NoPort, 23)),
    ),
    (
        "z.mcdp",
        b"mcdp { ignore away; }",
        Some((FaultKind::NoPort, 14)),
    ),
    (
        "z.mcdp",
        b"mcdp { ignore away.lift; }",
        Some((FaultKind::NoPort, 14)),
    ),
    (
        "z.mcdp",
        b"mcdp { instance n = m; ignore n; }",
        Some((FaultKind::NoPort, 30)),
    ),
    (
        "z.mcdp",
        b"mcdp { instance n = m; ignore n.lift; ignore n.weight; }",
        Some((FaultKind::NoPort, 45)),
    ),
    (
        "z.mcdp",
        b"mcdp { requires r [g]; ignore r.r; }",
        Some((FaultKind::NoPort, 30)),
    ),
];

#[test]
fn places_are_ports(rt: HostRuntime) -> Result<(), Fail> {
    assert_eq!(rt; first_wrong(rt.alloc(), &PLACES), None);
    Ok(())
}
