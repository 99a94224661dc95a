use super::{Row, first_wrong};
use fault_list::FaultKind;
use std::test::Fail;

/// Parts have the ports of what they refer to: a design, a template, the first branch of a choice.
const PARTS: [Row; 19] = [
    (
        "z.mcdp",
        b"mcdp { requires r [g]; instance s = c; r >= s.b; }",
        None,
    ),
    (
        "z.mcdp",
        b"mcdp { requires r [s]; instance s = c; r >= s.b; }",
        Some((FaultKind::Mismatch, 39)),
    ),
    (
        "z.mcdp",
        b"mcdp { requires r [g]; instance s = c<p: d>; r >= s.b; }",
        None,
    ),
    (
        "z.mcdp",
        b"mcdp { requires r [bit]; instance s = t<p: c>; r >= s.b; }",
        None,
    ),
    (
        "z.mcdp",
        b"mcdp { requires r [mA]; instance s = t<p: c>; r >= s.b; }",
        Some((FaultKind::Mismatch, 46)),
    ),
    (
        "z.mcdp",
        b"mcdp { requires r [bit]; instance s = t; r >= s.b; }",
        None,
    ),
    (
        "z.mcdp",
        b"mcdp { requires r [bit]; instance s = t<x: c>; r >= s.b; }",
        None,
    ),
    (
        "z.mcdp",
        b"mcdp { requires r [g]; instance s = one; r >= s.b; }",
        None,
    ),
    (
        "z.mcdp",
        b"mcdp { requires r [s]; instance s = one; r >= s.b; }",
        Some((FaultKind::Mismatch, 41)),
    ),
    (
        "z.mcdp",
        b"mcdp { requires r [g]; instance s = other; r >= s.b; }",
        None,
    ),
    (
        "z.mcdp",
        b"mcdp { requires r [s]; instance s = other; r >= s.b; }",
        Some((FaultKind::Mismatch, 43)),
    ),
    (
        "z.mcdp",
        b"mcdp { requires r [bit]; instance s = third; r >= s.b; }",
        None,
    ),
    (
        "z.mcdp",
        b"mcdp { requires r [mA]; instance s = v<p: c>; r >= s.b; }",
        None,
    ),
    (
        "z.mcdp",
        b"mcdp { requires r [g]; instance s = v<p: c>; r >= s.b; }",
        Some((FaultKind::Mismatch, 45)),
    ),
    (
        "z.mcdp",
        b"mcdp { requires r [mA]; instance s = w; r >= s.b; }",
        None,
    ),
    (
        "z.mcdp",
        b"mcdp { requires r [g]; instance s = w<c: c>; r >= s.b; }",
        Some((FaultKind::Mismatch, 45)),
    ),
    (
        "z.mcdp",
        b"mcdp { requires r [USD]; instance s = one; r >= s.cost; }",
        Some((FaultKind::NoPort, 48)),
    ),
    (
        "z.mcdp",
        b"mcdp { instance s = c; instance s2 = d; s.a >= s2.b; }",
        Some((FaultKind::Mismatch, 40)),
    ),
    (
        "z.mcdp",
        b"mcdp { instance s = c; instance s2 = c; s.a >= s2.b; s2.a >= s.b; }",
        None,
    ),
];

/// A parameter has the ports of its interface, and hides a design of its name.
const PARAMETERS: [Row; 8] = [
    (
        "z.template",
        b"template<p: i> mcdp { requires r [mA]; instance s = p; r >= s.b; }",
        None,
    ),
    (
        "z.template",
        b"template<p: i> mcdp { requires r [g]; instance s = p; r >= s.b; }",
        Some((FaultKind::Mismatch, 54)),
    ),
    (
        "z.template",
        b"template<x: j, c: i> mcdp { requires r [mA]; instance s = c; r >= s.b; }",
        None,
    ),
    (
        "z.template",
        b"template<x: j, c: i> mcdp { requires r [g]; instance s = c; r >= s.b; }",
        Some((FaultKind::Mismatch, 60)),
    ),
    (
        "z.template",
        b"template<m: i> mcdp { instance n = m; n.lift >= 1 g; }",
        Some((FaultKind::NoPort, 38)),
    ),
    (
        "z.template",
        b"template<c: i> mcdp { requires r [s]; instance s = d; r >= s.b; }",
        None,
    ),
    (
        "z.template",
        b"template<t: i> mcdp { requires r [mA]; instance s = t<p: c>; r >= s.b; }",
        None,
    ),
    (
        "z.template",
        b"template<p: i> mcdp { requires r [g]; r >= 1/0; }",
        Some((FaultKind::ZeroDivisor, 43)),
    ),
];

#[test]
fn parts_have_the_ports_of_what_they_refer_to(rt: HostRuntime) -> Result<(), Fail> {
    assert_eq!(rt; first_wrong(rt.alloc(), &PARTS), None);
    assert_eq!(rt; first_wrong(rt.alloc(), &PARAMETERS), None);
    Ok(())
}
