use super::library::{Listed, Wanted, built, is_wanted};
use fault_list::{FaultKind, StageFault};
use std::alloc::Global;
use std::test::Fail;
use unit_check::check_connected;

/// Files that others refer to.
const SHELF: [Listed; 5] = [
    ("m.mcdp", b"catalogue { }"),
    ("plug.interface", b"interface { }"),
    ("rows.csv", b""),
    ("sizes.poset", b"poset { elements small, large; }"),
    ("t.template", b"template<q: plug, r: plug> catalogue { }"),
];

/// Files beside those, and where a name in them leads nowhere for the first time.
const UNKNOWN: [(&str, &[u8], Option<u64>); 28] = [
    ("z.poset", b"poset { elements a, b; a <= b; }", None),
    (
        "z.poset",
        b"poset { elements a, b; b <= a <= c <= d; }",
        Some(33),
    ),
    ("z.poset", b"poset { elements ; a <= b; }", Some(19)),
    (
        "z.interface",
        b"interface { provides x [kg.m^2/s]; requires y [product(up sizes, poset sizes)]; }",
        None,
    ),
    (
        "z.interface",
        b"interface { provides x [kg.m/furlong^2]; requires y [parsec]; }",
        Some(29),
    ),
    (
        "z.interface",
        b"interface { provides x [Nat]; requires y [poset m]; }",
        Some(48),
    ),
    (
        "z.interface",
        b"interface { provides x [product(Nat, product(g, up fits))]; }",
        Some(51),
    ),
    (
        "z.mcdp",
        b"catalogue { provides f [poset sizes]; row a: sizes:huge -> ; row b: nowhere:x -> ; row c: 3 parsec -> ; }",
        None,
    ),
    (
        "z.mcdp",
        b"catalogue { provides f [Nat]; table rows; }",
        None,
    ),
    (
        "z.mcdp",
        b"catalogue { provides f [Nat]; table m; }",
        Some(36),
    ),
    (
        "z.mcdp",
        b"catalogue { requires f [plug]; table rows; }",
        Some(24),
    ),
    ("z.mcdp", b"choose { a: m; b: t<q: m, r: t<q: m>>; }", None),
    ("z.mcdp", b"choose { a: t<q: x>; }", Some(17)),
    (
        "z.mcdp",
        b"choose { a: t<q: m, r: t<q: y>>; b: z; }",
        Some(28),
    ),
    ("z.mcdp", b"choose { a: rows<q: x>; }", Some(12)),
    (
        "z.mcdp",
        b"mcdp { provides f [Nat]; requires r [Nat]; instance a = m; r >= a.x + 2 g; nowhere.x >= f; ignore away.y; }",
        None,
    ),
    (
        "z.mcdp",
        b"mcdp { requires r [Nat]; instance a = n; r >= 2 parsec; }",
        Some(38),
    ),
    (
        "z.mcdp",
        b"mcdp { instance a = n; requires r [parsec]; }",
        Some(20),
    ),
    (
        "z.mcdp",
        b"mcdp { requires r [Nat]; r >= max(2 g, a.x * (3 kg/parsec)); }",
        Some(51),
    ),
    (
        "z.mcdp",
        b"mcdp { requires r [Nat]; r >= sizes:{small, huge, large, tiny}; }",
        Some(44),
    ),
    (
        "z.mcdp",
        b"mcdp { requires r [Nat]; r >= <sizes:large, sizes:huge>; }",
        Some(50),
    ),
    (
        "z.mcdp",
        b"mcdp { requires r [Nat]; r >= min(sizes:small, nowhere:{small, huge}); }",
        Some(47),
    ),
    (
        "z.mcdp",
        b"mcdp { requires r [Nat]; r >= nowhere:huge; }",
        Some(30),
    ),
    (
        "z.template",
        b"template<p: plug, m: plug> choose { a: p; b: t<q: p, r: m>; }",
        None,
    ),
    (
        "z.template",
        b"template<p: plug> choose { a: p; b: q; }",
        Some(36),
    ),
    (
        "z.template",
        b"template<p: plug, q: m> choose { a: x; }",
        Some(21),
    ),
    (
        "z.template",
        b"template<p: plug> mcdp { requires r [p]; instance a = p; }",
        Some(37),
    ),
    ("z.mcdp", b"choose { a: p; }", Some(12)),
];

/// Libraries, and the first thing that is wrong with the names of each.
const LIBRARIES: [(&[Listed], Option<Wanted>); 24] = [
    (&[], None),
    // A file that is listed twice, before one that shares its stem with a template.
    (
        &[
            ("a.csv", b""),
            ("a.interface", b"interface { }"),
            ("a.mcdp", b"catalogue { }"),
            ("a.poset", b"poset { elements x; }"),
        ],
        None,
    ),
    (
        &[("a.mcdp", b"catalogue { }"), ("a.mcdp", b"catalogue { }")],
        Some(("a.mcdp", FaultKind::Twice, 0)),
    ),
    (
        &[
            ("a.mcdp", b"catalogue { }"),
            ("a.poset", b"poset { elements x; }"),
            ("a.template", b"template<p: nowhere> catalogue { }"),
        ],
        Some(("a.template", FaultKind::Twice, 0)),
    ),
    (
        &[
            ("a.csv", b""),
            ("b.mcdp", b"catalogue { }"),
            ("b.mcdp", b"catalogue { }"),
            ("c.csv", b""),
            ("c.csv", b""),
        ],
        Some(("b.mcdp", FaultKind::Twice, 0)),
    ),
    (
        &[
            ("a.poset", b"poset { elements x, x; }"),
            ("b.csv", b""),
            ("b.csv", b""),
            ("c.interface", b"interface { }"),
            ("c.interface", b"interface { }"),
        ],
        Some(("b.csv", FaultKind::Twice, 0)),
    ),
    // Within a file the lesser place comes first, and a file comes before the next one.
    (
        &[("a.mcdp", b"choose { x: nowhere; y: a; x: a; }")],
        Some(("a.mcdp", FaultKind::Unknown, 12)),
    ),
    (
        &[("a.mcdp", b"choose { x: a; x: nowhere; }")],
        Some(("a.mcdp", FaultKind::Twice, 15)),
    ),
    (
        &[
            ("a.mcdp", b"choose { x: b; }"),
            ("b.mcdp", b"choose { x: nowhere; }"),
            ("c.poset", b"poset { elements ; }"),
        ],
        Some(("b.mcdp", FaultKind::Unknown, 12)),
    ),
    // Posets.
    (
        &[("p.poset", b"poset { elements ; }")],
        Some(("p.poset", FaultKind::EmptyPoset, 0)),
    ),
    (
        &[("p.poset", b"poset { elements ; a <= b; }")],
        Some(("p.poset", FaultKind::Unknown, 19)),
    ),
    (&[("p.poset", SIXTY_FOUR)], None),
    (
        &[("p.poset", SIXTY_FIVE)],
        Some(("p.poset", FaultKind::LargePoset, 0)),
    ),
    (
        &[("p.poset", b"poset { elements a, b; a <= a; b <= b; }")],
        None,
    ),
    (
        &[("p.poset", b"poset { elements a, b; a <= b; b <= a; }")],
        Some(("p.poset", FaultKind::NotAnOrder, 0)),
    ),
    (
        &[(
            "p.poset",
            b"poset { elements a, b, c, d; d <= c <= b; a <= d; b <= a; }",
        )],
        Some(("p.poset", FaultKind::NotAnOrder, 0)),
    ),
    // Chains of references that come back.
    (
        &[
            (
                "d.mcdp",
                b"mcdp { requires b [Nat]; instance u = t<x: e>; b >= u.b; }",
            ),
            ("e.mcdp", b"mcdp { requires b [Nat]; b >= 1; }"),
            ("i.interface", b"interface { requires b [Nat]; }"),
            (
                "t.template",
                b"template <x: i> mcdp { requires b [Nat]; instance p = x; instance q = d; b >= p.b + q.b; }",
            ),
        ],
        Some(("d.mcdp", FaultKind::Circular, 0)),
    ),
    (
        &[("a.mcdp", b"choose { x: a; }")],
        Some(("a.mcdp", FaultKind::Circular, 0)),
    ),
    (
        &[
            ("a.mcdp", b"choose { x: c; }"),
            ("b.mcdp", b"choose { x: c; }"),
            ("c.mcdp", b"choose { x: d; }"),
            ("d.mcdp", b"choose { x: c; }"),
        ],
        Some(("c.mcdp", FaultKind::Circular, 0)),
    ),
    (
        &[
            ("a.mcdp", b"choose { x: t<p: u<p: a>>; }"),
            ("i.interface", b"interface { }"),
            ("t.template", b"template<p: i> choose { x: p; }"),
            ("u.template", b"template<p: i> choose { x: p; }"),
        ],
        Some(("a.mcdp", FaultKind::Circular, 0)),
    ),
    // A parameter hides a design of its name, so this template doesn't refer to itself.
    (
        &[
            ("i.interface", b"interface { }"),
            ("t.template", b"template<t: i> choose { x: t; }"),
        ],
        None,
    ),
    (
        &[
            ("i.interface", b"interface { }"),
            ("t.template", b"template<p: i> choose { x: t; }"),
        ],
        Some(("t.template", FaultKind::Circular, 0)),
    ),
    // Of four refusals the names come first, and nothing else is wrong with the names.
    (
        &[
            (
                "c.mcdp",
                b"catalogue { provides a [Nat]; requires b [Nat]; row x: 1 -> 2; }",
            ),
            (
                "n.mcdp",
                b"mcdp { requires r [Nat]; instance s = c; r >= s.b; }",
            ),
            ("p.poset", b"poset { elements a, b; a <= b; b <= a; }"),
            (
                "u.mcdp",
                b"catalogue { provides v [USD/kg]; row x: 1 USD/kg -> ; }",
            ),
            ("z.mcdp", b"mcdp { requires r [Nat]; r >= 1/0; }"),
        ],
        Some(("p.poset", FaultKind::NotAnOrder, 0)),
    ),
    (
        &[
            (
                "c.mcdp",
                b"catalogue { provides a [Nat]; requires b [Nat]; row x: 1 -> 2; }",
            ),
            (
                "n.mcdp",
                b"mcdp { requires r [Nat]; instance s = c; r >= s.b; }",
            ),
            (
                "u.mcdp",
                b"catalogue { provides v [USD/kg]; row x: 1 USD/kg -> ; }",
            ),
            ("z.mcdp", b"mcdp { requires r [Nat]; r >= 1/0; }"),
        ],
        None,
    ),
];

/// Libraries whose names are in order, and the first port of each that isn't connected.
const CONNECTIONS: [(&[Listed], Option<Wanted>); 9] = [
    (
        &[
            (
                "c.mcdp",
                b"catalogue { provides a [Nat]; requires b [Nat]; row x: 1 -> 2; }",
            ),
            (
                "n.mcdp",
                b"mcdp { requires r [Nat]; instance s = c; r >= s.b; }",
            ),
        ],
        Some(("n.mcdp", FaultKind::Unconnected, 34)),
    ),
    (
        &[
            (
                "c.mcdp",
                b"catalogue { provides a [Nat]; requires b [Nat]; row x: 1 -> 2; }",
            ),
            (
                "n.mcdp",
                b"mcdp { requires r [Nat]; instance s = c; s.a >= 1; r >= max(2, 3 * s.b); }",
            ),
        ],
        None,
    ),
    (
        &[
            (
                "c.mcdp",
                b"catalogue { provides a [Nat]; requires b [Nat]; row x: 1 -> 2; }",
            ),
            (
                "n.mcdp",
                b"mcdp { provides f [Nat]; instance s = c; ignore s.a; ignore s.b; }",
            ),
        ],
        None,
    ),
    (
        &[
            (
                "c.mcdp",
                b"catalogue { provides a [Nat]; requires b [Nat]; row x: 1 -> 2; }",
            ),
            ("n.mcdp", b"mcdp { instance s = c; s.a >= 1; }"),
        ],
        Some(("n.mcdp", FaultKind::Unconnected, 16)),
    ),
    // Own ports come before instances, wherever they stand.
    (
        &[
            ("c.mcdp", b"catalogue { requires b [Nat]; row x: -> 2; }"),
            ("n.mcdp", b"mcdp { instance s = c; requires r [Nat]; }"),
        ],
        Some(("n.mcdp", FaultKind::Unconnected, 32)),
    ),
    // A port of both sides is ignored on both.
    (
        &[
            (
                "c.mcdp",
                b"catalogue { provides x [Nat]; requires x [Nat]; row r: 1 -> 2; }",
            ),
            (
                "n.mcdp",
                b"mcdp { requires r [Nat]; ignore r; instance s = c; ignore s.x; }",
            ),
        ],
        None,
    ),
    // A choice has the ports of its first branch, and a parameter those of its interface.
    (
        &[
            ("c.mcdp", b"catalogue { requires b [Nat]; row x: -> 2; }"),
            ("d.mcdp", b"choose { one: e; }"),
            ("e.mcdp", b"choose { one: c; }"),
            ("n.mcdp", b"mcdp { instance s = d; }"),
        ],
        Some(("n.mcdp", FaultKind::Unconnected, 16)),
    ),
    (
        &[
            ("i.interface", b"interface { requires b [Nat]; }"),
            ("t.template", b"template<p: i> mcdp { instance s = p; }"),
        ],
        Some(("t.template", FaultKind::Unconnected, 31)),
    ),
    (
        &[
            ("i.interface", b"interface { requires b [Nat]; }"),
            (
                "t.template",
                b"template<p: i> mcdp { instance s = p; ignore s.b; }",
            ),
        ],
        None,
    ),
];

const SIXTY_FOUR: &[u8] =
    b"poset { elements e0, e1, e2, e3, e4, e5, e6, e7, e8, e9, e10, e11, e12, e13, e14, e15, e16, e17, e18, e19, e20, e21, e22, e23, e24, e25, e26, e27, e28, e29, e30, e31, e32, e33, e34, e35, e36, e37, e38, e39, e40, e41, e42, e43, e44, e45, e46, e47, e48, e49, e50, e51, e52, e53, e54, e55, e56, e57, e58, e59, e60, e61, e62, e63; }";

const SIXTY_FIVE: &[u8] =
    b"poset { elements e0, e1, e2, e3, e4, e5, e6, e7, e8, e9, e10, e11, e12, e13, e14, e15, e16, e17, e18, e19, e20, e21, e22, e23, e24, e25, e26, e27, e28, e29, e30, e31, e32, e33, e34, e35, e36, e37, e38, e39, e40, e41, e42, e43, e44, e45, e46, e47, e48, e49, e50, e51, e52, e53, e54, e55, e56, e57, e58, e59, e60, e61, e62, e63, e64; }";

#[test]
fn names_are_in_order_or_the_first_fault_is_found(rt: HostRuntime) -> Result<(), Fail> {
    for (listed, want) in LIBRARIES {
        assert!(rt; is_wanted(built(rt.alloc(), listed), want));
    }
    Ok(())
}

#[test]
fn names_lead_somewhere(rt: HostRuntime) -> Result<(), Fail> {
    for (name, text, at) in UNKNOWN {
        let mut listed = Vec::from_array(rt.alloc(), SHELF)?;
        listed.push((name, text))?;
        let want = at.map(|at| (name, FaultKind::Unknown, at));
        assert!(rt; is_wanted(built(rt.alloc(), listed.as_slice()), want));
    }
    Ok(())
}

/// What `check_connected` answers for the files. None where their names aren't in order.
fn connected(alloc: Global, listed: &[Listed]) -> Option<Result<(), StageFault>> {
    let names = built(alloc, listed)?.ok()?;
    Some(check_connected(alloc, &names))
}

#[test]
fn ports_are_connected_or_the_first_one_is_found(rt: HostRuntime) -> Result<(), Fail> {
    for (listed, want) in CONNECTIONS {
        assert!(rt; is_wanted(connected(rt.alloc(), listed), want));
    }
    Ok(())
}
