mod constants;
mod operands;
mod places;
mod references;
mod sides;

use super::library::{Listed, Wanted, beside, is_wanted, typed};
use fault_list::FaultKind;
use std::alloc::Global;
use std::test::Fail;

/// A file beside those that others refer to, and what is first wrong with its types.
type Row = (&'static str, &'static [u8], Option<(FaultKind, u64)>);

/// Libraries whose names are in order, and what is first wrong with the types of each.
const LIBRARIES: [(&[Listed], Option<Wanted>); 20] = [
    // All ports are checked, also those that no rule uses.
    (&[], None),
    (
        &[(
            "i.interface",
            b"interface { provides x [g]; requires y [s^10]; }",
        )],
        Some(("i.interface", FaultKind::Exponent, 40)),
    ),
    (
        &[(
            "c.mcdp",
            b"catalogue { requires y [mg]; provides x [s^10]; row a: 1 s -> 1 mg; }",
        )],
        Some(("c.mcdp", FaultKind::PortGrid, 24)),
    ),
    (
        &[(
            "n.mcdp",
            b"mcdp { provides x [g]; ignore x; requires y [t^4]; }",
        )],
        Some(("n.mcdp", FaultKind::ConstantRange, 45)),
    ),
    (
        &[
            ("i.interface", b"interface { }"),
            (
                "t.template",
                b"template<p: i> catalogue { provides x [m^-10]; row a: 1 -> ; }",
            ),
        ],
        Some(("t.template", FaultKind::Exponent, 39)),
    ),
    (
        &[
            ("i.interface", b"interface { }"),
            (
                "t.template",
                b"template<p: i> mcdp { instance s = p; requires x [product(Nat, mg)]; }",
            ),
        ],
        Some(("t.template", FaultKind::PortGrid, 50)),
    ),
    (
        &[
            ("i.interface", b"interface { requires b [mg]; }"),
            (
                "t.template",
                b"template<p: i> mcdp { instance s = p; nothing >= s.b; }",
            ),
        ],
        Some(("i.interface", FaultKind::PortGrid, 24)),
    ),
    (
        &[
            ("d.mcdp", b"choose { x: e; }"),
            ("e.mcdp", b"catalogue { requires b [mg]; row a: -> 1 mg; }"),
            ("n.mcdp", b"mcdp { instance s = d; nothing >= s.b; }"),
        ],
        Some(("e.mcdp", FaultKind::PortGrid, 24)),
    ),
    // A file comes before the next one, and the ports of all files before the rules of all.
    (
        &[
            ("a.mcdp", b"mcdp { requires r [s^10]; r >= 1/0; }"),
            ("b.interface", b"interface { provides x [mg]; }"),
        ],
        Some(("a.mcdp", FaultKind::Exponent, 19)),
    ),
    (
        &[
            ("a.mcdp", b"mcdp { requires r [Nat]; r >= 1/0; }"),
            ("z.interface", b"interface { provides x [mg]; }"),
        ],
        Some(("z.interface", FaultKind::PortGrid, 24)),
    ),
    (
        &[
            ("a.mcdp", b"mcdp { nothing >= 1/0; }"),
            ("b.mcdp", b"mcdp { nothing >= 1/0; }"),
            ("z.mcdp", b"mcdp { nothing >= 1/0; requires r [t^4]; }"),
        ],
        Some(("z.mcdp", FaultKind::ConstantRange, 35)),
    ),
    (
        &[
            ("a.mcdp", b"mcdp { requires r [Nat]; r >= 1 g; }"),
            ("b.mcdp", b"mcdp { requires r [Nat]; r >= 1/0; }"),
        ],
        Some(("a.mcdp", FaultKind::Mismatch, 25)),
    ),
    (
        &[
            ("a.mcdp", b"choose { x: c; }"),
            ("b.poset", b"poset { elements x, y; x <= y; }"),
            (
                "c.mcdp",
                b"catalogue { provides f [poset b]; row r: b:y -> ; }",
            ),
            ("d.interface", b"interface { provides x [kg]; }"),
            ("e.mcdp", b"mcdp { requires r [Nat]; r >= 1; }"),
            ("z.mcdp", b"mcdp { requires r [Nat]; r >= 1; s >= 1; }"),
        ],
        Some(("z.mcdp", FaultKind::NoPort, 33)),
    ),
    (
        &[
            ("a.mcdp", b"mcdp { requires r [g]; r >= 1/2 kg; }"),
            ("i.interface", b"interface { requires b [g]; }"),
            (
                "z.template",
                b"template<p: i> mcdp { requires r [g]; instance s = p; r >= s.b + 1/0 g; }",
            ),
        ],
        Some(("z.template", FaultKind::ZeroDivisor, 65)),
    ),
    // Spaces of names, and of sides, are kept apart.
    (
        &[
            ("c.interface", b"interface { requires b [s]; }"),
            ("c.mcdp", b"catalogue { requires b [g]; row x: -> 1 g; }"),
            (
                "t.template",
                b"template<c: c> mcdp { requires r [s]; instance s = c; r >= s.b; }",
            ),
        ],
        None,
    ),
    (
        &[
            ("c.interface", b"interface { requires b [s]; }"),
            ("c.mcdp", b"catalogue { requires b [g]; row x: -> 1 g; }"),
            (
                "t.template",
                b"template<c: c> mcdp { requires r [g]; instance s = c; r >= s.b; }",
            ),
        ],
        Some(("t.template", FaultKind::Mismatch, 54)),
    ),
    (
        &[
            (
                "c.mcdp",
                b"catalogue { provides x [Nat]; requires x [g]; row r: 1 -> 1 g; }",
            ),
            (
                "n.mcdp",
                b"mcdp { requires x [g]; provides x [Nat]; instance s = c; s.x >= x; x >= s.x * 2; }",
            ),
        ],
        None,
    ),
    (
        &[
            (
                "c.mcdp",
                b"catalogue { provides x [Nat]; requires x [g]; row r: 1 -> 1 g; }",
            ),
            (
                "n.mcdp",
                b"mcdp { requires x [g]; provides x [Nat]; instance s = c; s.x >= x; x >= x; }",
            ),
        ],
        Some(("n.mcdp", FaultKind::Mismatch, 67)),
    ),
    (
        &[
            (
                "c.mcdp",
                b"catalogue { provides x [Nat]; requires x [g]; row r: 1 -> 1 g; }",
            ),
            ("n.mcdp", b"mcdp { instance s = c; s.x >= s.x; }"),
        ],
        Some(("n.mcdp", FaultKind::Mismatch, 23)),
    ),
    // Values of rows are looked at later, and references too.
    (
        &[
            (
                "c.mcdp",
                b"catalogue { provides f [g]; row r: 1 s, 1/0 -> nowhere:x; }",
            ),
            ("d.mcdp", b"catalogue { provides f [g]; }"),
            ("e.mcdp", b"choose { x: c; y: f; }"),
            ("f.mcdp", b"catalogue { requires f [s]; table g; }"),
            ("g.csv", b"mg,1/0"),
            ("i.interface", b"interface { provides x [s]; }"),
            ("n.mcdp", b"mcdp { instance s = t<q: c>; }"),
            ("t.template", b"template<p: i> choose { x: c; y: p; }"),
        ],
        None,
    ),
];

/// The number of the first row whose file isn't typed so.
fn first_wrong(alloc: Global, rows: &[Row]) -> Option<usize> {
    for (number, (name, text, want)) in rows.iter().enumerate() {
        if !is_typed(alloc, (*name, *text), *want) {
            return Some(number);
        }
    }
    None
}

/// Whether the file, beside those that others refer to, is typed so.
fn is_typed(alloc: Global, file: Listed, want: Option<(FaultKind, u64)>) -> bool {
    let want = want.map(|(kind, at)| (file.0, kind, at));
    match beside(alloc, file) {
        Ok(listed) => is_wanted(typed(alloc, listed.as_slice()), want),
        Err(_) => false,
    }
}

/// The number of the first library that isn't typed so.
fn first_wrong_library(alloc: Global, rows: &[(&[Listed], Option<Wanted>)]) -> Option<usize> {
    for (number, (listed, want)) in rows.iter().enumerate() {
        if !is_wanted(typed(alloc, *listed), *want) {
            return Some(number);
        }
    }
    None
}

#[test]
fn files_are_typed_in_order(rt: HostRuntime) -> Result<(), Fail> {
    assert_eq!(rt; first_wrong_library(rt.alloc(), &LIBRARIES), None);
    Ok(())
}
