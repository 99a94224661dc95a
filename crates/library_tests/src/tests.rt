mod folders;
mod library;
mod names;
mod scopes;
mod stages;
mod types;

use design_lexer::lex;
use design_parser::{FileKind, parse_file};
use fault_list::{Fault, FaultKind};
use name_rules::{is_small, note_twice_in_file};
use std::alloc::Global;
use std::test::Fail;

/// Files, and where a name in them stands twice for the first time.
const TWICE: [(FileKind, &[u8], Option<u64>); 19] = [
    (FileKind::Poset, b"poset { elements a, b; a <= b; }", None),
    (FileKind::Poset, b"poset { elements a, b, a, b; }", Some(23)),
    (
        FileKind::Interface,
        b"interface { provides x [Nat]; requires x [Nat]; }",
        None,
    ),
    (
        FileKind::Interface,
        b"interface { provides x [Nat]; requires y [Nat]; provides x [g]; }",
        Some(57),
    ),
    (
        FileKind::Interface,
        b"interface { provides y [Nat]; requires x [Nat]; requires x [g]; }",
        Some(57),
    ),
    (
        FileKind::Design,
        b"catalogue { provides f [Nat]; requires r [Nat]; row a: 1 -> 2; row b: 2 -> 3; row a: 3 -> 4; }",
        Some(82),
    ),
    (FileKind::Design, b"choose { a: m; b: m; a: n; }", Some(21)),
    (
        FileKind::Design,
        b"mcdp { instance m = x; instance n = x; instance m = y; }",
        Some(48),
    ),
    (
        FileKind::Design,
        b"mcdp { provides m [Nat]; instance m = x; }",
        Some(34),
    ),
    (
        FileKind::Design,
        b"mcdp { instance m = x; requires n [g]; requires m [Nat]; }",
        Some(48),
    ),
    (
        FileKind::Design,
        b"mcdp { provides f [Nat]; requires f [Nat]; instance m = f; }",
        None,
    ),
    (
        FileKind::Design,
        b"mcdp { instance m = x; provides f [Nat]; instance m = y; provides f [g]; }",
        Some(50),
    ),
    (
        FileKind::Design,
        b"mcdp { provides f [Nat]; instance m = x; provides f [g]; instance m = y; }",
        Some(50),
    ),
    (
        FileKind::Template,
        b"template<p: i, q: i, p: j> choose { p: p; }",
        Some(21),
    ),
    (
        FileKind::Template,
        b"template<p: i> mcdp { instance p = p; instance p = p; }",
        Some(47),
    ),
    (
        FileKind::Design,
        b"choose { a: t<q: x, r: x>; b: t<q: y>; }",
        None,
    ),
    (FileKind::Design, b"choose { a: t<q: x, q: y>; }", Some(20)),
    (
        FileKind::Design,
        b"choose { a: t<q: s<r: x, r: y>, p: x>; b: u; }",
        Some(25),
    ),
    (
        FileKind::Design,
        b"mcdp { instance a = t<q: x, r: t<q: x, q: y>>; }",
        Some(39),
    ),
];

/// What is noted first of the file, where this was noted before.
fn noted(
    alloc: Global,
    kind: FileKind,
    text: &[u8],
    before: Option<Fault>,
) -> Option<Option<Fault>> {
    let tokens = lex(alloc, text).ok()?;
    let file = parse_file(alloc, kind, text, &tokens).ok()?;
    let mut first = before;
    if !is_small(&file) || note_twice_in_file(alloc, &file, &mut first).is_err() {
        return None;
    }
    Some(first)
}

/// A name that stands twice, at this place.
fn twice(at: Option<u64>) -> Option<Fault> {
    let at = at?;
    let kind = FaultKind::Twice;
    Some(Fault { kind, at })
}

#[test]
fn names_stand_twice(rt: HostRuntime) -> Result<(), Fail> {
    for (kind, text, at) in TWICE {
        assert_eq!(rt; noted(rt.alloc(), kind, text, None), Some(twice(at)));
    }
    Ok(())
}

#[test]
fn the_earlier_fault_is_kept(rt: HostRuntime) -> Result<(), Fail> {
    let text = b"choose { a: m; a: n; }";
    let kind = FaultKind::Unknown;
    for (at, want) in [(14, Some(Fault { kind, at: 14 })), (16, twice(Some(15)))] {
        let before = Some(Fault { kind, at });
        assert_eq!(rt;
            noted(rt.alloc(), FileKind::Design, text, before),
            Some(want)
        );
    }
    Ok(())
}
