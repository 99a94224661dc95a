use super::library::{Listed, Wanted, built, is_wanted};
use fault_list::{FaultKind, StageFault};
use std::alloc::Global;
use std::test::Fail;
use unit_check::{check_connected, check_types};

const CATALOGUE: Listed = (
    "c.mcdp",
    b"catalogue { provides a [Nat]; requires b [Nat]; row x: 1 -> 2; }",
);

const NOWHERE: Listed = ("e.mcdp", b"choose { x: nowhere; }");

const CHOICE: Listed = ("e.mcdp", b"choose { x: c; }");

const TENTH_POWER: Listed = ("i.interface", b"interface { requires b [s^10]; }");

const INTERFACE: Listed = ("i.interface", b"interface { requires b [s]; }");

const OFF_GRID: Listed = (
    "l.template",
    b"template<p: i> mcdp { requires b [ms]; instance u = p; b >= 1 s; }",
);

const UNREAD: Listed = (
    "l.template",
    b"template<p: i> mcdp { requires b [s]; instance u = p; b >= 1 s; }",
);

const TEMPLATE: Listed = (
    "l.template",
    b"template<p: i> mcdp { requires b [s]; instance u = p; b >= u.b; }",
);

const OF_GRAMS: Listed = (
    "n.mcdp",
    b"mcdp { requires r [Nat]; instance s = e; r >= s.b + 1 g; }",
);

const UNCONSTRAINED: Listed = (
    "n.mcdp",
    b"mcdp { requires r [Nat]; instance s = e; r >= s.b + 1; }",
);

const NET: Listed = (
    "n.mcdp",
    b"mcdp { requires r [Nat]; instance s = e; r >= s.b + 1; s.a >= 2; }",
);

const BY_ZERO: Listed = ("z.mcdp", b"mcdp { requires r [Nat]; r >= 1/0; }");

const CONSTANT: Listed = ("z.mcdp", b"mcdp { requires r [Nat]; r >= 1/2; }");

/// Libraries, each with what is first wrong with its names, its types or its connections.
const LIBRARIES: [(&[Listed], Option<Wanted>); 18] = [
    // One library, in which one fault after the other is mended.
    (
        &[CATALOGUE, NOWHERE, TENTH_POWER, OFF_GRID, OF_GRAMS, BY_ZERO],
        Some(("e.mcdp", FaultKind::Unknown, 12)),
    ),
    (
        &[CATALOGUE, CHOICE, TENTH_POWER, OFF_GRID, OF_GRAMS, BY_ZERO],
        Some(("i.interface", FaultKind::Exponent, 24)),
    ),
    (
        &[CATALOGUE, CHOICE, INTERFACE, OFF_GRID, OF_GRAMS, BY_ZERO],
        Some(("l.template", FaultKind::PortGrid, 34)),
    ),
    (
        &[CATALOGUE, CHOICE, INTERFACE, UNREAD, OF_GRAMS, BY_ZERO],
        Some(("n.mcdp", FaultKind::Mismatch, 52)),
    ),
    (
        &[CATALOGUE, CHOICE, INTERFACE, UNREAD, UNCONSTRAINED, BY_ZERO],
        Some(("z.mcdp", FaultKind::ZeroDivisor, 30)),
    ),
    (
        &[
            CATALOGUE,
            CHOICE,
            INTERFACE,
            UNREAD,
            UNCONSTRAINED,
            CONSTANT,
        ],
        Some(("l.template", FaultKind::Unconnected, 47)),
    ),
    (
        &[
            CATALOGUE,
            CHOICE,
            INTERFACE,
            TEMPLATE,
            UNCONSTRAINED,
            CONSTANT,
        ],
        Some(("n.mcdp", FaultKind::Unconnected, 34)),
    ),
    (
        &[CATALOGUE, CHOICE, INTERFACE, TEMPLATE, NET, CONSTANT],
        None,
    ),
    // Four refusals in one folder, each mended by leaving out its file.
    (
        &[
            (
                "c.mcdp",
                b"catalogue { provides a [Nat]; requires b [Nat]; row x: 1 -> 2; }",
            ),
            (
                "n.mcdp",
                b"mcdp { requires r [Nat]; instance s = c; r >= s.b; }",
            ),
            ("p.poset", b"poset { elements a, b; a <= b; b <= a; }"),
            (
                "u.mcdp",
                b"catalogue { provides v [USD/kg]; row x: 1 USD/kg -> ; }",
            ),
            ("z.mcdp", b"mcdp { requires r [Nat]; r >= 1/0; }"),
        ],
        Some(("p.poset", FaultKind::NotAnOrder, 0)),
    ),
    (
        &[
            (
                "c.mcdp",
                b"catalogue { provides a [Nat]; requires b [Nat]; row x: 1 -> 2; }",
            ),
            (
                "n.mcdp",
                b"mcdp { requires r [Nat]; instance s = c; r >= s.b; }",
            ),
            (
                "u.mcdp",
                b"catalogue { provides v [USD/kg]; row x: 1 USD/kg -> ; }",
            ),
            ("z.mcdp", b"mcdp { requires r [Nat]; r >= 1/0; }"),
        ],
        Some(("u.mcdp", FaultKind::PortGrid, 24)),
    ),
    (
        &[
            (
                "c.mcdp",
                b"catalogue { provides a [Nat]; requires b [Nat]; row x: 1 -> 2; }",
            ),
            (
                "n.mcdp",
                b"mcdp { requires r [Nat]; instance s = c; r >= s.b; }",
            ),
            ("z.mcdp", b"mcdp { requires r [Nat]; r >= 1/0; }"),
        ],
        Some(("z.mcdp", FaultKind::ZeroDivisor, 30)),
    ),
    (
        &[
            (
                "c.mcdp",
                b"catalogue { provides a [Nat]; requires b [Nat]; row x: 1 -> 2; }",
            ),
            (
                "n.mcdp",
                b"mcdp { requires r [Nat]; instance s = c; r >= s.b; }",
            ),
        ],
        Some(("n.mcdp", FaultKind::Unconnected, 34)),
    ),
    // References that come back.
    (
        &[
            (
                "d.mcdp",
                b"mcdp { requires b [Nat]; instance u = t<x: e>; b >= u.b; }",
            ),
            ("e.mcdp", b"mcdp { requires b [Nat]; b >= 1; }"),
            ("i.interface", b"interface { requires b [Nat]; }"),
            (
                "t.template",
                b"template <x: i> mcdp { requires b [Nat]; instance p = x; instance q = d; b >= p.b + q.b; }",
            ),
        ],
        Some(("d.mcdp", FaultKind::Circular, 0)),
    ),
    // Libraries that are in order.
    (
        &[
            ("batteries.mcdp", b"choose { li: li; ni: ni; }"),
            (
                "drone.mcdp",
                b"mcdp { provides payload [kg]; provides endurance [min]; requires mass [kg]; requires cost [USD]; instance motor = motors; instance battery = batteries; motor.lift >= payload + motor.mass + battery.mass; battery.capacity >= endurance * motor.power; mass >= payload + motor.mass + battery.mass; cost >= motor.cost + battery.cost; }",
            ),
            (
                "li.mcdp",
                b"mcdp { provides capacity [Wh]; requires mass [g]; requires cost [USD]; mass >= 1/150 kg/Wh * capacity; cost >= 1/2 USD/Wh * capacity; }",
            ),
            ("list.csv", b"name,lift,mass,power,cost"),
            (
                "motors.mcdp",
                b"catalogue { provides lift [g]; requires mass [g]; requires power [W]; requires cost [USD]; table list; }",
            ),
            (
                "ni.mcdp",
                b"mcdp { provides capacity [Wh]; requires mass [g]; requires cost [USD]; mass >= 1/50 kg/Wh * capacity; cost >= 1/10 USD/Wh * capacity; }",
            ),
        ],
        None,
    ),
    (
        &[
            (
                "back.mcdp",
                b"mcdp { requires out [poset p]; instance c = c; c.x >= c.y; out >= c.y; }",
            ),
            (
                "c.mcdp",
                b"catalogue { provides x [poset p]; requires y [poset p]; row one: p:a -> p:b; row two: p:b -> p:a; row three: p:t -> p:t; }",
            ),
            ("p.poset", b"poset { elements a, b, t; a <= t; b <= t; }"),
        ],
        None,
    ),
    (
        &[
            (
                "p4.poset",
                b"poset { elements a, b, c, d; a <= c; a <= d; b <= c; b <= d; }",
            ),
            (
                "two.mcdp",
                b"mcdp { provides x [poset p4]; provides y [poset p4]; requires r [poset p4]; r >= x; r >= y; }",
            ),
            (
                "up4.mcdp",
                b"mcdp { provides x [up p4]; provides y [up p4]; requires r [up p4]; r >= x; r >= y; }",
            ),
        ],
        None,
    ),
    (
        &[
            (
                "calc.mcdp",
                b"mcdp { provides x [Nat]; provides y [Nat]; requires s [Nat]; requires p [Nat]; requires t [Nat]; s >= x + y; p >= x * y; t >= 1/3 * x; }",
            ),
            (
                "climb.mcdp",
                b"mcdp { requires out [Nat]; instance s = succ; s.a >= s.b; out >= s.b; }",
            ),
            (
                "succ.mcdp",
                b"mcdp { provides a [Nat]; requires b [Nat]; b >= a + 1; }",
            ),
        ],
        None,
    ),
    (
        &[
            (
                "body.mcdp",
                b"mcdp { provides payload [g]; requires mass [g]; instance motor = motors; motor.lift >= payload + motor.mass; mass >= motor.mass; }",
            ),
            (
                "motors.mcdp",
                b"catalogue { provides lift [g]; requires mass [g]; row a: 100 g -> 10 g; row b: 120 g -> 50 g; row c: 1000 g -> 400 g; }",
            ),
            (
                "outer.mcdp",
                b"mcdp { provides load [g]; requires total [g]; instance b = body; b.payload >= load + 1/100 * b.mass; total >= b.mass; }",
            ),
        ],
        None,
    ),
];

/// The first fault of the files: of their names, their types or their connections. None where a text can't be read.
fn checked(alloc: Global, listed: &[Listed]) -> Option<Result<(), StageFault>> {
    let names = match built(alloc, listed)? {
        Ok(names) => names,
        Err(stop) => return Some(Err(stop)),
    };
    if let Err(stop) = check_types(alloc, &names) {
        return Some(Err(stop));
    }
    Some(check_connected(alloc, &names))
}

/// The number of the first library whose first fault is another one.
fn first_wrong(alloc: Global, rows: &[(&[Listed], Option<Wanted>)]) -> Option<usize> {
    for (number, (listed, want)) in rows.iter().enumerate() {
        if !is_wanted(checked(alloc, *listed), *want) {
            return Some(number);
        }
    }
    None
}

#[test]
fn stages_follow_one_another(rt: HostRuntime) -> Result<(), Fail> {
    assert_eq!(rt; first_wrong(rt.alloc(), &LIBRARIES), None);
    Ok(())
}
