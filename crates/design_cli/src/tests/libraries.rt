use super::{Ran, expect, folder, run_on};
use design_world::MemoryFile;
use order_core::{List, Text};
use std::alloc::{AllocError, Global};
use std::test::Fail;

/// A file's name and its bytes.
type Held = (&'static str, &'static [u8]);

/// The files of a folder, a design's name, a query, the code, the line for standard error and the report.
type Run = (
    &'static [Held],
    &'static str,
    &'static str,
    u8,
    &'static str,
    &'static str,
);

const MOTORS: Held = (
    "motors.mcdp",
    b"catalogue { provides lift [g]; requires mass [g]; requires power [W]; requires cost [USD]; table list; }",
);

const LIST: Held = (
    "list.csv",
    b"name,lift,mass,power,cost\nsmall,1000 g,100 g,50 W,40 USD\nlarge,3 kg,0.4 kg,150 W,90 USD\n",
);

const LI: Held = (
    "li.mcdp",
    b"mcdp { provides capacity [Wh]; requires mass [g]; requires cost [USD]; mass >= 1/150 kg/Wh * capacity; cost >= 1/2 USD/Wh * capacity; }",
);

const NI: Held = (
    "ni.mcdp",
    b"mcdp { provides capacity [Wh]; requires mass [g]; requires cost [USD]; mass >= 1/50 kg/Wh * capacity; cost >= 1/10 USD/Wh * capacity; }",
);

const BATTERIES: Held = ("batteries.mcdp", b"choose { li: li; ni: ni; }");

const DRONE: Held = (
    "drone.mcdp",
    b"mcdp { provides payload [kg]; provides endurance [min]; requires mass [kg]; requires cost [USD]; instance motor = motors; instance battery = batteries; motor.lift >= payload + motor.mass + battery.mass; battery.capacity >= endurance * motor.power; mass >= payload + motor.mass + battery.mass; cost >= motor.cost + battery.cost; }",
);

const POSET: Held = (
    "p.poset",
    b"poset { elements a, b, c, d; a <= c; a <= d; b <= c; b <= d; }",
);

const VALUES: Held = (
    "v.mcdp",
    b"catalogue { provides x [product(poset p, up p)]; requires y [product(up p, Nat)]; row one: <p:a, p:{a, b}> -> <p:{c, d, a}, 7>; row two: <p:c, p:{a}> -> <p:{}, 3>; row three: <p:c, p:{}> -> <p:{b}, Top>; }",
);

const NAMED: Held = ("i.interface", b"interface { requires b [Nat]; }");

const EXACT: Held = ("e.mcdp", b"mcdp { requires b [Nat]; b >= 1; }");

const BOX: Held = (
    "t.template",
    b"template <x: i> mcdp { requires b [Nat]; instance p = x; b >= p.b; }",
);

/// Libraries that are accepted, and queries.
const ACCEPTED: [Run; 10] = [
    (
        &[MOTORS, LIST, LI, NI, BATTERIES, DRONE],
        "motors",
        "1.5 kg",
        0,
        "",
        "finished 1\n400 g, 150 W, 90 USD\n",
    ),
    (
        &[MOTORS, LIST, LI, NI, BATTERIES, DRONE],
        "motors",
        "1 kg",
        0,
        "",
        "finished 1\n100 g, 50 W, 40 USD\n",
    ),
    (
        &[MOTORS, LIST, LI, NI, BATTERIES, DRONE],
        "drone",
        "0.3 kg, 30 min",
        5,
        "query: not yet",
        "",
    ),
    (
        &[MOTORS, LIST, LI, NI, BATTERIES, DRONE],
        "batteries",
        "1",
        5,
        "query: wrong value 0",
        "",
    ),
    (
        &[MOTORS, LIST, LI, NI, BATTERIES, DRONE],
        "list",
        "1",
        5,
        "query: no design",
        "",
    ),
    (
        &[POSET, VALUES],
        "v",
        "<p:a, p:{a, b}>",
        0,
        "",
        "finished 3\n<p:{}, 3>\n<p:{a}, 7>\n<p:{b}, Top>\n",
    ),
    (&[NAMED, EXACT, BOX], "t", "", 5, "query: no design", ""),
    (&[NAMED, EXACT, BOX], "e", "", 5, "query: not yet", ""),
    (
        &[
            (
                "q.mcdp",
                b"catalogue { requires mass [kg]; requires cost [cent]; table t; }",
            ),
            (
                "t.csv",
                b"\"name\", mass ,\"cost\"\r\n a ,\"1500 g\",0.1 USD\r\nb,1 kg,3/2 USD",
            ),
        ],
        "q",
        "",
        0,
        "",
        "finished 2\n1 kg, 150 cent\n3/2 kg, 10 cent\n",
    ),
    (
        &[
            (
                "c.mcdp",
                b"catalogue { provides x [Nat]; requires y [s]; row a: 1 -> 1.5 min; }",
            ),
            ("notes.txt", b"\xff"),
        ],
        "c",
        "1",
        0,
        "",
        "finished 1\n90 s\n",
    ),
];

const PLAIN: Held = (
    "c.mcdp",
    b"catalogue { provides a [Nat]; requires b [Nat]; row x: 1 -> 2; }",
);

const NET: Held = (
    "n.mcdp",
    b"mcdp { requires r [Nat]; instance s = c; r >= s.b; }",
);

const CYCLE: Held = ("p.poset", b"poset { elements a, b; a <= b; b <= a; }");

const OFF_GRID: Held = (
    "u.mcdp",
    b"catalogue { provides v [USD/kg]; row x: 1 USD/kg -> ; }",
);

const BY_ZERO: Held = ("z.mcdp", b"mcdp { requires r [Nat]; r >= 1/0; }");

const TABLED: Held = ("q.mcdp", b"catalogue { requires b [Nat]; table t; }");

/// Libraries that are refused, and the line for standard error.
const REFUSED: [(&[Held], &str); 23] = [
    (
        &[
            NAMED,
            EXACT,
            (
                "t.template",
                b"template <x: i> mcdp { requires b [Nat]; instance p = x; instance q = d; b >= p.b + q.b; }",
            ),
            (
                "d.mcdp",
                b"mcdp { requires b [Nat]; instance u = t<x: e>; b >= u.b; }",
            ),
        ],
        "d.mcdp: Circular at 0",
    ),
    (
        &[PLAIN, NET, CYCLE, OFF_GRID, BY_ZERO],
        "p.poset: NotAnOrder at 0",
    ),
    (&[PLAIN, NET, OFF_GRID, BY_ZERO], "u.mcdp: PortGrid at 24"),
    (&[PLAIN, NET, BY_ZERO], "z.mcdp: ZeroDivisor at 30"),
    (&[PLAIN, NET], "n.mcdp: Unconnected at 34"),
    (
        &[("a.mcdp", b"catalogue { provides x [Nat]; row r: 1")],
        "a.mcdp: Syntax at 38",
    ),
    (&[("a.mcdp", b"mcdp { \xff }")], "a.mcdp: NotText at 0"),
    (&[("a.mcdp", b"mcdp { ! }")], "a.mcdp: BadToken at 7"),
    (&[PLAIN, PLAIN], "c.mcdp: Twice at 0"),
    (&[TABLED], "q.mcdp: Unknown at 36"),
    (
        &[("c.mcdp", b"catalogue { requires b [Nat]; }")],
        "c.mcdp: NoRows at 0",
    ),
    (
        &[("c.mcdp", b"catalogue { requires b [Nat]; row x: 1 -> 2; }")],
        "c.mcdp: RowWidth at 34",
    ),
    (
        &[("c.mcdp", b"catalogue { requires b [Nat]; row x: -> 2 g; }")],
        "c.mcdp: BadCell at 40",
    ),
    (&[TABLED, ("t.csv", b"")], "t.csv: NoRows at 0"),
    (
        &[TABLED, ("t.csv", b"name,c\nx,1\n")],
        "t.csv: BadCell at 0",
    ),
    (
        &[TABLED, ("t.csv", b"name,b\nx,1\ny\n")],
        "t.csv: RowWidth at 2",
    ),
    (
        &[TABLED, ("t.csv", b"name,b\nx,1\n\xff,2\n")],
        "t.csv: BadCell at 2",
    ),
    (
        &[TABLED, ("t.csv", b"name,b\nx,1\nx,2\n")],
        "t.csv: BadCell at 2",
    ),
    (&[TABLED, ("t.csv", b"name,b\nx,\n")], "t.csv: BadCell at 1"),
    (
        &[
            (
                "c.mcdp",
                b"catalogue { provides a [Nat]; provides b [Nat]; row x: 1, 2 -> ; }",
            ),
            (
                "e.mcdp",
                b"catalogue { provides b [Nat]; provides a [Nat]; row x: 1, 2 -> ; }",
            ),
            ("k.mcdp", b"choose { one: c; two: e; }"),
        ],
        "k.mcdp: PortsDiffer at 22",
    ),
    (
        &[
            NAMED,
            EXACT,
            BOX,
            (
                "w.mcdp",
                b"mcdp { requires r [Nat]; instance s = t; r >= s.b; }",
            ),
        ],
        "w.mcdp: ArgumentMissing at 38",
    ),
    (
        &[
            NAMED,
            EXACT,
            BOX,
            (
                "w.mcdp",
                b"mcdp { requires r [Nat]; instance s = t<x: e, y: e>; r >= s.b; }",
            ),
        ],
        "w.mcdp: ArgumentUnknown at 46",
    ),
    (
        &[
            NAMED,
            PLAIN,
            BOX,
            (
                "w.mcdp",
                b"mcdp { requires r [Nat]; instance s = t<x: c>; r >= s.b; }",
            ),
        ],
        "w.mcdp: PortsDiffer at 43",
    ),
];

fn files_of(alloc: Global, held: &[Held]) -> Result<Vec<MemoryFile>, AllocError> {
    let mut files = Vec::new(alloc);
    for (name, bytes) in held {
        files.push(MemoryFile {
            name: Text::of(String::from_str(alloc, name)?),
            bytes: List::of(Vec::from_slice(alloc, bytes)?),
        })?;
    }
    Ok(files)
}

fn solved(alloc: Global, files: Vec<MemoryFile>, name: &str, query: &str) -> Result<Ran, Fail> {
    let words = ["solve", "lib", name, query];
    run_on(alloc, &words, folder(alloc, files, &[])?, &[])
}

#[test]
fn accepted_libraries(rt: HostRuntime) -> Result<(), Fail> {
    let alloc = rt.alloc();
    for (held, name, query, code, line, report) in ACCEPTED {
        let ran = solved(alloc, files_of(alloc, held)?, name, query)?;
        expect(&rt, &ran, code, line, report);
    }
    Ok(())
}

#[test]
fn refused_libraries(rt: HostRuntime) -> Result<(), Fail> {
    let alloc = rt.alloc();
    for (held, line) in REFUSED {
        let ran = solved(alloc, files_of(alloc, held)?, "c", "1")?;
        expect(&rt, &ran, 4, line, "");
    }
    Ok(())
}

/// A catalogue of so many rows.
fn catalogue(alloc: Global, rows: u64) -> Result<String, AllocError> {
    let mut text = String::from_str(alloc, "catalogue { provides x [Nat]; requires y [Nat]; ")?;
    for number in 0..rows {
        text.push_str(&format!(in alloc; "row r{}: 1 -> 1; ", number)?)?;
    }
    text.push_str("}")?;
    Ok(text)
}

/// Choices that name the next one, from this number on, and a catalogue at the end of 64.
fn chain(alloc: Global, first: u64) -> Result<Vec<MemoryFile>, AllocError> {
    let mut files = Vec::new(alloc);
    for number in first..64 {
        let name = format!(in alloc; "d{}{}.mcdp", number / 10, number % 10)?;
        let next = number + 1;
        let text = format!(in alloc; "choose {{ next: d{}{}; }}", next / 10, next % 10)?;
        files.push(super::file(alloc, name.as_str(), text.as_str())?)?;
    }
    let last = catalogue(alloc, 1)?;
    files.push(super::file(alloc, "d64.mcdp", last.as_str())?)?;
    Ok(files)
}

#[test]
fn limits(rt: HostRuntime) -> Result<(), Fail> {
    let alloc = rt.alloc();
    let lines = [
        (9_999, 0, "", "finished 1\n1\n"),
        (10_000, 4, "big.mcdp: TooLarge at 0", ""),
    ];
    for (rows, code, line, report) in lines {
        let text = catalogue(alloc, rows)?;
        let files = vec![in alloc; super::file(alloc, "big.mcdp", text.as_str())?]?;
        expect(&rt, &solved(alloc, files, "big", "1")?, code, line, report);
    }
    let deep = solved(alloc, chain(alloc, 0)?, "d64", "1")?;
    expect(&rt, &deep, 4, "d00.mcdp: TooDeep at 0", "");
    let within = solved(alloc, chain(alloc, 1)?, "d64", "1")?;
    expect(&rt, &within, 0, "", "finished 1\n1\n");
    Ok(())
}

#[test]
fn folders(rt: HostRuntime) -> Result<(), Fail> {
    let alloc = rt.alloc();
    let mut many = Vec::new(alloc);
    for number in 0..1_001_u64 {
        let name = format!(in alloc; "x{}.poset", number)?;
        many.push(super::file(alloc, name.as_str(), "")?)?;
    }
    let refused = solved(alloc, many, "c", "1")?;
    expect(&rt, &refused, 4, "too many files: 1001", "");
    let mut bytes = Vec::new(alloc);
    for _ in 0..1_048_577_u64 {
        bytes.push(b' ')?;
    }
    let big = MemoryFile {
        name: Text::of(String::from_str(alloc, "big.poset")?),
        bytes: List::of(bytes),
    };
    let refused = solved(alloc, vec![in alloc; big]?, "c", "1")?;
    expect(&rt, &refused, 4, "file too long: big.poset", "");
    Ok(())
}
