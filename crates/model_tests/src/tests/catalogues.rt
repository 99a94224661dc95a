ghost use Rattle.std.specs.Prelude.{◌≡◌, IsTrue};
ghost use Rattle.std.specs.List.{list_all};
ghost use Rattle.design_model.specs.Parts.{is_catalogue};
ghost use Rattle.design_model.specs.Typed.{row_is_typed, rows_fit};

use self::Written::{El, Num, Top};
use super::{NUMBERS, crossed, text};
use catalogue_solve::minimal_rows;
use design_model::{CatRow, Design};
use order_core::List;
use std::alloc::Global;
use std::process::Abort;
use std::test::Fail;
use value_type::{Kind, Port, PortUnit, Row, Types, Value, ports_fit};

/// How a value is written in these tests.
#[derive(Clone, Copy)]
enum Written {
    Num(u64),
    Top,
    El(u32),
}

fn value(written: Written) -> Value {
    match written {
        Written::Num(count) => Value::Num(count),
        Written::Top => Value::Top,
        Written::El(element) => Value::El(element),
    }
}

fn row(alloc: Global, written: &[Written]) -> Result<Row, Fail> {
    let mut values = Vec::new(alloc);
    for one in written {
        values.push(value(*one))?;
    }
    Ok(Row::of(alloc, List::of(values))?)
}

fn port(alloc: Global, name: &str, kind: Kind) -> Result<Port, Fail> {
    Ok(Port {
        name: text(alloc, name)?,
        kind,
        unit: PortUnit::Nat,
    })
}

/// A row of a catalogue: what it provides, and what it requires.
type Line<'a> = (&'a [Written], &'a [Written]);

/// A catalogue that provides a count and requires a count and a second value.
fn catalogue(alloc: Global, second: Kind, lines: &[Line]) -> Result<Design, Fail> {
    let mut rows = Vec::new(alloc);
    for (provided, required) in lines {
        rows.push(CatRow {
            name: text(alloc, "r")?,
            provided: row(alloc, *provided)?,
            required: row(alloc, *required)?,
        })?;
    }
    Ok(Design::Cat {
        provides: List::of(vec![in alloc; port(alloc, "lift", NUMBERS)?]?),
        requires_: List::of(vec![in alloc;
            port(alloc, "mass", NUMBERS)?,
            port(alloc, "second", second)?,
        ]?),
        rows: List::of(rows),
    })
}

/// Whether each of the rows fits the ports.
fn all_fit(types: &Types, provides: &[Port], requires_: &[Port], rows: &[CatRow]) -> bool
    ensures { result ≡ list_all (row_is_typed types.now provides.now requires_.now) rows.now }
{
    for row in rows {
        if !ports_fit(types, provides, row.provided.values()) {
            return false;
        }
        if !ports_fit(types, requires_, row.required.values()) {
            return false;
        }
    }
    true
}

/// Whether each row of the design fits its ports.
fn rows_fit(types: &Types, design: &Design) -> bool
    ensures { result ≡ rows_fit types.now design.now }
{
    all_fit(
        types,
        design.provided_ports(),
        design.required_ports(),
        design.rows(),
    )
}

/// Whether the design is a catalogue.
fn is_catalogue(design: &Design) -> bool
    ensures { result ≡ is_catalogue design.now }
{
    matches!(design, Design::Cat { .. })
}

fn is_same(value: &Value, written: Written) -> bool {
    match (value, written) {
        (Value::Num(a), Num(b)) => *a == b,
        (Value::Top, Top) => true,
        (Value::El(a), El(b)) => *a == b,
        _ => false,
    }
}

/// Whether these are the values that are written.
fn are_same(values: &[Value], written: &[Written]) -> bool {
    values.len() == written.len()
        && values
            .iter()
            .zip(written)
            .all(|(value, one)| is_same(value, *one))
}

/// The minimal rows for a functionality are these, in this order.
fn expect_minima(
    rt: &impl Abort,
    alloc: Global,
    types: &Types,
    design: &Design,
    (f, wants): (Written, &[[Written; 2]]),
) -> Result<(), Fail> {
    let f = row(alloc, &[f])?;
    assert!(rt; is_catalogue(design));
    assert!(rt; rows_fit(types, design) && ports_fit(types, design.provided_ports(), f.values()));
    let found = minimal_rows(alloc, types, design, &f)?;
    assert_eq!(rt; found.items().len(), wants.len());
    for (found, want) in found.items().iter().zip(wants) {
        assert!(rt; are_same(found.values(), want));
    }
    Ok(())
}

#[test]
fn the_least_of_what_gives_enough(rt: HostRuntime) -> Result<(), Fail> {
    let alloc = rt.alloc();
    let lines: [Line; 4] = [
        (&[Num(100)], &[Num(10), Num(5)]),
        (&[Num(120)], &[Num(8), Num(7)]),
        (&[Num(200)], &[Num(12), Num(7)]),
        (&[Num(150)], &[Num(8), Num(7)]),
    ];
    let motors = catalogue(alloc, NUMBERS, &lines)?;
    let types = crossed(alloc)?;
    expect_minima(
        &rt,
        alloc,
        &types,
        &motors,
        (Num(90), &[[Num(8), Num(7)], [Num(10), Num(5)]]),
    )?;
    expect_minima(&rt, alloc, &types, &motors, (Num(101), &[[Num(8), Num(7)]]))?;
    expect_minima(
        &rt,
        alloc,
        &types,
        &motors,
        (Num(200), &[[Num(12), Num(7)]]),
    )?;
    expect_minima(&rt, alloc, &types, &motors, (Num(201), &[]))?;
    expect_minima(&rt, alloc, &types, &motors, (Top, &[]))
}

#[test]
fn grades_that_are_not_compared_stay(rt: HostRuntime) -> Result<(), Fail> {
    let alloc = rt.alloc();
    let lines: [Line; 6] = [
        (&[Num(1)], &[Num(10), El(1)]),
        (&[Top], &[Num(12), El(2)]),
        (&[Num(1)], &[Num(10), El(0)]),
        (&[Num(2)], &[Num(9), El(3)]),
        (&[Num(1)], &[Num(10), El(2)]),
        (&[Num(2)], &[Top, El(0)]),
    ];
    let graded = catalogue(alloc, Kind::Fin(0), &lines)?;
    let types = crossed(alloc)?;
    expect_minima(
        &rt,
        alloc,
        &types,
        &graded,
        (
            Num(1),
            &[[Num(9), El(3)], [Num(10), El(0)], [Num(10), El(1)]],
        ),
    )?;
    expect_minima(
        &rt,
        alloc,
        &types,
        &graded,
        (Num(2), &[[Num(9), El(3)], [Num(12), El(2)], [Top, El(0)]]),
    )?;
    expect_minima(&rt, alloc, &types, &graded, (Top, &[[Num(12), El(2)]]))
}
