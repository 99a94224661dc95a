use crate::{row_text, value_text};
use order_core::{FiniteOrder, List, Text};
use std::alloc::{AllocError, Global};
use std::test::Fail;
use unit_core::Dim;
use value_type::{Kind, Port, PortUnit, Poset, Types, Value};

/// A unit, and how many of the grid's counts one of it is. None is that of plain numbers.
type Unit = Option<(&'static str, u64)>;

const GRAM: Unit = Some(("g", 1));

const KILOGRAM: Unit = Some(("kg", 1_000));

const DOLLAR: Unit = Some(("USD", 100));

/// A unit and a count, Top where there is none.
type Number = (Unit, Option<u64>);

/// Rows of numbers, and how they are written.
const ROWS: [(&[Number], &str); 7] = [
    (&[], "()"),
    (&[(None, Some(40))], "40"),
    (&[(GRAM, Some(400))], "400 g"),
    (
        &[(KILOGRAM, Some(567)), (DOLLAR, Some(5_250))],
        "567/1000 kg, 105/2 USD",
    ),
    (
        &[(KILOGRAM, Some(900)), (DOLLAR, Some(100))],
        "9/10 kg, 1 USD",
    ),
    (
        &[
            (None, None),
            (None, Some(10_000_000_000_000_000_000)),
            (None, Some(0)),
        ],
        "Top, 10000000000000000000, 0",
    ),
    (&[(KILOGRAM, Some(0)), (DOLLAR, None)], "0 kg, Top"),
];

/// Upper sets of a poset, and how they are written.
const UPPER_SETS: [(&[u32], &str); 3] = [(&[], "p4:{}"), (&[0], "p4:{a}"), (&[2, 3], "p4:{c, d}")];

/// Elements of the poset, and how they are written.
const ELEMENTS: [(u32, &str); 2] = [(0, "p4:a"), (3, "p4:d")];

fn text(alloc: Global, text: &str) -> Result<Text, AllocError> {
    Ok(Text::of(String::from_str(alloc, text)?))
}

/// A poset of four elements.
fn types(alloc: Global) -> Result<Types, Fail> {
    let poset = Poset {
        name: text(alloc, "p4")?,
        elements: List::of(vec![in alloc;
            text(alloc, "a")?,
            text(alloc, "b")?,
            text(alloc, "c")?,
            text(alloc, "d")?,
        ]?),
        order: FiniteOrder::close(alloc, 4, &[(0, 2), (0, 3), (1, 2), (1, 3)])?,
    };
    Ok(Types {
        posets: List::of(vec![in alloc; poset]?),
    })
}

fn port(alloc: Global, kind: Kind, unit: PortUnit) -> Result<Port, AllocError> {
    Ok(Port {
        name: text(alloc, "port")?,
        kind,
        unit,
    })
}

fn port_unit(alloc: Global, unit: Unit) -> Result<PortUnit, AllocError> {
    match unit {
        None => Ok(PortUnit::Nat),
        Some((name, size)) => Ok(PortUnit::Unit {
            text: text(alloc, name)?,
            size,
        }),
    }
}

fn number(count: Option<u64>) -> Value {
    match count {
        None => Value::Top,
        Some(count) => Value::Num(count),
    }
}

/// The text of a row of numbers.
fn row(alloc: Global, types: &Types, numbers: &[Number]) -> Result<Text, Fail> {
    let mut ports = Vec::new(alloc);
    let mut values = Vec::new(alloc);
    for (unit, count) in numbers {
        let unit = port_unit(alloc, *unit)?;
        ports.push(port(alloc, Kind::Num(Dim::NONE), unit)?)?;
        values.push(number(*count))?;
    }
    Ok(row_text(alloc, types, ports.as_slice(), values.as_slice())?)
}

#[test]
fn rows_are_joined(rt: HostRuntime) -> Result<(), Fail> {
    let alloc = rt.alloc();
    let types = types(alloc)?;
    for (numbers, want) in ROWS {
        assert_eq!(rt; row(alloc, &types, numbers)?.as_str(), want);
    }
    Ok(())
}

#[test]
fn elements_and_upper_sets_name_their_poset(rt: HostRuntime) -> Result<(), Fail> {
    let alloc = rt.alloc();
    let types = types(alloc)?;
    let element = port(alloc, Kind::Fin(0), PortUnit::Poset)?;
    for (number, want) in ELEMENTS {
        let made = value_text(alloc, &types, &element, &Value::El(number))?;
        assert_eq!(rt; made.as_str(), want);
    }
    let set = port(alloc, Kind::Up(0), PortUnit::Poset)?;
    for (members, want) in UPPER_SETS {
        let value = Value::Up(List::of(Vec::from_slice(alloc, members)?));
        let made = value_text(alloc, &types, &set, &value)?;
        assert_eq!(rt; made.as_str(), want);
    }
    Ok(())
}

#[test]
fn tuples_have_their_parts(rt: HostRuntime) -> Result<(), Fail> {
    let alloc = rt.alloc();
    let types = types(alloc)?;
    let kinds = vec![in alloc; Kind::Num(Dim::NONE), Kind::Up(0)]?;
    let units = vec![in alloc; port_unit(alloc, KILOGRAM)?, PortUnit::Poset]?;
    let pair = port(
        alloc,
        Kind::Prod(List::of(kinds)),
        PortUnit::Parts(List::of(units)),
    )?;
    let set = Value::Up(List::of(vec![in alloc; 2, 3]?));
    let value = Value::Tup(List::of(vec![in alloc; Value::Num(1_500), set]?));
    let made = value_text(alloc, &types, &pair, &value)?;
    assert_eq!(rt; made.as_str(), "<3/2 kg, p4:{c, d}>");
    Ok(())
}
