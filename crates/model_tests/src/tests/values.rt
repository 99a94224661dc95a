use super::{NUMBERS, crossed, expect, text};
use order_core::{List, NoMemory, Order};
use std::alloc::{AllocError, Global};
use std::cmp::Ordering;
use std::slice;
use std::test::Fail;
use value_type::{
    Kind, Port, PortUnit, Row, RowOrder, RowOrderRef, Value, ValueOrder, copy_kinds, copy_ports,
    kinds_of, print_order, print_order_rows,
};

/// The types of tuples of an element and a number, of upper sets and of elements.
fn kinds(alloc: Global) -> Result<List<Kind>, AllocError> {
    let pair = List::of(vec![in alloc; Kind::Fin(0), NUMBERS]?);
    Ok(List::of(vec![in alloc; Kind::Prod(pair), Kind::Up(0), Kind::Fin(0)]?))
}

fn pair(alloc: Global, element: u32, count: u64) -> Result<Value, AllocError> {
    Ok(Value::Tup(List::of(vec![in alloc; Value::El(element), Value::Num(count)]?)))
}

fn upper(alloc: Global, members: &[u32]) -> Result<Value, AllocError> {
    Ok(Value::Up(List::of(Vec::from_slice(alloc, members)?)))
}

/// A row of these types, as it is written in these tests.
type Written<'a> = (u32, u64, &'a [u32], u32);

fn values(alloc: Global, written: &Written) -> Result<Vec<Value>, AllocError> {
    let (first, count, members, second) = *written;
    let pair = pair(alloc, first, count)?;
    Ok(vec![in alloc; pair, upper(alloc, members)?, Value::El(second)]?)
}

fn row(alloc: Global, written: &Written) -> Result<Row, NoMemory> {
    match values(alloc, written) {
        Ok(values) => Row::of(alloc, List::of(values)),
        Err(_) => Err(NoMemory),
    }
}

const LOW: Written = (0, 3, &[0], 0);

const HIGH: Written = (1, 5, &[1], 1);

/// The least rows, in the order in which they are listed.
const LEAST: [Written; 4] = [
    (0, 0, &[0, 1], 0),
    (0, 0, &[0, 1], 1),
    (1, 0, &[0, 1], 0),
    (1, 0, &[0, 1], 1),
];

/// The bounds of the low and the high row, in the order in which they are listed.
const BOUNDS: [Written; 4] = [
    (2, 5, &[2, 3], 2),
    (2, 5, &[2, 3], 3),
    (3, 5, &[2, 3], 2),
    (3, 5, &[2, 3], 3),
];

fn is_row(alloc: Global, found: &Row, want: &Written) -> bool {
    match row(alloc, want) {
        Ok(want) => print_order_rows(found, &want) == Ordering::Equal,
        Err(_) => false,
    }
}

fn is_copied_row(alloc: Global, found: Result<Row, NoMemory>, want: &Written) -> bool {
    match found {
        Ok(found) => is_row(alloc, &found, want),
        Err(_) => false,
    }
}

fn are_rows(alloc: Global, found: Result<List<Row>, NoMemory>, wants: &[Written]) -> bool {
    let Ok(found) = found else {
        return false;
    };
    if found.items().len() != wants.len() {
        return false;
    }
    for (row, want) in found.items().iter().zip(wants.iter()) {
        if !is_row(alloc, row, want) {
            return false;
        }
    }
    true
}

/// Whether the order copies the high row, and lists its least rows and the bounds of these two.
fn joins(alloc: Global, order: &impl Order<Item = Row>, low: &Row, high: &Row) -> bool {
    order.is_value(low)
        && order.is_value(high)
        && is_copied_row(alloc, order.copy(alloc, high), &HIGH)
        && are_rows(alloc, order.least(alloc), &LEAST)
        && are_rows(alloc, order.bounds(alloc, low, high), &BOUNDS)
}

/// Whether this order does, and the one whose types others own.
fn both_join(alloc: Global, order: &RowOrder, low: &Row, high: &Row) -> bool {
    let by_reference = RowOrderRef {
        types: order.types,
        kinds: order.kinds.items(),
    };
    joins(alloc, order, low, high) && joins(alloc, &by_reference, low, high)
}

#[test]
fn rows_are_joined(rt: HostRuntime) -> Result<(), Fail> {
    let alloc = rt.alloc();
    let types = crossed(alloc)?;
    let order = RowOrder {
        types: &types,
        kinds: kinds(alloc)?,
    };
    let low = row(alloc, &LOW)?;
    let high = row(alloc, &HIGH)?;
    expect(both_join(alloc, &order, &low, &high), "rows")
}

fn is_value(found: Result<Value, NoMemory>, want: &Value) -> bool {
    match found {
        Ok(found) => print_order(&found, want) == Ordering::Equal,
        Err(_) => false,
    }
}

fn are_elements(found: Result<List<Value>, NoMemory>, wants: [u32; 2]) -> bool {
    match found {
        Ok(found) => match found.items() {
            [Value::El(x), Value::El(y)] => [*x, *y] == wants,
            _ => false,
        },
        Err(_) => false,
    }
}

/// Whether the order of the elements copies one, and lists the least ones and the bounds of these two.
fn elements_join(alloc: Global, order: &ValueOrder, low: &Value, high: &Value) -> bool {
    order.is_value(low)
        && order.is_value(high)
        && is_value(order.copy(alloc, low), low)
        && are_elements(order.least(alloc), [0, 1])
        && are_elements(order.bounds(alloc, low, high), [2, 3])
}

#[test]
fn elements_are_joined(rt: HostRuntime) -> Result<(), Fail> {
    let types = crossed(rt.alloc())?;
    let order = ValueOrder {
        types: &types,
        kind: &Kind::Fin(0),
    };
    let joined = elements_join(rt.alloc(), &order, &Value::El(0), &Value::El(1));
    expect(joined, "elements")
}

fn are_copied(alloc: Global, values: &[Value]) -> bool {
    for value in values {
        if !is_value(value.copy(alloc), value) {
            return false;
        }
    }
    true
}

#[test]
fn rows_and_values_are_copied(rt: HostRuntime) -> Result<(), Fail> {
    let alloc = rt.alloc();
    let row = row(alloc, &HIGH)?;
    expect(is_copied_row(alloc, row.copy(alloc), &HIGH), "a row")?;
    expect(are_copied(alloc, row.values()), "values")?;
    expect(is_value(Value::Top.copy(alloc), &Value::Top), "Top")
}

/// Units of each form.
fn units(alloc: Global) -> Result<List<PortUnit>, AllocError> {
    let unit = PortUnit::Unit {
        text: text(alloc, "kg")?,
        size: 1000,
    };
    Ok(List::of(vec![in alloc; unit, PortUnit::Nat, PortUnit::Poset]?))
}

/// A port with a type and a unit of each form.
fn port(alloc: Global) -> Result<Port, AllocError> {
    Ok(Port {
        name: text(alloc, "load")?,
        kind: Kind::Prod(kinds(alloc)?),
        unit: PortUnit::Parts(units(alloc)?),
    })
}

fn is_unit(unit: &PortUnit) -> bool {
    match unit {
        PortUnit::Parts(parts) => parts.items().len() == 3,
        _ => false,
    }
}

fn is_port(found: &Port, want: &Port) -> bool {
    found.name.as_str() == "load" && found.kind.is_same(&want.kind) && is_unit(&found.unit)
}

fn is_copied_port(found: Result<Port, NoMemory>, want: &Port) -> bool {
    match found {
        Ok(found) => is_port(&found, want),
        Err(_) => false,
    }
}

fn are_ports(found: Result<List<Port>, NoMemory>, want: &Port) -> bool {
    match found {
        Ok(found) => match found.items() {
            [port] => is_port(port, want),
            _ => false,
        },
        Err(_) => false,
    }
}

fn is_copied_unit(found: Result<PortUnit, NoMemory>) -> bool {
    match found {
        Ok(found) => is_unit(&found),
        Err(_) => false,
    }
}

#[test]
fn ports_are_copied(rt: HostRuntime) -> Result<(), Fail> {
    let alloc = rt.alloc();
    let ports = vec![in alloc; port(alloc)?]?;
    for port in ports.as_slice() {
        expect(is_copied_unit(port.unit.copy(alloc)), "a unit")?;
        expect(is_copied_port(port.copy(alloc), port), "a port")?;
        expect(
            are_ports(copy_ports(alloc, ports.as_slice()), port),
            "ports",
        )?;
    }
    Ok(())
}

fn is_kind(found: Result<Kind, NoMemory>, want: &Kind) -> bool {
    match found {
        Ok(found) => found.is_same(want),
        Err(_) => false,
    }
}

fn are_kinds(found: Result<List<Kind>, NoMemory>, want: &Kind) -> bool {
    match found {
        Ok(found) => match found.items() {
            [kind] => kind.is_same(want),
            _ => false,
        },
        Err(_) => false,
    }
}

#[test]
fn types_are_copied(rt: HostRuntime) -> Result<(), Fail> {
    let alloc = rt.alloc();
    let ports = vec![in alloc; port(alloc)?]?;
    for port in ports.as_slice() {
        expect(is_kind(port.kind.copy(alloc), &port.kind), "a type")?;
        expect(
            are_kinds(kinds_of(alloc, ports.as_slice()), &port.kind),
            "types",
        )?;
        let kinds = slice::from_ref(&port.kind);
        expect(are_kinds(copy_kinds(alloc, kinds), &port.kind), "copies")?;
    }
    Ok(())
}
