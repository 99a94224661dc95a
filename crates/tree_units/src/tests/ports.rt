use super::text;
use crate::{port_of, unit_text};
use design_lexer::{FactorTree, NameAt, PortTree, Side, TypeTree};
use fault_list::{Fault, FaultKind, Stop};
use name_index::NameIndex;
use order_core::{List, NoMemory, Text};
use std::alloc::Global;
use std::test::Fail;
use unit_core::Dim;
use value_type::{Kind, Port, PortUnit};

/// Where the type of each port begins.
const AT: u64 = 3;

/// Whether `/` stands before a factor, its name and the place of that, whether `-` stands before its power, and the power's digits.
type Written = (bool, &'static str, u64, bool, &'static str);

/// A part of a product.
#[derive(Clone, Copy)]
enum Part {
    Nat,
    Unit(Written),
    Poset(&'static str, u64),
    Up(&'static str, u64),
}

/// Units and their texts.
const TEXTS: [(&[Written], &str); 5] = [
    (&[], ""),
    (&[(false, "kWh", 4, false, "")], "kWh"),
    (&[(false, "s", 4, false, "02")], "s^02"),
    (
        &[
            (false, "kg", 4, false, ""),
            (false, "m", 7, false, ""),
            (true, "s", 9, true, "2"),
        ],
        "kg.m/s^-2",
    ),
    (
        &[(false, "m", 4, true, "0"), (true, "s", 9, false, "2")],
        "m^-0/s^2",
    ),
];

const NO_UNIT: Part = Part::Unit((false, "ft", 11, false, ""));

const UNEVEN: Part = Part::Unit((false, "mg", 14, false, ""));

const NO_POSET: Part = Part::Poset("motor", 17);

const TOO_HIGH: Part = Part::Unit((false, "m", 8, false, "10"));

/// Products, and the kind and the place of their first fault.
const FAULTS: [(&[Part], FaultKind, u64); 7] = [
    (&[Part::Nat, UNEVEN], FaultKind::PortGrid, AT),
    (&[NO_UNIT, UNEVEN], FaultKind::PortGrid, AT),
    (&[NO_POSET, UNEVEN, NO_UNIT], FaultKind::PortGrid, AT),
    (&[Part::Nat, NO_UNIT, NO_POSET], FaultKind::Unknown, 11),
    (&[NO_POSET, NO_UNIT], FaultKind::Unknown, 17),
    (&[Part::Up("motor", 5), TOO_HIGH], FaultKind::Unknown, 5),
    (&[TOO_HIGH, NO_POSET], FaultKind::Exponent, 8),
];

fn named(alloc: Global, name: &str, at: u64) -> Result<NameAt, NoMemory> {
    let name = text(alloc, name)?;
    Ok(NameAt { name, at })
}

fn factor(alloc: Global, row: Written) -> Result<FactorTree, NoMemory> {
    let (divided, name, at, negative, digits) = row;
    let name = named(alloc, name, at)?;
    let written = text(alloc, digits)?;
    Ok(FactorTree {
        divided,
        name,
        negative,
        power: digits.parse::<u128>().ok(),
        written,
    })
}

fn factors(alloc: Global, rows: &[Written]) -> Result<List<FactorTree>, NoMemory> {
    let mut made = Vec::new(alloc);
    for row in rows {
        made.push(factor(alloc, *row)?)?;
    }
    Ok(List::of(made))
}

fn type_tree(alloc: Global, part: Part) -> Result<TypeTree, NoMemory> {
    match part {
        Part::Nat => Ok(TypeTree::Nat),
        Part::Unit(row) => Ok(TypeTree::Unit(factors(alloc, &[row])?)),
        Part::Poset(name, at) => Ok(TypeTree::Poset(named(alloc, name, at)?)),
        Part::Up(name, at) => Ok(TypeTree::Up(named(alloc, name, at)?)),
    }
}

/// A port whose type is the product of the parts.
fn product(alloc: Global, parts: &[Part]) -> Result<PortTree, NoMemory> {
    let name = named(alloc, "lift", 1)?;
    let mut made = Vec::new(alloc);
    for part in parts {
        made.push(type_tree(alloc, *part)?)?;
    }
    Ok(PortTree {
        side: Side::Provides,
        name,
        kind: TypeTree::Product(List::of(made)),
        at: AT,
    })
}

/// The port of that type where `grade` is the poset of number 4.
fn port(alloc: Global, parts: &[Part]) -> Result<Port, Stop<Fault>> {
    let mut posets = NameIndex::new(alloc);
    posets.add(alloc, "grade", 4)?;
    let tree = product(alloc, parts)?;
    port_of(alloc, &tree, &posets)
}

/// The type `product(Nat, kg, up grade)`.
fn kind(alloc: Global) -> Result<Kind, NoMemory> {
    let mut parts = Vec::new(alloc);
    parts.push(Kind::Num(Dim::NONE))?;
    parts.push(Kind::Num(Dim {
        mass: 1,
        ..Dim::NONE
    }))?;
    parts.push(Kind::Up(4))?;
    Ok(Kind::Prod(List::of(parts)))
}

fn has_unit(unit: &PortUnit, name: &str, count: u64) -> bool {
    match unit {
        PortUnit::Unit { text, size } => text.as_str() == name && *size == count,
        _ => false,
    }
}

/// Whether the units are those of `product(Nat, kg, up grade)`.
fn has_units(unit: &PortUnit) -> bool {
    match unit {
        PortUnit::Parts(parts) => match parts.items() {
            [PortUnit::Nat, second, PortUnit::Poset] => has_unit(second, "kg", 1_000),
            _ => false,
        },
        _ => false,
    }
}

fn is_written(alloc: Global, unit: &[Written], expected: &str) -> Result<bool, NoMemory> {
    let unit = factors(alloc, unit)?;
    let made = unit_text(alloc, unit.items())?;
    Ok(made.as_str() == expected)
}

fn stops(alloc: Global, parts: &[Part], kind: FaultKind, at: u64) -> bool {
    match port(alloc, parts) {
        Err(Stop::At(fault)) => fault.kind == kind && fault.at == at,
        _ => false,
    }
}

#[test]
fn units_are_written_without_spaces(rt: HostRuntime) -> Result<(), Fail> {
    let alloc = rt.alloc();
    for (unit, expected) in TEXTS {
        assert!(rt; is_written(alloc, unit, expected)?);
    }
    Ok(())
}

#[test]
fn units_off_the_grid_are_the_first_fault(rt: HostRuntime) {
    let alloc = rt.alloc();
    for (parts, kind, at) in FAULTS {
        assert!(rt; stops(alloc, parts, kind, at));
    }
}

#[test]
fn products_have_the_types_of_their_parts(rt: HostRuntime) -> Result<(), Fail> {
    let alloc = rt.alloc();
    let parts = [
        Part::Nat,
        Part::Unit((false, "kg", 4, false, "")),
        Part::Up("grade", 8),
    ];
    let made = port(alloc, parts.as_slice())?;
    assert!(rt; made.name.as_str() == "lift");
    assert!(rt; made.kind.is_same(&kind(alloc)?));
    assert!(rt; has_units(&made.unit));
    Ok(())
}
