ghost use Rattle.std.specs.Prelude.{◌≡◌, [], OnOk, is_some, map};
ghost use Rattle.design_lexer.specs.Sides.{same_side};
ghost use Rattle.fault_list.specs.Faults.{earlier, fault_if, least};
ghost use Rattle.name_index.specs.Names.{number_of, with_name};
ghost use Rattle.name_rules.specs.Twice.{port_names, port_repeats, repeats, twice};

use crate::named::Named;
use crate::note::note;
use design_lexer::{NameAt, PortTree, Side};
use fault_list::{Fault, FaultKind};
use name_index::NameIndex;
use order_core::NoMemory;
use std::alloc::Global;

/// Notes each item whose name an earlier item has.
pub fn note_twice<T: Named>(
    alloc: Global,
    items: &[T],
    first: &mut Option<Fault>,
) -> Result<(), NoMemory>
    ensures { OnOk result (first.new ≡ earlier first.old (least (repeats [] (map T.named items.now)))) }
{
    let mut names = NameIndex::new(alloc);
    for item in items {
        note_again(alloc, &mut names, item.name(), first)?;
    }
    Ok(())
}

/// Notes each provided port whose name an earlier one has, and each required port.
pub fn note_twice_ports(
    alloc: Global,
    ports: &[PortTree],
    first: &mut Option<Fault>,
) -> Result<(), NoMemory>
    ensures { OnOk result (first.new ≡ earlier first.old (least (port_repeats ports.now))) }
{
    note_twice_side(alloc, Side::Provides, ports, first)?;
    note_twice_side(alloc, Side::Requires, ports, first)
}

/// Notes each port of the side whose name an earlier one has.
fn note_twice_side(
    alloc: Global,
    side: Side,
    ports: &[PortTree],
    first: &mut Option<Fault>,
) -> Result<(), NoMemory>
    ensures { OnOk result (first.new ≡ earlier first.old (least (repeats [] (port_names side ports.now)))) }
{
    let mut names = NameIndex::new(alloc);
    for port in ports {
        if is_same(side, port.side) {
            note_again(alloc, &mut names, &port.name, first)?;
        }
    }
    Ok(())
}

fn is_same(a: Side, b: Side) -> bool
    ensures { result ≡ same_side a b }
{
    match (a, b) {
        (Side::Provides, Side::Provides) => true,
        (Side::Requires, Side::Requires) => true,
        _ => false,
    }
}

/// Notes the name where it is among those before, and takes it in.
fn note_again(
    alloc: Global,
    names: &mut NameIndex,
    name: &NameAt,
    first: &mut Option<Fault>,
) -> Result<(), NoMemory>
    ensures names { OnOk result (names.new ≡ with_name names.old name.now.name 0) }
    ensures noted { OnOk result (first.new ≡ earlier first.old (least (fault_if (is_some (number_of names.old name.now.name)) (twice name.now)))) }
{
    if names.add(alloc, name.name.as_str(), 0)?.is_some() {
        note(first, FaultKind::Twice, name.at);
    }
    Ok(())
}
