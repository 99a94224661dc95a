ghost use Rattle.std.specs.Prelude.{◌≡◌, ◌<◌, ◌^◌, OnOk, length};
ghost use Rattle.fault_list.specs.Faults.{earlier, least};
ghost use Rattle.name_rules.specs.Twice.{branch_repeats, reference_repeats, shared};

use crate::note::note;
use crate::places::places_of;
use crate::twice::note_twice;
use design_lexer::{BranchTree, PortTree, RefTree};
use fault_list::{Fault, FaultKind};
use order_core::NoMemory;
use std::alloc::Global;

/// Notes each argument of a reference, or within its arguments, whose name an earlier one has.
fn note_twice_arguments(
    alloc: Global,
    reference: &RefTree,
    first: &mut Option<Fault>,
) -> Result<(), NoMemory>
    ensures { OnOk result (first.new ≡ earlier first.old (least (reference_repeats reference.now))) }
{
    note_twice(alloc, reference.arguments.items(), first)?;
    for argument in reference.arguments.items() {
        note_twice_arguments(alloc, &argument.reference, first)?;
    }
    Ok(())
}

/// Notes each instance that has the name of a port, or that port.
pub fn note_shared(
    alloc: Global,
    ports: &[PortTree],
    parts: &[BranchTree],
    first: &mut Option<Fault>,
) -> Result<(), NoMemory>
    requires few { length ports.now < 2 ^ 32 }
    ensures { OnOk result (first.new ≡ earlier first.old (least (shared ports.now parts.now))) }
{
    let places = places_of(alloc, ports)?;
    for part in parts {
        if let Some(at) = places.get(part.name.name.as_str()) {
            note(
                first,
                FaultKind::Twice,
                part.name.at.max(ports[at as usize].name.at),
            );
        }
    }
    Ok(())
}

/// Notes what stands twice in the references of branches or instances.
pub fn note_twice_branches(
    alloc: Global,
    branches: &[BranchTree],
    first: &mut Option<Fault>,
) -> Result<(), NoMemory>
    ensures { OnOk result (first.new ≡ earlier first.old (least (branch_repeats branches.now))) }
{
    for branch in branches {
        note_twice_arguments(alloc, &branch.reference, first)?;
    }
    Ok(())
}
