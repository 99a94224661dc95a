ghost use Rattle.std.specs.Prelude.{◌≡◌, ◌++◌, ◌+◌, [], ◌∷◌, length, map, IfOk};
ghost use Rattle.compiled_term.specs.Stages.{targets_from};
ghost use Rattle.compiled_term.specs.Wires.{wire_kinds, wires_from};

use crate::numbers::number_after;
use crate::targets::push_target;
use compiled_term::{Wire, WireValue};
use design_term::Target;
use order_core::{List, NoMemory};
use std::alloc::Global;
use value_type::Kind;

/// The types of the wires.
pub fn wire_kinds(alloc: Global, wires: &[Wire]) -> Result<List<Kind>, NoMemory>
    ensures { IfOk result (λ kinds. kinds ≡ wire_kinds wires.now) }
{
    let mut kinds = Vec::new(alloc);
    for wire in wires {
        let kind = wire.kind.copy(alloc)?;
        if kinds.push(kind).is_err() {
            return Err(NoMemory);
        }
    }
    Ok(List::of(kinds))
}

/// Adds wires of these types, numbered from this one on. Gives the number after them.
pub fn push_wires(kinds: Vec<Kind>, first: u32, into: &mut Vec<Wire>) -> Result<u32, NoMemory>
    ensures wires { IfOk result (λ _. into.new.items ≡ into.old.items ++ wires_from first kinds.items) }
    ensures next { IfOk result (λ next. next ≡ first + length kinds.items) }
{
    let mut number = first;
    for kind in kinds {
        push_wire(number, kind, into)?;
        number = number_after(number, 1)?;
    }
    Ok(number)
}

fn push_wire(number: u32, kind: Kind, into: &mut Vec<Wire>) -> Result<(), NoMemory>
    ensures { IfOk result (λ _. into.new.items ≡ into.old.items ++ record { number = number; kind = kind } ∷ []) }
{
    into.push(Wire { number, kind }).map_err(|_| NoMemory)
}

/// Each value as a target in its place. Adds the wires.
pub fn targets_from(
    alloc: Global,
    carried: Vec<WireValue>,
    wires: &mut Vec<Wire>,
) -> Result<List<Target>, NoMemory>
    ensures targets { IfOk result (λ targets. targets ≡ targets_from 0 carried.items) }
    ensures wires { IfOk result (λ _. wires.new.items ≡ wires.old.items ++ map (λ c. c.wire) carried.items) }
{
    let mut targets = Vec::new(alloc);
    for value in carried {
        let WireValue { wire, lower } = value;
        let place = number_after(0, targets.len())?;
        push_target(place, lower, &mut targets)?;
        push_wire(wire.number, wire.kind, wires)?;
    }
    Ok(List::of(targets))
}
