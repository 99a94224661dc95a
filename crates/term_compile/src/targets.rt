ghost use Rattle.std.specs.List.{flat_map};
ghost use Rattle.std.specs.Prelude.{◌≡◌, ◌++◌, [], ◌∷◌, IfOk};
ghost use Rattle.compiled_term.specs.Stages.{asked_of, asked_of_state};

use crate::placing::placed;
use compiled_term::Wire;
use design_model::{Constraint, Expr, Greater};
use design_term::Target;
use order_core::{List, NoMemory};
use std::alloc::Global;

/// What constraints over these wires ask of the part's provided ports.
pub fn targets_of_part(
    alloc: Global,
    part: u32,
    wires: &[Wire],
    constraints: &[Constraint],
) -> Result<List<Target>, NoMemory>
    ensures { IfOk result (λ made. made ≡ flat_map (λ c. asked_of part wires.now c.greater c.lower) constraints.now) }
{
    let mut targets = Vec::new(alloc);
    for constraint in constraints {
        push_asked_of(alloc, part, wires, constraint, &mut targets)?;
    }
    Ok(List::of(targets))
}

/// Adds what the constraint asks of the part's provided ports.
fn push_asked_of(
    alloc: Global,
    part: u32,
    wires: &[Wire],
    constraint: &Constraint,
    into: &mut Vec<Target>,
) -> Result<(), NoMemory>
    ensures { IfOk result (λ _. into.new.items ≡ into.old.items ++ asked_of part wires.now constraint.now.greater constraint.now.lower) }
{
    match &constraint.greater {
        Greater::Own(_) => Ok(()),
        Greater::Inner(owner, port) => {
            if *owner != part {
                return Ok(());
            }
            let lower = placed(alloc, wires, &constraint.lower)?;
            push_target(*port, lower, into)
        }
    }
}

/// What constraints over these wires ask of the next state.
pub fn targets_of_state(
    alloc: Global,
    wires: &[Wire],
    constraints: &[Constraint],
) -> Result<List<Target>, NoMemory>
    ensures { IfOk result (λ made. made ≡ flat_map (λ c. asked_of_state wires.now c.greater c.lower) constraints.now) }
{
    let mut targets = Vec::new(alloc);
    for constraint in constraints {
        push_asked_of_state(alloc, wires, constraint, &mut targets)?;
    }
    Ok(List::of(targets))
}

/// Adds what the constraint asks of the next state.
fn push_asked_of_state(
    alloc: Global,
    wires: &[Wire],
    constraint: &Constraint,
    into: &mut Vec<Target>,
) -> Result<(), NoMemory>
    ensures { IfOk result (λ _. into.new.items ≡ into.old.items ++ asked_of_state wires.now constraint.now.greater constraint.now.lower) }
{
    match &constraint.greater {
        Greater::Own(port) => {
            let lower = placed(alloc, wires, &constraint.lower)?;
            push_target(*port, lower, into)
        }
        Greater::Inner(_, _) => Ok(()),
    }
}

pub fn push_target(place: u32, lower: Expr, into: &mut Vec<Target>) -> Result<(), NoMemory>
    ensures { IfOk result (λ _. into.new.items ≡ into.old.items ++ record { place = place; lower = lower } ∷ []) }
{
    into.push(Target { place, lower }).map_err(|_| NoMemory)
}
