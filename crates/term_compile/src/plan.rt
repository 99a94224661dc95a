ghost use Rattle.std.specs.Prelude.{◌≡◌, ◌++◌, map, IsTrue, IfOk};
ghost use Rattle.cut_plan.specs.Nets.{HasFewPorts};
ghost use Rattle.design_model.specs.Typed.{IsFew};
ghost use Rattle.design_model.specs.Wiring.{wiring_of};
ghost use Rattle.design_model.specs.declared.design.Design.TheVariants.{Net};
ghost use Rattle.order_core.specs.Pointwise.{Each};
ghost use Rattle.term_compile.specs.Given.{IsPlanOf, covers_in, over_wires_in};

use crate::kinds::{given_kinds, push_port_kinds, signal_kinds};
use crate::numbers::number_after;
use crate::over_wires::{push_covers, push_over_wires};
use crate::standing::Standing;
use crate::wiring::push_wires;
use cut_plan::{Signal, cuts_of};
use design_model::{Constraint, Design, Part};
use order_core::{List, NoMemory};
use std::alloc::Global;
use value_type::{Kind, Port};

/// A net before its parts are worked out.
#[derive(Drop)]
pub struct Plan {
    /// The numbers of its parts, in the order of evaluation.
    pub order: List<u32>,
    /// How many cut signals it has.
    pub signals: usize,
    /// The types of a state.
    pub state: List<Kind>,
    /// The number of wires of what the net is given.
    pub start: u32,
    /// What stands before the first part.
    pub given: Standing,
}

/// The plan of the net that has these ports, parts and constraints.
///
/// It fails where memory is short, where wires are more than a `u32` numbers, and where parts or their ports are.
pub fn plan_of(
    alloc: Global,
    net: &Design,
    provides: &[Port],
    requires_: &[Port],
    parts: &[Part],
    constraints: &[Constraint],
) -> Result<Plan, NoMemory>
    requires { net.now ≡ Net provides.now requires_.now parts.now constraints.now }
    ensures { IfOk result (λ plan. IsPlanOf (wiring_of (λ p. p) provides.now requires_.now parts.now constraints.now) plan) }
{
    if !are_few(parts) {
        return Err(NoMemory);
    }
    let cuts = cuts_of(alloc, net)?;
    let signals = cuts.signals.items();
    let count = signals.len();
    let mut state = signal_kinds(alloc, parts, signals)?;
    push_port_kinds(alloc, requires_, &mut state)?;
    let kinds = given_kinds(alloc, count, provides, state.as_slice())?;
    let mut wires = Vec::new(alloc);
    let start = push_wires(kinds, 0, &mut wires)?;
    let first = number_after(0, provides.len())?;
    let waiting = waiting_first(alloc, first, cuts.order.items(), signals, constraints)?;
    Ok(Plan {
        order: cuts.order,
        signals: count,
        state: List::of(state),
        start,
        given: Standing {
            wires,
            next: start,
            waiting,
        },
    })
}

/// Whether there are fewer than 2^32 parts, and fewer than 2^32 required ports of each.
fn are_few(parts: &[Part]) -> bool
    ensures { IsTrue result → IsFew parts.now × Each HasFewPorts parts.now }
{
    for part in parts {
        if part.design.required_ports().len() > u32::MAX as usize {
            return false;
        }
    }
    parts.len() <= u32::MAX as usize
}

/// The constraints that wait before the first part.
fn waiting_first(
    alloc: Global,
    first: u32,
    order: &[u32],
    signals: &[Signal],
    constraints: &[Constraint],
) -> Result<Vec<Constraint>, NoMemory>
    ensures { IfOk result (λ waiting. waiting.items ≡ covers_in 0 signals.now ++ map (over_wires_in first order.now signals.now) constraints.now) }
{
    let mut waiting = Vec::new(alloc);
    push_covers(signals, &mut waiting)?;
    push_over_wires(alloc, first, order, signals, constraints, &mut waiting)?;
    Ok(waiting)
}
