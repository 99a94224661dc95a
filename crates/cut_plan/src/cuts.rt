ghost use Rattle.std.specs.Prelude.{◌≡◌, ◌<◌, ◌^◌, map, length, IsTrue, IfOk};
ghost use Rattle.order_core.specs.Pointwise.{Each};
ghost use Rattle.order_core.specs.Pointwise.{Each};
ghost use Rattle.cut_plan.specs.CutReads.{signal_at};
ghost use Rattle.cut_plan.specs.Cutting.{ListsCuts};
ghost use Rattle.cut_plan.specs.Nets.{is_net, net_in, HasFewPorts};
ghost use Rattle.design_model.specs.Cuts.{cut_signals};
ghost use Rattle.design_model.specs.Evaluation.{evaluation_order, part_reads, turns, numbers_from};
ghost use Rattle.design_model.specs.Steady.{wiring};
ghost use Rattle.design_model.specs.Typed.{IsFew};

use crate::order::order_of;
use crate::reads::{Signal, reads_of};
use crate::signals::{late_reads, listed_signals, places_of};
use design_model::{Constraint, Design};
use order_core::{List, NoMemory};
use std::alloc::Global;

/// The order in which a net's parts are evaluated, and its cut signals.
#[derive(Drop)]
pub struct Cuts {
    /// The numbers of the parts.
    pub order: List<u32>,
    /// By part and then by port.
    pub signals: List<Signal>,
}

/// The order in which a net's parts are evaluated, and the ports that are read by cut reads.
#[derive(Drop)]
pub struct Plan {
    pub order: Vec<usize>,
    pub cut: Vec<Signal>,
}

/// The order of evaluation and the cut signals of a net.
pub fn cuts_of(alloc: Global, net: &Design) -> Result<Cuts, NoMemory>
    requires net { IsTrue (is_net net.now) }
    requires few_parts { IsFew (net_in net.now).parts }
    requires few_ports { Each HasFewPorts (net_in net.now).parts }
    ensures order { IfOk result (λ cuts. cuts.order ≡ evaluation_order (wiring (net_in net.now))) }
    ensures signals { IfOk result (λ cuts. cuts.signals ≡ map signal_at (cut_signals (wiring (net_in net.now)))) }
{
    match net {
        Design::Net {
            parts,
            constraints,
            ..
        } => {
            let plan = plan_of(alloc, constraints.items(), parts.items().len())?;
            let order = in_32_bits(alloc, plan.order.as_slice())?;
            let signals = listed_signals(alloc, parts.items(), plan.cut.as_slice())?;
            Ok(Cuts {
                order,
                signals: List::of(signals),
            })
        }
        _ => unreachable!(),
    }
}

/// The plan of a net that has these constraints and so many parts.
pub fn plan_of(alloc: Global, constraints: &[Constraint], count: usize) -> Result<Plan, NoMemory>
    ensures order { IfOk result (λ plan. plan.order.items ≡ turns (part_reads constraints.now) count (numbers_from 0 count)) }
    ensures cut { IfOk result (λ plan. ListsCuts constraints.now count plan.cut.items) }
{
    let table = reads_of(alloc, constraints, count)?;
    let order = order_of(alloc, table.as_slice())?;
    let places = places_of(alloc, order.as_slice())?;
    let cut = late_reads(alloc, table.as_slice(), places.as_slice())?;
    Ok(Plan { order, cut })
}

/// The same numbers.
fn in_32_bits(alloc: Global, numbers: &[usize]) -> Result<List<u32>, NoMemory>
    requires { Each (λ p. p < 2 ^ 32) numbers.now }
    ensures { IfOk result (λ made. made ≡ numbers.now) }
{
    let mut made = Vec::new(alloc);
    for number in numbers {
        if made.push(*number as u32).is_err() {
            return Err(NoMemory);
        }
    }
    Ok(List::of(made))
}
