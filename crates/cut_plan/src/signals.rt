ghost use Rattle.std.specs.Prelude.{◌≡◌, ◌++◌, ℕ, ◌<◌, map, filter, length, get_or, slice_get, IfOk};
ghost use Rattle.std.specs.Option.{option_copied};
ghost use Rattle.order_core.specs.Pointwise.{Each};
ghost use Rattle.cut_plan.specs.CutReads.{late_reads, is_late, is_listed, late_at, listed_ports, listed_signals};
ghost use Rattle.cut_plan.specs.Nets.{HasFewPorts};
ghost use Rattle.cut_plan.specs.OrderOf.{IsOrderOf};
ghost use Rattle.design_model.specs.Evaluation.{place};
ghost use Rattle.design_model.specs.Typed.{IsFew};

use crate::reads::Signal;
use design_model::Part;
use order_core::{List, NoMemory};
use std::alloc::Global;

/// For each part its place in the order.
pub fn places_of(alloc: Global, order: &[usize]) -> Result<Vec<usize>, NoMemory>
    requires { IsOrderOf (length order.now) order.now }
    ensures size { IfOk result (λ made. length made.items ≡ length order.now) }
    ensures places { IfOk result (λ made. (p : ℕ) → p < length order.now → get_or made.items p 0 ≡ place order.now p) }
{
    let Ok(mut places) = vec![in alloc; 0; order.len()] else {
        return Err(NoMemory);
    };
    for (at, part) in order.iter().enumerate() {
        places[*part] = at;
    }
    Ok(places)
}

/// What the parts read by cut reads, where the table says what each of them reads.
pub fn late_reads(
    alloc: Global,
    table: &[List<Signal>],
    places: &[usize],
) -> Result<Vec<Signal>, NoMemory>
    requires { length table.now ≡ length places.now }
    ensures { IfOk result (λ made. made.items ≡ late_reads places.now table.now places.now) }
{
    let mut late = Vec::new(alloc);
    for (reader, signals) in table.iter().enumerate() {
        push_late(signals.items(), places, places[reader], &mut late)?;
    }
    Ok(late)
}

/// Adds what a part at this place reads by cut reads.
fn push_late(
    signals: &[Signal],
    places: &[usize],
    at: usize,
    into: &mut Vec<Signal>,
) -> Result<(), NoMemory>
    ensures { IfOk result (λ _. into.new.items ≡ into.old.items ++ filter (is_late places.now at) signals.now) }
{
    for signal in signals {
        if is_late(places, at, *signal) && into.push(*signal).is_err() {
            return Err(NoMemory);
        }
    }
    Ok(())
}

/// Whether a part at this place reads the signal by a cut read.
fn is_late(places: &[usize], at: usize, signal: Signal) -> bool
    ensures { result ≡ is_late places.now at signal }
{
    match places.get(signal.part as usize) {
        Some(owner) => at <= *owner,
        None => false,
    }
}

/// The required ports of the parts that are listed.
pub fn listed_signals(
    alloc: Global,
    parts: &[Part],
    listed: &[Signal],
) -> Result<Vec<Signal>, NoMemory>
    requires parts { IsFew parts.now }
    requires ports { Each HasFewPorts parts.now }
    ensures { IfOk result (λ made. made.items ≡ listed_signals listed.now 0 parts.now) }
{
    let mut signals = Vec::new(alloc);
    for (number, part) in parts.iter().enumerate() {
        let count = part.design.required_ports().len() as u32;
        push_listed(number as u32, count, listed, &mut signals)?;
    }
    Ok(signals)
}

/// Adds the listed ports of a part that has `count` required ports.
fn push_listed(
    part: u32,
    count: u32,
    listed: &[Signal],
    into: &mut Vec<Signal>,
) -> Result<(), NoMemory>
    ensures { IfOk result (λ _. into.new.items ≡ into.old.items ++ listed_ports listed.now part 0 count) }
{
    for port in 0..count {
        if is_listed(listed, part as usize, port as usize)
            && into.push(Signal { part, port }).is_err()
        {
            return Err(NoMemory);
        }
    }
    Ok(())
}

/// Whether the port is listed.
pub fn is_listed(listed: &[Signal], part: usize, port: usize) -> bool
    ensures { result ≡ is_listed listed.now part port }
{
    for signal in listed {
        if signal.part as usize == part && signal.port as usize == port {
            return true;
        }
    }
    false
}
