ghost use Rattle.std.specs.Prelude.{◌≡◌, ◌++◌, [], ◌∷◌, map, IfOk};
ghost use Rattle.compiled_term.specs.CompiledTerm.{state_port};
ghost use Rattle.design_model.specs.Evaluation.{place};
ghost use Rattle.term_compile.specs.Given.{covers_in, cut_wire_in, is_cut_in, over_wires_in, place_among};

use crate::numbers::number_after;
use cut_plan::Signal;
use design_model::{Constraint, Expr, Greater};
use expr_residual::{Leads, moved};
use order_core::NoMemory;
use std::alloc::Global;

/// Where cut reads lead: to the wires of the state before.
#[derive(Drop)]
struct CutReads<'a> {
    /// The wire of the first cut signal.
    first: u32,
    order: &'a [u32],
    signals: &'a [Signal],
    /// The greater side of the constraint that reads.
    into: &'a Greater,
}

impl<'a> Leads for CutReads<'a> {
    ghost own_lead = { λ reads. λ number. number };

    ghost wire = { λ reads. cut_wire_in reads.first reads.order.now reads.signals.now reads.into.now };

    fn own(&self, number: u32) -> Result<u32, NoMemory> {
        Ok(number)
    }

    fn inner(&self, part: u32, port: u32) -> Result<Option<u32>, NoMemory> {
        if !is_cut_read(self.order, self.into, part) {
            return Ok(None);
        }
        let wire = number_after(self.first, place_among(self.signals, part, port))?;
        Ok(Some(wire))
    }
}

/// Whether a constraint with this greater side reads the owner by a cut read.
fn is_cut_read(order: &[u32], into: &Greater, owner: u32) -> bool
    ensures { result ≡ is_cut_in order.now into.now owner }
{
    match into {
        Greater::Own(_) => false,
        Greater::Inner(part, _) => place_in(order, *part) <= place_in(order, owner),
    }
}

/// How many parts stand before this one.
fn place_in(order: &[u32], part: u32) -> usize
    ensures { result ≡ place order.now part }
{
    for (at, number) in order.iter().enumerate() {
        if *number == part {
            return at;
        }
    }
    order.len()
}

/// How many signals stand before the one of this port.
fn place_among(signals: &[Signal], part: u32, port: u32) -> usize
    ensures { result ≡ place_among signals.now part port }
{
    for (at, signal) in signals.iter().enumerate() {
        if signal.part == part && signal.port == port {
            return at;
        }
    }
    signals.len()
}

/// Adds for each cut signal that the next state has at its place at least what the part carries.
pub fn push_covers(signals: &[Signal], into: &mut Vec<Constraint>) -> Result<(), NoMemory>
    ensures { IfOk result (λ _. into.new.items ≡ into.old.items ++ covers_in 0 signals.now) }
{
    for (at, signal) in signals.iter().enumerate() {
        let greater = Greater::Own(number_after(0, at)?);
        push_constraint(greater, Expr::Inner(signal.part, signal.port), into)?;
    }
    Ok(())
}

/// Adds the constraints over wires of what the net is given, where the wire of the first cut signal is `first`.
pub fn push_over_wires(
    alloc: Global,
    first: u32,
    order: &[u32],
    signals: &[Signal],
    constraints: &[Constraint],
    into: &mut Vec<Constraint>,
) -> Result<(), NoMemory>
    ensures { IfOk result (λ _. into.new.items ≡ into.old.items ++ map (over_wires_in first order.now signals.now) constraints.now) }
{
    for constraint in constraints {
        push_over_wires_of(alloc, first, order, signals, constraint, into)?;
    }
    Ok(())
}

/// Adds the constraint over wires of what the net is given.
fn push_over_wires_of(
    alloc: Global,
    first: u32,
    order: &[u32],
    signals: &[Signal],
    constraint: &Constraint,
    into: &mut Vec<Constraint>,
) -> Result<(), NoMemory>
    ensures { IfOk result (λ _. into.new.items ≡ into.old.items ++ over_wires_in first order.now signals.now constraint.now ∷ []) }
{
    let greater = state_port(signals.len(), &constraint.greater)?;
    let reads = CutReads {
        first,
        order,
        signals,
        into: &constraint.greater,
    };
    let lower = moved(alloc, &reads, &constraint.lower)?;
    push_constraint(greater, lower, into)
}

/// The port, where an own required one stands in the state after so many cut signals.
fn state_port(signals: usize, greater: &Greater) -> Result<Greater, NoMemory>
    ensures { IfOk result (λ made. made ≡ state_port signals greater.now) }
{
    match greater {
        Greater::Own(port) => Ok(Greater::Own(number_after(*port, signals)?)),
        Greater::Inner(part, port) => Ok(Greater::Inner(*part, *port)),
    }
}

fn push_constraint(
    greater: Greater,
    lower: Expr,
    into: &mut Vec<Constraint>,
) -> Result<(), NoMemory>
    ensures { IfOk result (λ _. into.new.items ≡ into.old.items ++ record { greater = greater; lower = lower } ∷ []) }
{
    into.push(Constraint { greater, lower })
        .map_err(|_| NoMemory)
}
