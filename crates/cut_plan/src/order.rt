ghost use Rattle.std.specs.Prelude.{◌≡◌, ◌&&◌, not, length, IfOk};
ghost use Rattle.std.specs.List.{list_any};
ghost use Rattle.cut_plan.specs.Turns.{table_reads, left_from, is_left, waits};
ghost use Rattle.design_model.specs.Evaluation.{first_or, next, turns, numbers_from};

use crate::reads::Signal;
use order_core::{List, NoMemory};
use std::alloc::Global;

/// The parts in the order in which they are evaluated, where the table says what each of them reads.
pub fn order_of(alloc: Global, reads: &[List<Signal>]) -> Result<Vec<usize>, NoMemory>
    ensures { IfOk result (λ made. made.items ≡ turns (table_reads reads.now) (length reads.now) (numbers_from 0 (length reads.now))) }
{
    let Ok(mut taken) = vec![in alloc; false; reads.len()] else {
        return Err(NoMemory);
    };
    let mut order = Vec::new(alloc);
    for _turn in 0..reads.len() {
        let part = next_part(reads, taken.as_slice());
        taken[part] = true;
        if order.push(part).is_err() {
            return Err(NoMemory);
        }
    }
    Ok(order)
}

/// The first part left that reads no other one left, or else the first part left.
fn next_part(reads: &[List<Signal>], taken: &[bool]) -> usize
    requires { length reads.now ≡ length taken.now }
    ensures { result ≡ next (table_reads reads.now) (left_from 0 taken.now) }
{
    for (part, signals) in reads.iter().enumerate() {
        if is_next(signals.items(), taken, part) {
            return part;
        }
    }
    first_left(taken)
}

/// The first part left.
fn first_left(taken: &[bool]) -> usize
    ensures { result ≡ first_or 0 (left_from 0 taken.now) }
{
    for (part, is_taken) in taken.iter().enumerate() {
        if !*is_taken {
            return part;
        }
    }
    0
}

/// Whether the part is left, and reads no other one that is.
fn is_next(signals: &[Signal], taken: &[bool], part: usize) -> bool
    ensures { result ≡ (is_left taken.now part && not (list_any (waits taken.now part) signals.now)) }
{
    is_left(taken, part) && !waits_for_some(signals, taken, part)
}

fn waits_for_some(signals: &[Signal], taken: &[bool], part: usize) -> bool
    ensures { result ≡ list_any (waits taken.now part) signals.now }
{
    for signal in signals {
        if waits(taken, part, *signal) {
            return true;
        }
    }
    false
}

/// Whether the signal is of another part, and that one is left.
fn waits(taken: &[bool], part: usize, signal: Signal) -> bool
    ensures { result ≡ waits taken.now part signal }
{
    let other = signal.part as usize;
    is_left(taken, other) && other != part
}

/// Whether the part is there, and is not taken.
fn is_left(taken: &[bool], part: usize) -> bool
    ensures { result ≡ is_left taken.now part }
{
    match taken.get(part) {
        Some(is_taken) => !*is_taken,
        None => false,
    }
}
