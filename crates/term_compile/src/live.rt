ghost use Rattle.std.specs.Prelude.{◌≡◌, ◌++◌, [], ◌∷◌, filter, length, IfOk};
ghost use Rattle.compiled_term.specs.Stages.{new_wires, passed_on};
ghost use Rattle.expr_residual.specs.Plain.{plain};
ghost use Rattle.term_compile.specs.Marks.{AreMarks, stays, value_stays};

use crate::numbers::number_after;
use crate::placing::placed;
use compiled_term::{Wire, WireValue};
use design_model::{Constraint, Expr};
use expr_residual::mark_reads;
use order_core::NoMemory;
use std::alloc::Global;
use unit_core::Dim;
use value_type::Kind;

/// For each of the first `count` wires, whether a constraint reads it.
pub fn marks_of(
    alloc: Global,
    count: usize,
    constraints: &[Constraint],
) -> Result<Vec<bool>, NoMemory>
    ensures size { IfOk result (λ marks. length marks.items ≡ count) }
    ensures marks { IfOk result (λ marks. AreMarks constraints.now marks.items) }
{
    let Ok(mut marks) = vec![in alloc; false; count] else {
        return Err(NoMemory);
    };
    for constraint in constraints {
        mark_reads(&constraint.lower, marks.as_mut_slice());
    }
    Ok(marks)
}

/// Whether the wire stays: it carries what the net is given, or it is still read.
fn stays(start: u32, marks: &[bool], number: u32) -> bool
    ensures { result ≡ stays start marks.now number }
{
    let at = number as usize;
    number < start || (at < marks.len() && marks[at])
}

/// Of the wires and of new ones for these expressions, those that stay.
pub fn carried_on(
    alloc: Global,
    start: u32,
    marks: &[bool],
    wires: &[Wire],
    first: u32,
    exprs: &[Expr],
) -> Result<Vec<WireValue>, NoMemory>
    ensures { IfOk result (λ carried. carried.items ≡ filter (value_stays start marks.now) (passed_on 0 wires.now ++ new_wires wires.now first exprs.now)) }
{
    let mut carried = Vec::new(alloc);
    push_passed_on(alloc, start, marks, wires, &mut carried)?;
    push_new_wires(alloc, start, marks, wires, first, exprs, &mut carried)?;
    Ok(carried)
}

/// Adds those of the wires that stay.
fn push_passed_on(
    alloc: Global,
    start: u32,
    marks: &[bool],
    wires: &[Wire],
    into: &mut Vec<WireValue>,
) -> Result<(), NoMemory>
    ensures { IfOk result (λ _. into.new.items ≡ into.old.items ++ filter (value_stays start marks.now) (passed_on 0 wires.now)) }
{
    for (at, wire) in wires.iter().enumerate() {
        if stays(start, marks, wire.number) {
            let lower = Expr::Own(number_after(0, at)?);
            let kind = wire.kind.copy(alloc)?;
            push_value(wire.number, kind, lower, into)?;
        }
    }
    Ok(())
}

/// Adds the new wires for these expressions that stay. The expressions are over the wires, and the first new wire has
/// this number.
fn push_new_wires(
    alloc: Global,
    start: u32,
    marks: &[bool],
    wires: &[Wire],
    first: u32,
    exprs: &[Expr],
    into: &mut Vec<WireValue>,
) -> Result<(), NoMemory>
    ensures { IfOk result (λ _. into.new.items ≡ into.old.items ++ filter (value_stays start marks.now) (new_wires wires.now first exprs.now)) }
{
    for (at, expr) in exprs.iter().enumerate() {
        let number = number_after(first, at)?;
        if stays(start, marks, number) {
            let lower = placed(alloc, wires, expr)?;
            push_value(number, plain(), lower, into)?;
        }
    }
    Ok(())
}

/// The type of plain numbers.
fn plain() -> Kind
    ensures { result ≡ plain }
{
    Kind::Num(Dim::NONE)
}

fn push_value(
    number: u32,
    kind: Kind,
    lower: Expr,
    into: &mut Vec<WireValue>,
) -> Result<(), NoMemory>
    ensures { IfOk result (λ _. into.new.items ≡ into.old.items ++ record { wire = record { number = number; kind = kind }; lower = lower } ∷ []) }
{
    let wire = Wire { number, kind };
    into.push(WireValue { wire, lower }).map_err(|_| NoMemory)
}
