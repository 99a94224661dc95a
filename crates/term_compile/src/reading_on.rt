ghost use Rattle.std.specs.Prelude.{◌≡◌, IfOk};
ghost use Rattle.design_model.specs.Evaluation.{is_into};
ghost use Rattle.compiled_term.specs.Stages.{not_into, read_on, all_read_on};

use design_model::{Constraint, Expr, Greater};
use expr_residual::{Frame, reads_part, residual};
use order_core::NoMemory;
use std::alloc::Global;

/// The constraints on other parts and on the next state.
pub fn not_into(
    alloc: Global,
    part: u32,
    waiting: Vec<Constraint>,
) -> Result<Vec<Constraint>, NoMemory>
    ensures { IfOk result (λ others. others.items ≡ not_into part waiting.items) }
{
    let mut others = Vec::new(alloc);
    for constraint in waiting {
        if !is_into(part, &constraint.greater) && others.push(constraint).is_err() {
            return Err(NoMemory);
        }
    }
    Ok(others)
}

/// Whether the port is a provided port of the part.
fn is_into(part: u32, greater: &Greater) -> bool
    ensures { result ≡ is_into part greater.now }
{
    match greater {
        Greater::Own(_) => false,
        Greater::Inner(owner, _) => *owner == part,
    }
}

/// The constraints, in which what is read of the frame's part is known. The expressions of new wires are added to
/// `made`.
pub fn all_read_on(
    alloc: Global,
    frame: &Frame,
    constraints: Vec<Constraint>,
    made: &mut Vec<Expr>,
) -> Result<Vec<Constraint>, NoMemory>
    ensures { IfOk result (λ waiting. all_read_on frame.now constraints.items made.old.items ≡ record { waiting = waiting.items; made = made.new.items }) }
{
    let mut waiting = Vec::new(alloc);
    for constraint in constraints {
        let constraint = read_on(alloc, frame, constraint, made)?;
        if waiting.push(constraint).is_err() {
            return Err(NoMemory);
        }
    }
    Ok(waiting)
}

/// The constraint, in which what is read of the frame's part is known. One that reads nothing of it is the same.
fn read_on(
    alloc: Global,
    frame: &Frame,
    constraint: Constraint,
    made: &mut Vec<Expr>,
) -> Result<Constraint, NoMemory>
    ensures { IfOk result (λ on. on.greater ≡ constraint.greater × read_on frame.now constraint made.old.items ≡ record { expr = on.lower; made = made.new.items }) }
{
    if !reads_part(&constraint.lower, frame.part) {
        return Ok(constraint);
    }
    let lower = residual(alloc, frame, &constraint.lower, made)?;
    Ok(Constraint {
        greater: constraint.greater,
        lower,
    })
}
