ghost use Rattle.std.specs.Prelude.{◌≡◌, ◌++◌, IfOk};
ghost use Rattle.std.specs.List.{flat_map};
ghost use Rattle.cut_plan.specs.Reads.{read_by, reads_into, table_from};
ghost use Rattle.design_model.specs.Evaluation.{is_into};

use design_model::{Constraint, Expr, Greater};
use order_core::{List, NoMemory};
use std::alloc::Global;

/// A required port of a part: the part's number and the port's.
#[derive(Clone, Copy, Debug)]
pub struct Signal {
    pub part: u32,
    pub port: u32,
}

/// For each of the first `count` parts, the required ports that constraints into it read.
pub fn reads_of(
    alloc: Global,
    constraints: &[Constraint],
    count: usize,
) -> Result<Vec<List<Signal>>, NoMemory>
    ensures { IfOk result (λ made. made.items ≡ table_from constraints.now 0 count) }
{
    let mut table = Vec::new(alloc);
    for part in 0..count {
        if table.push(reads_into(alloc, constraints, part)?).is_err() {
            return Err(NoMemory);
        }
    }
    Ok(table)
}

/// The required ports that constraints into the part read.
fn reads_into(
    alloc: Global,
    constraints: &[Constraint],
    part: usize,
) -> Result<List<Signal>, NoMemory>
    ensures { IfOk result (λ made. made ≡ reads_into constraints.now part) }
{
    let mut reads = Vec::new(alloc);
    for constraint in constraints {
        if is_into(part, &constraint.greater) {
            push_read(&constraint.lower, &mut reads)?;
        }
    }
    Ok(List::of(reads))
}

/// Whether the port is a provided port of the part.
fn is_into(part: usize, greater: &Greater) -> bool
    ensures { result ≡ is_into part greater.now }
{
    match greater {
        Greater::Own(_) => false,
        Greater::Inner(owner, _) => *owner as usize == part,
    }
}

/// Adds the required ports that the expression reads.
#[cycle(push_read)]
fn push_read(expr: &Expr, into: &mut Vec<Signal>) -> Result<(), NoMemory>
    ensures { IfOk result (λ _. into.new.items ≡ into.old.items ++ read_by expr.now) }
{
    match expr {
        Expr::Own(_) => Ok(()),
        Expr::Inner(part, port) => {
            let read = Signal {
                part: *part,
                port: *port,
            };
            into.push(read).map_err(|_| NoMemory)
        }
        Expr::Constant(_) => Ok(()),
        Expr::Scale(_, a) => push_read(a.get(), into),
        Expr::Sum(a, b) | Expr::Product(a, b) | Expr::Greatest(a, b) | Expr::Lesser(a, b) => {
            push_read(a.get(), into)?;
            push_read(b.get(), into)
        }
        Expr::Tuple(parts) => push_each(parts.items(), into),
    }
}

#[cycle(push_read)]
fn push_each(parts: &[Expr], into: &mut Vec<Signal>) -> Result<(), NoMemory>
    ensures { IfOk result (λ _. into.new.items ≡ into.old.items ++ flat_map read_by parts.now) }
{
    for part in parts {
        push_read(part, into)?;
    }
    Ok(())
}
