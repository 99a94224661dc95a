//! Copies. Each equals what was copied.

ghost use Rattle.std.specs.Prelude.{◌≡◌, IfOk};

use crate::design::{CatRow, Design, Part};
use crate::expr::{Constraint, Expr};
use order_core::{Boxed, List, NoMemory};
use std::alloc::Global;
use value_type::copy_ports;

/// A design equal to this one.
#[cycle(copy_design)]
pub fn copy_design(alloc: Global, design: &Design) -> Result<Design, NoMemory>
    ensures { IfOk result (λ made. made ≡ design.now) }
{
    match design {
        Design::Cat {
            provides,
            requires_,
            rows,
        } => Ok(Design::Cat {
            provides: copy_ports(alloc, provides.items())?,
            requires_: copy_ports(alloc, requires_.items())?,
            rows: copy_rows(alloc, rows.items())?,
        }),
        Design::Choice {
            provides,
            requires_,
            branches,
        } => Ok(Design::Choice {
            provides: copy_ports(alloc, provides.items())?,
            requires_: copy_ports(alloc, requires_.items())?,
            branches: List::of(copy_parts(alloc, branches.items())?),
        }),
        Design::Net {
            provides,
            requires_,
            parts,
            constraints,
        } => Ok(Design::Net {
            provides: copy_ports(alloc, provides.items())?,
            requires_: copy_ports(alloc, requires_.items())?,
            parts: List::of(copy_parts(alloc, parts.items())?),
            constraints: copy_constraints(alloc, constraints.items())?,
        }),
    }
}

#[cycle(copy_design)]
fn copy_parts(alloc: Global, parts: &[Part]) -> Result<Vec<Part>, NoMemory>
    ensures { IfOk result (λ made. made.items ≡ parts.now) }
{
    let mut made = Vec::new(alloc);
    for part in parts {
        let name = part.name.copy(alloc)?;
        let design = copy_design(alloc, &part.design)?;
        if made.push(Part { name, design }).is_err() {
            return Err(NoMemory);
        }
    }
    Ok(made)
}

fn copy_rows(alloc: Global, rows: &[CatRow]) -> Result<List<CatRow>, NoMemory>
    ensures { IfOk result (λ made. made ≡ rows.now) }
{
    let mut made = Vec::new(alloc);
    for row in rows {
        let copy = row.copy(alloc)?;
        if made.push(copy).is_err() {
            return Err(NoMemory);
        }
    }
    Ok(List::of(made))
}

fn copy_constraints(alloc: Global, constraints: &[Constraint]) -> Result<List<Constraint>, NoMemory>
    ensures { IfOk result (λ made. made ≡ constraints.now) }
{
    let mut made = Vec::new(alloc);
    for constraint in constraints {
        let copy = constraint.copy(alloc)?;
        if made.push(copy).is_err() {
            return Err(NoMemory);
        }
    }
    Ok(List::of(made))
}

/// An expression equal to this one.
#[cycle(copy_expr)]
pub fn copy_expr(alloc: Global, expr: &Expr) -> Result<Expr, NoMemory>
    ensures { IfOk result (λ made. made ≡ expr.now) }
{
    match expr {
        Expr::Own(port) => Ok(Expr::Own(*port)),
        Expr::Inner(part, port) => Ok(Expr::Inner(*part, *port)),
        Expr::Constant(value) => Ok(Expr::Constant(value.copy(alloc)?)),
        Expr::Scale(by, a) => Ok(Expr::Scale(*by, copy_operand(alloc, a)?)),
        Expr::Sum(a, b) => Ok(Expr::Sum(copy_operand(alloc, a)?, copy_operand(alloc, b)?)),
        Expr::Product(a, b) => {
            Ok(Expr::Product(copy_operand(alloc, a)?, copy_operand(alloc, b)?))
        }
        Expr::Greatest(a, b) => {
            Ok(Expr::Greatest(copy_operand(alloc, a)?, copy_operand(alloc, b)?))
        }
        Expr::Lesser(a, b) => Ok(Expr::Lesser(copy_operand(alloc, a)?, copy_operand(alloc, b)?)),
        Expr::Tuple(parts) => Ok(Expr::Tuple(List::of(copy_exprs(alloc, parts.items())?))),
    }
}

#[cycle(copy_expr)]
fn copy_operand(alloc: Global, operand: &Boxed<Expr>) -> Result<Boxed<Expr>, NoMemory>
    ensures { IfOk result (λ made. made ≡ operand.now) }
{
    let expr = copy_expr(alloc, operand.get())?;
    Boxed::of(alloc, expr)
}

#[cycle(copy_expr)]
fn copy_exprs(alloc: Global, exprs: &[Expr]) -> Result<Vec<Expr>, NoMemory>
    ensures { IfOk result (λ made. made.items ≡ exprs.now) }
{
    let mut made = Vec::new(alloc);
    for expr in exprs {
        let copy = copy_expr(alloc, expr)?;
        if made.push(copy).is_err() {
            return Err(NoMemory);
        }
    }
    Ok(made)
}
