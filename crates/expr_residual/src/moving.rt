ghost use Rattle.std.specs.Prelude.{◌≡◌, ℕ, Option, IfOk, map};
ghost use Rattle.expr_residual.specs.Moved.{moved};

use design_model::Expr;
use order_core::{Boxed, List, NoMemory};
use std::alloc::Global;

/// Where an expression's reads lead.
pub trait Leads {
    /// The number to which an own port's number leads.
    ghost own_lead: { Self → ℕ → ℕ };

    /// The own port that stands for a required port of a part, if there is one.
    ghost wire: { Self → ℕ → ℕ → Option ℕ };

    /// The number to which an own port's number leads. It fails where that is more than a `u32` holds.
    fn own(&self, number: u32) -> Result<u32, NoMemory>
        ensures { IfOk result (λ lead. lead ≡ own_lead self.now number) };

    /// The own port that stands for a required port of a part, if there is one. It fails where its number is more than a `u32` holds.
    fn inner(&self, part: u32, port: u32) -> Result<Option<u32>, NoMemory>
        ensures { IfOk result (λ found. found ≡ wire self.now part port) };
}

/// The expression over other ports.
#[cycle(moved)]
pub fn moved<L: Leads>(alloc: Global, leads: &L, expr: &Expr) -> Result<Expr, NoMemory>
    ensures { IfOk result (λ made. made ≡ moved (L.own_lead leads.now) (L.wire leads.now) expr.now) }
{
    match expr {
        Expr::Own(number) => Ok(Expr::Own(leads.own(*number)?)),
        Expr::Inner(part, port) => match leads.inner(*part, *port)? {
            Some(wire) => Ok(Expr::Own(wire)),
            None => Ok(Expr::Inner(*part, *port)),
        },
        Expr::Constant(value) => Ok(Expr::Constant(value.copy(alloc)?)),
        Expr::Scale(by, a) => Ok(Expr::Scale(*by, moved_operand(alloc, leads, a)?)),
        Expr::Sum(a, b) => {
            Ok(Expr::Sum(
                moved_operand(alloc, leads, a)?,
                moved_operand(alloc, leads, b)?,
            ))
        }
        Expr::Product(a, b) => {
            Ok(Expr::Product(
                moved_operand(alloc, leads, a)?,
                moved_operand(alloc, leads, b)?,
            ))
        }
        Expr::Greatest(a, b) => {
            Ok(Expr::Greatest(
                moved_operand(alloc, leads, a)?,
                moved_operand(alloc, leads, b)?,
            ))
        }
        Expr::Lesser(a, b) => {
            Ok(Expr::Lesser(
                moved_operand(alloc, leads, a)?,
                moved_operand(alloc, leads, b)?,
            ))
        }
        Expr::Tuple(parts) => {
            Ok(Expr::Tuple(List::of(moved_parts(alloc, leads, parts.items())?)))
        }
    }
}

#[cycle(moved)]
fn moved_operand<L: Leads>(
    alloc: Global,
    leads: &L,
    operand: &Boxed<Expr>,
) -> Result<Boxed<Expr>, NoMemory>
    ensures { IfOk result (λ made. made ≡ moved (L.own_lead leads.now) (L.wire leads.now) operand.now) }
{
    let expr = moved(alloc, leads, operand.get())?;
    Boxed::of(alloc, expr)
}

#[cycle(moved)]
fn moved_parts<L: Leads>(alloc: Global, leads: &L, parts: &[Expr]) -> Result<Vec<Expr>, NoMemory>
    ensures { IfOk result (λ made. made.items ≡ map (moved (L.own_lead leads.now) (L.wire leads.now)) parts.now) }
{
    let mut made = Vec::new(alloc);
    for part in parts {
        let expr = moved(alloc, leads, part)?;
        if made.push(expr).is_err() {
            return Err(NoMemory);
        }
    }
    Ok(made)
}
