ghost use Rattle.std.specs.Prelude.{◌≡◌, IfOk, map};
ghost use Rattle.expr_lower.specs.Reading.{tuple_of};

use crate::leaf::expression;
use crate::meaning::{Lower, Meaning, Operand};
use design_model::Expr;
use order_core::{Boxed, List, NoMemory};
use std::alloc::Global;
use value_type::Kind;

/// The tuple of lowered parts, at its place.
pub fn tuple(alloc: Global, at: u64, parts: List<Boxed<Lower>>) -> Result<Operand, NoMemory>
    ensures { IfOk result (λ made. made ≡ record { at = at; meaning = Meaning.Expression (tuple_of parts) }) }
{
    let kinds = kinds_of(alloc, parts.items())?;
    let exprs = exprs_of(alloc, parts)?;
    let kind = Kind::Prod(kinds);
    let expr = Expr::Tuple(exprs);
    expression(alloc, at, Lower { kind, expr })
}

/// Types equal to those of the parts.
fn kinds_of(alloc: Global, parts: &[Boxed<Lower>]) -> Result<List<Kind>, NoMemory>
    ensures { IfOk result (λ made. made ≡ map (λ part. part.kind) parts.now) }
{
    let mut kinds = Vec::new(alloc);
    for part in parts {
        let kind = part.get().kind.copy(alloc)?;
        kinds.push(kind)?;
    }
    Ok(List::of(kinds))
}

/// The expressions of the parts.
fn exprs_of(alloc: Global, parts: List<Boxed<Lower>>) -> Result<List<Expr>, NoMemory>
    ensures { IfOk result (λ made. made ≡ map (λ part. part.expr) parts) }
{
    let exprs = parts
        .into_vec()
        .into_iter()
        .map(|part| part.into_inner().expr);
    Ok(List::of(exprs.collect(alloc)?))
}
