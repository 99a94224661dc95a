ghost use Rattle.std.specs.Prelude.{◌≡◌, Some};
ghost use Rattle.expr_lower.specs.Meanings.{common_dim, dimension, times};
ghost use Rattle.expr_lower.specs.Operators.{product_by};
ghost use Rattle.expr_lower.specs.Operands.{exponent_faults, joining_faults, no_number, size_faults, times_faults};
ghost use Rattle.fault_list.specs.Answers.{Answers};
ghost use Rattle.tree_units.specs.Constants.{dim_product, product_faults};
ghost use Rattle.unit_core.specs.Dimension.{same_dim};

use crate::meaning::{Meaning, Operand};
use fault_list::{Fault, FaultKind, Stop};
use tree_units::{Constant, product_of};
use unit_core::Dim;
use value_type::Kind;

/// What a product is.
pub enum ProductKind {
    /// A constant.
    Constant(Constant),
    /// A number of this dimension.
    Number(Dim),
}

/// The dimension, if it is a number.
fn dimension(meaning: &Meaning) -> Option<Dim>
    ensures { result ≡ dimension meaning.now }
{
    match meaning {
        Meaning::Constant(constant) => Some(constant.dim),
        Meaning::Expression(lower) => match &lower.get().kind {
            Kind::Num(dim) => Some(*dim),
            _ => None,
        },
    }
}

/// The dimension of an operand, which is to be a number.
fn number_dim(operand: &Operand) -> Result<Dim, Stop<Fault>>
    ensures { Answers (no_number operand.now.at operand.now.meaning) (λ dim. Some dim ≡ dimension operand.now.meaning) result }
{
    match dimension(&operand.meaning) {
        Some(dim) => Ok(dim),
        None => Err(Stop::At(Fault {
            kind: FaultKind::Mismatch,
            at: operand.at,
        })),
    }
}

fn same_dim(a: Dim, b: Dim) -> bool
    ensures { result ≡ same_dim a b }
{
    a == b
}

/// The dimension that both operands have.
pub fn common_dim(a: &Operand, b: &Operand) -> Result<Dim, Stop<Fault>>
    ensures { Answers (joining_faults a.now.at b.now.at a.now.meaning b.now.meaning) (λ dim. Some dim ≡ common_dim (dimension a.now.meaning) (dimension b.now.meaning)) result }
{
    let dim = number_dim(a)?;
    let other = number_dim(b)?;
    if !same_dim(dim, other) {
        return Err(Stop::At(Fault {
            kind: FaultKind::Mismatch,
            at: b.at,
        }));
    }
    Ok(dim)
}

/// What the product of the operands is.
pub fn product_kind(at: u64, a: &Operand, b: &Operand) -> Result<ProductKind, Stop<Fault>>
    ensures { Answers (times_faults at a.now.at b.now.at a.now.meaning b.now.meaning) (λ product. Some (product_by product a.now.meaning b.now.meaning) ≡ times a.now.meaning b.now.meaning) result }
{
    let dim = number_dim(a)?;
    let other = number_dim(b)?;
    sized_product(at, &a.meaning, dim, &b.meaning, other)
}

/// What the product of two numbers of these dimensions is.
fn sized_product(
    at: u64,
    a: &Meaning,
    dim: Dim,
    b: &Meaning,
    other: Dim,
) -> Result<ProductKind, Stop<Fault>>
    requires a { Some dim ≡ dimension a.now }
    requires b { Some other ≡ dimension b.now }
    ensures { Answers (size_faults at a.now b.now) (λ product. Some (product_by product a.now b.now) ≡ times a.now b.now) result }
{
    match a {
        Meaning::Constant(a) => match b {
            Meaning::Constant(b) => constant_product(at, *a, *b),
            Meaning::Expression(_) => Ok(ProductKind::Number(product_dim(at, dim, other)?)),
        },
        Meaning::Expression(_) => Ok(ProductKind::Number(product_dim(at, dim, other)?)),
    }
}

/// The product of two constants.
fn constant_product(at: u64, a: Constant, b: Constant) -> Result<ProductKind, Stop<Fault>>
    ensures { Answers (product_faults at a b) (λ product. Some (product_by product (Meaning.Constant a) (Meaning.Constant b)) ≡ times (Meaning.Constant a) (Meaning.Constant b)) result }
{
    match product_of(a, b, at) {
        Ok(constant) => Ok(ProductKind::Constant(constant)),
        Err(fault) => Err(Stop::At(fault)),
    }
}

/// The dimension of a product of two numbers.
fn product_dim(at: u64, a: Dim, b: Dim) -> Result<Dim, Stop<Fault>>
    ensures { Answers (exponent_faults at (Some a) (Some b)) (λ dim. Some dim ≡ dim_product a b) result }
{
    match a.times(b) {
        Some(dim) => Ok(dim),
        None => Err(Stop::At(Fault {
            kind: FaultKind::Exponent,
            at,
        })),
    }
}
