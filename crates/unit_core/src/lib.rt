//! Exact fractions and units of measure.
#![tactic(auto)]

mod dim;
mod divisor;
mod fault;
mod fraction;
pub mod laws;
mod names;
mod unit;

pub use dim::Dim;
pub use divisor::greatest_common_divisor;
pub use fault::{FractionFault, UnitFault};
pub use fraction::{Fraction, MAX_PART};
pub use unit::Unit;
