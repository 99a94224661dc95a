//! Terms: relations between rows, put together from simple ones, by which designs are solved.
#![tactic(auto)]

mod laws;
mod term;

pub use laws::terms_are_monotone;
pub use term::{Primitive, Target, Term};
