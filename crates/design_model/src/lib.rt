//! Designs, what they allow, and the test of one choice.
#![tactic(auto)]

mod comparing;
mod constraint;
mod copy;
mod design;
mod expr;
mod holding;
mod laws;
mod number;
mod reading;
mod solved;
mod value;
mod witness;

pub use comparing::above;
pub use design::{CatRow, Design, Part};
pub use expr::{Constraint, Expr, Greater};
pub use holding::holds;
pub use laws::{expressions_are_monotone, typed_expressions_have_values};
pub use solved::{Point, Solved, Unsteady};
pub use value::value_of;
pub use witness::{PartWitness, Witness};
