//! What the expressions of a net mean, and their faults.
#![tactic(auto)]

mod expr;
mod laws;
mod leaf;
mod literal;
mod lowering;
mod meaning;
mod operand;
mod operator;
mod parts;
mod ports;

pub use expr::place_of;
pub use laws::{
    expressions_are_typed, expressions_have_meanings_or_faults, expressions_worked_out,
};
pub use lowering::lower;
pub use meaning::{Lower, Meaning};
pub use ports::Readable;
