//! The term of a design, made.
#![tactic(auto)]

mod compiler;
mod joining;
mod kinds;
mod live;
mod looping;
mod numbers;
mod over_wires;
mod placing;
mod plan;
mod reading_on;
mod rows;
mod stage;
mod standing;
mod targets;
mod terms;
mod wiring;

pub use compiler::compile;
pub use terms::term_of;
