//! The term of a design, and that it says what the design says.
#![tactic(auto)]

mod laws;
mod wire;

pub use laws::compiled_terms_are_the_designs;
pub use wire::{Wire, WireValue};
