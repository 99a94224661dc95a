//! How deep and how large the designs of a library are, found without expanding them.
#![tactic(auto)]

mod form;
mod forms;
mod measures;
mod measuring;

pub use measures::{Measured, measures_of};
