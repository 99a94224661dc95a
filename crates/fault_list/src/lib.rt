//! What can be wrong in the files of a library, and what a check of them answers.
#![tactic(auto)]

mod fault;
mod laws;
mod place;
#[cfg(test)]
mod tests;

pub use fault::{Fault, FaultKind, FileFault, StageFault, Stop};
pub use laws::{first_faults_are_found_in_parts, places_are_sorted_stably};
pub use place::{earlier, in_file};
