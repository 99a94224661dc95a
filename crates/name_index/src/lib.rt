//! Names with a number each, and the number of a name.
#![tactic(auto)]

mod index;
mod laws;
#[cfg(test)]
mod tests;

pub use index::NameIndex;
pub use laws::names_keep_their_first_number;
