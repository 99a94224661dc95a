//! How values and rows are written in reports.
#![tactic(auto)]

mod element;
mod laws;
mod number;
mod row;
mod separator;
#[cfg(test)]
mod tests;
mod value;

pub use laws::counts_are_fractions;
pub use row::{push_row, row_text};
pub use value::{push_value, value_text};
