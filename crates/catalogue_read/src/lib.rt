//! The rows of the catalogues of a library, from their own trees or from the tables that they name.
#![tactic(auto)]

mod catalogue;
mod check;
mod laws;
mod rows;

pub use check::{check_rows, library_rows};
pub use laws::{files_have_one_bad_row, files_have_one_list_of_rows, rows_of_files_are_typed};
pub use row_values::{CellFault, Rounding, value_of_tree};
pub use rows::{rows_of, rows_with};
