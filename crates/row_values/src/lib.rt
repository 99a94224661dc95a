//! What the values of rows mean: whole counts, elements, upper sets and tuples of the types of ports, as trees and as the cells of tables.
#![tactic(auto)]

mod laws;
mod rows;
mod table;
mod value;

pub use laws::{meant_values_fit, tables_have_one_fault, tables_mean_one_list_of_rows};
pub use rows::{place_of, rows_of_trees};
pub use table::{Columns, name_of_cell, row_of_record, rows_of_table, value_of_cell};
pub use value::{CellFault, Rounding, value_of_tree};
