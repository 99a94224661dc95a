//! The cells and records of tables, and the rows that they mean for the ports of a catalogue.
mod cell;
mod header;
mod kept;
mod record;
mod rows;
mod stream;

pub use cell::{name_of_cell, value_of_cell};
pub use kept::Columns;
pub use record::row_of_record;
pub use rows::rows_of_table;
