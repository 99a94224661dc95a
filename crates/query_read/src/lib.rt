//! The queries that texts write for designs, and the tuples of required values.
#![tactic(auto)]

mod laws;
mod query;
mod row;

pub use laws::{
    queries_fit, refused_texts_have_one_fault, refused_texts_write_no_row, texts_write_one_row,
};
pub use query::{Query, QueryError, QueryFault, read_query, read_tuple};
