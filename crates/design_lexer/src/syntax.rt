//! Reading tokens by a grammar: the words that a grammar is put together from, and readers that are put together in
//! the same way.

pub mod class;
pub mod fault;
pub mod lexemes;
mod limit;
mod spelling;
