//! Tests of rows, tables and queries, over texts that the parser has read.
#![tactic(auto)]

#[cfg(test)]
mod tests;
