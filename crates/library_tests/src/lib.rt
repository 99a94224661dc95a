//! Tests of the rules of a library, over files that the parser has read.
#![tactic(auto)]

#[cfg(test)]
mod tests;
