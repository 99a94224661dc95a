//! Tests of the lexer and of the parser by their public calls: what no clause says, and that memory isn't refused where
//! there is plenty.
#![tactic(auto)]

#[cfg(test)]
mod tests;
