//! The rules that references follow, and what they give.
#![tactic(auto)]

mod laws;

pub use laws::references_denote_typed_designs;
