//! The least resources that one catalogue needs for a functionality.
#![tactic(auto)]

mod minimal;

pub use minimal::minimal_rows;
