//! Which numbers chains of pairs lead to, and which they lead back to themselves from.
#![tactic(auto)]

mod bits;
mod laws;
mod reach;
mod rounds;
#[cfg(test)]
mod tests;

pub use laws::{
    chains_are_worked_out, ranks_fall, tables_stay_within, tables_tell_what_comes_back,
};
pub use reach::Reachability;
