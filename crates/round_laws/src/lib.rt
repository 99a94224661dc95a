//! What holds of rounds: which minima are shown, and how many rounds are enough.
#![tactic(auto)]

mod enough;
mod minima;
mod steps;

pub use enough::{enough_rounds_are_enough, nets_of_a_height_are_steady};
pub use minima::{
    minima_of_steady_designs_are_shown, rounds_are_decided, rows_are_above_minima,
    shown_minima_are_feasible,
};
pub use steps::{nets_are_steady_or_climb, steps_can_be_tight};
