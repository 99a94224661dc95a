//! Worked examples of the model, as theorems.
#![tactic(auto)]

mod examples;
mod rounds;

pub use examples::{
    back_gives_the_top, batteries_at_60, climb_at_4, lifter_at_95, motors_at_90, relay_in_order,
    trade_at_100, two_bounds,
};
pub use rounds::{
    back_is_shown_in_4_rounds, either_in_5_rounds, one_round_less_is_not_enough, outer_in_2_rounds,
};
